//! Names of users.

ghost use Rattle.std.specs.Prelude.{◌≡◌, ◌↔◌, IfOk, IsTrue, MatchOption, None, Some, false};
ghost use Rattle.std.specs.Option.{option_copied};
ghost use Rattle.std.specs.String.{string_bytes};
ghost use Rattle.sspi_core.specs.Shown.{shown, ShowsWhole};
ghost use Rattle.sspi_core.specs.Usernames.{DownLevel, UserPrincipal, has, is_user_name, is_plain, is_plain_option, user_name, parsed};
ghost use Rattle.sspi_core.specs.Usernames.{at_sign, backslash, upn_text, IsCutAtFirst, IsCutAtLast};

use krb_der::{OutOfMemory, Text, TryCopy, has_octet};
use std::alloc::{AllocError, Global};
use std::marker::Model;
use thiserror::Error;

/// Why a text is no user name.
#[derive(Clone, Copy, Debug, PartialEq, Eq, Error)]
pub enum UsernameError {
    /// The text has both signs, or a part has a sign that it may not have.
    #[error("MixedFormat")]
    MixedFormat,
    #[error("OutOfMemory")]
    OutOfMemory,
}

impl From<OutOfMemory> for UsernameError {
    ghost use Rattle.sspi_core.specs.declared.username.UsernameError.TheVariants as errors;

    ghost from_gives = { λ _ e. e ≡ errors.OutOfMemory };

    fn from(_error: OutOfMemory) -> UsernameError {
        UsernameError::OutOfMemory
    }
}

impl From<AllocError> for UsernameError {
    ghost use Rattle.sspi_core.specs.declared.username.UsernameError.TheVariants as errors;

    ghost from_gives = { λ _ e. e ≡ errors.OutOfMemory };

    fn from(_error: AllocError) -> UsernameError {
        UsernameError::OutOfMemory
    }
}

/// How a name is kept.
#[derive(Debug, PartialEq, Eq, Hash, Drop)]
enum Form {
    /// The whole text, and the byte index of its last `@`.
    UserPrincipal(Text, usize),
    /// The account, and the NetBIOS domain.
    DownLevel(Text, Option<Text>),
}

/// The name of a user: `account@suffix`, or an account with a NetBIOS domain or none, as `DOMAIN\account`.
#[derive(Debug, PartialEq, Eq, Hash, Drop)]
pub struct Username {
    form: Form,
}

impl Model for Username {
    ghost use Rattle.sspi_core.specs.Usernames.{UserName};

    ghost Value = { UserName };

    ghost use Rattle.sspi_core.specs.UsernameForms.{name_of, form_of, IsWhole};

    ghost view = { λ a. name_of a.form };

    ghost invariant = { λ a. IsWhole a.form };

    ghost inverse = { λ name. record { form = form_of name } };

    ghost use Rattle.std.proofs.Common.{ap};
    ghost use Rattle.sspi_core.specs.declared.username.Username.TheInside.{Inside};
    ghost use Rattle.sspi_core.specs.FormBack.{form_back};

    ghost inverse_ok = { λ a h. ap (λ form. let inside : Inside = record { form = form } in inside) (form_back a.form h) };
}

/// A user principal name.
#[derive(Clone, Copy, Debug, PartialEq, Eq)]
pub struct UserPrincipalName<'a> {
    /// The whole text.
    pub upn: &'a str,
    /// The text before the last `@`.
    pub account_name: &'a str,
    /// The text after the last `@`.
    pub suffix: &'a str,
}

impl<'a> UserPrincipalName<'a> {
    /// The whole text.
    pub fn upn(&self) -> &'a str
        ensures { result.now ≡ self.now.upn.now }
    {
        self.upn
    }

    /// Returns the text before the last `@`.
    pub fn account_name(&self) -> &'a str
        ensures { result.now ≡ self.now.account_name.now }
    {
        self.account_name
    }

    /// Returns the text after the last `@`.
    pub fn suffix(&self) -> &'a str
        ensures { result.now ≡ self.now.suffix.now }
    {
        self.suffix
    }
}

/// An account, with a NetBIOS domain or none.
#[derive(Clone, Copy, Debug, PartialEq, Eq)]
pub struct DownLevelLogonName<'a> {
    /// The text after the first `\`, or the whole text.
    pub account_name: &'a str,
    /// The text before the first `\`, which may be empty.
    pub netbios_domain: Option<&'a str>,
}

impl<'a> DownLevelLogonName<'a> {
    /// Returns the text after the first `\`, or the whole text.
    pub fn account_name(&self) -> &'a str
        ensures { result.now ≡ self.now.account_name.now }
    {
        self.account_name
    }

    /// Returns the text before the first `\`, which may be empty; None if the text has no `\`.
    pub fn netbios_domain(&self) -> Option<&'a str>
        ensures { result ≡ self.now.netbios_domain }
    {
        self.netbios_domain
    }
}

/// The parts of a name.
#[derive(Clone, Copy, Debug, PartialEq, Eq)]
pub enum UsernameParts<'a> {
    UserPrincipalName(UserPrincipalName<'a>),
    DownLevelLogonName(DownLevelLogonName<'a>),
}

fn is_plain(text: &str) -> bool
    ensures { result ≡ is_plain text.now }
{
    !has_octet(text, b'\\') && !has_octet(text, b'@')
}

fn is_plain_option(text: Option<&str>) -> bool
    ensures { result ≡ is_plain_option (option_copied text.entry) }
{
    match text {
        None => true,
        Some(text) => is_plain(text),
    }
}

/// Returns the texts before and after the first `\`.
fn cut_backslash(text: &str) -> Option<(&str, &str)>
    ensures { MatchOption result (has backslash text.now ≡ false) (λ parts. IsCutAtFirst text.now parts.0.now parts.1.now) }
{
    text.split_once('\\')
}

/// Returns the texts before and after the last `@`.
fn cut_at_sign(text: &str) -> Option<(&str, &str)>
    ensures { MatchOption result (has at_sign text.now ≡ false) (λ parts. IsCutAtLast text.now parts.0.now parts.1.now) }
{
    text.rsplit_once('@')
}

/// The account, `@` and the suffix.
fn joined(alloc: Global, account: &str, suffix: &str) -> Result<Text, OutOfMemory>
    ensures { IfOk result (λ text. text ≡ upn_text account.now suffix.now) }
{
    let mut text = String::with_capacity(alloc, account.len() + 1 + suffix.len())?;
    text.push_str(account)?;
    text.push('@')?;
    text.push_str(suffix)?;
    Ok(Text::new(text))
}

impl Username {
    /// Makes an account with a NetBIOS domain or none. Fails with `MixedFormat` if a part has a `\` or an `@`.
    pub fn new(
        alloc: Global,
        account: &str,
        netbios: Option<&str>,
    ) -> Result<Username, UsernameError>
        ensures name { IfOk result (λ name. user_name (DownLevel account.now (option_copied netbios.entry)) ≡ Some name) }
        ensures mixed { (result ≡ Err UsernameError.MixedFormat) ↔ (user_name (DownLevel account.now (option_copied netbios.entry)) ≡ None) }
    {
        if !is_plain(account) || !is_plain_option(netbios) {
            return Err(UsernameError::MixedFormat);
        }
        let account = Text::from_str(alloc, account)?;
        let netbios = match netbios {
            None => None,
            Some(domain) => Some(Text::from_str(alloc, domain)?),
        };
        Ok(Username {
            form: Form::DownLevel(account, netbios),
        })
    }

    /// Makes a user principal name. Fails with `MixedFormat` if a part has a `\`, or the suffix an `@`.
    pub fn new_upn(alloc: Global, account: &str, suffix: &str) -> Result<Username, UsernameError>
        ensures name { IfOk result (λ name. user_name (UserPrincipal account.now suffix.now) ≡ Some name) }
        ensures mixed { (result ≡ Err UsernameError.MixedFormat) ↔ (user_name (UserPrincipal account.now suffix.now) ≡ None) }
    {
        if has_octet(account, b'\\') || !is_plain(suffix) {
            return Err(UsernameError::MixedFormat);
        }
        let text = joined(alloc, account, suffix)?;
        Ok(Username {
            form: Form::UserPrincipal(text, account.len()),
        })
    }

    /// Parses a name: a domain and an account around the first `\`, an account and a suffix around the last `@`,
    /// or an account alone. Fails with `MixedFormat` if the text has both signs.
    pub fn parse(alloc: Global, value: &str) -> Result<Username, UsernameError>
        ensures name { IfOk result (λ name. parsed value.now ≡ Some name) }
        ensures mixed { (result ≡ Err UsernameError.MixedFormat) ↔ (parsed value.now ≡ None) }
    {
        match cut_backslash(value) {
            Some((netbios, account)) => {
                if has_octet(value, b'@') {
                    Err(UsernameError::MixedFormat)
                } else {
                    Username::new(alloc, account, Some(netbios))
                }
            }
            None => match cut_at_sign(value) {
                Some((account, suffix)) => Username::new_upn(alloc, account, suffix),
                None => Username::new(alloc, value, None),
            },
        }
    }

    /// The parts of the name.
    pub fn parts(&self) -> UsernameParts<'_>
        ensures name { shown result ≡ self.now }
        ensures whole { ShowsWhole result }
        ensures user_name { IsTrue (is_user_name self.now) }
    {
        match &self.form {
            Form::UserPrincipal(text, place) => {
                let upn = text.as_str();
                UsernameParts::UserPrincipalName(UserPrincipalName {
                    upn,
                    account_name: &upn[..*place],
                    suffix: &upn[*place + 1..],
                })
            }
            Form::DownLevel(account, netbios) => {
                UsernameParts::DownLevelLogonName(DownLevelLogonName {
                    account_name: account.as_str(),
                    netbios_domain: lent(netbios),
                })
            }
        }
    }
}

fn lent(text: &Option<Text>) -> Option<&str>
    ensures { option_copied result ≡ text.now }
{
    match text {
        None => None,
        Some(text) => Some(text.as_str()),
    }
}

impl TryCopy for Username {
    fn copy(&self, alloc: Global) -> Result<Username, OutOfMemory> {
        let form = match &self.form {
            Form::UserPrincipal(text, place) => Form::UserPrincipal(text.copy(alloc)?, *place),
            Form::DownLevel(account, netbios) => {
                Form::DownLevel(account.copy(alloc)?, netbios.copy(alloc)?)
            }
        };
        Ok(Username { form })
    }
}
