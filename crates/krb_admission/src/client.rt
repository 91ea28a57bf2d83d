//! The name by which an admitted client is known.

ghost use Rattle.std.specs.Prelude.{◌≡◌, ◌⊎◌, ◌∷◌, Some, None, IfOk, IfErr, List, ℕ};
ghost use Rattle.std.specs.Str.{str_to_ascii_lowercase};
ghost use Rattle.sspi_core.specs.declared.cause.Cause.TheVariants as causes;
ghost use Rattle.sspi_core.specs.Kinds.{error_of};
ghost use Rattle.sspi_core.specs.Usernames.{UserPrincipal, user_name, parsed};
ghost use Rattle.krb_admission.specs.Clients.{client_of, named_by, account_by, user_of, is_known_client};

use krb_context::Rules;
use krb_der::{Name, OutOfMemory};
use krb_messages::PrincipalName;
use sspi_core::{Cause, Error, Username, UsernameError};
use std::alloc::Global;

/// The account at the realm, which is written in lower case.
fn principal(alloc: Global, account: &Name, realm: &Name) -> Result<Option<Username>, OutOfMemory>
    ensures { IfOk result (λ name. name ≡ user_name (UserPrincipal account.now (str_to_ascii_lowercase realm.now))) }
{
    let realm = realm.as_str().to_ascii_lowercase(alloc)?;
    match Username::new_upn(alloc, account.as_str(), realm.as_str()) {
        Ok(name) => Ok(Some(name)),
        Err(UsernameError::MixedFormat) => Ok(None),
        Err(UsernameError::OutOfMemory) => Err(OutOfMemory),
    }
}

/// Returns the user name that this name spells, None if it spells none.
fn enterprise(alloc: Global, name: &Name) -> Result<Option<Username>, OutOfMemory>
    ensures { IfOk result (λ user. user ≡ parsed name.now) }
{
    match Username::parse(alloc, name.as_str()) {
        Ok(user) => Ok(Some(user)),
        Err(UsernameError::MixedFormat) => Ok(None),
        Err(UsernameError::OutOfMemory) => Err(OutOfMemory),
    }
}

fn named_by(
    alloc: Global,
    name_type: &[u8],
    first: &Name,
    realm: &Name,
) -> Result<Option<Username>, OutOfMemory>
    ensures { IfOk result (λ name. name ≡ named_by name_type.now first.now realm.now) }
{
    match name_type {
        [1] => principal(alloc, first, realm),
        [10] => enterprise(alloc, first),
        _ => Ok(None),
    }
}

/// The client of this name and realm, if it is known by one.
#[tactic(auto, unfolding(crate::specs::Clients::client_of))]
pub(crate) fn client_of(
    alloc: Global,
    cname: &PrincipalName,
    crealm: &Name,
) -> Result<Option<Username>, OutOfMemory>
    ensures { IfOk result (λ name. name ≡ client_of cname.now crealm.now) }
{
    match cname.name_string.as_slice() {
        [] => Ok(None),
        [first, ..] => named_by(alloc, cname.name_type.as_slice(), first, crealm),
    }
}

fn account_by(
    alloc: Global,
    cname: &PrincipalName,
    crealm: &Name,
) -> Result<Option<Username>, OutOfMemory>
    ensures { IfOk result (λ name. name ≡ account_by cname.now.name_type cname.now.name_string crealm.now) }
{
    match (cname.name_type.as_slice(), cname.name_string.as_slice()) {
        ([1], [account]) => principal(alloc, account, crealm),
        _ => Ok(None),
    }
}

/// The user name that an acceptor has of its client.
pub(crate) fn user_of(
    alloc: Global,
    rules: Rules,
    cname: &PrincipalName,
    crealm: &Name,
) -> Result<Option<Username>, OutOfMemory>
    ensures { IfOk result (λ name. name ≡ user_of rules cname.now crealm.now) }
{
    if rules.has(Rules::CLIENTS_OF_ANY_NAME) {
        account_by(alloc, cname, crealm)
    } else {
        client_of(alloc, cname, crealm)
    }
}

/// Returns whether the client with this name, and this user name if it has one, is known here.
pub(crate) fn is_known_client(rules: Rules, cname: &PrincipalName, user: &Option<Username>) -> bool
    ensures { (crealm : List ℕ) → user.now ≡ user_of rules cname.now crealm → result ≡ is_known_client rules cname.now crealm }
{
    if rules.has(Rules::CLIENTS_OF_ANY_NAME) {
        !cname.name_string.as_slice().is_empty()
    } else {
        user.is_some()
    }
}

/// Returns the user name of a client: for NT-PRINCIPAL (1) its first component at the realm in lower case, for NT-ENTERPRISE
/// (10) its first component unchanged. Further components are ignored.
///
/// Fails with InvalidToken ClientName if there is no component, the name's type is another, or the result is not a user name.
pub fn client_upn(alloc: Global, cname: &PrincipalName, crealm: &Name) -> Result<Username, Error>
    ensures name { IfOk result (λ name. client_of cname.now crealm.now ≡ Some name) }
    ensures client_name { result ≡ Err (error_of causes.ClientName) → client_of cname.now crealm.now ≡ None }
    ensures errors { IfErr result (λ e. (e ≡ error_of causes.ClientName) ⊎ (e ≡ error_of causes.Memory)) }
{
    match client_of(alloc, cname, crealm) {
        Ok(Some(name)) => Ok(name),
        Ok(None) => Err(Error::from(Cause::ClientName)),
        Err(OutOfMemory) => Err(Error::from(Cause::Memory)),
    }
}
