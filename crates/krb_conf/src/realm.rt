//! The realm of a client.

ghost use Rattle.std.specs.Prelude.{◌≡◌, IfOk, option_copied, option_map, codes, ◌∷◌, []};
ghost use Rattle.std.specs.List.{find};
ghost use Rattle.krb_conf.specs.Realm as words;
ghost use Rattle.krb_conf.specs.Krb5Conf.{values_under};
ghost use Rattle.krb_conf.specs.Realm.{client_realm};
ghost use Rattle.krb_conf.specs.Ascii.{at_sign, full_stop};
ghost use Rattle.krb_conf.specs.Env.{conf_texts};
ghost use Rattle.krb_conf.specs.Kdc.{first_given};

use crate::config_file::ConfigFile;
use crate::env::Env;
use crate::key::{is_same_text, under};
use crate::krb5_conf::Krb5Conf;
use crate::texts::uppercase;
use krb_der::{OutOfMemory, Text, TryCopy};
use std::alloc::Global;

/// Returns the text after the last `@`, if there is one.
fn after_last_at(text: &str) -> Option<&str>
    ensures { option_copied result ≡ words.after_last at_sign text.entry.now }
{
    let at = text.rfind('@')?;
    Some(&text[at + 1..])
}

/// Returns the domain of a user.
fn domain_of<'a>(username: &'a str, given: &'a str) -> &'a str
    ensures { result.now ≡ words.domain_of username.entry.now given.entry.now }
{
    if given.is_empty() {
        after_last_at(username).unwrap_or("")
    } else {
        given
    }
}

/// Returns whether the text ends with the ending, the case of ASCII letters ignored.
fn ends_with_text(text: &[u8], ending: &[u8]) -> bool
    ensures { result ≡ words.ends_with_text text.now ending.now }
{
    let Some(start) = text.len().checked_sub(ending.len()) else {
        return false;
    };
    text[start..].eq_ignore_ascii_case(ending)
}

/// Returns whether the text ends with a dot and the ending, the case of ASCII letters ignored.
fn ends_with_dot_and(text: &[u8], ending: &[u8]) -> bool
    ensures { result ≡ words.ends_with_text text.now (full_stop ∷ ending.now) }
{
    let Some(start) = text.len().checked_sub(ending.len() + 1) else {
        return false;
    };
    text[start] == b'.' && text[start + 1..].eq_ignore_ascii_case(ending)
}

/// Returns whether a mapping fits a domain.
fn fits(domain: &str, mapping: &str) -> bool
    ensures { result ≡ words.fits domain.now mapping.now }
{
    if mapping.starts_with('.') {
        return ends_with_text(domain.as_bytes(), mapping.as_bytes());
    }
    is_same_text(domain, mapping) || ends_with_dot_and(domain.as_bytes(), mapping.as_bytes())
}

/// Returns the realm of the first mapping that fits the domain.
fn mapped_realm<'a>(conf: &'a Krb5Conf, domain: &str) -> Option<&'a Text>
    ensures { option_copied result ≡ option_map (λ entry. entry.1)
        (find (λ entry. words.fits domain.entry.now entry.0)
        (values_under (codes "domain_realm" ∷ []) conf.entry.now)) }
{
    for (key, realm) in conf.values() {
        let Some(mapping) = under(key.as_str(), "domain_realm") else {
            continue;
        };
        if fits(domain, mapping) {
            return Some(realm);
        }
    }
    None
}

/// Returns the realm to which a file maps the domain.
fn realm_in(alloc: Global, file: &ConfigFile, domain: &str) -> Result<Option<Text>, OutOfMemory>
    ensures { IfOk result (λ realm. realm ≡ words.realm_in domain.now file.now) }
{
    match mapped_realm(file.conf(), domain) {
        Some(realm) => Ok(Some(realm.copy(alloc)?)),
        None => Ok(None),
    }
}

/// Returns the realm to which the first file that maps the domain maps it.
fn realm_in_files(alloc: Global, env: &Env, domain: &str) -> Result<Option<Text>, OutOfMemory>
    ensures { IfOk result (λ realm. realm
        ≡ first_given (words.realm_in domain.now) (conf_texts env.now.vars env.now.files)) }
{
    let files = env.conf_files(alloc)?;
    for file in &files {
        if let Some(realm) = realm_in(alloc, file, domain)? {
            return Ok(Some(realm));
        }
    }
    Ok(None)
}

/// Returns the realm of a client: that of the first mapping of the files' `domain_realm` that fits the
/// domain, in the order of the files and of their lines; otherwise the domain in ASCII capitals. The
/// domain is the given one or, if that is empty, the text after the last `@` of the user's name.
pub fn get_client_principal_realm(
    alloc: Global,
    env: &Env,
    username: &str,
    domain: &str,
) -> Result<Text, OutOfMemory>
    ensures { IfOk result (λ realm. realm
        ≡ client_realm env.now.vars env.now.files username.now domain.now) }
{
    let domain = domain_of(username, domain);
    match realm_in_files(alloc, env, domain)? {
        Some(realm) => Ok(realm),
        None => uppercase(alloc, domain),
    }
}
