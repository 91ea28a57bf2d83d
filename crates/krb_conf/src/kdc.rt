//! The address of the KDC of a realm.

ghost use Rattle.std.specs.Prelude.{◌≡◌, ◌++◌, IfOk, codes, option_copied, option_and_then};
ghost use Rattle.krb_conf.specs.Kdc as words;
ghost use Rattle.krb_conf.specs.Kdc.{kdc_host, first_given, with_protocol};
ghost use Rattle.krb_conf.specs.Env.{named, conf_texts};
ghost use Rattle.std.specs.Option.{option_or};

use crate::config_file::ConfigFile;
use crate::env::{Env, variable};
use crate::key::join;
use crate::texts::concat;
use krb_der::{OutOfMemory, Text};
use std::alloc::Global;
use url::{ParseError, Url};

/// The prefix of the variable of one realm's KDC; the realm's name follows.
const REALM_VARIABLE: &str = "SSPI_KDC_URL_";

/// The variable of the KDC of all realms.
const VARIABLE: &str = "SSPI_KDC_URL";

/// The protocol of an address that names none.
const TCP: &str = "tcp://";

/// Returns the address of the KDC that a file names for a realm.
fn kdc_in(alloc: Global, file: &ConfigFile, realm: &str) -> Result<Option<Text>, OutOfMemory>
    ensures { IfOk result (λ kdc. kdc ≡ words.kdc_in realm.now file.now) }
{
    let key = join(alloc, &["realms", realm, "kdc"])?;
    match file.conf().find(key.as_str()) {
        Some(kdc) => Ok(Some(concat(alloc, TCP, kdc.as_str())?)),
        None => Ok(None),
    }
}

/// Returns the realm's KDC address from the first file that names one.
fn kdc_in_files(alloc: Global, env: &Env, realm: &str) -> Result<Option<Text>, OutOfMemory>
    ensures { IfOk result (λ kdc. kdc
        ≡ first_given (words.kdc_in realm.now) (conf_texts env.now.vars env.now.files)) }
{
    let files = env.conf_files(alloc)?;
    for file in &files {
        if let Some(kdc) = kdc_in(alloc, file, realm)? {
            return Ok(Some(kdc));
        }
    }
    Ok(None)
}

/// Returns the value of the variable with this name, otherwise that of the variable of all realms.
fn configured<'a>(env: &'a Env, own: &str) -> Option<&'a str>
    ensures { option_copied result
        ≡ option_or (named own.entry.now env.entry.now.vars)
        (named (codes "SSPI_KDC_URL") env.entry.now.vars) }
{
    match variable(&env.vars, own) {
        Some(host) => Some(host),
        None => variable(&env.vars, VARIABLE),
    }
}

/// Returns the address of a realm's KDC: the value of the variable `SSPI_KDC_URL_` and the realm; otherwise of
/// `SSPI_KDC_URL`; otherwise `tcp://` and the value of realms, realm, kdc of the first file that has one.
pub fn detect_kdc_host(alloc: Global, env: &Env, domain: &str) -> Result<Option<Text>, OutOfMemory>
    ensures { IfOk result (λ host. host ≡ kdc_host env.now.vars env.now.files domain.now) }
{
    let own = concat(alloc, REALM_VARIABLE, domain)?;
    match configured(env, own.as_str()) {
        Some(host) => Ok(Some(Text::from_str(alloc, host)?)),
        None => kdc_in_files(alloc, env, domain),
    }
}

/// Returns the URL that a text is, if it is one.
fn url_of(alloc: Global, text: &str) -> Result<Option<Url>, OutOfMemory>
    ensures { IfOk result (λ url. url ≡ words.url_of text.now) }
{
    match Url::parse(alloc, text) {
        Ok(url) => Ok(Some(url)),
        Err(ParseError::OutOfMemory | ParseError::Overflow) => Err(OutOfMemory),
        Err(_) => Ok(None),
    }
}

/// Returns the URL of a realm's KDC; None if there is no address, or it is no URL.
pub fn detect_kdc_url(alloc: Global, env: &Env, domain: &str) -> Result<Option<Url>, OutOfMemory>
    ensures { IfOk result (λ url. url
        ≡ option_and_then words.url_of (kdc_host env.now.vars env.now.files domain.now)) }
{
    match detect_kdc_host(alloc, env, domain)? {
        Some(host) => url_of(alloc, host.as_str()),
        None => Ok(None),
    }
}

/// Returns whether an address names its protocol.
fn has_protocol(address: &str) -> bool
    ensures { result ≡ words.has_part (codes "://") address.now }
{
    address.contains("://")
}

/// Returns the URL of an address, which is reached over TCP if it has no `://`; None if that is no URL.
pub fn parse_kdc_url(alloc: Global, kdc_url: &str) -> Result<Option<Url>, OutOfMemory>
    ensures { IfOk result (λ url. url ≡ words.url_of (with_protocol kdc_url.now)) }
{
    if has_protocol(kdc_url) {
        return url_of(alloc, kdc_url);
    }
    let address = concat(alloc, TCP, kdc_url)?;
    url_of(alloc, address.as_str())
}
