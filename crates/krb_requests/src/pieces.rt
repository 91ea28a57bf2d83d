//! The parts that several records share.

ghost use Rattle.std.specs.Prelude.{◌≡◌, ◌≤◌, ◌+◌, IfOk, MatchOption, false, length, map};
ghost use Rattle.krb_der.specs.Schema.{is_ascii};
ghost use Rattle.krb_crypto.specs.Suite.{key_size};
ghost use Rattle.krb_context.specs.ServiceKeys.{all_ascii};
ghost use Rattle.sspi_core.specs.declared.cause.Cause.TheVariants as causes;
ghost use Rattle.sspi_core.specs.Moments.{last_moment};
ghost use Rattle.sspi_core.specs.Checks.{Answers, Takes};
ghost use Rattle.krb_requests.specs.Pieces.{encryption_key, sealed_data, sealed_under, name_of, principal, principal_of, whole_second, three_days_after, etypes};

use crate::maker::Maker;
use krb_crypto::{CipherSuite, encrypt};
use krb_der::{IntegerAsn1, Items, Name, Octets, OutOfMemory, Time};
use krb_messages::{EncryptedData, EncryptionKey, PrincipalName};
use sspi_core::Cause;
use std::alloc::Global;

/// The seconds of three days.
const THREE_DAYS: u64 = 259_200;

/// Returns an INTEGER of these octets.
pub fn integer_of(alloc: Global, octets: &[u8]) -> Result<IntegerAsn1, OutOfMemory>
    ensures { IfOk result (λ integer. integer ≡ octets.now) }
{
    Ok(IntegerAsn1::from_bytes_be(Vec::from_slice(alloc, octets)?))
}

/// Returns a key with the number of its suite.
pub fn encryption_key(
    alloc: Global,
    suite: CipherSuite,
    key: &[u8],
) -> Result<EncryptionKey, OutOfMemory>
    ensures { IfOk result (λ made. made ≡ encryption_key suite key.now) }
{
    let mut maker = Maker::new(alloc);
    let made = EncryptionKey {
        key_type: maker.integer(&[suite.number()]),
        key_value: maker.octets(key),
    };
    maker.finish(made)
}

/// Returns EncryptedData with the number of the suite and this encrypted text, without the version number of a key.
pub fn sealed_data(
    alloc: Global,
    suite: CipherSuite,
    cipher: Octets,
) -> Result<EncryptedData, OutOfMemory>
    ensures { IfOk result (λ made. made ≡ sealed_data suite cipher) }
{
    Ok(EncryptedData {
        etype: integer_of(alloc, &[suite.number()])?,
        kvno: None,
        cipher,
    })
}

/// Encrypts a text.
fn cipher_of(
    alloc: Global,
    suite: CipherSuite,
    key: &[u8],
    usage: u32,
    confounder: [u8; 16],
    plain: &[u8],
) -> Result<Octets, OutOfMemory>
    requires key { length key.now ≡ key_size suite }
    ensures sealed { IfOk result (λ cipher. sealed_data suite cipher ≡ sealed_under suite key.now usage confounder plain.now) }
    ensures longer { IfOk result (λ cipher. length cipher ≡ length plain.now + 28) }
{
    match encrypt(alloc, suite, key, usage, confounder, plain) {
        Ok(cipher) => Ok(cipher),
        Err(_) => Err(OutOfMemory),
    }
}

/// Encrypts a text under a key of the suite's length, with a key usage number (RFC 4120, section 7.5.1).
pub fn sealed_under(
    alloc: Global,
    suite: CipherSuite,
    key: &[u8],
    usage: u32,
    confounder: [u8; 16],
    plain: &[u8],
) -> Result<EncryptedData, OutOfMemory>
    requires key { length key.now ≡ key_size suite }
    ensures sealed { IfOk result (λ made. made ≡ sealed_under suite key.now usage confounder plain.now) }
    ensures longer { IfOk result (λ made. length made.cipher ≡ length plain.now + 28) }
{
    let cipher = cipher_of(alloc, suite, key, usage, confounder, plain)?;
    sealed_data(alloc, suite, cipher)
}

/// Returns a text as a name. Fails with `NotAscii` exactly if the text is not ASCII.
pub fn name_of(alloc: Global, text: &str) -> Result<Name, Cause>
    ensures { Answers (Takes causes.NotAscii (name_of text.now)) result }
{
    match Name::new(Vec::from_slice(alloc, text.as_bytes())?) {
        Some(name) => Ok(name),
        None => Err(Cause::NotAscii),
    }
}

/// Returns one component, or None if it is not ASCII.
fn component(alloc: Global, part: &str) -> Result<Option<Name>, OutOfMemory>
    ensures { IfOk result (λ name. MatchOption name (is_ascii part.now ≡ false) (λ n. n ≡ part.now)) }
{
    Ok(Name::new(Vec::from_slice(alloc, part.as_bytes())?))
}

/// Returns the components, or None if one of them is not ASCII.
fn components(alloc: Global, parts: &[&str]) -> Result<Option<Items<Name>>, OutOfMemory>
    ensures { IfOk result (λ names. MatchOption names (all_ascii (map (λ part. part.now) parts.now) ≡ false) (λ n. n ≡ map (λ part. part.now) parts.now)) }
{
    let mut names = Vec::with_capacity(alloc, parts.len())?;
    for part in parts {
        let Some(name) = component(alloc, part)? else {
            return Ok(None);
        };
        names.push(name)?;
    }
    Ok(Some(Items::new(names)))
}

/// Returns whether each part is ASCII.
fn all_ascii(parts: &[&str]) -> bool
    ensures { result ≡ all_ascii (map (λ part. part.now) parts.now) }
{
    for part in parts {
        if !krb_der::is_ascii(part.as_bytes()) {
            return false;
        }
    }
    true
}

/// Returns the name with these components.
fn named(
    alloc: Global,
    name_type: u8,
    name_string: Items<Name>,
) -> Result<PrincipalName, OutOfMemory>
    ensures { IfOk result (λ made. made ≡ principal name_type name_string) }
{
    Ok(PrincipalName {
        name_type: integer_of(alloc, &[name_type])?,
        name_string,
    })
}

/// Returns a name of this type with these components (RFC 4120, section 6.2). Fails with `NotAscii` exactly if one of them is not
/// ASCII.
pub fn principal_of(alloc: Global, name_type: u8, parts: &[&str]) -> Result<PrincipalName, Cause>
    ensures { Answers (Takes causes.NotAscii (principal_of name_type (map (λ part. part.now) parts.now))) result }
{
    if !all_ascii(parts) {
        return Err(Cause::NotAscii);
    }
    match components(alloc, parts)? {
        Some(name_string) => Ok(named(alloc, name_type, name_string)?),
        None => Err(Cause::NotAscii),
    }
}

/// Returns the whole second of a moment, which is in microseconds.
pub fn whole_second(moment: u64) -> Time
    requires { moment ≤ last_moment }
    ensures { result ≡ whole_second moment }
{
    Time::new((moment / 1_000_000) as i64)
}

/// Returns the whole second three days after a moment, which is in microseconds.
pub fn three_days_after(moment: u64) -> Time
    requires { moment ≤ last_moment }
    ensures { result ≡ three_days_after moment }
{
    Time::new((moment / 1_000_000 + THREE_DAYS) as i64)
}

/// Returns the encryption types that a client accepts, the stronger one first (RFC 3962, section 7).
pub fn etypes(alloc: Global) -> Result<Items<IntegerAsn1>, OutOfMemory>
    ensures { IfOk result (λ made. made ≡ etypes) }
{
    let mut maker = Maker::new(alloc);
    let strong = maker.integer(&[18]);
    let weak = maker.integer(&[17]);
    let made = maker.list_of_two(strong, weak);
    maker.finish(made)
}
