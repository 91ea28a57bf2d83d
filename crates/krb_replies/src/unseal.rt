//! Decrypts a text under a key, and reads the record in its plain text.

ghost use Rattle.std.specs.Prelude.{◌≡◌, ◌==◌, nat_le, IsTrue, length};
ghost use Rattle.sspi_core.specs.declared.cause.Cause.TheVariants as causes;
ghost use Rattle.krb_crypto.specs.Suite.{key_size};
ghost use Rattle.krb_crypto.specs.Sealed.{IsSealed};
ghost use Rattle.sspi_core.specs.Checks.{Answers, Finds, Holds, Takes};
ghost use Rattle.krb_replies.specs.Unseals.{suite_of_integer, own_key, IsRead, Unseals, OpensSealed, OpensData};

use krb_context::KeptKey;
use krb_crypto::{CipherSuite, CryptoError, SEALED_EXTRA_LEN, decrypt};
use krb_der::{Asn1, Fault, IntegerAsn1, Octets};
use krb_messages::EncryptedData;
use sspi_core::{Cause, hold, take};
use std::alloc::Global;

/// The causes by which an encrypted text is refused.
#[derive(Clone, Copy, Drop)]
pub struct Refusals {
    /// The key has not the length of its suite's keys.
    pub key_length: Cause,
    /// The text has under 28 octets, those of a confounder and a checksum.
    pub short: Cause,
    /// The text does not decrypt under the key.
    pub altered: Cause,
}

/// The causes under a key of the caller's own: each thing that can be wrong has its name.
pub const OWN_KEY: Refusals = Refusals {
    key_length: Cause::KeyLength,
    short: Cause::Short,
    altered: Cause::Altered,
};

/// The causes under a session key that the peer has to know: the reply is not encrypted under it.
pub const SESSION_KEY: Refusals = Refusals {
    key_length: Cause::Reply,
    short: Cause::Reply,
    altered: Cause::Reply,
};

/// Returns the suite of an encryption type, whatever its spelling; None exactly if it is neither 17 nor 18 (RFC 3962, section 7).
#[tactic(auto, unfolding(crate::specs::Unseals::suite_of_integer))]
pub fn suite_of(etype: &IntegerAsn1) -> Option<CipherSuite>
    ensures { result ≡ suite_of_integer etype.now }
{
    match etype.value() {
        Some(17) => Some(CipherSuite::Aes128CtsHmacSha196),
        Some(18) => Some(CipherSuite::Aes256CtsHmacSha196),
        _ => None,
    }
}

/// Reads the record that the octets spell. Fails with `cause` if they spell none.
pub fn read_or<T: Asn1>(alloc: Global, octets: &[u8], cause: Cause) -> Result<T, Cause>
    ensures { Answers (Finds cause (IsRead T.layout octets.now)) result }
{
    match T::read(alloc, octets) {
        Ok(value) => Ok(value),
        Err(Fault::Shape) => Err(cause),
        Err(Fault::OutOfMemory) => Err(Cause::Memory),
    }
}

fn check_key_length(refusals: Refusals, suite: CipherSuite, key: &[u8]) -> Result<(), Cause>
    ensures { Holds refusals.key_length (length key.now == key_size suite) result }
{
    hold(key.len() == suite.key_size(), refusals.key_length)
}

fn check_length(refusals: Refusals, text: &[u8]) -> Result<(), Cause>
    ensures { Holds refusals.short (nat_le 28 (length text.now)) result }
{
    hold(SEALED_EXTRA_LEN <= text.len(), refusals.short)
}

/// Decrypts a text under a key of the suite's length.
fn decrypt_or(
    alloc: Global,
    refusals: Refusals,
    suite: CipherSuite,
    key: &[u8],
    usage: u32,
    text: &[u8],
) -> Result<Octets, Cause>
    requires key { IsTrue (length key.now == key_size suite) }
    requires long { IsTrue (nat_le 28 (length text.now)) }
    ensures { Answers (Finds refusals.altered (IsSealed suite key.now usage text.now)) result }
{
    match decrypt(alloc, suite, key, usage, text) {
        Ok(plain) => Ok(plain),
        Err(CryptoError::Etype) => Err(Cause::Etype),
        Err(CryptoError::KeyLength) => Err(refusals.key_length),
        Err(CryptoError::TooShort) => Err(refusals.short),
        Err(CryptoError::Altered) => Err(refusals.altered),
        Err(CryptoError::OutOfMemory) => Err(Cause::Memory),
    }
}

/// Decrypts a text, after checks of the key's length and of the text's.
pub(crate) fn unseal(
    alloc: Global,
    refusals: Refusals,
    suite: CipherSuite,
    key: &[u8],
    usage: u32,
    text: &[u8],
) -> Result<Octets, Cause>
    ensures { Answers (Unseals refusals suite key.now usage text.now) result }
{
    check_key_length(refusals, suite, key)?;
    check_length(refusals, text)?;
    decrypt_or(alloc, refusals, suite, key, usage, text)
}

/// Reads the record that a plain text is.
pub(crate) fn read_inner<T: Asn1>(alloc: Global, octets: &Octets) -> Result<T, Cause>
    ensures { Answers (Finds causes.Inner (IsRead T.layout octets.now)) result }
{
    read_or(alloc, octets.as_slice(), Cause::Inner)
}

/// Decrypts a text under a key of a suite with this usage, and reads the record in it (RFC 4120, section 7.5.1). Fails with the
/// causes in `refusals`, in their order, if the text does not decrypt so, and with Inner if its plain text is another record.
pub fn open<T: Asn1>(
    alloc: Global,
    refusals: Refusals,
    suite: CipherSuite,
    key: &[u8],
    usage: u32,
    text: &[u8],
) -> Result<T, Cause>
    ensures { Answers (OpensSealed T.layout refusals suite key.now usage text.now) result }
{
    let plain = unseal(alloc, refusals, suite, key, usage, text)?;
    read_inner(alloc, &plain)
}

/// Decrypts a text under a key that may be kept.
fn unseal_kept(
    alloc: Global,
    kept: &mut KeptKey,
    suite: CipherSuite,
    key: &[u8],
    usage: u32,
    text: &[u8],
) -> Result<Octets, Cause>
    ensures { Answers (Unseals own_key suite key.now usage text.now) result }
{
    check_key_length(OWN_KEY, suite, key)?;
    check_length(OWN_KEY, text)?;
    kept.unseal(alloc, suite, key, usage, text)
}

/// Decrypts a text under a key that may be kept, and reads the record in it.
fn open_kept<T: Asn1>(
    alloc: Global,
    kept: &mut KeptKey,
    suite: CipherSuite,
    key: &Octets,
    usage: u32,
    text: &Octets,
) -> Result<T, Cause>
    ensures { Answers (OpensSealed T.layout own_key suite key.now usage text.now) result }
{
    let plain = unseal_kept(alloc, kept, suite, key.as_slice(), usage, text.as_slice())?;
    read_inner(alloc, &plain)
}

fn suite_for(etype: &IntegerAsn1) -> Result<CipherSuite, Cause>
    ensures { Takes causes.Etype (suite_of_integer etype.now) result }
{
    take(suite_of(etype), Cause::Etype)
}

/// Decrypts an EncryptedData under a key, and returns the suite that it names and the record in it. The keys for decryption are
/// derived once for each key and usage, and kept for the next text.
pub fn open_data<T: Asn1>(
    alloc: Global,
    kept: &mut KeptKey,
    key: &Octets,
    usage: u32,
    sealed: &EncryptedData,
) -> Result<(CipherSuite, T), Cause>
    ensures { Answers (OpensData T.layout key.now usage sealed.now) result }
{
    let suite = suite_for(&sealed.etype)?;
    let value = open_kept(alloc, kept, suite, key, usage, &sealed.cipher)?;
    Ok((suite, value))
}
