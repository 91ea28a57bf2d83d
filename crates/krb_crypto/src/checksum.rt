//! Checksums of 96 bits (RFC 3962, section 6): those of encrypted texts and those without an encrypted text.

ghost use Rattle.std.specs.Prelude.{◌≡◌, ◌↔◌, [], ◌++◌, length, MatchResult, IfOk, IfErr, OnOk};
ghost use Rattle.krb_crypto.specs.Hmac.{hmac12};
ghost use Rattle.krb_crypto.specs.Keyed.{IsHmacKeyOf, IsHmacOf};
ghost use Rattle.krb_crypto.specs.Suite.{key_size, suite_of_size, ki, kc};

use crate::error::CryptoError;
use crate::hmac::{HmacKey, HmacState};
use crate::suite::{AesSize, CipherSuite, derived_checksum_key, derived_integrity_key};

/// Returns the key of a usage for checksums without an encrypted text, ready for use. A connection keeps it to check many messages.
pub fn checksum_key(suite: CipherSuite, key: &[u8], usage: u32) -> HmacKey
    requires { length key.now ≡ key_size suite }
    ensures { IsHmacKeyOf (kc suite key.now usage) result }
{
    let derived = derived_checksum_key(suite, key, usage);
    HmacKey::new(derived.as_slice())
}

/// Starts the checksum of a usage, without an encrypted text, over bytes that come in pieces. No byte is in it yet.
pub fn start_checksum(suite: CipherSuite, key: &[u8], usage: u32) -> HmacState
    requires { length key.now ≡ key_size suite }
    ensures { IsHmacOf (kc suite key.now usage) [] result }
{
    checksum_key(suite, key, usage).start()
}

/// Ok where the key is as long as the suite's keys are.
pub(crate) fn check_key_length(suite: CipherSuite, key: &[u8]) -> Result<(), CryptoError>
    ensures { MatchResult result
        (λ _. length key.now ≡ key_size suite)
        (λ e. (e ≡ CryptoError.KeyLength) × ¬ (length key.now ≡ key_size suite)) }
{
    if key.len() != suite.key_size() {
        return Err(CryptoError::KeyLength);
    }
    Ok(())
}

/// The checksum of a sealed text, over `octets` and then `tail`.
pub fn encryption_checksum(
    suite: CipherSuite,
    key: &[u8],
    usage: u32,
    octets: &[u8],
    tail: &[u8],
) -> Result<[u8; 12], CryptoError>
    ensures code { IfOk result (λ code. code ≡ hmac12 (ki suite key.now usage) (octets.now ++ tail.now)) }
    ensures size { OnOk result (length key.now ≡ key_size suite) }
    ensures key_length { (result ≡ Err CryptoError.KeyLength) ↔ ¬ (length key.now ≡ key_size suite) }
    ensures errors { IfErr result (λ e. e ≡ CryptoError.KeyLength) }
{
    check_key_length(suite, key)?;
    let derived = derived_integrity_key(suite, key, usage);
    Ok(HmacKey::new(derived.as_slice()).short_code(octets, tail))
}

/// Returns the checksum of a usage, without an encrypted text, over `octets` and then `tail`.
pub fn checksum_sha_aes(
    key: &[u8],
    usage: u32,
    octets: &[u8],
    tail: &[u8],
    size: AesSize,
) -> Result<[u8; 12], CryptoError>
    ensures code { IfOk result (λ code. code ≡ hmac12 (kc (suite_of_size size) key.now usage) (octets.now ++ tail.now)) }
    ensures size { OnOk result (length key.now ≡ key_size (suite_of_size size)) }
    ensures key_length { (result ≡ Err CryptoError.KeyLength) ↔ ¬ (length key.now ≡ key_size (suite_of_size size)) }
    ensures errors { IfErr result (λ e. e ≡ CryptoError.KeyLength) }
{
    let suite = CipherSuite::from(size);
    check_key_length(suite, key)?;
    Ok(checksum_key(suite, key, usage).short_code(octets, tail))
}
