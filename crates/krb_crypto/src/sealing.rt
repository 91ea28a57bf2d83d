//! Sealed texts (RFC 3962, section 6), with the keys derived at each call.

ghost use Rattle.std.specs.Prelude.{◌≡◌, ◌↔◌, ◌⊎◌, ◌+◌, ◌-◌, ◌≤◌, ◌<◌, ℕ, List, ◌++◌, length, take, drop, MatchResult, IfOk, IfErr, OnOk};
ghost use Rattle.krb_aes.specs.Aes.{aes};
ghost use Rattle.krb_crypto.specs.Cts.{cts};
ghost use Rattle.krb_crypto.specs.Suite.{key_size, ke};
ghost use Rattle.krb_crypto.specs.SealingPair.{sealing_pair};
ghost use Rattle.krb_crypto.specs.Sealed.{sealed, IsSealed};

use crate::checksum::check_key_length;
use crate::error::CryptoError;
use crate::hmac::HmacKey;
use crate::one_way::{opened_under, sealed_under};
use crate::sealing_key::{Opened, SealingKey};
use crate::suite::{CipherSuite, sealing_keys};
use krb_aes::{DecryptionSchedule, EncryptionSchedule};
use krb_der::Octets;
use std::alloc::{AllocError, Global};

/// The keys of a usage, where the key is as long as the suite's keys are.
fn sealing_key(suite: CipherSuite, key: &[u8], usage: u32) -> Result<SealingKey, CryptoError>
    ensures { MatchResult result
        (λ kept. (kept ≡ sealing_pair suite key.now usage) × (length key.now ≡ key_size suite))
        (λ e. (e ≡ CryptoError.KeyLength) × ¬ (length key.now ≡ key_size suite)) }
{
    if key.len() != suite.key_size() {
        return Err(CryptoError::KeyLength);
    }
    Ok(SealingKey::new(suite, key, usage))
}

/// The confounder and the plain text, sealed under keys that are made ready for that alone.
fn sealed_once(
    alloc: Global,
    suite: CipherSuite,
    key: &[u8],
    usage: u32,
    confounder: [u8; 16],
    plain: &[u8],
) -> Result<Octets, AllocError>
    requires { length key.now ≡ key_size suite }
    ensures sealed { IfOk result (λ text. text ≡ sealed suite key.now usage confounder plain.now) }
    ensures longer { IfOk result (λ text. length text ≡ length plain.now + 28) }
{
    let (encryption, integrity) = sealing_keys(suite, key, usage);
    let schedule = EncryptionSchedule::new(encryption.as_slice());
    let hmac = HmacKey::new(integrity.as_slice());
    sealed_under(alloc, &schedule, &hmac, confounder, plain)
}

/// The plain text that is sealed to this text, opened under keys that are made ready for that alone.
fn opened_once(
    alloc: Global,
    suite: CipherSuite,
    key: &[u8],
    usage: u32,
    text: &[u8],
) -> Result<Octets, CryptoError>
    requires { length key.now ≡ key_size suite }
    ensures opened { IfOk result (λ plain. IsSealed suite key.now usage text.now plain) }
    ensures long { OnOk result (28 ≤ length text.now) }
    ensures too_short { (result ≡ Err CryptoError.TooShort) ↔ (length text.now < 28) }
    ensures altered { result ≡ Err CryptoError.Altered → (28 ≤ length text.now) × ((plain : List ℕ) → ¬ (IsSealed suite key.now usage text.now plain)) }
    ensures memory { result ≡ Err CryptoError.OutOfMemory → 28 ≤ length text.now }
    ensures errors { IfErr result (λ e. (e ≡ CryptoError.TooShort) ⊎ (e ≡ CryptoError.Altered) ⊎ (e ≡ CryptoError.OutOfMemory)) }
{
    let (encryption, integrity) = sealing_keys(suite, key, usage);
    let schedule = DecryptionSchedule::new(encryption.as_slice());
    let hmac = HmacKey::new(integrity.as_slice());
    opened_under(alloc, &schedule, &hmac, text)
}

/// The confounder and the plain text, sealed.
pub fn encrypt(
    alloc: Global,
    suite: CipherSuite,
    key: &[u8],
    usage: u32,
    confounder: [u8; 16],
    plain: &[u8],
) -> Result<Octets, CryptoError>
    ensures sealed { IfOk result (λ text. text ≡ sealed suite key.now usage confounder plain.now) }
    ensures longer { IfOk result (λ text. length text ≡ length plain.now + 28) }
    ensures size { OnOk result (length key.now ≡ key_size suite) }
    ensures key_length { (result ≡ Err CryptoError.KeyLength) ↔ ¬ (length key.now ≡ key_size suite) }
    ensures memory { result ≡ Err CryptoError.OutOfMemory → length key.now ≡ key_size suite }
    ensures errors { IfErr result (λ e. (e ≡ CryptoError.KeyLength) ⊎ (e ≡ CryptoError.OutOfMemory)) }
{
    check_key_length(suite, key)?;
    let text = sealed_once(alloc, suite, key, usage, confounder, plain)?;
    Ok(text)
}

/// The plain text that is sealed to this text.
pub fn decrypt(
    alloc: Global,
    suite: CipherSuite,
    key: &[u8],
    usage: u32,
    text: &[u8],
) -> Result<Octets, CryptoError>
    ensures opened { IfOk result (λ plain. IsSealed suite key.now usage text.now plain) }
    ensures sizes { OnOk result ((length key.now ≡ key_size suite) × (28 ≤ length text.now)) }
    ensures key_length { (result ≡ Err CryptoError.KeyLength) ↔ ¬ (length key.now ≡ key_size suite) }
    ensures too_short { (result ≡ Err CryptoError.TooShort) ↔ ((length key.now ≡ key_size suite) × (length text.now < 28)) }
    ensures altered { result ≡ Err CryptoError.Altered
        → (length key.now ≡ key_size suite) × (28 ≤ length text.now) × ((plain : List ℕ) → ¬ (IsSealed suite key.now usage text.now plain)) }
    ensures memory { result ≡ Err CryptoError.OutOfMemory → (length key.now ≡ key_size suite) × (28 ≤ length text.now) }
    ensures errors { ¬ (result ≡ Err CryptoError.Etype) }
{
    check_key_length(suite, key)?;
    opened_once(alloc, suite, key, usage, text)
}

/// Returns the confounder and the plain text, encrypted, with no checksum after them.
pub fn encrypt_no_checksum(
    alloc: Global,
    suite: CipherSuite,
    key: &[u8],
    usage: u32,
    confounder: [u8; 16],
    plain: &[u8],
) -> Result<Octets, CryptoError>
    ensures encrypted { IfOk result (λ text. text ≡ cts (aes (ke suite key.now usage)) (confounder ++ plain.now)) }
    ensures longer { IfOk result (λ text. length text ≡ length plain.now + 16) }
    ensures size { OnOk result (length key.now ≡ key_size suite) }
    ensures key_length { (result ≡ Err CryptoError.KeyLength) ↔ ¬ (length key.now ≡ key_size suite) }
    ensures memory { result ≡ Err CryptoError.OutOfMemory → length key.now ≡ key_size suite }
    ensures errors { IfErr result (λ e. (e ≡ CryptoError.KeyLength) ⊎ (e ≡ CryptoError.OutOfMemory)) }
{
    let kept = sealing_key(suite, key, usage)?;
    let text = kept.encrypt_no_checksum(alloc, confounder, plain)?;
    Ok(text)
}

/// Decrypts the bytes before the last 12, and returns the confounder, the plain text and those 12 bytes. No checksum is compared.
pub fn decrypt_no_checksum(
    alloc: Global,
    suite: CipherSuite,
    key: &[u8],
    usage: u32,
    text: &[u8],
) -> Result<Opened, CryptoError>
    ensures opened { IfOk result (λ opened. cts (aes (ke suite key.now usage)) (opened.confounder ++ opened.plain) ≡ take (length text.now - 12) text.now) }
    ensures behind { IfOk result (λ opened. opened.checksum ≡ drop (length text.now - 12) text.now) }
    ensures sizes { OnOk result ((length key.now ≡ key_size suite) × (28 ≤ length text.now)) }
    ensures key_length { (result ≡ Err CryptoError.KeyLength) ↔ ¬ (length key.now ≡ key_size suite) }
    ensures too_short { (result ≡ Err CryptoError.TooShort) ↔ ((length key.now ≡ key_size suite) × (length text.now < 28)) }
    ensures memory { result ≡ Err CryptoError.OutOfMemory → (length key.now ≡ key_size suite) × (28 ≤ length text.now) }
    ensures errors { (¬ (result ≡ Err CryptoError.Etype)) × ¬ (result ≡ Err CryptoError.Altered) }
{
    let kept = sealing_key(suite, key, usage)?;
    kept.decrypt_no_checksum(alloc, text)
}
