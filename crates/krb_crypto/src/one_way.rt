//! Sealed texts (RFC 3962, section 6) under a schedule for one direction and the digests of the key of checksums.

ghost use Rattle.std.specs.Prelude.{◌≡◌, ◌↔◌, ◌⊎◌, ◌+◌, ◌-◌, ◌≤◌, ◌<◌, ◌++◌, ℕ, List, length, take, drop, slice_index, vec_len, IsTrue, IfOk, IfErr, OnOk};
ghost use Rattle.krb_aes.specs.Aes.{Undoes};
ghost use Rattle.krb_crypto.specs.Cts.{cts};
ghost use Rattle.krb_crypto.specs.Hmac.{hmac12};
ghost use Rattle.krb_crypto.specs.Keyed.{IsHmacKeyOf};
ghost use Rattle.krb_crypto.specs.OneWay.{CanSeal, CanOpen};
ghost use Rattle.krb_crypto.specs.SealingPair.{SealingPair};
ghost use Rattle.krb_crypto.specs.Sealed.{sealed_text, IsSealedUnder};

use crate::cts::{decrypt_under, encrypt_under};
use crate::error::CryptoError;
use crate::hmac::HmacKey;
use crate::sealing_key::{CHECKSUM_LEN, CONFOUNDER_LEN, SEALED_EXTRA_LEN};
use krb_aes::{DecryptionSchedule, EncryptionSchedule};
use krb_der::{Octets, is_equal};
use std::alloc::{AllocError, Global};

/// The confounder, the plain text and `more` zeros.
pub(crate) fn joined(
    alloc: Global,
    confounder: &[u8; 16],
    plain: &[u8],
    more: &[u8],
) -> Result<Vec<u8>, AllocError>
    ensures { IfOk result (λ text. text.items ≡ confounder.now ++ plain.now ++ more.now) }
{
    let mut text = Vec::with_capacity(alloc, plain.len() + SEALED_EXTRA_LEN)?;
    text.extend_from_slice(confounder)?;
    text.extend_from_slice(plain)?;
    text.extend_from_slice(more)?;
    Ok(text)
}

/// The octets from `start` to `end`, moved to the front of their vector.
pub(crate) fn cut(mut text: Vec<u8>, start: usize, end: usize) -> Octets
    requires order { start ≤ end }
    requires within { end ≤ vec_len text }
    ensures { result ≡ drop start (take end text.items) }
{
    text.truncate(end);
    text.copy_within(start.., 0);
    text.truncate(end - start);
    Octets::new(text)
}

/// Returns whether the bytes are this code.
fn is_code(octets: &[u8], code: &[u8; 12]) -> bool
    ensures { IsTrue result ↔ (code.now ≡ octets.now) }
{
    is_equal(code, octets)
}

/// Seals in place: a confounder of 16 octets, the plain text, and 12 octets of room for the checksum.
pub(crate) fn seal_under(schedule: &EncryptionSchedule, hmac: &HmacKey, text: &mut [u8])
    requires { 28 ≤ length text.old }
    ensures { (keys : SealingPair) → CanSeal keys schedule.now hmac.now → text.new ≡ sealed_text keys (take (length text.old - 12) text.old) }
{
    let end = text.len() - CHECKSUM_LEN;
    let code = hmac.short_code(&text[..end], &[]);
    encrypt_under(schedule, &mut text[..end]);
    text[end..].copy_from_slice(&code);
}

/// The confounder and the plain text, sealed.
pub(crate) fn sealed_under(
    alloc: Global,
    schedule: &EncryptionSchedule,
    hmac: &HmacKey,
    confounder: [u8; 16],
    plain: &[u8],
) -> Result<Octets, AllocError>
    ensures sealed { (keys : SealingPair) → CanSeal keys schedule.now hmac.now → IfOk result (λ text. text ≡ sealed_text keys (confounder ++ plain.now)) }
    ensures longer { IfOk result (λ text. length text ≡ length plain.now + 28) }
{
    let mut text = joined(alloc, &confounder, plain, &[0; 12])?;
    seal_under(schedule, hmac, text.as_mut_slice());
    Ok(Octets::new(text))
}

/// Decrypts the bytes before the checksum, and returns whether the checksum is that of the decrypted bytes.
pub(crate) fn reveal_under(schedule: &DecryptionSchedule, hmac: &HmacKey, text: &mut [u8]) -> bool
    requires { 28 ≤ length text.old }
    ensures front { (E : List ℕ → List ℕ) → Undoes E schedule.now → cts E (take (length text.old - 12) text.new) ≡ take (length text.old - 12) text.old }
    ensures back { drop (length text.old - 12) text.new ≡ drop (length text.old - 12) text.old }
    ensures octets { (k : ℕ) → slice_index text.new k < 256 }
    ensures code { (key : List ℕ) → IsHmacKeyOf key hmac.now
        → (IsTrue result ↔ (hmac12 key (take (length text.old - 12) text.new) ≡ drop (length text.old - 12) text.old)) }
{
    let end = text.len() - CHECKSUM_LEN;
    decrypt_under(schedule, &mut text[..end]);
    let expected = hmac.short_code(&text[..end], &[]);
    is_code(&text[end..], &expected)
}

/// The plain text that is sealed to this text.
pub(crate) fn opened_under(
    alloc: Global,
    schedule: &DecryptionSchedule,
    hmac: &HmacKey,
    text: &[u8],
) -> Result<Octets, CryptoError>
    ensures opened { (keys : SealingPair) → CanOpen keys schedule.now hmac.now → IfOk result (λ plain. IsSealedUnder keys text.now plain) }
    ensures long { OnOk result (28 ≤ length text.now) }
    ensures too_short { (result ≡ Err CryptoError.TooShort) ↔ (length text.now < 28) }
    ensures altered { (keys : SealingPair) → CanOpen keys schedule.now hmac.now → result ≡ Err CryptoError.Altered → (plain : List ℕ) → ¬ (IsSealedUnder keys text.now plain) }
    ensures altered_long { result ≡ Err CryptoError.Altered → 28 ≤ length text.now }
    ensures memory { result ≡ Err CryptoError.OutOfMemory → 28 ≤ length text.now }
    ensures errors { IfErr result (λ e. (e ≡ CryptoError.TooShort) ⊎ (e ≡ CryptoError.Altered) ⊎ (e ≡ CryptoError.OutOfMemory)) }
{
    if text.len() < SEALED_EXTRA_LEN {
        return Err(CryptoError::TooShort);
    }
    let mut opened = Vec::from_slice(alloc, text)?;
    if !reveal_under(schedule, hmac, opened.as_mut_slice()) {
        return Err(CryptoError::Altered);
    }
    Ok(cut(opened, CONFOUNDER_LEN, text.len() - CHECKSUM_LEN))
}
