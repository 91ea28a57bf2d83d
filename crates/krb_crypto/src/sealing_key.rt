//! The keys of one suite, key and usage, derived and expanded once: what a connection keeps to seal and open many texts.

ghost use Rattle.std.specs.Prelude.{◌≡◌, ◌↔◌, ◌+◌, ◌-◌, ◌≤◌, ◌<◌, ◌++◌, ℕ, List, [], length, take, drop, slice_index, vec_len, ◌⊎◌, IsTrue, IfOk, IfErr, OnOk, OnErr};
ghost use Rattle.krb_aes.specs.Aes.{aes};
ghost use Rattle.krb_crypto.specs.Cts.{cts};
ghost use Rattle.krb_crypto.specs.Hmac.{hmac12};
ghost use Rattle.krb_crypto.specs.Suite.{key_size};
ghost use Rattle.krb_crypto.specs.Keyed.{IsHmacOf};
ghost use Rattle.krb_crypto.specs.SealingPair.{sealing_pair};
ghost use Rattle.krb_crypto.specs.Sealed.{sealed_text, IsSealedUnder};

use crate::cbc::block_at;
use crate::cts::{cts_decrypt, cts_encrypt};
use crate::error::CryptoError;
use crate::hmac::{HmacKey, HmacState};
use crate::one_way::{cut, joined, opened_under, reveal_under, seal_under, sealed_under};
use crate::suite::{CipherSuite, DerivedKey, sealing_keys};
use krb_aes::KeySchedule;
use krb_der::Octets;
use std::alloc::{AllocError, Global};
use std::marker::Model;

/// The length of a confounder in octets.
pub const CONFOUNDER_LEN: usize = 16;

/// The length of a checksum in octets: 96 bits.
pub const CHECKSUM_LEN: usize = 12;

/// How much longer than its plain text a sealed text is.
pub const SEALED_EXTRA_LEN: usize = 28;

/// The two keys of sealed texts of one usage, ready for use.
#[derive(Drop)]
pub struct SealingKey {
    encryption: DerivedKey,
    integrity: DerivedKey,
    schedule: KeySchedule,
    hmac: HmacKey,
}

impl Model for SealingKey {
    ghost use Rattle.krb_crypto.specs.SealingPair.{SealingPair};

    ghost Value = { SealingPair };

    ghost use Rattle.krb_crypto.specs.SealingKeys.{pair_of, IsKept};

    ghost view = { pair_of };

    ghost invariant = { IsKept };
}

/// The parts of a decrypted text whose checksum was not compared.
#[derive(Drop)]
pub struct Opened {
    pub confounder: [u8; 16],
    pub plain: Octets,
    pub checksum: [u8; 12],
}

/// The last 12 octets.
fn code_behind(text: &[u8]) -> [u8; 12]
    requires { 12 ≤ length text.now }
    ensures { result ≡ drop (length text.now - 12) text.now }
{
    let mut code = [0; 12];
    code.copy_from_slice(&text[text.len() - CHECKSUM_LEN..]);
    code
}

impl SealingKey {
    /// The keys of a usage, from a key as long as the suite's keys are.
    pub fn new(suite: CipherSuite, key: &[u8], usage: u32) -> SealingKey
        requires { length key.now ≡ key_size suite }
        ensures { result ≡ sealing_pair suite key.now usage }
    {
        let (encryption, integrity) = sealing_keys(suite, key, usage);
        let schedule = KeySchedule::new(encryption.as_slice());
        let hmac = HmacKey::new(integrity.as_slice());
        SealingKey {
            encryption,
            integrity,
            schedule,
            hmac,
        }
    }

    /// Encrypts a text of at least 16 octets in place.
    pub fn encrypt_text(&self, text: &mut [u8])
        requires { 16 ≤ length text.old }
        ensures { text.new ≡ cts (aes self.now.encryption) text.old }
    {
        cts_encrypt(&self.schedule, text);
    }

    /// Decrypts a text of at least 16 octets in place.
    pub fn decrypt_text(&self, text: &mut [u8])
        requires { 16 ≤ length text.old }
        ensures opened { cts (aes self.now.encryption) text.new ≡ text.old }
        ensures octets { (k : ℕ) → slice_index text.new k < 256 }
    {
        cts_decrypt(&self.schedule, text);
    }

    /// The code of nothing yet, for a text that comes in pieces.
    pub fn start_code(&self) -> HmacState
        ensures { IsHmacOf self.now.integrity [] result }
    {
        self.hmac.start()
    }

    /// The checksum of `octets` and then `tail`.
    pub fn checksum(&self, octets: &[u8], tail: &[u8]) -> [u8; 12]
        ensures { result ≡ hmac12 self.now.integrity (octets.now ++ tail.now) }
    {
        self.hmac.short_code(octets, tail)
    }

    /// Seals in place: a confounder of 16 octets, the plain text, and 12 octets of room for the checksum.
    pub fn seal_in_place(&self, text: &mut [u8])
        requires { 28 ≤ length text.old }
        ensures { text.new ≡ sealed_text self.now (take (length text.old - 12) text.old) }
    {
        seal_under(self.schedule.forward(), &self.hmac, text);
    }

    /// Decrypts the bytes before the checksum, and returns whether the checksum is that of the decrypted bytes.
    fn reveal(&self, text: &mut [u8]) -> bool
        requires { 28 ≤ length text.old }
        ensures front { cts (aes self.now.encryption) (take (length text.old - 12) text.new) ≡ take (length text.old - 12) text.old }
        ensures back { drop (length text.old - 12) text.new ≡ drop (length text.old - 12) text.old }
        ensures octets { (k : ℕ) → slice_index text.new k < 256 }
        ensures code { IsTrue result ↔ (hmac12 self.now.integrity (take (length text.old - 12) text.new) ≡ drop (length text.old - 12) text.old) }
    {
        reveal_under(self.schedule.back(), &self.hmac, text)
    }

    /// Decrypts in place: the plain text is then between the 16 bytes of the confounder and the 12 of the checksum.
    /// After an error the text is unchanged.
    pub fn open_in_place(&self, text: &mut [u8]) -> Result<(), CryptoError>
        ensures opened { OnOk result (IsSealedUnder self.now text.old (drop 16 (take (length text.old - 12) text.new))) }
        ensures long { OnOk result (28 ≤ length text.old) }
        ensures too_short { (result ≡ Err CryptoError.TooShort) ↔ (length text.old < 28) }
        ensures altered { result ≡ Err CryptoError.Altered → (28 ≤ length text.old) × ((plain : List ℕ) → ¬ (IsSealedUnder self.now text.old plain)) }
        ensures errors { IfErr result (λ e. (e ≡ CryptoError.TooShort) ⊎ (e ≡ CryptoError.Altered)) }
        ensures refused { OnErr result (text.new ≡ text.old) }
    {
        if text.len() < SEALED_EXTRA_LEN {
            return Err(CryptoError::TooShort);
        }
        if self.reveal(text) {
            return Ok(());
        }
        let end = text.len() - CHECKSUM_LEN;
        self.encrypt_text(&mut text[..end]);
        Err(CryptoError::Altered)
    }

    /// The confounder and the plain text, sealed.
    pub fn seal(
        &self,
        alloc: Global,
        confounder: [u8; 16],
        plain: &[u8],
    ) -> Result<Octets, AllocError>
        ensures sealed { IfOk result (λ text. text ≡ sealed_text self.now (confounder ++ plain.now)) }
        ensures longer { IfOk result (λ text. length text ≡ length plain.now + 28) }
    {
        sealed_under(
            alloc,
            self.schedule.forward(),
            &self.hmac,
            confounder,
            plain,
        )
    }

    /// The plain text that is sealed to this text.
    pub fn open(&self, alloc: Global, text: &[u8]) -> Result<Octets, CryptoError>
        ensures opened { IfOk result (λ plain. IsSealedUnder self.now text.now plain) }
        ensures long { OnOk result (28 ≤ length text.now) }
        ensures too_short { (result ≡ Err CryptoError.TooShort) ↔ (length text.now < 28) }
        ensures altered { result ≡ Err CryptoError.Altered → (28 ≤ length text.now) × ((plain : List ℕ) → ¬ (IsSealedUnder self.now text.now plain)) }
        ensures memory { result ≡ Err CryptoError.OutOfMemory → 28 ≤ length text.now }
        ensures errors { IfErr result (λ e. (e ≡ CryptoError.TooShort) ⊎ (e ≡ CryptoError.Altered) ⊎ (e ≡ CryptoError.OutOfMemory)) }
    {
        opened_under(alloc, self.schedule.back(), &self.hmac, text)
    }

    /// Returns the confounder and the plain text, encrypted, with no checksum after them.
    pub fn encrypt_no_checksum(
        &self,
        alloc: Global,
        confounder: [u8; 16],
        plain: &[u8],
    ) -> Result<Octets, AllocError>
        ensures encrypted { IfOk result (λ text. text ≡ cts (aes self.now.encryption) (confounder ++ plain.now)) }
        ensures longer { IfOk result (λ text. length text ≡ length plain.now + 16) }
    {
        let mut text = joined(alloc, &confounder, plain, &[])?;
        self.encrypt_text(text.as_mut_slice());
        Ok(Octets::new(text))
    }

    /// Decrypts the bytes before the last 12, and returns the confounder, the plain text and those 12 bytes. No checksum is compared.
    pub fn decrypt_no_checksum(&self, alloc: Global, text: &[u8]) -> Result<Opened, CryptoError>
        ensures opened { IfOk result (λ opened. cts (aes self.now.encryption) (opened.confounder ++ opened.plain) ≡ take (length text.now - 12) text.now) }
        ensures behind { IfOk result (λ opened. opened.checksum ≡ drop (length text.now - 12) text.now) }
        ensures long { OnOk result (28 ≤ length text.now) }
        ensures too_short { (result ≡ Err CryptoError.TooShort) ↔ (length text.now < 28) }
        ensures memory { result ≡ Err CryptoError.OutOfMemory → 28 ≤ length text.now }
        ensures errors { IfErr result (λ e. (e ≡ CryptoError.TooShort) ⊎ (e ≡ CryptoError.OutOfMemory)) }
    {
        if text.len() < SEALED_EXTRA_LEN {
            return Err(CryptoError::TooShort);
        }
        let end = text.len() - CHECKSUM_LEN;
        let mut opened = Vec::from_slice(alloc, &text[..end])?;
        self.decrypt_text(opened.as_mut_slice());
        let confounder = block_at(opened.as_slice(), 0);
        Ok(Opened {
            confounder,
            plain: cut(opened, CONFOUNDER_LEN, end),
            checksum: code_behind(text),
        })
    }
}
