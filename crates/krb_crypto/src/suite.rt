//! The cipher suites and their derived keys (RFC 3961, section 5.1; RFC 3962, sections 4 and 7).

ghost use Rattle.std.specs.Prelude.{◌≡◌, ◌+◌, ◌≤◌, ◌++◌, ℕ, List, length};
ghost use Rattle.krb_aes.specs.Aes.{AreWordsOf};
ghost use Rattle.krb_crypto.specs.Suite.{suite_number, suite_of_etype, key_size, suite_of_size, HasNumber, key_octets, constant_block, dk, ke, ki, kc};

use crate::error::CryptoError;
use crate::fold::n_fold;
use crate::folded::{checksum_block, encryption_block, integrity_block};
use krb_aes::EncryptionSchedule;

/// An encryption type: AES with ciphertext stealing, and HMAC-SHA1 cut to 96 bits (RFC 3962).
#[derive(Clone, Copy, Debug, PartialEq, Eq)]
pub enum CipherSuite {
    Aes128CtsHmacSha196,
    Aes256CtsHmacSha196,
}

/// The length of an AES key.
#[derive(Clone, Copy, Debug, PartialEq, Eq)]
pub enum AesSize {
    Aes128,
    Aes256,
}

impl TryFrom<i64> for CipherSuite {
    type Error = CryptoError;

    ghost try_from_gives = { HasNumber };

    /// The suite of an etype: 17 or 18.
    fn try_from(value: i64) -> Result<CipherSuite, CryptoError> {
        match value {
            17 => Ok(CipherSuite::Aes128CtsHmacSha196),
            18 => Ok(CipherSuite::Aes256CtsHmacSha196),
            _ => Err(CryptoError::Etype),
        }
    }
}

impl From<AesSize> for CipherSuite {
    ghost from_gives = { λ size suite. suite ≡ suite_of_size size };

    fn from(size: AesSize) -> CipherSuite {
        match size {
            AesSize::Aes128 => CipherSuite::Aes128CtsHmacSha196,
            AesSize::Aes256 => CipherSuite::Aes256CtsHmacSha196,
        }
    }
}

impl CipherSuite {
    /// The suite of an etype that is known to be 17 or 18.
    pub fn of_etype(etype: u8) -> CipherSuite
        ensures { result ≡ suite_of_etype etype }
    {
        if etype == 17 {
            CipherSuite::Aes128CtsHmacSha196
        } else {
            CipherSuite::Aes256CtsHmacSha196
        }
    }

    /// The etype.
    pub fn number(&self) -> u8
        ensures { result ≡ suite_number self.now }
    {
        match self {
            CipherSuite::Aes128CtsHmacSha196 => 17,
            CipherSuite::Aes256CtsHmacSha196 => 18,
        }
    }

    /// The length of a key in octets.
    pub fn key_size(&self) -> usize
        ensures { result ≡ key_size self.now }
    {
        match self {
            CipherSuite::Aes128CtsHmacSha196 => 16,
            CipherSuite::Aes256CtsHmacSha196 => 32,
        }
    }
}

/// A key of 16 or 32 octets.
#[derive(Clone, Copy)]
pub enum DerivedKey {
    Short([u8; 16]),
    Long([u8; 32]),
}

impl DerivedKey {
    /// The octets of the key.
    pub fn as_slice(&self) -> &[u8]
        ensures { result.now ≡ key_octets self.now }
    {
        match self {
            DerivedKey::Short(octets) => octets,
            DerivedKey::Long(octets) => octets,
        }
    }
}

/// The key with these octets.
pub fn key_of(suite: CipherSuite, key: &[u8]) -> DerivedKey
    requires { length key.now ≡ key_size suite }
    ensures { key_octets result ≡ key.now }
{
    match suite {
        CipherSuite::Aes128CtsHmacSha196 => {
            let mut octets = [0; 16];
            octets.copy_from_slice(key);
            DerivedKey::Short(octets)
        }
        CipherSuite::Aes256CtsHmacSha196 => {
            let mut octets = [0; 32];
            octets.copy_from_slice(key);
            DerivedKey::Long(octets)
        }
    }
}

/// A constant as one block.
fn constant_block(constant: &[u8]) -> [u8; 16]
    requires some { 1 ≤ length constant.now }
    requires small { length constant.now ≤ 1024 }
    ensures { result ≡ constant_block constant.now }
{
    if constant.len() == 16 {
        let mut block = [0; 16];
        block.copy_from_slice(constant);
        block
    } else {
        n_fold(constant)
    }
}

fn joined(first: &[u8; 16], second: &[u8; 16]) -> [u8; 32]
    ensures { result ≡ first.now ++ second.now }
{
    let mut out = [0; 32];
    out[..16].copy_from_slice(first);
    out[16..].copy_from_slice(second);
    out
}

/// The key derived from the key whose schedule this is, and from a constant as one block.
fn derive(suite: CipherSuite, schedule: &EncryptionSchedule, block: [u8; 16]) -> DerivedKey
    ensures { (key constant : List ℕ) → AreWordsOf key schedule.now → block ≡ constant_block constant → key_octets result ≡ dk suite key constant }
{
    let first = schedule.encrypt_block(block);
    match suite {
        CipherSuite::Aes128CtsHmacSha196 => DerivedKey::Short(first),
        CipherSuite::Aes256CtsHmacSha196 => {
            let second = schedule.encrypt_block(first);
            DerivedKey::Long(joined(&first, &second))
        }
    }
}

/// Two keys derived from one, each from a constant as one block, side by side.
fn derive_two(
    suite: CipherSuite,
    schedule: &EncryptionSchedule,
    block: [u8; 16],
    other: [u8; 16],
) -> (DerivedKey, DerivedKey)
    ensures first { (key constant : List ℕ) → AreWordsOf key schedule.now → block ≡ constant_block constant → key_octets result.0 ≡ dk suite key constant }
    ensures second { (key constant : List ℕ) → AreWordsOf key schedule.now → other ≡ constant_block constant → key_octets result.1 ≡ dk suite key constant }
{
    let (first, second) = schedule.encrypt_two(block, other);
    match suite {
        CipherSuite::Aes128CtsHmacSha196 => (DerivedKey::Short(first), DerivedKey::Short(second)),
        CipherSuite::Aes256CtsHmacSha196 => {
            let (after_first, after_second) = schedule.encrypt_two(first, second);
            (
                DerivedKey::Long(joined(&first, &after_first)),
                DerivedKey::Long(joined(&second, &after_second)),
            )
        }
    }
}

/// DK(key, constant) of RFC 3961, section 5.1. The constant has 1 to 1,024 octets.
pub fn derive_key(suite: CipherSuite, key: &[u8], constant: &[u8]) -> DerivedKey
    requires size { length key.now ≡ key_size suite }
    requires some { 1 ≤ length constant.now }
    requires small { length constant.now ≤ 1024 }
    ensures { key_octets result ≡ dk suite key.now constant.now }
{
    derive(
        suite,
        &EncryptionSchedule::new(key),
        constant_block(constant),
    )
}

/// The keys of encryption and of the checksum of sealed texts of a usage.
pub(crate) fn sealing_keys(suite: CipherSuite, key: &[u8], usage: u32) -> (DerivedKey, DerivedKey)
    requires { length key.now ≡ key_size suite }
    ensures encryption { key_octets result.0 ≡ ke suite key.now usage }
    ensures integrity { key_octets result.1 ≡ ki suite key.now usage }
{
    derive_two(
        suite,
        &EncryptionSchedule::new(key),
        encryption_block(usage),
        integrity_block(usage),
    )
}

/// The key of the checksum of sealed texts of a usage.
pub(crate) fn derived_integrity_key(suite: CipherSuite, key: &[u8], usage: u32) -> DerivedKey
    requires { length key.now ≡ key_size suite }
    ensures { key_octets result ≡ ki suite key.now usage }
{
    derive(suite, &EncryptionSchedule::new(key), integrity_block(usage))
}

/// The key of checksums alone of a usage.
pub(crate) fn derived_checksum_key(suite: CipherSuite, key: &[u8], usage: u32) -> DerivedKey
    requires { length key.now ≡ key_size suite }
    ensures { key_octets result ≡ kc suite key.now usage }
{
    derive(suite, &EncryptionSchedule::new(key), checksum_block(usage))
}
