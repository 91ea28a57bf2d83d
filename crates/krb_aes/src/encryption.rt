//! The cipher (FIPS 197, section 5.1), on the lanes of a vector.

ghost use Rattle.std.specs.Prelude.{◌≡◌, ◌≤◌, ℕ, List};
ghost use Rattle.krb_aes.specs.Aes.{IsKey, aes, cipher};
ghost use Rattle.krb_aes.specs.RoundKeys.{AreEncryptionKeys};

use crate::lanes::{full_round, into_tower, last_round};
use crate::schedule::{EncryptionSchedule, KeySchedule};
use std::simd::prelude::*;

/// Encrypts a block under the keys of its rounds.
#[inline(never)]
fn encrypted(keys: &[[u8; 16]; 15], rounds: usize, block: u8x16) -> u8x16
    requires some { 2 ≤ rounds }
    requires few { rounds ≤ 14 }
    ensures { (words : List ℕ) → AreEncryptionKeys keys.now words rounds → result ≡ cipher rounds words block }
{
    let mut v = into_tower(block) ^ u8x16::from_array(keys[0]);
    for round in 1..rounds {
        v = full_round(v, u8x16::from_array(keys[round]));
    }
    last_round(v, u8x16::from_array(keys[rounds]))
}

/// Encrypts two blocks side by side: none of their rounds waits for the other's.
#[inline(never)]
fn encrypted_two(keys: &[[u8; 16]; 15], rounds: usize, block: u8x16, other: u8x16) -> (u8x16, u8x16)
    requires some { 2 ≤ rounds }
    requires few { rounds ≤ 14 }
    ensures first { (words : List ℕ) → AreEncryptionKeys keys.now words rounds → result.0 ≡ cipher rounds words block }
    ensures second { (words : List ℕ) → AreEncryptionKeys keys.now words rounds → result.1 ≡ cipher rounds words other }
{
    let start = u8x16::from_array(keys[0]);
    let mut v = into_tower(block) ^ start;
    let mut w = into_tower(other) ^ start;
    for round in 1..rounds {
        let key = u8x16::from_array(keys[round]);
        v = full_round(v, key);
        w = full_round(w, key);
    }
    let end = u8x16::from_array(keys[rounds]);
    (last_round(v, end), last_round(w, end))
}

impl KeySchedule {
    ghost use Rattle.krb_aes.specs.Aes.{block_cipher};

    /// Encrypts one block in a vector.
    pub fn encrypt_vector(&self, block: u8x16) -> u8x16
        ensures { result ≡ block_cipher self.now block }
    {
        encrypted(&self.forward.keys, self.forward.rounds, block)
    }

    /// Encrypts one block.
    pub fn encrypt_block(&self, block: [u8; 16]) -> [u8; 16]
        ensures { result ≡ block_cipher self.now block }
    {
        self.encrypt_vector(u8x16::from_array(block)).to_array()
    }
}

impl EncryptionSchedule {
    ghost use Rattle.krb_aes.specs.Aes.{aes, AreWordsOf, forward_cipher};

    /// Encrypts one block in a vector.
    pub fn encrypt_vector(&self, block: u8x16) -> u8x16
        ensures { result ≡ forward_cipher self.now block }
    {
        encrypted(&self.keys, self.rounds, block)
    }

    /// Encrypts one block.
    pub fn encrypt_block(&self, block: [u8; 16]) -> [u8; 16]
        ensures { (key : List ℕ) → AreWordsOf key self.now → result ≡ aes key block }
    {
        encrypted(&self.keys, self.rounds, u8x16::from_array(block)).to_array()
    }

    /// Encrypts two blocks, neither of which waits for the other.
    pub fn encrypt_two(&self, block: [u8; 16], other: [u8; 16]) -> ([u8; 16], [u8; 16])
        ensures first { (key : List ℕ) → AreWordsOf key self.now → result.0 ≡ aes key block }
        ensures second { (key : List ℕ) → AreWordsOf key self.now → result.1 ≡ aes key other }
    {
        let (first, second) = encrypted_two(
            &self.keys,
            self.rounds,
            u8x16::from_array(block),
            u8x16::from_array(other),
        );
        (first.to_array(), second.to_array())
    }
}

/// Encrypts one block under a key of 16 or 32 octets.
pub fn encrypt_block(key: &[u8], block: [u8; 16]) -> [u8; 16]
    requires { IsKey key.now }
    ensures { result ≡ aes key.now block }
{
    EncryptionSchedule::new(key).encrypt_block(block)
}
