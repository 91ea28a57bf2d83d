//! The inverse of the cipher (FIPS 197, section 5.3.5), on the lanes of vectors: of one block, of four and of eight.

ghost use Rattle.std.specs.Prelude.{◌≡◌, ◌≤◌, ◌<◌, ℕ, List};
ghost use Rattle.krb_aes.specs.Aes.{IsKey, aes, cipher};
ghost use Rattle.krb_aes.specs.Octets.{block_at};
ghost use Rattle.krb_aes.specs.RoundKeys.{AreDecryptionKeys};

use crate::four_blocks;
use crate::lanes::{inverse_round, last_inverse_round, linear_back, turned_back};
use crate::schedule::{DecryptionSchedule, KeySchedule};
use std::simd::prelude::*;

/// Decrypts one block: returns the block that the cipher encrypts to `block`.
#[inline(never)]
fn decrypted(keys: &[[u8; 16]; 15], rounds: usize, block: u8x16) -> u8x16
    requires some { 2 ≤ rounds }
    requires few { rounds ≤ 14 }
    ensures { (words : List ℕ) → AreDecryptionKeys keys.now words rounds → cipher rounds words result ≡ block }
{
    let mut v = linear_back(block) ^ u8x16::from_array(keys[rounds]);
    for round in 1..rounds {
        v = inverse_round(v, u8x16::from_array(keys[rounds - round]));
    }
    last_inverse_round(v, u8x16::from_array(keys[0]))
}

/// Decrypts four blocks, side by side in one vector.
#[inline(never)]
fn decrypted_four(keys: &[[u8; 16]; 15], rounds: usize, blocks: u8x64) -> u8x64
    requires some { 2 ≤ rounds }
    requires few { rounds ≤ 14 }
    ensures { (b : ℕ) → b < 4 → (words : List ℕ) → AreDecryptionKeys keys.now words rounds → cipher rounds words (block_at b result) ≡ block_at b blocks }
{
    let mut v = four_blocks::linear_back(blocks) ^ four_blocks::four_copies(keys[rounds]);
    for round in 1..rounds {
        let key = turned_back(keys[rounds - round]);
        v = four_blocks::inverse_round(v, four_blocks::four_copies(key));
    }
    four_blocks::last_inverse_round(v, four_blocks::four_copies(keys[0]))
}

/// Decrypts eight blocks, in two vectors.
#[inline(never)]
fn decrypted_eight(
    keys: &[[u8; 16]; 15],
    rounds: usize,
    blocks: u8x64,
    others: u8x64,
) -> (u8x64, u8x64)
    requires some { 2 ≤ rounds }
    requires few { rounds ≤ 14 }
    ensures front { (b : ℕ) → b < 4 → (words : List ℕ) → AreDecryptionKeys keys.now words rounds → cipher rounds words (block_at b result.0) ≡ block_at b blocks }
    ensures back { (b : ℕ) → b < 4 → (words : List ℕ) → AreDecryptionKeys keys.now words rounds → cipher rounds words (block_at b result.1) ≡ block_at b others }
{
    let start = four_blocks::four_copies(keys[rounds]);
    let mut v = four_blocks::linear_back(blocks) ^ start;
    let mut w = four_blocks::linear_back(others) ^ start;
    for round in 1..rounds {
        let key = four_blocks::four_copies(turned_back(keys[rounds - round]));
        let v_moved = four_blocks::unshifted(v);
        let w_moved = four_blocks::unshifted(w);
        let v_at = four_blocks::quotients(v_moved);
        let w_at = four_blocks::quotients(w_moved);
        v = four_blocks::mixed_back(v, v_moved, v_at, key);
        w = four_blocks::mixed_back(w, w_moved, w_at, key);
    }
    let end = four_blocks::four_copies(keys[0]);
    (
        four_blocks::last_inverse_round(v, end),
        four_blocks::last_inverse_round(w, end),
    )
}

impl KeySchedule {
    ghost use Rattle.krb_aes.specs.Aes.{block_cipher};

    /// Decrypts one block in a vector: returns the block that `encrypt_vector` encrypts to `block`.
    pub fn decrypt_vector(&self, block: u8x16) -> u8x16
        ensures { block_cipher self.now result ≡ block }
    {
        decrypted(&self.back.keys, self.forward.rounds, block)
    }

    /// Decrypts four blocks, side by side in one vector.
    pub fn decrypt_four(&self, blocks: u8x64) -> u8x64
        ensures { (b : ℕ) → b < 4 → block_cipher self.now (block_at b result) ≡ block_at b blocks }
    {
        decrypted_four(&self.back.keys, self.forward.rounds, blocks)
    }

    /// Decrypts eight blocks, in two vectors.
    pub fn decrypt_eight(&self, blocks: u8x64, others: u8x64) -> (u8x64, u8x64)
        ensures front { (b : ℕ) → b < 4 → block_cipher self.now (block_at b result.0) ≡ block_at b blocks }
        ensures back { (b : ℕ) → b < 4 → block_cipher self.now (block_at b result.1) ≡ block_at b others }
    {
        decrypted_eight(&self.back.keys, self.forward.rounds, blocks, others)
    }

    /// Decrypts one block: returns the block that `encrypt_block` encrypts to `block`.
    pub fn decrypt_block(&self, block: [u8; 16]) -> [u8; 16]
        ensures { block_cipher self.now result ≡ block }
    {
        self.decrypt_vector(u8x16::from_array(block)).to_array()
    }
}

impl DecryptionSchedule {
    ghost use Rattle.krb_aes.specs.Aes.{Undoes};

    /// Decrypts one block: returns the block that the cipher encrypts to `block`.
    pub fn decrypt_block(&self, block: [u8; 16]) -> [u8; 16]
        ensures { (E : List ℕ → List ℕ) → Undoes E self.now → E result ≡ block }
    {
        decrypted(&self.keys, self.rounds, u8x16::from_array(block)).to_array()
    }

    /// Decrypts four blocks, side by side in one vector.
    pub fn decrypt_four(&self, blocks: u8x64) -> u8x64
        ensures { (E : List ℕ → List ℕ) → Undoes E self.now → (b : ℕ) → b < 4 → E (block_at b result) ≡ block_at b blocks }
    {
        decrypted_four(&self.keys, self.rounds, blocks)
    }

    /// Decrypts eight blocks, in two vectors.
    pub fn decrypt_eight(&self, blocks: u8x64, others: u8x64) -> (u8x64, u8x64)
        ensures front { (E : List ℕ → List ℕ) → Undoes E self.now → (b : ℕ) → b < 4 → E (block_at b result.0) ≡ block_at b blocks }
        ensures back { (E : List ℕ → List ℕ) → Undoes E self.now → (b : ℕ) → b < 4 → E (block_at b result.1) ≡ block_at b others }
    {
        decrypted_eight(&self.keys, self.rounds, blocks, others)
    }
}

/// Decrypts one block under a key of 16 or 32 octets: returns the block that `encrypt_block` encrypts to `block`.
pub fn decrypt_block(key: &[u8], block: [u8; 16]) -> [u8; 16]
    requires { IsKey key.now }
    ensures { aes key.now result ≡ block }
{
    DecryptionSchedule::new(key).decrypt_block(block)
}
