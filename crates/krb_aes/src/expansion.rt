//! The round keys of a key (FIPS 197, section 5.2), each as 16 octets. The four words of a round key are made at once.

ghost use Rattle.std.specs.Prelude.{◌≡◌, ◌⊎◌, ◌+◌, ◌*◌, ◌%◌, ◌<◌, ◌≤◌, ℕ, length, take, drop, replicate, bit_xor};
ghost use Rattle.std.specs.Int.{w32, rotate_left};
ghost use Rattle.krb_aes.specs.Word.{sub_word, word_at, round_constant, added_word, chained_sums, words_in, words_of};
ghost use Rattle.krb_aes.specs.Aes.{IsKey, round_count, key_expansion};

use crate::lanes::substituted;
use std::simd::prelude::*;

/// The octets x^0 to x^9 of the field (section 5.2).
static ROUND_CONSTANTS: [u8; 10] = [0x01, 0x02, 0x04, 0x08, 0x10, 0x20, 0x40, 0x80, 0x1b, 0x36];

/// Returns SubWord of the fourth word of `key`, in each of the four places.
#[inline(always)]
fn substituted_word(key: u8x16) -> u8x16
    ensures { words_in result ≡ replicate 4 (sub_word (word_at key 12)) }
{
    substituted(key).swizzle([
        12, 13, 14, 15, 12, 13, 14, 15, 12, 13, 14, 15, 12, 13, 14, 15,
    ])
}

/// Returns SubWord and RotWord of the fourth word of `key`, in each of the four places.
#[inline(always)]
fn rotated_word(key: u8x16) -> u8x16
    ensures { words_in result ≡ replicate 4 (sub_word (rotate_left w32 (word_at key 12) 8)) }
{
    substituted(key).swizzle([
        13, 14, 15, 12, 13, 14, 15, 12, 13, 14, 15, 12, 13, 14, 15, 12,
    ])
}

/// Adds round constant `group` to each of the four words.
#[inline(always)]
fn with_constant(words: u8x16, group: usize) -> u8x16
    requires some { 1 ≤ group }
    requires few { group ≤ 10 }
    ensures { (w : ℕ) → words_in words ≡ replicate 4 w → words_in result ≡ replicate 4 (bit_xor w (round_constant group)) }
{
    let c = ROUND_CONSTANTS[group - 1];
    words ^ u8x16::from_array([c, 0, 0, 0, c, 0, 0, 0, c, 0, 0, 0, c, 0, 0, 0])
}

/// Returns the word that is added to the first word of round key `round - size` to give that of round key `round`, in each of the
/// four places. `previous` is round key `round - 1`. A key has `size` round keys in it, and no division is by a variable.
#[inline(always)]
fn added_words(previous: u8x16, round: usize, size: usize) -> u8x16
    requires sizes { (size ≡ 1) ⊎ (size ≡ 2) }
    requires low { size ≤ round }
    requires high { round < 4 * size + 7 }
    ensures { words_in result ≡ replicate 4 (added_word (4 * size) (4 * round) (word_at previous 12)) }
{
    if size == 1 {
        return with_constant(rotated_word(previous), round);
    }
    if round % 2 == 0 {
        return with_constant(rotated_word(previous), round / 2);
    }
    substituted_word(previous)
}

/// Returns the words of `before`: adds `added` to the first word, and the previous word of the new key to each other word.
#[inline(always)]
fn next_key(before: u8x16, added: u8x16) -> u8x16
    ensures { (w : ℕ) → words_in added ≡ replicate 4 w → words_in result ≡ chained_sums w (words_in before) }
{
    let zeros = u8x16::splat(0);
    let pairs = before
        ^ zeros.shuffle(
            before,
            [0, 1, 2, 3, 16, 17, 18, 19, 20, 21, 22, 23, 24, 25, 26, 27],
        );
    pairs
        ^ zeros.shuffle(
            pairs,
            [0, 1, 2, 3, 4, 5, 6, 7, 16, 17, 18, 19, 20, 21, 22, 23],
        )
        ^ added
}

/// The 16 octets of a key from `at` on.
fn octets_from(key: &[u8], at: usize) -> [u8; 16]
    requires { at + 16 ≤ length key.now }
    ensures { result ≡ take 16 (drop at key.now) }
{
    let mut octets = [0; 16];
    octets.copy_from_slice(&key[at..at + 16]);
    octets
}

/// The round keys of a key of 16 or 32 octets.
#[inline(always)]
pub fn round_keys(key: &[u8]) -> [[u8; 16]; 15]
    requires { IsKey key.now }
    ensures { take (4 * (round_count key.now + 1)) (words_of result) ≡ key_expansion key.now }
{
    let size = key.len() / 16;
    let mut keys = [[0; 16]; 15];
    'load: for round in 0..size {
        keys[round] = octets_from(key, 16 * round);
    }
    'expand: for round in size..4 * size + 7 {
        let before = u8x16::from_array(keys[round - size]);
        let added = added_words(u8x16::from_array(keys[round - 1]), round, size);
        keys[round] = next_key(before, added).to_array();
    }
    keys
}

/// The number of rounds: 10 for 16 octets of key, 14 for 32.
pub fn round_count(key: &[u8]) -> usize
    requires { IsKey key.now }
    ensures exact { result ≡ round_count key.now }
    ensures even { result % 2 ≡ 0 }
    ensures some { 2 ≤ result }
    ensures few { result ≤ 14 }
{
    key.len() / 4 + 6
}
