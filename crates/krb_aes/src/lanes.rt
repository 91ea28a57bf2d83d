//! The rounds of AES on the 16 octets of a state at once, by look-ups in tables of 16 octets: no address depends on a secret.
//!
//! A state is represented in a tower of fields (`tower`), where the inverse of an octet takes five look-ups by its nibbles.

ghost use Rattle.std.specs.Prelude.{◌≡◌, ◌%◌, ◌/◌, ◌<◌, ℕ, List, map, length};
ghost use Rattle.krb_aes.specs.Octets.{IsBlock};
ghost use Rattle.krb_aes.specs.Field.{product, sub};
ghost use Rattle.krb_aes.specs.Round.{full_round, last_round, mix_columns};
ghost use Rattle.krb_aes.specs.InverseRound.{UndoesRound, UndoesLastRound};
ghost use Rattle.krb_aes.specs.Tower.{entry, first_quotient, second_quotient, pair_sum, tower, tower_key, plain_key, linear_back, turned, unshifted};

use crate::tables::*;
use std::simd::prelude::*;

/// The entries of a table: 0 at a place with the top bit set.
#[inline(always)]
fn look_up(table: [u8; 16], at: u8x16) -> u8x16
    ensures { result ≡ map (entry table) at }
{
    u8x16::from_array(table).swizzle_dyn(at & u8x16::splat(0x8f))
}

/// The low half of each octet.
#[inline(always)]
fn low_nibbles(v: u8x16) -> u8x16
    ensures { result ≡ map (λ x. x % 16) v }
{
    v & u8x16::splat(15)
}

/// The high half of each octet.
#[inline(always)]
fn high_nibbles(v: u8x16) -> u8x16
    ensures { result ≡ map (λ x. x / 16) v }
{
    v >> u8x16::splat(4)
}

/// The octets of the tower for octets of the field.
#[inline(always)]
pub fn into_tower(v: u8x16) -> u8x16
    ensures { result ≡ map tower v }
{
    look_up(INTO_LOW, low_nibbles(v)) ^ look_up(INTO_HIGH, high_nibbles(v))
}

/// The two places of each octet where the tables of a linear function of its inverse are read.
#[inline(always)]
fn quotients(v: u8x16) -> (u8x16, u8x16)
    ensures first { result.0 ≡ map first_quotient v }
    ensures second { result.1 ≡ map second_quotient v }
{
    let k = low_nibbles(v);
    let i = high_nibbles(v);
    let j = i ^ k;
    let q = look_up(QUOTIENT, k);
    let u = look_up(INVERSE, i) ^ q;
    let t = look_up(INVERSE, j) ^ q;
    (look_up(INVERSE, u) ^ j, look_up(INVERSE, t) ^ i)
}

/// A linear function of the inverse of each octet, by its two tables.
#[inline(always)]
fn pair_sums(u: [u8; 16], t: [u8; 16], at: (u8x16, u8x16), v: u8x16) -> u8x16
    requires first { at.0 ≡ map first_quotient v }
    requires second { at.1 ≡ map second_quotient v }
    ensures { result ≡ map (pair_sum u t) v }
{
    look_up(u, at.0) ^ look_up(t, at.1)
}

/// The octets through the S-box.
#[inline(always)]
pub fn substituted(v: u8x16) -> u8x16
    ensures { result ≡ map sub v }
{
    let t = into_tower(v);
    pair_sums(PLAIN_U, PLAIN_T, quotients(t), t) ^ u8x16::splat(0x63)
}

/// Computes a round but the last (section 5.1). The key is added before the constant shuffle and not after it: after it, the
/// compiler would shuffle both.
#[inline(always)]
pub fn full_round(v: u8x16, key: u8x16) -> u8x16
    ensures { (s k : List ℕ) → IsBlock s → IsBlock k → v ≡ map tower s → key ≡ map tower_key k → result ≡ map tower (full_round s k) }
{
    let at = quotients(v);
    let once = pair_sums(ONCE_U, ONCE_T, at, v);
    let twice = pair_sums(TWICE_U, TWICE_T, at, v);
    let t = twice.swizzle([0, 5, 10, 15, 4, 9, 14, 3, 8, 13, 2, 7, 12, 1, 6, 11])
        ^ once.swizzle([5, 10, 15, 0, 9, 14, 3, 4, 13, 2, 7, 8, 1, 6, 11, 12]);
    t.swizzle([1, 2, 3, 0, 5, 6, 7, 4, 9, 10, 11, 8, 13, 14, 15, 12])
        ^ (t ^ (once.swizzle([15, 0, 5, 10, 3, 4, 9, 14, 7, 8, 13, 2, 11, 12, 1, 6]) ^ key))
}

/// The last round, out of the tower.
#[inline(always)]
pub fn last_round(v: u8x16, key: u8x16) -> u8x16
    ensures { (s k : List ℕ) → IsBlock s → IsBlock k → v ≡ map tower s → key ≡ map plain_key k → result ≡ last_round s k }
{
    pair_sums(PLAIN_U, PLAIN_T, quotients(v), v).swizzle([
        0, 5, 10, 15, 4, 9, 14, 3, 8, 13, 2, 7, 12, 1, 6, 11,
    ]) ^ key
}

/// The octets of the field times 2 (section 4.2).
#[inline(always)]
fn doubled(v: u8x16) -> u8x16
    ensures { result ≡ map (product 2) v }
{
    look_up(DOUBLE_LOW, low_nibbles(v)) ^ look_up(DOUBLE_HIGH, high_nibbles(v))
}

/// The columns mixed (section 5.1.3), out of the tower.
#[inline(always)]
pub fn mixed(v: u8x16) -> u8x16
    ensures { result ≡ mix_columns v }
{
    let doubles = doubled(v);
    doubles
        ^ (doubles ^ v).swizzle([1, 2, 3, 0, 5, 6, 7, 4, 9, 10, 11, 8, 13, 14, 15, 12])
        ^ v.swizzle([2, 3, 0, 1, 6, 7, 4, 5, 10, 11, 8, 9, 14, 15, 12, 13])
        ^ v.swizzle([3, 0, 1, 2, 7, 4, 5, 6, 11, 8, 9, 10, 15, 12, 13, 14])
}

/// The inverse of the affine form's linear part, into the tower.
#[inline(always)]
pub fn linear_back(v: u8x16) -> u8x16
    ensures { result ≡ map linear_back v }
{
    look_up(LINEAR_BACK_LOW, low_nibbles(v)) ^ look_up(LINEAR_BACK_HIGH, high_nibbles(v))
}

/// The octets of each column one row up.
#[inline(always)]
pub fn turned(key: u8x16) -> u8x16
    ensures { result ≡ turned key }
{
    key.swizzle([1, 2, 3, 0, 5, 6, 7, 4, 9, 10, 11, 8, 13, 14, 15, 12])
}

/// The octets of each column one row down.
#[inline(always)]
pub fn turned_back(key: [u8; 16]) -> [u8; 16]
    ensures { turned result ≡ key }
{
    u8x16::from_array(key)
        .swizzle([3, 0, 1, 2, 7, 4, 5, 6, 11, 8, 9, 10, 15, 12, 13, 14])
        .to_array()
}

/// The rows moved back (section 5.3.1).
#[inline(always)]
fn unshifted(v: u8x16) -> u8x16
    ensures { result ≡ unshifted v }
{
    v.swizzle([0, 13, 10, 7, 4, 1, 14, 11, 8, 5, 2, 15, 12, 9, 6, 3])
}

/// Computes a round of the inverse cipher (section 5.3.5): from the state after SubBytes and ShiftRows of a round to the state
/// after SubBytes and ShiftRows of the round before.
#[inline(always)]
pub fn inverse_round(v: u8x16, key: u8x16) -> u8x16
    ensures back { UndoesRound v key result }
    ensures block { IsBlock result }
{
    let moved = unshifted(v);
    let at = quotients(moved);
    let a = pair_sums(NINE_U, NINE_T, at, moved) ^ key;
    let b = a.swizzle([1, 2, 3, 0, 5, 6, 7, 4, 9, 10, 11, 8, 13, 14, 15, 12])
        ^ pair_sums(THIRTEEN_U, THIRTEEN_T, at, moved);
    let c = b.swizzle([1, 2, 3, 0, 5, 6, 7, 4, 9, 10, 11, 8, 13, 14, 15, 12])
        ^ pair_sums(ELEVEN_U, ELEVEN_T, at, moved);
    c.swizzle([1, 2, 3, 0, 5, 6, 7, 4, 9, 10, 11, 8, 13, 14, 15, 12])
        ^ pair_sums(FOURTEEN_U, FOURTEEN_T, at, moved)
}

/// The last round of the inverse cipher, out of the tower.
#[inline(always)]
pub fn last_inverse_round(v: u8x16, key: u8x16) -> u8x16
    ensures back { UndoesLastRound v key result }
    ensures block { IsBlock result }
{
    pair_sums(INVERTED_U, INVERTED_T, quotients(v), v).swizzle([
        0, 13, 10, 7, 4, 1, 14, 11, 8, 5, 2, 15, 12, 9, 6, 3,
    ]) ^ key
}
