//! The rounds of the inverse cipher (FIPS 197, section 5.3.5) on four blocks side by side, as `lanes` has them on one.

ghost use Rattle.std.specs.Prelude.{◌≡◌, ◌%◌, ◌/◌, ◌*◌, ◌<◌, ℕ, List, map, length};
ghost use Rattle.krb_aes.specs.Octets.{IsBlock, block_at};
ghost use Rattle.krb_aes.specs.InverseRound.{UndoesRound, UndoesLastRound};
ghost use Rattle.krb_aes.specs.Tower.{entry, first_quotient, second_quotient, pair_sum, linear_back, doubled_back, turned, unshifted};

use crate::tables::*;
use std::simd::prelude::*;

/// Four copies of a block.
#[inline(always)]
pub fn four_copies(block: [u8; 16]) -> u8x64
    ensures copies { (b : ℕ) → b < 4 → block_at b result ≡ block }
    ensures size { length result ≡ 64 }
{
    u8x16::from_array(block).swizzle([
        0, 1, 2, 3, 4, 5, 6, 7, 8, 9, 10, 11, 12, 13, 14, 15, 0, 1, 2, 3, 4, 5, 6, 7, 8, 9, 10, 11,
        12, 13, 14, 15, 0, 1, 2, 3, 4, 5, 6, 7, 8, 9, 10, 11, 12, 13, 14, 15, 0, 1, 2, 3, 4, 5, 6,
        7, 8, 9, 10, 11, 12, 13, 14, 15,
    ])
}

/// The entries of a table: 0 at a place with the top bit set.
#[inline(always)]
fn look_up(table: [u8; 16], at: u8x64) -> u8x64
    ensures { result ≡ map (entry table) at }
{
    four_copies(table).swizzle_dyn_within::<16>(at & u8x64::splat(0x8f))
}

/// The low half of each octet.
#[inline(always)]
fn low_nibbles(v: u8x64) -> u8x64
    ensures { result ≡ map (λ x. x % 16) v }
{
    v & u8x64::splat(15)
}

/// The high half of each octet.
#[inline(always)]
fn high_nibbles(v: u8x64) -> u8x64
    ensures { result ≡ map (λ x. x / 16) v }
{
    v >> u8x64::splat(4)
}

/// The inverse of the affine form's linear part, into the tower.
#[inline(always)]
pub fn linear_back(v: u8x64) -> u8x64
    ensures { result ≡ map linear_back v }
{
    look_up(LINEAR_BACK_LOW, low_nibbles(v)) ^ look_up(LINEAR_BACK_HIGH, high_nibbles(v))
}

/// The two places of each octet where the tables of a linear function of its inverse are read.
#[inline(always)]
pub fn quotients(v: u8x64) -> (u8x64, u8x64)
    ensures first { result.0 ≡ map first_quotient v }
    ensures second { result.1 ≡ map second_quotient v }
{
    let k = low_nibbles(v);
    let i = high_nibbles(v);
    let j = i ^ k;
    let q = look_up(QUOTIENT, k);
    let u = look_up(INVERSE, i) ^ q;
    let t = look_up(INVERSE, j) ^ q;
    (look_up(INVERSE, u) ^ j, look_up(INVERSE, t) ^ i)
}

/// A linear function of the inverse of each octet, by its two tables.
#[inline(always)]
fn pair_sums(u: [u8; 16], t: [u8; 16], at: (u8x64, u8x64), v: u8x64) -> u8x64
    requires first { at.0 ≡ map first_quotient v }
    requires second { at.1 ≡ map second_quotient v }
    ensures { result ≡ map (pair_sum u t) v }
{
    look_up(u, at.0) ^ look_up(t, at.1)
}

/// The rows of each block moved back.
#[inline(always)]
pub fn unshifted(v: u8x64) -> u8x64
    ensures blocks { (b : ℕ) → b < 4 → block_at b result ≡ unshifted (block_at b v) }
    ensures size { length result ≡ 64 }
{
    v.swizzle([
        0, 13, 10, 7, 4, 1, 14, 11, 8, 5, 2, 15, 12, 9, 6, 3, 16, 29, 26, 23, 20, 17, 30, 27, 24,
        21, 18, 31, 28, 25, 22, 19, 32, 45, 42, 39, 36, 33, 46, 43, 40, 37, 34, 47, 44, 41, 38, 35,
        48, 61, 58, 55, 52, 49, 62, 59, 56, 53, 50, 63, 60, 57, 54, 51,
    ])
}

/// The octets of each column one row up.
#[inline(always)]
fn turned(v: u8x64) -> u8x64
    ensures { (b : ℕ) → b < 4 → block_at b result ≡ turned (block_at b v) }
{
    v.swizzle([
        1, 2, 3, 0, 5, 6, 7, 4, 9, 10, 11, 8, 13, 14, 15, 12, 17, 18, 19, 16, 21, 22, 23, 20, 25,
        26, 27, 24, 29, 30, 31, 28, 33, 34, 35, 32, 37, 38, 39, 36, 41, 42, 43, 40, 45, 46, 47, 44,
        49, 50, 51, 48, 53, 54, 55, 52, 57, 58, 59, 56, 61, 62, 63, 60,
    ])
}

/// The octets of each column two rows up.
#[inline(always)]
fn turned_twice(v: u8x64) -> u8x64
    ensures { (b : ℕ) → b < 4 → block_at b result ≡ turned (turned (block_at b v)) }
{
    v.swizzle([
        2, 3, 0, 1, 6, 7, 4, 5, 10, 11, 8, 9, 14, 15, 12, 13, 18, 19, 16, 17, 22, 23, 20, 21, 26,
        27, 24, 25, 30, 31, 28, 29, 34, 35, 32, 33, 38, 39, 36, 37, 42, 43, 40, 41, 46, 47, 44, 45,
        50, 51, 48, 49, 54, 55, 52, 53, 58, 59, 56, 57, 62, 63, 60, 61,
    ])
}

/// Returns the octets times 2 (section 4.2); `v` and the result are through the inverse of the affine form's linear part.
#[inline(always)]
fn doubled_back(v: u8x64) -> u8x64
    ensures { result ≡ map doubled_back v }
{
    look_up(BACK_DOUBLE_LOW, low_nibbles(v)) ^ look_up(BACK_DOUBLE_HIGH, high_nibbles(v))
}

/// A round of the inverse cipher on each block, from the rows that were moved back and their quotients. The inverse of
/// MixColumns is MixColumns of x + 4 (x + x two rows up): that takes two look-ups less than its four products do.
#[inline(always)]
pub fn mixed_back(v: u8x64, moved: u8x64, at: (u8x64, u8x64), key: u8x64) -> u8x64
    requires first { at.0 ≡ map first_quotient moved }
    requires second { at.1 ≡ map second_quotient moved }
    requires blocks { (b : ℕ) → b < 4 → block_at b moved ≡ unshifted (block_at b v) }
    ensures { (b : ℕ) → b < 4 → UndoesRound (block_at b v) (turned (block_at b key)) (block_at b result) }
{
    let fours = pair_sums(BACK_FOUR_U, BACK_FOUR_T, at, moved);
    let z = pair_sums(BACK_U, BACK_T, at, moved) ^ fours ^ turned_twice(fours);
    let u = z ^ turned(z);
    doubled_back(u) ^ z ^ (u ^ turned_twice(u)) ^ key
}

/// A round of the inverse cipher on each block.
#[inline(always)]
pub fn inverse_round(v: u8x64, key: u8x64) -> u8x64
    ensures { (b : ℕ) → b < 4 → UndoesRound (block_at b v) (turned (block_at b key)) (block_at b result) }
{
    let moved = unshifted(v);
    mixed_back(v, moved, quotients(moved), key)
}

/// The last round of the inverse cipher on each block, out of the tower.
#[inline(always)]
pub fn last_inverse_round(v: u8x64, key: u8x64) -> u8x64
    ensures back { (b : ℕ) → b < 4 → UndoesLastRound (block_at b v) (block_at b key) (block_at b result) }
    ensures blocks { (b : ℕ) → b < 4 → IsBlock (block_at b result) }
{
    pair_sums(INVERTED_U, INVERTED_T, quotients(v), v).swizzle([
        0, 13, 10, 7, 4, 1, 14, 11, 8, 5, 2, 15, 12, 9, 6, 3, 16, 29, 26, 23, 20, 17, 30, 27, 24,
        21, 18, 31, 28, 25, 22, 19, 32, 45, 42, 39, 36, 33, 46, 43, 40, 37, 34, 47, 44, 41, 38, 35,
        48, 61, 58, 55, 52, 49, 62, 59, 56, 53, 50, 63, 60, 57, 54, 51,
    ]) ^ key
}
