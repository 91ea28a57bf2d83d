//! The blocks of a CBC (RFC 3962, section 5), decrypted in place eight, four and one at a time: none waits for another.

ghost use Rattle.std.specs.Prelude.{◌≡◌, ◌+◌, ◌*◌, ◌≤◌, ◌++◌, ℕ, List, length, take, drop};
ghost use Rattle.krb_aes.specs.Round.{xor_octets};
ghost use Rattle.krb_crypto.specs.Cbc.{AreOpened};

use crate::octets::xor_octets;
use krb_aes::DecryptionSchedule;
use std::simd::prelude::*;

pub(crate) const BLOCK_LEN: usize = 16;

/// Four blocks.
const FOUR_LEN: usize = 64;

/// Eight blocks.
const EIGHT_LEN: usize = 128;

pub(crate) fn block_at(text: &[u8], at: usize) -> [u8; 16]
    requires { at + 16 ≤ length text.now }
    ensures { result ≡ take 16 (drop at text.now) }
{
    let mut block = [0; 16];
    block.copy_from_slice(&text[at..at + BLOCK_LEN]);
    block
}

fn four_at(text: &[u8], at: usize) -> [u8; 64]
    requires { at + 64 ≤ length text.now }
    ensures { result ≡ take 64 (drop at text.now) }
{
    let mut blocks = [0; 64];
    blocks.copy_from_slice(&text[at..at + FOUR_LEN]);
    blocks
}

/// Returns the cipher blocks before each of four: `previous`, and the first three of the four.
fn chain_of(previous: &[u8; 16], blocks: &[u8; 64]) -> [u8; 64]
    ensures { result ≡ previous.now ++ take 48 blocks.now }
{
    let mut chain = [0; 64];
    chain[..BLOCK_LEN].copy_from_slice(previous);
    chain[BLOCK_LEN..].copy_from_slice(&blocks[..48]);
    chain
}

/// The plain text of four blocks, from what the inverse of the cipher gives for them.
fn unchained(opened: &[u8; 64], previous: &[u8; 16], blocks: &[u8; 64]) -> [u8; 64]
    ensures { result ≡ xor_octets opened.now (previous.now ++ take 48 blocks.now) }
{
    let chain = chain_of(previous, blocks);
    (u8x64::from_array(*opened) ^ u8x64::from_array(chain)).to_array()
}

/// Decrypts block `i`, which follows the cipher block `previous`, and returns the cipher block that it was.
fn open_one(key: &DecryptionSchedule, text: &mut [u8], i: usize, previous: [u8; 16]) -> [u8; 16]
    requires { 16 * i + 16 ≤ length text.old }
    ensures { (t : List ℕ) → AreOpened key.now t text.old previous i → AreOpened key.now t text.new result (i + 1) }
{
    let at = BLOCK_LEN * i;
    let block = block_at(text, at);
    let plain = xor_octets(&key.decrypt_block(block), &previous);
    text[at..at + BLOCK_LEN].copy_from_slice(&plain);
    block
}

/// Decrypts four blocks from block `i` on, and gives the last as it was.
fn open_four(key: &DecryptionSchedule, text: &mut [u8], i: usize, previous: [u8; 16]) -> [u8; 16]
    requires { 16 * i + 64 ≤ length text.old }
    ensures { (t : List ℕ) → AreOpened key.now t text.old previous i → AreOpened key.now t text.new result (i + 4) }
{
    let at = BLOCK_LEN * i;
    let blocks = four_at(text, at);
    let opened = key.decrypt_four(u8x64::from_array(blocks)).to_array();
    let plain = unchained(&opened, &previous, &blocks);
    text[at..at + FOUR_LEN].copy_from_slice(&plain);
    block_at(&blocks, 48)
}

/// Decrypts eight blocks from block `i` on, and gives the last as it was.
fn open_eight(key: &DecryptionSchedule, text: &mut [u8], i: usize, previous: [u8; 16]) -> [u8; 16]
    requires { 16 * i + 128 ≤ length text.old }
    ensures { (t : List ℕ) → AreOpened key.now t text.old previous i → AreOpened key.now t text.new result (i + 8) }
{
    let at = BLOCK_LEN * i;
    let blocks = four_at(text, at);
    let others = four_at(text, at + FOUR_LEN);
    let (front, back) = key.decrypt_eight(u8x64::from_array(blocks), u8x64::from_array(others));
    let middle = block_at(&blocks, 48);
    let plain = unchained(&front.to_array(), &previous, &blocks);
    let after = unchained(&back.to_array(), &middle, &others);
    text[at..at + FOUR_LEN].copy_from_slice(&plain);
    text[at + FOUR_LEN..at + EIGHT_LEN].copy_from_slice(&after);
    block_at(&others, 48)
}

/// Decrypts the first `count` blocks, and gives the last of them as it was: zeros where there is none.
pub(crate) fn cbc_decrypt(key: &DecryptionSchedule, text: &mut [u8], count: usize) -> [u8; 16]
    requires { 16 * count ≤ length text.old }
    ensures { AreOpened key.now text.old text.new result count }
{
    let mut previous = [0; 16];
    let mut i = 0;
    while i < count {
        let left = count - i;
        if left >= 8 {
            let last = open_eight(key, text, i, previous);
            previous = last;
            i += 8;
        } else if left >= 4 {
            let last = open_four(key, text, i, previous);
            previous = last;
            i += 4;
        } else {
            let last = open_one(key, text, i, previous);
            previous = last;
            i += 1;
        }
    }
    previous
}
