// CBC with ciphertext stealing (RFC 3962, section 5).

ghost use Rattle.std.specs.Prelude.{◌≡◌, ◌+◌, ◌-◌, ◌≤◌, ℕ, List, length, take, drop, replicate, ◌++◌};
ghost use Rattle.krb_aes.specs.Aes.{block_cipher, forward_cipher, Undoes};
ghost use Rattle.krb_crypto.specs.Cts.{cts};

use crate::cbc::{BLOCK_LEN, block_at, cbc_decrypt};
use crate::octets::xor_octets;
use krb_aes::{DecryptionSchedule, EncryptionSchedule, KeySchedule};
use std::simd::prelude::*;

/// The octets from `at` on, filled up with zeros.
fn last_block(text: &[u8], at: usize) -> [u8; 16]
    requires start { at ≤ length text.now }
    requires end { length text.now ≤ at + 16 }
    ensures { result ≡ drop at text.now ++ replicate (16 - (length text.now - at)) 0 }
{
    let mut block = [0; 16];
    block[..text.len() - at].copy_from_slice(&text[at..]);
    block
}

/// A block, encrypted.
fn encrypted(key: &EncryptionSchedule, block: [u8; 16]) -> [u8; 16]
    ensures { result ≡ forward_cipher key.now block }
{
    key.encrypt_vector(u8x16::from_array(block)).to_array()
}

/// Encrypts a text of at least 16 octets in place.
pub fn cts_encrypt(key: &KeySchedule, text: &mut [u8])
    requires { 16 ≤ length text.old }
    ensures { text.new ≡ cts (block_cipher key.now) text.old }
{
    encrypt_under(key.forward(), text);
}

/// Encrypts a text of at least 16 bytes in place, under a schedule for encryption only.
pub(crate) fn encrypt_under(key: &EncryptionSchedule, text: &mut [u8])
    requires { 16 ≤ length text.old }
    ensures { text.new ≡ cts (forward_cipher key.now) text.old }
{
    let count = (text.len() + 15) / BLOCK_LEN;
    if count == 1 {
        let block = encrypted(key, block_at(text, 0));
        text.copy_from_slice(&block);
        return;
    }
    let mut previous = [0; 16];
    for i in 0..count - 2 {
        let at = BLOCK_LEN * i;
        let block = u8x16::from_array(block_at(text, at));
        let next = key
            .encrypt_vector(u8x16::from_array(previous) ^ block)
            .to_array();
        text[at..at + BLOCK_LEN].copy_from_slice(&next);
        previous = next;
    }
    let at = BLOCK_LEN * (count - 2);
    let stolen = encrypted(key, xor_octets(&previous, &block_at(text, at)));
    let last = encrypted(key, xor_octets(&stolen, &last_block(text, at + BLOCK_LEN)));
    text[at..at + BLOCK_LEN].copy_from_slice(&last);
    let rest = text.len() - (at + BLOCK_LEN);
    text[at + BLOCK_LEN..].copy_from_slice(&stolen[..rest]);
}

/// The text that `cts_encrypt` takes to this one, of at least 16 octets, in place.
pub fn cts_decrypt(key: &KeySchedule, text: &mut [u8])
    requires { 16 ≤ length text.old }
    ensures { cts (block_cipher key.now) text.new ≡ text.old }
{
    decrypt_under(key.back(), text);
}

/// Decrypts a text of at least 16 bytes in place, under a schedule for decryption only.
pub(crate) fn decrypt_under(key: &DecryptionSchedule, text: &mut [u8])
    requires { 16 ≤ length text.old }
    ensures { (E : List ℕ → List ℕ) → Undoes E key.now → cts E text.new ≡ text.old }
{
    let count = (text.len() + 15) / BLOCK_LEN;
    if count == 1 {
        let block = key.decrypt_block(block_at(text, 0));
        text.copy_from_slice(&block);
        return;
    }
    let previous = cbc_decrypt(key, text, count - 2);
    let at = BLOCK_LEN * (count - 2);
    let opened = key.decrypt_block(block_at(text, at));
    let stolen = with_front(&opened, &text[at + BLOCK_LEN..]);
    let plain = xor_octets(&key.decrypt_block(stolen), &previous);
    let tail = xor_octets(&opened, &stolen);
    text[at..at + BLOCK_LEN].copy_from_slice(&plain);
    let rest = text.len() - (at + BLOCK_LEN);
    text[at + BLOCK_LEN..].copy_from_slice(&tail[..rest]);
}

/// The block with other octets in front.
fn with_front(block: &[u8; 16], front: &[u8]) -> [u8; 16]
    requires { length front.now ≤ 16 }
    ensures { result ≡ front.now ++ drop (length front.now) block.now }
{
    let mut out = *block;
    out[..front.len()].copy_from_slice(front);
    out
}
