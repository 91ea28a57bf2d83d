//! The keys of the rounds as the lanes take them: in the tower, and with the S-box's constant.

ghost use Rattle.std.specs.Prelude.{◌≡◌, ◌≤◌};
ghost use Rattle.krb_aes.specs.Word.{words_in, words_of};
ghost use Rattle.krb_aes.specs.Round.{column_octets, round_key};
ghost use Rattle.krb_aes.specs.RoundKeys.{AreEncryptionKeys, AreDecryptionKeys, IsDecryptionKey};

use crate::lanes::{into_tower, linear_back, mixed, turned};
use std::simd::prelude::*;

/// A round key: its words have its octets.
#[inline(always)]
fn of_words(key: u8x16) -> u8x16
    ensures { result ≡ column_octets (words_in key) }
{
    key
}

/// The octets of a round key.
#[inline(always)]
fn octets_at(octets: &[[u8; 16]; 15], round: usize) -> u8x16
    requires { round ≤ 14 }
    ensures { result ≡ round_key (words_of octets.now) round }
{
    of_words(u8x16::from_array(octets[round]))
}

/// The keys of the cipher's rounds.
#[inline(always)]
pub fn encryption_keys(octets: &[[u8; 16]; 15], rounds: usize) -> [[u8; 16]; 15]
    requires some { 2 ≤ rounds }
    requires few { rounds ≤ 14 }
    ensures { AreEncryptionKeys result (words_of octets.now) rounds }
{
    let constant = u8x16::splat(0x63);
    let mut keys = [[0; 16]; 15];
    keys[0] = into_tower(octets_at(octets, 0)).to_array();
    for round in 1..rounds {
        let key = octets_at(octets, round) ^ constant;
        keys[round] = into_tower(key).to_array();
    }
    keys[rounds] = (octets_at(octets, rounds) ^ constant).to_array();
    keys
}

/// The key of a round of the inverse cipher (FIPS 197, section 5.3.5): the round key through the inverse of MixColumns, which is
/// MixColumns three times, in the tower.
fn decryption_key(key: u8x16) -> u8x16
    ensures { IsDecryptionKey result key }
{
    let once = mixed(key);
    let twice = mixed(once);
    let unmixed = mixed(twice);
    turned(linear_back(unmixed ^ u8x16::splat(0x63)))
}

/// The keys of the inverse cipher's rounds.
#[inline(always)]
pub fn decryption_keys(octets: &[[u8; 16]; 15], rounds: usize) -> [[u8; 16]; 15]
    requires some { 2 ≤ rounds }
    requires few { rounds ≤ 14 }
    ensures { AreDecryptionKeys result (words_of octets.now) rounds }
{
    let mut keys = [[0; 16]; 15];
    keys[0] = octets_at(octets, 0).to_array();
    for round in 1..rounds {
        keys[round] = decryption_key(octets_at(octets, round)).to_array();
    }
    let last = octets_at(octets, rounds) ^ u8x16::splat(0x63);
    keys[rounds] = linear_back(last).to_array();
    keys
}
