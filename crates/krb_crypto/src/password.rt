//! Keys from passwords (RFC 3962, section 4): PBKDF2 with HMAC-SHA1, and DK.

ghost use Rattle.std.specs.Prelude.{◌≡◌, ◌⊎◌, ◌-◌, ◌≤◌, ◌++◌, ℕ, List, take, length};
ghost use Rattle.krb_crypto.specs.Keyed.{IsHmacKeyOf};
ghost use Rattle.krb_crypto.specs.Suite.{key_octets};
ghost use Rattle.krb_crypto.specs.Password.{summed, pbkdf2, password_key};

use crate::hmac::HmacKey;
use crate::octets::xor_octets;
use crate::suite::{CipherSuite, DerivedKey, derive_key};

/// How often RFC 3962, section 4, iterates where nothing else is said.
const ITERATIONS: u32 = 4096;

/// The constant of the key that is derived from PBKDF2's.
const KERBEROS: &[u8; 8] = b"kerberos";

/// T of a block of PBKDF2, which are numbered from 1.
fn block(key: &HmacKey, salt: &[u8], iterations: u32, number: u32) -> [u8; 20]
    requires { 1 ≤ iterations }
    ensures { (password : List ℕ) → IsHmacKeyOf password key.now → result ≡ summed password salt.now number (iterations - 1) }
{
    let mut last = key.code(salt, &number.to_be_bytes());
    let mut sum = last;
    for done in 1..iterations {
        let next = key.code(&last, &[]);
        let more = xor_octets(&sum, &next);
        sum = more;
        last = next;
    }
    sum
}

/// PBKDF2 (RFC 2898, section 5.2) with HMAC-SHA1: at least one iteration, 16 or 32 octets.
pub fn pbkdf2(password: &[u8], salt: &[u8], iterations: u32, size: usize) -> DerivedKey
    requires some { 1 ≤ iterations }
    requires one_or_two_blocks { (size ≡ 16) ⊎ (size ≡ 32) }
    ensures octets { key_octets result ≡ pbkdf2 password.now salt.now iterations size }
    ensures length { length (key_octets result) ≡ size }
{
    let key = HmacKey::new(password);
    let first = block(&key, salt, iterations, 1);
    if size == 16 {
        return DerivedKey::Short(front_of_one(&first));
    }
    let second = block(&key, salt, iterations, 2);
    DerivedKey::Long(front_of_two(&first, &second))
}

fn front_of_one(first: &[u8; 20]) -> [u8; 16]
    ensures { result ≡ take 16 first.now }
{
    let mut out = [0; 16];
    out.copy_from_slice(&first[..16]);
    out
}

fn front_of_two(first: &[u8; 20], second: &[u8; 20]) -> [u8; 32]
    ensures { result ≡ first.now ++ take 12 second.now }
{
    let mut out = [0; 32];
    out[..20].copy_from_slice(first);
    out[20..].copy_from_slice(&second[..12]);
    out
}

/// The key of a password and a salt, after 4,096 iterations.
pub fn generate_key_from_password(suite: CipherSuite, password: &[u8], salt: &[u8]) -> DerivedKey
    ensures { key_octets result ≡ password_key suite password.now salt.now }
{
    let key = pbkdf2(password, salt, ITERATIONS, suite.key_size());
    derive_key(suite, key.as_slice(), KERBEROS)
}
