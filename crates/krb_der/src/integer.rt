//! An INTEGER.

ghost use Rattle.std.specs.Prelude.{◌≡◌, ◌++◌, ◌∷◌, ◌<◌, get_or, IfOk, pos, ◌+ℤ◌, ◌*ℤ◌, FitsSigned, if◌then◌else◌, nat_lt};
ghost use Rattle.std.specs.Int.{w64};
ghost use Rattle.std.specs.Option.{SomeIff};
ghost use Rattle.krb_der.specs.Integer.{integer_value, is_uint32, sign_of, unsigned_octets};

use crate::copies::TryCopy;
use crate::memory::OutOfMemory;
use crate::octets::Octets;
use std::alloc::Global;
use std::marker::Model;

/// The octets of an INTEGER's contents, kept as they are: two's complement, the highest first (X.690 8.3). Two are equal
/// where their octets are. Contracts see them as a list.
#[derive(Debug, PartialEq, Eq, PartialOrd, Ord, Hash, Drop)]
pub struct IntegerAsn1 {
    octets: Octets,
}

impl Model for IntegerAsn1 {
    ghost use Rattle.std.specs.Prelude.{List, ℕ};

    ghost Value = { List ℕ };

    ghost view = { λ a. a.octets };

    ghost inverse = { λ octets. record { octets = octets } };
}

/// Returns the number that octets begin with: -1 if their highest bit is set, otherwise 0.
fn sign(octets: &[u8]) -> i64
    ensures { result ≡ sign_of octets.now }
{
    match octets {
        [0x80..=0xff, ..] => -1,
        _ => 0,
    }
}

/// Returns the number with one more octet after it, if that fits.
fn shift_in(number: i64, octet: u8) -> Option<i64>
    ensures { SomeIff result (FitsSigned w64 (number *ℤ pos 256 +ℤ pos octet)) (number *ℤ pos 256 +ℤ pos octet) }
{
    number.checked_mul(256)?.checked_add(i64::from(octet))
}

/// The two's complement number that octets spell, where it fits.
fn number(octets: &[u8]) -> Option<i64>
    ensures { SomeIff result (FitsSigned w64 (integer_value octets.now)) (integer_value octets.now) }
{
    let mut number = sign(octets);
    for octet in octets {
        number = shift_in(number, *octet)?;
    }
    Some(number)
}

/// Returns whether the octets are an INTEGER from 0 to 2^32 - 1.
pub fn is_uint32(octets: &[u8]) -> bool
    ensures { result ≡ is_uint32 octets.now }
{
    match octets {
        [0..=0x7f, ..] => match number(octets) {
            Some(number) => number < 1 << 32,
            None => false,
        },
        _ => false,
    }
}

impl IntegerAsn1 {
    pub fn from_bytes_be(octets: Vec<u8>) -> IntegerAsn1
        ensures { result ≡ octets.items }
    {
        IntegerAsn1 {
            octets: Octets::new(octets),
        }
    }

    /// The number that is not negative and whose octets these are, the highest first: with 00 in front where their first
    /// bit is set.
    pub fn from_bytes_be_unsigned(alloc: Global, octets: &[u8]) -> Result<IntegerAsn1, OutOfMemory>
        ensures { IfOk result (λ integer. integer ≡ unsigned_octets octets.now) }
    {
        let mut all = Vec::new(alloc);
        if let [0x80..=0xff, ..] = octets {
            all.push(0)?;
        }
        all.extend_from_slice(octets)?;
        Ok(IntegerAsn1::from_bytes_be(all))
    }

    /// The number, where it fits.
    pub fn value(&self) -> Option<i64>
        ensures { SomeIff result (FitsSigned w64 (integer_value self.now)) (integer_value self.now) }
    {
        number(self.as_slice())
    }

    pub fn as_slice(&self) -> &[u8]
        ensures { result.now ≡ self.now }
    {
        self.octets.as_slice()
    }

    pub fn into_inner(self) -> Vec<u8>
        ensures { result.items ≡ self }
    {
        self.octets.into_inner()
    }
}

impl TryCopy for IntegerAsn1 {
    fn copy(&self, alloc: Global) -> Result<IntegerAsn1, OutOfMemory> {
        Ok(IntegerAsn1 {
            octets: self.octets.copy(alloc)?,
        })
    }
}
