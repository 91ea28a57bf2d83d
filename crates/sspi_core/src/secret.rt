//! A value that is not shown.

ghost use Rattle.std.specs.Prelude.{◌≡◌, ◌==◌};
ghost use Rattle.std.specs.Cmp.Lexicographic.{pointwise};
ghost use Rattle.std.specs.Cmp.Rules.{comparing};
ghost use Rattle.std.proofs.Common.{rules};

use krb_der::{Octets, OutOfMemory, Text, TryCopy, is_equal};
use std::alloc::Global;
use std::marker::Model;

/// A password or a key. It has no printed form, so it does not get into a log by accident. Contracts see the value itself.
/// Its memory is not wiped. Keys and passwords are compared with no early end.
#[derive(Drop)]
pub struct Secret<T> {
    value: T,
}

impl<T> Model for Secret<T> {
    ghost Value = { T };

    ghost view = { λ a. a.value };

    ghost inverse = { λ value. record { value = value } };
}

impl<T> Secret<T> {
    /// Keeps the value.
    pub fn new(value: T) -> Secret<T>
        ensures { result ≡ value }
    {
        Secret { value }
    }

    /// The value, for the calls that need it.
    pub fn as_ref(&self) -> &T
        ensures { result.now ≡ self.now }
    {
        &self.value
    }
}

impl<T: TryCopy> TryCopy for Secret<T> {
    fn copy(&self, alloc: Global) -> Result<Secret<T>, OutOfMemory> {
        Ok(Secret {
            value: self.value.copy(alloc)?,
        })
    }
}

/// `==` of octets, with no early end.
fn is_same(octets: &[u8], others: &[u8]) -> bool
    ensures { result ≡ pointwise ◌==◌ octets.now others.now }
{
    is_equal(octets, others)
}

impl PartialEq for Secret<Octets> {
    ghost eq = { pointwise ◌==◌ };

    ghost laws = { Prim.search (comparing, rules) };

    fn eq(&self, other: &Secret<Octets>) -> bool {
        is_same(self.value.as_slice(), other.value.as_slice())
    }
}

impl Eq for Secret<Octets> {
    ghost laws = { Prim.search (comparing, rules) };
}

impl PartialEq for Secret<Text> {
    ghost eq = { pointwise ◌==◌ };

    ghost laws = { Prim.search (comparing, rules) };

    fn eq(&self, other: &Secret<Text>) -> bool {
        is_same(
            self.value.as_str().as_bytes(),
            other.value.as_str().as_bytes(),
        )
    }
}

impl Eq for Secret<Text> {
    ghost laws = { Prim.search (comparing, rules) };
}
