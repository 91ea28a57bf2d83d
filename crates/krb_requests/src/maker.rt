//! The parts of a record, with one result for all of them.

ghost use Rattle.std.specs.Prelude.{◌≡◌, ◌∷◌, [], true, IfOk};

use krb_der::{Blank, IntegerAsn1, Items, Octets, OutOfMemory, TryCopy};
use std::alloc::Global;

/// Makes the parts of a record one after another, and returns at the end whether there was memory for all of them:
///
/// ```text
/// let mut maker = Maker::new(alloc);
/// let key = EncryptionKey { key_type: maker.integer(&[18]), key_value: maker.octets(key) };
/// maker.finish(key)
/// ```
#[derive(Drop)]
pub struct Maker {
    alloc: Global,
    /// True if there was memory for each part so far.
    pub has_all: bool,
}

fn integer(alloc: Global, octets: &[u8]) -> Result<IntegerAsn1, OutOfMemory>
    ensures { IfOk result (λ integer. integer ≡ octets.now) }
{
    Ok(IntegerAsn1::from_bytes_be(Vec::from_slice(alloc, octets)?))
}

fn list_of_one<T: Drop>(alloc: Global, item: T) -> Result<Items<T>, OutOfMemory>
    ensures { IfOk result (λ items. items ≡ item ∷ []) }
{
    let mut items = Vec::new(alloc);
    items.push(item)?;
    Ok(Items::new(items))
}

fn list_of_two<T: Drop>(alloc: Global, first: T, second: T) -> Result<Items<T>, OutOfMemory>
    ensures { IfOk result (λ items. items ≡ first ∷ second ∷ []) }
{
    let mut items = Vec::new(alloc);
    items.push(first)?;
    items.push(second)?;
    Ok(Items::new(items))
}

impl Maker {
    pub fn new(alloc: Global) -> Maker
        ensures { result.has_all ≡ true }
    {
        Maker {
            alloc,
            has_all: true,
        }
    }

    /// Returns an INTEGER of these octets, or a blank one if memory runs out.
    pub fn integer(&mut self, octets: &[u8]) -> IntegerAsn1
        ensures { self.new.has_all ≡ true → (self.old.has_all ≡ true) × (result ≡ octets.now) }
    {
        match integer(self.alloc, octets) {
            Ok(integer) => integer,
            Err(_) => {
                self.has_all = false;
                IntegerAsn1::blank(self.alloc)
            }
        }
    }

    /// Returns these octets, or none if memory runs out.
    pub fn octets(&mut self, octets: &[u8]) -> Octets
        ensures { self.new.has_all ≡ true → (self.old.has_all ≡ true) × (result ≡ octets.now) }
    {
        match Octets::from_slice(self.alloc, octets) {
            Ok(octets) => octets,
            Err(_) => {
                self.has_all = false;
                Octets::blank(self.alloc)
            }
        }
    }

    /// Returns an equal value, or a blank one if memory runs out.
    pub fn copy<T: TryCopy + Blank>(&mut self, value: &T) -> T
        ensures { self.new.has_all ≡ true → (self.old.has_all ≡ true) × (result ≡ value.now) }
    {
        match value.copy(self.alloc) {
            Ok(copy) => copy,
            Err(_) => {
                self.has_all = false;
                T::blank(self.alloc)
            }
        }
    }

    /// Returns a list of one item, or an empty list if memory runs out.
    pub fn list_of_one<T: Drop>(&mut self, item: T) -> Items<T>
        ensures { self.new.has_all ≡ true → (self.old.has_all ≡ true) × (result ≡ item ∷ []) }
    {
        match list_of_one(self.alloc, item) {
            Ok(items) => items,
            Err(_) => {
                self.has_all = false;
                Items::blank(self.alloc)
            }
        }
    }

    /// Returns a list of two items, or an empty list if memory runs out.
    pub fn list_of_two<T: Drop>(&mut self, first: T, second: T) -> Items<T>
        ensures { self.new.has_all ≡ true → (self.old.has_all ≡ true) × (result ≡ first ∷ second ∷ []) }
    {
        match list_of_two(self.alloc, first, second) {
            Ok(items) => items,
            Err(_) => {
                self.has_all = false;
                Items::blank(self.alloc)
            }
        }
    }

    /// Returns the record of the parts. Fails with `OutOfMemory` if there was not memory for each part.
    pub fn finish<T: Drop>(self, value: T) -> Result<T, OutOfMemory>
        ensures { IfOk result (λ x. (x ≡ value) × (self.has_all ≡ true)) }
    {
        if self.has_all {
            Ok(value)
        } else {
            Err(OutOfMemory)
        }
    }
}
