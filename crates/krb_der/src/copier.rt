//! Copies of many values, with one answer for all of them.

ghost use Rattle.std.specs.Prelude.{◌≡◌, true, IfOk};

use crate::blank::Blank;
use crate::copies::TryCopy;
use crate::memory::OutOfMemory;
use std::alloc::Global;

/// Copies values one after another, and returns at the end whether there was memory for all of them:
///
/// ```text
/// let mut copier = Copier::new(alloc);
/// let pair = Pair { first: copier.copy(&self.first), second: copier.copy(&self.second) };
/// copier.finish(pair)
/// ```
#[derive(Drop)]
pub struct Copier {
    alloc: Global,
    /// True if there was memory for each copy so far.
    pub has_all: bool,
}

impl Copier {
    pub fn new(alloc: Global) -> Copier
        ensures { result.has_all ≡ true }
    {
        Copier {
            alloc,
            has_all: true,
        }
    }

    /// An equal value, or a blank one if memory runs out.
    pub fn copy<T: TryCopy + Blank>(&mut self, value: &T) -> T
        ensures { self.new.has_all ≡ true → (self.old.has_all ≡ true) × (result ≡ value.now) }
    {
        match value.copy(self.alloc) {
            Ok(copy) => copy,
            Err(_) => {
                self.has_all = false;
                T::blank(self.alloc)
            }
        }
    }

    /// Returns `value`, which was made of the copies. Fails if memory ran out for one of them.
    pub fn finish<T: Drop>(self, value: T) -> Result<T, OutOfMemory>
        ensures { IfOk result (λ x. (x ≡ value) × (self.has_all ≡ true)) }
    {
        if self.has_all {
            Ok(value)
        } else {
            Err(OutOfMemory)
        }
    }
}
