//! Copies that fail if memory runs out.

ghost use Rattle.std.specs.Prelude.{◌≡◌, IfOk};

use crate::memory::OutOfMemory;
use std::alloc::Global;

/// A value that can be copied into new memory, as `Clone` copies where memory never runs out.
pub trait TryCopy: Sized + Drop {
    /// An equal value.
    fn copy(&self, alloc: Global) -> Result<Self, OutOfMemory>
        ensures { IfOk result (λ copy. copy ≡ self.now) };
}

impl<T: TryCopy> TryCopy for Option<T> {
    fn copy(&self, alloc: Global) -> Result<Option<T>, OutOfMemory> {
        match self {
            Some(value) => Ok(Some(value.copy(alloc)?)),
            None => Ok(None),
        }
    }
}

impl<A: TryCopy, B: TryCopy> TryCopy for (A, B) {
    fn copy(&self, alloc: Global) -> Result<(A, B), OutOfMemory> {
        let first = self.0.copy(alloc)?;
        let second = self.1.copy(alloc)?;
        Ok((first, second))
    }
}

impl TryCopy for bool {
    fn copy(&self, _alloc: Global) -> Result<bool, OutOfMemory> {
        Ok(*self)
    }
}
