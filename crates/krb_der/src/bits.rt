//! A BIT STRING.

use crate::copies::TryCopy;
use crate::memory::OutOfMemory;
use crate::octets::Octets;
use std::alloc::Global;

/// A BIT STRING (X.690 8.6): how many bits of its last octet are unused, and its octets.
#[derive(Debug, PartialEq, Eq, PartialOrd, Ord, Hash, Drop)]
pub struct Bits {
    /// 0 to 7.
    pub unused: u8,
    /// The highest bit of the first octet is bit 0.
    pub octets: Octets,
}

impl TryCopy for Bits {
    fn copy(&self, alloc: Global) -> Result<Bits, OutOfMemory> {
        Ok(Bits {
            unused: self.unused,
            octets: self.octets.copy(alloc)?,
        })
    }
}
