//! A name of ASCII octets.

ghost use Rattle.std.specs.Prelude.{◌≡◌, IfSome, IfNone, IsTrue, false};
ghost use Rattle.krb_der.specs.Schema.{is_ascii};

use crate::copies::TryCopy;
use crate::memory::OutOfMemory;
use crate::octets::Octets;
use std::alloc::Global;
use std::marker::Model;
use std::str;

/// ASCII octets, 00 to 7F hex, as a GeneralString of RFC 4120 5.2.1 has them. Contracts see them as a list.
#[derive(Debug, PartialEq, Eq, PartialOrd, Ord, Hash, Drop)]
pub struct Name {
    octets: Octets,
}

impl Model for Name {
    ghost use Rattle.std.specs.Prelude.{List, ℕ, IsTrue};
    ghost use Rattle.krb_der.specs.Schema.{is_ascii};

    ghost Value = { List ℕ };

    ghost view = { λ a. a.octets };

    ghost invariant = { λ a. IsTrue (is_ascii a.octets) };

    ghost inverse = { λ octets. record { octets = octets } };
}

/// Returns whether each octet is below 80 hex.
pub fn is_ascii(octets: &[u8]) -> bool
    ensures { result ≡ is_ascii octets.now }
{
    octets.iter().all(|octet| *octet < 0x80)
}

impl Name {
    /// None where an octet is past 7F hex.
    pub fn new(octets: Vec<u8>) -> Option<Name>
        ensures ascii { IfSome result (λ name. name ≡ octets.items) }
        ensures other { IfNone result (is_ascii octets.items ≡ false) }
    {
        if is_ascii(&octets) {
            Some(Name {
                octets: Octets::new(octets),
            })
        } else {
            None
        }
    }

    pub fn as_slice(&self) -> &[u8]
        ensures octets { result.now ≡ self.now }
        ensures ascii { IsTrue (is_ascii self.now) }
    {
        self.octets.as_slice()
    }

    pub fn as_str(&self) -> &str
        ensures octets { result.now ≡ self.now }
        ensures ascii { IsTrue (is_ascii self.now) }
    {
        unsafe { str::from_utf8_unchecked(self.octets.as_slice()) }
    }

    pub fn into_inner(self) -> Vec<u8>
        ensures octets { result.items ≡ self }
        ensures ascii { IsTrue (is_ascii self) }
    {
        self.octets.into_inner()
    }
}

impl TryCopy for Name {
    fn copy(&self, alloc: Global) -> Result<Name, OutOfMemory> {
        Ok(Name {
            octets: self.octets.copy(alloc)?,
        })
    }
}
