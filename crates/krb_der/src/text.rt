//! A text.

ghost use Rattle.std.specs.Prelude.{◌≡◌, ◌==◌, IfOk};
ghost use Rattle.std.specs.List.{list_any};
ghost use Rattle.std.specs.String.{string_bytes};
ghost use Rattle.std.specs.Str.{IsUtf8};

use crate::copies::TryCopy;
use crate::memory::OutOfMemory;
use crate::octets::Octets;
use std::alloc::Global;
use std::marker::Model;
use std::str;

/// UTF-8 octets. Contracts see them as a list.
#[derive(Debug, PartialEq, Eq, PartialOrd, Ord, Hash, Drop)]
pub struct Text {
    octets: Octets,
}

impl Model for Text {
    ghost use Rattle.std.specs.Prelude.{List, ℕ};
    ghost use Rattle.std.specs.Str.{IsUtf8};

    ghost Value = { List ℕ };

    ghost view = { λ a. a.octets };

    ghost invariant = { λ a. IsUtf8 a.octets };

    ghost inverse = { λ octets. record { octets = octets } };
}

/// Returns whether a text has this octet. An octet below 80 hex is a character of ASCII.
pub fn has_octet(text: &str, octet: u8) -> bool
    ensures { result ≡ list_any (λ each. each == octet) text.now }
{
    text.as_bytes().contains(&octet)
}

impl Text {
    pub fn new(text: String) -> Text
        ensures { result ≡ string_bytes text }
    {
        Text {
            octets: Octets::new(text.into_bytes()),
        }
    }

    /// A text of its own.
    pub fn from_str(alloc: Global, text: &str) -> Result<Text, OutOfMemory>
        ensures { IfOk result (λ copy. copy ≡ text.now) }
    {
        let text = String::from_str(alloc, text)?;
        Ok(Text::new(text))
    }

    pub fn as_str(&self) -> &str
        ensures { result.now ≡ self.now }
    {
        unsafe { str::from_utf8_unchecked(self.octets.as_slice()) }
    }

    pub fn into_inner(self) -> String
        ensures { string_bytes result ≡ self }
    {
        unsafe { String::from_utf8_unchecked(self.octets.into_inner()) }
    }
}

impl TryCopy for Text {
    fn copy(&self, alloc: Global) -> Result<Text, OutOfMemory> {
        Ok(Text {
            octets: self.octets.copy(alloc)?,
        })
    }
}
