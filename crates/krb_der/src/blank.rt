//! Values that take no memory.

use crate::bits::Bits;
use crate::integer::IntegerAsn1;
use crate::items::Items;
use crate::name::Name;
use crate::octets::Octets;
use crate::text::Text;
use crate::time::Time;
use std::alloc::Global;

/// A type with a value that needs no memory. That value replaces one that could not be read or copied, until
/// `FieldReader::finish` or `Copier::finish` drops it; no contract says which value it is.
pub trait Blank: Sized {
    fn blank(alloc: Global) -> Self;
}

impl Blank for IntegerAsn1 {
    fn blank(alloc: Global) -> IntegerAsn1 {
        IntegerAsn1::from_bytes_be(Vec::new(alloc))
    }
}

impl Blank for Octets {
    fn blank(alloc: Global) -> Octets {
        Octets::new(Vec::new(alloc))
    }
}

impl Blank for Name {
    fn blank(alloc: Global) -> Name {
        match Name::new(Vec::new(alloc)) {
            Some(name) => name,
            None => unreachable!(),
        }
    }
}

impl Blank for Text {
    fn blank(alloc: Global) -> Text {
        Text::new(String::new(alloc))
    }
}

impl Blank for Bits {
    fn blank(alloc: Global) -> Bits {
        Bits {
            unused: 0,
            octets: Octets::blank(alloc),
        }
    }
}

impl Blank for Time {
    fn blank(_alloc: Global) -> Time {
        Time::new(0)
    }
}

impl Blank for bool {
    fn blank(_alloc: Global) -> bool {
        false
    }
}

impl<T> Blank for Items<T> {
    fn blank(alloc: Global) -> Items<T> {
        Items::new(Vec::new(alloc))
    }
}

impl<T> Blank for Option<T> {
    fn blank(_alloc: Global) -> Option<T> {
        None
    }
}
