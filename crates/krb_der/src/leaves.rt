//! The types of single values, and lists of one type.

ghost use Rattle.krb_der.specs.Layout.{integer_layout, error_code_layout, octets_layout, text_layout, bits_layout, time_layout, boolean_layout, items_layout};

use crate::asn1::{Asn1, next};
use crate::bits::Bits;
use crate::boolean::{boolean, boolean_octets};
use crate::error_code::ErrorCode;
use crate::fault::Fault;
use crate::integer::IntegerAsn1;
use crate::items::Items;
use crate::memory::OutOfMemory;
use crate::name::Name;
use crate::octets::Octets;
use crate::reader::Reader;
use crate::time::Time;
use crate::writer::Writer;
use std::alloc::Global;

impl Asn1 for IntegerAsn1 {
    ghost layout = { integer_layout };

    fn tag() -> u8 {
        0x02
    }

    #[tactic(auto, unfolding(crate::specs::Records::value_in))]
    fn from_contents(alloc: Global, contents: &[u8]) -> Result<Self, Fault> {
        if contents.is_empty() {
            return Err(Fault::Shape);
        }
        let octets = Vec::from_slice(alloc, contents)?;
        Ok(IntegerAsn1::from_bytes_be(octets))
    }

    fn to_contents(&self, alloc: Global) -> Result<Octets, OutOfMemory> {
        Octets::from_slice(alloc, self.as_slice())
    }
}

impl Asn1 for ErrorCode {
    ghost layout = { error_code_layout };

    fn tag() -> u8 {
        0x02
    }

    #[tactic(auto, unfolding(crate::specs::Records::value_in))]
    fn from_contents(alloc: Global, contents: &[u8]) -> Result<Self, Fault> {
        let octets = Vec::from_slice(alloc, contents)?;
        ErrorCode::new(IntegerAsn1::from_bytes_be(octets)).ok_or(Fault::Shape)
    }

    fn to_contents(&self, alloc: Global) -> Result<Octets, OutOfMemory> {
        Octets::from_slice(alloc, self.as_slice())
    }
}

impl Asn1 for Octets {
    ghost layout = { octets_layout };

    fn tag() -> u8 {
        0x04
    }

    #[tactic(auto, unfolding(crate::specs::Records::value_in))]
    fn from_contents(alloc: Global, contents: &[u8]) -> Result<Self, Fault> {
        Ok(Octets::from_slice(alloc, contents)?)
    }

    fn to_contents(&self, alloc: Global) -> Result<Octets, OutOfMemory> {
        Octets::from_slice(alloc, self.as_slice())
    }
}

impl Asn1 for Name {
    ghost layout = { text_layout };

    fn tag() -> u8 {
        0x1b
    }

    #[tactic(auto, unfolding(crate::specs::Records::value_in))]
    fn from_contents(alloc: Global, contents: &[u8]) -> Result<Self, Fault> {
        let octets = Vec::from_slice(alloc, contents)?;
        Name::new(octets).ok_or(Fault::Shape)
    }

    fn to_contents(&self, alloc: Global) -> Result<Octets, OutOfMemory> {
        Octets::from_slice(alloc, self.as_slice())
    }
}

impl Asn1 for Bits {
    ghost layout = { bits_layout };

    fn tag() -> u8 {
        0x03
    }

    #[tactic(auto, unfolding(crate::specs::Records::value_in))]
    fn from_contents(alloc: Global, contents: &[u8]) -> Result<Self, Fault> {
        match contents {
            [unused @ 0..=7, octets @ ..] => Ok(Bits {
                unused: *unused,
                octets: Octets::from_slice(alloc, octets)?,
            }),
            _ => Err(Fault::Shape),
        }
    }

    fn to_contents(&self, alloc: Global) -> Result<Octets, OutOfMemory> {
        let mut octets = Vec::new(alloc);
        octets.push(self.unused)?;
        octets.extend_from_slice(self.octets.as_slice())?;
        Ok(Octets::new(octets))
    }
}

impl Asn1 for Time {
    ghost layout = { time_layout };

    fn tag() -> u8 {
        0x18
    }

    #[tactic(auto, unfolding(crate::specs::Records::value_in))]
    fn from_contents(_alloc: Global, contents: &[u8]) -> Result<Self, Fault> {
        Ok(Time::from_octets(contents)?)
    }

    fn to_contents(&self, alloc: Global) -> Result<Octets, OutOfMemory> {
        Octets::from_slice(alloc, &self.to_octets())
    }
}

impl Asn1 for bool {
    ghost layout = { boolean_layout };

    fn tag() -> u8 {
        0x01
    }

    #[tactic(auto, unfolding(crate::specs::Records::value_in))]
    fn from_contents(_alloc: Global, contents: &[u8]) -> Result<Self, Fault> {
        Ok(boolean(contents)?)
    }

    fn to_contents(&self, alloc: Global) -> Result<Octets, OutOfMemory> {
        Octets::from_slice(alloc, &boolean_octets(*self))
    }
}

impl<T: Asn1> Asn1 for Items<T> {
    ghost layout = { items_layout T.layout };

    fn tag() -> u8 {
        0x30
    }

    #[tactic(auto, unfolding(crate::specs::Records::value_in))]
    fn from_contents(alloc: Global, contents: &[u8]) -> Result<Self, Fault> {
        let mut reader = Reader::new(contents);
        let mut items = Vec::new(alloc);
        while !reader.is_empty() {
            let item = next(alloc, &mut reader)?;
            items.push(item)?;
        }
        Ok(Items::new(items))
    }

    fn to_contents(&self, alloc: Global) -> Result<Octets, OutOfMemory> {
        let mut items = Writer::new(alloc);
        for item in self.as_slice() {
            let contents = item.to_contents(alloc)?;
            items.tlv(T::tag(), contents.as_slice())?;
        }
        Ok(items.finish())
    }
}
