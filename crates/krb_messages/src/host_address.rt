//! Network addresses (RFC 4120 5.2.5).

use krb_der::{
    Asn1, Blank, Copier, Fault, FieldReader, FieldWriter, IntegerAsn1, Items, Octets, OutOfMemory,
    TryCopy,
};
use std::alloc::Global;

/// HostAddresses (RFC 4120 5.2.5).
pub type HostAddresses = Items<HostAddress>;

/// HostAddress (RFC 4120 5.2.5).
#[derive(Debug, PartialEq, Eq, Drop)]
pub struct HostAddress {
    /// The address type (RFC 4120 7.5.3).
    pub addr_type: IntegerAsn1,
    /// The address, the most significant octet first.
    pub address: Octets,
}

impl Asn1 for HostAddress {
    ghost use Rattle.krb_messages.specs.Layouts.{host_address_layout};

    ghost layout = { host_address_layout };

    #[tactic(auto, unfolding(crate::specs::Table::host_address))]
    fn tag() -> u8 {
        0x30
    }

    #[tactic(auto, unfolding(crate::specs::Table::host_address, crate::specs::Layouts::host_address_row))]
    fn from_contents(alloc: Global, contents: &[u8]) -> Result<Self, Fault> {
        let mut fields = FieldReader::of_sequence(alloc, contents);
        let record = HostAddress {
            addr_type: fields.required(0),
            address: fields.required(1),
        };
        fields.finish(record)
    }

    #[tactic(auto, unfolding(crate::specs::Table::host_address, crate::specs::Layouts::host_address_row))]
    fn to_contents(&self, alloc: Global) -> Result<Octets, OutOfMemory> {
        let mut fields = FieldWriter::new(alloc);
        fields.required(0, &self.addr_type);
        fields.required(1, &self.address);
        fields.finish()
    }
}

impl TryCopy for HostAddress {
    fn copy(&self, alloc: Global) -> Result<HostAddress, OutOfMemory> {
        let mut copier = Copier::new(alloc);
        let copy = HostAddress {
            addr_type: copier.copy(&self.addr_type),
            address: copier.copy(&self.address),
        };
        copier.finish(copy)
    }
}

impl Blank for HostAddress {
    fn blank(alloc: Global) -> HostAddress {
        HostAddress {
            addr_type: Blank::blank(alloc),
            address: Blank::blank(alloc),
        }
    }
}
