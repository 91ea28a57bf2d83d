//! Messages to a KDC and from it over HTTP (MS-KKDCP 2.2.2).

use krb_der::{
    Asn1, Copier, Fault, FieldReader, FieldWriter, IntegerAsn1, Name, Octets, OutOfMemory, TryCopy,
};
use std::alloc::Global;

/// KDC-PROXY-MESSAGE (MS-KKDCP 2.2.2): a message as it goes over HTTP.
#[derive(Drop)]
pub struct KdcProxyMessage {
    /// The message after its length in four big-endian octets.
    pub kerb_message: Octets,
    /// The realm whose KDC is to have it.
    pub target_domain: Option<Name>,
    /// How that KDC may be found.
    pub dclocator_hint: Option<IntegerAsn1>,
}

impl Asn1 for KdcProxyMessage {
    ghost use Rattle.krb_exchange.specs.Layouts.{kdc_proxy_message_layout};

    ghost layout = { kdc_proxy_message_layout };

    #[tactic(auto, unfolding(crate::specs::Table::kdc_proxy_message))]
    fn tag() -> u8 {
        0x30
    }

    #[tactic(auto, unfolding(crate::specs::Table::kdc_proxy_message, crate::specs::Layouts::kdc_proxy_message_row))]
    fn from_contents(alloc: Global, contents: &[u8]) -> Result<Self, Fault> {
        let mut fields = FieldReader::of_sequence(alloc, contents);
        let record = KdcProxyMessage {
            kerb_message: fields.required(0),
            target_domain: fields.optional(1),
            dclocator_hint: fields.optional(2),
        };
        fields.finish(record)
    }

    #[tactic(auto, unfolding(crate::specs::Table::kdc_proxy_message, crate::specs::Layouts::kdc_proxy_message_row))]
    fn to_contents(&self, alloc: Global) -> Result<Octets, OutOfMemory> {
        let mut fields = FieldWriter::new(alloc);
        fields.required(0, &self.kerb_message);
        fields.optional(1, &self.target_domain);
        fields.optional(2, &self.dclocator_hint);
        fields.finish()
    }
}

impl TryCopy for KdcProxyMessage {
    fn copy(&self, alloc: Global) -> Result<KdcProxyMessage, OutOfMemory> {
        let mut copier = Copier::new(alloc);
        let copy = KdcProxyMessage {
            kerb_message: copier.copy(&self.kerb_message),
            target_domain: copier.copy(&self.target_domain),
            dclocator_hint: copier.copy(&self.dclocator_hint),
        };
        copier.finish(copy)
    }
}
