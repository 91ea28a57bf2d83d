//! Authorization data (RFC 4120 5.2.6).

use krb_der::{
    Asn1, Blank, Copier, Fault, FieldReader, FieldWriter, IntegerAsn1, Items, Octets, OutOfMemory,
    TryCopy,
};
use std::alloc::Global;

/// AuthorizationData (RFC 4120 5.2.6).
pub type AuthorizationData = Items<AuthorizationDataElement>;

/// An element of AuthorizationData (RFC 4120 5.2.6).
#[derive(Debug, PartialEq, Eq, Drop)]
pub struct AuthorizationDataElement {
    /// The type of the contents (RFC 4120 7.5.4).
    pub ad_type: IntegerAsn1,
    /// The contents, in the format of the type.
    pub ad_data: Octets,
}

impl Asn1 for AuthorizationDataElement {
    ghost use Rattle.krb_messages.specs.Layouts.{authorization_data_element_layout};

    ghost layout = { authorization_data_element_layout };

    #[tactic(auto, unfolding(crate::specs::Table::authorization_data_element))]
    fn tag() -> u8 {
        0x30
    }

    #[tactic(auto, unfolding(crate::specs::Table::authorization_data_element, crate::specs::Layouts::authorization_data_element_row))]
    fn from_contents(alloc: Global, contents: &[u8]) -> Result<Self, Fault> {
        let mut fields = FieldReader::of_sequence(alloc, contents);
        let record = AuthorizationDataElement {
            ad_type: fields.required(0),
            ad_data: fields.required(1),
        };
        fields.finish(record)
    }

    #[tactic(auto, unfolding(crate::specs::Table::authorization_data_element, crate::specs::Layouts::authorization_data_element_row))]
    fn to_contents(&self, alloc: Global) -> Result<Octets, OutOfMemory> {
        let mut fields = FieldWriter::new(alloc);
        fields.required(0, &self.ad_type);
        fields.required(1, &self.ad_data);
        fields.finish()
    }
}

impl TryCopy for AuthorizationDataElement {
    fn copy(&self, alloc: Global) -> Result<AuthorizationDataElement, OutOfMemory> {
        let mut copier = Copier::new(alloc);
        let copy = AuthorizationDataElement {
            ad_type: copier.copy(&self.ad_type),
            ad_data: copier.copy(&self.ad_data),
        };
        copier.finish(copy)
    }
}

impl Blank for AuthorizationDataElement {
    fn blank(alloc: Global) -> AuthorizationDataElement {
        AuthorizationDataElement {
            ad_type: Blank::blank(alloc),
            ad_data: Blank::blank(alloc),
        }
    }
}
