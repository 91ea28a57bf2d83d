//! Names of principals (RFC 4120 5.2.2).

use krb_der::{
    Asn1, Blank, Copier, Fault, FieldReader, FieldWriter, IntegerAsn1, Items, Name, Octets,
    OutOfMemory, TryCopy,
};
use std::alloc::Global;

/// PrincipalName (RFC 4120 5.2.2): the name of a user or a service within its realm.
#[derive(Debug, PartialEq, Eq, PartialOrd, Ord, Hash, Drop)]
pub struct PrincipalName {
    /// The name type (RFC 4120 6.2).
    pub name_type: IntegerAsn1,
    /// Its components, as `host` and `server.example.com`.
    pub name_string: Items<Name>,
}

impl Asn1 for PrincipalName {
    ghost use Rattle.krb_messages.specs.Layouts.{principal_name_layout};

    ghost layout = { principal_name_layout };

    #[tactic(auto, unfolding(crate::specs::Table::principal_name))]
    fn tag() -> u8 {
        0x30
    }

    #[tactic(auto, unfolding(crate::specs::Table::principal_name, crate::specs::Layouts::principal_name_row))]
    fn from_contents(alloc: Global, contents: &[u8]) -> Result<Self, Fault> {
        let mut fields = FieldReader::of_sequence(alloc, contents);
        let record = PrincipalName {
            name_type: fields.required(0),
            name_string: fields.required(1),
        };
        fields.finish(record)
    }

    #[tactic(auto, unfolding(crate::specs::Table::principal_name, crate::specs::Layouts::principal_name_row))]
    fn to_contents(&self, alloc: Global) -> Result<Octets, OutOfMemory> {
        let mut fields = FieldWriter::new(alloc);
        fields.required(0, &self.name_type);
        fields.required(1, &self.name_string);
        fields.finish()
    }
}

impl TryCopy for PrincipalName {
    fn copy(&self, alloc: Global) -> Result<PrincipalName, OutOfMemory> {
        let mut copier = Copier::new(alloc);
        let copy = PrincipalName {
            name_type: copier.copy(&self.name_type),
            name_string: copier.copy(&self.name_string),
        };
        copier.finish(copy)
    }
}

impl Blank for PrincipalName {
    fn blank(alloc: Global) -> PrincipalName {
        PrincipalName {
            name_type: Blank::blank(alloc),
            name_string: Blank::blank(alloc),
        }
    }
}
