//! Tickets (RFC 4120 5.3).

use crate::encryption::EncryptedData;
use crate::principal_name::PrincipalName;
use krb_der::{
    Asn1, Blank, Copier, Fault, FieldReader, FieldWriter, IntegerAsn1, Name, Octets, OutOfMemory,
    TryCopy,
};
use std::alloc::Global;

/// Ticket (RFC 4120 5.3).
#[derive(Debug, PartialEq, Eq, Drop)]
pub struct Ticket {
    /// The version of the ticket's format, 5.
    pub tkt_vno: IntegerAsn1,
    /// The realm that issued it.
    pub realm: Name,
    /// The service that it is for.
    pub sname: PrincipalName,
    /// An `EncTicketPart`, sealed under the service's key.
    pub enc_part: EncryptedData,
}

impl Asn1 for Ticket {
    ghost use Rattle.krb_messages.specs.Layouts.{ticket_layout};

    ghost layout = { ticket_layout };

    #[tactic(auto, unfolding(crate::specs::Table::ticket))]
    fn tag() -> u8 {
        0x61
    }

    #[tactic(auto, unfolding(crate::specs::Table::ticket, crate::specs::Layouts::ticket_row))]
    fn from_contents(alloc: Global, contents: &[u8]) -> Result<Self, Fault> {
        let mut fields = FieldReader::of_application(alloc, contents);
        let record = Ticket {
            tkt_vno: fields.required(0),
            realm: fields.required(1),
            sname: fields.required(2),
            enc_part: fields.required(3),
        };
        fields.finish(record)
    }

    #[tactic(auto, unfolding(crate::specs::Table::ticket, crate::specs::Layouts::ticket_row))]
    fn to_contents(&self, alloc: Global) -> Result<Octets, OutOfMemory> {
        let mut fields = FieldWriter::new(alloc);
        fields.required(0, &self.tkt_vno);
        fields.required(1, &self.realm);
        fields.required(2, &self.sname);
        fields.required(3, &self.enc_part);
        fields.finish_application()
    }
}

impl TryCopy for Ticket {
    fn copy(&self, alloc: Global) -> Result<Ticket, OutOfMemory> {
        let mut copier = Copier::new(alloc);
        let copy = Ticket {
            tkt_vno: copier.copy(&self.tkt_vno),
            realm: copier.copy(&self.realm),
            sname: copier.copy(&self.sname),
            enc_part: copier.copy(&self.enc_part),
        };
        copier.finish(copy)
    }
}

impl Blank for Ticket {
    fn blank(alloc: Global) -> Ticket {
        Ticket {
            tkt_vno: Blank::blank(alloc),
            realm: Blank::blank(alloc),
            sname: Blank::blank(alloc),
            enc_part: Blank::blank(alloc),
        }
    }
}
