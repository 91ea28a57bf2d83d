//! The request of the AP exchange (RFC 4120 5.5.1).

use crate::encryption::EncryptedData;
use crate::ticket::Ticket;
use krb_der::{
    Asn1, Bits, Copier, Fault, FieldReader, FieldWriter, IntegerAsn1, Octets, OutOfMemory, TryCopy,
};
use std::alloc::Global;

/// AP-REQ (RFC 4120 5.5.1): a client shows its ticket to a service.
#[derive(Debug, PartialEq, Eq, Drop)]
pub struct ApReq {
    /// The protocol version, 5.
    pub pvno: IntegerAsn1,
    /// The message type, 14.
    pub msg_type: IntegerAsn1,
    /// Bit 1: the ticket is sealed under a session key. Bit 2: the client asks for an AP-REP.
    pub ap_options: Bits,
    /// The ticket.
    pub ticket: Ticket,
    /// An `Authenticator`, sealed under the session key of the ticket.
    pub authenticator: EncryptedData,
}

impl Asn1 for ApReq {
    ghost use Rattle.krb_messages.specs.Layouts.{ap_req_layout};

    ghost layout = { ap_req_layout };

    #[tactic(auto, unfolding(crate::specs::Table::ap_req))]
    fn tag() -> u8 {
        0x6e
    }

    #[tactic(auto, unfolding(crate::specs::Table::ap_req, crate::specs::Layouts::ap_req_row))]
    fn from_contents(alloc: Global, contents: &[u8]) -> Result<Self, Fault> {
        let mut fields = FieldReader::of_application(alloc, contents);
        let record = ApReq {
            pvno: fields.required(0),
            msg_type: fields.required(1),
            ap_options: fields.required(2),
            ticket: fields.required(3),
            authenticator: fields.required(4),
        };
        fields.finish(record)
    }

    #[tactic(auto, unfolding(crate::specs::Table::ap_req, crate::specs::Layouts::ap_req_row))]
    fn to_contents(&self, alloc: Global) -> Result<Octets, OutOfMemory> {
        let mut fields = FieldWriter::new(alloc);
        fields.required(0, &self.pvno);
        fields.required(1, &self.msg_type);
        fields.required(2, &self.ap_options);
        fields.required(3, &self.ticket);
        fields.required(4, &self.authenticator);
        fields.finish_application()
    }
}

impl TryCopy for ApReq {
    fn copy(&self, alloc: Global) -> Result<ApReq, OutOfMemory> {
        let mut copier = Copier::new(alloc);
        let copy = ApReq {
            pvno: copier.copy(&self.pvno),
            msg_type: copier.copy(&self.msg_type),
            ap_options: copier.copy(&self.ap_options),
            ticket: copier.copy(&self.ticket),
            authenticator: copier.copy(&self.authenticator),
        };
        copier.finish(copy)
    }
}
