//! How a client asks a service for the ticket of user-to-user authentication (draft-swift-win2k-krb-user2user 3).

use krb_der::{
    Asn1, Copier, Fault, FieldReader, FieldWriter, IntegerAsn1, Octets, OutOfMemory, TryCopy,
};
use krb_messages::{PrincipalName, Ticket};
use std::alloc::Global;

/// TGT-REQ: a client asks for the ticket that a service has from its KDC. A realm is not read: this is the profile of it
/// that names its service.
#[derive(Drop)]
pub struct TgtReq {
    /// The protocol version, 5.
    pub pvno: IntegerAsn1,
    /// The message type, 16.
    pub msg_type: IntegerAsn1,
    /// The service.
    pub server_name: PrincipalName,
}

impl Asn1 for TgtReq {
    ghost use Rattle.krb_exchange.specs.Layouts.{tgt_req_layout};

    ghost layout = { tgt_req_layout };

    #[tactic(auto, unfolding(crate::specs::Table::tgt_req))]
    fn tag() -> u8 {
        0x30
    }

    #[tactic(auto, unfolding(crate::specs::Table::tgt_req, crate::specs::Layouts::tgt_req_row))]
    fn from_contents(alloc: Global, contents: &[u8]) -> Result<Self, Fault> {
        let mut fields = FieldReader::of_sequence(alloc, contents);
        let record = TgtReq {
            pvno: fields.required(0),
            msg_type: fields.required(1),
            server_name: fields.required(2),
        };
        fields.finish(record)
    }

    #[tactic(auto, unfolding(crate::specs::Table::tgt_req, crate::specs::Layouts::tgt_req_row))]
    fn to_contents(&self, alloc: Global) -> Result<Octets, OutOfMemory> {
        let mut fields = FieldWriter::new(alloc);
        fields.required(0, &self.pvno);
        fields.required(1, &self.msg_type);
        fields.required(2, &self.server_name);
        fields.finish()
    }
}

impl TryCopy for TgtReq {
    fn copy(&self, alloc: Global) -> Result<TgtReq, OutOfMemory> {
        let mut copier = Copier::new(alloc);
        let copy = TgtReq {
            pvno: copier.copy(&self.pvno),
            msg_type: copier.copy(&self.msg_type),
            server_name: copier.copy(&self.server_name),
        };
        copier.finish(copy)
    }
}

/// TGT-REP: the ticket that was asked for.
#[derive(Drop)]
pub struct TgtRep {
    /// The protocol version, 5.
    pub pvno: IntegerAsn1,
    /// The message type, 17.
    pub msg_type: IntegerAsn1,
    /// The ticket.
    pub ticket: Ticket,
}

impl Asn1 for TgtRep {
    ghost use Rattle.krb_exchange.specs.Layouts.{tgt_rep_layout};

    ghost layout = { tgt_rep_layout };

    #[tactic(auto, unfolding(crate::specs::Table::tgt_rep))]
    fn tag() -> u8 {
        0x30
    }

    #[tactic(auto, unfolding(crate::specs::Table::tgt_rep, crate::specs::Layouts::tgt_rep_row))]
    fn from_contents(alloc: Global, contents: &[u8]) -> Result<Self, Fault> {
        let mut fields = FieldReader::of_sequence(alloc, contents);
        let record = TgtRep {
            pvno: fields.required(0),
            msg_type: fields.required(1),
            ticket: fields.required(2),
        };
        fields.finish(record)
    }

    #[tactic(auto, unfolding(crate::specs::Table::tgt_rep, crate::specs::Layouts::tgt_rep_row))]
    fn to_contents(&self, alloc: Global) -> Result<Octets, OutOfMemory> {
        let mut fields = FieldWriter::new(alloc);
        fields.required(0, &self.pvno);
        fields.required(1, &self.msg_type);
        fields.required(2, &self.ticket);
        fields.finish()
    }
}

impl TryCopy for TgtRep {
    fn copy(&self, alloc: Global) -> Result<TgtRep, OutOfMemory> {
        let mut copier = Copier::new(alloc);
        let copy = TgtRep {
            pvno: copier.copy(&self.pvno),
            msg_type: copier.copy(&self.msg_type),
            ticket: copier.copy(&self.ticket),
        };
        copier.finish(copy)
    }
}
