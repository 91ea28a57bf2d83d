//! The reply of the AP exchange (RFC 4120 5.5.2).

use crate::encryption::{EncryptedData, EncryptionKey};
use krb_der::{
    Asn1, Copier, Fault, FieldReader, FieldWriter, IntegerAsn1, Octets, OutOfMemory, Time, TryCopy,
};
use std::alloc::Global;

/// AP-REP (RFC 4120 5.5.2): a service shows that it opened the ticket.
#[derive(Debug, PartialEq, Eq, Drop)]
pub struct ApRep {
    /// The protocol version, 5.
    pub pvno: IntegerAsn1,
    /// The message type, 15.
    pub msg_type: IntegerAsn1,
    /// An `EncApRepPart`, sealed under the session key of the ticket.
    pub enc_part: EncryptedData,
}

impl Asn1 for ApRep {
    ghost use Rattle.krb_messages.specs.Layouts.{ap_rep_layout};

    ghost layout = { ap_rep_layout };

    #[tactic(auto, unfolding(crate::specs::Table::ap_rep))]
    fn tag() -> u8 {
        0x6f
    }

    #[tactic(auto, unfolding(crate::specs::Table::ap_rep, crate::specs::Layouts::ap_rep_row))]
    fn from_contents(alloc: Global, contents: &[u8]) -> Result<Self, Fault> {
        let mut fields = FieldReader::of_application(alloc, contents);
        let record = ApRep {
            pvno: fields.required(0),
            msg_type: fields.required(1),
            enc_part: fields.required(2),
        };
        fields.finish(record)
    }

    #[tactic(auto, unfolding(crate::specs::Table::ap_rep, crate::specs::Layouts::ap_rep_row))]
    fn to_contents(&self, alloc: Global) -> Result<Octets, OutOfMemory> {
        let mut fields = FieldWriter::new(alloc);
        fields.required(0, &self.pvno);
        fields.required(1, &self.msg_type);
        fields.required(2, &self.enc_part);
        fields.finish_application()
    }
}

impl TryCopy for ApRep {
    fn copy(&self, alloc: Global) -> Result<ApRep, OutOfMemory> {
        let mut copier = Copier::new(alloc);
        let copy = ApRep {
            pvno: copier.copy(&self.pvno),
            msg_type: copier.copy(&self.msg_type),
            enc_part: copier.copy(&self.enc_part),
        };
        copier.finish(copy)
    }
}

/// EncAPRepPart (RFC 4120 5.5.2). It has no printed form, since it holds a secret.
#[derive(PartialEq, Eq, Drop)]
pub struct EncApRepPart {
    /// The client's clock, from its authenticator.
    pub ctime: Time,
    /// The microseconds of the client's clock, from its authenticator.
    pub cusec: IntegerAsn1,
    /// The key that the service chose for what follows.
    pub subkey: Option<EncryptionKey>,
    /// The number of the first message that the service sends.
    pub seq_number: Option<IntegerAsn1>,
}

impl Asn1 for EncApRepPart {
    ghost use Rattle.krb_messages.specs.Layouts.{enc_ap_rep_part_layout};

    ghost layout = { enc_ap_rep_part_layout };

    #[tactic(auto, unfolding(crate::specs::Table::enc_ap_rep_part))]
    fn tag() -> u8 {
        0x7b
    }

    #[tactic(auto, unfolding(crate::specs::Table::enc_ap_rep_part, crate::specs::Layouts::enc_ap_rep_part_row))]
    fn from_contents(alloc: Global, contents: &[u8]) -> Result<Self, Fault> {
        let mut fields = FieldReader::of_application(alloc, contents);
        let record = EncApRepPart {
            ctime: fields.required(0),
            cusec: fields.required(1),
            subkey: fields.optional(2),
            seq_number: fields.optional(3),
        };
        fields.finish(record)
    }

    #[tactic(auto, unfolding(crate::specs::Table::enc_ap_rep_part, crate::specs::Layouts::enc_ap_rep_part_row))]
    fn to_contents(&self, alloc: Global) -> Result<Octets, OutOfMemory> {
        let mut fields = FieldWriter::new(alloc);
        fields.required(0, &self.ctime);
        fields.required(1, &self.cusec);
        fields.optional(2, &self.subkey);
        fields.optional(3, &self.seq_number);
        fields.finish_application()
    }
}

impl TryCopy for EncApRepPart {
    fn copy(&self, alloc: Global) -> Result<EncApRepPart, OutOfMemory> {
        let mut copier = Copier::new(alloc);
        let copy = EncApRepPart {
            ctime: self.ctime,
            cusec: copier.copy(&self.cusec),
            subkey: copier.copy(&self.subkey),
            seq_number: copier.copy(&self.seq_number),
        };
        copier.finish(copy)
    }
}
