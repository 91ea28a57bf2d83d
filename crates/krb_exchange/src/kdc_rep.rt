//! Replies of a KDC (RFC 4120 5.4.2).

use crate::pa_data::PaData;
use crate::tagged::inner_octets;
use krb_der::{
    Asn1, Copier, Fault, FieldReader, FieldWriter, IntegerAsn1, Items, Name, Octets, OutOfMemory,
    TryCopy, only,
};
use krb_messages::{EncryptedData, PrincipalName, Ticket};
use std::alloc::Global;

/// KDC-REP (RFC 4120 5.4.2): a ticket, and its key sealed for the client.
#[derive(Drop)]
pub struct KdcRep {
    /// The protocol version, 5.
    pub pvno: IntegerAsn1,
    /// The message type, 11 or 13.
    pub msg_type: IntegerAsn1,
    /// Pre-authentication.
    pub padata: Option<Items<PaData>>,
    /// The realm of the client.
    pub crealm: Name,
    /// The client.
    pub cname: PrincipalName,
    /// The ticket.
    pub ticket: Ticket,
    /// An `EncKdcRepPart`, sealed under the client's key or the key of the ticket before.
    pub enc_part: EncryptedData,
}

impl Asn1 for KdcRep {
    ghost use Rattle.krb_exchange.specs.Layouts.{kdc_rep_layout};

    ghost layout = { kdc_rep_layout };

    #[tactic(auto, unfolding(crate::specs::Table::kdc_rep))]
    fn tag() -> u8 {
        0x30
    }

    #[tactic(auto, unfolding(crate::specs::Table::kdc_rep, crate::specs::Layouts::kdc_rep_row))]
    fn from_contents(alloc: Global, contents: &[u8]) -> Result<Self, Fault> {
        let mut fields = FieldReader::of_sequence(alloc, contents);
        let record = KdcRep {
            pvno: fields.required(0),
            msg_type: fields.required(1),
            padata: fields.optional(2),
            crealm: fields.required(3),
            cname: fields.required(4),
            ticket: fields.required(5),
            enc_part: fields.required(6),
        };
        fields.finish(record)
    }

    #[tactic(auto, unfolding(crate::specs::Table::kdc_rep, crate::specs::Layouts::kdc_rep_row))]
    fn to_contents(&self, alloc: Global) -> Result<Octets, OutOfMemory> {
        let mut fields = FieldWriter::new(alloc);
        fields.required(0, &self.pvno);
        fields.required(1, &self.msg_type);
        fields.optional(2, &self.padata);
        fields.required(3, &self.crealm);
        fields.required(4, &self.cname);
        fields.required(5, &self.ticket);
        fields.required(6, &self.enc_part);
        fields.finish()
    }
}

impl TryCopy for KdcRep {
    fn copy(&self, alloc: Global) -> Result<KdcRep, OutOfMemory> {
        let mut copier = Copier::new(alloc);
        let copy = KdcRep {
            pvno: copier.copy(&self.pvno),
            msg_type: copier.copy(&self.msg_type),
            padata: copier.copy(&self.padata),
            crealm: copier.copy(&self.crealm),
            cname: copier.copy(&self.cname),
            ticket: copier.copy(&self.ticket),
            enc_part: copier.copy(&self.enc_part),
        };
        copier.finish(copy)
    }
}

/// AS-REP (RFC 4120 5.4.2): the first ticket.
#[derive(Drop)]
pub struct AsRep(pub KdcRep);

impl Asn1 for AsRep {
    ghost use Rattle.krb_exchange.specs.Layouts.{as_rep_layout};

    ghost layout = { as_rep_layout };

    #[tactic(auto, unfolding(crate::specs::Table::as_rep))]
    fn tag() -> u8 {
        0x6b
    }

    #[tactic(auto, unfolding(krb_der::specs::Records::value_in, crate::specs::Table::as_rep, crate::specs::Layouts::as_rep_row))]
    fn from_contents(alloc: Global, contents: &[u8]) -> Result<Self, Fault> {
        Ok(AsRep(only(alloc, contents)?))
    }

    #[tactic(auto, unfolding(crate::specs::Table::as_rep, crate::specs::Layouts::as_rep_row))]
    fn to_contents(&self, alloc: Global) -> Result<Octets, OutOfMemory> {
        inner_octets(alloc, &self.0)
    }
}

impl TryCopy for AsRep {
    fn copy(&self, alloc: Global) -> Result<AsRep, OutOfMemory> {
        Ok(AsRep(self.0.copy(alloc)?))
    }
}

/// TGS-REP (RFC 4120 5.4.2): a ticket by another one.
#[derive(Drop)]
pub struct TgsRep(pub KdcRep);

impl Asn1 for TgsRep {
    ghost use Rattle.krb_exchange.specs.Layouts.{tgs_rep_layout};

    ghost layout = { tgs_rep_layout };

    #[tactic(auto, unfolding(crate::specs::Table::tgs_rep))]
    fn tag() -> u8 {
        0x6d
    }

    #[tactic(auto, unfolding(krb_der::specs::Records::value_in, crate::specs::Table::tgs_rep, crate::specs::Layouts::tgs_rep_row))]
    fn from_contents(alloc: Global, contents: &[u8]) -> Result<Self, Fault> {
        Ok(TgsRep(only(alloc, contents)?))
    }

    #[tactic(auto, unfolding(crate::specs::Table::tgs_rep, crate::specs::Layouts::tgs_rep_row))]
    fn to_contents(&self, alloc: Global) -> Result<Octets, OutOfMemory> {
        inner_octets(alloc, &self.0)
    }
}

impl TryCopy for TgsRep {
    fn copy(&self, alloc: Global) -> Result<TgsRep, OutOfMemory> {
        Ok(TgsRep(self.0.copy(alloc)?))
    }
}
