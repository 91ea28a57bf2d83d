//! Requests to a KDC (RFC 4120 5.4.1).

use crate::pa_data::PaData;
use crate::tagged::inner_octets;
use krb_der::{
    Asn1, Bits, Blank, Copier, Fault, FieldReader, FieldWriter, IntegerAsn1, Items, Name, Octets,
    OutOfMemory, Time, TryCopy, only,
};
use krb_messages::{EncryptedData, HostAddresses, PrincipalName, Ticket};
use std::alloc::Global;

/// KDC-REQ-BODY (RFC 4120 5.4.1): the ticket that the client requests.
#[derive(Drop)]
pub struct KdcReqBody {
    /// The flags that the client requests for the ticket, and options of the request.
    pub kdc_options: Bits,
    /// The client, in an AS-REQ.
    pub cname: Option<PrincipalName>,
    /// The realm of the service, and in an AS-REQ of the client.
    pub realm: Name,
    /// The service.
    pub sname: Option<PrincipalName>,
    /// The requested start time of the ticket.
    pub from: Option<Time>,
    /// The requested end time of the ticket.
    pub till: Time,
    /// The requested time until which the ticket can be renewed.
    pub rtime: Option<Time>,
    /// A number that the reply repeats.
    pub nonce: IntegerAsn1,
    /// The encryption types that the client accepts, the best first.
    pub etype: Items<IntegerAsn1>,
    /// The addresses that the ticket is used from.
    pub addresses: Option<HostAddresses>,
    /// Restrictions on its use, sealed.
    pub enc_authorization_data: Option<EncryptedData>,
    /// Tickets under whose keys the new one may be sealed.
    pub additional_tickets: Option<Items<Ticket>>,
}

impl Asn1 for KdcReqBody {
    ghost use Rattle.krb_exchange.specs.Layouts.{kdc_req_body_layout};

    ghost layout = { kdc_req_body_layout };

    #[tactic(auto, unfolding(crate::specs::Table::kdc_req_body))]
    fn tag() -> u8 {
        0x30
    }

    #[tactic(auto, unfolding(crate::specs::Table::kdc_req_body, crate::specs::Layouts::kdc_req_body_row))]
    fn from_contents(alloc: Global, contents: &[u8]) -> Result<Self, Fault> {
        let mut fields = FieldReader::of_sequence(alloc, contents);
        let record = KdcReqBody {
            kdc_options: fields.required(0),
            cname: fields.optional(1),
            realm: fields.required(2),
            sname: fields.optional(3),
            from: fields.optional(4),
            till: fields.required(5),
            rtime: fields.optional(6),
            nonce: fields.required(7),
            etype: fields.required(8),
            addresses: fields.optional(9),
            enc_authorization_data: fields.optional(10),
            additional_tickets: fields.optional(11),
        };
        fields.finish(record)
    }

    #[tactic(auto, unfolding(crate::specs::Table::kdc_req_body, crate::specs::Layouts::kdc_req_body_row))]
    fn to_contents(&self, alloc: Global) -> Result<Octets, OutOfMemory> {
        let mut fields = FieldWriter::new(alloc);
        fields.required(0, &self.kdc_options);
        fields.optional(1, &self.cname);
        fields.required(2, &self.realm);
        fields.optional(3, &self.sname);
        fields.optional(4, &self.from);
        fields.required(5, &self.till);
        fields.optional(6, &self.rtime);
        fields.required(7, &self.nonce);
        fields.required(8, &self.etype);
        fields.optional(9, &self.addresses);
        fields.optional(10, &self.enc_authorization_data);
        fields.optional(11, &self.additional_tickets);
        fields.finish()
    }
}

impl TryCopy for KdcReqBody {
    fn copy(&self, alloc: Global) -> Result<KdcReqBody, OutOfMemory> {
        let mut copier = Copier::new(alloc);
        let copy = KdcReqBody {
            kdc_options: copier.copy(&self.kdc_options),
            cname: copier.copy(&self.cname),
            realm: copier.copy(&self.realm),
            sname: copier.copy(&self.sname),
            from: self.from,
            till: self.till,
            rtime: self.rtime,
            nonce: copier.copy(&self.nonce),
            etype: copier.copy(&self.etype),
            addresses: copier.copy(&self.addresses),
            enc_authorization_data: copier.copy(&self.enc_authorization_data),
            additional_tickets: copier.copy(&self.additional_tickets),
        };
        copier.finish(copy)
    }
}

impl Blank for KdcReqBody {
    fn blank(alloc: Global) -> KdcReqBody {
        KdcReqBody {
            kdc_options: Blank::blank(alloc),
            cname: Blank::blank(alloc),
            realm: Blank::blank(alloc),
            sname: Blank::blank(alloc),
            from: Blank::blank(alloc),
            till: Blank::blank(alloc),
            rtime: Blank::blank(alloc),
            nonce: Blank::blank(alloc),
            etype: Blank::blank(alloc),
            addresses: Blank::blank(alloc),
            enc_authorization_data: Blank::blank(alloc),
            additional_tickets: Blank::blank(alloc),
        }
    }
}

/// KDC-REQ (RFC 4120 5.4.1): a request to a KDC.
#[derive(Drop)]
pub struct KdcReq {
    /// The protocol version, 5.
    pub pvno: IntegerAsn1,
    /// The message type, 10 or 12.
    pub msg_type: IntegerAsn1,
    /// Pre-authentication.
    pub padata: Option<Items<PaData>>,
    /// The body: the ticket that the client requests.
    pub req_body: KdcReqBody,
}

impl Asn1 for KdcReq {
    ghost use Rattle.krb_exchange.specs.Layouts.{kdc_req_layout};

    ghost layout = { kdc_req_layout };

    #[tactic(auto, unfolding(crate::specs::Table::kdc_req))]
    fn tag() -> u8 {
        0x30
    }

    #[tactic(auto, unfolding(crate::specs::Table::kdc_req, crate::specs::Layouts::kdc_req_row))]
    fn from_contents(alloc: Global, contents: &[u8]) -> Result<Self, Fault> {
        let mut fields = FieldReader::of_sequence(alloc, contents);
        let record = KdcReq {
            pvno: fields.required(1),
            msg_type: fields.required(2),
            padata: fields.optional(3),
            req_body: fields.required(4),
        };
        fields.finish(record)
    }

    #[tactic(auto, unfolding(crate::specs::Table::kdc_req, crate::specs::Layouts::kdc_req_row))]
    fn to_contents(&self, alloc: Global) -> Result<Octets, OutOfMemory> {
        let mut fields = FieldWriter::new(alloc);
        fields.required(1, &self.pvno);
        fields.required(2, &self.msg_type);
        fields.optional(3, &self.padata);
        fields.required(4, &self.req_body);
        fields.finish()
    }
}

impl TryCopy for KdcReq {
    fn copy(&self, alloc: Global) -> Result<KdcReq, OutOfMemory> {
        let mut copier = Copier::new(alloc);
        let copy = KdcReq {
            pvno: copier.copy(&self.pvno),
            msg_type: copier.copy(&self.msg_type),
            padata: copier.copy(&self.padata),
            req_body: copier.copy(&self.req_body),
        };
        copier.finish(copy)
    }
}

/// AS-REQ (RFC 4120 5.4.1): asks for the first ticket.
#[derive(Drop)]
pub struct AsReq(pub KdcReq);

impl Asn1 for AsReq {
    ghost use Rattle.krb_exchange.specs.Layouts.{as_req_layout};

    ghost layout = { as_req_layout };

    #[tactic(auto, unfolding(crate::specs::Table::as_req))]
    fn tag() -> u8 {
        0x6a
    }

    #[tactic(auto, unfolding(krb_der::specs::Records::value_in, crate::specs::Table::as_req, crate::specs::Layouts::as_req_row))]
    fn from_contents(alloc: Global, contents: &[u8]) -> Result<Self, Fault> {
        Ok(AsReq(only(alloc, contents)?))
    }

    #[tactic(auto, unfolding(crate::specs::Table::as_req, crate::specs::Layouts::as_req_row))]
    fn to_contents(&self, alloc: Global) -> Result<Octets, OutOfMemory> {
        inner_octets(alloc, &self.0)
    }
}

impl TryCopy for AsReq {
    fn copy(&self, alloc: Global) -> Result<AsReq, OutOfMemory> {
        Ok(AsReq(self.0.copy(alloc)?))
    }
}

/// TGS-REQ (RFC 4120 5.4.1): asks for a ticket by another one.
#[derive(Drop)]
pub struct TgsReq(pub KdcReq);

impl Asn1 for TgsReq {
    ghost use Rattle.krb_exchange.specs.Layouts.{tgs_req_layout};

    ghost layout = { tgs_req_layout };

    #[tactic(auto, unfolding(crate::specs::Table::tgs_req))]
    fn tag() -> u8 {
        0x6c
    }

    #[tactic(auto, unfolding(krb_der::specs::Records::value_in, crate::specs::Table::tgs_req, crate::specs::Layouts::tgs_req_row))]
    fn from_contents(alloc: Global, contents: &[u8]) -> Result<Self, Fault> {
        Ok(TgsReq(only(alloc, contents)?))
    }

    #[tactic(auto, unfolding(crate::specs::Table::tgs_req, crate::specs::Layouts::tgs_req_row))]
    fn to_contents(&self, alloc: Global) -> Result<Octets, OutOfMemory> {
        inner_octets(alloc, &self.0)
    }
}

impl TryCopy for TgsReq {
    fn copy(&self, alloc: Global) -> Result<TgsReq, OutOfMemory> {
        Ok(TgsReq(self.0.copy(alloc)?))
    }
}
