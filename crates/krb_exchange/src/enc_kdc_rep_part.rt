//! The sealed parts of replies of a KDC (RFC 4120 5.4.2). They have no printed form, since they hold secrets.

use crate::pa_data::PaData;
use crate::tagged::inner_octets;
use krb_der::{
    Asn1, Bits, Copier, Fault, FieldReader, FieldWriter, IntegerAsn1, Items, Name, Octets,
    OutOfMemory, Time, TryCopy, only,
};
use krb_messages::{EncryptionKey, HostAddresses, PrincipalName};
use std::alloc::Global;

/// LastReq (RFC 4120 5.4.2).
pub type LastReq = Items<LastReqEntry>;

/// An element of LastReq (RFC 4120 5.4.2).
#[derive(Drop)]
pub struct LastReqEntry {
    /// The kind of request that `lr_value` is the time of.
    pub lr_type: IntegerAsn1,
    /// The time.
    pub lr_value: Time,
}

impl Asn1 for LastReqEntry {
    ghost use Rattle.krb_exchange.specs.Layouts.{last_req_entry_layout};

    ghost layout = { last_req_entry_layout };

    #[tactic(auto, unfolding(crate::specs::Table::last_req_entry))]
    fn tag() -> u8 {
        0x30
    }

    #[tactic(auto, unfolding(crate::specs::Table::last_req_entry, crate::specs::Layouts::last_req_entry_row))]
    fn from_contents(alloc: Global, contents: &[u8]) -> Result<Self, Fault> {
        let mut fields = FieldReader::of_sequence(alloc, contents);
        let record = LastReqEntry {
            lr_type: fields.required(0),
            lr_value: fields.required(1),
        };
        fields.finish(record)
    }

    #[tactic(auto, unfolding(crate::specs::Table::last_req_entry, crate::specs::Layouts::last_req_entry_row))]
    fn to_contents(&self, alloc: Global) -> Result<Octets, OutOfMemory> {
        let mut fields = FieldWriter::new(alloc);
        fields.required(0, &self.lr_type);
        fields.required(1, &self.lr_value);
        fields.finish()
    }
}

impl TryCopy for LastReqEntry {
    fn copy(&self, alloc: Global) -> Result<LastReqEntry, OutOfMemory> {
        let mut copier = Copier::new(alloc);
        let copy = LastReqEntry {
            lr_type: copier.copy(&self.lr_type),
            lr_value: self.lr_value,
        };
        copier.finish(copy)
    }
}

/// EncKDCRepPart (RFC 4120 5.4.2): the part of a reply that a KDC encrypts, so that only the client reads it.
#[derive(Drop)]
pub struct EncKdcRepPart {
    /// The session key.
    pub key: EncryptionKey,
    /// The last requests of the client.
    pub last_req: LastReq,
    /// The number of the request.
    pub nonce: IntegerAsn1,
    /// When the client's key expires.
    pub key_expiration: Option<Time>,
    /// The ticket's flags (RFC 4120 2).
    pub flags: Bits,
    /// When the client was first authenticated.
    pub authtime: Time,
    /// From when the ticket is valid, where that is not `authtime`.
    pub starttime: Option<Time>,
    /// Until when it is valid.
    pub endtime: Time,
    /// Until when it may be renewed.
    pub renew_till: Option<Time>,
    /// The realm of the service.
    pub srealm: Name,
    /// The service.
    pub sname: PrincipalName,
    /// The addresses that the ticket may be used from.
    pub caddr: Option<HostAddresses>,
    /// Pre-authentication (RFC 6806 11).
    pub encrypted_pa_data: Option<Items<PaData>>,
}

impl Asn1 for EncKdcRepPart {
    ghost use Rattle.krb_exchange.specs.Layouts.{enc_kdc_rep_part_layout};

    ghost layout = { enc_kdc_rep_part_layout };

    #[tactic(auto, unfolding(crate::specs::Table::enc_kdc_rep_part))]
    fn tag() -> u8 {
        0x30
    }

    #[tactic(auto, unfolding(crate::specs::Table::enc_kdc_rep_part, crate::specs::Layouts::enc_kdc_rep_part_row))]
    fn from_contents(alloc: Global, contents: &[u8]) -> Result<Self, Fault> {
        let mut fields = FieldReader::of_sequence(alloc, contents);
        let record = EncKdcRepPart {
            key: fields.required(0),
            last_req: fields.required(1),
            nonce: fields.required(2),
            key_expiration: fields.optional(3),
            flags: fields.required(4),
            authtime: fields.required(5),
            starttime: fields.optional(6),
            endtime: fields.required(7),
            renew_till: fields.optional(8),
            srealm: fields.required(9),
            sname: fields.required(10),
            caddr: fields.optional(11),
            encrypted_pa_data: fields.optional(12),
        };
        fields.finish(record)
    }

    #[tactic(auto, unfolding(crate::specs::Table::enc_kdc_rep_part, crate::specs::Layouts::enc_kdc_rep_part_row))]
    fn to_contents(&self, alloc: Global) -> Result<Octets, OutOfMemory> {
        let mut fields = FieldWriter::new(alloc);
        fields.required(0, &self.key);
        fields.required(1, &self.last_req);
        fields.required(2, &self.nonce);
        fields.optional(3, &self.key_expiration);
        fields.required(4, &self.flags);
        fields.required(5, &self.authtime);
        fields.optional(6, &self.starttime);
        fields.required(7, &self.endtime);
        fields.optional(8, &self.renew_till);
        fields.required(9, &self.srealm);
        fields.required(10, &self.sname);
        fields.optional(11, &self.caddr);
        fields.optional(12, &self.encrypted_pa_data);
        fields.finish()
    }
}

impl TryCopy for EncKdcRepPart {
    fn copy(&self, alloc: Global) -> Result<EncKdcRepPart, OutOfMemory> {
        let mut copier = Copier::new(alloc);
        let copy = EncKdcRepPart {
            key: copier.copy(&self.key),
            last_req: copier.copy(&self.last_req),
            nonce: copier.copy(&self.nonce),
            key_expiration: self.key_expiration,
            flags: copier.copy(&self.flags),
            authtime: self.authtime,
            starttime: self.starttime,
            endtime: self.endtime,
            renew_till: self.renew_till,
            srealm: copier.copy(&self.srealm),
            sname: copier.copy(&self.sname),
            caddr: copier.copy(&self.caddr),
            encrypted_pa_data: copier.copy(&self.encrypted_pa_data),
        };
        copier.finish(copy)
    }
}

/// EncASRepPart (RFC 4120 5.4.2): what is sealed in an AS-REP.
#[derive(Drop)]
pub struct EncAsRepPart(pub EncKdcRepPart);

impl Asn1 for EncAsRepPart {
    ghost use Rattle.krb_exchange.specs.Layouts.{enc_as_rep_part_layout};

    ghost layout = { enc_as_rep_part_layout };

    #[tactic(auto, unfolding(crate::specs::Table::enc_as_rep_part))]
    fn tag() -> u8 {
        0x79
    }

    #[tactic(auto, unfolding(krb_der::specs::Records::value_in, crate::specs::Table::enc_as_rep_part, crate::specs::Layouts::enc_as_rep_part_row))]
    fn from_contents(alloc: Global, contents: &[u8]) -> Result<Self, Fault> {
        Ok(EncAsRepPart(only(alloc, contents)?))
    }

    #[tactic(auto, unfolding(crate::specs::Table::enc_as_rep_part, crate::specs::Layouts::enc_as_rep_part_row))]
    fn to_contents(&self, alloc: Global) -> Result<Octets, OutOfMemory> {
        inner_octets(alloc, &self.0)
    }
}

impl TryCopy for EncAsRepPart {
    fn copy(&self, alloc: Global) -> Result<EncAsRepPart, OutOfMemory> {
        Ok(EncAsRepPart(self.0.copy(alloc)?))
    }
}

/// EncTGSRepPart (RFC 4120 5.4.2): what is sealed in a TGS-REP.
#[derive(Drop)]
pub struct EncTgsRepPart(pub EncKdcRepPart);

impl Asn1 for EncTgsRepPart {
    ghost use Rattle.krb_exchange.specs.Layouts.{enc_tgs_rep_part_layout};

    ghost layout = { enc_tgs_rep_part_layout };

    #[tactic(auto, unfolding(crate::specs::Table::enc_tgs_rep_part))]
    fn tag() -> u8 {
        0x7a
    }

    #[tactic(auto, unfolding(krb_der::specs::Records::value_in, crate::specs::Table::enc_tgs_rep_part, crate::specs::Layouts::enc_tgs_rep_part_row))]
    fn from_contents(alloc: Global, contents: &[u8]) -> Result<Self, Fault> {
        Ok(EncTgsRepPart(only(alloc, contents)?))
    }

    #[tactic(auto, unfolding(crate::specs::Table::enc_tgs_rep_part, crate::specs::Layouts::enc_tgs_rep_part_row))]
    fn to_contents(&self, alloc: Global) -> Result<Octets, OutOfMemory> {
        inner_octets(alloc, &self.0)
    }
}

impl TryCopy for EncTgsRepPart {
    fn copy(&self, alloc: Global) -> Result<EncTgsRepPart, OutOfMemory> {
        Ok(EncTgsRepPart(self.0.copy(alloc)?))
    }
}
