//! The sealed part of a ticket (RFC 4120 5.3).

use crate::authorization_data::AuthorizationData;
use crate::encryption::EncryptionKey;
use crate::host_address::HostAddresses;
use crate::principal_name::PrincipalName;
use krb_der::{
    Asn1, Bits, Blank, Copier, Fault, FieldReader, FieldWriter, IntegerAsn1, Name, Octets,
    OutOfMemory, Time, TryCopy,
};
use std::alloc::Global;

/// TransitedEncoding (RFC 4120 5.3): the realms between the client's and the service's.
#[derive(Debug, PartialEq, Eq, Drop)]
pub struct TransitedEncoding {
    /// How they are spelled; 1 is DOMAIN-X500-COMPRESS (RFC 4120 3.3.3.2).
    pub tr_type: IntegerAsn1,
    /// The realms.
    pub contents: Octets,
}

/// EncTicketPart (RFC 4120 5.3): what a ticket says of its client. It has no printed form, since it holds a secret.
#[derive(PartialEq, Eq, Drop)]
pub struct EncTicketPart {
    /// The ticket's flags (RFC 4120 2).
    pub flags: Bits,
    /// The session key.
    pub key: EncryptionKey,
    /// The client's realm.
    pub crealm: Name,
    /// The client.
    pub cname: PrincipalName,
    /// The realms that took part in authenticating the client.
    pub transited: TransitedEncoding,
    /// When the client was first authenticated.
    pub authtime: Time,
    /// From when the ticket is valid, where that is not `authtime`.
    pub starttime: Option<Time>,
    /// Until when the ticket is valid.
    pub endtime: Time,
    /// Until when the ticket may be renewed.
    pub renew_till: Option<Time>,
    /// The addresses that the ticket may be used from.
    pub caddr: Option<HostAddresses>,
    /// Restrictions on the ticket's use.
    pub authorization_data: Option<AuthorizationData>,
}

impl Asn1 for TransitedEncoding {
    ghost use Rattle.krb_messages.specs.Layouts.{transited_encoding_layout};

    ghost layout = { transited_encoding_layout };

    #[tactic(auto, unfolding(crate::specs::Table::transited_encoding))]
    fn tag() -> u8 {
        0x30
    }

    #[tactic(auto, unfolding(crate::specs::Table::transited_encoding, crate::specs::Layouts::transited_encoding_row))]
    fn from_contents(alloc: Global, contents: &[u8]) -> Result<Self, Fault> {
        let mut fields = FieldReader::of_sequence(alloc, contents);
        let record = TransitedEncoding {
            tr_type: fields.required(0),
            contents: fields.required(1),
        };
        fields.finish(record)
    }

    #[tactic(auto, unfolding(crate::specs::Table::transited_encoding, crate::specs::Layouts::transited_encoding_row))]
    fn to_contents(&self, alloc: Global) -> Result<Octets, OutOfMemory> {
        let mut fields = FieldWriter::new(alloc);
        fields.required(0, &self.tr_type);
        fields.required(1, &self.contents);
        fields.finish()
    }
}

impl TryCopy for TransitedEncoding {
    fn copy(&self, alloc: Global) -> Result<TransitedEncoding, OutOfMemory> {
        let mut copier = Copier::new(alloc);
        let copy = TransitedEncoding {
            tr_type: copier.copy(&self.tr_type),
            contents: copier.copy(&self.contents),
        };
        copier.finish(copy)
    }
}

impl Blank for TransitedEncoding {
    fn blank(alloc: Global) -> TransitedEncoding {
        TransitedEncoding {
            tr_type: Blank::blank(alloc),
            contents: Blank::blank(alloc),
        }
    }
}

impl Asn1 for EncTicketPart {
    ghost use Rattle.krb_messages.specs.Layouts.{enc_ticket_part_layout};

    ghost layout = { enc_ticket_part_layout };

    #[tactic(auto, unfolding(crate::specs::Table::enc_ticket_part))]
    fn tag() -> u8 {
        0x63
    }

    #[tactic(auto, unfolding(crate::specs::Table::enc_ticket_part, crate::specs::Layouts::enc_ticket_part_row))]
    fn from_contents(alloc: Global, contents: &[u8]) -> Result<Self, Fault> {
        let mut fields = FieldReader::of_application(alloc, contents);
        let record = EncTicketPart {
            flags: fields.required(0),
            key: fields.required(1),
            crealm: fields.required(2),
            cname: fields.required(3),
            transited: fields.required(4),
            authtime: fields.required(5),
            starttime: fields.optional(6),
            endtime: fields.required(7),
            renew_till: fields.optional(8),
            caddr: fields.optional(9),
            authorization_data: fields.optional(10),
        };
        fields.finish(record)
    }

    #[tactic(auto, unfolding(crate::specs::Table::enc_ticket_part, crate::specs::Layouts::enc_ticket_part_row))]
    fn to_contents(&self, alloc: Global) -> Result<Octets, OutOfMemory> {
        let mut fields = FieldWriter::new(alloc);
        fields.required(0, &self.flags);
        fields.required(1, &self.key);
        fields.required(2, &self.crealm);
        fields.required(3, &self.cname);
        fields.required(4, &self.transited);
        fields.required(5, &self.authtime);
        fields.optional(6, &self.starttime);
        fields.required(7, &self.endtime);
        fields.optional(8, &self.renew_till);
        fields.optional(9, &self.caddr);
        fields.optional(10, &self.authorization_data);
        fields.finish_application()
    }
}

impl TryCopy for EncTicketPart {
    fn copy(&self, alloc: Global) -> Result<EncTicketPart, OutOfMemory> {
        let mut copier = Copier::new(alloc);
        let copy = EncTicketPart {
            flags: copier.copy(&self.flags),
            key: copier.copy(&self.key),
            crealm: copier.copy(&self.crealm),
            cname: copier.copy(&self.cname),
            transited: copier.copy(&self.transited),
            authtime: self.authtime,
            starttime: self.starttime,
            endtime: self.endtime,
            renew_till: self.renew_till,
            caddr: copier.copy(&self.caddr),
            authorization_data: copier.copy(&self.authorization_data),
        };
        copier.finish(copy)
    }
}
