//! Authenticators: a client encrypts one to prove that it holds a session key (RFC 4120 5.5.1).

use crate::authorization_data::AuthorizationData;
use crate::encryption::{Checksum, EncryptionKey};
use crate::principal_name::PrincipalName;
use krb_der::{
    Asn1, Copier, Fault, FieldReader, FieldWriter, IntegerAsn1, Name, Octets, OutOfMemory, Time,
    TryCopy,
};
use std::alloc::Global;

/// Authenticator (RFC 4120 5.5.1). It has no printed form, since it holds a secret.
#[derive(PartialEq, Eq, Drop)]
pub struct Authenticator {
    /// The version of the authenticator's format, 5.
    pub authenticator_vno: IntegerAsn1,
    /// The client's realm.
    pub crealm: Name,
    /// The client.
    pub cname: PrincipalName,
    /// Over what the request carries; of type 8003 hex it holds flags and channel bindings (RFC 4121 4.1.1).
    pub cksum: Option<Checksum>,
    /// The microseconds of the client's clock, 0 to 999999.
    pub cusec: IntegerAsn1,
    /// The client's clock.
    pub ctime: Time,
    /// The key that the client chose for what follows.
    pub subkey: Option<EncryptionKey>,
    /// The number of the first message that the client sends.
    pub seq_number: Option<IntegerAsn1>,
    /// Restrictions on this use of the ticket.
    pub authorization_data: Option<AuthorizationData>,
}

impl Asn1 for Authenticator {
    ghost use Rattle.krb_messages.specs.Layouts.{authenticator_layout};

    ghost layout = { authenticator_layout };

    #[tactic(auto, unfolding(crate::specs::Table::authenticator))]
    fn tag() -> u8 {
        0x62
    }

    #[tactic(auto, unfolding(crate::specs::Table::authenticator, crate::specs::Layouts::authenticator_row))]
    fn from_contents(alloc: Global, contents: &[u8]) -> Result<Self, Fault> {
        let mut fields = FieldReader::of_application(alloc, contents);
        let record = Authenticator {
            authenticator_vno: fields.required(0),
            crealm: fields.required(1),
            cname: fields.required(2),
            cksum: fields.optional(3),
            cusec: fields.required(4),
            ctime: fields.required(5),
            subkey: fields.optional(6),
            seq_number: fields.optional(7),
            authorization_data: fields.optional(8),
        };
        fields.finish(record)
    }

    #[tactic(auto, unfolding(crate::specs::Table::authenticator, crate::specs::Layouts::authenticator_row))]
    fn to_contents(&self, alloc: Global) -> Result<Octets, OutOfMemory> {
        let mut fields = FieldWriter::new(alloc);
        fields.required(0, &self.authenticator_vno);
        fields.required(1, &self.crealm);
        fields.required(2, &self.cname);
        fields.optional(3, &self.cksum);
        fields.required(4, &self.cusec);
        fields.required(5, &self.ctime);
        fields.optional(6, &self.subkey);
        fields.optional(7, &self.seq_number);
        fields.optional(8, &self.authorization_data);
        fields.finish_application()
    }
}

impl TryCopy for Authenticator {
    fn copy(&self, alloc: Global) -> Result<Authenticator, OutOfMemory> {
        let mut copier = Copier::new(alloc);
        let copy = Authenticator {
            authenticator_vno: copier.copy(&self.authenticator_vno),
            crealm: copier.copy(&self.crealm),
            cname: copier.copy(&self.cname),
            cksum: copier.copy(&self.cksum),
            cusec: copier.copy(&self.cusec),
            ctime: self.ctime,
            subkey: copier.copy(&self.subkey),
            seq_number: copier.copy(&self.seq_number),
            authorization_data: copier.copy(&self.authorization_data),
        };
        copier.finish(copy)
    }
}
