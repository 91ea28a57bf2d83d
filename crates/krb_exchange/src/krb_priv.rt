//! Private messages (RFC 4120 5.7).

use krb_der::{
    Asn1, Copier, Fault, FieldReader, FieldWriter, IntegerAsn1, Octets, OutOfMemory, Time, TryCopy,
};
use krb_messages::{EncryptedData, HostAddress};
use std::alloc::Global;

/// KRB-PRIV (RFC 4120 5.7.1): sealed data from one end to the other.
#[derive(Drop)]
pub struct KrbPriv {
    /// The protocol version, 5.
    pub pvno: IntegerAsn1,
    /// The message type, 21.
    pub msg_type: IntegerAsn1,
    /// An `EncKrbPrivPart`, sealed under a key that both ends have.
    pub enc_part: EncryptedData,
}

impl Asn1 for KrbPriv {
    ghost use Rattle.krb_exchange.specs.Layouts.{krb_priv_layout};

    ghost layout = { krb_priv_layout };

    #[tactic(auto, unfolding(crate::specs::Table::krb_priv))]
    fn tag() -> u8 {
        0x75
    }

    #[tactic(auto, unfolding(crate::specs::Table::krb_priv, crate::specs::Layouts::krb_priv_row))]
    fn from_contents(alloc: Global, contents: &[u8]) -> Result<Self, Fault> {
        let mut fields = FieldReader::of_application(alloc, contents);
        let record = KrbPriv {
            pvno: fields.required(0),
            msg_type: fields.required(1),
            enc_part: fields.required(3),
        };
        fields.finish(record)
    }

    #[tactic(auto, unfolding(crate::specs::Table::krb_priv, crate::specs::Layouts::krb_priv_row))]
    fn to_contents(&self, alloc: Global) -> Result<Octets, OutOfMemory> {
        let mut fields = FieldWriter::new(alloc);
        fields.required(0, &self.pvno);
        fields.required(1, &self.msg_type);
        fields.required(3, &self.enc_part);
        fields.finish_application()
    }
}

impl TryCopy for KrbPriv {
    fn copy(&self, alloc: Global) -> Result<KrbPriv, OutOfMemory> {
        let mut copier = Copier::new(alloc);
        let copy = KrbPriv {
            pvno: copier.copy(&self.pvno),
            msg_type: copier.copy(&self.msg_type),
            enc_part: copier.copy(&self.enc_part),
        };
        copier.finish(copy)
    }
}

/// EncKrbPrivPart (RFC 4120 5.7.1): what is sealed in a KRB-PRIV. It has no printed form, since it may hold a secret.
#[derive(Drop)]
pub struct EncKrbPrivPart {
    /// The data.
    pub user_data: Octets,
    /// The time when the sender sent the data, to the whole second.
    pub timestamp: Option<Time>,
    /// The microseconds of `timestamp`.
    pub usec: Option<IntegerAsn1>,
    /// The sequence number of the message.
    pub seq_number: Option<IntegerAsn1>,
    /// The address of the sender.
    pub s_address: HostAddress,
    /// The address of the recipient.
    pub r_address: Option<HostAddress>,
}

impl Asn1 for EncKrbPrivPart {
    ghost use Rattle.krb_exchange.specs.Layouts.{enc_krb_priv_part_layout};

    ghost layout = { enc_krb_priv_part_layout };

    #[tactic(auto, unfolding(crate::specs::Table::enc_krb_priv_part))]
    fn tag() -> u8 {
        0x7c
    }

    #[tactic(auto, unfolding(crate::specs::Table::enc_krb_priv_part, crate::specs::Layouts::enc_krb_priv_part_row))]
    fn from_contents(alloc: Global, contents: &[u8]) -> Result<Self, Fault> {
        let mut fields = FieldReader::of_application(alloc, contents);
        let record = EncKrbPrivPart {
            user_data: fields.required(0),
            timestamp: fields.optional(1),
            usec: fields.optional(2),
            seq_number: fields.optional(3),
            s_address: fields.required(4),
            r_address: fields.optional(5),
        };
        fields.finish(record)
    }

    #[tactic(auto, unfolding(crate::specs::Table::enc_krb_priv_part, crate::specs::Layouts::enc_krb_priv_part_row))]
    fn to_contents(&self, alloc: Global) -> Result<Octets, OutOfMemory> {
        let mut fields = FieldWriter::new(alloc);
        fields.required(0, &self.user_data);
        fields.optional(1, &self.timestamp);
        fields.optional(2, &self.usec);
        fields.optional(3, &self.seq_number);
        fields.required(4, &self.s_address);
        fields.optional(5, &self.r_address);
        fields.finish_application()
    }
}

impl TryCopy for EncKrbPrivPart {
    fn copy(&self, alloc: Global) -> Result<EncKrbPrivPart, OutOfMemory> {
        let mut copier = Copier::new(alloc);
        let copy = EncKrbPrivPart {
            user_data: copier.copy(&self.user_data),
            timestamp: self.timestamp,
            usec: copier.copy(&self.usec),
            seq_number: copier.copy(&self.seq_number),
            s_address: copier.copy(&self.s_address),
            r_address: copier.copy(&self.r_address),
        };
        copier.finish(copy)
    }
}
