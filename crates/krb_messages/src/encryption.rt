//! Sealed data, keys and checksums (RFC 4120 5.2.9).

use krb_der::{
    Asn1, Blank, Copier, Fault, FieldReader, FieldWriter, IntegerAsn1, Octets, OutOfMemory, TryCopy,
};
use std::alloc::Global;

/// EncryptedData (RFC 4120 5.2.9): what is sealed under a key.
#[derive(Debug, PartialEq, Eq, Drop)]
pub struct EncryptedData {
    /// The encryption type (RFC 3961 8): 17 and 18 are those of RFC 3962.
    pub etype: IntegerAsn1,
    /// The version number of the key, of a long-term key alone.
    pub kvno: Option<IntegerAsn1>,
    /// The sealed text.
    pub cipher: Octets,
}

impl Asn1 for EncryptedData {
    ghost use Rattle.krb_messages.specs.Layouts.{encrypted_data_layout};

    ghost layout = { encrypted_data_layout };

    #[tactic(auto, unfolding(crate::specs::Table::encrypted_data))]
    fn tag() -> u8 {
        0x30
    }

    #[tactic(auto, unfolding(crate::specs::Table::encrypted_data, crate::specs::Layouts::encrypted_data_row))]
    fn from_contents(alloc: Global, contents: &[u8]) -> Result<Self, Fault> {
        let mut fields = FieldReader::of_sequence(alloc, contents);
        let record = EncryptedData {
            etype: fields.required(0),
            kvno: fields.optional(1),
            cipher: fields.required(2),
        };
        fields.finish(record)
    }

    #[tactic(auto, unfolding(crate::specs::Table::encrypted_data, crate::specs::Layouts::encrypted_data_row))]
    fn to_contents(&self, alloc: Global) -> Result<Octets, OutOfMemory> {
        let mut fields = FieldWriter::new(alloc);
        fields.required(0, &self.etype);
        fields.optional(1, &self.kvno);
        fields.required(2, &self.cipher);
        fields.finish()
    }
}

impl TryCopy for EncryptedData {
    fn copy(&self, alloc: Global) -> Result<EncryptedData, OutOfMemory> {
        let mut copier = Copier::new(alloc);
        let copy = EncryptedData {
            etype: copier.copy(&self.etype),
            kvno: copier.copy(&self.kvno),
            cipher: copier.copy(&self.cipher),
        };
        copier.finish(copy)
    }
}

impl Blank for EncryptedData {
    fn blank(alloc: Global) -> EncryptedData {
        EncryptedData {
            etype: Blank::blank(alloc),
            kvno: Blank::blank(alloc),
            cipher: Blank::blank(alloc),
        }
    }
}

/// EncryptionKey (RFC 4120 5.2.9). It has no printed form, since it is a secret.
#[derive(PartialEq, Eq, Drop)]
pub struct EncryptionKey {
    /// The encryption type of the key (RFC 3961 8).
    pub key_type: IntegerAsn1,
    /// The key: 16 octets of type 17, 32 of type 18.
    pub key_value: Octets,
}

impl Asn1 for EncryptionKey {
    ghost use Rattle.krb_messages.specs.Layouts.{encryption_key_layout};

    ghost layout = { encryption_key_layout };

    #[tactic(auto, unfolding(crate::specs::Table::encryption_key))]
    fn tag() -> u8 {
        0x30
    }

    #[tactic(auto, unfolding(crate::specs::Table::encryption_key, crate::specs::Layouts::encryption_key_row))]
    fn from_contents(alloc: Global, contents: &[u8]) -> Result<Self, Fault> {
        let mut fields = FieldReader::of_sequence(alloc, contents);
        let record = EncryptionKey {
            key_type: fields.required(0),
            key_value: fields.required(1),
        };
        fields.finish(record)
    }

    #[tactic(auto, unfolding(crate::specs::Table::encryption_key, crate::specs::Layouts::encryption_key_row))]
    fn to_contents(&self, alloc: Global) -> Result<Octets, OutOfMemory> {
        let mut fields = FieldWriter::new(alloc);
        fields.required(0, &self.key_type);
        fields.required(1, &self.key_value);
        fields.finish()
    }
}

impl TryCopy for EncryptionKey {
    fn copy(&self, alloc: Global) -> Result<EncryptionKey, OutOfMemory> {
        let mut copier = Copier::new(alloc);
        let copy = EncryptionKey {
            key_type: copier.copy(&self.key_type),
            key_value: copier.copy(&self.key_value),
        };
        copier.finish(copy)
    }
}

impl Blank for EncryptionKey {
    fn blank(alloc: Global) -> EncryptionKey {
        EncryptionKey {
            key_type: Blank::blank(alloc),
            key_value: Blank::blank(alloc),
        }
    }
}

/// Checksum (RFC 4120 5.2.9).
#[derive(Debug, PartialEq, Eq, Drop)]
pub struct Checksum {
    /// The checksum type (RFC 3961 8).
    pub cksumtype: IntegerAsn1,
    /// The checksum.
    pub checksum: Octets,
}

impl Asn1 for Checksum {
    ghost use Rattle.krb_messages.specs.Layouts.{checksum_layout};

    ghost layout = { checksum_layout };

    #[tactic(auto, unfolding(crate::specs::Table::checksum))]
    fn tag() -> u8 {
        0x30
    }

    #[tactic(auto, unfolding(crate::specs::Table::checksum, crate::specs::Layouts::checksum_row))]
    fn from_contents(alloc: Global, contents: &[u8]) -> Result<Self, Fault> {
        let mut fields = FieldReader::of_sequence(alloc, contents);
        let record = Checksum {
            cksumtype: fields.required(0),
            checksum: fields.required(1),
        };
        fields.finish(record)
    }

    #[tactic(auto, unfolding(crate::specs::Table::checksum, crate::specs::Layouts::checksum_row))]
    fn to_contents(&self, alloc: Global) -> Result<Octets, OutOfMemory> {
        let mut fields = FieldWriter::new(alloc);
        fields.required(0, &self.cksumtype);
        fields.required(1, &self.checksum);
        fields.finish()
    }
}

impl TryCopy for Checksum {
    fn copy(&self, alloc: Global) -> Result<Checksum, OutOfMemory> {
        let mut copier = Copier::new(alloc);
        let copy = Checksum {
            cksumtype: copier.copy(&self.cksumtype),
            checksum: copier.copy(&self.checksum),
        };
        copier.finish(copy)
    }
}

impl Blank for Checksum {
    fn blank(alloc: Global) -> Checksum {
        Checksum {
            cksumtype: Blank::blank(alloc),
            checksum: Blank::blank(alloc),
        }
    }
}
