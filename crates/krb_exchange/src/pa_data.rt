//! Pre-authentication (RFC 4120 5.2.7; MS-KILE 2.2).

use krb_der::{
    Asn1, Bits, Copier, Fault, FieldReader, FieldWriter, IntegerAsn1, Items, Name, Octets,
    OutOfMemory, Time, TryCopy,
};
use std::alloc::Global;

/// PA-DATA (RFC 4120 5.2.7): one pre-authentication element.
#[derive(Drop)]
pub struct PaData {
    /// The type of the value; compared by its octets.
    pub padata_type: IntegerAsn1,
    /// The value.
    pub padata_value: Octets,
}

impl Asn1 for PaData {
    ghost use Rattle.krb_exchange.specs.Layouts.{pa_data_layout};

    ghost layout = { pa_data_layout };

    #[tactic(auto, unfolding(crate::specs::Table::pa_data))]
    fn tag() -> u8 {
        0x30
    }

    #[tactic(auto, unfolding(crate::specs::Table::pa_data, crate::specs::Layouts::pa_data_row))]
    fn from_contents(alloc: Global, contents: &[u8]) -> Result<Self, Fault> {
        let mut fields = FieldReader::of_sequence(alloc, contents);
        let record = PaData {
            padata_type: fields.required(1),
            padata_value: fields.required(2),
        };
        fields.finish(record)
    }

    #[tactic(auto, unfolding(crate::specs::Table::pa_data, crate::specs::Layouts::pa_data_row))]
    fn to_contents(&self, alloc: Global) -> Result<Octets, OutOfMemory> {
        let mut fields = FieldWriter::new(alloc);
        fields.required(1, &self.padata_type);
        fields.required(2, &self.padata_value);
        fields.finish()
    }
}

impl TryCopy for PaData {
    fn copy(&self, alloc: Global) -> Result<PaData, OutOfMemory> {
        let mut copier = Copier::new(alloc);
        let copy = PaData {
            padata_type: copier.copy(&self.padata_type),
            padata_value: copier.copy(&self.padata_value),
        };
        copier.finish(copy)
    }
}

/// ETYPE-INFO2 (RFC 4120 5.2.7.5).
pub type EtypeInfo2 = Items<EtypeInfo2Entry>;

/// ETYPE-INFO2-ENTRY (RFC 4120 5.2.7.5): an encryption type, and how a password becomes a key of it.
#[derive(Drop)]
pub struct EtypeInfo2Entry {
    /// The encryption type.
    pub etype: IntegerAsn1,
    /// The salt; where it is absent, the default one.
    pub salt: Option<Name>,
    /// Parameters of the string-to-key function.
    pub s2kparams: Option<Octets>,
}

impl Asn1 for EtypeInfo2Entry {
    ghost use Rattle.krb_exchange.specs.Layouts.{etype_info2_entry_layout};

    ghost layout = { etype_info2_entry_layout };

    #[tactic(auto, unfolding(crate::specs::Table::etype_info2_entry))]
    fn tag() -> u8 {
        0x30
    }

    #[tactic(auto, unfolding(crate::specs::Table::etype_info2_entry, crate::specs::Layouts::etype_info2_entry_row))]
    fn from_contents(alloc: Global, contents: &[u8]) -> Result<Self, Fault> {
        let mut fields = FieldReader::of_sequence(alloc, contents);
        let record = EtypeInfo2Entry {
            etype: fields.required(0),
            salt: fields.optional(1),
            s2kparams: fields.optional(2),
        };
        fields.finish(record)
    }

    #[tactic(auto, unfolding(crate::specs::Table::etype_info2_entry, crate::specs::Layouts::etype_info2_entry_row))]
    fn to_contents(&self, alloc: Global) -> Result<Octets, OutOfMemory> {
        let mut fields = FieldWriter::new(alloc);
        fields.required(0, &self.etype);
        fields.optional(1, &self.salt);
        fields.optional(2, &self.s2kparams);
        fields.finish()
    }
}

impl TryCopy for EtypeInfo2Entry {
    fn copy(&self, alloc: Global) -> Result<EtypeInfo2Entry, OutOfMemory> {
        let mut copier = Copier::new(alloc);
        let copy = EtypeInfo2Entry {
            etype: copier.copy(&self.etype),
            salt: copier.copy(&self.salt),
            s2kparams: copier.copy(&self.s2kparams),
        };
        copier.finish(copy)
    }
}

/// PA-ENC-TS-ENC (RFC 4120 5.2.7.2): the client's time.
#[derive(Drop)]
pub struct PaEncTsEnc {
    /// The whole second.
    pub patimestamp: Time,
    /// The microseconds of the client's time.
    pub pausec: Option<IntegerAsn1>,
}

impl Asn1 for PaEncTsEnc {
    ghost use Rattle.krb_exchange.specs.Layouts.{pa_enc_ts_enc_layout};

    ghost layout = { pa_enc_ts_enc_layout };

    #[tactic(auto, unfolding(crate::specs::Table::pa_enc_ts_enc))]
    fn tag() -> u8 {
        0x30
    }

    #[tactic(auto, unfolding(crate::specs::Table::pa_enc_ts_enc, crate::specs::Layouts::pa_enc_ts_enc_row))]
    fn from_contents(alloc: Global, contents: &[u8]) -> Result<Self, Fault> {
        let mut fields = FieldReader::of_sequence(alloc, contents);
        let record = PaEncTsEnc {
            patimestamp: fields.required(0),
            pausec: fields.optional(1),
        };
        fields.finish(record)
    }

    #[tactic(auto, unfolding(crate::specs::Table::pa_enc_ts_enc, crate::specs::Layouts::pa_enc_ts_enc_row))]
    fn to_contents(&self, alloc: Global) -> Result<Octets, OutOfMemory> {
        let mut fields = FieldWriter::new(alloc);
        fields.required(0, &self.patimestamp);
        fields.optional(1, &self.pausec);
        fields.finish()
    }
}

impl TryCopy for PaEncTsEnc {
    fn copy(&self, alloc: Global) -> Result<PaEncTsEnc, OutOfMemory> {
        let mut copier = Copier::new(alloc);
        let copy = PaEncTsEnc {
            patimestamp: self.patimestamp,
            pausec: copier.copy(&self.pausec),
        };
        copier.finish(copy)
    }
}

/// KERB-PA-PAC-REQUEST (MS-KILE 2.2.3): a request for a ticket with or without a PAC.
#[derive(Drop)]
pub struct KerbPaPacRequest {
    /// True if the client requests a PAC in the ticket.
    pub include_pac: bool,
}

impl Asn1 for KerbPaPacRequest {
    ghost use Rattle.krb_exchange.specs.Layouts.{kerb_pa_pac_request_layout};

    ghost layout = { kerb_pa_pac_request_layout };

    #[tactic(auto, unfolding(crate::specs::Table::kerb_pa_pac_request))]
    fn tag() -> u8 {
        0x30
    }

    #[tactic(auto, unfolding(crate::specs::Table::kerb_pa_pac_request, crate::specs::Layouts::kerb_pa_pac_request_row))]
    fn from_contents(alloc: Global, contents: &[u8]) -> Result<Self, Fault> {
        let mut fields = FieldReader::of_sequence(alloc, contents);
        let record = KerbPaPacRequest {
            include_pac: fields.required(0),
        };
        fields.finish(record)
    }

    #[tactic(auto, unfolding(crate::specs::Table::kerb_pa_pac_request, crate::specs::Layouts::kerb_pa_pac_request_row))]
    fn to_contents(&self, alloc: Global) -> Result<Octets, OutOfMemory> {
        let mut fields = FieldWriter::new(alloc);
        fields.required(0, &self.include_pac);
        fields.finish()
    }
}

impl TryCopy for KerbPaPacRequest {
    fn copy(&self, _alloc: Global) -> Result<KerbPaPacRequest, OutOfMemory> {
        Ok(KerbPaPacRequest {
            include_pac: self.include_pac,
        })
    }
}

/// PA-PAC-OPTIONS (MS-KILE 2.2.10): the options that the client requests for the PAC.
#[derive(Drop)]
pub struct PaPacOptions {
    /// The options. Bit 1 is 'branch aware'.
    pub flags: Bits,
}

impl Asn1 for PaPacOptions {
    ghost use Rattle.krb_exchange.specs.Layouts.{pa_pac_options_layout};

    ghost layout = { pa_pac_options_layout };

    #[tactic(auto, unfolding(crate::specs::Table::pa_pac_options))]
    fn tag() -> u8 {
        0x30
    }

    #[tactic(auto, unfolding(crate::specs::Table::pa_pac_options, crate::specs::Layouts::pa_pac_options_row))]
    fn from_contents(alloc: Global, contents: &[u8]) -> Result<Self, Fault> {
        let mut fields = FieldReader::of_sequence(alloc, contents);
        let record = PaPacOptions {
            flags: fields.required(0),
        };
        fields.finish(record)
    }

    #[tactic(auto, unfolding(crate::specs::Table::pa_pac_options, crate::specs::Layouts::pa_pac_options_row))]
    fn to_contents(&self, alloc: Global) -> Result<Octets, OutOfMemory> {
        let mut fields = FieldWriter::new(alloc);
        fields.required(0, &self.flags);
        fields.finish()
    }
}

impl TryCopy for PaPacOptions {
    fn copy(&self, alloc: Global) -> Result<PaPacOptions, OutOfMemory> {
        let mut copier = Copier::new(alloc);
        let copy = PaPacOptions {
            flags: copier.copy(&self.flags),
        };
        copier.finish(copy)
    }
}
