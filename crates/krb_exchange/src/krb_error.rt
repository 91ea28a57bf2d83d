//! Errors (RFC 4120 5.9.1).

ghost use Rattle.std.specs.Prelude.{◌≡◌, ◌∷◌, [], IfOk};

use krb_der::{
    Asn1, Copier, ErrorCode, Fault, FieldReader, FieldWriter, IntegerAsn1, Name, Octets,
    OutOfMemory, Time, TryCopy,
};
use krb_messages::PrincipalName;
use std::alloc::Global;

/// The code 0 (KDC_ERR_NONE), in the place of a code that was not read.
fn stand_in(alloc: Global) -> Result<ErrorCode, OutOfMemory> {
    let octets = Vec::from_slice(alloc, &[0])?;
    match ErrorCode::new(IntegerAsn1::from_bytes_be(octets)) {
        Some(code) => Ok(code),
        None => unreachable!(),
    }
}

/// KRB-ERROR (RFC 4120 5.9.1): why a request is refused.
#[derive(Drop)]
pub struct KrbError {
    /// The protocol version, 5.
    pub pvno: IntegerAsn1,
    /// The message type, 30.
    pub msg_type: IntegerAsn1,
    /// The client's time.
    pub ctime: Option<Time>,
    /// The microseconds of the client's time.
    pub cusec: Option<IntegerAsn1>,
    /// The server's time.
    pub stime: Time,
    /// The microseconds of the server's time.
    pub susec: IntegerAsn1,
    /// The code (RFC 4120 7.5.9).
    pub error_code: ErrorCode,
    /// The realm of the client.
    pub crealm: Option<Name>,
    /// The client.
    pub cname: Option<PrincipalName>,
    /// The realm of the service.
    pub realm: Name,
    /// The service.
    pub sname: PrincipalName,
    /// A text for people.
    pub e_text: Option<Name>,
    /// More on the error; for code 25 a SEQUENCE OF PA-DATA.
    pub e_data: Option<Octets>,
}

impl Asn1 for KrbError {
    ghost use Rattle.krb_exchange.specs.Layouts.{krb_error_layout};

    ghost layout = { krb_error_layout };

    #[tactic(auto, unfolding(crate::specs::Table::krb_error))]
    fn tag() -> u8 {
        0x7e
    }

    #[tactic(auto, unfolding(crate::specs::Table::krb_error, crate::specs::Layouts::krb_error_row))]
    fn from_contents(alloc: Global, contents: &[u8]) -> Result<Self, Fault> {
        let unread = stand_in(alloc)?;
        let mut fields = FieldReader::of_application(alloc, contents);
        let record = KrbError {
            pvno: fields.required(0),
            msg_type: fields.required(1),
            ctime: fields.optional(2),
            cusec: fields.optional(3),
            stime: fields.required(4),
            susec: fields.required(5),
            error_code: fields.required_or(6, unread),
            crealm: fields.optional(7),
            cname: fields.optional(8),
            realm: fields.required(9),
            sname: fields.required(10),
            e_text: fields.optional(11),
            e_data: fields.optional(12),
        };
        fields.finish(record)
    }

    #[tactic(auto, unfolding(crate::specs::Table::krb_error, crate::specs::Layouts::krb_error_row))]
    fn to_contents(&self, alloc: Global) -> Result<Octets, OutOfMemory> {
        let mut fields = FieldWriter::new(alloc);
        fields.required(0, &self.pvno);
        fields.required(1, &self.msg_type);
        fields.optional(2, &self.ctime);
        fields.optional(3, &self.cusec);
        fields.required(4, &self.stime);
        fields.required(5, &self.susec);
        fields.required(6, &self.error_code);
        fields.optional(7, &self.crealm);
        fields.optional(8, &self.cname);
        fields.required(9, &self.realm);
        fields.required(10, &self.sname);
        fields.optional(11, &self.e_text);
        fields.optional(12, &self.e_data);
        fields.finish_application()
    }
}

impl TryCopy for KrbError {
    fn copy(&self, alloc: Global) -> Result<KrbError, OutOfMemory> {
        let error_code = self.error_code.copy(alloc)?;
        let mut copier = Copier::new(alloc);
        let copy = KrbError {
            pvno: copier.copy(&self.pvno),
            msg_type: copier.copy(&self.msg_type),
            ctime: self.ctime,
            cusec: copier.copy(&self.cusec),
            stime: self.stime,
            susec: copier.copy(&self.susec),
            error_code,
            crealm: copier.copy(&self.crealm),
            cname: copier.copy(&self.cname),
            realm: copier.copy(&self.realm),
            sname: copier.copy(&self.sname),
            e_text: copier.copy(&self.e_text),
            e_data: copier.copy(&self.e_data),
        };
        copier.finish(copy)
    }
}
