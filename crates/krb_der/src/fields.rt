//! The fields of a SEQUENCE, each in its context tag.

ghost use Rattle.std.specs.Prelude.{◌≡◌, ◌+◌, ◌^◌, ◌<◌, ◌++◌, [], length, option_map, IfOk, IfSome, OnOk, OnErr};
ghost use Rattle.std.specs.Option.{option_map_or};
ghost use Rattle.krb_der.specs.Der.{tlv};
ghost use Rattle.krb_der.specs.Schema.{IsSound, sequence, tag_of};
ghost use Rattle.krb_der.specs.Schema as schema;
ghost use Rattle.krb_der.specs.Records.{explicit, explicit_option, value_in, row_in};
ghost use Rattle.krb_der.specs.Field.{FieldNext, NoFieldNext, OptionalNext, NoOptionalNext};
ghost use Rattle.krb_der.specs.Layout.{Reads, ReadsRequired, ReadsOptional, OpensApplication, FieldIsWritable, field_octets};

use crate::asn1::{Asn1, only};
use crate::fault::Fault;
use crate::memory::OutOfMemory;
use crate::octets::Octets;
use crate::reader::{Reader, only_value};
use crate::shape::Shape;
use crate::writer::Writer;
use std::alloc::Global;

#[tactic(auto, unfolding(crate::specs::Records::explicit, crate::specs::Records::next_of))]
fn required_value<T: Asn1>(alloc: Global, fields: &mut Reader<'_>, n: u8) -> Result<T, Fault>
    requires { n < 32 }
    ensures found { IfOk result (λ x. FieldNext n T.layout.kind (T.layout.view x) fields.old fields.new) }
    ensures shape { result ≡ Err Fault.Shape → NoFieldNext n T.layout.kind fields.old }
    ensures exact { Reads (λ x. (T.layout.view x, fields.new)) result (explicit (0xa0 + n) (tag_of T.layout.kind) (value_in T.layout.kind) fields.old) }
{
    let field = fields.tlv(0xa0 + n)?;
    only(alloc, field)
}

#[tactic(auto, unfolding(crate::specs::Records::explicit_option))]
fn optional_value<T: Asn1>(
    alloc: Global,
    fields: &mut Reader<'_>,
    n: u8,
) -> Result<Option<T>, Fault>
    requires { n < 32 }
    ensures found { IfOk result (λ x. OptionalNext n T.layout.kind (option_map T.layout.view x) fields.old fields.new) }
    ensures shape { result ≡ Err Fault.Shape → NoOptionalNext n T.layout.kind fields.old }
    ensures exact { Reads (λ x. (option_map T.layout.view x, fields.new)) result
        (explicit_option (0xa0 + n) (tag_of T.layout.kind) (value_in T.layout.kind) fields.old) }
{
    if !fields.begins_with(0xa0 + n) {
        return Ok(None);
    }
    let value = required_value(alloc, fields, n)?;
    Ok(Some(value))
}

impl<'a> Reader<'a> {
    /// The fields of a SEQUENCE with these contents.
    #[tactic(auto, unfolding(crate::specs::Records::value_in))]
    pub fn of_sequence(contents: &'a [u8]) -> Reader<'a>
        ensures { (fields : schema.Fields) → value_in (sequence fields) contents.now ≡ row_in fields result }
    {
        Reader::new(contents)
    }

    /// The fields of the SEQUENCE in an application tag with these contents.
    #[tactic(auto, unfolding(crate::specs::Records::value_in, crate::specs::Records::only))]
    pub fn of_application(contents: &'a [u8]) -> Result<Reader<'a>, Shape>
        ensures { OpensApplication contents.now result }
    {
        let fields = only_value(contents, 0x30)?;
        Ok(Reader::new(fields))
    }

    /// Reads the next field, which is in context tag `n`.
    #[tactic(auto, unfolding(crate::specs::Records::value_in))]
    pub fn required_field<T: Asn1>(&mut self, alloc: Global, n: u8) -> Result<T, Fault>
        requires { n < 32 }
        // A value that is returned is in the field at the front.
        ensures found { IfOk result (λ x. FieldNext n T.layout.kind (T.layout.view x) self.old self.new) }
        // After `Shape` no value of the type is there.
        ensures shape { result ≡ Err Fault.Shape → NoFieldNext n T.layout.kind self.old }
        // For proofs of records: the same whatever fields follow.
        ensures exact { ReadsRequired T.layout n result self.old self.new }
    {
        required_value(alloc, self, n)
    }

    /// The next field, if context tag `n` is the next octet.
    #[tactic(auto, unfolding(crate::specs::Records::value_in))]
    pub fn optional_field<T: Asn1>(&mut self, alloc: Global, n: u8) -> Result<Option<T>, Fault>
        requires { n < 32 }
        // A value that is returned is in the field at the front; after None another tag or no octet is next.
        ensures found { IfOk result (λ x. OptionalNext n T.layout.kind (option_map T.layout.view x) self.old self.new) }
        // After `Shape` the tag is next, and no value of the type is in it.
        ensures shape { result ≡ Err Fault.Shape → NoOptionalNext n T.layout.kind self.old }
        // For proofs of records: the same whatever fields follow.
        ensures exact { ReadsOptional T.layout n result self.old self.new }
    {
        optional_value(alloc, self, n)
    }
}

impl Writer {
    /// Writes a field in context tag `n`. If memory runs out nothing is written, here and below.
    pub fn required_field<T: Asn1>(&mut self, n: u8, value: &T) -> Result<(), OutOfMemory>
        requires tag { n < 32 }
        requires writable { FieldIsWritable T.layout.kind (T.layout.view value.now) }
        ensures ok { OnOk result (IsSound T.layout.kind (T.layout.view value.now)
            × (self.new ≡ self.old ++ field_octets n T.layout.kind (T.layout.view value.now))) }
        ensures err { OnErr result (self.new ≡ self.old) }
    {
        let contents = value.to_contents(self.alloc())?;
        let mut field = Writer::new(self.alloc());
        field.tlv(T::tag(), contents.as_slice())?;
        let field = field.finish();
        self.tlv(0xa0 + n, field.as_slice())?;
        Ok(())
    }

    /// Writes a field in context tag `n`, if it is there.
    pub fn optional_field<T: Asn1>(&mut self, n: u8, value: &Option<T>) -> Result<(), OutOfMemory>
        requires tag { n < 32 }
        requires writable { IfSome value.now (λ x. FieldIsWritable T.layout.kind (T.layout.view x)) }
        ensures ok { OnOk result (IfSome value.now (λ x. IsSound T.layout.kind (T.layout.view x))
            × (self.new ≡ self.old ++ option_map_or (λ x. field_octets n T.layout.kind (T.layout.view x)) value.now [])) }
        ensures err { OnErr result (self.new ≡ self.old) }
    {
        match value {
            None => {}
            Some(value) => self.required_field(n, value)?,
        }
        Ok(())
    }

    /// The SEQUENCE of the fields that were written, as the contents of an application tag.
    pub fn into_sequence(self) -> Result<Octets, OutOfMemory>
        requires { length self < 2 ^ 31 }
        ensures { IfOk result (λ octets. octets ≡ tlv 0x30 self) }
    {
        let mut writer = Writer::new(self.alloc());
        let fields = self.finish();
        writer.tlv(0x30, fields.as_slice())?;
        Ok(writer.finish())
    }
}
