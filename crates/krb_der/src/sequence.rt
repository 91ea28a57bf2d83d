//! The fields of a record, with one answer for all of them.

ghost use Rattle.std.specs.Prelude.{◌≡◌, ◌<◌, ◌^◌, [], true, length, option_map, IfOk, IfSome};
ghost use Rattle.krb_der.specs.Der.{tlv};
ghost use Rattle.krb_der.specs.Layout.{FieldIsWritable};
ghost use Rattle.krb_der.specs.Progress.{OpensRecord, OpensIn, Next, NextOptional, FinishesRecord, Writes, WritesOptional, written};

use crate::asn1::Asn1;
use crate::blank::Blank;
use crate::fault::Fault;
use crate::memory::OutOfMemory;
use crate::octets::Octets;
use crate::reader::{Reader, only_value};
use crate::writer::Writer;
use std::alloc::Global;
use std::marker::Model;

/// Reads the fields of a SEQUENCE one after another, and returns at the end whether they were the fields:
///
/// ```text
/// let mut fields = FieldReader::of_sequence(alloc, contents);
/// let pair = Pair { first: fields.required(0), second: fields.optional(1) };
/// fields.finish(pair)
/// ```
///
/// Contracts see the octets that are still to be read, and why reading failed, if it did.
#[derive(Drop)]
pub struct FieldReader<'a> {
    alloc: Global,
    reader: Reader<'a>,
    fault: Option<Fault>,
}

impl<'a> Model for FieldReader<'a> {
    ghost use Rattle.std.specs.Prelude.{List, ℕ, Option};
    ghost use Rattle.krb_der.specs.declared.fault.Fault.{Fault};

    ghost Value = { List ℕ × Option Fault };

    ghost view = { λ f. (f.reader, f.fault) };
}

impl<'a> FieldReader<'a> {
    /// The fields of a SEQUENCE with these contents.
    #[tactic(auto, unfolding(crate::specs::Records::value_in))]
    pub fn of_sequence(alloc: Global, contents: &'a [u8]) -> FieldReader<'a>
        ensures { OpensRecord contents.now result }
    {
        FieldReader {
            alloc,
            reader: Reader::new(contents),
            fault: None,
        }
    }

    /// The fields of the SEQUENCE in an application tag with these contents.
    #[tactic(auto, unfolding(crate::specs::Records::value_in, crate::specs::Records::only))]
    pub fn of_application(alloc: Global, contents: &'a [u8]) -> FieldReader<'a>
        ensures { OpensIn contents.now result }
    {
        match only_value(contents, 0x30) {
            Ok(fields) => FieldReader {
                alloc,
                reader: Reader::new(fields),
                fault: None,
            },
            Err(_) => FieldReader {
                alloc,
                reader: Reader::new(contents),
                fault: Some(Fault::Shape),
            },
        }
    }

    /// Reads the next field, which is in context tag `n`. Returns a blank value if reading fails or failed before.
    pub fn required<T: Asn1 + Blank>(&mut self, n: u8) -> T
        requires { n < 32 }
        ensures { Next T.layout n result self.old self.new }
    {
        let blank = T::blank(self.alloc);
        self.required_or(n, blank)
    }

    /// Reads the next field, of a type that has no blank value. Returns `blank` if reading fails or failed before.
    pub fn required_or<T: Asn1>(&mut self, n: u8, blank: T) -> T
        requires { n < 32 }
        ensures { Next T.layout n result self.old self.new }
    {
        if self.fault.is_some() {
            return blank;
        }
        match self.reader.required_field(self.alloc, n) {
            Ok(value) => value,
            Err(fault) => {
                self.fault = Some(fault);
                blank
            }
        }
    }

    /// The next field, if context tag `n` is the next octet. Where reading fails, or failed before, None.
    pub fn optional<T: Asn1>(&mut self, n: u8) -> Option<T>
        requires { n < 32 }
        ensures { NextOptional T.layout n result self.old self.new }
    {
        if self.fault.is_some() {
            return None;
        }
        match self.reader.optional_field(self.alloc, n) {
            Ok(value) => value,
            Err(fault) => {
                self.fault = Some(fault);
                None
            }
        }
    }

    /// Returns `value`, which was made of the fields, if reading did not fail and no octet is left.
    #[tactic(auto, unfolding(crate::specs::Records::row_in, crate::specs::Reading::nothing_left))]
    pub fn finish<T: Drop>(self, value: T) -> Result<T, Fault>
        ensures { FinishesRecord value result self.entry }
    {
        if let Some(fault) = self.fault {
            return Err(fault);
        }
        self.reader.end()?;
        Ok(value)
    }
}

/// Writes the fields of a SEQUENCE one after another, and returns at the end whether there was memory for all of them:
///
/// ```text
/// let mut fields = FieldWriter::new(alloc);
/// fields.required(0, &self.first);
/// fields.optional(1, &self.second);
/// fields.finish()
/// ```
///
/// Contracts see the octets that were written, and whether there was memory for all.
#[derive(Drop)]
pub struct FieldWriter {
    writer: Writer,
    has_all: bool,
}

impl Model for FieldWriter {
    ghost use Rattle.std.specs.Prelude.{List, ℕ, Bool};

    ghost Value = { List ℕ × Bool };

    ghost view = { λ f. (f.writer, f.has_all) };
}

impl FieldWriter {
    pub fn new(alloc: Global) -> FieldWriter
        ensures { result ≡ ([], true) }
    {
        FieldWriter {
            writer: Writer::new(alloc),
            has_all: true,
        }
    }

    /// Writes a field in context tag `n`.
    #[tactic(auto, using(std::proofs::Common::append_assoc))]
    pub fn required<T: Asn1>(&mut self, n: u8, value: &T)
        requires tag { n < 32 }
        requires writable { FieldIsWritable T.layout.kind (T.layout.view value.now) }
        ensures { Writes T.layout n value.now self.old self.new }
    {
        if self.writer.required_field(n, value).is_err() {
            self.has_all = false;
        }
    }

    /// Writes a field in context tag `n`, if it is there.
    #[tactic(auto, using(std::proofs::Common::append_assoc, crate::proofs::Each::optional_rows))]
    pub fn optional<T: Asn1>(&mut self, n: u8, value: &Option<T>)
        requires tag { n < 32 }
        requires writable { IfSome (option_map T.layout.view value.now) (FieldIsWritable T.layout.kind) }
        ensures { WritesOptional T.layout n value.now self.old self.new }
    {
        if self.writer.optional_field(n, value).is_err() {
            self.has_all = false;
        }
    }

    /// The contents of the SEQUENCE.
    pub fn finish(self) -> Result<Octets, OutOfMemory>
        ensures { IfOk result (λ octets. (self.1 ≡ true) × (octets ≡ written self)) }
    {
        if self.has_all {
            Ok(self.writer.finish())
        } else {
            Err(OutOfMemory)
        }
    }

    /// The SEQUENCE, as the contents of an application tag.
    pub fn finish_application(self) -> Result<Octets, OutOfMemory>
        requires { self.1 ≡ true → length (written self) < 2 ^ 31 }
        ensures { IfOk result (λ octets. (self.1 ≡ true) × (octets ≡ tlv 0x30 (written self))) }
    {
        if self.has_all {
            self.writer.into_sequence()
        } else {
            Err(OutOfMemory)
        }
    }
}
