//! An INTEGER from 0 to 2^32 - 1.

ghost use Rattle.std.specs.Prelude.{◌≡◌, IfSome, IfNone, IsTrue, false};
ghost use Rattle.krb_der.specs.Integer.{is_uint32};
ghost use Rattle.krb_der.specs.Reading.{number_of};

use crate::copies::TryCopy;
use crate::integer::{IntegerAsn1, is_uint32};
use crate::memory::OutOfMemory;
use std::alloc::Global;
use std::marker::Model;

/// The error-code of a KRB-ERROR: an INTEGER from 0 to 2^32 - 1, kept as it is spelled (the values of UInt32, RFC 4120
/// 5.2.4). Contracts see its octets.
#[derive(Debug, PartialEq, Eq, PartialOrd, Ord, Hash, Drop)]
pub struct ErrorCode {
    integer: IntegerAsn1,
}

impl Model for ErrorCode {
    ghost use Rattle.std.specs.Prelude.{List, ℕ, IsTrue};
    ghost use Rattle.krb_der.specs.Integer.{is_uint32};

    ghost Value = { List ℕ };

    ghost view = { λ a. a.integer };

    ghost invariant = { λ a. IsTrue (is_uint32 a.integer) };

    ghost inverse = { λ octets. record { integer = octets } };
}

impl ErrorCode {
    /// None where the integer is negative or past 2^32 - 1, or has no octet.
    pub fn new(integer: IntegerAsn1) -> Option<ErrorCode>
        ensures in_range { IfSome result (λ code. code ≡ integer) }
        ensures other { IfNone result (is_uint32 integer ≡ false) }
    {
        if is_uint32(integer.as_slice()) {
            Some(ErrorCode { integer })
        } else {
            None
        }
    }

    /// The number.
    pub fn value(&self) -> u32
        ensures { result ≡ number_of self.now }
    {
        match self.integer.value() {
            Some(number) => number as u32,
            None => unreachable!(),
        }
    }

    pub fn as_slice(&self) -> &[u8]
        ensures octets { result.now ≡ self.now }
        ensures in_range { IsTrue (is_uint32 self.now) }
    {
        self.integer.as_slice()
    }

    pub fn into_inner(self) -> IntegerAsn1
        ensures octets { result ≡ self }
        ensures in_range { IsTrue (is_uint32 self) }
    {
        self.integer
    }
}

impl TryCopy for ErrorCode {
    fn copy(&self, alloc: Global) -> Result<ErrorCode, OutOfMemory> {
        Ok(ErrorCode {
            integer: self.integer.copy(alloc)?,
        })
    }
}
