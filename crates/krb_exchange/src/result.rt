//! The result of a request to a KDC: the reply, or an error.

ghost use Rattle.std.specs.Prelude.{◌≡◌, IfOk, Err};
ghost use Rattle.krb_exchange.specs.Results.{IsResult};
ghost use Rattle.krb_exchange.specs.declared.result.KrbResult.{KrbResult};

use crate::krb_error::KrbError;
use krb_der::{Asn1, Fault};
use std::alloc::Global;

/// A reply, or a KRB-ERROR in its place (RFC 4120 3.1.3 and 3.3.3).
#[derive(Drop)]
pub enum KrbResult<T> {
    Ok(T),
    Err(KrbError),
}

/// Reads all octets as the reply or as a KRB-ERROR. Fails with `Shape` if they are neither.
pub fn read_result<T: Asn1>(alloc: Global, octets: &[u8]) -> Result<KrbResult<T>, Fault>
    ensures found { IfOk result (IsResult T.layout octets.now) }
    ensures shape { result ≡ Err Fault.Shape → (answer : KrbResult T) → IsResult T.layout octets.now answer → ⊥ }
{
    match T::read(alloc, octets) {
        Ok(value) => Ok(KrbResult::Ok(value)),
        Err(Fault::Shape) => Ok(KrbResult::Err(KrbError::read(alloc, octets)?)),
        Err(Fault::OutOfMemory) => Err(Fault::OutOfMemory),
    }
}
