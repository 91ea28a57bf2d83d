//! The code of a refusal.

ghost use Rattle.std.specs.Prelude.{◌≡◌, ◌<◌, ◌∷◌, [], IfOk};
ghost use Rattle.krb_refusals.specs.ErrorTokens.{error_code};

use krb_der::{ErrorCode, OutOfMemory};
use krb_requests::integer_of;
use sspi_core::Cause;
use std::alloc::Global;

/// Returns the error code for a client (RFC 4120, section 7.5.9).
pub(crate) fn error_code(cause: Cause) -> u8
    ensures value { result ≡ error_code cause }
    ensures one_octet { result < 128 }
{
    match cause {
        Cause::Expired => 32,
        Cause::NotYet => 33,
        Cause::Replayed => 34,
        Cause::Skew => 37,
        _ => 60,
    }
}

/// Returns a code of one octet as an error code.
pub(crate) fn written_code(alloc: Global, code: u8) -> Result<ErrorCode, OutOfMemory>
    requires { code < 128 }
    ensures { IfOk result (λ made. made ≡ code ∷ []) }
{
    match ErrorCode::new(integer_of(alloc, &[code])?) {
        Some(code) => Ok(code),
        None => unreachable!(),
    }
}
