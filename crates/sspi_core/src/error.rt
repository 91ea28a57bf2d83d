//! The error of a call that fails: a kind and a cause.

ghost use Rattle.std.specs.Prelude.{◌≡◌, Some};
ghost use Rattle.sspi_core.specs.Kinds.{kind_at, error_at, error_of};
ghost use Rattle.sspi_core.specs.Printed.{error_text};
ghost use Rattle.sspi_core.specs.declared.cause.Cause.TheVariants as causes;

use crate::cause::Cause;
use crate::kind::ErrorKind;
use krb_der::OutOfMemory;
use std::alloc::{AllocError, AllocFailed};
use std::fmt;

/// The place of an error, as far as the kind of the error depends on the place.
#[derive(Clone, Copy, Debug, PartialEq, Eq, Hash)]
pub enum Place {
    /// A query of a context, or a handle of credentials.
    Query,
    /// The making of a MIC token.
    MakeMic,
    /// Any other call.
    Elsewhere,
}

/// The reason why a call failed. It is printed as `<kind> <cause>`, followed by a space and the number of the cause if it has one.
#[derive(Clone, Copy, Debug, PartialEq, Eq, Hash)]
pub struct Error {
    pub error_type: ErrorKind,
    pub cause: Cause,
}

impl Error {
    /// An error of any kind and cause. Where the kind is that of the cause, as nearly everywhere, write `Error::from(cause)`.
    pub fn new(error_type: ErrorKind, cause: Cause) -> Error
        ensures { result ≡ record { error_type = error_type; cause = cause } }
    {
        Error { error_type, cause }
    }

    /// The refusal for this cause at this place.
    pub fn at(place: Place, cause: Cause) -> Error
        ensures { result ≡ error_at place cause }
    {
        let error_type = match (place, cause) {
            (Place::Query, Cause::NoIdentity) => ErrorKind::NoCredentials,
            (Place::MakeMic, Cause::NoSubKey) => ErrorKind::InternalError,
            _ => cause.kind(),
        };
        Error { error_type, cause }
    }
}

impl fmt::Display for Error {
    ghost output = { λ error. Some (error_text error) };

    fn fmt<W: fmt::Write>(&self, f: &mut fmt::Formatter<W>) -> fmt::Result {
        write!(f, "{} {}", self.error_type, self.cause)
    }
}

impl std::error::Error for Error {}

impl From<Cause> for Error {
    ghost from_gives = { λ cause error. error ≡ error_of cause };

    fn from(cause: Cause) -> Error {
        Error {
            error_type: cause.kind(),
            cause,
        }
    }
}

impl From<OutOfMemory> for Error {
    ghost from_gives = { λ _ error. error ≡ error_of causes.Memory };

    fn from(_error: OutOfMemory) -> Error {
        Error::from(Cause::Memory)
    }
}

impl From<AllocError> for Error {
    ghost from_gives = { λ _ error. error ≡ error_of causes.Memory };

    fn from(_error: AllocError) -> Error {
        Error::from(Cause::Memory)
    }
}

impl<T: Drop> From<AllocFailed<T>> for Error {
    ghost from_gives = { λ _ error. error ≡ error_of causes.Memory };

    fn from(_failed: AllocFailed<T>) -> Error {
        Error::from(Cause::Memory)
    }
}
