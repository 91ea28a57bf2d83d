//! Why a call returns no bytes.

ghost use Rattle.std.specs.Prelude.{◌≡◌};

use krb_der::OutOfMemory;
use sspi_core::Error;

/// Why a call that returns bytes failed.
#[derive(Clone, Copy, Debug, PartialEq, Eq)]
pub enum Fault {
    /// The checks of the call failed.
    Refused(Error),
    /// The caller's buffer is shorter than the bytes, whose number this is.
    Room(usize),
}

impl From<Error> for Fault {
    ghost use Rattle.krb_sessions.specs.declared.fault.Fault.TheVariants as faults;

    ghost from_gives = { λ error fault. fault ≡ faults.Refused error };

    fn from(error: Error) -> Fault {
        Fault::Refused(error)
    }
}

impl From<OutOfMemory> for Fault {
    ghost use Rattle.krb_sessions.specs.declared.fault.Fault.TheVariants as faults;
    ghost use Rattle.sspi_core.specs.Kinds.{error_of};
    ghost use Rattle.sspi_core.specs.declared.cause.Cause.TheVariants as causes;

    ghost from_gives = { λ _ fault. fault ≡ faults.Refused (error_of causes.Memory) };

    fn from(error: OutOfMemory) -> Fault {
        Fault::Refused(Error::from(error))
    }
}
