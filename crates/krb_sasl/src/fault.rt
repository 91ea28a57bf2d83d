//! Why a call returns no bytes.

use crate::error::SaslError;

/// Why a call that returns bytes failed.
#[derive(Clone, Copy, Debug, PartialEq, Eq)]
pub enum SaslFault {
    /// The checks of the call failed.
    Refused(SaslError),
    /// The caller's buffer is shorter than the bytes, whose number this is.
    Room(usize),
}

impl From<SaslError> for SaslFault {
    ghost use Rattle.std.specs.Prelude.{◌≡◌};
    ghost use Rattle.krb_sasl.specs.declared.fault.SaslFault.TheVariants as faults;

    ghost from_gives = { λ refusal fault. fault ≡ faults.Refused refusal };

    fn from(refusal: SaslError) -> SaslFault {
        SaslFault::Refused(refusal)
    }
}
