//! Why a call of this crate refuses.

ghost use Rattle.std.specs.Prelude.{◌≡◌};

use std::alloc::AllocError;
use thiserror::Error;

/// The reason for which a call of this crate fails. If several apply, the call fails with the first in this order,
/// but `OutOfMemory` may come before `Altered`.
#[derive(Clone, Copy, Debug, PartialEq, Eq, Error)]
pub enum CryptoError {
    /// The number is that of no suite of this crate.
    #[error("Etype")]
    Etype,
    /// The key is not as long as the suite's keys are.
    #[error("KeyLength")]
    KeyLength,
    /// The text is shorter than a confounder and a checksum, which are 28 octets.
    #[error("TooShort")]
    TooShort,
    /// No plain text is sealed to the text.
    #[error("Altered")]
    Altered,
    #[error("OutOfMemory")]
    OutOfMemory,
}

impl From<AllocError> for CryptoError {
    ghost use Rattle.krb_crypto.specs.declared.error.CryptoError.TheVariants.{OutOfMemory};

    ghost from_gives = { λ _ e. e ≡ OutOfMemory };

    fn from(_error: AllocError) -> CryptoError {
        CryptoError::OutOfMemory
    }
}
