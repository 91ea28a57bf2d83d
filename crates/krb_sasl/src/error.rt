//! Why a call of this crate fails.

ghost use Rattle.std.specs.Prelude.{◌≡◌};
ghost use Rattle.krb_sasl.specs.declared.error.SaslError.TheVariants as errors;

use krb_der::OutOfMemory as WantOfMemory;
use sspi_core::{Cause, Error};
use std::alloc::{AllocError, AllocFailed};

/// Why a call fails. Each error comes exactly if its check is the first of the call that fails.
#[derive(Clone, Copy, Debug, PartialEq, Eq)]
pub enum SaslError {
    /// There are no such layers, or no such size of messages.
    Layers,
    /// The exchange of the context is not over, or this step of the negotiation is not the next one.
    State,
    /// The text of an offer or an answer is too short, too long, or not in UTF-8.
    Offer,
    /// The layer is not offered, or there is a size without a layer.
    Layer,
    /// A message is longer than the other end, or this one, receives at most.
    TooLarge,
    /// The bytes are not one frame, or the message in it is not of the layer.
    Frame,
    /// The context failed, and not because memory ran out.
    Context(Error),
    /// Memory ran out.
    OutOfMemory,
}

impl From<Error> for SaslError {
    ghost use Rattle.krb_sasl.specs.InContext.{refusal_of};

    ghost from_gives = { λ error refusal. refusal ≡ refusal_of error };

    fn from(error: Error) -> SaslError {
        match error.cause {
            Cause::Memory => SaslError::OutOfMemory,
            _ => SaslError::Context(error),
        }
    }
}

impl From<WantOfMemory> for SaslError {
    ghost from_gives = { λ _ refusal. refusal ≡ errors.OutOfMemory };

    fn from(_error: WantOfMemory) -> SaslError {
        SaslError::OutOfMemory
    }
}

impl From<AllocError> for SaslError {
    ghost from_gives = { λ _ refusal. refusal ≡ errors.OutOfMemory };

    fn from(_error: AllocError) -> SaslError {
        SaslError::OutOfMemory
    }
}

impl<T: Drop> From<AllocFailed<T>> for SaslError {
    ghost from_gives = { λ _ refusal. refusal ≡ errors.OutOfMemory };

    fn from(_failed: AllocFailed<T>) -> SaslError {
        SaslError::OutOfMemory
    }
}
