//! The reply to a call on an end with a security layer.

ghost use Rattle.std.specs.Prelude.{◌≡◌};
ghost use Rattle.krb_c.specs.SaslReplies.{layer_reply, refusal_reply, sasl_reply};

use crate::reply::{Failure, Reply, reply_of};
use krb_entrance::{Cause, Error};
use krb_sasl::{SaslError, SaslFault};

/// Why a call on an end failed.
#[derive(Clone, Copy, Debug, PartialEq, Eq)]
pub enum SaslFailure {
    /// The end refused it.
    Refused(SaslError),
    /// The buffer is shorter than this many bytes, which the call has to put into it.
    Room(usize),
    /// An argument has a value that is not allowed.
    Argument,
    /// The handle has no end for the call, or holds something if the call needs an empty one.
    Handle,
}

impl From<SaslFault> for SaslFailure {
    ghost use Rattle.krb_c.specs.SaslReplies.{failure_of};

    ghost from_gives = { λ fault failure. failure ≡ failure_of fault };

    fn from(fault: SaslFault) -> SaslFailure {
        match fault {
            SaslFault::Refused(refusal) => SaslFailure::Refused(refusal),
            SaslFault::Room(count) => SaslFailure::Room(count),
        }
    }
}

/// The rules of the layers refused the call.
const LAYERS: u32 = 6;

fn layer_reply(number: u32) -> Reply
    ensures { result ≡ layer_reply number }
{
    Reply {
        status: LAYERS,
        kind: 0,
        cause: 0,
        number,
        length: 0,
    }
}

fn refusal_reply(refusal: SaslError) -> Reply
    ensures { result ≡ refusal_reply refusal }
{
    match refusal {
        SaslError::Layers => layer_reply(1),
        SaslError::State => layer_reply(2),
        SaslError::Offer => layer_reply(3),
        SaslError::Layer => layer_reply(4),
        SaslError::TooLarge => layer_reply(5),
        SaslError::Frame => layer_reply(6),
        SaslError::Context(error) => reply_of(Err(Failure::Refused(error))),
        SaslError::OutOfMemory => reply_of(Err(Failure::Refused(Error::from(Cause::Memory)))),
    }
}

/// Returns the reply to a call, as C has it.
pub(crate) fn sasl_reply(answer: Result<usize, SaslFailure>) -> Reply
    ensures { result ≡ sasl_reply answer }
{
    match answer {
        Ok(length) => reply_of(Ok(length)),
        Err(SaslFailure::Refused(refusal)) => refusal_reply(refusal),
        Err(SaslFailure::Room(length)) => reply_of(Err(Failure::Room(length))),
        Err(SaslFailure::Argument) => reply_of(Err(Failure::Argument)),
        Err(SaslFailure::Handle) => reply_of(Err(Failure::Handle)),
    }
}
