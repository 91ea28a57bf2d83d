//! The reply to a call.

ghost use Rattle.std.specs.Prelude.{◌≡◌};
ghost use Rattle.krb_c.specs.Replies.{reply_of, reply_to, plain_reply, number_reply, next_code, step_reply};

use crate::codes::{cause_code, kind_code, number_of};
use krb_dialogue::Next;
use krb_entrance::{Cause, Error, Fault};

/// The reply to a call: a status, the kind and cause of a refusal, and the length of the bytes that were written or are needed.
#[repr(C)]
#[derive(Clone, Copy, Debug, PartialEq, Eq)]
pub struct Reply {
    pub status: u32,
    pub kind: u32,
    pub cause: u32,
    pub number: u32,
    pub length: usize,
}

/// The reply to a step of an initiator, and what comes next: 3 if the step failed.
#[repr(C)]
#[derive(Clone, Copy, Debug, PartialEq, Eq)]
pub struct Step {
    pub reply: Reply,
    pub next: u32,
}

/// Why a call failed.
#[derive(Clone, Copy, Debug, PartialEq, Eq)]
pub enum Failure {
    /// The library refused it.
    Refused(Error),
    /// The buffer is shorter than this many bytes, which the call has to put into it.
    Room(usize),
    /// An argument has a value that is not allowed.
    Argument,
    /// The handle is empty if the call needs one of its kind, or holds something if the call needs an empty one.
    Handle,
}

impl From<Error> for Failure {
    ghost use Rattle.krb_c.specs.declared.reply.Failure.TheVariants as failures;

    ghost from_gives = { λ error failure. failure ≡ failures.Refused error };

    fn from(error: Error) -> Failure {
        Failure::Refused(error)
    }
}

impl From<Fault> for Failure {
    ghost use Rattle.krb_c.specs.Replies.{failure_of};

    ghost from_gives = { λ fault failure. failure ≡ failure_of fault };

    fn from(fault: Fault) -> Failure {
        match fault {
            Fault::Refused(error) => Failure::Refused(error),
            Fault::Room(count) => Failure::Room(count),
        }
    }
}

/// The call succeeded.
const DONE: u32 = 0;

/// The library refused the call.
const REFUSED: u32 = 1;

/// Memory ran out.
const MEMORY: u32 = 2;

/// The buffer is too short.
const ROOM: u32 = 3;

/// An argument has a value that is not allowed.
const ARGUMENT: u32 = 4;

/// The handle has the wrong content for the call.
const HANDLE: u32 = 5;

/// The step failed: there is no next turn.
const FAILED: u32 = 3;

fn plain_reply(status: u32, length: usize) -> Reply
    ensures { result ≡ plain_reply status length }
{
    Reply {
        status,
        kind: 0,
        cause: 0,
        number: 0,
        length,
    }
}

fn reply_to(error: Error) -> Reply
    ensures { result ≡ reply_to error }
{
    let status = match error.cause {
        Cause::Memory => MEMORY,
        _ => REFUSED,
    };
    Reply {
        status,
        kind: kind_code(error.error_type),
        cause: cause_code(error.cause),
        number: number_of(error.cause),
        length: 0,
    }
}

/// Returns the reply to a call, as C has it.
pub(crate) fn reply_of(answer: Result<usize, Failure>) -> Reply
    ensures { result ≡ reply_of answer }
{
    match answer {
        Ok(length) => plain_reply(DONE, length),
        Err(Failure::Refused(error)) => reply_to(error),
        Err(Failure::Room(length)) => plain_reply(ROOM, length),
        Err(Failure::Argument) => plain_reply(ARGUMENT, 0),
        Err(Failure::Handle) => plain_reply(HANDLE, 0),
    }
}

/// Returns the reply to a call that returns a number, as C has it.
pub(crate) fn number_reply(answer: Result<u32, Failure>) -> Reply
    ensures { result ≡ number_reply answer }
{
    match answer {
        Ok(number) => Reply {
            status: DONE,
            kind: 0,
            cause: 0,
            number,
            length: 0,
        },
        Err(failure) => reply_of(Err(failure)),
    }
}

/// Returns the number of the next turn, as C has it.
fn next_code(next: Next) -> u32
    ensures { result ≡ next_code next }
{
    match next {
        Next::AskKdc => 0,
        Next::SendToken => 1,
        Next::Established => 2,
    }
}

/// Returns the reply to a step, as C has it.
pub(crate) fn step_reply(answer: Result<Next, Failure>) -> Step
    ensures { result ≡ step_reply answer }
{
    match answer {
        Ok(next) => Step {
            reply: plain_reply(DONE, 0),
            next: next_code(next),
        },
        Err(failure) => Step {
            reply: reply_of(Err(failure)),
            next: FAILED,
        },
    }
}
