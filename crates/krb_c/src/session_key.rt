//! The key of a session.

ghost use Rattle.std.specs.Prelude.{◌≡◌, ℕ, length, Result, IfOk, IfErr, OnErr};
ghost use Rattle.sspi_core.specs.Checks.{Takes};
ghost use Rattle.sspi_core.specs.declared.cause.Cause.TheVariants as causes;
ghost use Rattle.sspi_core.specs.declared.error.Place.TheVariants as places;
ghost use Rattle.krb_context.specs.Params.{key_of};
ghost use Rattle.krb_sessions.specs.Gives.{IsKey};
ghost use Rattle.krb_c.specs.declared.reply.Failure.{Failure};
ghost use Rattle.krb_c.specs.Replies.{reply_of};
ghost use Rattle.krb_c.specs.Calls.{Serves, ServesNot, same};

use crate::handles::Connection;
use crate::reply::{Failure, Reply, reply_of};
use std::alloc::Global;

fn session_key(alloc: Global, session: &mut Connection, out: &mut [u8]) -> Result<usize, Failure>
    ensures serves { IfOk result (λ count. Serves (λ s. IsKey s.connection) same
        session.old.place.value out.old count session.new.place.value out.new) }
    ensures fails { IfErr result (ServesNot ⊥ places.Elsewhere (λ s. Takes causes.Sequence (key_of s.connection.encryption_params))
        (λ s. IsKey s.connection) session.old.place.value (length out.old)) }
    ensures stays { OnErr result (session.new.place.value ≡ session.old.place.value) }
    ensures room { OnErr result (out.new ≡ out.old) }
{
    let Some(guest) = session.take(alloc) else {
        return Err(Failure::Handle);
    };
    let answer = guest.key(out);
    session.put(guest);
    match answer {
        Ok(count) => Ok(count),
        Err(fault) => Err(Failure::from(fault)),
    }
}

/// Writes the key of the session's messages, for data that a program encrypts by itself: the subkey that an end chose, otherwise the
/// ticket's session key. It has 32 bytes if its encryption type is 18 and 16 if it is 17 (RFC 3962). **Whoever has it reads all
/// messages of the session.**
#[unsafe(no_mangle)]
pub extern "C" fn mk_session_get_key(
    alloc: Global,
    session: &mut Connection,
    out: &mut [u8],
) -> Reply
    ensures { (answer : Result ℕ Failure) × (result ≡ reply_of answer)
        × IfOk answer (λ count. Serves (λ s. IsKey s.connection) same
        session.old.place.value out.old count session.new.place.value out.new)
        × IfErr answer (ServesNot ⊥ places.Elsewhere (λ s. Takes causes.Sequence (key_of s.connection.encryption_params))
        (λ s. IsKey s.connection) session.old.place.value (length out.old))
        × OnErr answer (session.new.place.value ≡ session.old.place.value)
        × OnErr answer (out.new ≡ out.old) }
{
    reply_of(session_key(alloc, session, out))
}
