//! The order of a session's messages.

ghost use Rattle.std.specs.Prelude.{◌≡◌, ℕ, Result, IfOk, IfErr, OnErr};
ghost use Rattle.krb_c.specs.declared.reply.Failure.{Failure};
ghost use Rattle.krb_c.specs.Failures.{IsNever, SetsNot};
ghost use Rattle.krb_c.specs.Ordered.{SetsOrder};
ghost use Rattle.krb_c.specs.Replies.{reply_of};

use crate::handles::Connection;
use crate::reply::{Failure, Reply, reply_of};
use std::alloc::Global;

fn set_order(alloc: Global, session: &mut Connection, in_order: u32) -> Result<usize, Failure>
    ensures set { IfOk result (λ count. SetsOrder in_order session.old.place.value count session.new.place.value) }
    ensures fails { IfErr result (SetsNot ⊥ IsNever session.old.place.value) }
    ensures stays { OnErr result (session.new.place.value ≡ session.old.place.value) }
{
    let Some(mut guest) = session.take(alloc) else {
        return Err(Failure::Handle);
    };
    if in_order == 0 {
        guest.set_any_order();
    } else {
        guest.set_in_order();
    }
    session.put(guest);
    Ok(0)
}

/// Sets the order in which the session accepts its peer's messages and MIC tokens. 0: in any order within the window of 64, as a new
/// session does. Otherwise each must have the number after the one before it (RFC 2743, section 1.2.3): the first that of the client's
/// token at an acceptor's session, and any number at an initiator's. A message with another number is refused as `Number`.
///
/// HANDLE: there is no session.
#[unsafe(no_mangle)]
pub extern "C" fn mk_session_set_order(
    alloc: Global,
    session: &mut Connection,
    in_order: u32,
) -> Reply
    ensures { (answer : Result ℕ Failure) × (result ≡ reply_of answer)
        × IfOk answer (λ count. SetsOrder in_order session.old.place.value count session.new.place.value)
        × IfErr answer (SetsNot ⊥ IsNever session.old.place.value)
        × OnErr answer (session.new.place.value ≡ session.old.place.value) }
{
    reply_of(set_order(alloc, session, in_order))
}
