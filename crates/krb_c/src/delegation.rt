//! The tickets that clients delegate.

ghost use Rattle.std.specs.Prelude.{◌≡◌, ℕ, length, Some, Result, IfOk, IfErr, OnErr};
ghost use Rattle.krb_c.specs.declared.reply.Failure.{Failure};
ghost use Rattle.krb_c.specs.Asked.{IsDelegation, LendsNot};
ghost use Rattle.krb_c.specs.Replies.{reply_of};
ghost use Rattle.krb_c.specs.Tells.{HandsOnNot, IsHandedOn, Tells};
ghost use Rattle.krb_c.specs.Told.{Shows};

use crate::handles::{Connection, Judgement};
use crate::reply::{Failure, Reply, reply_of};
use krb_entrance::{Candidate, Session, put};
use std::alloc::Global;

fn delegation_of(candidate: &Candidate, out: &mut [u8]) -> Result<usize, Failure>
    ensures told { IfOk result (λ count. Shows IsDelegation (Some candidate.now) out.old count out.new) }
    ensures fails { IfErr result (LendsNot IsDelegation (Some candidate.now) (length out.old)) }
    ensures room { OnErr result (out.new ≡ out.old) }
{
    match put(out, candidate.judged.delegation()) {
        Ok(count) => Ok(count),
        Err(fault) => Err(Failure::from(fault)),
    }
}

fn judged_delegation(
    alloc: Global,
    judged: &mut Judgement,
    out: &mut [u8],
) -> Result<usize, Failure>
    ensures told { IfOk result (λ count. Shows IsDelegation judged.old.place.value out.old count out.new) }
    ensures fails { IfErr result (LendsNot IsDelegation judged.old.place.value (length out.old)) }
    ensures stays { judged.new.place.value ≡ judged.old.place.value }
    ensures room { OnErr result (out.new ≡ out.old) }
{
    let Some(candidate) = judged.take(alloc) else {
        return Err(Failure::Handle);
    };
    let answer = delegation_of(&candidate, out);
    judged.put(candidate);
    answer
}

/// Writes the KRB-CRED with which the client delegates a ticket of its own (RFC 4121, section 4.1.1; RFC 4120, section 5.8.1): no
/// bytes if it asked for no delegation, or its checksum has no whole one. It is not decrypted here. **The client is not admitted
/// yet.**
///
/// HANDLE: there is no candidate.
#[unsafe(no_mangle)]
pub extern "C" fn mk_judged_get_delegation(
    alloc: Global,
    judged: &mut Judgement,
    out: &mut [u8],
) -> Reply
    ensures told { (answer : Result ℕ Failure) × (result ≡ reply_of answer)
        × IfOk answer (λ count. Shows IsDelegation judged.old.place.value out.old count out.new)
        × IfErr answer (LendsNot IsDelegation judged.old.place.value (length out.old))
        × OnErr answer (out.new ≡ out.old) }
    ensures stays { judged.new.place.value ≡ judged.old.place.value }
{
    reply_of(judged_delegation(alloc, judged, out))
}

fn handed_on(session: &Session, out: &mut [u8]) -> Result<usize, Failure>
    ensures told { IfOk result (λ count. Tells IsHandedOn (Some session.now) out.old count out.new) }
    ensures fails { IfErr result (HandsOnNot (Some session.now) (length out.old)) }
    ensures room { OnErr result (out.new ≡ out.old) }
{
    match &session.client {
        Some(client) => match put(out, client.delegation.as_slice()) {
            Ok(count) => Ok(count),
            Err(fault) => Err(Failure::from(fault)),
        },
        None => Err(Failure::Handle),
    }
}

fn session_delegation(
    alloc: Global,
    session: &mut Connection,
    out: &mut [u8],
) -> Result<usize, Failure>
    ensures told { IfOk result (λ count. Tells IsHandedOn session.old.place.value out.old count out.new) }
    ensures fails { IfErr result (HandsOnNot session.old.place.value (length out.old)) }
    ensures stays { session.new.place.value ≡ session.old.place.value }
    ensures room { OnErr result (out.new ≡ out.old) }
{
    let Some(guest) = session.take(alloc) else {
        return Err(Failure::Handle);
    };
    let answer = handed_on(&guest, out);
    session.put(guest);
    answer
}

/// Writes the KRB-CRED with which the client delegated a ticket of its own, as `mk_judged_get_delegation` does.
///
/// HANDLE: there is no session, or it is one of an initiator.
#[unsafe(no_mangle)]
pub extern "C" fn mk_session_get_delegation(
    alloc: Global,
    session: &mut Connection,
    out: &mut [u8],
) -> Reply
    ensures told { (answer : Result ℕ Failure) × (result ≡ reply_of answer)
        × IfOk answer (λ count. Tells IsHandedOn session.old.place.value out.old count out.new)
        × IfErr answer (HandsOnNot session.old.place.value (length out.old))
        × OnErr answer (out.new ≡ out.old) }
    ensures stays { session.new.place.value ≡ session.old.place.value }
{
    reply_of(session_delegation(alloc, session, out))
}
