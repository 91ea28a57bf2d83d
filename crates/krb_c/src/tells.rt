//! The facts in the ticket of an admitted client.

ghost use Rattle.std.specs.Prelude.{◌≡◌, ℕ, length, Some, None, Result, IfOk, IfErr, OnErr};
ghost use Rattle.krb_sessions.specs.Gives.{Delivers};
ghost use Rattle.krb_c.specs.declared.reply.Failure.{Failure};
ghost use Rattle.krb_c.specs.declared.reply.Failure.TheVariants as failures;
ghost use Rattle.krb_c.specs.Replies.{reply_of};
ghost use Rattle.krb_c.specs.Tells.{IsPrincipal, PrincipalNot, Tells, TellsNot, TellsTimes, client_of, times_of};

use crate::handles::Connection;
use crate::reply::{Failure, Reply, reply_of};
use krb_entrance::{Client, Error, Session, put};
use std::alloc::Global;

/// Times of a ticket, in seconds since 1970-01-01T00:00:00Z.
#[repr(C)]
#[derive(Clone, Copy)]
pub struct Times {
    pub authtime: i64,
    pub starttime: i64,
    pub endtime: i64,
    pub renew_till: i64,
}

fn principal_of(alloc: Global, client: &Client, out: &mut [u8]) -> Result<usize, Failure>
    ensures told { IfOk result (λ count. Delivers (IsPrincipal client.now) out.old count out.new) }
    ensures fails { IfErr result (PrincipalNot client.now (length out.old)) }
    ensures room { OnErr result (out.new ≡ out.old) }
{
    let text = match client.principal(alloc) {
        Ok(text) => text,
        Err(error) => return Err(Failure::Refused(Error::from(error))),
    };
    match put(out, text.as_slice()) {
        Ok(count) => Ok(count),
        Err(fault) => Err(Failure::from(fault)),
    }
}

fn principal(alloc: Global, session: &Session, out: &mut [u8]) -> Result<usize, Failure>
    ensures told { IfOk result (λ count. Tells IsPrincipal (Some session.now) out.old count out.new) }
    ensures fails { IfErr result (TellsNot IsPrincipal (Some session.now) (length out.old)) }
    ensures room { OnErr result (out.new ≡ out.old) }
{
    match &session.client {
        Some(client) => principal_of(alloc, client, out),
        None => Err(Failure::Handle),
    }
}

fn client(alloc: Global, session: &mut Connection, out: &mut [u8]) -> Result<usize, Failure>
    ensures told { IfOk result (λ count. Tells IsPrincipal session.old.place.value out.old count out.new) }
    ensures fails { IfErr result (TellsNot IsPrincipal session.old.place.value (length out.old)) }
    ensures stays { session.new.place.value ≡ session.old.place.value }
    ensures room { OnErr result (out.new ≡ out.old) }
{
    let Some(guest) = session.take(alloc) else {
        return Err(Failure::Handle);
    };
    let answer = principal(alloc, &guest, out);
    session.put(guest);
    answer
}

/// Writes the client's whole name: all components of its name and the realm, as `alice/admin@EXAMPLE.COM`, with a backslash before
/// each of these marks that is in them (RFC 1964, section 2.1.1). Fails with HANDLE for an initiator's session.
#[unsafe(no_mangle)]
pub extern "C" fn mk_session_get_client(
    alloc: Global,
    session: &mut Connection,
    out: &mut [u8],
) -> Reply
    ensures told { (answer : Result ℕ Failure) × (result ≡ reply_of answer)
        × IfOk answer (λ count. Tells IsPrincipal session.old.place.value out.old count out.new)
        × IfErr answer (TellsNot IsPrincipal session.old.place.value (length out.old))
        × OnErr answer (out.new ≡ out.old) }
    ensures stays { session.new.place.value ≡ session.old.place.value }
{
    reply_of(client(alloc, session, out))
}

fn times_of(client: &Client) -> Times
    ensures { result ≡ times_of client.now }
{
    let authtime = client.authtime.seconds();
    let starttime = match client.starttime {
        Some(time) => time.seconds(),
        None => authtime,
    };
    let renew_till = match client.renew_till {
        Some(time) => time.seconds(),
        None => 0,
    };
    Times {
        authtime,
        starttime,
        endtime: client.endtime.seconds(),
        renew_till,
    }
}

fn write_times(session: &Session, out: &mut Times) -> Result<usize, Failure>
    ensures told { IfOk result (λ count. TellsTimes (Some session.now) count out.new) }
    ensures fails { IfErr result (λ failure. (failure ≡ failures.Handle) × (client_of (Some session.now) ≡ None)) }
    ensures room { OnErr result (out.new ≡ out.old) }
{
    match &session.client {
        Some(client) => {
            *out = times_of(client);
            Ok(0)
        }
        None => Err(Failure::Handle),
    }
}

fn tell_times(alloc: Global, session: &mut Connection, out: &mut Times) -> Result<usize, Failure>
    ensures told { IfOk result (λ count. TellsTimes session.old.place.value count out.new) }
    ensures fails { IfErr result (λ failure. (failure ≡ failures.Handle) × (client_of session.old.place.value ≡ None)) }
    ensures stays { session.new.place.value ≡ session.old.place.value }
    ensures room { OnErr result (out.new ≡ out.old) }
{
    let Some(guest) = session.take(alloc) else {
        return Err(Failure::Handle);
    };
    let answer = write_times(&guest, out);
    session.put(guest);
    answer
}

/// Writes the times of the client's ticket. Fails with HANDLE for an initiator's session.
#[unsafe(no_mangle)]
pub extern "C" fn mk_session_get_times(
    alloc: Global,
    session: &mut Connection,
    out: &mut Times,
) -> Reply
    ensures told { (answer : Result ℕ Failure) × (result ≡ reply_of answer)
        × IfOk answer (λ count. TellsTimes session.old.place.value count out.new)
        × IfErr answer (λ failure. (failure ≡ failures.Handle) × (client_of session.old.place.value ≡ None))
        × OnErr answer (out.new ≡ out.old) }
    ensures stays { session.new.place.value ≡ session.old.place.value }
{
    reply_of(tell_times(alloc, session, out))
}
