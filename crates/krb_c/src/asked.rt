//! The flags that a client asked for, and the flags of its ticket.

ghost use Rattle.std.specs.Prelude.{◌≡◌, ℕ, length, Some, None, Result, IfOk, IfErr, OnErr};
ghost use Rattle.krb_c.specs.declared.reply.Failure.{Failure};
ghost use Rattle.krb_c.specs.declared.reply.Failure.TheVariants as failures;
ghost use Rattle.krb_c.specs.Asked.{AsksFor, AsksNot, TellsTicketFlags, IsTag, LendsNot, candidate_flags, client_flags, flags_number};
ghost use Rattle.krb_c.specs.Replies.{reply_of, number_reply};
ghost use Rattle.krb_c.specs.Tells.{IsClientTag, LendsNoneOf, Tells, client_of};
ghost use Rattle.krb_c.specs.Told.{Shows};

use crate::handles::{Connection, Judgement};
use crate::reply::{Failure, Reply, number_reply, reply_of};
use krb_entrance::{Candidate, Cause, Client, Error, Session, put};
use std::alloc::Global;

fn candidate_flags(candidate: &Candidate) -> Result<u32, Failure>
    ensures told { IfOk result (AsksFor candidate_flags (Some candidate.now)) }
    ensures fails { IfErr result (AsksNot candidate_flags (Some candidate.now)) }
{
    match candidate.judged.gss_flags() {
        Some(flags) => Ok(flags),
        None => Err(Failure::Refused(Error::from(Cause::Checksum))),
    }
}

fn judged_flags(alloc: Global, judged: &mut Judgement) -> Result<u32, Failure>
    ensures told { IfOk result (AsksFor candidate_flags judged.old.place.value) }
    ensures fails { IfErr result (AsksNot candidate_flags judged.old.place.value) }
    ensures stays { judged.new.place.value ≡ judged.old.place.value }
{
    let Some(candidate) = judged.take(alloc) else {
        return Err(Failure::Handle);
    };
    let answer = candidate_flags(&candidate);
    judged.put(candidate);
    answer
}

/// Returns the GSS flags that the client asked for, in the reply's number: octets 20 to 23 of its checksum, the lowest first (RFC
/// 4121, section 4.1.1).
///
/// Fails with REFUSED as `Checksum` if its checksum has none.
#[unsafe(no_mangle)]
pub extern "C" fn mk_judged_get_flags(alloc: Global, judged: &mut Judgement) -> Reply
    ensures told { (answer : Result ℕ Failure) × (result ≡ number_reply answer)
        × IfOk answer (AsksFor candidate_flags judged.old.place.value)
        × IfErr answer (AsksNot candidate_flags judged.old.place.value) }
    ensures stays { judged.new.place.value ≡ judged.old.place.value }
{
    number_reply(judged_flags(alloc, judged))
}

fn client_flags(session: &Session) -> Result<u32, Failure>
    ensures told { IfOk result (AsksFor client_flags (client_of (Some session.now))) }
    ensures fails { IfErr result (AsksNot client_flags (client_of (Some session.now))) }
{
    match &session.client {
        Some(client) => match client.gss_flags {
            Some(flags) => Ok(flags),
            None => Err(Failure::Refused(Error::from(Cause::Checksum))),
        },
        None => Err(Failure::Handle),
    }
}

fn session_flags(alloc: Global, session: &mut Connection) -> Result<u32, Failure>
    ensures told { IfOk result (AsksFor client_flags (client_of session.old.place.value)) }
    ensures fails { IfErr result (AsksNot client_flags (client_of session.old.place.value)) }
    ensures stays { session.new.place.value ≡ session.old.place.value }
{
    let Some(guest) = session.take(alloc) else {
        return Err(Failure::Handle);
    };
    let answer = client_flags(&guest);
    session.put(guest);
    answer
}

/// Returns the GSS flags that the client asked for, as `mk_judged_get_flags` does. Fails with HANDLE for an initiator's session.
#[unsafe(no_mangle)]
pub extern "C" fn mk_session_get_flags(alloc: Global, session: &mut Connection) -> Reply
    ensures told { (answer : Result ℕ Failure) × (result ≡ number_reply answer)
        × IfOk answer (AsksFor client_flags (client_of session.old.place.value))
        × IfErr answer (AsksNot client_flags (client_of session.old.place.value)) }
    ensures stays { session.new.place.value ≡ session.old.place.value }
{
    number_reply(session_flags(alloc, session))
}

/// Returns the first 32 flags of a bit string as a number, bit 0 the highest.
fn flags_number(octets: &[u8]) -> u32
    ensures { result ≡ flags_number octets.now }
{
    match octets {
        [] => u32::from_be_bytes([0, 0, 0, 0]),
        [a] => u32::from_be_bytes([*a, 0, 0, 0]),
        [a, b] => u32::from_be_bytes([*a, *b, 0, 0]),
        [a, b, c] => u32::from_be_bytes([*a, *b, *c, 0]),
        [a, b, c, d, ..] => u32::from_be_bytes([*a, *b, *c, *d]),
    }
}

fn ticket_flags(session: &Session) -> Result<u32, Failure>
    ensures told { IfOk result (TellsTicketFlags (Some session.now)) }
    ensures fails { IfErr result (λ failure. (failure ≡ failures.Handle) × (client_of (Some session.now) ≡ None)) }
{
    match &session.client {
        Some(client) => Ok(flags_number(client.flags.octets.as_slice())),
        None => Err(Failure::Handle),
    }
}

fn session_ticket_flags(alloc: Global, session: &mut Connection) -> Result<u32, Failure>
    ensures told { IfOk result (TellsTicketFlags session.old.place.value) }
    ensures fails { IfErr result (λ failure. (failure ≡ failures.Handle) × (client_of session.old.place.value ≡ None)) }
    ensures stays { session.new.place.value ≡ session.old.place.value }
{
    let Some(guest) = session.take(alloc) else {
        return Err(Failure::Handle);
    };
    let answer = ticket_flags(&guest);
    session.put(guest);
    answer
}

/// Returns the flags of the client's ticket, in the reply's number: the first 32, bit 0 the highest (RFC 4120, section 5.3). Fails
/// with HANDLE for an initiator's session.
#[unsafe(no_mangle)]
pub extern "C" fn mk_session_get_ticket_flags(alloc: Global, session: &mut Connection) -> Reply
    ensures told { (answer : Result ℕ Failure) × (result ≡ number_reply answer)
        × IfOk answer (TellsTicketFlags session.old.place.value)
        × IfErr answer (λ failure. (failure ≡ failures.Handle) × (client_of session.old.place.value ≡ None)) }
    ensures stays { session.new.place.value ≡ session.old.place.value }
{
    number_reply(session_ticket_flags(alloc, session))
}

fn tag_of(candidate: &Candidate, out: &mut [u8]) -> Result<usize, Failure>
    ensures told { IfOk result (λ count. Shows IsTag (Some candidate.now) out.old count out.new) }
    ensures fails { IfErr result (LendsNot IsTag (Some candidate.now) (length out.old)) }
    ensures room { OnErr result (out.new ≡ out.old) }
{
    match put(out, candidate.judged.tag()) {
        Ok(count) => Ok(count),
        Err(fault) => Err(Failure::from(fault)),
    }
}

fn judged_tag(alloc: Global, judged: &mut Judgement, out: &mut [u8]) -> Result<usize, Failure>
    ensures told { IfOk result (λ count. Shows IsTag judged.old.place.value out.old count out.new) }
    ensures fails { IfErr result (LendsNot IsTag judged.old.place.value (length out.old)) }
    ensures stays { judged.new.place.value ≡ judged.old.place.value }
    ensures room { OnErr result (out.new ≡ out.old) }
{
    let Some(candidate) = judged.take(alloc) else {
        return Err(Failure::Handle);
    };
    let answer = tag_of(&candidate, out);
    judged.put(candidate);
    answer
}

/// Writes the last twelve bytes of the encrypted authenticator: two log-ins share them only by chance, one in 2^96, and a replay has
/// those of the first.
#[unsafe(no_mangle)]
pub extern "C" fn mk_judged_get_tag(alloc: Global, judged: &mut Judgement, out: &mut [u8]) -> Reply
    ensures told { (answer : Result ℕ Failure) × (result ≡ reply_of answer)
        × IfOk answer (λ count. Shows IsTag judged.old.place.value out.old count out.new)
        × IfErr answer (LendsNot IsTag judged.old.place.value (length out.old))
        × OnErr answer (out.new ≡ out.old) }
    ensures stays { judged.new.place.value ≡ judged.old.place.value }
{
    reply_of(judged_tag(alloc, judged, out))
}

fn client_tag(session: &Session, out: &mut [u8]) -> Result<usize, Failure>
    ensures told { IfOk result (λ count. Tells IsClientTag (Some session.now) out.old count out.new) }
    ensures fails { IfErr result (LendsNoneOf IsClientTag (Some session.now) (length out.old)) }
    ensures room { OnErr result (out.new ≡ out.old) }
{
    match &session.client {
        Some(client) => match put(out, client.tag.as_slice()) {
            Ok(count) => Ok(count),
            Err(fault) => Err(Failure::from(fault)),
        },
        None => Err(Failure::Handle),
    }
}

fn session_tag(alloc: Global, session: &mut Connection, out: &mut [u8]) -> Result<usize, Failure>
    ensures told { IfOk result (λ count. Tells IsClientTag session.old.place.value out.old count out.new) }
    ensures fails { IfErr result (LendsNoneOf IsClientTag session.old.place.value (length out.old)) }
    ensures stays { session.new.place.value ≡ session.old.place.value }
    ensures room { OnErr result (out.new ≡ out.old) }
{
    let Some(guest) = session.take(alloc) else {
        return Err(Failure::Handle);
    };
    let answer = client_tag(&guest, out);
    session.put(guest);
    answer
}

/// Writes the last twelve bytes of the encrypted authenticator by which the client was admitted, as `mk_judged_get_tag` does. Fails with
/// HANDLE for an initiator's session.
#[unsafe(no_mangle)]
pub extern "C" fn mk_session_get_tag(
    alloc: Global,
    session: &mut Connection,
    out: &mut [u8],
) -> Reply
    ensures told { (answer : Result ℕ Failure) × (result ≡ reply_of answer)
        × IfOk answer (λ count. Tells IsClientTag session.old.place.value out.old count out.new)
        × IfErr answer (LendsNoneOf IsClientTag session.old.place.value (length out.old))
        × OnErr answer (out.new ≡ out.old) }
    ensures stays { session.new.place.value ≡ session.old.place.value }
{
    reply_of(session_tag(alloc, session, out))
}
