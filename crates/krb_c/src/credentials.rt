//! The ticket that a KDC's reply brings, in a credential cache.

ghost use Rattle.std.specs.Prelude.{◌≡◌, ◌≤◌, ℕ, Ok, length, Result, IfOk, IfErr, IfSome, OnErr};
ghost use Rattle.sspi_core.specs.Checks.{Answers};
ghost use Rattle.sspi_core.specs.Moments.{last_moment};
ghost use Rattle.sspi_core.specs.declared.error.Place.TheVariants as places;
ghost use Rattle.krb_as.specs.Granted.{IsSendable};
ghost use Rattle.krb_as.specs.declared.key.Grant.{Grant};
ghost use Rattle.krb_context.specs.Refusals.{Refuses};
ghost use Rattle.krb_sessions.specs.Gives.{Delivers};
ghost use Rattle.krb_c.specs.declared.reply.Failure.{Failure};
ghost use Rattle.krb_c.specs.Brought.{Brings, CachesTicket, Caches, HandsCcache, CcacheNot};
ghost use Rattle.krb_c.specs.Calls.{draw_of};
ghost use Rattle.krb_c.specs.Ccaches.{ReadsCcache};
ghost use Rattle.krb_c.specs.Failures.{IsNoDraw, RefusesUnfilled};
ghost use Rattle.krb_c.specs.Replies.{reply_of};

use crate::accept::Moment;
use crate::ccache::read_ccache;
use crate::handles::Initiator;
use crate::reply::{Failure, Reply, reply_of};
use crate::texts::draw_of;
use krb_as::Grant;
use krb_der::Octets;
use krb_dialogue::{Cause, Dialogue, Draw, Error, put};
use krb_tickets::{credential_of, ticket_brought};
use sspi_core::hold;
use std::alloc::Global;

/// Returns the ticket that a reply brings to the exchange that awaits it.
#[tactic(auto, unfolding(crate::specs::Brought::Brings))]
fn brought(
    alloc: Global,
    dialogue: &Dialogue,
    reply: &[u8],
    draw: &Draw,
) -> Result<Option<Grant>, Cause>
    requires moment { draw.now.moment ≤ last_moment }
    ensures step { Answers (Brings dialogue.now reply.now draw.now) result }
    ensures sendable { IfOk result (λ found. IfSome found (λ (ticket : Grant). IsSendable ticket.rep)) }
{
    match dialogue.awaiting() {
        Some(run) => ticket_brought(alloc, run, reply, draw),
        None => Err(Cause::Sequence),
    }
}

/// Returns the file of a cache with a further ticket.
#[tactic(auto, unfolding(crate::specs::Brought::CachesTicket))]
fn with_ticket(alloc: Global, file: &[u8], ticket: &Grant) -> Result<Octets, Cause>
    requires { IsSendable ticket.now.rep }
    ensures { Answers (CachesTicket file.now ticket.now) result }
{
    let mut cache = read_ccache(alloc, file)?;
    let credential = credential_of(alloc, ticket)?;
    cache.push(alloc, credential)?;
    hold(cache.is_writable(), Cause::Shape)?;
    Ok(cache.write(alloc)?)
}

/// Returns the file of a cache with the ticket that a reply brings; no bytes if it brings none.
#[tactic(auto, unfolding(crate::specs::Brought::Caches))]
fn ccache_with(
    alloc: Global,
    dialogue: &Dialogue,
    file: &[u8],
    reply: &[u8],
    draw: &Draw,
) -> Result<Octets, Cause>
    requires moment { draw.now.moment ≤ last_moment }
    ensures { Answers (Caches file.now reply.now draw.now dialogue.now) result }
{
    match brought(alloc, dialogue, reply, draw)? {
        Some(ticket) => with_ticket(alloc, file, &ticket),
        None => Ok(Octets::new(Vec::new(alloc))),
    }
}

/// Returns the file, or the refusal.
fn file_with(
    alloc: Global,
    dialogue: &Dialogue,
    file: &[u8],
    reply: &[u8],
    draw: &Draw,
) -> Result<Octets, Error>
    requires moment { draw.now.moment ≤ last_moment }
    ensures given { IfOk result (λ octets. Caches file.now reply.now draw.now dialogue.now (Ok octets)) }
    ensures refused { IfErr result (Refuses places.Elsewhere (Caches file.now reply.now draw.now dialogue.now)) }
{
    match ccache_with(alloc, dialogue, file, reply, draw) {
        Ok(octets) => Ok(octets),
        Err(cause) => Err(Error::from(cause)),
    }
}

fn get_at(
    alloc: Global,
    initiator: &mut Initiator,
    file: &[u8],
    reply: &[u8],
    draw: &Draw,
    out: &mut [u8],
) -> Result<usize, Failure>
    requires moment { draw.now.moment ≤ last_moment }
    ensures hands { IfOk result (λ count. HandsCcache file.now reply.now draw.now initiator.old.place.value out.old count out.new) }
    ensures fails { IfErr result (CcacheNot ⊥ file.now reply.now draw.now initiator.old.place.value (length out.old)) }
    ensures stays { initiator.new.place.value ≡ initiator.old.place.value }
    ensures room { OnErr result (out.new ≡ out.old) }
{
    let Some(dialogue) = initiator.take(alloc) else {
        return Err(Failure::Handle);
    };
    let answer = file_with(alloc, &dialogue, file, reply, draw);
    initiator.put(dialogue);
    match answer {
        Ok(octets) => Ok(put(out, octets.as_slice())?),
        Err(error) => Err(Failure::Refused(error)),
    }
}

fn get(
    alloc: Global,
    initiator: &mut Initiator,
    file: &[u8],
    reply: &[u8],
    moment: &Moment,
    out: &mut [u8],
) -> Result<usize, Failure>
    ensures hands { IfOk result (λ count. HandsCcache file.now reply.now (draw_of moment.now) initiator.old.place.value out.old count out.new) }
    ensures fails { IfErr result (CcacheNot (IsNoDraw (draw_of moment.now)) file.now reply.now (draw_of moment.now) initiator.old.place.value
        (length out.old)) }
    ensures unfilled { RefusesUnfilled moment.now.random result }
    ensures stays { initiator.new.place.value ≡ initiator.old.place.value }
    ensures room { OnErr result (out.new ≡ out.old) }
{
    let draw = draw_of(moment)?;
    get_at(alloc, initiator, file, reply, &draw, out)
}

/// Writes the bytes of a credential cache with a further entry: the ticket that this reply of the KDC brings to the exchange that awaits
/// it, as `mk_initiator_answer` takes the reply at the same moment. The length is 0 if the reply brings no ticket. The initiator is
/// unchanged.
///
/// Fails with OutOfSequence `Sequence` if no KDC is asked, and as the step fails if the reply is refused; with InvalidToken `Shape` if the
/// bytes are no cache of the formats 0503 and 0504; with ARGUMENT if the moment is past the end of 9999-12-28, or
/// its random bytes are all 0.
#[unsafe(no_mangle)]
pub extern "C" fn mk_initiator_get_ccache(
    alloc: Global,
    initiator: &mut Initiator,
    file: &[u8],
    reply: &[u8],
    moment: &Moment,
    out: &mut [u8],
) -> Reply
    ensures told { (answer : Result ℕ Failure) × (result ≡ reply_of answer)
        × IfOk answer (λ count. HandsCcache file.now reply.now (draw_of moment.now) initiator.old.place.value out.old count out.new)
        × IfErr answer (CcacheNot (IsNoDraw (draw_of moment.now)) file.now reply.now (draw_of moment.now) initiator.old.place.value
        (length out.old))
        × RefusesUnfilled moment.now.random answer
        × OnErr answer (out.new ≡ out.old) }
    ensures stays { initiator.new.place.value ≡ initiator.old.place.value }
{
    reply_of(get(alloc, initiator, file, reply, moment, out))
}
