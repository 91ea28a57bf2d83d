//! The first half of an admission of a client that is bound to its channel.

ghost use Rattle.std.specs.Prelude.{◌≡◌, ◌⊎◌, ℕ, Some, Result, IfOk, IfErr, OnErr};
ghost use Rattle.sspi_core.specs.declared.error.Place.TheVariants as places;
ghost use Rattle.krb_context.specs.Refusals.{Refuses};
ghost use Rattle.krb_dialogue.specs.Settings.{data_bindings};
ghost use Rattle.krb_entrance.specs.Candidates.{Stops};
ghost use Rattle.krb_c.specs.declared.reply.Failure.{Failure};
ghost use Rattle.krb_c.specs.Replies.{reply_of};
ghost use Rattle.krb_c.specs.Calls.{draw_of};
ghost use Rattle.krb_c.specs.Failures.{IsNoDraw, IsWant, RefusedAs, RefusesUnfilled};
ghost use Rattle.krb_c.specs.Halves.{IsCandidate, IsLong, JudgesTo, JudgesNot, channel_of};

use crate::accept::Moment;
use crate::handles::{Acceptor, Judgement};
use crate::reply::{Failure, Reply, reply_of};
use crate::texts::draw_of;
use krb_der::boxed;
use krb_entrance::{
    Candidate, ChannelBindings, Draw, Error, Octets, OutOfMemory, Service, channel_hash,
};
use std::alloc::Global;

/// Returns bindings to the application's data alone.
fn data_bindings(alloc: Global, octets: &[u8]) -> Result<ChannelBindings, OutOfMemory>
    ensures { IfOk result (λ bindings. bindings ≡ data_bindings octets.now) }
{
    Ok(ChannelBindings {
        initiator_addr_type: 0,
        initiator: Octets::new(Vec::new(alloc)),
        acceptor_addr_type: 0,
        acceptor: Octets::new(Vec::new(alloc)),
        application_data: Octets::from_slice(alloc, octets)?,
    })
}

/// Returns the hash of a channel's bindings, if the data are not too long.
pub(crate) fn channel_of(alloc: Global, octets: &[u8]) -> Result<[u8; 16], Failure>
    ensures hash { IfOk result (λ hash. hash ≡ channel_of octets.now) }
    ensures fails { IfErr result (RefusedAs (IsLong octets.now) IsWant) }
{
    let bindings = match data_bindings(alloc, octets) {
        Ok(bindings) => bindings,
        Err(error) => return Err(Failure::Refused(Error::from(error))),
    };
    match channel_hash(&bindings) {
        Ok(hash) => Ok(hash),
        Err(_error) => Err(Failure::Argument),
    }
}

/// Returns a candidate in a box.
fn boxed_candidate(
    alloc: Global,
    service: &Service,
    channel: [u8; 16],
    token: &[u8],
    draw: &Draw,
) -> Result<Box<Candidate>, Error>
    ensures passes { IfOk result (λ candidate. IsCandidate service.now.keys (Some channel) token.now draw.now candidate.value) }
    ensures refused { IfErr result (Refuses places.Elsewhere (Stops service.now.keys (Some channel) token.now draw.now)) }
{
    let candidate = service.judge_bound(alloc, channel, token, draw)?;
    Ok(boxed(alloc, candidate)?)
}

/// Returns the candidate of a token, bound to the channel that has these data.
fn candidate_of(
    alloc: Global,
    service: &Service,
    token: &[u8],
    octets: &[u8],
    draw: &Draw,
) -> Result<Box<Candidate>, Failure>
    ensures passes { IfOk result (λ candidate. IsCandidate service.now.keys (Some (channel_of octets.now)) token.now draw.now candidate.value) }
    ensures fails { IfErr result (RefusedAs (IsLong octets.now)
        (Refuses places.Elsewhere (Stops service.now.keys (Some (channel_of octets.now)) token.now draw.now))) }
{
    let channel = channel_of(alloc, octets)?;
    match boxed_candidate(alloc, service, channel, token, draw) {
        Ok(candidate) => Ok(candidate),
        Err(error) => Err(Failure::Refused(error)),
    }
}

fn judge_at(
    alloc: Global,
    acceptor: &mut Acceptor,
    to: &mut Judgement,
    token: &[u8],
    octets: &[u8],
    draw: &Draw,
) -> Result<usize, Failure>
    ensures judges { IfOk result (λ count. JudgesTo (Some (channel_of octets.now)) token.now draw.now
        acceptor.old.place.value to.old.place.value count to.new.place.value) }
    ensures fails { IfErr result (JudgesNot (IsNoDraw draw.now ⊎ IsLong octets.now) (Some (channel_of octets.now)) token.now draw.now
        acceptor.old.place.value to.old.place.value) }
    ensures acceptor { acceptor.new.place.value ≡ acceptor.old.place.value }
    ensures stays { OnErr result (to.new.place.value ≡ to.old.place.value) }
{
    if !to.is_empty() {
        return Err(Failure::Handle);
    }
    let Some(service) = acceptor.take(alloc) else {
        return Err(Failure::Handle);
    };
    let judged = candidate_of(alloc, &service, token, octets, draw);
    acceptor.put(service);
    to.put(judged?);
    Ok(0)
}

fn judge_bound(
    alloc: Global,
    acceptor: &mut Acceptor,
    to: &mut Judgement,
    token: &[u8],
    octets: &[u8],
    moment: &Moment,
) -> Result<usize, Failure>
    ensures judges { IfOk result (λ count. JudgesTo (Some (channel_of octets.now)) token.now (draw_of moment.now)
        acceptor.old.place.value to.old.place.value count to.new.place.value) }
    ensures fails { IfErr result (JudgesNot (IsNoDraw (draw_of moment.now) ⊎ IsLong octets.now) (Some (channel_of octets.now)) token.now
        (draw_of moment.now) acceptor.old.place.value to.old.place.value) }
    ensures unfilled { RefusesUnfilled moment.now.random result }
    ensures acceptor { acceptor.new.place.value ≡ acceptor.old.place.value }
    ensures stays { OnErr result (to.new.place.value ≡ to.old.place.value) }
{
    let draw = draw_of(moment)?;
    judge_at(alloc, acceptor, to, token, octets, &draw)
}

/// Does the first half as `mk_judge` does, of a client that is bound to its channel: the data are those that `mk_initiator_set_bindings`
/// takes.
///
/// Fails with REFUSED and the first check that failed: after those of `mk_judge` with `Checksum`, if the client's checksum has no room
/// for bindings, and with `Bindings`, if it sent others, or none. Fails with ARGUMENT also if the data have over 2^24 bytes.
#[unsafe(no_mangle)]
pub extern "C" fn mk_judge_bound(
    alloc: Global,
    acceptor: &mut Acceptor,
    to: &mut Judgement,
    token: &[u8],
    octets: &[u8],
    moment: &Moment,
) -> Reply
    ensures told { (answer : Result ℕ Failure) × (result ≡ reply_of answer)
        × IfOk answer (λ count. JudgesTo (Some (channel_of octets.now)) token.now (draw_of moment.now)
        acceptor.old.place.value to.old.place.value count to.new.place.value)
        × IfErr answer (JudgesNot (IsNoDraw (draw_of moment.now) ⊎ IsLong octets.now) (Some (channel_of octets.now)) token.now
        (draw_of moment.now) acceptor.old.place.value to.old.place.value)
        × RefusesUnfilled moment.now.random answer
        × OnErr answer (to.new.place.value ≡ to.old.place.value) }
    ensures acceptor { acceptor.new.place.value ≡ acceptor.old.place.value }
{
    reply_of(judge_bound(alloc, acceptor, to, token, octets, moment))
}
