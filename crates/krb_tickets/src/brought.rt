//! The ticket that a reply brings to a run.

ghost use Rattle.std.specs.Prelude.{◌≡◌, ◌≤◌, Ok, Some, IfOk, IfSome};
ghost use Rattle.sspi_core.specs.Moments.{last_moment};
ghost use Rattle.sspi_core.specs.Checks.{Answers, Gives};
ghost use Rattle.krb_as.specs.AsPhases.{IsAwaiting as AwaitsReply, EndsSendable};
ghost use Rattle.krb_as.specs.Granted.{IsSendable};
ghost use Rattle.krb_as.specs.declared.key.Grant.{Grant};
ghost use Rattle.krb_initiator.specs.InitRuns.{IsSeeking, IsWaiting};
ghost use Rattle.krb_tickets.specs.Brought.{granted, BringsFirst, BringsNext, BringsIn, BringsTicket};

use krb_as::{AsPhase, Grant, Turn, take_reply};
use krb_der::Octets;
use krb_initiator::{InitPhase, InitRun, Initiation, Seeker, TgsLeg};
use krb_tgs::take_tgs_rep;
use sspi_core::{Cause, Draw};
use std::alloc::Global;

/// Returns the ticket at the end of an AS exchange.
fn granted(turn: Turn<AsPhase, Grant>) -> Option<Grant>
    requires { EndsSendable turn }
    ensures made { result ≡ granted turn }
    ensures sendable { IfSome result (λ (grant : Grant). IsSendable grant.rep) }
{
    match turn {
        Turn::Asks(_, _) => None,
        Turn::Ends(grant) => Some(grant),
    }
}

/// Returns the ticket of an AS-REP.
#[tactic(auto, unfolding(crate::specs::Brought::BringsFirst))]
fn first_brought(
    alloc: Global,
    seeker: &Seeker,
    phase: &AsPhase,
    reply: Octets,
    draw: &Draw,
) -> Result<Option<Grant>, Cause>
    requires awaiting { AwaitsReply seeker.now.asker phase.now }
    requires moment { draw.now.moment ≤ last_moment }
    ensures step { Answers (BringsFirst seeker.now phase.now (Ok reply) draw.now) result }
    ensures sendable { IfOk result (λ found. IfSome found (λ (grant : Grant). IsSendable grant.rep)) }
{
    let turn = take_reply(alloc, &seeker.asker, phase, Ok(reply), draw)?;
    Ok(granted(turn))
}

/// Returns the ticket of a TGS-REP.
#[tactic(auto, unfolding(crate::specs::Brought::BringsNext))]
fn next_brought(
    alloc: Global,
    seeker: &Seeker,
    leg: &TgsLeg,
    reply: Octets,
    draw: &Draw,
) -> Result<Option<Grant>, Cause>
    ensures step { Answers (BringsNext seeker.now leg.now (Ok reply) draw.now) result }
    ensures sendable { IfOk result (λ found. IfSome found (λ (grant : Grant). IsSendable grant.rep)) }
{
    let grant = take_tgs_rep(
        alloc,
        seeker.asker.rules,
        &seeker.wanted.target,
        &leg.question,
        draw.moment,
        &leg.kdc,
        leg.suite,
        &leg.key,
        Ok(reply),
    )?;
    Ok(Some(grant))
}

/// Returns the ticket that a reply brings in a phase.
fn brought_in(
    alloc: Global,
    seeker: &Seeker,
    phase: &InitPhase,
    reply: Octets,
    draw: &Draw,
) -> Result<Option<Grant>, Cause>
    requires waits { IsSeeking seeker.now phase.now }
    requires moment { draw.now.moment ≤ last_moment }
    ensures step { Answers (BringsIn seeker.now phase.now (Ok reply) draw.now) result }
    ensures sendable { IfOk result (λ found. IfSome found (λ (grant : Grant). IsSendable grant.rep)) }
{
    match phase {
        InitPhase::InAsExchange(phase) => first_brought(alloc, seeker, phase, reply, draw),
        InitPhase::AwaitsTgsRep(leg) => next_brought(alloc, seeker, leg, reply, draw),
        InitPhase::New | InitPhase::Over => unreachable!(),
    }
}

/// Returns the ticket that this reply of a KDC brings to a run that awaits one, as the next step of the run takes it, so that a caller can
/// write it into a cache; None if the reply is one after which the KDC is asked again. The run is not changed. The draw is that of the step.
///
/// Fails as the step fails that takes the reply, up to the checks of the reply itself.
pub fn ticket_brought(
    alloc: Global,
    run: &InitRun,
    reply: &[u8],
    draw: &Draw,
) -> Result<Option<Grant>, Cause>
    requires waiting { IsWaiting run.now }
    requires moment { draw.now.moment ≤ last_moment }
    ensures step { Answers (BringsTicket run.now.initiation run.now.phase (Ok reply.now) draw.now) result }
    ensures sendable { IfOk result (λ found. IfSome found (λ (grant : Grant). IsSendable grant.rep)) }
{
    let reply = Octets::from_slice(alloc, reply)?;
    match run.initiation() {
        Initiation::Seeks(seeker) => brought_in(alloc, seeker, run.phase(), reply, draw),
        Initiation::Requests(_, _) | Initiation::Hears(_, _) => unreachable!(),
    }
}
