//! The way of an initiator from one ticket-granting service to the next, and to the service.

ghost use Rattle.std.specs.Prelude.{◌≡◌, ◌+◌, ◌-◌, ◌<◌, ◌≤◌, ◌^◌, length, IfOk, IfSome, List, ℕ};
ghost use Rattle.sspi_core.specs.Moments.{last_moment};
ghost use Rattle.sspi_core.specs.Checks.{Answers, Gives};
ghost use Rattle.krb_authenticators.specs.TgsRequests.{AreShortTickets};
ghost use Rattle.krb_as.specs.declared.turn.Turn.TheVariants as turns;
ghost use Rattle.krb_as.specs.Granted.{IsSendable};
ghost use Rattle.krb_tgs.specs.TgsAsked.{AsksTgs};
ghost use Rattle.krb_tgs.specs.Fresh.{question_of, referral_of};
ghost use Rattle.krb_initiator.specs.declared.seeker.InitPhase.TheVariants as phases;
ghost use Rattle.krb_initiator.specs.Tgts.{first_tickets};
ghost use Rattle.krb_initiator.specs.Seekers.{CanSeek};
ghost use Rattle.krb_initiator.specs.InitSteps.{leg_of, AsksFirstTgs, Refers, Arrives, GoesTo, TakesNext};
ghost use Rattle.krb_as.specs.Turns.{GoesDown};
ghost use Rattle.krb_initiator.specs.InitRuns.{IsAtTgs, turns_left};

use crate::seeker::{InitPhase, Seeker, TgsLeg};
use crate::service_steps::end;
use krb_ap::show_ticket;
use krb_as::{Grant, InitDone, Turn, short_name};
use krb_context::Rules;
use krb_der::{Items, Name, Octets, OutOfMemory, TryCopy, boxed};
use krb_exchange::KdcRep;
use krb_messages::Ticket;
use krb_tgs::{Begun, TgsQuestion, ask_tgs, follow, referral_of, take_tgs_rep};
use sspi_core::{Cause, Draw};
use sspi_generator::NetFault;
use std::alloc::Global;

/// Returns the service's own ticket as the additional tickets of the first request to a ticket-granting service (RFC 4120, section
/// 5.4.1); None if the service gave none.
pub fn first_tickets(
    alloc: Global,
    tgt: &Option<Ticket>,
) -> Result<Option<Items<Ticket>>, OutOfMemory>
    ensures { IfOk result (λ tickets. tickets ≡ first_tickets tgt.now) }
{
    match tgt {
        None => Ok(None),
        Some(ticket) => {
            let mut tickets = Vec::new(alloc);
            tickets.push(ticket.copy(alloc)?)?;
            Ok(Some(Items::new(tickets)))
        }
    }
}

/// Asks the first ticket-granting service.
fn begin_tgs(alloc: Global, seeker: &Seeker, shown: &Grant, draw: &Draw) -> Result<Begun, Cause>
    requires seeker { CanSeek seeker.now }
    requires rep { IsSendable shown.now.rep }
    requires moment { draw.now.moment ≤ last_moment }
    ensures { Answers (AsksTgs seeker.now.asker seeker.now.wanted shown.now shown.now.rep.crealm shown.now.rep.crealm
        (first_tickets seeker.now.tgt) draw.now) result }
{
    let tickets = first_tickets(alloc, &seeker.tgt)?;
    let realm = &shown.rep.crealm;
    ask_tgs(
        alloc,
        &seeker.asker,
        &seeker.wanted,
        shown,
        realm,
        realm,
        tickets,
        draw,
    )
}

/// Returns the question of a request that shows the ticket of this reply.
pub fn question_of(rep: KdcRep, draw: &Draw) -> TgsQuestion
    ensures { result ≡ question_of rep draw.now }
{
    TgsQuestion {
        nonce: u32::from_be_bytes(draw.octets::<4>(4)),
        crealm: rep.crealm,
        cname: rep.cname,
    }
}

/// Returns the request, and the phase that awaits its reply, of an initiator that shows its first ticket to a ticket-granting service.
fn sent_first_tgs(
    alloc: Global,
    begun: Begun,
    shown: Grant,
    draw: &Draw,
) -> Result<Turn<InitPhase, InitDone>, Cause>
    ensures step { Answers (Gives (turns.Asks begun.request (phases.AwaitsTgsRep (leg_of begun.kdc shown shown.rep.crealm draw.now 0)))) result }
    ensures down { IfOk result (λ turn. GoesDown IsAtTgs turns_left 10 turn) }
{
    let home = shown.rep.crealm.copy(alloc)?;
    let Begun { request, kdc } = begun;
    let Grant {
        suite,
        key,
        rep,
        ..
    } = shown;
    let leg = TgsLeg {
        kdc,
        suite,
        key,
        home,
        question: question_of(rep, draw),
        hops: 0,
    };
    Ok(Turn::Asks(request, InitPhase::AwaitsTgsRep(leg)))
}

/// Asks the first ticket-granting service with the ticket of the AS-REP, and returns the next turn.
#[tactic(auto, unfolding(crate::specs::InitSteps::AsksFirstTgs))]
pub(crate) fn ask_first_tgs(
    alloc: Global,
    seeker: &Seeker,
    shown: Grant,
    draw: &Draw,
) -> Result<Turn<InitPhase, InitDone>, Cause>
    requires seeker { CanSeek seeker.now }
    requires rep { IsSendable shown.rep }
    requires moment { draw.now.moment ≤ last_moment }
    ensures step { Answers (AsksFirstTgs seeker.now shown draw.now) result }
    ensures down { IfOk result (λ turn. GoesDown IsAtTgs turns_left 10 turn) }
{
    let begun = begin_tgs(alloc, seeker, &shown, draw)?;
    sent_first_tgs(alloc, begun, shown, draw)
}

/// Returns the turn, and in it the phase, after a request that follows a referral.
fn sent_next_tgs(
    alloc: Global,
    begun: Begun,
    shown: Grant,
    leg: &TgsLeg,
    draw: &Draw,
) -> Result<Turn<InitPhase, InitDone>, Cause>
    requires few { leg.now.hops < 9 }
    ensures step { Answers (Gives (turns.Asks begun.request (phases.AwaitsTgsRep (leg_of begun.kdc shown leg.now.home draw.now (leg.now.hops + 1))))) result }
    ensures down { IfOk result (λ turn. GoesDown IsAtTgs turns_left (9 - leg.now.hops) turn) }
{
    let shown = boxed(alloc, shown)?;
    let home = leg.home.copy(alloc)?;
    let Begun { request, kdc } = begun;
    let Grant {
        suite,
        key,
        rep,
        ..
    } = Box::into_inner(shown);
    let next = TgsLeg {
        kdc,
        suite,
        key,
        home,
        question: question_of(rep, draw),
        hops: leg.hops + 1,
    };
    Ok(Turn::Asks(request, InitPhase::AwaitsTgsRep(next)))
}

/// Follows a referral to this realm.
#[tactic(auto, unfolding(crate::specs::InitSteps::Refers))]
fn refer(
    alloc: Global,
    seeker: &Seeker,
    leg: &TgsLeg,
    realm: &Name,
    shown: Grant,
    draw: &Draw,
) -> Result<Turn<InitPhase, InitDone>, Cause>
    requires seeker { CanSeek seeker.now }
    requires realm { length realm.now ≤ 2 ^ 24 }
    requires rep { IsSendable shown.rep }
    requires moment { draw.now.moment ≤ last_moment }
    ensures step { Answers (Refers seeker.now leg.now realm.now shown draw.now) result }
    ensures down { IfOk result (λ turn. GoesDown IsAtTgs turns_left (9 - leg.now.hops) turn) }
{
    let asked = &leg.kdc.realm;
    let begun = follow(
        alloc,
        &seeker.asker,
        &seeker.wanted,
        &shown,
        leg.hops,
        &leg.home,
        asked,
        realm,
        draw,
    )?;
    sent_next_tgs(alloc, begun, shown, leg, draw)
}

/// Shows the service's ticket to the service.
#[tactic(auto, unfolding(crate::specs::InitSteps::Arrives))]
fn arrive(
    alloc: Global,
    seeker: &Seeker,
    leg: &TgsLeg,
    shown: Grant,
    draw: &Draw,
) -> Result<Turn<InitPhase, InitDone>, Cause>
    requires seeker { CanSeek seeker.now }
    requires rep { IsSendable shown.rep }
    requires moment { draw.now.moment ≤ last_moment }
    ensures step { Answers (Arrives seeker.now leg.now shown draw.now) result }
    ensures down { IfOk result (λ turn. GoesDown IsAtTgs turns_left (9 - leg.now.hops) turn) }
{
    let Grant {
        suite,
        key,
        rep,
        ..
    } = shown;
    let done = show_ticket(alloc, &seeker.errand, suite, key, rep, &leg.home, draw)?;
    end(done)
}

/// Returns the realm of a referral; None if the ticket is the service's.
fn referral_in(
    alloc: Global,
    rules: Rules,
    target: &Name,
    shown: &Grant,
) -> Result<Option<Name>, OutOfMemory>
    ensures realm { IfOk result (λ realm. realm ≡ referral_of rules target.now shown.now.facts shown.now.rep) }
    ensures short { IfOk result (λ realm. IfSome realm (λ (r : List ℕ). length r ≤ 2 ^ 24)) }
{
    match referral_of(rules, target, &shown.facts, &shown.rep) {
        None => Ok(None),
        Some(realm) => Ok(Some(short_name(alloc, realm)?)),
    }
}

/// Follows a referral or shows the ticket to the service, after a TGS-REP was decrypted.
fn go_to(
    alloc: Global,
    seeker: &Seeker,
    leg: &TgsLeg,
    shown: Grant,
    draw: &Draw,
) -> Result<Turn<InitPhase, InitDone>, Cause>
    requires seeker { CanSeek seeker.now }
    requires rep { IsSendable shown.rep }
    requires moment { draw.now.moment ≤ last_moment }
    ensures step { Answers (GoesTo (referral_of seeker.now.asker.rules seeker.now.wanted.target shown.facts shown.rep)
        seeker.now leg.now shown draw.now) result }
    ensures down { IfOk result (λ turn. GoesDown IsAtTgs turns_left (9 - leg.now.hops) turn) }
{
    let rules = seeker.asker.rules;
    let referral = referral_in(alloc, rules, &seeker.wanted.target, &shown)?;
    match referral {
        None => arrive(alloc, seeker, leg, shown, draw),
        Some(realm) => refer(alloc, seeker, leg, &realm, shown, draw),
    }
}

/// Handles a reply of a ticket-granting service and returns the next turn.
#[tactic(auto, unfolding(crate::specs::InitSteps::TakesNext))]
pub(crate) fn take_next(
    alloc: Global,
    seeker: &Seeker,
    leg: &TgsLeg,
    reply: Result<Octets, NetFault>,
    draw: &Draw,
) -> Result<Turn<InitPhase, InitDone>, Cause>
    requires seeker { CanSeek seeker.now }
    requires moment { draw.now.moment ≤ last_moment }
    ensures step { Answers (TakesNext seeker.now leg.now reply draw.now) result }
    ensures down { IfOk result (λ turn. GoesDown IsAtTgs turns_left (9 - leg.now.hops) turn) }
{
    let rules = seeker.asker.rules;
    let shown = take_tgs_rep(
        alloc,
        rules,
        &seeker.wanted.target,
        &leg.question,
        draw.moment,
        &leg.kdc,
        leg.suite,
        &leg.key,
        reply,
    )?;
    go_to(alloc, seeker, leg, shown, draw)
}
