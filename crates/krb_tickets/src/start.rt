//! The start of an initiator that has a ticket.

ghost use Rattle.std.specs.Prelude.{◌≡◌, ◌≤◌, ◌^◌, length, IfOk, IfErr, IfSome, List, ℕ};
ghost use Rattle.sspi_core.specs.Moments.{last_moment};
ghost use Rattle.sspi_core.specs.Checks.{Answers, Gives};
ghost use Rattle.krb_as.specs.Granted.{IsSendable};
ghost use Rattle.krb_ap.specs.Shown.{ShowsTicket};
ghost use Rattle.krb_tgs.specs.Fresh.{referral_of};
ghost use Rattle.krb_tgs.specs.TgsAsked.{AsksTgs};
ghost use Rattle.krb_initiator.specs.declared.seeker.Initiation.TheVariants as initiations;
ghost use Rattle.krb_initiator.specs.Tgts.{first_tickets};
ghost use Rattle.krb_initiator.specs.Seekers.{CanSeek};
ghost use Rattle.krb_initiator.specs.InitSteps.{leg_of};
ghost use Rattle.krb_initiator.specs.InitRuns.{IsWaiting, turns_left};
ghost use Rattle.krb_tickets.specs.Steps.{AsksWithHeld, ShowsHeld, GoesWith, StartsHeld, answer_of, OnAsked, IsNetwork};

use crate::held::{HeldTicket, copied};
use krb_ap::show_ticket;
use krb_as::{Grant, InitDone, Turn, short_name};
use krb_der::{Name, OutOfMemory, TryCopy};
use krb_initiator::{InitRun, Seeker, TgsLeg, first_tickets, question_of};
use krb_tgs::{Begun, ask_tgs, referral_of};
use sspi_core::{Cause, Draw};
use sspi_generator::NetworkRequest;
use std::alloc::Global;

/// Returns the realm whose ticket-granting service the ticket is for; None if it is for the target.
fn referral_in(alloc: Global, seeker: &Seeker, held: &Grant) -> Result<Option<Name>, OutOfMemory>
    ensures realm { IfOk result (λ realm. realm ≡ referral_of seeker.now.asker.rules seeker.now.wanted.target held.now.facts held.now.rep) }
    ensures short { IfOk result (λ realm. IfSome realm (λ (r : List ℕ). length r ≤ 2 ^ 24)) }
{
    let rules = seeker.asker.rules;
    match referral_of(rules, &seeker.wanted.target, &held.facts, &held.rep) {
        None => Ok(None),
        Some(realm) => Ok(Some(short_name(alloc, realm)?)),
    }
}

/// Returns the request to the ticket-granting service of a realm.
fn begin_with(
    alloc: Global,
    seeker: &Seeker,
    realm: &Name,
    held: &Grant,
    draw: &Draw,
) -> Result<Begun, Cause>
    requires seeker { CanSeek seeker.now }
    requires realm { length realm.now ≤ 2 ^ 24 }
    requires rep { IsSendable held.now.rep }
    requires moment { draw.now.moment ≤ last_moment }
    ensures { Answers (AsksTgs seeker.now.asker seeker.now.wanted held.now held.now.rep.crealm realm.now
        (first_tickets seeker.now.tgt) draw.now) result }
{
    let tickets = first_tickets(alloc, &seeker.tgt)?;
    let home = &held.rep.crealm;
    ask_tgs(
        alloc,
        &seeker.asker,
        &seeker.wanted,
        held,
        home,
        realm,
        tickets,
        draw,
    )
}

/// Returns the request, and what awaits its reply.
fn sent(
    alloc: Global,
    begun: Begun,
    held: Grant,
    draw: &Draw,
) -> Result<(NetworkRequest, TgsLeg), Cause>
    ensures { Answers (Gives (begun.request, leg_of begun.kdc held held.rep.crealm draw.now 0)) result }
{
    let home = held.rep.crealm.copy(alloc)?;
    let Begun { request, kdc } = begun;
    let Grant {
        suite,
        key,
        rep,
        ..
    } = held;
    let leg = TgsLeg {
        kdc,
        suite,
        key,
        home,
        question: question_of(rep, draw),
        hops: 0,
    };
    Ok((request, leg))
}

/// Shows the ticket to the ticket-granting service of a realm.
#[tactic(auto, unfolding(crate::specs::Steps::AsksWithHeld))]
fn ask_with(
    alloc: Global,
    seeker: Box<Seeker>,
    realm: &Name,
    held: Grant,
    draw: &Draw,
) -> Result<Turn<InitRun, InitDone>, Cause>
    requires seeker { CanSeek seeker.value }
    requires realm { length realm.now ≤ 2 ^ 24 }
    requires rep { IsSendable held.rep }
    requires moment { draw.now.moment ≤ last_moment }
    ensures step { Answers (AsksWithHeld seeker.value realm.now held draw.now) (answer_of result) }
    ensures run { IfOk result (λ turn. OnAsked turn (λ run. run.initiation ≡ initiations.Seeks seeker.value)) }
    ensures waiting { IfOk result (λ turn. OnAsked turn IsWaiting) }
    ensures turns { IfOk result (λ turn. OnAsked turn (λ run. turns_left run.phase ≡ 9)) }
{
    let begun = begin_with(alloc, &seeker, realm, &held, draw)?;
    let (request, leg) = sent(alloc, begun, held, draw)?;
    let seeker = Box::into_inner(seeker);
    Ok(Turn::Asks(request, InitRun::awaiting(alloc, seeker, leg)))
}

/// Returns the end of an exchange in which the ticket is shown to the service.
fn shown_to(alloc: Global, seeker: &Seeker, held: Grant, draw: &Draw) -> Result<InitDone, Cause>
    requires seeker { CanSeek seeker.now }
    requires rep { IsSendable held.rep }
    requires moment { draw.now.moment ≤ last_moment }
    ensures { Answers (ShowsTicket seeker.now.errand held.suite held.key held.rep held.rep.crealm draw.now) result }
{
    let Grant {
        suite,
        key,
        rep,
        ..
    } = held;
    let home = rep.crealm.copy(alloc)?;
    show_ticket(alloc, &seeker.errand, suite, key, rep, &home, draw)
}

/// Shows the ticket to the service.
#[tactic(auto, unfolding(crate::specs::Steps::ShowsHeld))]
fn show_held(
    alloc: Global,
    seeker: &Seeker,
    held: Grant,
    draw: &Draw,
) -> Result<Turn<InitRun, InitDone>, Cause>
    requires seeker { CanSeek seeker.now }
    requires rep { IsSendable held.rep }
    requires moment { draw.now.moment ≤ last_moment }
    ensures step { Answers (ShowsHeld seeker.now held draw.now) (answer_of result) }
    ensures ends { IfOk result (λ turn. OnAsked turn (λ run. ⊥)) }
{
    let done = shown_to(alloc, seeker, held, draw)?;
    Ok(Turn::Ends(done))
}

/// Goes where the ticket is for.
fn go_with(
    alloc: Global,
    seeker: Box<Seeker>,
    held: Grant,
    draw: &Draw,
) -> Result<Turn<InitRun, InitDone>, Cause>
    requires seeker { CanSeek seeker.value }
    requires rep { IsSendable held.rep }
    requires moment { draw.now.moment ≤ last_moment }
    ensures step { Answers (StartsHeld seeker.value held draw.now) (answer_of result) }
    ensures run { IfOk result (λ turn. OnAsked turn (λ run. run.initiation ≡ initiations.Seeks seeker.value)) }
    ensures waiting { IfOk result (λ turn. OnAsked turn IsWaiting) }
    ensures turns { IfOk result (λ turn. OnAsked turn (λ run. turns_left run.phase ≡ 9)) }
{
    match referral_in(alloc, &seeker, &held)? {
        None => show_held(alloc, &seeker, held, draw),
        Some(realm) => ask_with(alloc, seeker, &realm, held, draw),
    }
}

/// Begins an initiation with a ticket that the client has. A ticket for the target is shown to the service at once, which ends the exchange;
/// one for a ticket-granting service is shown to the KDC of that realm, and the run that is returned awaits its reply. In the first request
/// the service's own ticket goes along, if the service gave one (user-to-user).
///
/// The realm of the client is the ticket's client's. No time is checked: an expired ticket is refused by the KDC or the service.
///
/// Fails with `KeyLength` if the session key is not as long as the keys of its suite; then, if a KDC is to be asked, with `NoKdc` if the
/// realm has none, and with `Scheme` if its URL is none that is known. If memory runs out, the ticket is as it was.
pub fn start_held(
    alloc: Global,
    seeker: Box<Seeker>,
    held: &HeldTicket,
    draw: &Draw,
) -> Result<Turn<InitRun, InitDone>, Cause>
    requires seeker { CanSeek seeker.value }
    requires moment { draw.now.moment ≤ last_moment }
    ensures step { Answers (StartsHeld seeker.value held.now draw.now) (answer_of result) }
    // The run fetches the ticket of the same target, for the same context.
    ensures run { IfOk result (λ turn. OnAsked turn (λ run. run.initiation ≡ initiations.Seeks seeker.value)) }
    ensures waiting { IfOk result (λ turn. OnAsked turn IsWaiting) }
    // It asks nine times more at most.
    ensures turns { IfOk result (λ turn. OnAsked turn (λ run. turns_left run.phase ≡ 9)) }
    // No refusal is one of the network.
    ensures fault { IfErr result (λ cause. IsNetwork cause → ⊥) }
{
    let shown = copied(alloc, held.as_grant())?;
    go_with(alloc, seeker, shown, draw)
}
