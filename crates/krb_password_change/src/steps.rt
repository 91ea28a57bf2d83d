//! The steps in which a password is changed, up to the request for the new one.

ghost use Rattle.std.specs.Prelude.{◌≡◌, ℕ, ◌+◌, ◌==◌, ◌≤◌, ◌^◌, IfOk, length};
ghost use Rattle.krb_crypto.specs.Suite.{key_size};
ghost use Rattle.sspi_core.specs.Moments.{last_moment};
ghost use Rattle.sspi_core.specs.declared.cause.Cause.TheVariants as causes;
ghost use Rattle.sspi_core.specs.Checks.{Answers, Gives, Holds};
ghost use Rattle.krb_exchange.specs.Layouts.{kdc_req_body_layout};
ghost use Rattle.krb_requests.specs.Pieces.{Fits};
ghost use Rattle.krb_as.specs.declared.turn.Turn.TheVariants as turns;
ghost use Rattle.krb_as.specs.AsPhases.{BeginsWithin, TakesReplyWithin, EndsSendable, kdc_of, IsAwaiting as AwaitsReply, turns_left as as_turns};
ghost use Rattle.krb_as.specs.Clients.{IsShort};
ghost use Rattle.krb_as.specs.Granted.{IsSendable};
ghost use Rattle.krb_as.specs.Turns.{Within, GoesDown};
ghost use Rattle.krb_password_change.specs.declared.phase.ChangePhase.TheVariants as phases;
ghost use Rattle.krb_password_change.specs.Changes.{IsReady};
ghost use Rattle.krb_password_change.specs.Requested.{change_request};
ghost use Rattle.krb_password_change.specs.ChangeSteps.{body_of, answer_leg, AsksChange};
ghost use Rattle.krb_password_change.specs.ChangeRuns.{IsAwaiting, turns_left};

use crate::change::Changer;
use crate::phase::{AnswerLeg, ChangePhase};
use crate::port::password_kdc;
use crate::request::change_request;
use bitflags::Flags;
use krb_as::{
    AsPhase, Asker, Client, FirstService, Grant, Kdc, Turn, begin_exchange, first_body, take_reply,
};
use krb_context::{ContextChange, drawn_secret};
use krb_der::{Octets, OutOfMemory, TryCopy};
use krb_exchange::KdcReqBody;
use sspi_core::{Cause, ClientRequestFlags, Draw, hold};
use sspi_generator::NetFault;
use std::alloc::Global;

/// Returns the body of the first request: for a ticket to the service that changes passwords.
fn body_of(alloc: Global, client: &Client, draw: &Draw) -> Result<KdcReqBody, OutOfMemory>
    requires client { IsShort client.now }
    requires moment { draw.now.moment ≤ last_moment }
    ensures made { IfOk result (λ body. body ≡ body_of client.now draw.now) }
    ensures fits { IfOk result (λ body. Fits kdc_req_body_layout (2 ^ 28) body) }
{
    let flags = ClientRequestFlags::empty();
    first_body(alloc, client, FirstService::PasswordChange, flags, draw)
}

/// Asks the AS for the first time, with this body.
#[tactic(auto, unfolding(krb_as::specs::AsPhases::BeginsWithin))]
fn ask_for(
    alloc: Global,
    asker: &Asker,
    body: KdcReqBody,
) -> Result<Turn<ChangePhase, ContextChange>, Cause>
    requires body { Fits kdc_req_body_layout (2 ^ 28) body }
    requires realm { length asker.now.realm ≤ 2 ^ 24 }
    ensures step { Answers (BeginsWithin phases.InAsExchange asker.now body) result }
    ensures down { IfOk result (λ turn. GoesDown (IsAwaiting asker.now) turns_left 3 turn) }
{
    let (request, phase) = begin_exchange(alloc, asker, body)?;
    Ok(Turn::Asks(request, ChangePhase::InAsExchange(phase)))
}

/// Starts the AS exchange.
pub(crate) fn ask_first(
    alloc: Global,
    changer: &Changer,
    draw: &Draw,
) -> Result<Turn<ChangePhase, ContextChange>, Cause>
    requires changer { IsReady changer.now }
    requires moment { draw.now.moment ≤ last_moment }
    ensures step { Answers (BeginsWithin phases.InAsExchange changer.now.asker (body_of changer.now.client draw.now)) result }
    ensures down { IfOk result (λ turn. GoesDown (IsAwaiting changer.now.asker) turns_left 3 turn) }
{
    let body = body_of(alloc, &changer.client, draw)?;
    ask_for(alloc, &changer.asker, body)
}

fn check_key(grant: &Grant) -> Result<(), Cause>
    ensures { Holds causes.KeyLength (length grant.now.key == key_size grant.now.suite) result }
{
    let is_sized = grant.key.as_ref().as_slice().len() == grant.suite.key_size();
    hold(is_sized, Cause::KeyLength)
}

/// Returns the data with which the answer to the new password will be checked.
fn answer_leg(
    alloc: Global,
    grant: &Grant,
    service: &Kdc,
    draw: &Draw,
) -> Result<AnswerLeg, OutOfMemory>
    ensures { IfOk result (λ leg. leg ≡ answer_leg grant.now service.now draw.now) }
{
    let realm = grant.rep.crealm.copy(alloc)?;
    let subkey = drawn_secret(alloc, grant.suite, draw)?;
    Ok(AnswerLeg {
        protocol: service.protocol,
        suite: grant.suite,
        subkey,
        realm,
    })
}

/// Sends the new password.
fn sent_change(
    alloc: Global,
    changer: &Changer,
    grant: &Grant,
    service: &Kdc,
    draw: &Draw,
) -> Result<Turn<ChangePhase, ContextChange>, Cause>
    requires changer { IsReady changer.now }
    requires rep { IsSendable grant.now.rep }
    requires realm { length service.now.realm ≤ 2 ^ 24 }
    requires moment { draw.now.moment ≤ last_moment }
    ensures step { Answers (Gives (turns.Asks (change_request changer.now grant.now service.now draw.now)
        (phases.AwaitsAnswer (answer_leg grant.now service.now draw.now)))) result }
    ensures down { (turns : ℕ) → IfOk result (λ turn. GoesDown (IsAwaiting changer.now.asker) turns_left (turns + 1) turn) }
{
    let request = change_request(alloc, changer, grant, service, draw)?;
    let leg = answer_leg(alloc, grant, service, draw)?;
    Ok(Turn::Asks(request, ChangePhase::AwaitsAnswer(leg)))
}

/// Asks the service next to the KDC for the change to the new password, with this ticket.
#[tactic(auto, unfolding(crate::specs::ChangeSteps::AsksChange))]
fn ask_change(
    alloc: Global,
    changer: &Changer,
    kdc: &Kdc,
    grant: &Grant,
    draw: &Draw,
) -> Result<Turn<ChangePhase, ContextChange>, Cause>
    requires changer { IsReady changer.now }
    requires rep { IsSendable grant.now.rep }
    requires realm { length kdc.now.realm ≤ 2 ^ 24 }
    requires moment { draw.now.moment ≤ last_moment }
    ensures step { Answers (AsksChange changer.now kdc.now draw.now grant.now) result }
    ensures down { (turns : ℕ) → IfOk result (λ turn. GoesDown (IsAwaiting changer.now.asker) turns_left (turns + 1) turn) }
{
    check_key(grant)?;
    let service = password_kdc(alloc, kdc)?;
    sent_change(alloc, changer, grant, &service, draw)
}

/// Returns the turn of the exchange after a turn of the AS exchange.
fn behind_turn(
    alloc: Global,
    changer: &Changer,
    kdc: &Kdc,
    turn: Turn<AsPhase, Grant>,
    draw: &Draw,
) -> Result<Turn<ChangePhase, ContextChange>, Cause>
    requires changer { IsReady changer.now }
    requires sendable { EndsSendable turn }
    requires realm { length kdc.now.realm ≤ 2 ^ 24 }
    requires moment { draw.now.moment ≤ last_moment }
    ensures step { Answers (Within phases.InAsExchange (AsksChange changer.now kdc.now draw.now) turn) result }
    ensures down { (turns : ℕ) → GoesDown (AwaitsReply changer.now.asker) as_turns turns turn
        → IfOk result (λ made. GoesDown (IsAwaiting changer.now.asker) turns_left (turns + 1) made) }
{
    match turn {
        Turn::Asks(request, phase) => { Ok(Turn::Asks(request, ChangePhase::InAsExchange(phase))) }
        Turn::Ends(grant) => ask_change(alloc, changer, kdc, &grant, draw),
    }
}

/// Handles a reply of the AS exchange and returns the next turn.
#[tactic(auto, unfolding(krb_as::specs::AsPhases::TakesReplyWithin))]
pub(crate) fn take_as_reply(
    alloc: Global,
    changer: &Changer,
    phase: &AsPhase,
    reply: Result<Octets, NetFault>,
    draw: &Draw,
) -> Result<Turn<ChangePhase, ContextChange>, Cause>
    requires changer { IsReady changer.now }
    requires awaiting { AwaitsReply changer.now.asker phase.now }
    requires moment { draw.now.moment ≤ last_moment }
    ensures step { Answers (TakesReplyWithin phases.InAsExchange (AsksChange changer.now (kdc_of phase.now) draw.now) changer.now.asker phase.now reply draw.now) result }
    ensures down { IfOk result (λ turn. GoesDown (IsAwaiting changer.now.asker) turns_left (as_turns phase.now + 1) turn) }
{
    let turn = take_reply(alloc, &changer.asker, phase, reply, draw)?;
    behind_turn(alloc, changer, phase.kdc(), turn, draw)
}
