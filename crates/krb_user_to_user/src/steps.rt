//! The steps in which a service fetches its ticket.

ghost use Rattle.std.specs.Prelude.{◌≡◌, ℕ, ◌≤◌, ◌^◌, IfOk, Some, length};
ghost use Rattle.sspi_core.specs.Moments.{last_moment};
ghost use Rattle.sspi_core.specs.Checks.{Answers};
ghost use Rattle.krb_exchange.specs.Layouts.{kdc_req_body_layout};
ghost use Rattle.krb_requests.specs.Pieces.{Fits};
ghost use Rattle.krb_as.specs.AsPhases.{BeginsWithin, TakesReplyWithin, EndsSendable, IsAwaiting as AwaitsReply, turns_left as as_turns};
ghost use Rattle.krb_as.specs.Clients.{IsShort};
ghost use Rattle.krb_as.specs.Granted.{IsSendable};
ghost use Rattle.krb_as.specs.Turns.{Within, GoesDown};
ghost use Rattle.krb_user_to_user.specs.declared.steps.AcceptPhase.TheVariants as phases;
ghost use Rattle.krb_user_to_user.specs.AcceptSteps.{body_of, done_of, EndsWithTicket};
ghost use Rattle.krb_user_to_user.specs.AcceptRuns.{IsAwaiting, turns_left};

use crate::request::Acceptor;
use crate::tgt_rep::token_of;
use bitflags::Flags;
use krb_as::{
    AsPhase, Asker, Client, FirstService, Grant, InitDone, Turn, begin_exchange, first_body,
    take_reply,
};
use krb_context::{ContextChange, KerberosState};
use krb_der::{Name, Octets, OutOfMemory, Text, TryCopy};
use krb_exchange::{KdcRep, KdcReqBody};
use sspi_core::{Cause, ClientRequestFlags, Draw, SecurityStatus};
use sspi_generator::NetFault;
use std::alloc::Global;

/// The phase of the exchange.
#[derive(Drop)]
pub enum AcceptPhase {
    /// The exchange has not started; its first request is for this client.
    New(Client),
    /// The AS exchange waits for a reply.
    InAsExchange(AsPhase),
    Over,
}

/// Returns the body of the request: a request for a ticket for the ticket-granting service.
fn body_of(alloc: Global, client: &Client, draw: &Draw) -> Result<KdcReqBody, OutOfMemory>
    requires client { IsShort client.now }
    requires moment { draw.now.moment ≤ last_moment }
    ensures made { IfOk result (λ body. body ≡ body_of client.now draw.now) }
    ensures fits { IfOk result (λ body. Fits kdc_req_body_layout (2 ^ 28) body) }
{
    let flags = ClientRequestFlags::empty();
    first_body(alloc, client, FirstService::TicketGranting, flags, draw)
}

/// Returns the turn with the first request, with this body.
#[tactic(auto, unfolding(krb_as::specs::AsPhases::BeginsWithin))]
fn ask_for(
    alloc: Global,
    asker: &Asker,
    body: KdcReqBody,
) -> Result<Turn<AcceptPhase, InitDone>, Cause>
    requires body { Fits kdc_req_body_layout (2 ^ 28) body }
    requires realm { length asker.now.realm ≤ 2 ^ 24 }
    ensures step { Answers (BeginsWithin phases.InAsExchange asker.now body) result }
    ensures down { IfOk result (λ turn. GoesDown (IsAwaiting asker.now) turns_left 2 turn) }
{
    let (request, phase) = begin_exchange(alloc, asker, body)?;
    Ok(Turn::Asks(request, AcceptPhase::InAsExchange(phase)))
}

/// Returns the first turn: the start of the AS exchange.
pub(crate) fn ask_first(
    alloc: Global,
    asker: &Asker,
    client: &Client,
    draw: &Draw,
) -> Result<Turn<AcceptPhase, InitDone>, Cause>
    requires client { IsShort client.now }
    requires moment { draw.now.moment ≤ last_moment }
    requires realm { length asker.now.realm ≤ 2 ^ 24 }
    ensures step { Answers (BeginsWithin phases.InAsExchange asker.now (body_of client.now draw.now)) result }
    ensures down { IfOk result (λ turn. GoesDown (IsAwaiting asker.now) turns_left 2 turn) }
{
    let body = body_of(alloc, client, draw)?;
    ask_for(alloc, asker, body)
}

fn text_of(alloc: Global, name: &Name) -> Result<Text, OutOfMemory>
    ensures { IfOk result (λ text. text ≡ name.now) }
{
    Text::from_str(alloc, name.as_str())
}

/// Returns the result of the exchange.
#[tactic(auto, unfolding(crate::specs::AcceptSteps::done_of))]
fn done_of(alloc: Global, acceptor: &Acceptor, grant: Grant) -> Result<InitDone, OutOfMemory>
    requires { IsSendable grant.rep }
    ensures { IfOk result (λ done. done ≡ done_of acceptor.now grant) }
{
    let Grant {
        suite,
        key,
        rep,
        ..
    } = grant;
    let KdcRep { crealm, ticket, .. } = rep;
    let realm = text_of(alloc, &crealm)?;
    let encryption_params = acceptor.params.copy_for(alloc, suite)?;
    let token = token_of(alloc, acceptor.dce, ticket)?;
    Ok(InitDone {
        status: SecurityStatus::ContinueNeeded,
        token,
        change: ContextChange {
            state: KerberosState::Preauthentication,
            realm: Some(realm),
            encryption_params,
            seq_number: acceptor.number,
            krb5_user_to_user: true,
            asked_at: None,
            ticket_decryption_key: Some(key),
        },
    })
}

/// Returns the turn of this exchange for a turn of the AS exchange.
fn behind_turn(
    alloc: Global,
    acceptor: &Acceptor,
    turn: Turn<AsPhase, Grant>,
) -> Result<Turn<AcceptPhase, InitDone>, Cause>
    requires sendable { EndsSendable turn }
    ensures step { Answers (Within phases.InAsExchange (EndsWithTicket acceptor.now) turn) result }
    ensures down { (turns : ℕ) → GoesDown (AwaitsReply acceptor.now.asker) as_turns turns turn
        → IfOk result (λ made. GoesDown (IsAwaiting acceptor.now.asker) turns_left turns made) }
{
    match turn {
        Turn::Asks(request, phase) => { Ok(Turn::Asks(request, AcceptPhase::InAsExchange(phase))) }
        Turn::Ends(grant) => Ok(Turn::Ends(done_of(alloc, acceptor, grant)?)),
    }
}

/// Handles a reply of the AS exchange and returns the next turn.
#[tactic(auto, unfolding(krb_as::specs::AsPhases::TakesReplyWithin))]
pub(crate) fn take_as_reply(
    alloc: Global,
    acceptor: &Acceptor,
    phase: &AsPhase,
    reply: Result<Octets, NetFault>,
    draw: &Draw,
) -> Result<Turn<AcceptPhase, InitDone>, Cause>
    requires awaiting { AwaitsReply acceptor.now.asker phase.now }
    requires moment { draw.now.moment ≤ last_moment }
    ensures step { Answers (TakesReplyWithin phases.InAsExchange (EndsWithTicket acceptor.now) acceptor.now.asker phase.now reply draw.now) result }
    ensures down { IfOk result (λ turn. GoesDown (IsAwaiting acceptor.now.asker) turns_left (as_turns phase.now) turn) }
{
    let turn = take_reply(alloc, &acceptor.asker, phase, reply, draw)?;
    behind_turn(alloc, acceptor, turn)
}
