//! The AS exchange (RFC 4120, section 3.1).

ghost use Rattle.std.specs.Prelude.{◌≡◌, ℕ, ◌≤◌, ◌^◌, true, IfOk, length, Err};
ghost use Rattle.sspi_core.specs.declared.cause.Cause.TheVariants as causes;
ghost use Rattle.sspi_core.specs.Moments.{last_moment};
ghost use Rattle.sspi_core.specs.Checks.{Answers};
ghost use Rattle.krb_exchange.specs.Layouts.{kdc_req_body_layout};
ghost use Rattle.krb_requests.specs.Pieces.{Fits};
ghost use Rattle.krb_as.specs.declared.as_exchange.ExchangePhase.TheVariants as phases;
ghost use Rattle.krb_as.specs.declared.asker.Asker.{Asker};
ghost use Rattle.krb_as.specs.Askers.{asker_of, default_salt};
ghost use Rattle.krb_as.specs.Replied.{TakesEarly, TakesEither, TakesFirst};
ghost use Rattle.krb_as.specs.Turns.{is_want, GoesDown};
ghost use Rattle.krb_as.specs.AsPhases.{BeginsWithin, AsksSecond};
ghost use Rattle.krb_as.specs.AsExchanges.{end_in, EndsWith, LeavesEarly, EndsWithAsRep, Starts, Next, IsNewPhase, IsAwaiting, turns_left, IsNew, StartsAt, ResumesAt};

use crate::as_phase::{AsPhase, begin_exchange, seal_time};
use crate::asker::{Asker, default_salt};
use crate::kdc::Kdc;
use crate::key::SealedTime;
use crate::reply::{check_early, first_reply, granted_as_rep};
use crate::turn::{Turn, go_on, is_want};
use krb_conf::Env;
use krb_context::Kerberos;
use krb_der::{Name, Octets, OutOfMemory, Text, TryCopy};
use krb_exchange::{AsRep, KdcReqBody, KrbError, KrbResult};
use sspi_core::{Cause, CredentialsBuffers, Draw, Error};
use sspi_generator::{GeneratorState, NetFault, NetworkRequest, Resumable, Task};
use std::alloc::Global;

/// The state of the exchange.
#[derive(Drop)]
pub enum ExchangePhase {
    /// Not started, with the body of the first request.
    New(KdcReqBody),
    /// Waiting for a reply.
    InAsExchange(AsPhase),
    Over,
}

/// The result of the exchange.
#[derive(Drop)]
pub struct AsDone {
    pub as_rep: AsRep,
    /// The salt that was used.
    pub salt: Text,
}

/// The AS exchange: a request without pre-authentication, whose error may name the salt, and one with it. If the rules allow an
/// exchange without pre-authentication, the answer to the first request may be the AS-REP.
#[derive(Drop)]
pub struct AsExchange {
    alloc: Global,
    asker: Asker,
    phase: ExchangePhase,
}

impl AsExchange {
    /// Makes an exchange with the KDC of a realm: at the client's own URL if it has one, otherwise where `detect_kdc_url` finds it.
    /// The body is one that can be sent, as `generate_as_req_kdc_body` makes it of texts that are not too long.
    pub fn new(
        alloc: Global,
        client: &Kerberos,
        body: KdcReqBody,
        credentials: CredentialsBuffers,
        realm: Name,
        env: Env,
    ) -> Result<AsExchange, OutOfMemory>
        requires body { Fits kdc_req_body_layout (2 ^ 28) body }
        requires realm { length realm ≤ 2 ^ 24 }
        ensures new { IfOk result (λ exchange. IsNew exchange) }
        ensures asker { IfOk result (λ exchange. exchange.asker ≡ asker_of client.now credentials realm env) }
        ensures phase { IfOk result (λ exchange. exchange.phase ≡ phases.New body) }
    {
        Ok(AsExchange {
            alloc,
            asker: Asker::new(client, credentials, realm, env)?,
            phase: ExchangePhase::New(body),
        })
    }
}

/// Returns the first turn, with the first request.
#[tactic(auto, unfolding(crate::specs::AsPhases::BeginsWithin))]
fn ask_first(
    alloc: Global,
    asker: &Asker,
    body: KdcReqBody,
) -> Result<Turn<ExchangePhase, AsDone>, Cause>
    requires body { Fits kdc_req_body_layout (2 ^ 28) body }
    requires realm { length asker.now.realm ≤ 2 ^ 24 }
    ensures step { Answers (BeginsWithin phases.InAsExchange asker.now body) result }
    ensures down { IfOk result (λ turn. GoesDown (IsAwaiting asker.now) turns_left 2 turn) }
{
    let (request, phase) = begin_exchange(alloc, asker, body)?;
    Ok(Turn::Asks(request, ExchangePhase::InAsExchange(phase)))
}

/// Returns the first turn of an exchange whose phase is new.
fn started(
    alloc: Global,
    asker: &Asker,
    phase: &ExchangePhase,
) -> Result<Turn<ExchangePhase, AsDone>, Cause>
    requires new { IsNewPhase phase.now }
    requires realm { length asker.now.realm ≤ 2 ^ 24 }
    ensures step { Answers (Starts asker.now phase.now) result }
    ensures down { IfOk result (λ turn. GoesDown (IsAwaiting asker.now) turns_left (turns_left phase.now) turn) }
{
    match phase {
        ExchangePhase::New(body) => {
            let body = body.copy(alloc)?;
            ask_first(alloc, asker, body)
        }
        ExchangePhase::InAsExchange(_) | ExchangePhase::Over => unreachable!(),
    }
}

/// Returns the turn after an error.
#[tactic(auto, unfolding(crate::specs::AsPhases::AsksSecond))]
fn ask_second(
    alloc: Global,
    asker: &Asker,
    kdc: &Kdc,
    body: &KdcReqBody,
    error: &KrbError,
    draw: &Draw,
) -> Result<Turn<ExchangePhase, AsDone>, Cause>
    requires moment { draw.now.moment ≤ last_moment }
    requires body { Fits kdc_req_body_layout (2 ^ 28) body.now }
    requires realm { length kdc.now.realm ≤ 2 ^ 24 }
    ensures step { Answers (AsksSecond phases.InAsExchange asker.now kdc.now body.now draw.now error.now) result }
    ensures down { IfOk result (λ turn. GoesDown (IsAwaiting asker.now) turns_left 1 turn) }
{
    let (request, sealed) = seal_time(alloc, asker, kdc, body, error, draw)?;
    let phase = AsPhase::AwaitsAsRep(sealed);
    Ok(Turn::Asks(request, ExchangePhase::InAsExchange(phase)))
}

/// Returns the end with an AS-REP, if there is a salt.
fn end_in(salt: Result<Text, Cause>, as_rep: AsRep) -> Result<Turn<ExchangePhase, AsDone>, Cause>
    ensures step { result ≡ end_in as_rep salt }
    ensures down { (asker : Asker) (turns : ℕ) → IfOk result (λ turn. GoesDown (IsAwaiting asker) turns_left turns turn) }
{
    match salt {
        Ok(salt) => Ok(Turn::Ends(AsDone { as_rep, salt })),
        Err(cause) => Err(cause),
    }
}

/// Returns the salt of the credentials, since none was used, if an AS-REP may come at once.
#[tactic(auto, unfolding(crate::specs::AsExchanges::LeavesEarly))]
fn early_salt(alloc: Global, asker: &Asker) -> Result<Text, Cause>
    ensures { Answers (LeavesEarly asker.now.rules (default_salt asker.now.credentials)) result }
{
    check_early(asker.rules)?;
    Ok(default_salt(alloc, &asker.credentials)?)
}

/// Returns the end with an AS-REP that came at once.
fn end_early(
    alloc: Global,
    asker: &Asker,
    as_rep: AsRep,
) -> Result<Turn<ExchangePhase, AsDone>, Cause>
    ensures step { Answers (TakesEarly asker.now.rules (EndsWith (default_salt asker.now.credentials)) as_rep) result }
    ensures down { IfOk result (λ turn. GoesDown (IsAwaiting asker.now) turns_left 1 turn) }
{
    let salt = early_salt(alloc, asker);
    end_in(salt, as_rep)
}

/// Returns the turn after an error, or after an AS-REP in its place.
fn take_either(
    alloc: Global,
    asker: &Asker,
    kdc: &Kdc,
    body: &KdcReqBody,
    first: KrbResult<AsRep>,
    draw: &Draw,
) -> Result<Turn<ExchangePhase, AsDone>, Cause>
    requires moment { draw.now.moment ≤ last_moment }
    requires body { Fits kdc_req_body_layout (2 ^ 28) body.now }
    requires realm { length kdc.now.realm ≤ 2 ^ 24 }
    ensures step { Answers (TakesEither asker.now.rules (AsksSecond phases.InAsExchange asker.now kdc.now body.now draw.now)
        (EndsWith (default_salt asker.now.credentials)) first) result }
    ensures down { IfOk result (λ turn. GoesDown (IsAwaiting asker.now) turns_left 1 turn) }
{
    match first {
        KrbResult::Err(error) => ask_second(alloc, asker, kdc, body, &error, draw),
        KrbResult::Ok(as_rep) => end_early(alloc, asker, as_rep),
    }
}

/// Returns the turn after the first reply.
#[tactic(auto, unfolding(crate::specs::Replied::TakesFirst))]
fn take_first(
    alloc: Global,
    asker: &Asker,
    kdc: &Kdc,
    body: &KdcReqBody,
    reply: Result<Octets, NetFault>,
    draw: &Draw,
) -> Result<Turn<ExchangePhase, AsDone>, Cause>
    requires moment { draw.now.moment ≤ last_moment }
    requires body { Fits kdc_req_body_layout (2 ^ 28) body.now }
    requires realm { length kdc.now.realm ≤ 2 ^ 24 }
    ensures step { Answers (TakesFirst asker.now.rules kdc.now.protocol (AsksSecond phases.InAsExchange asker.now kdc.now body.now draw.now)
        (EndsWith (default_salt asker.now.credentials)) reply) result }
    ensures down { IfOk result (λ turn. GoesDown (IsAwaiting asker.now) turns_left 1 turn) }
{
    let first = first_reply(alloc, kdc.protocol, reply)?;
    take_either(alloc, asker, kdc, body, first, draw)
}

/// Returns the turn after the second reply.
#[tactic(auto, unfolding(crate::specs::AsExchanges::EndsWithAsRep))]
fn take_as_rep(
    alloc: Global,
    sealed: &SealedTime,
    reply: Result<Octets, NetFault>,
) -> Result<Turn<ExchangePhase, AsDone>, Cause>
    ensures step { Answers (EndsWithAsRep sealed.now.kdc.protocol sealed.now.salt reply) result }
    ensures down { (asker : Asker) (turns : ℕ) → IfOk result (λ turn. GoesDown (IsAwaiting asker) turns_left turns turn) }
{
    let salt = sealed.salt.copy(alloc)?;
    let as_rep = granted_as_rep(alloc, sealed.kdc.protocol, reply)?;
    Ok(Turn::Ends(AsDone { as_rep, salt }))
}

/// Returns the turn after an answer, in a phase that awaits one.
fn in_phase(
    alloc: Global,
    asker: &Asker,
    phase: &ExchangePhase,
    reply: Result<Octets, NetFault>,
    draw: &Draw,
) -> Result<Turn<ExchangePhase, AsDone>, Cause>
    requires awaiting { IsAwaiting asker.now phase.now }
    requires moment { draw.now.moment ≤ last_moment }
    ensures step { Answers (Next asker.now phase.now reply draw.now) result }
    ensures down { IfOk result (λ turn. GoesDown (IsAwaiting asker.now) turns_left (turns_left phase.now) turn) }
{
    match phase {
        ExchangePhase::InAsExchange(AsPhase::AwaitsError(kdc, body)) => {
            take_first(alloc, asker, kdc, body, reply, draw)
        }
        ExchangePhase::InAsExchange(AsPhase::AwaitsAsRep(sealed)) => {
            take_as_rep(alloc, sealed, reply)
        }
        ExchangePhase::New(_) | ExchangePhase::Over => unreachable!(),
    }
}

/// Returns the turn after an answer. Fails with `Memory` if the network client ran out of memory.
fn next(
    alloc: Global,
    asker: &Asker,
    phase: &ExchangePhase,
    reply: Result<Octets, NetFault>,
    draw: &Draw,
) -> Result<Turn<ExchangePhase, AsDone>, Cause>
    requires awaiting { IsAwaiting asker.now phase.now }
    requires moment { draw.now.moment ≤ last_moment }
    ensures step { Answers (Next asker.now phase.now reply draw.now) result }
    ensures down { IfOk result (λ turn. GoesDown (IsAwaiting asker.now) turns_left (turns_left phase.now) turn) }
    ensures memory { is_want reply ≡ true → result ≡ Err causes.Memory }
{
    if is_want(&reply) {
        return Err(Cause::Memory);
    }
    in_phase(alloc, asker, phase, reply, draw)
}

impl Task for AsExchange {
    ghost use Rattle.krb_as.specs.Turns.{IsWant, IsFault};
    ghost use Rattle.krb_as.specs.AsExchanges.{IsNew, IsWaiting, StartsAt, turns_left};

    type Out = Result<AsDone, Error>;

    ghost turns = { λ exchange. turns_left exchange.phase };

    ghost is_new = { IsNew };

    ghost is_waiting = { IsWaiting };

    ghost starts = { StartsAt };

    ghost is_want = { IsWant };

    ghost is_fault = { IsFault };

    fn start(&mut self, _draw: &Draw) -> GeneratorState<NetworkRequest, Result<AsDone, Error>> {
        let answer = started(self.alloc, &self.asker, &self.phase);
        go_on(&mut self.phase, ExchangePhase::Over, answer)
    }

    fn turns(&self) -> u32 {
        match &self.phase {
            ExchangePhase::New(_) => 2,
            ExchangePhase::InAsExchange(phase) => phase.turns(),
            ExchangePhase::Over => 0,
        }
    }
}

impl Resumable for AsExchange {
    ghost use Rattle.krb_as.specs.AsExchanges.{ResumesAt};

    ghost resumes = { ResumesAt };

    fn resume(
        &mut self,
        reply: Result<Octets, NetFault>,
        draw: &Draw,
    ) -> GeneratorState<NetworkRequest, Result<AsDone, Error>> {
        let answer = next(self.alloc, &self.asker, &self.phase, reply, draw);
        go_on(&mut self.phase, ExchangePhase::Over, answer)
    }
}
