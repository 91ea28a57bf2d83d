//! The exchange in which a service fetches its ticket, as a task.

ghost use Rattle.std.specs.Prelude.{◌≡◌, ◌≤◌, ◌^◌, true, IfOk, length, Err, Result};
ghost use Rattle.sspi_core.specs.declared.cause.Cause.{Cause};
ghost use Rattle.sspi_core.specs.declared.cause.Cause.TheVariants as causes;
ghost use Rattle.sspi_core.specs.Moments.{last_moment};
ghost use Rattle.sspi_core.specs.Kinds.{error_of};
ghost use Rattle.sspi_core.specs.Checks.{Answers};
ghost use Rattle.krb_as.specs.Turns.{is_want, GoesDown};
ghost use Rattle.krb_user_to_user.specs.declared.request.Beginning.{Beginning};
ghost use Rattle.krb_user_to_user.specs.declared.steps.AcceptPhase.TheVariants as phases;
ghost use Rattle.krb_user_to_user.specs.TgtRequests.{is_bare, RequestsTgt, CanBegin};
ghost use Rattle.krb_user_to_user.specs.AcceptRuns.{Starts, Next, IsNewPhase, IsAwaiting, IsNew, turns_left, StartsAt, ResumesAt, BeginsSo};

use crate::request::{Acceptor, Beginning, begin_accept};
use crate::steps::{AcceptPhase, ask_first, take_as_reply};
use bitflags::Flags;
use krb_as::{InitDone, Turn, go_on, is_want};
use krb_conf::Env;
use krb_context::Kerberos;
use krb_der::Octets;
use krb_exchange::TgtReq;
use sspi_core::{Cause, CredentialsBuffers, Draw, Error, ServerRequestFlags};
use sspi_generator::{Generator, GeneratorState, NetFault, NetworkRequest, Resumable, Task};
use std::alloc::Global;

/// The exchange in which a service fetches its ticket: an AS exchange that ends with the TGT-REP to the client, and with the session
/// key of the ticket as the service's key.
#[derive(Drop)]
pub struct AcceptRun {
    alloc: Global,
    acceptor: Acceptor,
    phase: AcceptPhase,
}

/// The generator that runs an [`AcceptRun`].
pub type GeneratorAcceptSecurityContext = Generator<AcceptRun>;

impl AcceptRun {
    /// Returns the exchange with this beginning.
    pub fn new(alloc: Global, beginning: Beginning) -> AcceptRun
        requires { CanBegin beginning }
        ensures new { IsNew result }
        ensures acceptor { result.acceptor ≡ beginning.acceptor }
        ensures phase { result.phase ≡ phases.New beginning.client }
        ensures turns { turns_left result.phase ≡ 2 }
    {
        AcceptRun {
            alloc,
            acceptor: beginning.acceptor,
            phase: AcceptPhase::New(beginning.client),
        }
    }
}

/// Begins user-to-user at an acceptor, with the user that the service is.
///
/// Fails, in this order, with InvalidToken ServerName if the TGT-REQ names another service, by the type or by the components of its
/// name; with UnsupportedPreAuth KeytabUser if the user has a key and no password; with InternalError NotAscii if the user's name,
/// its realm or the machine's name is not ASCII.
pub fn request_tgt(
    alloc: Global,
    server: &Kerberos,
    credentials: &CredentialsBuffers,
    tgt_req: &TgtReq,
    flags: ServerRequestFlags,
    env: &Env,
) -> Result<AcceptRun, Error>
    ensures asked { (result ≡ Err (error_of causes.Memory) → ⊥)
        → (answer : Result Beginning Cause) × RequestsTgt server.now credentials.now tgt_req.now (is_bare flags) env.now answer × BeginsSo answer result }
    ensures new { IfOk result (λ run. IsNew run) }
    ensures turns { IfOk result (λ run. turns_left run.phase ≡ 2) }
{
    let dce = flags.contains(ServerRequestFlags::USE_DCE_STYLE);
    match begin_accept(alloc, server, credentials, tgt_req, dce, env) {
        Ok(beginning) => Ok(AcceptRun::new(alloc, beginning)),
        Err(cause) => Err(Error::from(cause)),
    }
}

/// Starts the exchange in a new phase, and returns the first turn.
fn started(
    alloc: Global,
    acceptor: &Acceptor,
    phase: &AcceptPhase,
    draw: &Draw,
) -> Result<Turn<AcceptPhase, InitDone>, Cause>
    requires new { IsNewPhase phase.now }
    requires realm { length acceptor.now.asker.realm ≤ 2 ^ 24 }
    requires moment { draw.now.moment ≤ last_moment }
    ensures step { Answers (Starts acceptor.now phase.now draw.now) result }
    ensures down { IfOk result (λ turn. GoesDown (IsAwaiting acceptor.now.asker) turns_left (turns_left phase.now) turn) }
{
    match phase {
        AcceptPhase::New(client) => ask_first(alloc, &acceptor.asker, client, draw),
        AcceptPhase::InAsExchange(_) | AcceptPhase::Over => unreachable!(),
    }
}

/// Handles a KDC reply in a phase that awaits one, and returns the next turn.
fn in_phase(
    alloc: Global,
    acceptor: &Acceptor,
    phase: &AcceptPhase,
    reply: Result<Octets, NetFault>,
    draw: &Draw,
) -> Result<Turn<AcceptPhase, InitDone>, Cause>
    requires awaiting { IsAwaiting acceptor.now.asker phase.now }
    requires moment { draw.now.moment ≤ last_moment }
    ensures step { Answers (Next acceptor.now phase.now reply draw.now) result }
    ensures down { IfOk result (λ turn. GoesDown (IsAwaiting acceptor.now.asker) turns_left (turns_left phase.now) turn) }
{
    match phase {
        AcceptPhase::InAsExchange(phase) => take_as_reply(alloc, acceptor, phase, reply, draw),
        AcceptPhase::New(_) | AcceptPhase::Over => unreachable!(),
    }
}

/// Handles a KDC reply and returns the next turn. Fails with `Memory` if the network client ran out of memory.
fn next(
    alloc: Global,
    acceptor: &Acceptor,
    phase: &AcceptPhase,
    reply: Result<Octets, NetFault>,
    draw: &Draw,
) -> Result<Turn<AcceptPhase, InitDone>, Cause>
    requires awaiting { IsAwaiting acceptor.now.asker phase.now }
    requires moment { draw.now.moment ≤ last_moment }
    ensures step { Answers (Next acceptor.now phase.now reply draw.now) result }
    ensures down { IfOk result (λ turn. GoesDown (IsAwaiting acceptor.now.asker) turns_left (turns_left phase.now) turn) }
    ensures memory { is_want reply ≡ true → result ≡ Err causes.Memory }
{
    if is_want(&reply) {
        return Err(Cause::Memory);
    }
    in_phase(alloc, acceptor, phase, reply, draw)
}

impl Task for AcceptRun {
    ghost use Rattle.krb_as.specs.Turns.{IsWant, IsFault};
    ghost use Rattle.krb_user_to_user.specs.AcceptRuns.{IsNew, IsWaiting, StartsAt, turns_left};

    type Out = Result<InitDone, Error>;

    ghost turns = { λ run. turns_left run.phase };

    ghost is_new = { IsNew };

    ghost is_waiting = { IsWaiting };

    ghost starts = { StartsAt };

    ghost is_want = { IsWant };

    ghost is_fault = { IsFault };

    fn start(&mut self, draw: &Draw) -> GeneratorState<NetworkRequest, Result<InitDone, Error>> {
        let answer = started(self.alloc, &self.acceptor, &self.phase, draw);
        go_on(&mut self.phase, AcceptPhase::Over, answer)
    }

    fn turns(&self) -> u32 {
        match &self.phase {
            AcceptPhase::New(_) => 2,
            AcceptPhase::InAsExchange(phase) => phase.turns(),
            AcceptPhase::Over => 0,
        }
    }
}

impl Resumable for AcceptRun {
    ghost use Rattle.krb_user_to_user.specs.AcceptRuns.{ResumesAt};

    ghost resumes = { ResumesAt };

    fn resume(
        &mut self,
        reply: Result<Octets, NetFault>,
        draw: &Draw,
    ) -> GeneratorState<NetworkRequest, Result<InitDone, Error>> {
        let answer = next(self.alloc, &self.acceptor, &self.phase, reply, draw);
        go_on(&mut self.phase, AcceptPhase::Over, answer)
    }
}
