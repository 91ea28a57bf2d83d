//! An initiation as a task.

ghost use Rattle.std.specs.Prelude.{◌≡◌, ◌≤◌, ◌-◌, true, IfOk, Err, Result};
ghost use Rattle.sspi_core.specs.declared.cause.Cause.{Cause};
ghost use Rattle.sspi_core.specs.declared.cause.Cause.TheVariants as causes;
ghost use Rattle.sspi_core.specs.Moments.{last_moment};
ghost use Rattle.sspi_core.specs.Kinds.{error_of};
ghost use Rattle.sspi_core.specs.Checks.{Answers};
ghost use Rattle.krb_as.specs.Turns.{is_want, GoesDown};
ghost use Rattle.krb_initiator.specs.declared.seeker.Initiation.{Initiation};
ghost use Rattle.krb_initiator.specs.declared.seeker.Initiation.TheVariants as initiations;
ghost use Rattle.krb_initiator.specs.declared.seeker.InitPhase.TheVariants as phases;
ghost use Rattle.krb_initiator.specs.Seekers.{CanBegin, CanSeek};
ghost use Rattle.krb_initiator.specs.Beginnings.{BeginsInitiation};
ghost use Rattle.krb_initiator.specs.InitRuns.{StartsNew, Starts, Continues, Next, IsNewPhase, IsSeeking, Waits, IsNew, IsWaiting, turns_left, StartsAt, ResumesAt, BeginsSo};

use crate::as_steps::{ask_first, take_as_reply};
use crate::begin::begin_initiation;
use crate::options::InitOptions;
use crate::seeker::{InitPhase, Initiation, Seeker, TgsLeg};
use crate::service_steps::{hear_answer, request};
use crate::tgs_steps::take_next;
use krb_as::{InitDone, Turn, go_on, is_want};
use krb_context::Kerberos;
use krb_der::Octets;
use sspi_core::{Cause, Draw, Error};
use sspi_generator::{Generator, GeneratorState, NetFault, NetworkRequest, Resumable, Task};
use std::alloc::Global;

/// A run of an initiator: it asks a service for the service's own ticket, or fetches a ticket from KDCs and shows it to the service,
/// or takes the service's answer.
#[derive(Drop)]
pub struct InitRun {
    alloc: Global,
    initiation: Initiation,
    phase: InitPhase,
}

/// A generator that runs an initiation.
pub type GeneratorInitSecurityContext = Generator<InitRun>;

impl InitRun {
    /// Returns the task of this initiation.
    pub fn new(alloc: Global, initiation: Initiation) -> InitRun
        requires { CanBegin initiation }
        ensures new { IsNew result }
        ensures initiation { result.initiation ≡ initiation }
        ensures phase { result.phase ≡ phases.New }
        ensures turns { turns_left result.phase ≡ 12 }
    {
        InitRun {
            alloc,
            initiation,
            phase: InitPhase::New,
        }
    }

    /// Returns the task of an initiator that sent a request to a ticket-granting service and awaits the reply, however it came by
    /// the ticket that the request shows.
    pub fn awaiting(alloc: Global, seeker: Seeker, leg: TgsLeg) -> InitRun
        requires { CanSeek seeker }
        ensures waiting { IsWaiting result }
        ensures initiation { result.initiation ≡ initiations.Seeks seeker }
        ensures phase { result.phase ≡ phases.AwaitsTgsRep leg }
        ensures turns { turns_left result.phase ≡ 9 - leg.hops }
    {
        InitRun {
            alloc,
            initiation: Initiation::Seeks(seeker),
            phase: InitPhase::AwaitsTgsRep(leg),
        }
    }

    /// Returns what the initiator is to do. No step changes it.
    pub fn initiation(&self) -> &Initiation
        ensures { result.now ≡ self.now.initiation }
    {
        &self.initiation
    }

    /// Returns how far the run has come: whose reply it awaits, and what its request asked.
    pub fn phase(&self) -> &InitPhase
        ensures { result.now ≡ self.now.phase }
    {
        &self.phase
    }
}

/// Begins what an initiator does next, by its state: before the exchange it fetches a ticket for the target and shows it to the
/// service, or with `USE_SESSION_KEY` first asks the service for its own ticket; after it has shown one, it takes the answer.
///
/// Fails, in this order, with OutOfSequence Sequence if the exchange is over; before the exchange with NoCredentials NoTarget if
/// there is no target, with InvalidParameter Target if it has not the form of a service and its host; and then, unless the service
/// is asked first, with InvalidToken Shape if there is a token that is no TGT-REP, with WrongCredentialHandle NoIdentity if there
/// are no credentials, with InternalError NotAscii if the name of the client, its realm or the name of its machine is past ASCII.
pub fn initialize_security_context(
    alloc: Global,
    client: &Kerberos,
    options: InitOptions,
) -> Result<InitRun, Error>
    ensures begun { (result ≡ Err (error_of causes.Memory) → ⊥)
        → (answer : Result Initiation Cause) × BeginsInitiation client.now options answer × BeginsSo answer result }
    ensures new { IfOk result (λ run. IsNew run) }
    ensures turns { IfOk result (λ run. turns_left run.phase ≡ 12) }
{
    match begin_initiation(alloc, client, &options) {
        Ok(initiation) => Ok(InitRun::new(alloc, initiation)),
        Err(cause) => Err(Error::from(cause)),
    }
}

/// Starts an initiation and returns the first turn.
fn start_new(
    alloc: Global,
    initiation: &Initiation,
    draw: &Draw,
) -> Result<Turn<InitPhase, InitDone>, Cause>
    requires initiation { CanBegin initiation.now }
    requires moment { draw.now.moment ≤ last_moment }
    ensures step { Answers (StartsNew initiation.now draw.now) result }
    ensures down { IfOk result (λ turn. GoesDown (Waits initiation.now) turns_left 12 turn) }
{
    match initiation {
        Initiation::Requests(initiator, token) => request(alloc, initiator, token),
        Initiation::Seeks(seeker) => ask_first(alloc, seeker, draw),
        Initiation::Hears(initiator, token) => hear_answer(alloc, initiator, token, draw),
    }
}

/// Starts an initiation in a phase that is new, and returns the first turn.
fn started(
    alloc: Global,
    initiation: &Initiation,
    phase: &InitPhase,
    draw: &Draw,
) -> Result<Turn<InitPhase, InitDone>, Cause>
    requires new { IsNewPhase phase.now }
    requires initiation { CanBegin initiation.now }
    requires moment { draw.now.moment ≤ last_moment }
    ensures step { Answers (Starts initiation.now phase.now draw.now) result }
    ensures down { IfOk result (λ turn. GoesDown (Waits initiation.now) turns_left (turns_left phase.now) turn) }
{
    match phase {
        InitPhase::New => start_new(alloc, initiation, draw),
        InitPhase::InAsExchange(_) | InitPhase::AwaitsTgsRep(_) | InitPhase::Over => unreachable!(),
    }
}

/// Handles a reply in a phase that awaits one, and returns the next turn.
fn in_phase(
    alloc: Global,
    seeker: &Seeker,
    phase: &InitPhase,
    reply: Result<Octets, NetFault>,
    draw: &Draw,
) -> Result<Turn<InitPhase, InitDone>, Cause>
    requires waits { IsSeeking seeker.now phase.now }
    requires moment { draw.now.moment ≤ last_moment }
    ensures step { Answers (Continues seeker.now phase.now reply draw.now) result }
    ensures down { IfOk result (λ turn. GoesDown (IsSeeking seeker.now) turns_left (turns_left phase.now) turn) }
{
    match phase {
        InitPhase::InAsExchange(phase) => take_as_reply(alloc, seeker, phase, reply, draw),
        InitPhase::AwaitsTgsRep(leg) => take_next(alloc, seeker, leg, reply, draw),
        InitPhase::New | InitPhase::Over => unreachable!(),
    }
}

/// Handles a reply and returns the next turn. Fails with `Memory` if the network client ran out of memory.
fn next(
    alloc: Global,
    initiation: &Initiation,
    phase: &InitPhase,
    reply: Result<Octets, NetFault>,
    draw: &Draw,
) -> Result<Turn<InitPhase, InitDone>, Cause>
    requires waits { Waits initiation.now phase.now }
    requires moment { draw.now.moment ≤ last_moment }
    ensures step { Answers (Next initiation.now phase.now reply draw.now) result }
    ensures down { IfOk result (λ turn. GoesDown (Waits initiation.now) turns_left (turns_left phase.now) turn) }
    ensures memory { is_want reply ≡ true → result ≡ Err causes.Memory }
{
    if is_want(&reply) {
        return Err(Cause::Memory);
    }
    match initiation {
        Initiation::Seeks(seeker) => in_phase(alloc, seeker, phase, reply, draw),
        Initiation::Requests(_, _) | Initiation::Hears(_, _) => unreachable!(),
    }
}

impl Task for InitRun {
    ghost use Rattle.krb_as.specs.Turns.{IsWant, IsFault};
    ghost use Rattle.krb_initiator.specs.InitRuns.{IsNew, IsWaiting, StartsAt, turns_left};

    type Out = Result<InitDone, Error>;

    ghost turns = { λ run. turns_left run.phase };

    ghost is_new = { IsNew };

    ghost is_waiting = { IsWaiting };

    ghost starts = { StartsAt };

    ghost is_want = { IsWant };

    ghost is_fault = { IsFault };

    fn start(&mut self, draw: &Draw) -> GeneratorState<NetworkRequest, Result<InitDone, Error>> {
        let answer = started(self.alloc, &self.initiation, &self.phase, draw);
        go_on(&mut self.phase, InitPhase::Over, answer)
    }

    fn turns(&self) -> u32 {
        match &self.phase {
            InitPhase::New => 12,
            InitPhase::InAsExchange(phase) => phase.turns() + 10,
            InitPhase::AwaitsTgsRep(leg) => u32::from(9u8.saturating_sub(leg.hops)),
            InitPhase::Over => 0,
        }
    }
}

impl Resumable for InitRun {
    ghost use Rattle.krb_initiator.specs.InitRuns.{ResumesAt};

    ghost resumes = { ResumesAt };

    fn resume(
        &mut self,
        reply: Result<Octets, NetFault>,
        draw: &Draw,
    ) -> GeneratorState<NetworkRequest, Result<InitDone, Error>> {
        let answer = next(self.alloc, &self.initiation, &self.phase, reply, draw);
        go_on(&mut self.phase, InitPhase::Over, answer)
    }
}
