//! The change of a password, as a task.

ghost use Rattle.std.specs.Prelude.{◌≡◌, ◌≤◌, ◌^◌, true, IfOk, length, Err, Result};
ghost use Rattle.sspi_core.specs.declared.cause.Cause.{Cause};
ghost use Rattle.sspi_core.specs.declared.cause.Cause.TheVariants as causes;
ghost use Rattle.sspi_core.specs.Moments.{last_moment};
ghost use Rattle.sspi_core.specs.Kinds.{error_of};
ghost use Rattle.sspi_core.specs.Checks.{Answers};
ghost use Rattle.krb_as.specs.Turns.{is_want, GoesDown};
ghost use Rattle.krb_password_change.specs.declared.change.Changer.{Changer};
ghost use Rattle.krb_password_change.specs.declared.phase.ChangePhase.TheVariants as phases;
ghost use Rattle.krb_password_change.specs.Changes.{BeginsChange, IsReady};
ghost use Rattle.krb_password_change.specs.ChangeRuns.{Starts, Next, IsNewPhase, IsAwaiting, IsNew, turns_left, StartsAt, ResumesAt, BeginsSo};

use crate::answer::take_answer;
use crate::change::{ChangePassword, Changer, begin_change};
use crate::phase::ChangePhase;
use crate::steps::{ask_first, take_as_reply};
use krb_as::{Turn, go_on, is_want};
use krb_conf::Env;
use krb_context::{ContextChange, Kerberos};
use krb_der::Octets;
use sspi_core::{Cause, Draw, Error};
use sspi_generator::{Generator, GeneratorState, NetFault, NetworkRequest, Resumable, Task};
use std::alloc::Global;

/// The change of a password: an AS exchange for a ticket to the service that changes passwords, and the new password to that
/// service. It ends with the change of the context.
#[derive(Drop)]
pub struct ChangePasswordRun {
    alloc: Global,
    changer: Changer,
    phase: ChangePhase,
}

/// A generator that runs the change of a password.
pub type GeneratorChangePassword = Generator<ChangePasswordRun>;

impl ChangePasswordRun {
    /// Returns the run of this client.
    pub fn new(alloc: Global, changer: Changer) -> ChangePasswordRun
        requires { IsReady changer }
        ensures new { IsNew result }
        ensures changer { result.changer ≡ changer }
        ensures phase { result.phase ≡ phases.New }
        ensures turns { turns_left result.phase ≡ 3 }
    {
        ChangePasswordRun {
            alloc,
            changer,
            phase: ChangePhase::New,
        }
    }
}

/// Begins the change of a password. Fails with InternalError NotAscii if the account's name, its realm or the machine's name is past
/// ASCII. The exchange fails at its start with NoAuthenticatingAuthority NoKdc, then with InvalidParameter Scheme.
pub fn change_password(
    alloc: Global,
    client: &Kerberos,
    change: ChangePassword,
    env: Env,
) -> Result<ChangePasswordRun, Error>
    requires new_password { length change.new_password ≤ 2 ^ 24 }
    ensures asked { (result ≡ Err (error_of causes.Memory) → ⊥)
        → (answer : Result Changer Cause) × BeginsChange client.now change env answer × BeginsSo answer result }
    ensures new { IfOk result (λ run. IsNew run) }
    ensures turns { IfOk result (λ run. turns_left run.phase ≡ 3) }
{
    match begin_change(alloc, client, change, env) {
        Ok(changer) => Ok(ChangePasswordRun::new(alloc, changer)),
        Err(cause) => Err(Error::from(cause)),
    }
}

/// Starts the exchange in a phase that is new, and returns the first turn.
fn started(
    alloc: Global,
    changer: &Changer,
    phase: &ChangePhase,
    draw: &Draw,
) -> Result<Turn<ChangePhase, ContextChange>, Cause>
    requires new { IsNewPhase phase.now }
    requires changer { IsReady changer.now }
    requires moment { draw.now.moment ≤ last_moment }
    ensures step { Answers (Starts changer.now phase.now draw.now) result }
    ensures down { IfOk result (λ turn. GoesDown (IsAwaiting changer.now.asker) turns_left (turns_left phase.now) turn) }
{
    match phase {
        ChangePhase::New => ask_first(alloc, changer, draw),
        ChangePhase::InAsExchange(_) | ChangePhase::AwaitsAnswer(_) | ChangePhase::Over => {
            unreachable!()
        }
    }
}

/// Handles a reply in a phase that awaits one, and returns the next turn.
fn in_phase(
    alloc: Global,
    changer: &Changer,
    phase: &ChangePhase,
    reply: Result<Octets, NetFault>,
    draw: &Draw,
) -> Result<Turn<ChangePhase, ContextChange>, Cause>
    requires awaiting { IsAwaiting changer.now.asker phase.now }
    requires changer { IsReady changer.now }
    requires moment { draw.now.moment ≤ last_moment }
    ensures step { Answers (Next changer.now phase.now reply draw.now) result }
    ensures down { IfOk result (λ turn. GoesDown (IsAwaiting changer.now.asker) turns_left (turns_left phase.now) turn) }
{
    match phase {
        ChangePhase::InAsExchange(phase) => take_as_reply(alloc, changer, phase, reply, draw),
        ChangePhase::AwaitsAnswer(leg) => take_answer(alloc, changer, leg, reply),
        ChangePhase::New | ChangePhase::Over => unreachable!(),
    }
}

/// Handles a reply and returns the next turn. Fails with `Memory` if the network client ran out of memory.
fn next(
    alloc: Global,
    changer: &Changer,
    phase: &ChangePhase,
    reply: Result<Octets, NetFault>,
    draw: &Draw,
) -> Result<Turn<ChangePhase, ContextChange>, Cause>
    requires awaiting { IsAwaiting changer.now.asker phase.now }
    requires changer { IsReady changer.now }
    requires moment { draw.now.moment ≤ last_moment }
    ensures step { Answers (Next changer.now phase.now reply draw.now) result }
    ensures down { IfOk result (λ turn. GoesDown (IsAwaiting changer.now.asker) turns_left (turns_left phase.now) turn) }
    ensures memory { is_want reply ≡ true → result ≡ Err causes.Memory }
{
    if is_want(&reply) {
        return Err(Cause::Memory);
    }
    in_phase(alloc, changer, phase, reply, draw)
}

impl Task for ChangePasswordRun {
    ghost use Rattle.krb_as.specs.Turns.{IsWant, IsFault};
    ghost use Rattle.krb_password_change.specs.ChangeRuns.{IsNew, IsWaiting, StartsAt, turns_left};

    type Out = Result<ContextChange, Error>;

    ghost turns = { λ run. turns_left run.phase };

    ghost is_new = { IsNew };

    ghost is_waiting = { IsWaiting };

    ghost starts = { StartsAt };

    ghost is_want = { IsWant };

    ghost is_fault = { IsFault };

    fn start(
        &mut self,
        draw: &Draw,
    ) -> GeneratorState<NetworkRequest, Result<ContextChange, Error>> {
        let answer = started(self.alloc, &self.changer, &self.phase, draw);
        go_on(&mut self.phase, ChangePhase::Over, answer)
    }

    fn turns(&self) -> u32 {
        match &self.phase {
            ChangePhase::New => 3,
            ChangePhase::InAsExchange(phase) => phase.turns() + 1,
            ChangePhase::AwaitsAnswer(_) | ChangePhase::Over => 0,
        }
    }
}

impl Resumable for ChangePasswordRun {
    ghost use Rattle.krb_password_change.specs.ChangeRuns.{ResumesAt};

    ghost resumes = { ResumesAt };

    fn resume(
        &mut self,
        reply: Result<Octets, NetFault>,
        draw: &Draw,
    ) -> GeneratorState<NetworkRequest, Result<ContextChange, Error>> {
        let answer = next(self.alloc, &self.changer, &self.phase, reply, draw);
        go_on(&mut self.phase, ChangePhase::Over, answer)
    }
}
