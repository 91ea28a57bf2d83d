//! An exchange that waits, and its steps.

ghost use Rattle.std.specs.Prelude.{◌≡◌, ◌≤◌, ◌↔◌, Err, IsTrue, IfOk, IfErr, OnErr};
ghost use Rattle.sspi_core.specs.Kinds.{error_of};
ghost use Rattle.sspi_core.specs.declared.cause.Cause.TheVariants as causes;
ghost use Rattle.sspi_core.specs.Moments.{last_moment};
ghost use Rattle.sspi_generator.specs.declared.task.GeneratorState.TheVariants.{Completed};
ghost use Rattle.sspi_generator.specs.Steps.{OnSuspended};
ghost use Rattle.krb_machine.specs.Runs.{IsNew, IsWaiting};
ghost use Rattle.krb_machine.specs.Waiting.{waiting-prop};
ghost use Rattle.krb_machine.specs.Steps.{IsStep, BeginsRun, GoesOn};
ghost use Rattle.krb_machine.specs.declared.run.Run.{Run};

use crate::run::{Run, resume, start};
use krb_as::InitDone;
use krb_der::{Octets, OutOfMemory, boxed};
use sspi_core::{Cause, Draw, Error, ErrorKind};
use sspi_generator::{GeneratorState, NetFault, NetworkRequest};
use std::alloc::Global;
use std::marker::Model;

/// A heap-allocated run that waits for the answer of a KDC: a connection that waits for nothing is small. Contracts see the run.
#[derive(Drop)]
pub struct Exchange {
    run: Box<Run>,
    ghost waits: { IsWaiting run.value } by { waiting-prop run.value },
}

impl Model for Exchange {
    ghost use Rattle.krb_machine.specs.declared.run.Run.{Run};

    ghost Value = { Run };

    ghost view = { λ exchange. exchange.run.value };
}

/// The result of a step of an exchange.
#[derive(Drop)]
pub enum Step {
    /// A request is to be sent to a KDC, and the exchange waits for its answer.
    Asks(NetworkRequest, Exchange),
    /// The exchange is over: its context takes the change.
    Ends(InitDone),
    /// The exchange is over, and its context is unchanged. Running out of memory is never reported as `Refused`.
    Refused(Error),
}

/// Returns whether the error is that memory ran out.
pub fn is_memory(error: &Error) -> bool
    ensures { IsTrue result ↔ (error.now ≡ error_of causes.Memory) }
{
    matches!(
        error,
        Error {
            error_type: ErrorKind::OutOfMemory,
            cause: Cause::Memory
        }
    )
}

/// Returns the step for the end of a run. Fails if memory ran out.
fn ended(out: Result<InitDone, Error>) -> Result<Step, OutOfMemory>
    ensures step { (run : Run) → IfOk result (λ step. IsStep (Completed out) run step) }
    ensures memory { OnErr result (out ≡ Err (error_of causes.Memory)) }
{
    match out {
        Ok(done) => Ok(Step::Ends(done)),
        Err(error) if is_memory(&error) => Err(OutOfMemory),
        Err(error) => Ok(Step::Refused(error)),
    }
}

/// Returns the step for the state of a run. Returns the run as the error if memory ran out.
fn step_of(
    state: GeneratorState<NetworkRequest, Result<InitDone, Error>>,
    run: Box<Run>,
) -> Result<Step, Box<Run>>
    requires waits { OnSuspended state (λ request. IsWaiting run.value) }
    ensures step { IfOk result (λ step. IsStep state run.value step) }
    ensures kept { IfErr result (λ kept. (kept.value ≡ run.value) × (state ≡ Completed (Err (error_of causes.Memory)))) }
{
    match state {
        GeneratorState::Suspended(request) => Ok(Step::Asks(request, Exchange { run })),
        GeneratorState::Completed(out) => match ended(out) {
            Ok(step) => Ok(step),
            Err(OutOfMemory) => Err(run),
        },
    }
}

/// Begins an exchange, and returns its first step. If memory runs out, no exchange begins.
pub fn begin_exchange(alloc: Global, run: Run, draw: &Draw) -> Result<Step, OutOfMemory>
    requires new { IsNew run }
    requires moment { draw.now.moment ≤ last_moment }
    ensures begins { IfOk result (λ step. BeginsRun run draw.now step) }
{
    let mut run = boxed(alloc, run)?;
    let state = start(&mut run, draw);
    match step_of(state, run) {
        Ok(step) => Ok(step),
        Err(_) => Err(OutOfMemory),
    }
}

/// Continues an exchange with the answer of the network, and returns the next step. If memory runs out, returns the exchange as the
/// error, which waits as before.
pub fn continue_exchange(
    exchange: Exchange,
    answer: Result<Octets, NetFault>,
    draw: &Draw,
) -> Result<Step, Exchange>
    requires moment { draw.now.moment ≤ last_moment }
    ensures goes_on { IfOk result (λ step. GoesOn exchange answer draw.now step) }
    ensures kept { IfErr result (λ kept. kept ≡ exchange) }
{
    let Exchange { mut run } = exchange;
    let state = resume(&mut run, answer, draw);
    match step_of(state, run) {
        Ok(step) => Ok(step),
        Err(run) => Err(Exchange { run }),
    }
}
