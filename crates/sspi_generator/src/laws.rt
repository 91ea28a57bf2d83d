//! Laws of tasks, for all values.

ghost use Rattle.std.specs.Prelude.{◌≡◌, ◌+◌, List, take, Result};
ghost use Rattle.sspi_core.specs.declared.draw.Draw.{Draw};
ghost use Rattle.sspi_core.specs.declared.error.Error.{Error};
ghost use Rattle.sspi_generator.specs.declared.network.NetworkRequest.{NetworkRequest};
ghost use Rattle.sspi_generator.specs.declared.task.GeneratorState.{GeneratorState};
ghost use Rattle.sspi_generator.specs.declared.task.GeneratorState.TheVariants.{Completed};
ghost use Rattle.sspi_generator.specs.Runs.{Resolves, StartsDown, ResumesDown};

use crate::done::Done;
use crate::generator::Generator;
use crate::network::NetworkClient;
use crate::task::{Resumable, Task};
use sspi_core::Error;

/// A generator that is made of a result can be started, and completes at its start with that result.
pub fn results_complete<O: Drop>()
    ensures new { (answer : Result O Error) (made : _) → ⟦<Generator<Done<Result<O, Error>>> as From<Result<O, Error>>>⟧.from_gives answer made
        → ⟦<Done<Result<O, Error>> as Task>⟧.is_new made }
    ensures completes { (answer : Result O Error) (made : _) (draw : Draw) (state : GeneratorState NetworkRequest (Result O Error)) (after : _)
        → ⟦<Generator<Done<Result<O, Error>>> as From<Result<O, Error>>>⟧.from_gives answer made
        → ⟦<Done<Result<O, Error>> as Task>⟧.starts made draw state after → state ≡ Completed answer }
{}

/// A run from a new task asks at most as often as the task has turns, whoever sends: what it ends with over its draws, it ends with over
/// the first of them, one more than it has turns. Premise: a step that asks leaves a task that waits, with fewer turns, as each call of
/// [`Task::start`] and [`Resumable::resume`] does.
pub fn runs_ask_no_more_than_their_turns<T: Resumable, C: NetworkClient>()
    ensures { StartsDown T.starts T.is_new T.is_waiting T.turns → ResumesDown T.resumes T.is_waiting T.turns
        → (task task' : T) (client client' : C) (draws : List Draw) (out : T.Out) → T.is_new task
        → Resolves T.starts T.resumes C.sends task client draws out task' client'
        → Resolves T.starts T.resumes C.sends task client (take (T.turns task + 1) draws) out task' client' }
{}
