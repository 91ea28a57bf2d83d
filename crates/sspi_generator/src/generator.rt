//! The runner of a task.

ghost use Rattle.std.specs.Prelude.{◌≡◌, ◌<◌, ◌≤◌, ◌+◌, ◌⊎◌, ℕ, codes, List, IfOk, Option, None, Err, length, Some, Ok, Result, IsSome, IfSome, IsOkAnd};
ghost use Rattle.sspi_core.specs.Kinds.{error_of};
ghost use Rattle.sspi_core.specs.declared.cause.Cause.TheVariants as causes;
ghost use Rattle.sspi_generator.specs.Draws.{IsInRange, AreInRange};
ghost use Rattle.sspi_generator.specs.Steps.{OnSuspended, OnCompleted, Completes, IsFailure, settled, IsOkDone};
ghost use Rattle.sspi_generator.specs.declared.network.NetworkRequest.{NetworkRequest};
ghost use Rattle.sspi_generator.specs.declared.task.GeneratorState.{GeneratorState};
ghost use Rattle.sspi_core.specs.declared.error.Error.{Error};
ghost use Rattle.sspi_generator.specs.Runs.{Finishes, Resolves, Counts};
ghost use Rattle.sspi_generator.specs.Faults.{Rose};

use crate::done::Done;
use crate::network::{NetFault, NetworkClient, NetworkRequest};
use crate::task::{GeneratorState, Resumable, Task};
use krb_der::Octets;
use sspi_core::{Cause, Draw, Error};
use std::fmt;
use std::marker::Model;

/// A task that is run. Contracts see the task. It is printed as its name.
#[derive(Drop)]
pub struct Generator<T> {
    task: T,
}

impl<T> Model for Generator<T> {
    ghost Value = { T };

    ghost view = { λ a. a.task };

    ghost inverse = { λ task. record { task = task } };
}

impl<T: Task> Generator<T> {
    pub fn new(task: T) -> Generator<T>
        ensures { result ≡ task }
    {
        Generator { task }
    }

    /// Takes the task's first step.
    pub fn start(&mut self, draw: &Draw) -> GeneratorState<NetworkRequest, T::Out>
        requires new { T.is_new self.old }
        requires moment { IsInRange draw.now }
        ensures step { T.starts self.old draw.now result self.new }
        ensures turns { OnSuspended result (λ request. T.is_waiting self.new × (T.turns self.new < T.turns self.old)) }
        ensures want { OnCompleted result (λ out. T.is_want out → self.new ≡ self.old) }
        ensures fault { OnCompleted result (λ out. T.is_fault out → ⊥) }
    {
        self.task.start(draw)
    }
}

impl<T: Resumable> Generator<T> {
    /// Takes the task's step after an answer.
    pub fn resume(
        &mut self,
        reply: Result<Octets, NetFault>,
        draw: &Draw,
    ) -> GeneratorState<NetworkRequest, T::Out>
        requires waiting { T.is_waiting self.old }
        requires moment { IsInRange draw.now }
        ensures step { T.resumes self.old reply draw.now result self.new }
        ensures turns { OnSuspended result (λ request. T.is_waiting self.new × (T.turns self.new < T.turns self.old)) }
        ensures want { OnCompleted result (λ out. T.is_want out → self.new ≡ self.old) }
        ensures memory { reply ≡ Err NetFault.OutOfMemory → Completes result T.is_want }
        ensures fault { OnCompleted result (λ out. T.is_fault out → IsFailure reply) }
    {
        self.task.resume(reply, draw)
    }

    /// Runs the task to its end. The k-th step uses the k-th draw; there must be more draws than the task has turns.
    /// Contracts see the client's count of faults.
    pub fn resolve_with_client(&mut self, client: &mut dyn NetworkClient, draws: &[Draw]) -> T::Out
        requires new { T.is_new self.old }
        requires enough { T.turns self.old < length draws.now }
        requires moments { AreInRange draws.now }
        ensures run { Resolves T.starts T.resumes Counts self.old (faults client.old) draws.now result self.new (faults client.new) }
        ensures sent { (after : _) × Resolves T.starts T.resumes (⟦<dyn NetworkClient as NetworkClient>⟧ client.old.0).sends self.old client.old.1 draws.now result
            self.new after × (client.new ≡ (client.old.0, after)) }
        ensures fault { T.is_fault result → Rose (faults client.old) (faults client.new) }
    {
        let [draw, rest @ ..] = draws else {
            unreachable!()
        };
        let state = self.task.start(draw);
        finish_lent(&mut self.task, client, rest, state)
    }

    /// Runs the task to its end, as `resolve_with_client` does, over a client whose answers contracts see.
    pub fn resolve_with<C: NetworkClient>(&mut self, client: &mut C, draws: &[Draw]) -> T::Out
        requires new { T.is_new self.old }
        requires enough { T.turns self.old < length draws.now }
        requires moments { AreInRange draws.now }
        ensures run { Resolves T.starts T.resumes C.sends self.old client.old draws.now result self.new client.new }
        ensures fault { T.is_fault result → Rose (C.faults client.old) (C.faults client.new) }
    {
        let [draw, rest @ ..] = draws else {
            unreachable!()
        };
        let state = self.task.start(draw);
        finish(&mut self.task, client, rest, state)
    }
}

/// Continues a run after a step.
fn finish<T: Resumable, C: NetworkClient>(
    task: &mut T,
    client: &mut C,
    draws: &[Draw],
    state: GeneratorState<NetworkRequest, T::Out>,
) -> T::Out
    requires enough { OnSuspended state (λ request. T.is_waiting task.old × (T.turns task.old < length draws.now)) }
    requires moments { AreInRange draws.now }
    ensures run { Finishes T.resumes C.sends state task.old client.old draws.now result task.new client.new }
    ensures later { C.faults client.old ≤ C.faults client.new }
    ensures fault { T.is_fault result → Completes state T.is_fault ⊎ Rose (C.faults client.old) (C.faults client.new) }
{
    match state {
        GeneratorState::Completed(out) => out,
        GeneratorState::Suspended(request) => {
            let [draw, rest @ ..] = draws else {
                unreachable!()
            };
            let reply = client.send(&request);
            let state = task.resume(reply, draw);
            finish(task, client, rest, state)
        }
    }
}

impl<O: Drop, T: Task<Out = Result<O, Error>>> Generator<T> {
    /// Returns the end of a task that sends nothing. Fails with UnsupportedFunction Suspended if the task asks to send something.
    pub fn resolve_to_result(&mut self, draw: &Draw) -> Result<O, Error>
        requires new { T.is_new self.old }
        requires moment { IsInRange draw.now }
        ensures { (state : GeneratorState NetworkRequest (Result O Error)) × T.starts self.old draw.now state self.new × (result ≡ settled state) }
    {
        match self.task.start(draw) {
            GeneratorState::Suspended(_) => Err(Error::from(Cause::Suspended)),
            GeneratorState::Completed(answer) => answer,
        }
    }
}

impl<O: Drop> Generator<Done<Result<O, Error>>> {
    /// Returns the value of a task that is over with one.
    pub fn unwrap(self) -> O
        requires { IsOkDone self }
        ensures { self ≡ Some (Ok result) }
    {
        match self.task.into_inner() {
            Ok(value) => value,
            Err(_) => unreachable!(),
        }
    }

    /// Returns the value of a task that is over with one, as `unwrap` does. The message is for readers of the code.
    pub fn expect(self, _message: &str) -> O
        requires { IsOkDone self }
        ensures { self ≡ Some (Ok result) }
    {
        self.unwrap()
    }
}

impl<O: Drop> From<Result<O, Error>> for Generator<Done<Result<O, Error>>> {
    ghost from_gives = { λ answer generator. generator ≡ Some answer };

    fn from(answer: Result<O, Error>) -> Generator<Done<Result<O, Error>>> {
        Generator::new(Done::new(answer))
    }
}

impl<T> fmt::Display for Generator<T> {
    ghost output = { λ generator. Some (codes "Generator") };

    fn fmt<W: fmt::Write>(&self, f: &mut fmt::Formatter<W>) -> fmt::Result {
        f.write_str("Generator")
    }
}

/// Continues a run after a step, with any client that is lent.
fn finish_lent<T: Resumable>(
    task: &mut T,
    client: &mut dyn NetworkClient,
    draws: &[Draw],
    state: GeneratorState<NetworkRequest, T::Out>,
) -> T::Out
    requires enough { OnSuspended state (λ request. T.is_waiting task.old × (T.turns task.old < length draws.now)) }
    requires moments { AreInRange draws.now }
    ensures run { Finishes T.resumes Counts state task.old (faults client.old) draws.now result task.new (faults client.new) }
    ensures sent { (after : _) × Finishes T.resumes (⟦<dyn NetworkClient as NetworkClient>⟧ client.old.0).sends state task.old client.old.1 draws.now result
        task.new after × (client.new ≡ (client.old.0, after)) }
    ensures later { faults client.old ≤ faults client.new }
    ensures fault { T.is_fault result → Completes state T.is_fault ⊎ Rose (faults client.old) (faults client.new) }
{
    match state {
        GeneratorState::Completed(out) => out,
        GeneratorState::Suspended(request) => {
            let [draw, rest @ ..] = draws else {
                unreachable!()
            };
            let answer = client.send(&request);
            let state = task.resume(answer, draw);
            finish_lent(task, client, rest, state)
        }
    }
}
