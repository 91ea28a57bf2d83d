//! Tasks and their steps.

ghost use Rattle.std.specs.Prelude.{◌≡◌, ◌<◌, ℕ, List, Result, Err};
ghost use Rattle.sspi_core.specs.declared.draw.Draw.{Draw};
ghost use Rattle.sspi_generator.specs.declared.network.NetworkRequest.{NetworkRequest};
ghost use Rattle.sspi_generator.specs.declared.network.NetFault.{NetFault};
ghost use Rattle.sspi_generator.specs.declared.task.GeneratorState.{GeneratorState};
ghost use Rattle.sspi_generator.specs.Draws.{IsInRange};
ghost use Rattle.sspi_generator.specs.Steps.{OnSuspended, OnCompleted, Completes, IsFailure};

use crate::network::{NetFault, NetworkRequest};
use krb_der::Octets;
use sspi_core::Draw;

/// The end of a step: a request whose answer the task waits for, or the end of the task.
#[derive(Drop)]
pub enum GeneratorState<Y, O> {
    Suspended(Y),
    Completed(O),
}

/// An exchange with the network, up to its first request. Its members say how it is seen by those that run any task.
pub trait Task {
    /// The result of the exchange.
    type Out: Drop;

    /// How often it may still suspend.
    ghost turns: { Self → ℕ };

    /// It is not started.
    ghost is_new: { Self → Type 0 };

    /// It waits for an answer.
    ghost is_waiting: { Self → Type 0 };

    /// The possible effects of the start: the task before, the draw, the end of the step, and the task afterwards.
    ghost starts: { Self → Draw → GeneratorState NetworkRequest Self.Out → Self → Type 0 };

    /// An end because memory ran out: the step may be taken again.
    ghost is_want: { Self.Out → Type 0 };

    /// An end because the network failed.
    ghost is_fault: { Self.Out → Type 0 };

    /// Takes the first step.
    fn start(&mut self, draw: &Draw) -> GeneratorState<NetworkRequest, Self::Out>
        requires new { is_new self.old }
        requires moment { IsInRange draw.now }
        ensures step { starts self.old draw.now result self.new }
        ensures turns { OnSuspended result (λ request. is_waiting self.new × (turns self.new < turns self.old)) }
        ensures want { OnCompleted result (λ out. is_want out → self.new ≡ self.old) }
        ensures fault { OnCompleted result (λ out. is_fault out → ⊥) };

    /// Returns how often the task may still suspend.
    fn turns(&self) -> u32
        ensures { result ≡ turns self.now };
}

/// A task that may suspend at its start, and continues with an answer. A task that always completes at its start is not one.
pub trait Resumable: Task {
    /// The possible effects of an answer: the task before, the answer, the draw, the end of the step, and the task afterwards.
    ghost resumes: { Self → Result (List ℕ) NetFault → Draw → GeneratorState NetworkRequest Self.Out → Self → Type 0 };

    /// Takes the step after an answer.
    fn resume(
        &mut self,
        reply: Result<Octets, NetFault>,
        draw: &Draw,
    ) -> GeneratorState<NetworkRequest, Self::Out>
        requires waiting { Self.is_waiting self.old }
        requires moment { IsInRange draw.now }
        ensures step { resumes self.old reply draw.now result self.new }
        ensures turns { OnSuspended result (λ request. Self.is_waiting self.new × (Self.turns self.new < Self.turns self.old)) }
        ensures want { OnCompleted result (λ out. Self.is_want out → self.new ≡ self.old) }
        ensures memory { reply ≡ Err NetFault.OutOfMemory → Completes result Self.is_want }
        ensures fault { OnCompleted result (λ out. Self.is_fault out → IsFailure reply) };
}
