//! The turn of an exchange after a step.

ghost use Rattle.std.specs.Prelude.{◌≡◌, Err};
ghost use Rattle.sspi_core.specs.declared.cause.Cause.TheVariants as causes;
ghost use Rattle.krb_as.specs.Turns.{state_of, phase_of, is_want};

use krb_der::Octets;
use sspi_core::{Cause, Error};
use sspi_generator::{GeneratorState, NetFault, NetworkRequest};

/// The result of a step that does not fail.
#[derive(Drop)]
pub enum Turn<P, O> {
    /// A request, and the phase that awaits its answer.
    Asks(NetworkRequest, P),
    /// The end of the exchange.
    Ends(O),
}

/// Returns whether the network client ran out of memory: then the step is to fail with `Memory` too, and may be taken again.
pub fn is_want(reply: &Result<Octets, NetFault>) -> bool
    ensures { result ≡ is_want reply.now }
{
    matches!(reply, Err(NetFault::OutOfMemory))
}

/// Replaces the phase with the one after the step. The phase is unchanged if memory ran out.
pub fn go_on<P: Drop, O: Drop>(
    phase: &mut P,
    over: P,
    answer: Result<Turn<P, O>, Cause>,
) -> GeneratorState<NetworkRequest, Result<O, Error>>
    ensures state { result ≡ state_of answer }
    ensures phase { (answer ≡ Err causes.Memory → ⊥) → phase.new ≡ phase_of over answer }
    ensures want { answer ≡ Err causes.Memory → phase.new ≡ phase.old }
{
    match answer {
        Ok(Turn::Asks(request, next)) => {
            *phase = next;
            GeneratorState::Suspended(request)
        }
        Ok(Turn::Ends(done)) => {
            *phase = over;
            GeneratorState::Completed(Ok(done))
        }
        Err(Cause::Memory) => GeneratorState::Completed(Err(Error::from(Cause::Memory))),
        Err(cause) => {
            *phase = over;
            GeneratorState::Completed(Err(Error::from(cause)))
        }
    }
}
