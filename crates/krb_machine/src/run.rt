//! The two runs that a connection may have.

ghost use Rattle.std.specs.Prelude.{◌≡◌, ◌≤◌, Err};
ghost use Rattle.sspi_core.specs.Kinds.{error_of};
ghost use Rattle.sspi_core.specs.declared.cause.Cause.TheVariants as causes;
ghost use Rattle.sspi_core.specs.Moments.{last_moment};
ghost use Rattle.sspi_generator.specs.declared.task.GeneratorState.TheVariants.{Completed};
ghost use Rattle.sspi_generator.specs.Steps.{OnSuspended};
ghost use Rattle.krb_machine.specs.Runs.{IsNew, IsWaiting, StartsAt, ResumesAt};

use krb_as::InitDone;
use krb_der::Octets;
use krb_initiator::InitRun;
use krb_user_to_user::AcceptRun;
use sspi_core::{Draw, Error};
use sspi_generator::{GeneratorState, NetFault, NetworkRequest, Resumable, Task};

/// A run of a connection over a network.
#[derive(Drop)]
pub enum Run {
    /// An acceptor fetches its own ticket.
    Accepts(AcceptRun),
    /// An initiator fetches the ticket of a service and shows it, asks for the service's own ticket, or takes the service's answer.
    Initiates(InitRun),
}

/// Takes the first step of a run.
pub(crate) fn start(
    run: &mut Run,
    draw: &Draw,
) -> GeneratorState<NetworkRequest, Result<InitDone, Error>>
    requires new { IsNew run.old }
    requires moment { draw.now.moment ≤ last_moment }
    ensures step { StartsAt run.old draw.now result run.new }
    ensures waits { OnSuspended result (λ request. IsWaiting run.new) }
    ensures memory { result ≡ Completed (Err (error_of causes.Memory)) → run.new ≡ run.old }
{
    match run {
        Run::Accepts(run) => run.start(draw),
        Run::Initiates(run) => run.start(draw),
    }
}

/// Takes the step of a run that an answer of the network allows.
pub(crate) fn resume(
    run: &mut Run,
    answer: Result<Octets, NetFault>,
    draw: &Draw,
) -> GeneratorState<NetworkRequest, Result<InitDone, Error>>
    requires waiting { IsWaiting run.old }
    requires moment { draw.now.moment ≤ last_moment }
    ensures step { ResumesAt run.old answer draw.now result run.new }
    ensures waits { OnSuspended result (λ request. IsWaiting run.new) }
    ensures memory { result ≡ Completed (Err (error_of causes.Memory)) → run.new ≡ run.old }
{
    match run {
        Run::Accepts(run) => run.resume(answer, draw),
        Run::Initiates(run) => run.resume(answer, draw),
    }
}
