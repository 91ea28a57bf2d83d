//! An initiation that is run over a network of KDCs.

ghost use Rattle.std.specs.Prelude.{◌≡◌, ◌<◌, ℕ, List, length, None};
ghost use Rattle.sspi_core.specs.Usernames.{UserName};
ghost use Rattle.sspi_generator.specs.Draws.{AreInRange};
ghost use Rattle.krb_as.specs.Turns.{IsWant};
ghost use Rattle.krb_context.specs.declared.context.Kerberos.{Kerberos};
ghost use Rattle.krb_initiator.specs.declared.seeker.Seeker.{Seeker};
ghost use Rattle.krb_initiator.specs.declared.seeker.Initiation.TheVariants.{Seeks};
ghost use Rattle.krb_initiator.specs.declared.seeker.InitPhase.TheVariants.{New};
ghost use Rattle.krb_initiator.specs.InitRuns.{IsNew, turns_left};
ghost use Rattle.krb_laws_kdc.specs.Fetching.{Draws, of_client, of_kdcs, CanFetch, HasFetched};

use krb_as::InitDone;
use krb_initiator::InitRun;
use krb_kdc::KdcNet;
use sspi_core::{Draw, Error};
use sspi_generator::Generator;

/// Runs an initiation over a network of KDCs. Where these lead to the service, and there is a draw for each turn of either end, it
/// fetches the service's ticket, unless memory runs out.
pub fn fetch(
    run: &mut Generator<InitRun>,
    net: &mut KdcNet,
    draws: &[Draw],
) -> Result<InitDone, Error>
    requires new { IsNew run.old }
    requires enough { turns_left run.old.phase < length draws.now }
    requires moments { AreInRange draws.now }
    ensures { (context : Kerberos) (seeker : Seeker) (used : Draws) (service_key : List ℕ) (user : UserName) → context.server ≡ None
        → CanFetch seeker net.old.pairs used service_key user → net.old.draws ≡ of_kdcs used → draws.now ≡ of_client used
        → run.old.initiation ≡ Seeks seeker → run.old.phase ≡ New → (IsWant result → ⊥)
        → HasFetched context seeker used.start service_key user result }
{
    run.resolve_with_client(net, draws)
}
