//! Laws of user-to-user at an acceptor, for all values.

ghost use Rattle.std.specs.Prelude.{◌≡◌, ℕ, Bool, List, take, Result};
ghost use Rattle.krb_conf.specs.declared.env.Env.{Env};
ghost use Rattle.krb_context.specs.declared.context.Kerberos.{Kerberos};
ghost use Rattle.krb_exchange.specs.declared.user_to_user.TgtReq.{TgtReq};
ghost use Rattle.sspi_core.specs.declared.cause.Cause.{Cause};
ghost use Rattle.sspi_core.specs.declared.draw.Draw.{Draw};
ghost use Rattle.sspi_core.specs.declared.identity.CredentialsBuffers.{CredentialsBuffers};
ghost use Rattle.sspi_generator.specs.declared.network.NetFault.{NetFault};
ghost use Rattle.krb_as.specs.declared.done.InitDone.{InitDone};
ghost use Rattle.krb_as.specs.declared.turn.Turn.{Turn};
ghost use Rattle.krb_user_to_user.specs.declared.request.Acceptor.{Acceptor};
ghost use Rattle.krb_user_to_user.specs.declared.request.Beginning.{Beginning};
ghost use Rattle.krb_user_to_user.specs.declared.steps.AcceptPhase.{AcceptPhase};
ghost use Rattle.krb_user_to_user.specs.TgtRequests.{RequestsTgt};
ghost use Rattle.krb_user_to_user.specs.declared.accept_run.AcceptRun.{AcceptRun};
ghost use Rattle.krb_user_to_user.specs.AcceptRuns.{Starts, Next, IsNew, StartsAt, ResumesAt};
ghost use Rattle.sspi_core.specs.declared.error.Error.{Error};
ghost use Rattle.sspi_generator.specs.Runs.{Resolves};

use sspi_generator::NetworkClient;

/// A TGT-REQ has at most one result, and each step of the exchange after it has at most one outcome, determined by the acceptor,
/// the phase of the exchange, the reply and the draw.
pub fn one_outcome()
    ensures requests { (server : Kerberos) (credentials : CredentialsBuffers) (tgt_req : TgtReq) (dce : Bool) (env : Env) (r s : Result Beginning Cause)
        → RequestsTgt server credentials tgt_req dce env r → RequestsTgt server credentials tgt_req dce env s → r ≡ s }
    ensures starts { (acceptor : Acceptor) (phase : AcceptPhase) (draw : Draw) (r s : Result (Turn AcceptPhase InitDone) Cause)
        → Starts acceptor phase draw r → Starts acceptor phase draw s → r ≡ s }
    ensures resumes { (acceptor : Acceptor) (phase : AcceptPhase) (reply : Result (List ℕ) NetFault) (draw : Draw)
        (r s : Result (Turn AcceptPhase InitDone) Cause)
        → Next acceptor phase reply draw r → Next acceptor phase reply draw s → r ≡ s }
{}

/// A run from a new exchange of a service sends at most two requests, with any network client: over the first three of its draws it
/// ends with the same result.
pub fn acceptances_ask_twice_at_most<C: NetworkClient>()
    ensures { (run run' : AcceptRun)
        (client client' : C) (draws : List Draw) (out : Result InitDone Error) → IsNew run
        → Resolves StartsAt ResumesAt C.sends run client draws out run' client'
        → Resolves StartsAt ResumesAt C.sends run client (take 3 draws) out run' client' }
{}
