//! Laws of the acceptor, for all values.

ghost use Rattle.std.specs.Prelude.{◌≡◌, ◌↔◌, ℕ, Bool, false, List, None, Result};
ghost use Rattle.sspi_core.specs.declared.cause.Cause.{Cause};
ghost use Rattle.sspi_core.specs.declared.draw.Draw.{Draw};
ghost use Rattle.krb_conf.specs.declared.env.Env.{Env};
ghost use Rattle.krb_context.specs.declared.context.Kerberos.{Kerberos};
ghost use Rattle.krb_admission.specs.Accepts.{awaits_last_word};
ghost use Rattle.krb_admission.specs.Halves.{Prepared, Prepares};
ghost use Rattle.krb_server.specs.declared.accept.Accepted.{Accepted};
ghost use Rattle.krb_server.specs.TgtReqs.{Found, BeginsUserToUser};
ghost use Rattle.krb_server.specs.Whole.{AcceptsWhole, AcceptsInHalves};

use krb_replay::ReplayGate;

/// A token that begins no user-to-user, at a context that awaits no third leg, is answered as by `judge` and `admit`, one after
/// the other, with any gate. A token that passes `judge` begins no user-to-user, and its context awaits no third leg.
pub fn acceptance_has_two_halves<G: ReplayGate>()
    ensures halves { (server server' : Kerberos) (dce : Bool) (token : List ℕ) (env : Env) (draw : Draw) (old new : G) (answer : Result Accepted Cause)
        → Found (BeginsUserToUser dce server.state token) None → awaits_last_word dce server.state ≡ false
        → AcceptsWhole G.admits server dce token env draw old answer server' new ↔ AcceptsInHalves G.admits server dce token draw old answer server' new }
    ensures no_other { (server : Kerberos) (dce : Bool) (token : List ℕ) (draw : Draw) (prepared : Prepared)
        → Prepares server dce token draw prepared
        → Found (BeginsUserToUser dce server.state token) None × (awaits_last_word dce server.state ≡ false) }
{}
