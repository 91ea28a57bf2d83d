//! Laws of an initiation, for all values.

ghost use Rattle.std.specs.Prelude.{◌≡◌, ℕ, true, List, [], ◌∷◌, ◌++◌, take, Result, Ok};
ghost use Rattle.krb_context.specs.Rules.{has_rule, fresh_replies, answers_its_authenticator};
ghost use Rattle.krb_context.specs.declared.context.Kerberos.{Kerberos};
ghost use Rattle.sspi_core.specs.declared.cause.Cause.{Cause};
ghost use Rattle.sspi_core.specs.declared.draw.Draw.{Draw};
ghost use Rattle.sspi_core.specs.declared.error.Error.{Error};
ghost use Rattle.sspi_generator.specs.declared.network.NetworkRequest.{NetworkRequest};
ghost use Rattle.sspi_generator.specs.declared.network.NetFault.{NetFault};
ghost use Rattle.sspi_generator.specs.Runs.{Resolves};
ghost use Rattle.krb_as.specs.declared.done.InitDone.{InitDone};
ghost use Rattle.krb_as.specs.declared.turn.Turn.{Turn};
ghost use Rattle.krb_as.specs.declared.turn.Turn.TheVariants.{Asks, Ends};
ghost use Rattle.krb_initiator.specs.declared.options.InitOptions.{InitOptions};
ghost use Rattle.krb_initiator.specs.declared.init_run.InitRun.{InitRun};
ghost use Rattle.krb_initiator.specs.declared.seeker.Seeker.{Seeker};
ghost use Rattle.krb_initiator.specs.declared.seeker.Initiation.{Initiation};
ghost use Rattle.krb_initiator.specs.declared.seeker.Initiation.TheVariants.{Seeks};
ghost use Rattle.krb_initiator.specs.declared.seeker.InitPhase.{InitPhase};
ghost use Rattle.krb_initiator.specs.declared.seeker.InitPhase.TheVariants.{New};
ghost use Rattle.krb_initiator.specs.Beginnings.{BeginsInitiation};
ghost use Rattle.krb_initiator.specs.InitRuns.{Starts, Next, BeginsSo, IsNew, StartsAt, ResumesAt};
ghost use Rattle.krb_initiator.specs.Came.{Came, IsSession};
ghost use Rattle.krb_initiator.specs.FreshRuns.{Arrival, CameFresh, IsFreshSession, AnswersAuthenticator};
ghost use Rattle.krb_initiator.specs.InitSteps.{HearsAnswer};
ghost use Rattle.krb_ap.specs.declared.initiator.Initiator.{Initiator};

use sspi_generator::NetworkClient;

/// The session key is the last key of a chain of the run's own replies that begins with the credentials' key: no reply is before the
/// start; the replies that brought a run to a phase bring it, with the next reply, to the next phase; and to its end, with the
/// session key.
pub fn the_keys_of_the_replies_are_a_chain()
    ensures begins { (seeker : Seeker) (draw : Draw) (request : NetworkRequest) (phase : InitPhase)
        → Starts (Seeks seeker) New draw (Ok (Asks request phase)) → Came seeker [] phase }
    ensures goes_on { (seeker : Seeker) (replies : List (Result (List ℕ) NetFault)) (phase : InitPhase) (reply : Result (List ℕ) NetFault) (draw : Draw)
        (request : NetworkRequest) (next : InitPhase)
        → Came seeker replies phase → Next (Seeks seeker) phase reply draw (Ok (Asks request next)) → Came seeker (replies ++ (reply ∷ [])) next }
    ensures ends { (seeker : Seeker) (replies : List (Result (List ℕ) NetFault)) (phase : InitPhase) (reply : Result (List ℕ) NetFault) (draw : Draw)
        (done : InitDone)
        → Came seeker replies phase → Next (Seeks seeker) phase reply draw (Ok (Ends done)) → IsSession seeker (replies ++ (reply ∷ [])) done }
{}

/// Each reply that a run takes answers the request that this very run made, if the rules have `FRESH_REPLIES`: the AS-REP has the
/// nonce that was drawn at the start, and each TGS-REP the one that was drawn at the step to which the reply before it came, with the
/// names that were asked for, and a ticket that is valid then. And if they have `ANSWERS_ITS_AUTHENTICATOR`, the service's answer has
/// the time of the authenticator that was shown.
pub fn each_reply_answers_its_request()
    ensures begins { (seeker : Seeker) (start : Draw) (request : NetworkRequest) (phase : InitPhase)
        → Starts (Seeks seeker) New start (Ok (Asks request phase)) → CameFresh seeker start [] phase }
    ensures goes_on { (seeker : Seeker) (start : Draw) → has_rule seeker.asker.rules fresh_replies ≡ true → (arrivals : List Arrival)
        (arrival : Arrival) (phase : InitPhase) (request : NetworkRequest) (next : InitPhase) → CameFresh seeker start arrivals phase
        → Next (Seeks seeker) phase arrival.reply arrival.draw (Ok (Asks request next))
        → CameFresh seeker start (arrivals ++ (arrival ∷ [])) next }
    ensures ends { (seeker : Seeker) (start : Draw) → has_rule seeker.asker.rules fresh_replies ≡ true → (arrivals : List Arrival)
        (arrival : Arrival) (phase : InitPhase) (done : InitDone) → CameFresh seeker start arrivals phase
        → Next (Seeks seeker) phase arrival.reply arrival.draw (Ok (Ends done))
        → IsFreshSession seeker start (arrivals ++ (arrival ∷ [])) done }
    ensures answered { (initiator : Initiator) (token : List ℕ) (draw : Draw) (done : InitDone)
        → has_rule initiator.rules answers_its_authenticator ≡ true → HearsAnswer initiator token draw (Ok (Ends done))
        → AnswersAuthenticator initiator token }
{}

/// A context and the caller's options determine an initiator's beginning, and the run or the error that is returned; and each step of
/// that run has at most one outcome, determined by the initiation, how far the run has come, the reply and the draw.
pub fn one_outcome()
    ensures begins { (context : Kerberos) (options : InitOptions) (r s : Result Initiation Cause) → BeginsInitiation context options r
        → BeginsInitiation context options s → r ≡ s }
    ensures runs { (answer : Result Initiation Cause) (r s : Result InitRun Error) → BeginsSo answer r → BeginsSo answer s → r ≡ s }
    ensures starts { (initiation : Initiation) (phase : InitPhase) (draw : Draw) (r s : Result (Turn InitPhase InitDone) Cause)
        → Starts initiation phase draw r → Starts initiation phase draw s → r ≡ s }
    ensures resumes { (initiation : Initiation) (phase : InitPhase) (reply : Result (List ℕ) NetFault) (draw : Draw)
        (r s : Result (Turn InitPhase InitDone) Cause)
        → Next initiation phase reply draw r → Next initiation phase reply draw s → r ≡ s }
{}

/// A run from a new initiation asks twelve times at most, whoever sends: its outcome is the one over the first thirteen of its
/// draws.
pub fn initiations_ask_twelve_times_at_most<C: NetworkClient>()
    ensures { (run run' : InitRun)
        (client client' : C) (draws : List Draw) (out : Result InitDone Error) → IsNew run
        → Resolves StartsAt ResumesAt C.sends run client draws out run' client'
        → Resolves StartsAt ResumesAt C.sends run client (take 13 draws) out run' client' }
{}
