//! Laws of an initiation that begins with a ticket, for all values.

ghost use Rattle.std.specs.Prelude.{◌≡◌, ℕ, true, List, [], ◌∷◌, ◌++◌, Result, Ok, Err};
ghost use Rattle.sspi_core.specs.declared.cause.Cause.{Cause};
ghost use Rattle.sspi_core.specs.declared.draw.Draw.{Draw};
ghost use Rattle.sspi_generator.specs.declared.network.NetworkRequest.{NetworkRequest};
ghost use Rattle.sspi_generator.specs.declared.network.NetFault.{NetFault};
ghost use Rattle.krb_context.specs.Rules.{has_rule, fresh_replies};
ghost use Rattle.krb_as.specs.declared.done.InitDone.{InitDone};
ghost use Rattle.krb_as.specs.declared.key.Grant.{Grant};
ghost use Rattle.krb_as.specs.declared.turn.Turn.{Turn};
ghost use Rattle.krb_as.specs.declared.turn.Turn.TheVariants.{Asks, Ends};
ghost use Rattle.krb_initiator.specs.FreshRuns.{Arrival};
ghost use Rattle.krb_initiator.specs.InitRuns.{Next};
ghost use Rattle.krb_initiator.specs.declared.seeker.Seeker.{Seeker};
ghost use Rattle.krb_initiator.specs.declared.seeker.Initiation.TheVariants.{Seeks};
ghost use Rattle.krb_initiator.specs.declared.seeker.InitPhase.{InitPhase};
ghost use Rattle.krb_initiator.specs.declared.seeker.InitPhase.TheVariants.{AwaitsTgsRep};
ghost use Rattle.krb_initiator.specs.declared.seeker.TgsLeg.{TgsLeg};
ghost use Rattle.krb_tickets.specs.Brought.{ShowsNext, EndsWith};
ghost use Rattle.krb_tickets.specs.Steps.{StartsHeld};
ghost use Rattle.krb_tickets.specs.Cached.{HoldsCredential, credential_of, CanBeCached, ShowsSame};
ghost use Rattle.krb_tickets.specs.Came.{held_key, CameHeld, HasSessionKey, IsHeldSession};
ghost use Rattle.krb_tickets.specs.FreshRuns.{CameFresh, IsFreshSession};

/// Session keys come from the held ticket. If it is shown to the service at once, the session key is the ticket's. Otherwise it is the last
/// key of a chain of the run's own TGS-REPs, each encrypted under the key before it, the first under the ticket's; no AS exchange is made.
pub fn session_keys_come_from_the_held_ticket()
    ensures shows { (seeker : Seeker) (held : Grant) (draw : Draw) (done : InitDone)
        → StartsHeld seeker held draw (Ok (Ends done)) → HasSessionKey done (held_key held) }
    ensures begins { (seeker : Seeker) (held : Grant) (draw : Draw) (request : NetworkRequest) (phase : InitPhase)
        → StartsHeld seeker held draw (Ok (Asks request phase)) → CameHeld seeker held [] phase }
    ensures goes_on { (seeker : Seeker) (held : Grant) (replies : List (Result (List ℕ) NetFault)) (phase : InitPhase)
        (reply : Result (List ℕ) NetFault) (draw : Draw) (request : NetworkRequest) (next : InitPhase)
        → CameHeld seeker held replies phase → Next (Seeks seeker) phase reply draw (Ok (Asks request next))
        → CameHeld seeker held (replies ++ (reply ∷ [])) next }
    ensures ends { (seeker : Seeker) (held : Grant) (replies : List (Result (List ℕ) NetFault)) (phase : InitPhase)
        (reply : Result (List ℕ) NetFault) (draw : Draw) (done : InitDone)
        → CameHeld seeker held replies phase → Next (Seeks seeker) phase reply draw (Ok (Ends done))
        → IsHeldSession seeker held (replies ++ (reply ∷ [])) done }
{}

/// With `FRESH_REPLIES` among the rules each TGS-REP that a run takes after a held ticket answers the request that this very run made: it
/// has the nonce that was drawn at the step before it, the names that were asked for, and a ticket that is valid when it comes.
pub fn each_reply_answers_its_request()
    ensures begins { (seeker : Seeker) (held : Grant) (start : Draw) (request : NetworkRequest) (phase : InitPhase)
        → StartsHeld seeker held start (Ok (Asks request phase)) → CameFresh seeker held start [] phase }
    ensures goes_on { (seeker : Seeker) (held : Grant) (start : Draw) → has_rule seeker.asker.rules fresh_replies ≡ true
        → (arrivals : List Arrival) (arrival : Arrival) (phase : InitPhase) (request : NetworkRequest) (next : InitPhase)
        → CameFresh seeker held start arrivals phase
        → Next (Seeks seeker) phase arrival.reply arrival.draw (Ok (Asks request next))
        → CameFresh seeker held start (arrivals ++ (arrival ∷ [])) next }
    ensures ends { (seeker : Seeker) (held : Grant) (start : Draw) → has_rule seeker.asker.rules fresh_replies ≡ true
        → (arrivals : List Arrival) (arrival : Arrival) (phase : InitPhase) (done : InitDone)
        → CameFresh seeker held start arrivals phase
        → Next (Seeks seeker) phase arrival.reply arrival.draw (Ok (Ends done))
        → IsFreshSession seeker held start (arrivals ++ (arrival ∷ [])) done }
{}

/// A start with a ticket has at most one outcome.
pub fn one_outcome()
    ensures starts { (seeker : Seeker) (held : Grant) (draw : Draw) (r s : Result (Turn InitPhase InitDone) Cause)
        → StartsHeld seeker held draw r → StartsHeld seeker held draw s → r ≡ s }
{}

/// The ticket that a reply brings, as `ticket_brought` returns it, is the one that the run goes on with: the next request shows it, or the
/// run ends with its key as the session key.
pub fn runs_go_on_with_the_ticket_that_is_brought()
    ensures shows { (seeker : Seeker) (phase : InitPhase) (reply : Result (List ℕ) NetFault) (draw : Draw) (request : NetworkRequest) (leg : TgsLeg)
        → Next (Seeks seeker) phase reply draw (Ok (Asks request (AwaitsTgsRep leg))) → ShowsNext (Seeks seeker) phase reply draw leg }
    ensures ends { (seeker : Seeker) (phase : InitPhase) (reply : Result (List ℕ) NetFault) (draw : Draw) (done : InitDone)
        → Next (Seeks seeker) phase reply draw (Ok (Ends done)) → EndsWith (Seeks seeker) phase reply draw done }
{}

/// A ticket that a KDC granted is held again from its credential: it is not refused, and shows the same client, ticket and key.
pub fn cached_tickets_show_what_was_granted()
    ensures shows { (grant held : Grant) → CanBeCached grant → HoldsCredential (credential_of grant) (Ok held) → ShowsSame held grant }
    ensures taken { (grant : Grant) (cause : Cause) → CanBeCached grant → HoldsCredential (credential_of grant) (Err cause) → ⊥ }
{}
