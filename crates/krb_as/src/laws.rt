//! Laws of requests, replies and the AS exchange, for all values.

ghost use Rattle.std.specs.Prelude.{◌≡◌, ◌≢◌, ◌<◌, ◌≤◌, ◌^◌, ℕ, List, Result, length, take, Ok, Err, IsTrue, false};
ghost use Rattle.sspi_core.specs.declared.cause.Cause.{Cause};
ghost use Rattle.sspi_core.specs.declared.protocol.NetworkProtocol.{NetworkProtocol};
ghost use Rattle.sspi_core.specs.declared.protocol.NetworkProtocol.TheVariants as protocols;
ghost use Rattle.sspi_generator.specs.declared.network.NetFault.{NetFault};
ghost use Rattle.krb_der.specs.Schema.{is_ascii};
ghost use Rattle.krb_messages.specs.Frame.{with_length};
ghost use Rattle.krb_as.specs.Requests.{carried};
ghost use Rattle.krb_as.specs.Replies.{Unwraps, Replies};
ghost use Rattle.sspi_core.specs.declared.draw.Draw.{Draw};
ghost use Rattle.krb_as.specs.declared.as_phase.AsPhase.{AsPhase};
ghost use Rattle.krb_as.specs.declared.as_phase.AsPhase.TheVariants.{AwaitsError};
ghost use Rattle.krb_as.specs.declared.asker.Asker.{Asker};
ghost use Rattle.krb_as.specs.declared.kdc.Kdc.{Kdc};
ghost use Rattle.krb_as.specs.declared.key.Grant.{Grant};
ghost use Rattle.krb_as.specs.AsPhases.{TakesReply};
ghost use Rattle.krb_context.specs.Rules.{no_rules, has_rule, no_preauthentication, suite_of_each_key};
ghost use Rattle.krb_crypto.specs.declared.suite.CipherSuite.{CipherSuite};
ghost use Rattle.krb_exchange.specs.declared.krb_error.KrbError.{KrbError};
ghost use Rattle.krb_as.specs.Askers.{asker_suite};
ghost use Rattle.krb_as.specs.Replied.{LeavesSuite};
ghost use Rattle.krb_exchange.specs.declared.kdc_rep.AsRep.{AsRep};
ghost use Rattle.krb_exchange.specs.declared.kdc_req.KdcReqBody.{KdcReqBody};
ghost use Rattle.krb_exchange.specs.declared.result.KrbResult.TheVariants.{Ok as Reply};
ghost use Rattle.krb_exchange.specs.Layouts.{as_rep_layout};
ghost use Rattle.sspi_core.specs.declared.cause.Cause.TheVariants.{EarlyAsRep};
ghost use Rattle.krb_as.specs.declared.as_exchange.AsDone.{AsDone};
ghost use Rattle.krb_as.specs.declared.as_exchange.ExchangePhase.{ExchangePhase};
ghost use Rattle.krb_as.specs.declared.turn.Turn.{Turn};
ghost use Rattle.krb_as.specs.declared.as_exchange.AsExchange.{AsExchange};
ghost use Rattle.krb_as.specs.AsExchanges.{Starts, Next, IsNew, StartsAt, ResumesAt};
ghost use Rattle.sspi_core.specs.declared.error.Error.{Error};
ghost use Rattle.sspi_generator.specs.Runs.{Resolves};

use sspi_generator::NetworkClient;

/// A message that is carried as a request is, and unwrapped as a reply, is unwrapped to itself. Over UDP a reply has four bytes more
/// than a request: there, the message after its length is unwrapped to the message.
pub fn what_is_carried_is_unwrapped()
    ensures message { (protocol : NetworkProtocol) (realm message : List ℕ) → protocol ≢ protocols.Udp → IsTrue (is_ascii realm)
        → length message < 2 ^ 23 → length realm < 2 ^ 22 → Unwraps protocol (Ok (carried protocol realm message)) (Ok message) }
    ensures udp { (message : List ℕ) → length message < 2 ^ 23 → Unwraps protocols.Udp (Ok (with_length message)) (Ok message) }
{}

/// A reply is unwrapped to one answer.
pub fn one_answer()
    ensures { (protocol : NetworkProtocol) (reply : Result (List ℕ) NetFault) (x y : Result (List ℕ) Cause)
        → Unwraps protocol reply x → Unwraps protocol reply y → x ≡ y }
{}

/// Each step of an AS exchange has at most one outcome: a request and what awaits its answer, the end, or one refusal. It is
/// determined by the asker, the phase of the exchange, the reply and the draw.
pub fn one_outcome()
    ensures starts { (asker : Asker) (phase : ExchangePhase) (r s : Result (Turn ExchangePhase AsDone) Cause) → Starts asker phase r → Starts asker phase s → r ≡ s }
    ensures resumes { (asker : Asker) (phase : ExchangePhase) (reply : Result (List ℕ) NetFault) (draw : Draw)
        (r s : Result (Turn ExchangePhase AsDone) Cause)
        → Next asker phase reply draw r → Next asker phase reply draw s → r ≡ s }
{}

/// A first reply that is an AS-REP is refused as EarlyAsRep unless the caller allows that there is no pre-authentication.
pub fn early_as_reps_are_refused()
    ensures { (asker : Asker) (kdc : Kdc) (body : KdcReqBody) (reply : Result (List ℕ) NetFault) (draw : Draw) (as_rep : AsRep)
        (answer : Result (Turn AsPhase Grant) Cause) → has_rule asker.rules no_preauthentication ≡ false
        → Replies kdc.protocol as_rep_layout reply (Ok (Reply as_rep)) → TakesReply asker (AwaitsError kdc body) reply draw answer
        → answer ≡ Err EarlyAsRep }
{}

/// Without rules, the time is sealed in the suite of the client's own key, whatever suite an error names.
pub fn without_rules_the_time_is_in_the_own_suite()
    ensures { (asker : Asker) (error : KrbError) (answer : Result CipherSuite Cause) → asker.rules ≡ no_rules
        → LeavesSuite (has_rule asker.rules suite_of_each_key) asker error answer → answer ≡ Ok (asker_suite asker) }
{}

/// A run of an AS exchange asks twice at most, with any network client: it ends over the first three of its draws as over all of them.
pub fn exchanges_ask_twice_at_most<C: NetworkClient>()
    ensures { (exchange exchange' : AsExchange)
        (client client' : C) (draws : List Draw) (out : Result AsDone Error) → IsNew exchange
        → Resolves StartsAt ResumesAt C.sends exchange client draws out exchange' client'
        → Resolves StartsAt ResumesAt C.sends exchange client (take 3 draws) out exchange' client' }
{}
