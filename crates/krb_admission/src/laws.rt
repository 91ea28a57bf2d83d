//! Laws of admission, for all values.

ghost use Rattle.std.specs.Prelude.{◌≡◌, ◌↔◌, ℕ, Bool, true, false, ◌&&◌, List, [], is_some, Result, Ok, ◌==◌};
ghost use Rattle.std.specs.Cmp.Lexicographic.{pointwise};
ghost use Rattle.krb_context.specs.Rules.{no_rules, has_rule, records_by_tag};
ghost use Rattle.krb_context.specs.declared.rules.Rules.{Rules};
ghost use Rattle.krb_messages.specs.declared.authenticator.Authenticator.{Authenticator};
ghost use Rattle.krb_messages.specs.declared.enc_ticket_part.EncTicketPart.{EncTicketPart};
ghost use Rattle.krb_messages.specs.declared.principal_name.PrincipalName.{PrincipalName};
ghost use Rattle.krb_admission.specs.Admission.{next_number_octets};
ghost use Rattle.krb_admission.specs.ThirdLeg.{repeats};
ghost use Rattle.sspi_core.specs.declared.cause.Cause.{Cause};
ghost use Rattle.sspi_core.specs.declared.draw.Draw.{Draw};
ghost use Rattle.krb_replay.specs.declared.ask.Verdict.{Verdict};
ghost use Rattle.krb_replay.specs.declared.ask.Verdict.TheVariants.{Admitted};
ghost use Rattle.krb_context.specs.declared.context.Kerberos.{Kerberos};
ghost use Rattle.krb_admission.specs.declared.admission.Answer.{Answer};
ghost use Rattle.krb_admission.specs.declared.admission.Admission.{Admission};
ghost use Rattle.krb_admission.specs.Accepts.{awaits_last_word, DecidesAdmission, Accepts, MakesAnswer};
ghost use Rattle.krb_admission.specs.declared.request.Request.{Request};
ghost use Rattle.krb_admission.specs.Allowed.{Allows};
ghost use Rattle.krb_admission.specs.Clients.{client_of, user_of, is_known_client};
ghost use Rattle.krb_admission.specs.Requests.{is_same_client, tag_of, record_tag, ask_of};
ghost use Rattle.krb_admission.specs.Halves.{JudgesAndAdmits};
ghost use Rattle.krb_admission.specs.ThirdLeg.{Concludes};

use krb_replay::ReplayGate;

/// Each context, token, draw and verdict of the gate has at most one outcome: a spelling is of one record, and a text is
/// sealed to one plain text.
pub fn one_outcome()
    ensures { (server : Kerberos) (dce : Bool) (token : List ℕ) (draw : Draw) (verdict : Verdict) (r s : Result Admission Cause)
        → DecidesAdmission server dce token draw verdict r → DecidesAdmission server dce token draw verdict s → r ≡ s }
{}

/// An AP-REQ that passes every check, and that the gate admits, is accepted, and the context is settled.
pub fn completeness<G: ReplayGate>()
    ensures { (server server' : Kerberos) (dce : Bool) (token : List ℕ) (draw : Draw) (old new : G) (answer : Result Answer Cause) (admission : Admission)
        → (step : Accepts G.admits server dce token draw old answer server' new) → step.verdict ≡ Admitted
        → DecidesAdmission server dce token draw Admitted (Ok admission) → MakesAnswer server (Ok admission) answer server' }
{}

/// If no third leg is awaited, a token is answered as by `judge` and `admit`, one after the other at one context, with any
/// gate: the same refusals in the same order, with the gate's verdict in its place.
pub fn admission_has_two_halves<G: ReplayGate>()
    ensures { (server server' : Kerberos) (dce : Bool) (token : List ℕ) (draw : Draw) (old new : G) (answer : Result Answer Cause)
        → awaits_last_word dce server.state ≡ false
        → Accepts G.admits server dce token draw old answer server' new ↔ JudgesAndAdmits G.admits server dce token draw old answer server' new }
{}

/// Each context and third leg of an initiator has at most one answer, and one context afterwards.
pub fn one_last_word()
    ensures { (server : Kerberos) (token : List ℕ) (r s : Result Answer Cause) (a b : Kerberos)
        → Concludes server token r a → Concludes server token s b → (r ≡ s) × (a ≡ b) }
{}

/// Without rules, the sequence number of a third leg is compared by its octets.
pub fn without_rules_last_words_are_compared_by_octets()
    ensures { (own : ℕ) (number : List ℕ) → repeats no_rules own number ≡ pointwise ◌==◌ number (next_number_octets own) }
{}

/// Without rules, clients are compared by realm, type and components.
pub fn without_rules_clients_are_compared_by_type_too()
    ensures { (part : EncTicketPart) (authenticator : Authenticator) → is_same_client no_rules part authenticator
        ≡ (pointwise ◌==◌ part.crealm authenticator.crealm && (pointwise ◌==◌ part.cname.name_type authenticator.cname.name_type
        && pointwise (pointwise ◌==◌) part.cname.name_string authenticator.cname.name_string)) }
{}

/// Without rules, nothing is asked of a ticket and its authenticator besides.
pub fn without_rules_all_tickets_are_allowed()
    ensures { (server : Kerberos) (request : Request) → server.rules ≡ no_rules → Allows server request (Ok tt) }
{}

/// Without rules, a client is known by its user name, and has to have one.
pub fn without_rules_clients_have_user_names()
    ensures user { (name : PrincipalName) (realm : List ℕ) → user_of no_rules name realm ≡ client_of name realm }
    ensures known { (name : PrincipalName) (realm : List ℕ) → is_known_client no_rules name realm ≡ is_some (client_of name realm) }
{}

/// Without rules, records have no tag.
pub fn without_rules_records_have_no_tag()
    ensures { (request : Request) → record_tag no_rules request ≡ [] }
{}

/// Two log-ins have one record by tag only where the same twelve octets end both authenticators.
pub fn records_by_tag_tell_ciphers_apart()
    ensures { (rules : Rules) (one other : Request) (moment later : ℕ) → has_rule rules records_by_tag ≡ true
        → (ask_of rules one moment).entry ≡ (ask_of rules other later).entry → tag_of one ≡ tag_of other }
{}
