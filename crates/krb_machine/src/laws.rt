//! Laws of the service, for all values.

ghost use Rattle.std.specs.List.{IsDistinct as IsDistinctBy};
ghost use Rattle.std.specs.Ordering.{int_eq};
ghost use Rattle.std.specs.Prelude.{◌≡◌, ℕ, List, Result, ◌≢◌, ◌↔◌, ◌⊎◌, ◌++◌, length, true, Some, None, Ok, Err};
ghost use Rattle.sspi_core.specs.declared.cause.Cause.{Cause};
ghost use Rattle.sspi_core.specs.declared.draw.Draw.{Draw};
ghost use Rattle.sspi_generator.specs.declared.network.NetFault.{NetFault};
ghost use Rattle.krb_context.specs.Rules.{no_rules};
ghost use Rattle.krb_context.specs.declared.context.Kerberos.{Kerberos};
ghost use Rattle.krb_context.specs.declared.rules.Rules.{Rules};
ghost use Rattle.krb_initiator.specs.Beginnings.{BeginsInitiation};
ghost use Rattle.krb_initiator.specs.declared.options.InitOptions.{InitOptions};
ghost use Rattle.krb_initiator.specs.declared.seeker.Initiation.{Initiation};
ghost use Rattle.krb_machine.specs.Steps.{BeginsRun, GoesOn};
ghost use Rattle.krb_machine.specs.declared.exchange.Step.{Step};
ghost use Rattle.krb_machine.specs.declared.run.Run.{Run};
ghost use Rattle.krb_replay.specs.Book.{Book, Follows, StandsFor};
ghost use Rattle.krb_replay.specs.Clock.{clock_refusal};
ghost use Rattle.krb_replay.specs.History.{History, verdict_of};
ghost use Rattle.krb_replay.specs.Records.{IsDistinct};
ghost use Rattle.krb_replay.specs.declared.ask.Verdict.{Verdict};
ghost use Rattle.krb_replay.specs.declared.ask.Verdict.TheVariants.{Admitted};
ghost use Rattle.krb_admission.specs.Accepts.{asks_dce_style, refusal, BeginsAdmission, FinishesAdmission};
ghost use Rattle.krb_admission.specs.Admission.{answer_for};
ghost use Rattle.krb_admission.specs.Requests.{ask_of};
ghost use Rattle.krb_admission.specs.declared.request.Request.{Request};
ghost use Rattle.krb_admission.specs.declared.admission.Admission.{Admission};
ghost use Rattle.krb_script.specs.Script.{Setup};
ghost use Rattle.krb_script.specs.declared.item.Event.{Event};
ghost use Rattle.krb_machine.specs.declared.connection.Connection.{Connection};
ghost use Rattle.krb_machine.specs.declared.reply.Reply.{Reply};
ghost use Rattle.krb_machine.specs.Policy.{State, Steps, Runs, Says, Brings, reached, reply_of, server_flags, draw_of};
ghost use Rattle.krb_machine.specs.Described.{Remembers, service_of, with_gate};
ghost use Rattle.krb_machine.specs.Left.{record_left, records_left};
ghost use Rattle.krb_machine.specs.Admitted.{IsAllowed, GoBy, IsAdmissible, reply_to, service_behind};
ghost use Rattle.krb_machine.specs.Reply.{admits_peer};
ghost use Rattle.krb_machine.specs.Opened.{Lists, StandFor, AreJudgedBy, lists_behind, BringOctets};
ghost use Rattle.krb_machine.specs.Serve.{Written, end_of};
ghost use Rattle.krb_text.specs.declared.status.Status.{Status};
ghost use Rattle.krb_text.specs.declared.status.Status.TheVariants.{Done, BadWords, ReadFault, WriteFault, OutOfMemory};
ghost use Rattle.krb_machine.specs.Text.{IsText};

use krb_replay::ReplayGate;

/// An initiator has at most one initiation to begin, and each step of an exchange has at most one outcome, determined by its run, the
/// answer of the network and the draw.
pub fn one_outcome()
    ensures initiations { (context : Kerberos) (options : InitOptions) (r s : Result Initiation Cause)
        → BeginsInitiation context options r → BeginsInitiation context options s → r ≡ s }
    ensures begins { (run : Run) (draw : Draw) (r s : Step) → BeginsRun run draw r → BeginsRun run draw s → r ≡ s }
    ensures goes_on { (run : Run) (answer : Result (List ℕ) NetFault) (draw : Draw) (r s : Step)
        → GoesOn run answer draw r → GoesOn run answer draw s → r ≡ s }
{}

/// Each service, event and verdict of the gate has at most one reply, and one next service.
pub fn one_reply<G>()
    ensures { (verdict : Verdict) (state a b : State G) (event : Event) (r s : Reply)
        → Steps (Says verdict) state event r a → Steps (Says verdict) state event s b → (r ≡ s) × (a ≡ b) }
{}

/// Over any gate, a run has one reply for each event.
pub fn one_reply_an_event<G: ReplayGate>()
    ensures { (state after : State G) (events : List Event) (replies : List Reply)
        → Runs G.admits state events replies after → length replies ≡ length events }
{}

/// Each input has at most one text.
pub fn one_text()
    ensures { (input a b : List ℕ) → IsText input a → IsText input b → a ≡ b }
{}

/// Over the gate that never forgets, no record is left by two events of a run, on whichever connections they are, nor by an
/// event if the gate has it already; and each event that admits its peer leaves one.
pub fn records_are_left_once()
    ensures once { (skew : ℕ) (state after : State History) (events : List Event) (replies : List Reply)
        (runs : Runs (Remembers skew) state events replies after) → IsDistinct state.gate.admitted
        → IsDistinct (state.gate.admitted ++ records_left (Remembers skew) state events replies after runs) }
    ensures done { (skew : ℕ) (state after : State History) (event : Event) (reply : Reply) (step : Steps (Remembers skew) state event reply after)
        → admits_peer reply ≡ true → length (record_left (Remembers skew) state event reply after step) ≡ 1 }
{}

/// An event admits its peer exactly if it is admissible: its token came to an acceptor that waits for one and is an AP-REQ, whose
/// ticket is encrypted under the service's key, whose authenticator is encrypted under the ticket's, whose record no event left
/// before, and which the rules of the context allow, in time and in order. The reply has the AP-REP that the options ask for, and
/// the connection becomes the one that the options ask for.
pub fn admitted_exactly_where()
    ensures exactly { (skew : ℕ) (state after : State History) (event : Event) (reply : Reply)
        → Steps (Remembers skew) state event reply after → (admits_peer reply ≡ true) ↔ IsAdmissible skew state event }
    ensures answer { (skew : ℕ) (state after : State History) (event : Event) (reply : Reply)
        → Steps (Remembers skew) state event reply after → (admissible : IsAdmissible skew state event) → reply ≡ reply_to admissible }
    ensures service { (skew : ℕ) (state after : State History) (event : Event) (reply : Reply)
        → Steps (Remembers skew) state event reply after → (admissible : IsAdmissible skew state event) → after ≡ service_behind admissible }
    ensures book { (before after : State Book) (h : History) (event : Event) (reply : Reply) → StandsFor before.gate h
        → Steps (Follows StandsFor) before event reply after
        → (admits_peer reply ≡ true) ↔ IsAdmissible before.gate.skew (with_gate before h) event }
    ensures book_answer { (before after : State Book) (h : History) (event : Event) (reply : Reply) → StandsFor before.gate h
        → Steps (Follows StandsFor) before event reply after
        → (admissible : IsAdmissible before.gate.skew (with_gate before h) event) → reply ≡ reply_to admissible }
{}

/// A context without rules allows every request, and each connection that the lines of an input describe has no rules. The laws of
/// `krb_admission` whose names begin with `without_rules` say how clients are compared then, which are known, and what their records
/// are.
pub fn without_rules_nothing_is_asked_besides()
    ensures allowed { (context : Kerberos) (request : Request) → context.rules ≡ no_rules → IsAllowed context request }
    ensures lines { (setup : Setup) → GoBy no_rules (service_of setup) }
{}

/// No event changes the rules of a connection, whatever the gate.
pub fn rules_stay<G: ReplayGate>()
    ensures { (rules : Rules) (state after : State G) (events : List Event) (replies : List Reply)
        → Runs G.admits state events replies after → GoBy rules state → GoBy rules after }
{}

/// An event in time, at an acceptor that waits for a token, whose AP-REQ passes every check and is admitted by the gate that
/// never forgets, is answered Done.
pub fn completeness()
    ensures { (skew : ℕ) (state after : State History) (event : Event) (reply : Reply) (connection : Connection) (token : List ℕ)
        (request : Request) (admission : Admission)
        → Steps (Remembers skew) state event reply after → reached state.connections event ≡ Ok (connection, token)
        → BeginsAdmission connection.context (asks_dce_style (server_flags event.flags)) token (Ok request)
        → verdict_of skew state.gate (ask_of connection.context.rules request event.moment) ≡ Admitted
        → FinishesAdmission connection.context (asks_dce_style (server_flags event.flags)) (draw_of event) request (Ok admission)
        → reply ≡ reply_of (Ok (answer_for admission)) }
{}

/// A run over a replay book is a run over the gate that never forgets, for each history that the book represents: with the
/// same replies and connections, and the book afterwards represents the history after the run.
pub fn runs_never_forget()
    ensures { (before after : State Book) (events : List Event) (replies : List Reply) (h : History)
        → StandsFor before.gate h → Runs (Follows StandsFor) before events replies after
        → (later : History) × Runs (Remembers before.gate.skew) (with_gate before h) events replies (with_gate after later)
        × StandsFor after.gate later }
{}

/// Over a replay book, no record is left by two events of a run, on whichever connections they are, nor by an event if the
/// book admitted it before; and each event that admits its peer leaves one. So no two admitted events share a record.
pub fn books_admit_a_record_once()
    ensures once { (before after : State Book) (events : List Event) (replies : List Reply) (h : History)
        (runs : Runs (Follows StandsFor) before events replies after) → StandsFor before.gate h
        → IsDistinct (h.admitted ++ records_left (Follows StandsFor) before events replies after runs) }
    ensures done { (before after : State Book) (event : Event) (reply : Reply) (step : Steps (Follows StandsFor) before event reply after)
        → admits_peer reply ≡ true → length (record_left (Follows StandsFor) before event reply after step) ≡ 1 }
{}

/// Over a replay book, an event in time, at an acceptor that waits for a token, whose AP-REQ passes every check and has a
/// record that the book never admitted, is answered Done.
pub fn completeness_over_a_book()
    ensures { (before after : State Book) (h : History) (event : Event) (reply : Reply) (connection : Connection) (token : List ℕ)
        (request : Request) (admission : Admission) → StandsFor before.gate h
        → Steps (Follows StandsFor) before event reply after → reached before.connections event ≡ Ok (connection, token)
        → BeginsAdmission connection.context (asks_dce_style (server_flags event.flags)) token (Ok request)
        → verdict_of before.gate.skew h (ask_of connection.context.rules request event.moment) ≡ Admitted
        → FinishesAdmission connection.context (asks_dce_style (server_flags event.flags)) (draw_of event) request (Ok admission)
        → reply ≡ reply_of (Ok (answer_for admission)) }
{}

/// Over any gate, from the obligations of every gate alone: a request that reaches the gate is refused for the first of the clock's
/// refusals at the moment that the gate judges by, if there is one; if the event admits its peer there is none; and a run
/// leaves the skew.
pub fn gates_refuse_by_the_clock<G: ReplayGate>()
    ensures refused { (state after : State G) (event : Event) (reply : Reply) (request : Request) (verdict : Verdict) (cause : Cause)
        → Steps G.admits state event reply after → (brings : Brings state.connections event request)
        → clock_refusal (G.skew state.gate) (G.moment after.gate) (ask_of brings.connection.context.rules request event.moment) ≡ Some verdict
        → refusal verdict ≡ Some cause → reply ≡ reply_of (Err cause) }
    ensures done { (state after : State G) (event : Event) (reply : Reply) (request : Request)
        → Steps G.admits state event reply after → (brings : Brings state.connections event request) → admits_peer reply ≡ true
        → clock_refusal (G.skew state.gate) (G.moment after.gate) (ask_of brings.connection.context.rules request event.moment) ≡ None }
    ensures skew { (state after : State G) (events : List Event) (replies : List Reply)
        → Runs G.admits state events replies after → G.skew after.gate ≡ G.skew state.gate }
{}

/// Messages by the lists that never forget, over any gate. Over a run of events, from connections whose windows represent lists: a
/// message that is decrypted was fresh by its connection's list, one that is refused as old or repeated was so by that list, and the
/// windows afterwards represent the lists with the places of the messages that were decrypted. So no place is decrypted twice.
pub fn messages_follow_the_lists<G: ReplayGate>()
    ensures judged { (lists : Lists) (state after : State G) (events : List Event) (replies : List Reply) → BringOctets events
        → Runs G.admits state events replies after → StandFor state lists → AreJudgedBy lists events replies }
    ensures stand { (lists : Lists) (state after : State G) (events : List Event) (replies : List Reply) → BringOctets events
        → Runs G.admits state events replies after → StandFor state lists → StandFor after (lists_behind lists events replies) }
    ensures once { (lists : Lists) (state after : State G) (events : List Event) (replies : List Reply) → BringOctets events
        → Runs G.admits state events replies after → StandFor state lists
        → (id : ℕ) → IsDistinctBy int_eq (lists id) → IsDistinctBy int_eq (lists_behind lists events replies id) }
{}

/// An input with no bad and no long line is answered whole, or a read or a write fails, or memory runs out.
pub fn inputs_are_answered()
    ensures { (input taken written : List ℕ) (status : Status) → end_of input ≡ Done → Written input taken status written → status ≢ BadWords
        → (status ≡ Done) ⊎ ((status ≡ ReadFault) ⊎ ((status ≡ WriteFault) ⊎ (status ≡ OutOfMemory))) }
{}
