//! Laws of both ends over a service, for all values.

ghost use Rattle.std.specs.Prelude.{◌≡◌, ℕ, List, [], ◌∷◌, Some, None, ◌==◌, true, false, map};
ghost use Rattle.sspi_core.specs.declared.draw.Draw.{Draw};
ghost use Rattle.sspi_core.specs.declared.flags.ClientRequestFlags.{ClientRequestFlags};
ghost use Rattle.sspi_core.specs.declared.identity.CredentialsBuffers.{CredentialsBuffers};
ghost use Rattle.krb_conf.specs.declared.env.Env.{Env};
ghost use Rattle.krb_crypto.specs.declared.suite.CipherSuite.{CipherSuite};
ghost use Rattle.krb_messages.specs.declared.enc_ticket_part.EncTicketPart.{EncTicketPart};
ghost use Rattle.krb_exchange.specs.declared.kdc_rep.TgsRep.{TgsRep};
ghost use Rattle.krb_as.specs.declared.client.Client.{Client};
ghost use Rattle.krb_ap.specs.Initiators.{is_bare};
ghost use Rattle.krb_admission.specs.Allowed.{channel_held};
ghost use Rattle.krb_machine.specs.Initiations.{options_of};
ghost use Rattle.krb_machine.specs.declared.connection.Connection.{Connection};
ghost use Rattle.krb_machine.specs.declared.reply.Reply.{Reply};
ghost use Rattle.krb_laws_ends.specs.Answers.{AreNew, IsDraw, AreEstablished};
ghost use Rattle.krb_laws_ends.specs.Fetches.{CanBegin, seeker_for, HoldsKey};
ghost use Rattle.krb_laws_ends.specs.HonestKdc.{Answers, AreHonestKdcs};
ghost use Rattle.krb_laws_ends.specs.Offers.{FitsRules};
ghost use Rattle.krb_laws_service.specs.Served.{IsFetched, IsShown, ArePlayed, answer_to};
ghost use Rattle.krb_script.specs.Script.{at_id};
ghost use Rattle.krb_script.specs.declared.item.Event.{Event};
ghost use Rattle.krb_machine.specs.Admitted.{IsAdmissible, service_behind};
ghost use Rattle.krb_machine.specs.Described.{with_gate};
ghost use Rattle.krb_machine.specs.Policy.{State, Steps, Runs};
ghost use Rattle.krb_replay.specs.Book.{Book, Follows, StandsFor};
ghost use Rattle.krb_replay.specs.History.{History};
ghost use Rattle.krb_laws_service.specs.Listed.{Exchanged, AreReady, CanOnlyAdmit, handing, events_of, closing_of, EndsPlainly, EndsInTurn};
ghost use Rattle.krb_laws_ends.specs.Talk.{Turn, IsFair};

use krb_replay::ReplayGate;

/// Both ends over a service, or over two: an initiator that is started, and that gets the replies of honest KDCs, sends a token. An
/// acceptor that gets the token, holds the service's key, and whose gate admits the client, replies with a token; the initiator gets
/// that token, and in DCE style the acceptor gets the third leg. Then both are established with one session key, one subkey, one
/// suite and one EC. Events of other connections may come between. The acceptor may have any rules: the ticket is one that they
/// allow, and the acceptor holds its clients to no channel, since the initiator has no bindings here.
pub fn both_ends_reach_one_context_by_events<G: ReplayGate>()
    ensures { (initiator waiting acceptor : Connection) (flags : ClientRequestFlags) (env : Env) (target service_key : List ℕ)
        (credentials : CredentialsBuffers) (client : Client) (suite : CipherSuite) (answers : Answers) (rep : TgsRep) (part : EncTicketPart)
        (draw : Draw) (reply : Reply)
        → CanBegin initiator.context (options_of initiator env flags []) target credentials client
        → AreHonestKdcs (seeker_for initiator.context (options_of initiator env flags []) target credentials client) suite service_key draw answers rep part
        → IsDraw answers.last.draw → HoldsKey acceptor.context target service_key → FitsRules acceptor.context.rules part
        → channel_held acceptor.context ≡ None → AreNew initiator.context acceptor.context
        → initiator.exchange ≡ None → acceptor.exchange ≡ None
        → IsFetched G.admits flags env draw answers initiator reply waiting
        → IsShown G.admits suite part acceptor.context.encryption_params.ec (is_bare flags) reply waiting acceptor }
{}

/// An event leaves every connection but its own unchanged.
pub fn events_leave_other_connections<G: ReplayGate>()
    ensures { (state after : State G) (event : Event) (reply : Reply) (id : ℕ) → Steps G.admits state event reply after
        → (event.connection == id) ≡ false → at_id id after.connections ≡ at_id id state.connections }
{}

/// Over a replay book, an event that admits its peer leaves the service that it leaves over the gate that never forgets: the connection
/// is the admitted one, the book represents the history with the new record, and all else is unchanged.
pub fn books_leave_the_service_as_histories_do()
    ensures { (before after : State Book) (h : History) (event : Event) (reply : Reply) → StandsFor before.gate h
        → Steps (Follows StandsFor) before event reply after
        → (admissible : IsAdmissible before.gate.skew (with_gate before h) event)
        → StandsFor after.gate (service_behind admissible).gate × (with_gate after (service_behind admissible).gate ≡ service_behind admissible) }
{
    krb_machine::laws::admitted_exactly_where();
    krb_machine::laws::runs_never_forget();
}

/// Two established connections wrap messages, and each gets the messages of the other in any order: the reply to each wrap has the
/// message, and the reply to each unwrap of a message that comes for the first time and in time has the text that was wrapped.
pub fn established_connections_understand_each_other<G: ReplayGate>()
    ensures { (left right : Connection) (suite : CipherSuite) (session_key sub_session_key : List ℕ) (ec : ℕ) (turns : List Turn)
        (replies : List Reply) → AreEstablished left.context right.context suite session_key sub_session_key ec
        → left.exchange ≡ None → right.exchange ≡ None
        → IsFair left.context.seq_number right.context.seq_number left.context right.context [] [] turns
        → ArePlayed G.admits left right turns replies → replies ≡ map answer_to turns }
{}

/// Both ends as one list of events at two connections of one service, if the KDC of the client's realm has the service: the
/// initiator is started and gets three replies, the acceptor gets the token that the initiator sent, and the initiator gets the
/// acceptor's token. If the gate can only admit the request, both connections have one context then. In DCE style the acceptor gets
/// the third leg, too.
pub fn one_list_of_events_brings_both_to_one_context<G: ReplayGate>()
    ensures plain { (before after : State G) (e : Exchanged) (initiator acceptor : Connection) (target service_key : List ℕ)
        (credentials : CredentialsBuffers) (client : Client) (suite : CipherSuite) (rep : TgsRep) (part : EncTicketPart)
        (asked again wanted said answered ended : Reply)
        → AreReady before e initiator acceptor target service_key credentials client suite rep part
        → CanOnlyAdmit G.admits before (handing e said) → is_bare e.flags ≡ false
        → Runs G.admits before (events_of e said answered []) (asked ∷ again ∷ wanted ∷ said ∷ answered ∷ ended ∷ []) after
        → EndsPlainly e suite part acceptor.context.encryption_params.ec said answered ended after }
    ensures dce { (before after : State G) (e : Exchanged) (initiator acceptor : Connection) (target service_key : List ℕ)
        (credentials : CredentialsBuffers) (client : Client) (suite : CipherSuite) (rep : TgsRep) (part : EncTicketPart)
        (asked again wanted said answered ended closed : Reply)
        → AreReady before e initiator acceptor target service_key credentials client suite rep part
        → CanOnlyAdmit G.admits before (handing e said) → is_bare e.flags ≡ true
        → Runs G.admits before (events_of e said answered (closing_of e ended))
        (asked ∷ again ∷ wanted ∷ said ∷ answered ∷ ended ∷ closed ∷ []) after
        → EndsInTurn e suite part said answered ended closed after }
{}
