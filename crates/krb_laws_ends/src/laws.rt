//! Laws of both ends, for all values.

ghost use Rattle.std.specs.Prelude.{◌≡◌, ◌^◌, ◌<◌, ℕ, suc, List, [], true, false, Option, Some, None, Result, Ok};
ghost use Rattle.sspi_core.specs.declared.cause.Cause.{Cause};
ghost use Rattle.sspi_core.specs.declared.draw.Draw.{Draw};
ghost use Rattle.sspi_core.specs.declared.bindings.ChannelBindings.{ChannelBindings};
ghost use Rattle.sspi_core.specs.Usernames.{UserName};
ghost use Rattle.krb_conf.specs.declared.env.Env.{Env};
ghost use Rattle.krb_context.specs.declared.context.Kerberos.{Kerberos};
ghost use Rattle.krb_context.specs.Contexts.{settled};
ghost use Rattle.krb_context.specs.Rules.{no_rules};
ghost use Rattle.krb_context.specs.declared.rules.Rules.{Rules};
ghost use Rattle.krb_context.specs.Peers.{ArePeers};
ghost use Rattle.sspi_core.specs.declared.identity.CredentialsBuffers.{CredentialsBuffers};
ghost use Rattle.krb_crypto.specs.declared.suite.CipherSuite.{CipherSuite};
ghost use Rattle.krb_messages.specs.declared.enc_ticket_part.EncTicketPart.{EncTicketPart};
ghost use Rattle.krb_messages.specs.declared.principal_name.PrincipalName.{PrincipalName};
ghost use Rattle.krb_exchange.specs.declared.kdc_rep.TgsRep.{TgsRep};
ghost use Rattle.krb_as.specs.declared.done.InitDone.{InitDone};
ghost use Rattle.krb_as.specs.declared.client.Client.{Client};
ghost use Rattle.krb_replay.specs.declared.ask.Verdict.TheVariants.{Admitted};
ghost use Rattle.krb_ap.specs.Initiators.{is_bare};
ghost use Rattle.krb_initiator.specs.declared.options.InitOptions.{InitOptions};
ghost use Rattle.krb_initiator.specs.declared.seeker.Seeker.{Seeker};
ghost use Rattle.krb_initiator.specs.declared.seeker.Initiation.TheVariants.{Seeks};
ghost use Rattle.krb_initiator.specs.Beginnings.{BeginsInitiation};
ghost use Rattle.krb_admission.specs.Accepts.{DecidesAdmission};
ghost use Rattle.krb_admission.specs.Allowed.{is_invalid, is_direct, channel_held};
ghost use Rattle.krb_admission.specs.Clients.{client_of, user_of};
ghost use Rattle.krb_admission.specs.Requests.{ask_of};
ghost use Rattle.krb_server.specs.declared.accept.Accepted.{Accepted};
ghost use Rattle.krb_server.specs.Whole.{AcceptsWhole};
ghost use Rattle.krb_laws_ends.specs.Answers.{admission_for, IsAnswered, AdmitsOnly, IsDraw, Offered, AreNew, AreEstablished, EndsWell, EndsWellInTurn, EndsWellIn};
ghost use Rattle.krb_laws_ends.specs.Fetches.{CanBegin, seeker_for, Fetches, AsksMutual, EndsWithOffer, HoldsKey};
ghost use Rattle.krb_laws_ends.specs.Flow.{numbered, Flows, FlowsOn};
ghost use Rattle.krb_laws_ends.specs.HonestKdc.{Answers, AreHonestKdcs};
ghost use Rattle.krb_laws_ends.specs.Messages.{
  Message,
  Placed,
  IsSent,
  IsInTime,
  IsCaughtUp,
  AreSent,
  AreOpened,
  AreAmongSent,
  AreInTime,
  AreInOrder,
  places_of,
  messages_of,
  wrapped_one,
  opened_one,
};
ghost use Rattle.krb_laws_ends.specs.Offers.{Offer, FitsRules, MeetsChannel, IsFor, request_of, offered_token};
ghost use Rattle.krb_laws_ends.specs.Talk.{Turn, IsFair, IsUnderstood};

use krb_replay::ReplayGate;

/// An initiator before its exchange that is called with a target, credentials of ASCII names and no token, and not for user-to-user,
/// begins to fetch the target's ticket.
pub fn initiators_begin()
    ensures begins { (context : Kerberos) (options : InitOptions) (target : List ℕ) (credentials : CredentialsBuffers) (client : Client)
        → CanBegin context options target credentials client
        → BeginsInitiation context options (Ok (Seeks (seeker_for context options target credentials client))) }
    ensures asks { (context : Kerberos) (options : InitOptions) (target : List ℕ) (credentials : CredentialsBuffers) (client : Client)
        → CanBegin context options target credentials client → AsksMutual (seeker_for context options target credentials client) }
{}

/// Over honest KDCs, with any number of referrals up to nine, the run of an initiator that asks for mutual authentication ends with
/// ContinueNeeded and a token: the AP-REQ of an honest offer, which has the service's ticket, and whose authenticator is sealed under
/// the key that the last reply handed on. The context then awaits the answer, with that key in the suite of the exchange, and keeps the
/// moment of the authenticator. Honest KDCs answer what was asked, where a rule of the initiator has that checked.
pub fn honest_kdcs_lead_to_an_offer()
    ensures { (context : Kerberos) (seeker : Seeker) (suite : CipherSuite) (service_key : List ℕ) (draw : Draw) (answers : Answers) (rep : TgsRep)
        (part : EncTicketPart) → context.server ≡ None → AsksMutual seeker → AreHonestKdcs seeker suite service_key draw answers rep part
        → IsDraw answers.last.draw → EndsWithOffer context seeker service_key suite draw answers rep part }
{}

/// The run of an initiator over given replies has at most one end: so over honest KDCs it has that one and no other.
pub fn runs_have_one_end()
    ensures { (seeker : Seeker) (draw : Draw) (answers : Answers) (one other : InitDone) → Fetches seeker draw answers one → Fetches seeker draw answers other
        → one ≡ other }
{}

/// The AP-REQ of an honest offer passes every check of an acceptor that waits for a token and holds the service's key, whatever rules it
/// goes by: what they ask of the ticket and of the channel is a premise. After the gate's verdict Admitted it makes the admission that its
/// options ask for, with an AP-REP.
pub fn honest_requests_are_admitted()
    ensures { (server : Kerberos) (draw : Draw) (client : Option UserName) (offer : Offer) → IsFor server client offer
        → DecidesAdmission server offer.dce (offered_token offer) draw Admitted (Ok (admission_for server draw client offer)) }
{}

/// Only rules ask for more of a ticket and a channel. A ticket fits any rules if it is valid, came through no further realms, and has
/// a client with a user name. Without rules each ticket of a client with a user name fits, that name is the client's user name, and no
/// client is held to a channel. An acceptor that has no channel holds no client to one under any rules.
pub fn rules_alone_ask_for_more()
    ensures valid { (rules : Rules) (part : EncTicketPart) (user : UserName) → is_invalid part.flags.octets ≡ false
        → is_direct part.transited.contents ≡ true → client_of part.cname part.crealm ≡ Some user → FitsRules rules part }
    ensures tickets { (part : EncTicketPart) (user : UserName) → client_of part.cname part.crealm ≡ Some user → FitsRules no_rules part }
    ensures clients { (name : PrincipalName) (realm : List ℕ) → user_of no_rules name realm ≡ client_of name realm }
    ensures channels { (server : Kerberos) (bindings : Option ChannelBindings) → server.rules ≡ no_rules → MeetsChannel (channel_held server) bindings }
    ensures none { (server : Kerberos) (bindings : Option ChannelBindings) → server.channel ≡ None → MeetsChannel (channel_held server) bindings }
{}

/// An acceptor asks its gate for that AP-REQ, and where the gate admits it, answers it by the AP-REP and is settled.
pub fn honest_requests_are_answered<G: ReplayGate>()
    ensures { (server server' : Kerberos) (env : Env) (draw : Draw) (client : Option UserName) (offer : Offer) (old new : G) (answer : Result Accepted Cause)
        → IsFor server client offer → AcceptsWhole G.admits server offer.dce (offered_token offer) env draw old answer server' new
        → IsAnswered G.admits server draw client offer old answer server' new }
{}

/// An honest AP-REQ that a gate admits ends the exchange well: the initiator that made it takes the acceptor's answer, and from there
/// on the two are established with one session key, one subkey, one suite and one EC, and each is the other's peer. That holds under
/// the rule that an AP-REP has the time of its authenticator, too.
pub fn exchanges_end_well<G: ReplayGate>()
    ensures { (initiator server server' : Kerberos) (options : InitOptions) (env : Env) (own draw : Draw) (client : Option UserName) (offer : Offer)
        (old new : G) (answer : Result Accepted Cause) → IsFor server client offer → offer.dce ≡ false → Offered initiator offer
        → is_bare options.flags ≡ false → IsDraw draw → AreNew initiator server
        → AcceptsWhole G.admits server false (offered_token offer) env draw old answer server' new
        → AdmitsOnly G.admits old (ask_of server.rules (request_of offer) draw.moment) new → EndsWell initiator server' options own draw offer answer }
{}

/// In DCE style an honest AP-REQ that a gate admits ends the exchange well with one token more: the initiator takes the acceptor's
/// answer and returns the third leg, which the acceptor takes without asking its gate. Then encrypted messages have an EC of 16 octets
/// at both ends.
pub fn dce_exchanges_end_well<G: ReplayGate>()
    ensures { (initiator server server' : Kerberos) (options : InitOptions) (env : Env) (own draw : Draw) (client : Option UserName) (offer : Offer)
        (old new : G) (answer : Result Accepted Cause) → IsFor server client offer → offer.dce ≡ true → Offered initiator offer
        → is_bare options.flags ≡ true → IsDraw own → IsDraw draw → AreNew initiator server
        → AcceptsWhole G.admits server true (offered_token offer) env draw old answer server' new
        → AdmitsOnly G.admits old (ask_of server.rules (request_of offer) draw.moment) new
        → EndsWellInTurn G.admits initiator server' options own draw offer answer }
{}

/// The messages that one end wraps one after another, delivered in that order, all open at the other end to the same
/// octets, however many they are.
pub fn messages_open_in_their_order()
    ensures { (sender receiver : Kerberos) (messages : List Message) → ArePeers sender receiver → IsCaughtUp sender receiver
        → AreSent sender messages → AreOpened receiver messages }
{}

/// Messages that one end wraps, delivered in any order, each once and in time, open at the other end to the same octets. A message
/// is in time if its place in the order of sending is less than 64 before the furthest delivered one, and less than 2^31 after it.
pub fn messages_open_in_any_order()
    ensures { (sender receiver : Kerberos) (handed : List Placed) → ArePeers sender receiver → sender.seq_number < 2 ^ 32
        → receiver.window.mask ≡ 0 → AreAmongSent sender handed → AreInTime [] (places_of handed) → AreOpened receiver (messages_of handed) }
{}

/// Messages that one end wraps, delivered in the order of sending, open at the other end if others are lost, as long as fewer than
/// 2^31 - 1 are left out at a time.
pub fn messages_open_where_others_are_lost()
    ensures { (sender receiver : Kerberos) (handed : List Placed) → ArePeers sender receiver → sender.seq_number < 2 ^ 32
        → receiver.window.mask ≡ 0 → AreAmongSent sender handed → AreInOrder (places_of handed) → AreOpened receiver (messages_of handed) }
{}

/// One direction of a connection goes on, whatever both ends wrap and open meanwhile: it begins with the first message; a message
/// that comes in time opens, and the direction goes on with it; the sender takes one more number, for a message or a MIC token; a
/// message that is wrapped now comes after those that were wrapped; messages of the other direction change nothing; and a message
/// that was wrapped after a number of others stays so.
pub fn directions_go_on()
    ensures begins { (sender receiver : Kerberos) → ArePeers sender receiver → sender.seq_number < 2 ^ 32 → receiver.window.mask ≡ 0
        → Flows sender receiver sender.seq_number 0 [] }
    ensures opens { (sender receiver : Kerberos) (number sent : ℕ) (before : List ℕ) (place : ℕ) (message : Message) → Flows sender receiver number sent before
        → IsInTime before place → IsSent (numbered number place sender) message → FlowsOn sender receiver number sent before place message }
    ensures numbers { (sender receiver : Kerberos) (number sent : ℕ) (before : List ℕ) → Flows sender receiver number sent before
        → Flows (wrapped_one sender) receiver number (suc sent) before }
    ensures wraps { (sender receiver : Kerberos) (number sent : ℕ) (before : List ℕ) (message : Message)
        → Flows sender receiver number sent before → IsSent sender message
        → IsSent (numbered number sent (wrapped_one sender)) message }
    ensures beside { (sender receiver : Kerberos) (number sent : ℕ) (before : List ℕ) (other : ℕ) → Flows sender receiver number sent before
        → Flows (opened_one other sender) receiver number sent before × Flows sender (wrapped_one receiver) number sent before }
    ensures stays { (sender : Kerberos) (number behind other : ℕ) (message : Message) → IsSent (numbered number behind sender) message
        → IsSent (numbered number behind (opened_one other sender)) message × IsSent (numbered number behind (wrapped_one sender)) message }
{}

/// Whatever two ends wrap, and in whatever order each is handed what the other wrapped, each message that comes for the first time
/// and in time opens to the text that was wrapped.
pub fn both_ends_understand_each_other()
    ensures { (left right : Kerberos) (turns : List Turn) → ArePeers left right → ArePeers right left → left.seq_number < 2 ^ 32 → right.seq_number < 2 ^ 32
        → left.window.mask ≡ 0 → right.window.mask ≡ 0 → IsFair left.seq_number right.seq_number left right [] [] turns → IsUnderstood left right turns }
{}

/// Whatever two ends wrap that an exchange established, and in whatever order each is handed what the other wrapped, each message that
/// comes for the first time and in time opens to the text that was wrapped.
pub fn established_ends_understand_each_other()
    ensures { (initiator acceptor : Kerberos) (suite : CipherSuite) (session_key sub_session_key : List ℕ) (ec : ℕ) (turns : List Turn)
        → AreEstablished initiator acceptor suite session_key sub_session_key ec
        → IsFair initiator.seq_number acceptor.seq_number initiator acceptor [] [] turns → IsUnderstood initiator acceptor turns }
{}

/// Both ends reach one context: an initiator's run over honest KDCs ends with a token; an acceptor that holds the service's key
/// answers that token if its gate admits the client, and the initiator takes the answer; in DCE style the acceptor takes the third
/// leg. Then both are established with one session key, one subkey, one suite and one EC, and all messages are before them. The
/// acceptor may go by any rules: the ticket fits them, and if they hold a client to the channel, the initiator has the channel's
/// bindings.
pub fn both_ends_reach_one_context<G: ReplayGate>()
    ensures { (initiator acceptor acceptor' : Kerberos) (options more : InitOptions) (target service_key : List ℕ) (credentials : CredentialsBuffers)
        (client : Client) (suite : CipherSuite) (answers : Answers) (rep : TgsRep) (part : EncTicketPart) (env : Env)
        (first own draw : Draw) (old new : G) (answer : Result Accepted Cause)
        → is_bare more.flags ≡ is_bare options.flags
        → AreHonestKdcs (seeker_for initiator options target credentials client) suite service_key first answers rep part
        → HoldsKey acceptor target service_key → FitsRules acceptor.rules part
        → MeetsChannel (channel_held acceptor) options.channel_bindings → AreNew initiator acceptor → IsDraw own → IsDraw draw
        → (end : EndsWithOffer initiator (seeker_for initiator options target credentials client) service_key suite first answers rep part)
        → AcceptsWhole G.admits acceptor (is_bare options.flags) end.done.token env draw old answer acceptor' new
        → AdmitsOnly G.admits old (ask_of acceptor.rules (request_of end.offer) draw.moment) new
        → EndsWellIn (is_bare options.flags) G.admits (settled initiator end.done.change) acceptor' more own draw end.offer answer }
{}
