//! Laws of a client and its KDCs, for all values.

ghost use Rattle.std.specs.Prelude.{◌≡◌, ◌+◌, ◌≤◌, ◌<◌, ◌^◌, ℕ, List, length, Some, unwrap_or, Result, None, true, false, pos};
ghost use Rattle.krb_aes.specs.Octets.{IsOctets};
ghost use Rattle.krb_crypto.specs.declared.suite.CipherSuite.{CipherSuite};
ghost use Rattle.krb_messages.specs.declared.principal_name.PrincipalName.{PrincipalName};
ghost use Rattle.krb_messages.specs.declared.authenticator.Authenticator.{Authenticator};
ghost use Rattle.krb_messages.specs.declared.enc_ticket_part.EncTicketPart.{EncTicketPart};
ghost use Rattle.krb_messages.specs.declared.ticket.Ticket.{Ticket};
ghost use Rattle.krb_messages.specs.Frame.{with_length};
ghost use Rattle.krb_exchange.specs.declared.kdc_req.KdcReqBody.{KdcReqBody};
ghost use Rattle.krb_exchange.specs.Layouts.{as_req_layout, as_rep_layout, tgs_req_layout, tgs_rep_layout};
ghost use Rattle.sspi_core.specs.declared.draw.Draw.{Draw};
ghost use Rattle.sspi_core.specs.Moments.{last_moment};
ghost use Rattle.krb_requests.specs.Pieces.{principal as name_with};
ghost use Rattle.krb_requests.specs.PaDatas.{plain_pa_datas, timed_pa_datas};
ghost use Rattle.krb_requests.specs.Bodies.{as_req_with, user_components};
ghost use Rattle.krb_kdc.specs.declared.kdc.Kdc.{Kdc};
ghost use Rattle.krb_kdc.specs.declared.kdc.Principal.{Principal};
ghost use Rattle.krb_kdc.specs.declared.tgs_req.Target.{Target};
ghost use Rattle.krb_kdc.specs.Answering.{Answers, first_grant, next_grant};
ghost use Rattle.krb_context.specs.Drawn.{drawn_key};
ghost use Rattle.krb_kdc.specs.Grants.{as_rep, tgs_rep, ticket_part, ticket};
ghost use Rattle.krb_kdc.specs.Refusals.{hint, refusal};
ghost use Rattle.krb_authenticators.specs.TgsRequests.{tgs_req};
ghost use Rattle.krb_as.specs.declared.client.Client.{Client as Credentialed};
ghost use Rattle.krb_as.specs.declared.body.FirstService.TheVariants.{TicketGranting};
ghost use Rattle.krb_as.specs.FirstBodies.{first_body};
ghost use Rattle.krb_kdc.specs.Registers.{principal_with, trust_in};
ghost use Rattle.krb_laws_kdc.specs.Asking.{AsksFirst, AreNear, IsFairSkew, client_with};
ghost use Rattle.sspi_core.specs.declared.protocol.NetworkProtocol.TheVariants.{Tcp};
ghost use Rattle.krb_as.specs.declared.asker.Asker.{Asker};
ghost use Rattle.krb_crypto.specs.Suite.{key_size};
ghost use Rattle.krb_kdc.specs.declared.grant.Grant.{Grant};
ghost use Rattle.krb_as.specs.Askers.{time_suite, client_key, default_salt};
ghost use Rattle.krb_laws_ends.specs.Answers.{IsDraw, AdmitsOnly, AreNew, EndsWellIn};
ghost use Rattle.krb_laws_ends.specs.HonestKdc.{AnswersError, GrantsFirst, Known, HasKdc, Refers, Serves};
ghost use Rattle.krb_laws_kdc.specs.Granting.{IsSoundGrant, IsSoundClient, IsFirstAnswer, IsNextAnswer};
ghost use Rattle.krb_laws_kdc.specs.Showing.{OpensAtKdc, IsHolder, AsksNext};
ghost use Rattle.sspi_core.specs.declared.cause.Cause.{Cause};
ghost use Rattle.sspi_core.specs.declared.error.Error.{Error};
ghost use Rattle.sspi_core.specs.declared.identity.CredentialsBuffers.{CredentialsBuffers};
ghost use Rattle.sspi_core.specs.Flags.{has_flag, use_session_key};
ghost use Rattle.sspi_core.specs.Usernames.{UserName};
ghost use Rattle.sspi_generator.specs.Runs.{Resolves};
ghost use Rattle.krb_conf.specs.declared.env.Env.{Env};
ghost use Rattle.krb_context.specs.declared.context.Kerberos.{Kerberos};
ghost use Rattle.krb_context.specs.declared.rules.Rules.{Rules};
ghost use Rattle.krb_context.specs.Contexts.{settled};
ghost use Rattle.krb_context.specs.Rules.{has_rule, fresh_replies};
ghost use Rattle.krb_exchange.specs.declared.kdc_rep.KdcRep.{KdcRep};
ghost use Rattle.krb_replay.specs.Clock.{in_microseconds, is_later};
ghost use Rattle.krb_as.specs.declared.kdc.Kdc.{Kdc as Address};
ghost use Rattle.krb_replies.specs.Fresh.{grace, same_components};
ghost use Rattle.krb_replies.specs.Realms.{referral_realm};
ghost use Rattle.krb_as.specs.declared.done.InitDone.{InitDone};
ghost use Rattle.krb_as.specs.Turns.{IsWant};
ghost use Rattle.krb_tgs.specs.declared.wanted.Wanted.{Wanted};
ghost use Rattle.krb_tgs.specs.Fresh.{question_of};
ghost use Rattle.krb_tgs.specs.TgsAsked.{is_same_realm, service_of, tgs_authenticator, drawn_nonce, drawn_confounder};
ghost use Rattle.krb_ap.specs.Initiators.{is_bare};
ghost use Rattle.krb_initiator.specs.declared.options.InitOptions.{InitOptions};
ghost use Rattle.krb_initiator.specs.declared.init_run.InitRun.{InitRun};
ghost use Rattle.krb_initiator.specs.declared.seeker.Seeker.{Seeker};
ghost use Rattle.krb_initiator.specs.declared.seeker.Initiation.TheVariants.{Seeks};
ghost use Rattle.krb_initiator.specs.declared.seeker.InitPhase.TheVariants.{New};
ghost use Rattle.krb_initiator.specs.InitRuns.{StartsAt, ResumesAt};
ghost use Rattle.krb_admission.specs.Allowed.{channel_held};
ghost use Rattle.krb_admission.specs.Clients.{client_of};
ghost use Rattle.krb_admission.specs.Requests.{ask_of};
ghost use Rattle.krb_server.specs.declared.accept.Accepted.{Accepted};
ghost use Rattle.krb_server.specs.Whole.{AcceptsWhole};
ghost use Rattle.krb_laws_ends.specs.Fetches.{seeker_for, HoldsKey};
ghost use Rattle.krb_laws_ends.specs.Offers.{FitsRules, MeetsChannel, request_of};
ghost use Rattle.krb_kdc.specs.declared.kdc.Trust.{Trust};
ghost use Rattle.krb_kdc.specs.Nets.{Net};
ghost use Rattle.krb_kdc.specs.Requests.{granting};
ghost use Rattle.krb_kdc.specs.TgsChecks.{target_of};
ghost use Rattle.krb_laws_kdc.specs.Example.{example_seeker, example_pairs, example_draws, service_octets, example_user};
ghost use Rattle.std.proofs.Common.{Global};
ghost use Rattle.krb_der.specs.Layout.{spelling};
ghost use Rattle.sspi_generator.specs.Draws.{AreInRange};
ghost use Rattle.krb_laws_kdc.specs.Fetching.{body_at, Draws, of_client, of_kdcs, CanFetch, HasFetched, SendsTo};

use krb_replay::ReplayGate;

/// A KDC asks a client that it has for pre-authentication, if the request brings none, and sends its suite and the client's salt.
pub fn clients_are_asked_for_their_key()
    ensures { (kdc : Kdc) (name : PrincipalName) (principal : Principal) (moment : ℕ) (body : KdcReqBody) (draw : Draw) (reply : List ℕ)
        → AsksFirst kdc name principal moment body → IsFairSkew kdc.skew → AreNear kdc.skew moment draw.moment
        → length (spelling as_req_layout (as_req_with plain_pa_datas body)) + 4 ≤ 2 ^ 24
        → Answers kdc (with_length (spelling as_req_layout (as_req_with plain_pa_datas body))) draw reply
        → reply ≡ with_length (refusal kdc.realm draw 25 (Some (hint kdc.suite principal.salt))) }
{}

/// A client that seals its time under its key, and whose clock and the KDC's are near, is given the ticket-granting ticket.
pub fn clients_with_their_key_are_granted_a_ticket()
    ensures { (kdc : Kdc) (name : PrincipalName) (principal : Principal) (moment later : ℕ) (body : KdcReqBody) (confounder : List ℕ) (draw : Draw) (reply : List ℕ)
        → AsksFirst kdc name principal moment body → IsFairSkew kdc.skew → AreNear kdc.skew moment draw.moment → AreNear kdc.skew later draw.moment
        → later ≤ last_moment → length confounder ≡ 16 → IsOctets confounder
        → length (spelling as_req_layout (as_req_with (timed_pa_datas kdc.suite principal.key later confounder) body)) + 4 ≤ 2 ^ 24
        → Answers kdc (with_length (spelling as_req_layout (as_req_with (timed_pa_datas kdc.suite principal.key later confounder) body))) draw reply
        → reply ≡ with_length (spelling as_rep_layout
        (as_rep kdc.suite kdc.realm draw body.nonce principal.key (first_grant kdc draw.moment body (client_with kdc name principal)))) }
{}

/// A holder of a ticket that the KDC opens, whose clock and the KDC's are near, is given the ticket that it asks for.
pub fn holders_of_tickets_are_served()
    ensures { (kdc : Kdc) (ticket : Ticket) (part : EncTicketPart) (moment : ℕ) (body : KdcReqBody) (authenticator : Authenticator) (confounder : List ℕ)
        (target : Target) (draw : Draw) (reply : List ℕ) → OpensAtKdc kdc draw.moment ticket part → IsHolder part moment body authenticator confounder
        → AsksNext kdc moment body target → IsFairSkew kdc.skew → AreNear kdc.skew moment draw.moment
        → length (spelling tgs_req_layout (tgs_req kdc.suite part.key.key_value confounder ticket authenticator body)) + 4 ≤ 2 ^ 24
        → Answers kdc (with_length (spelling tgs_req_layout (tgs_req kdc.suite part.key.key_value confounder ticket authenticator body))) draw reply
        → reply ≡ with_length (spelling tgs_rep_layout
        (tgs_rep kdc.suite kdc.realm draw body.nonce part.key.key_value (next_grant draw.moment body part target))) }
{}

/// The reply by which a KDC asks a client that it has for its key is, over TCP, an honest KDC's error that names the client's suite
/// and salt.
pub fn requests_for_a_key_are_honest()
    ensures { (kdc : Kdc) (components : List (List ℕ)) (principal : Principal) (draw : Draw) (asker : Asker)
        → principal_with components kdc.principals ≡ Some principal → draw.moment ≤ last_moment
        → length (refusal kdc.realm draw 25 (Some (hint kdc.suite principal.salt))) ≤ 2 ^ 23
        → AnswersError asker Tcp (with_length (refusal kdc.realm draw 25 (Some (hint kdc.suite principal.salt))))
        (time_suite asker (Some kdc.suite)) (unwrap_or principal.salt (default_salt asker.credentials)) }
{}

/// The AS-REP that grants a client its first ticket is, over TCP, an honest KDC's to a client with that key. Where the client takes fresh
/// replies alone, it has to answer the client's request.
pub fn first_replies_are_honest()
    ensures { (suite : CipherSuite) (realm nonce key used : List ℕ) (draw : Draw) (grant : Grant) (asker : Asker) (body : KdcReqBody) (moment : ℕ) → IsDraw draw
        → IsSoundGrant realm nonce grant → client_key suite used asker.credentials ≡ key → length key ≡ key_size suite
        → IsOctets (with_length (spelling as_rep_layout (as_rep suite realm draw nonce key grant)))
        → length (spelling as_rep_layout (as_rep suite realm draw nonce key grant)) ≤ 2 ^ 23
        → (has_rule asker.rules fresh_replies ≡ true → IsFirstAnswer body moment realm nonce draw grant)
        → GrantsFirst asker body moment suite Tcp used (with_length (spelling as_rep_layout (as_rep suite realm draw nonce key grant)))
        (as_rep suite realm draw nonce key grant) (drawn_key suite draw) }
{}

/// The body that credentials make of their AS-REQ asks the KDC of their realm, where that KDC has them.
pub fn credentials_ask_their_kdc()
    ensures { (kdc : Kdc) (client : Credentialed) (principal : Principal) (flags : ℕ) (own : Draw) → client.realm ≡ kdc.realm
        → principal_with (user_components client.name) kdc.principals ≡ Some principal → IsDraw own
        → AsksFirst kdc (name_with client.name_type (user_components client.name)) principal own.moment (first_body client TicketGranting flags own) }
{}

/// A client's TGS-REQ asks the KDC of a realm that gives the ticket, and its authenticator is that of the holder of the ticket that the
/// reply before it brought.
pub fn tgs_requests_ask_their_kdc()
    ensures asks { (kdc : Kdc) (wanted : Wanted) (own : Draw) (target : Target) → has_flag wanted.flags.0 use_session_key ≡ false
        → IsDraw own
        → target_of kdc (Some (name_with 2 (service_of wanted.target))) ≡ Some target
        → AsksNext kdc own.moment (body_at wanted kdc.realm own) target }
    ensures shows { (wanted : Wanted) (rep : KdcRep) (own : Draw) (body : KdcReqBody) (part : EncTicketPart) → IsSoundClient rep.crealm rep.cname → IsDraw own
        → rep.crealm ≡ part.crealm → rep.cname ≡ part.cname
        → IsHolder part own.moment body (tgs_authenticator wanted rep own) (drawn_confounder own) }
{}

/// The TGS-REP that grants a ticket is, over TCP, an honest KDC's: one to a route refers to its realm, and one to a principal serves. Where
/// the client takes fresh replies alone, it has to answer what the client asked.
pub fn next_replies_are_honest()
    ensures refers { (suite : CipherSuite) (realm nonce : List ℕ) (draw own : Draw) (grant : Grant) (known : Known) (asker : Asker)
        (target home : List ℕ) (address : Address) → IsDraw draw → IsSoundGrant realm nonce grant → known.kdc.protocol ≡ Tcp
        → IsOctets (with_length (spelling tgs_rep_layout (tgs_rep suite realm draw nonce known.key grant)))
        → length (spelling tgs_rep_layout (tgs_rep suite realm draw nonce known.key grant)) ≤ 2 ^ 23
        → (has_rule asker.rules fresh_replies ≡ true → IsNextAnswer known.question known.kdc.realm own.moment realm nonce draw grant)
        → grant.sname ≡ name_with 2 (granting address.realm) → is_same_realm known.kdc.realm address.realm ≡ false
        → (has_rule asker.rules fresh_replies ≡ true → same_components (granting address.realm) (service_of target) ≡ false)
        → HasKdc asker home address.realm address
        → Refers asker target home suite known
        (record { reply = with_length (spelling tgs_rep_layout (tgs_rep suite realm draw nonce known.key grant)); draw = own })
        (record { key = drawn_key suite draw; kdc = address; question = question_of (tgs_rep suite realm draw nonce known.key grant).0 own }) }
    ensures serves { (suite : CipherSuite) (realm nonce : List ℕ) (draw own : Draw) (grant : Grant) (known : Known) (options : Rules)
        (target : List ℕ) → IsDraw draw → IsSoundGrant realm nonce grant → known.kdc.protocol ≡ Tcp
        → IsOctets (with_length (spelling tgs_rep_layout (tgs_rep suite realm draw nonce known.key grant)))
        → length (spelling tgs_rep_layout (tgs_rep suite realm draw nonce known.key grant)) ≤ 2 ^ 23
        → (has_rule options fresh_replies ≡ true → IsNextAnswer known.question known.kdc.realm own.moment realm nonce draw grant)
        → IsSoundClient grant.crealm grant.cname → length grant.key ≡ key_size suite → grant.sname ≡ name_with 2 (service_of target)
        → referral_realm (name_with 2 (service_of target)) ≡ None
        → Serves options target suite grant.key known
        (record { reply = with_length (spelling tgs_rep_layout (tgs_rep suite realm draw nonce known.key grant)); draw = own })
        (tgs_rep suite realm draw nonce known.key grant) (ticket_part suite draw grant) }
{}

/// A KDC grants what was asked for: where the clocks of both ends are apart by no more than the client's grace, its replies are fresh.
pub fn grants_answer_what_was_asked()
    ensures first { (kdc : Kdc) (name : PrincipalName) (principal : Principal) (moment later : ℕ) (body : KdcReqBody) (draw : Draw)
        → AsksFirst kdc name principal moment body → length body.nonce ≡ 4 → AreNear grace moment draw.moment → AreNear grace later draw.moment
        → IsFirstAnswer body later kdc.realm body.nonce draw (first_grant kdc draw.moment body (client_with kdc name principal)) }
    ensures next { (kdc : Kdc) (wanted : Wanted) (rep : KdcRep) (part : EncTicketPart) (own draw : Draw) (later : ℕ) (target : Target) → IsDraw own
        → AreNear grace own.moment draw.moment → AreNear grace later draw.moment → rep.crealm ≡ part.crealm → rep.cname ≡ part.cname
        → is_later (pos later) (in_microseconds part.endtime) grace ≡ false
        → IsNextAnswer (question_of rep own) kdc.realm later kdc.realm (drawn_nonce own) draw (next_grant draw.moment (body_at wanted kdc.realm own) part target) }
{}

/// A KDC opens its own ticket to its ticket-granting service, and the KDC that it refers to opens the ticket that it gave.
pub fn tickets_are_opened()
    ensures own { (kdc : Kdc) (realm nonce : List ℕ) (draw : Draw) (grant : Grant) (now : ℕ) → IsDraw draw → IsSoundGrant realm nonce grant
        → IsSoundClient grant.crealm grant.cname → realm ≡ kdc.realm → grant.sname ≡ name_with 2 (granting kdc.realm) → grant.key ≡ kdc.tgt_key
        → is_later (pos now) (in_microseconds grant.endtime) kdc.skew ≡ false
        → OpensAtKdc kdc now (ticket kdc.suite realm draw grant) (ticket_part kdc.suite draw grant) }
    ensures next { (kdc next : Kdc) (nonce : List ℕ) (draw : Draw) (grant : Grant) (back : Trust) (now : ℕ) → IsDraw draw → IsSoundGrant kdc.realm nonce grant
        → IsSoundClient grant.crealm grant.cname → is_same_realm kdc.realm next.realm ≡ false → grant.sname ≡ name_with 2 (granting next.realm)
        → trust_in kdc.realm next.trusts ≡ Some back → grant.key ≡ back.key
        → is_later (pos now) (in_microseconds grant.endtime) next.skew ≡ false
        → OpensAtKdc next now (ticket next.suite kdc.realm draw grant) (ticket_part next.suite draw grant) }
{}

/// The ticket that a KDC gives has no flag INVALID and came through no further realms: so it fits the rules of any acceptor, if its
/// client has a user name.
pub fn tickets_fit_any_rules()
    ensures { (rules : Rules) (suite : CipherSuite) (draw : Draw) (grant : Grant) (user : UserName) → client_of grant.cname grant.crealm ≡ Some user
        → FitsRules rules (ticket_part suite draw grant) }
{}

/// A run over a network of KDCs that lead to a service ends out of memory or with the service's ticket: the KDCs' replies are
/// honest, and the run ends with the token of an honest offer.
pub fn runs_over_kdcs_fetch_their_ticket()
    ensures { (context : Kerberos) (seeker : Seeker) (net net' : Net) (draws : Draws) (service_key : List ℕ) (user : UserName) (run run' : InitRun)
        (out : Result InitDone Error) → context.server ≡ None → CanFetch seeker net.pairs draws service_key user → net.draws ≡ of_kdcs draws
        → run.initiation ≡ Seeks seeker → run.phase ≡ New → Resolves StartsAt ResumesAt SendsTo run net (of_client draws) out run' net'
        → (IsWant out → ⊥) → HasFetched context seeker draws.start service_key user out }
{}

/// There is a client with all that this needs, whatever rules it goes by, those that check everything among them: alice of EXAMPLE.COM, who
/// asks the KDC of her realm for the ticket of host/b, and has a draw for each turn of her run.
pub fn some_client_can_fetch()
    ensures can { (alloc : Global) (rules : Rules) → CanFetch (example_seeker rules) (example_pairs alloc) example_draws service_octets example_user }
    ensures enough { 12 < length (of_client example_draws) }
    ensures moments { AreInRange (of_client example_draws) }
{}

/// An acceptor that holds the service's key takes the token that a run over KDCs ends with, if its gate admits the client, and both
/// ends reach one context. The acceptor may go by any rules: the client has a user name, and the ticket is as all rules ask. If the
/// rules hold a client to the channel, the initiator has the channel's bindings.
pub fn fetched_tickets_are_admitted<G: ReplayGate>()
    ensures { (initiator acceptor acceptor' : Kerberos) (options more : InitOptions) (target service_key : List ℕ) (credentials : CredentialsBuffers)
        (client : Credentialed) (user : UserName) (out : Result InitDone Error) (env : Env) (first own draw : Draw) (old new : G) (answer : Result Accepted Cause)
        → is_bare more.flags ≡ is_bare options.flags
        → (fetched : HasFetched initiator (seeker_for initiator options target credentials client) first service_key user out)
        → HoldsKey acceptor target service_key → MeetsChannel (channel_held acceptor) options.channel_bindings → AreNew initiator acceptor
        → IsDraw own → IsDraw draw
        → AcceptsWhole G.admits acceptor (is_bare options.flags) fetched.end.done.token env draw old answer acceptor' new
        → AdmitsOnly G.admits old (ask_of acceptor.rules (request_of fetched.end.offer) draw.moment) new
        → EndsWellIn (is_bare options.flags) G.admits (settled initiator fetched.end.done.change) acceptor' more own draw fetched.end.offer answer }
{}
