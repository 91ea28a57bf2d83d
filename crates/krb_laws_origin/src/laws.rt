//! Laws of session keys, for all values.

ghost use Rattle.std.specs.Prelude.{◌≡◌, ℕ, List, Some, None};
ghost use Rattle.krb_context.specs.declared.state.KerberosState.TheVariants.{Final};
ghost use Rattle.krb_replay.specs.History.{History};
ghost use Rattle.krb_script.specs.Script.{Setup, Declared, at_id};
ghost use Rattle.krb_script.specs.declared.item.Event.{Event};
ghost use Rattle.krb_machine.specs.Described.{connections_of};
ghost use Rattle.krb_machine.specs.Policy.{State, Runs};
ghost use Rattle.krb_machine.specs.Text.{Answered};
ghost use Rattle.krb_machine.specs.declared.connection.Connection.{Connection};
ghost use Rattle.krb_machine.specs.declared.reply.Reply.{Reply};
ghost use Rattle.krb_laws_origin.specs.Origins.{IsKeyless, HasOrigin, IsSameInitiator};
ghost use Rattle.krb_laws_origin.specs.Freshness.{IsToBegin, HasFreshKey, IsEstablished};

use krb_replay::ReplayGate;

/// Over every list of events, and over any gate: an initiator that had no session key, and awaited no KDC, has one afterwards
/// only if a chain of replies that its own events brought leads to it from its credentials. And the connection is still there, an
/// initiator with the same identity.
pub fn session_keys_come_from_credentials<G: ReplayGate>()
    ensures origin { (before after : State G) (events : List Event) (replies : List Reply) (id : ℕ) (first last : Connection)
        (key : List ℕ)
        → Runs G.admits before events replies after → at_id id before.connections ≡ Some first → IsKeyless first
        → at_id id after.connections ≡ Some last → last.context.encryption_params.session_key ≡ Some key
        → HasOrigin first.context.auth_identity id events key }
    ensures stays { (before after : State G) (events : List Event) (replies : List Reply) (id : ℕ) (first : Connection)
        → Runs G.admits before events replies after → at_id id before.connections ≡ Some first → IsKeyless first
        → (last : Connection) × (at_id id after.connections ≡ Some last) × IsSameInitiator first last }
{}

/// Over every list of events, over any gate, and whatever KDCs and peers send: an initiator that is to begin, and whose rules have
/// `FRESH_REPLIES`, has a session key afterwards only by replies that its own events brought, each of which answers the request that
/// this very exchange made. The AS-REP has the nonce that was drawn by the event that began the exchange, and each TGS-REP the one
/// that was drawn by the event that brought the reply before it. And if its rules have `ANSWERS_ITS_AUTHENTICATOR`, and mutual
/// authentication was asked for, the initiator is established only by an AP-REP, encrypted under that session key, with the time of
/// its own authenticator.
pub fn log_ins_are_fresh<G: ReplayGate>()
    ensures fresh { (before after : State G) (events : List Event) (replies : List Reply) (id : ℕ) (first last : Connection)
        (key : List ℕ)
        → Runs G.admits before events replies after → at_id id before.connections ≡ Some first → IsToBegin first
        → at_id id after.connections ≡ Some last → last.context.encryption_params.session_key ≡ Some key
        → HasFreshKey first id events last.context.encryption_params.session_key last.context.asked_at }
    ensures answered { (before after : State G) (events : List Event) (replies : List Reply) (id : ℕ) (first last : Connection)
        → Runs G.admits before events replies after → at_id id before.connections ≡ Some first → IsToBegin first
        → at_id id after.connections ≡ Some last → last.context.state ≡ Final
        → IsEstablished first id events last.context.encryption_params.session_key last.context.asked_at }
    ensures stays { (before after : State G) (events : List Event) (replies : List Reply) (id : ℕ) (first : Connection)
        → Runs G.admits before events replies after → at_id id before.connections ≡ Some first → IsToBegin first
        → (last : Connection) × (at_id id after.connections ≡ Some last) × IsSameInitiator first last }
{}

/// Over every input: each initiator that its lines declare begins without a session key and awaits no KDC; and after the events that
/// are answered it has a session key only if a chain of replies that these events brought leads to it from its credentials.
pub fn declared_initiators_have_keys_by_their_replies()
    ensures keyless { (setup : Setup) (id : ℕ) (first : Connection) → at_id id (connections_of setup) ≡ Some first
        → first.context.server ≡ None → IsKeyless first }
    ensures origin { (so_far : Declared) (text : List ℕ) (replies : List Reply) (after : State History) (id : ℕ)
        (first last : Connection) (key : List ℕ)
        → Answered so_far text replies after → at_id id (connections_of so_far.setup) ≡ Some first → first.context.server ≡ None
        → at_id id after.connections ≡ Some last → last.context.encryption_params.session_key ≡ Some key
        → HasOrigin first.context.auth_identity id so_far.events key }
{}
