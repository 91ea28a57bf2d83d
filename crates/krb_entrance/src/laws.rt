//! Laws of an admission and of its two halves, for all values.

ghost use Rattle.std.specs.Prelude.{◌≡◌, ℕ, true, List, Option, Result};
ghost use Rattle.sspi_core.specs.declared.cause.Cause.{Cause};
ghost use Rattle.sspi_core.specs.declared.draw.Draw.{Draw};
ghost use Rattle.krb_admission.specs.Clients.{has_component};
ghost use Rattle.krb_admission.specs.declared.admission.Answer.{Answer};
ghost use Rattle.krb_admission.specs.Halves.{Prepared, AdmitsPrepared};
ghost use Rattle.krb_context.specs.declared.context.Kerberos.{Kerberos};
ghost use Rattle.krb_der.specs.Moment.{IsTime};
ghost use Rattle.krb_replay.specs.Book.{Book, Follows, StandsFor};
ghost use Rattle.krb_replay.specs.declared.record.Record.{Record};
ghost use Rattle.krb_server.specs.Whole.{answered_as};
ghost use Rattle.krb_sessions.specs.declared.session.Session.{Session};
ghost use Rattle.krb_entrance.specs.Admits.{answer_in, Judges, Admits, IsKnown};
ghost use Rattle.krb_entrance.specs.Candidates.{Passes};
ghost use Rattle.krb_entrance.specs.Connections.{lent};
ghost use Rattle.krb_entrance.specs.Told.{record_octets, NamesOneRecord};
ghost use Rattle.krb_entrance.specs.declared.keys.Keys.{Keys};

/// For a client that passes [`Keys::judge`](crate::Keys::judge), [`admit`](crate::admit) returns what the acceptor's one call returns
/// for the same token at a connection with these keys: admitted or turned away, and the same book. The connection differs in its keys
/// alone.
pub fn halves_answer_as_one()
    ensures { (keys : Keys) (channel : Option (List ℕ)) (token : List ℕ) (draw : Draw) (prepared : Prepared) (connection left : Kerberos) (old new : Book)
        (answer : Result Answer Cause)
        → Passes keys channel token draw prepared connection
        → AdmitsPrepared (Follows StandsFor) prepared connection old answer left new
        → Judges keys.properties channel old token draw (answer_in (answered_as answer)) (lent keys.properties left) new }
{}

/// A client that is admitted is known by its whole name, which has a component, and by a user name if it has one.
pub fn admitted_clients_have_names()
    ensures { (keys : Keys) (channel : Option (List ℕ)) (token : List ℕ) (draw : Draw) (old new : Book) (session : Session)
        → Admits keys channel token draw old session new → IsKnown session }
{}

/// A store that keeps bytes instead of records confuses no two of them: records of equal bytes have one time, one realm and one client's
/// components, and the same microseconds and tag, one after the other. The client of each record has a component, as each client that
/// is admitted has.
pub fn stored_bytes_name_one_record()
    ensures { (a b : Record) → IsTime a.ctime → IsTime b.ctime
        → has_component a.name.name_string ≡ true → has_component b.name.name_string ≡ true
        → record_octets a ≡ record_octets b → NamesOneRecord a b }
{
    krb_der::laws::one_spelling();
}
