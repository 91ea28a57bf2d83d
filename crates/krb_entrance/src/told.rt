//! A candidate that an external store was asked about, for machines that share one.

ghost use Rattle.std.specs.Prelude.{◌≡◌, Ok, IfOk, IfErr};
ghost use Rattle.sspi_core.specs.declared.error.Place.TheVariants as places;
ghost use Rattle.krb_admission.specs.Halves.{AdmitsPrepared, question};
ghost use Rattle.krb_context.specs.Refusals.{Refuses};
ghost use Rattle.krb_replay.specs.Telling.{AdmitsAsTold};
ghost use Rattle.krb_entrance.specs.Told.{IsToldIn, IsToldAway, record_octets, told_gate};

use crate::candidate::Candidate;
use krb_der::boxed;
use krb_replay::Record;
use krb_server::{Answer, Error, Judged, Kerberos, Octets, OutOfMemory, TellingGate};
use krb_sessions::{Order, Session, principal};
use std::alloc::Global;

fn record_octets(alloc: Global, entry: &Record) -> Result<Octets, OutOfMemory>
    ensures { IfOk result (λ octets. octets ≡ record_octets entry.now) }
{
    let name = principal(alloc, &entry.name, &entry.realm)?;
    let mut octets = Vec::from_slice(alloc, &entry.ctime.to_octets())?;
    octets.extend_from_slice(name.as_slice())?;
    octets.push(0)?;
    octets.extend_from_slice(entry.cusec.as_slice())?;
    octets.extend_from_slice(entry.tag.as_slice())?;
    Ok(Octets::new(octets))
}

/// Returns the record of this candidate for a store that machines share. The store looks it up and inserts it in one step, so that
/// of several machines that ask only one gets the answer that it was new. Two uses of one authenticator have the same bytes.
pub fn stored_record(alloc: Global, judged: &Judged) -> Result<Octets, OutOfMemory>
    ensures { IfOk result (λ octets. octets ≡ record_octets (question judged.now).entry) }
{
    let ask = judged.question(alloc)?;
    record_octets(alloc, &ask.entry)
}

fn gate_of(
    alloc: Global,
    judged: &Judged,
    skew: u32,
    moment: u64,
    seen: bool,
) -> Result<TellingGate, OutOfMemory>
    ensures { IfOk result (λ gate. gate ≡ told_gate judged.now skew moment seen) }
{
    let told = judged.question(alloc)?;
    Ok(TellingGate {
        skew,
        moment,
        told,
        seen,
    })
}

fn admit_by(
    alloc: Global,
    judged: Judged,
    connection: &mut Kerberos,
    gate: &mut TellingGate,
) -> Result<Answer, Error>
    ensures admits { IfOk result (λ answer. AdmitsPrepared AdmitsAsTold judged connection.old gate.old (Ok answer) connection.new gate.new) }
    ensures refused { IfErr result (Refuses places.Elsewhere
        (λ answer. AdmitsPrepared AdmitsAsTold judged connection.old gate.old answer connection.new gate.new)) }
{
    match krb_server::admit(alloc, judged, connection, gate) {
        Ok(answer) => Ok(answer),
        Err(error) => Err(error),
    }
}

fn admit_at(alloc: Global, candidate: Candidate, gate: &mut TellingGate) -> Result<Session, Error>
    ensures admits { IfOk result (IsToldIn candidate gate.old) }
    ensures refused { IfErr result (Refuses places.Elsewhere (IsToldAway candidate gate.old)) }
{
    let Candidate {
        judged,
        mut connection,
        client,
    } = candidate;
    match admit_by(alloc, judged, &mut connection, gate) {
        Ok(answer) => Ok(Session {
            answer: answer.token,
            connection,
            client: Some(client),
            order: Order::Any,
        }),
        Err(error) => {
            drop(connection);
            drop(client);
            Err(error)
        }
    }
}

/// Admits a candidate if a store that machines share did not have its record: the store was asked first, about
/// [`stored_record`](crate::stored_record), and keeps the record from then on. `moment` is the store's own time when it answered, in
/// microseconds since 1970, and `seen` whether it had the record. The skew, in seconds, is that of all who share the store, which
/// may drop a record once its own time is later than the record's by more than that.
///
/// If memory runs out the record stays in the store: the client sends a new token.
pub fn admit_told(
    alloc: Global,
    candidate: Candidate,
    skew: u32,
    moment: u64,
    seen: bool,
) -> Result<Session, Error>
    ensures admits { IfOk result (IsToldIn candidate (told_gate candidate.judged skew moment seen)) }
    // A refusal is that of the first check that failed: the clock's, the store's, or one after them.
    ensures refused { IfErr result (Refuses places.Elsewhere (IsToldAway candidate (told_gate candidate.judged skew moment seen))) }
{
    let candidate = boxed(alloc, candidate)?;
    let gate = gate_of(alloc, &candidate.judged, skew, moment, seen)?;
    let mut gate = boxed(alloc, gate)?;
    admit_at(alloc, Box::into_inner(candidate), &mut gate)
}
