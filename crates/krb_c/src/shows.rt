//! The facts of a judged token.

ghost use Rattle.std.specs.Prelude.{◌≡◌, ℕ, length, Some, Result, IfOk, IfErr, OnErr};
ghost use Rattle.krb_sessions.specs.Gives.{Delivers};
ghost use Rattle.krb_c.specs.declared.reply.Failure.{Failure};
ghost use Rattle.krb_c.specs.Replies.{reply_of};
ghost use Rattle.krb_c.specs.Told.{IsClientText, IsServiceText, IsStored, Shows, ShowsNot};

use crate::handles::Judgement;
use crate::reply::{Failure, Reply, reply_of};
use krb_entrance::{Candidate, Error, principal, put, stored_record};
use std::alloc::Global;

fn client_of(alloc: Global, candidate: &Candidate, out: &mut [u8]) -> Result<usize, Failure>
    ensures told { IfOk result (λ count. Shows IsClientText (Some candidate.now) out.old count out.new) }
    ensures fails { IfErr result (ShowsNot IsClientText (Some candidate.now) (length out.old)) }
    ensures room { OnErr result (out.new ≡ out.old) }
{
    match principal(
        alloc,
        candidate.judged.client_name(),
        candidate.judged.client_realm(),
    ) {
        Ok(text) => Ok(put(out, text.as_slice())?),
        Err(error) => Err(Failure::Refused(Error::from(error))),
    }
}

fn client(alloc: Global, judged: &mut Judgement, out: &mut [u8]) -> Result<usize, Failure>
    ensures told { IfOk result (λ count. Shows IsClientText judged.old.place.value out.old count out.new) }
    ensures fails { IfErr result (ShowsNot IsClientText judged.old.place.value (length out.old)) }
    ensures stays { judged.new.place.value ≡ judged.old.place.value }
    ensures room { OnErr result (out.new ≡ out.old) }
{
    let Some(candidate) = judged.take(alloc) else {
        return Err(Failure::Handle);
    };
    let answer = client_of(alloc, &candidate, out);
    judged.put(candidate);
    answer
}

/// Writes the client's whole name: all components of its name and the realm, as `alice/admin@EXAMPLE.COM`, with a backslash before
/// each of these marks that is in them (RFC 1964, section 2.1.1). **It is not admitted yet.**
#[unsafe(no_mangle)]
pub extern "C" fn mk_judged_get_client(
    alloc: Global,
    judged: &mut Judgement,
    out: &mut [u8],
) -> Reply
    ensures told { (answer : Result ℕ Failure) × (result ≡ reply_of answer)
        × IfOk answer (λ count. Shows IsClientText judged.old.place.value out.old count out.new)
        × IfErr answer (ShowsNot IsClientText judged.old.place.value (length out.old))
        × OnErr answer (out.new ≡ out.old) }
    ensures stays { judged.new.place.value ≡ judged.old.place.value }
{
    reply_of(client(alloc, judged, out))
}

fn service_of(alloc: Global, candidate: &Candidate, out: &mut [u8]) -> Result<usize, Failure>
    ensures told { IfOk result (λ count. Shows IsServiceText (Some candidate.now) out.old count out.new) }
    ensures fails { IfErr result (ShowsNot IsServiceText (Some candidate.now) (length out.old)) }
    ensures room { OnErr result (out.new ≡ out.old) }
{
    match principal(
        alloc,
        candidate.judged.service_name(),
        candidate.judged.service_realm(),
    ) {
        Ok(text) => Ok(put(out, text.as_slice())?),
        Err(error) => Err(Failure::Refused(Error::from(error))),
    }
}

fn service(alloc: Global, judged: &mut Judgement, out: &mut [u8]) -> Result<usize, Failure>
    ensures told { IfOk result (λ count. Shows IsServiceText judged.old.place.value out.old count out.new) }
    ensures fails { IfErr result (ShowsNot IsServiceText judged.old.place.value (length out.old)) }
    ensures stays { judged.new.place.value ≡ judged.old.place.value }
    ensures room { OnErr result (out.new ≡ out.old) }
{
    let Some(candidate) = judged.take(alloc) else {
        return Err(Failure::Handle);
    };
    let answer = service_of(alloc, &candidate, out);
    judged.put(candidate);
    answer
}

/// Writes the service that the ticket is for, as `host/server.example.com@EXAMPLE.COM`: its key decrypted the ticket. The realm is the
/// one in the ticket's clear part, which nothing protects.
#[unsafe(no_mangle)]
pub extern "C" fn mk_judged_get_service(
    alloc: Global,
    judged: &mut Judgement,
    out: &mut [u8],
) -> Reply
    ensures told { (answer : Result ℕ Failure) × (result ≡ reply_of answer)
        × IfOk answer (λ count. Shows IsServiceText judged.old.place.value out.old count out.new)
        × IfErr answer (ShowsNot IsServiceText judged.old.place.value (length out.old))
        × OnErr answer (out.new ≡ out.old) }
    ensures stays { judged.new.place.value ≡ judged.old.place.value }
{
    reply_of(service(alloc, judged, out))
}

fn record_of(alloc: Global, candidate: &Candidate, out: &mut [u8]) -> Result<usize, Failure>
    ensures told { IfOk result (λ count. Shows IsStored (Some candidate.now) out.old count out.new) }
    ensures fails { IfErr result (ShowsNot IsStored (Some candidate.now) (length out.old)) }
    ensures room { OnErr result (out.new ≡ out.old) }
{
    match stored_record(alloc, &candidate.judged) {
        Ok(text) => Ok(put(out, text.as_slice())?),
        Err(error) => Err(Failure::Refused(Error::from(error))),
    }
}

fn record(alloc: Global, judged: &mut Judgement, out: &mut [u8]) -> Result<usize, Failure>
    ensures told { IfOk result (λ count. Shows IsStored judged.old.place.value out.old count out.new) }
    ensures fails { IfErr result (ShowsNot IsStored judged.old.place.value (length out.old)) }
    ensures stays { judged.new.place.value ≡ judged.old.place.value }
    ensures room { OnErr result (out.new ≡ out.old) }
{
    let Some(candidate) = judged.take(alloc) else {
        return Err(Failure::Handle);
    };
    let answer = record_of(alloc, &candidate, out);
    judged.put(candidate);
    answer
}

/// Writes the record of this candidate for a store that machines share, for `mk_admit_told`: two uses of one authenticator have the
/// same bytes. The store inserts them and reports whether they were there in one step, and may drop them once its own time is later
/// than the client's by more than the skew. A client's time may be ahead of the store's by the skew.
#[unsafe(no_mangle)]
pub extern "C" fn mk_judged_get_record(
    alloc: Global,
    judged: &mut Judgement,
    out: &mut [u8],
) -> Reply
    ensures told { (answer : Result ℕ Failure) × (result ≡ reply_of answer)
        × IfOk answer (λ count. Shows IsStored judged.old.place.value out.old count out.new)
        × IfErr answer (ShowsNot IsStored judged.old.place.value (length out.old))
        × OnErr answer (out.new ≡ out.old) }
    ensures stays { judged.new.place.value ≡ judged.old.place.value }
{
    reply_of(record(alloc, judged, out))
}
