//! The second half of an admission if machines share a store.

ghost use Rattle.std.specs.Prelude.{◌≡◌, ℕ, length, Result, IfOk, IfErr, OnErr};
ghost use Rattle.sspi_core.specs.declared.error.Place.TheVariants as places;
ghost use Rattle.krb_context.specs.Refusals.{Refuses};
ghost use Rattle.krb_entrance.specs.Told.{IsToldIn, IsToldAway, told_gate};
ghost use Rattle.krb_c.specs.declared.reply.Failure.{Failure};
ghost use Rattle.krb_c.specs.Replies.{reply_of};
ghost use Rattle.krb_c.specs.Told.{ToldInTo, ToldInNot, is_set};

use crate::handles::{Connection, Judgement};
use crate::judge::blank;
use crate::reply::{Failure, Reply, reply_of};
use krb_der::boxed;
use krb_entrance::{Candidate, Error, Session, admit_told};
use std::alloc::Global;

/// Returns the session of the candidate, in a box that is allocated before it is admitted.
fn told_in(
    alloc: Global,
    candidate: Box<Candidate>,
    skew: u32,
    moment: u64,
    seen: bool,
) -> Result<Box<Session>, Error>
    ensures lets_in { IfOk result (λ session. IsToldIn candidate.value (told_gate candidate.value.judged skew moment seen) session.value) }
    ensures refused { IfErr result (Refuses places.Elsewhere (IsToldAway candidate.value (told_gate candidate.value.judged skew moment seen))) }
{
    let mut session = boxed(alloc, blank(alloc))?;
    *session = admit_told(alloc, Box::into_inner(candidate), skew, moment, seen)?;
    Ok(session)
}

fn admit_judged(
    alloc: Global,
    judged: &mut Judgement,
    to: &mut Connection,
    skew: u32,
    moment: u64,
    seen: u32,
) -> Result<usize, Failure>
    ensures lets_in { IfOk result (λ count. ToldInTo judged.old.place.value to.old.place.value skew moment seen count
        judged.new.place.value to.new.place.value) }
    ensures turns { IfErr result (ToldInNot judged.old.place.value to.old.place.value skew moment seen judged.new.place.value) }
    ensures stays { OnErr result (to.new.place.value ≡ to.old.place.value) }
{
    if !to.is_empty() {
        return Err(Failure::Handle);
    }
    let Some(candidate) = judged.take(alloc) else {
        return Err(Failure::Handle);
    };
    let session = told_in(alloc, candidate, skew, moment, seen != 0)?;
    let count = session.answer.as_slice().len();
    to.put(session);
    Ok(count)
}

/// Does the second half for machines that share a store, instead of `mk_admit`: no book is asked. The store was asked about the
/// bytes of `mk_judged_get_record`, and keeps them from then on, in one step. `seen` is 0 if it did not have them, and `moment` its
/// own time when it answered, in microseconds since 1970-01-01T00:00:00Z. The skew is that of all who share it.
///
/// The candidate is spent, whether it is admitted or refused. Fails with HANDLE if a handle has the wrong content for the call: then
/// nothing is changed. If memory runs out the record stays in the store: the client sends a new token.
#[unsafe(no_mangle)]
pub extern "C" fn mk_admit_told(
    alloc: Global,
    judged: &mut Judgement,
    to: &mut Connection,
    skew: u32,
    moment: u64,
    seen: u32,
) -> Reply
    ensures { (answer : Result ℕ Failure) × (result ≡ reply_of answer)
        × IfOk answer (λ count. ToldInTo judged.old.place.value to.old.place.value skew moment seen count
        judged.new.place.value to.new.place.value)
        × IfErr answer (ToldInNot judged.old.place.value to.old.place.value skew moment seen judged.new.place.value)
        × OnErr answer (to.new.place.value ≡ to.old.place.value) }
{
    reply_of(admit_judged(alloc, judged, to, skew, moment, seen))
}
