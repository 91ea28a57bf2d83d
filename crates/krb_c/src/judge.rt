//! An admission in two halves: the checks before the one book, and the book's question.

ghost use Rattle.std.specs.Prelude.{◌≡◌, ℕ, length, None, Result, IfOk, IfErr, OnErr};
ghost use Rattle.sspi_core.specs.Kinds.{error_of};
ghost use Rattle.sspi_core.specs.declared.cause.Cause.TheVariants as causes;
ghost use Rattle.sspi_core.specs.declared.error.Place.TheVariants as places;
ghost use Rattle.krb_context.specs.Refusals.{Refuses};
ghost use Rattle.krb_replay.specs.Book.{IsUnchanged};
ghost use Rattle.krb_entrance.specs.Candidates.{IsLetIn, Stops, TurnsAway};
ghost use Rattle.krb_c.specs.declared.reply.Failure.{Failure};
ghost use Rattle.krb_c.specs.Replies.{reply_of};
ghost use Rattle.krb_c.specs.Calls.{draw_of};
ghost use Rattle.krb_c.specs.Failures.{IsNoDraw, RefusesUnfilled};
ghost use Rattle.krb_c.specs.Halves.{IsCandidate, JudgesTo, JudgesNot, LetsInTo, LetsInNot};

use crate::accept::Moment;
use crate::handles::{Acceptor, Connection, Judgement};
use crate::reply::{Failure, Reply, reply_of};
use crate::texts::draw_of;
use krb_conf::KerberosConfig;
use krb_context::Kerberos;
use krb_der::{Text, boxed};
use krb_entrance::{Candidate, Draw, Error, Octets, Order, Service, Session};
use std::alloc::Global;

/// Returns a candidate in a box.
fn candidate_of(
    alloc: Global,
    service: &Service,
    token: &[u8],
    draw: &Draw,
) -> Result<Box<Candidate>, Error>
    ensures passes { IfOk result (λ candidate. IsCandidate service.now.keys None token.now draw.now candidate.value) }
    ensures refused { IfErr result (Refuses places.Elsewhere (Stops service.now.keys None token.now draw.now)) }
{
    let candidate = service.judge(alloc, token, draw)?;
    Ok(boxed(alloc, candidate)?)
}

fn judge_at(
    alloc: Global,
    acceptor: &mut Acceptor,
    to: &mut Judgement,
    token: &[u8],
    draw: &Draw,
) -> Result<usize, Failure>
    ensures judges { IfOk result (λ count. JudgesTo None token.now draw.now acceptor.old.place.value to.old.place.value count to.new.place.value) }
    ensures fails { IfErr result (JudgesNot (IsNoDraw draw.now) None token.now draw.now acceptor.old.place.value to.old.place.value) }
    ensures acceptor { acceptor.new.place.value ≡ acceptor.old.place.value }
    ensures stays { OnErr result (to.new.place.value ≡ to.old.place.value) }
{
    if !to.is_empty() {
        return Err(Failure::Handle);
    }
    let Some(service) = acceptor.take(alloc) else {
        return Err(Failure::Handle);
    };
    let judged = candidate_of(alloc, &service, token, draw);
    acceptor.put(service);
    to.put(judged?);
    Ok(0)
}

fn judge(
    alloc: Global,
    acceptor: &mut Acceptor,
    to: &mut Judgement,
    token: &[u8],
    moment: &Moment,
) -> Result<usize, Failure>
    ensures judges { IfOk result (λ count. JudgesTo None token.now (draw_of moment.now) acceptor.old.place.value to.old.place.value count to.new.place.value) }
    ensures fails { IfErr result (JudgesNot (IsNoDraw (draw_of moment.now)) None token.now (draw_of moment.now) acceptor.old.place.value to.old.place.value) }
    ensures unfilled { RefusesUnfilled moment.now.random result }
    ensures acceptor { acceptor.new.place.value ≡ acceptor.old.place.value }
    ensures stays { OnErr result (to.new.place.value ≡ to.old.place.value) }
{
    let draw = draw_of(moment)?;
    judge_at(alloc, acceptor, to, token, &draw)
}

/// Does the first half of `mk_accept`: the checks before the book, with all their ciphers. It only reads the acceptor's names and
/// keys, so it may be called with another acceptor than `mk_admit`: each thread one of its own with the same keys, and the one with
/// the book under a lock. **Nobody is admitted yet.** The candidate is put into `to`, which is empty before.
///
/// Fails with REFUSED and the first check that failed. It takes AP-REQs alone. Fails with ARGUMENT and HANDLE as `mk_accept` does.
/// Then `to` stays empty.
#[unsafe(no_mangle)]
pub extern "C" fn mk_judge(
    alloc: Global,
    acceptor: &mut Acceptor,
    to: &mut Judgement,
    token: &[u8],
    moment: &Moment,
) -> Reply
    ensures told { (answer : Result ℕ Failure) × (result ≡ reply_of answer)
        × IfOk answer (λ count. JudgesTo None token.now (draw_of moment.now) acceptor.old.place.value to.old.place.value count to.new.place.value)
        × IfErr answer (JudgesNot (IsNoDraw (draw_of moment.now)) None token.now (draw_of moment.now) acceptor.old.place.value to.old.place.value)
        × RefusesUnfilled moment.now.random answer
        × OnErr answer (to.new.place.value ≡ to.old.place.value) }
    ensures acceptor { acceptor.new.place.value ≡ acceptor.old.place.value }
{
    reply_of(judge(alloc, acceptor, to, token, moment))
}

/// Returns a session without a peer.
pub(crate) fn blank(alloc: Global) -> Session {
    let config = KerberosConfig {
        kdc_url: None,
        client_computer_name: Text::new(String::new(alloc)),
    };
    Session {
        answer: Octets::new(Vec::new(alloc)),
        connection: Kerberos::new_client_from_config(config, [0; 4]),
        client: None,
        order: Order::Any,
    }
}

/// Returns the session of the candidate, in a box that is allocated before the book is asked.
fn let_in(
    alloc: Global,
    service: &mut Service,
    candidate: Box<Candidate>,
) -> Result<Box<Session>, Error>
    ensures lets_in { IfOk result (λ session. IsLetIn candidate.value service.old.book session.value service.new.book) }
    ensures refused { IfErr result (Refuses places.Elsewhere (TurnsAway candidate.value service.old.book service.new.book)) }
    ensures memory { IfErr result (λ error. error ≡ error_of causes.Memory → IsUnchanged service.old.book service.new.book) }
    ensures keys { service.new.keys ≡ service.old.keys }
{
    let mut session = boxed(alloc, blank(alloc))?;
    *session = service.admit(alloc, Box::into_inner(candidate))?;
    Ok(session)
}

fn admit_judged(
    alloc: Global,
    acceptor: &mut Acceptor,
    judged: &mut Judgement,
    to: &mut Connection,
) -> Result<usize, Failure>
    ensures lets_in { IfOk result (λ count. LetsInTo acceptor.old.place.value judged.old.place.value to.old.place.value count
        acceptor.new.place.value judged.new.place.value to.new.place.value) }
    ensures turns { IfErr result (LetsInNot acceptor.old.place.value judged.old.place.value to.old.place.value acceptor.new.place.value judged.new.place.value) }
    ensures stays { OnErr result (to.new.place.value ≡ to.old.place.value) }
{
    if !to.is_empty() {
        return Err(Failure::Handle);
    }
    if judged.is_empty() {
        return Err(Failure::Handle);
    }
    let Some(mut service) = acceptor.take(alloc) else {
        return Err(Failure::Handle);
    };
    let Some(candidate) = judged.take(alloc) else {
        acceptor.put(service);
        return Err(Failure::Handle);
    };
    let session = let_in(alloc, &mut service, candidate);
    acceptor.put(service);
    let session = session?;
    let count = session.answer.as_slice().len();
    to.put(session);
    Ok(count)
}

/// Does the second half: the book's question, which is short, and the checks after it. The session is made in the empty handle `to`,
/// as `mk_accept` makes it. The candidate is spent, whether it is admitted or refused.
///
/// Fails with HANDLE if a handle has the wrong content for the call: then nothing is changed. If memory runs out no record is made, so
/// the token may be judged again.
#[unsafe(no_mangle)]
pub extern "C" fn mk_admit(
    alloc: Global,
    acceptor: &mut Acceptor,
    judged: &mut Judgement,
    to: &mut Connection,
) -> Reply
    ensures { (answer : Result ℕ Failure) × (result ≡ reply_of answer)
        × IfOk answer (λ count. LetsInTo acceptor.old.place.value judged.old.place.value to.old.place.value count
        acceptor.new.place.value judged.new.place.value to.new.place.value)
        × IfErr answer (LetsInNot acceptor.old.place.value judged.old.place.value to.old.place.value acceptor.new.place.value judged.new.place.value)
        × OnErr answer (to.new.place.value ≡ to.old.place.value) }
{
    reply_of(admit_judged(alloc, acceptor, judged, to))
}

/// Ends a candidate that is not to be admitted. The handle is empty then, and an empty one stays so.
#[unsafe(no_mangle)]
pub extern "C" fn mk_judged_free(alloc: Global, judged: &mut Judgement)
    ensures { judged.new.place.value ≡ None }
{
    drop(judged.take(alloc));
}
