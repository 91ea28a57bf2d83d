//! The first half of an admission, by the keys of a keyring.

ghost use Rattle.std.specs.Prelude.{◌≡◌, ◌⊎◌, ℕ, Result, IfOk, IfErr, OnErr};
ghost use Rattle.krb_keyring.specs.Judging.{RefusesByRing};
ghost use Rattle.krb_c.specs.declared.reply.Failure.{Failure};
ghost use Rattle.krb_c.specs.Replies.{reply_of};
ghost use Rattle.krb_c.specs.Calls.{draw_of};
ghost use Rattle.krb_c.specs.Failures.{IsNoDraw, IsWant, RefusedAs, RefusesUnfilled};
ghost use Rattle.krb_c.specs.Keyrings.{IsLongIf, IsOfRing, RingJudgesTo, RingJudgesNot, channel_if};
ghost use Rattle.krb_c.specs.Told.{is_set};

use crate::accept::Moment;
use crate::handles::{Judgement, Ring};
use crate::judge_bound::channel_of;
use crate::reply::{Failure, Reply, reply_of};
use crate::texts::draw_of;
use krb_der::boxed;
use krb_entrance::{Candidate, Draw, Error};
use krb_keyring::Keyring;
use std::alloc::Global;

/// Returns the hash of a channel's bindings, if the client is bound to it.
fn channel_if(alloc: Global, is_bound: bool, octets: &[u8]) -> Result<Option<[u8; 16]>, Failure>
    ensures channel { IfOk result (λ channel. channel ≡ channel_if is_bound octets.now) }
    ensures fails { IfErr result (RefusedAs (IsLongIf is_bound octets.now) IsWant) }
{
    if !is_bound {
        return Ok(None);
    }
    match channel_of(alloc, octets) {
        Ok(hash) => Ok(Some(hash)),
        Err(failure) => Err(failure),
    }
}

/// Returns a candidate in a box.
#[tactic(auto, using(crate::proofs::RingLemmas::out_of_memory))]
fn boxed_candidate(
    alloc: Global,
    ring: &Keyring,
    channel: Option<[u8; 16]>,
    token: &[u8],
    draw: &Draw,
) -> Result<Box<Candidate>, Error>
    ensures opens { IfOk result (λ candidate. IsOfRing ring.now channel token.now draw.now candidate.value) }
    ensures refused { IfErr result (RefusesByRing ring.now channel token.now draw.now) }
{
    let candidate = ring.judge(alloc, channel, token, draw)?;
    Ok(boxed(alloc, candidate)?)
}

/// Returns the candidate of a token, bound to the channel that has these data if it is bound to one.
#[tactic(auto, using(crate::proofs::RingLemmas::out_of_memory))]
fn candidate_of(
    alloc: Global,
    ring: &Keyring,
    token: &[u8],
    is_bound: bool,
    octets: &[u8],
    draw: &Draw,
) -> Result<Box<Candidate>, Failure>
    ensures opens { IfOk result (λ candidate. IsOfRing ring.now (channel_if is_bound octets.now) token.now draw.now candidate.value) }
    ensures fails { IfErr result (RefusedAs (IsLongIf is_bound octets.now)
        (RefusesByRing ring.now (channel_if is_bound octets.now) token.now draw.now)) }
{
    let channel = channel_if(alloc, is_bound, octets)?;
    match boxed_candidate(alloc, ring, channel, token, draw) {
        Ok(candidate) => Ok(candidate),
        Err(error) => Err(Failure::Refused(error)),
    }
}

fn judge_at(
    alloc: Global,
    ring: &mut Ring,
    to: &mut Judgement,
    token: &[u8],
    is_bound: bool,
    octets: &[u8],
    draw: &Draw,
) -> Result<usize, Failure>
    ensures judges { IfOk result (λ count. RingJudgesTo (channel_if is_bound octets.now) token.now draw.now
        ring.old.place.value to.old.place.value count to.new.place.value) }
    ensures fails { IfErr result (RingJudgesNot (IsNoDraw draw.now ⊎ IsLongIf is_bound octets.now) (channel_if is_bound octets.now)
        token.now draw.now ring.old.place.value to.old.place.value) }
    ensures ring { ring.new.place.value ≡ ring.old.place.value }
    ensures stays { OnErr result (to.new.place.value ≡ to.old.place.value) }
{
    if !to.is_empty() {
        return Err(Failure::Handle);
    }
    let Some(keys) = ring.take(alloc) else {
        return Err(Failure::Handle);
    };
    let judged = candidate_of(alloc, &keys, token, is_bound, octets, draw);
    ring.put(keys);
    to.put(judged?);
    Ok(0)
}

fn judge(
    alloc: Global,
    ring: &mut Ring,
    to: &mut Judgement,
    token: &[u8],
    bound: u32,
    octets: &[u8],
    moment: &Moment,
) -> Result<usize, Failure>
    ensures judges { IfOk result (λ count. RingJudgesTo (channel_if (is_set bound) octets.now) token.now (draw_of moment.now)
        ring.old.place.value to.old.place.value count to.new.place.value) }
    ensures fails { IfErr result (RingJudgesNot (IsNoDraw (draw_of moment.now) ⊎ IsLongIf (is_set bound) octets.now)
        (channel_if (is_set bound) octets.now) token.now (draw_of moment.now) ring.old.place.value to.old.place.value) }
    ensures unfilled { RefusesUnfilled moment.now.random result }
    ensures ring { ring.new.place.value ≡ ring.old.place.value }
    ensures stays { OnErr result (to.new.place.value ≡ to.old.place.value) }
{
    let draw = draw_of(moment)?;
    judge_at(alloc, ring, to, token, bound != 0, octets, &draw)
}

/// Does the first half of an admission by the keys of a keyring, with all its ciphers. A ticket is decrypted with the key that it names
/// in the clear, by its service, realm, encryption type and version. If it names no version, or one that the ring does not have, all
/// keys of the service, the realm and the type are tried, newest first. **Nobody is admitted yet.** The candidate is put into `to`,
/// which is empty before, and is for `mk_admit` or `mk_admit_told`.
///
/// If `bound` is 0 the client is bound to no channel, and the data are not read. Otherwise it is bound to the channel with these data,
/// as at `mk_judge_bound`.
///
/// Fails with REFUSED and the first check that failed: `Shape` for a token that is no AP-REQ or is past the limit, `NoServiceKey` if
/// the ring has no key for the ticket. Fails with ARGUMENT if the moment is past the end of 9999-12-28, or its random bytes are all 0,
/// or a channel's data have over 2^24 bytes; with HANDLE if there is no keyring, or `to` is not empty. Then `to` is unchanged.
#[unsafe(no_mangle)]
pub extern "C" fn mk_keyring_judge(
    alloc: Global,
    ring: &mut Ring,
    to: &mut Judgement,
    token: &[u8],
    bound: u32,
    octets: &[u8],
    moment: &Moment,
) -> Reply
    ensures told { (answer : Result ℕ Failure) × (result ≡ reply_of answer)
        × IfOk answer (λ count. RingJudgesTo (channel_if (is_set bound) octets.now) token.now (draw_of moment.now)
        ring.old.place.value to.old.place.value count to.new.place.value)
        × IfErr answer (RingJudgesNot (IsNoDraw (draw_of moment.now) ⊎ IsLongIf (is_set bound) octets.now)
        (channel_if (is_set bound) octets.now) token.now (draw_of moment.now) ring.old.place.value to.old.place.value)
        × RefusesUnfilled moment.now.random answer
        × OnErr answer (to.new.place.value ≡ to.old.place.value) }
    ensures ring { ring.new.place.value ≡ ring.old.place.value }
{
    reply_of(judge(alloc, ring, to, token, bound, octets, moment))
}
