//! The AS exchange (RFC 4120, section 3.1), as each run contains it.

ghost use Rattle.std.specs.Prelude.{◌≡◌, ℕ, ◌≤◌, ◌^◌, IfOk, length};
ghost use Rattle.krb_crypto.specs.Suite.{key_size};
ghost use Rattle.sspi_core.specs.Moments.{last_moment};
ghost use Rattle.sspi_core.specs.Checks.{Answers, Gives};
ghost use Rattle.krb_exchange.specs.Layouts.{kdc_req_body_layout};
ghost use Rattle.krb_requests.specs.Pieces.{Fits};
ghost use Rattle.krb_as.specs.declared.as_phase.AsPhase.TheVariants as phases;
ghost use Rattle.krb_as.specs.declared.asker.Asker.{Asker};
ghost use Rattle.krb_as.specs.Askers.{client_key, default_salt};
ghost use Rattle.krb_as.specs.Asked.{first_request, second_request};
ghost use Rattle.krb_as.specs.Granted.{IsSendable, IsSendableReply};
ghost use Rattle.krb_as.specs.Replied.{TakesEarly, TakesEither, TakesFirst};
ghost use Rattle.krb_as.specs.Turns.{GoesDown};
ghost use Rattle.krb_as.specs.AsPhases.{
  IsSealed,
  IsAwaiting,
  turns_left,
  kdc_of,
  EndsSendable,
  sealed_time,
  BeginsExchange,
  SealsTime,
  AsksSecond,
  grant_in,
  BringsGrant,
  TakesAsRep,
  TakesReply,
};
ghost use Rattle.krb_as.specs.Fresh.{TakesFreshKey};
ghost use Rattle.krb_as.specs.ReplyKeys.{TakesReplyKey};

use crate::asker::{Asker, default_salt, sized_key};
use crate::fresh::check_fresh;
use crate::kdc::{Kdc, find_kdc};
use crate::key::{Grant, SealedTime, kept_reply_key, reply_key};
use crate::reply::{check_early, first_reply, granted_as_rep, left_salt, left_suite};
use crate::request::{first_request, second_request};
use crate::turn::Turn;
use krb_crypto::CipherSuite;
use krb_der::{Octets, Text, TryCopy};
use krb_exchange::{AsRep, KdcReqBody, KrbError, KrbResult};
use krb_replies::ReplyKey;
use sspi_core::{Cause, Draw, Secret};
use sspi_generator::{NetFault, NetworkRequest};
use std::alloc::Global;

/// The state of an AS exchange: the answer that it waits for.
#[derive(Drop)]
pub enum AsPhase {
    /// The error that answers the first request, with the KDC that the request was sent to and its body.
    AwaitsError(Kdc, KdcReqBody),
    /// The AS-REP that answers the second one.
    AwaitsAsRep(SealedTime),
}

impl AsPhase {
    /// Returns the KDC that both requests go to.
    pub fn kdc(&self) -> &Kdc
        ensures { result.now ≡ kdc_of self.entry.now }
    {
        match self {
            AsPhase::AwaitsError(kdc, _) => kdc,
            AsPhase::AwaitsAsRep(sealed) => &sealed.kdc,
        }
    }

    /// Returns how often the exchange may still ask.
    pub fn turns(&self) -> u32
        ensures left { result ≡ turns_left self.now }
        ensures few { result ≤ 1 }
    {
        match self {
            AsPhase::AwaitsError(_, _) => 1,
            AsPhase::AwaitsAsRep(_) => 0,
        }
    }
}

/// Makes the first request to this KDC.
fn sent_first(alloc: Global, kdc: Kdc, body: KdcReqBody) -> Result<(NetworkRequest, AsPhase), Cause>
    requires body { Fits kdc_req_body_layout (2 ^ 28) body }
    requires realm { length kdc.realm ≤ 2 ^ 24 }
    ensures step { Answers (Gives (first_request kdc body, phases.AwaitsError kdc body)) result }
    ensures waits { (asker : Asker) → IfOk result (λ sent. IsAwaiting asker sent.1) }
    ensures turns { IfOk result (λ sent. turns_left sent.1 ≡ 1) }
{
    let (request, body) = first_request(alloc, &kdc, body)?;
    Ok((request, AsPhase::AwaitsError(kdc, body)))
}

/// Starts an AS exchange: makes a request without pre-authentication to the KDC of the realm, at the URL that is known, otherwise
/// at the one that is found. Fails with `NoKdc`, then with `Scheme`, as `find_kdc` does.
#[tactic(auto, unfolding(crate::specs::AsPhases::BeginsExchange))]
pub fn begin_exchange(
    alloc: Global,
    asker: &Asker,
    body: KdcReqBody,
) -> Result<(NetworkRequest, AsPhase), Cause>
    requires body { Fits kdc_req_body_layout (2 ^ 28) body }
    requires realm { length asker.now.realm ≤ 2 ^ 24 }
    ensures step { Answers (BeginsExchange asker.now body) result }
    ensures waits { IfOk result (λ sent. IsAwaiting asker.now sent.1) }
    ensures turns { IfOk result (λ sent. turns_left sent.1 ≡ 1) }
{
    let kdc = find_kdc(alloc, &asker.kdc_url, &asker.env, &asker.realm)?;
    sent_first(alloc, kdc, body)
}

/// Makes the second request to this KDC, under this key.
fn sent_second(
    alloc: Global,
    asker: &Asker,
    kdc: &Kdc,
    body: &KdcReqBody,
    suite: CipherSuite,
    salt: Text,
    key: Octets,
    draw: &Draw,
) -> Result<(NetworkRequest, SealedTime), Cause>
    requires key { key ≡ client_key suite salt asker.now.credentials }
    requires size { length key ≡ key_size suite }
    requires moment { draw.now.moment ≤ last_moment }
    requires body { Fits kdc_req_body_layout (2 ^ 28) body.now }
    requires realm { length kdc.now.realm ≤ 2 ^ 24 }
    ensures step { Answers (Gives (second_request suite key draw.now kdc.now body.now, sealed_time kdc.now body.now suite salt key)) result }
    ensures sealed { IfOk result (λ sent. IsSealed asker.now sent.1) }
{
    let asked = kdc.copy(alloc)?;
    let (request, body) = second_request(alloc, suite, &key, draw, kdc, body)?;
    let key = Secret::new(key);
    Ok((
        request,
        SealedTime {
            kdc: asked,
            body,
            suite,
            salt,
            key,
        },
    ))
}

/// Makes the second request, after an error that answers the first one: a request with the same body to the same KDC, with the time
/// encrypted under the client's key. The confounder is the first 16 random bytes of the draw.
///
/// Fails as `left_salt` does for the error, then with `KeyLength` if the key is a keytab's and does not have the length of its
/// suite's keys. The suite is that of `left_suite`, which accepts each error that `left_salt` accepts.
#[tactic(auto, unfolding(crate::specs::AsPhases::SealsTime))]
pub(crate) fn seal_time(
    alloc: Global,
    asker: &Asker,
    kdc: &Kdc,
    body: &KdcReqBody,
    error: &KrbError,
    draw: &Draw,
) -> Result<(NetworkRequest, SealedTime), Cause>
    requires moment { draw.now.moment ≤ last_moment }
    requires body { Fits kdc_req_body_layout (2 ^ 28) body.now }
    requires realm { length kdc.now.realm ≤ 2 ^ 24 }
    ensures step { Answers (SealsTime asker.now kdc.now body.now draw.now error.now) result }
    ensures sealed { IfOk result (λ sent. IsSealed asker.now sent.1) }
{
    let salt = left_salt(alloc, &asker.credentials, error)?;
    let suite = left_suite(alloc, asker, error)?;
    let key = sized_key(alloc, asker, suite, &salt)?;
    sent_second(alloc, asker, kdc, body, suite, salt, key, draw)
}

/// Returns the turn with the second request.
#[tactic(auto, unfolding(crate::specs::AsPhases::AsksSecond))]
fn ask_second(
    alloc: Global,
    asker: &Asker,
    kdc: &Kdc,
    body: &KdcReqBody,
    error: &KrbError,
    draw: &Draw,
) -> Result<Turn<AsPhase, Grant>, Cause>
    requires moment { draw.now.moment ≤ last_moment }
    requires body { Fits kdc_req_body_layout (2 ^ 28) body.now }
    requires realm { length kdc.now.realm ≤ 2 ^ 24 }
    ensures step { Answers (AsksSecond (λ phase. phase) asker.now kdc.now body.now draw.now error.now) result }
    ensures down { IfOk result (λ turn. GoesDown (IsAwaiting asker.now) turns_left 1 turn) }
    ensures sendable { IfOk result (λ turn. EndsSendable turn) }
{
    let (request, sealed) = seal_time(alloc, asker, kdc, body, error, draw)?;
    Ok(Turn::Asks(request, AsPhase::AwaitsAsRep(sealed)))
}

/// Returns the end with the ticket of an AS-REP, if its key was taken.
fn grant_in(taken: Result<ReplyKey, Cause>, as_rep: AsRep) -> Result<Turn<AsPhase, Grant>, Cause>
    requires { IsSendable as_rep.0 }
    ensures step { result ≡ grant_in as_rep taken }
    ensures down { (asker : Asker) (turns : ℕ) → IfOk result (λ turn. GoesDown (IsAwaiting asker) turns_left turns turn) }
    ensures sendable { IfOk result (λ turn. EndsSendable turn) }
{
    match taken {
        Ok(taken) => Ok(Turn::Ends(Grant {
            suite: taken.suite,
            key: taken.key,
            facts: taken.facts,
            rep: as_rep.0,
        })),
        Err(cause) => Err(cause),
    }
}

/// Returns the key of an AS-REP that came at once, with the salt of the credentials if it names none, since none was used.
fn unsalted_key(alloc: Global, asker: &Asker, as_rep: &AsRep) -> Result<ReplyKey, Cause>
    ensures { Answers (TakesReplyKey asker.now.rules asker.now.credentials (default_salt asker.now.credentials) as_rep.now) result }
{
    let salt = default_salt(alloc, &asker.credentials)?;
    reply_key(alloc, asker, &salt, as_rep)
}

/// Returns the key of an AS-REP that came at once, if the AS-REP answers the request.
#[tactic(auto, unfolding(crate::specs::Fresh::TakesFreshKey))]
fn fresh_unsalted_key(
    alloc: Global,
    asker: &Asker,
    body: &KdcReqBody,
    moment: u64,
    as_rep: &AsRep,
) -> Result<ReplyKey, Cause>
    ensures { Answers (TakesFreshKey asker.now body.now moment (default_salt asker.now.credentials) as_rep.now) result }
{
    let taken = unsalted_key(alloc, asker, as_rep)?;
    check_fresh(asker.rules, body, moment, &as_rep.0, &taken.facts)?;
    Ok(taken)
}

/// Returns the key of an AS-REP that came at once, if the AS-REP answers the request and may come at once.
#[tactic(auto, unfolding(crate::specs::Replied::TakesEarly))]
fn early_key(
    alloc: Global,
    asker: &Asker,
    body: &KdcReqBody,
    moment: u64,
    as_rep: &AsRep,
) -> Result<ReplyKey, Cause>
    ensures { Answers (TakesEarly asker.now.rules
        (TakesFreshKey asker.now body.now moment (default_salt asker.now.credentials)) as_rep.now) result }
{
    check_early(asker.rules)?;
    fresh_unsalted_key(alloc, asker, body, moment, as_rep)
}

/// Returns the ticket of an AS-REP that came at once, if it may.
fn early_grant(
    alloc: Global,
    asker: &Asker,
    body: &KdcReqBody,
    moment: u64,
    as_rep: AsRep,
) -> Result<Turn<AsPhase, Grant>, Cause>
    requires sendable { IsSendable as_rep.0 }
    ensures step { Answers (TakesEarly asker.now.rules (BringsGrant asker.now body.now moment (default_salt asker.now.credentials)) as_rep) result }
    ensures down { IfOk result (λ turn. GoesDown (IsAwaiting asker.now) turns_left 1 turn) }
    ensures sendable { IfOk result (λ turn. EndsSendable turn) }
{
    let taken = early_key(alloc, asker, body, moment, &as_rep);
    grant_in(taken, as_rep)
}

/// Returns the turn after an error, or after an AS-REP in its place.
fn take_either(
    alloc: Global,
    asker: &Asker,
    kdc: &Kdc,
    body: &KdcReqBody,
    first: KrbResult<AsRep>,
    draw: &Draw,
) -> Result<Turn<AsPhase, Grant>, Cause>
    requires moment { draw.now.moment ≤ last_moment }
    requires body { Fits kdc_req_body_layout (2 ^ 28) body.now }
    requires realm { length kdc.now.realm ≤ 2 ^ 24 }
    requires sendable { IsSendableReply first }
    ensures step { Answers (TakesEither asker.now.rules (AsksSecond (λ phase. phase) asker.now kdc.now body.now draw.now)
        (BringsGrant asker.now body.now draw.now.moment (default_salt asker.now.credentials)) first) result }
    ensures down { IfOk result (λ turn. GoesDown (IsAwaiting asker.now) turns_left 1 turn) }
    ensures sendable { IfOk result (λ turn. EndsSendable turn) }
{
    match first {
        KrbResult::Err(error) => ask_second(alloc, asker, kdc, body, &error, draw),
        KrbResult::Ok(as_rep) => early_grant(alloc, asker, body, draw.moment, as_rep),
    }
}

/// Returns the turn after the first reply.
#[tactic(auto, unfolding(crate::specs::Replied::TakesFirst))]
fn take_first(
    alloc: Global,
    asker: &Asker,
    kdc: &Kdc,
    body: &KdcReqBody,
    reply: Result<Octets, NetFault>,
    draw: &Draw,
) -> Result<Turn<AsPhase, Grant>, Cause>
    requires moment { draw.now.moment ≤ last_moment }
    requires body { Fits kdc_req_body_layout (2 ^ 28) body.now }
    requires realm { length kdc.now.realm ≤ 2 ^ 24 }
    ensures step { Answers (TakesFirst asker.now.rules kdc.now.protocol (AsksSecond (λ phase. phase) asker.now kdc.now body.now draw.now)
        (BringsGrant asker.now body.now draw.now.moment (default_salt asker.now.credentials)) reply) result }
    ensures down { IfOk result (λ turn. GoesDown (IsAwaiting asker.now) turns_left 1 turn) }
    ensures sendable { IfOk result (λ turn. EndsSendable turn) }
{
    let first = first_reply(alloc, kdc.protocol, reply)?;
    take_either(alloc, asker, kdc, body, first, draw)
}

/// Returns the key of the second reply, if the reply answers the request.
#[tactic(auto, unfolding(crate::specs::Fresh::TakesFreshKey))]
fn fresh_kept_key(
    alloc: Global,
    asker: &Asker,
    sealed: &SealedTime,
    moment: u64,
    as_rep: &AsRep,
) -> Result<ReplyKey, Cause>
    requires sealed { IsSealed asker.now sealed.now }
    ensures { Answers (TakesFreshKey asker.now sealed.now.body moment sealed.now.salt as_rep.now) result }
{
    let taken = kept_reply_key(alloc, asker, sealed, as_rep)?;
    check_fresh(asker.rules, &sealed.body, moment, &as_rep.0, &taken.facts)?;
    Ok(taken)
}

/// Returns the ticket of the second reply.
fn kept_grant(
    alloc: Global,
    asker: &Asker,
    sealed: &SealedTime,
    moment: u64,
    as_rep: AsRep,
) -> Result<Turn<AsPhase, Grant>, Cause>
    requires sealed { IsSealed asker.now sealed.now }
    requires sendable { IsSendable as_rep.0 }
    ensures step { Answers (BringsGrant asker.now sealed.now.body moment sealed.now.salt as_rep) result }
    ensures down { IfOk result (λ turn. GoesDown (IsAwaiting asker.now) turns_left 0 turn) }
    ensures sendable { IfOk result (λ turn. EndsSendable turn) }
{
    let taken = fresh_kept_key(alloc, asker, sealed, moment, &as_rep);
    grant_in(taken, as_rep)
}

/// Returns the turn after the second reply.
#[tactic(auto, unfolding(crate::specs::AsPhases::TakesAsRep))]
fn take_as_rep(
    alloc: Global,
    asker: &Asker,
    sealed: &SealedTime,
    moment: u64,
    reply: Result<Octets, NetFault>,
) -> Result<Turn<AsPhase, Grant>, Cause>
    requires sealed { IsSealed asker.now sealed.now }
    ensures step { Answers (TakesAsRep asker.now sealed.now moment reply) result }
    ensures down { IfOk result (λ turn. GoesDown (IsAwaiting asker.now) turns_left 0 turn) }
    ensures sendable { IfOk result (λ turn. EndsSendable turn) }
{
    let as_rep = granted_as_rep(alloc, sealed.kdc.protocol, reply)?;
    kept_grant(alloc, asker, sealed, moment, as_rep)
}

/// Returns the turn after a reply: after the first reply the second request, after the second reply the ticket that it brings. If the
/// rules allow an exchange without pre-authentication, a first reply that is an AS-REP brings the ticket.
///
/// Fails for the first reply as `read_reply` does. Then fails for an error as `left_salt` does, and with `KeyLength` if the key is a
/// keytab's and does not have the length of its suite's keys; for an AS-REP with `EarlyAsRep` if it is not allowed, and as `reply_key`
/// does. Fails for the second reply as `granted_as_rep` does, and then as `reply_key` does. If a reply has to answer its request, then
/// fails for either AS-REP with `Nonce`, with `ReplyNames` and with `ReplyTime`.
pub fn take_reply(
    alloc: Global,
    asker: &Asker,
    phase: &AsPhase,
    reply: Result<Octets, NetFault>,
    draw: &Draw,
) -> Result<Turn<AsPhase, Grant>, Cause>
    requires awaiting { IsAwaiting asker.now phase.now }
    requires moment { draw.now.moment ≤ last_moment }
    ensures step { Answers (TakesReply asker.now phase.now reply draw.now) result }
    ensures down { IfOk result (λ turn. GoesDown (IsAwaiting asker.now) turns_left (turns_left phase.now) turn) }
    ensures sendable { IfOk result (λ turn. EndsSendable turn) }
{
    match phase {
        AsPhase::AwaitsError(kdc, body) => take_first(alloc, asker, kdc, body, reply, draw),
        AsPhase::AwaitsAsRep(sealed) => take_as_rep(alloc, asker, sealed, draw.moment, reply),
    }
}
