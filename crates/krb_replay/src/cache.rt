//! The replay cache of the crate `sspi`.

ghost use Rattle.std.specs.Prelude.{◌≡◌, [], if◌then◌else◌};
ghost use Rattle.krb_replay.specs.Cache.{cache_record_of};

use crate::ask::{Ask, Verdict};
use crate::clock::clock_refusal;
use crate::gate::ReplayGate;
use krb_der::{IntegerAsn1, OutOfMemory, Time};
use krb_messages::PrincipalName;
use std::alloc::Global;
use std::collections::HashSet;

/// The parts of an authenticator that `sspi` keeps. Two records are equal if all four fields are.
#[derive(PartialEq, Eq, Hash, Drop)]
pub struct AuthenticatorCacheRecord {
    /// The client's name, without its realm.
    pub cname: PrincipalName,
    /// The service's name, as in the clear part of the ticket.
    pub sname: PrincipalName,
    /// The client's time, in whole seconds.
    pub ctime: Time,
    /// Its microseconds (RFC 4120 5.5.1, cusec).
    pub microseconds: IntegerAsn1,
}

/// A hashed set of what was admitted.
pub type AuthenticatorsCache = HashSet<AuthenticatorCacheRecord>;

/// A gate that judges each ask by the ask's own moment and never forgets, as `sspi` does. It admits a ticket a second
/// time where the name of the service in its clear part is another, which anybody can change on the way: use a
/// [`ReplayBook`](crate::ReplayBook) where that matters.
#[derive(Drop)]
pub struct CacheGate {
    /// The clock skew that is tolerated, in seconds.
    pub skew: u32,
    /// The records of the admitted authenticators.
    pub cache: AuthenticatorsCache,
    /// The last asked moment, in microseconds since 1970-01-01T00:00:00Z, and 0 at first.
    pub moment: u64,
}

impl CacheGate {
    /// A gate that has admitted nothing.
    pub fn new(alloc: Global, skew: u32) -> CacheGate
        ensures skew { result.skew ≡ skew }
        ensures cache { result.cache.keys ≡ [] }
        ensures moment { result.moment ≡ 0 }
    {
        CacheGate {
            skew,
            cache: HashSet::new(alloc),
            moment: 0,
        }
    }
}

/// The verdict where the clock leaves it open.
fn verdict_of_added(added: bool) -> Verdict
    ensures { result ≡ (if added then Verdict.Admitted else Verdict.Replayed) }
{
    if added {
        Verdict::Admitted
    } else {
        Verdict::Replayed
    }
}

/// Returns the parts of an ask that the cache keeps.
fn cache_record(ask: Ask) -> AuthenticatorCacheRecord
    ensures { result ≡ cache_record_of ask }
{
    let Ask { entry, sname, .. } = ask;
    AuthenticatorCacheRecord {
        cname: entry.name,
        sname,
        ctime: entry.ctime,
        microseconds: IntegerAsn1::from_bytes_be(entry.cusec.into_inner()),
    }
}

impl ReplayGate for CacheGate {
    ghost use Rattle.krb_replay.specs.Cache.{AdmitsByCache, IsSameCache, IsSameCache-same, cache_judges, cache_goes_on};

    ghost skew = { λ gate. gate.skew };

    ghost moment = { λ gate. gate.moment };

    ghost admits = { AdmitsByCache };

    ghost is_same = { IsSameCache };

    ghost same = { IsSameCache-same };

    ghost same_moment = { λ a b same. same.moment };

    ghost same_skew = { λ a b same. same.skew };

    ghost judges = { cache_judges };

    ghost keeps_skew = { λ old new ask verdict step. step.skew };

    ghost goes_on = { cache_goes_on };

    fn admit(&mut self, ask: Ask) -> Result<Verdict, OutOfMemory> {
        let moment = ask.moment;
        match clock_refusal(self.skew, moment, &ask) {
            Some(refusal) => {
                self.moment = moment;
                Ok(refusal)
            }
            None => {
                let added = self.cache.insert(cache_record(ask))?;
                self.moment = moment;
                Ok(verdict_of_added(added))
            }
        }
    }

    fn last_moment(&self) -> u64 {
        self.moment
    }
}
