//! The user of an initiator, by a credential cache.

ghost use Rattle.std.specs.Prelude.{◌≡◌, ℕ, Result, IfOk, IfErr, OnErr};
ghost use Rattle.krb_ccache.specs.Format.{Spells};
ghost use Rattle.krb_c.specs.declared.reply.Failure.{Failure};
ghost use Rattle.krb_c.specs.Replies.{reply_of};
ghost use Rattle.krb_c.specs.Ccaches.{IsNoCcache, ReadsCcache, RefusesCcache, SetsCcache, fault_cause, second_of, ticket_code};
ghost use Rattle.krb_c.specs.Failures.{SetsNot};

use crate::handles::Initiator;
use crate::reply::{Failure, Reply, reply_of};
use krb_ccache::{Ccache, CcacheError};
use krb_dialogue::{CacheTicket, Cause, Error};
use std::alloc::Global;

fn fault_cause(fault: CcacheError) -> Cause
    ensures { result ≡ fault_cause fault }
{
    match fault {
        CcacheError::Version => Cause::Shape,
        CcacheError::Head => Cause::Shape,
        CcacheError::Credential { .. } => Cause::Shape,
        CcacheError::OutOfMemory => Cause::Memory,
    }
}

/// Reads the bytes of a credential cache.
pub(crate) fn read_ccache(alloc: Global, file: &[u8]) -> Result<Ccache, Cause>
    ensures { ReadsCcache file.now result }
{
    match Ccache::read(alloc, file) {
        Ok(cache) => Ok(cache),
        Err(fault) => Err(fault_cause(fault)),
    }
}

fn ccache_of(alloc: Global, file: &[u8]) -> Result<Ccache, Error>
    ensures read { IfOk result (λ cache. Spells cache file.now) }
    ensures refused { IfErr result (IsNoCcache file.now) }
{
    match read_ccache(alloc, file) {
        Ok(cache) => Ok(cache),
        Err(cause) => Err(Error::from(cause)),
    }
}

/// Returns the second of a moment, or the last one of 32 bits.
fn second_of(moment: u64) -> u32
    ensures { result ≡ second_of moment }
{
    (moment / 1_000_000).min(0xffff_ffff) as u32
}

fn ticket_code(which: CacheTicket) -> usize
    ensures { result ≡ ticket_code which }
{
    match which {
        CacheTicket::Service => 1,
        CacheTicket::Granting => 2,
    }
}

fn set_ccache(
    alloc: Global,
    initiator: &mut Initiator,
    file: &[u8],
    moment: u64,
) -> Result<usize, Failure>
    ensures set { IfOk result (λ count. SetsCcache file.now (second_of moment) initiator.old.place.value count initiator.new.place.value) }
    ensures fails { IfErr result (SetsNot ⊥ (RefusesCcache file.now (second_of moment) initiator.old.place.value) initiator.old.place.value) }
    ensures stays { OnErr result (initiator.new.place.value ≡ initiator.old.place.value) }
{
    let cache = ccache_of(alloc, file)?;
    let Some(mut dialogue) = initiator.take(alloc) else {
        return Err(Failure::Handle);
    };
    let set = dialogue.set_ccache(alloc, &cache, second_of(moment));
    initiator.put(dialogue);
    match set {
        Ok(which) => Ok(ticket_code(which)),
        Err(error) => Err(Failure::Refused(error)),
    }
}

/// Sets the user by the bytes of a credential cache: the cache's own principal, with its ticket for the initiator's service that is
/// valid at this moment, in microseconds since 1970-01-01T00:00:00Z, or otherwise with the ticket for the ticket-granting service of its
/// realm. No password is needed then. The length says which one it is: 1, the service's ticket; 2, the ticket-granting ticket.
///
/// Fails with InvalidToken `Shape` if the bytes are no cache of the formats 0503 and 0504; with `NoIdentity` if the cache has neither
/// ticket; with `Target` if the initiator's service has not two components; with `BadUser` if the name of the principal has a `\`, or its
/// realm a `\` or an `@`.
#[unsafe(no_mangle)]
pub extern "C" fn mk_initiator_set_ccache(
    alloc: Global,
    initiator: &mut Initiator,
    file: &[u8],
    moment: u64,
) -> Reply
    ensures { (answer : Result ℕ Failure) × (result ≡ reply_of answer)
        × IfOk answer (λ count. SetsCcache file.now (second_of moment) initiator.old.place.value count initiator.new.place.value)
        × IfErr answer (SetsNot ⊥ (RefusesCcache file.now (second_of moment) initiator.old.place.value) initiator.old.place.value)
        × OnErr answer (initiator.new.place.value ≡ initiator.old.place.value) }
{
    reply_of(set_ccache(alloc, initiator, file, moment))
}
