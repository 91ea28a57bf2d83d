//! The keyring: all keys of an acceptor, of all realms, types and versions.

ghost use Rattle.std.specs.Prelude.{◌≡◌, ℕ, None, Result, IfOk, IfErr, OnErr};
ghost use Rattle.krb_c.specs.declared.reply.Failure.{Failure};
ghost use Rattle.krb_c.specs.declared.reply.Failure.TheVariants as failures;
ghost use Rattle.krb_c.specs.Replies.{reply_of};
ghost use Rattle.krb_c.specs.Failures.{IsWant, MakesNot, SetsNot};
ghost use Rattle.krb_c.specs.Keyrings.{IsNewRing, MakesRing, AddsEntries, AddsKeytab, HasAsBefore, KeepsRing, RefusesFile, LimitsRing, entries_added};

use crate::handles::Ring;
use crate::keytab::keytab_of;
use crate::reply::{Failure, Reply, reply_of};
use krb_der::boxed;
use krb_entrance::{Error, OutOfMemory};
use krb_keyring::Keyring;
use std::alloc::Global;

fn new_ring(alloc: Global) -> Result<Box<Keyring>, OutOfMemory>
    ensures { IfOk result (λ ring. IsNewRing ring.value) }
{
    boxed(alloc, Keyring::new(alloc))
}

fn make(alloc: Global, to: &mut Ring) -> Result<usize, Failure>
    ensures made { IfOk result (λ count. MakesRing to.old.place.value count to.new.place.value) }
    ensures fails { IfErr result (MakesNot ⊥ IsWant to.old.place.value) }
    ensures stays { OnErr result (to.new.place.value ≡ to.old.place.value) }
{
    if !to.is_empty() {
        return Err(Failure::Handle);
    }
    match new_ring(alloc) {
        Ok(ring) => {
            to.put(ring);
            Ok(0)
        }
        Err(error) => Err(Failure::Refused(Error::from(error))),
    }
}

/// Makes a keyring without a key in an empty handle. A token may have 65,536 bytes.
///
/// Fails with HANDLE if the handle is not empty. It stays as it is then.
#[unsafe(no_mangle)]
pub extern "C" fn mk_keyring_new(alloc: Global, to: &mut Ring) -> Reply
    ensures { (answer : Result ℕ Failure) × (result ≡ reply_of answer)
        × IfOk answer (λ count. MakesRing to.old.place.value count to.new.place.value)
        × IfErr answer (MakesNot ⊥ IsWant to.old.place.value)
        × OnErr answer (to.new.place.value ≡ to.old.place.value) }
{
    reply_of(make(alloc, to))
}

/// Adds all entries of a keytab to a ring, and returns their number.
fn add_entries(alloc: Global, ring: &mut Keyring, file: &[u8]) -> Result<usize, Error>
    ensures added { IfOk result (λ count. AddsEntries file.now ring.old count ring.new) }
    ensures refused { IfErr result (RefusesFile file.now) }
    ensures stays { OnErr result (HasAsBefore ring.old ring.new) }
{
    let keytab = keytab_of(alloc, file)?;
    match ring.add_keytab(alloc, &keytab) {
        Ok(()) => Ok(keytab.entries.as_slice().len()),
        Err(error) => Err(Error::from(error)),
    }
}

fn add_keytab(alloc: Global, ring: &mut Ring, file: &[u8]) -> Result<usize, Failure>
    ensures added { IfOk result (λ count. AddsKeytab file.now ring.old.place.value count ring.new.place.value) }
    ensures fails { IfErr result (SetsNot ⊥ (RefusesFile file.now) ring.old.place.value) }
    ensures stays { OnErr result (KeepsRing ring.old.place.value ring.new.place.value) }
{
    let Some(mut keys) = ring.take(alloc) else {
        return Err(Failure::Handle);
    };
    let added = add_entries(alloc, &mut keys, file);
    ring.put(keys);
    match added {
        Ok(count) => Ok(count),
        Err(error) => Err(Failure::Refused(error)),
    }
}

/// Adds all entries of a keytab to the keyring, after the existing ones: of all realms, encryption types and versions. The length is
/// the number of entries that were added.
///
/// Fails with REFUSED as InvalidToken `Shape` if the bytes are no keytab of the format 0502; with HANDLE if there is no keyring. After
/// an error the ring has the keys that it had.
#[unsafe(no_mangle)]
pub extern "C" fn mk_keyring_add_keytab(alloc: Global, ring: &mut Ring, file: &[u8]) -> Reply
    ensures { (answer : Result ℕ Failure) × (result ≡ reply_of answer)
        × IfOk answer (λ count. AddsKeytab file.now ring.old.place.value count ring.new.place.value)
        × IfErr answer (SetsNot ⊥ (RefusesFile file.now) ring.old.place.value)
        × OnErr answer (KeepsRing ring.old.place.value ring.new.place.value) }
{
    reply_of(add_keytab(alloc, ring, file))
}

fn limit_tokens(alloc: Global, ring: &mut Ring, most: usize) -> Result<usize, Failure>
    ensures limited { IfOk result (λ count. LimitsRing most ring.old.place.value count ring.new.place.value) }
    ensures fails { IfErr result (λ failure. (failure ≡ failures.Handle) × (ring.old.place.value ≡ None)) }
    ensures stays { OnErr result (ring.new.place.value ≡ ring.old.place.value) }
{
    let Some(mut keys) = ring.take(alloc) else {
        return Err(Failure::Handle);
    };
    keys.token_limit = most;
    ring.put(keys);
    Ok(0)
}

/// Sets how many bytes a token may have: a longer one is refused as `Shape`, and not read.
#[unsafe(no_mangle)]
pub extern "C" fn mk_keyring_set_token_limit(alloc: Global, ring: &mut Ring, most: usize) -> Reply
    ensures { (answer : Result ℕ Failure) × (result ≡ reply_of answer)
        × IfOk answer (λ count. LimitsRing most ring.old.place.value count ring.new.place.value)
        × IfErr answer (λ failure. (failure ≡ failures.Handle) × (ring.old.place.value ≡ None))
        × OnErr answer (ring.new.place.value ≡ ring.old.place.value) }
{
    reply_of(limit_tokens(alloc, ring, most))
}

/// Returns the number of entries that were added: 0 for an empty handle.
#[unsafe(no_mangle)]
pub extern "C" fn mk_keyring_count(alloc: Global, ring: &mut Ring) -> u64
    ensures count { result ≡ entries_added ring.old.place.value }
    ensures stays { ring.new.place.value ≡ ring.old.place.value }
{
    match ring.take(alloc) {
        None => 0,
        Some(keys) => {
            let count = keys.len();
            ring.put(keys);
            count
        }
    }
}

/// Ends a keyring: its memory is freed, and the handle is empty. An empty handle stays so.
#[unsafe(no_mangle)]
pub extern "C" fn mk_keyring_free(alloc: Global, ring: &mut Ring)
    ensures { ring.new.place.value ≡ None }
{
    drop(ring.take(alloc));
}
