//! The acceptor: the services of a process, and the one replay book of all their clients.

ghost use Rattle.std.specs.Prelude.{◌≡◌, ◌≤◌, ◌++◌, ◌∷◌, [], true, ℕ, length, None, Result, IfOk, IfErr, OnOk, OnErr};
ghost use Rattle.krb_context.specs.ServiceKeys.{service_named, IsNotAscii};
ghost use Rattle.krb_replay.specs.Book.{IsUnchanged};
ghost use Rattle.krb_entrance.specs.Services.{components};
ghost use Rattle.krb_c.specs.declared.reply.Failure.{Failure};
ghost use Rattle.krb_c.specs.declared.reply.Failure.TheVariants as failures;
ghost use Rattle.krb_c.specs.Replies.{reply_of};
ghost use Rattle.krb_c.specs.Calls.{IsNew, Makes, Adds, Reserves, KeepsBook, BeginsBook, LimitsTokens, kept_of};
ghost use Rattle.krb_c.specs.Failures.{IsUnfit, IsWant, MakesNot, RefusedAs, SetsNot, has_key_length};

use crate::handles::Acceptor;
use crate::reply::{Failure, Reply, reply_of};
use crate::texts::{key_of, text_of};
use krb_der::boxed;
use krb_entrance::{Error, Octets, Service};
use std::alloc::Global;

fn new_service(alloc: Global, name: &str, key: Octets, skew: u32) -> Result<Box<Service>, Error>
    ensures made { IfOk result (λ service. IsNew name.now key skew service.value) }
    ensures refused { IfErr result (IsNotAscii (components name.now)) }
{
    let service = Service::new(alloc, name, key, skew)?;
    Ok(boxed(alloc, service)?)
}

fn service_of(alloc: Global, name: &[u8], key: &[u8], skew: u32) -> Result<Box<Service>, Failure>
    ensures made { IfOk result (λ service. IsNew name.now key.now skew service.value) }
    ensures fits { OnOk result (has_key_length key.now ≡ true) }
    ensures fails { IfErr result (RefusedAs (IsUnfit name.now key.now) (IsNotAscii (components name.now))) }
{
    let name = text_of(name)?;
    let key = key_of(alloc, key)?;
    match new_service(alloc, name, key, skew) {
        Ok(service) => Ok(service),
        Err(error) => Err(Failure::Refused(error)),
    }
}

fn make(
    alloc: Global,
    to: &mut Acceptor,
    name: &[u8],
    key: &[u8],
    skew: u32,
) -> Result<usize, Failure>
    ensures made { IfOk result (λ count. Makes name.now key.now skew to.old.place.value count to.new.place.value) }
    ensures fails { IfErr result (MakesNot (IsUnfit name.now key.now) (IsNotAscii (components name.now)) to.old.place.value) }
    ensures stays { OnErr result (to.new.place.value ≡ to.old.place.value) }
{
    if !to.is_empty() {
        return Err(Failure::Handle);
    }
    let service = service_of(alloc, name, key, skew)?;
    to.put(service);
    Ok(0)
}

/// Makes an acceptor in an empty handle: a service with this name in UTF-8, as `host/server.example.com`, and its key of 16
/// or 32 bytes, whose one replay book accepts clocks that are wrong by up to this many seconds.
///
/// Fails with ARGUMENT if the name is not UTF-8 or the key has another length; with HANDLE if the handle is not empty; with
/// InternalError `NotAscii` if the name is not ASCII. The handle stays empty then.
#[unsafe(no_mangle)]
pub extern "C" fn mk_acceptor_new(
    alloc: Global,
    to: &mut Acceptor,
    name: &[u8],
    key: &[u8],
    skew: u32,
) -> Reply
    ensures { (answer : Result ℕ Failure) × (result ≡ reply_of answer)
        × IfOk answer (λ count. Makes name.now key.now skew to.old.place.value count to.new.place.value)
        × IfErr answer (MakesNot (IsUnfit name.now key.now) (IsNotAscii (components name.now)) to.old.place.value)
        × OnErr answer (to.new.place.value ≡ to.old.place.value) }
{
    reply_of(make(alloc, to, name, key, skew))
}

fn add_to(alloc: Global, service: &mut Service, name: &[u8], key: &[u8]) -> Result<usize, Failure>
    ensures added { OnOk result (service.new ≡ record service.old {
      keys = record service.old.keys {
        properties = record service.old.keys.properties {
          additional_service_keys = service.old.keys.properties.additional_service_keys ++ (service_named (components name.now), key.now) ∷ [];
        };
      };
    }) }
    ensures none_written { IfOk result (λ count. count ≡ 0) }
    ensures fits { OnOk result (has_key_length key.now ≡ true) }
    ensures fails { IfErr result (RefusedAs (IsUnfit name.now key.now) (IsNotAscii (components name.now))) }
    ensures stays { OnErr result (service.new ≡ service.old) }
{
    let name = text_of(name)?;
    let key = key_of(alloc, key)?;
    match service.add_key(alloc, name, key) {
        Ok(()) => Ok(0),
        Err(error) => Err(Failure::Refused(error)),
    }
}

fn add(alloc: Global, acceptor: &mut Acceptor, name: &[u8], key: &[u8]) -> Result<usize, Failure>
    ensures added { IfOk result (λ count. Adds name.now key.now acceptor.old.place.value count acceptor.new.place.value) }
    ensures fails { IfErr result (SetsNot (IsUnfit name.now key.now) (IsNotAscii (components name.now)) acceptor.old.place.value) }
    ensures stays { OnErr result (acceptor.new.place.value ≡ acceptor.old.place.value) }
{
    let Some(mut service) = acceptor.take(alloc) else {
        return Err(Failure::Handle);
    };
    let added = add_to(alloc, &mut service, name, key);
    acceptor.put(service);
    match added {
        Ok(count) => Ok(count),
        Err(failure) => Err(failure),
    }
}

/// Adds a further service with this name and key to the acceptor, as `mk_acceptor_new` takes them.
///
/// A ticket is decrypted with the key of the name that it is for. Of two keys with one name the first is used. A call that
/// fails leaves the acceptor unchanged.
#[unsafe(no_mangle)]
pub extern "C" fn mk_acceptor_add_key(
    alloc: Global,
    acceptor: &mut Acceptor,
    name: &[u8],
    key: &[u8],
) -> Reply
    ensures { (answer : Result ℕ Failure) × (result ≡ reply_of answer)
        × IfOk answer (λ count. Adds name.now key.now acceptor.old.place.value count acceptor.new.place.value)
        × IfErr answer (SetsNot (IsUnfit name.now key.now) (IsNotAscii (components name.now)) acceptor.old.place.value)
        × OnErr answer (acceptor.new.place.value ≡ acceptor.old.place.value) }
{
    reply_of(add(alloc, acceptor, name, key))
}

fn reserve(alloc: Global, acceptor: &mut Acceptor, records: usize) -> Result<usize, Failure>
    ensures reserved { IfOk result (λ count. Reserves records acceptor.old.place.value count acceptor.new.place.value) }
    ensures fails { IfErr result (SetsNot ⊥ IsWant acceptor.old.place.value) }
    ensures keeps { OnErr result (KeepsBook acceptor.old.place.value acceptor.new.place.value) }
{
    let Some(mut service) = acceptor.take(alloc) else {
        return Err(Failure::Handle);
    };
    let reserved = service.reserve(records);
    acceptor.put(service);
    match reserved {
        Ok(()) => Ok(0),
        Err(error) => Err(Failure::Refused(Error::from(error))),
    }
}

/// Reserves space for this many more records of admitted clients: that many admissions then need no memory for records. A call that
/// fails leaves the services and the records as they are.
#[unsafe(no_mangle)]
pub extern "C" fn mk_acceptor_reserve(
    alloc: Global,
    acceptor: &mut Acceptor,
    records: usize,
) -> Reply
    ensures { (answer : Result ℕ Failure) × (result ≡ reply_of answer)
        × IfOk answer (λ count. Reserves records acceptor.old.place.value count acceptor.new.place.value)
        × IfErr answer (SetsNot ⊥ IsWant acceptor.old.place.value)
        × OnErr answer (KeepsBook acceptor.old.place.value acceptor.new.place.value) }
{
    reply_of(reserve(alloc, acceptor, records))
}

/// Returns the number of records of admitted clients that are kept: 0 for an empty handle.
#[unsafe(no_mangle)]
pub extern "C" fn mk_acceptor_kept(alloc: Global, acceptor: &mut Acceptor) -> u64
    ensures kept { result ≡ kept_of acceptor.old.place.value }
    ensures stays { acceptor.new.place.value ≡ acceptor.old.place.value }
{
    match acceptor.take(alloc) {
        None => 0,
        Some(service) => {
            let kept = service.kept();
            acceptor.put(service);
            kept
        }
    }
}

fn begin_book(alloc: Global, acceptor: &mut Acceptor, skew: u32) -> Result<usize, Failure>
    ensures begun { IfOk result (λ count. BeginsBook skew acceptor.old.place.value count acceptor.new.place.value) }
    ensures fails { IfErr result (SetsNot ⊥ IsWant acceptor.old.place.value) }
    ensures stays { OnErr result (acceptor.new.place.value ≡ acceptor.old.place.value) }
{
    let Some(mut service) = acceptor.take(alloc) else {
        return Err(Failure::Handle);
    };
    let begun = service.begin_book(alloc, skew);
    acceptor.put(service);
    match begun {
        Ok(()) => Ok(0),
        Err(error) => Err(Failure::Refused(Error::from(error))),
    }
}

/// Begins a new, empty book, which has this skew, for a process whose clock was wrong: a book uses the greatest moment that it was
/// asked at. **All that was admitted can be admitted again**, as after a restart.
///
/// A call that fails leaves the acceptor unchanged.
#[unsafe(no_mangle)]
pub extern "C" fn mk_acceptor_new_book(alloc: Global, acceptor: &mut Acceptor, skew: u32) -> Reply
    ensures { (answer : Result ℕ Failure) × (result ≡ reply_of answer)
        × IfOk answer (λ count. BeginsBook skew acceptor.old.place.value count acceptor.new.place.value)
        × IfErr answer (SetsNot ⊥ IsWant acceptor.old.place.value)
        × OnErr answer (acceptor.new.place.value ≡ acceptor.old.place.value) }
{
    reply_of(begin_book(alloc, acceptor, skew))
}

fn limit_tokens(alloc: Global, acceptor: &mut Acceptor, most: usize) -> Result<usize, Failure>
    ensures limited { IfOk result (λ count. LimitsTokens most acceptor.old.place.value count acceptor.new.place.value) }
    ensures fails { IfErr result (λ failure. (failure ≡ failures.Handle) × (acceptor.old.place.value ≡ None)) }
    ensures stays { OnErr result (acceptor.new.place.value ≡ acceptor.old.place.value) }
{
    let Some(mut service) = acceptor.take(alloc) else {
        return Err(Failure::Handle);
    };
    service.keys.token_limit = most;
    acceptor.put(service);
    Ok(0)
}

/// Sets how many bytes a token may have: a longer one is refused as `Shape`, and not read. An acceptor begins with 65,536.
#[unsafe(no_mangle)]
pub extern "C" fn mk_acceptor_set_token_limit(
    alloc: Global,
    acceptor: &mut Acceptor,
    most: usize,
) -> Reply
    ensures { (answer : Result ℕ Failure) × (result ≡ reply_of answer)
        × IfOk answer (λ count. LimitsTokens most acceptor.old.place.value count acceptor.new.place.value)
        × IfErr answer (λ failure. (failure ≡ failures.Handle) × (acceptor.old.place.value ≡ None))
        × OnErr answer (acceptor.new.place.value ≡ acceptor.old.place.value) }
{
    reply_of(limit_tokens(alloc, acceptor, most))
}

/// Ends an acceptor: its memory is freed, and the handle is empty. An empty handle stays so.
#[unsafe(no_mangle)]
pub extern "C" fn mk_acceptor_free(alloc: Global, acceptor: &mut Acceptor)
    ensures { acceptor.new.place.value ≡ None }
{
    drop(acceptor.take(alloc));
}
