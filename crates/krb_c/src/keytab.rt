//! Acceptors of the services of a keytab.

ghost use Rattle.std.specs.Prelude.{◌≡◌, ◌-◌, ◌^◌, ℕ, false, [], length, min, None, Result, IfOk, IfErr, OnErr};
ghost use Rattle.sspi_core.specs.Kinds.{error_of};
ghost use Rattle.sspi_core.specs.declared.cause.Cause.TheVariants as causes;
ghost use Rattle.krb_context.specs.ServiceKeys.{new_properties};
ghost use Rattle.krb_der.specs.Schema.{is_ascii};
ghost use Rattle.krb_entrance.specs.Services.{token_limit};
ghost use Rattle.krb_keytab.specs.Format.{Spells};
ghost use Rattle.krb_keytab.specs.Installing.{keys_of, with_keys};
ghost use Rattle.krb_replay.specs.Book.{StandsFor};
ghost use Rattle.krb_replay.specs.History.{no_history};
ghost use Rattle.krb_c.specs.declared.reply.Failure.{Failure};
ghost use Rattle.krb_c.specs.Replies.{reply_of};
ghost use Rattle.krb_c.specs.Failures.{IsWant, MakesNot, RefusedAs};
ghost use Rattle.krb_c.specs.Keytabs.{IsOfKeytab, MakesOfKeytab, IsNoKeytab, RefusesKeytab, fault_error};

use crate::handles::Acceptor;
use crate::reply::{Failure, Reply, reply_of};
use krb_context::ServerProperties;
use krb_der::{Name, boxed};
use krb_entrance::{Cause, Error, Keys, OutOfMemory, Service};
use krb_keytab::{Keytab, KeytabError};
use std::alloc::Global;

/// Returns a realm's name, if it is ASCII.
fn realm_of(alloc: Global, realm: &[u8]) -> Result<Name, Failure>
    ensures realm { IfOk result (λ name. name ≡ realm.now) }
    ensures fails { IfErr result (RefusedAs (is_ascii realm.now ≡ false) IsWant) }
{
    match Vec::from_slice(alloc, realm) {
        Ok(octets) => match Name::new(octets) {
            Some(name) => Ok(name),
            None => Err(Failure::Argument),
        },
        Err(error) => Err(Failure::Refused(Error::from(error))),
    }
}

fn fault_error(fault: KeytabError) -> Error
    ensures { result ≡ fault_error fault }
{
    match fault {
        KeytabError::Version => Error::from(Cause::Shape),
        KeytabError::Entry { .. } => Error::from(Cause::Shape),
        KeytabError::OutOfMemory => Error::from(Cause::Memory),
    }
}

pub(crate) fn keytab_of(alloc: Global, file: &[u8]) -> Result<Keytab, Error>
    ensures read { IfOk result (λ keytab. Spells keytab.entries file.now) }
    ensures refused { IfErr result (IsNoKeytab file.now) }
{
    match Keytab::read(alloc, file) {
        Ok(keytab) => Ok(keytab),
        Err(fault) => Err(fault_error(fault)),
    }
}

/// Returns properties with no key of their own.
fn without_keys(alloc: Global, skew: u32) -> Result<ServerProperties, Error>
    ensures made { IfOk result (λ properties. properties ≡ new_properties [] None skew None) }
    ensures memory { IfErr result (λ error. error ≡ error_of causes.Memory) }
{
    let name: [&str; 0] = [];
    match ServerProperties::new(alloc, &name, None, skew, None) {
        Ok(properties) => Ok(properties),
        Err(error) => Err(error),
    }
}

/// Puts the keys of the realm into properties that have none, and returns their number.
fn install(
    alloc: Global,
    keytab: &Keytab,
    realm: &Name,
    properties: &mut ServerProperties,
) -> Result<u32, Error>
    ensures installed { IfOk result (λ count. properties.new ≡ with_keys properties.old (keys_of realm.now keytab.now.entries)) }
    ensures count { IfOk result (λ count. count ≡ min (length (keys_of realm.now keytab.now.entries)) (2 ^ 32 - 1)) }
    ensures memory { IfErr result (λ error. error ≡ error_of causes.Memory) }
{
    match keytab.install(alloc, realm, properties) {
        Ok(count) => Ok(count),
        Err(error) => Err(Error::from(error)),
    }
}

/// Returns a service with an empty book.
pub(crate) fn blank(alloc: Global, skew: u32) -> Result<Box<Service>, Error>
    ensures properties { IfOk result (λ service. service.value.keys.properties ≡ new_properties [] None skew None) }
    ensures limit { IfOk result (λ service. service.value.keys.token_limit ≡ token_limit) }
    ensures skew { IfOk result (λ service. service.value.book.skew ≡ skew) }
    ensures book { IfOk result (λ service. StandsFor service.value.book no_history) }
    ensures memory { IfErr result (λ error. error ≡ error_of causes.Memory) }
{
    let properties = without_keys(alloc, skew)?;
    match boxed_service(alloc, properties, skew) {
        Ok(service) => Ok(service),
        Err(error) => Err(Error::from(error)),
    }
}

fn boxed_service(
    alloc: Global,
    properties: ServerProperties,
    skew: u32,
) -> Result<Box<Service>, OutOfMemory>
    ensures properties { IfOk result (λ service. service.value.keys.properties ≡ properties) }
    ensures limit { IfOk result (λ service. service.value.keys.token_limit ≡ token_limit) }
    ensures skew { IfOk result (λ service. service.value.book.skew ≡ skew) }
    ensures book { IfOk result (λ service. StandsFor service.value.book no_history) }
{
    let keys = Keys::from_properties(properties);
    boxed(alloc, Service::from_keys(alloc, keys, skew)?)
}

/// Returns the services of the realm that have a key in the keytab, and their number.
fn services_of(
    alloc: Global,
    keytab: &Keytab,
    realm: &Name,
    skew: u32,
) -> Result<(Box<Service>, u32), Error>
    ensures properties { IfOk result (λ made. made.0.value.keys.properties ≡ with_keys (new_properties [] None skew None) (keys_of realm.now keytab.now.entries)) }
    ensures limit { IfOk result (λ made. made.0.value.keys.token_limit ≡ token_limit) }
    ensures skew { IfOk result (λ made. made.0.value.book.skew ≡ skew) }
    ensures book { IfOk result (λ made. StandsFor made.0.value.book no_history) }
    ensures count { IfOk result (λ made. made.1 ≡ min (length (keys_of realm.now keytab.now.entries)) (2 ^ 32 - 1)) }
    ensures memory { IfErr result (λ error. error ≡ error_of causes.Memory) }
{
    let mut service = blank(alloc, skew)?;
    match install(alloc, keytab, realm, &mut service.keys.properties) {
        Ok(count) => Ok((service, count)),
        Err(error) => Err(error),
    }
}

/// Returns the services of the realm that have a key in the file.
fn services_in(
    alloc: Global,
    file: &[u8],
    realm: &Name,
    skew: u32,
) -> Result<(Box<Service>, u32), Error>
    ensures made { IfOk result (λ made. IsOfKeytab realm.now file.now skew made.0.value made.1) }
    ensures refused { IfErr result (RefusesKeytab realm.now file.now) }
{
    let keytab = keytab_of(alloc, file)?;
    match services_of(alloc, &keytab, realm, skew) {
        Ok((service, count)) => {
            if count == 0 {
                Err(Error::from(Cause::NoServiceKey))
            } else {
                Ok((service, count))
            }
        }
        Err(error) => Err(error),
    }
}

fn make(
    alloc: Global,
    to: &mut Acceptor,
    file: &[u8],
    realm: &[u8],
    skew: u32,
) -> Result<usize, Failure>
    ensures made { IfOk result (λ count. MakesOfKeytab realm.now file.now skew to.old.place.value count to.new.place.value) }
    ensures fails { IfErr result (MakesNot (is_ascii realm.now ≡ false) (RefusesKeytab realm.now file.now) to.old.place.value) }
    ensures stays { OnErr result (to.new.place.value ≡ to.old.place.value) }
{
    if !to.is_empty() {
        return Err(Failure::Handle);
    }
    let realm = realm_of(alloc, realm)?;
    match services_in(alloc, file, &realm, skew) {
        Ok((service, count)) => {
            to.put(service);
            Ok(count as usize)
        }
        Err(error) => Err(Failure::Refused(error)),
    }
}

/// Makes an acceptor in an empty handle: all services of this realm that have a key in the bytes of a keytab file, each with one
/// key: of type 18, otherwise 17, and of several the one of the greatest version. The length is the number of services.
///
/// Fails with REFUSED as InvalidToken `Shape` if the bytes are no keytab of the format 0502, and as InvalidToken `NoServiceKey` if no
/// service of the realm has a key; with ARGUMENT if the realm is not ASCII; with HANDLE if the handle is not empty. It stays empty
/// then.
#[unsafe(no_mangle)]
pub extern "C" fn mk_acceptor_new_keytab(
    alloc: Global,
    to: &mut Acceptor,
    file: &[u8],
    realm: &[u8],
    skew: u32,
) -> Reply
    ensures { (answer : Result ℕ Failure) × (result ≡ reply_of answer)
        × IfOk answer (λ count. MakesOfKeytab realm.now file.now skew to.old.place.value count to.new.place.value)
        × IfErr answer (MakesNot (is_ascii realm.now ≡ false) (RefusesKeytab realm.now file.now) to.old.place.value)
        × OnErr answer (to.new.place.value ≡ to.old.place.value) }
{
    reply_of(make(alloc, to, file, realm, skew))
}
