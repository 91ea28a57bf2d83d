//! The realm that answers, and what its lines add to it.

ghost use Rattle.std.specs.Prelude.{◌≡◌, ◌≢◌, Some, Err, IfOk, OnOk, false, string_bytes};
ghost use Rattle.krb_kdc.specs.Fitting.{is_short, is_short_salt};
ghost use Rattle.krb_kdc.specs.declared.error.KdcError.TheVariants as refusals;
ghost use Rattle.krb_script.specs.Gives.{Gives};
ghost use Rattle.krb_script.specs.declared.fields.FieldError.TheVariants.{Bad};
ghost use Rattle.krb_realm.specs.declared.item.Entry.TheVariants as entries;
ghost use Rattle.krb_realm.specs.Realms.{
  can_begin,
  BeginsRealm,
  Addition,
  APrincipal,
  ATrust,
  ARoute,
  can_add,
  HasAdded,
  with_password,
  addition_of,
  EntersRealm,
  is_moment,
  TellsReply,
};

use crate::item::{Entry, RealmLine, Request};
use crate::reply::reply_line;
use crate::salt::{password_key, salt_of};
use krb_crypto::CipherSuite;
use krb_der::{Items, Name, Octets, TryCopy};
use krb_kdc::{Kdc, KdcError, Principal};
use krb_script::FieldError;
use sspi_core::{MAX_MOMENT, Secret};
use std::alloc::Global;

/// The longest name of a realm, and the longest salt, that a KDC takes.
const MAX_TEXT: usize = 16_777_216;

/// A realm: its name, the suite of its keys, and its KDC.
#[derive(Drop)]
pub struct Realm {
    pub name: Name,
    pub suite: CipherSuite,
    pub kdc: Kdc,
}

/// Returns the line's error for an error of the KDC: `OutOfMemory`, or `Bad` if the KDC does not accept the line's values.
fn field_error(error: KdcError) -> FieldError
    ensures { result ≡ Bad → error ≢ refusals.OutOfMemory }
{
    match error {
        KdcError::OutOfMemory => FieldError::OutOfMemory,
        _ => FieldError::Bad,
    }
}

fn is_short(text: &Name) -> bool
    ensures { result ≡ is_short text.now }
{
    text.as_slice().len() <= MAX_TEXT
}

fn is_short_salt(salt: &Option<Name>) -> bool
    ensures { result ≡ is_short_salt salt.now }
{
    match salt {
        None => true,
        Some(salt) => is_short(salt),
    }
}

/// One client or service more.
fn add_principal(kdc: &mut Kdc, principal: Principal) -> Result<(), FieldError>
    ensures added { OnOk result (HasAdded kdc.old (APrincipal principal) kdc.new) }
    ensures refused { result ≡ Err Bad → can_add kdc.old (APrincipal principal) ≡ false }
{
    if !is_short_salt(&principal.salt) {
        return Err(FieldError::Bad);
    }
    match kdc.add_principal(principal.components, principal.key, principal.salt) {
        Ok(()) => Ok(()),
        Err(error) => Err(field_error(error)),
    }
}

/// One realm more that is trusted.
fn add_trust(kdc: &mut Kdc, realm: Name, key: Secret<Octets>) -> Result<(), FieldError>
    ensures added { OnOk result (HasAdded kdc.old (ATrust (record { realm = realm; key = key })) kdc.new) }
    ensures refused { result ≡ Err Bad → can_add kdc.old (ATrust (record { realm = realm; key = key })) ≡ false }
{
    match kdc.add_trust(realm, key) {
        Ok(()) => Ok(()),
        Err(error) => Err(field_error(error)),
    }
}

/// One route more.
fn add_route(kdc: &mut Kdc, service: Items<Name>, realm: Name) -> Result<(), FieldError>
    ensures added { OnOk result (HasAdded kdc.old (ARoute (record { service = service; realm = realm })) kdc.new) }
    ensures refused { result ≡ Err Bad → can_add kdc.old (ARoute (record { service = service; realm = realm })) ≡ false }
{
    if !is_short(&realm) {
        return Err(FieldError::Bad);
    }
    match kdc.add_route(service, realm) {
        Ok(()) => Ok(()),
        Err(error) => Err(field_error(error)),
    }
}

/// A client or a service with a password.
fn with_password(
    alloc: Global,
    realm: &Realm,
    components: Items<Name>,
    password: &Secret<Octets>,
) -> Result<Principal, FieldError>
    ensures { Gives (Some (with_password realm.now components password.now)) result }
{
    let salt = salt_of(alloc, &realm.name, components.as_slice())?;
    let key = password_key(
        alloc,
        realm.suite,
        password.as_ref().as_slice(),
        salt.as_slice(),
    )?;
    Ok(Principal {
        components,
        key,
        salt: Some(salt),
    })
}

impl Realm {
    /// The realm that the first line names.
    pub fn new(alloc: Global, line: RealmLine) -> Result<Realm, FieldError>
        ensures begun { IfOk result (BeginsRealm line) }
        ensures refused { result ≡ Err Bad → can_begin line ≡ false }
    {
        if !is_short(&line.name) {
            return Err(FieldError::Bad);
        }
        let name = line.name.copy(alloc)?;
        match Kdc::new(alloc, line.name, line.suite, line.tgt_key, line.skew) {
            Ok(kdc) => Ok(Realm {
                name,
                suite: line.suite,
                kdc,
            }),
            Err(error) => Err(field_error(error)),
        }
    }

    fn add_with_password(
        &mut self,
        alloc: Global,
        components: Items<Name>,
        password: Secret<Octets>,
    ) -> Result<(), FieldError>
        ensures added { OnOk result (EntersRealm self.old (entries.Password components password) self.new) }
        ensures refused { result ≡ Err Bad → can_add self.old.kdc (addition_of self.old (entries.Password components password)) ≡ false }
    {
        let principal = with_password(alloc, self, components, &password)?;
        add_principal(&mut self.kdc, principal)
    }

    /// Adds the entry of one line. Fails with `Bad` if the KDC does not accept the entry.
    pub fn add(&mut self, alloc: Global, entry: Entry) -> Result<(), FieldError>
        ensures added { OnOk result (EntersRealm self.old entry self.new) }
        ensures refused { result ≡ Err Bad → can_add self.old.kdc (addition_of self.old entry) ≡ false }
    {
        match entry {
            Entry::Password(components, password) => {
                self.add_with_password(alloc, components, password)
            }
            Entry::Key(components, key) => {
                let principal = Principal {
                    components,
                    key,
                    salt: None,
                };
                add_principal(&mut self.kdc, principal)
            }
            Entry::Trust(realm, key) => add_trust(&mut self.kdc, realm, key),
            Entry::Route(service, realm) => add_route(&mut self.kdc, service, realm),
        }
    }

    /// The line of the reply to a request.
    pub fn answer(&self, alloc: Global, request: &Request) -> Result<String, FieldError>
        ensures answered { IfOk result (λ text. TellsReply self.now request.now (string_bytes text)) }
        ensures refused { result ≡ Err Bad → is_moment request.now.draw.moment ≡ false }
    {
        if request.draw.moment > MAX_MOMENT {
            return Err(FieldError::Bad);
        }
        let reply = self.kdc.answer(request.octets.as_slice(), &request.draw)?;
        Ok(reply_line(alloc, reply.as_slice())?)
    }
}
