//! The settings of an initiator: its user, and its KDCs.

ghost use Rattle.std.specs.Prelude.{◌≡◌, ◌<◌, ◌⊎◌, ℕ, Result, IfOk, IfErr, OnErr};
ghost use Rattle.sspi_core.specs.declared.error.Place.TheVariants as places;
ghost use Rattle.krb_context.specs.Refusals.{Refuses};
ghost use Rattle.krb_dialogue.specs.Settings.{
  with_kdc,
  with_credentials,
  with_variable,
  with_file,
  with_bindings,
  password_of,
  data_bindings,
  SetsKey,
  NamesKey,
};
ghost use Rattle.krb_c.specs.declared.reply.Failure.{Failure};
ghost use Rattle.krb_c.specs.Replies.{reply_of};
ghost use Rattle.krb_c.specs.Dialogues.{Sets};
ghost use Rattle.krb_c.specs.Failures.{SetsNot, IsNoText, IsWant};

use crate::handles::Initiator;
use crate::reply::{Failure, Reply, reply_of};
use crate::texts::{etype_of, text_of};
use krb_dialogue::Error;
use std::alloc::Global;

fn set_kdc(alloc: Global, initiator: &mut Initiator, address: &[u8]) -> Result<usize, Failure>
    ensures set { IfOk result (λ count. Sets (λ before after. after ≡ with_kdc address.now before)
        initiator.old.place.value count initiator.new.place.value) }
    ensures fails { IfErr result (SetsNot (IsNoText address.now) IsWant initiator.old.place.value) }
    ensures stays { OnErr result (initiator.new.place.value ≡ initiator.old.place.value) }
{
    let address = text_of(address)?;
    let Some(mut dialogue) = initiator.take(alloc) else {
        return Err(Failure::Handle);
    };
    let set = dialogue.set_kdc(alloc, address);
    initiator.put(dialogue);
    match set {
        Ok(()) => Ok(0),
        Err(error) => Err(Failure::Refused(Error::from(error))),
    }
}

/// Sets the KDC of the user's own realm, as `tcp://kdc.example.com:88`. An address that is no URL names none: then KDCs are looked
/// up in the variables and files. Fails with ARGUMENT if the address is not UTF-8. A call that fails leaves the initiator unchanged,
/// for each of its settings.
#[unsafe(no_mangle)]
pub extern "C" fn mk_initiator_set_kdc(
    alloc: Global,
    initiator: &mut Initiator,
    address: &[u8],
) -> Reply
    ensures { (answer : Result ℕ Failure) × (result ≡ reply_of answer)
        × IfOk answer (λ count. Sets (λ before after. after ≡ with_kdc address.now before)
        initiator.old.place.value count initiator.new.place.value)
        × IfErr answer (SetsNot (IsNoText address.now) IsWant initiator.old.place.value)
        × OnErr answer (initiator.new.place.value ≡ initiator.old.place.value) }
{
    reply_of(set_kdc(alloc, initiator, address))
}

fn set_password(
    alloc: Global,
    initiator: &mut Initiator,
    user: &[u8],
    realm: &[u8],
    password: &[u8],
) -> Result<usize, Failure>
    ensures set { IfOk result (λ count. Sets (λ before after. after ≡ with_credentials (password_of user.now realm.now password.now) before)
        initiator.old.place.value count initiator.new.place.value) }
    ensures fails { IfErr result (SetsNot (IsNoText user.now ⊎ (IsNoText realm.now ⊎ IsNoText password.now)) IsWant initiator.old.place.value) }
    ensures stays { OnErr result (initiator.new.place.value ≡ initiator.old.place.value) }
{
    let user = text_of(user)?;
    let realm = text_of(realm)?;
    let password = text_of(password)?;
    let Some(mut dialogue) = initiator.take(alloc) else {
        return Err(Failure::Handle);
    };
    let set = dialogue.set_password(alloc, user, realm, password);
    initiator.put(dialogue);
    match set {
        Ok(()) => Ok(0),
        Err(error) => Err(Failure::Refused(Error::from(error))),
    }
}

/// Sets a user, its realm, which may be empty, and its password. Fails with ARGUMENT if one is not UTF-8.
#[unsafe(no_mangle)]
pub extern "C" fn mk_initiator_set_password(
    alloc: Global,
    initiator: &mut Initiator,
    user: &[u8],
    realm: &[u8],
    password: &[u8],
) -> Reply
    ensures { (answer : Result ℕ Failure) × (result ≡ reply_of answer)
        × IfOk answer (λ count. Sets (λ before after. after ≡ with_credentials (password_of user.now realm.now password.now) before)
        initiator.old.place.value count initiator.new.place.value)
        × IfErr answer (SetsNot (IsNoText user.now ⊎ (IsNoText realm.now ⊎ IsNoText password.now)) IsWant initiator.old.place.value)
        × OnErr answer (initiator.new.place.value ≡ initiator.old.place.value) }
{
    reply_of(set_password(alloc, initiator, user, realm, password))
}

fn set_key(
    alloc: Global,
    initiator: &mut Initiator,
    principal: &[u8],
    etype: u32,
    key: &[u8],
) -> Result<usize, Failure>
    ensures set { IfOk result (λ count. Sets (λ before after. SetsKey principal.now etype key.now before after)
        initiator.old.place.value count initiator.new.place.value) }
    ensures fails { IfErr result (SetsNot (IsNoText principal.now ⊎ (255 < etype)) (Refuses places.Elsewhere (NamesKey principal.now etype)) initiator.old.place.value) }
    ensures stays { OnErr result (initiator.new.place.value ≡ initiator.old.place.value) }
{
    let principal = text_of(principal)?;
    let etype = etype_of(etype)?;
    let Some(mut dialogue) = initiator.take(alloc) else {
        return Err(Failure::Handle);
    };
    let set = dialogue.set_key(alloc, principal, etype, key);
    initiator.put(dialogue);
    match set {
        Ok(()) => Ok(0),
        Err(error) => Err(Failure::Refused(error)),
    }
}

/// Sets a user, as `alice@EXAMPLE.COM`, and its key of a keytab, of this type. Fails with `Etype` if the type is neither 17 nor 18
/// (RFC 3962), and with `BadUser` if the name has both signs of a name; with ARGUMENT if the name is not UTF-8, or the type is over
/// 255.
///
/// The length of the key is not checked: the first step that uses a key of another length fails with `KeyLength`.
#[unsafe(no_mangle)]
pub extern "C" fn mk_initiator_set_key(
    alloc: Global,
    initiator: &mut Initiator,
    principal: &[u8],
    etype: u32,
    key: &[u8],
) -> Reply
    ensures { (answer : Result ℕ Failure) × (result ≡ reply_of answer)
        × IfOk answer (λ count. Sets (λ before after. SetsKey principal.now etype key.now before after)
        initiator.old.place.value count initiator.new.place.value)
        × IfErr answer (SetsNot (IsNoText principal.now ⊎ (255 < etype)) (Refuses places.Elsewhere (NamesKey principal.now etype)) initiator.old.place.value)
        × OnErr answer (initiator.new.place.value ≡ initiator.old.place.value) }
{
    reply_of(set_key(alloc, initiator, principal, etype, key))
}

fn add_variable(
    alloc: Global,
    initiator: &mut Initiator,
    name: &[u8],
    value: &[u8],
) -> Result<usize, Failure>
    ensures set { IfOk result (λ count. Sets (λ before after. after ≡ with_variable name.now value.now before)
        initiator.old.place.value count initiator.new.place.value) }
    ensures fails { IfErr result (SetsNot (IsNoText name.now ⊎ IsNoText value.now) IsWant initiator.old.place.value) }
    ensures stays { OnErr result (initiator.new.place.value ≡ initiator.old.place.value) }
{
    let name = text_of(name)?;
    let value = text_of(value)?;
    let Some(mut dialogue) = initiator.take(alloc) else {
        return Err(Failure::Handle);
    };
    let set = dialogue.add_variable(alloc, name, value);
    initiator.put(dialogue);
    match set {
        Ok(()) => Ok(0),
        Err(error) => Err(Failure::Refused(Error::from(error))),
    }
}

/// Adds a variable of the environment after the existing ones; the first of a name counts. ARGUMENT: a text is not UTF-8.
#[unsafe(no_mangle)]
pub extern "C" fn mk_initiator_set_variable(
    alloc: Global,
    initiator: &mut Initiator,
    name: &[u8],
    value: &[u8],
) -> Reply
    ensures { (answer : Result ℕ Failure) × (result ≡ reply_of answer)
        × IfOk answer (λ count. Sets (λ before after. after ≡ with_variable name.now value.now before)
        initiator.old.place.value count initiator.new.place.value)
        × IfErr answer (SetsNot (IsNoText name.now ⊎ IsNoText value.now) IsWant initiator.old.place.value)
        × OnErr answer (initiator.new.place.value ≡ initiator.old.place.value) }
{
    reply_of(add_variable(alloc, initiator, name, value))
}

fn add_file(
    alloc: Global,
    initiator: &mut Initiator,
    path: &[u8],
    text: &[u8],
) -> Result<usize, Failure>
    ensures set { IfOk result (λ count. Sets (λ before after. after ≡ with_file path.now text.now before)
        initiator.old.place.value count initiator.new.place.value) }
    ensures fails { IfErr result (SetsNot (IsNoText path.now ⊎ IsNoText text.now) IsWant initiator.old.place.value) }
    ensures stays { OnErr result (initiator.new.place.value ≡ initiator.old.place.value) }
{
    let path = text_of(path)?;
    let text = text_of(text)?;
    let Some(mut dialogue) = initiator.take(alloc) else {
        return Err(Failure::Handle);
    };
    let set = dialogue.add_file(alloc, path, text);
    initiator.put(dialogue);
    match set {
        Ok(()) => Ok(0),
        Err(error) => Err(Failure::Refused(Error::from(error))),
    }
}

/// Adds the text of a file, as that of `/etc/krb5.conf`, after the existing ones; the first of a path counts. ARGUMENT: a text is
/// not UTF-8.
#[unsafe(no_mangle)]
pub extern "C" fn mk_initiator_set_file(
    alloc: Global,
    initiator: &mut Initiator,
    path: &[u8],
    text: &[u8],
) -> Reply
    ensures { (answer : Result ℕ Failure) × (result ≡ reply_of answer)
        × IfOk answer (λ count. Sets (λ before after. after ≡ with_file path.now text.now before)
        initiator.old.place.value count initiator.new.place.value)
        × IfErr answer (SetsNot (IsNoText path.now ⊎ IsNoText text.now) IsWant initiator.old.place.value)
        × OnErr answer (initiator.new.place.value ≡ initiator.old.place.value) }
{
    reply_of(add_file(alloc, initiator, path, text))
}

fn bind_to(alloc: Global, initiator: &mut Initiator, octets: &[u8]) -> Result<usize, Failure>
    ensures set { IfOk result (λ count. Sets (λ before after. after ≡ with_bindings (data_bindings octets.now) before)
        initiator.old.place.value count initiator.new.place.value) }
    ensures fails { IfErr result (SetsNot ⊥ IsWant initiator.old.place.value) }
    ensures stays { OnErr result (initiator.new.place.value ≡ initiator.old.place.value) }
{
    let Some(mut dialogue) = initiator.take(alloc) else {
        return Err(Failure::Handle);
    };
    let set = dialogue.bind_to(alloc, octets);
    initiator.put(dialogue);
    match set {
        Ok(()) => Ok(0),
        Err(error) => Err(Failure::Refused(Error::from(error))),
    }
}

/// Binds the exchange to the channel below, by data of the application, as a TLS channel has them (RFC 5929).
#[unsafe(no_mangle)]
pub extern "C" fn mk_initiator_set_bindings(
    alloc: Global,
    initiator: &mut Initiator,
    octets: &[u8],
) -> Reply
    ensures { (answer : Result ℕ Failure) × (result ≡ reply_of answer)
        × IfOk answer (λ count. Sets (λ before after. after ≡ with_bindings (data_bindings octets.now) before)
        initiator.old.place.value count initiator.new.place.value)
        × IfErr answer (SetsNot ⊥ IsWant initiator.old.place.value)
        × OnErr answer (initiator.new.place.value ≡ initiator.old.place.value) }
{
    reply_of(bind_to(alloc, initiator, octets))
}
