//! The user of an initiator, by a ticket.

ghost use Rattle.std.specs.Prelude.{◌≡◌, ℕ, map, Result, IfOk, IfErr, OnOk, OnErr};
ghost use Rattle.sspi_core.specs.Checks.{Answers, Takes};
ghost use Rattle.sspi_core.specs.declared.cause.Cause.TheVariants as causes;
ghost use Rattle.sspi_core.specs.declared.error.Place.TheVariants as places;
ghost use Rattle.krb_context.specs.Refusals.{Refuses};
ghost use Rattle.krb_entrance.specs.Services.{components};
ghost use Rattle.krb_tickets.specs.Cached.{suite_of_type};
ghost use Rattle.krb_c.specs.declared.reply.Failure.{Failure};
ghost use Rattle.krb_c.specs.Replies.{reply_of};
ghost use Rattle.krb_c.specs.Ccaches.{HoldsNamed, NamesNamed, SetsNamed, client_named, named_ticket, no_times};
ghost use Rattle.krb_c.specs.Dialogues.{Sets};
ghost use Rattle.krb_c.specs.Failures.{SetsNot, IsNoText};

use crate::handles::Initiator;
use crate::reply::{Failure, Reply, reply_of};
use crate::texts::text_of;
use krb_ccache::{CcachePrincipal, Times};
use krb_crypto::CipherSuite;
use krb_der::{Items, Octets, OutOfMemory};
use krb_dialogue::{Cause, Dialogue, Error, HeldTicket};
use sspi_core::Secret;
use std::alloc::{AllocError, Global};

/// The type of the name of a principal (RFC 4120, section 6.2).
const NT_PRINCIPAL: u32 = 1;

/// The times of a ticket that are not known.
const NO_TIMES: Times = Times {
    authenticated: 0,
    start: 0,
    end: 0,
    renew_until: 0,
};

fn parts_of(alloc: Global, name: &str) -> Result<Vec<&str>, AllocError>
    ensures { IfOk result (λ parts. map (λ part. part.now) parts.items ≡ components name.now) }
{
    name.split('/').collect(alloc)
}

fn copied(alloc: Global, parts: &[&str]) -> Result<Items<Octets>, OutOfMemory>
    ensures { IfOk result (λ components. components ≡ map (λ part. part.now) parts.now) }
{
    let mut components = Vec::with_capacity(alloc, parts.len())?;
    for part in parts {
        components.push(Octets::from_slice(alloc, part.as_bytes())?)?;
    }
    Ok(Items::new(components))
}

/// Returns the principal of this name, whose components `/` separates.
fn client_named(alloc: Global, realm: &[u8], name: &str) -> Result<CcachePrincipal, OutOfMemory>
    ensures { IfOk result (λ client. client ≡ client_named realm.now name.now) }
{
    let parts = parts_of(alloc, name)?;
    Ok(CcachePrincipal {
        name_type: NT_PRINCIPAL,
        realm: Octets::from_slice(alloc, realm)?,
        components: copied(alloc, &parts)?,
    })
}

/// Returns the cipher suite of an encryption type.
fn suite_of_type(key_type: u32) -> Result<CipherSuite, Cause>
    ensures { Takes causes.Etype (suite_of_type key_type) result }
{
    match key_type {
        17 => Ok(CipherSuite::Aes128CtsHmacSha196),
        18 => Ok(CipherSuite::Aes256CtsHmacSha196),
        _ => Err(Cause::Etype),
    }
}

/// Returns the ticket of the client of this name.
#[tactic(auto, unfolding(crate::specs::Ccaches::HoldsNamed))]
fn held_of(
    alloc: Global,
    realm: &[u8],
    name: &str,
    key_type: u32,
    key: &[u8],
    ticket: &[u8],
) -> Result<HeldTicket, Cause>
    ensures { Answers (HoldsNamed (named_ticket realm.now name.now key_type key.now ticket.now)) result }
{
    let suite = suite_of_type(key_type)?;
    let client = client_named(alloc, realm, name)?;
    let key = Secret::new(Octets::from_slice(alloc, key)?);
    HeldTicket::new(alloc, &client, suite, &key, ticket, 0, NO_TIMES)
}

/// Sets the ticket of the client of this name.
fn set_in(
    alloc: Global,
    dialogue: &mut Dialogue,
    realm: &[u8],
    name: &str,
    key_type: u32,
    key: &[u8],
    ticket: &[u8],
) -> Result<(), Error>
    ensures set { OnOk result (SetsNamed (named_ticket realm.now name.now key_type key.now ticket.now) dialogue.old dialogue.new) }
    ensures refused { IfErr result (Refuses places.Elsewhere (NamesNamed (named_ticket realm.now name.now key_type key.now ticket.now))) }
    ensures stays { OnErr result (dialogue.new ≡ dialogue.old) }
{
    match held_of(alloc, realm, name, key_type, key, ticket) {
        Ok(held) => dialogue.set_ticket(alloc, held),
        Err(cause) => Err(Error::from(cause)),
    }
}

fn set_ticket(
    alloc: Global,
    initiator: &mut Initiator,
    realm: &[u8],
    name: &[u8],
    key_type: u32,
    key: &[u8],
    ticket: &[u8],
) -> Result<usize, Failure>
    ensures set { IfOk result (λ count. Sets (SetsNamed (named_ticket realm.now name.now key_type key.now ticket.now))
        initiator.old.place.value count initiator.new.place.value) }
    ensures fails { IfErr result (SetsNot (IsNoText name.now)
        (Refuses places.Elsewhere (NamesNamed (named_ticket realm.now name.now key_type key.now ticket.now))) initiator.old.place.value) }
    ensures stays { OnErr result (initiator.new.place.value ≡ initiator.old.place.value) }
{
    let name = text_of(name)?;
    let Some(mut dialogue) = initiator.take(alloc) else {
        return Err(Failure::Handle);
    };
    let set = set_in(alloc, &mut dialogue, realm, name, key_type, key, ticket);
    initiator.put(dialogue);
    match set {
        Ok(()) => Ok(0),
        Err(error) => Err(Failure::Refused(error)),
    }
}

/// Sets the user by a ticket in DER (RFC 4120, section 5.3), for caches that are no files: its client's realm and name, as `alice` or
/// `host/server.example.com`, and its session key of this encryption type. It is a ticket for the initiator's service, or for a
/// ticket-granting service. No password is needed then.
///
/// Fails with ARGUMENT if the name is not UTF-8; with `Etype` if the type is neither 17 nor 18 (RFC 3962); with InvalidToken `Shape` if the
/// ticket is not in DER, or a part is too long; with `NotAscii` if the realm or the name is not ASCII; with `BadUser` if the name has a `\`,
/// or the realm a `\` or an `@`. The length of the key is not checked: the start fails with `KeyLength` if it is another.
#[unsafe(no_mangle)]
pub extern "C" fn mk_initiator_set_ticket(
    alloc: Global,
    initiator: &mut Initiator,
    realm: &[u8],
    name: &[u8],
    key_type: u32,
    key: &[u8],
    ticket: &[u8],
) -> Reply
    ensures { (answer : Result ℕ Failure) × (result ≡ reply_of answer)
        × IfOk answer (λ count. Sets (SetsNamed (named_ticket realm.now name.now key_type key.now ticket.now))
        initiator.old.place.value count initiator.new.place.value)
        × IfErr answer (SetsNot (IsNoText name.now)
        (Refuses places.Elsewhere (NamesNamed (named_ticket realm.now name.now key_type key.now ticket.now))) initiator.old.place.value)
        × OnErr answer (initiator.new.place.value ≡ initiator.old.place.value) }
{
    reply_of(set_ticket(alloc, initiator, realm, name, key_type, key, ticket))
}
