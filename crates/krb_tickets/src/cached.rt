//! Tickets in a credential cache.

ghost use Rattle.std.specs.Prelude.{◌≡◌, IfOk};
ghost use Rattle.sspi_core.specs.declared.cause.Cause.TheVariants as causes;
ghost use Rattle.sspi_core.specs.Checks.{Answers, Takes};
ghost use Rattle.krb_crypto.specs.Suite.{suite_number};
ghost use Rattle.krb_as.specs.Granted.{IsSendable};
ghost use Rattle.krb_tickets.specs.Held.{HoldsTicket};
ghost use Rattle.krb_tickets.specs.Cached.{suite_of_type, HoldsCredential, seconds_of, seconds_if, times_of, flags_of, credential_of};

use crate::held::HeldTicket;
use crate::principals::cache_principal;
use krb_as::Grant;
use krb_ccache::{Credential, SessionKey, Times};
use krb_crypto::CipherSuite;
use krb_der::{Asn1, Items, Octets, OutOfMemory, Time, TryCopy, boxed};
use krb_replies::ReplyFacts;
use sspi_core::{Cause, take};
use std::alloc::Global;

fn suite_of_type(key_type: u16) -> Option<CipherSuite>
    ensures { result ≡ suite_of_type key_type }
{
    if key_type == 17 {
        Some(CipherSuite::Aes128CtsHmacSha196)
    } else if key_type == 18 {
        Some(CipherSuite::Aes256CtsHmacSha196)
    } else {
        None
    }
}

fn key_suite(key_type: u16) -> Result<CipherSuite, Cause>
    ensures { Takes causes.Etype (suite_of_type key_type) result }
{
    take(suite_of_type(key_type), Cause::Etype)
}

/// Returns the ticket of a credential.
///
/// Fails with `Etype` if the key is not of type 17 or 18 (RFC 3962, section 7), and then as [`HeldTicket::new`] fails.
#[tactic(auto, unfolding(crate::specs::Cached::HoldsCredential))]
pub fn held_of(alloc: Global, credential: &Credential) -> Result<HeldTicket, Cause>
    ensures { Answers (HoldsCredential credential.now) result }
{
    let suite = key_suite(credential.key.key_type)?;
    HeldTicket::new(
        alloc,
        &credential.client,
        suite,
        &credential.key.octets,
        credential.ticket.as_slice(),
        credential.flags,
        credential.times,
    )
}

fn seconds_of(time: Time) -> u32
    ensures { result ≡ seconds_of time }
{
    match time.seconds() {
        seconds @ 0..=0xffff_ffff => seconds as u32,
        0x1_0000_0000.. => 0xffff_ffff,
        _ => 0,
    }
}

fn seconds_if(time: Option<Time>) -> u32
    ensures { result ≡ seconds_if time }
{
    match time {
        None => 0,
        Some(time) => seconds_of(time),
    }
}

fn times_of(facts: &ReplyFacts) -> Times
    ensures { result ≡ times_of facts.now }
{
    Times {
        authenticated: seconds_of(facts.authtime),
        start: seconds_if(facts.starttime),
        end: seconds_of(facts.endtime),
        renew_until: seconds_if(facts.renew_till),
    }
}

fn flags_of(octets: &[u8]) -> u32
    ensures { result ≡ flags_of octets.now }
{
    match octets {
        [] => 0,
        [a] => u32::from_be_bytes([*a, 0, 0, 0]),
        [a, b] => u32::from_be_bytes([*a, *b, 0, 0]),
        [a, b, c] => u32::from_be_bytes([*a, *b, *c, 0]),
        [a, b, c, d, ..] => u32::from_be_bytes([*a, *b, *c, *d]),
    }
}

fn session_key(alloc: Global, grant: &Grant) -> Result<SessionKey, OutOfMemory>
    ensures { IfOk result (λ key. key ≡ record { key_type = suite_number grant.now.suite; octets = grant.now.key }) }
{
    Ok(SessionKey {
        key_type: u16::from(grant.suite.number()),
        octets: grant.key.copy(alloc)?,
    })
}

/// Returns the credential of a ticket that a KDC granted, for a cache: encrypted under the key of its service, for any address.
///
/// A ticket of user-to-user is encrypted under the session key of another: set `is_skey` and `second_ticket` of its credential.
pub fn credential_of(alloc: Global, grant: &Grant) -> Result<Credential, OutOfMemory>
    requires { IsSendable grant.now.rep }
    ensures { IfOk result (λ credential. credential ≡ credential_of grant.now) }
{
    let (rep, facts) = (&grant.rep, &grant.facts);
    let client = boxed(alloc, cache_principal(alloc, &rep.crealm, &rep.cname)?)?;
    let server = boxed(alloc, cache_principal(alloc, &facts.srealm, &facts.sname)?)?;
    let key = session_key(alloc, grant)?;
    let ticket = rep.ticket.write(alloc)?;
    Ok(Credential {
        client: Box::into_inner(client),
        server: Box::into_inner(server),
        key,
        times: times_of(facts),
        is_skey: 0,
        flags: flags_of(facts.flags.octets.as_slice()),
        addresses: Items::new(Vec::new(alloc)),
        auth_data: Items::new(Vec::new(alloc)),
        ticket,
        second_ticket: Octets::new(Vec::new(alloc)),
    })
}
