//! A ticket that a client has.

ghost use Rattle.std.specs.Prelude.{◌≡◌, ◌≤◌, ◌^◌, pos, length, IfOk};
ghost use Rattle.sspi_core.specs.Checks.{Answers, Gives};
ghost use Rattle.krb_messages.specs.Layouts.{principal_name_layout, ticket_layout};
ghost use Rattle.krb_requests.specs.Pieces.{Fits};
ghost use Rattle.krb_as.specs.Granted.{IsSendable};
ghost use Rattle.krb_tickets.specs.Props.{sendable-prop};
ghost use Rattle.krb_tickets.specs.Held.{told_time, held_facts, held_rep, held_grant, ReadsTicket, HoldsTicket};

use crate::principals::{check_short, read_name, read_realm};
use krb_as::Grant;
use krb_ccache::{CcachePrincipal, Times};
use krb_crypto::CipherSuite;
use krb_der::{Bits, Copier, IntegerAsn1, Name, Octets, OutOfMemory, Time, TryCopy, boxed};
use krb_exchange::KdcRep;
use krb_messages::{PrincipalName, Ticket};
use krb_replies::{ReplyFacts, read_or};
use krb_requests::{integer_of, sealed_data};
use sspi_core::{Cause, Secret};
use std::alloc::Global;
use std::marker::Model;

/// A ticket that a client has, with its session key. Contracts see the grant that a KDC's reply would have brought.
#[derive(Drop)]
pub struct HeldTicket {
    grant: Grant,
    ghost sendable: { IsSendable grant.rep } by { sendable-prop grant.rep },
}

impl Model for HeldTicket {
    ghost use Rattle.krb_as.specs.declared.key.Grant.{Grant};

    ghost Value = { Grant };

    ghost view = { λ held. held.grant };
}

fn copied_facts(alloc: Global, facts: &ReplyFacts) -> Result<ReplyFacts, OutOfMemory>
    ensures { IfOk result (λ copy. copy ≡ facts.now) }
{
    let mut copier = Copier::new(alloc);
    let copy = ReplyFacts {
        nonce: copier.copy(&facts.nonce),
        flags: copier.copy(&facts.flags),
        authtime: facts.authtime,
        starttime: facts.starttime,
        endtime: facts.endtime,
        renew_till: facts.renew_till,
        srealm: copier.copy(&facts.srealm),
        sname: copier.copy(&facts.sname),
    };
    copier.finish(copy)
}

/// Copies a grant.
pub(crate) fn copied(alloc: Global, grant: &Grant) -> Result<Grant, OutOfMemory>
    ensures { IfOk result (λ copy. copy ≡ grant.now) }
{
    let key = grant.key.copy(alloc)?;
    let facts = boxed(alloc, copied_facts(alloc, &grant.facts)?)?;
    let rep = grant.rep.copy(alloc)?;
    Ok(Grant {
        suite: grant.suite,
        key,
        facts: Box::into_inner(facts),
        rep,
    })
}

fn time_of(seconds: u32) -> Time
    ensures { result ≡ pos seconds }
{
    Time::new(i64::from(seconds))
}

fn told_time(seconds: u32) -> Option<Time>
    ensures { result ≡ told_time seconds }
{
    if seconds == 0 {
        None
    } else {
        Some(time_of(seconds))
    }
}

/// Returns what is known of a ticket without the reply that brought it.
fn held_facts(
    alloc: Global,
    ticket: &Ticket,
    flags: u32,
    times: Times,
) -> Result<ReplyFacts, OutOfMemory>
    ensures { IfOk result (λ facts. facts ≡ held_facts ticket.now flags times) }
{
    let octets = Octets::from_slice(alloc, &flags.to_be_bytes())?;
    let srealm = ticket.realm.copy(alloc)?;
    let sname = ticket.sname.copy(alloc)?;
    Ok(ReplyFacts {
        nonce: IntegerAsn1::from_bytes_be(Vec::new(alloc)),
        flags: Bits { unused: 0, octets },
        authtime: time_of(times.authenticated),
        starttime: told_time(times.start),
        endtime: time_of(times.end),
        renew_till: told_time(times.renew_until),
        srealm,
        sname,
    })
}

/// Returns a reply with this ticket, in which nothing is encrypted.
fn held_rep(
    alloc: Global,
    realm: Name,
    name: PrincipalName,
    suite: CipherSuite,
    ticket: Ticket,
) -> Result<KdcRep, OutOfMemory>
    ensures { IfOk result (λ rep. rep ≡ held_rep realm name suite ticket) }
{
    let ticket = boxed(alloc, ticket)?;
    let name = boxed(alloc, name)?;
    let pvno = integer_of(alloc, &[5])?;
    let msg_type = integer_of(alloc, &[13])?;
    let enc_part = sealed_data(alloc, suite, Octets::new(Vec::new(alloc)))?;
    Ok(KdcRep {
        pvno,
        msg_type,
        padata: None,
        crealm: realm,
        cname: Box::into_inner(name),
        ticket: Box::into_inner(ticket),
        enc_part,
    })
}

/// Reads a ticket in DER.
#[tactic(auto, unfolding(crate::specs::Held::ReadsTicket))]
fn read_ticket(alloc: Global, octets: &[u8]) -> Result<Ticket, Cause>
    ensures step { Answers (ReadsTicket octets.now) result }
    ensures fits { IfOk result (λ ticket. Fits ticket_layout (2 ^ 24) ticket) }
{
    check_short(octets)?;
    read_or::<Ticket>(alloc, octets, Cause::Shape)
}

/// Returns the grant of a ticket.
fn held_grant(
    alloc: Global,
    realm: Name,
    name: PrincipalName,
    suite: CipherSuite,
    key: &Secret<Octets>,
    ticket: Ticket,
    flags: u32,
    times: Times,
) -> Result<Grant, OutOfMemory>
    ensures { IfOk result (λ grant. grant ≡ held_grant realm name suite key.now ticket flags times) }
{
    let rep = boxed(alloc, held_rep(alloc, realm, name, suite, ticket)?)?;
    let facts = boxed(alloc, held_facts(alloc, &rep.ticket, flags, times)?)?;
    let key = key.copy(alloc)?;
    Ok(Grant {
        suite,
        key,
        facts: Box::into_inner(facts),
        rep: Box::into_inner(rep),
    })
}

/// Returns a ticket whose parts are short.
fn holding(
    alloc: Global,
    realm: Name,
    name: PrincipalName,
    suite: CipherSuite,
    key: &Secret<Octets>,
    ticket: Ticket,
    flags: u32,
    times: Times,
) -> Result<HeldTicket, Cause>
    requires realm { length realm ≤ 2 ^ 24 }
    requires name { Fits principal_name_layout (2 ^ 24) name }
    requires ticket { Fits ticket_layout (2 ^ 24) ticket }
    ensures { Answers (Gives (held_grant realm name suite key.now ticket flags times)) result }
{
    let grant = held_grant(alloc, realm, name, suite, key, ticket, flags, times)?;
    Ok(HeldTicket { grant })
}

impl HeldTicket {
    /// Returns the ticket of a client, in DER, with its session key, its flags (RFC 4120, section 5.3, the first flag as the highest bit)
    /// and its times. A ticket whose times are not known has zeros.
    ///
    /// Fails with `Shape` if the realm of the client has more than 2^24 bytes, with `NotAscii` if it is past ASCII; with `Shape` if the
    /// client's name has more than 256 components or one of more than 65,000 bytes, with `NotAscii` if one is past ASCII; with `Shape` if
    /// the ticket has more than 2^24 bytes or is not in DER. The length of the key is checked by `start_held`. Whether the key belongs to
    /// the ticket only the service finds out.
    #[tactic(auto, unfolding(crate::specs::Held::HoldsTicket))]
    pub fn new(
        alloc: Global,
        client: &CcachePrincipal,
        suite: CipherSuite,
        key: &Secret<Octets>,
        ticket: &[u8],
        flags: u32,
        times: Times,
    ) -> Result<HeldTicket, Cause>
        ensures { Answers (HoldsTicket client.now suite key.now ticket.now flags times) result }
    {
        let realm = read_realm(alloc, &client.realm)?;
        let name = read_name(alloc, client)?;
        let ticket = read_ticket(alloc, ticket)?;
        holding(alloc, realm, name, suite, key, ticket, flags, times)
    }

    /// Returns a ticket that a KDC granted.
    pub fn of_grant(grant: Grant) -> HeldTicket
        requires { IsSendable grant.rep }
        ensures { result ≡ grant }
    {
        HeldTicket { grant }
    }

    /// Returns the grant that a KDC's reply would have brought.
    pub fn as_grant(&self) -> &Grant
        ensures same { result.now ≡ self.now }
        ensures sendable { IsSendable self.now.rep }
    {
        &self.grant
    }
}

impl TryCopy for HeldTicket {
    fn copy(&self, alloc: Global) -> Result<HeldTicket, OutOfMemory> {
        Ok(HeldTicket {
            grant: copied(alloc, &self.grant)?,
        })
    }
}
