//! An AP-REQ between the two halves of an admission.

use crate::admission::Admission;
use crate::allowed::{delegation_told, first_number, gss_flags, hash_told};
use crate::request::{Request, copy_ask, tag};
use krb_context::Rules;
use krb_der::{Bits, Name, OutOfMemory, Time};
use krb_messages::{AuthorizationData, PrincipalName};
use krb_replay::Ask;
use sspi_core::Cause;
use std::alloc::Global;
use std::marker::Model;

/// An AP-REQ that passed every check before the gate, with the result of the checks after it. Only [`judge`](crate::judge) and
/// [`judge_with`](crate::judge_with) make one, and [`admit`](crate::admit) consumes it. Its values come from the opened ticket and
/// authenticator; **nobody is admitted yet**.
///
/// It lends no key.
#[derive(Drop)]
pub struct Judged {
    pub(crate) request: Box<Request>,
    /// The result of the checks after the gate.
    pub(crate) outcome: Result<Admission, Cause>,
    /// The moment to ask the gate at.
    pub(crate) moment: u64,
    /// The rules that it was judged by.
    pub(crate) rules: Rules,
}

impl Model for Judged {
    ghost use Rattle.krb_admission.specs.Halves.{Prepared, IsPrepared};

    ghost Value = { Prepared };

    ghost view = { λ judged. record { request = judged.request.value; outcome = judged.outcome; moment = judged.moment; rules = judged.rules } };

    // The values passed the checks before the gate.
    ghost invariant = { λ judged. ∥ IsPrepared (record { request = judged.request.value; outcome = judged.outcome; moment = judged.moment; rules = judged.rules }) ∥₁ };
}

/// When a ticket may be used (RFC 4120 5.3).
#[derive(Clone, Copy, Debug, PartialEq, Eq)]
pub struct TicketTimes {
    /// When the client was first authenticated.
    pub authtime: Time,
    /// From when it is valid, where that is not `authtime`.
    pub starttime: Option<Time>,
    /// Until when it is valid.
    pub endtime: Time,
    /// Until when it may be renewed.
    pub renew_till: Option<Time>,
}

impl Judged {
    ghost use Rattle.std.specs.Prelude.{◌≡◌, ◌-ℤ◌, pos, IfOk};
    ghost use Rattle.std.specs.Option.{option_copied};
    ghost use Rattle.krb_replay.specs.Clock.{in_microseconds};
    ghost use Rattle.krb_admission.specs.Allowed.{gss_flags, hash_told, delegation_told, first_number};
    ghost use Rattle.krb_admission.specs.Requests.{tag_of};
    ghost use Rattle.krb_admission.specs.Halves.{question, ticket_times};

    /// The client's name, whole: its type and all its components.
    pub fn client_name(&self) -> &PrincipalName
        ensures { result.now ≡ self.now.request.part.cname }
    {
        &self.request.part.cname
    }

    /// The client's realm.
    pub fn client_realm(&self) -> &Name
        ensures { result.now ≡ self.now.request.part.crealm }
    {
        &self.request.part.crealm
    }

    /// Returns the service's name, from the clear part of the ticket: the key of that service opened the ticket.
    pub fn service_name(&self) -> &PrincipalName
        ensures { result.now ≡ self.now.request.message.ticket.sname }
    {
        &self.request.message.ticket.sname
    }

    /// Returns the realm that issued the ticket, from the ticket's clear part, which no key protects.
    pub fn service_realm(&self) -> &Name
        ensures { result.now ≡ self.now.request.message.ticket.realm }
    {
        &self.request.message.ticket.realm
    }

    /// The ticket's flags (RFC 4120 2).
    pub fn ticket_flags(&self) -> &Bits
        ensures { result.now ≡ self.now.request.part.flags }
    {
        &self.request.part.flags
    }

    /// The ticket's times.
    pub fn ticket_times(&self) -> TicketTimes
        ensures { result ≡ ticket_times self.now.request.part }
    {
        let part = &self.request.part;
        TicketTimes {
            authtime: part.authtime,
            starttime: part.starttime,
            endtime: part.endtime,
            renew_till: part.renew_till,
        }
    }

    /// The ticket's authorization data (RFC 4120 5.2.6): what the KDC, or the client's own restrictions, say of it. No check here reads it.
    pub fn authorization_data(&self) -> Option<&AuthorizationData>
        ensures { option_copied result ≡ self.now.request.part.authorization_data }
    {
        self.request.part.authorization_data.as_ref()
    }

    /// The GSS flags that the client asked for, as numbers of RFC 2744 (RFC 4121, section 4.1.1): None where its checksum has none.
    pub fn gss_flags(&self) -> Option<u32>
        ensures { result ≡ gss_flags self.now.request.authenticator.cksum }
    {
        gss_flags(&self.request.authenticator.cksum)
    }

    /// The MD5 of the bindings that the client gave of its channel, 16 octets (RFC 4121, section 4.1.1.2): all zeros where it gave none,
    /// and no octets where its checksum has no room for them.
    pub fn channel_hash(&self) -> &[u8]
        ensures { result.now ≡ hash_told self.now.request.authenticator.cksum }
    {
        hash_told(&self.request.authenticator.cksum)
    }

    /// The KRB-CRED by which the client hands on a ticket of its own (RFC 4121, section 4.1.1; RFC 4120, section 5.8.1): no octets where
    /// it asked for no delegation, or its checksum has no whole one. It is not opened here.
    pub fn delegation(&self) -> &[u8]
        ensures { result.now ≡ delegation_told self.now.request.authenticator.cksum }
    {
        delegation_told(&self.request.authenticator.cksum)
    }

    /// The number that the client's first message has (RFC 4120, section 5.5.1): the low 32 bits of its authenticator's, and 0 where
    /// that has none.
    pub fn first_number(&self) -> u32
        ensures { result ≡ first_number self.now.request.authenticator.seq_number }
    {
        first_number(&self.request.authenticator.seq_number)
    }

    /// The last twelve octets of the sealed authenticator. Two log-ins never share them but by chance, one in 2^96, and a replay has those
    /// of the first.
    pub fn tag(&self) -> &[u8]
        ensures { result.now ≡ tag_of self.now.request }
    {
        tag(&self.request)
    }

    /// Returns by how many microseconds the client's clock is ahead of the moment of the call that judged the AP-REQ; negative if
    /// the clock is slow. The client's time counts in whole seconds, as for the gate.
    pub fn clock_distance(&self) -> i128
        ensures { result ≡ in_microseconds self.now.request.authenticator.ctime -ℤ pos self.now.moment }
    {
        self.request.authenticator.ctime.microseconds() - i128::from(self.moment)
    }

    /// Returns the question to the gate, for an external store that is asked first (`TellingGate` of `krb_replay`).
    pub fn question(&self, alloc: Global) -> Result<Ask, OutOfMemory>
        ensures { IfOk result (λ ask. ask ≡ question self.now) }
    {
        copy_ask(alloc, self.rules, &self.request, self.moment)
    }
}
