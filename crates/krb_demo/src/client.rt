//! The client of the demonstration.

ghost use Rattle.std.specs.Prelude.{◌≡◌, ◌≤◌, ◌^◌, length, pos, IfOk};
ghost use Rattle.krb_demo.specs.Client.{no_realms, ticket_part, client_ticket, authenticator, authenticator_keys, sealed_authenticator, ap_req, token};

use crate::parts::{
    SUITE, client, encrypted, integer, no_options, realm, service, service_key,
    session_encryption_key, session_key,
};
use krb_crypto::SealingKey;
use krb_der::{Asn1, Octets, OutOfMemory, Time, TryCopy};
use krb_messages::constants::{
    AP_REQ_AUTHENTICATOR_USAGE, AP_REQ_MSG_TYPE, AP_REQ_TOKEN_ID, KERBEROS_VERSION, TICKET_USAGE,
};
use krb_messages::{
    ApReq, Authenticator, EncTicketPart, EncryptedData, Oid, Ticket, TransitedEncoding,
    write_framed,
};
use std::alloc::Global;

/// When the ticket was given, in seconds from 1970: 2023-11-14T22:13:20Z.
pub(crate) const START: u32 = 1_700_000_000;

/// For how long it is valid, in seconds: ten hours.
const LIFETIME: u32 = 36_000;

/// The number of the client's first message.
const SEQ_NUMBER: u32 = 42;

/// Returns the time `count` seconds after the beginning of 1970.
pub(crate) fn seconds(count: u32) -> Time
    ensures { result ≡ pos count }
{
    Time::new(i64::from(count))
}

/// No realm lies between the client's and the service's.
fn no_realms(alloc: Global) -> Result<TransitedEncoding, OutOfMemory>
    ensures { IfOk result (λ realms. realms ≡ no_realms) }
{
    Ok(TransitedEncoding {
        tr_type: integer(alloc, &[1])?,
        contents: Octets::new(Vec::new(alloc)),
    })
}

/// Returns the part of the ticket that is encrypted.
#[tactic(auto, unfolding(crate::specs::Client::ticket_part))]
fn ticket_part(alloc: Global) -> Result<EncTicketPart, OutOfMemory>
    ensures { IfOk result (λ part. part ≡ ticket_part) }
{
    Ok(EncTicketPart {
        flags: no_options(alloc)?,
        key: session_encryption_key(alloc)?,
        crealm: realm(alloc)?,
        cname: client(alloc)?,
        transited: no_realms(alloc)?,
        authtime: seconds(START),
        starttime: Some(seconds(START)),
        endtime: seconds(START + LIFETIME),
        renew_till: None,
        caddr: None,
        authorization_data: None,
    })
}

/// Returns the ticket's part, encrypted under the service's key after a confounder of zeros.
#[tactic(auto, unfolding(crate::specs::Client::ticket_keys, crate::specs::Client::client_ticket))]
fn sealed_part(alloc: Global) -> Result<EncryptedData, OutOfMemory>
    ensures made { IfOk result (λ part. part ≡ client_ticket.enc_part) }
    ensures short { IfOk result (λ part. length part.cipher ≤ 2 ^ 16) }
{
    let part = ticket_part(alloc)?;
    let plain = part.write(alloc)?;
    let keys = SealingKey::new(SUITE, &service_key(), TICKET_USAGE);
    encrypted(alloc, &keys, [0; 16], plain.as_slice())
}

/// The client's ticket.
#[tactic(auto, unfolding(crate::specs::Client::client_ticket))]
fn ticket(alloc: Global) -> Result<Ticket, OutOfMemory>
    ensures made { IfOk result (λ ticket. ticket ≡ client_ticket) }
    ensures short { IfOk result (λ ticket. length ticket.enc_part.cipher ≤ 2 ^ 16) }
{
    Ok(Ticket {
        tkt_vno: integer(alloc, &[KERBEROS_VERSION])?,
        realm: realm(alloc)?,
        sname: service(alloc)?,
        enc_part: sealed_part(alloc)?,
    })
}

/// Returns the authenticator that the client encrypts at this second and microsecond of its clock; `cusec` is big-endian.
fn authenticator(alloc: Global, ctime: Time, cusec: [u8; 4]) -> Result<Authenticator, OutOfMemory>
    ensures { IfOk result (λ made. made ≡ authenticator ctime cusec) }
{
    Ok(Authenticator {
        authenticator_vno: integer(alloc, &[KERBEROS_VERSION])?,
        crealm: realm(alloc)?,
        cname: client(alloc)?,
        cksum: None,
        cusec: integer(alloc, &cusec)?,
        ctime,
        subkey: None,
        seq_number: Some(integer(alloc, &SEQ_NUMBER.to_be_bytes())?),
        authorization_data: None,
    })
}

/// The client `alice` of the realm `EXAMPLE.COM`, with a ticket for `host/server.example.com`, whose key is the octets 00
/// to 1F. All keys are AES-256. It seals its authenticators under keys that are derived once.
#[derive(Drop)]
pub struct DemoClient {
    ticket: Ticket,
    keys: SealingKey,
    ghost ticket_is: { ticket ≡ client_ticket },
    ghost ticket_short: { length ticket.enc_part.cipher ≤ 2 ^ 16 },
    ghost keys_are: { keys ≡ authenticator_keys },
}

impl DemoClient {
    /// Seals the ticket and derives the keys of the authenticators; it fails only if memory runs out.
    #[tactic(auto, unfolding(crate::specs::Client::authenticator_keys))]
    pub fn new(alloc: Global) -> Result<DemoClient, OutOfMemory> {
        Ok(DemoClient {
            ticket: ticket(alloc)?,
            keys: SealingKey::new(SUITE, &session_key(), AP_REQ_AUTHENTICATOR_USAGE),
        })
    }

    /// The AP-REQ with this authenticator.
    fn ap_req(&self, alloc: Global, authenticator: EncryptedData) -> Result<ApReq, OutOfMemory>
        ensures { IfOk result (λ message. message ≡ ap_req authenticator) }
    {
        Ok(ApReq {
            pvno: integer(alloc, &[KERBEROS_VERSION])?,
            msg_type: integer(alloc, &[AP_REQ_MSG_TYPE])?,
            ap_options: no_options(alloc)?,
            ticket: self.ticket.copy(alloc)?,
            authenticator,
        })
    }

    /// The authenticator of this time, sealed.
    #[tactic(auto, unfolding(crate::specs::Client::sealed_authenticator))]
    fn sealed(
        &self,
        alloc: Global,
        ctime: Time,
        cusec: [u8; 4],
        confounder: [u8; 16],
    ) -> Result<EncryptedData, OutOfMemory>
        ensures made { IfOk result (λ part. part ≡ sealed_authenticator ctime cusec confounder) }
        ensures short { IfOk result (λ part. length part.cipher ≤ 2 ^ 16) }
    {
        let part = authenticator(alloc, ctime, cusec)?;
        let plain = part.write(alloc)?;
        encrypted(alloc, &self.keys, confounder, plain.as_slice())
    }

    /// An AP-REQ that asks for no answer, framed (RFC 4120, section 5.5.1; RFC 4121, section 4.1). `ctime` and the
    /// big-endian `cusec` are the client's clock; the number of its first message is 42.
    #[tactic(auto, unfolding(krb_messages::specs::Frame::framed, crate::specs::Client::token))]
    pub fn token(
        &self,
        alloc: Global,
        ctime: Time,
        cusec: [u8; 4],
        confounder: [u8; 16],
    ) -> Result<Octets, OutOfMemory>
        ensures { IfOk result (λ octets. octets ≡ token ctime cusec confounder) }
    {
        let sealed = self.sealed(alloc, ctime, cusec, confounder)?;
        let message = self.ap_req(alloc, sealed)?;
        let octets = message.write(alloc)?;
        write_framed(alloc, Oid::Krb5, AP_REQ_TOKEN_ID, octets.as_slice())
    }
}
