//! An initiator on its way to the ticket of a service.

use krb_ap::{Errand, Initiator};
use krb_as::{AsPhase, Asker, Client, Kdc};
use krb_crypto::CipherSuite;
use krb_der::{Name, Octets};
use krb_messages::Ticket;
use krb_tgs::{TgsQuestion, Wanted};
use sspi_core::Secret;

/// An initiator on its way to the ticket of a service. A step never changes it.
#[derive(Drop)]
pub struct Seeker {
    pub asker: Asker,
    /// The client that asks.
    pub client: Client,
    /// The request to ticket-granting services.
    pub wanted: Wanted,
    /// The service's own ticket, which goes into the first request to a ticket-granting service.
    pub tgt: Option<Ticket>,
    /// The options of the exchange with the service.
    pub errand: Errand,
}

/// The task of an initiator. A step never changes it.
#[derive(Drop)]
pub enum Initiation {
    /// It asks the service for the service's own ticket, by this token.
    Requests(Initiator, Octets),
    /// It fetches a ticket, and shows it to the service.
    Seeks(Seeker),
    /// It takes the service's answer, this token.
    Hears(Initiator, Octets),
}

/// A request to a ticket-granting service whose reply is awaited.
#[derive(Drop)]
pub struct TgsLeg {
    /// The KDC to which the request was sent. Its realm is the one that was asked.
    pub kdc: Kdc,
    /// The suite of the whole exchange.
    pub suite: CipherSuite,
    /// The key under which the reply has to be encrypted.
    pub key: Secret<Octets>,
    /// The client's own realm, by the AS-REP.
    pub home: Name,
    /// The parts of the request that the reply has to repeat.
    pub question: TgsQuestion,
    /// The number of referrals that were followed.
    pub hops: u8,
}

/// The phase of an initiation.
#[derive(Drop)]
pub enum InitPhase {
    /// It is not started.
    New,
    /// The AS exchange waits for a reply.
    InAsExchange(AsPhase),
    /// A ticket-granting service was asked.
    AwaitsTgsRep(TgsLeg),
    Over,
}
