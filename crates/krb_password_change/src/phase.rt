//! The phases of a change of a password.

use krb_as::AsPhase;
use krb_crypto::CipherSuite;
use krb_der::{Name, Octets};
use sspi_core::{NetworkProtocol, Secret};

/// The answer of the service that changes passwords, as it is awaited.
#[derive(Drop)]
pub struct AnswerLeg {
    pub protocol: NetworkProtocol,
    /// The suite of the whole exchange.
    pub suite: CipherSuite,
    /// The key under which the answer has to be encrypted.
    pub subkey: Secret<Octets>,
    /// The client's realm, by the AS-REP.
    pub realm: Name,
}

/// The phase of the exchange.
#[derive(Drop)]
pub enum ChangePhase {
    New,
    /// The AS exchange waits for a reply.
    InAsExchange(AsPhase),
    /// The new password was sent.
    AwaitsAnswer(AnswerLeg),
    Over,
}
