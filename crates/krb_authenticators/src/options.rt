//! The parts of an authenticator and of a TGS-REQ.

use krb_context::EncryptionParams;
use krb_crypto::CipherSuite;
use krb_der::{Items, Octets};
use krb_exchange::KdcRep;
use krb_messages::{Authenticator, Ticket};
use sspi_core::{ChannelBindings, ClientRequestFlags, Secret};

/// A key with its suite.
#[derive(Drop)]
pub struct EncKey {
    pub key_type: CipherSuite,
    pub key_value: Secret<Octets>,
}

/// A checksum with its type.
#[derive(Drop)]
pub struct ChecksumOptions {
    /// The octets of the type's INTEGER (RFC 3961, section 8; RFC 4121, section 4.1.1).
    pub checksum_type: Octets,
    pub checksum_value: Octets,
}

/// An extension after the flags of a checksum (RFC 4121, section 4.1.1). It is kept, and nothing reads it.
#[derive(Drop)]
pub struct AuthenticatorChecksumExtension {
    pub extension_type: u32,
    pub extension_value: Octets,
}

/// The parts of an authenticator.
#[derive(Drop)]
pub struct GenerateAuthenticatorOptions<'a> {
    /// The reply with the ticket: the authenticator has the client's realm and name from it.
    pub kdc_rep: &'a KdcRep,
    /// The sequence number of the first message that the client will send.
    pub seq_num: Option<u32>,
    /// A key that the client chose.
    pub sub_key: Option<EncKey>,
    pub checksum: Option<ChecksumOptions>,
    /// Bindings of the channel below. A checksum of type 8003 hex has their hash.
    pub channel_bindings: Option<&'a ChannelBindings>,
    /// Kept and not read.
    pub extensions: Items<AuthenticatorChecksumExtension>,
}

/// The parts of a TGS-REQ.
#[derive(Drop)]
pub struct GenerateTgsReqOptions<'a> {
    /// The realm of the service.
    pub realm: &'a str,
    /// The service and its host, with a `/` between them.
    pub service_principal: &'a str,
    /// The key inside the ticket.
    pub session_key: &'a Secret<Octets>,
    /// The ticket for the ticket-granting service.
    pub ticket: Ticket,
    /// The authenticator of the client. Its checksum is replaced by the checksum of the request's body.
    pub authenticator: Authenticator,
    /// Tickets under whose session keys the KDC may encrypt the new ticket.
    pub additional_tickets: Option<Items<Ticket>>,
    pub enc_params: &'a EncryptionParams,
    /// `DELEGATE` requests a forwardable ticket, `USE_SESSION_KEY` a ticket under an additional ticket's session key.
    pub context_requirements: ClientRequestFlags,
}
