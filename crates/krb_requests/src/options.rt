//! The options of the generators.

use krb_context::EncryptionParams;
use krb_der::Octets;
use sspi_core::{ClientRequestFlags, Secret};

/// The pre-authentication of a client with a password.
#[derive(Clone, Copy)]
pub struct GenerateAsPaDataOptions<'a> {
    pub password: &'a str,
    pub salt: &'a [u8],
    /// The parameters whose suite is the suite of the key; AES-256 if they have none.
    pub enc_params: &'a EncryptionParams,
    /// True if the pre-authentication has the time, encrypted under the client's key.
    pub with_pre_auth: bool,
}

/// The pre-authentication of a client with a key.
#[derive(Drop)]
pub struct GenerateKeytabPaDataOptions {
    pub key: Secret<Octets>,
    /// The encryption type of the key, 17 or 18 (RFC 3962, section 7).
    pub key_enctype: u8,
    /// True if the pre-authentication has the time, encrypted under the key.
    pub with_pre_auth: bool,
}

/// The parts of an AS-REQ's body.
#[derive(Clone, Copy)]
pub struct GenerateAsReqOptions<'a> {
    pub realm: &'a str,
    /// The client's name, whose components are cut at each slash.
    pub username: &'a str,
    /// The type of the client's name (RFC 4120, section 6.2).
    pub cname_type: u8,
    /// The components of the service's name.
    pub snames: &'a [&'a str],
    /// The octets of the nonce, which the reply repeats.
    pub nonce: [u8; 4],
    /// The name of the client's machine.
    pub hostname: &'a str,
    pub context_requirements: ClientRequestFlags,
}
