//! Parts of the client's records.

ghost use Rattle.std.specs.Prelude.{◌≡◌, ◌+◌, IfOk, IsTrue, replicate, length};
ghost use Rattle.krb_der.specs.Schema.{is_ascii};
ghost use Rattle.krb_crypto.specs.Sealed.{sealed_text};
ghost use Rattle.krb_demo.specs.Client.{realm, client, service, session_key, service_key, session_encryption_key, no_options, encrypted};

use krb_crypto::{CipherSuite, SealingKey};
use krb_der::{Bits, IntegerAsn1, Items, Name, Octets, OutOfMemory};
use krb_messages::constants::{NT_PRINCIPAL, NT_SRV_INST};
use krb_messages::{EncryptedData, EncryptionKey, PrincipalName};
use std::alloc::Global;

/// The suite of all keys.
pub(crate) const SUITE: CipherSuite = CipherSuite::Aes256CtsHmacSha196;

const SERVICE_KEY: [u8; 32] = [
    0x00, 0x01, 0x02, 0x03, 0x04, 0x05, 0x06, 0x07, 0x08, 0x09, 0x0a, 0x0b, 0x0c, 0x0d, 0x0e, 0x0f,
    0x10, 0x11, 0x12, 0x13, 0x14, 0x15, 0x16, 0x17, 0x18, 0x19, 0x1a, 0x1b, 0x1c, 0x1d, 0x1e, 0x1f,
];

const SESSION_KEY: [u8; 32] = [
    0x20, 0x21, 0x22, 0x23, 0x24, 0x25, 0x26, 0x27, 0x28, 0x29, 0x2a, 0x2b, 0x2c, 0x2d, 0x2e, 0x2f,
    0x30, 0x31, 0x32, 0x33, 0x34, 0x35, 0x36, 0x37, 0x38, 0x39, 0x3a, 0x3b, 0x3c, 0x3d, 0x3e, 0x3f,
];

/// The service's key.
#[tactic(auto, unfolding(crate::specs::Client::service_key))]
pub(crate) fn service_key() -> [u8; 32]
    ensures { result ≡ service_key }
{
    SERVICE_KEY
}

/// The key that the ticket gives to the client and the service.
#[tactic(auto, unfolding(crate::specs::Client::session_key))]
pub(crate) fn session_key() -> [u8; 32]
    ensures { result ≡ session_key }
{
    SESSION_KEY
}

pub(crate) fn integer(alloc: Global, octets: &[u8]) -> Result<IntegerAsn1, OutOfMemory>
    ensures { IfOk result (λ integer. integer ≡ octets.now) }
{
    Ok(IntegerAsn1::from_bytes_be(Vec::from_slice(alloc, octets)?))
}

fn name(alloc: Global, text: &str) -> Result<Name, OutOfMemory>
    requires { IsTrue (is_ascii text.now) }
    ensures { IfOk result (λ name. name ≡ text.now) }
{
    let octets = Vec::from_slice(alloc, text.as_bytes())?;
    Ok(Name::new(octets).unwrap())
}

pub(crate) fn realm(alloc: Global) -> Result<Name, OutOfMemory>
    ensures { IfOk result (λ name. name ≡ realm) }
{
    name(alloc, "EXAMPLE.COM")
}

pub(crate) fn client(alloc: Global) -> Result<PrincipalName, OutOfMemory>
    ensures { IfOk result (λ name. name ≡ client) }
{
    let mut components = Vec::new(alloc);
    components.push(name(alloc, "alice")?)?;
    Ok(PrincipalName {
        name_type: integer(alloc, &[NT_PRINCIPAL])?,
        name_string: Items::new(components),
    })
}

pub(crate) fn service(alloc: Global) -> Result<PrincipalName, OutOfMemory>
    ensures { IfOk result (λ name. name ≡ service) }
{
    let mut components = Vec::new(alloc);
    components.push(name(alloc, "host")?)?;
    components.push(name(alloc, "server.example.com")?)?;
    Ok(PrincipalName {
        name_type: integer(alloc, &[NT_SRV_INST])?,
        name_string: Items::new(components),
    })
}

pub(crate) fn session_encryption_key(alloc: Global) -> Result<EncryptionKey, OutOfMemory>
    ensures { IfOk result (λ key. key ≡ session_encryption_key) }
{
    Ok(EncryptionKey {
        key_type: integer(alloc, &[SUITE.number()])?,
        key_value: Octets::from_slice(alloc, &session_key())?,
    })
}

/// Options and flags of which none is set.
pub(crate) fn no_options(alloc: Global) -> Result<Bits, OutOfMemory>
    ensures { IfOk result (λ bits. bits ≡ no_options) }
{
    Ok(Bits {
        unused: 0,
        octets: Octets::from_slice(alloc, &[0; 4])?,
    })
}

/// A text sealed under these keys, with no key version.
pub(crate) fn encrypted(
    alloc: Global,
    keys: &SealingKey,
    confounder: [u8; 16],
    plain: &[u8],
) -> Result<EncryptedData, OutOfMemory>
    ensures made { IfOk result (λ part. part ≡ encrypted keys.now confounder plain.now) }
    ensures longer { IfOk result (λ part. length part.cipher ≡ length plain.now + 28) }
{
    Ok(EncryptedData {
        etype: integer(alloc, &[SUITE.number()])?,
        kvno: None,
        cipher: keys.seal(alloc, confounder, plain)?,
    })
}
