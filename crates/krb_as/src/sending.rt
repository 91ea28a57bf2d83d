//! The octets that are sent.

ghost use Rattle.std.specs.Prelude.{◌≡◌, ◌<◌, ◌≤◌, ◌^◌, IfOk, length};
ghost use Rattle.krb_der.specs.Layout.{spelling};
ghost use Rattle.krb_as.specs.Requests.{proxied, carried, request_to};
ghost use Rattle.krb_exchange.specs.Layouts.{kdc_proxy_message_layout};

use crate::kdc::Kdc;
use krb_der::{Asn1, Name, Octets, OutOfMemory, TryCopy};
use krb_exchange::{KdcProxyMessage, serialize_message};
use sspi_core::NetworkProtocol;
use sspi_generator::NetworkRequest;
use std::alloc::Global;

/// A message for a proxy.
fn proxied(alloc: Global, realm: &Name, message: &[u8]) -> Result<KdcProxyMessage, OutOfMemory>
    requires { length message.now < 2 ^ 30 }
    ensures { IfOk result (λ made. made ≡ proxied realm.now message.now) }
{
    Ok(KdcProxyMessage {
        kerb_message: serialize_message(alloc, message)?,
        target_domain: Some(realm.copy(alloc)?),
        dclocator_hint: None,
    })
}

/// The octets of a message for a proxy.
fn proxied_octets(alloc: Global, realm: &Name, message: &[u8]) -> Result<Octets, OutOfMemory>
    requires message { length message.now < 2 ^ 30 }
    requires realm { length realm.now ≤ 2 ^ 24 }
    ensures { IfOk result (λ octets. octets ≡ spelling kdc_proxy_message_layout (proxied realm.now message.now)) }
{
    let made = proxied(alloc, realm, message)?;
    made.write(alloc)
}

/// A message as the protocol carries it.
fn carried(
    alloc: Global,
    protocol: NetworkProtocol,
    realm: &Name,
    message: Octets,
) -> Result<Octets, OutOfMemory>
    requires message { length message < 2 ^ 30 }
    requires realm { length realm.now ≤ 2 ^ 24 }
    ensures { IfOk result (λ payload. payload ≡ carried protocol realm.now message) }
{
    match protocol {
        NetworkProtocol::Udp => Ok(message),
        NetworkProtocol::Tcp => serialize_message(alloc, message.as_slice()),
        NetworkProtocol::Http | NetworkProtocol::Https => {
            proxied_octets(alloc, realm, message.as_slice())
        }
    }
}

/// Makes the request that brings a message to a KDC. Over UDP its payload is the message; over TCP the message after its length in
/// four big-endian bytes (RFC 4120 7.2.2); over HTTP and HTTPS a KDC-PROXY-MESSAGE with the message after its length and
/// with the realm (MS-KKDCP 2.2.2).
pub fn request_to(alloc: Global, kdc: &Kdc, message: Octets) -> Result<NetworkRequest, OutOfMemory>
    requires message { length message < 2 ^ 30 }
    requires realm { length kdc.now.realm ≤ 2 ^ 24 }
    ensures { IfOk result (λ request. request ≡ request_to kdc.now message) }
{
    Ok(NetworkRequest {
        protocol: kdc.protocol,
        url: kdc.url.clone()?,
        payload: carried(alloc, kdc.protocol, &kdc.realm, message)?,
    })
}
