//! The content of a reply.

ghost use Rattle.std.specs.Prelude.{◌≡◌, ℕ, nat_le, IsTrue, length, drop, Err};
ghost use Rattle.sspi_core.specs.declared.cause.Cause.TheVariants as causes;
ghost use Rattle.sspi_core.specs.Checks.{Answers, Finds, Gives, Holds};
ghost use Rattle.sspi_generator.specs.declared.network.NetFault.TheVariants.{Failed, OutOfMemory};
ghost use Rattle.krb_exchange.specs.Results.{IsResult};
ghost use Rattle.krb_as.specs.Replies.{is_short, IsProxied, Unproxies, Strips, Skips, Unpacks, Unwraps, Replies};

use krb_der::{Asn1, Fault, Octets};
use krb_exchange::{KdcProxyMessage, KrbResult, read_result};
use sspi_core::{Cause, NetworkProtocol, hold};
use sspi_generator::NetFault;
use std::alloc::Global;

/// The longest reply of a KDC, in octets.
pub const MAX_REPLY: usize = 16_777_216;

fn check_size(octets: &Octets) -> Result<(), Cause>
    ensures { Holds causes.Shape (is_short octets.now) result }
{
    hold(octets.as_slice().len() <= MAX_REPLY, Cause::Shape)
}

fn check_front(octets: &Octets) -> Result<(), Cause>
    ensures { Holds causes.ReplyShort (nat_le 4 (length octets.now)) result }
{
    hold(4 <= octets.as_slice().len(), Cause::ReplyShort)
}

fn read_proxy_message(alloc: Global, octets: &Octets) -> Result<KdcProxyMessage, Cause>
    ensures { Answers (Finds causes.Shape (IsProxied octets.now)) result }
{
    match KdcProxyMessage::read(alloc, octets.as_slice()) {
        Ok(message) => Ok(message),
        Err(Fault::Shape) => Err(Cause::Shape),
        Err(Fault::OutOfMemory) => Err(Cause::Memory),
    }
}

/// Returns the message in a KDC-PROXY-MESSAGE.
fn unproxied(alloc: Global, octets: &Octets) -> Result<Octets, Cause>
    ensures { Answers (Unproxies octets.now) result }
{
    check_size(octets)?;
    let message = read_proxy_message(alloc, octets)?;
    Ok(message.kerb_message)
}

fn stripped(alloc: Global, protocol: NetworkProtocol, octets: Octets) -> Result<Octets, Cause>
    ensures { Answers (Strips protocol octets) result }
{
    match protocol {
        NetworkProtocol::Tcp | NetworkProtocol::Udp => Ok(octets),
        NetworkProtocol::Http | NetworkProtocol::Https => unproxied(alloc, &octets),
    }
}

/// Returns the bytes after the first four.
fn rest_of(alloc: Global, octets: &Octets) -> Result<Octets, Cause>
    requires { IsTrue (nat_le 4 (length octets.now)) }
    ensures { Answers (Gives (drop 4 octets.now)) result }
{
    Ok(Octets::from_slice(alloc, &octets.as_slice()[4..])?)
}

/// Checks the length, and returns the bytes after the first four.
fn behind_front(alloc: Global, octets: &Octets) -> Result<Octets, Cause>
    ensures { Answers (Skips octets.now) result }
{
    check_front(octets)?;
    check_size(octets)?;
    rest_of(alloc, octets)
}

/// Returns the message in the bytes of a reply.
fn unpacked(alloc: Global, protocol: NetworkProtocol, octets: Octets) -> Result<Octets, Cause>
    ensures { Answers (Unpacks protocol octets) result }
{
    let carried = stripped(alloc, protocol, octets)?;
    behind_front(alloc, &carried)
}

/// Returns the message that the reply of a KDC brings. Over HTTP and HTTPS it is the kerb-message of a KDC-PROXY-MESSAGE; over every
/// protocol it follows four bytes, which are not looked at.
///
/// Fails with `Network` if the network failed; with `Shape` if a reply over HTTP or HTTPS has more than 2^24 bytes or is no
/// KDC-PROXY-MESSAGE; with `ReplyShort` if there are under four bytes; with `Shape` if there are more than 2^24.
pub fn unwrap_reply(
    alloc: Global,
    protocol: NetworkProtocol,
    reply: Result<Octets, NetFault>,
) -> Result<Octets, Cause>
    ensures message { Answers (Unwraps protocol reply) result }
    // Fails with `Network` if and only if the network failed.
    ensures network { (code : ℕ) → result ≡ Err (causes.Network code) → reply ≡ Err (Failed code) }
    ensures failed { (code : ℕ) → reply ≡ Err (Failed code) → result ≡ Err (causes.Network code) }
    // Fails with `Memory` if the network client ran out of memory.
    ensures memory { reply ≡ Err OutOfMemory → result ≡ Err causes.Memory }
{
    match reply {
        Ok(octets) => unpacked(alloc, protocol, octets),
        Err(NetFault::Failed(code)) => Err(Cause::Network(code)),
        Err(NetFault::OutOfMemory) => Err(Cause::Memory),
    }
}

fn read_message<T: Asn1>(alloc: Global, message: &Octets) -> Result<KrbResult<T>, Cause>
    ensures { Answers (Finds causes.Shape (IsResult T.layout message.now)) result }
{
    match read_result(alloc, message.as_slice()) {
        Ok(answer) => Ok(answer),
        Err(Fault::Shape) => Err(Cause::Shape),
        Err(Fault::OutOfMemory) => Err(Cause::Memory),
    }
}

/// Returns the reply of a KDC that was asked for, or the KRB-ERROR in its place. Fails as `unwrap_reply` does, and then with `Shape`
/// if the message is neither.
pub fn read_reply<T: Asn1>(
    alloc: Global,
    protocol: NetworkProtocol,
    reply: Result<Octets, NetFault>,
) -> Result<KrbResult<T>, Cause>
    ensures reply { Answers (Replies protocol T.layout reply) result }
    ensures network { (code : ℕ) → result ≡ Err (causes.Network code) → reply ≡ Err (Failed code) }
    ensures failed { (code : ℕ) → reply ≡ Err (Failed code) → result ≡ Err (causes.Network code) }
    ensures memory { reply ≡ Err OutOfMemory → result ≡ Err causes.Memory }
{
    let message = unwrap_reply(alloc, protocol, reply)?;
    read_message(alloc, &message)
}
