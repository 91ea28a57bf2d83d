//! A KRB-PRIV after an AP message: a request to the service that changes passwords, and its reply (RFC 3244 2).

ghost use Rattle.std.specs.Prelude.{◌≡◌, ◌+◌, ◌^◌, ◌≤◌, ◌<◌, ℕ, List, length, IfOk, OnErr, Err};
ghost use Rattle.krb_exchange.specs.Layouts.{krb_priv_layout};
ghost use Rattle.krb_exchange.specs.PrivMessages.{SpellsAp, IsPrivMessage, IsWritten, IsWritable, IsWritableAp, ap_length, ap_octets, priv_octets, message_octets};
ghost use Rattle.krb_exchange.specs.declared.priv_message.ApMessage.{ApMessage};
ghost use Rattle.krb_exchange.specs.declared.priv_message.KrbPrivMessage.{KrbPrivMessage};

use crate::krb_priv::KrbPriv;
use krb_der::{Asn1, Fault, Octets, OutOfMemory, Shape, TryCopy};
use krb_messages::{ApRep, ApReq};
use std::alloc::Global;

/// The version of the requests and of the replies, in two big-endian octets.
const VERSION: [u8; 2] = [0x00, 0x01];

/// The AP-REQ that authenticates the client of a request, or the AP-REP of the reply. They differ in their application tags.
#[derive(Drop)]
pub enum ApMessage {
    ApReq(ApReq),
    ApRep(ApRep),
}

/// A request has an AP-REQ and a reply an AP-REP. The length of the whole, the version 1 and the length of the AP message come
/// before it, each in two big-endian octets.
#[derive(Drop)]
pub struct KrbPrivMessage {
    /// In a request, the authentication of the client; in a reply, the proof that the service decrypted the ticket.
    pub ap_message: ApMessage,
    /// The data, encrypted.
    pub krb_priv: KrbPriv,
}

impl ApMessage {
    /// Reads all octets as an AP message. Fails with `Shape` if they are neither an AP-REQ nor an AP-REP.
    pub fn read(alloc: Global, octets: &[u8]) -> Result<ApMessage, Fault>
        ensures found { IfOk result (λ message. SpellsAp message octets.now) }
        ensures shape { result ≡ Err Fault.Shape → (message : ApMessage) → SpellsAp message octets.now → ⊥ }
    {
        match ApReq::read(alloc, octets) {
            Ok(request) => Ok(ApMessage::ApReq(request)),
            Err(Fault::Shape) => Ok(ApMessage::ApRep(ApRep::read(alloc, octets)?)),
            Err(Fault::OutOfMemory) => Err(Fault::OutOfMemory),
        }
    }

    /// Returns the octets of the AP message.
    pub fn write(&self, alloc: Global) -> Result<Octets, OutOfMemory>
        requires { IsWritableAp self.now }
        ensures { IfOk result (SpellsAp self.now) }
    {
        match self {
            ApMessage::ApReq(request) => request.write(alloc),
            ApMessage::ApRep(reply) => reply.write(alloc),
        }
    }
}

impl TryCopy for ApMessage {
    fn copy(&self, alloc: Global) -> Result<ApMessage, OutOfMemory> {
        match self {
            ApMessage::ApReq(request) => Ok(ApMessage::ApReq(request.copy(alloc)?)),
            ApMessage::ApRep(reply) => Ok(ApMessage::ApRep(reply.copy(alloc)?)),
        }
    }
}

/// Returns the octets of the AP message, up to its length, and the octets after it. Fails with `Shape` if `octets` are shorter
/// than that length and the six octets before.
fn split_message(octets: &[u8]) -> Result<(&[u8], &[u8]), Shape>
    ensures long { IfOk result (λ _. 6 + ap_length octets.now ≤ length octets.now) }
    ensures ap { IfOk result (λ parts. parts.0.now ≡ ap_octets octets.now) }
    ensures priv_ { IfOk result (λ parts. parts.1.now ≡ priv_octets octets.now) }
    ensures short { OnErr result (length octets.now < 6 + ap_length octets.now) }
{
    let [_, _, _, _, high, low, rest @ ..] = octets else {
        return Err(Shape);
    };
    let length = 256 * usize::from(*high) + usize::from(*low);
    if rest.len() < length {
        return Err(Shape);
    }
    Ok(rest.split_at(length))
}

/// Returns the octets of the message with this AP message and this KRB-PRIV. A length of 2^16 or more is written modulo 2^16.
fn put_together(alloc: Global, ap_message: &[u8], krb_priv: &[u8]) -> Result<Octets, OutOfMemory>
    requires { 6 + (length ap_message.now + length krb_priv.now) < 2 ^ 64 }
    ensures { IfOk result (λ octets. octets ≡ message_octets ap_message.now krb_priv.now) }
{
    let whole = 6 + (ap_message.len() + krb_priv.len());
    let mut octets = Vec::from_slice(alloc, &((whole % 0x1_0000) as u16).to_be_bytes())?;
    octets.extend_from_slice(&VERSION)?;
    octets.extend_from_slice(&((ap_message.len() % 0x1_0000) as u16).to_be_bytes())?;
    octets.extend_from_slice(ap_message)?;
    octets.extend_from_slice(krb_priv)?;
    Ok(Octets::new(octets))
}

impl KrbPrivMessage {
    /// Reads the octets as a message. The AP message has exactly its length, and the KRB-PRIV is everything after it; the length
    /// of the whole and the version are not compared. Fails with `Shape` if there is no such message.
    pub fn read(alloc: Global, octets: &[u8]) -> Result<KrbPrivMessage, Fault>
        ensures found { IfOk result (λ message. IsPrivMessage message octets.now) }
        ensures shape { result ≡ Err Fault.Shape → (message : KrbPrivMessage) → IsPrivMessage message octets.now → ⊥ }
    {
        let (ap_message, krb_priv) = split_message(octets)?;
        Ok(KrbPrivMessage {
            ap_message: ApMessage::read(alloc, ap_message)?,
            krb_priv: KrbPriv::read(alloc, krb_priv)?,
        })
    }

    /// Returns the octets of the message. A length of 2^16 or more is written modulo 2^16, and a message whose AP message is as
    /// long is not read back.
    pub fn write(&self, alloc: Global) -> Result<Octets, OutOfMemory>
        requires ap_message { IsWritableAp self.now.ap_message }
        requires krb_priv { IsWritable krb_priv_layout self.now.krb_priv }
        ensures { IfOk result (IsWritten self.now) }
    {
        let ap_message = self.ap_message.write(alloc)?;
        let krb_priv = self.krb_priv.write(alloc)?;
        put_together(alloc, ap_message.as_slice(), krb_priv.as_slice())
    }
}

impl TryCopy for KrbPrivMessage {
    fn copy(&self, alloc: Global) -> Result<KrbPrivMessage, OutOfMemory> {
        Ok(KrbPrivMessage {
            ap_message: self.ap_message.copy(alloc)?,
            krb_priv: self.krb_priv.copy(alloc)?,
        })
    }
}
