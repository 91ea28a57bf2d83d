//! The framing of messages: after a mechanism's object identifier (RFC 2743 3.1, RFC 4121 4.1), and after a length on a stream
//! (RFC 4120 7.2.2).

ghost use Rattle.std.specs.Prelude.{◌≡◌, ◌≢◌, ◌++◌, ◌<◌, ◌^◌, List, ℕ, length, IfOk, OnErr};
ghost use Rattle.krb_der.specs.Der.{tlv};
ghost use Rattle.krb_messages.specs.Oid.{contents_of, IsByName};
ghost use Rattle.krb_messages.specs.Frame.{IsFrame, NoFrame, with_length};

use crate::oid::Oid;
use krb_der::{Octets, OutOfMemory, Reader, Shape, Writer};
use std::alloc::Global;

/// The tag of a frame, `[APPLICATION 0]` (RFC 2743 3.1).
const FRAME_TAG: u8 = 0x60;

/// The tag of an OBJECT IDENTIFIER.
const OID_TAG: u8 = 0x06;

/// Returns the octets after `front`. Fails with `Shape` if `octets` do not begin with `front`.
fn behind<'a>(octets: &'a [u8], front: &[u8]) -> Result<&'a [u8], Shape>
    ensures found { IfOk result (λ rest. octets.now ≡ front.now ++ rest.now) }
    ensures none { OnErr result ((rest : List ℕ) → octets.now ≢ front.now ++ rest) }
{
    octets.strip_prefix(front).ok_or(Shape)
}

/// Returns the contents of the frame's object identifier, and the message after `token_id`. Fails with `Shape` if the octets
/// are not one frame with this token id.
fn split_frame<'a>(octets: &'a [u8], token_id: &[u8]) -> Result<(&'a [u8], &'a [u8]), Shape>
    ensures found { IfOk result (λ x. IsFrame x.0.now token_id.now x.1.now octets.now) }
    ensures none { OnErr result (NoFrame token_id.now octets.now) }
{
    let mut frame = Reader::new(octets);
    let contents = frame.tlv(FRAME_TAG)?;
    frame.end()?;
    let mut inside = Reader::new(contents);
    let oid = inside.tlv(OID_TAG)?;
    if oid.is_empty() {
        return Err(Shape);
    }
    let message = behind(inside.rest(), token_id)?;
    Ok((oid, message))
}

/// Returns the object identifier and the message of a frame with this token id. The message is everything after the token id.
/// Fails with `Shape` if the octets are not one frame with this token id and nothing more.
pub fn read_framed(octets: &[u8], token_id: [u8; 2]) -> Result<(Oid<'_>, &[u8]), Shape>
    ensures frame { IfOk result (λ x. IsFrame (contents_of x.0) token_id x.1.now octets.now) }
    ensures by_name { IfOk result (λ x. IsByName x.0) }
    ensures shape { OnErr result (NoFrame token_id octets.now) }
{
    let (oid, message) = split_frame(octets, &token_id)?;
    Ok((Oid::from_contents(oid), message))
}

/// Returns the object identifier, the token id and the message of a frame with any token id of two octets: some mechanisms
/// leave the token id to their reader. Fails with `Shape` if the octets are not one such frame and nothing more.
pub fn read_any_framed(octets: &[u8]) -> Result<(Oid<'_>, &[u8], &[u8]), Shape>
    ensures frame { IfOk result (λ x. IsFrame (contents_of x.0) x.1.now x.2.now octets.now) }
    ensures token_id { IfOk result (λ x. length x.1.now ≡ 2) }
    ensures by_name { IfOk result (λ x. IsByName x.0) }
    ensures shape { OnErr result ((token_id : List ℕ) → length token_id ≡ 2 → NoFrame token_id octets.now) }
{
    let (oid, inside) = split_frame(octets, &[])?;
    if inside.len() < 2 {
        return Err(Shape);
    }
    let (token_id, message) = inside.split_at(2);
    Ok((Oid::from_contents(oid), token_id, message))
}

/// Returns the frame of a message. An `oid` that is `Other` needs at least one octet.
pub fn write_framed(
    alloc: Global,
    oid: Oid<'_>,
    token_id: [u8; 2],
    message: &[u8],
) -> Result<Octets, OutOfMemory>
    requires named { 0 < length (contents_of oid) }
    requires short { length (tlv 0x06 (contents_of oid) ++ (token_id ++ message.now)) < 2 ^ 31 }
    ensures { IfOk result (λ octets. IsFrame (contents_of oid.entry) token_id message.now octets) }
{
    let mut name = Writer::new(alloc);
    name.tlv(OID_TAG, oid.contents())?;
    let mut contents = name.finish().into_inner();
    contents.extend_from_slice(&token_id)?;
    contents.extend_from_slice(message)?;
    let mut frame = Writer::new(alloc);
    frame.tlv(FRAME_TAG, &contents)?;
    Ok(frame.finish())
}

/// Returns the message after its length in four big-endian octets, the format over TCP (RFC 4120 7.2.2).
pub fn serialize_message(alloc: Global, message: &[u8]) -> Result<Octets, OutOfMemory>
    requires { length message.now < 2 ^ 32 }
    ensures { IfOk result (λ octets. octets ≡ with_length message.now) }
{
    let length = message.len() as u32;
    let mut octets = Vec::from_slice(alloc, &length.to_be_bytes())?;
    octets.extend_from_slice(message)?;
    Ok(Octets::new(octets))
}
