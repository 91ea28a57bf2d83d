//! The buffers of a message, as a line declares them.

ghost use Rattle.std.specs.Prelude.{◌≡◌, ◌≤◌, map, length, IfOk};
ghost use Rattle.krb_script.specs.Buffers.{parts, lettered, buffer_in, buffer_of, buffers_of, message_of};
ghost use Rattle.krb_script.specs.Gives.{Gives};

use crate::digits::decode;
use crate::fields::{FieldError, number};
use crate::parts::split;
use krb_der::{Items, Octets};
use sspi_core::{Message, SecurityBufferFlags, SecurityBufferRef};
use std::alloc::{AllocError, Global};

/// The most buffers of a message.
const MAX_BUFFERS: usize = 16;

/// The greatest limit of a buffer, in bytes.
const MAX_LIMIT: u64 = 1_048_576;

fn split_parts<'a>(alloc: Global, field: &'a [u8]) -> Result<Vec<&'a [u8]>, AllocError>
    ensures { IfOk result (λ found. map (λ x. x.now) found.items ≡ parts field.now) }
{
    split(alloc, b':', field)
}

/// Returns a buffer by its letter. Fails with `Bad` if no buffer has the letter.
fn lettered(letter: &[u8], octets: Octets, limit: usize) -> Result<SecurityBufferRef, FieldError>
    requires { length octets ≤ limit }
    ensures { Gives (lettered letter.now octets limit) result }
{
    if letter == b"T".as_slice() {
        Ok(SecurityBufferRef::token_buf(octets, limit))
    } else if letter == b"D".as_slice() {
        Ok(SecurityBufferRef::data_buf(octets, limit))
    } else if letter == b"R".as_slice() {
        let buffer = SecurityBufferRef::data_buf(octets, limit);
        Ok(buffer.with_flags(SecurityBufferFlags::SECBUFFER_READONLY_WITH_CHECKSUM))
    } else if letter == b"S".as_slice() {
        Ok(SecurityBufferRef::stream_buf(octets, limit))
    } else {
        Err(FieldError::Bad)
    }
}

fn parse_parts(alloc: Global, parts: &[&[u8]]) -> Result<SecurityBufferRef, FieldError>
    ensures { Gives (buffer_in (map (λ x. x.now) parts.now)) result }
{
    let [letter, digits, limit] = parts else {
        return Err(FieldError::Bad);
    };
    let octets = decode(alloc, digits)?;
    let limit = number(MAX_LIMIT, limit)? as usize;
    if octets.as_slice().len() > limit {
        return Err(FieldError::Bad);
    }
    lettered(letter, octets, limit)
}

fn parse_buffer(alloc: Global, field: &[u8]) -> Result<SecurityBufferRef, FieldError>
    ensures { Gives (buffer_of field.now) result }
{
    let parts = split_parts(alloc, field)?;
    parse_parts(alloc, &parts)
}

/// Reads one buffer from each field.
fn parse_buffers(alloc: Global, fields: &[&[u8]]) -> Result<Items<SecurityBufferRef>, FieldError>
    ensures { Gives (buffers_of (map (λ x. x.now) fields.now)) result }
{
    let mut buffers = Vec::new(alloc);
    for field in fields {
        buffers.push(parse_buffer(alloc, field)?)?;
    }
    Ok(Items::new(buffers))
}

/// Reads a message of 1 to 16 buffers.
pub(crate) fn parse_message(alloc: Global, fields: &[&[u8]]) -> Result<Message, FieldError>
    ensures { Gives (message_of (map (λ x. x.now) fields.now)) result }
{
    if fields.is_empty() || fields.len() > MAX_BUFFERS {
        return Err(FieldError::Bad);
    }
    let buffers = parse_buffers(alloc, fields)?;
    match Message::new(buffers) {
        Ok(message) => Ok(message),
        Err(_) => Err(FieldError::Bad),
    }
}
