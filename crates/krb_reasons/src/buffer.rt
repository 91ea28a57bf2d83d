//! Test that a field is a buffer of a message.

ghost use Rattle.std.specs.Prelude.{◌≡◌, [], ◌∷◌, map, is_some, IfOk};
ghost use Rattle.krb_script.specs.Buffers.{parts, hex_of, buffer_in, buffer_of};
ghost use Rattle.krb_script.specs.Gives.{Gives};
ghost use Rattle.krb_reasons.specs.Wanted.{is_letter};

use krb_der::{Octets, OutOfMemory};
use krb_script::{FieldError, number, octets, split};
use std::alloc::{AllocError, Global};

/// The greatest limit of a buffer, in bytes.
const MAX_LIMIT: u64 = 1_048_576;

fn is_letter(text: &[u8]) -> bool
    ensures { result ≡ is_letter text.now }
{
    text == b"T".as_slice()
        || text == b"D".as_slice()
        || text == b"R".as_slice()
        || text == b"S".as_slice()
}

/// Decodes octets in hex, of which there may be none.
fn octets_of_hex(alloc: Global, digits: &[u8]) -> Result<Octets, FieldError>
    ensures { Gives (hex_of digits.now) result }
{
    if digits.is_empty() {
        return Ok(Octets::new(Vec::new(alloc)));
    }
    octets(alloc, digits)
}

fn split_parts<'a>(alloc: Global, field: &'a [u8]) -> Result<Vec<&'a [u8]>, AllocError>
    ensures { IfOk result (λ found. map (λ x. x.now) found.items ≡ parts field.now) }
{
    split(alloc, b':', field)
}

/// Returns whether a letter, octets in hex and a limit are a buffer.
#[tactic(auto, using(crate::proofs::BufferLemmas::buffer_is, crate::proofs::BufferLemmas::no_octets, crate::proofs::BufferLemmas::no_limit))]
fn are_buffer(
    alloc: Global,
    letter: &[u8],
    digits: &[u8],
    limit: &[u8],
) -> Result<bool, OutOfMemory>
    ensures { IfOk result (λ is. is ≡ is_some (buffer_in (letter.now ∷ digits.now ∷ limit.now ∷ []))) }
{
    let octets = match octets_of_hex(alloc, digits) {
        Ok(octets) => octets,
        Err(FieldError::Bad) => return Ok(false),
        Err(FieldError::OutOfMemory) => return Err(OutOfMemory),
    };
    let limit = match number(MAX_LIMIT, limit) {
        Ok(limit) => limit,
        Err(FieldError::Bad) => return Ok(false),
        Err(FieldError::OutOfMemory) => return Err(OutOfMemory),
    };
    Ok(octets.as_slice().len() as u64 <= limit && is_letter(letter))
}

fn are_parts(alloc: Global, parts: &[&[u8]]) -> Result<bool, OutOfMemory>
    ensures { IfOk result (λ is. is ≡ is_some (buffer_in (map (λ x. x.now) parts.now))) }
{
    let [letter, digits, limit] = parts else {
        return Ok(false);
    };
    are_buffer(alloc, letter, digits, limit)
}

/// Returns whether a field is a letter, octets and a limit, with a colon between two.
pub fn is_buffer(alloc: Global, field: &[u8]) -> Result<bool, OutOfMemory>
    ensures { IfOk result (λ is. is ≡ is_some (buffer_of field.now)) }
{
    let parts = split_parts(alloc, field)?;
    are_parts(alloc, &parts)
}
