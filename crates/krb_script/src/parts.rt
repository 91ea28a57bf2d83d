//! The parts of a text between separators.

ghost use Rattle.std.specs.Prelude.{◌≡◌, ◌<◌, ◌==◌, ◌+◌, ◌∷◌, [], length, take, drop, map, IfOk, IfSome, MatchOption};
ghost use Rattle.std.specs.List.{slice_split};

use memchr::memchr;
use std::alloc::{AllocError, Global};

/// Returns the position of the first separator.
#[tactic(auto, using(crate::proofs::PartLemmas::place_within))]
fn place_of(separator: u8, text: &[u8]) -> Option<usize>
    ensures within { IfSome result (λ at. at < length text.now) }
    ensures parts { MatchOption result (slice_split (λ b. b == separator) text.now ≡ text.now ∷ [])
        (λ at. slice_split (λ b. b == separator) text.now ≡ take at text.now ∷ slice_split (λ b. b == separator) (drop (at + 1) text.now)) }
{
    memchr(separator, text)
}

/// Splits a text at the separators. The parts may be empty; there is one more part than separators.
pub fn split<'a>(alloc: Global, separator: u8, text: &'a [u8]) -> Result<Vec<&'a [u8]>, AllocError>
    ensures { IfOk result (λ parts. map (λ x. x.now) parts.items ≡ slice_split (λ b. b == separator) text.now) }
{
    let mut parts = Vec::new(alloc);
    let mut rest = text;
    'parts: while let Some(at) = place_of(separator, rest) {
        parts.push(&rest[..at])?;
        rest = &rest[at + 1..];
    }
    parts.push(rest)?;
    Ok(parts)
}
