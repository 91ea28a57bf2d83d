//! The octets of a token, and their places among the buffers.

ghost use Rattle.std.specs.Prelude.{◌≡◌, ◌+◌, ◌-◌, ◌≤◌, ◌<◌, ◌++◌, length, take, drop, IfOk, MatchOption, vec_len};
ghost use Rattle.krb_context.specs.Spelled.{spelled, part_octets, has_part, rest_of};

use sspi_core::{Message, Part};
use std::alloc::{AllocError, Global};
use std::marker::Model;

/// The octets of a token, in the two buffers that hold them. Contracts see them as one list.
#[derive(Drop)]
pub(crate) struct TokenText<'a> {
    token: &'a [u8],
    rest: &'a [u8],
}

impl<'a> Model for TokenText<'a> {
    ghost use Rattle.std.specs.Prelude.{List, ℕ, ◌++◌};

    ghost Value = { List ℕ };

    ghost view = { λ text. text.token.now ++ text.rest.now };
}

pub(crate) fn part_octets(message: &Message, part: Part) -> &[u8]
    ensures { result.now ≡ part_octets part message.now }
{
    match message.find(part) {
        Some(buffer) => buffer.data(),
        None => &[],
    }
}

pub(crate) fn has_part(message: &Message, part: Part) -> bool
    ensures { result ≡ has_part part message.now }
{
    message.find(part).is_some()
}

fn rest_of(message: &Message) -> &[u8]
    ensures { result.now ≡ rest_of message.now }
{
    if has_part(message, Part::Stream) {
        part_octets(message, Part::Stream)
    } else {
        part_octets(message, Part::Plain)
    }
}

#[tactic(auto, unfolding(crate::specs::Spelled::spelled))]
pub(crate) fn token_text(message: &Message) -> TokenText<'_>
    ensures { result ≡ spelled message.now }
{
    TokenText {
        token: part_octets(message, Part::Token),
        rest: rest_of(message),
    }
}

/// Appends the octets from one place to another of two texts, one after the other.
fn append_range(
    out: &mut Vec<u8>,
    first: &[u8],
    second: &[u8],
    from: usize,
    to: usize,
) -> Result<(), AllocError>
    requires order { from ≤ to }
    requires within { to ≤ length (first.now ++ second.now) }
    ensures { IfOk result (λ _. out.new.items ≡ out.old.items ++ take (to - from) (drop from (first.now ++ second.now))) }
{
    let split = first.len();
    if to <= split {
        out.extend_from_slice(&first[from..to])?;
    } else if split <= from {
        out.extend_from_slice(&second[from - split..to - split])?;
    } else {
        out.extend_from_slice(&first[from..])?;
        out.extend_from_slice(&second[..to - split])?;
    }
    Ok(())
}

impl<'a> TokenText<'a> {
    /// The octets of a token that came whole.
    pub(crate) fn whole(token: &'a [u8]) -> TokenText<'a>
        ensures { result ≡ token.now }
    {
        TokenText {
            token: &[],
            rest: token,
        }
    }

    pub(crate) fn len(&self) -> usize
        ensures { result ≡ length self.now }
    {
        self.token.len() + self.rest.len()
    }

    pub(crate) fn header(&self) -> [u8; 16]
        requires { 16 ≤ length self.now }
        ensures { result ≡ take 16 self.now }
    {
        let mut header = [0; 16];
        if self.token.len() >= 16 {
            header.copy_from_slice(&self.token[..16]);
        } else {
            let split = self.token.len();
            header[..split].copy_from_slice(self.token);
            header[split..].copy_from_slice(&self.rest[..16 - split]);
        }
        header
    }

    /// The body, turned to the left.
    pub(crate) fn turned_body(&self, alloc: Global, turn: usize) -> Result<Vec<u8>, AllocError>
        requires { 16 + turn ≤ length self.now }
        ensures size { IfOk result (λ turned. vec_len turned + 16 ≡ length self.now) }
        ensures body { let body = drop 16 self.now in
            IfOk result (λ turned. turned.items ≡ drop turn body ++ take turn body) }
    {
        let mut turned = Vec::with_capacity(alloc, self.len())?;
        append_range(&mut turned, self.token, self.rest, 16 + turn, self.len())?;
        append_range(&mut turned, self.token, self.rest, 16, 16 + turn)?;
        Ok(turned)
    }
}
