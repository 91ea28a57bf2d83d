//! A message: its buffers, of which it has each part at most once.

ghost use Rattle.std.specs.Prelude.{◌≡◌, ◌≤◌, length, MatchOption, IfOk, IfSome, IfErr, OnErr, IsTrue, false};
ghost use Rattle.std.specs.List.{count_by, list_any};
ghost use Rattle.sspi_core.specs.Buffer.{is_part, is_readonly_alone};
ghost use Rattle.sspi_core.specs.Messages.{is_message, find_part, write, write_whole, IsAt, IsNowhere};
ghost use Rattle.sspi_core.specs.Kinds.{error_of};

use crate::buffer::{Part, SecurityBufferRef};
use crate::cause::Cause;
use crate::error::Error;
use krb_der::{Items, Octets};
use std::marker::Model;

/// The buffers of one message, in their order.
#[derive(Drop)]
pub struct Message {
    buffers: Vec<SecurityBufferRef>,
}

impl Model for Message {
    ghost use Rattle.std.specs.Prelude.{List, IsTrue};
    ghost use Rattle.sspi_core.specs.Buffer.{Buffer};
    ghost use Rattle.sspi_core.specs.Messages.{is_message};

    ghost Value = { List Buffer };

    ghost view = { λ m. m.buffers.items };

    ghost invariant = { λ m. IsTrue (is_message m.buffers.items) };
}

fn count_part(buffers: &[SecurityBufferRef], part: Part) -> usize
    ensures { result ≡ count_by (λ b. is_part part b) buffers.now }
{
    buffers.iter().filter(|buffer| buffer.is_part(part)).count()
}

fn has_readonly_alone(buffers: &[SecurityBufferRef]) -> bool
    ensures { result ≡ list_any (λ b. is_readonly_alone b) buffers.now }
{
    buffers.iter().any(|buffer| buffer.is_readonly_alone())
}

impl Message {
    /// Makes a message of these buffers. Fails with `Buffers` if and only if there are two tokens, two streams or two data buffers
    /// without flags, or a data buffer that is read-only without a checksum.
    pub fn new(buffers: Items<SecurityBufferRef>) -> Result<Message, Error>
        ensures ok { IfOk result (λ m. (m ≡ buffers) × IsTrue (is_message buffers)) }
        ensures err { OnErr result ((result ≡ Err (error_of Cause.Buffers)) × (is_message buffers ≡ false)) }
    {
        let buffers = buffers.into_inner();
        let all = buffers.as_slice();
        if count_part(all, Part::Token) <= 1
            && count_part(all, Part::Stream) <= 1
            && count_part(all, Part::Plain) <= 1
            && !has_readonly_alone(all)
        {
            Ok(Message { buffers })
        } else {
            Err(Error::from(Cause::Buffers))
        }
    }

    /// The buffers, in their order.
    pub fn buffers(&self) -> &[SecurityBufferRef]
        ensures buffers { result.now ≡ self.now }
        ensures parts { IsTrue (is_message self.now) }
    {
        self.buffers.as_slice()
    }

    /// The first buffer that is this part.
    pub fn find(&self, part: Part) -> Option<&SecurityBufferRef>
        ensures found { MatchOption result (find_part part self.now ≡ None) (λ b. find_part part self.now ≡ Some b.now) }
        ensures fits { IfSome result (λ b. length b.now.octets ≤ b.now.limit) }
    {
        match place_of(&self.buffers, part) {
            Some(i) => {
                let buffer = &self.buffers[i];
                let _limit = buffer.limit();
                Some(buffer)
            }
            None => None,
        }
    }

    /// Other octets in this part, that fit. Without such a part nothing changes.
    pub fn write(&mut self, part: Part, octets: Octets)
        requires { IfSome (find_part part self.old) (λ b. length octets ≤ b.limit) }
        ensures { self.new ≡ write part octets self.old }
    {
        if let Some(i) = place_of(&self.buffers, part) {
            let buffer = &mut self.buffers[i];
            buffer.put(octets);
        }
    }

    /// Other octets in this part, and as much room as they take. Without such a part nothing changes.
    pub fn write_whole(&mut self, part: Part, octets: Octets)
        ensures { self.new ≡ write_whole part octets self.old }
    {
        if let Some(i) = place_of(&self.buffers, part) {
            let buffer = &mut self.buffers[i];
            buffer.put_whole(octets);
        }
    }
}

/// Returns the index of the first buffer that is this part.
fn place_of(buffers: &[SecurityBufferRef], part: Part) -> Option<usize>
    ensures { MatchOption result (IsNowhere part buffers.now) (λ i. IsAt part buffers.now i) }
{
    for i in 0..buffers.len() {
        if buffers[i].is_part(part) {
            return Some(i);
        }
    }
    None
}
