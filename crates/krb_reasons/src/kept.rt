//! The part of an input that is kept to find the reason why a line is bad.

ghost use Rattle.std.specs.Prelude.{◌≡◌, ◌≤◌, length, drop};

use crate::head::Head;
use std::alloc::{AllocError, Global};
use std::marker::Model;

/// The kept lines before the last piece, and the last piece, from the beginning of its first line on. A line that is
/// refused as soon as its piece was read is among them, with all that its reason needs.
#[derive(Drop)]
pub struct Kept {
    head: Head,
    tail: Vec<u8>,
    is_lost: bool,
}

impl Model for Kept {
    ghost use Rattle.krb_reasons.specs.Kept.{Keeping};

    ghost Value = { Keeping };

    ghost view = { λ k. record { head = k.head; tail = k.tail.items; is_lost = k.is_lost } };
}

#[tactic(auto, using(crate::proofs::KeptLemmas::moved))]
fn forget_front(octets: &mut Vec<u8>, count: usize)
    requires { count ≤ length octets.old.items }
    ensures { octets.new.items ≡ drop count octets.old.items }
{
    let rest = octets.len() - count;
    octets.copy_within(count.., 0);
    octets.truncate(rest);
}

impl Kept {
    ghost use Rattle.std.specs.Prelude.{OnOk, false};
    ghost use Rattle.krb_reasons.specs.Kept.{nothing_kept, kept_with};

    /// Returns the kept part of an input of which nothing was read. It allocates no memory yet.
    pub fn new(alloc: Global) -> Kept
        ensures { result ≡ nothing_kept }
    {
        Kept {
            head: Head::new(alloc),
            tail: Vec::new(alloc),
            is_lost: false,
        }
    }

    /// Returns the lines before the tail.
    pub fn head(&self) -> &Head
        ensures { result.now ≡ self.now.head }
    {
        &self.head
    }

    /// Returns the last piece, from the beginning of its first line on.
    pub fn tail(&self) -> &[u8]
        ensures { result.now ≡ self.now.tail }
    {
        &self.tail
    }

    /// Returns whether memory ran out, so that the input was not kept.
    pub fn is_lost(&self) -> bool
        ensures { result ≡ self.now.is_lost }
    {
        self.is_lost
    }

    fn add(&mut self, piece: &[u8]) -> Result<(), AllocError>
        ensures { OnOk result (self.new ≡ kept_with self.old piece.now) }
    {
        // None of the lines that were read before this piece was refused.
        let done = self.head.take_lines(&self.tail)?;
        forget_front(&mut self.tail, done);
        self.tail.extend_from_slice(piece)
    }

    /// Keeps the next piece that was read. If there is no memory for it, nothing is kept from then on.
    pub fn keep(&mut self, piece: &[u8])
        ensures { self.new.is_lost ≡ false → self.new ≡ kept_with self.old piece.now }
    {
        if !self.is_lost {
            self.is_lost = self.add(piece).is_err();
        }
    }
}
