//! An input that is read in large pieces.

use crate::cutter::{MAX_INPUT, MAX_LINE};
use crate::outside::{Failed, Source};
use krb_der::OutOfMemory;
use std::alloc::Global;
use std::marker::Model;

/// The most bytes that one call reads.
const PIECE: usize = 1 << 20;

/// Room in bytes for a line of the greatest length, and for a piece after it.
const ROOM: usize = MAX_LINE + PIECE;

ghost use Rattle.std.specs.Prelude.{◌≡◌, ◌<◌, ◌≤◌, ◌+◌, length, take, drop, IfOk};
ghost use Rattle.std.specs.Io.KnownBytes.{ReadConsumes};
ghost use Rattle.krb_text.specs.Causes.{HasCause};

/// Reads at most `room` bytes into `octets` after the first `at`, and returns their number.
fn read_behind<S: Source>(
    source: &mut S,
    octets: &mut [u8],
    at: usize,
    room: usize,
) -> Result<usize, Failed>
    requires { (0 < room) × (at + room ≤ length octets.old) }
    ensures bound { IfOk result (λ count. count ≤ room) }
    ensures len { length octets.new ≡ length octets.old }
    ensures front { take at octets.new ≡ take at octets.old }
    ensures bytes { ReadConsumes (S.left source.old) (S.left source.new) result (drop at octets.new) }
    ensures cause { HasCause (S.faults source.old) (S.faults source.new) result }
{
    source.read(&mut octets[at..at + room])
}

/// The bytes of an input that were read and not taken yet: the lines of a piece, for a caller who takes all of them at once.
#[derive(Drop)]
pub struct Pieces {
    octets: Vec<u8>,
    count: usize,
    taken: u64,
}

impl Model for Pieces {
    ghost use Rattle.std.specs.Prelude.{◌≡◌, ◌≤◌, ◌+◌, ◌^◌, take, length};
    ghost use Rattle.krb_text.specs.Pieces.{Pieces};

    ghost Value = { Pieces };

    ghost view = { λ p. record { held = take p.count p.octets.items; taken = p.taken } };

    ghost invariant = { λ p. (length p.octets.items ≡ 2 ^ 21) × (p.count ≤ 2 ^ 21) × (p.taken + p.count ≤ 2 ^ 30 + 1) };
}

impl Pieces {
    ghost use Rattle.std.specs.Prelude.{◌≡◌, ◌≤◌, ◌<◌, ◌+◌, ◌^◌, ◌↔◌, ◌⊎◌, ◌++◌, List, ℕ, length, drop, IfOk, OnOk, OnErr, IsTrue, [], true};
    ghost use Rattle.std.specs.Io.KnownBytes.{Consumes, IsAtEnd};
    ghost use Rattle.krb_text.specs.Causes.{HasCause};
    ghost use Rattle.krb_text.specs.Limits.{max_line, max_input};
    ghost use Rattle.krb_text.specs.Pieces.{no_pieces, ahead, IsWithin, IsBegun};

    /// Returns pieces of an input of which nothing was read yet. Allocates 2 MiB.
    pub fn new(alloc: Global) -> Result<Pieces, OutOfMemory>
        ensures { IfOk result (λ pieces. pieces ≡ no_pieces) }
    {
        Ok(Pieces {
            octets: vec![in alloc; 0u8; ROOM]?,
            count: 0,
            taken: 0,
        })
    }

    /// Returns the bytes that were read and not taken yet.
    pub fn held(&self) -> &[u8]
        ensures held { result.now ≡ self.now.held }
        ensures within { IsWithin self.now }
        ensures room { length result.now ≤ 2 ^ 21 }
    {
        &self.octets[..self.count]
    }

    /// Returns how many bytes were taken.
    pub fn taken(&self) -> u64
        ensures { result ≡ self.now.taken }
    {
        self.taken
    }

    /// Returns whether the held bytes, the beginning of one line, are more than a line may have, or the input has more bytes than
    /// an input may have.
    pub fn is_past(&self) -> bool
        ensures { IsTrue result ↔ ((max_line < length self.now.held) ⊎ (max_input < self.now.taken + length self.now.held)) }
    {
        self.count > MAX_LINE || self.taken + self.count as u64 > MAX_INPUT
    }

    /// Returns how many bytes the next call may read: no more than one past the limit of the input.
    fn limit(&self) -> usize
        requires { self.now.taken + length self.now.held ≤ max_input }
        ensures some { 0 < result }
        ensures piece { result ≤ 2 ^ 20 }
        ensures within { self.now.taken + length self.now.held + result ≤ max_input + 1 }
    {
        let limit = MAX_INPUT - self.taken - self.count as u64 + 1;
        if limit < PIECE as u64 {
            limit as usize
        } else {
            PIECE
        }
    }

    /// Reads one piece, of 1 MiB at the most, and returns its length in bytes: 0 is the end of the source.
    pub fn read<S: Source>(&mut self, source: &mut S) -> Result<usize, Failed>
        requires begun { IsBegun self.old }
        ensures ahead { Consumes (ahead self.old (S.left source.old)) (ahead self.new (S.left source.new)) [] }
        ensures taken { self.new.taken ≡ self.old.taken }
        ensures more { IfOk result (λ count. (more : List ℕ) × (self.new.held ≡ self.old.held ++ more) × (length more ≡ count)) }
        ensures end { IfOk result (λ count. count ≡ 0 → IsAtEnd (S.left source.new)) }
        ensures err { OnErr result (self.new ≡ self.old) }
        ensures cause { HasCause (S.faults source.old) (S.faults source.new) result }
    {
        let limit = self.limit();
        let count = read_behind(source, &mut self.octets, self.count, limit)?;
        self.count += count;
        Ok(count)
    }

    /// Takes the first `count` of the held bytes.
    pub fn take(&mut self, count: usize)
        requires { count ≤ length self.old.held }
        ensures { self.new ≡ record { held = drop count self.old.held; taken = self.old.taken + count } }
    {
        self.octets.copy_within(count..self.count, 0);
        self.count -= count;
        self.taken += count as u64;
    }
}
