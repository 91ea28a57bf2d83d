//! The lines before the last piece of an input, as far as the reason for a bad line depends on them.

ghost use Rattle.std.specs.Prelude.{◌≡◌, ◌≤◌, ◌<◌, length, drop, IfSome};
ghost use Rattle.krb_text.specs.Cutter.{first_end};
ghost use Rattle.krb_reasons.specs.Kept.{is_event};

use krb_text::{is_skipped, newline};
use std::alloc::{AllocError, Global};
use std::marker::Model;

fn behind(text: &[u8], count: usize) -> &[u8]
    requires { count ≤ length text.now }
    ensures { result.now ≡ drop count text.now }
{
    &text[count..]
}

/// Returns the position of the 0A of the first whole line.
#[tactic(auto, using(crate::proofs::HeadLemmas::end_within))]
fn first_end(text: &[u8]) -> Option<usize>
    ensures end { result ≡ first_end text.now }
    ensures within { IfSome result (λ end. end < length text.now) }
{
    newline(text)
}

/// Returns whether a line is an event's.
fn is_event(line: &[u8]) -> bool
    ensures { result ≡ is_event line.now }
{
    line.starts_with(b"event ")
}

/// Lines that were read whole: each that is not skipped up to the first event, with its number, and how many there were. Comments,
/// empty lines and events take no memory.
#[derive(Drop)]
pub struct Head {
    octets: Vec<u8>,
    numbers: Vec<u64>,
    lines: u64,
    has_event: bool,
}

impl Model for Head {
    ghost use Rattle.krb_reasons.specs.Kept.{Head};

    ghost Value = { Head };

    ghost view = { λ h. record { octets = h.octets.items; numbers = h.numbers.items; lines = h.lines; has_event = h.has_event } };
}

impl Head {
    ghost use Rattle.std.specs.Prelude.{IfOk, OnOk};
    ghost use Rattle.krb_text.specs.Lines.{cut};
    ghost use Rattle.krb_reasons.specs.Kept.{no_head, with_line, with_lines};

    /// Returns a head of which no line was read. It allocates no memory yet.
    pub(crate) fn new(alloc: Global) -> Head
        ensures { result ≡ no_head }
    {
        Head {
            octets: Vec::new(alloc),
            numbers: Vec::new(alloc),
            lines: 0,
            has_event: false,
        }
    }

    /// Returns the lines that are kept, each with its 0A.
    pub fn octets(&self) -> &[u8]
        ensures { result.now ≡ self.now.octets }
    {
        &self.octets
    }

    /// Returns the number of each line that is kept, from 1.
    pub fn numbers(&self) -> &[u64]
        ensures { result.now ≡ self.now.numbers }
    {
        &self.numbers
    }

    /// Returns how many lines were read, kept or not.
    pub fn lines(&self) -> u64
        ensures { result ≡ self.now.lines }
    {
        self.lines
    }

    /// Takes one more line, without its 0A.
    fn take_line(&mut self, line: &[u8]) -> Result<(), AllocError>
        ensures { OnOk result (self.new ≡ with_line self.old line.now) }
    {
        self.lines = self.lines.saturating_add(1);
        if self.has_event || is_skipped(line) {
            return Ok(());
        }
        self.octets.extend_from_slice(line)?;
        self.octets.push(b'\n')?;
        self.numbers.push(self.lines)?;
        self.has_event = is_event(line);
        Ok(())
    }

    /// Takes the whole lines of one more text. Returns how many bytes these lines have, each with its 0A.
    pub(crate) fn take_lines(&mut self, text: &[u8]) -> Result<usize, AllocError>
        ensures count { IfOk result (λ count. count ≤ length text.now) }
        ensures rest { IfOk result (λ count. drop count text.now ≡ (cut text.now).rest) }
        ensures taken { OnOk result (self.new ≡ with_lines self.old (cut text.now).whole) }
    {
        let mut done = 0;
        'lines: loop {
            let rest = behind(text, done);
            let Some(end) = first_end(rest) else {
                return Ok(done);
            };
            self.take_line(&rest[..end])?;
            done += end + 1;
        }
    }
}
