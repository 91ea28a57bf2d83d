//! The first bad line of an input, and the reason.

ghost use Rattle.std.specs.Prelude.{◌≡◌, ◌==◌, ◌++◌, false, map, IfOk, OnOk, string_bytes};
ghost use Rattle.std.specs.List.{slice_split, zip};
ghost use Rattle.krb_text.specs.Lines.{lines};
ghost use Rattle.krb_reasons.specs.BadLines.{numbered, number_past, kept_lines, last_number, first_bad, first_bad_of, Walks, Finds};
ghost use Rattle.krb_reasons.specs.Kept.{number_after};
ghost use Rattle.krb_reasons.specs.Reasons.{bad_line_text};

use crate::head::Head;
use crate::judge::{Complaint, Judge};
use crate::kept::Kept;
use crate::reason::Reason;
use krb_der::OutOfMemory;
use krb_script::split;
use std::alloc::{AllocError, Global};

/// A line that is bad, by its number from 1.
#[derive(Clone, Copy, Debug, PartialEq, Eq)]
pub struct BadLine {
    pub number: u64,
    pub reason: Reason,
}

impl BadLine {
    /// Returns the line that the program writes on standard error.
    pub fn text(self, alloc: Global) -> Result<String, AllocError>
        ensures { IfOk result (λ text. string_bytes text ≡ bad_line_text self) }
    {
        let (number, reason) = (self.number, self.reason.text(alloc)?);
        format!(in alloc; "krb_run: bad line {number}: {reason}\n")
    }
}

/// Returns the lines of a text, each without the 0A that ends it. The last may lack it.
fn lines_of(alloc: Global, text: &[u8]) -> Result<Vec<&[u8]>, AllocError>
    ensures { IfOk result (λ parts. map (λ line. line.now) parts.items ≡ lines text.now) }
{
    let mut lines = split(alloc, b'\n', text)?;
    match lines.pop() {
        None => Ok(lines),
        Some(last) if last.is_empty() => Ok(lines),
        Some(last) => {
            lines.push(last)?;
            Ok(lines)
        }
    }
}

/// Lines that are taken one after another.
#[derive(Drop)]
struct Walk {
    judge: Judge,
    /// The number of the line that is taken.
    number: u64,
}

impl Walk {
    /// Takes lines that have these numbers.
    fn take_numbered(
        &mut self,
        alloc: Global,
        lines: &[&[u8]],
        numbers: &[u64],
    ) -> Result<(), Complaint>
        ensures { Walks self.old.judge (zip (map (λ line. line.now) lines.now) numbers.now) result self.new.judge self.new.number }
    {
        for (place, number) in numbers.iter().enumerate() {
            let Some(line) = lines.get(place) else {
                return Ok(());
            };
            self.number = *number;
            match self.judge.take(alloc, line) {
                Ok(()) => {}
                Err(complaint) => return Err(complaint),
            }
        }
        Ok(())
    }

    /// Takes lines that are numbered from this number on. At their end the number is that of the next line.
    fn take_counted(&mut self, alloc: Global, lines: &[&[u8]]) -> Result<(), Complaint>
        ensures walks { Walks self.old.judge (numbered self.old.number (map (λ line. line.now) lines.now)) result self.new.judge self.new.number }
        ensures end { OnOk result (self.new.number ≡ number_past self.old.number (map (λ line. line.now) lines.now)) }
    {
        for line in lines {
            match self.judge.take(alloc, line) {
                Ok(()) => {}
                Err(complaint) => return Err(complaint),
            }
            self.number = self.number.saturating_add(1);
        }
        Ok(())
    }

    fn take_head(&mut self, alloc: Global, head: &Head) -> Result<(), Complaint>
        ensures { Walks self.old.judge (zip (lines head.now.octets) head.now.numbers) result self.new.judge self.new.number }
    {
        let lines = lines_of(alloc, head.octets())?;
        self.take_numbered(alloc, &lines, head.numbers())
    }

    fn take_tail(&mut self, alloc: Global, before: u64, text: &[u8]) -> Result<(), Complaint>
        ensures walks { Walks self.old.judge (numbered (number_after before) (lines text.now)) result self.new.judge self.new.number }
        ensures end { OnOk result (self.new.number ≡ number_past (number_after before) (lines text.now)) }
    {
        let lines = lines_of(alloc, text)?;
        self.number = before.saturating_add(1);
        self.take_counted(alloc, &lines)
    }

    fn take_parts(&mut self, alloc: Global, head: &Head, tail: &[u8]) -> Result<(), Complaint>
        ensures walks { Walks self.old.judge (zip (lines head.now.octets) head.now.numbers ++ numbered (number_after head.now.lines) (lines tail.now))
            result self.new.judge self.new.number }
        ensures end { OnOk result (self.new.number ≡ number_past (number_after head.now.lines) (lines tail.now)) }
    {
        match self.take_head(alloc, head) {
            Ok(()) => {}
            Err(complaint) => return Err(complaint),
        }
        self.take_tail(alloc, head.lines(), tail)
    }

    fn take_kept(&mut self, alloc: Global, kept: &Kept) -> Result<(), Complaint>
        ensures { Finds (first_bad self.old.judge (kept_lines kept.now) (last_number kept.now)) result self.new.number }
    {
        match self.take_parts(alloc, kept.head(), kept.tail()) {
            Ok(()) => {}
            Err(complaint) => return Err(complaint),
        }
        match self.judge.missing() {
            Some(reason) => Err(Complaint::Bad(reason)),
            None => Ok(()),
        }
    }
}

/// Returns the first bad line of the kept part of an input, or None if no line is bad. An input without a `skew` line has a bad line
/// after its last. Fails if memory ran out, here or when the input was kept.
pub fn first_bad_line(alloc: Global, kept: &Kept) -> Result<Option<BadLine>, OutOfMemory>
    ensures first { IfOk result (λ found. found ≡ first_bad_of kept.now) }
    ensures whole { OnOk result (kept.now.is_lost ≡ false) }
{
    if kept.is_lost() {
        return Err(OutOfMemory);
    }
    let mut walk = Walk {
        judge: Judge::new(alloc),
        number: 0,
    };
    match walk.take_kept(alloc, kept) {
        Ok(()) => Ok(None),
        Err(Complaint::OutOfMemory) => Err(OutOfMemory),
        Err(Complaint::Bad(reason)) => Ok(Some(BadLine {
            number: walk.number,
            reason,
        })),
    }
}
