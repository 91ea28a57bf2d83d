//! Reads all lines of an input.

ghost use Rattle.std.specs.Prelude.{◌≡◌, ◌≢◌, ◌<◌, ◌≤◌, ◌+◌, ◌^◌, ◌↔◌, ◌⊎◌, true, None, length, take, drop, IfOk, OnOk, IfErr, IfSome, IsTrue};
ghost use Rattle.krb_text.specs.Limits.{max_line, max_input};
ghost use Rattle.krb_text.specs.Causes.{Rose};
ghost use Rattle.krb_text.specs.Cutter.{first_end, is_unbroken};
ghost use Rattle.krb_text.specs.Pieces.{IsWithin, IsBegun};
ghost use Rattle.krb_input.specs.Ahead.{Declares};
ghost use Rattle.krb_input.specs.Known.{nothing_known, Ends};
ghost use Rattle.krb_input.specs.Taking.{Takes, TakesWhole, StopsIn, EndsWith};

use crate::ahead::{HeldItem, items_ahead, line_end};
use crate::ending::Ending;
use crate::known::Known;
use krb_script::FieldError;
use krb_text::{MAX_INPUT, MAX_LINE, Pieces, Source, newline};
use std::alloc::Global;
use std::thread::Threads;

/// Returns the item of a line that either worker read ahead, if any.
fn either(
    _line: &[u8],
    one: Option<Option<HeldItem>>,
    other: Option<Option<HeldItem>>,
) -> Option<HeldItem>
    requires one { IfSome one (λ ahead. Declares _line.now ahead) }
    requires other { IfSome other (λ ahead. Declares _line.now ahead) }
    ensures { Declares _line.now result }
{
    match (one, other) {
        (Some(Some(item)), _) => Some(item),
        (_, Some(item)) => item,
        _ => None,
    }
}

/// Returns whether a line of `length` bytes after `at` others is longer than a line may be, or the input with the line's 0A is
/// longer than an input may be.
fn is_long(length: usize, at: u64) -> bool
    requires { (length < 2 ^ 32) × (at < 2 ^ 32) }
    ensures { IsTrue result ↔ ((max_line < length) ⊎ (max_input < at + length + 1)) }
{
    length > MAX_LINE || at + length as u64 + 1 > MAX_INPUT
}

fn behind(octets: &[u8], done: usize) -> &[u8]
    requires { done ≤ length octets.now }
    ensures { result.now ≡ drop done octets.now }
{
    &octets[done..]
}

/// Takes the whole lines at the head of the octets, which come after `at` others in the input. Returns the length of these lines
/// in bytes.
fn take_lines<R: Threads>(
    rt: &R,
    alloc: Global,
    known: &mut Known,
    octets: &[u8],
    at: u64,
) -> Result<usize, Ending>
    requires lines { known.old.lines + length octets.now < 2 ^ 32 }
    requires room { length octets.now ≤ 2 ^ 21 }
    requires at { at ≤ max_input }
    ensures count { IfOk result (λ count. count ≤ length octets.now) }
    ensures rest { IfOk result (λ count. first_end (drop count octets.now) ≡ None) }
    ensures within { IfOk result (λ count. at + count ≤ max_input) }
    ensures takes { IfOk result (λ count. Takes at known.old (take count octets.now) known.new) }
    ensures stops { IfErr result (StopsIn at known.old octets.now known.new) }
    ensures lines { known.new.lines ≤ known.old.lines + length octets.now }
{
    let (even, odd) = items_ahead(rt, alloc, octets);
    let (mut even, mut odd) = (even.into_iter(), odd.into_iter());
    let mut done = 0;
    'lines: loop {
        let rest = behind(octets, done);
        let Some(end) = line_end(rest) else {
            return Ok(done);
        };
        let line = &rest[..end];
        if is_long(end, at + done as u64) {
            return Err(Ending::Long);
        }
        let ahead = either(line, even.next(), odd.next());
        match known.take_line(alloc, line, ahead) {
            Ok(()) => {}
            Err(FieldError::Bad) => return Err(Ending::Bad),
            Err(FieldError::OutOfMemory) => return Err(Ending::OutOfMemory),
        }
        done += end + 1;
    }
}

/// Takes the whole lines of the held octets, the first `before` of which have no 0A.
fn take_ended<R: Threads>(
    rt: &R,
    alloc: Global,
    known: &mut Known,
    pieces: &mut Pieces,
    before: usize,
) -> Result<(), Ending>
    requires lines { known.old.lines ≤ pieces.old.taken }
    requires before { (before ≤ length pieces.old.held) × (is_unbroken (take before pieces.old.held) ≡ true) }
    requires taken { pieces.old.taken ≤ max_input }
    ensures within { IsWithin pieces.old }
    ensures takes { OnOk result (TakesWhole known.old pieces.old known.new pieces.new) }
    ensures taken { OnOk result (pieces.new.taken ≤ max_input) }
    ensures rest { OnOk result (is_unbroken pieces.new.held ≡ true) }
    ensures stops { IfErr result (StopsIn pieces.old.taken known.old pieces.old.held known.new) }
    ensures lines { known.new.lines ≤ known.old.lines + length pieces.old.held }
{
    match newline(behind(pieces.held(), before)) {
        None => Ok(()),
        Some(_) => {
            let count = take_lines(rt, alloc, known, pieces.held(), pieces.taken())?;
            pieces.take(count);
            Ok(())
        }
    }
}

/// Takes the whole lines of the held octets, the first `before` of which have no 0A. After `Ok` the beginning of one line is held,
/// and the line and the input are within their limits. Fails with `Long` otherwise.
fn take_whole<R: Threads>(
    rt: &R,
    alloc: Global,
    known: &mut Known,
    pieces: &mut Pieces,
    before: usize,
) -> Result<(), Ending>
    requires lines { known.old.lines ≤ pieces.old.taken }
    requires before { (before ≤ length pieces.old.held) × (is_unbroken (take before pieces.old.held) ≡ true) }
    requires taken { pieces.old.taken ≤ max_input }
    ensures within { IsWithin pieces.old }
    ensures takes { OnOk result (TakesWhole known.old pieces.old known.new pieces.new) }
    ensures begun { OnOk result (IsBegun pieces.new) }
    ensures stops { IfErr result (StopsIn pieces.old.taken known.old pieces.old.held known.new) }
    ensures lines { known.new.lines ≤ known.old.lines + length pieces.old.held }
{
    take_ended(rt, alloc, known, pieces, before)?;
    if pieces.is_past() {
        return Err(Ending::Long);
    }
    Ok(())
}

/// Takes the octets after the last 0A, the last line if there are any.
fn take_rest(alloc: Global, known: &mut Known, rest: &[u8]) -> Ending
    requires { known.old.lines < 2 ^ 32 }
    ensures ends { EndsWith known.old rest.now known.new result }
    ensures lines { known.new.lines ≤ known.old.lines + 1 }
{
    if rest.is_empty() {
        return Ending::Whole;
    }
    match known.take_line(alloc, rest, None) {
        Ok(()) => Ending::Whole,
        Err(FieldError::Bad) => Ending::Bad,
        Err(FieldError::OutOfMemory) => Ending::OutOfMemory,
    }
}

/// Reads piece after piece, and takes the declaration of each line. Two threads read the lines of a large piece.
pub fn read_all<R: Threads, S: Source>(
    rt: &R,
    alloc: Global,
    known: &mut Known,
    source: &mut S,
) -> Ending
    requires { known.old ≡ nothing_known }
    ensures ends { Ends (S.left source.old) (S.left source.new) known.new result }
    ensures lines { known.new.lines < 2 ^ 32 }
    ensures fault { result ≡ Ending.Fault → Rose (S.faults source.old) (S.faults source.new) }
    ensures still { result ≢ Ending.Fault → S.faults source.new ≡ S.faults source.old }
{
    let Ok(mut pieces) = Pieces::new(alloc) else {
        return Ending::OutOfMemory;
    };
    'pieces: loop {
        let before = pieces.held().len();
        match pieces.read(source) {
            Ok(0) => break,
            Ok(_) => {}
            Err(_) => return Ending::Fault,
        }
        match take_whole(rt, alloc, known, &mut pieces, before) {
            Ok(()) => {}
            Err(ending) => return ending,
        }
    }
    take_rest(alloc, known, pieces.held())
}
