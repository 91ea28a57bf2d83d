//! The command `demo`: a made input, answered in memory.
ghost use Rattle.std.specs.Prelude.{◌≡◌, ◌≢◌, ◌≤◌, ◌↔◌, None, IfSome};
ghost use Rattle.krb_text.specs.Causes.{Rose};
ghost use Rattle.krb_machine.specs.Demo.{event_count, demo_number, demo_line, Counts, Demonstrates};

use crate::session::Session;
use arrayvec::ArrayString;
use itoa::Buffer;
use krb_demo::demonstration;
use krb_lines::{Halt, LineTaker, ROOM, answer_lines};
use krb_text::{LineReader, Sink, Status, SureSink, SureSource, Words, write_line};
use std::alloc::Global;

/// The greatest number of events of a demonstration.
const MOST_EVENTS: u64 = 10_000;

fn event_count(n: u64) -> Option<u64>
    ensures count { result ≡ event_count n }
    ensures some { IfSome result (λ n. 1 ≤ n) }
    ensures few { IfSome result (λ n. n ≤ 10000) }
{
    if n >= 1 && n <= MOST_EVENTS {
        Some(n)
    } else {
        None
    }
}

fn demo_number(words: &Words) -> Option<u64>
    ensures number { result ≡ demo_number words.now }
    ensures some { IfSome result (λ n. 1 ≤ n) }
    ensures few { IfSome result (λ n. n ≤ 10000) }
{
    event_count(words.number("demo", u64::MAX)?)
}

fn demo_line(n: u64, admitted: u64, kept: u64) -> ArrayString<ROOM>
    ensures { result.bytes ≡ demo_line n admitted kept }
{
    let mut buffer = Buffer::new();
    let mut line = ArrayString::new();
    line.push_str("demo ");
    line.push_str(buffer.format(n));
    line.push_str(" ");
    line.push_str(buffer.format(admitted));
    line.push_str(" ");
    line.push_str(buffer.format(kept));
    line.push_str("\n");
    line
}

/// Answers the demonstration's input, and returns the line with its counts. Returns None if memory runs out.
fn demonstrate(alloc: Global, n: u64) -> Option<ArrayString<ROOM>>
    requires some { 1 ≤ n }
    requires few { n ≤ 10000 }
    ensures { IfSome result (λ line. Counts n line.bytes) }
{
    let Ok(input) = demonstration(alloc, n as u32) else {
        return None;
    };
    let mut source = SureSource::new(&input);
    let mut reader = LineReader::new(alloc);
    let mut session = Session::new(alloc);
    match answer_lines(alloc, &mut reader, &mut session, &mut source, &mut SureSink) {
        Halt::End if session.can_end() => Some(demo_line(n, session.admitted(), session.kept())),
        // Each line of the input is good, and this source and this sink do not fail: memory ran out.
        _ => None,
    }
}

/// Writes `demo <n> <admitted> <kept>` for the demonstration of n events, with the two numbers that end the replies to its input.
/// Returns `BadWords` unless the words are `demo` and n, a number from 1 to 10,000.
pub fn demo<K: Sink>(alloc: Global, words: &Words, sink: &mut K) -> Status
    ensures words { (result ≡ Status.BadWords) ↔ (demo_number words.now ≡ None) }
    ensures untouched { result ≡ Status.BadWords → sink.new ≡ sink.old }
    ensures write { result ≡ Status.WriteFault → Rose (K.faults sink.old) (K.faults sink.new) }
    ensures write_still { result ≢ Status.WriteFault → K.faults sink.new ≡ K.faults sink.old }
    ensures text { Demonstrates (demo_number words.now) (K.taken sink.old) (K.taken sink.new) result }
{
    let Some(n) = demo_number(words) else {
        return Status::BadWords;
    };
    let Some(line) = demonstrate(alloc, n) else {
        return Status::OutOfMemory;
    };
    match write_line(sink, line.as_str().as_bytes()) {
        Ok(()) => Status::Done,
        Err(_) => Status::WriteFault,
    }
}
