//! The command `threads`: it reads all its input, and writes the replies of two workers.

ghost use Rattle.std.specs.Prelude.{◌≡◌, ◌≢◌, ◌≤◌, ◌↔◌, ◌∷◌, ◌++◌, [], codes, decimal, length, IfOk, string_bytes};
ghost use Rattle.std.specs.Io.KnownBytes.{Appends};
ghost use Rattle.krb_text.specs.Causes.{Rose};
ghost use Rattle.krb_text.specs.Output.{AppendsFront};
ghost use Rattle.krb_machine.specs.Described.{skew_of};
ghost use Rattle.krb_machine.specs.Text.{stopped_line};
ghost use Rattle.krb_threads.specs.Answers.{IsAnswer};
ghost use Rattle.krb_input.specs.Parted.{numbers_of};
ghost use Rattle.krb_input.specs.Known.{nothing_known};
ghost use Rattle.krb_threads.specs.Threads.{Answers, Runs};

use crate::described::Described;
use crate::going::drop_all;
use crate::pause::Pause;
use crate::text::text_of;
use crate::workers::answers_of;
use krb_der::{OutOfMemory, boxed};
use krb_input::{Ending, Known, numbers, parted, read_all};
use krb_machine::numbered_line;
use krb_script::Script;
use krb_text::{Sink, Source, Status, Words, write_line};
use std::alloc::Global;
use std::mem;
use std::sync::Wait;
use std::thread::Threads;

/// Takes the ends that the lines declare, the environment and the skew out of `known`, and returns them.
fn take_described(alloc: Global, known: &mut Known) -> Result<Box<Described>, OutOfMemory>
    ensures skew { IfOk result (λ described. described.value.skew ≡ skew_of known.old.so_far.setup) }
    ensures env { IfOk result (λ described. described.value.env ≡ known.old.so_far.setup.env) }
    ensures endpoints { IfOk result (λ described. described.value.endpoints.entries ≡ known.old.so_far.setup.endpoints) }
    ensures events { known.new.so_far.events ≡ known.old.so_far.events }
{
    let script = mem::replace(&mut known.script, Script::new(alloc));
    let (skew, env, endpoints) = script.into_parts();
    boxed(
        alloc,
        Described {
            skew,
            env,
            endpoints,
        },
    )
}

/// Returns the text that answers the declarations. `low` and `high` are the numbers of each worker's events.
fn numbered_text<R: Threads + Wait + Sync, P: Pause + Send, Q: Pause + Send>(
    rt: &R,
    alloc: Global,
    known: &mut Known,
    low: &[u64],
    high: &[u64],
    first: &mut P,
    second: &mut Q,
) -> Result<String, OutOfMemory>
    requires low { low.now ≡ numbers_of 0 known.old.so_far.events }
    requires high { high.now ≡ numbers_of 1 known.old.so_far.events }
    ensures { IfOk result (λ text. IsAnswer known.old.so_far (string_bytes text)) }
{
    let described = take_described(alloc, known)?;
    let events = mem::replace(&mut known.events, Vec::new(alloc));
    let (one, two) = parted(alloc, events)?;
    let answers = answers_of(rt, alloc, &described, one, two, first, second)?;
    let text = text_of(rt, alloc, low, high, &answers);
    drop_all(rt, described, answers);
    text
}

/// Returns the text that answers the declarations, which are taken out of `known`.
fn answer_text<R: Threads + Wait + Sync, P: Pause + Send, Q: Pause + Send>(
    rt: &R,
    alloc: Global,
    known: &mut Known,
    first: &mut P,
    second: &mut Q,
) -> Result<String, OutOfMemory>
    ensures { IfOk result (λ text. IsAnswer known.old.so_far (string_bytes text)) }
{
    let low = numbers(alloc, &known.events, 0)?;
    let high = numbers(alloc, &known.events, 1)?;
    numbered_text(rt, alloc, known, &low, &high, first, second)
}

/// Writes a text, and returns this status, or `WriteFault` if a write fails.
fn write<K: Sink>(sink: &mut K, text: &[u8], status: Status) -> Status
    requires { status ≢ Status.WriteFault }
    ensures whole { result ≢ Status.WriteFault → (result ≡ status) × Appends (K.taken sink.old) (K.taken sink.new) text.now }
    ensures cut { result ≡ Status.WriteFault → AppendsFront (K.taken sink.old) (K.taken sink.new) text.now }
    ensures fault { result ≡ Status.WriteFault → Rose (K.faults sink.old) (K.faults sink.new) }
    ensures still { result ≢ Status.WriteFault → K.faults sink.new ≡ K.faults sink.old }
{
    match write_line(sink, text) {
        Ok(()) => status,
        Err(_) => Status::WriteFault,
    }
}

/// Writes a word and a number as the last line, and returns this status, or `WriteFault` if a write fails.
fn write_numbered<K: Sink>(sink: &mut K, word: &str, number: u64, status: Status) -> Status
    requires word { length word.now ≤ 16 }
    requires status { status ≢ Status.WriteFault }
    ensures whole { result ≢ Status.WriteFault
        → (result ≡ status) × Appends (K.taken sink.old) (K.taken sink.new) (word.now ++ decimal number ++ codes "\n") }
    ensures cut { result ≡ Status.WriteFault → AppendsFront (K.taken sink.old) (K.taken sink.new) (word.now ++ decimal number ++ codes "\n") }
    ensures fault { result ≡ Status.WriteFault → Rose (K.faults sink.old) (K.faults sink.new) }
    ensures still { result ≢ Status.WriteFault → K.faults sink.new ≡ K.faults sink.old }
{
    let line = numbered_line(word, number);
    write(sink, line.as_str().as_bytes(), status)
}

/// Writes the line that memory ran out before the reply to any event.
fn write_stopped<K: Sink>(sink: &mut K) -> Status
    ensures whole { result ≢ Status.WriteFault
        → (result ≡ Status.OutOfMemory) × Appends (K.taken sink.old) (K.taken sink.new) (stopped_line 0) }
    ensures cut { result ≡ Status.WriteFault → AppendsFront (K.taken sink.old) (K.taken sink.new) (stopped_line 0) }
    ensures fault { result ≡ Status.WriteFault → Rose (K.faults sink.old) (K.faults sink.new) }
    ensures still { result ≢ Status.WriteFault → K.faults sink.new ≡ K.faults sink.old }
{
    write_numbered(sink, "stopped ", 0, Status::OutOfMemory)
}

/// Answers the declarations, and returns the status.
fn answer<R: Threads + Wait + Sync, P: Pause + Send, Q: Pause + Send, K: Sink>(
    rt: &R,
    alloc: Global,
    known: &mut Known,
    sink: &mut K,
    first: &mut P,
    second: &mut Q,
) -> Status
    ensures text { Answers known.old.so_far (K.taken sink.old) (K.taken sink.new) result }
    ensures fault { result ≡ Status.WriteFault → Rose (K.faults sink.old) (K.faults sink.new) }
    ensures still { result ≢ Status.WriteFault → K.faults sink.new ≡ K.faults sink.old }
{
    match answer_text(rt, alloc, known, first, second) {
        Ok(text) => write(sink, text.as_str().as_bytes(), Status::Done),
        Err(_) => write_stopped(sink),
    }
}

/// Reads all lines, and answers their events, or writes the reason why it does not. Returns the status.
fn read_and_answer<R: Threads + Wait + Sync, P: Pause + Send, Q: Pause + Send, S: Source, K: Sink>(
    rt: &R,
    alloc: Global,
    known: &mut Known,
    source: &mut S,
    sink: &mut K,
    first: &mut P,
    second: &mut Q,
) -> Status
    requires { known.old ≡ nothing_known }
    ensures words { result ≢ Status.BadWords }
    ensures read { result ≡ Status.ReadFault → Rose (S.faults source.old) (S.faults source.new) }
    ensures write { result ≡ Status.WriteFault → Rose (K.faults sink.old) (K.faults sink.new) }
    ensures read_still { result ≢ Status.ReadFault → S.faults source.new ≡ S.faults source.old }
    ensures write_still { result ≢ Status.WriteFault → K.faults sink.new ≡ K.faults sink.old }
    ensures text { Runs (S.left source.old) (S.left source.new) (K.taken sink.old) (K.taken sink.new) result }
{
    match read_all(rt, alloc, known, source) {
        Ending::Whole if known.has_begun() => answer(rt, alloc, known, sink, first, second),
        Ending::Whole => write_numbered(sink, "bad line ", known.lines() + 1, Status::BadLine),
        Ending::Bad => write_numbered(sink, "bad line ", known.lines() + 1, Status::BadLine),
        Ending::Long => write_numbered(sink, "long line ", known.lines() + 1, Status::TooLong),
        Ending::Fault => Status::ReadFault,
        Ending::OutOfMemory => write_stopped(sink),
    }
}

/// Reads all of its input, and then answers its events by two workers: worker w has the connections whose number modulo 2 is w,
/// and takes the events at such numbers in their order. Each worker has a seat of one shared replay book, and asks its pause
/// before each call of the book. Returns `BadWords` unless the words are exactly `threads`.
pub fn threads<R: Threads + Wait + Sync, P: Pause + Send, Q: Pause + Send, S: Source, K: Sink>(
    rt: &R,
    alloc: Global,
    words: &Words,
    source: &mut S,
    sink: &mut K,
    first: &mut P,
    second: &mut Q,
) -> Status
    // The words are checked first: if they are not `threads`, nothing is read or written.
    ensures words { (result ≡ Status.BadWords) ↔ (words.now ≢ codes "threads" ∷ []) }
    ensures untouched { result ≡ Status.BadWords → (source.new ≡ source.old) × (sink.new ≡ sink.old) }

    // A fault is returned only if the outside failed in this call.
    ensures read { result ≡ Status.ReadFault → Rose (S.faults source.old) (S.faults source.new) }
    ensures write { result ≡ Status.WriteFault → Rose (K.faults sink.old) (K.faults sink.new) }

    // If the outside failed, the fault is returned.
    ensures read_still { result ≢ Status.ReadFault → S.faults source.new ≡ S.faults source.old }
    ensures write_still { result ≢ Status.WriteFault → K.faults sink.new ≡ K.faults sink.old }

    // The octets taken of the input that the source had left, and the text written for it, by the status.
    ensures text { Runs (S.left source.old) (S.left source.new) (K.taken sink.old) (K.taken sink.new) result }
{
    if !words.are("threads") {
        return Status::BadWords;
    }
    let mut known = Known::new(alloc);
    read_and_answer(rt, alloc, &mut known, source, sink, first, second)
}
