//! Takes an input line by line, and writes the reply to each line before it reads on.

ghost use Rattle.std.specs.Prelude.{◌≡◌, ◌≢◌, ◌<◌, ◌≤◌, ◌+◌, ◌^◌, List, ℕ, OnOk, Err};
ghost use Rattle.std.specs.Io.KnownBytes.{Appends};
ghost use Rattle.krb_text.specs.Causes.{Rose};
ghost use Rattle.krb_text.specs.Output.{AppendsFront};
ghost use Rattle.krb_text.specs.Reader.{new_reader};
ghost use Rattle.krb_lines.specs.Rules.{AreCountsOf};
ghost use Rattle.krb_lines.specs.Answering.{AnswersLines};
ghost use Rattle.krb_lines.specs.Halts.{Halts};

use crate::closing::{closing, status_at};
use crate::halt::Halt;
use crate::taker::{LineError, LineTaker};
use krb_text::{LineReader, ReadError, Sink, Source, Status, write_line};
use std::alloc::Global;

/// Takes one line, and writes the text that the taker makes of it.
fn answer_line<T: LineTaker, K: Sink>(
    alloc: Global,
    taker: &mut T,
    line: &[u8],
    sink: &mut K,
) -> Result<(), Halt>
    requires few { T.rules.lines taker.old < 2 ^ 32 }
    requires ready { T.is_ready taker.old }
    ensures ok { OnOk result ((text : List ℕ) × T.rules.takes taker.old line.now text taker.new × Appends (K.taken sink.old) (K.taken sink.new) text) }
    ensures bad { result ≡ Err Halt.BadLine
        → T.rules.refuses taker.old line.now × AreCountsOf T.rules taker.old taker.new × (sink.new ≡ sink.old) }
    ensures memory { result ≡ Err Halt.OutOfMemory → AreCountsOf T.rules taker.old taker.new × (sink.new ≡ sink.old) }
    ensures write { result ≡ Err Halt.WriteFault
        → (text : List ℕ) × T.rules.takes taker.old line.now text taker.new × AppendsFront (K.taken sink.old) (K.taken sink.new) text }
    ensures own { (result ≢ Err Halt.End) × (result ≢ Err Halt.LongLine) × (result ≢ Err Halt.ReadFault) }
    ensures lines { T.rules.lines taker.new ≤ T.rules.lines taker.old + 1 }
    ensures again { OnOk result (T.is_ready taker.new) }
    ensures fault { result ≡ Err Halt.WriteFault → Rose (K.faults sink.old) (K.faults sink.new) }
    ensures still { result ≢ Err Halt.WriteFault → K.faults sink.new ≡ K.faults sink.old }
{
    let text = match taker.take_line(alloc, line) {
        Ok(text) => text,
        Err(LineError::Bad) => return Err(Halt::BadLine),
        Err(LineError::OutOfMemory) => return Err(Halt::OutOfMemory),
    };
    match write_line(sink, text.as_str().as_bytes()) {
        Ok(()) => Ok(()),
        Err(_) => Err(Halt::WriteFault),
    }
}

/// Takes line after line, writes the text that the taker makes of each as it comes, and returns why no more lines are taken.
pub fn answer_lines<T: LineTaker, S: Source, K: Sink>(
    alloc: Global,
    reader: &mut LineReader,
    taker: &mut T,
    source: &mut S,
    sink: &mut K,
) -> Halt
    requires reader { reader.old ≡ new_reader }
    requires none { T.rules.lines taker.old ≡ 0 }
    requires ready { T.is_ready taker.old }
    ensures text { Halts T.rules taker.old (S.left source.old) (S.left source.new) (K.taken sink.old) (K.taken sink.new) taker.new result }
    ensures lines { T.rules.lines taker.new < 2 ^ 32 }
    ensures read { result ≡ Halt.ReadFault → Rose (S.faults source.old) (S.faults source.new) }
    ensures write { result ≡ Halt.WriteFault → Rose (K.faults sink.old) (K.faults sink.new) }
    ensures read_still { result ≢ Halt.ReadFault → S.faults source.new ≡ S.faults source.old }
    ensures write_still { result ≢ Halt.WriteFault → K.faults sink.new ≡ K.faults sink.old }
{
    'lines: loop {
        match reader.next_line(source) {
            Ok(true) => {}
            Ok(false) => break,
            Err(ReadError::Fault) => return Halt::ReadFault,
            Err(ReadError::Long) => return Halt::LongLine,
            Err(ReadError::OutOfMemory) => return Halt::OutOfMemory,
        }
        match answer_line(alloc, taker, reader.line(), sink) {
            Ok(()) => {}
            Err(halt) => return halt,
        }
        reader.drop_line();
    }
    let rest = reader.rest();
    if rest.is_empty() {
        return Halt::End;
    }
    match answer_line(alloc, taker, rest, sink) {
        Ok(()) => Halt::End,
        Err(halt) => halt,
    }
}

/// Takes all lines of the input, and writes the last line.
pub fn serve_lines<T: LineTaker, S: Source, K: Sink>(
    alloc: Global,
    taker: &mut T,
    source: &mut S,
    sink: &mut K,
) -> Status
    requires none { T.rules.lines taker.old ≡ 0 }
    requires ready { T.is_ready taker.old }
    ensures words { result ≢ Status.BadWords }

    // A fault is returned only if the outside failed in this call.
    ensures read { result ≡ Status.ReadFault → Rose (S.faults source.old) (S.faults source.new) }
    ensures write { result ≡ Status.WriteFault → Rose (K.faults sink.old) (K.faults sink.new) }

    // If the outside failed, the fault is returned: no read and no write that failed is passed over, or tried again.
    ensures read_still { result ≢ Status.ReadFault → S.faults source.new ≡ S.faults source.old }
    ensures write_still { result ≢ Status.WriteFault → K.faults sink.new ≡ K.faults sink.old }

    // The octets taken of the input that the source had left, and the text written for it, by the status.
    ensures text { AnswersLines T.rules taker.old (S.left source.old) (S.left source.new) (K.taken sink.old) (K.taken sink.new) result }
{
    let mut reader = LineReader::new(alloc);
    match answer_lines(alloc, &mut reader, taker, source, sink) {
        Halt::ReadFault => Status::ReadFault,
        Halt::WriteFault => Status::WriteFault,
        halt => {
            let line = closing(taker, halt);
            match write_line(sink, line.as_str().as_bytes()) {
                Ok(()) => status_at(taker, halt),
                Err(_) => Status::WriteFault,
            }
        }
    }
}
