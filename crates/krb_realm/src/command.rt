//! The command `answer`: it takes its input line by line, and writes the reply to each request before it reads on.

ghost use Rattle.std.specs.Prelude.{◌≡◌, ◌≢◌, ◌↔◌, ◌∷◌, [], codes};
ghost use Rattle.krb_text.specs.Causes.{Rose};
ghost use Rattle.krb_realm.specs.Answering.{AnswersInput};

use crate::session::Session;
use krb_lines::serve_lines;
use krb_text::{Sink, Source, Status, Words};
use std::alloc::Global;

/// Answers each request of the input as its line comes, and writes the last line. The words are exactly `answer`.
pub fn answer<S: Source, K: Sink>(
    alloc: Global,
    words: &Words,
    source: &mut S,
    sink: &mut K,
) -> Status
    // The words are judged first: at others nothing is read or written.
    ensures words { (result ≡ Status.BadWords) ↔ (words.now ≢ codes "answer" ∷ []) }
    ensures untouched { result ≡ Status.BadWords → (source.new ≡ source.old) × (sink.new ≡ sink.old) }

    // A fault is returned only if the outside failed in this call.
    ensures read { result ≡ Status.ReadFault → Rose (S.faults source.old) (S.faults source.new) }
    ensures write { result ≡ Status.WriteFault → Rose (K.faults sink.old) (K.faults sink.new) }

    // A fault is returned if the outside failed: no read and no write that failed is ignored, or tried again.
    ensures read_still { result ≢ Status.ReadFault → S.faults source.new ≡ S.faults source.old }
    ensures write_still { result ≢ Status.WriteFault → K.faults sink.new ≡ K.faults sink.old }

    // The front that is taken of the input that the source had left, and the text that is written for it, by the status.
    ensures text { AnswersInput (S.left source.old) (S.left source.new) (K.taken sink.old) (K.taken sink.new) result }
{
    if words.are("answer") {
        let mut session = Session::new();
        serve_lines(alloc, &mut session, source, sink)
    } else {
        Status::BadWords
    }
}
