//! The command `serve`: it takes its input line by line, and writes the reply to each event before it reads on.
ghost use Rattle.std.specs.Prelude.{◌≡◌, ◌≢◌, ◌↔◌, ◌∷◌, [], codes};
ghost use Rattle.krb_text.specs.Causes.{Rose};
ghost use Rattle.krb_machine.specs.Serve.{Serves};

use crate::session::Session;
use krb_lines::serve_lines;
use krb_text::{Sink, Source, Status, Words};
use std::alloc::Global;

/// Replies to each event of the input as its line comes, and writes the last line. Returns `BadWords` unless the words are
/// exactly `serve`.
pub fn serve<S: Source, K: Sink>(
    alloc: Global,
    words: &Words,
    source: &mut S,
    sink: &mut K,
) -> Status
    // The words are checked first: if they are not `serve`, nothing is read or written.
    ensures words { (result ≡ Status.BadWords) ↔ (words.now ≢ codes "serve" ∷ []) }
    ensures untouched { result ≡ Status.BadWords → (source.new ≡ source.old) × (sink.new ≡ sink.old) }

    // A fault is returned only if the outside failed in this call.
    ensures read { result ≡ Status.ReadFault → Rose (S.faults source.old) (S.faults source.new) }
    ensures write { result ≡ Status.WriteFault → Rose (K.faults sink.old) (K.faults sink.new) }

    // If the outside failed, the fault is returned: no read and no write that failed is passed over, or tried again.
    ensures read_still { result ≢ Status.ReadFault → S.faults source.new ≡ S.faults source.old }
    ensures write_still { result ≢ Status.WriteFault → K.faults sink.new ≡ K.faults sink.old }

    // The octets taken of the input that the source had left, and the text written for it, by the status.
    ensures text { Serves (S.left source.old) (S.left source.new) (K.taken sink.old) (K.taken sink.new) result }
{
    if words.are("serve") {
        let mut session = Session::new(alloc);
        serve_lines(alloc, &mut session, source, sink)
    } else {
        Status::BadWords
    }
}
