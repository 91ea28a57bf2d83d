//! The output of the program.

use crate::calls::{lines_in, write_patiently};
use krb_text::{Failed, Sink};
use std::io::{Error, Write};
use std::time::Clock;

/// A writer of the standard library as a sink that counts line ends. A write that was interrupted or would block is tried again;
/// each other error is a fault, and so is a write that takes nothing.
#[derive(Drop)]
pub struct PatientSink<W: Write, C: Clock> {
    writer: W,
    clock: C,
    faults: u64,
    lines: u64,
    error: Option<Error>,
}

impl<W: Write, C: Clock> PatientSink<W, C> {
    ghost use Rattle.std.specs.Prelude.{◌≡◌};

    /// Returns a sink that writes to the writer. Nothing is written yet.
    pub fn new(writer: W, clock: C) -> Self
        ensures taken { ⟦<PatientSink<W, C> as Sink>⟧.taken result ≡ W.contents writer }
        ensures lines { result.lines ≡ 0 }
    {
        PatientSink {
            writer,
            clock,
            faults: 0,
            lines: 0,
            error: None,
        }
    }

    /// Returns how many line ends (0A) were written.
    pub fn lines(&self) -> u64
        ensures { result ≡ self.now.lines }
    {
        self.lines
    }

    /// Returns the error of the last write that failed.
    pub fn error(&self) -> Option<Error> {
        self.error
    }
}

impl<W: Write, C: Clock> Sink for PatientSink<W, C> {
    ghost use Rattle.std.specs.Prelude.{◌≡◌, ◌<◌, OnErr, IfOk, take, length};
    ghost use Rattle.std.specs.Io.{WritesAtMost};
    ghost use Rattle.std.specs.Io.KnownBytes.{WriteAppends};
    ghost use Rattle.krb_text.specs.Causes.{HasCause};
    ghost use Rattle.krb_console.specs.Streams.{more_lines};

    ghost taken = { λ s. W.contents s.writer };

    ghost faults = { λ s. s.faults };

    fn write(&mut self, piece: &[u8]) -> Result<usize, Failed>
        ensures bound { WritesAtMost result piece.now }
        ensures moves { IfOk result (λ count. 0 < length piece.now → 0 < count) }
        ensures bytes { WriteAppends (W.contents self.old.writer) (W.contents self.new.writer) result piece.now }
        ensures cause { HasCause self.old.faults self.new.faults result }
        ensures counted { IfOk result (λ count. self.new.lines ≡ more_lines self.old.lines (take count piece.now)) }
        ensures kept { OnErr result (self.new.lines ≡ self.old.lines) }
    {
        match write_patiently(&mut self.writer, &self.clock, piece) {
            Ok(count) => {
                let lines = lines_in(&piece[..count]);
                self.lines = self.lines.saturating_add(lines as u64);
                Ok(count)
            }
            Err(error) => {
                self.faults = self.faults.saturating_add(1);
                self.error = Some(error);
                Err(Failed)
            }
        }
    }
}
