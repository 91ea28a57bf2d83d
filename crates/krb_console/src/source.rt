//! The input of the program.

use crate::calls::{lines_in, read_patiently};
use krb_text::{Failed, Source};
use std::io::{Error, Read};
use std::time::Clock;

/// A reader of the standard library as a source that counts line ends. A read that was interrupted or would block is tried again;
/// each other error is a fault.
#[derive(Drop)]
pub struct PatientSource<R: Read, C: Clock> {
    reader: R,
    clock: C,
    faults: u64,
    lines: u64,
    error: Option<Error>,
}

impl<R: Read, C: Clock> PatientSource<R, C> {
    ghost use Rattle.std.specs.Prelude.{◌≡◌};

    /// Returns a source of what the reader returns. Nothing is read yet.
    pub fn new(reader: R, clock: C) -> Self
        ensures left { ⟦<PatientSource<R, C> as Source>⟧.left result ≡ R.remaining reader }
        ensures lines { result.lines ≡ 0 }
    {
        PatientSource {
            reader,
            clock,
            faults: 0,
            lines: 0,
            error: None,
        }
    }

    /// Returns how many line ends (0A) were read.
    pub fn lines(&self) -> u64
        ensures { result ≡ self.now.lines }
    {
        self.lines
    }

    /// Returns the error of the last read that failed.
    pub fn error(&self) -> Option<Error> {
        self.error
    }
}

impl<R: Read, C: Clock> Source for PatientSource<R, C> {
    ghost use Rattle.std.specs.Prelude.{◌≡◌, ◌<◌, OnErr, IfOk, take, length};
    ghost use Rattle.std.specs.Io.{ReadsAtMost};
    ghost use Rattle.std.specs.Io.KnownBytes.{ReadConsumes};
    ghost use Rattle.krb_text.specs.Causes.{HasCause};
    ghost use Rattle.krb_console.specs.Streams.{more_lines};

    ghost left = { λ s. R.remaining s.reader };

    ghost faults = { λ s. s.faults };

    fn read(&mut self, into: &mut [u8]) -> Result<usize, Failed>
        requires { 0 < length into.old }
        ensures bound { ReadsAtMost result into.new }
        ensures bytes { ReadConsumes (R.remaining self.old.reader) (R.remaining self.new.reader) result into.new }
        ensures cause { HasCause self.old.faults self.new.faults result }
        ensures counted { IfOk result (λ count. self.new.lines ≡ more_lines self.old.lines (take count into.new)) }
        ensures kept { OnErr result (self.new.lines ≡ self.old.lines) }
    {
        match read_patiently(&mut self.reader, &self.clock, into) {
            Ok(count) => {
                let lines = lines_in(&into[..count]);
                self.lines = self.lines.saturating_add(lines as u64);
                Ok(count)
            }
            Err(error) => {
                self.faults = self.faults.saturating_add(1);
                self.error = Some(error);
                Err(Failed)
            }
        }
    }
}
