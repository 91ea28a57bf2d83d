//! A source whose input is kept as far as a reason needs it.

use crate::kept::Kept;
use krb_text::{Failed, Source};
use std::alloc::Global;

/// A source that reads from another one, and keeps as much of the input as a reason needs.
#[derive(Drop)]
pub struct KeepingSource<S: Source> {
    source: S,
    kept: Kept,
}

impl<S: Source> KeepingSource<S> {
    ghost use Rattle.std.specs.Prelude.{◌≡◌};
    ghost use Rattle.krb_reasons.specs.Kept.{nothing_kept};

    /// Returns a source that reads from this one. Nothing is read yet.
    pub fn new(alloc: Global, source: S) -> Self
        ensures left { ⟦<KeepingSource<S> as Source>⟧.left result ≡ S.left source }
        ensures kept { result.kept ≡ nothing_kept }
    {
        KeepingSource {
            source,
            kept: Kept::new(alloc),
        }
    }

    /// Returns the source that it reads from.
    pub fn source(&self) -> &S
        ensures { result.now ≡ self.now.source }
    {
        &self.source
    }

    /// Returns the kept part of the input.
    pub fn kept(&self) -> &Kept
        ensures { result.now ≡ self.now.kept }
    {
        &self.kept
    }
}

impl<S: Source> Source for KeepingSource<S> {
    ghost use Rattle.std.specs.Prelude.{◌<◌, length};
    ghost use Rattle.std.specs.Io.{ReadsAtMost};
    ghost use Rattle.std.specs.Io.KnownBytes.{ReadConsumes};
    ghost use Rattle.krb_text.specs.Causes.{HasCause};

    ghost left = { λ s. S.left s.source };

    ghost faults = { λ s. S.faults s.source };

    fn read(&mut self, into: &mut [u8]) -> Result<usize, Failed>
        requires { 0 < length into.old }
        ensures bound { ReadsAtMost result into.new }
        ensures bytes { ReadConsumes (S.left self.old.source) (S.left self.new.source) result into.new }
        ensures cause { HasCause (S.faults self.old.source) (S.faults self.new.source) result }
    {
        let count = self.source.read(into)?;
        self.kept.keep(&into[..count]);
        Ok(count)
    }
}
