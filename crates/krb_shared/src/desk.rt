//! The desk: a replay book with the journal of its calls.

ghost use Rattle.std.specs.Prelude.{◌≡◌, ◌<◌, ◌^◌, [], length, IfOk, IsOkAnd, OnErr};
ghost use Rattle.krb_replay.specs.Gate.{IsJudged};
ghost use Rattle.krb_shared.specs.Desk.{history, AdmitsAs};
ghost use Rattle.krb_shared.specs.Journal.{IsJournal, IsLegal};

use crate::entry::Entry;
use crate::journal::Journal;
use krb_der::{Items, OutOfMemory, TryCopy};
use krb_replay::{Ask, ReplayBook, ReplayGate, Verdict};
use std::alloc::Global;
use std::marker::Model;

/// A replay book with the journal of its calls. Every desk's journal is legal: it is what one book, asked one call after
/// another, answers.
#[derive(Drop)]
pub struct Desk {
    alloc: Global,
    book: ReplayBook,
    journal: Vec<Entry>,
}

impl Model for Desk {
    ghost use Rattle.krb_shared.specs.Desk.{Desk, IsKept};

    ghost Value = { Desk };

    ghost view = { λ d. record { skew = d.book.skew; journal = d.journal.items } };

    ghost invariant = { λ d. IsKept d.book d.journal.items };
}

impl Desk {
    /// A desk that was asked nothing. The skew is in seconds.
    pub fn new(alloc: Global, skew: u32) -> Result<Desk, OutOfMemory>
        ensures skew { IsOkAnd result (λ desk. desk.skew ≡ skew) }
        ensures journal { IsOkAnd result (λ desk. desk.journal ≡ []) }
    {
        Ok(Desk {
            alloc,
            book: ReplayBook::new(alloc, skew)?,
            journal: Vec::new(alloc),
        })
    }

    /// The book's moment: the greatest that was asked so far, in microseconds since 1970-01-01T00:00:00Z, and 0 before the
    /// first.
    pub fn moment(&self) -> u64
        ensures { result ≡ (history self.now).moment }
    {
        self.book.moment()
    }

    /// The journal so far.
    pub fn entries(&self) -> &[Entry]
        ensures entries { result.now ≡ self.now.journal }
        ensures legal { IsLegal self.now.skew self.now.journal }
    {
        &self.journal
    }

    /// Asks the book, and enters the call into the journal. Gives the verdict, and the entry's place, counted from 1.
    pub fn admit_as(
        &mut self,
        seat: u32,
        call: u64,
        ask: &Ask,
    ) -> Result<(Verdict, u64), OutOfMemory>
        ensures step { IfOk result (λ answer. AdmitsAs self.old seat call ask.now answer.0 self.new) }
        ensures place { IfOk result (λ answer. answer.1 ≡ length self.new.journal) }
        ensures judged { IfOk result (λ answer. IsJudged self.old.skew (history self.new).moment ask.now answer.0) }
        ensures err { OnErr result (self.new ≡ self.old) }
    {
        let asked = ask.copy(self.alloc)?;
        let entered = ask.copy(self.alloc)?;
        self.enter(seat, call, asked, entered)
    }

    /// Works as `admit_as`, with two copies of the ask: the book keeps one and the journal keeps the other.
    pub(crate) fn enter(
        &mut self,
        seat: u32,
        call: u64,
        asked: Ask,
        entered: Ask,
    ) -> Result<(Verdict, u64), OutOfMemory>
        requires { asked ≡ entered }
        ensures step { IfOk result (λ answer. AdmitsAs self.old seat call entered answer.0 self.new) }
        ensures place { IfOk result (λ answer. answer.1 ≡ length self.new.journal) }
        ensures judged { IfOk result (λ answer. IsJudged self.old.skew (history self.new).moment entered answer.0) }
        ensures err { OnErr result (self.new ≡ self.old) }
    {
        self.journal.reserve(1)?;
        let verdict = self.book.admit(asked)?;
        self.journal.push_reserved(Entry {
            seat,
            call,
            ask: entered,
            verdict,
        });
        Ok((verdict, self.journal.len() as u64))
    }

    /// The journal, and how many records the book keeps.
    pub fn into_journal(self) -> Journal
        ensures journal { IsJournal self.skew result }
        ensures entries { result.entries ≡ self.journal }
    {
        let kept = self.book.kept();
        Journal {
            entries: Items::new(self.journal),
            kept,
        }
    }
}
