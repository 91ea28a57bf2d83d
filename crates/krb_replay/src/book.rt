//! The replay book.

ghost use Rattle.std.specs.Prelude.{◌≡◌, ◌≤◌, length, IfOk, IsOkAnd, OnOk, OnErr};
ghost use Rattle.krb_replay.specs.Gate.{IsJudged};
ghost use Rattle.krb_replay.specs.Book.{Follows, IsUnchanged, StandsFor, NeedsRoom, IsUnchanged-same, goes_on};
ghost use Rattle.krb_replay.specs.History.{History, no_history, window};

use crate::ask::{Ask, Verdict};
use crate::blocks::Blocks;
use crate::clock::clock_refusal;
use crate::gate::ReplayGate;
use krb_der::OutOfMemory;
use std::alloc::Global;
use std::marker::Model;

/// A replay book (RFC 4120 3.2.3). It judges by the greatest moment that it was ever asked, keeps the records that a later
/// ask can still repeat, ordered by time, and answers as a book that never forgets. They lie in blocks, so that one that
/// comes late moves no more than a block. Contracts see its skew in seconds, its
/// moment in microseconds since 1970-01-01T00:00:00Z, the records that it keeps, and the room that is left.
#[derive(Drop)]
pub struct ReplayBook {
    skew: u32,
    moment: u64,
    records: Blocks,
}

impl Model for ReplayBook {
    ghost use Rattle.krb_replay.specs.Book.{Book};

    ghost Value = { Book };

    ghost view = { λ b. record { skew = b.skew; moment = b.moment; kept = b.records.items; spare = b.records.spare } };
}

impl ReplayBook {
    /// A book that was asked nothing. The skew is in seconds. It takes no memory.
    pub fn new(alloc: Global, skew: u32) -> Result<ReplayBook, OutOfMemory>
        ensures skew { IsOkAnd result (λ book. book.skew ≡ skew) }
        ensures stands { IsOkAnd result (λ book. StandsFor book no_history) }
    {
        Ok(ReplayBook {
            skew,
            moment: 0,
            records: Blocks::new(alloc),
        })
    }

    /// Makes room for `records` more records than are kept.
    pub fn reserve(&mut self, records: usize) -> Result<(), OutOfMemory>
        ensures room { OnOk result (records ≤ self.new.spare) }
        ensures same { IsUnchanged self.old self.new }
    {
        self.records.reserve(records)
    }

    /// How many of the admitted records have a time that is at least the moment less the skew.
    pub fn kept(&self) -> u64
        ensures kept { result ≡ length self.now.kept }
        ensures window { (h : History) → StandsFor self.now h → result ≡ length (window self.now.skew h) }
    {
        self.records.len() as u64
    }

    /// The greatest moment asked so far, in microseconds since 1970-01-01T00:00:00Z, and 0 before the first.
    pub fn moment(&self) -> u64
        ensures { result ≡ self.now.moment }
    {
        self.moment
    }
}

impl ReplayGate for ReplayBook {
    ghost skew = { λ b. b.skew };

    ghost moment = { λ b. b.moment };

    ghost admits = { Follows StandsFor };

    ghost is_same = { IsUnchanged };

    ghost same = { IsUnchanged-same };

    ghost same_moment = { λ a b same. same.moment };

    ghost same_skew = { λ a b same. same.skew };

    ghost judges = { λ old new ask verdict step. step.judged };

    ghost keeps_skew = { λ old new ask verdict step. step.skew };

    ghost goes_on = { goes_on };

    fn admit(&mut self, ask: Ask) -> Result<Verdict, OutOfMemory>
        ensures step { IfOk result (λ verdict. Follows StandsFor self.old ask verdict self.new) }
        ensures judged { IfOk result (λ verdict. IsJudged self.old.skew self.new.moment ask verdict) }
        ensures skew { self.new.skew ≡ self.old.skew }
        ensures err { OnErr result (IsUnchanged self.old self.new) }
        // It runs out of memory only where it would admit, and the new window has no room.
        ensures full { OnErr result (NeedsRoom self.old ask) }
    {
        let moment = self.moment.max(ask.moment);
        match clock_refusal(self.skew, moment, &ask) {
            Some(refusal) => {
                self.records.prune(self.skew, moment);
                self.moment = moment;
                Ok(refusal)
            }
            None => {
                if self.records.contains(&ask.entry) {
                    self.records.prune(self.skew, moment);
                    self.moment = moment;
                    return Ok(Verdict::Replayed);
                }
                self.records.make_room(self.skew, moment)?;
                self.moment = moment;
                self.records.insert(ask.entry);
                Ok(Verdict::Admitted)
            }
        }
    }

    fn last_moment(&self) -> u64 {
        self.moment
    }
}
