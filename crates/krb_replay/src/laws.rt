//! Properties of all values and all lists of asks.

ghost use Rattle.std.specs.Prelude.{◌≡◌, ◌↔◌, ◌⊎◌, ℕ, ◌+◌, ◌≤◌, List, [], ◌∷◌, ◌++◌, length, None, IsTrue, true, false};
ghost use Rattle.std.specs.Ordering.{int_cmp, is_eq};
ghost use Rattle.std.specs.declared.cmp.Ordering.TheVariants.{Less};
ghost use Rattle.krb_replay.specs.declared.record.Record.{Record};
ghost use Rattle.krb_replay.specs.declared.ask.Ask.{Ask};
ghost use Rattle.krb_replay.specs.declared.book.ReplayBook.TheInside.{Inside};
ghost use Rattle.krb_replay.specs.declared.blocks.Blocks.TheInside as of_blocks;
ghost use Rattle.krb_replay.specs.declared.block.Block.TheInside as of_block;
ghost use Rattle.krb_replay.specs.declared.ask.Verdict.{Verdict};
ghost use Rattle.krb_replay.specs.declared.cache.AuthenticatorCacheRecord.{AuthenticatorCacheRecord};
ghost use Rattle.krb_replay.specs.Records.{record_eq, record_cmp, ask_eq, IsDistinct};
ghost use Rattle.krb_replay.specs.Cache.{cache_eq};
ghost use Rattle.krb_replay.specs.declared.ask.Verdict.TheVariants.{Admitted};
ghost use Rattle.krb_replay.specs.declared.telling.TellingGate.{TellingGate};
ghost use Rattle.krb_replay.specs.Telling.{AdmitsAsTold, AreTold, admitted_as_told};
ghost use Rattle.krb_replay.specs.Clock.{clock_refusal};
ghost use Rattle.krb_replay.specs.Gate.{Run};
ghost use Rattle.krb_replay.specs.History.{History};
ghost use Rattle.krb_replay.specs.Book.{Book, Follows, StandsFor, NeedsRoom};
ghost use Rattle.krb_replay.specs.Blocks.{flat, AllNone, IsHeld};
ghost use Rattle.krb_replay.specs.Runs.{verdicts_of, history_past, IsNeverAbove, admitted_of};

use crate::ask::Ask;
use crate::cache::AuthenticatorCacheRecord;
use crate::gate::ReplayGate;
use crate::record::Record;
use std::hash::Hash;

/// Over every list of asks, moments that fall back among them, a book answers as the book that never forgets, and keeps
/// exactly its window.
pub fn books_never_forget()
    ensures verdicts { (old new : Book) (asks : List Ask) (verdicts : List Verdict) (h : History)
        → StandsFor old h → Run (Follows StandsFor) old asks verdicts new → verdicts ≡ verdicts_of old.skew h asks }
    ensures stands { (old new : Book) (asks : List Ask) (verdicts : List Verdict) (h : History)
        → StandsFor old h → Run (Follows StandsFor) old asks verdicts new → StandsFor new (history_past old.skew h asks) }
{}

/// A book that has room for n records, as a new one has after `reserve(n)`, never runs out of memory over a list of asks whose
/// window never holds more than n: after any of them, the next is answered.
pub fn room_lasts()
    ensures { (n : ℕ) (old mid : Book) (asks : List Ask) (verdicts : List Verdict) (ask : Ask) (h : History)
        → StandsFor old h → Run (Follows StandsFor) old asks verdicts mid → n ≤ old.spare + length old.kept
        → IsNeverAbove n old.skew h (asks ++ ask ∷ []) → NeedsRoom mid ask → ⊥ }
{}

/// Whatever the gate, from what every gate owes alone: a list of calls leaves the skew, and where a call admits, the clock
/// refuses nothing of its ask at the moment that the gate judged by, which is no earlier than the asked one.
pub fn gates_judge_by_the_clock<G: ReplayGate>()
    ensures skew { (old new : G) (asks : List Ask) (verdicts : List Verdict)
        → Run G.admits old asks verdicts new → G.skew new ≡ G.skew old }
    ensures in_time { (old new : G) (ask : Ask) → G.admits old ask Admitted new → clock_refusal (G.skew old) (G.moment new) ask ≡ None }
    ensures reached { (old new : G) (ask : Ask) (verdict : Verdict) → G.admits old ask verdict new → ask.moment ≤ G.moment new }
{}

/// No record is admitted twice: those that were admitted before a list of asks, and those that are admitted in it, are
/// distinct.
pub fn records_are_admitted_once()
    ensures by_the_history { (skew : ℕ) (h : History) (asks : List Ask)
        → IsDistinct h.admitted → IsDistinct (h.admitted ++ admitted_of asks (verdicts_of skew h asks)) }
    ensures by_a_book { (old new : Book) (asks : List Ask) (verdicts : List Verdict) (h : History)
        → StandsFor old h → Run (Follows StandsFor) old asks verdicts new → IsDistinct (h.admitted ++ admitted_of asks verdicts) }
{}

/// A telling gate admits only the ask that the store was asked about, and only if the store did not have its record. Over every
/// list of asks it admits nothing, or this one record.
pub fn telling_gates_admit_once()
    ensures only { (old new : TellingGate) (ask : Ask) → AdmitsAsTold old ask Admitted new
        → (old.seen ≡ false) × (ask ≡ old.told) × (new.seen ≡ true) }
    ensures once { (old new : TellingGate) (asks : List Ask) (verdicts : List Verdict) → Run AdmitsAsTold old asks verdicts new
        → (admitted_of asks verdicts ≡ []) ⊎ (admitted_of asks verdicts ≡ old.told.entry ∷ []) }
{}

/// Over all gates that one store has told, whoever asked it, no record is admitted twice.
pub fn stores_admit_records_once()
    ensures { (skew time : ℕ) (stored : List Record) (gates : List TellingGate)
        → AreTold skew time stored gates → IsDistinct (admitted_as_told gates) }
{}

/// Two records are equal exactly where all their parts are, and their order agrees with that and goes by time first.
pub fn records_compare_by_their_parts()
    ensures eq { (a b : Record) → ⟦<Record as PartialEq>⟧.eq a b ≡ record_eq a b }
    ensures same { (a b : Record) → IsTrue (⟦<Record as PartialEq>⟧.eq a b) ↔ (a ≡ b) }
    ensures cmp { (a b : Record) → ⟦<Record as Ord>⟧.cmp a b ≡ record_cmp a b }
    ensures ties { (a b : Record) → ⟦<Record as PartialEq>⟧.eq a b ≡ is_eq (⟦<Record as Ord>⟧.cmp a b) }
    ensures time_first { (a b : Record) → int_cmp a.ctime b.ctime ≡ Less → ⟦<Record as Ord>⟧.cmp a b ≡ Less }
    ensures hash { (a b : Record)
        → IsTrue (⟦<Record as PartialEq>⟧.eq a b) → ⟦<Record as Hash>⟧.hash_input a ≡ ⟦<Record as Hash>⟧.hash_input b }
{}

/// Two asks are equal exactly where all their parts are.
pub fn asks_compare_by_their_parts()
    ensures eq { (a b : Ask) → ⟦<Ask as PartialEq>⟧.eq a b ≡ ask_eq a b }
    ensures same { (a b : Ask) → IsTrue (⟦<Ask as PartialEq>⟧.eq a b) ↔ (a ≡ b) }
{}

/// Two of the cache's records are equal exactly where all four fields are, and equal ones hash equally.
pub fn cache_records_compare_by_their_fields()
    ensures eq { (a b : AuthenticatorCacheRecord) → ⟦<AuthenticatorCacheRecord as PartialEq>⟧.eq a b ≡ cache_eq a b }
    ensures same { (a b : AuthenticatorCacheRecord) → IsTrue (⟦<AuthenticatorCacheRecord as PartialEq>⟧.eq a b) ↔ (a ≡ b) }
    ensures hash { (a b : AuthenticatorCacheRecord) → IsTrue (⟦<AuthenticatorCacheRecord as PartialEq>⟧.eq a b)
        → ⟦<AuthenticatorCacheRecord as Hash>⟧.hash_input a ≡ ⟦<AuthenticatorCacheRecord as Hash>⟧.hash_input b }
{}

/// A book is its skew, its moment and its records, and nothing more: two with the same three are equal, so a book has no hidden list
/// that only grows. Its records are their blocks, the spare ones, which are empty, and how many records there are; and
/// a block is a list of records.
pub fn books_hold_nothing_else()
    ensures book { (a b : Inside) → a.skew ≡ b.skew → a.moment ≡ b.moment → a.records ≡ b.records → a ≡ b }
    ensures blocks { (a b : of_blocks.Inside) → a.blocks ≡ b.blocks → a.spare ≡ b.spare → a.len ≡ b.len → a ≡ b }
    ensures block { (a b : of_block.Inside) → a.records ≡ b.records → a ≡ b }
    ensures spare { (a : of_blocks.Inside) (m n : ℕ) → IsHeld a.blocks.items a.spare.items a.len m n → AllNone a.spare.items }
    ensures len { (a : of_blocks.Inside) (m n : ℕ) → IsHeld a.blocks.items a.spare.items a.len m n → a.len ≡ length (flat a.blocks.items) }
{}
