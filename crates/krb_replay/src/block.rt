//! One block of records.

ghost use Rattle.std.specs.Prelude.{◌≡◌, ◌<◌, ◌≤◌, [], ◌∷◌, ◌++◌, false, length, drop, nat_le, IfOk};
ghost use Rattle.std.specs.VecDeque.{deque_len, deque_capacity};
ghost use Rattle.krb_replay.specs.Records.{has_record};
ghost use Rattle.krb_replay.specs.Order.{Ascends, is_front_stale, place};
ghost use Rattle.krb_replay.specs.Blocks.{ends_below, is_none};

use crate::clock::is_current;
use crate::record::Record;
use krb_der::OutOfMemory;
use std::alloc::Global;
use std::collections::VecDeque;
use std::marker::Model;

/// How many records a block has room for.
const ROOM: usize = 512;

/// How many stay where a full block is split.
const HALF: usize = 256;

/// A list of records, in memory that never grows. Contracts see the records.
#[derive(Drop)]
pub struct Block {
    records: VecDeque<Record>,
}

impl Model for Block {
    ghost use Rattle.std.specs.Prelude.{◌≤◌, List};
    ghost use Rattle.std.specs.VecDeque.{deque_len, deque_capacity};
    ghost use Rattle.krb_replay.specs.declared.record.Record.{Record};

    ghost Value = { List Record };

    ghost view = { λ b. b.records.items };

    ghost invariant = { λ b. (deque_len b.records ≤ 512) × (512 ≤ deque_capacity b.records) };
}

impl Block {
    pub fn new(alloc: Global) -> Result<Block, OutOfMemory>
        ensures { IfOk result (λ block. block ≡ []) }
    {
        Ok(Block {
            records: VecDeque::with_capacity(alloc, ROOM)?,
        })
    }

    pub fn is_empty(&self) -> bool
        ensures { result ≡ is_none self.now }
    {
        self.records.is_empty()
    }

    pub fn is_full(&self) -> bool
        ensures { result ≡ nat_le 512 (length self.now) }
    {
        self.records.len() >= ROOM
    }

    /// Returns whether the last record is less than this one: true if there is no record.
    pub fn ends_below(&self, entry: &Record) -> bool
        ensures { result ≡ ends_below entry.now self.now }
    {
        match self.records.back() {
            Some(last) => last.cmp(entry).is_lt(),
            None => true,
        }
    }

    /// Returns whether the block contains an equal record.
    pub fn contains(&self, entry: &Record) -> bool
        requires { Ascends self.now }
        ensures { result ≡ has_record self.now entry.now }
    {
        self.records.binary_search(entry).is_ok()
    }

    /// Puts the record after all others.
    pub fn push(&mut self, entry: Record)
        requires { length self.old < 512 }
        ensures { self.new ≡ self.old ++ entry ∷ [] }
    {
        self.records.push_back_reserved(entry);
    }

    /// Puts the record, which is not there, in its place.
    pub fn insert(&mut self, entry: Record)
        requires ordered { Ascends self.old }
        requires absent { has_record self.old entry ≡ false }
        requires room { length self.old < 512 }
        ensures { self.new ≡ place self.old entry }
    {
        if let Err(place) = self.records.binary_search(&entry) {
            self.records.insert(place, entry).unwrap();
        }
    }

    /// Returns whether the first record is no longer current.
    pub fn is_front_stale(&self, skew: u32, moment: u64) -> bool
        ensures { result ≡ is_front_stale skew moment self.now }
    {
        match self.records.front() {
            Some(front) => !is_current(skew, moment, front),
            None => false,
        }
    }

    /// Drops the first record.
    pub fn pop_front(&mut self)
        ensures { self.new ≡ drop 1 self.old }
    {
        self.records.pop_front();
    }

    /// Moves the upper half of a full block into an empty one.
    pub fn split(&mut self, upper: &mut Block)
        requires full { 512 ≤ length self.old }
        requires none { upper.old ≡ [] }
        ensures all { self.new ++ upper.new ≡ self.old }
        ensures lower { length self.new ≡ 256 }
        ensures upper { length upper.new ≡ 256 }
    {
        move_upper(&mut self.records, &mut upper.records);
    }
}

/// Moves the records after the lower half of a full block.
fn move_upper(records: &mut VecDeque<Record>, upper: &mut VecDeque<Record>)
    requires full { deque_len records.old ≡ 512 }
    requires none { upper.old.items ≡ [] }
    requires room { 512 ≤ deque_capacity upper.old }
    ensures all { records.new.items ++ upper.new.items ≡ records.old.items }
    ensures lower { deque_len records.new ≡ 256 }
    ensures capacity { deque_capacity records.new ≡ deque_capacity records.old }
    ensures upper_capacity { deque_capacity upper.new ≡ deque_capacity upper.old }
{
    while records.len() > HALF {
        if let Some(last) = records.pop_back() {
            upper.push_front_reserved(last);
        }
    }
}
