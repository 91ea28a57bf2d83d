//! Records in their order, in blocks.

ghost use Rattle.std.specs.Prelude.{◌≡◌, ◌+◌, ◌<◌, ◌≤◌, [], ◌∷◌, ◌++◌, false, length, drop, OnOk, OnErr, IsTrue, IsFalse, vec_capacity};
ghost use Rattle.std.specs.List.{filter};
ghost use Rattle.std.specs.VecDeque.{deque_capacity};
ghost use Rattle.krb_replay.specs.Records.{has_record};
ghost use Rattle.krb_replay.specs.Clock.{is_current};
ghost use Rattle.krb_replay.specs.Order.{Ascends, is_front_stale, place};
ghost use Rattle.krb_replay.specs.Blocks.{flat, are_below, has_room, AllNone, IsBlockOf, IsRecut, Filled, room_of};

use crate::block::Block;
use crate::record::Record;
use krb_der::OutOfMemory;
use std::alloc::Global;
use std::collections::VecDeque;
use std::marker::Model;

/// How many records each block between the first and the last has at least.
const HALF: usize = 256;

/// Records in their order, each once, cut into blocks, and spare blocks. Contracts see the records, and how many more the
/// blocks at hand hold, however the records are cut.
#[derive(Drop)]
pub struct Blocks {
    blocks: VecDeque<Block>,
    spare: Vec<Block>,
    len: usize,
}

impl Model for Blocks {
    ghost use Rattle.std.specs.Prelude.{◌≡◌, ◌+◌, ◌-◌, ◌≤◌, length, vec_capacity};
    ghost use Rattle.std.specs.VecDeque.{deque_capacity};
    ghost use Rattle.krb_replay.specs.Blocks.{Kept, flat, IsHeld, room_of};

    ghost Value = { Kept };

    ghost view = { λ b. record { items = flat b.blocks.items; spare = room_of (length b.blocks.items + length b.spare.items) - length (flat b.blocks.items) } };

    ghost invariant = { λ b. IsHeld b.blocks.items b.spare.items b.len (deque_capacity b.blocks) (vec_capacity b.spare) };
}

impl Blocks {
    /// No records, and no block.
    pub fn new(alloc: Global) -> Blocks
        ensures { result.items ≡ [] }
    {
        Blocks {
            blocks: VecDeque::new(alloc),
            spare: Vec::new(alloc),
            len: 0,
        }
    }

    pub fn len(&self) -> usize
        ensures { result ≡ length self.now.items }
    {
        self.len
    }

    /// Makes room for `records` more records.
    pub fn reserve(&mut self, records: usize) -> Result<(), OutOfMemory>
        ensures room { OnOk result (records ≤ self.new.spare) }
        ensures items { self.new.items ≡ self.old.items }
        ensures spare { self.old.spare ≤ self.new.spare }
    {
        match self.len.checked_add(records) {
            Some(all) => take_blocks(&mut self.blocks, &mut self.spare, all),
            None => Err(OutOfMemory),
        }
    }

    /// Drops the records that are no longer current, and makes room for one more. Out of memory, nothing is dropped.
    pub fn make_room(&mut self, skew: u32, moment: u64) -> Result<(), OutOfMemory>
        ensures items { OnOk result (self.new.items ≡ filter (is_current skew moment) self.old.items) }
        ensures room { OnOk result (0 < self.new.spare) }
        ensures all { self.old.spare + length self.old.items ≤ self.new.spare + length self.new.items }
        ensures same { OnErr result (self.new.items ≡ self.old.items) }
        ensures full { OnErr result (self.old.spare + length self.old.items ≤ length (filter (is_current skew moment) self.old.items)) }
    {
        if self.is_full(skew, moment) {
            self.reserve(1)?;
        }
        self.prune(skew, moment);
        Ok(())
    }

    /// Returns whether the records fill their room, and all stay current.
    fn is_full(&self, skew: u32, moment: u64) -> bool
        ensures full { IsTrue result → (self.now.spare ≡ 0) × (filter (is_current skew moment) self.now.items ≡ self.now.items) }
        ensures room { IsFalse result → length (filter (is_current skew moment) self.now.items) < self.now.spare + length self.now.items }
    {
        self.len == room(&self.blocks, &self.spare) && !is_front_stale(&self.blocks, skew, moment)
    }

    /// Returns whether an equal record is kept. The newest records come last, so the last one is compared first.
    pub fn contains(&self, entry: &Record) -> bool
        ensures { result ≡ has_record self.now.items entry.now }
    {
        if are_below(&self.blocks, entry) {
            return false;
        }
        self.blocks[block_of(&self.blocks, entry)].contains(entry)
    }

    /// Drops the records that are no longer current.
    pub fn prune(&mut self, skew: u32, moment: u64)
        ensures items { self.new.items ≡ filter (is_current skew moment) self.old.items }
        ensures room { self.new.spare + length self.new.items ≡ self.old.spare + length self.old.items }
    {
        self.len = prune(&mut self.blocks, &mut self.spare, self.len, skew, moment);
    }

    /// Puts a record that is not there in its place, for which there is room.
    pub fn insert(&mut self, entry: Record)
        requires absent { has_record self.old.items entry ≡ false }
        requires room { 0 < self.old.spare }
        ensures items { self.new.items ≡ place self.old.items entry }
        ensures room { self.new.spare + length self.new.items ≡ self.old.spare + length self.old.items }
    {
        put(&mut self.blocks, &mut self.spare, entry);
        self.len += 1;
    }
}

/// How many records the blocks hold, however they are cut.
fn room(blocks: &VecDeque<Block>, spare: &Vec<Block>) -> usize
    requires { length blocks.now.items + length spare.now.items ≤ deque_capacity blocks.now }
    ensures { result ≡ room_of (length blocks.now.items + length spare.now.items) }
{
    (blocks.len() + spare.len())
        .saturating_sub(2)
        .saturating_mul(HALF)
}

/// Allocates the blocks that `records` records can need.
fn take_blocks(
    blocks: &mut VecDeque<Block>,
    spare: &mut Vec<Block>,
    records: usize,
) -> Result<(), OutOfMemory>
    requires blocks_room { length blocks.old.items + length spare.old.items ≤ deque_capacity blocks.old }
    requires spare_room { length blocks.old.items + length spare.old.items ≤ vec_capacity spare.old }
    requires none { AllNone spare.old.items }
    ensures items { blocks.new.items ≡ blocks.old.items }
    ensures none { AllNone spare.new.items }
    ensures more { length spare.old.items ≤ length spare.new.items }
    ensures blocks_room { length blocks.new.items + length spare.new.items ≤ deque_capacity blocks.new }
    ensures spare_room { length blocks.new.items + length spare.new.items ≤ vec_capacity spare.new }
    ensures ok { OnOk result (records ≤ room_of (length blocks.new.items + length spare.new.items)) }
    ensures full { OnErr result (room_of (length blocks.old.items + length spare.old.items) < records) }
{
    if records <= room(blocks, spare) {
        return Ok(());
    }
    let all = records / HALF + 3;
    let wanted = all.saturating_sub(blocks.len());
    blocks.reserve(wanted)?;
    spare.reserve(all)?;
    fill_spare(spare, *blocks.allocator(), wanted)
}

/// Allocates blocks until there are `wanted` spare ones.
fn fill_spare(spare: &mut Vec<Block>, alloc: Global, wanted: usize) -> Result<(), OutOfMemory>
    requires room { wanted ≤ vec_capacity spare.old }
    requires fewer { length spare.old.items ≤ wanted }
    requires none { AllNone spare.old.items }
    ensures none { AllNone spare.new.items }
    ensures more { length spare.old.items ≤ length spare.new.items }
    ensures no_more { length spare.new.items ≤ wanted }
    ensures ok { OnOk result (wanted ≤ length spare.new.items) }
    ensures capacity { vec_capacity spare.new ≡ vec_capacity spare.old }
{
    while spare.len() < wanted {
        spare.push_reserved(Block::new(alloc)?);
    }
    Ok(())
}

/// Returns whether each record is less than this one.
fn are_below(blocks: &VecDeque<Block>, entry: &Record) -> bool
    ensures { result ≡ are_below entry.now blocks.now.items }
{
    match blocks.back() {
        Some(last) => last.ends_below(entry),
        None => true,
    }
}

/// The block that has the record or its place: the first that does not end below it.
fn block_of(blocks: &VecDeque<Block>, entry: &Record) -> usize
    requires ordered { Ascends (flat blocks.now.items) }
    requires filled { Filled 1 blocks.now.items }
    requires within { are_below entry.now blocks.now.items ≡ false }
    ensures { IsBlockOf entry.now blocks.now.items result }
{
    let mut low = 0;
    let mut high = blocks.len() - 1;
    while low < high {
        let middle = low + (high - low) / 2;
        if blocks[middle].ends_below(entry) {
            low = middle + 1;
        } else {
            high = middle;
        }
    }
    low
}

/// Returns whether the oldest record is no longer current.
fn is_front_stale(blocks: &VecDeque<Block>, skew: u32, moment: u64) -> bool
    requires { Filled 1 blocks.now.items }
    ensures { result ≡ is_front_stale skew moment (flat blocks.now.items) }
{
    match blocks.front() {
        Some(first) => first.is_front_stale(skew, moment),
        None => false,
    }
}

/// Drops the records that are no longer current, and answers how many stay.
fn prune(
    blocks: &mut VecDeque<Block>,
    spare: &mut Vec<Block>,
    len: usize,
    skew: u32,
    moment: u64,
) -> usize
    requires ordered { Ascends (flat blocks.old.items) }
    requires filled { Filled 1 blocks.old.items }
    requires none { AllNone spare.old.items }
    requires len { len ≡ length (flat blocks.old.items) }
    requires room { length blocks.old.items + length spare.old.items ≤ vec_capacity spare.old }
    ensures recut { IsRecut blocks.old.items spare.old.items blocks.new.items spare.new.items (filter (is_current skew moment) (flat blocks.old.items)) }
    ensures len { result ≡ length (flat blocks.new.items) }
    ensures blocks_room { deque_capacity blocks.new ≡ deque_capacity blocks.old }
    ensures spare_room { vec_capacity spare.new ≡ vec_capacity spare.old }
{
    let mut kept = len;
    while is_front_stale(blocks, skew, moment) {
        pop_front(blocks, spare);
        kept -= 1;
    }
    kept
}

/// Drops the oldest record. A block that it leaves empty becomes a spare one.
fn pop_front(blocks: &mut VecDeque<Block>, spare: &mut Vec<Block>)
    requires filled { Filled 1 blocks.old.items }
    requires none { AllNone spare.old.items }
    requires room { length blocks.old.items + length spare.old.items ≤ vec_capacity spare.old }
    ensures recut { IsRecut blocks.old.items spare.old.items blocks.new.items spare.new.items (drop 1 (flat blocks.old.items)) }
    ensures blocks_room { deque_capacity blocks.new ≡ deque_capacity blocks.old }
    ensures spare_room { vec_capacity spare.new ≡ vec_capacity spare.old }
{
    if let Some(first) = blocks.front_mut() {
        first.pop_front();
        if first.is_empty() {
            if let Some(first) = blocks.pop_front() {
                spare.push_reserved(first);
            }
        }
    }
}

/// Puts a record that is not there in its place.
fn put(blocks: &mut VecDeque<Block>, spare: &mut Vec<Block>, entry: Record)
    requires ordered { Ascends (flat blocks.old.items) }
    requires filled { Filled 1 blocks.old.items }
    requires none { AllNone spare.old.items }
    requires more { 0 < length spare.old.items }
    requires room { length blocks.old.items + length spare.old.items ≤ deque_capacity blocks.old }
    requires absent { has_record (flat blocks.old.items) entry ≡ false }
    ensures recut { IsRecut blocks.old.items spare.old.items blocks.new.items spare.new.items (place (flat blocks.old.items) entry) }
    ensures blocks_room { deque_capacity blocks.old ≤ deque_capacity blocks.new }
    ensures spare_room { vec_capacity spare.new ≡ vec_capacity spare.old }
{
    if are_below(blocks, &entry) {
        push(blocks, spare, entry);
    } else {
        let index = block_of(blocks, &entry);
        insert(blocks, spare, index, entry);
    }
}

/// Puts a record after all others, in a new block if the last one is full.
fn push(blocks: &mut VecDeque<Block>, spare: &mut Vec<Block>, entry: Record)
    requires filled { Filled 1 blocks.old.items }
    requires none { AllNone spare.old.items }
    requires more { 0 < length spare.old.items }
    requires room { length blocks.old.items + length spare.old.items ≤ deque_capacity blocks.old }
    ensures recut { IsRecut blocks.old.items spare.old.items blocks.new.items spare.new.items (flat blocks.old.items ++ entry ∷ []) }
    ensures blocks_room { deque_capacity blocks.new ≡ deque_capacity blocks.old }
    ensures spare_room { vec_capacity spare.new ≡ vec_capacity spare.old }
{
    if has_room(blocks) {
        if let Some(last) = blocks.back_mut() {
            last.push(entry);
        }
    } else if let Some(mut block) = spare.pop() {
        block.push(entry);
        blocks.push_back_reserved(block);
    }
}

/// Returns whether there is a last block, and it has room.
fn has_room(blocks: &VecDeque<Block>) -> bool
    ensures { result ≡ has_room blocks.now.items }
{
    match blocks.back() {
        Some(last) => !last.is_full(),
        None => false,
    }
}

/// Puts a record in its place in this block, which is split where it is full.
fn insert(blocks: &mut VecDeque<Block>, spare: &mut Vec<Block>, index: usize, entry: Record)
    requires ordered { Ascends (flat blocks.old.items) }
    requires filled { Filled 1 blocks.old.items }
    requires none { AllNone spare.old.items }
    requires more { 0 < length spare.old.items }
    requires room { length blocks.old.items + length spare.old.items ≤ deque_capacity blocks.old }
    requires place { IsBlockOf entry blocks.old.items index }
    requires absent { has_record (flat blocks.old.items) entry ≡ false }
    ensures recut { IsRecut blocks.old.items spare.old.items blocks.new.items spare.new.items (place (flat blocks.old.items) entry) }
    ensures blocks_room { deque_capacity blocks.old ≤ deque_capacity blocks.new }
    ensures spare_room { vec_capacity spare.new ≡ vec_capacity spare.old }
{
    if !blocks[index].is_full() {
        blocks[index].insert(entry);
    } else if let Some(mut upper) = spare.pop() {
        insert_halved(&mut blocks[index], &mut upper, entry);
        blocks.insert(index + 1, upper).unwrap();
    }
}

/// Splits a full block, and puts the record in the half that has its place.
fn insert_halved(block: &mut Block, upper: &mut Block, entry: Record)
    requires ordered { Ascends block.old }
    requires absent { has_record block.old entry ≡ false }
    requires full { 512 ≤ length block.old }
    requires none { upper.old ≡ [] }
    ensures all { block.new ++ upper.new ≡ place block.old entry }
    ensures lower { 256 ≤ length block.new }
    ensures upper { 256 ≤ length upper.new }
{
    block.split(upper);
    if block.ends_below(&entry) {
        upper.insert(entry);
    } else {
        block.insert(entry);
    }
}
