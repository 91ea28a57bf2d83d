//! Reads lines on two threads before they are taken.

ghost use Rattle.std.specs.Prelude.{◌≡◌, ◌<◌, length, IfOk, IfSome};
ghost use Rattle.krb_text.specs.Cutter.{first_end};
ghost use Rattle.krb_text.specs.Lines.{cut};
ghost use Rattle.krb_input.specs.Ahead.{Declares, AreOf};

use krb_script::{Item, parse_item};
use krb_text::{is_skipped, newline};
use memchr::memchr;
use std::alloc::{AllocError, Global};
use std::marker::Model;
use std::thread::{Threads, join};

/// The number of bytes from which on a second thread is used: one thread reads fewer bytes sooner than a second one starts.
const WORTH_SHARING: usize = 1 << 18;

/// The item that a line declares, on the heap, since each line has a place and most declarations are long. Contracts see the item.
#[derive(Drop)]
pub struct HeldItem {
    item: Box<Item>,
}

impl Model for HeldItem {
    ghost use Rattle.krb_script.specs.declared.item.Item.{Item};

    ghost Value = { Item };

    ghost view = { λ held. held.item.value };
}

impl HeldItem {
    /// Puts an item on the heap.
    fn new(alloc: Global, item: Item) -> Result<HeldItem, AllocError>
        ensures { IfOk result (λ held. held ≡ item) }
    {
        Ok(HeldItem {
            item: Box::new(alloc, item)?,
        })
    }

    pub fn into_item(self) -> Item
        ensures { result ≡ self }
    {
        Box::into_inner(self.item)
    }
}

/// Returns the position of the 0A of the first line.
#[tactic(auto, using(crate::proofs::ReadingLemmas::end_within))]
pub fn line_end(octets: &[u8]) -> Option<usize>
    ensures end { result ≡ first_end octets.now }
    ensures within { IfSome result (λ at. at < length octets.now) }
{
    newline(octets)
}

/// Returns whether the last digit of a line's second word is odd. That word is the connection's number, if the line names one.
fn is_odd(line: &[u8]) -> bool {
    let Some(word) = memchr(b' ', line) else {
        return false;
    };
    let rest = &line[word + 1..];
    match memchr(b' ', rest) {
        Some(end) if end > 0 => rest[end - 1] % 2 == 1,
        _ => false,
    }
}

/// Reads the item of a line, if the line names a connection of this worker.
fn item_for(alloc: Global, odd: bool, line: &[u8]) -> Option<HeldItem>
    ensures { Declares line.now result }
{
    if is_skipped(line) || is_odd(line) != odd {
        return None;
    }
    match parse_item(alloc, line) {
        Ok(item) => HeldItem::new(alloc, item).ok(),
        Err(_) => None,
    }
}

/// Reads the items of the whole lines at the head of these octets that name this worker's connections, each at its line's position.
fn items_for(alloc: Global, odd: bool, octets: &[u8]) -> Vec<Option<HeldItem>>
    ensures { AreOf result.items (cut octets.now).whole }
{
    let mut items = Vec::new(alloc);
    let mut rest = octets;
    'lines: while let Some(end) = line_end(rest) {
        if items.reserve(1).is_err() {
            break;
        }
        items.push_reserved(item_for(alloc, odd, &rest[..end]));
        rest = &rest[end + 1..];
    }
    items
}

/// Reads the items of the whole lines at the head of these octets for both workers, each on its own thread. Reads nothing ahead
/// if there are too few octets.
pub fn items_ahead<R: Threads>(
    rt: &R,
    alloc: Global,
    octets: &[u8],
) -> (Vec<Option<HeldItem>>, Vec<Option<HeldItem>>)
    ensures first { AreOf result.0.items (cut octets.now).whole }
    ensures second { AreOf result.1.items (cut octets.now).whole }
{
    if octets.len() < WORTH_SHARING {
        return (Vec::new(alloc), Vec::new(alloc));
    }
    join(
        rt,
        || -> Vec<Option<HeldItem>>
            ensures { AreOf result.items (cut octets.entry.now).whole }
        { items_for(alloc, false, octets) },
        || -> Vec<Option<HeldItem>>
            ensures { AreOf result.items (cut octets.entry.now).whole }
        { items_for(alloc, true, octets) },
    )
}
