//! Reading.

ghost use Rattle.std.specs.Prelude.{◌≡◌, ◌++◌, ◌∷◌, length, IfOk, IfErr, OnOk};
ghost use Rattle.std.specs.Option.{option_to_list};
ghost use Rattle.std.specs.Int.{w16, w32};
ghost use Rattle.krb_der.specs.Layout.{Reads};
ghost use Rattle.krb_der.specs.Reading.{cut};
ghost use Rattle.krb_keytab.specs.Format.{version_of, Spells, IsFault};
ghost use Rattle.krb_keytab.specs.Reading.{number_at, octet_at, counted_at, part_at, parts_at, tail_in, entry_in, entry_next, hole_next, sized_next, next_of};
ghost use Rattle.krb_keytab.specs.Views.{tail_view, next_view, TakesItem};

use crate::entry::KeytabEntry;
use crate::error::KeytabError;
use krb_der::{Fault, Items, Name, Octets, OutOfMemory};
use sspi_core::Secret;
use std::alloc::Global;

fn u16_at(octets: &[u8]) -> Result<(u16, &[u8]), Fault>
    ensures { Reads (λ x. (x.0, x.1.now)) result (number_at w16 octets.now) }
{
    if octets.len() < 2 {
        return Err(Fault::Shape);
    }
    let (front, rest) = octets.split_at(2);
    Ok((u16::from_be_bytes([front[0], front[1]]), rest))
}

fn u32_at(octets: &[u8]) -> Result<(u32, &[u8]), Fault>
    ensures { Reads (λ x. (x.0, x.1.now)) result (number_at w32 octets.now) }
{
    if octets.len() < 4 {
        return Err(Fault::Shape);
    }
    let (front, rest) = octets.split_at(4);
    Ok((
        u32::from_be_bytes([front[0], front[1], front[2], front[3]]),
        rest,
    ))
}

fn octet_at(octets: &[u8]) -> Result<(u8, &[u8]), Fault>
    ensures { Reads (λ x. (x.0, x.1.now)) result (octet_at octets.now) }
{
    match octets {
        [] => Err(Fault::Shape),
        [first, rest @ ..] => Ok((*first, rest)),
    }
}

/// Returns this number of bytes, and what follows them.
fn cut(octets: &[u8], size: usize) -> Result<(&[u8], &[u8]), Fault>
    ensures { Reads (λ x. (x.0.now, x.1.now)) result (cut size octets.now) }
{
    if octets.len() < size {
        return Err(Fault::Shape);
    }
    Ok(octets.split_at(size))
}

/// Returns the bytes after their length of two bytes, and what follows them.
#[tactic(auto, unfolding(crate::specs::Reading::counted_at))]
fn counted_at(octets: &[u8]) -> Result<(&[u8], &[u8]), Fault>
    ensures { Reads (λ x. (x.0.now, x.1.now)) result (counted_at octets.now) }
{
    let (size, rest) = u16_at(octets)?;
    cut(rest, usize::from(size))
}

/// A realm or a component.
#[tactic(auto, unfolding(crate::specs::Reading::part_at))]
fn part_at(alloc: Global, octets: &[u8]) -> Result<(Name, &[u8]), Fault>
    ensures { Reads (λ x. (x.0, x.1.now)) result (part_at octets.now) }
{
    let (part, rest) = counted_at(octets)?;
    match Name::new(Vec::from_slice(alloc, part)?) {
        Some(name) => Ok((name, rest)),
        None => Err(Fault::Shape),
    }
}

/// Reads this number of components.
fn parts_at(alloc: Global, count: u16, octets: &[u8]) -> Result<(Items<Name>, &[u8]), Fault>
    ensures { Reads (λ x. (x.0, x.1.now)) result (parts_at count octets.now) }
{
    let mut parts = Vec::new(alloc);
    let mut rest = octets;
    for _ in 0..count {
        let (part, behind) = part_at(alloc, rest)?;
        parts.push(part)?;
        rest = behind;
    }
    Ok((Items::new(parts), rest))
}

/// Returns the version of an entry, from its single byte and from what follows its key.
fn version(short: u8, behind: &[u8]) -> u32
    ensures { result ≡ version_of short behind.now }
{
    if behind.len() < 4 {
        return u32::from(short);
    }
    let long = u32::from_be_bytes([behind[0], behind[1], behind[2], behind[3]]);
    if long == 0 { u32::from(short) } else { long }
}

/// The fields after the names of an entry.
#[derive(Clone, Copy)]
pub struct Tail<'a> {
    name_type: u32,
    time: u32,
    version: u32,
    key_type: u16,
    key: &'a [u8],
}

#[tactic(auto, unfolding(crate::specs::Reading::tail_in))]
fn tail_in(octets: &[u8]) -> Result<Tail<'_>, Fault>
    ensures { Reads tail_view result (tail_in octets.now) }
{
    let (name_type, rest) = u32_at(octets)?;
    let (time, rest) = u32_at(rest)?;
    let (short, rest) = octet_at(rest)?;
    let (key_type, rest) = u16_at(rest)?;
    let (key, behind) = counted_at(rest)?;
    Ok(Tail {
        name_type,
        time,
        version: version(short, behind),
        key_type,
        key,
    })
}

/// The entry that all of the octets are.
#[tactic(auto, unfolding(crate::specs::Reading::entry_in))]
fn entry_in(alloc: Global, octets: &[u8]) -> Result<KeytabEntry, Fault>
    ensures { Reads (λ entry. entry) result (entry_in octets.now) }
{
    let (count, rest) = u16_at(octets)?;
    let (realm, rest) = part_at(alloc, rest)?;
    let (components, rest) = parts_at(alloc, count, rest)?;
    let tail = tail_in(rest)?;
    let key = Octets::from_slice(alloc, tail.key)?;
    Ok(KeytabEntry {
        realm,
        components,
        name_type: tail.name_type,
        time: tail.time,
        version: tail.version,
        key_type: tail.key_type,
        key: Secret::new(key),
    })
}

/// The front of a file.
#[derive(Drop)]
pub enum Next<'a> {
    /// The file ends there.
    End,
    /// An entry, or None for a hole; and what follows it.
    Item(Option<KeytabEntry>, &'a [u8]),
}

#[tactic(auto, unfolding(crate::specs::Reading::entry_next))]
fn entry_next(alloc: Global, size: usize, octets: &[u8]) -> Result<Next<'_>, Fault>
    ensures { Reads next_view result (entry_next size octets.now) }
{
    let (body, rest) = cut(octets, size)?;
    let entry = entry_in(alloc, body)?;
    Ok(Next::Item(Some(entry), rest))
}

#[tactic(auto, unfolding(crate::specs::Reading::hole_next))]
fn hole_next(size: usize, octets: &[u8]) -> Result<Next<'_>, Fault>
    ensures { Reads next_view result (hole_next size octets.now) }
{
    let (_hole, rest) = cut(octets, size)?;
    Ok(Next::Item(None, rest))
}

#[tactic(auto, unfolding(crate::specs::Reading::sized_next))]
fn sized_next(alloc: Global, size: u32, octets: &[u8]) -> Result<Next<'_>, Fault>
    ensures { Reads next_view result (sized_next size octets.now) }
{
    if size == 0 {
        Ok(Next::End)
    } else if size < 1 << 31 {
        entry_next(alloc, size as usize, octets)
    } else {
        hole_next((1 << 32) - size as usize, octets)
    }
}

#[tactic(auto, unfolding(crate::specs::Reading::next_of))]
fn next_of(alloc: Global, octets: &[u8]) -> Result<Next<'_>, Fault>
    ensures { Reads next_view result (next_of octets.now) }
{
    if octets.is_empty() {
        return Ok(Next::End);
    }
    let (size, rest) = u32_at(octets)?;
    sized_next(alloc, size, rest)
}

fn push_some(entries: &mut Vec<KeytabEntry>, entry: Option<KeytabEntry>) -> Result<(), OutOfMemory>
    ensures { OnOk result (entries.new.items ≡ entries.old.items ++ option_to_list entry) }
{
    if let Some(entry) = entry {
        entries.push(entry)?;
    }
    Ok(())
}

/// Takes the item at the front, which is at this place, and returns what follows it; None if the file ends.
fn take_item<'a>(
    alloc: Global,
    entries: &mut Vec<KeytabEntry>,
    octets: &'a [u8],
    place: usize,
) -> Result<Option<&'a [u8]>, KeytabError>
    ensures { TakesItem octets.now place entries.old.items result entries.new.items }
{
    match next_of(alloc, octets) {
        Ok(Next::End) => Ok(None),
        Ok(Next::Item(entry, rest)) => {
            push_some(entries, entry)?;
            Ok(Some(rest))
        }
        Err(Fault::Shape) => Err(KeytabError::Entry { place }),
        Err(Fault::OutOfMemory) => Err(KeytabError::OutOfMemory),
    }
}

/// Reads the entries of a file, from after its version on.
pub fn read_items(alloc: Global, body: &[u8]) -> Result<Vec<KeytabEntry>, KeytabError>
    ensures found { IfOk result (λ entries. Spells entries.items (5 ∷ 2 ∷ body.now)) }
    ensures refused { IfErr result (λ error. IsFault error (5 ∷ 2 ∷ body.now)) }
{
    let mut entries = Vec::new(alloc);
    let mut rest = body;
    loop {
        let place = 2 + (body.len() - rest.len());
        let Some(behind) = take_item(alloc, &mut entries, rest, place)? else {
            return Ok(entries);
        };
        rest = behind;
    }
}
