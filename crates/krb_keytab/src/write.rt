//! Writing.

ghost use Rattle.std.specs.Prelude.{◌≡◌, ◌++◌, ◌<◌, ◌^◌, true, length, IfOk, OnOk};
ghost use Rattle.std.specs.List.{flat_map, list_all};
ghost use Rattle.std.specs.Int.{w16, w32, to_be_bytes};
ghost use Rattle.krb_keytab.specs.Writing.{names_octets, tail_octets};
ghost use Rattle.krb_keytab.specs.Format.{counted, is_short, sizes, size_of, has_short_parts, can_be_written, can_all_be_written, written_entry, written_item, written};

use crate::entry::KeytabEntry;
use krb_der::{Name, Octets, OutOfMemory};
use std::alloc::Global;

fn put_u16(out: &mut Vec<u8>, number: u16) -> Result<(), OutOfMemory>
    ensures { OnOk result (out.new.items ≡ out.old.items ++ to_be_bytes w16 number) }
{
    out.extend_from_slice(&number.to_be_bytes())?;
    Ok(())
}

fn put_u32(out: &mut Vec<u8>, number: u32) -> Result<(), OutOfMemory>
    ensures { OnOk result (out.new.items ≡ out.old.items ++ to_be_bytes w32 number) }
{
    out.extend_from_slice(&number.to_be_bytes())?;
    Ok(())
}

/// Appends bytes after their length.
fn put_counted(out: &mut Vec<u8>, octets: &[u8]) -> Result<(), OutOfMemory>
    requires { length octets.now < 2 ^ 16 }
    ensures { OnOk result (out.new.items ≡ out.old.items ++ counted octets.now) }
{
    put_u16(out, octets.len() as u16)?;
    out.extend_from_slice(octets)?;
    Ok(())
}

fn put_parts(out: &mut Vec<u8>, parts: &[Name]) -> Result<(), OutOfMemory>
    requires { list_all is_short parts.now ≡ true }
    ensures { OnOk result (out.new.items ≡ out.old.items ++ flat_map counted parts.now) }
{
    for part in parts {
        put_counted(out, part.as_slice())?;
    }
    Ok(())
}

/// Appends the names of an entry.
fn put_names(out: &mut Vec<u8>, entry: &KeytabEntry) -> Result<(), OutOfMemory>
    requires { has_short_parts entry.now ≡ true }
    ensures { OnOk result (out.new.items ≡ out.old.items ++ names_octets entry.now) }
{
    put_u16(out, entry.components.as_slice().len() as u16)?;
    put_counted(out, entry.realm.as_slice())?;
    put_parts(out, entry.components.as_slice())
}

/// Appends the fields after the names of an entry.
fn put_tail(out: &mut Vec<u8>, entry: &KeytabEntry) -> Result<(), OutOfMemory>
    requires { has_short_parts entry.now ≡ true }
    ensures { OnOk result (out.new.items ≡ out.old.items ++ tail_octets entry.now) }
{
    put_u32(out, entry.name_type)?;
    put_u32(out, entry.time)?;
    out.push((entry.version % 256) as u8)?;
    put_u16(out, entry.key_type)?;
    put_counted(out, entry.key.as_ref().as_slice())?;
    put_u32(out, entry.version)
}

fn put_entry(out: &mut Vec<u8>, entry: &KeytabEntry) -> Result<(), OutOfMemory>
    requires { has_short_parts entry.now ≡ true }
    ensures { OnOk result (out.new.items ≡ out.old.items ++ written_entry entry.now) }
{
    put_names(out, entry)?;
    put_tail(out, entry)
}

fn entry_octets(alloc: Global, entry: &KeytabEntry) -> Result<Octets, OutOfMemory>
    requires { has_short_parts entry.now ≡ true }
    ensures { IfOk result (λ octets. octets ≡ written_entry entry.now) }
{
    let mut out = Vec::new(alloc);
    put_entry(&mut out, entry)?;
    Ok(Octets::new(out))
}

/// Appends an entry after its size.
fn put_item(alloc: Global, out: &mut Vec<u8>, entry: &KeytabEntry) -> Result<(), OutOfMemory>
    requires { can_be_written entry.now ≡ true }
    ensures { OnOk result (out.new.items ≡ out.old.items ++ written_item entry.now) }
{
    let octets = entry_octets(alloc, entry)?;
    put_u32(out, octets.as_slice().len() as u32)?;
    out.extend_from_slice(octets.as_slice())?;
    Ok(())
}

fn is_short(octets: &[u8]) -> bool
    ensures { result ≡ is_short octets.now }
{
    octets.len() < 1 << 16
}

fn is_short_name(name: &Name) -> bool
    ensures { result ≡ is_short name.now }
{
    is_short(name.as_slice())
}

fn are_short(parts: &[Name]) -> bool
    ensures { result ≡ list_all is_short parts.now }
{
    parts.iter().all(|part| is_short_name(part))
}

/// Returns the number of bytes of components, each after its length.
fn sizes(parts: &[Name]) -> usize
    requires short { list_all is_short parts.now ≡ true }
    requires count { length parts.now < 2 ^ 16 }
    ensures value { result ≡ sizes parts.now }
    ensures bound { result < 2 ^ 33 }
{
    let mut size = 0;
    for part in parts {
        size += 2 + part.as_slice().len();
    }
    size
}

fn has_short_parts(entry: &KeytabEntry) -> bool
    ensures { result ≡ has_short_parts entry.now }
{
    let components = entry.components.as_slice();
    is_short(entry.realm.as_slice())
        && is_short(entry.key.as_ref().as_slice())
        && components.len() < 1 << 16
        && are_short(components)
}

fn size_of(entry: &KeytabEntry) -> usize
    requires { has_short_parts entry.now ≡ true }
    ensures { result ≡ size_of entry.now }
{
    let ends = 21 + entry.realm.as_slice().len() + entry.key.as_ref().as_slice().len();
    ends + sizes(entry.components.as_slice())
}

/// Returns whether an entry can be written.
pub fn can_be_written(entry: &KeytabEntry) -> bool
    ensures { result ≡ can_be_written entry.now }
{
    has_short_parts(entry) && entry.version != 0 && size_of(entry) < 1 << 31
}

pub fn write_entries(alloc: Global, entries: &[KeytabEntry]) -> Result<Octets, OutOfMemory>
    requires { can_all_be_written entries.now ≡ true }
    ensures { IfOk result (λ octets. octets ≡ written entries.now) }
{
    let mut out = Vec::new(alloc);
    out.extend_from_slice(&[0x05, 0x02])?;
    for entry in entries {
        put_item(alloc, &mut out, entry)?;
    }
    Ok(Octets::new(out))
}
