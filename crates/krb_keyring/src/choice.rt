//! The choice of the keys that a ticket is decrypted with.

ghost use Rattle.std.specs.Prelude.{◌≡◌, ◌≤◌, length, map, IfOk, OnOk, nat_lt};
ghost use Rattle.std.specs.List.{position_or_len, list_any};
ghost use Rattle.krb_keyring.specs.Choice.{is_number, fits, is_version, fits_exactly, is_chosen, put, newest_with, chosen_of};

use krb_der::{IntegerAsn1, OutOfMemory};
use krb_keytab::KeytabEntry;
use krb_messages::Ticket;
use std::alloc::Global;

/// Returns whether the INTEGER is this number, in any encoding.
fn is_number(integer: &IntegerAsn1, number: u32) -> bool
    ensures { result ≡ is_number integer.now number }
{
    match integer.value() {
        Some(value) => value == i64::from(number),
        None => false,
    }
}

fn fits(ticket: &Ticket, entry: &KeytabEntry) -> bool
    ensures { result ≡ fits ticket.now entry.now }
{
    entry.realm == ticket.realm && is_number(&ticket.enc_part.etype, u32::from(entry.key_type))
}

fn is_version(kvno: &Option<IntegerAsn1>, version: u32) -> bool
    ensures { result ≡ is_version kvno.now version }
{
    match kvno {
        Some(kvno) => is_number(kvno, version),
        None => false,
    }
}

fn fits_exactly(ticket: &Ticket, entry: &KeytabEntry) -> bool
    ensures { result ≡ fits_exactly ticket.now entry.now }
{
    fits(ticket, entry) && is_version(&ticket.enc_part.kvno, entry.version)
}

/// Returns whether one entry fits exactly.
fn has_exact(ticket: &Ticket, entries: &[KeytabEntry]) -> bool
    ensures { result ≡ list_any (fits_exactly ticket.now) entries.now }
{
    entries.iter().any(|entry| fits_exactly(ticket, entry))
}

fn is_chosen(ticket: &Ticket, exactly: bool, entry: &KeytabEntry) -> bool
    ensures { result ≡ is_chosen ticket.now exactly entry.now }
{
    if exactly {
        fits_exactly(ticket, entry)
    } else {
        fits(ticket, entry)
    }
}

/// Returns the number of entries before the first of a lower version.
fn place_of(newest: &[&KeytabEntry], version: u32) -> usize
    ensures place { result ≡ position_or_len (λ other. nat_lt other.now.version version) newest.now }
    ensures within { result ≤ length newest.now }
{
    for (place, other) in newest.iter().enumerate() {
        if other.version < version {
            return place;
        }
    }
    newest.len()
}

/// Inserts an entry before the first of a lower version.
fn put<'a>(newest: &mut Vec<&'a KeytabEntry>, entry: &'a KeytabEntry) -> Result<(), OutOfMemory>
    ensures { OnOk result (map (λ entry. entry.now) newest.new.items ≡ put entry.now (map (λ entry. entry.now) newest.old.items)) }
{
    let place = place_of(newest.as_slice(), entry.version);
    newest.insert(place, entry)?;
    Ok(())
}

/// Inserts the entry if the ticket chooses it.
fn keep<'a>(
    newest: &mut Vec<&'a KeytabEntry>,
    ticket: &Ticket,
    exactly: bool,
    entry: &'a KeytabEntry,
) -> Result<(), OutOfMemory>
    ensures { OnOk result (map (λ entry. entry.now) newest.new.items
        ≡ newest_with (is_chosen ticket.now exactly) (map (λ entry. entry.now) newest.old.items) entry.now) }
{
    if is_chosen(ticket, exactly, entry) {
        put(newest, entry)?;
    }
    Ok(())
}

/// Returns the entries of a service that its ticket is decrypted with, newest first.
pub(crate) fn chosen_of<'a>(
    alloc: Global,
    ticket: &Ticket,
    entries: &'a [KeytabEntry],
) -> Result<Vec<&'a KeytabEntry>, OutOfMemory>
    ensures { IfOk result (λ chosen. map (λ entry. entry.now) chosen.items ≡ chosen_of ticket.now entries.now) }
{
    let exactly = has_exact(ticket, entries);
    let mut chosen = Vec::new(alloc);
    for entry in entries {
        keep(&mut chosen, ticket, exactly, entry)?;
    }
    Ok(chosen)
}
