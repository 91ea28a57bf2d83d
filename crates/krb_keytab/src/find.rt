//! Finding an entry.

ghost use Rattle.std.specs.Prelude.{◌≡◌, ◌==◌, option_copied, ℕ};
ghost use Rattle.krb_keytab.specs.Finding.{is_given, is_wanted, greatest, greater};
ghost use Rattle.krb_keytab.specs.Views.{wanted_view};

use crate::entry::KeytabEntry;
use krb_der::{Items, Name};

/// A query for an entry.
#[derive(Clone, Copy)]
pub struct Wanted<'a> {
    pub realm: &'a Name,
    pub components: &'a Items<Name>,
    pub key_type: u16,
    /// None for any version.
    pub version: Option<u32>,
    /// The number of bytes of the key, None for any.
    pub size: Option<usize>,
}

fn is_given_version(given: Option<u32>, version: u32) -> bool
    ensures { result ≡ is_given given version }
{
    match given {
        None => true,
        Some(given) => version == given,
    }
}

fn is_given_size(given: Option<usize>, size: usize) -> bool
    ensures { result ≡ is_given given size }
{
    match given {
        None => true,
        Some(given) => size == given,
    }
}

/// Returns whether the entry matches the query.
pub fn is_wanted(wanted: &Wanted<'_>, entry: &KeytabEntry) -> bool
    ensures { result ≡ is_wanted (wanted_view wanted.now) entry.now }
{
    entry.realm == *wanted.realm
        && entry.components == *wanted.components
        && entry.key_type == wanted.key_type
        && is_given_version(wanted.version, entry.version)
        && is_given_size(wanted.size, entry.key.as_ref().as_slice().len())
}

/// Of two entries the one of the greater version, of equals the later.
pub fn greater<'a>(best: Option<&'a KeytabEntry>, entry: &'a KeytabEntry) -> &'a KeytabEntry
    ensures { result.now ≡ greater (option_copied best.entry) entry.now }
{
    match best {
        Some(best) if entry.version < best.version => best,
        _ => entry,
    }
}

/// Of the entries that are asked for the one of the greatest version, of equals the last.
#[tactic(auto, unfolding(crate::specs::Finding::greatest))]
pub fn greatest<'a>(entries: &'a [KeytabEntry], wanted: &Wanted<'_>) -> Option<&'a KeytabEntry>
    ensures { option_copied result ≡ greatest (is_wanted (wanted_view wanted.now)) entries.now }
{
    let mut best = None;
    for entry in entries {
        if is_wanted(wanted, entry) {
            best = Some(greater(best, entry));
        }
    }
    best
}
