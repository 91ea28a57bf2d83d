//! The entries of a realm whose keys an acceptor can use, in maps by their names.

ghost use Rattle.std.specs.Prelude.{◌≡◌, IfOk, OnOk, option_copied, option_map};
ghost use Rattle.krb_keytab.specs.Finding.{is_wanted};
ghost use Rattle.krb_keytab.specs.Installing.{key_for};
ghost use Rattle.krb_keytab.specs.RealmKeys.{LentName, asked, greatest_with, found_at, HasGreatest, key_at};

use crate::entry::KeytabEntry;
use crate::find::{Wanted, greater, is_wanted};
use indexmap::IndexMap;
use krb_crypto::CipherSuite;
use krb_der::{Items, Name, Octets, OutOfMemory};
use sspi_core::Secret;
use std::alloc::Global;

/// Of each name one entry.
type ByName<'a> = IndexMap<&'a Items<Name>, &'a KeytabEntry>;

/// Of each name in a realm the greatest entry of either suite.
#[derive(Drop)]
pub struct RealmKeys<'a> {
    aes256: ByName<'a>,
    aes128: ByName<'a>,
}

/// Returns whether the entry has a key of the suite in the realm.
fn is_of_suite(realm: &Name, suite: CipherSuite, entry: &KeytabEntry) -> bool
    ensures { result ≡ is_wanted (asked realm.now suite entry.now.components) entry.now }
{
    is_wanted(
        &Wanted {
            realm,
            components: &entry.components,
            key_type: u16::from(suite.number()),
            version: None,
            size: Some(suite.key_size()),
        },
        entry,
    )
}

/// Puts the entry at its name if it has a key of the suite in the realm and no entry of a greater version is there.
fn keep<'a>(
    found: &mut ByName<'a>,
    realm: &Name,
    suite: CipherSuite,
    entry: &'a KeytabEntry,
) -> Result<(), OutOfMemory>
    ensures { OnOk result ((name : LentName) → found_at found.new name ≡ greatest_with (is_wanted (asked realm.now suite name.now)) (found_at found.old name) entry.now) }
{
    if is_of_suite(realm, suite, entry) {
        let name = &entry.components;
        let best = greater(found.get(&name).copied(), entry);
        found.insert(name, best)?;
    }
    Ok(())
}

/// Of each name the greatest entry that has a key of the suite in the realm.
fn greatest_entries<'a>(
    alloc: Global,
    realm: &Name,
    suite: CipherSuite,
    entries: &'a [KeytabEntry],
) -> Result<ByName<'a>, OutOfMemory>
    ensures { IfOk result (HasGreatest realm.now suite entries.now) }
{
    let mut found = IndexMap::new(alloc);
    for entry in entries {
        keep(&mut found, realm, suite, entry)?;
    }
    Ok(found)
}

/// The key of the entry at a name.
fn key_in<'a>(found: &ByName<'a>, components: &'a Items<Name>) -> Option<&'a Secret<Octets>>
    ensures { option_copied result ≡ option_map (λ entry. entry.key) (found_at found.now components.entry) }
{
    let entry = found.get(&components)?;
    Some(&entry.key)
}

impl<'a> RealmKeys<'a> {
    /// Returns the keys of these entries.
    pub fn new(
        alloc: Global,
        realm: &Name,
        entries: &'a [KeytabEntry],
    ) -> Result<RealmKeys<'a>, OutOfMemory>
        ensures { IfOk result (λ keys. (name : LentName) → key_at keys name ≡ key_for entries.now realm.now name.now) }
    {
        let aes256 = greatest_entries(alloc, realm, CipherSuite::Aes256CtsHmacSha196, entries)?;
        let aes128 = greatest_entries(alloc, realm, CipherSuite::Aes128CtsHmacSha196, entries)?;
        Ok(RealmKeys { aes256, aes128 })
    }

    /// Returns the key of AES-256 at a name, otherwise the one of AES-128.
    pub fn key(&self, components: &'a Items<Name>) -> Option<&'a Secret<Octets>>
        ensures { option_copied result ≡ key_at self.now components.entry }
    {
        match key_in(&self.aes256, components) {
            Some(key) => Some(key),
            None => key_in(&self.aes128, components),
        }
    }
}
