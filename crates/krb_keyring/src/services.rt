//! The entries of services, by the components of their names.

ghost use Rattle.std.specs.Prelude.{◌≡◌, ℕ, ◌++◌, ◌∷◌, ◌-◌, [], List, length, take, IfOk, OnOk, OnErr, if◌then◌else◌};
ghost use Rattle.krb_keyring.specs.Held.{held_in, named};
ghost use Rattle.krb_keytab.specs.Finding.{same_names};

use indexmap::IndexMap;
use krb_der::{Copier, Items, Name, OutOfMemory, TryCopy};
use krb_keytab::KeytabEntry;
use std::alloc::Global;

/// The entries of one name, in the order in which they were added.
#[derive(Drop)]
pub(crate) struct Entries {
    pub(crate) items: Vec<KeytabEntry>,
}

/// The entries of each name.
pub(crate) type ByName = IndexMap<Items<Name>, Entries>;

fn copied(alloc: Global, entry: &KeytabEntry) -> Result<KeytabEntry, OutOfMemory>
    ensures { IfOk result (λ copy. copy ≡ entry.now) }
{
    let key = entry.key.copy(alloc)?;
    let mut copier = Copier::new(alloc);
    let copy = KeytabEntry {
        realm: copier.copy(&entry.realm),
        components: copier.copy(&entry.components),
        name_type: entry.name_type,
        time: entry.time,
        version: entry.version,
        key_type: entry.key_type,
        key,
    };
    copier.finish(copy)
}

fn push(entries: &mut Entries, entry: KeytabEntry) -> Result<(), OutOfMemory>
    ensures pushed { OnOk result (entries.new.items.items ≡ entries.old.items.items ++ entry ∷ []) }
    ensures stays { OnErr result (entries.new.items.items ≡ entries.old.items.items) }
{
    entries.items.push(entry)?;
    Ok(())
}

/// Returns a list of one entry.
fn one(alloc: Global, entry: KeytabEntry) -> Result<Entries, OutOfMemory>
    ensures { IfOk result (λ entries. entries.items.items ≡ entry ∷ []) }
{
    let mut items = Vec::new(alloc);
    items.push(entry)?;
    Ok(Entries { items })
}

/// Adds the entries of a name that had none.
fn begin(alloc: Global, services: &mut ByName, entry: KeytabEntry) -> Result<(), OutOfMemory>
    requires { held_in services.old entry.components ≡ [] }
    ensures added { OnOk result ((name : List (List ℕ)) → held_in services.new name
        ≡ held_in services.old name ++ (if same_names entry.components name then entry ∷ [] else [])) }
    ensures stays { OnErr result ((name : List (List ℕ)) → held_in services.new name ≡ held_in services.old name) }
{
    let name = entry.components.copy(alloc)?;
    let entries = one(alloc, entry)?;
    services.insert(name, entries)?;
    Ok(())
}

/// Adds a copy of the entry, after those of its name.
fn add(alloc: Global, services: &mut ByName, entry: &KeytabEntry) -> Result<(), OutOfMemory>
    ensures added { OnOk result ((name : List (List ℕ)) → held_in services.new name
        ≡ held_in services.old name ++ (if same_names entry.now.components name then entry.now ∷ [] else [])) }
    ensures stays { OnErr result ((name : List (List ℕ)) → held_in services.new name ≡ held_in services.old name) }
{
    let copy = copied(alloc, entry)?;
    match services.get_mut(&entry.components) {
        Some(entries) => push(entries, copy),
        None => begin(alloc, services, copy),
    }
}

fn pop(entries: &mut Entries)
    ensures { entries.new.items.items ≡ take (length entries.old.items.items - 1) entries.old.items.items }
{
    entries.items.pop();
}

/// Removes the last entry of a name.
fn take_back(services: &mut ByName, components: &Items<Name>)
    ensures { (name : List (List ℕ)) → held_in services.new name
        ≡ (if same_names components.now name then take (length (held_in services.old name) - 1) (held_in services.old name) else held_in services.old name) }
{
    match services.get_mut(components) {
        Some(entries) => pop(entries),
        None => {}
    }
}

/// Removes entries that were added last.
fn take_all_back(services: &mut ByName, entries: &[KeytabEntry])
    ensures { (before : List (List ℕ) → List KeytabEntry) → ((name : List (List ℕ)) → held_in services.old name ≡ before name ++ named name entries.now)
        → (name : List (List ℕ)) → held_in services.new name ≡ before name }
{
    let count = entries.len();
    for taken in 0..count {
        let place = count - 1 - taken;
        take_back(services, &entries[place].components);
    }
}

/// Adds copies of the entries, each after those of its name, or none of them.
pub(crate) fn add_all(
    alloc: Global,
    services: &mut ByName,
    entries: &[KeytabEntry],
) -> Result<(), OutOfMemory>
    ensures added { OnOk result ((name : List (List ℕ)) → held_in services.new name ≡ held_in services.old name ++ named name entries.now) }
    ensures stays { OnErr result ((name : List (List ℕ)) → held_in services.new name ≡ held_in services.old name) }
{
    for (count, entry) in entries.iter().enumerate() {
        match add(alloc, services, entry) {
            Ok(()) => {}
            Err(error) => {
                take_all_back(services, &entries[..count]);
                return Err(error);
            }
        }
    }
    Ok(())
}
