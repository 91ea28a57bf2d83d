//! The keys of a realm for an acceptor.

ghost use Rattle.std.specs.Prelude.{◌≡◌, ◌++◌, IfOk, OnOk, OnErr, map, length};
ghost use Rattle.std.specs.List.{flat_map};
ghost use Rattle.std.specs.Option.{option_to_list};
ghost use Rattle.krb_context.specs.ServiceKeys.{service_named};
ghost use Rattle.krb_keytab.specs.Installing.{names_with, names_of, keys_of, with_keys};
ghost use Rattle.krb_keytab.specs.RealmKeys.{pair_at};

use crate::entry::KeytabEntry;
use crate::realm_keys::RealmKeys;
use indexmap::IndexSet;
use krb_context::{AdditionalServiceKeys, ServerProperties};
use krb_der::{IntegerAsn1, Items, Name, Octets, OutOfMemory, TryCopy};
use krb_messages::PrincipalName;
use sspi_core::Secret;
use std::alloc::Global;

/// Adds the name of the entry if it is of the realm and new.
fn add_name<'a>(
    names: &mut IndexSet<&'a Items<Name>>,
    realm: &Name,
    entry: &'a KeytabEntry,
) -> Result<(), OutOfMemory>
    ensures { OnOk result (map (λ name. name.now) names.new.keys ≡ names_with realm.now (map (λ name. name.now) names.old.keys) entry.now) }
{
    if entry.realm == *realm {
        names.insert(&entry.components)?;
    }
    Ok(())
}

/// Returns each name of the realm once, in the order of their first entries.
fn names_of<'a>(
    alloc: Global,
    realm: &Name,
    entries: &'a [KeytabEntry],
) -> Result<IndexSet<&'a Items<Name>>, OutOfMemory>
    ensures { IfOk result (λ names. map (λ name. name.now) names.keys ≡ names_of realm.now entries.now) }
{
    let mut names = IndexSet::new(alloc);
    for entry in entries {
        add_name(&mut names, realm, entry)?;
    }
    Ok(names)
}

/// Returns a name of type 2 (RFC 4120, section 6.2) with these components.
fn service_named(alloc: Global, components: &Items<Name>) -> Result<PrincipalName, OutOfMemory>
    ensures { IfOk result (λ name. name ≡ service_named components.now) }
{
    let mut name_type = Vec::new(alloc);
    name_type.push(2)?;
    let name_string = components.copy(alloc)?;
    Ok(PrincipalName {
        name_type: IntegerAsn1::from_bytes_be(name_type),
        name_string,
    })
}

fn service_pair<'a>(
    alloc: Global,
    keys: &RealmKeys<'a>,
    components: &'a Items<Name>,
) -> Result<Option<(PrincipalName, Secret<Octets>)>, OutOfMemory>
    ensures { IfOk result (λ pair. pair ≡ pair_at keys.now components.entry) }
{
    match keys.key(components) {
        None => Ok(None),
        Some(key) => {
            let key = key.copy(alloc)?;
            let name = service_named(alloc, components)?;
            Ok(Some((name, key)))
        }
    }
}

fn push_key<'a>(
    alloc: Global,
    out: &mut Vec<(PrincipalName, Secret<Octets>)>,
    keys: &RealmKeys<'a>,
    components: &'a Items<Name>,
) -> Result<(), OutOfMemory>
    ensures { OnOk result (out.new.items ≡ out.old.items ++ option_to_list (pair_at keys.now components.entry)) }
{
    if let Some(pair) = service_pair(alloc, keys, components)? {
        out.push(pair)?;
    }
    Ok(())
}

fn push_named<'a>(
    alloc: Global,
    out: &mut Vec<(PrincipalName, Secret<Octets>)>,
    keys: &RealmKeys<'a>,
    names: &[&'a Items<Name>],
) -> Result<(), OutOfMemory>
    ensures { OnOk result (out.new.items ≡ out.old.items ++ flat_map (λ name. option_to_list (pair_at keys.now name)) names.now) }
{
    for name in names {
        push_key(alloc, out, keys, *name)?;
    }
    Ok(())
}

/// Appends the keys of the realm to the existing ones.
pub fn push_keys(
    alloc: Global,
    out: &mut Vec<(PrincipalName, Secret<Octets>)>,
    realm: &Name,
    entries: &[KeytabEntry],
) -> Result<(), OutOfMemory>
    ensures { OnOk result (out.new.items ≡ out.old.items ++ keys_of realm.now entries.now) }
{
    let names = names_of(alloc, realm, entries)?;
    let keys = RealmKeys::new(alloc, realm, entries)?;
    push_named(alloc, out, &keys, names.as_slice())
}

/// Appends the keys of the realm to the further keys of an acceptor's properties, and returns their number.
pub fn install(
    alloc: Global,
    realm: &Name,
    entries: &[KeytabEntry],
    properties: &mut ServerProperties,
) -> Result<usize, OutOfMemory>
    ensures installed { OnOk result (properties.new ≡ with_keys properties.old (keys_of realm.now entries.now)) }
    ensures count { IfOk result (λ count. count ≡ length (keys_of realm.now entries.now)) }
    ensures stays { OnErr result (properties.new ≡ properties.old) }
{
    let before = properties.additional_service_keys.as_slice().len();
    let mut keys = properties.additional_service_keys.to_vec(alloc)?;
    push_keys(alloc, &mut keys, realm, entries)?;
    let count = keys.len() - before;
    properties.additional_service_keys = AdditionalServiceKeys::new(alloc, keys)?;
    Ok(count)
}
