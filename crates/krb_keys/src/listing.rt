//! The printed entries of a keytab.

ghost use Rattle.std.specs.Prelude.{◌≡◌, ◌++◌, IfOk, OnOk, codes};
ghost use Rattle.krb_keys.specs.Listing.{type_name, numbers_text, entry_line, list_text};
ghost use Rattle.krb_keys.specs.Names.{principal_text};

use crate::names::push_principal;
use krb_der::OutOfMemory;
use krb_keytab::{Keytab, KeytabEntry};
use std::alloc::Global;

/// Returns the name of an encryption type in IANA's registry of Kerberos encryption type numbers.
fn type_name(number: u16) -> &'static str
    ensures { result.now ≡ type_name number }
{
    match number {
        1 => "des-cbc-crc",
        2 => "des-cbc-md4",
        3 => "des-cbc-md5",
        16 => "des3-cbc-sha1-kd",
        17 => "aes128-cts-hmac-sha1-96",
        18 => "aes256-cts-hmac-sha1-96",
        19 => "aes128-cts-hmac-sha256-128",
        20 => "aes256-cts-hmac-sha384-192",
        23 => "rc4-hmac",
        24 => "rc4-hmac-exp",
        25 => "camellia128-cts-cmac",
        26 => "camellia256-cts-cmac",
        _ => "unknown",
    }
}

fn push_numbers(alloc: Global, text: &mut Vec<u8>, entry: &KeytabEntry) -> Result<(), OutOfMemory>
    ensures { OnOk result (text.new.items ≡ text.old.items ++ numbers_text entry.now) }
{
    let name = type_name(entry.key_type);
    let numbers = format!(in alloc;
        "{} {} {name} {} {} ",
        entry.version, entry.name_type, entry.key_type, entry.time
    )?;
    text.extend_from_slice(numbers.as_bytes())?;
    Ok(())
}

/// Adds the end of an entry's line.
fn push_name(alloc: Global, text: &mut Vec<u8>, entry: &KeytabEntry) -> Result<(), OutOfMemory>
    ensures { OnOk result (text.new.items ≡ text.old.items ++ (principal_text entry.now.components entry.now.realm ++ codes "\n")) }
{
    push_principal(
        alloc,
        text,
        entry.components.as_slice(),
        entry.realm.as_slice(),
    )?;
    text.push(b'\n')?;
    Ok(())
}

fn push_entry(alloc: Global, text: &mut Vec<u8>, entry: &KeytabEntry) -> Result<(), OutOfMemory>
    ensures { OnOk result (text.new.items ≡ text.old.items ++ entry_line entry.now) }
{
    push_numbers(alloc, text, entry)?;
    push_name(alloc, text, entry)
}

/// Returns a line for each entry, in their order: the version, the type of the name, the encryption type by its name and its number,
/// the time in seconds since 1970, and the principal.
pub fn list_text(alloc: Global, keytab: &Keytab) -> Result<Vec<u8>, OutOfMemory>
    ensures { IfOk result (λ text. text.items ≡ list_text keytab.now.entries) }
{
    let mut text = Vec::new(alloc);
    let entries = keytab.entries.as_slice();
    for entry in entries {
        push_entry(alloc, &mut text, entry)?;
    }
    Ok(text)
}
