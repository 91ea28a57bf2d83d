//! The lines that give an acceptor its keys.

ghost use Rattle.std.specs.Prelude.{◌≡◌, ◌++◌, ◌∷◌, [], ◌<◌, IfOk, IfErr, OnOk, codes, length};
ghost use Rattle.std.specs.Fmt.{decimal};
ghost use Rattle.std.specs.List.{flat_map, list_all, list_any};
ghost use Rattle.hex.specs.Hex.{encode_lower};
ghost use Rattle.krb_keytab.specs.Finding.{same_octets};
ghost use Rattle.krb_keytab.specs.Installing.{keys_of};
ghost use Rattle.krb_keys.specs.Names.{components_text};
ghost use Rattle.krb_keys.specs.Failures.{IsWhyNone};
ghost use Rattle.krb_keys.specs.KeyLines.{is_plain_octet, is_plain, can_stand, service_text, key_line, left_out_line, line_of, key_lines_text};

use crate::failure::Failure;
use crate::names::push_components;
use krb_der::{Name, Octets, OutOfMemory};
use krb_keytab::Keytab;
use krb_messages::PrincipalName;
use sspi_core::Secret;
use std::alloc::Global;

fn is_plain_octet(octet: u8) -> bool
    ensures { result ≡ is_plain_octet octet }
{
    octet.is_ascii_graphic() && octet != b'/'
}

fn is_plain(part: &[u8]) -> bool
    ensures { result ≡ is_plain part.now }
{
    part.iter().all(|octet| is_plain_octet(*octet))
}

fn is_plain_name(part: &Name) -> bool
    ensures { result ≡ is_plain part.now }
{
    is_plain(part.as_slice())
}

fn are_plain(parts: &[Name]) -> bool
    ensures { result ≡ list_all is_plain parts.now }
{
    parts.iter().all(|part| is_plain_name(part))
}

fn can_stand_alone(part: &[u8]) -> bool
    ensures { result ≡ can_stand (part.now ∷ []) }
{
    !part.is_empty() && is_plain(part)
}

/// Returns whether a line can have a service of these components.
fn can_stand(parts: &[Name]) -> bool
    ensures { result ≡ can_stand parts.now }
{
    match parts {
        [] => false,
        [part] => can_stand_alone(part.as_slice()),
        _ => are_plain(parts),
    }
}

fn push_further(text: &mut Vec<u8>, part: &[u8]) -> Result<(), OutOfMemory>
    ensures { OnOk result (text.new.items ≡ text.old.items ++ (47 ∷ part.now)) }
{
    text.push(b'/')?;
    text.extend_from_slice(part)?;
    Ok(())
}

fn push_all_further(text: &mut Vec<u8>, parts: &[Name]) -> Result<(), OutOfMemory>
    ensures { OnOk result (text.new.items ≡ text.old.items ++ flat_map (λ part. 47 ∷ part) parts.now) }
{
    for part in parts {
        push_further(text, part.as_slice())?;
    }
    Ok(())
}

/// Adds a service: its components with a `/` between two.
fn push_service(text: &mut Vec<u8>, parts: &[Name]) -> Result<(), OutOfMemory>
    ensures { OnOk result (text.new.items ≡ text.old.items ++ service_text parts.now) }
{
    match parts {
        [] => Ok(()),
        [first, others @ ..] => {
            text.extend_from_slice(first.as_slice())?;
            push_all_further(text, others)
        }
    }
}

fn push_front(alloc: Global, text: &mut Vec<u8>, acceptor: u32) -> Result<(), OutOfMemory>
    ensures { OnOk result (text.new.items ≡ text.old.items ++ (codes "key " ++ (decimal acceptor ++ codes " "))) }
{
    let front = format!(in alloc; "key {acceptor} ")?;
    text.extend_from_slice(front.as_bytes())?;
    Ok(())
}

fn push_key(alloc: Global, text: &mut Vec<u8>, key: &[u8]) -> Result<(), OutOfMemory>
    ensures { OnOk result (text.new.items ≡ text.old.items ++ (codes " " ++ (encode_lower key.now ++ codes "\n"))) }
{
    let digits = hex::encode(alloc, key)?;
    let back = format!(in alloc; " {digits}\n")?;
    text.extend_from_slice(back.as_bytes())?;
    Ok(())
}

fn push_key_line(
    alloc: Global,
    text: &mut Vec<u8>,
    acceptor: u32,
    parts: &[Name],
    key: &[u8],
) -> Result<(), OutOfMemory>
    ensures { OnOk result (text.new.items ≡ text.old.items ++ key_line acceptor parts.now key.now) }
{
    push_front(alloc, text, acceptor)?;
    push_service(text, parts)?;
    push_key(alloc, text, key)
}

/// Adds the end of a comment: the name, and the end of the line.
fn push_left_out_name(alloc: Global, text: &mut Vec<u8>, parts: &[Name]) -> Result<(), OutOfMemory>
    ensures { OnOk result (text.new.items ≡ text.old.items ++ (components_text parts.now ++ codes "\n")) }
{
    push_components(alloc, text, parts)?;
    text.push(b'\n')?;
    Ok(())
}

/// Adds a comment in the place of a line that cannot be written.
fn push_left_out(alloc: Global, text: &mut Vec<u8>, parts: &[Name]) -> Result<(), OutOfMemory>
    ensures { OnOk result (text.new.items ≡ text.old.items ++ left_out_line parts.now) }
{
    text.extend_from_slice(b"# no key line can name ")?;
    push_left_out_name(alloc, text, parts)
}

fn push_line(
    alloc: Global,
    text: &mut Vec<u8>,
    acceptor: u32,
    name: &PrincipalName,
    key: &Secret<Octets>,
) -> Result<(), OutOfMemory>
    ensures { OnOk result (text.new.items ≡ text.old.items ++ line_of acceptor (name.now, key.now)) }
{
    let parts = name.name_string.as_slice();
    if can_stand(parts) {
        push_key_line(alloc, text, acceptor, parts, key.as_ref().as_slice())
    } else {
        push_left_out(alloc, text, parts)
    }
}

fn lines_of(
    alloc: Global,
    acceptor: u32,
    keys: &[(PrincipalName, Secret<Octets>)],
) -> Result<Vec<u8>, OutOfMemory>
    ensures { IfOk result (λ text. text.items ≡ key_lines_text acceptor keys.now) }
{
    let mut text = Vec::new(alloc);
    for pair in keys {
        push_line(alloc, &mut text, acceptor, &pair.0, &pair.1)?;
    }
    Ok(text)
}

/// Returns whether an entry is of the realm.
fn has_realm(keytab: &Keytab, realm: &Name) -> bool
    ensures { result ≡ list_any (λ entry. same_octets entry.realm realm.now) keytab.now.entries }
{
    keytab
        .entries
        .as_slice()
        .iter()
        .any(|entry| entry.realm == *realm)
}

/// Returns a line for each service of the realm that has a key which an acceptor can use, in the order of their first entries: its
/// key of the greatest version, as a `key` line of that acceptor. If no such line can have the name, a comment is in its place.
/// Fails with `NoKey` if no service of the realm has such a key, and with `NoEntry` if no entry is of the realm.
pub fn key_lines_text<'a>(
    alloc: Global,
    keytab: &Keytab,
    realm: &'a Name,
    acceptor: u32,
) -> Result<Vec<u8>, Failure<'a>>
    ensures lines { IfOk result (λ text. text.items ≡ key_lines_text acceptor (keys_of realm.now keytab.now.entries)) }
    ensures found { OnOk result (0 < length (keys_of realm.now keytab.now.entries)) }
    ensures none { IfErr result (IsWhyNone realm.entry keytab.now.entries) }
{
    let keys = keytab.service_keys(alloc, realm)?;
    if !keys.as_slice().is_empty() {
        return Ok(lines_of(alloc, acceptor, keys.as_slice())?);
    }
    if has_realm(keytab, realm) {
        Err(Failure::NoKey { realm })
    } else {
        Err(Failure::NoEntry { realm })
    }
}
