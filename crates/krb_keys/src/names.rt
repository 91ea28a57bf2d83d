//! The written form of the names of principals.

ghost use Rattle.std.specs.Prelude.{◌≡◌, ◌++◌, ◌∷◌, [], OnOk};
ghost use Rattle.std.specs.List.{flat_map};
ghost use Rattle.hex.specs.Hex.{encode_lower};
ghost use Rattle.krb_keys.specs.Names.{is_mark, octet_text, part_text, components_text, principal_text};

use krb_der::{Name, OutOfMemory};
use std::alloc::Global;

/// Returns whether the byte ends a component or the components, or escapes another.
fn is_mark(octet: u8) -> bool
    ensures { result ≡ is_mark octet }
{
    matches!(octet, b'/' | b'@' | b'\\')
}

fn push_hex(alloc: Global, text: &mut Vec<u8>, octet: u8) -> Result<(), OutOfMemory>
    ensures { OnOk result (text.new.items ≡ text.old.items ++ (92 ∷ 120 ∷ encode_lower (octet ∷ []))) }
{
    let digits = hex::encode(alloc, [octet])?;
    text.extend_from_slice(b"\\x")?;
    text.extend_from_slice(digits.as_bytes())?;
    Ok(())
}

fn push_octet(alloc: Global, text: &mut Vec<u8>, octet: u8) -> Result<(), OutOfMemory>
    ensures { OnOk result (text.new.items ≡ text.old.items ++ octet_text octet) }
{
    if !octet.is_ascii_graphic() {
        return push_hex(alloc, text, octet);
    }
    if is_mark(octet) {
        text.push(b'\\')?;
    }
    text.push(octet)?;
    Ok(())
}

/// Adds a component or a realm.
pub fn push_part(alloc: Global, text: &mut Vec<u8>, part: &[u8]) -> Result<(), OutOfMemory>
    ensures { OnOk result (text.new.items ≡ text.old.items ++ part_text part.now) }
{
    for octet in part {
        push_octet(alloc, text, *octet)?;
    }
    Ok(())
}

fn push_further_part(alloc: Global, text: &mut Vec<u8>, part: &[u8]) -> Result<(), OutOfMemory>
    ensures { OnOk result (text.new.items ≡ text.old.items ++ (47 ∷ part_text part.now)) }
{
    text.push(b'/')?;
    push_part(alloc, text, part)
}

fn push_further_parts(alloc: Global, text: &mut Vec<u8>, parts: &[Name]) -> Result<(), OutOfMemory>
    ensures { OnOk result (text.new.items ≡ text.old.items ++ flat_map (λ part. 47 ∷ part_text part) parts.now) }
{
    for part in parts {
        push_further_part(alloc, text, part.as_slice())?;
    }
    Ok(())
}

/// Adds components with a `/` between two.
pub fn push_components(
    alloc: Global,
    text: &mut Vec<u8>,
    components: &[Name],
) -> Result<(), OutOfMemory>
    ensures { OnOk result (text.new.items ≡ text.old.items ++ components_text components.now) }
{
    match components {
        [] => Ok(()),
        [first, others @ ..] => {
            push_part(alloc, text, first.as_slice())?;
            push_further_parts(alloc, text, others)
        }
    }
}

fn push_realm(alloc: Global, text: &mut Vec<u8>, realm: &[u8]) -> Result<(), OutOfMemory>
    ensures { OnOk result (text.new.items ≡ text.old.items ++ (64 ∷ part_text realm.now)) }
{
    text.push(b'@')?;
    push_part(alloc, text, realm)
}

/// Adds a principal: its components, an `@` and its realm.
pub fn push_principal(
    alloc: Global,
    text: &mut Vec<u8>,
    components: &[Name],
    realm: &[u8],
) -> Result<(), OutOfMemory>
    ensures { OnOk result (text.new.items ≡ text.old.items ++ principal_text components.now realm.now) }
{
    push_components(alloc, text, components)?;
    push_realm(alloc, text, realm)
}
