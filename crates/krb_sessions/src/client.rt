//! The client that was admitted, as its ticket names it.

ghost use Rattle.std.specs.Prelude.{◌≡◌, ◌++◌, ◌∷◌, IfOk, OnOk};
ghost use Rattle.std.specs.List.{flat_map};
ghost use Rattle.krb_sessions.specs.Principals.{quote, quoted, part_text, further_text, components_text, principal_text};

use krb_der::{Bits, Name, Octets, OutOfMemory, Time};
use krb_messages::{AuthorizationData, PrincipalName};
use std::alloc::Global;

/// A client: what the ticket says of it, which a KDC encrypted under the service's key, and what its own authenticator says.
#[derive(Drop)]
pub struct Client {
    /// The name, whole: its type and all its components.
    pub name: PrincipalName,
    pub realm: Name,
    /// The ticket's flags (RFC 4120, section 2).
    pub flags: Bits,
    /// When the client was first authenticated.
    pub authtime: Time,
    /// From when the ticket is valid, if that is not `authtime`.
    pub starttime: Option<Time>,
    /// Until when it is valid.
    pub endtime: Time,
    /// Until when it may be renewed.
    pub renew_till: Option<Time>,
    /// The statements of the KDC, or the client's own restrictions, on the ticket (RFC 4120, section 5.2.6). No check here reads them.
    pub authorization_data: Option<AuthorizationData>,
    /// The GSS flags that the client asked for, as numbers of RFC 2744 (RFC 4121, section 4.1.1): None if its checksum has none.
    pub gss_flags: Option<u32>,
    /// The MD5 of the channel bindings that the client sent, 16 bytes (RFC 4121, section 4.1.1.2): all zeros if it sent none, and no
    /// bytes if its checksum has no room for them. It is compared with the caller's bindings only if the caller gives some.
    pub channel_hash: Octets,
    /// The last twelve bytes of the encrypted authenticator. Two log-ins share them only by chance, one in 2^96.
    pub tag: Octets,
    /// The number of the client's first message: the low 32 bits of its authenticator's, and 0 if that has none (RFC 4120, section
    /// 5.5.1).
    pub first_number: u32,
    /// The KRB-CRED with which the client delegates a ticket of its own (RFC 4121, section 4.1.1): no bytes if it asked for no
    /// delegation, or its checksum has no whole one. It is not decrypted here.
    pub delegation: Octets,
}

/// Returns the byte that follows the `\` for a quoted byte.
fn quote(octet: u8) -> Option<u8>
    ensures { result ≡ quote octet }
{
    if octet == b'/' || octet == b'@' || octet == b'\\' {
        Some(octet)
    } else if octet == b'\n' {
        Some(b'n')
    } else if octet == b'\t' {
        Some(b't')
    } else if octet == 8 {
        Some(b'b')
    } else if octet == 0 {
        Some(b'0')
    } else {
        None
    }
}

fn push_quoted(text: &mut Vec<u8>, octet: u8) -> Result<(), OutOfMemory>
    ensures { OnOk result (text.new.items ≡ text.old.items ++ quoted octet) }
{
    match quote(octet) {
        Some(letter) => {
            text.push(b'\\')?;
            text.push(letter)?;
            Ok(())
        }
        None => {
            text.push(octet)?;
            Ok(())
        }
    }
}

fn push_part(text: &mut Vec<u8>, part: &[u8]) -> Result<(), OutOfMemory>
    ensures { OnOk result (text.new.items ≡ text.old.items ++ part_text part.now) }
{
    for octet in part {
        push_quoted(text, *octet)?;
    }
    Ok(())
}

/// Appends a mark, and after it a component or a realm.
fn push_behind(text: &mut Vec<u8>, mark: u8, part: &[u8]) -> Result<(), OutOfMemory>
    ensures { OnOk result (text.new.items ≡ text.old.items ++ mark ∷ part_text part.now) }
{
    text.push(mark)?;
    push_part(text, part)
}

fn push_all_further(text: &mut Vec<u8>, parts: &[Name]) -> Result<(), OutOfMemory>
    ensures { OnOk result (text.new.items ≡ text.old.items ++ flat_map further_text parts.now) }
{
    for part in parts {
        push_behind(text, b'/', part.as_slice())?;
    }
    Ok(())
}

fn push_components(text: &mut Vec<u8>, parts: &[Name]) -> Result<(), OutOfMemory>
    ensures { OnOk result (text.new.items ≡ text.old.items ++ components_text parts.now) }
{
    match parts {
        [] => Ok(()),
        [first, further @ ..] => {
            push_part(text, first.as_slice())?;
            push_all_further(text, further)
        }
    }
}

/// Returns a whole name as text, as `alice/admin@EXAMPLE.COM`: a `/` between two components and a `@` before the realm, with a `\`
/// before each of these marks that is in a component or the realm (RFC 1964, section 2.1.1).
pub fn principal(alloc: Global, name: &PrincipalName, realm: &Name) -> Result<Octets, OutOfMemory>
    ensures { IfOk result (λ text. text ≡ principal_text name.now.name_string realm.now) }
{
    let mut text = Vec::new(alloc);
    push_components(&mut text, name.name_string.as_slice())?;
    push_behind(&mut text, b'@', realm.as_slice())?;
    Ok(Octets::new(text))
}

impl Client {
    /// Returns the client's whole name as text, as [`principal`](crate::principal) writes it.
    pub fn principal(&self, alloc: Global) -> Result<Octets, OutOfMemory>
        ensures { IfOk result (λ text. text ≡ principal_text self.now.name.name_string self.now.realm) }
    {
        principal(alloc, &self.name, &self.realm)
    }
}
