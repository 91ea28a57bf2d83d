//! Tests that a field meets its requirement.

ghost use Rattle.std.specs.Prelude.{◌≡◌, Option, is_some, IfOk};
ghost use Rattle.std.specs.Char.{is_ascii_graphic};
ghost use Rattle.std.specs.List.{list_all};
ghost use Rattle.std.specs.Str.{is_utf8};
ghost use Rattle.krb_script.specs.Fields.{is_name, is_flag, is_distinct, flags_of, text_of};
ghost use Rattle.krb_script.specs.Declarations.{username_of, url_of};
ghost use Rattle.krb_script.specs.Gives.{Gives};
ghost use Rattle.krb_reasons.specs.Wanted.{is_word, is_input, fits};

use crate::buffer::is_buffer;
use crate::wanted::Wanted;
use krb_conf::parse_kdc_url;
use krb_der::{Octets, OutOfMemory};
use krb_script::{FieldError, name, number, octets, octets_or_none, random_octets};
use sspi_core::{Username, UsernameError};
use std::alloc::Global;
use std::str;
use url::Url;

fn are_graphic(text: &[u8]) -> bool
    ensures { result ≡ list_all is_ascii_graphic text.now }
{
    text.iter().all(|octet| octet.is_ascii_graphic())
}

/// Returns whether a field is one octet or more, each from 21 to 7E.
pub fn is_name(text: &[u8]) -> bool
    ensures { result ≡ is_name text.now }
{
    !text.is_empty() && are_graphic(text)
}

fn is_word(text: &[u8]) -> bool
    ensures { result ≡ is_word text.now }
{
    text == b"skew".as_slice()
        || text == b"acceptor".as_slice()
        || text == b"initiator".as_slice()
        || text == b"key".as_slice()
        || text == b"password".as_slice()
        || text == b"keytab".as_slice()
        || text == b"kdc".as_slice()
        || text == b"env".as_slice()
        || text == b"file".as_slice()
        || text == b"event".as_slice()
}

fn is_input(text: &[u8]) -> bool
    ensures { result ≡ is_input text.now }
{
    text == b"token".as_slice()
        || text == b"start".as_slice()
        || text == b"reply".as_slice()
        || text == b"fault".as_slice()
        || text == b"wrap".as_slice()
        || text == b"unwrap".as_slice()
        || text == b"mic".as_slice()
        || text == b"verify".as_slice()
}

fn is_flag(letter: u8) -> bool
    ensures { result ≡ is_flag letter }
{
    matches!(
        letter,
        b'D' | b'M' | b'R' | b'S' | b'C' | b'K' | b'E' | b'I' | b'N'
    )
}

fn all_are_flags(text: &[u8]) -> bool
    ensures { result ≡ list_all is_flag text.now }
{
    text.iter().all(|letter| is_flag(*letter))
}

fn is_distinct(text: &[u8]) -> bool
    ensures { result ≡ is_distinct text.now }
{
    match text {
        [] => true,
        [first, rest @ ..] => !rest.contains(first) && is_distinct(rest),
    }
}

fn are_flags(text: &[u8]) -> bool
    ensures { result ≡ is_some (flags_of text.now) }
{
    if text == b"-".as_slice() {
        return true;
    }
    !text.is_empty() && all_are_flags(text) && is_distinct(text)
}

fn username(alloc: Global, text: &[u8]) -> Result<Username, FieldError>
    ensures { Gives (username_of text.now) result }
{
    let name = name(alloc, text)?;
    match Username::parse(alloc, name.as_str()) {
        Ok(username) => Ok(username),
        Err(UsernameError::OutOfMemory) => Err(FieldError::OutOfMemory),
        Err(UsernameError::MixedFormat) => Err(FieldError::Bad),
    }
}

fn url(alloc: Global, text: &[u8]) -> Result<Url, FieldError>
    ensures { Gives (url_of text.now) result }
{
    let address = name(alloc, text)?;
    match parse_kdc_url(alloc, address.as_str())? {
        Some(url) => Ok(url),
        None => Err(FieldError::Bad),
    }
}

fn is_utf8(octets: &[u8]) -> bool
    ensures { result ≡ is_utf8 octets.now }
{
    match str::from_utf8(octets) {
        Ok(_) => true,
        Err(_) => false,
    }
}

/// Returns the octets of a text in UTF-8. Fails with `Bad` if they are not UTF-8.
fn text_octets(alloc: Global, text: &[u8]) -> Result<Octets, FieldError>
    ensures { Gives (text_of text.now) result }
{
    let octets = octets_or_none(alloc, text)?;
    if is_utf8(octets.as_slice()) {
        Ok(octets)
    } else {
        Err(FieldError::Bad)
    }
}

/// Returns whether a field was read: exactly if it meets its requirement.
fn is_given<T: Drop>(found: Result<T, FieldError>) -> Result<bool, OutOfMemory>
    ensures { (wanted : Option T) → Gives wanted found → IfOk result (λ given. given ≡ is_some wanted) }
{
    match found {
        Ok(_) => Ok(true),
        Err(FieldError::Bad) => Ok(false),
        Err(FieldError::OutOfMemory) => Err(OutOfMemory),
    }
}

/// Returns whether a name meets the requirement of the field.
pub fn fits(alloc: Global, wanted: Wanted, text: &[u8]) -> Result<bool, OutOfMemory>
    ensures { IfOk result (λ is. is ≡ fits wanted text.now) }
{
    match wanted {
        Wanted::Word => Ok(is_word(text)),
        Wanted::Input => Ok(is_input(text)),
        Wanted::Seconds => is_given(number(86_400, text)),
        Wanted::Id => is_given(number(u64::from(u32::MAX), text)),
        Wanted::Number => is_given(number(u64::from(u32::MAX), text)),
        Wanted::Moment => is_given(number(u64::MAX, text)),
        Wanted::Random => is_given(random_octets(text)),
        Wanted::Flags => Ok(are_flags(text)),
        Wanted::Principal => is_given(username(alloc, text)),
        Wanted::KeyType => Ok(text == b"17".as_slice() || text == b"18".as_slice()),
        Wanted::Url => is_given(url(alloc, text)),
        Wanted::Hex => is_given(octets(alloc, text)),
        Wanted::HexOrNone => is_given(octets_or_none(alloc, text)),
        Wanted::Utf8 => is_given(text_octets(alloc, text)),
        Wanted::Buffer => is_buffer(alloc, text),
        _ => Ok(true),
    }
}
