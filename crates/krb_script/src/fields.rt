//! The fields of a line.
ghost use Rattle.std.specs.Prelude.{◌≡◌, Some};
ghost use Rattle.std.specs.Char.{is_ascii_graphic};
ghost use Rattle.std.specs.List.{list_all};
ghost use Rattle.krb_text.specs.Decimals.{decimal_up_to, u32_of};
ghost use Rattle.std.specs.Str.{is_utf8};
ghost use Rattle.krb_script.specs.Fields.{
  octets_of,
  octets_or_none_of,
  text_of,
  is_name,
  name_of,
  optional_name_of,
  name_or_none_of,
  is_distinct,
  is_flag,
  are_flags,
  flags_of,
  random_of,
  flag_bit,
  flag_bits,
  flags_from,
};
ghost use Rattle.krb_script.specs.Gives.{Gives};
ghost use Rattle.krb_script.specs.Options.{if_so};
ghost use Rattle.krb_script.specs.declared.fields.FieldError.TheVariants.{OutOfMemory as NoMemory};

use crate::digits::{are_pairs, decode, fill};
use bitflags::Flags;
use krb_der::{Name, Octets, OutOfMemory, Text};
use krb_text::decimal_up_to;
use sspi_core::ClientRequestFlags;
use std::alloc::{AllocError, AllocFailed, Global};
use std::str;

/// Why a field or a line could not be read.
#[derive(Clone, Copy, Debug, PartialEq, Eq)]
pub enum FieldError {
    /// It is not in the table of lines, or does not meet its conditions.
    Bad,
    /// There was no memory to read it.
    OutOfMemory,
}

impl From<OutOfMemory> for FieldError {
    ghost from_gives = { λ _ e. e ≡ NoMemory };

    fn from(_: OutOfMemory) -> Self {
        FieldError::OutOfMemory
    }
}

impl From<AllocError> for FieldError {
    ghost from_gives = { λ _ e. e ≡ NoMemory };

    fn from(_: AllocError) -> Self {
        FieldError::OutOfMemory
    }
}

impl<T: Drop> From<AllocFailed<T>> for FieldError {
    ghost from_gives = { λ _ e. e ≡ NoMemory };

    fn from(_: AllocFailed<T>) -> Self {
        FieldError::OutOfMemory
    }
}

/// Reads a decimal number. Fails with `Bad` if the field is no decimal number, or the number is more than `limit`.
pub fn number(limit: u64, text: &[u8]) -> Result<u64, FieldError>
    ensures { Gives (decimal_up_to limit text.now) result }
{
    decimal_up_to(limit, text).ok_or(FieldError::Bad)
}

/// Reads a decimal number of 32 bits.
pub fn number_u32(text: &[u8]) -> Result<u32, FieldError>
    ensures { Gives (u32_of text.now) result }
{
    Ok(number(u64::from(u32::MAX), text)? as u32)
}

/// Decodes pairs of hex digits of either case. Fails with `Bad` if there is no pair, or any other octet.
pub fn octets(alloc: Global, text: &[u8]) -> Result<Octets, FieldError>
    ensures { Gives (octets_of text.now) result }
{
    if text.is_empty() {
        return Err(FieldError::Bad);
    }
    decode(alloc, text)
}

/// Decodes pairs of hex digits of either case; `-` means no octets.
pub fn octets_or_none(alloc: Global, text: &[u8]) -> Result<Octets, FieldError>
    ensures { Gives (octets_or_none_of text.now) result }
{
    if text == b"-".as_slice() {
        return Ok(Octets::new(Vec::new(alloc)));
    }
    octets(alloc, text)
}

fn is_utf8(octets: &[u8]) -> bool
    ensures { result ≡ is_utf8 octets.now }
{
    match str::from_utf8(octets) {
        Ok(_) => true,
        Err(_) => false,
    }
}

/// Returns the text of octets in UTF-8. Fails with `Bad` if they are not UTF-8.
fn utf8_text(octets: Octets) -> Result<Text, FieldError>
    ensures { Gives (if_so (is_utf8 octets) (Some octets)) result }
{
    if !is_utf8(octets.as_slice()) {
        return Err(FieldError::Bad);
    }
    match String::from_utf8(octets.into_inner()) {
        Ok(text) => Ok(Text::new(text)),
        Err(_) => Err(FieldError::Bad),
    }
}

/// Reads a text in UTF-8 by the hex digits of its octets; `-` means the empty text.
pub fn text(alloc: Global, text: &[u8]) -> Result<Text, FieldError>
    ensures { Gives (text_of text.now) result }
{
    let octets = octets_or_none(alloc, text)?;
    utf8_text(octets)
}

fn is_name(text: &[u8]) -> bool
    ensures { result ≡ is_name text.now }
{
    !text.is_empty() && are_graphic(text)
}

fn are_graphic(text: &[u8]) -> bool
    ensures { result ≡ list_all is_ascii_graphic text.now }
{
    text.iter().all(|b| b.is_ascii_graphic())
}

/// Reads a field that is taken literally. Fails with `Bad` if it is empty or has an octet outside 21 to 7E (hex).
pub fn name(alloc: Global, text: &[u8]) -> Result<Name, FieldError>
    ensures { Gives (name_of text.now) result }
{
    if !is_name(text) {
        return Err(FieldError::Bad);
    }
    match Name::new(text.to_vec(alloc)?) {
        Some(name) => Ok(name),
        None => Err(FieldError::Bad),
    }
}

/// Reads a field that is taken literally; `-` means no field.
pub fn optional_name(alloc: Global, text: &[u8]) -> Result<Option<Name>, FieldError>
    ensures { Gives (optional_name_of text.now) result }
{
    if text == b"-".as_slice() {
        return Ok(None);
    }
    Ok(Some(name(alloc, text)?))
}

/// Reads a field that is taken literally, as a text.
pub fn named_text(alloc: Global, text: &[u8]) -> Result<Text, FieldError>
    ensures { Gives (name_of text.now) result }
{
    let name = name(alloc, text)?;
    Ok(Text::from_str(alloc, name.as_str())?)
}

/// Reads a field that is taken literally, as a text; `-` means the empty text.
pub fn text_or_none(alloc: Global, text: &[u8]) -> Result<Text, FieldError>
    ensures { Gives (name_or_none_of text.now) result }
{
    if text == b"-".as_slice() {
        return Ok(Text::new(String::new(alloc)));
    }
    named_text(alloc, text)
}

/// Decodes 128 hex digits to 64 octets.
#[tactic(auto, using(crate::proofs::DigitLemmas::sized))]
pub fn random_octets(text: &[u8]) -> Result<[u8; 64], FieldError>
    ensures { Gives (random_of text.now) result }
{
    if text.len() != 128 || !are_pairs(text) {
        return Err(FieldError::Bad);
    }
    let mut octets = [0; 64];
    fill(text, &mut octets);
    Ok(octets)
}

/// Returns the bit of a flag's letter, and 0 for any other octet.
fn flag_bit(letter: u8) -> u32
    ensures { result ≡ flag_bit letter }
{
    match letter {
        b'D' => 0x1,
        b'M' => 0x2,
        b'R' => 0x4,
        b'S' => 0x8,
        b'C' => 0x10,
        b'K' => 0x20,
        b'E' => 0x200,
        b'I' => 0x1_0000,
        b'N' => 0x80_0000,
        _ => 0,
    }
}

fn is_flag(letter: u8) -> bool
    ensures { result ≡ is_flag letter }
{
    flag_bit(letter) != 0
}

fn flag_bits(text: &[u8]) -> u32
    ensures { result ≡ flag_bits text.now }
{
    text.iter().fold(0, |bits, letter| bits | flag_bit(*letter))
}

fn all_are_flags(text: &[u8]) -> bool
    ensures { result ≡ list_all is_flag text.now }
{
    text.iter().all(|b| is_flag(*b))
}

fn is_distinct(text: &[u8]) -> bool
    ensures { result ≡ is_distinct text.now }
{
    match text {
        [] => true,
        [first, rest @ ..] => !rest.contains(first) && is_distinct(rest),
    }
}

fn are_flags(text: &[u8]) -> bool
    ensures { result ≡ are_flags text.now }
{
    !text.is_empty() && all_are_flags(text) && is_distinct(text)
}

fn flags_from(bits: u32) -> ClientRequestFlags
    ensures { result ≡ flags_from bits }
{
    ClientRequestFlags::from_bits_retain(bits)
}

/// Reads flags by their letters, each at most once; `-` means no flags.
pub fn flags(text: &[u8]) -> Result<ClientRequestFlags, FieldError>
    ensures { Gives (flags_of text.now) result }
{
    if text == b"-".as_slice() {
        return Ok(flags_from(0));
    }
    if !are_flags(text) {
        return Err(FieldError::Bad);
    }
    Ok(flags_from(flag_bits(text)))
}
