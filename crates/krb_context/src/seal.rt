//! Sealing a message's data.

ghost use Rattle.std.specs.Prelude.{◌≡◌, ◌+◌, ◌-◌, ◌≤◌, ◌<◌, ◌++◌, ℕ, List, length, take, drop, replicate, vec_len, IfOk, IfSome, OnErr, MatchResult, true};
ghost use Rattle.krb_aes.specs.Aes.{aes};
ghost use Rattle.krb_crypto.specs.Cts.{cts};
ghost use Rattle.sspi_core.specs.Messages.{find_part, write};
ghost use Rattle.krb_context.specs.Header.{wrap_header};
ghost use Rattle.krb_context.specs.Spelled.{part_octets, has_part};
ghost use Rattle.krb_context.specs.Spelt.{inner_text, sealed_body};
ghost use Rattle.krb_context.specs.Wrapped.{wrapped_by, limit_of};

use crate::buffers::Buffers;
use crate::header::wrap_header;
use crate::open::covered_code;
use crate::opened::middle_of;
use crate::text::part_octets;
use krb_crypto::SealingKey;
use krb_der::Octets;
use sspi_core::{Message, Part};
use std::alloc::{AllocError, Global};

/// Returns the text to encrypt, with zeros for its EC octets. There is room for a checksum after it.
fn inner_text(
    alloc: Global,
    confounder: &[u8; 16],
    plain: &[u8],
    ec: u16,
    copy: &[u8; 16],
) -> Result<Vec<u8>, AllocError>
    ensures { IfOk result (λ text. text.items ≡ inner_text confounder.now plain.now (replicate ec 0) copy.now) }
{
    let mut text = Vec::with_capacity(alloc, 44 + ec as usize + plain.len())?;
    text.extend_from_slice(confounder)?;
    text.extend_from_slice(plain)?;
    let filled = text.len() + ec as usize;
    text.resize(filled, 0)?;
    text.extend_from_slice(copy)?;
    Ok(text)
}

/// Encrypts a text of at least 16 octets.
fn encrypt_whole(sealing: &SealingKey, text: &mut Vec<u8>)
    requires { 16 ≤ vec_len text.old }
    ensures size { vec_len text.new ≡ vec_len text.old }
    ensures encrypted { text.new.items ≡ cts (aes sealing.now.encryption) text.old.items }
{
    sealing.encrypt_text(text.as_mut_slice());
}

/// The encrypted text and the checksum of a message's plain data.
fn sealed_body(
    alloc: Global,
    sealing: &SealingKey,
    message: &Message,
    confounder: &[u8; 16],
    ec: u16,
    copy: &[u8; 16],
) -> Result<Vec<u8>, AllocError>
    ensures size { IfOk result (λ whole. vec_len whole ≡ 44 + ec + length (part_octets Part.Plain message.now)) }
    ensures whole { IfOk result (λ whole.
        whole.items ≡ sealed_body sealing.now message.now confounder.now (part_octets Part.Plain message.now) (replicate ec 0) copy.now) }
{
    let plain = part_octets(message, Part::Plain);
    let mut text = inner_text(alloc, confounder, plain, ec, copy)?;
    let code = covered_code(
        sealing,
        &Buffers::of(message),
        text.as_slice(),
        16 + plain.len(),
    );
    encrypt_whole(sealing, &mut text);
    text.extend_from_slice(&code)?;
    Ok(text)
}

/// Returns the token: a header, the octets of the body after the data, and the octets before the data.
fn token_of(
    alloc: Global,
    header: &[u8; 16],
    whole: &[u8],
    end: usize,
) -> Result<Vec<u8>, AllocError>
    requires start { 16 ≤ end }
    requires within { end ≤ length whole.now }
    ensures size { IfOk result (λ token. vec_len token + end ≡ 32 + length whole.now) }
    ensures token { IfOk result (λ token. token.items ≡ header.now ++ (drop end whole.now ++ take 16 whole.now)) }
{
    let mut token = Vec::with_capacity(alloc, 32 + whole.len() - end)?;
    token.extend_from_slice(header)?;
    token.extend_from_slice(&whole[end..])?;
    token.extend_from_slice(&whole[..16])?;
    Ok(token)
}

/// Seals a message's plain data. They stay where memory runs out.
pub(crate) fn seal_message(
    alloc: Global,
    sealing: &SealingKey,
    flags: u8,
    ec: u16,
    number: u32,
    confounder: &[u8; 16],
    message: &mut Message,
) -> Result<(), AllocError>
    requires plain { has_part Part.Plain message.old ≡ true }
    requires token { has_part Part.Token message.old ≡ true }
    requires room { 60 + ec ≤ limit_of (find_part Part.Token message.old) }
    ensures { MatchResult result (λ _. message.new ≡ wrapped_by sealing.now flags ec number confounder.now message.old)
        (λ _. message.new ≡ message.old) }
{
    let whole = sealed_body(
        alloc,
        sealing,
        message,
        confounder,
        ec,
        &wrap_header(flags, ec, 0, number),
    )?;
    let end = whole.len() - 28 - ec as usize;
    let header = wrap_header(flags, ec, 28, number);
    let token = token_of(alloc, &header, whole.as_slice(), end)?;
    put_sealed(
        message,
        Octets::new(token),
        Octets::new(middle_of(whole, 16, end)),
    );
    Ok(())
}

/// How much the plain data may hold, which is no less than what they do.
fn plain_limit(message: &Message) -> usize
    ensures { IfSome (find_part Part.Plain message.now) (λ b. length b.octets ≤ b.limit) }
{
    match message.find(Part::Plain) {
        Some(buffer) => buffer.limit(),
        None => 0,
    }
}

/// Puts a token and data of the same length in the place of those of a message.
fn put_sealed(message: &mut Message, token: Octets, plain: Octets)
    requires has_plain { has_part Part.Plain message.old ≡ true }
    requires has_token { has_part Part.Token message.old ≡ true }
    requires room { length token ≤ limit_of (find_part Part.Token message.old) }
    requires size { length plain ≡ length (part_octets Part.Plain message.old) }
    ensures { message.new ≡ write Part.Token token (write Part.Plain plain message.old) }
{
    let _limit = plain_limit(message);
    message.write(Part::Plain, plain);
    message.write(Part::Token, token);
}
