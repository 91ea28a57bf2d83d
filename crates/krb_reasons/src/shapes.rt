//! The fields of each line, and the first that is wrong.

ghost use Rattle.std.specs.Prelude.{◌≡◌, ◌<◌, ◌≤◌, ◌+◌, ◌^◌, map, length, is_some, unwrap_or, not, IfOk};
ghost use Rattle.krb_text.specs.Lines.{fields};
ghost use Rattle.krb_script.specs.Items.{item_of};
ghost use Rattle.krb_reasons.specs.declared.reason.Reason.TheVariants.{Buffers};
ghost use Rattle.krb_reasons.specs.Shapes.{
  declaration_shape,
  buffers_shape,
  input_shape,
  event_shape,
  rest_shape,
  odd_octet,
  wrong_in,
  first_wrong,
  wrong_in_fields,
  reason_of,
};

use crate::fields::{fits, is_name};
use crate::reason::Reason;
use crate::wanted::Wanted;
use krb_der::OutOfMemory;
use krb_script::{FieldError, parse_item, split};
use std::alloc::{AllocError, Global};

static SKEW: [Wanted; 1] = [Wanted::Seconds];

static ACCEPTOR: [Wanted; 4] = [Wanted::Id, Wanted::Number, Wanted::Host, Wanted::Service];

static INITIATOR: [Wanted; 4] = [Wanted::Id, Wanted::Number, Wanted::Host, Wanted::Target];

static KEY: [Wanted; 3] = [Wanted::Id, Wanted::Service, Wanted::Hex];

static PASSWORD: [Wanted; 4] = [Wanted::Id, Wanted::User, Wanted::Domain, Wanted::Utf8];

static KEYTAB: [Wanted; 4] = [Wanted::Id, Wanted::Principal, Wanted::KeyType, Wanted::Hex];

static KDC: [Wanted; 2] = [Wanted::Id, Wanted::Url];

static ENV: [Wanted; 2] = [Wanted::Variable, Wanted::Utf8];

static FILE: [Wanted; 2] = [Wanted::Path, Wanted::Utf8];

/// The fields after the word of an event, up to the word of its input.
static EVENT: [Wanted; 5] = [
    Wanted::Id,
    Wanted::Moment,
    Wanted::Random,
    Wanted::Flags,
    Wanted::Input,
];

static NONE: [Wanted; 0] = [];

static ONE: [Wanted; 1] = [Wanted::HexOrNone];

static TWO: [Wanted; 2] = [Wanted::HexOrNone, Wanted::HexOrNone];

static CODE: [Wanted; 1] = [Wanted::Number];

static BUFFERS: [Wanted; 16] = [Wanted::Buffer; 16];

/// Returns the fields after the word of a line other than an event's.
fn declaration_shape(word: &[u8]) -> &'static [Wanted]
    ensures shape { result.now ≡ declaration_shape word.now }
    ensures short { length result.now ≤ 16 }
{
    if word == b"skew".as_slice() {
        SKEW.as_slice()
    } else if word == b"acceptor".as_slice() {
        ACCEPTOR.as_slice()
    } else if word == b"initiator".as_slice() {
        INITIATOR.as_slice()
    } else if word == b"key".as_slice() {
        KEY.as_slice()
    } else if word == b"password".as_slice() {
        PASSWORD.as_slice()
    } else if word == b"keytab".as_slice() {
        KEYTAB.as_slice()
    } else if word == b"kdc".as_slice() {
        KDC.as_slice()
    } else if word == b"env".as_slice() {
        ENV.as_slice()
    } else if word == b"file".as_slice() {
        FILE.as_slice()
    } else {
        NONE.as_slice()
    }
}

/// Returns as many buffers as there are fields, from one to 16.
#[tactic(auto, using(crate::proofs::ShapeLemmas::buffers_taken))]
fn buffers_shape(count: usize) -> &'static [Wanted]
    ensures shape { result.now ≡ buffers_shape count }
    ensures short { length result.now ≤ 16 }
{
    &BUFFERS[..count.max(1).min(16)]
}

/// Returns the fields after the word of an input that has `count` fields.
fn input_shape(word: &[u8], count: usize) -> &'static [Wanted]
    ensures shape { result.now ≡ input_shape word.now count }
    ensures short { length result.now ≤ 16 }
{
    if word == b"token".as_slice() || word == b"reply".as_slice() || word == b"mic".as_slice() {
        ONE.as_slice()
    } else if word == b"verify".as_slice() {
        TWO.as_slice()
    } else if word == b"fault".as_slice() {
        CODE.as_slice()
    } else if word == b"wrap".as_slice() || word == b"unwrap".as_slice() {
        buffers_shape(count)
    } else {
        NONE.as_slice()
    }
}

/// Returns the fields after the word of an event with these texts.
#[tactic(auto, using(crate::proofs::ShapeLemmas::mapped_count))]
fn event_shape(alloc: Global, fields: &[&[u8]]) -> Result<Vec<Wanted>, AllocError>
    ensures shape { IfOk result (λ shape. shape.items ≡ event_shape (map (λ x. x.now) fields.now)) }
    ensures short { IfOk result (λ shape. length shape.items ≤ 21) }
{
    let mut shape = Vec::from_slice(alloc, &EVENT)?;
    if let [_, _, _, _, word, input @ ..] = fields {
        shape.extend_from_slice(input_shape(word, input.len()))?;
    }
    Ok(shape)
}

/// Returns the fields after the word of a line.
fn rest_shape(alloc: Global, word: &[u8], rest: &[&[u8]]) -> Result<Vec<Wanted>, AllocError>
    ensures shape { IfOk result (λ shape. shape.items ≡ rest_shape word.now (map (λ x. x.now) rest.now)) }
    ensures short { IfOk result (λ shape. length shape.items ≤ 21) }
{
    if word == b"event".as_slice() {
        event_shape(alloc, rest)
    } else {
        Vec::from_slice(alloc, declaration_shape(word))
    }
}

/// Returns an octet that is not allowed in a field: a tab or a carriage return if there is one, and 0 for any other.
fn odd_octet(text: &[u8]) -> u8
    ensures { result ≡ odd_octet text.now }
{
    if text.contains(&b'\t') {
        b'\t'
    } else if text.contains(&b'\r') {
        b'\r'
    } else {
        0
    }
}

/// Returns the reason why one field is wrong, or None if it is right.
fn wrong_in(
    alloc: Global,
    place: usize,
    wanted: Wanted,
    text: &[u8],
) -> Result<Option<Reason>, OutOfMemory>
    ensures { IfOk result (λ reason. reason ≡ wrong_in place wanted text.now) }
{
    if text.is_empty() {
        return Ok(Some(Reason::Gap { place }));
    }
    if !is_name(text) {
        let octet = odd_octet(text);
        return Ok(Some(Reason::Octet { place, octet }));
    }
    if fits(alloc, wanted, text)? {
        Ok(None)
    } else {
        Ok(Some(Reason::Field { place, wanted }))
    }
}

/// Returns the reason for the first field that is wrong, if any. `place` is the place of the first of these fields.
fn first_wrong(
    alloc: Global,
    place: usize,
    shape: &[Wanted],
    fields: &[&[u8]],
) -> Result<Option<Reason>, OutOfMemory>
    requires { place + length shape.now < 2 ^ 32 }
    ensures { IfOk result (λ reason. reason ≡ first_wrong place shape.now (map (λ x. x.now) fields.now)) }
{
    match (shape, fields) {
        ([], []) => Ok(None),
        ([], [_, ..]) => Ok(Some(Reason::Surplus { place })),
        ([wanted, ..], []) => Ok(Some(Reason::Missing {
            place,
            wanted: *wanted,
        })),
        ([wanted, more @ ..], [text, rest @ ..]) => match wrong_in(alloc, place, *wanted, text)? {
            Some(reason) => Ok(Some(reason)),
            None => first_wrong(alloc, place + 1, more, rest),
        },
    }
}

/// Returns the reason for the first field of a line that is wrong, if any.
fn wrong_in_fields(alloc: Global, fields: &[&[u8]]) -> Result<Option<Reason>, OutOfMemory>
    ensures { IfOk result (λ reason. reason ≡ wrong_in_fields (map (λ x. x.now) fields.now)) }
{
    let [word, rest @ ..] = fields else {
        return Ok(None);
    };
    if let Some(reason) = wrong_in(alloc, 1, Wanted::Word, word)? {
        return Ok(Some(reason));
    }
    let shape = rest_shape(alloc, word, rest)?;
    first_wrong(alloc, 2, &shape, rest)
}

fn split_fields<'a>(alloc: Global, line: &'a [u8]) -> Result<Vec<&'a [u8]>, AllocError>
    ensures { IfOk result (λ parts. map (λ x. x.now) parts.items ≡ fields line.now) }
{
    split(alloc, b' ', line)
}

/// Returns the reason why a line that is not in the table is wrong.
fn wrong_in_line(alloc: Global, line: &[u8]) -> Result<Reason, OutOfMemory>
    ensures { IfOk result (λ reason. reason ≡ unwrap_or (wrong_in_fields (fields line.now)) Buffers) }
{
    let fields = split_fields(alloc, line)?;
    match wrong_in_fields(alloc, &fields)? {
        Some(reason) => Ok(reason),
        None => Ok(Reason::Buffers),
    }
}

/// Returns the reason why a line that is not skipped is no line of the table, and None exactly if it is one. The reason is the first
/// in reading order. If each field is right, the reason is `Buffers`.
#[tactic(auto, unfolding(crate::specs::Shapes::reason_of))]
pub fn reason_of(alloc: Global, line: &[u8]) -> Result<Option<Reason>, OutOfMemory>
    ensures exact { IfOk result (λ reason. is_some reason ≡ not (is_some (item_of line.now))) }
    ensures first { IfOk result (λ reason. reason ≡ reason_of line.now) }
{
    match parse_item(alloc, line) {
        Ok(_) => Ok(None),
        Err(FieldError::OutOfMemory) => Err(OutOfMemory),
        Err(FieldError::Bad) => Ok(Some(wrong_in_line(alloc, line)?)),
    }
}
