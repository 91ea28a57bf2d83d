//! The items that lines declare.
ghost use Rattle.std.specs.Prelude.{◌≡◌, ◌∷◌, map, IfOk};
ghost use Rattle.krb_text.specs.Lines.{fields};
ghost use Rattle.krb_script.specs.Items.{event_of, item_of_fields, item_of};
ghost use Rattle.krb_script.specs.Gives.{Gives};

use crate::declaration::{Declaration, parse_declaration};
use crate::fields::{FieldError, flags, number, number_u32, random_octets};
use crate::input::{Input, parse_input};
use crate::parts::split;
use sspi_core::ClientRequestFlags;
use std::alloc::{AllocError, Global};

/// One event at a connection.
#[derive(Drop)]
pub struct Event {
    /// The connection's number. A line may, but need not, have declared it.
    pub connection: u32,
    /// Microseconds since 1970-01-01T00:00:00Z.
    pub moment: u64,
    /// The random octets that the event may draw, from the front.
    pub random: [u8; 64],
    pub flags: ClientRequestFlags,
    pub input: Input,
}

/// The item that a line declares.
#[derive(Drop)]
pub enum Item {
    Declaration(Declaration),
    Event(Event),
}

fn split_fields<'a>(alloc: Global, line: &'a [u8]) -> Result<Vec<&'a [u8]>, AllocError>
    ensures { IfOk result (λ parts. map (λ x. x.now) parts.items ≡ fields line.now) }
{
    split(alloc, b' ', line)
}

fn parse_event(alloc: Global, fields: &[&[u8]]) -> Result<Event, FieldError>
    ensures { Gives (event_of (map (λ x. x.now) fields.now)) result }
{
    let [id, moment, random, letters, input @ ..] = fields else {
        return Err(FieldError::Bad);
    };
    Ok(Event {
        connection: number_u32(id)?,
        moment: number(u64::MAX, moment)?,
        random: random_octets(random)?,
        flags: flags(letters)?,
        input: parse_input(alloc, input)?,
    })
}

fn parse_fields(alloc: Global, fields: &[&[u8]]) -> Result<Item, FieldError>
    ensures { Gives (item_of_fields (map (λ x. x.now) fields.now)) result }
{
    let [word, rest @ ..] = fields else {
        return Err(FieldError::Bad);
    };
    if *word == b"event".as_slice() {
        Ok(Item::Event(parse_event(alloc, rest)?))
    } else {
        Ok(Item::Declaration(parse_declaration(alloc, word, rest)?))
    }
}

/// Reads a line. Fails with `Bad` if the line is not in the table, and with `OutOfMemory` if memory runs out.
pub fn parse_item(alloc: Global, line: &[u8]) -> Result<Item, FieldError>
    ensures { Gives (item_of line.now) result }
{
    let fields = split_fields(alloc, line)?;
    parse_fields(alloc, &fields)
}
