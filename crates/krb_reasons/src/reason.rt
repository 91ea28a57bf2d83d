//! The reason why a line is bad.

ghost use Rattle.std.specs.Prelude.{◌≡◌, ◌++◌, codes, IfOk, string_bytes};
ghost use Rattle.std.specs.Fmt.{decimal};
ghost use Rattle.krb_reasons.specs.Wanted.{field_name, wish};
ghost use Rattle.krb_reasons.specs.Reasons.{octet_name, reason_text};

use crate::wanted::Wanted;
use std::alloc::{AllocError, Global};

/// The reason why a line is bad. A place counts the fields of the line from 1, with its word.
#[derive(Clone, Copy, Debug, PartialEq, Eq)]
pub enum Reason {
    /// The field is empty: two spaces are together, or one is at an end of the line.
    Gap { place: usize },
    /// The field has an octet that is not allowed in a field: a tab, a carriage return, or 0 for any other.
    Octet { place: usize, octet: u8 },
    /// The field is not what it should be.
    Field { place: usize, wanted: Wanted },
    /// The line ends before this field.
    Missing { place: usize, wanted: Wanted },
    /// The line has more fields than it may.
    Surplus { place: usize },
    /// Each buffer of the message is a valid field, but two of them are not allowed together.
    Buffers,
    /// No line set the skew.
    NoSkew,
    /// A line before set the skew.
    SecondSkew,
    /// An event comes before this declaration.
    AfterEvent,
    /// A connection with this number was declared before.
    DeclaredTwice { id: u32 },
    /// No connection with this number was declared before.
    NotDeclared { id: u32 },
    /// The connection is an initiator.
    KeyOfInitiator { id: u32 },
    /// The connection has a `password` or a `keytab` line.
    SecondCredentials { id: u32 },
    /// The connection has a `kdc` line.
    SecondKdc { id: u32 },
}

/// Returns an octet that is not allowed in a field, in words.
fn octet_name(octet: u8) -> &'static str
    ensures { result.now ≡ octet_name octet }
{
    match octet {
        b'\t' => "a tab",
        b'\r' => "a carriage return",
        _ => "an octet below 21 or above 7E",
    }
}

/// Returns the requirement of a field, after its place, its name and these words.
fn field_text(
    alloc: Global,
    place: usize,
    wanted: Wanted,
    words: &str,
) -> Result<String, AllocError>
    ensures { IfOk result (λ text. string_bytes text ≡ codes "field " ++ (decimal place ++ (codes ", " ++ (field_name wanted ++ (words.now ++ wish wanted))))) }
{
    let (name, wish) = (wanted.name(), wanted.wish());
    format!(in alloc; "field {place}, {name}{words}{wish}")
}

impl Reason {
    /// Returns the reason in words, without a line end.
    pub fn text(self, alloc: Global) -> Result<String, AllocError>
        ensures { IfOk result (λ text. string_bytes text ≡ reason_text self) }
    {
        match self {
            Reason::Gap { place } => format!(in alloc;
                "field {place} is empty: a line has one space between two fields, and none at either end"
            ),
            Reason::Octet { place, octet } => {
                let octet = octet_name(octet);
                format!(in alloc; "field {place} has {octet}")
            }
            Reason::Field { place, wanted } => field_text(alloc, place, wanted, ", needs "),
            Reason::Missing { place, wanted } => {
                field_text(alloc, place, wanted, ", is missing: ")
            }
            Reason::Surplus { place } => format!(in alloc; "field {place} is one too many"),
            Reason::Buffers => String::from_str(
                alloc,
                "a message has at most one buffer T, one D and one S",
            ),
            Reason::NoSkew => String::from_str(alloc, "no line skew <seconds> comes before it"),
            Reason::SecondSkew => String::from_str(alloc, "an earlier line sets the skew"),
            Reason::AfterEvent => String::from_str(alloc, "after the first event come only events"),
            Reason::DeclaredTwice { id } => {
                format!(in alloc; "an earlier line declares connection {id}")
            }
            Reason::NotDeclared { id } => {
                format!(in alloc; "no earlier line declares connection {id}")
            }
            Reason::KeyOfInitiator { id } => {
                format!(in alloc; "connection {id} is an initiator, and a key is an acceptor's")
            }
            Reason::SecondCredentials { id } => {
                format!(in alloc;
                    "an earlier line is the password or keytab line of connection {id}"
                )
            }
            Reason::SecondKdc { id } => {
                format!(in alloc; "an earlier line is the kdc line of connection {id}")
            }
        }
    }
}
