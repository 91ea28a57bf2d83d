//! The declarations of the lines of an input.
//!
//! [`parse_item`] reads the item that a line declares, and a [`Script`] keeps the declarations of the lines before the first
//! event: the skew, variables and files, and the ends of connections.
//!
//! [`split`] cuts a text, and [`name`], [`number`], [`octets`], [`octets_or_none`], [`optional_name`] and [`random_octets`] read
//! one field: other programs use them for their own lines.
#![tactic(auto)]

mod buffers;
mod declaration;
mod digits;
mod endpoint;
mod fields;
mod input;
mod item;
mod parts;
mod script;
mod stop;

pub use declaration::Declaration;
pub use endpoint::{Attribute, Endpoint, Role, ServiceKey};
pub use fields::{FieldError, name, number, octets, octets_or_none, optional_name, random_octets};
pub use input::Input;
pub use item::{Event, Item, parse_item};
pub use parts::split;
pub use script::Script;
pub use stop::Stop;
