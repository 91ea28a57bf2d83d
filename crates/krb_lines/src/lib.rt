//! A server over lines of text.
//!
//! [`serve_lines`] reads an input line by line, passes each line to a [`LineTaker`], and writes the text that the taker makes of it
//! before it reads on. It ends with one last line and a status, which follow from the taker's counts.
//!
//! The contract says how a call ends, and what it has written then: `specs/Answering.antt` has a line for each status.
#![tactic(auto)]

mod closing;
mod halt;
mod server;
mod taker;

pub use closing::numbered_line;
pub use halt::Halt;
pub use server::{answer_lines, serve_lines};
pub use taker::{LineError, LineTaker, ROOM};
