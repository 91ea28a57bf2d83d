//! Lines of text in and out.
//!
//! A [`Source`] returns an input in pieces, and a [`LineReader`] cuts it into lines; [`Pieces`] holds the lines of a large piece at
//! once. [`write_line`] writes text to a [`Sink`].
//!
//! ```
//! let mut cutter = LineCutter::new(alloc);
//! cutter.feed(b"ab\nc")?; // 3: it takes the piece up to and with its first 0A
//! cutter.ready()           // Some(b"ab")
//! ```
#![tactic(auto)]

mod cutter;
mod decimal;
pub mod laws;
mod lines;
mod output;
mod outside;
mod pieces;
mod reader;
mod status;
mod words;

pub use cutter::{CutFault, LineCutter, MAX_INPUT, MAX_LINE};
pub use decimal::decimal_up_to;
pub use lines::{is_skipped, newline};
pub use output::write_line;
pub use outside::memory::{Calls, MemSink, MemSource, SureSink, SureSource};
pub use outside::standard::{StdSink, StdSource};
pub use outside::{Failed, Sink, Source};
pub use pieces::Pieces;
pub use reader::{LineReader, ReadError};
pub use status::Status;
pub use words::Words;
