//! The reason why a line of an input is bad: the first one in reading order, with its words.
//!
//! [`reason_of`] looks at one line alone. A [`Judge`] takes the lines of an input one after another, and so finds reasons that
//! depend on the lines before: a connection that is declared twice, or not at all.
//!
//! A [`KeepingSource`] keeps what a reason needs of an input while it is read, and [`first_bad_line`] finds the line after the end:
//!
//! ```
//! let mut source = KeepingSource::new(alloc, SureSource::new(b"skew 300\nkey 1 host/server 00f\n"));
//! let status = serve(alloc, &words, &mut source, &mut sink); // BadLine
//! first_bad_line(alloc, source.kept())? // line 2: field 4, <hex>, needs an even number of hex digits, at least two
//! ```
#![tactic(auto)]

mod bad_line;
mod buffer;
mod fields;
mod head;
mod judge;
mod keeping;
mod kept;
pub mod laws;
mod reason;
mod shapes;
mod wanted;

pub use bad_line::{BadLine, first_bad_line};
pub use head::Head;
pub use judge::{Complaint, Judge};
pub use keeping::KeepingSource;
pub use kept::Kept;
pub use reason::Reason;
pub use shapes::reason_of;
pub use wanted::Wanted;
