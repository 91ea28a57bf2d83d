//! The program's console: standard streams that wait and count lines, and the report of how a run ended.
//!
//! [`PatientSource`] and [`PatientSink`] are a source and a sink over std's readers and writers. If a call was interrupted, or
//! would block, they wait and try again, and they count the line ends that went through them. [`report`] makes the one line that
//! the program writes on standard error.
//!
//! ```
//! let mut source = PatientSource::new(rt.stdin(), &rt);
//! let mut sink = PatientSink::new(rt.stdout(), &rt);
//! let status = serve(rt.alloc(), &words, &mut source, &mut sink);
//! let cause = cause_of(rt.alloc(), source.error())?;
//! let text = report(rt.alloc(), status, source.lines(), sink.lines(), &cause)?;
//! ```
#![tactic(auto)]

mod calls;
mod reports;
mod sink;
mod source;

pub use reports::{NO_MEMORY, cause_of, report};
pub use sink::PatientSink;
pub use source::PatientSource;
