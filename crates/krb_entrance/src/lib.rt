//! The services of a process, for a program that embeds the acceptor: their names and keys, and the one replay book of all their
//! clients.
//!
//! ```text
//! let mut service = Service::new(alloc, "host/server.example.com", key, 300)?;
//! let session = service.accept(alloc, &token, &draw)?; // for each client
//! ```
//!
//! [`Service::judge`], which asks no book, and [`Service::admit`] are the two halves of that call. [`Keys`] judge alone, for further
//! threads.
#![tactic(auto)]

mod candidate;
mod channel;
mod connection;
mod in_turn;
mod keys;
pub mod laws;
mod one_call;
mod service;
mod told;

pub use candidate::{Candidate, admit};
pub use channel::channel_hash;
pub use in_turn::judge_in_turn;
pub use keys::Keys;
pub use service::Service;
pub use told::{admit_told, stored_record};

// Types in the signatures of this crate.
pub use krb_server::{Cause, Draw, Error, ErrorKind, Judged, MAX_MOMENT, Octets, OutOfMemory};
pub use krb_sessions::{Client, Fault, Order, Session, principal, put};
pub use sspi_core::ChannelBindings;
