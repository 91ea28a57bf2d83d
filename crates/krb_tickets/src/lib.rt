//! Tickets that a user already has: an initiator that begins with one (RFC 4120, sections 3.2 and 3.3), and its place in a credential
//! cache.
//!
//! A [`HeldTicket`] is a ticket with its session key. [`held_of`] reads one from a credential of a cache, and [`credential_of`] makes a
//! credential of a ticket that a KDC granted. [`start_held`] begins an initiation with a ticket: it shows a service's ticket to the service
//! at once, and a ticket-granting ticket to the KDC of its realm, whose reply an [`InitRun`](krb_initiator::InitRun) awaits. No AS exchange
//! is made.
#![tactic(auto)]

mod brought;
mod cached;
mod held;
pub mod laws;
mod principals;
mod start;

pub use brought::ticket_brought;
pub use cached::{credential_of, held_of};
pub use held::HeldTicket;
pub use start::start_held;
