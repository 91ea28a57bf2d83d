//! A connection whose exchange is over, and its messages, for a program that keeps them.
//!
//! A [`Session`] knows who the peer is, and encrypts and decrypts messages. A call that returns bytes takes the buffer for them.
//! If the buffer is too short the call fails with the number of the bytes, and nothing is changed: the call can be repeated.
//!
//! ```text
//! let count = session.answer(&mut room)?; // goes back to the client
//! let count = session.unwrap(alloc, sealed, &mut room)?;
//! ```
#![tactic(auto)]

mod client;
mod fault;
mod message;
mod name;
mod order;
mod room;
mod session;

pub use client::{Client, principal};
pub use fault::Fault;
pub use message::opened_in_order;
pub use order::Order;
pub use room::put;
pub use session::Session;
