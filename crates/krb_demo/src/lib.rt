//! The demonstration: an input of the service, in which one client sends an AP-REQ to each of `n` acceptors, and each
//! tenth is a replay of the one before it.
//!
//! The client and its ticket are made up here, so nothing but this crate is needed to try the service:
//!
//! ```text
//! let input = demonstration(alloc, 1000)?; // the octets of a text, line by line
//! ```
#![tactic(auto)]

mod client;
mod input;
mod parts;

pub use client::DemoClient;
pub use input::demonstration;
