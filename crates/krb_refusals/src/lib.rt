//! The token with the reason why an acceptor refuses a client: a KRB-ERROR (RFC 4120, section 5.9.1) as a GSS token (RFC 4121,
//! section 4.1).
//!
//! ```text
//! if let Err(error) = service.accept(alloc, &token, &draw) {
//!     let token = error_token(alloc, error.cause, "host/server.example.com", "EXAMPLE.COM", draw.moment)?;
//! }
//! ```
#![tactic(auto)]

mod code;
mod error_tokens;
pub mod laws;
mod service;
mod shortest;

pub use error_tokens::error_token;
