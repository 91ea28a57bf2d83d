//! The security layers of SASL GSSAPI (RFC 4752, section 3), on contexts whose exchange is over.
//!
//! A [`SaslServer`] offers layers, a [`SaslClient`] answers with one and its user's name, and the server accepts. Then each
//! end wraps data into frames, and unwraps those of the other.
//!
//! ```text
//! let mut server = SaslServer::new(context, 4, 65535)?;
//! let offer = server.offer(alloc)?;
//! let user = server.accept(alloc, answer)?;
//! let request = server.unseal(alloc, frame)?;
//! let reply = server.seal(alloc, text, confounder)?;
//! ```
#![tactic(auto)]

mod channel;
mod checks;
mod clear;
mod client;
mod error;
mod fault;
mod frame;
pub mod laws;
mod layer;
mod room;
mod server;
mod stream;
mod texts;

pub use clear::wrap_plain;
pub use client::SaslClient;
pub use error::SaslError;
pub use fault::SaslFault;
pub use layer::Layer;
pub use server::SaslServer;

// Types in the signatures of this crate.
pub use krb_sessions::Order;
