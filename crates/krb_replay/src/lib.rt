//! The replay cache of a Kerberos acceptor (RFC 4120 3.2.3): which authenticators were admitted, so that none is admitted
//! twice.
//!
//! A [`ReplayBook`] is asked about each authenticator, and remembers those that it admits for as long as one of them could
//! pass the test of its time again:
//!
//! ```
//! let mut book = ReplayBook::new(alloc, 300)?;
//! book.reserve(100_000)?;
//! if book.admit(ask)? == Verdict::Admitted {
//!     // The same ask is Replayed from now on.
//! }
//! ```
//!
//! Its clock is the greatest moment that it was ever asked, so that a clock that falls back admits nothing anew. Callers
//! of a gate are written for any [`ReplayGate`]; [`CacheGate`] is the one that does as the crate `sspi` does, and
//! [`TellingGate`] the one of machines that share a store.
#![tactic(auto)]

mod ask;
mod block;
mod blocks;
mod book;
mod cache;
mod clock;
mod gate;
pub mod laws;
mod record;
mod telling;

pub use ask::{Ask, Verdict};
pub use book::ReplayBook;
pub use cache::{AuthenticatorCacheRecord, AuthenticatorsCache, CacheGate};
pub use clock::is_later;
pub use gate::ReplayGate;
pub use record::Record;
pub use telling::TellingGate;
