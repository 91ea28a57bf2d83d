//! The acceptor and the initiator for programs in C and in Rust: the exports of a static library.
//!
//! A program keeps handles, each of 16 bytes that are 0 at first, and passes each to one call at a time. Nothing is required of
//! a call beyond what its types say: each checks its arguments. `menolavuri.h` declares the interface.
#![tactic(auto)]

mod accept;
mod acceptor;
mod asked;
mod authorization;
mod ccache;
mod codes;
mod copies;
mod credentials;
mod delegation;
mod error_token;
mod handed;
mod handles;
mod initiator;
mod judge;
mod judge_bound;
mod keyless;
mod keyring;
mod keyring_judge;
mod keytab;
mod messages;
mod names;
mod order;
mod reply;
mod rules;
mod sasl;
mod sasl_end;
mod sasl_frames;
mod sasl_reply;
mod sasl_steps;
mod session_key;
mod settings;
mod shows;
mod steps;
mod tells;
mod texts;
mod ticket;
mod told;

pub use accept::Moment;
pub use handles::{Acceptor, Connection, Initiator, Judgement, Ring, Sasl};
pub use reply::{Failure, Reply, Step};
pub use sasl_end::SaslEnd;
pub use sasl_reply::SaslFailure;
pub use tells::Times;
