//! The acceptor's ordered checks: a client's AP-REQ is admitted, or refused by the first check that it fails (RFC 4120,
//! section 3.2.3).
//!
//! [`judge_token`] judges a token at an acceptor's context, over any replay gate, and says what the context is
//! afterwards and what the client is answered. The checks are one chain, `DecidesAdmission` of `specs/Accepts`, each with a
//! function of its own; those of the third leg of DCE style are another, `IsLastWord` of `specs/ThirdLeg`. A server calls
//! `krb_server`, which is built on this crate.
//!
//! An AP-REQ is admitted in two halves: [`judge`] without a gate and [`admit`] at one. `judge` returns a [`Judged`] for `admit`.
#![tactic(auto)]

mod admission;
mod allowed;
mod ap_rep;
mod client;
mod complete;
mod halves;
mod judged;
pub mod laws;
mod request;
mod third_leg;
mod token;
mod whole;

pub use admission::Answer;
pub use ap_rep::generate_ap_rep;
pub use client::client_upn;
pub use halves::{admit, judge, judge_with};
pub use judged::{Judged, TicketTimes};
pub use token::read_token;
pub use whole::judge_token;
