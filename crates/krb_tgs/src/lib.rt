//! The tickets that a client gets from ticket-granting services, one after the other (RFC 4120, section 3.3; RFC 6806,
//! section 8).
//!
//! [`ask_tgs`] makes the request to the KDC of a realm, [`follow`] the request after a referral. Each is one chain of ordered
//! checks in `specs/TgsAsked`. [`take_tgs_rep`] takes the ticket and the key in a reply (`specs/Taken`), and checks that it
//! answers the request (`specs/Fresh`). `specs/Chain` is the chain in which each key comes from the one before it.
#![tactic(auto)]

mod fresh;
pub mod laws;
mod replies;
mod tgs;
mod wanted;

pub use fresh::{TgsQuestion, referral_of};
pub use replies::take_tgs_rep;
pub use tgs::{Begun, ask_tgs, follow};
pub use wanted::Wanted;
