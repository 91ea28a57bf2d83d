//! The initiator's end of an exchange (RFC 4120, section 3; RFC 4121, section 4.1).
//!
//! [`show_ticket`] shows the service's ticket to the service: it returns an AP-REQ, as a token, and the change of the context
//! (`ShowsTicket` of `specs/Shown`). [`take_ap_rep`] takes the service's answer, an AP-REP: a chain of ordered checks, `TakesApRep`
//! of `specs/Answered`, whose records are in `specs/ApReps`. In DCE style it returns the third leg. Another crate fetches the
//! ticket.
#![tactic(auto)]

mod ap_rep;
mod change;
mod errand;
mod initiator;
pub mod laws;
mod service;
mod show;

pub use ap_rep::generate_ap_rep;
pub use errand::Errand;
pub use initiator::{Initiator, exchange_flags};
pub use service::take_ap_rep;
pub use show::show_ticket;
