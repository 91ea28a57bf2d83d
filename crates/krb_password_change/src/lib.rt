//! The change of a password (RFC 3244; the version and the bare new password are those of the protocol before it).
//!
//! [`change_password`] checks its arguments and begins the exchange, [`ChangePasswordRun`]: an AS exchange for a ticket to the service
//! that changes passwords, and the new password, encrypted, to that service, whose answer ends the exchange. Its steps are chains of
//! ordered checks in `specs/`.
#![tactic(auto)]

mod answer;
mod change;
mod change_run;
pub mod laws;
mod phase;
mod port;
mod request;
mod steps;

pub use change::{ChangePassword, Changer, begin_change};
pub use change_run::{ChangePasswordRun, GeneratorChangePassword, change_password};
pub use phase::{AnswerLeg, ChangePhase};
