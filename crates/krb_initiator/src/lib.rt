//! The initiator whole: from the credentials of a client to a context that is established (RFC 4120, section 3; RFC 4121,
//! section 4.1).
//!
//! [`initialize_security_context`] reads the caller's options and begins an [`InitRun`], a task: it fetches the service's ticket
//! from KDCs and shows it to the service, or asks the service for the service's own ticket, or takes the service's answer. The
//! beginning is `BeginsInitiation` of `specs/Beginnings`, a chain of ordered checks, and so is each step, in `specs/InitSteps`.
#![tactic(auto)]

mod as_steps;
mod begin;
mod init_run;
pub mod laws;
mod options;
mod seeker;
mod service_steps;
mod tgs_steps;
mod tgt;
mod tgt_req;

pub use begin::{Identity, begin_initiation};
pub use init_run::{GeneratorInitSecurityContext, InitRun, initialize_security_context};
pub use options::InitOptions;
pub use seeker::{InitPhase, Initiation, Seeker, TgsLeg};
pub use tgs_steps::{first_tickets, question_of};
pub use tgt::ServiceTgt;
