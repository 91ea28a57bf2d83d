//! User-to-user at the acceptor: a service without a key of its own sends the client the ticket that it has from a KDC, and the
//! client's ticket is then encrypted under the session key of the service's ticket (RFC 4120, section 3.7;
//! draft-swift-win2k-krb-user2user).
//!
//! [`request_tgt`] checks a TGT-REQ and begins the exchange that fetches the ticket, [`AcceptRun`], which ends with a TGT-REP
//! and with the session key as the service's key. Its steps are chains of ordered checks in `specs/`, and each has at most one
//! outcome: [`laws`].
#![tactic(auto)]

mod accept_run;
pub mod laws;
mod request;
mod steps;
mod tgt_rep;

pub use accept_run::{AcceptRun, GeneratorAcceptSecurityContext, request_tgt};
pub use request::{Acceptor, Beginning, begin_accept};
pub use steps::AcceptPhase;
pub use tgt_rep::generate_tgt_rep;
