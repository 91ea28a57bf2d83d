//! Both ends of a connection over services: laws of the events at an initiator and at an acceptor, and of the replies to them, from
//! the initiator's start to the messages that each unwraps from the other (RFC 4120, section 3; RFC 4121, section 4).
//!
//! There is no code here that runs: each law is a function without parameters and with an empty body, whose contract is the law. They
//! are about the policy machine of `krb_machine`, and so about the replies of a service. The two ends may be connections of one
//! service or of two, and events of other connections may come between.
#![tactic(auto)]

pub mod laws;
