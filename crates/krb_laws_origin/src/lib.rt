//! The origin of the session keys of a service's initiators: laws over every list of events (RFC 4120, section 3).
//!
//! There is no code here that runs: each law is a function without parameters and with an empty body, whose contract is the law. They
//! are about the policy machine of `krb_machine`, and so about the replies of a service.
#![tactic(auto)]

pub mod laws;
