//! Both ends of a connection: laws of an initiator and an acceptor together, from the credentials of a client to the messages that
//! each opens of the other (RFC 4120, section 3; RFC 4121, section 4).
//!
//! There is no code here that runs: each law is a function without parameters and with an empty body, whose contract is the law. They
//! speak of the definitions that the contracts of `krb_initiator`, `krb_server` and `krb_context` speak of, and so of what those do.
#![tactic(auto)]

pub mod laws;
