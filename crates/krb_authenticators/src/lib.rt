//! The messages that authenticate a client to a service or to a ticket-granting service: authenticators, and the messages that
//! carry one.
//!
//! Each record is computed by a definition in `specs/`: `Checksums` and `Bindings` for the checksum of flags and channel
//! bindings (RFC 4121, section 4.1.1), `Authenticators` and `ApRequests` (RFC 4120, section 5.5.1), `TgsRequests` (section
//! 5.4.1), `Passwords` for a change of a password (section 5.7.1; RFC 3244, section 2).
#![tactic(auto)]

mod ap_req;
mod authenticator;
mod bindings;
mod checksum;
mod options;
mod password;
mod tgs_req;

pub use ap_req::{generate_ap_req, generate_tgs_ap_req};
pub use authenticator::generate_authenticator;
pub use bindings::bindings_hash;
pub use checksum::ChecksumValues;
pub use options::{
    AuthenticatorChecksumExtension, ChecksumOptions, EncKey, GenerateAuthenticatorOptions,
    GenerateTgsReqOptions,
};
pub use password::generate_krb_priv_request;
pub use tgs_req::generate_tgs_req;
