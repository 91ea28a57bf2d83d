//! The vocabulary of the library: errors with one cause each, names, identities and buffers.
#![tactic(auto)]

mod bindings;
mod buffer;
mod cause;
mod checks;
mod draw;
mod error;
mod flags;
mod identity;
mod kdc_code;
mod kind;
pub mod laws;
mod message;
mod protocol;
mod results;
mod secret;
mod username;

pub use bindings::ChannelBindings;
pub use buffer::{BufferType, Part, SecurityBufferRef};
pub use cause::Cause;
pub use checks::{hold, pass, take};
pub use draw::{Draw, MAX_MOMENT};
pub use error::{Error, Place};
pub use flags::{ClientRequestFlags, SecurityBufferFlags, ServerRequestFlags};
pub use identity::{
    AuthIdentity, AuthIdentityBuffers, Credentials, CredentialsBuffers, KeytabIdentity,
};
pub use kdc_code::map_keb_error_code_to_sspi_error;
pub use kind::ErrorKind;
pub use message::Message;
pub use protocol::NetworkProtocol;
pub use results::{
    ContextNames, ContextSizes, CredentialUse, PackageInfo, SecurityStatus, SessionKeys,
};
pub use secret::Secret;
pub use username::{DownLevelLogonName, UserPrincipalName, Username, UsernameError, UsernameParts};
