//! Plain values that calls return.

use crate::secret::Secret;
use crate::username::Username;
use krb_der::{Octets, Text};

/// The status of a context: established or not.
#[derive(Clone, Copy, Debug, PartialEq, Eq, Hash)]
pub enum SecurityStatus {
    /// The exchange is complete.
    Ok,
    /// A token of the peer is awaited.
    ContinueNeeded,
}

/// The description of a security package.
#[derive(Debug, PartialEq, Eq, Drop)]
pub struct PackageInfo {
    /// The capabilities of the package, one bit each (`SECPKG_FLAG_*` of Windows).
    pub capabilities: u32,
    /// The identifier of the package for DCE RPC; 65535 where it has none.
    pub rpc_id: u16,
    /// The longest token of the handshake, in octets.
    pub max_token_len: u32,
    pub name: Text,
    pub comment: Text,
}

/// How much room tokens take, in octets.
#[derive(Clone, Copy, Debug, PartialEq, Eq, Hash)]
pub struct ContextSizes {
    /// The longest token of the handshake.
    pub max_token: u32,
    /// The longest signature.
    pub max_signature: u32,
    /// The unit to which a text is padded; 0 where it is not.
    pub block: u32,
    /// The bytes that an encrypted message has in addition to its text.
    pub security_trailer: u32,
}

/// The user of a context.
#[derive(Debug, PartialEq, Eq, Drop)]
pub struct ContextNames {
    pub username: Username,
}

/// The key of an established context.
#[derive(PartialEq, Eq, Drop)]
pub struct SessionKeys {
    pub session_key: Secret<Octets>,
}

/// The use that credentials are for.
#[derive(Clone, Copy, Debug, PartialEq, Eq, Hash)]
pub enum CredentialUse {
    /// To admit clients.
    Inbound,
    /// To be admitted by servers.
    Outbound,
    Both,
}
