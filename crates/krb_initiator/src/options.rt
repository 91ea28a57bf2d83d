//! The options of an initiator's caller.

use krb_conf::Env;
use krb_der::{Name, Octets};
use sspi_core::{ChannelBindings, ClientRequestFlags, CredentialsBuffers};

/// The options of an initiator's caller.
#[derive(Drop)]
pub struct InitOptions {
    pub flags: ClientRequestFlags,
    /// The service and its host, with a `/` between them.
    pub target: Option<Name>,
    /// The service's last token; empty at the beginning.
    pub token: Octets,
    /// The credentials of the client.
    pub credentials: Option<CredentialsBuffers>,
    /// The bindings of the channel below the context.
    pub channel_bindings: Option<ChannelBindings>,
    /// The environment in which KDCs are looked up.
    pub env: Env,
}
