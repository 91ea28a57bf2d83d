//! The ticket that a client asks for.

use krb_der::Name;
use sspi_core::{ChannelBindings, ClientRequestFlags};

/// The ticket that a client asks ticket-granting services for. A step never changes it.
#[derive(Drop)]
pub struct Wanted {
    /// The service and its host, with a `/` between them.
    pub target: Name,
    pub flags: ClientRequestFlags,
    /// The bindings of the channel below the context.
    pub channel_bindings: Option<ChannelBindings>,
}
