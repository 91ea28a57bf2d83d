//! The result of an exchange, for a context.

use krb_context::ContextChange;
use krb_der::Octets;
use sspi_core::SecurityStatus;

/// The result of a run: `Kerberos::settle` puts the change into the context that the run began with.
#[derive(Drop)]
pub struct InitDone {
    pub status: SecurityStatus,
    /// The token for the peer.
    pub token: Octets,
    pub change: ContextChange,
}
