//! The options of an initiator's exchange with a service.

use crate::initiator::Initiator;
use krb_der::Octets;
use sspi_core::ChannelBindings;

/// The initiator, channel bindings and mechanism of an exchange with a service. A step never changes it.
#[derive(Drop)]
pub struct Errand {
    pub initiator: Initiator,
    /// The bindings of the channel below the context.
    pub bindings: Option<ChannelBindings>,
    /// The contents of the object identifier that a framed token names: that of Kerberos V5, or the one that a TGT-REP named.
    pub mechanism: Octets,
}
