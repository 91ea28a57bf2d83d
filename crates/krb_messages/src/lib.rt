//! The messages of a Kerberos ticket and of the exchange between a client and a service (RFC 4120 5.2 to 5.5).
#![tactic(auto)]

mod ap_rep;
mod ap_req;
mod authenticator;
mod authorization_data;
pub mod constants;
mod enc_ticket_part;
mod encryption;
mod frame;
mod host_address;
pub mod laws;
mod oid;
mod principal_name;
mod ticket;

pub use ap_rep::{ApRep, EncApRepPart};
pub use ap_req::ApReq;
pub use authenticator::Authenticator;
pub use authorization_data::{AuthorizationData, AuthorizationDataElement};
pub use enc_ticket_part::{EncTicketPart, TransitedEncoding};
pub use encryption::{Checksum, EncryptedData, EncryptionKey};
pub use frame::{read_any_framed, read_framed, serialize_message, write_framed};
pub use host_address::{HostAddress, HostAddresses};
pub use oid::Oid;
pub use principal_name::PrincipalName;
pub use ticket::Ticket;
