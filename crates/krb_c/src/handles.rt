//! The handles that C keeps.

mod acceptor;
mod dialogue;
mod judgement;
mod keyring;
mod parts;
mod sasl;
mod session;

pub use acceptor::Acceptor;
pub use dialogue::Initiator;
pub use judgement::Judgement;
pub use keyring::Ring;
pub use sasl::Sasl;
pub use session::Connection;
