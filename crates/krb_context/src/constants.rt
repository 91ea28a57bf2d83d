//! Names and numbers of the package.

use krb_crypto::CipherSuite;

/// The name of the package.
pub const PKG_NAME: &str = "Kerberos";

/// The first component of the name of a ticket-granting service.
pub const TGT_SERVICE_NAME: &str = "krbtgt";

/// The first component of the name of the service that changes passwords.
pub const KADMIN: &str = "kadmin";

/// The second component of the name of the service that changes passwords.
pub const CHANGE_PASSWORD_SERVICE_NAME: &str = "changepw";

/// The suite of a context for which none was chosen.
pub const DEFAULT_ENCRYPTION_TYPE: CipherSuite = CipherSuite::Aes256CtsHmacSha196;

/// The octets, in addition to EC, by which a writer turns the body of a sealed message.
pub const RRC: u16 = 28;

/// The longest token of the handshake in octets.
pub const MAX_TOKEN: u32 = 48000;

/// The longest signature in octets.
pub const MAX_SIGNATURE: u32 = 16;

/// The octets of a sealed message in addition to its text and its EC octets.
pub const SECURITY_TRAILER: u32 = 60;
