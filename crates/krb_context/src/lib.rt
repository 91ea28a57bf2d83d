//! Contexts, and the messages that they seal.
#![tactic(auto)]

mod buffers;
mod clear;
mod config;
mod constants;
mod context;
mod drawn;
mod handles;
mod headed;
mod header;
mod in_place;
mod kept;
pub mod laws;
mod mic;
mod open;
mod opened;
mod options;
mod params;
mod parties;
mod queries;
mod rules;
mod seal;
mod server;
mod service_keys;
mod state;
mod text;
mod unwrap;
mod window;
mod wrap;

pub use config::{KerberosServerConfig, ProtocolConfig};
pub use constants::{
    CHANGE_PASSWORD_SERVICE_NAME, DEFAULT_ENCRYPTION_TYPE, KADMIN, MAX_SIGNATURE, MAX_TOKEN,
    PKG_NAME, RRC, SECURITY_TRAILER, TGT_SERVICE_NAME,
};
pub use context::{ContextChange, Kerberos};
pub use drawn::{drawn_key, drawn_secret};
pub use kept::KeptKey;
pub use krb_messages::constants::KERBEROS_VERSION;
pub use mic::MIC_LEN;
pub use opened::OpenedText;
pub use options::{ApOptions, GssFlags, KdcOptions};
pub use params::EncryptionParams;
pub use queries::package_info;
pub use rules::Rules;
pub use server::ServerProperties;
pub use service_keys::AdditionalServiceKeys;
pub use state::KerberosState;
pub use window::{NumberVerdict, NumberWindow};
