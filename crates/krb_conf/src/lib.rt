//! The inputs of a Kerberos client before it sends: `krb5.conf`, realms, the address of a KDC, and the
//! names of a client and of a service.
#![tactic(auto)]

mod config;
mod config_file;
mod env;
mod kdc;
mod key;
mod krb5_conf;
mod line;
mod names;
mod reader;
mod realm;
mod relation;
mod texts;

pub use config::KerberosConfig;
pub use config_file::ConfigFile;
pub use env::Env;
pub use kdc::{detect_kdc_host, detect_kdc_url, parse_kdc_url};
pub use krb5_conf::Krb5Conf;
pub use names::{
    ClientPrincipalName, get_client_principal_name, get_client_principal_name_type,
    parse_target_name,
};
pub use realm::get_client_principal_realm;
