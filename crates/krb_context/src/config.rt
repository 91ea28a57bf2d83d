//! The configurations that contexts are made from.

ghost use Rattle.std.specs.Prelude.{◌≡◌, IfOk};
ghost use Rattle.std.specs.Int.{from_be_bytes, w32};
ghost use Rattle.krb_context.specs.Configs.{instance_of};

use crate::context::Kerberos;
use crate::server::ServerProperties;
use krb_conf::KerberosConfig;
use krb_der::{OutOfMemory, TryCopy};
use std::alloc::Global;

/// The configuration of an acceptor.
#[derive(Drop)]
pub struct KerberosServerConfig {
    pub kerberos_config: KerberosConfig,
    pub server_properties: ServerProperties,
}

/// The configuration of a context.
#[derive(Drop)]
pub enum ProtocolConfig {
    Client(KerberosConfig),
    Server(KerberosServerConfig),
}

impl ProtocolConfig {
    /// Makes a context before its exchange, from a copy of the configuration. Its sequence number is made of the random bytes,
    /// in big-endian order.
    pub fn new_instance(&self, alloc: Global, random: [u8; 4]) -> Result<Kerberos, OutOfMemory>
        ensures { IfOk result (λ context. context ≡ instance_of self.now (from_be_bytes w32 random)) }
    {
        match self {
            ProtocolConfig::Client(config) => Ok(Kerberos::new_client_from_config(
                config.copy(alloc)?,
                random,
            )),
            ProtocolConfig::Server(config) => Kerberos::new_server_from_config(
                config.kerberos_config.copy(alloc)?,
                config.server_properties.copy(alloc)?,
                random,
            ),
        }
    }
}

impl TryCopy for KerberosServerConfig {
    fn copy(&self, alloc: Global) -> Result<KerberosServerConfig, OutOfMemory> {
        Ok(KerberosServerConfig {
            kerberos_config: self.kerberos_config.copy(alloc)?,
            server_properties: self.server_properties.copy(alloc)?,
        })
    }
}
