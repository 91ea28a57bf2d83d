//! The context of a connection.

ghost use Rattle.std.specs.Prelude.{◌≡◌, Ok, IfOk, None, Some, is_none};
ghost use Rattle.std.specs.Int.{from_be_bytes, w32};
ghost use Rattle.krb_context.specs.Params.{default_params};
ghost use Rattle.krb_context.specs.Contexts.{new_context, next_number, settled, with_key, kdc_of};

use crate::kept::KeptKey;
use crate::params::EncryptionParams;
use crate::rules::Rules;
use crate::server::ServerProperties;
use crate::state::KerberosState;
use crate::window::NumberWindow;
use krb_conf::{Env, KerberosConfig};
use krb_der::{Copier, Octets, OutOfMemory, Text, TryCopy};
use sspi_core::{CredentialsBuffers, Secret};
use std::alloc::Global;
use url::Url;

/// One end of a connection: an initiator, or an acceptor where `server` is there.
#[derive(Drop)]
pub struct Kerberos {
    /// How far the exchange has come.
    pub state: KerberosState,
    pub config: KerberosConfig,
    /// The identity that an initiator speaks for.
    pub auth_identity: Option<CredentialsBuffers>,
    pub encryption_params: EncryptionParams,
    /// The number of the last message that this end wrapped or signed; the next has one more, going round at 2^32.
    pub seq_number: u32,
    pub realm: Option<Text>,
    /// True if the ticket is encrypted under the session key of the peer's ticket: user-to-user (RFC 4120, section 3.7).
    pub krb5_user_to_user: bool,
    /// The service of an acceptor; an initiator has none.
    pub server: Option<ServerProperties>,
    /// The rules beyond those that a context always has: none in a new one.
    pub rules: Rules,
    /// The MD5 of the bindings of an acceptor's channel (RFC 4121, section 4.1.1.2), where its caller has them.
    pub channel: Option<[u8; 16]>,
    /// The moment of the authenticator that an initiator showed last, in microseconds since 1970. An AP-REP repeats it.
    pub asked_at: Option<u64>,
    /// The numbers of the messages that were opened.
    pub window: NumberWindow,
    /// The derived keys of the messages that this end seals. Contracts see nothing of them; `KeptKey::new()` makes them.
    pub kept_to_seal: KeptKey,
    /// The derived keys of what this end opens: messages, and before them an acceptor's tickets.
    pub kept_to_open: KeptKey,
}

/// The changes that an exchange makes to a context.
#[derive(Drop)]
pub struct ContextChange {
    pub state: KerberosState,
    pub realm: Option<Text>,
    pub encryption_params: EncryptionParams,
    pub seq_number: u32,
    pub krb5_user_to_user: bool,
    pub asked_at: Option<u64>,
    /// The key of an acceptor's own ticket, which becomes its primary key.
    pub ticket_decryption_key: Option<Secret<Octets>>,
}

fn new_context(
    params: EncryptionParams,
    config: KerberosConfig,
    server: Option<ServerProperties>,
    random: [u8; 4],
) -> Kerberos
    ensures { result ≡ new_context params config server (from_be_bytes w32 random) }
{
    Kerberos {
        state: KerberosState::TgtExchange,
        config,
        auth_identity: None,
        encryption_params: params,
        seq_number: u32::from_be_bytes(random),
        realm: None,
        krb5_user_to_user: false,
        server,
        rules: Rules::none(),
        channel: None,
        asked_at: None,
        window: NumberWindow::new(),
        kept_to_seal: KeptKey::new(),
        kept_to_open: KeptKey::new(),
    }
}

/// The properties with another primary key, where there is one.
fn with_key(server: ServerProperties, key: Option<Secret<Octets>>) -> ServerProperties
    ensures { result ≡ with_key key server }
{
    let mut server = server;
    if let Some(key) = key {
        server.ticket_decryption_key = Some(key);
    }
    server
}

impl Kerberos {
    /// An initiator before its exchange. Its number is made of the random octets, the highest first.
    pub fn new_client_from_config(config: KerberosConfig, random: [u8; 4]) -> Kerberos
        ensures { result ≡ new_context (default_params 24 22) config None (from_be_bytes w32 random) }
    {
        new_context(EncryptionParams::default_for_client(), config, None, random)
    }

    /// An acceptor before its exchange. Its number is made of the random octets, the highest first. It takes no memory.
    pub fn new_server_from_config(
        config: KerberosConfig,
        server_properties: ServerProperties,
        random: [u8; 4],
    ) -> Result<Kerberos, OutOfMemory>
        ensures { result ≡ Ok (new_context (default_params 22 24) config (Some server_properties) (from_be_bytes w32 random)) }
    {
        Ok(new_context(
            EncryptionParams::default_for_server(),
            config,
            Some(server_properties),
            random,
        ))
    }

    /// Returns whether this end is the initiator.
    pub fn is_client(&self) -> bool
        ensures { result ≡ is_none self.now.server }
    {
        self.server.is_none()
    }

    pub fn config(&self) -> &KerberosConfig
        ensures { result.now ≡ self.now.config }
    {
        &self.config
    }

    /// The number of the next message, which becomes the context's.
    pub fn next_seq_number(&mut self) -> u32
        ensures number { result ≡ next_number self.old.seq_number }
        ensures kept { self.new ≡ record self.old { seq_number = next_number self.old.seq_number } }
    {
        self.seq_number = self.seq_number.wrapping_add(1);
        self.seq_number
    }

    /// Returns the context's realm and the URL of its KDC: the configured URL, otherwise the one that `detect_kdc_url` finds.
    /// Returns None if either is none.
    pub fn get_kdc(&self, alloc: Global, env: &Env) -> Result<Option<(Text, Url)>, OutOfMemory>
        ensures { IfOk result (λ kdc. kdc ≡ kdc_of self.now env.now) }
    {
        let Some(realm) = &self.realm else {
            return Ok(None);
        };
        let config = self.config.copy(alloc)?;
        match config.get_kdc_url(alloc, env, realm.as_str())? {
            Some(url) => Ok(Some((realm.copy(alloc)?, url))),
            None => Ok(None),
        }
    }

    /// Applies the changes of an exchange to the context.
    pub fn settle(&mut self, change: ContextChange)
        ensures { self.new ≡ settled self.old change }
    {
        let ContextChange {
            state,
            realm,
            encryption_params,
            seq_number,
            krb5_user_to_user,
            asked_at,
            ticket_decryption_key,
        } = change;
        self.state = state;
        self.realm = realm;
        self.encryption_params = encryption_params;
        self.seq_number = seq_number;
        self.krb5_user_to_user = krb5_user_to_user;
        self.asked_at = asked_at;
        self.server = match self.server.take() {
            Some(server) => Some(with_key(server, ticket_decryption_key)),
            None => None,
        };
    }
}

impl TryCopy for Kerberos {
    fn copy(&self, alloc: Global) -> Result<Kerberos, OutOfMemory> {
        let config = self.config.copy(alloc)?;
        let mut copier = Copier::new(alloc);
        let copy = Kerberos {
            state: self.state,
            config,
            auth_identity: copier.copy(&self.auth_identity),
            encryption_params: copier.copy(&self.encryption_params),
            seq_number: self.seq_number,
            realm: copier.copy(&self.realm),
            krb5_user_to_user: self.krb5_user_to_user,
            server: copier.copy(&self.server),
            rules: self.rules,
            channel: self.channel,
            asked_at: self.asked_at,
            window: self.window,
            kept_to_seal: KeptKey::new(),
            kept_to_open: KeptKey::new(),
        };
        copier.finish(copy)
    }
}
