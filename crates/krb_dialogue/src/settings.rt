//! The settings of a dialogue.

ghost use Rattle.std.specs.Prelude.{◌≡◌, ◌++◌, ◌∷◌, [], Some, None, ◌==◌, ◌||◌, IsTrue, IfOk, IfErr, OnOk, OnErr};
ghost use Rattle.std.specs.Int.{from_be_bytes, w32};
ghost use Rattle.sspi_core.specs.Bindings.{is_bindings, bindings};
ghost use Rattle.sspi_core.specs.Checks.{Answers, Holds, Takes};
ghost use Rattle.sspi_core.specs.Usernames.{parsed};
ghost use Rattle.sspi_core.specs.declared.cause.Cause.TheVariants as causes;
ghost use Rattle.sspi_core.specs.declared.error.Place.TheVariants as places;
ghost use Rattle.krb_context.specs.Refusals.{Refuses};
ghost use Rattle.krb_requests.specs.Pieces.{name_of};
ghost use Rattle.krb_sessions.specs.declared.order.Order.TheVariants as orders;
ghost use Rattle.krb_dialogue.specs.Settings.{
  IsNew,
  first_context,
  first_options,
  with_credentials,
  with_bindings,
  with_variable,
  with_file,
  with_kdc,
  with_rules,
  password_of,
  data_bindings,
  SetsKey,
  NamesKey,
  AreBindings,
};

use crate::dialogue::{Dialogue, Turn};
use crate::held::HeldSession;
use krb_conf::{ConfigFile, Env, KerberosConfig, parse_kdc_url};
use krb_context::{Kerberos, Rules};
use krb_der::{Items, Name, Octets, OutOfMemory, Text, boxed};
use krb_initiator::InitOptions;
use krb_requests::name_of;
use krb_sessions::{Order, Session};
use sspi_core::{
    AuthIdentityBuffers, Cause, ChannelBindings, ClientRequestFlags, CredentialsBuffers, Error,
    KeytabIdentity, Secret, Username, UsernameError,
};
use std::alloc::Global;
use std::mem;

/// Returns options with a service alone.
fn first_options(alloc: Global, target: Name, flags: ClientRequestFlags) -> InitOptions
    ensures { result ≡ first_options target flags }
{
    InitOptions {
        flags,
        target: Some(target),
        token: Octets::new(Vec::new(alloc)),
        credentials: None,
        channel_bindings: None,
        env: Env::new(alloc),
    }
}

/// Returns a context before its exchange, with no token. It has the rules of the RFCs.
fn first_session(alloc: Global, machine: &str, number: [u8; 4]) -> Result<HeldSession, OutOfMemory>
    ensures context { IfOk result (λ session. session.connection ≡ first_context machine.now (from_be_bytes w32 number)) }
    ensures token { IfOk result (λ session. session.answer ≡ []) }
    ensures order { IfOk result (λ session. session.order ≡ orders.Any) }
    ensures nobody { IfOk result (λ session. session.client ≡ None) }
{
    let config = KerberosConfig {
        kdc_url: None,
        client_computer_name: Text::from_str(alloc, machine)?,
    };
    let mut connection = Kerberos::new_client_from_config(config, number);
    connection.rules = Rules::rfc();
    let answer = Octets::new(Vec::new(alloc));
    let client = None;
    HeldSession::new(
        alloc,
        Session {
            answer,
            connection,
            client,
            order: Order::Any,
        },
    )
}

/// Returns a new dialogue on the heap.
fn first_dialogue(
    alloc: Global,
    target: Name,
    machine: &str,
    flags: ClientRequestFlags,
    number: [u8; 4],
) -> Result<Box<Dialogue>, OutOfMemory>
    ensures { IfOk result (λ dialogue. IsNew target machine.now flags (from_be_bytes w32 number) dialogue.value) }
{
    let session = first_session(alloc, machine, number)?;
    let options = first_options(alloc, target, flags);
    boxed(
        alloc,
        Dialogue {
            options,
            session,
            turn: Turn::Rests,
            held: None,
        },
    )
}

/// Fails with `Etype` if a key may not be of this type.
fn check_etype(etype: u8) -> Result<(), Cause>
    ensures check { Holds causes.Etype (etype == 17 || etype == 18) result }
    ensures known { OnOk result (IsTrue (etype == 17 || etype == 18)) }
{
    match etype {
        17 | 18 => Ok(()),
        _ => Err(Cause::Etype),
    }
}

/// Returns the user that a text names, as `alice@EXAMPLE.COM`.
fn user_in(alloc: Global, principal: &str) -> Result<Username, Cause>
    ensures { Answers (Takes causes.BadUser (parsed principal.now)) result }
{
    match Username::parse(alloc, principal) {
        Ok(name) => Ok(name),
        Err(UsernameError::MixedFormat) => Err(Cause::BadUser),
        Err(UsernameError::OutOfMemory) => Err(Cause::Memory),
    }
}

/// Returns the user of a key of this type.
#[tactic(auto, unfolding(crate::specs::Settings::NamesKey))]
fn key_user(alloc: Global, principal: &str, etype: u8) -> Result<Username, Cause>
    ensures user { Answers (NamesKey principal.now etype) result }
    ensures known { OnOk result (IsTrue (etype == 17 || etype == 18)) }
{
    check_etype(etype)?;
    user_in(alloc, principal)
}

/// Returns a user with a key of a keytab.
fn key_of(user: Username, etype: u8, key: Octets) -> KeytabIdentity
    requires { IsTrue (etype == 17 || etype == 18) }
    ensures principal { result.principal ≡ user }
    ensures etype { result.key_enctype ≡ etype }
    ensures key { result.key ≡ key }
{
    KeytabIdentity {
        principal: user,
        key: Secret::new(key),
        key_enctype: etype,
    }
}

/// Returns bindings to the application's data alone.
fn data_bindings(alloc: Global, octets: &[u8]) -> Result<ChannelBindings, OutOfMemory>
    ensures { IfOk result (λ bindings. bindings ≡ data_bindings octets.now) }
{
    Ok(ChannelBindings {
        initiator_addr_type: 0,
        initiator: Octets::new(Vec::new(alloc)),
        acceptor_addr_type: 0,
        acceptor: Octets::new(Vec::new(alloc)),
        application_data: Octets::from_slice(alloc, octets)?,
    })
}

/// Adds one more pair after the existing ones. If memory runs out the pairs are unchanged.
fn push<V: Drop>(
    alloc: Global,
    pairs: &mut Items<(Text, V)>,
    pair: (Text, V),
) -> Result<(), OutOfMemory>
    ensures pushed { OnOk result (pairs.new ≡ pairs.old ++ pair ∷ []) }
    ensures stays { OnErr result (pairs.new ≡ pairs.old) }
{
    let mut list = mem::replace(pairs, Items::new(Vec::new(alloc))).into_inner();
    let pushed = list.push(pair);
    *pairs = Items::new(list);
    pushed?;
    Ok(())
}

impl Dialogue {
    /// Returns a dialogue of an initiator at this machine with a service, as `host/server.example.com`. The number is the first
    /// sequence number of this end, four random bytes. Fails with `NotAscii` if the target is not ASCII. The dialogue has the rules
    /// of the RFCs: `Rules::rfc()`, all rules that there are.
    ///
    /// `set_password`, `set_key`, `set_ticket` or `set_ccache` sets the client, and the last one of them counts; `set_kdc`, or the variables
    /// and files that are added, set the KDCs. These calls may be made at any time: an exchange that has begun goes on with what it began
    /// with.
    #[tactic(auto, using(crate::proofs::Led::refuses))]
    pub fn new(
        alloc: Global,
        target: &str,
        machine: &str,
        flags: ClientRequestFlags,
        number: [u8; 4],
    ) -> Result<Box<Dialogue>, Error>
        ensures made { IfOk result (λ dialogue. IsNew target.now machine.now flags (from_be_bytes w32 number) dialogue.value) }
        ensures refused { IfErr result (Refuses places.Elsewhere (Takes causes.NotAscii (name_of target.now))) }
    {
        match name_of(alloc, target) {
            Ok(target) => Ok(first_dialogue(alloc, target, machine, flags, number)?),
            Err(cause) => Err(Error::from(cause)),
        }
    }

    /// Sets the KDC of the client's own realm, as `tcp://kdc.example.com:88`. An address that is no URL unsets it, and KDCs are
    /// looked up in the variables and files.
    pub fn set_kdc(&mut self, alloc: Global, address: &str) -> Result<(), OutOfMemory>
        ensures set { OnOk result (self.new ≡ with_kdc address.now self.old) }
        ensures stays { OnErr result (self.new ≡ self.old) }
    {
        self.session.session.connection.config.kdc_url = parse_kdc_url(alloc, address)?;
        Ok(())
    }

    /// Sets the rules of the context: these from now on, and no others. A new dialogue has those of `Rules::rfc()`. Without
    /// `FRESH_REPLIES` and `ANSWERS_ITS_AUTHENTICATOR` a recorded log-in can be played back to it.
    ///
    /// `start` and `hear` read the rules when they begin, and an exchange with KDCs that has begun goes on with those that it began
    /// with. The new rules apply to all that begins later: the next `start` or `hear`, and the messages of the session.
    pub fn set_rules(&mut self, rules: Rules)
        ensures set { self.new ≡ with_rules rules self.old }
    {
        self.session.session.set_rules(rules);
    }

    /// Sets a user, its realm, which may be empty, and its password. Drops a ticket that was set.
    pub fn set_password(
        &mut self,
        alloc: Global,
        user: &str,
        domain: &str,
        password: &str,
    ) -> Result<(), OutOfMemory>
        ensures set { OnOk result (self.new ≡ with_credentials (password_of user.now domain.now password.now) self.old) }
        ensures stays { OnErr result (self.new ≡ self.old) }
    {
        let user = Text::from_str(alloc, user)?;
        let domain = Text::from_str(alloc, domain)?;
        let password = Secret::new(Text::from_str(alloc, password)?);
        self.options.credentials = Some(CredentialsBuffers::AuthIdentity(AuthIdentityBuffers {
            user,
            domain,
            password,
        }));
        self.held = None;
        Ok(())
    }

    /// Sets a user, as `alice@EXAMPLE.COM`, with a key of a keytab: the bytes of its entry, and their type, 17 or 18 (RFC 3962). Drops a
    /// ticket that was set. Fails with `Etype` if the type is another, and with `BadUser` if the name has both signs of a name.
    #[tactic(auto, using(crate::proofs::Led::refuses))]
    pub fn set_key(
        &mut self,
        alloc: Global,
        principal: &str,
        etype: u8,
        key: &[u8],
    ) -> Result<(), Error>
        ensures set { OnOk result (SetsKey principal.now etype key.now self.old self.new) }
        ensures refused { IfErr result (Refuses places.Elsewhere (NamesKey principal.now etype)) }
        ensures stays { OnErr result (self.new ≡ self.old) }
    {
        match key_user(alloc, principal, etype) {
            Ok(user) => {
                let key = Octets::from_slice(alloc, key)?;
                let identity = key_of(user, etype, key);
                self.options.credentials = Some(CredentialsBuffers::Keytab(identity));
                self.held = None;
                Ok(())
            }
            Err(cause) => Err(Error::from(cause)),
        }
    }

    /// Adds a variable of the environment, after the existing ones; the first of a name counts.
    pub fn add_variable(
        &mut self,
        alloc: Global,
        name: &str,
        value: &str,
    ) -> Result<(), OutOfMemory>
        ensures added { OnOk result (self.new ≡ with_variable name.now value.now self.old) }
        ensures stays { OnErr result (self.new ≡ self.old) }
    {
        let name = Text::from_str(alloc, name)?;
        let value = Text::from_str(alloc, value)?;
        push(alloc, &mut self.options.env.vars, (name, value))
    }

    /// Adds the text of a file, as that of `/etc/krb5.conf`, after the existing ones; the first of a path counts.
    pub fn add_file(&mut self, alloc: Global, path: &str, text: &str) -> Result<(), OutOfMemory>
        ensures added { OnOk result (self.new ≡ with_file path.now text.now self.old) }
        ensures stays { OnErr result (self.new ≡ self.old) }
    {
        let path = Text::from_str(alloc, path)?;
        let file = ConfigFile::new(alloc, Text::from_str(alloc, text)?)?;
        push(alloc, &mut self.options.env.files, (path, file))
    }

    /// Sets bindings to the channel below, as `ChannelBindings::from_bytes` reads them. Fails with `Bindings` if they are none.
    pub fn set_bindings(&mut self, alloc: Global, octets: &[u8]) -> Result<(), Error>
        ensures set { OnOk result (IsTrue (is_bindings octets.now) × (self.new ≡ with_bindings (bindings octets.now) self.old)) }
        ensures refused { IfErr result (Refuses places.Elsewhere (AreBindings octets.now)) }
        ensures stays { OnErr result (self.new ≡ self.old) }
    {
        match ChannelBindings::from_bytes(alloc, octets) {
            Ok(bindings) => {
                self.options.channel_bindings = Some(bindings);
                Ok(())
            }
            Err(error) => Err(error),
        }
    }

    /// Sets bindings to data of the application alone, as a TLS channel has them (RFC 5929).
    pub fn bind_to(&mut self, alloc: Global, octets: &[u8]) -> Result<(), OutOfMemory>
        ensures set { OnOk result (self.new ≡ with_bindings (data_bindings octets.now) self.old) }
        ensures stays { OnErr result (self.new ≡ self.old) }
    {
        let bindings = data_bindings(alloc, octets)?;
        self.options.channel_bindings = Some(bindings);
        Ok(())
    }
}
