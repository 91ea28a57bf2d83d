//! The client that asks a KDC, and its key.

ghost use Rattle.std.specs.Prelude.{◌≡◌, ◌==◌, IfOk, Some, None, length, if◌then◌else◌};
ghost use Rattle.krb_crypto.specs.Suite.{key_size};
ghost use Rattle.krb_crypto.specs.Password.{password_key};
ghost use Rattle.sspi_core.specs.declared.cause.Cause.TheVariants as causes;
ghost use Rattle.sspi_core.specs.Checks.{Answers, Takes};
ghost use Rattle.krb_as.specs.Askers.{suite_for, key_for, client_key, default_salt, asker_suite, suite_told, sized_key, asker_of};

use crate::client::Client;
use krb_conf::Env;
use krb_context::{Kerberos, Rules};
use krb_crypto::{CipherSuite, generate_key_from_password};
use krb_der::{Name, Octets, OutOfMemory, Text, TryCopy};
use sspi_core::{Cause, CredentialsBuffers};
use std::alloc::Global;
use url::Url;

/// The client that asks, and its KDC. A step never changes them.
#[derive(Drop)]
pub struct Asker {
    /// The URL of the KDC, if it is known.
    pub kdc_url: Option<Url>,
    /// The variables and files in which the KDC is looked for otherwise.
    pub env: Env,
    /// The realm that is asked.
    pub realm: Name,
    /// The suite of a password's key.
    pub suite: CipherSuite,
    pub credentials: CredentialsBuffers,
    /// The rules of the client's context.
    pub rules: Rules,
}

/// Returns the KDC's URL that the client has.
fn own_url(client: &Kerberos) -> Result<Option<Url>, OutOfMemory>
    ensures { IfOk result (λ url. url ≡ client.now.config.kdc_url) }
{
    match &client.config.kdc_url {
        Some(url) => Ok(Some(url.clone()?)),
        None => Ok(None),
    }
}

impl Asker {
    /// Makes a client that asks the KDC of a realm, at its own URL if it has one, and under its suite.
    pub fn new(
        client: &Kerberos,
        credentials: CredentialsBuffers,
        realm: Name,
        env: Env,
    ) -> Result<Asker, OutOfMemory>
        ensures { IfOk result (λ asker. asker ≡ asker_of client.now credentials realm env) }
    {
        Ok(Asker {
            kdc_url: own_url(client)?,
            env,
            realm,
            suite: client.encryption_params.suite(),
            credentials,
            rules: client.rules,
        })
    }
}

/// Returns the suite of the client's key: the context's for a password, the key's own for a keytab.
fn suite_for(suite: CipherSuite, credentials: &CredentialsBuffers) -> CipherSuite
    ensures { result ≡ suite_for suite credentials.now }
{
    match credentials {
        CredentialsBuffers::AuthIdentity(_) => suite,
        CredentialsBuffers::Keytab(identity) => CipherSuite::of_etype(identity.key_enctype),
    }
}

/// The key of a password and a salt.
fn key_of_password(
    alloc: Global,
    suite: CipherSuite,
    password: &Text,
    salt: &Text,
) -> Result<Octets, OutOfMemory>
    ensures key { IfOk result (λ key. key ≡ password_key suite password.now salt.now) }
    ensures size { IfOk result (λ key. length key ≡ key_size suite) }
{
    let password = password.as_str().as_bytes();
    let key = generate_key_from_password(suite, password, salt.as_str().as_bytes());
    let octets = Octets::from_slice(alloc, key.as_slice())?;
    Ok(octets)
}

/// A keytab's key.
fn key_of_keytab(alloc: Global, suite: CipherSuite, key: &Octets) -> Result<Octets, Cause>
    ensures step { Answers (Takes causes.KeyLength (if length key.now == key_size suite then Some key.now else None)) result }
    ensures size { IfOk result (λ key. length key ≡ key_size suite) }
    ensures copied { IfOk result (λ copy. copy ≡ key.now) }
{
    if key.as_slice().len() == suite.key_size() {
        Ok(key.copy(alloc)?)
    } else {
        Err(Cause::KeyLength)
    }
}

/// The key of the credentials with a salt.
fn key_for(
    alloc: Global,
    suite: CipherSuite,
    salt: &Text,
    credentials: &CredentialsBuffers,
) -> Result<Octets, Cause>
    ensures step { Answers (Takes causes.KeyLength (key_for suite salt.now credentials.now)) result }
    ensures size { IfOk result (λ key. length key ≡ key_size suite) }
    ensures client { IfOk result (λ key. key ≡ client_key suite salt.now credentials.now) }
{
    match credentials {
        CredentialsBuffers::AuthIdentity(identity) => {
            let key = key_of_password(alloc, suite, identity.password.as_ref(), salt)?;
            Ok(key)
        }
        CredentialsBuffers::Keytab(identity) => key_of_keytab(alloc, suite, identity.key.as_ref()),
    }
}

/// Returns the salt if no KDC names one: the domain and then the user. A key of a keytab needs none.
pub fn default_salt(alloc: Global, credentials: &CredentialsBuffers) -> Result<Text, OutOfMemory>
    ensures { IfOk result (λ salt. salt ≡ default_salt credentials.now) }
{
    let mut salt = String::new(alloc);
    if let CredentialsBuffers::AuthIdentity(identity) = credentials {
        salt.push_str(identity.domain.as_str())?;
        salt.push_str(identity.user.as_str())?;
    }
    Ok(Text::new(salt))
}

/// Returns the suite of the client's key.
pub fn asker_suite(asker: &Asker) -> CipherSuite
    ensures { result ≡ asker_suite asker.now }
{
    suite_for(asker.suite, &asker.credentials)
}

/// Returns the suite of the client's key: the named one, if it is known, for a password's key; a keytab's key has its own.
pub(crate) fn suite_told(asker: &Asker, named: Option<CipherSuite>) -> CipherSuite
    ensures { result ≡ suite_told asker.now named }
{
    suite_for(named.unwrap_or(asker.suite), &asker.credentials)
}

/// Returns the client's key in a suite, with a salt. Fails with `KeyLength` if and only if it is a keytab's key and not as long as
/// the keys of the suite.
pub fn sized_key(
    alloc: Global,
    asker: &Asker,
    suite: CipherSuite,
    salt: &Text,
) -> Result<Octets, Cause>
    ensures step { Answers (Takes causes.KeyLength (sized_key asker.now suite salt.now)) result }
    ensures size { IfOk result (λ key. length key ≡ key_size suite) }
    ensures client { IfOk result (λ key. key ≡ client_key suite salt.now asker.now.credentials) }
{
    key_for(alloc, suite, salt, &asker.credentials)
}

/// Makes the asker of a context with these credentials, in the realm of their client.
pub fn asker_of(
    alloc: Global,
    context: &Kerberos,
    credentials: &CredentialsBuffers,
    env: &Env,
    client: &Client,
) -> Result<Asker, OutOfMemory>
    ensures { IfOk result (λ asker. asker ≡ asker_of context.now credentials.now client.now.realm env.now) }
{
    let credentials = credentials.copy(alloc)?;
    let realm = client.realm.copy(alloc)?;
    let env = env.copy(alloc)?;
    Asker::new(context, credentials, realm, env)
}
