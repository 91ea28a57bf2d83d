//! The client that changes a password.

ghost use Rattle.std.specs.Prelude.{◌≡◌, ◌≤◌, ◌^◌, IfOk, length};
ghost use Rattle.sspi_core.specs.Checks.{Answers, Gives};
ghost use Rattle.krb_as.specs.Askers.{asker_of};
ghost use Rattle.krb_as.specs.Clients.{IsShort};
ghost use Rattle.krb_password_change.specs.Changes.{credentials_of, changer_of, BeginsChange, IsReady};

use krb_as::{Asker, Client, client_of};
use krb_conf::Env;
use krb_context::{EncryptionParams, Kerberos, KerberosState};
use krb_der::{OutOfMemory, Text, TryCopy};
use sspi_core::{AuthIdentityBuffers, Cause, CredentialsBuffers, Secret};
use std::alloc::Global;

/// A change of a password.
#[derive(Drop)]
pub struct ChangePassword {
    pub account_name: Text,
    /// The domain of the account; empty if there is none.
    pub domain_name: Text,
    pub old_password: Secret<Text>,
    pub new_password: Secret<Text>,
}

/// The client that changes a password, and the context at the beginning. A step never changes it.
#[derive(Drop)]
pub struct Changer {
    pub asker: Asker,
    /// The client as the request to the KDC names it.
    pub client: Client,
    pub new_password: Secret<Text>,
    pub state: KerberosState,
    pub params: EncryptionParams,
    /// The context's sequence number.
    pub number: u32,
    pub user_to_user: bool,
    /// The moment of the last authenticator that the context showed, in microseconds since 1970.
    pub asked_at: Option<u64>,
}

/// Returns the user with the old password.
fn credentials_of(
    account_name: Text,
    domain_name: Text,
    old_password: Secret<Text>,
) -> CredentialsBuffers
    ensures { result ≡ credentials_of account_name domain_name old_password }
{
    CredentialsBuffers::AuthIdentity(AuthIdentityBuffers {
        user: account_name,
        domain: domain_name,
        password: old_password,
    })
}

fn asker_of(
    alloc: Global,
    context: &Kerberos,
    credentials: CredentialsBuffers,
    env: Env,
    client: &Client,
) -> Result<Asker, OutOfMemory>
    ensures { IfOk result (λ asker. asker ≡ asker_of context.now credentials client.now.realm env) }
{
    let realm = client.realm.copy(alloc)?;
    Asker::new(context, credentials, realm, env)
}

/// Returns this client, as one that changes its password.
fn changer_of(
    alloc: Global,
    context: &Kerberos,
    credentials: CredentialsBuffers,
    new_password: Secret<Text>,
    env: Env,
    client: Client,
) -> Result<Changer, Cause>
    requires client { IsShort client }
    requires new_password { length new_password ≤ 2 ^ 24 }
    ensures made { Answers (Gives (changer_of context.now credentials new_password env client)) result }
    ensures ready { IfOk result (λ changer. IsReady changer) }
{
    let asker = asker_of(alloc, context, credentials, env, &client)?;
    let params = context.encryption_params.copy(alloc)?;
    Ok(Changer {
        asker,
        client,
        new_password,
        state: context.state,
        params,
        number: context.seq_number,
        user_to_user: context.krb5_user_to_user,
        asked_at: context.asked_at,
    })
}

/// Checks the change that is asked for, as a chain of checks. Fails as `change_password`.
#[tactic(auto, using(sspi_core::proofs::Chain::chain), unfolding(crate::specs::Changes::BeginsChange))]
pub fn begin_change(
    alloc: Global,
    context: &Kerberos,
    change: ChangePassword,
    env: Env,
) -> Result<Changer, Cause>
    requires new_password { length change.new_password ≤ 2 ^ 24 }
    ensures step { Answers (BeginsChange context.now change env) result }
    ensures ready { IfOk result (λ changer. IsReady changer) }
{
    let ChangePassword {
        account_name,
        domain_name,
        old_password,
        new_password,
    } = change;
    let credentials = credentials_of(account_name, domain_name, old_password);
    let host = &context.config.client_computer_name;
    let client = client_of(alloc, &credentials, host, &env)?;
    changer_of(alloc, context, credentials, new_password, env, client)
}
