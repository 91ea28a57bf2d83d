//! A TGT-REQ, up to the request to the KDC.

ghost use Rattle.std.specs.Prelude.{◌≡◌, ◌≤◌, ◌^◌, IfOk, Err, Result, length};
ghost use Rattle.sspi_core.specs.declared.cause.Cause.{Cause};
ghost use Rattle.sspi_core.specs.declared.cause.Cause.TheVariants as causes;
ghost use Rattle.sspi_core.specs.Kinds.{error_of};
ghost use Rattle.sspi_core.specs.Checks.{Answers, Gives, Holds};
ghost use Rattle.krb_as.specs.Clients.{IsShort};
ghost use Rattle.krb_user_to_user.specs.TgtRequests.{is_bare, is_own, has_password, acceptor_of, RequestsTgt, CanBegin};

use krb_as::{Asker, Client, asker_of, client_of};
use krb_conf::Env;
use krb_context::{EncryptionParams, Kerberos};
use krb_der::TryCopy;
use krb_exchange::TgtReq;
use krb_messages::PrincipalName;
use sspi_core::{Cause, CredentialsBuffers, hold};
use std::alloc::Global;

/// A service that fetches its ticket, as its context is at the beginning. A step never changes it.
#[derive(Drop)]
pub struct Acceptor {
    pub asker: Asker,
    pub params: EncryptionParams,
    /// The sequence number of the context.
    pub number: u32,
    /// True if tokens are bare: DCE style.
    pub dce: bool,
}

/// The beginning of the exchange with the KDC.
#[derive(Drop)]
pub struct Beginning {
    pub acceptor: Acceptor,
    /// The service as a user.
    pub client: Client,
}

/// Returns whether the name is the service's own.
fn is_own(name: &PrincipalName, server: &Kerberos) -> bool
    ensures { result ≡ is_own name.now server.now.server }
{
    match &server.server {
        None => false,
        Some(server) => {
            server.service_name.name_type == name.name_type
                && server.service_name.name_string == name.name_string
        }
    }
}

fn check_name(server: &Kerberos, tgt_req: &TgtReq) -> Result<(), Cause>
    ensures { Holds causes.ServerName (is_own tgt_req.now.server_name server.now.server) result }
{
    hold(is_own(&tgt_req.server_name, server), Cause::ServerName)
}

fn check_user(credentials: &CredentialsBuffers) -> Result<(), Cause>
    ensures { Holds causes.KeytabUser (has_password credentials.now) result }
{
    hold(
        matches!(credentials, CredentialsBuffers::AuthIdentity(_)),
        Cause::KeytabUser,
    )
}

/// Returns the beginning of the exchange of this client.
fn exchange_of(
    alloc: Global,
    server: &Kerberos,
    credentials: &CredentialsBuffers,
    dce: bool,
    env: &Env,
    client: Client,
) -> Result<Beginning, Cause>
    requires { IsShort client }
    ensures made { Answers (Gives (record { acceptor = acceptor_of server.now credentials.now dce env.now client; client = client })) result }
    ensures ready { IfOk result (λ beginning. CanBegin beginning) }
{
    let asker = asker_of(alloc, server, credentials, env, &client)?;
    let params = server.encryption_params.copy(alloc)?;
    let acceptor = Acceptor {
        asker,
        params,
        number: server.seq_number,
        dce,
    };
    Ok(Beginning { acceptor, client })
}

/// Checks a TGT-REQ, as a chain of checks, and returns the beginning of the exchange with the KDC. Fails with the errors of
/// `request_tgt`.
#[tactic(auto, unfolding(crate::specs::TgtRequests::RequestsTgt))]
pub fn begin_accept(
    alloc: Global,
    server: &Kerberos,
    credentials: &CredentialsBuffers,
    tgt_req: &TgtReq,
    dce: bool,
    env: &Env,
) -> Result<Beginning, Cause>
    ensures step { Answers (RequestsTgt server.now credentials.now tgt_req.now dce env.now) result }
    ensures ready { IfOk result (λ beginning. CanBegin beginning) }
{
    check_name(server, tgt_req)?;
    check_user(credentials)?;
    let host = &server.config.client_computer_name;
    let client = client_of(alloc, credentials, host, env)?;
    exchange_of(alloc, server, credentials, dce, env, client)
}
