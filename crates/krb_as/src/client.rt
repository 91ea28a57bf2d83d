//! The client that asks a KDC.

ghost use Rattle.std.specs.Prelude.{◌≡◌, ◌≢◌, ◌≤◌, ◌^◌, Err, IfOk, length};
ghost use Rattle.sspi_core.specs.declared.cause.Cause.TheVariants as causes;
ghost use Rattle.sspi_core.specs.Checks.{Answers, Takes, Gives};
ghost use Rattle.krb_requests.specs.Pieces.{name_of};
ghost use Rattle.krb_as.specs.Clients.{stated, realm_of, NamesClient, IsShort};

use krb_conf::{
    ClientPrincipalName, Env, get_client_principal_name, get_client_principal_name_type,
    get_client_principal_realm,
};
use krb_der::{Name, OutOfMemory, Text, TryCopy};
use krb_requests::name_of;
use sspi_core::{Cause, CredentialsBuffers};
use std::alloc::Global;

/// The maximum length, in bytes, of a text that a caller passes.
const MAX_TEXT: usize = 16_777_216;

/// A client, as it is named to a KDC.
#[derive(Drop)]
pub struct Client {
    /// Its components are cut at each slash.
    pub name: Name,
    /// 1 for an account, 10 for an enterprise name (RFC 4120, section 6.2; RFC 6806, section 5).
    pub name_type: u8,
    pub realm: Name,
    /// The name of its machine.
    pub host: Name,
}

/// Returns the name that credentials have, with its domain and its type.
fn stated(credentials: &CredentialsBuffers) -> ClientPrincipalName<'_>
    ensures name { result.name.now ≡ (stated credentials.entry.now).0 }
    ensures domain { result.realm_domain.now ≡ (stated credentials.entry.now).1 }
    ensures name_type { result.name_type ≡ (stated credentials.entry.now).2 }
{
    match credentials {
        CredentialsBuffers::AuthIdentity(identity) => ClientPrincipalName {
            name: identity.user.as_str(),
            realm_domain: identity.domain.as_str(),
            name_type: get_client_principal_name_type(
                identity.user.as_str(),
                identity.domain.as_str(),
            ),
        },
        CredentialsBuffers::Keytab(identity) => get_client_principal_name(&identity.principal),
    }
}

fn name_in(alloc: Global, credentials: &CredentialsBuffers) -> Result<Name, Cause>
    ensures { Answers (Takes causes.NotAscii (name_of (stated credentials.now).0)) result }
{
    name_of(alloc, stated(credentials).name)
}

fn realm_in(alloc: Global, env: &Env, credentials: &CredentialsBuffers) -> Result<Name, Cause>
    ensures { Answers (Takes causes.NotAscii (name_of (realm_of env.now (stated credentials.now)))) result }
{
    let stated = stated(credentials);
    let realm = get_client_principal_realm(alloc, env, stated.name, stated.realm_domain)?;
    name_of(alloc, realm.as_str())
}

fn type_in(credentials: &CredentialsBuffers) -> u8
    ensures { result ≡ (stated credentials.now).2 }
{
    stated(credentials).name_type
}

/// Makes the client with these names. Callers must pass names of at most 2^24 bytes. Fails with `Memory` if and only if a name is
/// longer.
fn sendable(name: Name, name_type: u8, realm: Name, host: Name) -> Result<Client, Cause>
    ensures made { Answers (Gives (record { name = name; name_type = name_type; realm = realm; host = host })) result }
    ensures short { IfOk result (λ client. IsShort client) }
    ensures ample { IsShort (record { name = name; name_type = name_type; realm = realm; host = host }) → result ≢ Err causes.Memory }
{
    let is_short = name.as_slice().len() <= MAX_TEXT
        && realm.as_slice().len() <= MAX_TEXT
        && host.as_slice().len() <= MAX_TEXT;
    if !is_short {
        return Err(Cause::Memory);
    }
    Ok(Client {
        name,
        name_type,
        realm,
        host,
    })
}

/// Returns the client of credentials on a machine with this name: for a password the user, for a key of a keytab its principal,
/// each in the realm that `get_client_principal_realm` finds for it.
///
/// Fails with `NotAscii` if and only if the name, the realm or the machine's name is past ASCII. Each of them must have at most 2^24
/// bytes: no client is made of longer ones, and the call fails with `Memory`.
#[tactic(auto, unfolding(crate::specs::Clients::NamesClient))]
pub fn client_of(
    alloc: Global,
    credentials: &CredentialsBuffers,
    host: &Text,
    env: &Env,
) -> Result<Client, Cause>
    ensures named { Answers (NamesClient credentials.now host.now env.now) result }
    ensures short { IfOk result (λ client. IsShort client) }
{
    let name = name_in(alloc, credentials)?;
    let realm = realm_in(alloc, env, credentials)?;
    let host = name_of(alloc, host.as_str())?;
    sendable(name, type_in(credentials), realm, host)
}

/// Returns a copy of a name, which must have at most 2^24 bytes: there is no copy of a longer one.
pub fn short_name(alloc: Global, name: &Name) -> Result<Name, OutOfMemory>
    ensures copied { IfOk result (λ copy. copy ≡ name.now) }
    ensures short { IfOk result (λ copy. length copy ≤ 2 ^ 24) }
{
    if name.as_slice().len() > MAX_TEXT {
        return Err(OutOfMemory);
    }
    name.copy(alloc)
}
