//! The service that the lines describe.
ghost use Rattle.std.specs.Prelude.{◌≡◌, ◌++◌, ◌∷◌, [], None, fold, map, IfOk, OnOk};
ghost use Rattle.krb_context.specs.ServiceKeys.{new_properties};
ghost use Rattle.krb_machine.specs.Described.{components, named_key, with_key, acceptor_properties, acceptor_context, initiator_context, connection_of, connections_with};
ghost use Rattle.krb_machine.specs.Policy.{with_connection};
ghost use Rattle.krb_machine.specs.Progress.{IsNew};

use crate::connection::Connection;
use crate::service::Service;
use krb_conf::KerberosConfig;
use krb_context::{Kerberos, ServerProperties};
use krb_der::{Name, OutOfMemory, Text, TryCopy, boxed};
use krb_replay::{ReplayBook, ReplayGate};
use krb_script::{Endpoint, Role, Script, ServiceKey};
use sspi_core::{CredentialsBuffers, Secret};
use std::alloc::{AllocError, Global};
use std::collections::BTreeMap;
use url::Url;

/// Returns the components of a service's name.
fn components(alloc: Global, service: &str) -> Result<Vec<&str>, AllocError>
    ensures { IfOk result (λ parts. map (λ part. part.now) parts.items ≡ components service.now) }
{
    service.split('/').collect(alloc)
}

fn copied_url(url: &Option<Url>) -> Result<Option<Url>, OutOfMemory>
    ensures { IfOk result (λ copy. copy ≡ url.now) }
{
    match url {
        Some(url) => Ok(Some(url.clone()?)),
        None => Ok(None),
    }
}

/// Returns the configuration of an end: its host, and the URL of its KDC.
fn config_of(alloc: Global, endpoint: &Endpoint) -> Result<KerberosConfig, OutOfMemory>
    ensures { IfOk result (λ config. config ≡ record { kdc_url = endpoint.now.kdc_url; client_computer_name = endpoint.now.host }) }
{
    let host = Text::from_str(alloc, endpoint.host.as_str())?;
    Ok(KerberosConfig {
        kdc_url: copied_url(&endpoint.kdc_url)?,
        client_computer_name: host,
    })
}

/// Returns a service without keys, of the endpoint's user. The skew is in seconds.
fn properties_of(
    alloc: Global,
    skew: u32,
    service: &Name,
    endpoint: &Endpoint,
) -> Result<Box<ServerProperties>, OutOfMemory>
    ensures { IfOk result (λ server. server.value ≡ new_properties (components service.now) endpoint.now.credentials skew None) }
{
    let parts = components(alloc, service.as_str())?;
    let user = endpoint.credentials.copy(alloc)?;
    // A name is ASCII, so that memory is all that can be missing.
    match ServerProperties::new(alloc, &parts, user, skew, None) {
        Ok(server) => boxed(alloc, server),
        Err(_) => Err(OutOfMemory),
    }
}

/// Adds a further key.
fn add_further_key(
    alloc: Global,
    key: &ServiceKey,
    server: &mut ServerProperties,
) -> Result<(), OutOfMemory>
    ensures { OnOk result (server.new ≡ record server.old { additional_service_keys = server.old.additional_service_keys ++ named_key key.now ∷ [] }) }
{
    let parts = components(alloc, key.service.as_str())?;
    let octets = Secret::new(key.octets.copy(alloc)?);
    // A name is ASCII, so that memory is all that can be missing.
    match server.add_service_key(alloc, &parts, octets) {
        Ok(()) => Ok(()),
        Err(_) => Err(OutOfMemory),
    }
}

/// Adds one key: the first for the acceptor's own service is the primary one.
fn add_key(
    alloc: Global,
    service: &Name,
    key: &ServiceKey,
    server: &mut ServerProperties,
) -> Result<(), OutOfMemory>
    ensures { OnOk result (server.new ≡ with_key service.now server.old key.now) }
{
    if key.service == *service && server.ticket_decryption_key.is_none() {
        let octets = key.octets.copy(alloc)?;
        server.ticket_decryption_key = Some(Secret::new(octets));
        return Ok(());
    }
    add_further_key(alloc, key, server)
}

/// Adds the keys of an acceptor, one after another.
fn add_keys(
    alloc: Global,
    service: &Name,
    keys: &[ServiceKey],
    server: &mut ServerProperties,
) -> Result<(), OutOfMemory>
    ensures { OnOk result (server.new ≡ fold (with_key service.now) server.old keys.now) }
{
    for key in keys {
        add_key(alloc, service, key, server)?;
    }
    Ok(())
}

fn acceptor_properties(
    alloc: Global,
    skew: u32,
    service: &Name,
    endpoint: &Endpoint,
) -> Result<Box<ServerProperties>, OutOfMemory>
    ensures { IfOk result (λ server. server.value ≡ acceptor_properties skew service.now endpoint.now) }
{
    let mut server = properties_of(alloc, skew, service, endpoint)?;
    add_keys(alloc, service, endpoint.keys.as_slice(), &mut server)?;
    Ok(server)
}

/// Returns the context of an acceptor before its exchange.
fn acceptor_context(
    alloc: Global,
    skew: u32,
    service: &Name,
    endpoint: &Endpoint,
) -> Result<Kerberos, OutOfMemory>
    ensures { IfOk result (λ context. context ≡ acceptor_context skew service.now endpoint.now) }
{
    let server = acceptor_properties(alloc, skew, service, endpoint)?;
    let config = config_of(alloc, endpoint)?;
    let number = endpoint.number.to_be_bytes();
    Kerberos::new_server_from_config(config, Box::into_inner(server), number)
}

fn set_identity(client: &mut Kerberos, identity: Option<CredentialsBuffers>)
    ensures { client.new ≡ record client.old { auth_identity = identity } }
{
    client.auth_identity = identity;
}

/// Returns the context of an initiator before its exchange.
fn initiator_context(alloc: Global, endpoint: &Endpoint) -> Result<Kerberos, OutOfMemory>
    ensures { IfOk result (λ context. context ≡ initiator_context endpoint.now) }
{
    let identity = boxed(alloc, endpoint.credentials.copy(alloc)?)?;
    let config = config_of(alloc, endpoint)?;
    let mut client = Kerberos::new_client_from_config(config, endpoint.number.to_be_bytes());
    set_identity(&mut client, Box::into_inner(identity));
    Ok(client)
}

/// Returns the connection of an end that the lines declare, before its exchange. The skew is in seconds.
pub fn connection_of(
    alloc: Global,
    skew: u32,
    endpoint: &Endpoint,
) -> Result<Connection, OutOfMemory>
    ensures { IfOk result (λ connection. connection ≡ connection_of skew endpoint.now) }
{
    match &endpoint.role {
        Role::Acceptor(service) => Ok(Connection {
            context: acceptor_context(alloc, skew, service, endpoint)?,
            target: None,
            exchange: None,
        }),
        Role::Initiator(target) => {
            let target = target.copy(alloc)?;
            Ok(Connection {
                context: initiator_context(alloc, endpoint)?,
                target,
                exchange: None,
            })
        }
    }
}

/// Puts an end into the service, at its number.
fn put_endpoint<G: ReplayGate>(
    alloc: Global,
    skew: u32,
    id: u32,
    endpoint: Endpoint,
    service: &mut Service<G>,
) -> Result<(), OutOfMemory>
    ensures { OnOk result (service.new ≡ with_connection service.old id (connection_of skew endpoint)) }
{
    let connection = connection_of(alloc, skew, &endpoint);
    drop(endpoint);
    service.put(id, connection?)
}

/// Puts each end into the service.
fn put_endpoints<G: ReplayGate>(
    alloc: Global,
    skew: u32,
    endpoints: BTreeMap<u32, Endpoint>,
    service: &mut Service<G>,
) -> Result<(), OutOfMemory>
    requires { service.old.connections ≡ [] }
    ensures { OnOk result (service.new ≡ record service.old { connections = connections_with skew endpoints.entries }) }
{
    let mut endpoints = endpoints;
    while let Some((id, endpoint)) = endpoints.pop_first() {
        put_endpoint(alloc, skew, id, endpoint, service)?;
    }
    Ok(())
}

/// Returns the service that the lines describe, over a new replay book.
pub fn service_of(alloc: Global, script: Script) -> Result<Service<ReplayBook>, OutOfMemory>
    ensures { IfOk result (IsNew script) }
{
    let (skew, env, endpoints) = script.into_parts();
    let mut service = Service::new(alloc, ReplayBook::new(alloc, skew)?);
    service.set_env(env);
    match put_endpoints(alloc, skew, endpoints, &mut service) {
        Ok(()) => Ok(service),
        Err(error) => {
            drop(service);
            Err(error)
        }
    }
}
