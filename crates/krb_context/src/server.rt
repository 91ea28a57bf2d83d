//! An acceptor's names and keys.

ghost use Rattle.std.specs.Prelude.{◌≡◌, ◌++◌, ◌∷◌, [], IfOk, IfErr, OnErr, OnOk, MatchOption, map, option_map, option_copied, false, true, None};
ghost use Rattle.krb_der.specs.Schema.{is_ascii};
ghost use Rattle.sspi_core.specs.Kinds.{error_of};
ghost use Rattle.sspi_core.specs.declared.cause.Cause.TheVariants as causes;
ghost use Rattle.krb_context.specs.AdditionalKeys.{same_components};
ghost use Rattle.krb_context.specs.ServiceKeys.{all_ascii, service_named, new_properties, service_key, IsNotAscii};

use crate::service_keys::AdditionalServiceKeys;
use krb_der::{Copier, IntegerAsn1, Items, Name, Octets, OutOfMemory, TryCopy, is_ascii};
use krb_messages::PrincipalName;
use krb_messages::constants::NT_SRV_INST;
use sspi_core::{Cause, CredentialsBuffers, Error, Secret, Username};
use std::alloc::Global;

/// An acceptor's service, the keys that open tickets for it, and whom it admitted.
#[derive(Drop)]
pub struct ServerProperties {
    /// The primary name of the service.
    pub service_name: PrincipalName,
    /// The user that gets a ticket of its own for user-to-user exchanges (RFC 4120, section 3.7).
    pub user: Option<CredentialsBuffers>,
    /// The admitted client.
    pub client: Option<Username>,
    /// In seconds. Kept and not read: the replay gate has its own.
    pub max_time_skew: u32,
    /// The key of the primary name.
    pub ticket_decryption_key: Option<Secret<Octets>>,
    /// Further names of services, each with its key.
    pub additional_service_keys: AdditionalServiceKeys,
}

/// Returns whether each part is ASCII.
fn all_ascii(parts: &[&str]) -> bool
    ensures { result ≡ all_ascii (map (λ part. part.now) parts.now) }
{
    for part in parts {
        if !is_ascii(part.as_bytes()) {
            return false;
        }
    }
    true
}

/// One component, None where it is past ASCII.
fn component(alloc: Global, part: &str) -> Result<Option<Name>, OutOfMemory>
    ensures { IfOk result (λ name. MatchOption name (is_ascii part.now ≡ false) (λ n. n ≡ part.now)) }
{
    Ok(Name::new(Vec::from_slice(alloc, part.as_bytes())?))
}

/// The components, None where one is past ASCII.
fn components(alloc: Global, parts: &[&str]) -> Result<Option<Items<Name>>, OutOfMemory>
    ensures { IfOk result (λ names. MatchOption names (all_ascii (map (λ part. part.now) parts.now) ≡ false) (λ n. n ≡ map (λ part. part.now) parts.now)) }
{
    let mut names = Vec::with_capacity(alloc, parts.len())?;
    for part in parts {
        let Some(name) = component(alloc, part)? else {
            return Ok(None);
        };
        names.push(name)?;
    }
    Ok(Some(Items::new(names)))
}

/// The name of a service with these components.
fn service_named(alloc: Global, parts: &[&str]) -> Result<PrincipalName, Error>
    ensures named { IfOk result (λ name. name ≡ service_named (map (λ part. part.now) parts.now)) }
    ensures not_ascii { all_ascii (map (λ part. part.now) parts.now) ≡ false → result ≡ Err (error_of causes.NotAscii) }
    ensures refused { IfErr result (IsNotAscii (map (λ part. part.now) parts.now)) }
{
    if !all_ascii(parts) {
        return Err(Error::from(Cause::NotAscii));
    }
    let Some(name_string) = components(alloc, parts)? else {
        return Err(Error::from(Cause::NotAscii));
    };
    let mut name_type = Vec::new(alloc);
    name_type.push(NT_SRV_INST)?;
    Ok(PrincipalName {
        name_type: IntegerAsn1::from_bytes_be(name_type),
        name_string,
    })
}

fn same_components(a: &Items<Name>, b: &Items<Name>) -> bool
    ensures { result ≡ same_components a.now b.now }
{
    a.as_slice() == b.as_slice()
}

impl ServerProperties {
    /// A service with these components, a name of type 2 (RFC 4120, section 6.2), that admitted nobody and has no further
    /// keys. Refused as `NotAscii` exactly where a component is past ASCII.
    pub fn new(
        alloc: Global,
        sname: &[&str],
        user: Option<CredentialsBuffers>,
        max_time_skew: u32,
        ticket_decryption_key: Option<Secret<Octets>>,
    ) -> Result<ServerProperties, Error>
        ensures made { IfOk result (λ server. server ≡ new_properties (map (λ part. part.now) sname.now) user max_time_skew ticket_decryption_key) }
        ensures not_ascii { all_ascii (map (λ part. part.now) sname.now) ≡ false → result ≡ Err (error_of causes.NotAscii) }
        ensures refused { IfErr result (IsNotAscii (map (λ part. part.now) sname.now)) }
    {
        Ok(ServerProperties {
            service_name: service_named(alloc, sname)?,
            user,
            client: None,
            max_time_skew,
            ticket_decryption_key,
            additional_service_keys: AdditionalServiceKeys::empty(alloc),
        })
    }

    /// Adds a further service and its key, after the existing ones. Fails with `NotAscii` exactly if a component is not ASCII;
    /// after an error the properties are unchanged.
    pub fn add_service_key(
        &mut self,
        alloc: Global,
        sname: &[&str],
        key: Secret<Octets>,
    ) -> Result<(), Error>
        ensures added { OnOk result (self.new ≡ record self.old {
          additional_service_keys = self.old.additional_service_keys ++ (service_named (map (λ part. part.now) sname.now), key) ∷ [];
        }) }
        ensures not_ascii { all_ascii (map (λ part. part.now) sname.now) ≡ false → result ≡ Err (error_of causes.NotAscii) }
        ensures refused { IfErr result (IsNotAscii (map (λ part. part.now) sname.now)) }
        ensures stays { OnErr result (self.new ≡ self.old) }
    {
        let name = service_named(alloc, sname)?;
        self.additional_service_keys.push(alloc, name, key)?;
        Ok(())
    }

    /// Returns the key that opens tickets for a service, by the components of its name alone: the primary key if the primary name
    /// has these components and there is one, otherwise the key of the first further name with these components.
    #[tactic(auto, unfolding(crate::specs::ServiceKeys::service_key))]
    pub fn ticket_decryption_key_for(&self, ticket_sname: &PrincipalName) -> Option<&Secret<Octets>>
        ensures { option_map (λ key. key.now) result ≡ service_key self.now ticket_sname.now.name_string }
    {
        let components = &ticket_sname.name_string;
        if same_components(&self.service_name.name_string, components) {
            if let Some(key) = &self.ticket_decryption_key {
                return Some(key);
            }
        }
        self.additional_service_keys.find(components)
    }
}

impl TryCopy for ServerProperties {
    fn copy(&self, alloc: Global) -> Result<ServerProperties, OutOfMemory> {
        let mut copier = Copier::new(alloc);
        let copy = ServerProperties {
            service_name: copier.copy(&self.service_name),
            user: copier.copy(&self.user),
            client: copier.copy(&self.client),
            max_time_skew: self.max_time_skew,
            ticket_decryption_key: copier.copy(&self.ticket_decryption_key),
            additional_service_keys: copier.copy(&self.additional_service_keys),
        };
        copier.finish(copy)
    }
}
