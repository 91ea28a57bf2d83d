//! The values that a context reports about itself, and the calls that it refuses.

ghost use Rattle.std.specs.Prelude.{◌≡◌, ◌↔◌, IfOk, IfErr, Ok, Err, None, Some, if◌then◌else◌};
ghost use Rattle.sspi_core.specs.Checks.{Answers, Takes};
ghost use Rattle.sspi_core.specs.Identities.{named};
ghost use Rattle.sspi_core.specs.Kinds.{error_of};
ghost use Rattle.sspi_core.specs.declared.cause.Cause.TheVariants as causes;
ghost use Rattle.sspi_core.specs.declared.error.Place.TheVariants as places;
ghost use Rattle.krb_context.specs.Params.{key_of};
ghost use Rattle.krb_context.specs.Queries.{kerberos_package, sizes_of, own_name, name_of};
ghost use Rattle.krb_context.specs.Refusals.{Refuses};
ghost use Rattle.krb_context.specs.States.{is_final};

use crate::constants::{MAX_SIGNATURE, MAX_TOKEN, PKG_NAME, SECURITY_TRAILER};
use crate::context::Kerberos;
use krb_der::{OutOfMemory, Text, TryCopy};
use sspi_core::{
    AuthIdentityBuffers, Cause, ContextNames, ContextSizes, CredentialsBuffers, Error, PackageInfo,
    Place, Secret, SecurityStatus, SessionKeys, Username, UsernameError,
};
use std::alloc::Global;

/// Returns the description of the package: no capabilities, rpc id 65535, tokens of at most 48000 octets.
pub fn package_info(alloc: Global) -> Result<PackageInfo, OutOfMemory>
    ensures { IfOk result (λ info. info ≡ kerberos_package) }
{
    Ok(PackageInfo {
        capabilities: 0,
        rpc_id: 0xffff,
        max_token_len: MAX_TOKEN,
        name: Text::new(String::from_str(alloc, PKG_NAME)?),
        comment: Text::new(String::from_str(alloc, "Kerberos Security Package")?),
    })
}

/// The name of a user with a password, in the parts that a context keeps.
fn password_user(alloc: Global, identity: &AuthIdentityBuffers) -> Result<Username, UsernameError>
    ensures name { IfOk result (λ name. named identity.now.user identity.now.domain ≡ Some name) }
    ensures mixed { (result ≡ Err UsernameError.MixedFormat) ↔ (named identity.now.user identity.now.domain ≡ None) }
{
    let domain = identity.domain.as_str();
    if domain.is_empty() {
        Username::parse(alloc, identity.user.as_str())
    } else {
        Username::new(alloc, identity.user.as_str(), Some(domain))
    }
}

/// The name of the user that a context speaks for.
fn own_name(alloc: Global, identity: &Option<CredentialsBuffers>) -> Result<Username, Cause>
    ensures { Answers (λ answer. answer ≡ own_name identity.now) result }
{
    match identity {
        Some(CredentialsBuffers::AuthIdentity(identity)) => match password_user(alloc, identity) {
            Ok(name) => Ok(name),
            Err(UsernameError::MixedFormat) => Err(Cause::BadUser),
            Err(UsernameError::OutOfMemory) => Err(Cause::Memory),
        },
        _ => Err(Cause::NoIdentity),
    }
}

impl Kerberos {
    /// Returns the sizes of tokens and messages, in octets: 48000 for a token of the exchange, 16 for a signature, no padding, and
    /// 60 + EC for a sealed message in addition to its text. Fails with `Sequence` before the exchange is over.
    pub fn query_context_sizes(&self) -> Result<ContextSizes, Error>
        ensures { result ≡ (if is_final self.now.state then Ok (sizes_of self.now.encryption_params.ec) else Err (error_of causes.Sequence)) }
    {
        if !self.state.is_final() {
            return Err(Error::from(Cause::Sequence));
        }
        Ok(ContextSizes {
            max_token: MAX_TOKEN,
            max_signature: MAX_SIGNATURE,
            block: 0,
            security_trailer: SECURITY_TRAILER + self.encryption_params.ec as u32,
        })
    }

    /// Returns the admitted client, otherwise the user of the password that the context speaks for. Fails with `BadUser` if that is
    /// not a user name, and with `NoIdentity`, of the kind NoCredentials, if there is neither.
    pub fn query_context_names(&self, alloc: Global) -> Result<ContextNames, Error>
        ensures named { IfOk result (λ names. name_of self.now ≡ Ok names.username) }
        ensures refused { IfErr result (λ error. Refuses places.Query (λ answer. answer ≡ name_of self.now) error) }
    {
        match self.user_name(alloc) {
            Ok(username) => Ok(ContextNames { username }),
            Err(cause) => Err(Error::at(Place::Query, cause)),
        }
    }

    fn user_name(&self, alloc: Global) -> Result<Username, Cause>
        ensures { Answers (λ answer. answer ≡ name_of self.now) result }
    {
        if let Some(server) = &self.server {
            if let Some(client) = &server.client {
                return Ok(client.copy(alloc)?);
            }
        }
        own_name(alloc, &self.auth_identity)
    }

    /// Returns the key of messages. Fails with `Sequence` if there is none.
    pub fn query_context_session_key(&self, alloc: Global) -> Result<SessionKeys, Error>
        ensures key { IfOk result (λ keys. key_of self.now.encryption_params ≡ Some keys.session_key) }
        ensures refused { IfErr result (λ error. Refuses places.Elsewhere (Takes causes.Sequence (key_of self.now.encryption_params)) error) }
    {
        let Some(key) = self.encryption_params.key() else {
            return Err(Error::from(Cause::Sequence));
        };
        Ok(SessionKeys {
            session_key: Secret::new(key.copy(alloc)?),
        })
    }

    /// Returns the description of the package. Fails only if memory runs out.
    pub fn query_context_package_info(&self, alloc: Global) -> Result<PackageInfo, Error>
        ensures info { IfOk result (λ info. info ≡ kerberos_package) }
        ensures memory { IfErr result (λ error. error ≡ error_of causes.Memory) }
    {
        Ok(package_info(alloc)?)
    }

    /// Kerberos has no certificates.
    pub fn query_context_cert_trust_status(&mut self) -> Result<(), Error>
        ensures refused { result ≡ Err (error_of causes.Unsupported) }
        ensures stays { self.new ≡ self.old }
    {
        Err(Error::from(Cause::Unsupported))
    }

    /// Not offered; `generate_mic_token` makes signatures.
    pub fn make_signature(&mut self) -> Result<(), Error>
        ensures refused { result ≡ Err (error_of causes.Unsupported) }
        ensures stays { self.new ≡ self.old }
    {
        Err(Error::from(Cause::Unsupported))
    }

    /// Not offered; `verify_mic_token` reads signatures.
    pub fn verify_signature(&mut self) -> Result<(), Error>
        ensures refused { result ≡ Err (error_of causes.Unsupported) }
        ensures stays { self.new ≡ self.old }
    {
        Err(Error::from(Cause::Unsupported))
    }

    /// Nothing is left to complete.
    pub fn complete_auth_token(&mut self) -> Result<SecurityStatus, Error>
        ensures status { result ≡ Ok SecurityStatus.Ok }
        ensures stays { self.new ≡ self.old }
    {
        Ok(SecurityStatus::Ok)
    }
}
