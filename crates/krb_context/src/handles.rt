//! The identity that a context speaks for.

ghost use Rattle.std.specs.Prelude.{◌≡◌, IfOk, IfErr, OnOk, OnErr, Ok, Some, option_map};
ghost use Rattle.std.specs.Option.{option_copied};
ghost use Rattle.sspi_core.specs.CredentialBuffers.{buffers_of};
ghost use Rattle.sspi_core.specs.Kinds.{error_of};
ghost use Rattle.sspi_core.specs.declared.cause.Cause.TheVariants as causes;
ghost use Rattle.sspi_core.specs.declared.error.Place.TheVariants as places;
ghost use Rattle.krb_context.specs.Queries.{handle_of};
ghost use Rattle.krb_context.specs.Refusals.{Refuses};

use crate::context::Kerberos;
use krb_der::{OutOfMemory, TryCopy};
use sspi_core::{Cause, CredentialUse, Credentials, CredentialsBuffers, Error, Place};
use std::alloc::Global;

fn buffers_of(
    alloc: Global,
    auth: Option<&Credentials>,
) -> Result<Option<CredentialsBuffers>, OutOfMemory>
    ensures { IfOk result (λ buffers. buffers ≡ option_map buffers_of (option_copied auth.entry)) }
{
    match auth {
        Some(credentials) => Ok(Some(CredentialsBuffers::from_credentials(alloc, credentials)?)),
        None => Ok(None),
    }
}

impl Kerberos {
    /// The context speaks for these credentials from now on, or for nobody where there are none; they are given back in the
    /// parts that it keeps. Refused as `NoIdentity`, of the kind NoCredentials, exactly where an outbound use has no
    /// credentials. A refusal leaves the context.
    pub fn acquire_credentials_handle(
        &mut self,
        alloc: Global,
        credential_use: CredentialUse,
        auth: Option<&Credentials>,
    ) -> Result<Option<CredentialsBuffers>, Error>
        ensures acquired { IfOk result (λ identity. (handle_of credential_use (option_copied auth.entry) ≡ Ok identity)
            × (self.new ≡ record self.old { auth_identity = identity })) }
        ensures refused { IfErr result (λ error. Refuses places.Query (λ answer. answer ≡ handle_of credential_use (option_copied auth.entry)) error) }
        ensures stays { OnErr result (self.new ≡ self.old) }
    {
        if matches!(credential_use, CredentialUse::Outbound) && auth.is_none() {
            return Err(Error::at(Place::Query, Cause::NoIdentity));
        }
        let given = buffers_of(alloc, auth)?;
        let kept = given.copy(alloc)?;
        self.auth_identity = kept;
        Ok(given)
    }

    /// The context speaks for this identity from now on. Out of memory, it stays as it was.
    pub fn custom_set_auth_identity(
        &mut self,
        alloc: Global,
        identity: &Credentials,
    ) -> Result<(), Error>
        ensures set { OnOk result (self.new ≡ record self.old { auth_identity = Some (buffers_of identity.now) }) }
        ensures refused { IfErr result (λ error. error ≡ error_of causes.Memory) }
        ensures stays { OnErr result (self.new ≡ self.old) }
    {
        self.auth_identity = Some(CredentialsBuffers::from_credentials(alloc, identity)?);
        Ok(())
    }
}
