//! The identity that a context acts for: a user with a password or a key.

ghost use Rattle.std.specs.Prelude.{◌≡◌, ◌↔◌, ◌==◌, ◌||◌, IfOk, IsTrue, None, Some};
ghost use Rattle.sspi_core.specs.Identities.{named};

use crate::secret::Secret;
use crate::username::{Username, UsernameError, UsernameParts};
use krb_der::{Octets, OutOfMemory, Text, TryCopy};
use std::alloc::Global;

/// A user with a password.
#[derive(PartialEq, Eq, Drop)]
pub struct AuthIdentity {
    pub username: Username,
    pub password: Secret<Text>,
}

/// A user with a password, in the parts that a caller keeps.
#[derive(PartialEq, Eq, Drop)]
pub struct AuthIdentityBuffers {
    /// A whole user principal name, or an account.
    pub user: Text,
    /// Empty where there is none.
    pub domain: Text,
    pub password: Secret<Text>,
}

/// A user with a key.
#[derive(PartialEq, Eq, Drop)]
pub struct KeytabIdentity {
    pub principal: Username,
    pub key: Secret<Octets>,
    /// The encryption type of the key, 17 or 18 (RFC 3962 section 7).
    pub key_enctype: u8,
    ghost known: { IsTrue (key_enctype == 17 || key_enctype == 18) },
}

/// Credentials, in the parts that a context keeps.
#[derive(PartialEq, Eq, Drop)]
pub enum CredentialsBuffers {
    AuthIdentity(AuthIdentityBuffers),
    Keytab(KeytabIdentity),
}

/// Credentials, as a caller passes them.
#[derive(PartialEq, Eq, Drop)]
pub enum Credentials {
    AuthIdentity(AuthIdentity),
    Keytab(KeytabIdentity),
}

impl AuthIdentityBuffers {
    ghost use Rattle.sspi_core.specs.CredentialBuffers.{identity_buffers};

    /// Returns the parts of an identity: the whole text of a user principal name and no domain, otherwise the account and its domain.
    pub fn from_identity(
        alloc: Global,
        identity: &AuthIdentity,
    ) -> Result<AuthIdentityBuffers, OutOfMemory>
        ensures { IfOk result (λ buffers. buffers ≡ identity_buffers identity.now) }
    {
        let (user, domain) = match identity.username.parts() {
            UsernameParts::UserPrincipalName(name) => (name.upn(), ""),
            UsernameParts::DownLevelLogonName(name) => {
                (name.account_name(), name.netbios_domain().unwrap_or(""))
            }
        };
        Ok(AuthIdentityBuffers {
            user: Text::from_str(alloc, user)?,
            domain: Text::from_str(alloc, domain)?,
            password: identity.password.copy(alloc)?,
        })
    }
}

impl AuthIdentity {
    /// Returns the identity of these parts: without a domain, the name that the user text is; otherwise the account with this domain.
    pub fn from_buffers(
        alloc: Global,
        buffers: &AuthIdentityBuffers,
    ) -> Result<AuthIdentity, UsernameError>
        ensures username { IfOk result (λ identity. named buffers.now.user buffers.now.domain ≡ Some identity.username) }
        ensures password { IfOk result (λ identity. identity.password ≡ buffers.now.password) }
        ensures mixed { (result ≡ Err UsernameError.MixedFormat) ↔ (named buffers.now.user buffers.now.domain ≡ None) }
    {
        let domain = buffers.domain.as_str();
        let username = if domain.is_empty() {
            Username::parse(alloc, buffers.user.as_str())?
        } else {
            Username::new(alloc, buffers.user.as_str(), Some(domain))?
        };
        Ok(AuthIdentity {
            username,
            password: buffers.password.copy(alloc)?,
        })
    }
}

impl CredentialsBuffers {
    ghost use Rattle.sspi_core.specs.CredentialBuffers.{buffers_of};

    /// The parts of credentials.
    pub fn from_credentials(
        alloc: Global,
        credentials: &Credentials,
    ) -> Result<CredentialsBuffers, OutOfMemory>
        ensures { IfOk result (λ buffers. buffers ≡ buffers_of credentials.now) }
    {
        match credentials {
            Credentials::AuthIdentity(identity) => Ok(CredentialsBuffers::AuthIdentity(
                AuthIdentityBuffers::from_identity(alloc, identity)?,
            )),
            Credentials::Keytab(identity) => Ok(CredentialsBuffers::Keytab(identity.copy(alloc)?)),
        }
    }
}

impl TryCopy for AuthIdentityBuffers {
    fn copy(&self, alloc: Global) -> Result<AuthIdentityBuffers, OutOfMemory> {
        Ok(AuthIdentityBuffers {
            user: self.user.copy(alloc)?,
            domain: self.domain.copy(alloc)?,
            password: self.password.copy(alloc)?,
        })
    }
}

impl TryCopy for KeytabIdentity {
    fn copy(&self, alloc: Global) -> Result<KeytabIdentity, OutOfMemory> {
        Ok(KeytabIdentity {
            principal: self.principal.copy(alloc)?,
            key: self.key.copy(alloc)?,
            key_enctype: self.key_enctype,
        })
    }
}

impl TryCopy for CredentialsBuffers {
    fn copy(&self, alloc: Global) -> Result<CredentialsBuffers, OutOfMemory> {
        match self {
            CredentialsBuffers::AuthIdentity(identity) => {
                Ok(CredentialsBuffers::AuthIdentity(identity.copy(alloc)?))
            }
            CredentialsBuffers::Keytab(identity) => {
                Ok(CredentialsBuffers::Keytab(identity.copy(alloc)?))
            }
        }
    }
}
