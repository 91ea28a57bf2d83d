//! One end of a connection, as its lines declare it.

ghost use Rattle.std.specs.Prelude.{◌≡◌};
ghost use Rattle.krb_script.specs.Endpoints.{new_endpoint, with_attribute, is_acceptor};

use crate::fields::FieldError;
use krb_der::{Name, Octets, OutOfMemory};
use sspi_core::CredentialsBuffers;
use std::alloc::Global;
use std::marker::Model;
use url::Url;

/// Which end a connection is.
#[derive(Drop)]
pub enum Role {
    /// An acceptor of this service, by its name as it is in the line, with a `/` between two components.
    Acceptor(Name),
    /// An initiator, and the name of the service that it speaks to.
    Initiator(Option<Name>),
}

/// A key of an acceptor.
#[derive(Drop)]
pub struct ServiceKey {
    /// The name of its service, as a line has it.
    pub service: Name,
    pub octets: Octets,
}

/// Keys in the order of their lines.
#[derive(Drop)]
pub struct ServiceKeys {
    keys: Vec<ServiceKey>,
}

impl Model for ServiceKeys {
    ghost use Rattle.std.specs.Prelude.{List};
    ghost use Rattle.krb_script.specs.declared.endpoint.ServiceKey.{ServiceKey};

    ghost Value = { List ServiceKey };

    ghost view = { λ k. k.keys.items };
}

impl ServiceKeys {
    ghost use Rattle.std.specs.Prelude.{[], ◌∷◌, ◌++◌, OnOk, OnErr};

    pub(crate) fn new(alloc: Global) -> ServiceKeys
        ensures { result ≡ [] }
    {
        ServiceKeys {
            keys: Vec::new(alloc),
        }
    }

    pub fn as_slice(&self) -> &[ServiceKey]
        ensures { result.now ≡ self.now }
    {
        self.keys.as_slice()
    }

    /// Appends one key. After an error the keys are as they were.
    pub(crate) fn push(&mut self, key: ServiceKey) -> Result<(), OutOfMemory>
        ensures ok { OnOk result (self.new ≡ self.old ++ key ∷ []) }
        ensures err { OnErr result (self.new ≡ self.old) }
    {
        self.keys.push(key)?;
        Ok(())
    }
}

/// One end of a connection.
#[derive(Drop)]
pub struct Endpoint {
    pub role: Role,
    /// Its first sequence number.
    pub number: u32,
    pub host: Name,
    /// The keys of an acceptor.
    pub keys: ServiceKeys,
    /// The user of an initiator or of an acceptor.
    pub credentials: Option<CredentialsBuffers>,
    pub kdc_url: Option<Url>,
}

/// An attribute that a line adds to an end that is declared.
#[derive(Drop)]
pub enum Attribute {
    Key(ServiceKey),
    Credentials(CredentialsBuffers),
    /// The address of the end's KDC.
    Kdc(Url),
}

impl Role {
    pub fn is_acceptor(&self) -> bool
        ensures { result ≡ is_acceptor self.now }
    {
        match self {
            Role::Acceptor(_) => true,
            Role::Initiator(_) => false,
        }
    }
}

impl Endpoint {
    ghost use Rattle.std.specs.Prelude.{OnErr};
    ghost use Rattle.krb_script.specs.Gives.{GivesAfter};

    /// Returns an end of which one line is known.
    pub(crate) fn new(alloc: Global, role: Role, number: u32, host: Name) -> Endpoint
        ensures { result ≡ new_endpoint role number host }
    {
        Endpoint {
            role,
            number,
            host,
            keys: ServiceKeys::new(alloc),
            credentials: None,
            kdc_url: None,
        }
    }

    /// Adds an attribute. Fails with `Bad` for a key of an initiator, and for a second set of credentials or a second URL. After an
    /// error the end is as it was.
    pub(crate) fn add(&mut self, attribute: Attribute) -> Result<(), FieldError>
        ensures given { GivesAfter (with_attribute self.old attribute) result self.new }
        ensures err { OnErr result (self.new ≡ self.old) }
    {
        match attribute {
            Attribute::Key(key) if self.role.is_acceptor() => self.keys.push(key)?,
            Attribute::Credentials(credentials) if self.credentials.is_none() => {
                self.credentials = Some(credentials);
            }
            Attribute::Kdc(url) if self.kdc_url.is_none() => self.kdc_url = Some(url),
            _ => return Err(FieldError::Bad),
        }
        Ok(())
    }
}
