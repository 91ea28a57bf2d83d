//! The declarations of the lines before the first event.

ghost use Rattle.std.specs.Prelude.{map};
ghost use Rattle.krb_script.specs.Declarations.{
  skew_of,
  variable_of,
  file_of,
  acceptor_of,
  initiator_of,
  key_of,
  password_of,
  username_of,
  keytab_identity,
  keytab_of,
  url_of,
  kdc_of,
  declaration_of,
};
ghost use Rattle.krb_script.specs.Gives.{Gives};

use crate::endpoint::{Attribute, Endpoint, Role, ServiceKey};
use crate::fields::{
    FieldError, name, named_text, number, number_u32, octets, optional_name, text, text_or_none,
};
use krb_conf::{ConfigFile, parse_kdc_url};
use krb_der::{Octets, Text};
use sspi_core::{
    AuthIdentityBuffers, CredentialsBuffers, KeytabIdentity, Secret, Username, UsernameError,
};
use std::alloc::Global;
use url::Url;

/// The declaration of a line before the first event.
#[derive(Drop)]
pub enum Declaration {
    /// The clock skew that is allowed, in seconds.
    Skew(u32),
    /// A variable of the environment, and its value.
    Variable(Text, Text),
    /// The path of a file, and the file.
    File(Text, ConfigFile),
    /// One end of a connection, at the connection's number.
    Endpoint(u32, Endpoint),
    /// An attribute that is added to the end with this number.
    Attribute(u32, Attribute),
}

/// The greatest skew that a line may set: a day, in seconds.
pub const MAX_SKEW: u64 = 86_400;

fn parse_skew(fields: &[&[u8]]) -> Result<Declaration, FieldError>
    ensures { Gives (skew_of (map (λ x. x.now) fields.now)) result }
{
    let [seconds] = fields else {
        return Err(FieldError::Bad);
    };
    let seconds = number(MAX_SKEW, seconds)?;
    Ok(Declaration::Skew(seconds as u32))
}

fn parse_variable(alloc: Global, fields: &[&[u8]]) -> Result<Declaration, FieldError>
    ensures { Gives (variable_of (map (λ x. x.now) fields.now)) result }
{
    let [name, value] = fields else {
        return Err(FieldError::Bad);
    };
    let name = named_text(alloc, name)?;
    let value = text(alloc, value)?;
    Ok(Declaration::Variable(name, value))
}

fn parse_file(alloc: Global, fields: &[&[u8]]) -> Result<Declaration, FieldError>
    ensures { Gives (file_of (map (λ x. x.now) fields.now)) result }
{
    let [path, contents] = fields else {
        return Err(FieldError::Bad);
    };
    let path = named_text(alloc, path)?;
    let contents = ConfigFile::new(alloc, text(alloc, contents)?)?;
    Ok(Declaration::File(path, contents))
}

/// Reads the line of an acceptor, after its word.
fn parse_acceptor(alloc: Global, fields: &[&[u8]]) -> Result<Declaration, FieldError>
    ensures { Gives (acceptor_of (map (λ x. x.now) fields.now)) result }
{
    let [id, number, host, service] = fields else {
        return Err(FieldError::Bad);
    };
    let id = number_u32(id)?;
    let number = number_u32(number)?;
    let host = name(alloc, host)?;
    let role = Role::Acceptor(name(alloc, service)?);
    Ok(Declaration::Endpoint(id, Endpoint::new(alloc, role, number, host)))
}

/// Reads the line of an initiator, after its word.
fn parse_initiator(alloc: Global, fields: &[&[u8]]) -> Result<Declaration, FieldError>
    ensures { Gives (initiator_of (map (λ x. x.now) fields.now)) result }
{
    let [id, number, host, target] = fields else {
        return Err(FieldError::Bad);
    };
    let id = number_u32(id)?;
    let number = number_u32(number)?;
    let host = name(alloc, host)?;
    let role = Role::Initiator(optional_name(alloc, target)?);
    Ok(Declaration::Endpoint(id, Endpoint::new(alloc, role, number, host)))
}

/// Reads the line of a key, after its word.
fn parse_key(alloc: Global, fields: &[&[u8]]) -> Result<Declaration, FieldError>
    ensures { Gives (key_of (map (λ x. x.now) fields.now)) result }
{
    let [id, service, key] = fields else {
        return Err(FieldError::Bad);
    };
    let id = number_u32(id)?;
    let service = name(alloc, service)?;
    let octets = octets(alloc, key)?;
    Ok(Declaration::Attribute(id, Attribute::Key(ServiceKey { service, octets })))
}

/// Reads the line of a user with a password, after its word.
fn parse_password(alloc: Global, fields: &[&[u8]]) -> Result<Declaration, FieldError>
    ensures { Gives (password_of (map (λ x. x.now) fields.now)) result }
{
    let [id, user, domain, password] = fields else {
        return Err(FieldError::Bad);
    };
    let id = number_u32(id)?;
    let user = named_text(alloc, user)?;
    let domain = text_or_none(alloc, domain)?;
    let password = Secret::new(text(alloc, password)?);
    let identity = AuthIdentityBuffers {
        user,
        domain,
        password,
    };
    Ok(Declaration::Attribute(
        id,
        Attribute::Credentials(CredentialsBuffers::AuthIdentity(identity)),
    ))
}

/// Returns a principal, by its name.
fn username(alloc: Global, text: &[u8]) -> Result<Username, FieldError>
    ensures { Gives (username_of text.now) result }
{
    let name = name(alloc, text)?;
    match Username::parse(alloc, name.as_str()) {
        Ok(username) => Ok(username),
        Err(UsernameError::OutOfMemory) => Err(FieldError::OutOfMemory),
        Err(UsernameError::MixedFormat) => Err(FieldError::Bad),
    }
}

/// Returns a principal with a key, whose encryption type is 17 or 18 (RFC 3962, section 7).
fn keytab_identity(
    enctype: &[u8],
    principal: Username,
    key: Octets,
) -> Result<KeytabIdentity, FieldError>
    ensures { Gives (keytab_identity enctype.now principal key) result }
{
    let key = Secret::new(key);
    if enctype == b"17".as_slice() {
        Ok(KeytabIdentity {
            principal,
            key,
            key_enctype: 17,
        })
    } else if enctype == b"18".as_slice() {
        Ok(KeytabIdentity {
            principal,
            key,
            key_enctype: 18,
        })
    } else {
        Err(FieldError::Bad)
    }
}

/// Reads the line of a user with a key, after its word.
fn parse_keytab(alloc: Global, fields: &[&[u8]]) -> Result<Declaration, FieldError>
    ensures { Gives (keytab_of (map (λ x. x.now) fields.now)) result }
{
    let [id, principal, enctype, key] = fields else {
        return Err(FieldError::Bad);
    };
    let id = number_u32(id)?;
    let principal = username(alloc, principal)?;
    let key = octets(alloc, key)?;
    let identity = keytab_identity(enctype, principal, key)?;
    Ok(Declaration::Attribute(
        id,
        Attribute::Credentials(CredentialsBuffers::Keytab(identity)),
    ))
}

/// Returns the URL of an address.
fn url(alloc: Global, text: &[u8]) -> Result<Url, FieldError>
    ensures { Gives (url_of text.now) result }
{
    let address = name(alloc, text)?;
    match parse_kdc_url(alloc, address.as_str())? {
        Some(url) => Ok(url),
        None => Err(FieldError::Bad),
    }
}

/// Reads the line of a KDC, after its word.
fn parse_kdc(alloc: Global, fields: &[&[u8]]) -> Result<Declaration, FieldError>
    ensures { Gives (kdc_of (map (λ x. x.now) fields.now)) result }
{
    let [id, address] = fields else {
        return Err(FieldError::Bad);
    };
    let id = number_u32(id)?;
    let url = url(alloc, address)?;
    Ok(Declaration::Attribute(id, Attribute::Kdc(url)))
}

/// Reads a line before the first event, by its word.
#[tactic(auto, unfolding(crate::specs::Declarations::declaration_of))]
pub(crate) fn parse_declaration(
    alloc: Global,
    word: &[u8],
    rest: &[&[u8]],
) -> Result<Declaration, FieldError>
    ensures { Gives (declaration_of word.now (map (λ x. x.now) rest.now)) result }
{
    if word == b"skew".as_slice() {
        parse_skew(rest)
    } else if word == b"env".as_slice() {
        parse_variable(alloc, rest)
    } else if word == b"file".as_slice() {
        parse_file(alloc, rest)
    } else if word == b"acceptor".as_slice() {
        parse_acceptor(alloc, rest)
    } else if word == b"initiator".as_slice() {
        parse_initiator(alloc, rest)
    } else if word == b"key".as_slice() {
        parse_key(alloc, rest)
    } else if word == b"password".as_slice() {
        parse_password(alloc, rest)
    } else if word == b"keytab".as_slice() {
        parse_keytab(alloc, rest)
    } else if word == b"kdc".as_slice() {
        parse_kdc(alloc, rest)
    } else {
        Err(FieldError::Bad)
    }
}
