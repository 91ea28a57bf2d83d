//! The items that lines contain.

ghost use Rattle.std.specs.Prelude.{◌≡◌, ◌∷◌, map, IfOk};
ghost use Rattle.krb_text.specs.Lines.{fields};
ghost use Rattle.krb_script.specs.Gives.{Gives};
ghost use Rattle.krb_realm.specs.Items.{secret_of, realm_line_of, password_of, key_of, trust_of, route_of, request_in, entry_of, item_of_fields, item_of};

use crate::fields::{principal, suite};
use krb_crypto::CipherSuite;
use krb_der::{Items, Name, Octets};
use krb_script::{FieldError, name, number, octets, octets_or_none, random_octets, split};
use sspi_core::{Draw, Secret};
use std::alloc::{AllocError, Global};

/// The greatest skew that a line may name: a day, in seconds.
const MAX_SKEW: u64 = 86_400;

/// The first line.
#[derive(Drop)]
pub struct RealmLine {
    pub name: Name,
    pub suite: CipherSuite,
    /// How far a client's clock may be off, in seconds.
    pub skew: u32,
    /// The key of the ticket-granting service.
    pub tgt_key: Secret<Octets>,
}

/// An entry that a line adds to the realm.
#[derive(Drop)]
pub enum Entry {
    /// A principal's components, and its password.
    Password(Items<Name>, Secret<Octets>),
    /// A principal's components, and its key.
    Key(Items<Name>, Secret<Octets>),
    /// A realm that is trusted, and the key that both have.
    Trust(Name, Secret<Octets>),
    /// A service's components, and the realm that is to be asked for it.
    Route(Items<Name>, Name),
}

/// A request, and what its reply may use.
#[derive(Drop)]
pub struct Request {
    pub draw: Draw,
    pub octets: Octets,
}

/// The item that a line contains.
#[derive(Drop)]
pub enum Item {
    Realm(RealmLine),
    Entry(Entry),
    Request(Request),
}

/// Octets that are not shown.
fn secret(alloc: Global, field: &[u8]) -> Result<Secret<Octets>, FieldError>
    ensures { Gives (secret_of field.now) result }
{
    Ok(Secret::new(octets(alloc, field)?))
}

fn parse_realm(alloc: Global, fields: &[&[u8]]) -> Result<RealmLine, FieldError>
    ensures { Gives (realm_line_of (map (λ x. x.now) fields.now)) result }
{
    let [name_field, suite_field, skew, key] = fields else {
        return Err(FieldError::Bad);
    };
    let name = name(alloc, name_field)?;
    let suite = suite(suite_field)?;
    let skew = number(MAX_SKEW, skew)?;
    let tgt_key = secret(alloc, key)?;
    Ok(RealmLine {
        name,
        suite,
        skew: skew as u32,
        tgt_key,
    })
}

fn parse_password(alloc: Global, fields: &[&[u8]]) -> Result<Entry, FieldError>
    ensures { Gives (password_of (map (λ x. x.now) fields.now)) result }
{
    let [components, password] = fields else {
        return Err(FieldError::Bad);
    };
    let components = principal(alloc, components)?;
    let password = secret(alloc, password)?;
    Ok(Entry::Password(components, password))
}

fn parse_key(alloc: Global, fields: &[&[u8]]) -> Result<Entry, FieldError>
    ensures { Gives (key_of (map (λ x. x.now) fields.now)) result }
{
    let [components, key] = fields else {
        return Err(FieldError::Bad);
    };
    let components = principal(alloc, components)?;
    let key = secret(alloc, key)?;
    Ok(Entry::Key(components, key))
}

fn parse_trust(alloc: Global, fields: &[&[u8]]) -> Result<Entry, FieldError>
    ensures { Gives (trust_of (map (λ x. x.now) fields.now)) result }
{
    let [realm, key] = fields else {
        return Err(FieldError::Bad);
    };
    let realm = name(alloc, realm)?;
    let key = secret(alloc, key)?;
    Ok(Entry::Trust(realm, key))
}

fn parse_route(alloc: Global, fields: &[&[u8]]) -> Result<Entry, FieldError>
    ensures { Gives (route_of (map (λ x. x.now) fields.now)) result }
{
    let [service, realm] = fields else {
        return Err(FieldError::Bad);
    };
    let service = principal(alloc, service)?;
    let realm = name(alloc, realm)?;
    Ok(Entry::Route(service, realm))
}

fn parse_request(alloc: Global, fields: &[&[u8]]) -> Result<Request, FieldError>
    ensures { Gives (request_in (map (λ x. x.now) fields.now)) result }
{
    let [moment, random, request] = fields else {
        return Err(FieldError::Bad);
    };
    let moment = number(u64::MAX, moment)?;
    let random = random_octets(random)?;
    let octets = octets_or_none(alloc, request)?;
    Ok(Request {
        draw: Draw { moment, random },
        octets,
    })
}

/// Parses the entry that a line adds to the realm, by the line's first word.
fn parse_entry(alloc: Global, word: &[u8], rest: &[&[u8]]) -> Result<Entry, FieldError>
    ensures { Gives (entry_of word.now (map (λ x. x.now) rest.now)) result }
{
    if word == b"password".as_slice() {
        parse_password(alloc, rest)
    } else if word == b"key".as_slice() {
        parse_key(alloc, rest)
    } else if word == b"trust".as_slice() {
        parse_trust(alloc, rest)
    } else if word == b"route".as_slice() {
        parse_route(alloc, rest)
    } else {
        Err(FieldError::Bad)
    }
}

fn parse_fields(alloc: Global, fields: &[&[u8]]) -> Result<Item, FieldError>
    ensures { Gives (item_of_fields (map (λ x. x.now) fields.now)) result }
{
    let [word, rest @ ..] = fields else {
        return Err(FieldError::Bad);
    };
    if *word == b"realm".as_slice() {
        Ok(Item::Realm(parse_realm(alloc, rest)?))
    } else if *word == b"request".as_slice() {
        Ok(Item::Request(parse_request(alloc, rest)?))
    } else {
        Ok(Item::Entry(parse_entry(alloc, word, rest)?))
    }
}

fn split_fields<'a>(alloc: Global, line: &'a [u8]) -> Result<Vec<&'a [u8]>, AllocError>
    ensures { IfOk result (λ parts. map (λ x. x.now) parts.items ≡ fields line.now) }
{
    split(alloc, b' ', line)
}

/// Parses a line. Fails with `Bad` if the line is not in the table of lines.
pub fn parse_item(alloc: Global, line: &[u8]) -> Result<Item, FieldError>
    ensures { Gives (item_of line.now) result }
{
    let fields = split_fields(alloc, line)?;
    parse_fields(alloc, &fields)
}
