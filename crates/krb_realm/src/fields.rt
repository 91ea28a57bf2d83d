//! The fields that no other program's lines have.

ghost use Rattle.std.specs.Prelude.{◌≡◌, ◌==◌, map, IfOk};
ghost use Rattle.std.specs.List.{slice_split};
ghost use Rattle.krb_script.specs.Gives.{Gives};
ghost use Rattle.krb_realm.specs.Fields.{names_in, components_in, suite_in};

use krb_crypto::CipherSuite;
use krb_der::{Items, Name};
use krb_script::{FieldError, name, split};
use std::alloc::{AllocError, Global};

fn split_components<'a>(alloc: Global, field: &'a [u8]) -> Result<Vec<&'a [u8]>, AllocError>
    ensures { IfOk result (λ found. map (λ x. x.now) found.items ≡ slice_split (λ b. b == 47) field.now) }
{
    split(alloc, b'/', field)
}

/// A name a part.
fn names(alloc: Global, parts: &[&[u8]]) -> Result<Items<Name>, FieldError>
    ensures { Gives (names_in (map (λ x. x.now) parts.now)) result }
{
    let mut names = Vec::new(alloc);
    for part in parts {
        names.push(name(alloc, part)?)?;
    }
    Ok(Items::new(names))
}

/// The components of a principal, or of a service.
pub fn principal(alloc: Global, field: &[u8]) -> Result<Items<Name>, FieldError>
    ensures { Gives (components_in field.now) result }
{
    let parts = split_components(alloc, field)?;
    names(alloc, &parts)
}

/// A suite by the number of its encryption type (RFC 3962, section 7).
pub fn suite(field: &[u8]) -> Result<CipherSuite, FieldError>
    ensures { Gives (suite_in field.now) result }
{
    if field == b"17".as_slice() {
        Ok(CipherSuite::Aes128CtsHmacSha196)
    } else if field == b"18".as_slice() {
        Ok(CipherSuite::Aes256CtsHmacSha196)
    } else {
        Err(FieldError::Bad)
    }
}
