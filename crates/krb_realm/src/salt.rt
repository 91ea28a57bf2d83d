//! The key of a password.

ghost use Rattle.std.specs.Prelude.{◌≡◌, ◌++◌, Some, IfOk, OnOk, true};
ghost use Rattle.krb_der.specs.Schema.{is_ascii};
ghost use Rattle.krb_crypto.specs.Password.{password_key};
ghost use Rattle.krb_kdc.specs.Fitting.{are_ascii};
ghost use Rattle.krb_script.specs.Gives.{Gives};
ghost use Rattle.krb_realm.specs.Realms.{end_to_end, salt_of};

use krb_crypto::{CipherSuite, generate_key_from_password};
use krb_der::{Name, Octets, OutOfMemory};
use krb_script::FieldError;
use sspi_core::Secret;
use std::alloc::Global;

fn push_component(text: &mut Vec<u8>, component: &Name) -> Result<(), OutOfMemory>
    ensures text { OnOk result (text.new.items ≡ text.old.items ++ component.now) }
    ensures ascii { OnOk result (is_ascii component.now ≡ true) }
{
    text.extend_from_slice(component.as_slice())?;
    Ok(())
}

/// Appends the components, one after another.
fn push_components(text: &mut Vec<u8>, components: &[Name]) -> Result<(), OutOfMemory>
    ensures text { OnOk result (text.new.items ≡ text.old.items ++ end_to_end components.now) }
    ensures ascii { OnOk result (are_ascii components.now ≡ true) }
{
    for component in components {
        push_component(text, component)?;
    }
    Ok(())
}

/// Returns the salt of a principal for which no other salt is named: its realm and its components (RFC 4120, section 4).
pub fn salt_of(alloc: Global, realm: &Name, components: &[Name]) -> Result<Name, FieldError>
    ensures { Gives (Some (salt_of realm.now components.now)) result }
{
    let mut text = realm.as_slice().to_vec(alloc)?;
    push_components(&mut text, components)?;
    match Name::new(text) {
        Some(salt) => Ok(salt),
        None => Err(FieldError::Bad),
    }
}

/// The key of a password under a salt.
pub fn password_key(
    alloc: Global,
    suite: CipherSuite,
    password: &[u8],
    salt: &[u8],
) -> Result<Secret<Octets>, OutOfMemory>
    ensures { IfOk result (λ key. key ≡ password_key suite password.now salt.now) }
{
    let key = generate_key_from_password(suite, password, salt);
    Ok(Secret::new(Octets::from_slice(alloc, key.as_slice())?))
}
