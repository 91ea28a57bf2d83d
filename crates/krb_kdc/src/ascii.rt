//! Names have ASCII octets. Each function here gives its caller's proof that fact, and does nothing else.

ghost use Rattle.std.specs.Prelude.{◌≡◌, true};
ghost use Rattle.krb_der.specs.Schema.{is_ascii};
ghost use Rattle.krb_kdc.specs.Fitting.{are_ascii, is_ascii_salt};

use krb_der::Name;

/// A name has ASCII octets.
pub(crate) fn ascii_name(name: &Name)
    ensures { is_ascii name.now ≡ true }
{
    let _octets = name.as_slice();
}

/// So has each component.
pub(crate) fn ascii_components(components: &[Name])
    ensures { are_ascii components.now ≡ true }
{
    for component in components {
        ascii_name(component);
    }
}

/// So has a salt, if there is one.
pub(crate) fn ascii_salt(salt: &Option<Name>)
    ensures { is_ascii_salt salt.now ≡ true }
{
    match salt {
        None => (),
        Some(salt) => ascii_name(salt),
    }
}
