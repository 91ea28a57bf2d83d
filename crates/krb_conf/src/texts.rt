//! Texts made of others.

ghost use Rattle.std.specs.Prelude.{◌≡◌, ◌++◌, IfOk};
ghost use Rattle.std.specs.Str.{str_to_ascii_uppercase};

use krb_der::{OutOfMemory, Text};
use std::alloc::Global;

/// One text and then another.
pub(crate) fn concat(alloc: Global, front: &str, back: &str) -> Result<Text, OutOfMemory>
    ensures { IfOk result (λ both. both ≡ front.now ++ back.now) }
{
    let mut both = String::from_str(alloc, front)?;
    both.push_str(back)?;
    Ok(Text::new(both))
}

/// The text with the letters of ASCII in capitals.
pub(crate) fn uppercase(alloc: Global, text: &str) -> Result<Text, OutOfMemory>
    ensures { IfOk result (λ upper. upper ≡ str_to_ascii_uppercase text.now) }
{
    let mut upper = String::from_str(alloc, text)?;
    upper.make_ascii_uppercase();
    Ok(Text::new(upper))
}
