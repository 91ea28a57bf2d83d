//! Keys and paths, compared with the case of ASCII letters ignored.

ghost use Rattle.std.specs.Prelude.{◌≡◌, map, option_copied, string_bytes, IfOk, ◌++◌, ◌∷◌, []};
ghost use Rattle.krb_conf.specs.Key as words;
ghost use Rattle.krb_conf.specs.Key.{joined};
ghost use Rattle.krb_conf.specs.Ascii.{bar};

use krb_der::OutOfMemory;
use std::alloc::Global;

/// Returns the text after the prefix, if the text begins with it, the case of ASCII letters ignored.
pub(crate) fn after_prefix<'a>(text: &'a [u8], prefix: &[u8]) -> Option<&'a [u8]>
    ensures { option_copied result ≡ words.after_prefix prefix.entry.now text.entry.now }
{
    let (front, rest) = text.split_at_checked(prefix.len())?;
    if front.eq_ignore_ascii_case(prefix) {
        Some(rest)
    } else {
        None
    }
}

/// The names of a path, joined by `|`.
pub(crate) fn join(alloc: Global, path: &[&str]) -> Result<String, OutOfMemory>
    ensures { IfOk result (λ key. string_bytes key ≡ joined (map (λ name. name.now) path.now)) }
{
    let Some((first, names)) = path.split_first() else {
        return Ok(String::new(alloc));
    };
    let mut key = String::from_str(alloc, first)?;
    for name in names {
        key.push('|')?;
        key.push_str(name)?;
    }
    Ok(key)
}

/// Returns whether the two texts are equal, the case of ASCII letters ignored.
pub(crate) fn is_same_text(x: &str, y: &str) -> bool
    ensures { result ≡ words.is_same_text x.now y.now }
{
    x.eq_ignore_ascii_case(y)
}

/// Returns the rest of the key after the path and a `|`, if the key begins with them.
pub(crate) fn under<'a>(key: &'a str, path: &str) -> Option<&'a str>
    ensures { option_copied result
        ≡ words.after_prefix (path.entry.now ++ bar ∷ []) key.entry.now }
{
    let rest = after_prefix(key.as_bytes(), path.as_bytes())?;
    after_prefix(rest, b"|")?;
    Some(&key[path.len() + 1..])
}
