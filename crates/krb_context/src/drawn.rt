//! New keys.

ghost use Rattle.std.specs.Prelude.{◌≡◌, ◌≤◌, ◌^◌, length, IfOk};
ghost use Rattle.krb_context.specs.Drawn.{drawn_key};

use krb_crypto::CipherSuite;
use krb_der::{Octets, OutOfMemory};
use sspi_core::{Draw, Secret};
use std::alloc::Global;

/// A new key of the suite: the first 16 or 32 random octets of the draw.
pub fn drawn_key(suite: CipherSuite, draw: &Draw) -> &[u8]
    ensures { result.now ≡ drawn_key suite draw.now }
{
    &draw.random[..suite.key_size()]
}

/// A copy of the new key of the suite.
pub fn drawn_secret(
    alloc: Global,
    suite: CipherSuite,
    draw: &Draw,
) -> Result<Secret<Octets>, OutOfMemory>
    ensures drawn { IfOk result (λ key. key ≡ drawn_key suite draw.now) }
    ensures short { IfOk result (λ key. length key ≤ 2 ^ 24) }
{
    let key = Octets::from_slice(alloc, drawn_key(suite, draw))?;
    Ok(Secret::new(key))
}
