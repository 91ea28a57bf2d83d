//! The maximum length of a token of the handshake.

ghost use Rattle.std.specs.Prelude.{nat_le, length};
ghost use Rattle.sspi_core.specs.declared.cause.Cause.TheVariants as causes;
ghost use Rattle.sspi_core.specs.Checks.{Holds};

use sspi_core::{Cause, hold};

/// The longest token of the handshake, in octets.
pub const MAX_TOKEN_LEN: usize = 16_777_216;

/// Fails with `Shape` if the token has more octets.
pub fn check_token_length(token: &[u8]) -> Result<(), Cause>
    ensures { Holds causes.Shape (nat_le (length token.now) 16777216) result }
{
    hold(token.len() <= MAX_TOKEN_LEN, Cause::Shape)
}
