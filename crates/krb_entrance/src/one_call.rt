//! An admission in one call: a token is judged, and then admitted.

ghost use Rattle.std.specs.Prelude.{◌≡◌, IfOk, IfErr};
ghost use Rattle.sspi_core.specs.Kinds.{error_of};
ghost use Rattle.sspi_core.specs.declared.cause.Cause.TheVariants as causes;
ghost use Rattle.sspi_core.specs.declared.error.Place.TheVariants as places;
ghost use Rattle.krb_replay.specs.Book.{IsUnchanged};
ghost use Rattle.krb_context.specs.Refusals.{Refuses};
ghost use Rattle.krb_entrance.specs.Admits.{Admits, Rejects};
ghost use Rattle.krb_entrance.specs.Connections.{IsKeyless};

use crate::candidate::{admit, judge};
use crate::keys::Keys;
use krb_context::KeptKey;
use krb_server::{Draw, Error, ReplayBook};
use krb_sessions::Session;
use std::alloc::Global;

/// Admits the client that sent this token.
pub(crate) fn accept(
    alloc: Global,
    keys: &Keys,
    kept: &mut KeptKey,
    book: &mut ReplayBook,
    channel: Option<[u8; 16]>,
    token: &[u8],
    draw: &Draw,
) -> Result<Session, Error>
    ensures admits { IfOk result (λ session. Admits keys.now channel token.now draw.now book.old session book.new) }
    ensures keyless { IfOk result (λ session. IsKeyless session.connection) }
    ensures refused { IfErr result (Refuses places.Elsewhere (Rejects keys.now channel token.now draw.now book.old book.new)) }
    ensures memory { IfErr result (λ error. error ≡ error_of causes.Memory → IsUnchanged book.old book.new) }
{
    let candidate = judge(alloc, keys, kept, channel, token, draw)?;
    admit(alloc, candidate, book)
}
