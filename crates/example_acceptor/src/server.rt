//! A server's use of the library: it admits a client by its token, and decrypts its messages.

ghost use Rattle.std.specs.Prelude.{None, Ok, IfOk};
ghost use Rattle.krb_entrance.specs.Admits.{Admits};
ghost use Rattle.krb_sessions.specs.Orders.{UnwrapsInOrder};

use krb_entrance::{Draw, Error, Fault, OutOfMemory, Service, Session};
use std::alloc::Global;

/// Admits the client that sent this token. The session has its whole name and the reply to it.
///
/// # Errors
/// The check that failed first. Write it to a log, and send the client only that it was refused.
pub fn admit(
    alloc: Global,
    service: &mut Service,
    token: &[u8],
    draw: &Draw,
) -> Result<Session, Error>
    // The token passed every check, the replay book's among them.
    ensures admitted { IfOk result (λ session. Admits service.old.keys None token.now draw.now service.old.book session service.new.book) }
{
    service.accept(alloc, token, draw)
}

fn room(alloc: Global, length: usize) -> Result<Vec<u8>, OutOfMemory> {
    Ok(vec![in alloc; 0; length]?)
}

/// Returns the text of a message of the client. Each message is decrypted once.
pub fn open(alloc: Global, session: &mut Session, sealed: &[u8]) -> Result<Vec<u8>, Fault>
    ensures opened { IfOk result (λ text. UnwrapsInOrder session.old.order session.old.connection sealed.now (Ok text.items)) }
{
    let mut text = room(alloc, sealed.len())?; // no text is longer than its message
    let length = session.unwrap(alloc, sealed, &mut text)?;
    text.truncate(length);
    Ok(text)
}
