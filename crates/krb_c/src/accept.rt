//! The admission of a client.

ghost use Rattle.std.specs.Prelude.{◌≡◌, ℕ, length, None, Result, IfOk, IfErr, OnErr};
ghost use Rattle.sspi_core.specs.Kinds.{error_of};
ghost use Rattle.sspi_core.specs.declared.cause.Cause.TheVariants as causes;
ghost use Rattle.sspi_core.specs.declared.error.Place.TheVariants as places;
ghost use Rattle.krb_context.specs.Refusals.{Refuses};
ghost use Rattle.krb_replay.specs.Book.{IsUnchanged};
ghost use Rattle.krb_entrance.specs.Admits.{Admits, Rejects};
ghost use Rattle.krb_entrance.specs.Connections.{IsKeyless};
ghost use Rattle.krb_c.specs.declared.reply.Failure.{Failure};
ghost use Rattle.krb_c.specs.Replies.{reply_of};
ghost use Rattle.krb_c.specs.Calls.{AdmitsTo, Turns, draw_of};
ghost use Rattle.krb_c.specs.Failures.{IsNoDraw, RefusesUnfilled};

use crate::handles::{Acceptor, Connection};
use crate::judge::blank;
use crate::reply::{Failure, Reply, reply_of};
use crate::texts::draw_of;
use krb_der::boxed;
use krb_entrance::{Draw, Error, Service, Session};
use std::alloc::Global;

/// The input of one admission: microseconds since 1970-01-01T00:00:00Z, and 64 fresh random bytes.
#[repr(C)]
#[derive(Clone, Copy)]
pub struct Moment {
    pub moment: u64,
    pub random: [u8; 64],
}

/// Returns the session of the client that sent this token, in a box that is allocated before the token is read.
fn admit(
    alloc: Global,
    service: &mut Service,
    token: &[u8],
    draw: &Draw,
) -> Result<Box<Session>, Error>
    ensures admits { IfOk result (λ session. Admits service.old.keys None token.now draw.now service.old.book session.value service.new.book) }
    ensures keyless { IfOk result (λ session. IsKeyless session.value.connection) }
    ensures refused { IfErr result (Refuses places.Elsewhere (Rejects service.old.keys None token.now draw.now service.old.book service.new.book)) }
    ensures memory { IfErr result (λ error. error ≡ error_of causes.Memory → IsUnchanged service.old.book service.new.book) }
    ensures keys { service.new.keys ≡ service.old.keys }
{
    let mut session = boxed(alloc, blank(alloc))?;
    *session = service.accept(alloc, token, draw)?;
    Ok(session)
}

fn accept_at(
    alloc: Global,
    acceptor: &mut Acceptor,
    to: &mut Connection,
    token: &[u8],
    draw: &Draw,
) -> Result<usize, Failure>
    ensures admits { IfOk result (λ count. AdmitsTo token.now draw.now acceptor.old.place.value to.old.place.value count
        acceptor.new.place.value to.new.place.value) }
    ensures turns { IfErr result (Turns (IsNoDraw draw.now) token.now draw.now acceptor.old.place.value to.old.place.value acceptor.new.place.value) }
    ensures stays { OnErr result (to.new.place.value ≡ to.old.place.value) }
{
    if !to.is_empty() {
        return Err(Failure::Handle);
    }
    let Some(mut service) = acceptor.take(alloc) else {
        return Err(Failure::Handle);
    };
    let admitted = admit(alloc, &mut service, token, draw);
    acceptor.put(service);
    let session = admitted?;
    let count = session.answer.as_slice().len();
    to.put(session);
    Ok(count)
}

fn accept(
    alloc: Global,
    acceptor: &mut Acceptor,
    to: &mut Connection,
    token: &[u8],
    moment: &Moment,
) -> Result<usize, Failure>
    ensures admits { IfOk result (λ count. AdmitsTo token.now (draw_of moment.now) acceptor.old.place.value to.old.place.value count
        acceptor.new.place.value to.new.place.value) }
    ensures turns { IfErr result (Turns (IsNoDraw (draw_of moment.now)) token.now (draw_of moment.now) acceptor.old.place.value to.old.place.value
        acceptor.new.place.value) }
    ensures unfilled { RefusesUnfilled moment.now.random result }
    ensures stays { OnErr result (to.new.place.value ≡ to.old.place.value) }
{
    let draw = draw_of(moment)?;
    accept_at(alloc, acceptor, to, token, &draw)
}

/// Admits the client that sent this token, and makes its session in the empty handle `to`: it has what the token said of the client,
/// and no key of the acceptor's. The length is that of the reply to the client, which `mk_session_get_answer` returns: 0 if the client did
/// not ask for mutual authentication.
///
/// Fails with REFUSED and the first check that failed, as `mk_judge` and then `mk_admit` have it; with ARGUMENT if the moment is past
/// the end of 9999-12-28, or its random bytes are all 0; with HANDLE if the acceptor is empty, or `to` is not. Then `to` stays empty.
/// If memory runs out no record is made, so the token may be sent again.
#[unsafe(no_mangle)]
pub extern "C" fn mk_accept(
    alloc: Global,
    acceptor: &mut Acceptor,
    to: &mut Connection,
    token: &[u8],
    moment: &Moment,
) -> Reply
    ensures { (answer : Result ℕ Failure) × (result ≡ reply_of answer)
        × IfOk answer (λ count. AdmitsTo token.now (draw_of moment.now) acceptor.old.place.value to.old.place.value count
        acceptor.new.place.value to.new.place.value)
        × IfErr answer (Turns (IsNoDraw (draw_of moment.now)) token.now (draw_of moment.now) acceptor.old.place.value to.old.place.value
        acceptor.new.place.value)
        × RefusesUnfilled moment.now.random answer
        × OnErr answer (to.new.place.value ≡ to.old.place.value) }
{
    reply_of(accept(alloc, acceptor, to, token, moment))
}
