//! The authorization data of a client's ticket, an element at a time.

ghost use Rattle.std.specs.Prelude.{◌≡◌, ℕ, length, Some, Result, IfOk, IfErr, OnErr};
ghost use Rattle.krb_c.specs.declared.reply.Failure.{Failure};
ghost use Rattle.krb_c.specs.Authorization.{FindsNone, IsElement, ReturnsElement, ReturnsNone, judged_client};
ghost use Rattle.krb_c.specs.Replies.{reply_of};
ghost use Rattle.krb_c.specs.Tells.{client_of};

use crate::handles::{Connection, Judgement};
use crate::reply::{Failure, Reply, reply_of};
use krb_authorization::{AuthorizationDataElement, element_at, element_type};
use krb_entrance::{Candidate, Cause, Client, Error, Session, put};
use std::alloc::Global;

/// Returns the element at a place.
fn element_of(
    alloc: Global,
    client: &Client,
    place: usize,
) -> Result<AuthorizationDataElement, Failure>
    ensures found { IfOk result (IsElement (Some client.now) place) }
    ensures fails { IfErr result (FindsNone (Some client.now) place) }
{
    let Some(data) = &client.authorization_data else {
        return Err(Failure::Argument);
    };
    match element_at(alloc, data, place) {
        Ok(Some(element)) => Ok(element),
        Ok(None) => Err(Failure::Argument),
        Err(error) => Err(Failure::Refused(Error::from(error))),
    }
}

fn write_element(
    alloc: Global,
    client: &Client,
    place: usize,
    kind: &mut i32,
    out: &mut [u8],
) -> Result<usize, Failure>
    ensures told { IfOk result (λ count. ReturnsElement (Some client.now) place out.old count kind.new out.new) }
    ensures fails { IfErr result (ReturnsNone (Some client.now) place (length out.old)) }
    ensures kind { OnErr result (kind.new ≡ kind.old) }
    ensures room { OnErr result (out.new ≡ out.old) }
{
    let element = element_of(alloc, client, place)?;
    let Some(number) = element_type(&element) else {
        return Err(Failure::Refused(Error::from(Cause::Shape)));
    };
    match put(out, element.ad_data.as_slice()) {
        Ok(count) => {
            *kind = number;
            Ok(count)
        }
        Err(fault) => Err(Failure::from(fault)),
    }
}

fn judged_authorization(
    alloc: Global,
    judged: &mut Judgement,
    place: usize,
    kind: &mut i32,
    out: &mut [u8],
) -> Result<usize, Failure>
    ensures told { IfOk result (λ count. ReturnsElement (judged_client judged.old.place.value) place out.old count kind.new out.new) }
    ensures fails { IfErr result (ReturnsNone (judged_client judged.old.place.value) place (length out.old)) }
    ensures stays { judged.new.place.value ≡ judged.old.place.value }
    ensures kind { OnErr result (kind.new ≡ kind.old) }
    ensures room { OnErr result (out.new ≡ out.old) }
{
    let Some(candidate) = judged.take(alloc) else {
        return Err(Failure::Handle);
    };
    let answer = write_element(alloc, &candidate.client, place, kind, out);
    judged.put(candidate);
    answer
}

/// Writes an element of the authorization data of the client's ticket (RFC 4120, section 5.2.6), counted from 0, and its type. Each
/// AD-IF-RELEVANT counts as the elements inside it, one level deep; one inside another, and one with other contents, is an element.
/// **No check here reads them, and the client is not admitted yet.**
///
/// Fails with HANDLE if there is no candidate; with ARGUMENT if the place is past the last element; with InvalidToken `Shape` if the
/// type of the element has over 32 bits.
#[unsafe(no_mangle)]
pub extern "C" fn mk_judged_get_authorization(
    alloc: Global,
    judged: &mut Judgement,
    place: usize,
    kind: &mut i32,
    out: &mut [u8],
) -> Reply
    ensures told { (answer : Result ℕ Failure) × (result ≡ reply_of answer)
        × IfOk answer (λ count. ReturnsElement (judged_client judged.old.place.value) place out.old count kind.new out.new)
        × IfErr answer (ReturnsNone (judged_client judged.old.place.value) place (length out.old))
        × OnErr answer (kind.new ≡ kind.old)
        × OnErr answer (out.new ≡ out.old) }
    ensures stays { judged.new.place.value ≡ judged.old.place.value }
{
    reply_of(judged_authorization(alloc, judged, place, kind, out))
}

fn client_authorization(
    alloc: Global,
    session: &Session,
    place: usize,
    kind: &mut i32,
    out: &mut [u8],
) -> Result<usize, Failure>
    ensures told { IfOk result (λ count. ReturnsElement (client_of (Some session.now)) place out.old count kind.new out.new) }
    ensures fails { IfErr result (ReturnsNone (client_of (Some session.now)) place (length out.old)) }
    ensures kind { OnErr result (kind.new ≡ kind.old) }
    ensures room { OnErr result (out.new ≡ out.old) }
{
    match &session.client {
        Some(client) => write_element(alloc, client, place, kind, out),
        None => Err(Failure::Handle),
    }
}

fn session_authorization(
    alloc: Global,
    session: &mut Connection,
    place: usize,
    kind: &mut i32,
    out: &mut [u8],
) -> Result<usize, Failure>
    ensures told { IfOk result (λ count. ReturnsElement (client_of session.old.place.value) place out.old count kind.new out.new) }
    ensures fails { IfErr result (ReturnsNone (client_of session.old.place.value) place (length out.old)) }
    ensures stays { session.new.place.value ≡ session.old.place.value }
    ensures kind { OnErr result (kind.new ≡ kind.old) }
    ensures room { OnErr result (out.new ≡ out.old) }
{
    let Some(guest) = session.take(alloc) else {
        return Err(Failure::Handle);
    };
    let answer = client_authorization(alloc, &guest, place, kind, out);
    session.put(guest);
    answer
}

/// Writes an element of the authorization data of the client's ticket and its type, as `mk_judged_get_authorization` does. Fails with
/// HANDLE for an initiator's session.
#[unsafe(no_mangle)]
pub extern "C" fn mk_session_get_authorization(
    alloc: Global,
    session: &mut Connection,
    place: usize,
    kind: &mut i32,
    out: &mut [u8],
) -> Reply
    ensures told { (answer : Result ℕ Failure) × (result ≡ reply_of answer)
        × IfOk answer (λ count. ReturnsElement (client_of session.old.place.value) place out.old count kind.new out.new)
        × IfErr answer (ReturnsNone (client_of session.old.place.value) place (length out.old))
        × OnErr answer (kind.new ≡ kind.old)
        × OnErr answer (out.new ≡ out.old) }
    ensures stays { session.new.place.value ≡ session.old.place.value }
{
    reply_of(session_authorization(alloc, session, place, kind, out))
}
