//! A client that was admitted, and its messages.

ghost use Rattle.std.specs.Prelude.{◌≡◌, ◌≢◌, ℕ, length, None, Result, Ok, IfOk, IfErr, OnOk, OnErr};
ghost use Rattle.sspi_core.specs.declared.error.Place.TheVariants as places;
ghost use Rattle.krb_context.specs.ClearWraps.{WrapsClear};
ghost use Rattle.krb_context.specs.Mics.{MakesMic};
ghost use Rattle.krb_context.specs.Queries.{name_of};
ghost use Rattle.krb_context.specs.Whole.{text_message};
ghost use Rattle.krb_context.specs.Wraps.{Wraps};
ghost use Rattle.krb_sessions.specs.Gives.{IsNamed, IsWrapped};
ghost use Rattle.krb_sessions.specs.Orders.{UnwrapsInOrder};
ghost use Rattle.krb_c.specs.declared.reply.Failure.{Failure};
ghost use Rattle.krb_c.specs.Replies.{reply_of};
ghost use Rattle.krb_c.specs.Calls.{Serves, ServesNot, Verifies, VerifiesNot, same, made, opened};

use crate::handles::Connection;
use crate::reply::{Failure, Reply, reply_of};
use crate::texts::confounder_of;
use std::alloc::Global;

fn answer(alloc: Global, session: &mut Connection, out: &mut [u8]) -> Result<usize, Failure>
    ensures serves { IfOk result (λ count. Serves (λ s octets. octets ≡ s.answer) same
        session.old.place.value out.old count session.new.place.value out.new) }
    ensures fails { IfErr result (ServesNot ⊥ places.Elsewhere (λ s answer. answer ≡ Ok s.answer) (λ s octets. octets ≡ s.answer)
        session.old.place.value (length out.old)) }
    ensures stays { OnErr result (session.new.place.value ≡ session.old.place.value) }
    ensures room { OnErr result (out.new ≡ out.old) }
{
    let Some(guest) = session.take(alloc) else {
        return Err(Failure::Handle);
    };
    let answer = guest.answer(out);
    session.put(guest);
    match answer {
        Ok(count) => Ok(count),
        Err(fault) => Err(Failure::from(fault)),
    }
}

/// Writes the reply to the client: an AP-REP if it asked for mutual authentication, otherwise no bytes. The call can be repeated.
#[unsafe(no_mangle)]
pub extern "C" fn mk_session_get_answer(
    alloc: Global,
    session: &mut Connection,
    out: &mut [u8],
) -> Reply
    ensures { (answer : Result ℕ Failure) × (result ≡ reply_of answer)
        × IfOk answer (λ count. Serves (λ s octets. octets ≡ s.answer) same
        session.old.place.value out.old count session.new.place.value out.new)
        × IfErr answer (ServesNot ⊥ places.Elsewhere (λ s answer. answer ≡ Ok s.answer) (λ s octets. octets ≡ s.answer)
        session.old.place.value (length out.old))
        × OnErr answer (session.new.place.value ≡ session.old.place.value)
        × OnErr answer (out.new ≡ out.old) }
{
    reply_of(answer(alloc, session, out))
}

fn peer(alloc: Global, session: &mut Connection, out: &mut [u8]) -> Result<usize, Failure>
    ensures serves { IfOk result (λ count. Serves (λ s. IsNamed s.connection) same
        session.old.place.value out.old count session.new.place.value out.new) }
    ensures fails { IfErr result (ServesNot ⊥ places.Query (λ s answer. answer ≡ name_of s.connection) (λ s. IsNamed s.connection)
        session.old.place.value (length out.old)) }
    ensures stays { OnErr result (session.new.place.value ≡ session.old.place.value) }
    ensures room { OnErr result (out.new ≡ out.old) }
{
    let Some(guest) = session.take(alloc) else {
        return Err(Failure::Handle);
    };
    let answer = guest.local_name(alloc, out);
    session.put(guest);
    match answer {
        Ok(count) => Ok(count),
        Err(fault) => Err(Failure::from(fault)),
    }
}

/// Writes a short name of the client, in UTF-8: `alice@example.com`, its one component and the realm in small letters. Fails with
/// REFUSED as `NoIdentity` if it has none: only a name of type 1 and one component has one. **Rights are given by `mk_session_get_client`
/// alone.**
#[unsafe(no_mangle)]
pub extern "C" fn mk_session_get_local_name(
    alloc: Global,
    session: &mut Connection,
    out: &mut [u8],
) -> Reply
    ensures { (answer : Result ℕ Failure) × (result ≡ reply_of answer)
        × IfOk answer (λ count. Serves (λ s. IsNamed s.connection) same
        session.old.place.value out.old count session.new.place.value out.new)
        × IfErr answer (ServesNot ⊥ places.Query (λ s answer. answer ≡ name_of s.connection) (λ s. IsNamed s.connection)
        session.old.place.value (length out.old))
        × OnErr answer (session.new.place.value ≡ session.old.place.value)
        × OnErr answer (out.new ≡ out.old) }
{
    reply_of(peer(alloc, session, out))
}

fn wrap(
    alloc: Global,
    session: &mut Connection,
    text: &[u8],
    confounder: &[u8],
    out: &mut [u8],
) -> Result<usize, Failure>
    ensures serves { IfOk result (λ count. Serves (λ s. IsWrapped s.connection confounder.now text.now) made
        session.old.place.value out.old count session.new.place.value out.new) }
    ensures fails { IfErr result (ServesNot (length confounder.now ≢ 16) places.Elsewhere
        (λ s. Wraps s.connection confounder.now (text_message s.connection.encryption_params.ec text.now))
        (λ s. IsWrapped s.connection confounder.now text.now) session.old.place.value (length out.old)) }
    ensures stays { OnErr result (session.new.place.value ≡ session.old.place.value) }
    ensures room { OnErr result (out.new ≡ out.old) }
{
    let confounder = confounder_of(confounder)?;
    let Some(mut guest) = session.take(alloc) else {
        return Err(Failure::Handle);
    };
    let answer = guest.wrap(alloc, text, confounder, out);
    session.put(guest);
    Ok(answer?)
}

/// Encrypts a text for the peer, with 16 fresh random bytes: the token, which `gss_unwrap` decrypts, is 60 bytes longer.
/// Fails with ARGUMENT if the confounder has not 16 bytes. A call that fails leaves the session unchanged.
#[unsafe(no_mangle)]
pub extern "C" fn mk_wrap(
    alloc: Global,
    session: &mut Connection,
    text: &[u8],
    confounder: &[u8],
    out: &mut [u8],
) -> Reply
    ensures { (answer : Result ℕ Failure) × (result ≡ reply_of answer)
        × IfOk answer (λ count. Serves (λ s. IsWrapped s.connection confounder.now text.now) made
        session.old.place.value out.old count session.new.place.value out.new)
        × IfErr answer (ServesNot (length confounder.now ≢ 16) places.Elsewhere
        (λ s. Wraps s.connection confounder.now (text_message s.connection.encryption_params.ec text.now))
        (λ s. IsWrapped s.connection confounder.now text.now) session.old.place.value (length out.old))
        × OnErr answer (session.new.place.value ≡ session.old.place.value)
        × OnErr answer (out.new ≡ out.old) }
{
    reply_of(wrap(alloc, session, text, confounder, out))
}

fn wrap_in_clear(
    alloc: Global,
    session: &mut Connection,
    text: &[u8],
    out: &mut [u8],
) -> Result<usize, Failure>
    ensures serves { IfOk result (λ count. Serves (λ s token. WrapsClear s.connection text.now (Ok token)) made
        session.old.place.value out.old count session.new.place.value out.new) }
    ensures fails { IfErr result (ServesNot ⊥ places.Elsewhere (λ s. WrapsClear s.connection text.now)
        (λ s token. WrapsClear s.connection text.now (Ok token)) session.old.place.value (length out.old)) }
    ensures stays { OnErr result (session.new.place.value ≡ session.old.place.value) }
    ensures room { OnErr result (out.new ≡ out.old) }
{
    let Some(mut guest) = session.take(alloc) else {
        return Err(Failure::Handle);
    };
    let answer = guest.wrap_in_clear(alloc, text, out);
    session.put(guest);
    Ok(answer?)
}

/// Writes a token for the peer with the text in the clear and a checksum, which `gss_unwrap` reads: it is 28 bytes longer.
#[unsafe(no_mangle)]
pub extern "C" fn mk_wrap_in_clear(
    alloc: Global,
    session: &mut Connection,
    text: &[u8],
    out: &mut [u8],
) -> Reply
    ensures { (answer : Result ℕ Failure) × (result ≡ reply_of answer)
        × IfOk answer (λ count. Serves (λ s token. WrapsClear s.connection text.now (Ok token)) made
        session.old.place.value out.old count session.new.place.value out.new)
        × IfErr answer (ServesNot ⊥ places.Elsewhere (λ s. WrapsClear s.connection text.now)
        (λ s token. WrapsClear s.connection text.now (Ok token)) session.old.place.value (length out.old))
        × OnErr answer (session.new.place.value ≡ session.old.place.value)
        × OnErr answer (out.new ≡ out.old) }
{
    reply_of(wrap_in_clear(alloc, session, text, out))
}

fn unwrap(
    alloc: Global,
    session: &mut Connection,
    token: &[u8],
    out: &mut [u8],
) -> Result<usize, Failure>
    ensures serves { IfOk result (λ count. Serves (λ s text. UnwrapsInOrder s.order s.connection token.now (Ok text)) (opened token.now)
        session.old.place.value out.old count session.new.place.value out.new) }
    ensures fails { IfErr result (ServesNot ⊥ places.Elsewhere (λ s. UnwrapsInOrder s.order s.connection token.now)
        (λ s text. UnwrapsInOrder s.order s.connection token.now (Ok text)) session.old.place.value (length out.old)) }
    ensures stays { OnErr result (session.new.place.value ≡ session.old.place.value) }
    ensures room { OnErr result (out.new ≡ out.old) }
{
    let Some(mut guest) = session.take(alloc) else {
        return Err(Failure::Handle);
    };
    let answer = guest.unwrap(alloc, token, out);
    session.put(guest);
    Ok(answer?)
}

/// Writes the text of a token that the peer's `gss_wrap` made, encrypted or in the clear: a buffer of the token's length is
/// enough. Each token is accepted once, in any order within a window of 64. A call that fails leaves the session unchanged.
#[unsafe(no_mangle)]
pub extern "C" fn mk_unwrap(
    alloc: Global,
    session: &mut Connection,
    token: &[u8],
    out: &mut [u8],
) -> Reply
    ensures { (answer : Result ℕ Failure) × (result ≡ reply_of answer)
        × IfOk answer (λ count. Serves (λ s text. UnwrapsInOrder s.order s.connection token.now (Ok text)) (opened token.now)
        session.old.place.value out.old count session.new.place.value out.new)
        × IfErr answer (ServesNot ⊥ places.Elsewhere (λ s. UnwrapsInOrder s.order s.connection token.now)
        (λ s text. UnwrapsInOrder s.order s.connection token.now (Ok text)) session.old.place.value (length out.old))
        × OnErr answer (session.new.place.value ≡ session.old.place.value)
        × OnErr answer (out.new ≡ out.old) }
{
    reply_of(unwrap(alloc, session, token, out))
}

fn mic(
    alloc: Global,
    session: &mut Connection,
    payload: &[u8],
    out: &mut [u8],
) -> Result<usize, Failure>
    ensures serves { IfOk result (λ count. Serves (λ s token. MakesMic s.connection payload.now (Ok token)) made
        session.old.place.value out.old count session.new.place.value out.new) }
    ensures fails { IfErr result (ServesNot ⊥ places.MakeMic (λ s. MakesMic s.connection payload.now)
        (λ s token. MakesMic s.connection payload.now (Ok token)) session.old.place.value (length out.old)) }
    ensures stays { OnErr result (session.new.place.value ≡ session.old.place.value) }
    ensures room { OnErr result (out.new ≡ out.old) }
{
    let Some(mut guest) = session.take(alloc) else {
        return Err(Failure::Handle);
    };
    let answer = guest.mic(alloc, payload, out);
    session.put(guest);
    Ok(answer?)
}

/// Writes a MIC token over a payload, for the peer's `gss_verify_mic`: 28 bytes.
#[unsafe(no_mangle)]
pub extern "C" fn mk_mic(
    alloc: Global,
    session: &mut Connection,
    payload: &[u8],
    out: &mut [u8],
) -> Reply
    ensures { (answer : Result ℕ Failure) × (result ≡ reply_of answer)
        × IfOk answer (λ count. Serves (λ s token. MakesMic s.connection payload.now (Ok token)) made
        session.old.place.value out.old count session.new.place.value out.new)
        × IfErr answer (ServesNot ⊥ places.MakeMic (λ s. MakesMic s.connection payload.now)
        (λ s token. MakesMic s.connection payload.now (Ok token)) session.old.place.value (length out.old))
        × OnErr answer (session.new.place.value ≡ session.old.place.value)
        × OnErr answer (out.new ≡ out.old) }
{
    reply_of(mic(alloc, session, payload, out))
}

fn verify(
    alloc: Global,
    session: &mut Connection,
    token: &[u8],
    payload: &[u8],
) -> Result<usize, Failure>
    ensures verified { IfOk result (λ count. Verifies token.now payload.now session.old.place.value count session.new.place.value) }
    ensures fails { IfErr result (VerifiesNot token.now payload.now session.old.place.value) }
    ensures stays { OnErr result (session.new.place.value ≡ session.old.place.value) }
{
    let Some(mut guest) = session.take(alloc) else {
        return Err(Failure::Handle);
    };
    let verified = guest.verify(token, payload);
    session.put(guest);
    match verified {
        Ok(()) => Ok(0),
        Err(error) => Err(Failure::Refused(error)),
    }
}

/// Returns OK exactly if the token is a MIC token over this payload that the peer's `gss_get_mic` made and, in a session that accepts
/// messages in order, the next token. Otherwise its number is not checked: the same one verifies again.
#[unsafe(no_mangle)]
pub extern "C" fn mk_verify(
    alloc: Global,
    session: &mut Connection,
    token: &[u8],
    payload: &[u8],
) -> Reply
    ensures told { (answer : Result ℕ Failure) × (result ≡ reply_of answer)
        × IfOk answer (λ count. Verifies token.now payload.now session.old.place.value count session.new.place.value)
        × IfErr answer (VerifiesNot token.now payload.now session.old.place.value)
        × OnErr answer (session.new.place.value ≡ session.old.place.value) }
{
    reply_of(verify(alloc, session, token, payload))
}

/// Ends a session: its memory is freed, and the handle is empty. An empty handle stays so.
#[unsafe(no_mangle)]
pub extern "C" fn mk_session_free(alloc: Global, session: &mut Connection)
    ensures { session.new.place.value ≡ None }
{
    drop(session.take(alloc));
}
