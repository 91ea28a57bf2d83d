//! An end with a security layer: a session becomes one, and it ends.

ghost use Rattle.std.specs.Prelude.{◌≡◌, ℕ, None, Ok, Err, Result, IfOk, IfErr, OnErr};
ghost use Rattle.sspi_core.specs.Checks.{Takes};
ghost use Rattle.krb_sasl.specs.Answers.{Answers};
ghost use Rattle.krb_sasl.specs.declared.error.SaslError.TheVariants as refusals;
ghost use Rattle.krb_sasl.specs.Layers.{layer_of};
ghost use Rattle.krb_c.specs.declared.sasl_reply.SaslFailure.{SaslFailure};
ghost use Rattle.krb_c.specs.Failures.{IsNoText};
ghost use Rattle.krb_c.specs.Sasl.{ServesAs, WishesAs, Becomes, BecomesNot};
ghost use Rattle.krb_c.specs.SaslReplies.{sasl_reply};

use crate::handles::{Connection, Sasl};
use crate::reply::Reply;
use crate::sasl_end::SaslEnd;
use crate::sasl_reply::{SaslFailure, sasl_reply};
use crate::texts::text_of;
use krb_der::{TryCopy, boxed};
use krb_entrance::Session;
use krb_sasl::{Layer, SaslClient, SaslError, SaslServer};
use std::alloc::Global;

/// Returns the end of a server on a copy of the session's context, with the order of the session.
fn server_of(alloc: Global, session: &Session, layers: u32, most: u32) -> Result<SaslEnd, SaslError>
    ensures { Answers (ServesAs layers most session.now) result }
{
    if 7 < layers {
        return Err(SaslError::Layers);
    }
    let context = session.connection.copy(alloc)?;
    match SaslServer::new(context, layers as u8, most) {
        Ok(server) => {
            let mut end = SaslEnd::Server(server);
            end.set_order(session.in_order());
            Ok(end)
        }
        Err(refusal) => Err(refusal),
    }
}

/// Returns the layer of an octet.
fn layer_of(octet: u32) -> Result<Layer, SaslError>
    ensures { Takes refusals.Layers (layer_of octet) result }
{
    match octet {
        1 => Ok(Layer::None),
        2 => Ok(Layer::Integrity),
        4 => Ok(Layer::Confidentiality),
        _ => Err(SaslError::Layers),
    }
}

/// Returns the end of a client on a copy of the session's context, with the order of the session.
fn client_of(
    alloc: Global,
    session: &Session,
    octet: u32,
    most: u32,
    user: &str,
) -> Result<SaslEnd, SaslError>
    ensures { Answers (WishesAs octet most user.now session.now) result }
{
    let wanted = layer_of(octet)?;
    let context = session.connection.copy(alloc)?;
    match SaslClient::new(alloc, context, wanted, most, user) {
        Ok(client) => {
            let mut end = SaslEnd::Client(client);
            end.set_order(session.in_order());
            Ok(end)
        }
        Err(refusal) => Err(refusal),
    }
}

fn boxed_end(alloc: Global, end: Result<SaslEnd, SaslError>) -> Result<Box<SaslEnd>, SaslError>
    ensures made { IfOk result (λ made. end ≡ Ok made.value) }
    ensures refused { IfErr result (λ refusal. (refusal ≡ refusals.OutOfMemory → ⊥) → end ≡ Err refusal) }
{
    Ok(boxed(alloc, end?)?)
}

fn server(
    alloc: Global,
    from: &mut Connection,
    to: &mut Sasl,
    layers: u32,
    most: u32,
) -> Result<usize, SaslFailure>
    ensures becomes { IfOk result (λ count. Becomes (ServesAs layers most) from.old.place.value to.old.place.value count
        from.new.place.value to.new.place.value) }
    ensures fails { IfErr result (BecomesNot ⊥ (ServesAs layers most) from.old.place.value to.old.place.value) }
    ensures stays { OnErr result (from.new.place.value ≡ from.old.place.value) }
    ensures empty { OnErr result (to.new.place.value ≡ to.old.place.value) }
{
    if !to.is_empty() {
        return Err(SaslFailure::Handle);
    }
    let Some(guest) = from.take(alloc) else {
        return Err(SaslFailure::Handle);
    };
    let end = server_of(alloc, &guest, layers, most);
    match boxed_end(alloc, end) {
        Ok(end) => {
            drop(guest);
            to.put(end);
            Ok(0)
        }
        Err(refusal) => {
            from.put(guest);
            Err(SaslFailure::Refused(refusal))
        }
    }
}

/// Makes in the empty handle `to` a server's end of a session that is established: it offers these layers, the sum of 1 (none), 2
/// (integrity) and 4 (confidentiality), and receives messages of `most` bytes at most. The session's handle is empty then.
///
/// The end takes the client's tokens in order: from the number that the session in order awaits, and otherwise from the first number
/// of the client's authenticator. So a session in any order becomes an end before the client's first message.
///
/// Fails with MK_SASL and 1 if there are no layers or unknown ones, if `most` is 2^24 or more, and if no layer alone is offered with a
/// size; with MK_SASL and 2 if the session is not established; with HANDLE if there is no session, or `to` is not empty. Then nothing
/// is changed.
#[unsafe(no_mangle)]
pub extern "C" fn mk_sasl_new_server(
    alloc: Global,
    from: &mut Connection,
    to: &mut Sasl,
    layers: u32,
    most: u32,
) -> Reply
    ensures { (answer : Result ℕ SaslFailure) × (result ≡ sasl_reply answer)
        × IfOk answer (λ count. Becomes (ServesAs layers most) from.old.place.value to.old.place.value count
        from.new.place.value to.new.place.value)
        × IfErr answer (BecomesNot ⊥ (ServesAs layers most) from.old.place.value to.old.place.value)
        × OnErr answer (from.new.place.value ≡ from.old.place.value)
        × OnErr answer (to.new.place.value ≡ to.old.place.value) }
{
    sasl_reply(server(alloc, from, to, layers, most))
}

fn client(
    alloc: Global,
    from: &mut Connection,
    to: &mut Sasl,
    layer: u32,
    most: u32,
    user: &[u8],
) -> Result<usize, SaslFailure>
    ensures becomes { IfOk result (λ count. Becomes (WishesAs layer most user.now) from.old.place.value to.old.place.value count
        from.new.place.value to.new.place.value) }
    ensures fails { IfErr result (BecomesNot (IsNoText user.now) (WishesAs layer most user.now) from.old.place.value to.old.place.value) }
    ensures stays { OnErr result (from.new.place.value ≡ from.old.place.value) }
    ensures empty { OnErr result (to.new.place.value ≡ to.old.place.value) }
{
    if !to.is_empty() {
        return Err(SaslFailure::Handle);
    }
    let Ok(user) = text_of(user) else {
        return Err(SaslFailure::Argument);
    };
    let Some(guest) = from.take(alloc) else {
        return Err(SaslFailure::Handle);
    };
    let end = client_of(alloc, &guest, layer, most, user);
    match boxed_end(alloc, end) {
        Ok(end) => {
            drop(guest);
            to.put(end);
            Ok(0)
        }
        Err(refusal) => {
            from.put(guest);
            Err(SaslFailure::Refused(refusal))
        }
    }
}

/// Makes in the empty handle `to` a client's end of a session that is established: it chooses this layer, 1 (none), 2 (integrity) or 4
/// (confidentiality), receives messages of `most` bytes at most, and its user has this name, which may be empty. The session's
/// handle is empty then.
///
/// The end takes the server's tokens in order: from the number that the session in order awaits, and otherwise from the first one that
/// decrypts.
///
/// Fails with MK_SASL and 1 if the layer is another, if `most` is 2^24 or more, and if no layer is chosen with a size; with MK_SASL
/// and 2 if the session is not established; with ARGUMENT if the name is not UTF-8; with HANDLE if there is no session, or `to` is
/// not empty. Then nothing is changed.
#[unsafe(no_mangle)]
pub extern "C" fn mk_sasl_new_client(
    alloc: Global,
    from: &mut Connection,
    to: &mut Sasl,
    layer: u32,
    most: u32,
    user: &[u8],
) -> Reply
    ensures { (answer : Result ℕ SaslFailure) × (result ≡ sasl_reply answer)
        × IfOk answer (λ count. Becomes (WishesAs layer most user.now) from.old.place.value to.old.place.value count
        from.new.place.value to.new.place.value)
        × IfErr answer (BecomesNot (IsNoText user.now) (WishesAs layer most user.now) from.old.place.value to.old.place.value)
        × OnErr answer (from.new.place.value ≡ from.old.place.value)
        × OnErr answer (to.new.place.value ≡ to.old.place.value) }
{
    sasl_reply(client(alloc, from, to, layer, most, user))
}

/// Frees an end and its memory. The handle is empty then, and an empty one stays so.
#[unsafe(no_mangle)]
pub extern "C" fn mk_sasl_free(alloc: Global, sasl: &mut Sasl)
    ensures { sasl.new.place.value ≡ None }
{
    drop(sasl.take(alloc));
}
