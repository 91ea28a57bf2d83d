//! The negotiation of a security layer.

ghost use Rattle.std.specs.Prelude.{◌≡◌, ℕ, length, Result, IfOk, IfErr, OnErr};
ghost use Rattle.krb_c.specs.declared.sasl_reply.SaslFailure.{SaslFailure};
ghost use Rattle.krb_c.specs.SaslReplies.{sasl_reply};
ghost use Rattle.krb_c.specs.Sasl.{
  GivesOffer,
  GivesName,
  GivesAnswer,
  RefusesOffer,
  RefusesName,
  RefusesAnswer,
  HasNoServer,
  HasNoClient,
  HandsOut,
  HandsNot,
  left_in,
};

use crate::handles::Sasl;
use crate::reply::Reply;
use crate::sasl_reply::{SaslFailure, sasl_reply};
use std::alloc::Global;

fn offer(alloc: Global, sasl: &mut Sasl, out: &mut [u8]) -> Result<usize, SaslFailure>
    ensures hands { IfOk result (λ count. HandsOut GivesOffer sasl.old.place.value out.old count sasl.new.place.value out.new) }
    ensures fails { IfErr result (HandsNot ⊥ (HasNoServer sasl.old.place.value) RefusesOffer GivesOffer
        sasl.old.place.value (length out.old)) }
    ensures stays { OnErr result (sasl.new.place.value ≡ sasl.old.place.value) }
    ensures room { OnErr result (out.new ≡ out.old) }
{
    let Some(mut end) = sasl.take(alloc) else {
        return Err(SaslFailure::Handle);
    };
    let answer = end.offer(alloc, out);
    sasl.put(end);
    answer
}

/// Writes the token of a server's offer, which is sent to the client: 32 bytes.
///
/// Fails with MK_SASL and 2 if it was given before; with the session's own error if the session fails; with HANDLE if there is no
/// server. A call that fails leaves the server unchanged.
#[unsafe(no_mangle)]
pub extern "C" fn mk_sasl_offer(alloc: Global, sasl: &mut Sasl, out: &mut [u8]) -> Reply
    ensures { (answer : Result ℕ SaslFailure) × (result ≡ sasl_reply answer)
        × IfOk answer (λ count. HandsOut GivesOffer sasl.old.place.value out.old count sasl.new.place.value out.new)
        × IfErr answer (HandsNot ⊥ (HasNoServer sasl.old.place.value) RefusesOffer GivesOffer
        sasl.old.place.value (length out.old))
        × OnErr answer (sasl.new.place.value ≡ sasl.old.place.value)
        × OnErr answer (out.new ≡ out.old) }
{
    sasl_reply(offer(alloc, sasl, out))
}

fn accept(
    alloc: Global,
    sasl: &mut Sasl,
    token: &[u8],
    out: &mut [u8],
) -> Result<usize, SaslFailure>
    ensures hands { IfOk result (λ count. HandsOut (GivesName token.now) sasl.old.place.value out.old count sasl.new.place.value out.new) }
    ensures fails { IfErr result (HandsNot ⊥ (HasNoServer sasl.old.place.value) (RefusesName token.now) (GivesName token.now)
        sasl.old.place.value (length out.old)) }
    ensures left { IfErr result (λ failure. sasl.new.place.value ≡ left_in failure token.now sasl.old.place.value) }
    ensures room { OnErr result (out.new ≡ out.old) }
{
    let Some(mut end) = sasl.take(alloc) else {
        return Err(SaslFailure::Handle);
    };
    let answer = end.accept(alloc, token, out);
    sasl.put(end);
    answer
}

/// Agrees on the layer that the client's answer chooses, and writes the name of the user for whom the client asks to act, in UTF-8:
/// no bytes if it is the client itself. **The caller must decide whether the client may act for that user**, by `mk_session_get_local_name`
/// of the session before.
///
/// Fails with MK_SASL and 2 before the offer and after an answer was accepted, with MK_SASL and 3 if the text is under four bytes or
/// the name is not in UTF-8, and with MK_SASL and 4 if it does not choose one offered layer, or no layer with a size; with the
/// session's own error if the session fails; with HANDLE if there is no server. A call that fails leaves the server unchanged,
/// except that after 3 and 4 the same token is not decrypted again.
#[unsafe(no_mangle)]
pub extern "C" fn mk_sasl_accept(
    alloc: Global,
    sasl: &mut Sasl,
    token: &[u8],
    out: &mut [u8],
) -> Reply
    ensures { (answer : Result ℕ SaslFailure) × (result ≡ sasl_reply answer)
        × IfOk answer (λ count. HandsOut (GivesName token.now) sasl.old.place.value out.old count sasl.new.place.value out.new)
        × IfErr answer (HandsNot ⊥ (HasNoServer sasl.old.place.value) (RefusesName token.now) (GivesName token.now)
        sasl.old.place.value (length out.old))
        × IfErr answer (λ failure. sasl.new.place.value ≡ left_in failure token.now sasl.old.place.value)
        × OnErr answer (out.new ≡ out.old) }
{
    sasl_reply(accept(alloc, sasl, token, out))
}

fn answer(
    alloc: Global,
    sasl: &mut Sasl,
    offer: &[u8],
    out: &mut [u8],
) -> Result<usize, SaslFailure>
    ensures hands { IfOk result (λ count. HandsOut (GivesAnswer offer.now) sasl.old.place.value out.old count sasl.new.place.value out.new) }
    ensures fails { IfErr result (HandsNot ⊥ (HasNoClient sasl.old.place.value) (RefusesAnswer offer.now) (GivesAnswer offer.now)
        sasl.old.place.value (length out.old)) }
    ensures left { IfErr result (λ failure. sasl.new.place.value ≡ left_in failure offer.now sasl.old.place.value) }
    ensures room { OnErr result (out.new ≡ out.old) }
{
    let Some(mut end) = sasl.take(alloc) else {
        return Err(SaslFailure::Handle);
    };
    let answer = end.answer(alloc, offer, out);
    sasl.put(end);
    answer
}

/// Writes the token of a client's answer to the server's offer, which is sent to the server.
///
/// Fails with MK_SASL and 2 if an answer was given before, with MK_SASL and 3 if the offer has not four bytes, and with MK_SASL and
/// 4 if the layer is not offered, or no layer alone with a size; with the session's own error if the session fails; with HANDLE if
/// there is no client. A call that fails leaves the client unchanged, except that after 3 and 4 the same offer is not decrypted
/// again.
#[unsafe(no_mangle)]
pub extern "C" fn mk_sasl_answer(
    alloc: Global,
    sasl: &mut Sasl,
    offer: &[u8],
    out: &mut [u8],
) -> Reply
    ensures { (answer : Result ℕ SaslFailure) × (result ≡ sasl_reply answer)
        × IfOk answer (λ count. HandsOut (GivesAnswer offer.now) sasl.old.place.value out.old count sasl.new.place.value out.new)
        × IfErr answer (HandsNot ⊥ (HasNoClient sasl.old.place.value) (RefusesAnswer offer.now) (GivesAnswer offer.now)
        sasl.old.place.value (length out.old))
        × IfErr answer (λ failure. sasl.new.place.value ≡ left_in failure offer.now sasl.old.place.value)
        × OnErr answer (out.new ≡ out.old) }
{
    sasl_reply(answer(alloc, sasl, offer, out))
}
