//! The data of a security layer.

ghost use Rattle.std.specs.Prelude.{◌≡◌, ◌≢◌, ℕ, length, None, Result, IfOk, IfErr, OnErr};
ghost use Rattle.krb_c.specs.declared.sasl_reply.SaslFailure.{SaslFailure};
ghost use Rattle.krb_c.specs.SaslReplies.{sasl_reply};
ghost use Rattle.krb_c.specs.Sasl.{GivesFrame, GivesData, RefusesData, RefusesFrame, HandsOut, HandsNot};

use crate::handles::Sasl;
use crate::reply::Reply;
use crate::sasl_reply::{SaslFailure, sasl_reply};
use crate::texts::confounder_of;
use std::alloc::Global;

fn seal(
    alloc: Global,
    sasl: &mut Sasl,
    plain: &[u8],
    confounder: &[u8],
    out: &mut [u8],
) -> Result<usize, SaslFailure>
    ensures hands { IfOk result (λ count. HandsOut (GivesFrame confounder.now plain.now) sasl.old.place.value out.old count sasl.new.place.value out.new) }
    ensures fails { IfErr result (HandsNot (length confounder.now ≢ 16) (sasl.old.place.value ≡ None)
        (RefusesData confounder.now plain.now) (GivesFrame confounder.now plain.now) sasl.old.place.value (length out.old)) }
    ensures stays { OnErr result (sasl.new.place.value ≡ sasl.old.place.value) }
    ensures room { OnErr result (out.new ≡ out.old) }
{
    let Ok(confounder) = confounder_of(confounder) else {
        return Err(SaslFailure::Argument);
    };
    let Some(mut end) = sasl.take(alloc) else {
        return Err(SaslFailure::Handle);
    };
    let answer = end.seal(alloc, plain, confounder, out);
    sasl.put(end);
    answer
}

/// Wraps data into a frame, with 16 fresh random bytes: four bytes of length, and the message, as it is sent to the peer.
///
/// Fails with ARGUMENT if the confounder has not 16 bytes; with MK_SASL and 2 before a layer is agreed on, and with MK_SASL and 5 if
/// the message would be longer than the peer receives, or without a layer the data have 2^24 bytes or more; with the session's own
/// error if the session fails; with HANDLE if there is no end. A call that fails leaves the end unchanged.
#[unsafe(no_mangle)]
pub extern "C" fn mk_sasl_seal(
    alloc: Global,
    sasl: &mut Sasl,
    plain: &[u8],
    confounder: &[u8],
    out: &mut [u8],
) -> Reply
    ensures { (answer : Result ℕ SaslFailure) × (result ≡ sasl_reply answer)
        × IfOk answer (λ count. HandsOut (GivesFrame confounder.now plain.now) sasl.old.place.value out.old count sasl.new.place.value out.new)
        × IfErr answer (HandsNot (length confounder.now ≢ 16) (sasl.old.place.value ≡ None)
        (RefusesData confounder.now plain.now) (GivesFrame confounder.now plain.now) sasl.old.place.value (length out.old))
        × OnErr answer (sasl.new.place.value ≡ sasl.old.place.value)
        × OnErr answer (out.new ≡ out.old) }
{
    sasl_reply(seal(alloc, sasl, plain, confounder, out))
}

fn unseal(
    alloc: Global,
    sasl: &mut Sasl,
    frame: &[u8],
    out: &mut [u8],
) -> Result<usize, SaslFailure>
    ensures hands { IfOk result (λ count. HandsOut (GivesData frame.now) sasl.old.place.value out.old count sasl.new.place.value out.new) }
    ensures fails { IfErr result (HandsNot ⊥ (sasl.old.place.value ≡ None) (RefusesFrame frame.now) (GivesData frame.now)
        sasl.old.place.value (length out.old)) }
    ensures stays { OnErr result (sasl.new.place.value ≡ sasl.old.place.value) }
    ensures room { OnErr result (out.new ≡ out.old) }
{
    let Some(mut end) = sasl.take(alloc) else {
        return Err(SaslFailure::Handle);
    };
    let answer = end.unseal(alloc, frame, out);
    sasl.put(end);
    answer
}

/// Writes the data of a frame from the peer, which is passed whole, with its length of four bytes first: a buffer of the frame's
/// length is enough. Each frame of a layer is accepted once.
///
/// Fails with MK_SASL and 2 before a layer is agreed on, with MK_SASL and 6 if the bytes are not one frame, or not of the layer, and
/// with MK_SASL and 5 if its message is longer than this end receives, or without a layer has 2^24 bytes or more; with the session's
/// own error if the session fails; with HANDLE if there is no end. A call that fails leaves the end unchanged.
#[unsafe(no_mangle)]
pub extern "C" fn mk_sasl_unseal(
    alloc: Global,
    sasl: &mut Sasl,
    frame: &[u8],
    out: &mut [u8],
) -> Reply
    ensures { (answer : Result ℕ SaslFailure) × (result ≡ sasl_reply answer)
        × IfOk answer (λ count. HandsOut (GivesData frame.now) sasl.old.place.value out.old count sasl.new.place.value out.new)
        × IfErr answer (HandsNot ⊥ (sasl.old.place.value ≡ None) (RefusesFrame frame.now) (GivesData frame.now)
        sasl.old.place.value (length out.old))
        × OnErr answer (sasl.new.place.value ≡ sasl.old.place.value)
        × OnErr answer (out.new ≡ out.old) }
{
    sasl_reply(unseal(alloc, sasl, frame, out))
}
