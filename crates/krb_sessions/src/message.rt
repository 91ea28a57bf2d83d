//! A session's messages, and the results of its calls.

ghost use Rattle.std.specs.Prelude.{◌≡◌, ◌≤◌, length, IfOk, IfErr, OnOk, OnErr, Ok, Err};
ghost use Rattle.sspi_core.specs.declared.error.Place.TheVariants as places;
ghost use Rattle.sspi_core.specs.Kinds.{error_of};
ghost use Rattle.sspi_core.specs.declared.cause.Cause.{Cause};
ghost use Rattle.krb_context.specs.Refusals.{Refuses};
ghost use Rattle.krb_context.specs.Mics.{ChecksMic};
ghost use Rattle.krb_context.specs.Whole.{text_message};
ghost use Rattle.krb_context.specs.Wraps.{Wraps};
ghost use Rattle.krb_sessions.specs.Gives.{Delivers, Faults, IsWrapped, after_making, after_opening};
ghost use Rattle.krb_sessions.specs.Orders.{UnwrapsInOrder, order_after, token_number};

use crate::fault::Fault;
use crate::order::{Order, token_number};
use krb_context::{Kerberos, OpenedText};
use sspi_core::Error;
use std::alloc::Global;

/// Encrypts a text into `out`. If that fails the context and `out` are unchanged.
pub(crate) fn wrap_into(
    alloc: Global,
    context: &mut Kerberos,
    text: &[u8],
    confounder: &[u8; 16],
    out: &mut [u8],
) -> Result<usize, Fault>
    ensures gives { IfOk result (λ count. Delivers (IsWrapped context.old confounder.now text.now) out.old count out.new) }
    ensures after { OnOk result (context.new ≡ after_making context.old) }
    ensures refused { IfErr result (Faults places.Elsewhere
        (Wraps context.old confounder.now (text_message context.old.encryption_params.ec text.now))
        (IsWrapped context.old confounder.now text.now) (length out.old)) }
    ensures stays { OnErr result ((context.new ≡ context.old) × (out.new ≡ out.old)) }
{
    let count = context.wrapped_len(text)?;
    if out.len() < count {
        return Err(Fault::Room(count));
    }
    let written = context.wrap_into(alloc, text, confounder, out)?;
    Ok(written)
}

/// Decrypts a message that came whole, if it is the next one. If that fails the context and the order are unchanged.
pub fn opened_in_order(
    alloc: Global,
    context: &mut Kerberos,
    order: &mut Order,
    sealed: &[u8],
) -> Result<OpenedText, Error>
    ensures opened { IfOk result (λ text. UnwrapsInOrder order.old context.old sealed.now (Ok text)) }
    ensures after { OnOk result (context.new ≡ after_opening sealed.now context.old) }
    ensures order { OnOk result (order.new ≡ order_after (token_number sealed.now) order.old) }
    ensures refused { IfErr result (Refuses places.Elsewhere (UnwrapsInOrder order.old context.old sealed.now)) }
    ensures stays { OnErr result ((context.new ≡ context.old) × (order.new ≡ order.old)) }
{
    let window = context.window;
    let text = context.unwrap_token(alloc, sealed)?;
    match order.take(token_number(sealed)) {
        Ok(()) => Ok(text),
        Err(cause) => {
            context.window = window;
            Err(Error::from(cause))
        }
    }
}

/// Checks a MIC token over a payload, whatever its number is.
pub(crate) fn check_mic(context: &Kerberos, mic: &[u8], payload: &[u8]) -> Result<(), Error>
    ensures checked { OnOk result (ChecksMic context.now mic.now payload.now (Ok tt)) }
    ensures long { OnOk result (16 ≤ length mic.now) }
    ensures refused { IfErr result (λ error. (cause : Cause) × (error ≡ error_of cause) × ChecksMic context.now mic.now payload.now (Err cause)) }
{
    context.verify_mic_token(mic, payload)
}
