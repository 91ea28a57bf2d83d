//! The steps of an initiator.

ghost use Rattle.std.specs.Prelude.{◌≡◌, ℕ, Result, Ok, Err, IfOk, IfErr};
ghost use Rattle.sspi_generator.specs.declared.network.NetFault.TheVariants as net_faults;
ghost use Rattle.krb_dialogue.specs.declared.dialogue.Next.{Next};
ghost use Rattle.krb_dialogue.specs.Steps.{Starts, Hears, Takes};
ghost use Rattle.krb_c.specs.declared.reply.Failure.{Failure};
ghost use Rattle.krb_c.specs.Calls.{draw_of};
ghost use Rattle.krb_c.specs.Failures.{IsUnfilled, RefusesUnfilled};
ghost use Rattle.krb_c.specs.Replies.{step_reply};
ghost use Rattle.krb_c.specs.Steps.{IsNoNetwork, StepsTo, StepsNot, twelve, those_left};

use crate::accept::Moment;
use crate::handles::Initiator;
use crate::reply::{Failure, Step, step_reply};
use crate::texts::filled_draw;
use krb_dialogue::Next;
use std::alloc::Global;

fn start(alloc: Global, initiator: &mut Initiator, moment: &Moment) -> Result<Next, Failure>
    ensures step { IfOk result (StepsTo (λ dialogue. Starts dialogue (draw_of moment.now)) twelve
        initiator.old.place.value initiator.new.place.value) }
    ensures fails { IfErr result (StepsNot (IsUnfilled moment.now.random) (λ dialogue. Starts dialogue (draw_of moment.now))
        initiator.old.place.value initiator.new.place.value) }
    ensures unfilled { RefusesUnfilled moment.now.random result }
    ensures fault { IfErr result IsNoNetwork }
{
    let draw = filled_draw(moment)?;
    let Some(mut dialogue) = initiator.take(alloc) else {
        return Err(Failure::Handle);
    };
    let answer = dialogue.start(alloc, &draw);
    initiator.put(dialogue);
    match answer {
        Ok(next) => Ok(next),
        Err(error) => Err(Failure::Refused(error)),
    }
}

/// Begins: a KDC is asked for the service's ticket, or with `USE_SESSION_KEY` the service is asked for its own. Next comes 0, a
/// KDC is to be asked; 1, a token is to be sent to the service; 2, the context is established; 3, nothing, since the step failed.
///
/// A step out of its turn fails with OutOfSequence `Sequence`, one past the end of 9999-12-28 with InvalidParameter `Moment`, and one
/// whose random bytes are all 0 with ARGUMENT. A start that fails changes nothing. If memory runs out the same step may be repeated.
#[unsafe(no_mangle)]
pub extern "C" fn mk_initiator_start(
    alloc: Global,
    initiator: &mut Initiator,
    moment: &Moment,
) -> Step
    ensures { (answer : Result Next Failure) × (result ≡ step_reply answer)
        × IfOk answer (StepsTo (λ dialogue. Starts dialogue (draw_of moment.now)) twelve
        initiator.old.place.value initiator.new.place.value)
        × IfErr answer (StepsNot (IsUnfilled moment.now.random) (λ dialogue. Starts dialogue (draw_of moment.now))
        initiator.old.place.value initiator.new.place.value)
        × RefusesUnfilled moment.now.random answer
        × IfErr answer IsNoNetwork }
{
    step_reply(start(alloc, initiator, moment))
}

fn hear(
    alloc: Global,
    initiator: &mut Initiator,
    token: &[u8],
    moment: &Moment,
) -> Result<Next, Failure>
    ensures step { IfOk result (StepsTo (λ dialogue. Hears dialogue token.now (draw_of moment.now)) twelve
        initiator.old.place.value initiator.new.place.value) }
    ensures fails { IfErr result (StepsNot (IsUnfilled moment.now.random) (λ dialogue. Hears dialogue token.now (draw_of moment.now))
        initiator.old.place.value initiator.new.place.value) }
    ensures unfilled { RefusesUnfilled moment.now.random result }
    ensures fault { IfErr result IsNoNetwork }
{
    let draw = filled_draw(moment)?;
    let Some(mut dialogue) = initiator.take(alloc) else {
        return Err(Failure::Handle);
    };
    let answer = dialogue.hear(alloc, token, &draw);
    initiator.put(dialogue);
    match answer {
        Ok(next) => Ok(next),
        Err(error) => Err(Failure::Refused(error)),
    }
}

/// Takes the service's token: its answer to a ticket, or its own ticket. A call that fails changes nothing.
#[unsafe(no_mangle)]
pub extern "C" fn mk_initiator_hear(
    alloc: Global,
    initiator: &mut Initiator,
    token: &[u8],
    moment: &Moment,
) -> Step
    ensures { (answer : Result Next Failure) × (result ≡ step_reply answer)
        × IfOk answer (StepsTo (λ dialogue. Hears dialogue token.now (draw_of moment.now)) twelve
        initiator.old.place.value initiator.new.place.value)
        × IfErr answer (StepsNot (IsUnfilled moment.now.random) (λ dialogue. Hears dialogue token.now (draw_of moment.now))
        initiator.old.place.value initiator.new.place.value)
        × RefusesUnfilled moment.now.random answer
        × IfErr answer IsNoNetwork }
{
    step_reply(hear(alloc, initiator, token, moment))
}

fn answer(
    alloc: Global,
    initiator: &mut Initiator,
    octets: &[u8],
    moment: &Moment,
) -> Result<Next, Failure>
    ensures step { IfOk result (StepsTo (λ dialogue. Takes dialogue (Ok octets.now) (draw_of moment.now)) those_left
        initiator.old.place.value initiator.new.place.value) }
    ensures fails { IfErr result (StepsNot (IsUnfilled moment.now.random) (λ dialogue. Takes dialogue (Ok octets.now) (draw_of moment.now))
        initiator.old.place.value initiator.new.place.value) }
    ensures unfilled { RefusesUnfilled moment.now.random result }
    ensures fault { IfErr result IsNoNetwork }
{
    let draw = filled_draw(moment)?;
    let Some(mut dialogue) = initiator.take(alloc) else {
        return Err(Failure::Handle);
    };
    let answer = dialogue.answer(alloc, octets, &draw);
    initiator.put(dialogue);
    match answer {
        Ok(next) => Ok(next),
        Err(error) => Err(Failure::Refused(error)),
    }
}

/// Takes the KDC's answer, with the four bytes that its protocol puts first. An answer that is refused ends the exchange: the
/// context is as it was before the exchange, and another may begin.
#[unsafe(no_mangle)]
pub extern "C" fn mk_initiator_answer(
    alloc: Global,
    initiator: &mut Initiator,
    octets: &[u8],
    moment: &Moment,
) -> Step
    ensures { (answer : Result Next Failure) × (result ≡ step_reply answer)
        × IfOk answer (StepsTo (λ dialogue. Takes dialogue (Ok octets.now) (draw_of moment.now)) those_left
        initiator.old.place.value initiator.new.place.value)
        × IfErr answer (StepsNot (IsUnfilled moment.now.random) (λ dialogue. Takes dialogue (Ok octets.now) (draw_of moment.now))
        initiator.old.place.value initiator.new.place.value)
        × RefusesUnfilled moment.now.random answer
        × IfErr answer IsNoNetwork }
{
    step_reply(answer(alloc, initiator, octets, moment))
}

fn fault(
    alloc: Global,
    initiator: &mut Initiator,
    code: u32,
    moment: &Moment,
) -> Result<Next, Failure>
    ensures step { IfOk result (StepsTo (λ dialogue. Takes dialogue (Err (net_faults.Failed code)) (draw_of moment.now)) those_left
        initiator.old.place.value initiator.new.place.value) }
    ensures fails { IfErr result (StepsNot (IsUnfilled moment.now.random) (λ dialogue. Takes dialogue (Err (net_faults.Failed code)) (draw_of moment.now))
        initiator.old.place.value initiator.new.place.value) }
    ensures unfilled { RefusesUnfilled moment.now.random result }
{
    let draw = filled_draw(moment)?;
    let Some(mut dialogue) = initiator.take(alloc) else {
        return Err(Failure::Handle);
    };
    let answer = dialogue.fault(code, &draw);
    initiator.put(dialogue);
    match answer {
        Ok(next) => Ok(next),
        Err(error) => Err(Failure::Refused(error)),
    }
}

/// Records that the KDC gave no answer, with a code of the caller's. Fails with that code, which ends the exchange.
#[unsafe(no_mangle)]
pub extern "C" fn mk_initiator_fault(
    alloc: Global,
    initiator: &mut Initiator,
    code: u32,
    moment: &Moment,
) -> Step
    ensures { (answer : Result Next Failure) × (result ≡ step_reply answer)
        × IfOk answer (StepsTo (λ dialogue. Takes dialogue (Err (net_faults.Failed code)) (draw_of moment.now)) those_left
        initiator.old.place.value initiator.new.place.value)
        × IfErr answer (StepsNot (IsUnfilled moment.now.random) (λ dialogue. Takes dialogue (Err (net_faults.Failed code)) (draw_of moment.now))
        initiator.old.place.value initiator.new.place.value)
        × RefusesUnfilled moment.now.random answer }
{
    step_reply(fault(alloc, initiator, code, moment))
}
