//! The answer of the service that changes passwords (RFC 3244, section 2).

ghost use Rattle.std.specs.Prelude.{◌≡◌, ◌==◌, IfOk, Some};
ghost use Rattle.sspi_core.specs.declared.cause.Cause.TheVariants as causes;
ghost use Rattle.sspi_core.specs.Checks.{Answers, Finds, Gives, Holds, Takes};
ghost use Rattle.krb_replies.specs.Answered.{TellsStatus};
ghost use Rattle.krb_as.specs.declared.turn.Turn.TheVariants as turns;
ghost use Rattle.krb_password_change.specs.ChangeSteps.{behind_reply, IsAnswer, ReadsAnswer, change_of, Concludes, TakesAnswer};
ghost use Rattle.krb_as.specs.Turns.{GoesDown};
ghost use Rattle.krb_password_change.specs.ChangeRuns.{IsAwaiting, turns_left};

use crate::change::Changer;
use crate::phase::{AnswerLeg, ChangePhase};
use crate::request::number_after;
use krb_as::{Turn, unwrap_reply};
use krb_context::{ContextChange, EncryptionParams};
use krb_der::{Fault, Octets, OutOfMemory, Text, TryCopy};
use krb_exchange::{ApMessage, KrbPriv, KrbPrivMessage};
use krb_replies::extract_status_code_from_krb_priv_response;
use sspi_core::{Cause, NetworkProtocol, hold};
use sspi_generator::NetFault;
use std::alloc::Global;

/// Returns the KRB-PRIV after an AP-REP. Fails with `Shape` if it is after an AP-REQ.
fn behind_reply(message: KrbPrivMessage) -> Result<KrbPriv, Cause>
    ensures { Takes causes.Shape (behind_reply message.ap_message message.krb_priv) result }
{
    let KrbPrivMessage {
        ap_message,
        krb_priv,
    } = message;
    match ap_message {
        ApMessage::ApReq(_) => Err(Cause::Shape),
        ApMessage::ApRep(_) => Ok(krb_priv),
    }
}

/// Reads the KRB-PRIV in the octets of an answer.
fn answer_in(alloc: Global, octets: &Octets) -> Result<KrbPriv, Cause>
    ensures { Answers (Finds causes.Shape (IsAnswer octets.now)) result }
{
    match KrbPrivMessage::read(alloc, octets.as_slice()) {
        Ok(message) => behind_reply(message),
        Err(Fault::Shape) => Err(Cause::Shape),
        Err(Fault::OutOfMemory) => Err(Cause::Memory),
    }
}

/// Reads the KRB-PRIV in a reply.
#[tactic(auto, unfolding(crate::specs::ChangeSteps::ReadsAnswer))]
fn read_answer(
    alloc: Global,
    protocol: NetworkProtocol,
    reply: Result<Octets, NetFault>,
) -> Result<KrbPriv, Cause>
    ensures { Answers (ReadsAnswer protocol reply) result }
{
    let octets = unwrap_reply(alloc, protocol, reply)?;
    answer_in(alloc, &octets)
}

/// Returns the result code in the encrypted part of the KRB-PRIV.
fn told_code(alloc: Global, leg: &AnswerLeg, answer: &KrbPriv) -> Result<u16, Cause>
    ensures { Answers (TellsStatus (Some leg.now.suite) leg.now.subkey answer.now) result }
{
    let params = EncryptionParams::of_suite(leg.suite);
    let key = leg.subkey.as_ref().as_slice();
    match extract_status_code_from_krb_priv_response(alloc, answer, key, &params) {
        Ok(code) => Ok(code),
        Err(error) => Err(error.cause),
    }
}

fn check_code(code: u16) -> Result<(), Cause>
    ensures { Holds (causes.ResultCode code) (code == 0) result }
{
    hold(code == 0, Cause::ResultCode(code))
}

/// Returns the change of the context.
fn change_of(
    alloc: Global,
    changer: &Changer,
    leg: &AnswerLeg,
) -> Result<ContextChange, OutOfMemory>
    ensures { IfOk result (λ change. change ≡ change_of changer.now leg.now) }
{
    let realm = Text::from_str(alloc, leg.realm.as_str())?;
    let encryption_params = changer.params.copy_for(alloc, leg.suite)?;
    Ok(ContextChange {
        state: changer.state,
        realm: Some(realm),
        encryption_params,
        seq_number: number_after(changer.number),
        krb5_user_to_user: changer.user_to_user,
        asked_at: changer.asked_at,
        ticket_decryption_key: None,
    })
}

fn end(
    alloc: Global,
    changer: &Changer,
    leg: &AnswerLeg,
) -> Result<Turn<ChangePhase, ContextChange>, Cause>
    ensures step { Answers (Gives (turns.Ends (change_of changer.now leg.now))) result }
    ensures down { IfOk result (λ turn. GoesDown (IsAwaiting changer.now.asker) turns_left 0 turn) }
{
    Ok(Turn::Ends(change_of(alloc, changer, leg)?))
}

#[tactic(auto, unfolding(crate::specs::ChangeSteps::Concludes))]
fn conclude(
    alloc: Global,
    changer: &Changer,
    leg: &AnswerLeg,
    code: u16,
) -> Result<Turn<ChangePhase, ContextChange>, Cause>
    ensures step { Answers (Concludes changer.now leg.now code) result }
    ensures down { IfOk result (λ turn. GoesDown (IsAwaiting changer.now.asker) turns_left 0 turn) }
{
    check_code(code)?;
    end(alloc, changer, leg)
}

/// Handles the third reply and returns the last turn.
#[tactic(auto, unfolding(crate::specs::ChangeSteps::TakesAnswer))]
pub(crate) fn take_answer(
    alloc: Global,
    changer: &Changer,
    leg: &AnswerLeg,
    reply: Result<Octets, NetFault>,
) -> Result<Turn<ChangePhase, ContextChange>, Cause>
    ensures step { Answers (TakesAnswer changer.now leg.now reply) result }
    ensures down { IfOk result (λ turn. GoesDown (IsAwaiting changer.now.asker) turns_left 0 turn) }
{
    let answer = read_answer(alloc, leg.protocol, reply)?;
    let code = told_code(alloc, leg, &answer)?;
    conclude(alloc, changer, leg, code)
}
