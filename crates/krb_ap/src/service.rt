//! The service's answer, an AP-REP (RFC 4120, section 3.2.5), to which the initiator replies in DCE style (MS-KILE, section 3.4.5.1).

ghost use Rattle.std.specs.Prelude.{◌≡◌, ◌≤◌, ◌^◌, length, true, false, [], IfOk, IfSome, Result};
ghost use Rattle.std.specs.Result.{result_map_both};
ghost use Rattle.krb_crypto.specs.Suite.{key_size};
ghost use Rattle.sspi_core.specs.declared.cause.Cause.TheVariants as causes;
ghost use Rattle.sspi_core.specs.Moments.{last_moment};
ghost use Rattle.sspi_core.specs.Checks.{Answers, Finds, Gives, Holds, Takes};
ghost use Rattle.krb_context.specs.Params.{suite_of};
ghost use Rattle.krb_replies.specs.Answered.{OpensApRep};
ghost use Rattle.krb_ap.specs.Initiators.{is_bare};
ghost use Rattle.krb_ap.specs.ApReps.{IsSendableNumber};
ghost use Rattle.krb_ap.specs.Answered.{IsApRep, ReadsApRep, is_time_of, answers_at, answers_authenticator, own_subkey, chosen_subkey, confirmed, replied, last_word, Confirms, Replies, FinishesInitiation, TakesApRep};

use crate::ap_rep::seal_ap_rep;
use crate::change::established;
use crate::initiator::{Initiator, is_bare, settled_number};
use krb_as::InitDone;
use krb_context::Rules;
use krb_crypto::CipherSuite;
use krb_der::{Asn1, IntegerAsn1, Octets, OutOfMemory, TryCopy};
use krb_messages::constants::{AP_REP_TOKEN_ID, AP_REP_USAGE};
use krb_messages::{ApRep, EncApRepPart, EncryptionKey, read_framed};
use krb_replies::{SESSION_KEY, check_token_length, is_number, open, read_or};
use sspi_core::{Cause, Draw, Secret, SecurityStatus, hold, take};
use std::alloc::Global;

/// The EC of Wrap tokens in DCE style, in octets.
const EXTRA_COUNT: u16 = 16;

/// Reads the AP-REP in a frame.
fn framed_ap_rep(alloc: Global, token: &[u8]) -> Result<ApRep, Cause>
    ensures { Answers (Finds causes.Shape (IsApRep false token.now)) result }
{
    match read_framed(token, AP_REP_TOKEN_ID) {
        Ok((_, message)) => read_or(alloc, message, Cause::Shape),
        Err(_) => Err(Cause::Shape),
    }
}

/// Reads the AP-REP that a token is.
fn ap_rep_in(alloc: Global, dce: bool, token: &[u8]) -> Result<ApRep, Cause>
    ensures { Answers (Finds causes.Shape (IsApRep dce token.now)) result }
{
    if dce {
        read_or(alloc, token, Cause::Shape)
    } else {
        framed_ap_rep(alloc, token)
    }
}

/// Reads the AP-REP in a token, no part of which is longer than a token.
#[tactic(auto, unfolding(crate::specs::Answered::ReadsApRep))]
fn read_ap_rep(alloc: Global, dce: bool, token: &[u8]) -> Result<ApRep, Cause>
    ensures step { Answers (ReadsApRep dce token.now) result }
    ensures short { IfOk result (λ message. length message.enc_part.cipher ≤ 2 ^ 24) }
{
    check_token_length(token)?;
    ap_rep_in(alloc, dce, token)
}

fn session_key(initiator: &Initiator) -> Result<&Secret<Octets>, Cause>
    ensures { Takes causes.Reply initiator.now.params.session_key (result_map_both (λ key. key.now) (λ e. e) result) }
{
    match &initiator.params.session_key {
        Some(key) => Ok(key),
        None => Err(Cause::Reply),
    }
}

/// Decrypts the encrypted part of the AP-REP. A sequence number that it has can be sent back.
#[tactic(auto, unfolding(krb_replies::specs::Answered::OpensApRep))]
fn open_ap_rep(
    alloc: Global,
    suite: CipherSuite,
    key: &Secret<Octets>,
    message: &ApRep,
) -> Result<EncApRepPart, Cause>
    requires { length message.now.enc_part.cipher ≤ 2 ^ 24 }
    ensures step { Answers (OpensApRep suite key.now message.now) result }
    ensures number { IfOk result (λ part. IfSome part.seq_number IsSendableNumber) }
{
    let text = message.enc_part.cipher.as_slice();
    open(
        alloc,
        SESSION_KEY,
        suite,
        key.as_ref().as_slice(),
        AP_REP_USAGE,
        text,
    )
}

/// Returns the authenticator's own subkey, if a rule allows that the service chose none.
fn own_subkey(alloc: Global, initiator: &Initiator) -> Result<Option<Secret<Octets>>, OutOfMemory>
    ensures { IfOk result (λ key. key ≡ own_subkey initiator.now) }
{
    let rules = initiator.rules;
    if rules.has(Rules::AP_REP_WITHOUT_SUBKEY) {
        initiator.params.sub_session_key.copy(alloc)
    } else {
        Ok(None)
    }
}

/// Returns the authenticator's own subkey. Fails with `NoSubKey` if the context keeps none.
fn kept_key(alloc: Global, initiator: &Initiator) -> Result<Secret<Octets>, Cause>
    ensures { Answers (Takes causes.NoSubKey (own_subkey initiator.now)) result }
{
    let own = own_subkey(alloc, initiator)?;
    take(own, Cause::NoSubKey)
}

/// Returns the key of messages: the service's subkey, otherwise the authenticator's own.
fn key_in(
    alloc: Global,
    initiator: &Initiator,
    subkey: Option<EncryptionKey>,
) -> Result<Secret<Octets>, Cause>
    ensures { Answers (Takes causes.NoSubKey (chosen_subkey initiator.now subkey)) result }
{
    match subkey {
        Some(subkey) => Ok(Secret::new(subkey.key_value)),
        None => kept_key(alloc, initiator),
    }
}

fn number_in(number: Option<IntegerAsn1>) -> Result<Octets, Cause>
    requires { IfSome number IsSendableNumber }
    ensures step { Takes causes.NoNumber number result }
    ensures sendable { IfOk result IsSendableNumber }
{
    match number {
        Some(number) => Ok(Octets::new(number.into_inner())),
        None => Err(Cause::NoNumber),
    }
}

/// Returns the outcome without DCE style.
fn confirmed(
    alloc: Global,
    initiator: &Initiator,
    from_service: bool,
    subkey: Secret<Octets>,
) -> Result<InitDone, Cause>
    ensures { Answers (Gives (confirmed initiator.now from_service subkey)) result }
{
    let number = settled_number(initiator);
    let ec = initiator.params.ec;
    let change = established(alloc, initiator, from_service, subkey, ec, number)?;
    Ok(InitDone {
        status: SecurityStatus::Ok,
        token: Octets::new(Vec::new(alloc)),
        change,
    })
}

#[tactic(auto, unfolding(crate::specs::Answered::Confirms))]
fn confirm(
    alloc: Global,
    initiator: &Initiator,
    subkey: Option<EncryptionKey>,
) -> Result<InitDone, Cause>
    ensures { Answers (Confirms initiator.now subkey) result }
{
    let from_service = subkey.is_some();
    let subkey = key_in(alloc, initiator, subkey)?;
    confirmed(alloc, initiator, from_service, subkey)
}

/// Returns the third leg, an AP-REP with this sequence number.
#[tactic(auto, unfolding(crate::specs::Answered::last_word))]
fn last_word(
    alloc: Global,
    suite: CipherSuite,
    key: &Secret<Octets>,
    number: Octets,
    draw: &Draw,
) -> Result<Octets, OutOfMemory>
    requires key { length key.now ≡ key_size suite }
    requires moment { draw.now.moment ≤ last_moment }
    requires number { IsSendableNumber number }
    ensures { IfOk result (λ token. token ≡ last_word suite key.now number draw.now) }
{
    let confounder = draw.octets::<16>(0);
    let key = key.as_ref().as_slice();
    let message = seal_ap_rep(alloc, suite, key, number, draw.moment, confounder)?;
    message.write(alloc)
}

/// Returns the outcome in DCE style.
fn replied(
    alloc: Global,
    initiator: &Initiator,
    key: &Secret<Octets>,
    from_service: bool,
    subkey: Secret<Octets>,
    number: Octets,
    draw: &Draw,
) -> Result<InitDone, Cause>
    requires key { length key.now ≡ key_size (suite_of initiator.now.params) }
    requires moment { draw.now.moment ≤ last_moment }
    requires number { IsSendableNumber number }
    ensures { Answers (Gives (replied initiator.now key.now from_service subkey number draw.now)) result }
{
    let token = last_word(alloc, initiator.params.suite(), key, number, draw)?;
    let own = initiator.number;
    let change = established(alloc, initiator, from_service, subkey, EXTRA_COUNT, own)?;
    Ok(InitDone {
        status: SecurityStatus::Ok,
        token,
        change,
    })
}

#[tactic(auto, unfolding(crate::specs::Answered::Replies))]
fn reply(
    alloc: Global,
    initiator: &Initiator,
    key: &Secret<Octets>,
    part: EncApRepPart,
    draw: &Draw,
) -> Result<InitDone, Cause>
    requires key { length key.now ≡ key_size (suite_of initiator.now.params) }
    requires number { IfSome part.seq_number IsSendableNumber }
    requires moment { draw.now.moment ≤ last_moment }
    ensures { Answers (Replies initiator.now key.now part.subkey part.seq_number draw.now) result }
{
    let from_service = part.subkey.is_some();
    let subkey = key_in(alloc, initiator, part.subkey)?;
    let number = number_in(part.seq_number)?;
    replied(alloc, initiator, key, from_service, subkey, number, draw)
}

/// Returns whether an AP-REP has the time of the authenticator that was shown at this moment, in microseconds since 1970.
fn is_time_of(part: &EncApRepPart, moment: u64) -> bool
    ensures { result ≡ is_time_of part.now moment }
{
    part.ctime.seconds() == (moment / 1_000_000) as i64
        && is_number(&part.cusec, (moment % 1_000_000) as i64)
}

fn answers_at(asked_at: Option<u64>, part: &EncApRepPart) -> bool
    ensures { result ≡ answers_at asked_at part.now }
{
    match asked_at {
        None => false,
        Some(moment) => is_time_of(part, moment),
    }
}

/// Returns whether an AP-REP has the time of its authenticator, if that is a rule.
fn answers_authenticator(initiator: &Initiator, part: &EncApRepPart) -> bool
    ensures { result ≡ answers_authenticator initiator.now part.now }
{
    let rules = initiator.rules;
    !rules.has(Rules::ANSWERS_ITS_AUTHENTICATOR) || answers_at(initiator.asked_at, part)
}

fn check_time(initiator: &Initiator, part: &EncApRepPart) -> Result<(), Cause>
    ensures { Holds causes.ReplyTime (answers_authenticator initiator.now part.now) result }
{
    hold(answers_authenticator(initiator, part), Cause::ReplyTime)
}

/// Returns the outcome of the decrypted part.
fn finish(
    alloc: Global,
    dce: bool,
    initiator: &Initiator,
    key: &Secret<Octets>,
    part: EncApRepPart,
    draw: &Draw,
) -> Result<InitDone, Cause>
    requires key { length key.now ≡ key_size (suite_of initiator.now.params) }
    requires number { IfSome part.seq_number IsSendableNumber }
    requires moment { draw.now.moment ≤ last_moment }
    ensures { Answers (FinishesInitiation dce initiator.now key.now part draw.now) result }
{
    if dce {
        reply(alloc, initiator, key, part, draw)
    } else {
        confirm(alloc, initiator, part.subkey)
    }
}

/// Takes the service's answer at an initiator that awaits it, and establishes the context: an AP-REP under the session key, framed,
/// or bare in DCE style. Its subkey becomes the context's; if it has none and a rule allows that, the authenticator's subkey stays.
/// In DCE style the initiator replies with an AP-REP with the same sequence number, and EC is 16 in Wrap tokens. Otherwise it sends
/// nothing, and its own sequence number rises by one; the number stays if a rule allows that the first message has the number that
/// the authenticator showed.
///
/// Fails, in this order, with `Shape` if the token is no AP-REP or has more than 16,777,216 octets; with `Reply` if the AP-REP does
/// not decrypt under the session key; with `Inner` if its plain text is no EncAPRepPart; with `ReplyTime` if it has to have the time
/// of the authenticator, and does not; with `NoSubKey` if it has no subkey and none of the authenticator's stays; in DCE style with
/// `NoNumber` if it has no sequence number.
#[tactic(auto, unfolding(crate::specs::Answered::TakesApRep))]
pub fn take_ap_rep(
    alloc: Global,
    initiator: &Initiator,
    token: &[u8],
    draw: &Draw,
) -> Result<InitDone, Cause>
    requires moment { draw.now.moment ≤ last_moment }
    ensures step { Answers (TakesApRep initiator.now token.now draw.now) result }
{
    let dce = is_bare(initiator.flags);
    let message = read_ap_rep(alloc, dce, token)?;
    let key = session_key(initiator)?;
    let part = open_ap_rep(alloc, initiator.params.suite(), key, &message)?;
    check_time(initiator, &part)?;
    finish(alloc, dce, initiator, key, part, draw)
}
