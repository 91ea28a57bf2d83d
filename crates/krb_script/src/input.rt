//! The input that an event brings to its connection.

ghost use Rattle.std.specs.Prelude.{map};
ghost use Rattle.krb_script.specs.Inputs.{token_of, start_of, reply_of, fault_of, wrap_of, unwrap_of, mic_of, verify_of, input_of};
ghost use Rattle.krb_script.specs.Gives.{Gives};

use crate::buffers::parse_message;
use crate::fields::{FieldError, number_u32, octets_or_none};
use krb_der::Octets;
use sspi_core::Message;
use std::alloc::Global;

/// The input that an event brings to its connection.
#[derive(Drop)]
pub enum Input {
    /// A token of the peer.
    Token(Octets),
    /// The beginning of an initiator's exchange.
    Start,
    /// The reply of a KDC to the request that the connection asked to have sent.
    KdcReply(Octets),
    /// Sending that request failed, with this code.
    KdcFault(u32),
    /// A message to wrap.
    Wrap(Message),
    /// A message to unwrap.
    Unwrap(Message),
    /// A payload to be signed by a MIC token.
    MakeMic(Octets),
    /// A MIC token of the peer, and the payload that it signs.
    VerifyMic { token: Octets, payload: Octets },
}

fn parse_token(alloc: Global, fields: &[&[u8]]) -> Result<Input, FieldError>
    ensures { Gives (token_of (map (λ x. x.now) fields.now)) result }
{
    let [token] = fields else {
        return Err(FieldError::Bad);
    };
    Ok(Input::Token(octets_or_none(alloc, token)?))
}

fn parse_start(fields: &[&[u8]]) -> Result<Input, FieldError>
    ensures { Gives (start_of (map (λ x. x.now) fields.now)) result }
{
    match fields {
        [] => Ok(Input::Start),
        _ => Err(FieldError::Bad),
    }
}

fn parse_reply(alloc: Global, fields: &[&[u8]]) -> Result<Input, FieldError>
    ensures { Gives (reply_of (map (λ x. x.now) fields.now)) result }
{
    let [reply] = fields else {
        return Err(FieldError::Bad);
    };
    Ok(Input::KdcReply(octets_or_none(alloc, reply)?))
}

fn parse_fault(fields: &[&[u8]]) -> Result<Input, FieldError>
    ensures { Gives (fault_of (map (λ x. x.now) fields.now)) result }
{
    let [code] = fields else {
        return Err(FieldError::Bad);
    };
    Ok(Input::KdcFault(number_u32(code)?))
}

fn parse_wrap(alloc: Global, fields: &[&[u8]]) -> Result<Input, FieldError>
    ensures { Gives (wrap_of (map (λ x. x.now) fields.now)) result }
{
    Ok(Input::Wrap(parse_message(alloc, fields)?))
}

fn parse_unwrap(alloc: Global, fields: &[&[u8]]) -> Result<Input, FieldError>
    ensures { Gives (unwrap_of (map (λ x. x.now) fields.now)) result }
{
    Ok(Input::Unwrap(parse_message(alloc, fields)?))
}

fn parse_mic(alloc: Global, fields: &[&[u8]]) -> Result<Input, FieldError>
    ensures { Gives (mic_of (map (λ x. x.now) fields.now)) result }
{
    let [payload] = fields else {
        return Err(FieldError::Bad);
    };
    Ok(Input::MakeMic(octets_or_none(alloc, payload)?))
}

fn parse_verify(alloc: Global, fields: &[&[u8]]) -> Result<Input, FieldError>
    ensures { Gives (verify_of (map (λ x. x.now) fields.now)) result }
{
    let [token, payload] = fields else {
        return Err(FieldError::Bad);
    };
    Ok(Input::VerifyMic {
        token: octets_or_none(alloc, token)?,
        payload: octets_or_none(alloc, payload)?,
    })
}

/// Reads the input of an event, by its word.
#[tactic(auto, unfolding(crate::specs::Inputs::input_of))]
pub(crate) fn parse_input(alloc: Global, fields: &[&[u8]]) -> Result<Input, FieldError>
    ensures { Gives (input_of (map (λ x. x.now) fields.now)) result }
{
    let [word, rest @ ..] = fields else {
        return Err(FieldError::Bad);
    };
    if *word == b"token".as_slice() {
        parse_token(alloc, rest)
    } else if *word == b"start".as_slice() {
        parse_start(rest)
    } else if *word == b"reply".as_slice() {
        parse_reply(alloc, rest)
    } else if *word == b"fault".as_slice() {
        parse_fault(rest)
    } else if *word == b"wrap".as_slice() {
        parse_wrap(alloc, rest)
    } else if *word == b"unwrap".as_slice() {
        parse_unwrap(alloc, rest)
    } else if *word == b"mic".as_slice() {
        parse_mic(alloc, rest)
    } else if *word == b"verify".as_slice() {
        parse_verify(alloc, rest)
    } else {
        Err(FieldError::Bad)
    }
}
