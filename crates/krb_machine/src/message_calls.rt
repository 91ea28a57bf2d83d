//! The calls of an event at a connection's context apart from its exchange: messages and MIC tokens.

ghost use Rattle.std.specs.Prelude.{◌≡◌, ◌≢◌, take, IfOk, OnErr};
ghost use Rattle.sspi_core.specs.Kinds.{error_of};
ghost use Rattle.sspi_core.specs.declared.cause.Cause.TheVariants as causes;
ghost use Rattle.krb_machine.specs.MessageCalls.{Seals, OpensMessage, Signs, Verifies};
ghost use Rattle.krb_machine.specs.declared.reply.Reply.TheVariants.{Refused};

use crate::exchange::is_memory;
use crate::reply::Reply;
use krb_context::Kerberos;
use krb_der::{Items, Octets, OutOfMemory};
use sspi_core::{BufferType, Error, Message, SecurityBufferRef};
use std::alloc::Global;

fn copy_buffer(alloc: Global, buffer: &SecurityBufferRef) -> Result<SecurityBufferRef, OutOfMemory>
    ensures { IfOk result (λ copy. copy ≡ buffer.now) }
{
    let octets = Octets::from_slice(alloc, buffer.data())?;
    let limit = buffer.limit();
    let copy = match buffer.kind() {
        BufferType::Token => SecurityBufferRef::token_buf(octets, limit),
        BufferType::Data => SecurityBufferRef::data_buf(octets, limit),
        BufferType::Stream => SecurityBufferRef::stream_buf(octets, limit),
    };
    Ok(copy.with_flags(buffer.flags()))
}

fn copy_buffers(
    alloc: Global,
    buffers: &[SecurityBufferRef],
) -> Result<Items<SecurityBufferRef>, OutOfMemory>
    ensures { IfOk result (λ copies. copies ≡ buffers.now) }
{
    let mut copies = Vec::with_capacity(alloc, buffers.len())?;
    for buffer in buffers {
        copies.push(copy_buffer(alloc, buffer)?)?;
    }
    Ok(Items::new(copies))
}

/// Copies the message of an event, which is borrowed: the reply is the copy.
fn copy_message(alloc: Global, message: &Message) -> Result<Message, OutOfMemory>
    ensures { IfOk result (λ copy. copy ≡ message.now) }
{
    let copies = copy_buffers(alloc, message.buffers())?;
    // A copy has each part once, as the message has.
    match Message::new(copies) {
        Ok(copy) => Ok(copy),
        Err(_) => Err(OutOfMemory),
    }
}

/// Returns a refusal. Fails if memory ran out.
pub(crate) fn refused(error: Error) -> Result<Reply, OutOfMemory>
    ensures refused { IfOk result (λ reply. (reply ≡ Refused error) × (error ≢ error_of causes.Memory)) }
{
    if is_memory(&error) {
        Err(OutOfMemory)
    } else {
        Ok(Reply::Refused(error))
    }
}

fn confounder_of(random: &[u8; 64]) -> [u8; 16]
    ensures { result ≡ take 16 random.now }
{
    let mut confounder = [0; 16];
    confounder.copy_from_slice(&random[..16]);
    confounder
}

/// Wraps a copy of a message, and returns it in the reply.
pub(crate) fn seal_message(
    alloc: Global,
    context: &mut Kerberos,
    random: &[u8; 64],
    message: &Message,
) -> Result<Reply, OutOfMemory>
    ensures seals { IfOk result (λ reply. Seals context.old random.now message.now reply context.new) }
    ensures err { OnErr result (context.new ≡ context.old) }
{
    let mut sealed = copy_message(alloc, message)?;
    match context.encrypt_message(alloc, &mut sealed, confounder_of(random)) {
        Ok(_) => Ok(Reply::Buffers(sealed)),
        Err(error) => refused(error),
    }
}

/// Unwraps a copy of a message, and returns it in the reply.
pub(crate) fn open_message(
    alloc: Global,
    context: &mut Kerberos,
    message: &Message,
) -> Result<Reply, OutOfMemory>
    ensures opens { IfOk result (λ reply. OpensMessage context.old message.now reply context.new) }
    ensures err { OnErr result (context.new ≡ context.old) }
{
    let mut opened = copy_message(alloc, message)?;
    match context.decrypt_message(alloc, &mut opened) {
        Ok(()) => Ok(Reply::Buffers(opened)),
        Err(error) => refused(error),
    }
}

/// Makes the MIC token of a payload, and returns it in the reply.
pub(crate) fn sign(
    alloc: Global,
    context: &mut Kerberos,
    payload: &Octets,
) -> Result<Reply, OutOfMemory>
    ensures signs { IfOk result (λ reply. Signs context.old payload.now reply context.new) }
    ensures err { OnErr result (context.new ≡ context.old) }
{
    match context.generate_mic_token(alloc, payload.as_slice()) {
        Ok(token) => Ok(Reply::Mic(token)),
        Err(error) => refused(error),
    }
}

/// Checks a MIC token over a payload.
pub(crate) fn verify(context: &Kerberos, token: &Octets, payload: &Octets) -> Reply
    ensures { Verifies context.now token.now payload.now result context.now }
{
    match context.verify_mic_token(token.as_slice(), payload.as_slice()) {
        Ok(()) => Reply::Verified,
        Err(error) => Reply::Refused(error),
    }
}
