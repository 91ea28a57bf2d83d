//! An initiator: it is made, its session is moved out of it, and it ends.

ghost use Rattle.std.specs.Prelude.{◌≡◌, ◌≢◌, ◌⊎◌, ℕ, length, None, Result, IfOk, IfErr, OnErr};
ghost use Rattle.std.specs.Int.{from_be_bytes, w32};
ghost use Rattle.sspi_core.specs.Checks.{Takes};
ghost use Rattle.sspi_core.specs.declared.cause.Cause.TheVariants as causes;
ghost use Rattle.sspi_core.specs.declared.error.Place.TheVariants as places;
ghost use Rattle.krb_context.specs.Refusals.{Refuses};
ghost use Rattle.krb_requests.specs.Pieces.{name_of};
ghost use Rattle.krb_dialogue.specs.Settings.{IsNew};
ghost use Rattle.krb_c.specs.declared.reply.Failure.{Failure};
ghost use Rattle.krb_c.specs.Replies.{reply_of};
ghost use Rattle.krb_c.specs.Dialogues.{flags_from, MakesInitiator, HandsOver, HandsNotOver};
ghost use Rattle.krb_c.specs.Failures.{MakesNot, IsNoText};

use crate::handles::{Connection, Initiator};
use crate::reply::{Failure, Reply, reply_of};
use crate::texts::{number_of, text_of};
use bitflags::Flags;
use krb_dialogue::{Cause, ClientRequestFlags, Dialogue, Error};
use std::alloc::Global;

fn flags_from(bits: u32) -> ClientRequestFlags
    ensures { result ≡ flags_from bits }
{
    ClientRequestFlags::from_bits_retain(bits)
}

fn new_dialogue(
    alloc: Global,
    target: &str,
    machine: &str,
    flags: u32,
    number: [u8; 4],
) -> Result<Box<Dialogue>, Error>
    ensures made { IfOk result (λ dialogue. IsNew target.now machine.now (flags_from flags) (from_be_bytes w32 number) dialogue.value) }
    ensures refused { IfErr result (Refuses places.Elsewhere (Takes causes.NotAscii (name_of target.now))) }
{
    Dialogue::new(alloc, target, machine, flags_from(flags), number)
}

fn make(
    alloc: Global,
    to: &mut Initiator,
    target: &[u8],
    machine: &[u8],
    flags: u32,
    number: &[u8],
) -> Result<usize, Failure>
    ensures made { IfOk result (λ count. MakesInitiator target.now machine.now flags number.now to.old.place.value count to.new.place.value) }
    ensures fails { IfErr result (MakesNot (IsNoText target.now ⊎ (IsNoText machine.now ⊎ (length number.now ≢ 4)))
        (Refuses places.Elsewhere (Takes causes.NotAscii (name_of target.now))) to.old.place.value) }
    ensures stays { OnErr result (to.new.place.value ≡ to.old.place.value) }
{
    if !to.is_empty() {
        return Err(Failure::Handle);
    }
    let target = text_of(target)?;
    let machine = text_of(machine)?;
    let number = number_of(number)?;
    match new_dialogue(alloc, target, machine, flags, number) {
        Ok(dialogue) => {
            to.put(dialogue);
            Ok(0)
        }
        Err(error) => Err(Failure::Refused(error)),
    }
}

/// Makes in an empty handle an initiator at the machine of this name for a service, as `host/server.example.com`. The flags are bits
/// of `ClientRequestFlags`, and the number has 4 random bytes: it is the first sequence number of this end.
///
/// Fails with ARGUMENT if a text is not UTF-8, or the number has not 4 bytes; with HANDLE if the handle is not empty; with
/// InternalError `NotAscii` if the service's name is not ASCII. The handle stays empty then.
#[unsafe(no_mangle)]
pub extern "C" fn mk_initiator_new(
    alloc: Global,
    to: &mut Initiator,
    target: &[u8],
    machine: &[u8],
    flags: u32,
    number: &[u8],
) -> Reply
    ensures { (answer : Result ℕ Failure) × (result ≡ reply_of answer)
        × IfOk answer (λ count. MakesInitiator target.now machine.now flags number.now to.old.place.value count to.new.place.value)
        × IfErr answer (MakesNot (IsNoText target.now ⊎ (IsNoText machine.now ⊎ (length number.now ≢ 4)))
        (Refuses places.Elsewhere (Takes causes.NotAscii (name_of target.now))) to.old.place.value)
        × OnErr answer (to.new.place.value ≡ to.old.place.value) }
{
    reply_of(make(alloc, to, target, machine, flags, number))
}

fn hand_over(
    alloc: Global,
    initiator: &mut Initiator,
    to: &mut Connection,
) -> Result<usize, Failure>
    ensures handed { IfOk result (λ count. HandsOver initiator.old.place.value to.old.place.value count
        initiator.new.place.value to.new.place.value) }
    ensures fails { IfErr result (HandsNotOver initiator.old.place.value to.old.place.value) }
    ensures stays { OnErr result (initiator.new.place.value ≡ initiator.old.place.value) }
    ensures empty { OnErr result (to.new.place.value ≡ to.old.place.value) }
{
    if !to.is_empty() {
        return Err(Failure::Handle);
    }
    let Some(dialogue) = initiator.take(alloc) else {
        return Err(Failure::Handle);
    };
    match Dialogue::into_session(dialogue) {
        Ok(session) => {
            to.put(session);
            Ok(0)
        }
        Err(dialogue) => {
            initiator.put(dialogue);
            Err(Failure::Refused(Error::from(Cause::Sequence)))
        }
    }
}

/// Moves the session of an initiator that is established into the empty handle `to`. The initiator's handle is empty then.
///
/// Fails with OutOfSequence `Sequence` if it is not established; with HANDLE if there is no initiator, or `to` is not empty. Then
/// nothing is changed.
#[unsafe(no_mangle)]
pub extern "C" fn mk_initiator_take_session(
    alloc: Global,
    initiator: &mut Initiator,
    to: &mut Connection,
) -> Reply
    ensures { (answer : Result ℕ Failure) × (result ≡ reply_of answer)
        × IfOk answer (λ count. HandsOver initiator.old.place.value to.old.place.value count
        initiator.new.place.value to.new.place.value)
        × IfErr answer (HandsNotOver initiator.old.place.value to.old.place.value)
        × OnErr answer (initiator.new.place.value ≡ initiator.old.place.value)
        × OnErr answer (to.new.place.value ≡ to.old.place.value) }
{
    reply_of(hand_over(alloc, initiator, to))
}

/// Ends an initiator: its memory is freed, and the handle is empty. An empty handle stays so.
#[unsafe(no_mangle)]
pub extern "C" fn mk_initiator_free(alloc: Global, initiator: &mut Initiator)
    ensures { initiator.new.place.value ≡ None }
{
    drop(initiator.take(alloc));
}
