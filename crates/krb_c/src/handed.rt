//! The bytes that an initiator returns.

ghost use Rattle.std.specs.Prelude.{◌≡◌, ℕ, length, Result, IfOk, IfErr, OnErr};
ghost use Rattle.krb_dialogue.specs.HandedOut.{url_in, payload_in, token_in, peer_in};
ghost use Rattle.krb_c.specs.declared.reply.Failure.{Failure};
ghost use Rattle.krb_c.specs.Replies.{reply_of};
ghost use Rattle.krb_c.specs.Dialogues.{HandsOut, HandsNot};

use crate::handles::Initiator;
use crate::reply::{Failure, Reply, reply_of};
use std::alloc::Global;

fn url(alloc: Global, initiator: &mut Initiator, out: &mut [u8]) -> Result<usize, Failure>
    ensures hands { IfOk result (λ count. HandsOut url_in initiator.old.place.value out.old count out.new) }
    ensures fails { IfErr result (HandsNot url_in initiator.old.place.value (length out.old)) }
    ensures stays { initiator.new.place.value ≡ initiator.old.place.value }
    ensures room { OnErr result (out.new ≡ out.old) }
{
    let Some(dialogue) = initiator.take(alloc) else {
        return Err(Failure::Handle);
    };
    let answer = dialogue.url(out);
    initiator.put(dialogue);
    match answer {
        Ok(count) => Ok(count),
        Err(fault) => Err(Failure::from(fault)),
    }
}

/// Writes the URL of the KDC that is asked, as `tcp://kdc.example.com:88`. Fails with OutOfSequence `Sequence` if none is asked.
#[unsafe(no_mangle)]
pub extern "C" fn mk_initiator_get_url(
    alloc: Global,
    initiator: &mut Initiator,
    out: &mut [u8],
) -> Reply
    ensures told { (answer : Result ℕ Failure) × (result ≡ reply_of answer)
        × IfOk answer (λ count. HandsOut url_in initiator.old.place.value out.old count out.new)
        × IfErr answer (HandsNot url_in initiator.old.place.value (length out.old))
        × OnErr answer (out.new ≡ out.old) }
    ensures stays { initiator.new.place.value ≡ initiator.old.place.value }
{
    reply_of(url(alloc, initiator, out))
}

fn request(alloc: Global, initiator: &mut Initiator, out: &mut [u8]) -> Result<usize, Failure>
    ensures hands { IfOk result (λ count. HandsOut payload_in initiator.old.place.value out.old count out.new) }
    ensures fails { IfErr result (HandsNot payload_in initiator.old.place.value (length out.old)) }
    ensures stays { initiator.new.place.value ≡ initiator.old.place.value }
    ensures room { OnErr result (out.new ≡ out.old) }
{
    let Some(dialogue) = initiator.take(alloc) else {
        return Err(Failure::Handle);
    };
    let answer = dialogue.request(out);
    initiator.put(dialogue);
    match answer {
        Ok(count) => Ok(count),
        Err(fault) => Err(Failure::from(fault)),
    }
}

/// Writes the bytes that are sent there. Fails with OutOfSequence `Sequence` if no KDC is asked.
#[unsafe(no_mangle)]
pub extern "C" fn mk_initiator_get_request(
    alloc: Global,
    initiator: &mut Initiator,
    out: &mut [u8],
) -> Reply
    ensures told { (answer : Result ℕ Failure) × (result ≡ reply_of answer)
        × IfOk answer (λ count. HandsOut payload_in initiator.old.place.value out.old count out.new)
        × IfErr answer (HandsNot payload_in initiator.old.place.value (length out.old))
        × OnErr answer (out.new ≡ out.old) }
    ensures stays { initiator.new.place.value ≡ initiator.old.place.value }
{
    reply_of(request(alloc, initiator, out))
}

fn token(alloc: Global, initiator: &mut Initiator, out: &mut [u8]) -> Result<usize, Failure>
    ensures hands { IfOk result (λ count. HandsOut token_in initiator.old.place.value out.old count out.new) }
    ensures fails { IfErr result (HandsNot token_in initiator.old.place.value (length out.old)) }
    ensures stays { initiator.new.place.value ≡ initiator.old.place.value }
    ensures room { OnErr result (out.new ≡ out.old) }
{
    let Some(dialogue) = initiator.take(alloc) else {
        return Err(Failure::Handle);
    };
    let answer = dialogue.token(out);
    initiator.put(dialogue);
    match answer {
        Ok(count) => Ok(count),
        Err(fault) => Err(Failure::from(fault)),
    }
}

/// Writes the token for the service; no bytes if nothing more is sent. Fails with OutOfSequence `Sequence` if there is none. The token
/// is kept until the next step.
#[unsafe(no_mangle)]
pub extern "C" fn mk_initiator_get_token(
    alloc: Global,
    initiator: &mut Initiator,
    out: &mut [u8],
) -> Reply
    ensures told { (answer : Result ℕ Failure) × (result ≡ reply_of answer)
        × IfOk answer (λ count. HandsOut token_in initiator.old.place.value out.old count out.new)
        × IfErr answer (HandsNot token_in initiator.old.place.value (length out.old))
        × OnErr answer (out.new ≡ out.old) }
    ensures stays { initiator.new.place.value ≡ initiator.old.place.value }
{
    reply_of(token(alloc, initiator, out))
}

fn peer(alloc: Global, initiator: &mut Initiator, out: &mut [u8]) -> Result<usize, Failure>
    ensures hands { IfOk result (λ count. HandsOut peer_in initiator.old.place.value out.old count out.new) }
    ensures fails { IfErr result (HandsNot peer_in initiator.old.place.value (length out.old)) }
    ensures stays { initiator.new.place.value ≡ initiator.old.place.value }
    ensures room { OnErr result (out.new ≡ out.old) }
{
    let Some(dialogue) = initiator.take(alloc) else {
        return Err(Failure::Handle);
    };
    let answer = dialogue.peer(out);
    initiator.put(dialogue);
    match answer {
        Ok(count) => Ok(count),
        Err(fault) => Err(Failure::from(fault)),
    }
}

/// Writes the service that has proved its identity, as `host/server.example.com`. Fails with OutOfSequence `Sequence` before the
/// context is established.
#[unsafe(no_mangle)]
pub extern "C" fn mk_initiator_get_peer(
    alloc: Global,
    initiator: &mut Initiator,
    out: &mut [u8],
) -> Reply
    ensures told { (answer : Result ℕ Failure) × (result ≡ reply_of answer)
        × IfOk answer (λ count. HandsOut peer_in initiator.old.place.value out.old count out.new)
        × IfErr answer (HandsNot peer_in initiator.old.place.value (length out.old))
        × OnErr answer (out.new ≡ out.old) }
    ensures stays { initiator.new.place.value ≡ initiator.old.place.value }
{
    reply_of(peer(alloc, initiator, out))
}
