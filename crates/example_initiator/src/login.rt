//! A log-in at a service, and a message for it: the calls that a client makes of the library.

ghost use Rattle.std.specs.Prelude.{IfOk};
ghost use Rattle.krb_sessions.specs.Gives.{IsWrapped};

use crate::line::User;
use crate::network::Network;
use crate::steps::Draws;
use krb_client::{Cause, NetFault, NetworkClient, OutOfMemory};
use krb_dialogue::{ClientRequestFlags, Dialogue, Draw, Error, Fault, Flags, Next, Session};
use std::alloc::Global;

/// The bytes of an encrypted message besides its text: two headers, a confounder and a checksum (RFC 4121, section 4.2.4).
const OVERHEAD: usize = 60;

/// Returns flags that ask for a service that proves its identity, and for messages that are encrypted, each once and in their order.
fn flags() -> ClientRequestFlags {
    ClientRequestFlags::MUTUAL_AUTH
        .union(ClientRequestFlags::REPLAY_DETECT)
        .union(ClientRequestFlags::SEQUENCE_DETECT)
        .union(ClientRequestFlags::CONFIDENTIALITY)
        .union(ClientRequestFlags::INTEGRITY)
}

/// Returns a log-in of this user at a service, as `host/server.example.com`. The number is the first sequence number of this end, four
/// random bytes.
pub fn new_login(
    alloc: Global,
    user: &User,
    number: [u8; 4],
    target: &str,
) -> Result<Box<Dialogue>, Error> {
    let mut dialogue = Dialogue::new(alloc, target, user.machine, flags(), number)?;
    dialogue.set_kdc(alloc, user.kdc)?;
    dialogue.set_password(alloc, user.name, user.realm, user.password)?;
    Ok(dialogue)
}

/// Sends the request of the dialogue to its KDC, and passes the reply to the dialogue.
fn ask_kdc(
    alloc: Global,
    dialogue: &mut Dialogue,
    network: &mut Network,
    draw: &Draw,
) -> Result<Next, Error> {
    match network.send(dialogue.ask()?) {
        Ok(reply) => dialogue.answer(alloc, reply.as_slice(), draw),
        Err(NetFault::Failed(code)) => dialogue.fault(code, draw),
        Err(NetFault::OutOfMemory) => Err(Error::from(Cause::Memory)),
    }
}

/// Asks KDCs as long as the dialogue needs a reply, with a draw for each reply.
fn ask_kdcs(
    alloc: Global,
    dialogue: &mut Dialogue,
    next: Next,
    network: &mut Network,
    draws: &[Draw],
) -> Result<Next, Error> {
    let mut next = next;
    for draw in draws {
        if next != Next::AskKdc {
            break;
        }
        next = ask_kdc(alloc, dialogue, network, draw)?;
    }
    Ok(next)
}

/// Asks for the service's ticket.
pub fn start(
    alloc: Global,
    dialogue: &mut Dialogue,
    network: &mut Network,
    draws: Draws,
) -> Result<Next, Error> {
    let next = dialogue.start(alloc, draws.first)?;
    ask_kdcs(alloc, dialogue, next, network, draws.replies)
}

/// Takes the service's answer.
pub fn hear(
    alloc: Global,
    dialogue: &mut Dialogue,
    token: &[u8],
    network: &mut Network,
    draws: Draws,
) -> Result<Next, Error> {
    let next = dialogue.hear(alloc, token, draws.first)?;
    ask_kdcs(alloc, dialogue, next, network, draws.replies)
}

fn room(alloc: Global, length: usize) -> Result<Vec<u8>, OutOfMemory> {
    Ok(vec![in alloc; 0; length]?)
}

/// Returns the token for the service. The first call returns its length.
pub fn token(alloc: Global, dialogue: &Dialogue) -> Result<Vec<u8>, Fault> {
    let mut token = Vec::new(alloc);
    if let Err(Fault::Room(length)) = dialogue.token(&mut token) {
        token = room(alloc, length)?;
    }
    let length = dialogue.token(&mut token)?;
    token.truncate(length);
    Ok(token)
}

/// Returns a text as an encrypted message for the service. The confounder is 16 random bytes.
pub fn seal(
    alloc: Global,
    session: &mut Session,
    text: &[u8],
    confounder: [u8; 16],
) -> Result<Vec<u8>, Fault>
    ensures sealed { IfOk result (λ sealed. IsWrapped session.old.connection confounder text.now sealed.items) }
{
    let mut sealed = room(alloc, text.len() + OVERHEAD)?;
    let length = session.wrap(alloc, text, confounder, &mut sealed)?;
    sealed.truncate(length);
    Ok(sealed)
}
