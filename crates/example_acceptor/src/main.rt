//! A server that embeds the acceptor.
//!
//! It reads lines of standard input: first the service with its key, then tokens of clients, and messages of the client that
//! was admitted last. It writes the admitted client and the text of a message, or the check that failed first. A server reads its
//! clock and draws random bytes; this one reads both from its input, so that a recorded conversation can be repeated.
#![tactic(auto)]

mod line;
mod server;

use anyhow::{Context, Result, anyhow};
use krb_der::boxed;
use krb_entrance::{Draw, Error, Fault, MAX_MOMENT, Octets, Service, Session};
use line::Line;
use std::alloc::Global;
use std::io;
use std::str::Lines;

/// The seconds by which a client's clock may be wrong.
const SKEW: u32 = 300;

fn draw_of(moment: u64, random: &str) -> Result<Draw> {
    let mut draw = Draw {
        moment,
        random: [0; 64],
    };
    hex::decode_to_slice(random.as_bytes(), &mut draw.random)?;
    Ok(draw)
}

/// Returns the service of the first line: one for the whole process, since its replay book serves all its clients.
fn service_of(alloc: Global, line: Option<&str>) -> Result<Box<Service>> {
    let Some(Line::Service { name, key }) = line.and_then(Line::parse) else {
        return Err(anyhow!("the first line is not: service NAME KEY"));
    };
    let key = Octets::new(hex::decode(alloc, key.as_bytes())?);
    let service = Service::new(alloc, name, key, SKEW)?;
    Ok(boxed(alloc, service)?)
}

/// Prints the bytes in hex, or a hyphen if there are none.
fn print_octets(rt: &(impl Print + AllocGlobal), word: &str, octets: &[u8]) -> Result<()> {
    if octets.is_empty() {
        println!(rt; "{word} -")?;
    } else {
        println!(rt; "{word} {}", hex::encode(rt.alloc(), octets)?)?;
    }
    Ok(())
}

/// Prints the admitted client, and the reply to it. A name may have any bytes: those that are not printable are escaped.
fn print_session(rt: &(impl Print + AllocGlobal), session: &Session) -> Result<()> {
    let client = session.client.as_ref().context("no client")?;
    let name = client.principal(rt.alloc())?;
    println!(rt; "admitted {}", name.as_slice().escape_ascii())?;
    print_octets(rt, "answer", session.answer.as_slice())
}

fn print_refusal(rt: &impl Print, error: &Error) -> Result<()> {
    println!(rt; "refused {error}")?;
    Ok(())
}

/// Prints the text of a message, or the check that failed first.
fn print_text(
    rt: &(impl Print + AllocGlobal),
    outcome: &std::result::Result<Vec<u8>, Fault>,
) -> Result<()> {
    match outcome {
        Ok(text) => print_octets(rt, "opened", text),
        Err(Fault::Refused(error)) => print_refusal(rt, error),
        Err(Fault::Room(length)) => Err(anyhow!("no room for {length} octets")),
    }
}

/// Prints a session, and puts it on the heap.
fn admitted(rt: &(impl Print + AllocGlobal), session: Session) -> Result<Option<Box<Session>>> {
    let session = boxed(rt.alloc(), session)?;
    print_session(rt, &session)?;
    Ok(Some(session))
}

fn refused(rt: &impl Print, error: &Error) -> Result<Option<Box<Session>>> {
    print_refusal(rt, error)?;
    Ok(None)
}

/// Returns the session of the client that sent this token, or None: then a line names the check that failed first.
fn admit(
    rt: &(impl Print + AllocGlobal),
    service: &mut Service,
    token: &str,
    draw: &Draw,
) -> Result<Option<Box<Session>>> {
    let token = hex::decode(rt.alloc(), token.as_bytes())?;
    match server::admit(rt.alloc(), service, &token, draw) {
        Ok(session) => admitted(rt, session),
        Err(error) => refused(rt, &error),
    }
}

fn open(
    rt: &(impl Print + AllocGlobal),
    session: Option<&mut Box<Session>>,
    sealed: &str,
) -> Result<()> {
    let session = session.context("a message before a client was admitted")?;
    let sealed = hex::decode(rt.alloc(), sealed.as_bytes())?;
    print_text(rt, &server::open(rt.alloc(), session, &sealed))
}

fn answer_line(
    rt: &(impl Print + AllocGlobal),
    service: &mut Service,
    session: &mut Option<Box<Session>>,
    line: &str,
) -> Result<()> {
    match Line::parse(line) {
        Some(
            Line::Client {
                moment,
                random,
                token,
            },
        ) if moment <= MAX_MOMENT => {
            *session = admit(rt, service, token, &draw_of(moment, random)?)?;
            Ok(())
        }
        Some(Line::Message { sealed }) => open(rt, session.as_mut(), sealed),
        _ => Err(anyhow!("not a line of the acceptor: {line}")),
    }
}

fn answer_lines(
    rt: &(impl Print + AllocGlobal),
    service: &mut Service,
    lines: Lines,
) -> Result<()> {
    let mut session = None;
    for line in lines {
        answer_line(rt, service, &mut session, line)?;
    }
    Ok(())
}

fn main(rt: HostRuntime) -> Result<()> {
    let text = io::read_to_string(rt.alloc(), rt.stdin())?;
    let mut lines = text.lines();
    let mut service = service_of(rt.alloc(), lines.next())?;
    answer_lines(&rt, &mut service, lines)
}
