//! Shows the keytab on standard input.
#![tactic(auto)]

mod commands;
mod failure;
mod help;
mod key_lines;
mod listing;
mod names;
mod version;

use commands::{Command, read_command};
use failure::{Failure, failure_line};
use help::HELP;
use key_lines::key_lines_text;
use krb_der::Name;
use krb_keytab::Keytab;
use listing::list_text;
use std::alloc::Global;
use std::env;
use std::io::{ErrorKind, Read, Write};
use std::process::ExitCode;
use version::VERSION;

/// The number of bytes that a keytab may have.
const MAX_INPUT: u64 = 1 << 30;

/// Returns the words of the command line. Words that are not UTF-8 are no command.
fn words(rt: &HostRuntime) -> Result<Vec<String>, Failure<'static>> {
    let args = match env::args(rt) {
        Ok(args) => args,
        Err(error) if error.kind() == ErrorKind::OutOfMemory => return Err(Failure::OutOfMemory),
        Err(_) => return Err(Failure::Words),
    };
    match args.skip(1).collect(rt.alloc()) {
        Ok(words) => Ok(words),
        Err(_) => Err(Failure::OutOfMemory),
    }
}

fn print(rt: &HostRuntime, text: &[u8]) -> Result<(), Failure<'static>> {
    match rt.stdout().write_all(text) {
        Ok(()) => Ok(()),
        Err(_) => Err(Failure::Write),
    }
}

fn print_version(rt: &HostRuntime) -> Result<(), Failure<'static>> {
    match println!(rt; "krb_keys {VERSION}") {
        Ok(()) => Ok(()),
        Err(_) => Err(Failure::Write),
    }
}

/// Returns all bytes of standard input.
fn input(rt: &HostRuntime) -> Result<Vec<u8>, Failure<'static>> {
    let mut octets = Vec::new(rt.alloc());
    match rt.stdin().take(MAX_INPUT + 1).read_to_end(&mut octets) {
        Ok(_) if octets.len() as u64 > MAX_INPUT => Err(Failure::TooLong),
        Ok(_) => Ok(octets),
        Err(error) if error.kind() == ErrorKind::OutOfMemory => Err(Failure::OutOfMemory),
        Err(_) => Err(Failure::Read),
    }
}

fn keytab(rt: &HostRuntime) -> Result<Keytab, Failure<'static>> {
    let octets = input(rt)?;
    Ok(Keytab::read(rt.alloc(), &octets)?)
}

fn print_list(rt: &HostRuntime) -> Result<(), Failure<'static>> {
    let keytab = keytab(rt)?;
    let text = list_text(rt.alloc(), &keytab)?;
    print(rt, &text)
}

/// Returns the realm of the command line. A realm that is not ASCII is no realm of a keytab.
fn realm_named(alloc: Global, word: &str) -> Result<Name, Failure<'static>> {
    let octets = Vec::from_slice(alloc, word.as_bytes())?;
    match Name::new(octets) {
        Some(realm) => Ok(realm),
        None => Err(Failure::Words),
    }
}

fn print_key_lines<'a>(
    rt: &HostRuntime,
    realm: &'a Name,
    acceptor: u32,
) -> Result<(), Failure<'a>> {
    let keytab = keytab(rt)?;
    let text = key_lines_text(rt.alloc(), &keytab, realm, acceptor)?;
    print(rt, &text)
}

/// Writes a line to standard error. If that fails, the exit status alone reports the failure.
fn say(rt: &HostRuntime, line: &[u8]) {
    let _ = rt.stderr().write_all(line);
}

/// Writes why the program ends, and returns the exit status.
fn complain(rt: &HostRuntime, failure: Failure<'_>) -> u8 {
    match failure_line(rt.alloc(), failure) {
        Ok(line) => say(rt, &line),
        Err(_) => say(rt, b"krb_keys: memory ran out\n"),
    }
    failure.status()
}

fn ended(rt: &HostRuntime, answered: Result<(), Failure<'_>>) -> u8 {
    match answered {
        Ok(()) => 0,
        Err(failure) => complain(rt, failure),
    }
}

fn run_key_lines(rt: &HostRuntime, realm: &str, acceptor: u32) -> u8 {
    match realm_named(rt.alloc(), realm) {
        Ok(realm) => ended(rt, print_key_lines(rt, &realm, acceptor)),
        Err(failure) => complain(rt, failure),
    }
}

fn run(rt: &HostRuntime, words: &[String]) -> u8 {
    match read_command(words) {
        Some(Command::Help) => ended(rt, print(rt, HELP.as_bytes())),
        Some(Command::Version) => ended(rt, print_version(rt)),
        Some(Command::Listing) => ended(rt, print_list(rt)),
        Some(Command::KeyLines { realm, acceptor }) => run_key_lines(rt, realm, acceptor),
        None => complain(rt, Failure::Words),
    }
}

fn main(rt: HostRuntime) -> ExitCode {
    let status = match words(&rt) {
        Ok(words) => run(&rt, &words),
        Err(failure) => complain(&rt, failure),
    };
    ExitCode::from(status)
}
