//! A KDC for tests over standard input and output.
#![tactic(auto)]

mod command;
mod fields;
mod help;
mod item;
mod realm;
mod reply;
mod salt;
mod session;
mod version;

use command::answer;
use help::HELP;
use krb_text::{Status, StdSink, StdSource, Words};
use std::env;
use std::io::ErrorKind;
use std::process::ExitCode;
use version::VERSION;

/// The words of the command line, or the status of one that cannot be read: words that are not UTF-8 are no command.
fn words(rt: &HostRuntime) -> Result<Words, Status> {
    let args = match env::args(rt) {
        Ok(args) => args,
        Err(error) if error.kind() == ErrorKind::OutOfMemory => return Err(Status::OutOfMemory),
        Err(_) => return Err(Status::BadWords),
    };
    match args.skip(1).collect(rt.alloc()) {
        Ok(words) => Ok(Words::new(words)),
        Err(_) => Err(Status::OutOfMemory),
    }
}

fn print(rt: &HostRuntime, text: &str) -> Status {
    match rt.print(text) {
        Ok(()) => Status::Done,
        Err(_) => Status::WriteFault,
    }
}

fn print_version(rt: &HostRuntime) -> Status {
    match println!(rt; "krb_realm {VERSION}") {
        Ok(()) => Status::Done,
        Err(_) => Status::WriteFault,
    }
}

fn run(rt: &HostRuntime, words: &Words) -> Status {
    if words.are("--help") {
        return print(rt, HELP);
    }
    if words.are("--version") {
        return print_version(rt);
    }
    answer(
        rt.alloc(),
        words,
        &mut StdSource::new(rt.stdin()),
        &mut StdSink::new(rt.stdout()),
    )
}

fn main(rt: HostRuntime) -> ExitCode {
    let status = match words(&rt) {
        Ok(words) => run(&rt, &words),
        Err(status) => status,
    };
    ExitCode::from(status.number())
}
