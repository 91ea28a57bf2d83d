//! Why the program ends without its output: the message, and the exit status.

ghost use Rattle.std.specs.Prelude.{◌≡◌, ◌++◌, IfOk, OnOk};
ghost use Rattle.std.specs.Fmt.{decimal};
ghost use Rattle.krb_keys.specs.declared.failure.Failure.TheVariants as failures;
ghost use Rattle.krb_keys.specs.Failures.{reason, detail, failure_line, failure_status, failure_of};

use crate::names::push_part;
use krb_der::{Name, OutOfMemory};
use krb_keytab::KeytabError;
use std::alloc::{AllocError, Global};

/// Why the program ends without its output.
#[derive(Clone, Copy)]
pub enum Failure<'a> {
    /// The words of the command line are no command.
    Words,
    /// The input does not begin with the version of a keytab.
    NoVersion,
    /// No item of a keytab is at this place of the input, in bytes.
    NoItem { place: usize },
    /// No entry is of this realm.
    NoEntry { realm: &'a Name },
    /// No service of this realm has a key that an acceptor can use.
    NoKey { realm: &'a Name },
    /// A read of standard input failed.
    Read,
    /// A write to standard output failed.
    Write,
    /// Memory ran out.
    OutOfMemory,
    /// The input is longer than is allowed.
    TooLong,
}

impl From<KeytabError> for Failure<'_> {
    ghost from_gives = { λ error failure. failure ≡ failure_of error };

    fn from(error: KeytabError) -> Self {
        match error {
            KeytabError::Version => Failure::NoVersion,
            KeytabError::Entry { place } => Failure::NoItem { place },
            KeytabError::OutOfMemory => Failure::OutOfMemory,
        }
    }
}

impl From<OutOfMemory> for Failure<'_> {
    ghost from_gives = { λ _ failure. failure ≡ failures.OutOfMemory };

    fn from(_error: OutOfMemory) -> Self {
        Failure::OutOfMemory
    }
}

impl From<AllocError> for Failure<'_> {
    ghost from_gives = { λ _ failure. failure ≡ failures.OutOfMemory };

    fn from(_error: AllocError) -> Self {
        Failure::OutOfMemory
    }
}

impl Failure<'_> {
    /// Returns the exit status of the process.
    pub fn status(self) -> u8
        ensures { result ≡ failure_status self.entry }
    {
        match self {
            Failure::NoEntry { .. } => 1,
            Failure::NoKey { .. } => 1,
            Failure::Words => 2,
            Failure::NoVersion => 3,
            Failure::NoItem { .. } => 3,
            Failure::Read => 4,
            Failure::Write => 5,
            Failure::OutOfMemory => 6,
            Failure::TooLong => 7,
        }
    }
}

fn reason(failure: Failure<'_>) -> &'static str
    ensures { result.now ≡ reason failure.entry }
{
    match failure {
        Failure::Words => {
            "these words are not a command: the commands are list, lines <realm> <acceptor>, --version (-V) and --help (-h)"
        }
        Failure::NoVersion => "not a keytab: the octets 05 02 are not at octet 0",
        Failure::NoItem { .. } => {
            "not a keytab: neither an entry nor a hole nor the end is at octet "
        }
        Failure::NoEntry { .. } => "nothing found: no entry of the keytab is of the realm ",
        Failure::NoKey { .. } => {
            "nothing found: no key of type 18 with 32 octets or of type 17 with 16 octets is of the realm "
        }
        Failure::Read => "standard input could not be read",
        Failure::Write => "standard output could not be written",
        Failure::OutOfMemory => "memory ran out",
        Failure::TooLong => "the input has more than 1073741824 octets",
    }
}

fn push_place(alloc: Global, line: &mut Vec<u8>, place: usize) -> Result<(), OutOfMemory>
    ensures { OnOk result (line.new.items ≡ line.old.items ++ decimal place) }
{
    let digits = format!(in alloc; "{place}")?;
    line.extend_from_slice(digits.as_bytes())?;
    Ok(())
}

fn push_detail(alloc: Global, line: &mut Vec<u8>, failure: Failure<'_>) -> Result<(), OutOfMemory>
    ensures { OnOk result (line.new.items ≡ line.old.items ++ detail failure.entry) }
{
    match failure {
        Failure::NoItem { place } => push_place(alloc, line, place),
        Failure::NoEntry { realm } => push_part(alloc, line, realm.as_slice()),
        Failure::NoKey { realm } => push_part(alloc, line, realm.as_slice()),
        _ => Ok(()),
    }
}

/// Returns one line that names the failure.
pub fn failure_line(alloc: Global, failure: Failure<'_>) -> Result<Vec<u8>, OutOfMemory>
    ensures { IfOk result (λ line. line.items ≡ failure_line failure.entry) }
{
    let mut line = Vec::from_slice(alloc, b"krb_keys: ")?;
    line.extend_from_slice(reason(failure).as_bytes())?;
    push_detail(alloc, &mut line, failure)?;
    line.push(b'\n')?;
    Ok(line)
}
