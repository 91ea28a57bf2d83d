//! The report on standard error of how a run ended.

ghost use Rattle.std.specs.Prelude.{◌≡◌, IfOk, string_bytes};
ghost use Rattle.krb_console.specs.Reports.{report_of};

use krb_text::Status;
use std::alloc::{AllocError, Global};
use std::io::Error;

/// The report if memory ran out.
pub const NO_MEMORY: &str = "krb_run: memory ran out\n";

/// Returns the system's text for an error; an empty text if there is none.
pub fn cause_of(alloc: Global, error: Option<Error>) -> Result<String, AllocError> {
    match error {
        Some(error) => format!(in alloc; "{error}"),
        None => Ok(String::new(alloc)),
    }
}

/// Returns one line with the reason why a run did not answer its whole input, and no text if it did. `read` and `written` are the
/// numbers of lines that were read and written whole, and `cause` is the system's text for a read or a write that failed.
pub fn report(
    alloc: Global,
    status: Status,
    read: u64,
    written: u64,
    cause: &str,
) -> Result<String, AllocError>
    ensures { IfOk result (λ text. string_bytes text ≡ report_of status read written cause.now) }
{
    match status {
        Status::Done => Ok(String::new(alloc)),
        Status::BadWords => String::from_str(
            alloc,
            "krb_run: these words are not a command: the commands are serve, threads, demo <n>, --help and --version\n",
        ),
        Status::BadLine => String::from_str(
            alloc,
            "krb_run: a bad line: it is not in the table of lines that --help prints, or not where it may be\n",
        ),
        Status::ReadFault => {
            format!(in alloc;
                "krb_run: a read of standard input failed after {read} whole lines: {cause}\n"
            )
        }
        Status::WriteFault => {
            format!(in alloc;
                "krb_run: a write to standard output failed after {written} whole lines: {cause}\n"
            )
        }
        Status::OutOfMemory => String::from_str(alloc, NO_MEMORY),
        Status::TooLong => String::from_str(
            alloc,
            "krb_run: a long line: a line may have 1048576 octets, and an input 1073741824\n",
        ),
    }
}
