//! The last line, which needs no memory.

ghost use Rattle.std.specs.Prelude.{◌≡◌, ◌≢◌, ◌≤◌, ◌++◌, ◌<◌, ◌^◌, length, codes, decimal};
ghost use Rattle.krb_lines.specs.Halts.{closing, status_at};

use crate::halt::Halt;
use crate::taker::{LineTaker, ROOM};
use arrayvec::ArrayString;
use itoa::Buffer;
use krb_text::Status;

/// Returns a line of a word of at most 16 bytes, which ends with its own space, a number and 0A: `bad line 3`, `long line 3` or
/// `stopped 3`.
pub fn numbered_line(word: &str, number: u64) -> ArrayString<ROOM>
    requires { length word.now ≤ 16 }
    ensures { result.bytes ≡ word.now ++ decimal number ++ codes "\n" }
{
    let mut buffer = Buffer::new();
    let mut line = ArrayString::new();
    line.push_str(word);
    line.push_str(buffer.format(number));
    line.push_str("\n");
    line
}

/// Returns the last line of a taker that halts.
pub(crate) fn closing<T: LineTaker>(taker: &T, halt: Halt) -> ArrayString<ROOM>
    requires { T.rules.lines taker.now < 2 ^ 32 }
    ensures { result.bytes ≡ closing T.rules taker.now halt }
{
    match halt {
        Halt::End if taker.can_end() => taker.end_line(),
        Halt::End | Halt::BadLine => numbered_line("bad line ", taker.lines() + 1),
        Halt::LongLine => numbered_line("long line ", taker.lines() + 1),
        Halt::OutOfMemory => numbered_line("stopped ", taker.answered()),
        Halt::ReadFault | Halt::WriteFault => ArrayString::new(),
    }
}

/// Returns the status of a taker that halts.
pub(crate) fn status_at<T: LineTaker>(taker: &T, halt: Halt) -> Status
    ensures status { result ≡ status_at T.rules taker.now halt }
    ensures words { result ≢ Status.BadWords }
    ensures read { result ≡ Status.ReadFault → halt ≡ Halt.ReadFault }
    ensures write { result ≡ Status.WriteFault → halt ≡ Halt.WriteFault }
{
    match halt {
        Halt::End if taker.can_end() => Status::Done,
        Halt::End | Halt::BadLine => Status::BadLine,
        Halt::LongLine => Status::TooLong,
        Halt::ReadFault => Status::ReadFault,
        Halt::WriteFault => Status::WriteFault,
        Halt::OutOfMemory => Status::OutOfMemory,
    }
}
