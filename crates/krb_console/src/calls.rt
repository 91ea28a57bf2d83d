//! Calls of std's readers and writers that are tried again if they were interrupted or would block.

ghost use Rattle.std.specs.Prelude.{◌≡◌, ◌<◌, IfOk, IfErr, false, length};
ghost use Rattle.std.specs.Io.{ReadsAtMost, WritesAtMost};
ghost use Rattle.std.specs.Io.KnownBytes.{ReadConsumes, WriteAppends};
ghost use Rattle.std.specs.IoError.{error_kind};
ghost use Rattle.krb_console.specs.Streams.{passes, lines_in};

use memchr::memchr_iter;
use std::io::{Error, ErrorKind, Read, Result, Write};
use std::time::{Clock, Duration};

/// The time between two tries, in milliseconds.
const PAUSE: u64 = 5;

/// Returns whether an error is no fault: a signal came (`EINTR`), or there is nothing yet and no room yet (`EAGAIN`).
fn passes(error: &Error) -> bool
    ensures { result ≡ passes (error_kind error.now) }
{
    matches!(error.kind(), ErrorKind::Interrupted | ErrorKind::WouldBlock)
}

/// Returns how many line ends (0A) the octets have.
pub fn lines_in(octets: &[u8]) -> usize
    ensures { result ≡ lines_in octets.now }
{
    memchr_iter(b'\n', octets).count()
}

/// Reads once, and tries again until the read returns bytes, the end, or a fault.
pub fn read_patiently<R: Read, C: Clock>(
    reader: &mut R,
    clock: &C,
    into: &mut [u8],
) -> Result<usize>
    ensures bound { ReadsAtMost result into.new }
    ensures bytes { ReadConsumes (R.remaining reader.old) (R.remaining reader.new) result into.new }
    ensures fault { IfErr result (λ error. passes (error_kind error) ≡ false) }
{
    'tries: for _ in 0..u64::MAX {
        match reader.read(into) {
            Ok(count) => return Ok(count),
            Err(error) if passes(&error) => clock.sleep(Duration::from_millis(PAUSE)),
            Err(error) => return Err(error),
        }
    }
    Err(Error::from(ErrorKind::TimedOut))
}

/// Writes once, and tries again until the write takes bytes or fails. A write that takes nothing of a piece is a fault.
pub fn write_patiently<W: Write, C: Clock>(writer: &mut W, clock: &C, piece: &[u8]) -> Result<usize>
    ensures bound { WritesAtMost result piece.now }
    ensures moves { IfOk result (λ count. 0 < length piece.now → 0 < count) }
    ensures bytes { WriteAppends (W.contents writer.old) (W.contents writer.new) result piece.now }
    ensures fault { IfErr result (λ error. passes (error_kind error) ≡ false) }
{
    'tries: for _ in 0..u64::MAX {
        match writer.write(piece) {
            Ok(0) if !piece.is_empty() => return Err(Error::from(ErrorKind::WriteZero)),
            Ok(count) => return Ok(count),
            Err(error) if passes(&error) => clock.sleep(Duration::from_millis(PAUSE)),
            Err(error) => return Err(error),
        }
    }
    Err(Error::from(ErrorKind::TimedOut))
}
