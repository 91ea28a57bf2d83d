//! The last line of a whole input, which needs no memory.
ghost use Rattle.std.specs.Prelude.{◌≡◌};
ghost use Rattle.krb_machine.specs.Text.{end_line};

use arrayvec::ArrayString;
use itoa::Buffer;
use krb_lines::ROOM;

/// Returns the line `end <admitted> <kept>`.
pub fn end_line(admitted: u64, kept: u64) -> ArrayString<ROOM>
    ensures { result.bytes ≡ end_line admitted kept }
{
    let mut buffer = Buffer::new();
    let mut line = ArrayString::new();
    line.push_str("end ");
    line.push_str(buffer.format(admitted));
    line.push_str(" ");
    line.push_str(buffer.format(kept));
    line.push_str("\n");
    line
}
