//! A taker of lines.

ghost use Rattle.std.specs.Prelude.{◌≡◌, ◌<◌, ◌≤◌, ◌+◌, ◌^◌, MatchResult, OnOk, OnErr, string_bytes};
ghost use Rattle.krb_lines.specs.Rules.{Rules, AreCountsOf};

use arrayvec::ArrayString;
use std::alloc::Global;

/// Room for a last line, in bytes.
pub const ROOM: usize = 128;

/// Why a line was not taken.
#[derive(Clone, Copy, Debug, PartialEq, Eq)]
pub enum LineError {
    /// The line is outside the table, or does not meet its conditions.
    Bad,
    /// Memory ran out.
    OutOfMemory,
}

/// Takes an input line by line.
pub trait LineTaker {
    /// The rules: the text that is written for a line, the lines that are bad, the counts, and the last line.
    ghost rules: { Rules Self };

    /// A condition that holds between two lines.
    ghost is_ready: { Self → Type 0 };

    /// Takes one more line, and returns the text that is written for it. After an error the counts are unchanged.
    fn take_line(&mut self, alloc: Global, line: &[u8]) -> Result<String, LineError>
        requires few { rules.lines self.old < 2 ^ 32 }
        requires ready { is_ready self.old }
        ensures turn { MatchResult result
            (λ text. rules.takes self.old line.now (string_bytes text) self.new)
            (λ e. e ≡ LineError.Bad → rules.refuses self.old line.now) }
        ensures err { OnErr result (AreCountsOf rules self.old self.new) }
        ensures lines { rules.lines self.new ≤ rules.lines self.old + 1 }
        ensures again { OnOk result (is_ready self.new) };

    /// Returns how many lines were taken.
    fn lines(&self) -> u64
        ensures { result ≡ rules.lines self.now };

    /// Returns how many replies were written.
    fn answered(&self) -> u64
        ensures { result ≡ rules.answered self.now };

    /// Returns whether the input may end here.
    fn can_end(&self) -> bool
        ensures { result ≡ rules.can_end self.now };

    /// Returns the last line if the input ends here.
    fn end_line(&self) -> ArrayString<ROOM>
        ensures { result.bytes ≡ rules.end_line self.now };
}
