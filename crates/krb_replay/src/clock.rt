//! Refusal of an ask by the clock alone.

ghost use Rattle.std.specs.Prelude.{◌≡◌, pos, ◌<ℤ◌, ◌^◌};
ghost use Rattle.krb_replay.specs.Clock.{clock_refusal, is_current, is_later};

use crate::ask::{Ask, Verdict};
use crate::record::Record;

/// Returns whether `a` is later than `b` by more than the skew. The times are in microseconds, and the skew in seconds.
pub fn is_later(a: i128, b: i128, skew: u32) -> bool
    requires { b <ℤ pos (2 ^ 100) }
    ensures { result ≡ is_later a b skew }
{
    a > b + i128::from(skew) * 1_000_000
}

/// The refusal by the clock alone, at this moment.
pub fn clock_refusal(skew: u32, moment: u64, ask: &Ask) -> Option<Verdict>
    ensures { result ≡ clock_refusal skew moment ask.now }
{
    let now = i128::from(moment);
    let ctime = ask.entry.ctime.microseconds();
    if is_later(ctime, now, skew) || is_later(now, ctime, skew) {
        Some(Verdict::Skew)
    } else if is_later(ask.start.microseconds(), now, skew) {
        Some(Verdict::NotYet)
    } else if is_later(now, ask.end.microseconds(), skew) {
        Some(Verdict::Expired)
    } else {
        None
    }
}

/// Returns whether the record's time is at least the moment less the skew, so that a later ask can still repeat it.
pub fn is_current(skew: u32, moment: u64, entry: &Record) -> bool
    ensures { result ≡ is_current skew moment entry.now }
{
    !is_later(i128::from(moment), entry.ctime.microseconds(), skew)
}
