//! Gates decide which authenticators are admitted.

ghost use Rattle.std.specs.Prelude.{◌≡◌, ℕ, IfOk, OnErr};
ghost use Rattle.krb_replay.specs.declared.ask.Ask.{Ask};
ghost use Rattle.krb_replay.specs.declared.ask.Verdict.{Verdict};
ghost use Rattle.krb_replay.specs.Gate.{IsJudged};

use crate::ask::{Ask, Verdict};
use krb_der::OutOfMemory;

/// A gate that admits each authenticator once (RFC 4120 3.2.3). Its ghost members describe it to code that works
/// with any gate.
pub trait ReplayGate {
    /// The clock skew that is tolerated, in seconds. No call changes it.
    ghost skew: { Self → ℕ };

    /// The moment that the last call judged by, in microseconds since 1970-01-01T00:00:00Z.
    ghost moment: { Self → ℕ };

    /// The steps that one call may make: the gate before it, the ask, the verdict, and the gate after it.
    ghost admits: { Self → Ask → Verdict → Self → Type 0 };

    /// No caller can distinguish the second gate from the first: so it is after a call that ran out of memory.
    ghost is_same: { Self → Self → Type 0 };

    /// Judges the ask, and remembers its record where it is admitted. Out of memory, the gate is as before.
    fn admit(&mut self, ask: Ask) -> Result<Verdict, OutOfMemory>
        ensures step { IfOk result (λ verdict. admits self.old ask verdict self.new) }
        // For any gate: the clock's refusal at its moment, otherwise Admitted or Replayed.
        ensures judged { IfOk result (λ verdict. IsJudged (skew self.old) (moment self.new) ask verdict) }
        ensures skew { skew self.new ≡ skew self.old }
        ensures err { OnErr result (is_same self.old self.new) };

    /// The moment that the last call judged by, and 0 before the first.
    fn last_moment(&self) -> u64
        ensures { result ≡ moment self.now };

    ghost same: { (a : Self) → is_same a a };

    /// If no caller can distinguish two gates, both judged their last call by the same moment.
    ghost same_moment: { (a b : Self) → is_same a b → moment b ≡ moment a };

    /// And it tolerates the same skew.
    ghost same_skew: { (a b : Self) → is_same a b → skew b ≡ skew a };

    /// Each possible verdict is the clock's refusal at the gate's moment, otherwise Admitted or Replayed.
    ghost judges: { (old new : Self) (ask : Ask) (verdict : Verdict) → admits old ask verdict new → IsJudged (skew old) (moment new) ask verdict };

    /// No call changes the skew.
    ghost keeps_skew: { (old new : Self) (ask : Ask) (verdict : Verdict) → admits old ask verdict new → skew new ≡ skew old };

    /// A call after one that ran out of memory does what it would have done without that one.
    ghost goes_on: { (a b c : Self) (ask : Ask) (verdict : Verdict) → is_same a b → admits b ask verdict c → admits a ask verdict c };
}
