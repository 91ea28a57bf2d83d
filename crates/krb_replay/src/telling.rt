//! A gate for a store that several machines share.

ghost use Rattle.std.specs.Prelude.{◌≡◌, IfOk, IsOk, OnErr};
ghost use Rattle.krb_replay.specs.Clock.{judged};
ghost use Rattle.krb_replay.specs.Gate.{IsJudged};
ghost use Rattle.krb_replay.specs.Telling.{AdmitsAsTold, is_seen, IsSameTelling, IsSameTelling-same, telling_goes_on, telling_judges};
ghost use Rattle.krb_replay.specs.Verdicts.{is_admitted};

use crate::ask::{Ask, Verdict};
use crate::clock::clock_refusal;
use crate::gate::ReplayGate;
use krb_der::OutOfMemory;

/// A gate that gets the answer of an external store, for machines that share one store. The store is asked first, about
/// the record of one ask, and keeps it from then on: in one step, so that of several askers only one gets the answer that it was new.
/// Then this gate is asked the same. It admits that ask, once, if the store did not have its record and the clock refuses
/// nothing. It never admits another ask: another ask is Replayed if the clock does not refuse it.
///
/// The store may drop a record once its own time is later than the record's by more than the skew. `moment` is the store's
/// own time when it answered: so what it has dropped is refused by the clock.
#[derive(Drop)]
pub struct TellingGate {
    /// The clock skew that is tolerated, in seconds.
    pub skew: u32,
    /// The least moment to judge by, in microseconds since 1970-01-01T00:00:00Z: the store's own, and after a call the one
    /// that was judged by.
    pub moment: u64,
    /// The ask that the store was asked about.
    pub told: Ask,
    /// True if the store had the record of the ask, or this gate admitted the ask.
    pub seen: bool,
}

impl TellingGate {
    /// Returns whether the ask must not be admitted.
    fn is_seen(&self, ask: &Ask) -> bool
        ensures { result ≡ is_seen self.now ask.now }
    {
        self.seen || self.told != *ask
    }
}

/// The verdict at this moment.
fn judged(skew: u32, moment: u64, seen: bool, ask: &Ask) -> Verdict
    ensures { result ≡ judged skew moment seen ask.now }
{
    match clock_refusal(skew, moment, ask) {
        Some(refusal) => refusal,
        None if seen => Verdict::Replayed,
        None => Verdict::Admitted,
    }
}

fn is_admitted(verdict: Verdict) -> bool
    ensures { result ≡ is_admitted verdict }
{
    verdict == Verdict::Admitted
}

impl ReplayGate for TellingGate {
    ghost skew = { λ gate. gate.skew };

    ghost moment = { λ gate. gate.moment };

    ghost admits = { AdmitsAsTold };

    ghost is_same = { IsSameTelling };

    ghost same = { IsSameTelling-same };

    ghost same_moment = { λ a b same. same.moment };

    ghost same_skew = { λ a b same. same.skew };

    ghost judges = { telling_judges };

    ghost keeps_skew = { λ old new ask verdict step. step.skew };

    ghost goes_on = { telling_goes_on };

    fn admit(&mut self, ask: Ask) -> Result<Verdict, OutOfMemory>
        ensures step { IfOk result (λ verdict. AdmitsAsTold self.old ask verdict self.new) }
        ensures judged { IfOk result (λ verdict. IsJudged self.old.skew self.new.moment ask verdict) }
        ensures skew { self.new.skew ≡ self.old.skew }
        ensures err { OnErr result (IsSameTelling self.old self.new) }
        // The call allocates no memory: no record that the store has kept is lost by a call that fails.
        ensures no_memory { IsOk result }
    {
        let moment = self.moment.max(ask.moment);
        let seen = self.is_seen(&ask);
        let verdict = judged(self.skew, moment, seen, &ask);
        self.moment = moment;
        self.seen = self.seen || is_admitted(verdict);
        Ok(verdict)
    }

    fn last_moment(&self) -> u64 {
        self.moment
    }
}
