//! A gate with a pause before each call.

ghost use Rattle.std.specs.Prelude.{◌≡◌};

use crate::pause::Pause;
use krb_der::OutOfMemory;
use krb_replay::{Ask, ReplayGate, Verdict};

/// A replay gate that asks a pause once before each call of another gate, and returns that gate's verdict.
#[derive(Drop)]
pub struct PausedGate<'a, P, G> {
    pub(crate) pause: &'a mut P,
    pub(crate) gate: G,
}

impl<'a, P: Pause, G: ReplayGate> PausedGate<'a, P, G> {
    /// Returns a gate that asks the pause before each call of this gate.
    pub fn new(pause: &'a mut P, gate: G) -> PausedGate<'a, P, G>
        ensures { result.gate ≡ gate }
    {
        PausedGate { pause, gate }
    }
}

impl<'a, P: Pause, G: ReplayGate> ReplayGate for PausedGate<'a, P, G> {
    ghost skew = { λ paused. G.skew paused.gate };

    ghost moment = { λ paused. G.moment paused.gate };

    ghost admits = { λ old ask verdict new. G.admits old.gate ask verdict new.gate };

    ghost is_same = { λ old new. G.is_same old.gate new.gate };

    ghost same = { λ paused. G.same paused.gate };

    ghost same_moment = { λ a b same. G.same_moment a.gate b.gate same };

    ghost same_skew = { λ a b same. G.same_skew a.gate b.gate same };

    ghost judges = { λ old new ask verdict step. G.judges old.gate new.gate ask verdict step };

    ghost keeps_skew = { λ old new ask verdict step. G.keeps_skew old.gate new.gate ask verdict step };

    ghost goes_on = { λ a b c ask verdict same step. G.goes_on a.gate b.gate c.gate ask verdict same step };

    fn admit(&mut self, ask: Ask) -> Result<Verdict, OutOfMemory> {
        self.pause.before();
        self.gate.admit(ask)
    }

    fn last_moment(&self) -> u64 {
        self.gate.last_moment()
    }
}
