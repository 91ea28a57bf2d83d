//! A gate over a desk.

ghost use Rattle.std.specs.Prelude.{◌≡◌, refl, ◌≤◌, length};
ghost use Rattle.std.proofs.Common.{ap, ◌∙◌};
ghost use Rattle.krb_shared.specs.Desk.{Desk, history, gate_of, AdmitsNext, same_goes_on};

use crate::desk::Desk;
use krb_der::OutOfMemory;
use krb_replay::{Ask, ReplayGate, Verdict};

/// A replay gate over a desk, on one thread. Its k-th answered call is entered as call k of its seat.
#[derive(Drop)]
pub struct DeskGate<'a> {
    desk: &'a mut Desk,
    seat: u32,
    /// How many entries the journal had when the gate was made: the later entries are the gate's.
    before: u64,
    ghost some_before: { before ≤ length desk.now.journal },
}

impl<'a> DeskGate<'a> {
    /// A gate over this desk, whose calls are the seat's.
    pub fn new(desk: &'a mut Desk, seat: u32) -> DeskGate<'a>
        ensures desk { result.desk ≡ desk.entry }
        ensures seat { result.seat ≡ seat }
        ensures before { result.before ≡ length desk.old.journal }
    {
        let before = desk.entries().len() as u64;
        DeskGate { desk, seat, before }
    }

    /// Gives the desk back.
    pub fn into_desk(self) -> &'a mut Desk
        ensures reference { result.ghost_name ≡ self.entry.desk.ghost_name }
        ensures desk { result.now ≡ self.entry.desk.now }
    {
        self.desk
    }
}

impl<'a> ReplayGate for DeskGate<'a> {
    ghost skew = { λ gate. gate.desk.now.skew };

    ghost moment = { λ gate. (history gate.desk.now).moment };

    ghost admits = { λ old ask verdict new.
        AdmitsNext (gate_of old.desk.now old.seat old.before) ask verdict (gate_of new.desk.now new.seat new.before)
        × (new.desk.ghost_name ≡ old.desk.ghost_name) };

    ghost is_same = { λ old new. (new.desk.now ≡ old.desk.now) × (new.seat ≡ old.seat) × (new.before ≡ old.before) × (new.desk.ghost_name ≡ old.desk.ghost_name) };

    ghost same = { λ _. (refl, refl, refl, refl) };

    ghost same_moment = { λ _ _ same. ap (λ (d : Desk). (history d).moment) same.0 };

    ghost same_skew = { λ _ _ same. ap (λ (d : Desk). d.skew) same.0 };

    ghost judges = { λ _ _ _ _ step. step.0.judged };

    ghost keeps_skew = { λ _ _ _ _ step. step.0.step.skew };

    ghost goes_on = { λ a b c ask verdict same step. (
      same_goes_on a.desk.now a.seat a.before b.desk.now b.seat b.before ask verdict (gate_of c.desk.now c.seat c.before)
          (same.0, same.1, same.2) step.0,
      step.1 ∙ same.3,
    ) };

    fn admit(&mut self, ask: Ask) -> Result<Verdict, OutOfMemory> {
        let call = self.desk.entries().len() as u64 - self.before + 1;
        let (verdict, _place) = self.desk.admit_as(self.seat, call, &ask)?;
        Ok(verdict)
    }

    fn last_moment(&self) -> u64 {
        self.desk.moment()
    }
}
