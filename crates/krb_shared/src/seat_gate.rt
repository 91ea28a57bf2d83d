//! A gate over a seat of a shared book.

ghost use Rattle.std.specs.Prelude.{◌≡◌, refl};
ghost use Rattle.std.proofs.Common.{ap, ◌∙◌};
ghost use Rattle.krb_shared.specs.Seats.{Seat, AddsReceipt, adds_after};

use crate::calls::Calls;
use crate::seat::Seat;
use crate::shared_book::SharedBook;
use krb_der::OutOfMemory;
use krb_replay::{Ask, ReplayGate, Verdict};
use std::sync::Wait;

/// A replay gate over a seat of a shared book. What it does is known by the receipts that its seat has gained.
#[derive(Drop)]
pub struct SeatGate<'a, L: Calls, R> {
    rt: &'a R,
    book: &'a SharedBook<L>,
    seat: &'a mut Seat<L>,
}

impl<'a, L: Calls, R: Wait> SeatGate<'a, L, R> {
    pub fn new(rt: &'a R, book: &'a SharedBook<L>, seat: &'a mut Seat<L>) -> SeatGate<'a, L, R>
        ensures reference { result.seat.ghost_name ≡ seat.entry.ghost_name }
        ensures seat { result.seat.now ≡ seat.old }
    {
        SeatGate { rt, book, seat }
    }

    /// Gives the seat back.
    pub fn into_seat(self) -> &'a mut Seat<L>
        ensures reference { result.ghost_name ≡ self.entry.seat.ghost_name }
        ensures seat { result.now ≡ self.entry.seat.now }
    {
        self.seat
    }
}

impl<'a, L: Calls, R: Wait> ReplayGate for SeatGate<'a, L, R> {
    ghost skew = { λ _. L.skew };

    ghost moment = { λ gate. gate.seat.now.moment };

    ghost admits = { λ old ask verdict new. AddsReceipt L.skew old.seat.now ask verdict new.seat.now × (new.seat.ghost_name ≡ old.seat.ghost_name) };

    ghost is_same = { λ old new. (new.seat.now ≡ old.seat.now) × (new.seat.ghost_name ≡ old.seat.ghost_name) };

    ghost same = { λ _. (refl, refl) };

    ghost same_moment = { λ _ _ same. ap (λ (s : Seat). s.moment) same.0 };

    ghost same_skew = { λ _ _ _. refl };

    ghost judges = { λ _ _ _ _ step. step.0.judged };

    ghost keeps_skew = { λ _ _ _ _ _. refl };

    ghost goes_on = { λ a b c ask verdict same step. (adds_after L.skew a.seat.now b.seat.now c.seat.now ask verdict same.0 step.0, step.1 ∙ same.1) };

    fn admit(&mut self, ask: Ask) -> Result<Verdict, OutOfMemory> {
        self.book.admit_given(self.rt, self.seat, ask)
    }

    fn last_moment(&self) -> u64 {
        self.seat.moment()
    }
}
