//! Two workers at two seats of one book, in two threads.

ghost use Rattle.std.specs.Prelude.{◌≡◌, [], IfOk, OnOk, IsSomeAnd, slice_get};
ghost use Rattle.krb_threads.specs.Worked.{WorksAt};

use crate::both::run_two;
use crate::part::Part;
use crate::pause::Pause;
use crate::paused_gate::PausedGate;
use crate::work::{Done, Work, begun, ended};
use krb_der::{OutOfMemory, boxed};
use krb_machine::Stopped;
use krb_shared::{Calls, Seat, SeatGate, SharedBook};
use std::alloc::Global;
use std::sync::Wait;
use std::thread::Threads;

/// Runs both parts, each with its pause and at its seat.
fn run_gates<
    'a,
    'b,
    L: Calls + Send + Sync,
    R: Threads + Wait + Sync,
    P: Pause + Send,
    Q: Pause + Send,
>(
    rt: &R,
    alloc: Global,
    first: &mut Part<PausedGate<'a, P, SeatGate<'a, L, R>>>,
    second: &mut Part<PausedGate<'b, Q, SeatGate<'b, L, R>>>,
) -> [Result<(), Stopped>; 2]
    requires first_new { first.old.replies.items ≡ [] }
    requires second_new { second.old.replies.items ≡ [] }
    ensures first_reference { first.new.service.gate.gate.seat.ghost_name ≡ first.old.service.gate.gate.seat.ghost_name }
    ensures second_reference { second.new.service.gate.gate.seat.ghost_name ≡ second.old.service.gate.gate.seat.ghost_name }
    ensures first { IsSomeAnd (slice_get result 0) (λ ended. OnOk ended (WorksAt first.old.service.gate.gate.seat.now
        first.old.service.env first.old.service.connections first.old.events.items first.new.replies.items first.new.service.gate.gate.seat.now)) }
    ensures second { IsSomeAnd (slice_get result 1) (λ ended. OnOk ended (WorksAt second.old.service.gate.gate.seat.now
        second.old.service.env second.old.service.connections second.old.events.items second.new.replies.items second.new.service.gate.gate.seat.now)) }
    ensures first_events { first.new.events ≡ first.old.events }
    ensures second_events { second.new.events ≡ second.old.events }
{
    run_two(rt, alloc, first, second)
}

/// Puts the results of both workers on the heap.
fn both_boxed(alloc: Global, low: Done, high: Done) -> Result<(Box<Done>, Box<Done>), OutOfMemory>
    ensures first { IfOk result (λ both. both.0.value ≡ low) }
    ensures second { IfOk result (λ both. both.1.value ≡ high) }
{
    let low = boxed(alloc, low)?;
    Ok((low, boxed(alloc, high)?))
}

/// Runs both workers, each at its seat of the book and with its pause.
pub fn run_seats<
    'a,
    'b,
    L: Calls + Send + Sync,
    R: Threads + Wait + Sync,
    P: Pause + Send,
    Q: Pause + Send,
>(
    low_rt: &'a R,
    high_rt: &'b R,
    alloc: Global,
    low_book: &'a SharedBook<L>,
    high_book: &'b SharedBook<L>,
    low: &'a mut Seat<L>,
    high: &'b mut Seat<L>,
    first: &'a mut P,
    second: &'b mut Q,
    one: Work,
    two: Work,
) -> Result<(Box<Done>, Box<Done>), OutOfMemory>
    ensures first { IfOk result (λ done.
        WorksAt low.old one.ends.value.env one.ends.value.connections.entries one.events.items done.0.value.replies.items low.new) }
    ensures second { IfOk result (λ done.
        WorksAt high.old two.ends.value.env two.ends.value.connections.entries two.events.items done.1.value.replies.items high.new) }
    ensures first_events { IfOk result (λ done. done.0.value.events ≡ one.events) }
    ensures second_events { IfOk result (λ done. done.1.value.events ≡ two.events) }
{
    let mut low_part = begun(alloc, one, first, SeatGate::new(low_rt, low_book, low));
    let mut high_part = begun(alloc, two, second, SeatGate::new(high_rt, high_book, high));
    let runs = run_gates(low_rt, alloc, &mut low_part, &mut high_part);
    let (low_gate, low_done) = ended(low_part);
    let (high_gate, high_done) = ended(high_part);
    low_gate.into_seat();
    high_gate.into_seat();
    match runs {
        [Ok(()), Ok(())] => both_boxed(alloc, low_done, high_done),
        _ => Err(OutOfMemory),
    }
}
