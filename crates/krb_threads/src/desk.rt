//! The run on one thread, over a desk.

ghost use Rattle.std.specs.Prelude.{◌≡◌, [], length, IfOk, OnOk};
ghost use Rattle.krb_threads.specs.Answers.{AreAnswers};
ghost use Rattle.krb_threads.specs.Described.{all_connections};
ghost use Rattle.krb_threads.specs.Worked.{WorksThere};

use crate::described::{Described, ends_of};
use crate::part::Part;
use crate::pause::Pause;
use crate::paused_gate::PausedGate;
use crate::work::{Done, Work, begun, ended};
use crate::workers::Answers;
use krb_der::{OutOfMemory, boxed};
use krb_machine::Event;
use krb_shared::{Desk, DeskGate};
use std::alloc::Global;

/// Runs a part, with its pause, at a desk.
fn run_gate<'a, P: Pause>(
    alloc: Global,
    part: &mut Part<PausedGate<'a, P, DeskGate<'a>>>,
) -> Result<(), OutOfMemory>
    requires new { part.old.replies.items ≡ [] }
    requires fresh { part.old.service.gate.gate.before ≡ length part.old.service.gate.gate.desk.now.journal }
    ensures reference { OnOk result (part.new.service.gate.gate.desk.ghost_name ≡ part.old.service.gate.gate.desk.ghost_name) }
    ensures works { OnOk result (WorksThere part.old.service.gate.gate.desk.now 1 part.old.service.gate.gate.seat
        part.old.service.env part.old.service.connections part.old.events.items part.new.replies.items part.new.service.gate.gate.desk.now) }
{
    match part.run(alloc) {
        Ok(()) => Ok(()),
        Err(_) => Err(OutOfMemory),
    }
}

/// Runs one worker's events over its connections, at the desk.
fn run_at<'a, P: Pause>(
    alloc: Global,
    work: Work,
    desk: &'a mut Desk,
    seat: u32,
    pause: &'a mut P,
) -> Result<Box<Done>, OutOfMemory>
    ensures { IfOk result (λ done.
        WorksThere desk.old 1 seat work.ends.value.env work.ends.value.connections.entries work.events.items done.value.replies.items desk.new) }
{
    let mut part = begun(alloc, work, pause, DeskGate::new(desk, seat));
    let run = run_gate(alloc, &mut part);
    let (at_desk, done) = ended(part);
    at_desk.into_desk();
    match run {
        Ok(()) => boxed(alloc, done),
        Err(error) => Err(error),
    }
}

/// Runs the events of worker 0 and then those of worker 1, over one new desk.
pub fn run_at_desk<P: Pause, Q: Pause>(
    alloc: Global,
    described: &Described,
    low: Vec<Event>,
    high: Vec<Event>,
    first: &mut P,
    second: &mut Q,
) -> Result<Answers, OutOfMemory>
    ensures { IfOk result (λ answers.
        AreAnswers described.now.skew described.now.env (all_connections described.now)
        low.items high.items answers.one.value.replies.items answers.two.value.replies.items answers.journal) }
{
    let mut desk = boxed(alloc, Desk::new(alloc, described.skew)?)?;
    let work = Work {
        ends: ends_of(alloc, described, 0)?,
        events: low,
    };
    let one = run_at(alloc, work, &mut desk, 0, first)?;
    let work = Work {
        ends: ends_of(alloc, described, 1)?,
        events: high,
    };
    let two = run_at(alloc, work, &mut desk, 1, second)?;
    Ok(Answers {
        one,
        two,
        journal: Box::into_inner(desk).into_journal(),
        receipts: Vec::new(alloc),
    })
}
