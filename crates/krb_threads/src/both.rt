//! Two parts in two threads.

ghost use Rattle.std.specs.Prelude.{◌≡◌, slice_get, IsSomeAnd};
ghost use Rattle.krb_threads.specs.Runs.{EndsAs};

use crate::part::Part;
use krb_machine::Stopped;
use krb_replay::ReplayGate;
use std::alloc::Global;
use std::thread::{Threads, join_mut};

/// Runs each part over its events, in two threads; if no thread can be started, one after the other. Each part ends as its
/// service's run does over its own gate. Returns if the calls of both gates return.
pub fn run_two<R: Threads + Sync, A: ReplayGate + Send, B: ReplayGate + Send>(
    rt: &R,
    alloc: Global,
    first: &mut Part<A>,
    second: &mut Part<B>,
) -> [Result<(), Stopped>; 2]
    ensures first { IsSomeAnd (slice_get result 0) (λ ended.
        EndsAs A.admits A.is_same first.old.service first.old.events.items first.old.replies.items ended first.new.replies.items first.new.service) }
    ensures second { IsSomeAnd (slice_get result 1) (λ ended.
        EndsAs B.admits B.is_same second.old.service second.old.events.items second.old.replies.items ended second.new.replies.items second.new.service) }
    ensures first_events { first.new.events ≡ first.old.events }
    ensures second_events { second.new.events ≡ second.old.events }
{
    let (one, two) = join_mut(
        rt,
        &mut || -> Result<(), Stopped>
            ensures run { EndsAs A.admits A.is_same first.entry.now.service first.entry.now.events.items first.entry.now.replies.items
                result first.exit.now.replies.items first.exit.now.service }
            ensures events { first.exit.now.events ≡ first.entry.now.events }
        { first.run(alloc) },
        &mut || -> Result<(), Stopped>
            ensures run { EndsAs B.admits B.is_same second.entry.now.service second.entry.now.events.items second.entry.now.replies.items
                result second.exit.now.replies.items second.exit.now.service }
            ensures events { second.exit.now.events ≡ second.entry.now.events }
        { second.run(alloc) },
    );
    [one, two]
}
