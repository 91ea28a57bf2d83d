//! The work of one worker, and its results.

ghost use Rattle.std.specs.Prelude.{◌≡◌, []};

use crate::described::{Ends, service_of};
use crate::part::Part;
use crate::pause::Pause;
use crate::paused_gate::PausedGate;
use krb_machine::{Event, HeldConnection, Reply, Service};
use krb_replay::ReplayGate;
use std::alloc::Global;
use std::collections::BTreeMap;

/// The work of one worker.
#[derive(Drop)]
pub struct Work {
    pub ends: Box<Ends>,
    pub events: Vec<Event>,
}

/// The replies of one worker, its events, and its connections afterwards.
#[derive(Drop)]
pub struct Done {
    pub replies: Vec<Reply>,
    pub events: Vec<Event>,
    pub connections: BTreeMap<u32, HeldConnection>,
}

/// Returns the part of a worker, over a gate with its pause.
pub fn begun<'a, P: Pause, G: ReplayGate>(
    alloc: Global,
    work: Work,
    pause: &'a mut P,
    gate: G,
) -> Part<PausedGate<'a, P, G>>
    ensures gate { result.service.gate.gate ≡ gate }
    ensures env { result.service.env ≡ work.ends.value.env }
    ensures connections { result.service.connections ≡ work.ends.value.connections.entries }
    ensures events { result.events ≡ work.events }
    ensures new { result.replies.items ≡ [] }
{
    let gate = PausedGate { pause, gate };
    Part {
        service: service_of(alloc, Box::into_inner(work.ends), gate),
        events: work.events,
        replies: Vec::new(alloc),
    }
}

/// Takes a part apart, and returns its gate and the results of the worker.
pub fn ended<'a, P: Pause, G: ReplayGate>(part: Part<PausedGate<'a, P, G>>) -> (G, Done)
    ensures gate { result.0 ≡ part.entry.service.gate.gate }
    ensures replies { result.1.replies ≡ part.entry.replies }
    ensures events { result.1.events ≡ part.entry.events }
{
    let Part {
        service: Service {
            connections,
            env: _env,
            gate: PausedGate {
                pause: _pause,
                gate,
            },
            alloc: _alloc,
        },
        events,
        replies,
    } = part;
    (
        gate,
        Done {
            replies,
            events,
            connections,
        },
    )
}
