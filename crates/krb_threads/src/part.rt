//! One worker's part.

ghost use Rattle.std.specs.Prelude.{◌≡◌};
ghost use Rattle.krb_threads.specs.Runs.{EndsAs};

use krb_machine::{Event, Reply, Service, Stopped};
use krb_replay::ReplayGate;
use std::alloc::Global;

/// A service, its events, and the replies to those that it has taken.
#[derive(Drop)]
pub struct Part<G> {
    pub service: Service<G>,
    pub events: Vec<Event>,
    pub replies: Vec<Reply>,
}

impl<G: ReplayGate> Part<G> {
    /// Takes the events, one after another, and appends the replies.
    pub(crate) fn run(&mut self, alloc: Global) -> Result<(), Stopped>
        ensures run { EndsAs G.admits G.is_same self.old.service self.old.events.items self.old.replies.items result self.new.replies.items self.new.service }
        ensures events { self.new.events ≡ self.old.events }
    {
        self.service.run(alloc, &self.events, &mut self.replies)
    }
}
