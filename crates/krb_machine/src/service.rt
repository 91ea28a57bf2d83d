//! The service: many connections, one replay gate, one event after another.
ghost use Rattle.std.specs.Prelude.{◌≡◌};

use crate::connection::{Connection, HeldConnection};
use crate::reply::Reply;
use krb_conf::Env;
use krb_context::Kerberos;
use krb_der::{Items, Name, OutOfMemory};
use krb_replay::ReplayGate;
use krb_script::Event;
use sspi_core::{Cause, Error, MAX_MOMENT};
use std::alloc::Global;
use std::collections::BTreeMap;
use std::marker::Model;

/// Connections by their numbers, over one replay gate. Contracts see the connections in the order of their numbers, the
/// environment, and the gate. The fields are public so that a caller who runs a service over a gate that borrows can take that
/// gate back by a pattern.
#[derive(Drop)]
pub struct Service<G> {
    pub connections: BTreeMap<u32, HeldConnection>,
    pub env: Env,
    pub gate: G,
    /// The allocator of connections that are added.
    pub alloc: Global,
}

impl<G> Model for Service<G> {
    ghost use Rattle.krb_machine.specs.Policy.{State};

    ghost Value = { State G };

    ghost view = { λ s. record { connections = s.connections.entries; env = s.env; gate = s.gate } };
}

/// Memory ran out after `taken` events.
#[derive(Clone, Copy, Debug, PartialEq, Eq)]
pub struct Stopped {
    /// How many events were taken, each with its reply.
    pub taken: usize,
}

impl<G: ReplayGate> Service<G> {
    ghost use Rattle.std.specs.Prelude.{◌≡◌, ◌<◌, [], length, take, not, None, option_map, IfOk, IfErr, OnOk, OnErr};
    ghost use Rattle.krb_context.specs.Contexts.{is_acceptor};
    ghost use Rattle.krb_script.specs.Script.{at_id};
    ghost use Rattle.krb_machine.specs.Described.{no_env};
    ghost use Rattle.krb_machine.specs.Policy.{with_connection, is_taken, refusal_to_add, IsRefusedFor, IsSameState, Steps, StepsOn, RunsOn, StopsBehind};

    /// Returns a service without connections, whose environment has no variable and no file.
    pub fn new(alloc: Global, gate: G) -> Service<G>
        ensures { result ≡ record { connections = []; env = no_env; gate = gate } }
    {
        Service {
            connections: BTreeMap::new(alloc),
            env: Env {
                vars: Items::new(Vec::new(alloc)),
                files: Items::new(Vec::new(alloc)),
            },
            gate,
            alloc,
        }
    }

    /// Returns the context of the connection with this number, and None exactly if there is no such connection.
    pub fn connection(&self, id: u32) -> Option<&Kerberos>
        ensures { option_map (λ context. context.now) result ≡ option_map (λ connection. connection.context) (at_id id self.now.connections) }
    {
        match self.connections.get(&id) {
            Some(held) => Some(&held.connection.context),
            None => None,
        }
    }

    /// Returns the replay gate of all connections.
    pub fn gate(&self) -> &G
        ensures { result.now ≡ self.now.gate }
    {
        &self.gate
    }

    /// Sets the variables and files that contexts read, and replaces those that the service had.
    pub fn set_env(&mut self, env: Env)
        ensures { self.new ≡ record self.old { env = env } }
    {
        self.env = env;
    }

    /// Puts a heap-allocated connection at its number, and replaces the one at the number, if any.
    fn insert(&mut self, id: u32, held: HeldConnection) -> Result<(), OutOfMemory>
        ensures put { OnOk result (self.new ≡ with_connection self.old id held) }
        ensures err { OnErr result (self.new ≡ self.old) }
    {
        self.connections.insert(id, held)?;
        Ok(())
    }

    /// Puts a connection at its number, and replaces the one at the number, if any.
    pub(crate) fn put(&mut self, id: u32, connection: Connection) -> Result<(), OutOfMemory>
        ensures put { OnOk result (self.new ≡ with_connection self.old id connection) }
        ensures err { OnErr result (self.new ≡ self.old) }
    {
        let held = HeldConnection::new(self.alloc, connection)?;
        self.insert(id, held)
    }

    /// Adds an acceptor in its own context. Fails with `Connection` if the number is taken, and then with `Role` if the context is an
    /// initiator's. An error leaves the service unchanged.
    pub fn add_acceptor(&mut self, id: u32, server: Kerberos) -> Result<(), Error>
        ensures added { OnOk result (self.new ≡ with_connection self.old id (record { context = server; target = None; exchange = None })) }
        ensures refused { IsRefusedFor (refusal_to_add (is_taken id self.old.connections) (is_acceptor server)) result }
        ensures err { OnErr result (self.new ≡ self.old) }
    {
        let fits = !server.is_client();
        let connection = Connection {
            context: server,
            target: None,
            exchange: None,
        };
        self.add(id, fits, connection)
    }

    /// Adds an initiator in its own context, with the name of its peer. Fails with `Connection` if the number is taken, and then with
    /// `Role` if the context is an acceptor's. An error leaves the service unchanged.
    pub fn add_initiator(
        &mut self,
        id: u32,
        client: Kerberos,
        target: Option<Name>,
    ) -> Result<(), Error>
        ensures added { OnOk result (self.new ≡ with_connection self.old id (record { context = client; target = target; exchange = None })) }
        ensures refused { IsRefusedFor (refusal_to_add (is_taken id self.old.connections) (not (is_acceptor client))) result }
        ensures err { OnErr result (self.new ≡ self.old) }
    {
        let fits = client.is_client();
        let connection = Connection {
            context: client,
            target,
            exchange: None,
        };
        self.add(id, fits, connection)
    }

    /// Adds a connection; `fits` says whether its context fits its role.
    fn add(&mut self, id: u32, fits: bool, connection: Connection) -> Result<(), Error>
        ensures added { OnOk result (self.new ≡ with_connection self.old id connection) }
        ensures refused { IsRefusedFor (refusal_to_add (is_taken id self.old.connections) fits) result }
        ensures err { OnErr result (self.new ≡ self.old) }
    {
        let refusal = self.refusal(id, fits);
        // The connection is put on the heap first, refused or not. A refusal is reported before out of memory.
        let held = HeldConnection::new(self.alloc, connection);
        match refusal {
            Some(cause) => Err(Error::from(cause)),
            None => Ok(self.insert(id, held?)?),
        }
    }

    /// Returns the reason why a connection is not added, if there is one.
    fn refusal(&self, id: u32, fits: bool) -> Option<Cause>
        ensures { result ≡ refusal_to_add (is_taken id self.now.connections) fits }
    {
        if self.connections.contains_key(&id) {
            return Some(Cause::Connection);
        }
        if fits { None } else { Some(Cause::Role) }
    }

    /// Takes one event, and returns the reply. If memory runs out, the connections and the environment are unchanged, and no caller
    /// can distinguish the gate from its state before the call.
    pub(crate) fn step(&mut self, alloc: Global, event: &Event) -> Result<Reply, OutOfMemory>
        ensures step { IfOk result (λ reply. Steps G.admits self.old event.now reply self.new) }
        ensures err { OnErr result (IsSameState G.is_same self.old self.new) }
    {
        if event.moment > MAX_MOMENT {
            return Ok(Reply::Refused(Error::from(Cause::Moment)));
        }
        match self.connections.get_mut(&event.connection) {
            Some(held) => {
                let connection: &mut Connection = &mut held.connection;
                connection.take_event(alloc, &self.env, &mut self.gate, event)
            }
            None => Ok(Reply::Refused(Error::from(Cause::Connection))),
        }
    }

    /// Takes one event, and appends the reply. The place of the reply is reserved first.
    fn answer(
        &mut self,
        alloc: Global,
        event: &Event,
        replies: &mut Vec<Reply>,
    ) -> Result<(), OutOfMemory>
        ensures ok { OnOk result (StepsOn G.admits self.old event.now replies.old.items replies.new.items self.new) }
        ensures err { OnErr result ((replies.new.items ≡ replies.old.items) × IsSameState G.is_same self.old self.new) }
    {
        replies.reserve(1)?;
        let reply = self.step(alloc, event)?;
        replies.push(reply).unwrap();
        Ok(())
    }

    /// Takes the events, one after another, over any gate. The replies grow by one for each event that is taken. If
    /// memory runs out, connections, gate and replies are those after the events taken, and a later run goes on from there.
    /// The laws for a replay book, and for a gate of which nothing else is known, are in [`laws`](crate::laws).
    pub fn run(
        &mut self,
        alloc: Global,
        events: &[Event],
        replies: &mut Vec<Reply>,
    ) -> Result<(), Stopped>
        ensures ok { OnOk result (RunsOn G.admits self.old events.now replies.old.items replies.new.items self.new) }
        ensures stopped { IfErr result (λ stopped. stopped.taken < length events.now) }
        ensures front { IfErr result (λ stopped.
            StopsBehind G.admits G.is_same self.old (take stopped.taken events.now) replies.old.items replies.new.items self.new) }
        // Whatever the gate, and wherever the run ends.
        ensures skew { G.skew self.new.gate ≡ G.skew self.old.gate }
    {
        for (taken, event) in events.iter().enumerate() {
            match self.answer(alloc, event, replies) {
                Ok(()) => {}
                Err(_) => return Err(Stopped { taken }),
            }
        }
        Ok(())
    }
}
