//! The connections that the lines describe.

ghost use Rattle.std.specs.Prelude.{◌≡◌, IfOk, OnOk};
ghost use Rattle.std.specs.Ordering.{nat_cmp};
ghost use Rattle.std.specs.BTreeMap.{insert_entry};
ghost use Rattle.krb_machine.specs.Described.{connection_of, connections_with};
ghost use Rattle.krb_threads.specs.Described.{AreEnds};
ghost use Rattle.krb_threads.specs.Journaled.{connections_of};

use krb_conf::Env;
use krb_der::{OutOfMemory, TryCopy, boxed};
use krb_machine::{HeldConnection, Service, connection_of};
use krb_replay::ReplayGate;
use krb_script::Endpoint;
use std::alloc::Global;
use std::collections::BTreeMap;
use std::thread::{Threads, join};

/// The ends that the lines declare, the environment, and the skew in seconds.
#[derive(Drop)]
pub struct Described {
    pub skew: u32,
    pub env: Env,
    pub endpoints: BTreeMap<u32, Endpoint>,
}

/// Returns the connection of an end that the lines declare, on the heap. The skew is in seconds.
fn held_connection(
    alloc: Global,
    skew: u32,
    endpoint: &Endpoint,
) -> Result<HeldConnection, OutOfMemory>
    ensures { IfOk result (λ held. held ≡ connection_of skew endpoint.now) }
{
    HeldConnection::new(alloc, connection_of(alloc, skew, endpoint)?)
}

/// Puts the connection of an end at its number, and replaces the one at the number, if any.
fn put(
    alloc: Global,
    skew: u32,
    id: u32,
    endpoint: &Endpoint,
    made: &mut BTreeMap<u32, HeldConnection>,
) -> Result<(), OutOfMemory>
    ensures { OnOk result (made.new.entries ≡ insert_entry nat_cmp made.old.entries id (connection_of skew endpoint.now)) }
{
    let connection = held_connection(alloc, skew, endpoint)?;
    made.insert(id, connection)?;
    Ok(())
}

/// Returns the connections of a worker, of which there are two.
fn connections(
    alloc: Global,
    described: &Described,
    worker: u32,
) -> Result<BTreeMap<u32, HeldConnection>, OutOfMemory>
    ensures { IfOk result (λ made.
        made.entries ≡ connections_of worker (connections_with described.now.skew described.now.endpoints.entries)) }
{
    let mut made = BTreeMap::new(alloc);
    for (id, endpoint) in described.endpoints.iter() {
        if *id % 2 == worker {
            put(alloc, described.skew, *id, endpoint, &mut made)?;
        }
    }
    Ok(made)
}

/// The ends of connections that a worker has, and the environment.
#[derive(Drop)]
pub struct Ends {
    pub env: Env,
    pub connections: BTreeMap<u32, HeldConnection>,
}

/// Returns the ends of one worker, of those that the lines declare, and the environment.
pub fn ends_of(alloc: Global, described: &Described, worker: u32) -> Result<Box<Ends>, OutOfMemory>
    ensures { IfOk result (λ ends. AreEnds described.now worker ends.value) }
{
    let connections = connections(alloc, described, worker)?;
    let env = described.env.copy(alloc)?;
    boxed(alloc, Ends { env, connections })
}

/// Returns the ends of both workers, each made in its own thread.
pub fn ends_in_threads<R: Threads>(
    rt: &R,
    alloc: Global,
    described: &Described,
) -> Result<(Box<Ends>, Box<Ends>), OutOfMemory>
    ensures first { IfOk result (λ both. AreEnds described.now 0 both.0.value) }
    ensures second { IfOk result (λ both. AreEnds described.now 1 both.1.value) }
{
    let (low, high) = join(
        rt,
        || -> Result<Box<Ends>, OutOfMemory>
            ensures { IfOk result (λ ends. AreEnds described.entry.now 0 ends.value) }
        { ends_of(alloc, described, 0) },
        || -> Result<Box<Ends>, OutOfMemory>
            ensures { IfOk result (λ ends. AreEnds described.entry.now 1 ends.value) }
        { ends_of(alloc, described, 1) },
    );
    let low = low?;
    Ok((low, high?))
}

/// Returns a service of the environment and the connections of a worker over a gate.
pub fn service_of<G: ReplayGate>(alloc: Global, ends: Ends, gate: G) -> Service<G>
    ensures { result ≡ record { connections = ends.connections.entries; env = ends.env; gate = gate } }
{
    let mut service = Service::new(alloc, gate);
    service.env = ends.env;
    service.connections = ends.connections;
    service
}
