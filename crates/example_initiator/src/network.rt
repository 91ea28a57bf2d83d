//! The network to a KDC. A program of yours opens its sockets here; this one has the recorded replies.

ghost use Rattle.std.specs.Prelude.{◌≡◌};

use anyhow::Result;
use krb_client::{NetFault, NetworkClient, NetworkRequest, Octets, OutOfMemory, TryCopy};
use std::alloc::{AllocError, Global};
use std::collections::VecDeque;
use std::mem;

/// Returns the replies that were added, one after another, and keeps the requests. After the last reply each request fails, with
/// the code 0. It counts its failures.
#[derive(Drop)]
pub struct Network {
    alloc: Global,
    replies: VecDeque<Octets>,
    requests: Vec<NetworkRequest>,
    faults: u64,
}

impl Network {
    pub fn new(alloc: Global) -> Network {
        Network {
            alloc,
            replies: VecDeque::new(alloc),
            requests: Vec::new(alloc),
            faults: 0,
        }
    }

    /// Adds one more reply, in hex, after the existing ones.
    pub fn add(&mut self, reply: &str) -> Result<()> {
        let reply = hex::decode(self.alloc, reply.as_bytes())?;
        self.replies.push_back(Octets::new(reply))?;
        Ok(())
    }

    /// Returns the requests since the last call.
    pub fn take_requests(&mut self) -> Vec<NetworkRequest> {
        mem::replace(&mut self.requests, Vec::new(self.alloc))
    }

    /// Keeps a request.
    fn keep(&mut self, request: &NetworkRequest) -> std::result::Result<(), OutOfMemory>
        ensures { self.new.faults ≡ self.old.faults }
    {
        let request = request.copy(self.alloc)?;
        self.requests.push(request)?;
        Ok(())
    }
}

impl NetworkClient for Network {
    ghost faults = { λ network. network.faults };

    // A network may answer anything, so the contract has nothing but that it counts its failures.
    ghost sends = { λ old request answer new. Unit {0} };

    fn send(&mut self, request: &NetworkRequest) -> std::result::Result<Octets, NetFault> {
        if self.keep(request).is_err() {
            return Err(NetFault::OutOfMemory);
        }
        match self.replies.pop_front() {
            Some(reply) => Ok(reply),
            None => {
                self.faults = self.faults.saturating_add(1);
                Err(NetFault::Failed(0))
            }
        }
    }
}
