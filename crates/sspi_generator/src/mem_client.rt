//! A client in memory.

ghost use Rattle.std.specs.Prelude.{◌≡◌, ℕ, List, Result};
ghost use Rattle.sspi_generator.specs.Memory.{Gives, is_failure};
ghost use Rattle.sspi_generator.specs.declared.network.NetFault.{NetFault};

use crate::network::{NetFault, NetworkClient, NetworkRequest};
use krb_der::Octets;
use std::collections::VecDeque;
use std::marker::Model;

/// Gives its answers one after another, each to any request. A call past the last fails with 0. It counts the failures that
/// it gives. Contracts see the answers that are left, and the count.
#[derive(Drop)]
pub struct MemClient {
    answers: VecDeque<Result<Octets, NetFault>>,
    faults: u64,
}

impl Model for MemClient {
    ghost use Rattle.std.specs.Prelude.{List, ℕ, Result};
    ghost use Rattle.sspi_generator.specs.declared.network.NetFault.{NetFault};

    ghost Value = { List (Result (List ℕ) NetFault) × ℕ };

    ghost view = { λ client. (client.answers.items, client.faults) };
}

impl MemClient {
    pub fn new(answers: VecDeque<Result<Octets, NetFault>>) -> MemClient
        ensures { result ≡ (answers.items, 0) }
    {
        MemClient { answers, faults: 0 }
    }

    /// How often it has failed.
    pub fn faults(&self) -> u64
        ensures { result ≡ self.now.1 }
    {
        self.faults
    }
}

fn is_failure(answer: &Result<Octets, NetFault>) -> bool
    ensures { result ≡ is_failure answer.now }
{
    matches!(answer, Err(NetFault::Failed(_)))
}

impl NetworkClient for MemClient {
    ghost faults = { λ client. client.1 };

    ghost sends = { λ old request answer new. Gives old.0 answer new.0 };

    fn send(&mut self, _request: &NetworkRequest) -> Result<Octets, NetFault> {
        let answer = match self.answers.pop_front() {
            Some(answer) => answer,
            None => Err(NetFault::Failed(0)),
        };
        if is_failure(&answer) {
            self.faults = self.faults.saturating_add(1);
        }
        answer
    }
}
