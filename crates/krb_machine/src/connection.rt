//! One connection of a service.
ghost use Rattle.std.specs.Prelude.{◌≡◌, IfOk};

use crate::exchange::Exchange;
use krb_context::Kerberos;
use krb_der::{Name, OutOfMemory, boxed};
use std::alloc::Global;
use std::marker::Model;

/// A connection of a service: an acceptor, or an initiator with the name of its peer.
#[derive(Drop)]
pub struct Connection {
    /// The connection's end of the Kerberos exchange, with its keys and sequence numbers.
    pub context: Kerberos,
    /// The name of an initiator's peer. An acceptor has none.
    pub target: Option<Name>,
    /// The exchange that waits for a KDC, if there is one. The context is as it was before that exchange began.
    pub exchange: Option<Exchange>,
}

/// A heap-allocated connection: a map has more places than entries, so its entries are small. Contracts see the connection.
#[derive(Drop)]
pub struct HeldConnection {
    pub(crate) connection: Box<Connection>,
}

impl Model for HeldConnection {
    ghost use Rattle.krb_machine.specs.declared.connection.Connection.{Connection};

    ghost Value = { Connection };

    ghost view = { λ held. held.connection.value };
}

impl HeldConnection {
    /// Puts a connection on the heap.
    pub fn new(alloc: Global, connection: Connection) -> Result<HeldConnection, OutOfMemory>
        ensures { IfOk result (λ held. held ≡ connection) }
    {
        Ok(HeldConnection {
            connection: boxed(alloc, connection)?,
        })
    }
}
