//! The exchange of a connection with KDCs.

use crate::connection::Connection;
use crate::exchange::{Exchange, Step, begin_exchange, continue_exchange};
use crate::reply::Reply;
use crate::run::Run;
use krb_der::{Octets, OutOfMemory};
use sspi_core::{Cause, Draw, Error};
use sspi_generator::NetFault;
use std::alloc::Global;

impl Connection {
    ghost use Rattle.std.specs.Prelude.{◌≡◌, ◌≤◌, Some, None, IfOk, OnErr};
    ghost use Rattle.sspi_core.specs.Moments.{last_moment};
    ghost use Rattle.krb_machine.specs.Runs.{IsNew};
    ghost use Rattle.krb_machine.specs.Exchanges.{LeadsTo, OpensExchange, GoesOn};
    ghost use Rattle.krb_machine.specs.There.{TakesAnswerThere};

    /// Takes a step of the exchange, and returns the reply: the connection waits for an answer, or its context takes the change that
    /// the exchange made, or is unchanged.
    fn take_step(&mut self, step: Step) -> Reply
        requires free { self.old.exchange ≡ None }
        ensures { LeadsTo self.old step result self.new }
    {
        match step {
            Step::Asks(request, exchange) => {
                self.exchange = Some(exchange);
                Reply::Ask(request)
            }
            Step::Ends(done) => {
                self.context.settle(done.change);
                Reply::Done {
                    status: done.status,
                    token: done.token,
                    admits: false,
                }
            }
            Step::Refused(error) => Reply::Refused(error),
        }
    }

    /// Begins an exchange, and returns the reply. If memory runs out, no exchange begins.
    pub(crate) fn begin_exchange(
        &mut self,
        alloc: Global,
        run: Run,
        draw: &Draw,
    ) -> Result<Reply, OutOfMemory>
        requires new { IsNew run }
        requires moment { draw.now.moment ≤ last_moment }
        requires free { self.old.exchange ≡ None }
        ensures opens { IfOk result (λ reply. OpensExchange self.old run draw.now reply self.new) }
        ensures err { OnErr result (self.new ≡ self.old) }
    {
        match begin_exchange(alloc, run, draw) {
            Ok(step) => Ok(self.take_step(step)),
            Err(OutOfMemory) => Err(OutOfMemory),
        }
    }

    /// Continues the exchange, which was taken out of the connection, and returns the reply. If memory runs out, the connection waits
    /// as before.
    fn continue_exchange(
        &mut self,
        exchange: Exchange,
        answer: Result<Octets, NetFault>,
        draw: &Draw,
    ) -> Result<Reply, OutOfMemory>
        requires moment { draw.now.moment ≤ last_moment }
        requires taken { self.old.exchange ≡ None }
        ensures goes_on { IfOk result (λ reply. GoesOn (record self.old { exchange = Some exchange }) exchange answer draw.now reply self.new) }
        ensures err { OnErr result (self.new ≡ record self.old { exchange = Some exchange }) }
    {
        match continue_exchange(exchange, answer, draw) {
            Ok(step) => Ok(self.take_step(step)),
            Err(exchange) => {
                self.exchange = Some(exchange);
                Err(OutOfMemory)
            }
        }
    }

    /// Takes an answer of the network, and returns the reply. If memory runs out, the connection is unchanged.
    pub(crate) fn take_answer(
        &mut self,
        answer: Result<Octets, NetFault>,
        draw: &Draw,
    ) -> Result<Reply, OutOfMemory>
        requires moment { draw.now.moment ≤ last_moment }
        ensures takes { IfOk result (λ reply. TakesAnswerThere self.old.exchange self.old answer draw.now reply self.new) }
        ensures err { OnErr result (self.new ≡ self.old) }
    {
        match self.exchange.take() {
            Some(exchange) => self.continue_exchange(exchange, answer, draw),
            None => Ok(Reply::Refused(Error::from(Cause::Sequence))),
        }
    }
}
