//! The change that an event makes to its connection.

ghost use Rattle.std.specs.Prelude.{◌≡◌};
ghost use Rattle.krb_machine.specs.Policy.{draw_of};

use crate::connection::Connection;
use crate::initiation::is_before;
use crate::message_calls::{open_message, seal_message, sign, verify};
use crate::reply::Reply;
use krb_conf::Env;
use krb_der::{OutOfMemory, TryCopy};
use krb_replay::ReplayGate;
use krb_script::{Event, Input};
use sspi_core::{Cause, Draw, Error};
use sspi_generator::NetFault;
use std::alloc::Global;

/// Returns the moment and the random octets that an event passes to a step.
fn draw_of(event: &Event) -> Draw
    ensures { result ≡ draw_of event.now }
{
    Draw {
        moment: event.moment,
        random: event.random,
    }
}

impl Connection {
    ghost use Rattle.std.specs.Prelude.{◌≡◌, ◌≤◌, ◌&&◌, is_none, IfOk, OnErr};
    ghost use Rattle.sspi_core.specs.Moments.{last_moment};
    ghost use Rattle.krb_machine.specs.Initiations.{is_before};
    ghost use Rattle.krb_machine.specs.There.{StepsThere};

    /// Returns whether the connection is an initiator's that has not yet shown the service a ticket.
    fn can_start(&self) -> bool
        ensures { result ≡ (is_none self.now.context.server && is_before self.now.context.state) }
    {
        self.context.is_client() && is_before(self.context.state)
    }

    /// Takes one event that is in time, and returns the reply. If memory runs out, the connection is unchanged, and no caller can
    /// distinguish the gate from its state before the call.
    pub(crate) fn take_event<G: ReplayGate>(
        &mut self,
        alloc: Global,
        env: &Env,
        gate: &mut G,
        event: &Event,
    ) -> Result<Reply, OutOfMemory>
        requires moment { event.now.moment ≤ last_moment }
        ensures step { IfOk result (λ reply. StepsThere G.admits env.now self.old gate.old event.now reply self.new gate.new) }
        ensures err { OnErr result ((self.new ≡ self.old) × G.is_same gate.old gate.new) }
    {
        let draw = draw_of(event);
        match &event.input {
            Input::KdcReply(octets) => self.take_answer(Ok(octets.copy(alloc)?), &draw),
            Input::KdcFault(code) => self.take_answer(Err(NetFault::Failed(*code)), &draw),
            _ if self.exchange.is_some() => Ok(Reply::Refused(Error::from(Cause::Sequence))),
            Input::Wrap(message) => seal_message(alloc, &mut self.context, &event.random, message),
            Input::Unwrap(message) => open_message(alloc, &mut self.context, message),
            Input::MakeMic(payload) => sign(alloc, &mut self.context, payload),
            Input::VerifyMic { token, payload } => Ok(verify(&self.context, token, payload)),
            Input::Token(token) if self.context.is_client() => {
                self.initiate(alloc, env, event.flags, token.as_slice(), &draw)
            }
            Input::Token(token) => {
                self.judge(alloc, env, gate, event.flags, token.as_slice(), &draw)
            }
            Input::Start if self.can_start() => {
                self.initiate(alloc, env, event.flags, &[], &draw)
            }
            Input::Start => Ok(Reply::Refused(Error::from(Cause::Sequence))),
        }
    }
}
