//! The acceptance of a token.

ghost use Rattle.std.specs.Prelude.{◌≡◌};
ghost use Rattle.krb_machine.specs.Policy.{server_flags};

use crate::connection::Connection;
use crate::exchange::is_memory;
use crate::reply::Reply;
use crate::run::Run;
use bitflags::Flags;
use krb_conf::Env;
use krb_der::OutOfMemory;
use krb_replay::ReplayGate;
use krb_server::{Accepted, accept_security_context};
use sspi_core::{ClientRequestFlags, Draw, Error, ServerRequestFlags};
use std::alloc::Global;

/// Returns the flags of an event, of which an acceptor reads the two that it has.
fn server_flags(flags: ClientRequestFlags) -> ServerRequestFlags
    ensures { result ≡ server_flags flags }
{
    ServerRequestFlags::from_bits_retain(flags.bits())
}

impl Connection {
    ghost use Rattle.std.specs.Prelude.{◌≡◌, ◌≢◌, ◌≤◌, None, Err, IfOk, OnErr};
    ghost use Rattle.sspi_core.specs.Kinds.{error_of};
    ghost use Rattle.sspi_core.specs.declared.cause.Cause.TheVariants as causes;
    ghost use Rattle.sspi_core.specs.Moments.{last_moment};
    ghost use Rattle.krb_server.specs.Whole.{CanStart};
    ghost use Rattle.krb_machine.specs.Exchanges.{StopsAt};
    ghost use Rattle.krb_machine.specs.Policy.{Settles};
    ghost use Rattle.krb_machine.specs.There.{JudgesThere};

    /// Takes an acceptor's answer, and returns the reply; a run begins an exchange with a KDC. If memory runs out, the connection is
    /// unchanged.
    fn settle(
        &mut self,
        alloc: Global,
        answer: Result<Accepted, Error>,
        draw: &Draw,
    ) -> Result<Reply, OutOfMemory>
        requires ready { IfOk answer CanStart }
        requires moment { draw.now.moment ≤ last_moment }
        requires free { self.old.exchange ≡ None }
        ensures settles { IfOk result (λ reply. Settles draw.now self.old answer reply self.new) }
        ensures other { IfOk result (λ _. answer ≢ Err (error_of causes.Memory)) }
        ensures err { OnErr result ((self.new ≡ self.old) × StopsAt answer) }
    {
        match answer {
            Ok(
                Accepted::Done {
                    status,
                    token,
                    admits,
                },
            ) => Ok(Reply::Done {
                status,
                token,
                admits,
            }),
            Ok(Accepted::Run(run)) => {
                self.begin_exchange(alloc, Run::Accepts(Box::into_inner(run)), draw)
            }
            Err(error) if is_memory(&error) => Err(OutOfMemory),
            Err(error) => Ok(Reply::Refused(error)),
        }
    }

    /// Judges a token at an acceptor, and returns the reply. If memory runs out, the connection is unchanged, and no caller can
    /// distinguish the gate from its state before the call.
    pub(crate) fn judge<G: ReplayGate>(
        &mut self,
        alloc: Global,
        env: &Env,
        gate: &mut G,
        flags: ClientRequestFlags,
        token: &[u8],
        draw: &Draw,
    ) -> Result<Reply, OutOfMemory>
        requires moment { draw.now.moment ≤ last_moment }
        requires free { self.old.exchange ≡ None }
        ensures judges { IfOk result (λ reply. JudgesThere G.admits env.now self.old gate.old flags token.now draw.now reply self.new gate.new) }
        ensures err { OnErr result ((self.new ≡ self.old) × G.is_same gate.old gate.new) }
    {
        let flags = server_flags(flags);
        let answer = accept_security_context(
            alloc,
            &mut self.context,
            gate,
            token,
            flags,
            env,
            draw,
        );
        self.settle(alloc, answer, draw)
    }
}
