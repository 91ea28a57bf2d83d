//! The initiation that an initiator begins at an event, and the token that it takes.

ghost use Rattle.std.specs.Prelude.{◌≡◌, IfOk};
ghost use Rattle.krb_machine.specs.Initiations.{is_before, options_of};

use crate::connection::Connection;
use crate::message_calls::refused;
use crate::reply::Reply;
use crate::run::Run;
use krb_conf::Env;
use krb_context::KerberosState;
use krb_der::{Copier, Octets, OutOfMemory};
use krb_initiator::{InitOptions, initialize_security_context};
use sspi_core::{ClientRequestFlags, Draw};
use std::alloc::Global;

/// Returns whether the service has not yet been shown a ticket.
pub(crate) fn is_before(state: KerberosState) -> bool
    ensures { result ≡ is_before state }
{
    match state {
        KerberosState::TgtExchange | KerberosState::Preauthentication => true,
        KerberosState::ApExchange | KerberosState::Final => false,
    }
}

/// Returns the options of an initiator. All of them are copies, since the run keeps them.
fn options_of(
    alloc: Global,
    connection: &Connection,
    env: &Env,
    flags: ClientRequestFlags,
    token: &[u8],
) -> Result<InitOptions, OutOfMemory>
    ensures { IfOk result (λ options. options ≡ options_of connection.now env.now flags token.now) }
{
    let token = Octets::from_slice(alloc, token)?;
    let mut copier = Copier::new(alloc);
    let options = InitOptions {
        flags,
        target: copier.copy(&connection.target),
        token,
        credentials: copier.copy(&connection.context.auth_identity),
        channel_bindings: None,
        env: Env {
            vars: copier.copy(&env.vars),
            files: copier.copy(&env.files),
        },
    };
    copier.finish(options)
}

impl Connection {
    ghost use Rattle.std.specs.Prelude.{◌≡◌, ◌≤◌, None, IfOk, OnErr};
    ghost use Rattle.sspi_core.specs.Moments.{last_moment};
    ghost use Rattle.krb_machine.specs.Initiations.{options_of, Undertakes};

    /// Begins the initiation that the options ask for, and returns the reply. If memory runs out, the connection is unchanged.
    fn begin_initiation(
        &mut self,
        alloc: Global,
        options: InitOptions,
        draw: &Draw,
    ) -> Result<Reply, OutOfMemory>
        requires moment { draw.now.moment ≤ last_moment }
        requires free { self.old.exchange ≡ None }
        ensures undertakes { IfOk result (λ reply. Undertakes self.old options draw.now reply self.new) }
        ensures err { OnErr result (self.new ≡ self.old) }
    {
        match initialize_security_context(alloc, &self.context, options) {
            Ok(run) => self.begin_exchange(alloc, Run::Initiates(run), draw),
            Err(error) => refused(error),
        }
    }

    /// Takes a token at an initiator, which is empty at the start, and returns the reply. If memory runs out, the connection is
    /// unchanged.
    pub(crate) fn initiate(
        &mut self,
        alloc: Global,
        env: &Env,
        flags: ClientRequestFlags,
        token: &[u8],
        draw: &Draw,
    ) -> Result<Reply, OutOfMemory>
        requires moment { draw.now.moment ≤ last_moment }
        requires free { self.old.exchange ≡ None }
        ensures undertakes { IfOk result (λ reply. Undertakes self.old (options_of self.old env.now flags token.now) draw.now reply self.new) }
        ensures err { OnErr result (self.new ≡ self.old) }
    {
        let options = options_of(alloc, self, env, flags, token)?;
        self.begin_initiation(alloc, options, draw)
    }
}
