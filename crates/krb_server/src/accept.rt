//! The acceptor's step.

ghost use Rattle.std.specs.Prelude.{◌≡◌, true, false, IfOk, Err, Result};
ghost use Rattle.std.specs.Result.{result_map_both};
ghost use Rattle.sspi_core.specs.declared.cause.Cause.{Cause};
ghost use Rattle.sspi_core.specs.declared.cause.Cause.TheVariants as causes;
ghost use Rattle.sspi_core.specs.declared.error.Place.TheVariants as places;
ghost use Rattle.sspi_core.specs.Kinds.{error_of};
ghost use Rattle.sspi_core.specs.Checks.{Answers, Takes, told};
ghost use Rattle.krb_admission.specs.Accepts.{asks_dce_style};
ghost use Rattle.krb_user_to_user.specs.TgtRequests.{CanBegin};
ghost use Rattle.krb_server.specs.declared.accept.Accepted.{Accepted};
ghost use Rattle.krb_server.specs.Whole.{user_of, Checks, TakesTgtReq, accepted_as, JudgesOther, AcceptsWhole, CanStart, answer_at_once};

use crate::tgt_req::tgt_req_in;
use bitflags::Flags;
use krb_admission::{Answer, judge_token};
use krb_conf::Env;
use krb_context::Kerberos;
use krb_der::{Octets, OutOfMemory, boxed};
use krb_exchange::TgtReq;
use krb_replay::ReplayGate;
use krb_user_to_user::{AcceptRun, Beginning, begin_accept};
use sspi_core::{Cause, CredentialsBuffers, Draw, Error, SecurityStatus, ServerRequestFlags};
use std::alloc::Global;

/// The answer to an accepted token.
#[derive(Drop)]
pub enum Accepted {
    /// It was an AP-REQ, or the initiator's third leg.
    Done {
        status: SecurityStatus,
        /// The token for the client; empty if the client asked for none.
        token: Octets,
        /// True for an AP-REQ: a client is admitted.
        admits: bool,
    },
    /// It was a TGT-REQ: the exchange that fetches the service's ticket, and ends with the answer.
    Run(Box<AcceptRun>),
}

impl Accepted {
    /// Returns the answer if the token has one at once, None for an exchange. A caller that has no credentials for an exchange, or
    /// runs none, calls this instead of a `match`: no exchange is then dropped in the caller's own crate, and the caller proves
    /// nothing about that.
    pub fn answer(self) -> Option<Answer>
        ensures { result ≡ answer_at_once self }
    {
        match self {
            Accepted::Done {
                status,
                token,
                admits,
            } => Some(Answer {
                status,
                token,
                admits,
            }),
            Accepted::Run(_) => None,
        }
    }
}

fn user_of(server: &Kerberos) -> Result<&CredentialsBuffers, Cause>
    ensures { Takes causes.Credentials (user_of server.now) (result_map_both (λ user. user.now) (λ e. e) result) }
{
    match &server.server {
        None => Err(Cause::Credentials),
        Some(properties) => match &properties.user {
            None => Err(Cause::Credentials),
            Some(user) => Ok(user),
        },
    }
}

/// The checks of a TGT-REQ.
#[tactic(auto, unfolding(crate::specs::Whole::Checks))]
fn check_tgt_req(
    alloc: Global,
    server: &Kerberos,
    tgt_req: &TgtReq,
    dce: bool,
    env: &Env,
) -> Result<Beginning, Cause>
    ensures step { Answers (Checks server.now tgt_req.now dce env.now) result }
    ensures ready { IfOk result (λ beginning. CanBegin beginning) }
{
    let user = user_of(server)?;
    begin_accept(alloc, server, user, tgt_req, dce, env)
}

/// Returns the answer to a TGT-REQ: an exchange that is not started.
fn take_tgt_req(
    alloc: Global,
    server: &Kerberos,
    tgt_req: &TgtReq,
    dce: bool,
    env: &Env,
) -> Result<Accepted, Cause>
    ensures step { Answers (TakesTgtReq server.now tgt_req.now dce env.now) result }
    ensures ready { IfOk result CanStart }
{
    let beginning = check_tgt_req(alloc, server, tgt_req, dce, env)?;
    let run = boxed(alloc, AcceptRun::new(alloc, beginning))?;
    Ok(Accepted::Run(run))
}

fn accepted_as(answer: Answer) -> Accepted
    ensures same { result ≡ accepted_as answer }
    ensures ready { CanStart result }
{
    let Answer {
        status,
        token,
        admits,
    } = answer;
    Accepted::Done {
        status,
        token,
        admits,
    }
}

/// Returns the answer to a token that is no TGT-REQ.
fn judge_other<G: ReplayGate>(
    alloc: Global,
    server: &mut Kerberos,
    gate: &mut G,
    dce: bool,
    token: &[u8],
    draw: &Draw,
) -> Result<Accepted, Cause>
    ensures step { (result ≡ Err causes.Memory → ⊥) → JudgesOther G.admits server.old dce token.now draw.now gate.old result server.new gate.new }
    ensures ready { IfOk result CanStart }
    ensures memory { result ≡ Err causes.Memory → (server.new ≡ server.old) × G.is_same gate.old gate.new }
{
    match judge_token(alloc, server, gate, dce, token, draw) {
        Ok(answer) => Ok(accepted_as(answer)),
        Err(cause) => Err(cause),
    }
}

/// Returns the answer to a token.
fn accept<G: ReplayGate>(
    alloc: Global,
    server: &mut Kerberos,
    gate: &mut G,
    dce: bool,
    token: &[u8],
    env: &Env,
    draw: &Draw,
) -> Result<Accepted, Cause>
    ensures step { (result ≡ Err causes.Memory → ⊥)
        → AcceptsWhole G.admits server.old dce token.now env.now draw.now gate.old result server.new gate.new }
    ensures ready { IfOk result CanStart }
    ensures memory { result ≡ Err causes.Memory → (server.new ≡ server.old) × G.is_same gate.old gate.new }
{
    match tgt_req_in(alloc, dce, server.state, token) {
        Ok(None) => judge_other(alloc, server, gate, dce, token, draw),
        Ok(Some(tgt_req)) => take_tgt_req(alloc, server, &tgt_req, dce, env),
        Err(OutOfMemory) => Err(Cause::Memory),
    }
}

/// Judges a token at an acceptor.
///
/// A TGT-REQ that comes first begins user-to-user: `Accepted::Run` is the exchange that fetches the service's ticket, and the
/// context is unchanged until the result of the exchange is settled. Fails, in this order, with IncompleteCredentials Credentials
/// if the service is no user, and then with the causes of `request_tgt`. The gate is not asked.
///
/// Every other token is the initiator's third leg if that is awaited, otherwise an AP-REQ. With `USE_DCE_STYLE` tokens are
/// bare, otherwise they are framed. In DCE style the exchange does not end with the AP-REP: the context then awaits the
/// initiator's third leg, an AP-REP with the same sequence number, for which the gate is not asked; after it the context's sealed
/// messages have an extra count (EC) of 16 octets (MS-KILE, section 3.4.5.1).
///
/// The gate is asked at the moment of `draw`, in microseconds since 1970-01-01T00:00:00Z. If the client asks for an AP-REP, the
/// first random octets of `draw` become the subkey, as many as the suite's key has, and the next 16 the AP-REP's confounder.
///
/// An AP-REQ fails, in this order, with OutOfSequence Sequence if the context awaits no token; with the causes of the checks of
/// RFC 4120, section 3.2.3, in `specs/Requests` of `krb_admission`; of the checks that only the rules of the context ask for, in
/// `specs/Allowed` of `krb_admission`; of the gate; and of `specs/Complete` of `krb_admission`.
/// InvalidToken Shape: the token is neither an AP-REQ nor, if that is awaited, a third leg. A third leg fails with the causes of
/// `specs/ThirdLeg` of `krb_admission`: InvalidToken Shape, DecryptFailure Reply, InvalidToken Inner, NoNumber, Number.
pub fn accept_security_context<G: ReplayGate>(
    alloc: Global,
    server: &mut Kerberos,
    gate: &mut G,
    token: &[u8],
    flags: ServerRequestFlags,
    env: &Env,
    draw: &Draw,
) -> Result<Accepted, Error>
    // Any result but `Memory` is that of the ordered checks and the gate.
    ensures step { (result ≡ Err (error_of causes.Memory) → ⊥)
        → (answer : Result Accepted Cause) × (result ≡ told places.Elsewhere answer)
        × AcceptsWhole G.admits server.old (asks_dce_style flags) token.now env.now draw.now gate.old answer server.new gate.new }
    // An exchange that begins can be started.
    ensures ready { IfOk result CanStart }
    // If memory runs out, context and gate are as before.
    ensures memory { result ≡ Err (error_of causes.Memory) → (server.new ≡ server.old) × G.is_same gate.old gate.new }
{
    let dce = flags.contains(ServerRequestFlags::USE_DCE_STYLE);
    match accept(alloc, server, gate, dce, token, env, draw) {
        Ok(accepted) => Ok(accepted),
        Err(cause) => Err(Error::from(cause)),
    }
}
