//! The acceptor's step: an AP-REQ, or the initiator's third leg.

ghost use Rattle.std.specs.Prelude.{◌≡◌, false, Err, Result};
ghost use Rattle.sspi_core.specs.declared.cause.Cause.TheVariants as causes;
ghost use Rattle.krb_admission.specs.Accepts.{awaits_last_word, Accepts};

use crate::admission::Answer;
use crate::halves::{admit, judge};
use crate::third_leg::conclude;
use krb_context::{Kerberos, KerberosState};
use krb_replay::ReplayGate;
use sspi_core::{Cause, Draw};
use std::alloc::Global;

fn awaits_last_word(dce: bool, state: KerberosState) -> bool
    ensures { result ≡ awaits_last_word dce state }
{
    match state {
        KerberosState::ApExchange => dce,
        KerberosState::TgtExchange | KerberosState::Preauthentication | KerberosState::Final => {
            false
        }
    }
}

/// Judges an AP-REQ, and then admits it.
fn judge_and_admit<G: ReplayGate>(
    alloc: Global,
    server: &mut Kerberos,
    gate: &mut G,
    dce: bool,
    token: &[u8],
    draw: &Draw,
) -> Result<Answer, Cause>
    requires { awaits_last_word dce server.old.state ≡ false }
    ensures step { (result ≡ Err causes.Memory → ⊥) → Accepts G.admits server.old dce token.now draw.now gate.old result server.new gate.new }
    ensures memory { result ≡ Err causes.Memory → (server.new ≡ server.old) × G.is_same gate.old gate.new }
{
    let judged = judge(alloc, server, dce, token, draw)?;
    admit(alloc, judged, server, gate)
}

/// Judges a token: the initiator's third leg if it is awaited, otherwise an AP-REQ, whose client is admitted, or refused by
/// the first check that it fails. `accept_security_context` of `krb_server` does this with every token but a TGT-REQ.
///
/// In DCE style tokens are bare, otherwise they are framed. In DCE style the exchange does not end with the AP-REP: the context
/// then awaits the initiator's third leg, an AP-REP with the same sequence number, for which the gate is not asked; after it the
/// context's sealed messages have an extra count (EC) of 16 octets (MS-KILE, section 3.4.5.1).
///
/// The gate is asked at the moment of `draw`, in microseconds since 1970-01-01T00:00:00Z. If the client asks for an AP-REP, the
/// first random octets of `draw` become the subkey, as many as the suite's key has, and the next 16 the AP-REP's confounder.
///
/// An AP-REQ fails, in this order, with Sequence if the context awaits no token; with the causes of the checks of RFC 4120,
/// section 3.2.3, in `specs/Requests`, the gate's, and those of `specs/Complete`. A TGT-REQ is not an AP-REQ: Shape. A third leg
/// fails with the causes of `specs/ThirdLeg`: Shape, Reply, Inner, NoNumber, Number.
pub fn judge_token<G: ReplayGate>(
    alloc: Global,
    server: &mut Kerberos,
    gate: &mut G,
    dce: bool,
    token: &[u8],
    draw: &Draw,
) -> Result<Answer, Cause>
    // Any result but `Memory` is that of the ordered checks and the gate.
    ensures step { (result ≡ Err causes.Memory → ⊥) → Accepts G.admits server.old dce token.now draw.now gate.old result server.new gate.new }
    // If memory runs out, context and gate are as before.
    ensures memory { result ≡ Err causes.Memory → (server.new ≡ server.old) × G.is_same gate.old gate.new }
{
    if awaits_last_word(dce, server.state) {
        conclude(alloc, server, token)
    } else {
        judge_and_admit(alloc, server, gate, dce, token, draw)
    }
}
