//! The two halves of an admission, for a server whose clients share a gate under a lock, or an external store.

ghost use Rattle.std.specs.Prelude.{◌≡◌, Err, Result};
ghost use Rattle.sspi_core.specs.declared.cause.Cause.{Cause};
ghost use Rattle.sspi_core.specs.declared.cause.Cause.TheVariants as causes;
ghost use Rattle.sspi_core.specs.declared.error.Place.TheVariants as places;
ghost use Rattle.sspi_core.specs.Kinds.{error_of};
ghost use Rattle.sspi_core.specs.Checks.{told};
ghost use Rattle.krb_admission.specs.declared.admission.Answer.{Answer};
ghost use Rattle.krb_admission.specs.Accepts.{asks_dce_style};
ghost use Rattle.krb_admission.specs.Halves.{Prepared, JudgesApReq, AdmitsPrepared};

use bitflags::Flags;
use krb_admission::{Answer, Judged};
use krb_context::Kerberos;
use krb_replay::ReplayGate;
use sspi_core::{Draw, Error, ServerRequestFlags};
use std::alloc::Global;

/// Judges an AP-REQ without a gate: the first half of [`accept_security_context`](crate::accept_security_context). All that
/// needs a cipher or memory is done here, and the context is unchanged.
///
/// Returns a [`Judged`] exactly for an AP-REQ that passes every check before the gate, at a context that awaits one.
/// Fails, in this order, with OutOfSequence Sequence if the context awaits none, for example if it awaits the initiator's third
/// leg; with the causes of the checks of RFC 4120, section 3.2.3, before the gate, and of those that only the rules of the
/// context ask for: InvalidToken NotYet and InvalidToken Transited of the ticket, InvalidParameter Checksum and InvalidToken
/// Bindings of the channel. A TGT-REQ is InvalidToken Shape: if the service is a user, or speaks DCE style, give its tokens to
/// `accept_security_context`, which asks no gate for a TGT-REQ or a third leg.
///
/// The flags and `draw` are as in `accept_security_context`.
pub fn judge(
    alloc: Global,
    server: &mut Kerberos,
    token: &[u8],
    flags: ServerRequestFlags,
    draw: &Draw,
) -> Result<Judged, Error>
    ensures stays { server.new ≡ server.old }
    ensures step { (result ≡ Err (error_of causes.Memory) → ⊥)
        → (answer : Result Prepared Cause) × (result ≡ told places.Elsewhere answer)
        × JudgesApReq server.old (asks_dce_style flags) token.now draw.now answer }
{
    let dce = flags.contains(ServerRequestFlags::USE_DCE_STYLE);
    match krb_admission::judge(alloc, server, dce, token, draw) {
        Ok(judged) => Ok(judged),
        Err(cause) => Err(Error::from(cause)),
    }
}

/// Admits an AP-REQ that was judged: the second half of [`accept_security_context`](crate::accept_security_context). The gate is
/// asked, and nothing after it needs memory or a cipher. So several threads may share one gate under a lock, and hold the lock
/// for this call alone.
///
/// The context must be the one at which the AP-REQ was judged, unchanged. Fails, in this order, with OutOfSequence Sequence if
/// the context no longer awaits an AP-REQ, for example after another admission, and then no gate is asked; with the gate's
/// refusal, TimeSkew Skew or InvalidToken NotYet, Expired or Replayed; with the causes of the checks after the gate, InvalidToken
/// ClientName, InvalidToken ApOptions or InvalidParameter SubKey.
pub fn admit<G: ReplayGate>(
    alloc: Global,
    judged: Judged,
    server: &mut Kerberos,
    gate: &mut G,
) -> Result<Answer, Error>
    ensures step { (result ≡ Err (error_of causes.Memory) → ⊥)
        → (answer : Result Answer Cause) × (result ≡ told places.Elsewhere answer)
        × AdmitsPrepared G.admits judged server.old gate.old answer server.new gate.new }
    // Memory may run out at the gate, or before it for the tag of the record: context and gate are then as before.
    ensures memory { result ≡ Err (error_of causes.Memory) → (server.new ≡ server.old) × G.is_same gate.old gate.new }
{
    match krb_admission::admit(alloc, judged, server, gate) {
        Ok(answer) => Ok(answer),
        Err(cause) => Err(Error::from(cause)),
    }
}
