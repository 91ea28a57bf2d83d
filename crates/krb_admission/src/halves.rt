//! The two halves of an admission: an AP-REQ is judged without a gate, and admitted at one.

ghost use Rattle.std.specs.Prelude.{◌≡◌, IfOk, Err, Result};
ghost use Rattle.std.specs.Result.{result_map_both};
ghost use Rattle.sspi_core.specs.declared.cause.Cause.TheVariants as causes;
ghost use Rattle.sspi_core.specs.Checks.{Answers, Holds};
ghost use Rattle.krb_admission.specs.Admission.{IsAnswerable};
ghost use Rattle.krb_context.specs.States.{is_waiting};
ghost use Rattle.krb_admission.specs.Accepts.{refusal, BeginsAdmission, FinishesAdmission, MakesAnswer};
ghost use Rattle.krb_admission.specs.Halves.{with_keys, JudgesApReq, AdmitsPrepared, outcome_behind};

use crate::admission::{Acceptor, Admission, Answer, admission_of, settle};
use crate::allowed::{allow, channel_held};
use crate::complete::complete;
use crate::judged::Judged;
use crate::request::{Request, ask_of, read_request};
use crate::third_leg::properties;
use krb_context::{KeptKey, Kerberos, ServerProperties};
use krb_der::{OutOfMemory, boxed};
use krb_replay::{ReplayGate, Verdict};
use sspi_core::{Cause, Draw, hold};
use std::alloc::Global;

fn check_state(server: &Kerberos) -> Result<(), Cause>
    ensures { Holds causes.Sequence (is_waiting server.now.state) result }
{
    hold(server.state.is_waiting(), Cause::Sequence)
}

/// The checks before the gate. The keys that open a ticket are kept in the context.
fn begin(
    alloc: Global,
    server: &mut Kerberos,
    dce: bool,
    token: &[u8],
) -> Result<Box<Request>, Cause>
    ensures stays { server.new ≡ server.old }
    ensures begins { Answers (BeginsAdmission server.old dce token.now) (result_map_both (λ request. request.value) (λ e. e) result) }
{
    check_state(server)?;
    let (rules, channel) = (server.rules, channel_held(server));
    let properties = properties(&server.server)?;
    let kept = &mut server.kept_to_open;
    let request = boxed(
        alloc,
        read_request(alloc, rules, properties, kept, dce, token)?,
    )?;
    allow(rules, channel, &request)?;
    Ok(request)
}

/// Makes the checks after the gate and the admission, before the gate is asked.
fn finish(
    alloc: Global,
    server: &Kerberos,
    dce: bool,
    draw: &Draw,
    request: &Request,
) -> Result<Result<Admission, Cause>, OutOfMemory>
    requires { IsAnswerable request.now }
    ensures { IfOk result (FinishesAdmission server.now dce draw.now request.now) }
{
    let completed = complete(alloc, server.rules, request)?;
    let acceptor = Acceptor {
        dce,
        user_to_user: server.krb5_user_to_user,
        number: server.seq_number,
        draw,
    };
    match completed {
        Ok(client) => Ok(Ok(admission_of(alloc, &acceptor, request, client)?)),
        Err(cause) => Ok(Err(cause)),
    }
}

/// Judges an AP-REQ without a gate: the first half of [`judge_token`](crate::judge_token). All that needs memory or a cipher
/// is done here, and nothing is changed. In DCE style the token is bare, otherwise it is framed.
///
/// Fails, in this order, with Sequence if the context awaits no AP-REQ, for example if it awaits the initiator's third leg; with
/// the causes of the checks of RFC 4120, section 3.2.3, before the gate, in `specs/Requests`. A TGT-REQ is not an AP-REQ: Shape.
/// [`admit`] reports failures of the checks after the gate, after the gate's refusal.
pub fn judge(
    alloc: Global,
    server: &mut Kerberos,
    dce: bool,
    token: &[u8],
    draw: &Draw,
) -> Result<Judged, Cause>
    ensures stays { server.new ≡ server.old }
    ensures judges { Answers (JudgesApReq server.old dce token.now draw.now) result }
{
    let rules = server.rules;
    let request = begin(alloc, server, dce, token)?;
    let outcome = finish(alloc, server, dce, draw, &request)?;
    Ok(Judged {
        request,
        outcome,
        moment: draw.moment,
        rules,
    })
}

/// The checks before the gate, by keys that are lent. What opens a ticket is kept by the caller.
fn begin_with(
    alloc: Global,
    keys: &ServerProperties,
    kept: &mut KeptKey,
    server: &Kerberos,
    dce: bool,
    token: &[u8],
) -> Result<Box<Request>, Cause>
    ensures { Answers (BeginsAdmission (with_keys keys.now server.now) dce token.now) (result_map_both (λ request. request.value) (λ e. e) result) }
{
    check_state(server)?;
    let request = boxed(
        alloc,
        read_request(alloc, server.rules, keys, kept, dce, token)?,
    )?;
    allow(server.rules, channel_held(server), &request)?;
    Ok(request)
}

/// Judges an AP-REQ as [`judge`] does, by the names and keys of services that are lent, in the place of the context's own: so that
/// many contexts go by one table of keys, and none has a copy. [`admit`] needs no key: the context may have none. The keys that open
/// the ticket are derived from the service's key, and kept in `kept` for the next ticket under the same key.
pub fn judge_with(
    alloc: Global,
    keys: &ServerProperties,
    kept: &mut KeptKey,
    server: &Kerberos,
    dce: bool,
    token: &[u8],
    draw: &Draw,
) -> Result<Judged, Cause>
    ensures { Answers (JudgesApReq (with_keys keys.now server.now) dce token.now draw.now) result }
{
    let request = begin_with(alloc, keys, kept, server, dce, token)?;
    let outcome = finish(alloc, server, dce, draw, &request)?;
    Ok(Judged {
        request,
        outcome,
        moment: draw.moment,
        rules: server.rules,
    })
}

/// Returns the cause of the gate's refusal, None if the gate admits.
fn refusal(verdict: Verdict) -> Option<Cause>
    ensures { result ≡ refusal verdict }
{
    match verdict {
        Verdict::Admitted => None,
        Verdict::Skew => Some(Cause::Skew),
        Verdict::NotYet => Some(Cause::NotYet),
        Verdict::Expired => Some(Cause::Expired),
        Verdict::Replayed => Some(Cause::Replayed),
    }
}

/// Applies the gate's verdict to the prepared admission.
fn settle_behind(
    server: &mut Kerberos,
    refused: Option<Cause>,
    outcome: Result<Admission, Cause>,
) -> Result<Answer, Cause>
    ensures { MakesAnswer server.old (outcome_behind refused outcome) result server.new }
{
    match refused {
        Some(cause) => Err(cause),
        None => match outcome {
            Ok(admission) => Ok(settle(server, admission)),
            Err(cause) => Err(cause),
        },
    }
}

/// Admits what was judged, at the context that it was judged at: the second half of [`judge_token`](crate::judge_token). The gate
/// is asked, and what follows it takes no memory and no cipher, so that many threads may have one gate under a lock.
///
/// Fails, in this order, with Sequence if the context no longer awaits an AP-REQ, for example after another admission, and then
/// no gate is asked; with the gate's refusal, Skew, NotYet, Expired or Replayed; with the causes of `specs/Complete`.
pub fn admit<G: ReplayGate>(
    alloc: Global,
    judged: Judged,
    server: &mut Kerberos,
    gate: &mut G,
) -> Result<Answer, Cause>
    ensures step { (result ≡ Err causes.Memory → ⊥) → AdmitsPrepared G.admits judged server.old gate.old result server.new gate.new }
    // Only the question to the gate and the gate may run out of memory: context and gate are then as before.
    ensures memory { result ≡ Err causes.Memory → (server.new ≡ server.old) × G.is_same gate.old gate.new }
{
    check_state(server)?;
    let Judged {
        mut request,
        outcome,
        moment,
        rules,
    } = judged;
    let ask = ask_of(alloc, rules, &mut request, moment)?;
    let verdict = gate.admit(ask)?;
    settle_behind(server, refusal(verdict), outcome)
}
