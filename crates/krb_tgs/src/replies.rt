//! The ticket and the key in a reply of a ticket-granting service (RFC 4120, section 3.3.4).

ghost use Rattle.std.specs.Prelude.{IfOk};
ghost use Rattle.sspi_core.specs.Checks.{Answers, Gives};
ghost use Rattle.krb_replies.specs.Keys.{BringsNext};
ghost use Rattle.krb_as.specs.Granted.{IsSendable};
ghost use Rattle.krb_tgs.specs.Taken.{BringsFresh, TakesTgsRep};

use crate::fresh::{TgsQuestion, check_fresh};
use krb_as::{Grant, Kdc, granted_tgs_rep};
use krb_context::Rules;
use krb_crypto::CipherSuite;
use krb_der::{Name, Octets};
use krb_exchange::TgsRep;
use krb_replies::{ReplyKey, key_in_tgs_rep};
use sspi_core::{Cause, Secret};
use sspi_generator::NetFault;
use std::alloc::Global;

/// Returns the grant of a TGS-REP: its ticket, and this key.
fn shown_by_tgs(next: ReplyKey, tgs_rep: TgsRep) -> Result<Grant, Cause>
    requires { IsSendable tgs_rep.0 }
    ensures made { Answers (Gives (record { suite = next.suite; key = next.key; facts = next.facts; rep = tgs_rep.0 })) result }
    ensures sendable { IfOk result (λ shown. IsSendable shown.rep) }
{
    Ok(Grant {
        suite: next.suite,
        key: next.key,
        facts: next.facts,
        rep: tgs_rep.0,
    })
}

/// Returns the session key in the encrypted part of a TGS-REP.
fn next_key(
    alloc: Global,
    rules: Rules,
    suite: CipherSuite,
    key: &Secret<Octets>,
    tgs_rep: &TgsRep,
) -> Result<ReplyKey, Cause>
    ensures { Answers (BringsNext rules suite key.now tgs_rep.now) result }
{
    key_in_tgs_rep(alloc, rules, suite, key.as_ref().as_slice(), tgs_rep)
}

/// Returns the session key of a TGS-REP, if the reply answers the request.
#[tactic(auto, unfolding(crate::specs::Taken::BringsFresh))]
fn fresh_key(
    alloc: Global,
    rules: Rules,
    target: &Name,
    realm: &Name,
    question: &TgsQuestion,
    moment: u64,
    suite: CipherSuite,
    key: &Secret<Octets>,
    tgs_rep: &TgsRep,
) -> Result<ReplyKey, Cause>
    ensures { Answers (BringsFresh rules target.now realm.now question.now moment suite key.now tgs_rep.now) result }
{
    let next = next_key(alloc, rules, suite, key, tgs_rep)?;
    let (rep, facts) = (&tgs_rep.0, &next.facts);
    check_fresh(rules, target, realm, question, moment, rep, facts)?;
    Ok(next)
}

/// Returns the grant in a TGS-REP of this KDC: its ticket, and the session key in its encrypted part, which is encrypted under the
/// session key of the ticket that was shown.
///
/// Fails as `granted_tgs_rep`; then with `Reply` if the encrypted part does not decrypt under that key, with `Inner` if its plain
/// text is no EncTGSRepPart; with `Etype` if the key goes by its own suite, and that is not known; if a reply has to answer its
/// request, with `Nonce`, `ReplyNames` and `ReplyTime`.
#[tactic(auto, unfolding(crate::specs::Taken::TakesTgsRep))]
pub fn take_tgs_rep(
    alloc: Global,
    rules: Rules,
    target: &Name,
    question: &TgsQuestion,
    moment: u64,
    kdc: &Kdc,
    suite: CipherSuite,
    key: &Secret<Octets>,
    reply: Result<Octets, NetFault>,
) -> Result<Grant, Cause>
    ensures step { Answers (TakesTgsRep rules target.now question.now moment kdc.now suite key.now reply) result }
    ensures sendable { IfOk result (λ shown. IsSendable shown.rep) }
{
    let tgs_rep = granted_tgs_rep(alloc, kdc.protocol, reply)?;
    let next = fresh_key(
        alloc, rules, target, &kdc.realm, question, moment, suite, key, &tgs_rep,
    )?;
    shown_by_tgs(next, tgs_rep)
}
