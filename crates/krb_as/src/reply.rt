//! The replies of a KDC (RFC 4120, sections 3.1.3 to 3.1.5).

ghost use Rattle.std.specs.Prelude.{unwrap_or, IfOk};
ghost use Rattle.sspi_core.specs.declared.cause.Cause.TheVariants as causes;
ghost use Rattle.sspi_core.specs.Checks.{Answers, Holds, Gives};
ghost use Rattle.krb_context.specs.Rules.{has_rule, no_preauthentication, suite_of_each_key};
ghost use Rattle.krb_replies.specs.Told.{Hands};
ghost use Rattle.krb_exchange.specs.Layouts.{as_rep_layout, tgs_rep_layout};
ghost use Rattle.krb_as.specs.Askers.{default_salt};
ghost use Rattle.krb_as.specs.Granted.{IsSendable, IsSendableReply};
ghost use Rattle.krb_as.specs.Replied.{reply_in, LeavesSalt, TellsSuite, LeavesSuite, Grants};
ghost use Rattle.krb_as.specs.Replies.{Replies};

use crate::asker::{Asker, asker_suite, default_salt, suite_told};
use crate::receiving::read_reply;
use krb_context::Rules;
use krb_crypto::CipherSuite;
use krb_der::{Asn1, Octets, Text};
use krb_exchange::{AsRep, KrbError, KrbResult, TgsRep};
use krb_replies::{named_salt, named_suite};
use sspi_core::{Cause, CredentialsBuffers, NetworkProtocol, hold};
use sspi_generator::NetFault;
use std::alloc::Global;

fn reply_in<T>(answer: KrbResult<T>) -> Result<T, Cause>
    ensures { Hands (reply_in answer) result }
{
    match answer {
        KrbResult::Ok(reply) => Ok(reply),
        KrbResult::Err(error) => Err(Cause::Kdc(error.error_code.value())),
    }
}

/// Returns the salt that was named, otherwise the default one.
fn salt_or(
    alloc: Global,
    salt: Option<Text>,
    credentials: &CredentialsBuffers,
) -> Result<Text, Cause>
    ensures { Answers (Gives (unwrap_or salt (default_salt credentials.now))) result }
{
    match salt {
        Some(salt) => Ok(salt),
        None => Ok(default_salt(alloc, credentials)?),
    }
}

/// Returns the salt after an error that answers the first request: the one that the error names, whatever its code, otherwise the
/// default one.
///
/// Fails with `Shape` if the error's data or its first ETYPE-INFO2 is out of the grammar.
#[tactic(auto, unfolding(crate::specs::Replied::LeavesSalt))]
pub fn left_salt(
    alloc: Global,
    credentials: &CredentialsBuffers,
    error: &KrbError,
) -> Result<Text, Cause>
    ensures { Answers (LeavesSalt (default_salt credentials.now) error.now) result }
{
    let salt = named_salt(alloc, error)?;
    salt_or(alloc, salt, credentials)
}

/// Returns the suite of the client's key, by the suite that the error names if it is known.
#[tactic(auto, unfolding(crate::specs::Replied::TellsSuite))]
fn told_suite(alloc: Global, asker: &Asker, error: &KrbError) -> Result<CipherSuite, Cause>
    ensures { Answers (TellsSuite asker.now error.now) result }
{
    let named = named_suite(alloc, error)?;
    Ok(suite_told(asker, named))
}

fn suite_by(
    alloc: Global,
    is_told: bool,
    asker: &Asker,
    error: &KrbError,
) -> Result<CipherSuite, Cause>
    ensures { Answers (LeavesSuite is_told asker.now error.now) result }
{
    if is_told {
        told_suite(alloc, asker, error)
    } else {
        Ok(asker_suite(asker))
    }
}

/// Returns the suite of the key that the time is encrypted under: the asker's, or, if each key goes by its own, the one that the
/// error names. Fails as `left_salt` does for the same error.
pub(crate) fn left_suite(
    alloc: Global,
    asker: &Asker,
    error: &KrbError,
) -> Result<CipherSuite, Cause>
    ensures { Answers (LeavesSuite (has_rule asker.now.rules suite_of_each_key) asker.now error.now) result }
{
    let rules = asker.rules;
    let is_told = rules.has(Rules::SUITE_OF_EACH_KEY);
    suite_by(alloc, is_told, asker, error)
}

/// Returns the first reply of an AS exchange: an error, or an AS-REP in its place. Fails as `read_reply` does. A reply is not longer
/// than 2^24 bytes, so none of its parts is.
pub(crate) fn first_reply(
    alloc: Global,
    protocol: NetworkProtocol,
    reply: Result<Octets, NetFault>,
) -> Result<KrbResult<AsRep>, Cause>
    ensures step { Answers (Replies protocol as_rep_layout reply) result }
    ensures sendable { IfOk result IsSendableReply }
{
    read_reply::<AsRep>(alloc, protocol, reply)
}

/// Checks that an AS-REP may come in the place of an error. Fails with `EarlyAsRep` if it may not.
pub(crate) fn check_early(rules: Rules) -> Result<(), Cause>
    ensures { Holds causes.EarlyAsRep (has_rule rules no_preauthentication) result }
{
    hold(rules.has(Rules::NO_PREAUTHENTICATION), Cause::EarlyAsRep)
}

/// Returns the reply that was asked for. Fails as `read_reply` does, and with `Kdc` and the code of a KRB-ERROR in its place.
#[tactic(auto, unfolding(crate::specs::Replied::Grants))]
pub fn granted<T: Asn1>(
    alloc: Global,
    protocol: NetworkProtocol,
    reply: Result<Octets, NetFault>,
) -> Result<T, Cause>
    ensures { Answers (Grants protocol T.layout reply) result }
{
    let answer = read_reply::<T>(alloc, protocol, reply)?;
    reply_in(answer)
}

/// Returns the AS-REP that was asked for. Fails as `granted` does. A reply is not longer than 2^24 bytes, so none of its parts is.
pub fn granted_as_rep(
    alloc: Global,
    protocol: NetworkProtocol,
    reply: Result<Octets, NetFault>,
) -> Result<AsRep, Cause>
    ensures step { Answers (Grants protocol as_rep_layout reply) result }
    ensures sendable { IfOk result (λ as_rep. IsSendable as_rep.0) }
{
    granted::<AsRep>(alloc, protocol, reply)
}

/// Returns the TGS-REP that was asked for. Fails as `granted` does. A reply is not longer than 2^24 bytes, so none of its parts is.
pub fn granted_tgs_rep(
    alloc: Global,
    protocol: NetworkProtocol,
    reply: Result<Octets, NetFault>,
) -> Result<TgsRep, Cause>
    ensures step { Answers (Grants protocol tgs_rep_layout reply) result }
    ensures sendable { IfOk result (λ tgs_rep. IsSendable tgs_rep.0) }
{
    granted::<TgsRep>(alloc, protocol, reply)
}
