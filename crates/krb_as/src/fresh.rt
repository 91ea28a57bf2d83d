//! The check that an AS-REP answers the AS-REQ of this exchange (RFC 4120, section 3.1.5; RFC 6806, section 6).

ghost use Rattle.std.specs.Prelude.{◌≡◌};
ghost use Rattle.krb_context.specs.Rules.{has_rule, fresh_replies};
ghost use Rattle.krb_replies.specs.Fresh.{AskedFor};
ghost use Rattle.krb_as.specs.Fresh.{is_asked, is_alias, names_client, names_service, AnswersAsReq};

use krb_context::Rules;
use krb_exchange::{KdcRep, KdcReqBody};
use krb_messages::PrincipalName;
use krb_replies::{ReplyFacts, check_answer, is_number};
use sspi_core::Cause;

/// The type of an enterprise name (RFC 6806, section 5).
const ENTERPRISE: i64 = 10;

fn is_asked(asked: &Option<PrincipalName>, name: &PrincipalName) -> bool
    ensures { result ≡ is_asked asked.now name.now }
{
    match asked {
        None => false,
        Some(asked) => asked.name_string == name.name_string,
    }
}

/// Returns whether the KDC may replace this name by another one.
fn is_alias(name: &Option<PrincipalName>) -> bool
    ensures { result ≡ is_alias name.now }
{
    match name {
        None => false,
        Some(name) => is_number(&name.name_type, ENTERPRISE),
    }
}

fn names_client(body: &KdcReqBody, rep: &KdcRep) -> bool
    ensures { result ≡ names_client body.now rep.now }
{
    rep.crealm.as_slice() == body.realm.as_slice()
        && (is_alias(&body.cname) || is_asked(&body.cname, &rep.cname))
}

fn names_service(body: &KdcReqBody, facts: &ReplyFacts) -> bool
    ensures { result ≡ names_service body.now facts.now }
{
    facts.srealm.as_slice() == body.realm.as_slice() && is_asked(&body.sname, &facts.sname)
}

/// Checks that an AS-REP answers the request with this body at this moment, in microseconds since 1970, if that is a rule.
///
/// Fails with `Nonce` if the AS-REP has another nonce; with `ReplyNames` if its client, or the service that is encrypted in it, is
/// another; with `ReplyTime` if its ticket is not valid, give or take 300 seconds.
pub(crate) fn check_fresh(
    rules: Rules,
    body: &KdcReqBody,
    moment: u64,
    rep: &KdcRep,
    facts: &ReplyFacts,
) -> Result<(), Cause>
    ensures { AskedFor (has_rule rules fresh_replies) (AnswersAsReq body.now moment rep.now facts.now) result }
{
    let repeats = facts.repeats_nonce(&body.nonce);
    let names = names_client(body, rep) && names_service(body, facts);
    check_answer(rules, repeats, names, moment, facts)
}
