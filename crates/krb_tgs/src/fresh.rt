//! Checks that a TGS-REP answers the TGS-REQ of this exchange (RFC 4120, section 3.3.4; RFC 6806, section 8).

ghost use Rattle.std.specs.Prelude.{◌≡◌, ◌∷◌, [], ◌&&◌};
ghost use Rattle.std.specs.Option.{option_copied};
ghost use Rattle.krb_context.specs.Rules.{has_rule, fresh_replies};
ghost use Rattle.krb_replies.specs.Fresh.{same_components, AskedFor};
ghost use Rattle.krb_tgs.specs.Fresh.{names_client, is_for_target, names_service, AnswersTgsReq, referral_of};

use krb_conf::parse_target_name;
use krb_context::Rules;
use krb_der::{Items, Name};
use krb_exchange::KdcRep;
use krb_messages::PrincipalName;
use krb_replies::{ReplyFacts, check_answer, has_value, referral_target_realm};
use sspi_core::Cause;

/// The parts of a request to a ticket-granting service that its reply has to repeat.
#[derive(Drop)]
pub struct TgsQuestion {
    /// The nonce that was drawn for the request.
    pub nonce: u32,
    /// The realm of the client.
    pub crealm: Name,
    /// The client.
    pub cname: PrincipalName,
}

/// Returns whether the components are this service and this host.
fn are_parts(service: &str, host: &str, components: &Items<Name>) -> bool
    ensures { result ≡ same_components components.now (service.now ∷ host.now ∷ []) }
{
    match components.as_slice() {
        [first, second] => first.as_str() == service && second.as_str() == host,
        _ => false,
    }
}

/// Returns whether the name in the encrypted part is that of the target, by its components.
fn is_for_target(target: &Name, facts: &ReplyFacts) -> bool
    ensures { result ≡ is_for_target target.now facts.now }
{
    let components = &facts.sname.name_string;
    match parse_target_name(target.as_str()) {
        Ok((service, host)) => are_parts(service, host, components),
        Err(_) => are_parts("", "", components),
    }
}

fn names_client(question: &TgsQuestion, rep: &KdcRep) -> bool
    ensures { result ≡ names_client question.now rep.now }
{
    rep.crealm.as_slice() == question.crealm.as_slice()
        && rep.cname.name_string == question.cname.name_string
}

/// Returns whether the ticket is one of this realm, for the target or for the ticket-granting service of another realm.
fn names_service(target: &Name, realm: &Name, rep: &KdcRep, facts: &ReplyFacts) -> bool
    ensures { result ≡ names_service target.now realm.now rep.now facts.now }
{
    facts.srealm.as_slice() == realm.as_slice()
        && facts.sname.name_string == rep.ticket.sname.name_string
        && (referral_target_realm(&rep.ticket.sname).is_some() || is_for_target(target, facts))
}

/// Checks that a TGS-REP answers this question about the target, which the KDC of this realm was asked, at this moment, in
/// microseconds since 1970, if that is a rule.
///
/// Fails with `Nonce` if it has another nonce; with `ReplyNames` if its client is another, or the service in its encrypted part is
/// of another realm, or neither the target nor a referral; with `ReplyTime` if its ticket is not valid, give or take 300 seconds.
pub(crate) fn check_fresh(
    rules: Rules,
    target: &Name,
    realm: &Name,
    question: &TgsQuestion,
    moment: u64,
    rep: &KdcRep,
    facts: &ReplyFacts,
) -> Result<(), Cause>
    ensures { AskedFor (has_rule rules fresh_replies) (AnswersTgsReq target.now realm.now question.now moment rep.now facts.now) result }
{
    let repeats = has_value(question.nonce, &facts.nonce);
    let names = names_client(question, rep) && names_service(target, realm, rep, facts);
    check_answer(rules, repeats, names, moment, facts)
}

/// Returns whether a reply has to answer its request, and is for the target.
fn ends_at_target(rules: Rules, target: &Name, facts: &ReplyFacts) -> bool
    ensures { result ≡ (has_rule rules fresh_replies && is_for_target target.now facts.now) }
{
    rules.has(Rules::FRESH_REPLIES) && is_for_target(target, facts)
}

/// Returns the realm that a ticket refers to, by its clear name; None if the ticket is the target's. If a reply has to answer its
/// request, a ticket that is for the target by the encrypted part is the target's, even one for a service called `krbtgt`.
pub fn referral_of<'a>(
    rules: Rules,
    target: &Name,
    facts: &ReplyFacts,
    rep: &'a KdcRep,
) -> Option<&'a Name>
    ensures { option_copied result ≡ referral_of rules target.now facts.now rep.entry.now }
{
    if ends_at_target(rules, target, facts) {
        None
    } else {
        referral_target_realm(&rep.ticket.sname)
    }
}
