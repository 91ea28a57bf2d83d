//! Checks that a reply of a KDC answers the request of this exchange (RFC 4120, sections 3.1.5 and 3.3.4).

ghost use Rattle.sspi_core.specs.declared.cause.Cause.TheVariants as causes;
ghost use Rattle.sspi_core.specs.Checks.{Holds};
ghost use Rattle.krb_context.specs.Rules.{has_rule, fresh_replies};
ghost use Rattle.krb_replies.specs.Fresh.{is_valid_at, AnswersRequest, AskedFor};

use crate::facts::ReplyFacts;
use krb_context::Rules;
use sspi_core::{Cause, hold};

fn check_nonce(repeats: bool) -> Result<(), Cause>
    ensures { Holds causes.Nonce repeats result }
{
    hold(repeats, Cause::Nonce)
}

fn check_names(names: bool) -> Result<(), Cause>
    ensures { Holds causes.ReplyNames names result }
{
    hold(names, Cause::ReplyNames)
}

fn check_time(moment: u64, facts: &ReplyFacts) -> Result<(), Cause>
    ensures { Holds causes.ReplyTime (is_valid_at moment facts.now) result }
{
    hold(facts.is_valid_at(moment), Cause::ReplyTime)
}

#[tactic(auto, unfolding(crate::specs::Fresh::AnswersRequest))]
fn check_parts(repeats: bool, names: bool, moment: u64, facts: &ReplyFacts) -> Result<(), Cause>
    ensures { AnswersRequest repeats names moment facts.now result }
{
    check_nonce(repeats)?;
    check_names(names)?;
    check_time(moment, facts)
}

fn check_by(
    is_rule: bool,
    repeats: bool,
    names: bool,
    moment: u64,
    facts: &ReplyFacts,
) -> Result<(), Cause>
    ensures { AskedFor is_rule (AnswersRequest repeats names moment facts.now) result }
{
    if is_rule {
        check_parts(repeats, names, moment, facts)
    } else {
        Ok(())
    }
}

/// Checks that a reply answers its request at this moment, in microseconds since 1970, if that is a rule. The caller has compared
/// before: `repeats` if the reply repeats the nonce, `names` if it has the names.
///
/// Fails with `Nonce`, `ReplyNames` and `ReplyTime`, in this order: the last if the ticket is not valid, give or take 300 seconds.
pub fn check_answer(
    rules: Rules,
    repeats: bool,
    names: bool,
    moment: u64,
    facts: &ReplyFacts,
) -> Result<(), Cause>
    ensures { AskedFor (has_rule rules fresh_replies) (AnswersRequest repeats names moment facts.now) result }
{
    let is_rule = rules.has(Rules::FRESH_REPLIES);
    check_by(is_rule, repeats, names, moment, facts)
}
