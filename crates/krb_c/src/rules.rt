//! The rules of a session or an initiator.

ghost use Rattle.std.specs.Prelude.{◌≡◌, true, false, ℕ, Result, IfOk, IfErr, OnOk, OnErr};
ghost use Rattle.krb_c.specs.declared.reply.Failure.{Failure};
ghost use Rattle.krb_c.specs.declared.reply.Failure.TheVariants as failures;
ghost use Rattle.krb_c.specs.Replies.{reply_of};
ghost use Rattle.krb_c.specs.Rules.{knows, rules_from, SetsSessionRules, SetsInitiatorRules, RefusesRules};
ghost use Rattle.krb_c.specs.Dialogues.{Sets};
ghost use Rattle.krb_c.specs.Failures.{SetsNot, IsNever};

use crate::handles::{Connection, Initiator};
use crate::reply::{Failure, Reply, reply_of};
use bitflags::Flags;
use krb_context::Rules;
use std::alloc::Global;

/// All rules that there are.
const ALL_RULES: u32 = 0x1f_0fff;

/// Returns the rules of these bits, if each bit names one.
fn rules_of(bits: u32) -> Result<Rules, Failure>
    ensures same { IfOk result (λ rules. rules ≡ rules_from bits) }
    ensures known { OnOk result (knows bits ≡ true) }
    ensures failure { IfErr result (λ failure. failure ≡ failures.Argument) }
    ensures unfit { OnErr result (knows bits ≡ false) }
{
    if ALL_RULES & bits != bits {
        return Err(Failure::Argument);
    }
    Ok(Rules::from_bits_retain(bits))
}

fn set_session_rules(alloc: Global, session: &mut Connection, rules: u32) -> Result<usize, Failure>
    ensures set { IfOk result (λ count. SetsSessionRules rules session.old.place.value count session.new.place.value) }
    ensures fails { IfErr result (RefusesRules rules session.old.place.value) }
    ensures stays { OnErr result (session.new.place.value ≡ session.old.place.value) }
{
    let rules = rules_of(rules)?;
    let Some(mut guest) = session.take(alloc) else {
        return Err(Failure::Handle);
    };
    guest.set_rules(rules);
    session.put(guest);
    Ok(0)
}

/// Sets the rules of a session: these bits of `Rules`, and no others. Fails with ARGUMENT if a bit names no rule. A call that fails
/// leaves the session unchanged.
#[unsafe(no_mangle)]
pub extern "C" fn mk_session_set_rules(alloc: Global, session: &mut Connection, rules: u32) -> Reply
    ensures { (answer : Result ℕ Failure) × (result ≡ reply_of answer)
        × IfOk answer (λ count. SetsSessionRules rules session.old.place.value count session.new.place.value)
        × IfErr answer (RefusesRules rules session.old.place.value)
        × OnErr answer (session.new.place.value ≡ session.old.place.value) }
{
    reply_of(set_session_rules(alloc, session, rules))
}

fn set_initiator_rules(
    alloc: Global,
    initiator: &mut Initiator,
    rules: u32,
) -> Result<usize, Failure>
    ensures set { IfOk result (λ count. Sets (SetsInitiatorRules rules) initiator.old.place.value count initiator.new.place.value) }
    ensures fails { IfErr result (SetsNot (knows rules ≡ false) IsNever initiator.old.place.value) }
    ensures stays { OnErr result (initiator.new.place.value ≡ initiator.old.place.value) }
{
    let rules = rules_of(rules)?;
    let Some(mut dialogue) = initiator.take(alloc) else {
        return Err(Failure::Handle);
    };
    dialogue.set_rules(rules);
    initiator.put(dialogue);
    Ok(0)
}

/// Sets the rules of an initiator, and of the session that it makes: these bits of `Rules`, and no others. Fails with ARGUMENT if a
/// bit names no rule.
#[unsafe(no_mangle)]
pub extern "C" fn mk_initiator_set_rules(
    alloc: Global,
    initiator: &mut Initiator,
    rules: u32,
) -> Reply
    ensures { (answer : Result ℕ Failure) × (result ≡ reply_of answer)
        × IfOk answer (λ count. Sets (SetsInitiatorRules rules) initiator.old.place.value count initiator.new.place.value)
        × IfErr answer (SetsNot (knows rules ≡ false) IsNever initiator.old.place.value)
        × OnErr answer (initiator.new.place.value ≡ initiator.old.place.value) }
{
    reply_of(set_initiator_rules(alloc, initiator, rules))
}
