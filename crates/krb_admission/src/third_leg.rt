//! The third leg of DCE style: the initiator's AP-REP in answer to the acceptor's (MS-KILE, section 3.4.5.1).

ghost use Rattle.std.specs.Prelude.{◌≡◌, Err, Result};
ghost use Rattle.std.specs.Result.{result_map_both};
ghost use Rattle.sspi_core.specs.declared.cause.Cause.TheVariants as causes;
ghost use Rattle.sspi_core.specs.Checks.{Answers, Holds, Takes};
ghost use Rattle.krb_context.specs.Params.{suite_of};
ghost use Rattle.krb_replies.specs.Answered.{TellsNumber};
ghost use Rattle.krb_admission.specs.ThirdLeg.{ReadsApRep, TellsLast, is_spelling, repeats, IsLastWord, concluded, last_answer, Concludes};

use crate::admission::Answer;
use krb_context::{Kerberos, KerberosState, Rules, ServerProperties};
use krb_der::{IntegerAsn1, Octets};
use krb_messages::ApRep;
use krb_replies::{check_token_length, extract_seq_number_from_ap_rep, has_value, read_or};
use sspi_core::{Cause, Secret, SecurityStatus, hold};
use std::alloc::Global;

/// The extra count (EC) of sealed messages in DCE style, in octets.
const EXTRA_COUNT: u16 = 16;

/// The service of an acceptor.
pub(crate) fn properties(server: &Option<ServerProperties>) -> Result<&ServerProperties, Cause>
    ensures { Takes causes.Sequence server.now (result_map_both (λ p. p.now) (λ e. e) result) }
{
    match server {
        Some(properties) => Ok(properties),
        None => Err(Cause::Sequence),
    }
}

/// The AP-REP that the token is.
fn read_ap_rep(alloc: Global, token: &[u8]) -> Result<ApRep, Cause>
    ensures { Answers (ReadsApRep token.now) result }
{
    check_token_length(token)?;
    read_or(alloc, token, Cause::Shape)
}

fn session_key(server: &Kerberos) -> Result<&Secret<Octets>, Cause>
    ensures { Takes causes.Reply server.now.encryption_params.session_key (result_map_both (λ key. key.now) (λ e. e) result) }
{
    match &server.encryption_params.session_key {
        Some(key) => Ok(key),
        None => Err(Cause::Reply),
    }
}

/// The number that is sealed in an AP-REP under the session key.
fn number_in(
    alloc: Global,
    server: &Kerberos,
    key: &Secret<Octets>,
    message: &ApRep,
) -> Result<Octets, Cause>
    ensures { Answers (TellsNumber (suite_of server.now.encryption_params) key.now message.now) result }
{
    match extract_seq_number_from_ap_rep(alloc, message, key, &server.encryption_params) {
        Ok(number) => Ok(number),
        Err(error) => Err(error.cause),
    }
}

/// Returns the sequence number in the third leg.
fn last_number(alloc: Global, server: &Kerberos, token: &[u8]) -> Result<Octets, Cause>
    ensures { Answers (TellsLast server.now token.now) result }
{
    let message = read_ap_rep(alloc, token)?;
    let key = session_key(server)?;
    number_in(alloc, server, key, &message)
}

/// Returns whether the rules allow a comparison by value and an INTEGER has this number as its value.
fn is_spelling(rules: Rules, awaited: u32, octets: &IntegerAsn1) -> bool
    ensures { result ≡ is_spelling rules awaited octets.now }
{
    rules.has(Rules::THIRD_LEG_BY_VALUE) && has_value(awaited, octets)
}

/// Returns whether a number repeats the one after this end's own.
fn repeats(rules: Rules, own: u32, number: Octets) -> bool
    ensures { result ≡ repeats rules own number }
{
    let awaited = own.wrapping_add(1);
    let number = IntegerAsn1::from_bytes_be(number.into_inner());
    let octets = awaited.to_be_bytes();
    number.as_slice() == octets.as_slice() || is_spelling(rules, awaited, &number)
}

fn check_number(rules: Rules, own: u32, number: Octets) -> Result<(), Cause>
    ensures { Holds causes.Number (repeats rules own number) result }
{
    hold(repeats(rules, own, number), Cause::Number)
}

fn check_last_word(alloc: Global, server: &Kerberos, token: &[u8]) -> Result<(), Cause>
    ensures { Answers (IsLastWord server.now token.now) result }
{
    properties(&server.server)?;
    let number = last_number(alloc, server, token)?;
    check_number(server.rules, server.seq_number, number)
}

/// The context is established. This cannot fail.
fn establish(alloc: Global, server: &mut Kerberos) -> Answer
    ensures server { server.new ≡ concluded server.old }
    ensures answer { result ≡ last_answer }
{
    server.state = KerberosState::Final;
    server.encryption_params.ec = EXTRA_COUNT;
    Answer {
        status: SecurityStatus::Ok,
        token: Octets::new(Vec::new(alloc)),
        admits: false,
    }
}

/// Judges the initiator's third leg.
pub(crate) fn conclude(alloc: Global, server: &mut Kerberos, token: &[u8]) -> Result<Answer, Cause>
    ensures step { (result ≡ Err causes.Memory → ⊥) → Concludes server.old token.now result server.new }
    ensures memory { result ≡ Err causes.Memory → server.new ≡ server.old }
{
    check_last_word(alloc, server, token)?;
    Ok(establish(alloc, server))
}
