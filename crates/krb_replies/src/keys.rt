//! The keys in the replies of a KDC.

ghost use Rattle.std.specs.Prelude.{◌≡◌, ◌&&◌, true};
ghost use Rattle.sspi_core.specs.declared.cause.Cause.TheVariants as causes;
ghost use Rattle.sspi_core.specs.Checks.{Answers, Finds};
ghost use Rattle.krb_crypto.specs.Password.{password_key};
ghost use Rattle.krb_context.specs.Rules.{has_rule, as_rep_tagged_26, suite_of_each_key};
ghost use Rattle.krb_context.specs.Params.{suite_of};
ghost use Rattle.krb_replies.specs.Told.{Tells};
ghost use Rattle.krb_replies.specs.Keys.{is_tagged_26, IsFirstPart, OpensFirst, HasSuite, key_in, TakesKey, BringsFirst, BringsNext, BringsKey, HandsOnKey};

use crate::facts::ReplyFacts;
use crate::told::tell;
use crate::unseal::{OWN_KEY, SESSION_KEY, open, read_inner, suite_of, unseal};
use krb_context::{EncryptionParams, Rules};
use krb_crypto::{CipherSuite, generate_key_from_password};
use krb_der::{IntegerAsn1, Octets};
use krb_exchange::{AsRep, EncAsRepPart, EncKdcRepPart, EncTgsRepPart, TgsRep};
use krb_messages::constants::{AS_REP_USAGE, TGS_REP_USAGE};
use sspi_core::{Cause, Error, Secret, take};
use std::alloc::Global;

/// The key in a reply of a KDC, and the rest of the reply's encrypted part.
#[derive(Drop)]
pub struct ReplyKey {
    /// The suite of the key.
    pub suite: CipherSuite,
    /// The session key of the ticket.
    pub key: Secret<Octets>,
    pub facts: ReplyFacts,
}

/// The application tag of an EncTGSRepPart, 26 (RFC 4120, section 5.4.2).
const TAG_26: u8 = 0x7a;

fn is_tagged_26(plain: &Octets) -> bool
    ensures { result ≡ is_tagged_26 plain.now }
{
    match plain.as_slice() {
        [] => false,
        [tag, ..] => *tag == TAG_26,
    }
}

/// Returns whether a plain text is to be read by the tag of an EncTGSRepPart.
fn is_allowed_tag(rules: Rules, plain: &Octets) -> bool
    ensures { result ≡ (has_rule rules as_rep_tagged_26 && is_tagged_26 plain.now) }
{
    rules.has(Rules::AS_REP_TAGGED_26) && is_tagged_26(plain)
}

/// Reads the fields of an EncTGSRepPart as those of an EncASRepPart.
fn read_tagged_26(alloc: Global, plain: &Octets) -> Result<EncAsRepPart, Cause>
    ensures { Answers (Finds causes.Inner (IsFirstPart true plain.now)) result }
{
    let part = read_inner::<EncTgsRepPart>(alloc, plain)?;
    let EncTgsRepPart(part) = part;
    Ok(EncAsRepPart(part))
}

fn read_first(alloc: Global, is_tagged: bool, plain: &Octets) -> Result<EncAsRepPart, Cause>
    ensures { Answers (Finds causes.Inner (IsFirstPart is_tagged plain.now)) result }
{
    if is_tagged {
        read_tagged_26(alloc, plain)
    } else {
        read_inner(alloc, plain)
    }
}

/// Reads the plain text of an AS-REP, by its tag.
fn first_part(alloc: Global, rules: Rules, plain: &Octets) -> Result<EncAsRepPart, Cause>
    ensures { let is_tagged = has_rule rules as_rep_tagged_26 && is_tagged_26 plain.now in
        Answers (Finds causes.Inner (IsFirstPart is_tagged plain.now)) result }
{
    let is_tagged = is_allowed_tag(rules, plain);
    read_first(alloc, is_tagged, plain)
}

fn open_first(
    alloc: Global,
    rules: Rules,
    suite: CipherSuite,
    key: &[u8],
    text: &[u8],
) -> Result<EncAsRepPart, Cause>
    ensures { Answers (OpensFirst rules suite key.now text.now) result }
{
    let plain = unseal(alloc, OWN_KEY, suite, key, AS_REP_USAGE, text)?;
    first_part(alloc, rules, &plain)
}

fn suite_by(is_own: bool, suite: CipherSuite, key_type: &IntegerAsn1) -> Result<CipherSuite, Cause>
    ensures { HasSuite is_own suite key_type.now result }
{
    if is_own {
        take(suite_of(key_type), Cause::Etype)
    } else {
        Ok(suite)
    }
}

/// Returns the suite of a key: `suite`, or, under the rule that each key goes by its own suite, the one that its type names.
fn suite_of_key(
    rules: Rules,
    suite: CipherSuite,
    key_type: &IntegerAsn1,
) -> Result<CipherSuite, Cause>
    ensures { HasSuite (has_rule rules suite_of_each_key) suite key_type.now result }
{
    let is_own = rules.has(Rules::SUITE_OF_EACH_KEY);
    suite_by(is_own, suite, key_type)
}

/// Returns the key in this suite, with the rest of the part.
fn key_in(suite: CipherSuite, part: EncKdcRepPart) -> ReplyKey
    ensures { result ≡ key_in suite part }
{
    let key = part.key;
    ReplyKey {
        suite,
        key: Secret::new(key.key_value),
        facts: ReplyFacts {
            nonce: part.nonce,
            flags: part.flags,
            authtime: part.authtime,
            starttime: part.starttime,
            endtime: part.endtime,
            renew_till: part.renew_till,
            srealm: part.srealm,
            sname: part.sname,
        },
    }
}

/// Returns the key in its suite.
fn taken_key(rules: Rules, suite: CipherSuite, part: EncKdcRepPart) -> Result<ReplyKey, Cause>
    ensures { Answers (TakesKey rules suite part) result }
{
    let own = suite_of_key(rules, suite, &part.key.key_type)?;
    Ok(key_in(own, part))
}

/// Returns the key in an AS-REP, as a chain of checks. The plain text may have application tag 26 if a rule allows that, and the
/// key goes by its own suite if a rule says so.
pub fn key_in_as_rep(
    alloc: Global,
    rules: Rules,
    suite: CipherSuite,
    key: &[u8],
    as_rep: &AsRep,
) -> Result<ReplyKey, Cause>
    ensures { Answers (BringsFirst rules suite key.now as_rep.now) result }
{
    let text = as_rep.0.enc_part.cipher.as_slice();
    let part = open_first(alloc, rules, suite, key, text)?;
    let EncAsRepPart(part) = part;
    taken_key(rules, suite, part)
}

/// Returns the key in a TGS-REP, as a chain of checks. The key goes by its own suite if a rule says so.
pub fn key_in_tgs_rep(
    alloc: Global,
    rules: Rules,
    suite: CipherSuite,
    key: &[u8],
    tgs_rep: &TgsRep,
) -> Result<ReplyKey, Cause>
    ensures { Answers (BringsNext rules suite key.now tgs_rep.now) result }
{
    let text = tgs_rep.0.enc_part.cipher.as_slice();
    let part = open::<EncTgsRepPart>(alloc, SESSION_KEY, suite, key, TGS_REP_USAGE, text)?;
    let EncTgsRepPart(part) = part;
    taken_key(rules, suite, part)
}

/// Returns the octets of the key in an AS-REP, without rules.
fn session_key_in_as_rep(
    alloc: Global,
    suite: CipherSuite,
    key: &[u8],
    as_rep: &AsRep,
) -> Result<Secret<Octets>, Cause>
    ensures { Answers (BringsKey suite key.now as_rep.now) result }
{
    let rules = Rules::none();
    let brought = key_in_as_rep(alloc, rules, suite, key, as_rep)?;
    Ok(brought.key)
}

/// Returns the octets of the key in a TGS-REP, without rules.
fn session_key_in_tgs_rep(
    alloc: Global,
    suite: CipherSuite,
    key: &[u8],
    tgs_rep: &TgsRep,
) -> Result<Secret<Octets>, Cause>
    ensures { Answers (HandsOnKey suite key.now tgs_rep.now) result }
{
    let rules = Rules::none();
    let brought = key_in_tgs_rep(alloc, rules, suite, key, tgs_rep)?;
    Ok(brought.key)
}

/// Returns the session key of the ticket in an AS-REP. The AS-REP is encrypted under the key of this password and salt, in the
/// parameters' suite (AES-256 if they have none), with usage 3 (RFC 4120, section 3.1.5).
///
/// Fails with DecryptFailure Short if the encrypted part has under 28 octets, with MessageAltered Altered if it does not decrypt
/// under that key, with InvalidToken Inner if its plain text is no EncASRepPart.
#[tactic(auto, using(crate::proofs::Telling::tells))]
pub fn extract_session_key_from_as_rep(
    alloc: Global,
    as_rep: &AsRep,
    salt: &str,
    password: &str,
    enc_params: &EncryptionParams,
) -> Result<Secret<Octets>, Error>
    ensures { let suite = suite_of enc_params.now in
        Tells (BringsKey suite (password_key suite password.now salt.now) as_rep.now) result }
{
    let suite = enc_params.suite();
    let key = generate_key_from_password(suite, password.as_bytes(), salt.as_bytes());
    tell(session_key_in_as_rep(alloc, suite, key.as_slice(), as_rep))
}

/// Returns the session key of the ticket in an AS-REP that is encrypted under `key`. Fails with InvalidParameter KeyLength if the
/// key has not the length of the suite's keys, then as `extract_session_key_from_as_rep`.
#[tactic(auto, using(crate::proofs::Telling::tells))]
pub fn extract_session_key_from_as_rep_with_key(
    alloc: Global,
    as_rep: &AsRep,
    key: &[u8],
    enc_params: &EncryptionParams,
) -> Result<Secret<Octets>, Error>
    ensures { Tells (BringsKey (suite_of enc_params.now) key.now as_rep.now) result }
{
    tell(session_key_in_as_rep(alloc, enc_params.suite(), key, as_rep))
}

/// Returns the session key of the ticket in a TGS-REP. The TGS-REP is encrypted under the session key of the ticket that was
/// shown, in the parameters' suite (AES-256 if they have none), with usage 8 (RFC 4120, section 3.3.4).
///
/// Fails with DecryptFailure Reply if it does not decrypt so, with InvalidToken Inner if its plain text is no EncTGSRepPart.
#[tactic(auto, using(crate::proofs::Telling::tells))]
pub fn extract_session_key_from_tgs_rep(
    alloc: Global,
    tgs_rep: &TgsRep,
    session_key: &Secret<Octets>,
    enc_params: &EncryptionParams,
) -> Result<Secret<Octets>, Error>
    ensures { Tells (HandsOnKey (suite_of enc_params.now) session_key.now tgs_rep.now) result }
{
    let key = session_key.as_ref().as_slice();
    tell(session_key_in_tgs_rep(alloc, enc_params.suite(), key, tgs_rep))
}
