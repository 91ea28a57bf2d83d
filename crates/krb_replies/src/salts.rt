//! The encryption type and the salt of a client's key, as a KDC names them.

ghost use Rattle.std.specs.Prelude.{◌≡◌, IfOk, unwrap_or, []};
ghost use Rattle.sspi_core.specs.declared.cause.Cause.TheVariants as causes;
ghost use Rattle.sspi_core.specs.Checks.{Answers, Finds, Takes, Gives};
ghost use Rattle.krb_replies.specs.Told.{Hands, Tells};
ghost use Rattle.krb_replies.specs.Unseals.{suite_of_integer};
ghost use Rattle.krb_replies.specs.Salts.{IsHints, first_salt, first_suite, first_hint, NamesSalt, NamesSuite, TellsEtype};

use crate::hints::entries_in;
use crate::told::tell;
use crate::unseal::{read_or, suite_of};
use krb_crypto::CipherSuite;
use krb_der::{IntegerAsn1, Items, Name, Octets, OutOfMemory, Text, TryCopy};
use krb_exchange::{AsRep, EtypeInfo2Entry, KrbError, PaData};
use sspi_core::{Cause, Error, take};
use std::alloc::Global;

fn hints_in(alloc: Global, e_data: &Option<Octets>) -> Result<Items<PaData>, Cause>
    ensures { Answers (Finds causes.Shape (IsHints e_data.now)) result }
{
    match e_data {
        None => Ok(Items::new(Vec::new(alloc))),
        Some(octets) => read_or(alloc, octets.as_slice(), Cause::Shape),
    }
}

/// Returns a name as a text.
fn text_of(alloc: Global, name: &Name) -> Result<Text, OutOfMemory>
    ensures { IfOk result (λ text. text ≡ name.now) }
{
    Text::from_str(alloc, name.as_str())
}

/// Returns the salt of the first entry.
fn first_salt(
    alloc: Global,
    entries: &Option<Items<EtypeInfo2Entry>>,
) -> Result<Option<Text>, Cause>
    ensures { Answers (Gives (first_salt entries.now)) result }
{
    let Some(entries) = entries else {
        return Ok(None);
    };
    match entries.as_slice() {
        [] => Ok(None),
        [entry, ..] => match &entry.salt {
            None => Ok(None),
            Some(salt) => Ok(Some(text_of(alloc, salt)?)),
        },
    }
}

/// Returns the salt that an error names, as a chain of checks.
pub fn named_salt(alloc: Global, error: &KrbError) -> Result<Option<Text>, Cause>
    ensures { Answers (NamesSalt error.now) result }
{
    let hints = hints_in(alloc, &error.e_data)?;
    let entries = entries_in(alloc, hints.as_slice())?;
    first_salt(alloc, &entries)
}

/// Returns the salt that a KRB-ERROR names: of the first entry of the first ETYPE-INFO2 in its `e-data`; None if there is none of
/// these, or no salt in the entry. Fails with InvalidToken Shape if the `e-data` is no SEQUENCE OF PA-DATA, or its ETYPE-INFO2
/// none of entries (RFC 4120, sections 5.2.7.5 and 5.9.1).
#[tactic(auto, using(crate::proofs::Telling::tells))]
pub fn extract_salt_from_krb_error(alloc: Global, error: &KrbError) -> Result<Option<Text>, Error>
    ensures { Tells (NamesSalt error.now) result }
{
    tell(named_salt(alloc, error))
}

/// Returns the suite of the first entry, if it is known.
fn first_suite(entries: &Option<Items<EtypeInfo2Entry>>) -> Result<Option<CipherSuite>, Cause>
    ensures { Gives (first_suite entries.now) result }
{
    let Some(entries) = entries else {
        return Ok(None);
    };
    match entries.as_slice() {
        [] => Ok(None),
        [entry, ..] => Ok(suite_of(&entry.etype)),
    }
}

/// Returns the suite that an error names: of the first entry of the first ETYPE-INFO2 in its `e-data`, if it is known. Fails as
/// `named_salt`.
pub fn named_suite(alloc: Global, error: &KrbError) -> Result<Option<CipherSuite>, Cause>
    ensures { Answers (NamesSuite error.now) result }
{
    let hints = hints_in(alloc, &error.e_data)?;
    let entries = entries_in(alloc, hints.as_slice())?;
    first_suite(&entries)
}

fn elements_of(padata: &Option<Items<PaData>>) -> &[PaData]
    ensures { result.now ≡ unwrap_or padata.now [] }
{
    match padata {
        None => &[],
        Some(elements) => elements.as_slice(),
    }
}

/// Returns the type and the salt of the first entry; without an ETYPE-INFO2 `etype` and `used_salt`.
fn first_hint(
    alloc: Global,
    etype: &IntegerAsn1,
    used_salt: &str,
    entries: Option<Items<EtypeInfo2Entry>>,
) -> Result<(IntegerAsn1, Text), Cause>
    ensures { Answers (Hands (first_hint etype.now used_salt.now entries)) result }
{
    let Some(entries) = entries else {
        return Ok((etype.copy(alloc)?, Text::from_str(alloc, used_salt)?));
    };
    match entries.as_slice() {
        [] => Err(Cause::EtypeEntry),
        [entry, ..] => match &entry.salt {
            None => Err(Cause::Salt),
            Some(salt) => Ok((entry.etype.copy(alloc)?, text_of(alloc, salt)?)),
        },
    }
}

fn suite_for(etype: &IntegerAsn1) -> Result<CipherSuite, Cause>
    ensures { Takes causes.Etype (suite_of_integer etype.now) result }
{
    take(suite_of(etype), Cause::Etype)
}

/// Returns the number of the suite and the salt, as a chain of checks.
pub fn told_etype(alloc: Global, as_rep: &AsRep, used_salt: &str) -> Result<(u8, Text), Cause>
    ensures { Answers (TellsEtype used_salt.now as_rep.now) result }
{
    let entries = entries_in(alloc, elements_of(&as_rep.0.padata))?;
    let hint = first_hint(alloc, &as_rep.0.enc_part.etype, used_salt, entries)?;
    let suite = suite_for(&hint.0)?;
    Ok((suite.number(), hint.1))
}

/// Returns the encryption type, 17 or 18, and the salt of the key that an AS-REP is encrypted under: those of the first entry of
/// its first ETYPE-INFO2; without one the type of its encrypted part and the salt that was used (RFC 4120, section 3.1.5).
///
/// Fails with InvalidToken Shape if the ETYPE-INFO2 is none of entries, with InvalidParameter EtypeEntry if it has no entry, Salt
/// if its first entry has no salt, Etype if the type is another.
#[tactic(auto, using(crate::proofs::Telling::tells))]
pub fn extract_encryption_params_from_as_rep(
    alloc: Global,
    as_rep: &AsRep,
    used_salt: &str,
) -> Result<(u8, Text), Error>
    ensures { Tells (TellsEtype used_salt.now as_rep.now) result }
{
    tell(told_etype(alloc, as_rep, used_salt))
}
