//! Arguments that have to be of a form.

ghost use Rattle.std.specs.Prelude.{◌≡◌, ◌≢◌, ◌≤◌, ◌<◌, true, false, length, IfOk, IfErr, OnOk, OnErr};
ghost use Rattle.sspi_core.specs.Moments.{last_moment};
ghost use Rattle.krb_c.specs.declared.reply.Failure.TheVariants as failures;
ghost use Rattle.krb_c.specs.Calls.{draw_of};
ghost use Rattle.krb_c.specs.Failures.{IsNoDraw, IsNoText, IsUnfilled, IsWant, RefusedAs, has_key_length};

use crate::accept::Moment;
use crate::reply::Failure;
use krb_entrance::{Draw, Error, MAX_MOMENT, Octets};
use std::alloc::Global;

/// Returns the bytes as text.
pub(crate) fn text_of(octets: &[u8]) -> Result<&str, Failure>
    ensures text { IfOk result (λ text. text.now ≡ octets.now) }
    ensures failure { IfErr result (λ failure. failure ≡ failures.Argument) }
    ensures unfit { OnErr result (IsNoText octets.now) }
{
    match std::str::from_utf8(octets) {
        Ok(text) => Ok(text),
        Err(_) => Err(Failure::Argument),
    }
}

/// Returns a key, if it has the length of one of the two suites.
pub(crate) fn key_of(alloc: Global, key: &[u8]) -> Result<Octets, Failure>
    ensures key { IfOk result (λ copy. copy ≡ key.now) }
    ensures fits { OnOk result (has_key_length key.now ≡ true) }
    ensures fails { IfErr result (RefusedAs (has_key_length key.now ≡ false) IsWant) }
{
    if key.len() != 16 && key.len() != 32 {
        return Err(Failure::Argument);
    }
    match Octets::from_slice(alloc, key) {
        Ok(key) => Ok(key),
        Err(error) => Err(Failure::Refused(Error::from(error))),
    }
}

/// Returns a confounder, if it has 16 bytes.
pub(crate) fn confounder_of(octets: &[u8]) -> Result<[u8; 16], Failure>
    ensures same { IfOk result (λ confounder. confounder ≡ octets.now) }
    ensures failure { IfErr result (λ failure. failure ≡ failures.Argument) }
    ensures unfit { OnErr result (length octets.now ≢ 16) }
{
    if octets.len() != 16 {
        return Err(Failure::Argument);
    }
    let mut confounder = [0; 16];
    confounder.copy_from_slice(octets);
    Ok(confounder)
}

/// Returns a first sequence number, if it has 4 bytes.
pub(crate) fn number_of(octets: &[u8]) -> Result<[u8; 4], Failure>
    ensures same { IfOk result (λ number. number ≡ octets.now) }
    ensures failure { IfErr result (λ failure. failure ≡ failures.Argument) }
    ensures unfit { OnErr result (length octets.now ≢ 4) }
{
    if octets.len() != 4 {
        return Err(Failure::Argument);
    }
    let mut number = [0; 4];
    number.copy_from_slice(octets);
    Ok(number)
}

/// Returns an encryption type, if it is at most 255.
pub(crate) fn etype_of(etype: u32) -> Result<u8, Failure>
    ensures same { IfOk result (λ small. small ≡ etype) }
    ensures failure { IfErr result (λ failure. failure ≡ failures.Argument) }
    ensures unfit { OnErr result (255 < etype) }
{
    if 255 < etype {
        return Err(Failure::Argument);
    }
    Ok(etype as u8)
}

/// Returns a moment as the library has it, if it is in range and its random bytes are filled.
pub(crate) fn draw_of(moment: &Moment) -> Result<Draw, Failure>
    ensures same { IfOk result (λ draw. draw ≡ draw_of moment.now) }
    ensures in_range { OnOk result (moment.now.moment ≤ last_moment) }
    ensures filled { OnOk result (IsUnfilled moment.now.random → ⊥) }
    ensures failure { IfErr result (λ failure. failure ≡ failures.Argument) }
    ensures unfit { OnErr result (IsNoDraw (draw_of moment.now)) }
{
    if MAX_MOMENT < moment.moment {
        return Err(Failure::Argument);
    }
    filled_draw(moment)
}

/// Returns a moment as the library has it, if its random bytes are not all 0, for a call that checks itself whether it is in range.
pub(crate) fn filled_draw(moment: &Moment) -> Result<Draw, Failure>
    ensures same { IfOk result (λ draw. draw ≡ draw_of moment.now) }
    ensures filled { OnOk result (IsUnfilled moment.now.random → ⊥) }
    ensures failure { IfErr result (λ failure. failure ≡ failures.Argument) }
    ensures unfit { OnErr result (IsUnfilled moment.now.random) }
{
    if moment.random == [0; 64] {
        return Err(Failure::Argument);
    }
    Ok(Draw {
        moment: moment.moment,
        random: moment.random,
    })
}
