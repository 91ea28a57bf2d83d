//! Single values at the front of octets.

ghost use Rattle.std.specs.Prelude.{◌≡◌, ◌≤ℤ◌, pos, negsuc, IfOk, OnErr};
ghost use Rattle.krb_der.specs.Reading.{Gives};
ghost use Rattle.krb_der.specs.Records.{next_of, value_in};
ghost use Rattle.krb_der.specs.Schema as kinds;
ghost use Rattle.krb_der.specs.Schema.{ValueNext, NoValueNext};

use crate::boolean::boolean;
use crate::name::is_ascii;
use crate::reader::split_value;
use crate::shape::Shape;
use crate::time::Time;

/// The contents of an INTEGER, which has an octet or more at the front, and the octets after it.
#[tactic(auto, unfolding(crate::specs::Records::value_in, crate::specs::Records::next_of))]
fn integer_contents(octets: &[u8]) -> Result<(&[u8], &[u8]), Shape>
    ensures { Gives (λ x. (x.0.now, x.1.now)) result (next_of 0x02 (value_in kinds.integer) octets.now) }
{
    let (contents, rest) = split_value(octets, 0x02)?;
    if contents.is_empty() {
        return Err(Shape);
    }
    Ok((contents, rest))
}

/// Returns the contents of the INTEGER at the front, and the octets after it. Fails with `Shape` if there is none.
pub fn integer_at(octets: &[u8]) -> Result<(&[u8], &[u8]), Shape>
    ensures found { IfOk result (λ x. ValueNext kinds.integer x.0.now octets.now x.1.now) }
    ensures none { OnErr result (NoValueNext kinds.integer octets.now) }
    ensures exact { Gives (λ x. (x.0.now, x.1.now)) result (next_of 0x02 (value_in kinds.integer) octets.now) }
{
    integer_contents(octets)
}

/// The contents of an OCTET STRING at the front, and the octets after it.
#[tactic(auto, unfolding(crate::specs::Records::value_in, crate::specs::Records::next_of))]
fn octets_contents(octets: &[u8]) -> Result<(&[u8], &[u8]), Shape>
    ensures { Gives (λ x. (x.0.now, x.1.now)) result (next_of 0x04 (value_in kinds.octet_string) octets.now) }
{
    split_value(octets, 0x04)
}

/// Returns the contents of the OCTET STRING at the front, and the octets after it. Fails with `Shape` if there is none.
pub fn octets_at(octets: &[u8]) -> Result<(&[u8], &[u8]), Shape>
    ensures found { IfOk result (λ x. ValueNext kinds.octet_string x.0.now octets.now x.1.now) }
    ensures none { OnErr result (NoValueNext kinds.octet_string octets.now) }
    ensures exact { Gives (λ x. (x.0.now, x.1.now)) result (next_of 0x04 (value_in kinds.octet_string) octets.now) }
{
    octets_contents(octets)
}

/// The contents of a GeneralString, each octet of which is below 80 hex at the front, and the octets after it.
#[tactic(auto, unfolding(crate::specs::Records::value_in, crate::specs::Records::next_of))]
fn text_contents(octets: &[u8]) -> Result<(&[u8], &[u8]), Shape>
    ensures { Gives (λ x. (x.0.now, x.1.now)) result (next_of 0x1b (value_in kinds.text) octets.now) }
{
    let (contents, rest) = split_value(octets, 0x1b)?;
    if !is_ascii(contents) {
        return Err(Shape);
    }
    Ok((contents, rest))
}

/// Returns the contents of the GeneralString at the front, and the octets after it. Fails with `Shape` if there is none.
pub fn text_at(octets: &[u8]) -> Result<(&[u8], &[u8]), Shape>
    ensures found { IfOk result (λ x. ValueNext kinds.text x.0.now octets.now x.1.now) }
    ensures none { OnErr result (NoValueNext kinds.text octets.now) }
    ensures exact { Gives (λ x. (x.0.now, x.1.now)) result (next_of 0x1b (value_in kinds.text) octets.now) }
{
    text_contents(octets)
}

/// The contents of a BIT STRING: how many bits of its last octet are unused, and its octets at the front, and the octets after it.
#[tactic(auto, unfolding(crate::specs::Records::value_in, crate::specs::Records::next_of))]
fn bits_contents(octets: &[u8]) -> Result<((u8, &[u8]), &[u8]), Shape>
    ensures { Gives (λ x. ((x.0.0, x.0.1.now), x.1.now)) result (next_of 0x03 (value_in kinds.bits) octets.now) }
{
    let (contents, rest) = split_value(octets, 0x03)?;
    match contents {
        [unused @ 0..=7, octets @ ..] => Ok(((*unused, octets), rest)),
        _ => Err(Shape),
    }
}

/// Returns the unused bits and octets of the BIT STRING at the front, and the octets after it. Fails with `Shape` if there is none.
pub fn bits_at(octets: &[u8]) -> Result<((u8, &[u8]), &[u8]), Shape>
    ensures found { IfOk result (λ x. ValueNext kinds.bits (x.0.0, x.0.1.now) octets.now x.1.now) }
    ensures none { OnErr result (NoValueNext kinds.bits octets.now) }
    ensures exact { Gives (λ x. ((x.0.0, x.0.1.now), x.1.now)) result (next_of 0x03 (value_in kinds.bits) octets.now) }
{
    bits_contents(octets)
}

/// The contents of a GeneralizedTime at the front, and the octets after it.
#[tactic(auto, unfolding(crate::specs::Records::value_in, crate::specs::Records::next_of))]
fn time_contents(octets: &[u8]) -> Result<(i64, &[u8]), Shape>
    ensures exact { Gives (λ x. (x.0, x.1.now)) result (next_of 0x18 (value_in kinds.time) octets.now) }
    ensures from { IfOk result (λ x. negsuc 62_167_219_199 ≤ℤ x.0) }
    ensures to { IfOk result (λ x. x.0 ≤ℤ pos 253_402_300_799) }
{
    let (contents, rest) = split_value(octets, 0x18)?;
    let time = Time::from_octets(contents)?;
    Ok((time.seconds(), rest))
}

/// Returns the seconds of the GeneralizedTime at the front, and the octets after it. Fails with `Shape` if there is none.
pub fn time_at(octets: &[u8]) -> Result<(i64, &[u8]), Shape>
    ensures found { IfOk result (λ x. ValueNext kinds.time x.0 octets.now x.1.now) }
    ensures none { OnErr result (NoValueNext kinds.time octets.now) }
    ensures exact { Gives (λ x. (x.0, x.1.now)) result (next_of 0x18 (value_in kinds.time) octets.now) }
    ensures from { IfOk result (λ x. negsuc 62_167_219_199 ≤ℤ x.0) }
    ensures to { IfOk result (λ x. x.0 ≤ℤ pos 253_402_300_799) }
{
    time_contents(octets)
}

/// The contents of a BOOLEAN at the front, and the octets after it.
#[tactic(auto, unfolding(crate::specs::Records::value_in, crate::specs::Records::next_of))]
fn boolean_contents(octets: &[u8]) -> Result<(bool, &[u8]), Shape>
    ensures { Gives (λ x. (x.0, x.1.now)) result (next_of 0x01 (value_in kinds.boolean) octets.now) }
{
    let (contents, rest) = split_value(octets, 0x01)?;
    let value = boolean(contents)?;
    Ok((value, rest))
}

/// Returns the value of the BOOLEAN at the front, and the octets after it. Fails with `Shape` if there is none.
pub fn boolean_at(octets: &[u8]) -> Result<(bool, &[u8]), Shape>
    ensures found { IfOk result (λ x. ValueNext kinds.boolean x.0 octets.now x.1.now) }
    ensures none { OnErr result (NoValueNext kinds.boolean octets.now) }
    ensures exact { Gives (λ x. (x.0, x.1.now)) result (next_of 0x01 (value_in kinds.boolean) octets.now) }
{
    boolean_contents(octets)
}
