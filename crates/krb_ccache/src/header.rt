//! The header of a cache.

ghost use Rattle.std.specs.Prelude.{◌≡◌};
ghost use Rattle.krb_der.specs.Reading.{Gives};
ghost use Rattle.krb_ccache.specs.Header.{offset_in, FindsOffset};
ghost use Rattle.krb_ccache.specs.Reading.{field_at};

use crate::numbers::{short_lent_at, u16_at};
use krb_der::Shape;

/// How far the clock of the KDC is ahead of the client's: adding it to the client's clock gives the KDC's.
#[derive(Clone, Copy, Debug, PartialEq, Eq)]
pub struct TimeOffset {
    pub seconds: i32,
    pub microseconds: i32,
}

/// The tag of a field, its value and what follows it.
#[tactic(auto, unfolding(crate::specs::Reading::field_at))]
fn field_at(octets: &[u8]) -> Result<(u16, &[u8], &[u8]), Shape>
    ensures { Gives (λ x. ((x.0, x.1.now), x.2.now)) result (field_at octets.now) }
{
    let (tag, rest) = u16_at(octets)?;
    let (value, rest) = short_lent_at(rest)?;
    Ok((tag, value, rest))
}

/// The time offset of a field of eight octets.
fn offset_in(value: &[u8]) -> Option<TimeOffset>
    ensures { result ≡ offset_in value.now }
{
    match value {
        [a, b, c, d, e, f, g, h] => Some(TimeOffset {
            seconds: i32::from_be_bytes([*a, *b, *c, *d]),
            microseconds: i32::from_be_bytes([*e, *f, *g, *h]),
        }),
        _ => None,
    }
}

/// The time offset of the first field of tag 1.
pub fn find_offset(header: &[u8]) -> Option<TimeOffset>
    ensures { FindsOffset header.now result }
{
    let mut rest = header;
    while let Ok((tag, value, behind)) = field_at(rest) {
        if tag == 1 {
            return offset_in(value);
        }
        rest = behind;
    }
    None
}
