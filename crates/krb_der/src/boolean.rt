//! The contents of a BOOLEAN (X.690 8.2 and 11.1).

ghost use Rattle.std.specs.Prelude.{◌≡◌};
ghost use Rattle.krb_der.specs.Schema.{boolean_octets as octets_of};
ghost use Rattle.krb_der.specs.Reading.{Gives};
ghost use Rattle.krb_der.specs.Records.{boolean_in};

use crate::shape::Shape;

/// FF is true, 00 is false, and nothing else is either.
pub fn boolean(contents: &[u8]) -> Result<bool, Shape>
    ensures { Gives (λ b. b) result (boolean_in contents.now) }
{
    match contents {
        [0xff] => Ok(true),
        [0x00] => Ok(false),
        _ => Err(Shape),
    }
}

pub fn boolean_octets(value: bool) -> [u8; 1]
    ensures { result ≡ octets_of value }
{
    if value { [0xff] } else { [0x00] }
}
