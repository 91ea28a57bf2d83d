//! An INTEGER of as few octets as possible.

ghost use Rattle.std.specs.Prelude.{◌≡◌, ◌<◌, IfOk};
ghost use Rattle.krb_refusals.specs.Integers.{shortest};

use krb_der::{IntegerAsn1, OutOfMemory};
use krb_requests::integer_of;
use std::alloc::Global;

/// Returns the shortest INTEGER of a number under 2^23 (X.690, section 8.3.2).
#[tactic(auto, unfolding(crate::specs::Integers::shortest))]
pub(crate) fn shortest(alloc: Global, number: u32) -> Result<IntegerAsn1, OutOfMemory>
    requires { number < 8388608 }
    ensures { IfOk result (λ made. made ≡ shortest number) }
{
    let low = (number % 0x100) as u8;
    if number < 0x80 {
        integer_of(alloc, &[low])
    } else if number < 0x8000 {
        integer_of(alloc, &[(number / 0x100) as u8, low])
    } else {
        integer_of(
            alloc,
            &[
                (number / 0x1_0000) as u8,
                (number / 0x100 % 0x100) as u8,
                low,
            ],
        )
    }
}
