//! The ETYPE-INFO2 of a KDC.

ghost use Rattle.std.specs.Prelude.{◌≡◌};
ghost use Rattle.std.specs.Option.{option_copied};
ghost use Rattle.sspi_core.specs.declared.cause.Cause.TheVariants as causes;
ghost use Rattle.sspi_core.specs.Checks.{Answers, Finds};
ghost use Rattle.krb_replies.specs.Hints.{etype_info2, IsInfo2};

use crate::unseal::read_or;
use krb_der::Items;
use krb_exchange::{EtypeInfo2Entry, PaData};
use sspi_core::Cause;
use std::alloc::Global;

/// The type of an ETYPE-INFO2, 19, by the octets of its INTEGER (RFC 4120, section 5.2.7).
const ETYPE_INFO2: [u8; 1] = [0x13];

/// Returns the first ETYPE-INFO2 among elements of pre-authentication.
fn etype_info2(elements: &[PaData]) -> Option<&PaData>
    ensures { option_copied result ≡ etype_info2 elements.entry.now }
{
    for element in elements {
        if element.padata_type.as_slice() == ETYPE_INFO2.as_slice() {
            return Some(element);
        }
    }
    None
}

/// Returns the entries of an ETYPE-INFO2, None if there is none.
pub(crate) fn entries_in(
    alloc: Global,
    elements: &[PaData],
) -> Result<Option<Items<EtypeInfo2Entry>>, Cause>
    ensures { Answers (Finds causes.Shape (IsInfo2 (etype_info2 elements.now))) result }
{
    match etype_info2(elements) {
        None => Ok(None),
        Some(element) => match read_or(alloc, element.padata_value.as_slice(), Cause::Shape) {
            Ok(entries) => Ok(Some(entries)),
            Err(cause) => Err(cause),
        },
    }
}
