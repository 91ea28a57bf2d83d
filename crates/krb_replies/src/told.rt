//! From the cause of a refusal to the error of a public call.

ghost use Rattle.std.specs.Prelude.{◌≡◌};
ghost use Rattle.sspi_core.specs.Checks.{told};
ghost use Rattle.sspi_core.specs.declared.error.Place.TheVariants as places;

use sspi_core::{Cause, Error};

/// Returns the answer with its error as that of a public call: the cause, and the kind that belongs to it.
pub fn tell<T: Drop>(answer: Result<T, Cause>) -> Result<T, Error>
    ensures { result ≡ told places.Elsewhere answer }
{
    match answer {
        Ok(value) => Ok(value),
        Err(cause) => Err(Error::from(cause)),
    }
}
