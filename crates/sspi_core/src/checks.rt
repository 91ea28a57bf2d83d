//! Single checks, of which ordered refusals are made.

ghost use Rattle.sspi_core.specs.Checks.{Holds, Passes, Takes};

use crate::cause::Cause;

/// Refuses with this cause where the test fails.
pub fn hold(test: bool, cause: Cause) -> Result<(), Cause>
    ensures { Holds cause test result }
{
    if test { Ok(()) } else { Err(cause) }
}

/// The value that is there, or the refusal where there is none.
pub fn take<T: Drop>(value: Option<T>, cause: Cause) -> Result<T, Cause>
    ensures { Takes cause value result }
{
    match value {
        Some(value) => Ok(value),
        None => Err(cause),
    }
}

/// The refusal that is there.
pub fn pass(refusal: Option<Cause>) -> Result<(), Cause>
    ensures { Passes refusal result }
{
    match refusal {
        None => Ok(()),
        Some(cause) => Err(cause),
    }
}
