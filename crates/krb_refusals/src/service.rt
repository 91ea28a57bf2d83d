//! The name of a service.

ghost use Rattle.std.specs.Prelude.{◌≡◌, map, IfOk};
ghost use Rattle.std.specs.List.{slice_split};
ghost use Rattle.sspi_core.specs.declared.cause.Cause.TheVariants as causes;
ghost use Rattle.sspi_core.specs.Checks.{Answers, Takes};
ghost use Rattle.krb_requests.specs.Bodies.{user_components};
ghost use Rattle.krb_requests.specs.Pieces.{principal_of};

use krb_der::OutOfMemory;
use krb_messages::PrincipalName;
use krb_messages::constants::NT_SRV_INST;
use krb_requests::principal_of;
use sspi_core::Cause;
use std::alloc::Global;

/// Returns the components of a service's name, which are separated by `/`.
fn components<'a>(alloc: Global, service: &'a str) -> Result<Vec<&'a str>, OutOfMemory>
    ensures { IfOk result (λ parts. map (λ part. part.now) parts.items ≡ user_components service.now) }
{
    Ok(service.split('/').collect(alloc)?)
}

/// Returns the name of a service. Fails with `NotAscii` exactly if it is not ASCII.
pub(crate) fn service_name(alloc: Global, service: &str) -> Result<PrincipalName, Cause>
    ensures { Answers (Takes causes.NotAscii (principal_of 2 (user_components service.now))) result }
{
    let parts = components(alloc, service)?;
    principal_of(alloc, NT_SRV_INST, &parts)
}
