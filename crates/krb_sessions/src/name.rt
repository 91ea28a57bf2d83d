//! A client's name as text.

ghost use Rattle.std.specs.Prelude.{◌≡◌, ◌∷◌, ◌++◌, IfOk};
ghost use Rattle.sspi_core.specs.Usernames.{backslash};
ghost use Rattle.krb_sessions.specs.Gives.{name_text};

use krb_der::{Octets, OutOfMemory};
use sspi_core::{Username, UsernameParts};
use std::alloc::Global;

/// Returns `DOMAIN\account`.
fn down_level(alloc: Global, domain: &str, account: &str) -> Result<Octets, OutOfMemory>
    ensures { IfOk result (λ text. text ≡ domain.now ++ backslash ∷ account.now) }
{
    let mut text = Vec::from_slice(alloc, domain.as_bytes())?;
    text.push(b'\\')?;
    text.extend_from_slice(account.as_bytes())?;
    Ok(Octets::new(text))
}

/// Returns the name as text in UTF-8: `account@suffix`, `DOMAIN\account`, or an account alone.
pub(crate) fn name_text(alloc: Global, name: &Username) -> Result<Octets, OutOfMemory>
    ensures { IfOk result (λ text. text ≡ name_text name.now) }
{
    match name.parts() {
        UsernameParts::UserPrincipalName(parts) => {
            Octets::from_slice(alloc, parts.upn().as_bytes())
        }
        UsernameParts::DownLevelLogonName(parts) => match parts.netbios_domain() {
            Some(domain) => down_level(alloc, domain, parts.account_name()),
            None => Octets::from_slice(alloc, parts.account_name().as_bytes()),
        },
    }
}
