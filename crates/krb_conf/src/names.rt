//! The names of a client and of a service.

ghost use Rattle.std.specs.Prelude.{◌≡◌, IfOk, IfErr, Some, None};
ghost use Rattle.krb_conf.specs.Names.{name_type, client_name, target_parts};
ghost use Rattle.sspi_core.specs.declared.cause.Cause.TheVariants as causes;
ghost use Rattle.sspi_core.specs.declared.kind.ErrorKind.TheVariants as kinds;

use krb_der::has_octet;
use sspi_core::{Cause, Error, Username, UsernameParts};

/// The type of a name that is an account (RFC 4120 6.2).
const NT_PRINCIPAL: u8 = 1;

/// The type of a name that has its domain after an `@` (RFC 6806 5).
const NT_ENTERPRISE: u8 = 10;

/// A client's name as it is sent to a KDC.
#[derive(Clone, Copy, Debug, PartialEq, Eq)]
pub struct ClientPrincipalName<'a> {
    /// The whole user principal name, or the account.
    pub name: &'a str,
    /// The domain of the client's realm; empty where the name has none.
    pub realm_domain: &'a str,
    /// The name type: 1 for an account, 10 for an enterprise name.
    pub name_type: u8,
}

/// Returns the type of a client's name: 10 if the user name has `@`, otherwise 1, whatever the domain.
pub fn get_client_principal_name_type(username: &str, _domain: &str) -> u8
    ensures { result ≡ name_type username.now }
{
    if has_octet(username, b'@') {
        NT_ENTERPRISE
    } else {
        NT_PRINCIPAL
    }
}

/// Returns a user's name as a client's name: the whole user principal name, with its suffix; or the account
/// of a down-level name, with its domain.
pub fn get_client_principal_name(username: &Username) -> ClientPrincipalName<'_>
    ensures { (result.name.now, result.realm_domain.now, result.name_type)
        ≡ client_name username.entry.now }
{
    match username.parts() {
        UsernameParts::UserPrincipalName(parts) => ClientPrincipalName {
            name: parts.upn,
            realm_domain: parts.suffix,
            name_type: NT_ENTERPRISE,
        },
        UsernameParts::DownLevelLogonName(parts) => ClientPrincipalName {
            name: parts.account_name,
            realm_domain: parts.netbios_domain.unwrap_or(""),
            name_type: NT_PRINCIPAL,
        },
    }
}

/// Returns the service and the host of a target's name: the texts before and after its first `/`. Fails with `Target` if
/// there is no `/`, or either part is empty.
pub fn parse_target_name(target_name: &str) -> Result<(&str, &str), Error>
    ensures parts { IfOk result (λ parts. target_parts target_name.entry.now
        ≡ Some (parts.0.now, parts.1.now)) }
    ensures target { IfErr result (λ error. (target_parts target_name.entry.now ≡ None)
        × (error ≡ record { error_type = kinds.InvalidParameter; cause = causes.Target })) }
{
    match target_name.split_once('/') {
        Some((service, host)) if !service.is_empty() && !host.is_empty() => Ok((service, host)),
        _ => Err(Error::from(Cause::Target)),
    }
}
