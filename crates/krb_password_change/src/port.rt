//! The service that changes passwords, next to a KDC.

ghost use Rattle.std.specs.Prelude.{◌≡◌, ◌≤◌, ◌^◌, IfOk, length};
ghost use Rattle.sspi_core.specs.declared.cause.Cause.TheVariants as causes;
ghost use Rattle.sspi_core.specs.Checks.{Answers, Takes};
ghost use Rattle.krb_password_change.specs.Ports.{at_port, password_url, password_kdc};

use krb_as::Kdc;
use krb_der::TryCopy;
use sspi_core::{Cause, NetworkProtocol};
use std::alloc::Global;
use url::{ParseError, Url};

/// The port of the service that changes passwords (RFC 3244, section 2).
const PASSWORD_PORT: u16 = 464;

/// Returns the URL with that port.
fn at_port(url: &Url) -> Result<Url, Cause>
    ensures { Answers (Takes causes.Port (at_port url.now)) result }
{
    let mut changed = url.clone()?;
    match changed.set_port(Some(PASSWORD_PORT)) {
        Ok(()) => Ok(changed),
        Err(ParseError::CannotSet) => Err(Cause::Port),
        Err(_) => Err(Cause::Memory),
    }
}

/// Returns the URL of the service. The URL of a proxy stays: the request to a proxy names the realm.
fn password_url(protocol: NetworkProtocol, url: &Url) -> Result<Url, Cause>
    ensures { Answers (Takes causes.Port (password_url protocol url.now)) result }
{
    match protocol {
        NetworkProtocol::Tcp | NetworkProtocol::Udp => at_port(url),
        NetworkProtocol::Http | NetworkProtocol::Https => Ok(url.clone()?),
    }
}

/// Returns the service that changes passwords next to a KDC. Fails with `Port` exactly if the KDC's URL takes no port.
pub(crate) fn password_kdc(alloc: Global, kdc: &Kdc) -> Result<Kdc, Cause>
    requires { length kdc.now.realm ≤ 2 ^ 24 }
    ensures step { Answers (Takes causes.Port (password_kdc kdc.now)) result }
    ensures realm { IfOk result (λ found. length found.realm ≤ 2 ^ 24) }
{
    let url = password_url(kdc.protocol, &kdc.url)?;
    let realm = kdc.realm.copy(alloc)?;
    Ok(Kdc {
        protocol: kdc.protocol,
        url,
        realm,
    })
}
