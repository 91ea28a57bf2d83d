//! The body of a client's first request to a KDC.

ghost use Rattle.std.specs.Prelude.{◌≡◌, ◌≤◌, ◌^◌, IfOk, length, map};
ghost use Rattle.sspi_core.specs.Moments.{last_moment};
ghost use Rattle.krb_exchange.specs.Layouts.{kdc_req_body_layout};
ghost use Rattle.krb_requests.specs.Pieces.{Fits};
ghost use Rattle.krb_as.specs.Clients.{IsShort};
ghost use Rattle.krb_as.specs.FirstBodies.{service_components, first_body};

use crate::client::Client;
use krb_der::OutOfMemory;
use krb_exchange::KdcReqBody;
use krb_requests::{GenerateAsReqOptions, as_req_body};
use sspi_core::{ClientRequestFlags, Draw};
use std::alloc::Global;

/// A service to which a KDC gives a first ticket.
#[derive(Clone, Copy, Debug, PartialEq, Eq)]
pub enum FirstService {
    /// The service of the client's realm that gives further tickets: `krbtgt` and the realm (RFC 4120, section 7.3).
    TicketGranting,
    /// The service that changes passwords: `kadmin`, `changepw` (RFC 3244, section 2).
    PasswordChange,
}

/// The components of the service's name.
fn service_components(service: FirstService, realm: &str) -> [&str; 2]
    ensures { map (λ part. part.now) result ≡ service_components service realm.entry.now }
{
    match service {
        FirstService::TicketGranting => ["krbtgt", realm],
        FirstService::PasswordChange => ["kadmin", "changepw"],
    }
}

/// Returns the body of a client's first AS-REQ (RFC 4120, section 5.4.1), as `generate_as_req_kdc_body` makes it with the draw of
/// a step. No name of a [`Client`] is past ASCII, so that call has nothing to refuse.
pub fn first_body(
    alloc: Global,
    client: &Client,
    service: FirstService,
    flags: ClientRequestFlags,
    draw: &Draw,
) -> Result<KdcReqBody, OutOfMemory>
    requires short { IsShort client.now }
    requires moment { draw.now.moment ≤ last_moment }
    ensures made { IfOk result (λ body. body ≡ first_body client.now service flags.0 draw.now) }
    ensures fits { IfOk result (λ body. Fits kdc_req_body_layout (2 ^ 28) body) }
{
    let snames = service_components(service, client.realm.as_str());
    let options = GenerateAsReqOptions {
        realm: client.realm.as_str(),
        username: client.name.as_str(),
        cname_type: client.name_type,
        snames: &snames,
        nonce: draw.octets(0),
        hostname: client.host.as_str(),
        context_requirements: flags,
    };
    match as_req_body(alloc, &options, draw.moment) {
        Ok(body) => Ok(body),
        Err(_) => Err(OutOfMemory),
    }
}
