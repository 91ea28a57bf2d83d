//! The two requests of an AS exchange (RFC 4120, sections 3.1.1 and 5.4.1).

ghost use Rattle.std.specs.Prelude.{◌≡◌, ◌≤◌, ◌^◌, length, IfOk};
ghost use Rattle.krb_der.specs.Layout.{items_layout};
ghost use Rattle.krb_crypto.specs.Suite.{key_size};
ghost use Rattle.krb_exchange.specs.Layouts.{pa_data_layout, kdc_req_body_layout};
ghost use Rattle.sspi_core.specs.Moments.{last_moment};
ghost use Rattle.krb_requests.specs.Pieces.{Fits};
ghost use Rattle.krb_requests.specs.Bodies.{as_req_with};
ghost use Rattle.krb_as.specs.Asked.{asks, first_request, second_request};

use crate::kdc::Kdc;
use crate::sending::request_to;
use krb_crypto::CipherSuite;
use krb_der::{Asn1, Items, Octets, OutOfMemory, TryCopy};
use krb_exchange::{KdcReqBody, PaData};
use krb_requests::{generate_as_req, plain_pa_datas, timed_pa_datas};
use sspi_core::Draw;
use sspi_generator::NetworkRequest;
use std::alloc::Global;

/// An AS-REQ to a KDC, and its body again: the request is written from the body itself, so nothing is copied.
fn asks(
    alloc: Global,
    kdc: &Kdc,
    pa_datas: Items<PaData>,
    body: KdcReqBody,
) -> Result<(NetworkRequest, KdcReqBody), OutOfMemory>
    requires pa_datas { Fits (items_layout pa_data_layout) (2 ^ 12) pa_datas }
    requires body { Fits kdc_req_body_layout (2 ^ 28) body }
    requires realm { length kdc.now.realm ≤ 2 ^ 24 }
    ensures { IfOk result (λ asked. asked ≡ (asks kdc.now (as_req_with pa_datas body), body)) }
{
    let as_req = generate_as_req(alloc, pa_datas, body)?;
    let octets = as_req.write(alloc)?;
    let request = request_to(alloc, kdc, octets)?;
    Ok((request, as_req.0.req_body))
}

/// The first request, without pre-authentication, and its body.
#[tactic(auto, unfolding(crate::specs::Asked::first_request))]
pub(crate) fn first_request(
    alloc: Global,
    kdc: &Kdc,
    body: KdcReqBody,
) -> Result<(NetworkRequest, KdcReqBody), OutOfMemory>
    requires body { Fits kdc_req_body_layout (2 ^ 28) body }
    requires realm { length kdc.now.realm ≤ 2 ^ 24 }
    ensures { IfOk result (λ asked. asked ≡ (first_request kdc.now body, body)) }
{
    let pa_datas = plain_pa_datas(alloc)?;
    asks(alloc, kdc, pa_datas, body)
}

/// The second request, with the time sealed under this key, and a copy of its body.
#[tactic(auto, unfolding(crate::specs::Asked::second_request))]
pub(crate) fn second_request(
    alloc: Global,
    suite: CipherSuite,
    key: &Octets,
    draw: &Draw,
    kdc: &Kdc,
    body: &KdcReqBody,
) -> Result<(NetworkRequest, KdcReqBody), OutOfMemory>
    requires key { length key.now ≡ key_size suite }
    requires moment { draw.now.moment ≤ last_moment }
    requires body { Fits kdc_req_body_layout (2 ^ 28) body.now }
    requires realm { length kdc.now.realm ≤ 2 ^ 24 }
    ensures { IfOk result (λ asked. asked ≡ (second_request suite key.now draw.now kdc.now body.now, body.now)) }
{
    let pa_datas = timed_pa_datas(alloc, suite, key.as_slice(), draw.moment, draw.octets(0))?;
    let body = body.copy(alloc)?;
    asks(alloc, kdc, pa_datas, body)
}
