//! AS-REQs and their bodies, and TGT-REQs.

ghost use Rattle.std.specs.Prelude.{◌≡◌, ◌≤◌, ◌^◌, IfOk, length, map};
ghost use Rattle.std.specs.List.{slice_split};
ghost use Rattle.krb_der.specs.Layout.{items_layout};
ghost use Rattle.krb_exchange.specs.Layouts.{pa_data_layout, kdc_req_body_layout, as_req_layout, tgt_req_layout};
ghost use Rattle.sspi_core.specs.declared.cause.Cause.TheVariants as causes;
ghost use Rattle.sspi_core.specs.Moments.{last_moment};
ghost use Rattle.sspi_core.specs.Checks.{Answers, Gives, Takes};
ghost use Rattle.krb_replies.specs.Told.{Tells};
ghost use Rattle.krb_requests.specs.Pieces.{Fits, principal_of};
ghost use Rattle.krb_requests.specs.Bodies.{as_req_options, user_components, as_req_body, MakesBody, as_req_with, tgt_req, MakesTgtReq, component_octets, AreShort};

use crate::maker::Maker;
use crate::options::GenerateAsReqOptions;
use crate::pieces::{etypes, integer_of, name_of, principal_of, three_days_after};
use bitflags::Flags;
use krb_der::{Bits, Items, Name, OutOfMemory};
use krb_exchange::{AsReq, KdcReq, KdcReqBody, PaData, TgtReq};
use krb_messages::constants::{
    AS_REQ_MSG_TYPE, KERBEROS_VERSION, NETBIOS_ADDRESS_TYPE, NT_SRV_INST, TGT_REQ_MSG_TYPE,
};
use krb_messages::{HostAddress, PrincipalName};
use krb_replies::tell;
use sspi_core::{Cause, ClientRequestFlags, Error};
use std::alloc::Global;

/// Returns the octets of the KDC options.
fn as_req_options(flags: ClientRequestFlags) -> [u8; 4]
    ensures { result ≡ as_req_options flags.0 }
{
    if flags.contains(ClientRequestFlags::DELEGATE) {
        [0x40, 0x81, 0x00, 0x10]
    } else {
        [0x00, 0x81, 0x00, 0x10]
    }
}

/// Returns the parts of a user's name, which is cut at each slash.
fn user_components<'a>(alloc: Global, username: &'a str) -> Result<Vec<&'a str>, OutOfMemory>
    ensures { IfOk result (λ parts. map (λ part. part.now) parts.items ≡ user_components username.now) }
{
    Ok(username.split('/').collect(alloc)?)
}

fn client_name(alloc: Global, options: &GenerateAsReqOptions<'_>) -> Result<PrincipalName, Cause>
    ensures { Answers (Takes causes.NotAscii (principal_of options.now.cname_type (user_components options.now.username.now))) result }
{
    let parts = user_components(alloc, options.username)?;
    principal_of(alloc, options.cname_type, &parts)
}

/// Returns the body with these names.
#[tactic(auto, unfolding(crate::specs::Bodies::as_req_body))]
fn body_with(
    alloc: Global,
    options: &GenerateAsReqOptions<'_>,
    moment: u64,
    realm: Name,
    cname: PrincipalName,
    sname: PrincipalName,
    host: &Name,
) -> Result<KdcReqBody, OutOfMemory>
    requires { moment ≤ last_moment }
    ensures { IfOk result (λ made. made ≡ as_req_body options.now moment realm cname sname host.now) }
{
    let mut maker = Maker::new(alloc);
    let strong = maker.integer(&[18]);
    let weak = maker.integer(&[17]);
    let address = HostAddress {
        addr_type: maker.integer(&[NETBIOS_ADDRESS_TYPE]),
        address: maker.octets(host.as_slice()),
    };
    let made = KdcReqBody {
        kdc_options: Bits {
            unused: 0,
            octets: maker.octets(&as_req_options(options.context_requirements)),
        },
        cname: Some(cname),
        realm,
        sname: Some(sname),
        from: None,
        till: three_days_after(moment),
        rtime: Some(three_days_after(moment)),
        nonce: maker.integer(&options.nonce),
        etype: maker.list_of_two(strong, weak),
        addresses: Some(maker.list_of_one(address)),
        enc_authorization_data: None,
        additional_tickets: None,
    };
    maker.finish(made)
}

/// Returns the four octets of the nonce.
fn nonce_of(options: &GenerateAsReqOptions<'_>) -> [u8; 4]
    ensures octets { result ≡ options.now.nonce }
    ensures four { length result ≡ 4 }
{
    options.nonce
}

fn given_body(
    alloc: Global,
    options: &GenerateAsReqOptions<'_>,
    moment: u64,
    realm: Name,
    cname: PrincipalName,
    sname: PrincipalName,
    host: &Name,
) -> Result<KdcReqBody, Cause>
    requires { moment ≤ last_moment }
    ensures { Answers (Gives (as_req_body options.now moment realm cname sname host.now)) result }
{
    Ok(body_with(alloc, options, moment, realm, cname, sname, host)?)
}

/// Returns the body of an AS-REQ, as a chain of checks.
pub fn as_req_body(
    alloc: Global,
    options: &GenerateAsReqOptions<'_>,
    moment: u64,
) -> Result<KdcReqBody, Cause>
    requires { moment ≤ last_moment }
    ensures made { Answers (MakesBody options.now moment) result }
    ensures within { AreShort options.now → IfOk result (λ body. Fits kdc_req_body_layout (2 ^ 28) body) }
{
    let _nonce = nonce_of(options);
    let realm = name_of(alloc, options.realm)?;
    let cname = client_name(alloc, options)?;
    let sname = principal_of(alloc, NT_SRV_INST, options.snames)?;
    let host = name_of(alloc, options.hostname)?;
    let body = given_body(alloc, options, moment, realm, cname, sname, &host)?;
    Ok(body)
}

/// Returns the body of an AS-REQ: for this client and service, for three days from now, renewable for three days, with a
/// canonical name if possible, under AES-256 or otherwise AES-128, with the machine's name as a NetBIOS address; the ticket is
/// forwardable if the client delegates.
///
/// Fails with InternalError NotAscii exactly if the realm, a component of either name or the machine's name is not ASCII.
#[tactic(auto, using(krb_replies::proofs::Telling::tells))]
pub fn generate_as_req_kdc_body(
    alloc: Global,
    options: &GenerateAsReqOptions<'_>,
    moment: u64,
) -> Result<KdcReqBody, Error>
    requires { moment ≤ last_moment }
    ensures made { Tells (MakesBody options.now moment) result }
    ensures within { AreShort options.now → IfOk result (λ body. Fits kdc_req_body_layout (2 ^ 28) body) }
{
    tell(as_req_body(alloc, options, moment))
}

fn as_req_with(
    alloc: Global,
    pa_datas: Items<PaData>,
    kdc_req_body: KdcReqBody,
) -> Result<AsReq, OutOfMemory>
    ensures { IfOk result (λ made. made ≡ as_req_with pa_datas kdc_req_body) }
{
    let mut maker = Maker::new(alloc);
    let made = AsReq(KdcReq {
        pvno: maker.integer(&[KERBEROS_VERSION]),
        msg_type: maker.integer(&[AS_REQ_MSG_TYPE]),
        padata: Some(pa_datas),
        req_body: kdc_req_body,
    });
    maker.finish(made)
}

/// Returns an AS-REQ with these parts (RFC 4120, section 5.4.1).
pub fn generate_as_req(
    alloc: Global,
    pa_datas: Items<PaData>,
    kdc_req_body: KdcReqBody,
) -> Result<AsReq, OutOfMemory>
    ensures made { IfOk result (λ made. made ≡ as_req_with pa_datas kdc_req_body) }
    ensures within { Fits (items_layout pa_data_layout) (2 ^ 24) pa_datas → Fits kdc_req_body_layout (2 ^ 28) kdc_req_body
        → IfOk result (λ made. Fits as_req_layout (2 ^ 29) made) }
{
    let made = as_req_with(alloc, pa_datas, kdc_req_body)?;
    Ok(made)
}

/// Returns the TGT-REQ to the service of this name.
fn tgt_req(alloc: Global, server_name: PrincipalName) -> Result<TgtReq, OutOfMemory>
    ensures { IfOk result (λ made. made ≡ tgt_req server_name) }
{
    let mut maker = Maker::new(alloc);
    let made = TgtReq {
        pvno: maker.integer(&[KERBEROS_VERSION]),
        msg_type: maker.integer(&[TGT_REQ_MSG_TYPE]),
        server_name,
    };
    maker.finish(made)
}

fn given_tgt_req(alloc: Global, server_name: PrincipalName) -> Result<TgtReq, Cause>
    ensures { Answers (Gives (tgt_req server_name)) result }
{
    Ok(tgt_req(alloc, server_name)?)
}

#[tactic(auto, unfolding(crate::specs::Bodies::MakesTgtReq))]
fn made_tgt_req(alloc: Global, sname: &[&str]) -> Result<TgtReq, Cause>
    ensures made { Answers (MakesTgtReq (map (λ part. part.now) sname.now)) result }
    ensures within { length (component_octets (map (λ part. part.now) sname.now)) ≤ 2 ^ 24 → IfOk result (λ made. Fits tgt_req_layout (2 ^ 25) made) }
{
    let server_name = principal_of(alloc, NT_SRV_INST, sname)?;
    let made = given_tgt_req(alloc, server_name)?;
    Ok(made)
}

/// Returns a TGT-REQ to the service with these components, a name of type 2 (draft-swift-win2k-krb-user2user, section 3).
///
/// Fails with InternalError NotAscii exactly if a component is not ASCII.
#[tactic(auto, using(krb_replies::proofs::Telling::tells))]
pub fn generate_tgt_req(alloc: Global, sname: &[&str]) -> Result<TgtReq, Error>
    ensures made { Tells (MakesTgtReq (map (λ part. part.now) sname.now)) result }
    ensures within { length (component_octets (map (λ part. part.now) sname.now)) ≤ 2 ^ 24 → IfOk result (λ made. Fits tgt_req_layout (2 ^ 25) made) }
{
    tell(made_tgt_req(alloc, sname))
}
