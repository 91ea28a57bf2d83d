//! TGS-REQs (RFC 4120, section 5.4.1).

ghost use Rattle.std.specs.Prelude.{◌≡◌, ◌≤◌, ◌^◌, ◌∷◌, [], true, length, IfOk, IfErr, IfSome, IfNone, MatchOption, IsTrue, Some, None, Err};
ghost use Rattle.md5.specs.Md5.{md5};
ghost use Rattle.sspi_core.specs.Moments.{last_moment};
ghost use Rattle.sspi_core.specs.declared.cause.Cause.TheVariants as causes;
ghost use Rattle.sspi_core.specs.Kinds.{error_of};
ghost use Rattle.krb_der.specs.Schema.{is_ascii};
ghost use Rattle.krb_conf.specs.Names.{target_parts};
ghost use Rattle.krb_crypto.specs.Suite.{key_size};
ghost use Rattle.krb_messages.specs.Layouts.{authenticator_layout, ticket_layout, ap_req_layout};
ghost use Rattle.krb_exchange.specs.Layouts.{kdc_req_body_layout, tgs_req_layout};
ghost use Rattle.krb_context.specs.Options.{option_of};
ghost use Rattle.krb_context.specs.Params.{suite_of};
ghost use Rattle.krb_requests.specs.Pieces.{principal, Fits};
ghost use Rattle.krb_authenticators.specs.ApRequests.{ap_req, tgs_usage};
ghost use Rattle.krb_authenticators.specs.TgsRequests.{
  tgs_options,
  tgs_body,
  body_checksum,
  over,
  pa_tgs_req,
  pac_options,
  tgs_req_with,
  tgs_req,
  is_askable,
  refusal_of,
  tgs_refusal,
  IsTgsReq,
  AreShortTickets,
};

use crate::ap_req::seal_ap_req;
use crate::options::GenerateTgsReqOptions;
use bitflags::Flags;
use krb_conf::parse_target_name;
use krb_context::KdcOptions;
use krb_crypto::CipherSuite;
use krb_der::{Asn1, Bits, Items, Name, Octets, OutOfMemory, boxed, is_ascii};
use krb_exchange::{KdcReq, KdcReqBody, PaData, PaPacOptions, TgsReq};
use krb_messages::constants::{
    KERBEROS_VERSION, NT_SRV_INST, RSA_MD5_CHECKSUM_TYPE, TGS_REQ_AUTHENTICATOR_USAGE,
    TGS_REQ_MSG_TYPE,
};
use krb_messages::{ApReq, Authenticator, Checksum, PrincipalName, Ticket};
use krb_requests::{Maker, etypes, three_days_after};
use md5::{Digest, Md5};
use sspi_core::{Cause, ClientRequestFlags, Error};
use std::alloc::Global;

/// The type of the AP-REQ in a TGS-REQ, by the octets of its INTEGER (RFC 4120, section 5.2.7.1).
const TGS_REQ: [u8; 1] = [0x01];

/// The type of options for a PAC, 167 (MS-KILE, section 2.2.10).
const PAC_OPTIONS: [u8; 2] = [0x00, 0xa7];

/// Branch Aware, bit 1 of the flags (MS-KILE, section 2.2.10).
const BRANCH_AWARE: [u8; 4] = [0x40, 0x00, 0x00, 0x00];

/// Returns the option if the flag is set, otherwise 0.
fn option_if(flags: ClientRequestFlags, flag: ClientRequestFlags, option: KdcOptions) -> u32
    ensures { result ≡ option_of flags.0 (flag.0, option.0) }
{
    if flags.contains(flag) {
        option.bits()
    } else {
        0
    }
}

/// Returns the KDC options of the request.
fn tgs_options(flags: ClientRequestFlags) -> u32
    ensures { result ≡ tgs_options flags.0 }
{
    0x0081_0000
        | option_if(flags, ClientRequestFlags::DELEGATE, KdcOptions::FORWARDABLE)
        | option_if(
            flags,
            ClientRequestFlags::USE_SESSION_KEY,
            KdcOptions::ENC_TKT_IN_SKEY,
        )
}

/// Returns an ASCII text as a name.
fn name(alloc: Global, text: &str) -> Result<Name, OutOfMemory>
    requires { IsTrue (is_ascii text.now) }
    ensures { IfOk result (λ made. made ≡ text.now) }
{
    match Name::new(Vec::from_slice(alloc, text.as_bytes())?) {
        Some(name) => Ok(name),
        None => unreachable!(),
    }
}

/// Returns the name of a service on a host.
fn service_name(alloc: Global, service: Name, host: Name) -> Result<PrincipalName, OutOfMemory>
    ensures { IfOk result (λ made. made ≡ principal 2 (service ∷ host ∷ [])) }
{
    let mut maker = Maker::new(alloc);
    let made = PrincipalName {
        name_type: maker.integer(&[NT_SRV_INST]),
        name_string: maker.list_of_two(service, host),
    };
    maker.finish(made)
}

/// Returns the body of these parts.
fn body_with(
    alloc: Global,
    realm: Name,
    sname: PrincipalName,
    additional_tickets: Option<Items<Ticket>>,
    flags: ClientRequestFlags,
    now: u64,
    nonce: [u8; 4],
) -> Result<KdcReqBody, OutOfMemory>
    requires { now ≤ last_moment }
    ensures { IfOk result (λ made. made ≡ record (tgs_body realm [] [] additional_tickets flags.0 now nonce) { sname = Some sname }) }
{
    let etype = etypes(alloc)?;
    let mut maker = Maker::new(alloc);
    let made = KdcReqBody {
        kdc_options: Bits {
            unused: 0,
            octets: maker.octets(&tgs_options(flags).to_be_bytes()),
        },
        cname: None,
        realm,
        sname: Some(sname),
        from: None,
        till: three_days_after(now),
        rtime: None,
        nonce: maker.integer(&nonce),
        etype,
        addresses: None,
        enc_authorization_data: None,
        additional_tickets,
    };
    maker.finish(made)
}

/// Returns the body of a request for a ticket for this service on this host.
fn tgs_body(
    alloc: Global,
    realm: &str,
    service: &str,
    host: &str,
    tickets: Option<Items<Ticket>>,
    flags: ClientRequestFlags,
    now: u64,
    nonce: [u8; 4],
) -> Result<KdcReqBody, OutOfMemory>
    requires moment { now ≤ last_moment }
    requires ascii { is_askable realm.now service.now host.now ≡ true }
    ensures { IfOk result (λ made. made ≡ tgs_body realm.now service.now host.now tickets flags.0 now nonce) }
{
    let service = name(alloc, service)?;
    let host = name(alloc, host)?;
    let sname = service_name(alloc, service, host)?;
    let realm = name(alloc, realm)?;
    body_with(alloc, realm, sname, tickets, flags, now, nonce)
}

/// Returns the checksum of a body.
fn body_checksum(alloc: Global, body: &KdcReqBody) -> Result<Checksum, OutOfMemory>
    requires { Fits kdc_req_body_layout (2 ^ 27) body.now }
    ensures { IfOk result (λ made. made ≡ body_checksum body.now) }
{
    let octets = body.write(alloc)?;
    let digest = Md5::digest(octets.as_slice());
    let mut maker = Maker::new(alloc);
    let made = Checksum {
        cksumtype: maker.integer(&RSA_MD5_CHECKSUM_TYPE),
        checksum: maker.octets(&digest),
    };
    maker.finish(made)
}

/// Returns the authenticator with the checksum of this body.
fn over(
    alloc: Global,
    body: &KdcReqBody,
    authenticator: Authenticator,
) -> Result<Authenticator, OutOfMemory>
    requires { Fits kdc_req_body_layout (2 ^ 27) body.now }
    ensures { IfOk result (λ made. made ≡ over body.now authenticator) }
{
    let checksum = body_checksum(alloc, body)?;
    let mut authenticator = authenticator;
    authenticator.cksum = Some(checksum);
    Ok(authenticator)
}

/// Returns the AP-REQ as PA-DATA of a TGS-REQ.
fn pa_tgs_req(alloc: Global, request: &ApReq) -> Result<PaData, OutOfMemory>
    requires { Fits ap_req_layout (2 ^ 28) request.now }
    ensures { IfOk result (λ made. made ≡ pa_tgs_req request.now) }
{
    let padata_value = request.write(alloc)?;
    let mut maker = Maker::new(alloc);
    let made = PaData {
        padata_type: maker.integer(&TGS_REQ),
        padata_value,
    };
    maker.finish(made)
}

fn branch_aware(alloc: Global) -> Result<PaPacOptions, OutOfMemory>
    ensures { IfOk result (λ made. made ≡ record { flags = record { unused = 0; octets = 0x40 ∷ 0x00 ∷ 0x00 ∷ 0x00 ∷ [] } }) }
{
    Ok(PaPacOptions {
        flags: Bits {
            unused: 0,
            octets: Octets::from_slice(alloc, &BRANCH_AWARE)?,
        },
    })
}

/// Returns the options for a PAC.
fn pac_options(alloc: Global) -> Result<PaData, OutOfMemory>
    ensures { IfOk result (λ made. made ≡ pac_options) }
{
    let options = branch_aware(alloc)?;
    let padata_value = options.write(alloc)?;
    let mut maker = Maker::new(alloc);
    let made = PaData {
        padata_type: maker.integer(&PAC_OPTIONS),
        padata_value,
    };
    maker.finish(made)
}

/// Returns a TGS-REQ of these parts.
fn tgs_req_with(
    alloc: Global,
    body: Box<KdcReqBody>,
    request: &ApReq,
) -> Result<TgsReq, OutOfMemory>
    requires { Fits ap_req_layout (2 ^ 28) request.now }
    ensures { IfOk result (λ made. made ≡ tgs_req_with body.value request.now) }
{
    let first = pa_tgs_req(alloc, request)?;
    let second = pac_options(alloc)?;
    let mut maker = Maker::new(alloc);
    let made = TgsReq(KdcReq {
        pvno: maker.integer(&[KERBEROS_VERSION]),
        msg_type: maker.integer(&[TGS_REQ_MSG_TYPE]),
        padata: Some(maker.list_of_two(first, second)),
        req_body: Box::into_inner(body),
    });
    maker.finish(made)
}

/// Returns an AP-REQ whose authenticator, encrypted under a session key of the suite's length, has the checksum of this body.
fn ap_req_over(
    alloc: Global,
    suite: CipherSuite,
    key: &[u8],
    ticket: Box<Ticket>,
    authenticator: Authenticator,
    body: &KdcReqBody,
    confounder: [u8; 16],
) -> Result<ApReq, OutOfMemory>
    requires key { length key.now ≡ key_size suite }
    requires ticket { Fits ticket_layout (2 ^ 24) ticket.value }
    requires authenticator { Fits authenticator_layout (2 ^ 27) authenticator }
    requires body { Fits kdc_req_body_layout (2 ^ 27) body.now }
    ensures made { IfOk result (λ made. made ≡ ap_req suite key.now tgs_usage confounder 0 ticket.value (over body.now authenticator)) }
    ensures within { IfOk result (λ made. Fits ap_req_layout (2 ^ 28) made) }
{
    let authenticator = over(alloc, body, authenticator)?;
    seal_ap_req(
        alloc,
        suite,
        key,
        TGS_REQ_AUTHENTICATOR_USAGE,
        0,
        ticket,
        &authenticator,
        confounder,
    )
}

/// Returns a TGS-REQ whose authenticator, encrypted under a session key of the suite's length, has the checksum of its body.
fn tgs_req_of(
    alloc: Global,
    suite: CipherSuite,
    key: &[u8],
    ticket: Box<Ticket>,
    authenticator: Authenticator,
    body: Box<KdcReqBody>,
    confounder: [u8; 16],
) -> Result<TgsReq, OutOfMemory>
    requires key { length key.now ≡ key_size suite }
    requires ticket { Fits ticket_layout (2 ^ 24) ticket.value }
    requires authenticator { Fits authenticator_layout (2 ^ 27) authenticator }
    requires body { Fits kdc_req_body_layout (2 ^ 27) body.value }
    ensures made { IfOk result (λ made. made ≡ tgs_req suite key.now confounder ticket.value authenticator body.value) }
    ensures within { IfOk result (λ made. Fits tgs_req_layout (2 ^ 29) made) }
{
    let request = boxed(
        alloc,
        ap_req_over(alloc, suite, key, ticket, authenticator, &body, confounder)?,
    )?;
    tgs_req_with(alloc, body, &request)
}

/// Returns the service and the host of a target, or None if there is no such target.
fn target_of(target: &str) -> Option<(&str, &str)>
    ensures { MatchOption result (target_parts target.entry.now ≡ None) (λ parts. target_parts target.entry.now ≡ Some (parts.0.now, parts.1.now)) }
{
    match parse_target_name(target) {
        Ok(parts) => Some(parts),
        Err(_) => None,
    }
}

fn is_askable(realm: &str, service: &str, host: &str) -> bool
    ensures { result ≡ is_askable realm.now service.now host.now }
{
    is_ascii(realm.as_bytes()) && is_ascii(service.as_bytes()) && is_ascii(host.as_bytes())
}

/// Returns the cause to refuse a request for this service and host, if there is one: `NotAscii`, then `KeyLength`.
fn refusal_of(
    realm: &str,
    service: &str,
    host: &str,
    suite: CipherSuite,
    key: &[u8],
) -> Option<Cause>
    ensures { result ≡ refusal_of realm.now service.now host.now suite key.now }
{
    if !is_askable(realm, service, host) {
        return Some(Cause::NotAscii);
    }
    if key.len() != suite.key_size() {
        return Some(Cause::KeyLength);
    }
    None
}

/// Returns the service and the host of a target. Fails with the cause to refuse the request: `Target`, `NotAscii`, then
/// `KeyLength`.
fn asked_parts<'a>(
    realm: &str,
    target: &'a str,
    suite: CipherSuite,
    key: &[u8],
) -> Result<(&'a str, &'a str), Cause>
    ensures target { IfOk result (λ parts. target_parts target.entry.now ≡ Some (parts.0.now, parts.1.now)) }
    ensures askable { IfOk result (λ parts. refusal_of realm.now parts.0.now parts.1.now suite key.now ≡ None) }
    ensures refused { IfErr result (λ cause. tgs_refusal realm.now (target_parts target.entry.now) suite key.now ≡ Some cause) }
{
    let Some((service, host)) = target_of(target) else {
        return Err(Cause::Target);
    };
    match refusal_of(realm, service, host, suite, key) {
        Some(cause) => Err(cause),
        None => Ok((service, host)),
    }
}

/// Returns the request for this service on this host, if it is not refused.
fn tgs_req_for(
    alloc: Global,
    options: GenerateTgsReqOptions<'_>,
    service: &str,
    host: &str,
    now: u64,
    nonce: [u8; 4],
    confounder: [u8; 16],
) -> Result<TgsReq, OutOfMemory>
    requires moment { now ≤ last_moment }
    requires realm { length options.realm.now ≤ 2 ^ 24 }
    requires service { length service.now ≤ 2 ^ 24 }
    requires host { length host.now ≤ 2 ^ 24 }
    requires ticket { Fits ticket_layout (2 ^ 24) options.ticket }
    requires authenticator { Fits authenticator_layout (2 ^ 27) options.authenticator }
    requires tickets { AreShortTickets options.additional_tickets }
    requires askable { refusal_of options.realm.now service.now host.now (suite_of options.enc_params.now) options.session_key.now ≡ None }
    ensures made { IfOk result (λ made. made ≡ tgs_req (suite_of options.entry.enc_params.now) options.entry.session_key.now confounder
        options.entry.ticket options.entry.authenticator
        (tgs_body options.entry.realm.now service.now host.now options.entry.additional_tickets
        options.entry.context_requirements.0 now nonce)) }
    ensures within { IfOk result (λ made. Fits tgs_req_layout (2 ^ 29) made) }
{
    let suite = options.enc_params.suite();
    let key = options.session_key.as_ref().as_slice();
    let ticket = boxed(alloc, options.ticket)?;
    let authenticator = boxed(alloc, options.authenticator)?;
    let asked = tgs_body(
        alloc,
        options.realm,
        service,
        host,
        options.additional_tickets,
        options.context_requirements,
        now,
        nonce,
    )?;
    let body = boxed(alloc, asked)?;
    tgs_req_of(
        alloc,
        suite,
        key,
        ticket,
        Box::into_inner(authenticator),
        body,
        confounder,
    )
}

/// Returns a TGS-REQ for a service: an AP-REQ with the ticket and the authenticator, whose checksum is replaced by the MD5 of the
/// written body.
///
/// The target is the service before the first `/` of `service_principal`, and the host after it. The body requests a ticket
/// until three days after the whole second of `now`, with the etypes 18 and 17, the options RENEWABLE and CANONICALIZE,
/// FORWARDABLE with `DELEGATE` and ENC-TKT-IN-SKEY with `USE_SESSION_KEY`. The authenticator is encrypted in the parameters' suite
/// (AES-256 if there is none), with usage 7. Fails in this order: with InvalidParameter Target exactly if there is no such target,
/// with InternalError NotAscii exactly if the realm or a part of the target is not ASCII, with InvalidParameter KeyLength exactly
/// if the session key does not have the length of the suite's keys; otherwise it fails only if memory runs out.
pub fn generate_tgs_req(
    alloc: Global,
    options: GenerateTgsReqOptions<'_>,
    now: u64,
    nonce: [u8; 4],
    confounder: [u8; 16],
) -> Result<TgsReq, Error>
    requires moment { now ≤ last_moment }
    requires realm { length options.realm.now ≤ 2 ^ 24 }
    requires service { length options.service_principal.now ≤ 2 ^ 24 }
    requires ticket { Fits ticket_layout (2 ^ 24) options.ticket }
    requires authenticator { Fits authenticator_layout (2 ^ 27) options.authenticator }
    requires tickets { AreShortTickets options.additional_tickets }
    ensures made { IfOk result (IsTgsReq (suite_of options.entry.enc_params.now) options.entry.session_key.now confounder
        options.entry.ticket options.entry.authenticator
        (λ service host. tgs_body options.entry.realm.now service host options.entry.additional_tickets
        options.entry.context_requirements.0 now nonce)
        (target_parts options.entry.service_principal.now)) }
    ensures refused { IfSome (tgs_refusal options.entry.realm.now (target_parts options.entry.service_principal.now)
        (suite_of options.entry.enc_params.now) options.entry.session_key.now) (λ cause. result ≡ Err (error_of cause)) }
    ensures errors { IfNone (tgs_refusal options.entry.realm.now (target_parts options.entry.service_principal.now)
        (suite_of options.entry.enc_params.now) options.entry.session_key.now) (IfErr result (λ e. e ≡ error_of causes.Memory)) }
    ensures within { IfOk result (λ made. Fits tgs_req_layout (2 ^ 29) made) }
{
    let suite = options.enc_params.suite();
    let key = options.session_key.as_ref().as_slice();
    match asked_parts(options.realm, options.service_principal, suite, key) {
        Ok((service, host)) => Ok(tgs_req_for(
            alloc, options, service, host, now, nonce, confounder,
        )?),
        Err(cause) => Err(Error::from(cause)),
    }
}
