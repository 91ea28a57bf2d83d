//! Requests to ticket-granting services (RFC 4120, sections 3.3.1 and 5.4.1).

ghost use Rattle.std.specs.Prelude.{◌≡◌, ◌==◌, ◌<◌, ◌≤◌, ◌^◌, nat_lt, not, length, IfOk, IfSome};
ghost use Rattle.krb_crypto.specs.Suite.{key_size};
ghost use Rattle.krb_messages.specs.Layouts.{authenticator_layout};
ghost use Rattle.krb_exchange.specs.Layouts.{tgs_req_layout};
ghost use Rattle.sspi_core.specs.declared.cause.Cause.TheVariants as causes;
ghost use Rattle.sspi_core.specs.Moments.{last_moment};
ghost use Rattle.sspi_core.specs.Checks.{Answers, Gives, Holds};
ghost use Rattle.krb_requests.specs.Pieces.{Fits};
ghost use Rattle.krb_authenticators.specs.Bindings.{AreShortBindings};
ghost use Rattle.krb_authenticators.specs.TgsRequests.{AreShortTickets};
ghost use Rattle.krb_as.specs.Kdcs.{FindsKdc};
ghost use Rattle.krb_as.specs.Granted.{IsSendable};
ghost use Rattle.krb_tgs.specs.TgsAsked.{tgs_authenticator, tgs_req_for, tgs_request, url_for, AsksTgs, is_same_realm, Follows};

use crate::wanted::Wanted;
use krb_as::{Asker, Grant, Kdc, find_kdc, request_to};
use krb_authenticators::{
    GenerateAuthenticatorOptions, GenerateTgsReqOptions, generate_authenticator, generate_tgs_req,
};
use krb_context::EncryptionParams;
use krb_der::{Asn1, Items, Name, OutOfMemory, TryCopy};
use krb_exchange::{KdcRep, TgsReq};
use krb_messages::{Authenticator, Ticket};
use sspi_core::{Cause, Draw, hold};
use sspi_generator::NetworkRequest;
use std::alloc::Global;

/// The maximum number of referrals that are followed.
const MAX_HOPS: u8 = 9;

/// A request to a ticket-granting service.
#[derive(Drop)]
pub struct Begun {
    pub request: NetworkRequest,
    /// The KDC to which the request goes.
    pub kdc: Kdc,
}

/// Returns the authenticator of the client. An authenticator without a checksum cannot lack room for one, so only memory can fail.
fn tgs_authenticator(
    alloc: Global,
    wanted: &Wanted,
    rep: &KdcRep,
    draw: &Draw,
) -> Result<Authenticator, OutOfMemory>
    requires moment { draw.now.moment ≤ last_moment }
    requires rep { IsSendable rep.now }
    requires bindings { IfSome wanted.now.channel_bindings AreShortBindings }
    ensures made { IfOk result (λ made. made ≡ tgs_authenticator wanted.now rep.now draw.now) }
    ensures within { IfOk result (λ made. Fits authenticator_layout (2 ^ 27) made) }
{
    let options = GenerateAuthenticatorOptions {
        kdc_rep: rep,
        seq_num: Some(u32::from_be_bytes(draw.octets::<4>(0))),
        sub_key: None,
        checksum: None,
        channel_bindings: wanted.channel_bindings.as_ref(),
        extensions: Items::new(Vec::new(alloc)),
    };
    match generate_authenticator(alloc, options, draw.moment) {
        Ok(authenticator) => Ok(authenticator),
        Err(_) => Err(OutOfMemory),
    }
}

/// Returns the request with this authenticator. The session key has its length and the names are ASCII, so only memory can fail.
fn tgs_req_by(
    alloc: Global,
    wanted: &Wanted,
    shown: &Grant,
    realm: &Name,
    tickets: Option<Items<Ticket>>,
    authenticator: Authenticator,
    draw: &Draw,
) -> Result<TgsReq, OutOfMemory>
    requires moment { draw.now.moment ≤ last_moment }
    requires target { length wanted.now.target ≤ 2 ^ 24 }
    requires realm { length realm.now ≤ 2 ^ 24 }
    requires rep { IsSendable shown.now.rep }
    requires tickets { AreShortTickets tickets }
    requires authenticator { Fits authenticator_layout (2 ^ 27) authenticator }
    requires same { authenticator ≡ tgs_authenticator wanted.now shown.now.rep draw.now }
    ensures made { IfOk result (λ made. made ≡ tgs_req_for wanted.now shown.now realm.now tickets draw.now) }
    ensures within { IfOk result (λ made. Fits tgs_req_layout (2 ^ 29) made) }
{
    let ticket = shown.rep.ticket.copy(alloc)?;
    let params = EncryptionParams::of_suite(shown.suite);
    let options = GenerateTgsReqOptions {
        realm: realm.as_str(),
        service_principal: wanted.target.as_str(),
        session_key: &shown.key,
        ticket,
        authenticator,
        additional_tickets: tickets,
        enc_params: &params,
        context_requirements: wanted.flags,
    };
    let nonce = draw.octets::<4>(4);
    let confounder = draw.octets::<16>(8);
    match generate_tgs_req(alloc, options, draw.moment, nonce, confounder) {
        Ok(request) => Ok(request),
        Err(_) => Err(OutOfMemory),
    }
}

/// Returns the request to the ticket-granting service of a realm.
fn tgs_req_for(
    alloc: Global,
    wanted: &Wanted,
    shown: &Grant,
    realm: &Name,
    tickets: Option<Items<Ticket>>,
    draw: &Draw,
) -> Result<TgsReq, OutOfMemory>
    requires moment { draw.now.moment ≤ last_moment }
    requires target { length wanted.now.target ≤ 2 ^ 24 }
    requires bindings { IfSome wanted.now.channel_bindings AreShortBindings }
    requires realm { length realm.now ≤ 2 ^ 24 }
    requires rep { IsSendable shown.now.rep }
    requires tickets { AreShortTickets tickets }
    ensures made { IfOk result (λ made. made ≡ tgs_req_for wanted.now shown.now realm.now tickets draw.now) }
    ensures within { IfOk result (λ made. Fits tgs_req_layout (2 ^ 29) made) }
{
    let authenticator = tgs_authenticator(alloc, wanted, &shown.rep, draw)?;
    tgs_req_by(alloc, wanted, shown, realm, tickets, authenticator, draw)
}

#[tactic(auto, unfolding(crate::specs::TgsAsked::tgs_request))]
fn tgs_request(
    alloc: Global,
    wanted: &Wanted,
    shown: &Grant,
    tickets: Option<Items<Ticket>>,
    draw: &Draw,
    kdc: &Kdc,
) -> Result<NetworkRequest, OutOfMemory>
    requires moment { draw.now.moment ≤ last_moment }
    requires target { length wanted.now.target ≤ 2 ^ 24 }
    requires bindings { IfSome wanted.now.channel_bindings AreShortBindings }
    requires realm { length kdc.now.realm ≤ 2 ^ 24 }
    requires rep { IsSendable shown.now.rep }
    requires tickets { AreShortTickets tickets }
    ensures { IfOk result (λ request. request ≡ tgs_request wanted.now shown.now tickets draw.now kdc.now) }
{
    let request = tgs_req_for(alloc, wanted, shown, &kdc.realm, tickets, draw)?;
    let octets = request.write(alloc)?;
    request_to(alloc, kdc, octets)
}

/// Returns the request, and the KDC to which it goes.
fn sent_tgs_request(
    alloc: Global,
    wanted: &Wanted,
    shown: &Grant,
    tickets: Option<Items<Ticket>>,
    draw: &Draw,
    kdc: Kdc,
) -> Result<Begun, Cause>
    requires moment { draw.now.moment ≤ last_moment }
    requires target { length wanted.now.target ≤ 2 ^ 24 }
    requires bindings { IfSome wanted.now.channel_bindings AreShortBindings }
    requires realm { length kdc.realm ≤ 2 ^ 24 }
    requires rep { IsSendable shown.now.rep }
    requires tickets { AreShortTickets tickets }
    ensures { Answers (Gives (record { request = tgs_request wanted.now shown.now tickets draw.now kdc; kdc = kdc })) result }
{
    let request = tgs_request(alloc, wanted, shown, tickets, draw, &kdc)?;
    Ok(Begun { request, kdc })
}

fn check_key(shown: &Grant) -> Result<(), Cause>
    ensures { Holds causes.KeyLength (length shown.now.key == key_size shown.now.suite) result }
{
    hold(
        shown.key.as_ref().as_slice().len() == shown.suite.key_size(),
        Cause::KeyLength,
    )
}

/// Returns the KDC of a realm. `home` is the client's own realm.
fn kdc_of(alloc: Global, asker: &Asker, home: &Name, realm: &Name) -> Result<Kdc, Cause>
    ensures { Answers (FindsKdc (url_for asker.now.kdc_url home.now realm.now) asker.now.env realm.now) result }
{
    if home.as_str() == realm.as_str() {
        find_kdc(alloc, &asker.kdc_url, &asker.env, realm)
    } else {
        find_kdc(alloc, &None, &asker.env, realm)
    }
}

/// Asks the ticket-granting service of a realm for the ticket that the client needs. If the realm is `home`, the client's own,
/// its KDC is the one that the client knows, if it knows one; for any other realm a KDC is looked up. The draw's first octets are
/// the sequence number (four), the nonce (four) and the confounder (sixteen).
///
/// Fails with `KeyLength` if the session key has not the length of its suite's keys; then with `NoKdc` and `Scheme`, as
/// `find_kdc`.
#[tactic(auto, unfolding(crate::specs::TgsAsked::AsksTgs))]
pub fn ask_tgs(
    alloc: Global,
    asker: &Asker,
    wanted: &Wanted,
    shown: &Grant,
    home: &Name,
    realm: &Name,
    tickets: Option<Items<Ticket>>,
    draw: &Draw,
) -> Result<Begun, Cause>
    requires moment { draw.now.moment ≤ last_moment }
    requires target { length wanted.now.target ≤ 2 ^ 24 }
    requires bindings { IfSome wanted.now.channel_bindings AreShortBindings }
    requires realm { length realm.now ≤ 2 ^ 24 }
    requires rep { IsSendable shown.now.rep }
    requires tickets { AreShortTickets tickets }
    ensures step { Answers (AsksTgs asker.now wanted.now shown.now home.now realm.now tickets draw.now) result }
{
    check_key(shown)?;
    let kdc = kdc_of(alloc, asker, home, realm)?;
    sent_tgs_request(alloc, wanted, shown, tickets, draw, kdc)
}

fn check_hops(hops: u8) -> Result<(), Cause>
    ensures step { Holds causes.Hops (nat_lt hops 9) result }
    ensures few { IfOk result (λ done. hops < 9) }
{
    if hops < MAX_HOPS {
        Ok(())
    } else {
        Err(Cause::Hops)
    }
}

fn check_realm(asked: &Name, realm: &Name) -> Result<(), Cause>
    ensures { Holds causes.SameRealm (not (is_same_realm asked.now realm.now)) result }
{
    hold(
        !asked.as_str().eq_ignore_ascii_case(realm.as_str()),
        Cause::SameRealm,
    )
}

/// Follows a referral: asks the KDC of the realm that was named for the same ticket, with no additional ticket.
///
/// Fails with `Hops` if nine were followed; with `SameRealm` if the realm that was asked names itself, the case of letters
/// ignored; then as [`ask_tgs`].
#[tactic(auto, unfolding(crate::specs::TgsAsked::Follows))]
pub fn follow(
    alloc: Global,
    asker: &Asker,
    wanted: &Wanted,
    shown: &Grant,
    hops: u8,
    home: &Name,
    asked: &Name,
    realm: &Name,
    draw: &Draw,
) -> Result<Begun, Cause>
    requires moment { draw.now.moment ≤ last_moment }
    requires target { length wanted.now.target ≤ 2 ^ 24 }
    requires bindings { IfSome wanted.now.channel_bindings AreShortBindings }
    requires realm { length realm.now ≤ 2 ^ 24 }
    requires rep { IsSendable shown.now.rep }
    ensures step { Answers (Follows asker.now wanted.now shown.now hops home.now asked.now realm.now draw.now) result }
    ensures few { IfOk result (λ begun. hops < 9) }
{
    check_hops(hops)?;
    check_realm(asked, realm)?;
    ask_tgs(alloc, asker, wanted, shown, home, realm, None, draw)
}
