//! The AP-REQ to the service (RFC 4120, sections 3.2.2 and 5.5.1; RFC 4121, section 4.1).

ghost use Rattle.std.specs.Prelude.{◌≡◌, ◌==◌, ◌<◌, ◌≤◌, ◌^◌, length, Some, IfOk};
ghost use Rattle.sspi_core.specs.Moments.{last_moment};
ghost use Rattle.sspi_core.specs.declared.cause.Cause.TheVariants as causes;
ghost use Rattle.sspi_core.specs.Checks.{Answers, Gives, Holds};
ghost use Rattle.krb_crypto.specs.Suite.{key_size};
ghost use Rattle.krb_messages.specs.Layouts.{authenticator_layout, ticket_layout, ap_req_layout};
ghost use Rattle.krb_context.specs.Options.{ap_options_of};
ghost use Rattle.krb_requests.specs.Pieces.{Fits};
ghost use Rattle.krb_authenticators.specs.Authenticators.{IsShortChecksum};
ghost use Rattle.krb_authenticators.specs.ApRequests.{ap_req, service_usage};
ghost use Rattle.krb_as.specs.Granted.{IsSendable};
ghost use Rattle.krb_ap.specs.Initiators.{exchange_flags};
ghost use Rattle.krb_ap.specs.Shown.{
  drawn_confounder,
  gss_checksum,
  service_authenticator,
  service_request,
  message,
  framed_ap_req,
  shown_token,
  kept_subkey,
  shown_state,
  shown_number,
  shown_status,
  change_of,
  shown,
  ShowsTicket,
  CanGo,
};

use crate::errand::Errand;
use crate::initiator::{
    Initiator, exchange_flags, is_bare, is_one_way, keeps_subkey, settled_number,
};
use bitflags::Flags;
use krb_as::InitDone;
use krb_authenticators::{
    ChecksumOptions, ChecksumValues, EncKey, GenerateAuthenticatorOptions, generate_ap_req,
    generate_authenticator,
};
use krb_context::{
    ApOptions, ContextChange, EncryptionParams, GssFlags, KerberosState, drawn_secret,
};
use krb_crypto::CipherSuite;
use krb_der::{Asn1, Items, Name, Octets, OutOfMemory, Text, TryCopy};
use krb_exchange::KdcRep;
use krb_messages::constants::{AP_REQ_TOKEN_ID, GSS_CHECKSUM_TYPE};
use krb_messages::{ApReq, Authenticator, Oid, Ticket, write_framed};
use sspi_core::{Cause, ClientRequestFlags, Draw, Secret, SecurityStatus, hold};
use std::alloc::Global;

/// Returns the checksum with the flags of the context, but never delegation, for which there would have to be a KRB-CRED.
fn gss_checksum(alloc: Global, flags: ClientRequestFlags) -> Result<ChecksumOptions, OutOfMemory>
    ensures made { IfOk result (λ made. made ≡ gss_checksum flags.0) }
    ensures short { IfOk result IsShortChecksum }
{
    let asked = GssFlags::from_client_flags(flags);
    let mut values = ChecksumValues::default();
    values.set_flags(asked.difference(GssFlags::GSS_C_DELEG_FLAG));
    let checksum_value = values.into_inner(alloc)?;
    Ok(ChecksumOptions {
        checksum_type: Octets::from_slice(alloc, &GSS_CHECKSUM_TYPE)?,
        checksum_value,
    })
}

/// Returns the authenticator for the service. Its checksum has room for the hash of bindings, so only memory can fail.
fn service_authenticator(
    alloc: Global,
    errand: &Errand,
    suite: CipherSuite,
    rep: &KdcRep,
    draw: &Draw,
) -> Result<Authenticator, OutOfMemory>
    requires errand { CanGo errand.now }
    requires rep { IsSendable rep.now }
    requires moment { draw.now.moment ≤ last_moment }
    ensures made { IfOk result (λ made. made ≡ service_authenticator errand.now suite rep.now draw.now) }
    ensures within { IfOk result (λ made. Fits authenticator_layout (2 ^ 27) made) }
{
    let key_value = drawn_secret(alloc, suite, draw)?;
    let checksum = gss_checksum(alloc, errand.initiator.flags)?;
    let options = GenerateAuthenticatorOptions {
        kdc_rep: rep,
        seq_num: Some(errand.initiator.number.wrapping_add(1)),
        sub_key: Some(EncKey {
            key_type: suite,
            key_value,
        }),
        checksum: Some(checksum),
        channel_bindings: errand.bindings.as_ref(),
        extensions: Items::new(Vec::new(alloc)),
    };
    match generate_authenticator(alloc, options, draw.moment) {
        Ok(authenticator) => Ok(authenticator),
        Err(_) => Err(OutOfMemory),
    }
}

/// Returns the AP-REQ with this authenticator. The session key has its length, so only memory can fail.
fn ap_req_by(
    alloc: Global,
    errand: &Errand,
    suite: CipherSuite,
    key: &Secret<Octets>,
    ticket: Ticket,
    authenticator: &Authenticator,
    draw: &Draw,
) -> Result<ApReq, OutOfMemory>
    requires ticket { Fits ticket_layout (2 ^ 24) ticket }
    requires authenticator { Fits authenticator_layout (2 ^ 27) authenticator.now }
    ensures made { IfOk result (λ made. made ≡ ap_req suite key.now service_usage (drawn_confounder suite draw.now)
        (ap_options_of (exchange_flags errand.now.initiator)) ticket authenticator.now) }
    ensures within { IfOk result (λ made. Fits ap_req_layout (2 ^ 28) made) }
{
    let options = ApOptions::from_client_flags(exchange_flags(&errand.initiator));
    let params = EncryptionParams::of_suite(suite);
    let confounder = draw.octets::<16>(suite.key_size());
    let made = generate_ap_req(
        alloc,
        ticket,
        key,
        authenticator,
        &params,
        options,
        confounder,
    );
    match made {
        Ok(made) => Ok(made),
        Err(_) => Err(OutOfMemory),
    }
}

/// Returns the AP-REQ.
fn service_request(
    alloc: Global,
    errand: &Errand,
    suite: CipherSuite,
    key: &Secret<Octets>,
    rep: KdcRep,
    draw: &Draw,
) -> Result<ApReq, OutOfMemory>
    requires errand { CanGo errand.now }
    requires rep { IsSendable rep }
    requires moment { draw.now.moment ≤ last_moment }
    ensures made { IfOk result (λ made. made ≡ service_request errand.now suite key.now rep draw.now) }
    ensures within { IfOk result (λ made. Fits ap_req_layout (2 ^ 28) made) }
{
    let authenticator = service_authenticator(alloc, errand, suite, &rep, draw)?;
    ap_req_by(alloc, errand, suite, key, rep.ticket, &authenticator, draw)
}

/// Returns the octets of the AP-REQ.
#[tactic(auto, unfolding(crate::specs::Shown::message))]
fn message(
    alloc: Global,
    errand: &Errand,
    suite: CipherSuite,
    key: &Secret<Octets>,
    rep: KdcRep,
    draw: &Draw,
) -> Result<Octets, OutOfMemory>
    requires errand { CanGo errand.now }
    requires rep { IsSendable rep }
    requires moment { draw.now.moment ≤ last_moment }
    ensures made { IfOk result (λ octets. octets ≡ message errand.now suite key.now rep draw.now) }
    ensures short { IfOk result (λ octets. length octets ≤ 2 ^ 28) }
{
    let request = service_request(alloc, errand, suite, key, rep, draw)?;
    request.write(alloc)
}

/// Returns an AP-REQ in a frame.
#[tactic(auto, unfolding(crate::specs::Shown::framed_ap_req))]
fn framed(alloc: Global, mechanism: &Octets, message: &Octets) -> Result<Octets, OutOfMemory>
    requires named { 0 < length mechanism.now }
    requires mechanism { length mechanism.now ≤ 2 ^ 24 }
    requires message { length message.now ≤ 2 ^ 28 }
    ensures { IfOk result (λ token. token ≡ framed_ap_req mechanism.now message.now) }
{
    let oid = Oid::from_contents(mechanism.as_slice());
    write_framed(alloc, oid, AP_REQ_TOKEN_ID, message.as_slice())
}

/// Returns the AP-REQ as a token.
fn token_of(alloc: Global, errand: &Errand, message: Octets) -> Result<Octets, OutOfMemory>
    requires errand { CanGo errand.now }
    requires message { length message ≤ 2 ^ 28 }
    ensures { IfOk result (λ token. token ≡ shown_token errand.now message) }
{
    if is_bare(errand.initiator.flags) {
        Ok(message)
    } else {
        framed(alloc, &errand.mechanism, &message)
    }
}

/// Returns the context's subkey: the authenticator's if that is kept, otherwise the one that was there.
fn kept_subkey(
    alloc: Global,
    initiator: &Initiator,
    suite: CipherSuite,
    draw: &Draw,
) -> Result<Option<Secret<Octets>>, OutOfMemory>
    ensures { IfOk result (λ key. key ≡ kept_subkey initiator.now suite draw.now) }
{
    if keeps_subkey(initiator) {
        let key = drawn_secret(alloc, suite, draw)?;
        Ok(Some(key))
    } else {
        initiator.params.sub_session_key.copy(alloc)
    }
}

/// Returns the parameters with these keys.
fn keyed_params(
    alloc: Global,
    initiator: &Initiator,
    suite: CipherSuite,
    key: Secret<Octets>,
    draw: &Draw,
) -> Result<EncryptionParams, OutOfMemory>
    ensures { IfOk result (λ made. made ≡ record initiator.now.params {
      encryption_type = Some suite;
      session_key = Some key;
      sub_session_key = kept_subkey initiator.now suite draw.now;
    }) }
{
    let sub_session_key = kept_subkey(alloc, initiator, suite, draw)?;
    let mut made = initiator.params.copy_for(alloc, suite)?;
    made.session_key = Some(key);
    made.sub_session_key = sub_session_key;
    Ok(made)
}

fn shown_state(initiator: &Initiator) -> KerberosState
    ensures { result ≡ shown_state initiator.now }
{
    if is_one_way(initiator) {
        KerberosState::Final
    } else {
        KerberosState::ApExchange
    }
}

fn shown_number(initiator: &Initiator) -> u32
    ensures { result ≡ shown_number initiator.now }
{
    if is_one_way(initiator) {
        settled_number(initiator)
    } else {
        initiator.number
    }
}

fn shown_status(initiator: &Initiator) -> SecurityStatus
    ensures { result ≡ shown_status initiator.now }
{
    if is_one_way(initiator) {
        SecurityStatus::Ok
    } else {
        SecurityStatus::ContinueNeeded
    }
}

/// Returns the change of the context: the service's answer is awaited, or the context is established at once.
fn change_of(
    alloc: Global,
    initiator: &Initiator,
    suite: CipherSuite,
    key: Secret<Octets>,
    home: &Name,
    draw: &Draw,
) -> Result<ContextChange, OutOfMemory>
    ensures { IfOk result (λ change. change ≡ change_of initiator.now suite key home.now draw.now) }
{
    let realm = Text::from_str(alloc, home.as_str())?;
    let encryption_params = keyed_params(alloc, initiator, suite, key, draw)?;
    Ok(ContextChange {
        state: shown_state(initiator),
        realm: Some(realm),
        encryption_params,
        seq_number: shown_number(initiator),
        krb5_user_to_user: initiator.user_to_user,
        asked_at: Some(draw.moment),
        ticket_decryption_key: None,
    })
}

/// Returns the outcome of the exchange with the KDCs.
#[tactic(auto, unfolding(crate::specs::Shown::shown))]
fn shown(
    alloc: Global,
    errand: &Errand,
    suite: CipherSuite,
    key: Secret<Octets>,
    rep: KdcRep,
    home: &Name,
    draw: &Draw,
) -> Result<InitDone, OutOfMemory>
    requires errand { CanGo errand.now }
    requires rep { IsSendable rep }
    requires moment { draw.now.moment ≤ last_moment }
    ensures { IfOk result (λ done. done ≡ shown errand.now suite key rep home.now draw.now) }
{
    let message = message(alloc, errand, suite, &key, rep, draw)?;
    let token = token_of(alloc, errand, message)?;
    let change = change_of(alloc, &errand.initiator, suite, key, home, draw)?;
    Ok(InitDone {
        status: shown_status(&errand.initiator),
        token,
        change,
    })
}

fn check_key(suite: CipherSuite, key: &Secret<Octets>) -> Result<(), Cause>
    ensures { Holds causes.KeyLength (length key.now == key_size suite) result }
{
    let is_sized = key.as_ref().as_slice().len() == suite.key_size();
    hold(is_sized, Cause::KeyLength)
}

fn all_shown(
    alloc: Global,
    errand: &Errand,
    suite: CipherSuite,
    key: Secret<Octets>,
    rep: KdcRep,
    home: &Name,
    draw: &Draw,
) -> Result<InitDone, Cause>
    requires errand { CanGo errand.now }
    requires rep { IsSendable rep }
    requires moment { draw.now.moment ≤ last_moment }
    ensures { Answers (Gives (shown errand.now suite key rep home.now draw.now)) result }
{
    Ok(shown(alloc, errand, suite, key, rep, home, draw)?)
}

/// Ends the exchange with the KDCs: shows the ticket of this reply to the service, whose answer is then awaited. If a rule allows
/// it, a context that asked for no answer is established at once. The key is the ticket's session key, `home` the client's own realm.
///
/// The AP-REQ has the options that the flags ask for. Its authenticator, under that key, has the sequence number after the
/// context's own, which stays, a drawn subkey, and a checksum of type 8003 hex with the context's flags and the bindings. The AP-REQ
/// is framed, or bare in DCE style. Fails with `KeyLength` exactly if the key has not the length of the suite's keys.
#[tactic(auto, unfolding(crate::specs::Shown::ShowsTicket))]
pub fn show_ticket(
    alloc: Global,
    errand: &Errand,
    suite: CipherSuite,
    key: Secret<Octets>,
    rep: KdcRep,
    home: &Name,
    draw: &Draw,
) -> Result<InitDone, Cause>
    requires errand { CanGo errand.now }
    requires rep { IsSendable rep }
    requires moment { draw.now.moment ≤ last_moment }
    ensures step { Answers (ShowsTicket errand.now suite key rep home.now draw.now) result }
{
    check_key(suite, &key)?;
    all_shown(alloc, errand, suite, key, rep, home, draw)
}
