//! The request for a new password, and the random octets that are drawn for it.

ghost use Rattle.std.specs.Prelude.{◌≡◌, ◌<◌, ◌≤◌, ◌^◌, length, get_or, Some, [], IfOk};
ghost use Rattle.krb_crypto.specs.Suite.{key_size};
ghost use Rattle.krb_messages.specs.Layouts.{authenticator_layout, ticket_layout};
ghost use Rattle.krb_context.specs.Params.{suite_of};
ghost use Rattle.krb_context.specs.Contexts.{next_number};
ghost use Rattle.sspi_core.specs.Moments.{last_moment};
ghost use Rattle.krb_requests.specs.Pieces.{Fits};
ghost use Rattle.krb_authenticators.specs.Passwords.{FitsPriv};
ghost use Rattle.krb_as.specs.Granted.{IsSendable};
ghost use Rattle.krb_password_change.specs.Changes.{IsReady};
ghost use Rattle.krb_password_change.specs.Requested.{first_confounder, second_confounder, change_authenticator, message_by, change_message, written, change_request};

use crate::change::Changer;
use krb_as::{Grant, Kdc, request_to};
use krb_authenticators::{
    EncKey, GenerateAuthenticatorOptions, generate_authenticator, generate_krb_priv_request,
};
use krb_context::{EncryptionParams, drawn_secret};
use krb_crypto::CipherSuite;
use krb_der::{Items, Octets, OutOfMemory, TryCopy, boxed};
use krb_exchange::{KdcRep, KrbPrivMessage};
use krb_messages::{Authenticator, Ticket};
use sspi_core::{Draw, Secret};
use sspi_generator::NetworkRequest;
use std::alloc::Global;

/// Returns the sequence number after the context's own, modulo 2^32.
pub(crate) fn number_after(number: u32) -> u32
    ensures { result ≡ next_number number }
{
    number.wrapping_add(1)
}

/// Returns the authenticator of the client.
fn change_authenticator(
    alloc: Global,
    number: u32,
    suite: CipherSuite,
    rep: &KdcRep,
    draw: &Draw,
) -> Result<Authenticator, OutOfMemory>
    requires rep { IsSendable rep.now }
    requires moment { draw.now.moment ≤ last_moment }
    ensures made { IfOk result (λ made. made ≡ change_authenticator number suite rep.now draw.now) }
    ensures within { IfOk result (λ made. Fits authenticator_layout (2 ^ 27) made) }
{
    let key_value = drawn_secret(alloc, suite, draw)?;
    let options = GenerateAuthenticatorOptions {
        kdc_rep: rep,
        seq_num: Some(number),
        sub_key: Some(EncKey {
            key_type: suite,
            key_value,
        }),
        checksum: None,
        channel_bindings: None,
        extensions: Items::new(Vec::new(alloc)),
    };
    match generate_authenticator(alloc, options, draw.moment) {
        Ok(authenticator) => Ok(authenticator),
        Err(_) => Err(OutOfMemory),
    }
}

fn confounders(suite: CipherSuite, draw: &Draw) -> [[u8; 16]; 2]
    ensures first { get_or result 0 [] ≡ first_confounder suite draw.now }
    ensures second { get_or result 1 [] ≡ second_confounder suite draw.now }
{
    let start = suite.key_size();
    [draw.octets(start), draw.octets(start + 16)]
}

/// Returns the AP-REQ with this authenticator, and the new password.
fn message_by(
    alloc: Global,
    changer: &Changer,
    suite: CipherSuite,
    key: &Secret<Octets>,
    ticket: Ticket,
    authenticator: &Authenticator,
    draw: &Draw,
) -> Result<KrbPrivMessage, OutOfMemory>
    requires changer { IsReady changer.now }
    requires ticket { Fits ticket_layout (2 ^ 24) ticket }
    requires authenticator { Fits authenticator_layout (2 ^ 27) authenticator.now }
    ensures made { IfOk result (λ message. message ≡ message_by changer.now suite key.now ticket authenticator.now draw.now) }
    ensures fits { IfOk result FitsPriv }
{
    let params = EncryptionParams::of_suite(suite);
    let message = generate_krb_priv_request(
        alloc,
        ticket,
        key,
        changer.new_password.as_ref().as_str().as_bytes(),
        authenticator,
        &params,
        number_after(changer.number),
        changer.client.host.as_str(),
        confounders(suite, draw),
    );
    match message {
        Ok(message) => Ok(message),
        Err(_) => Err(OutOfMemory),
    }
}

/// Returns the AP-REQ and the new password.
fn change_message(
    alloc: Global,
    changer: &Changer,
    grant: &Grant,
    draw: &Draw,
) -> Result<KrbPrivMessage, OutOfMemory>
    requires changer { IsReady changer.now }
    requires rep { IsSendable grant.now.rep }
    requires moment { draw.now.moment ≤ last_moment }
    ensures made { IfOk result (λ message. message ≡ change_message changer.now grant.now draw.now) }
    ensures fits { IfOk result FitsPriv }
{
    let Grant {
        suite,
        key,
        rep,
        ..
    } = grant;
    let number = number_after(changer.number);
    let authenticator = change_authenticator(alloc, number, *suite, rep, draw)?;
    let ticket = rep.ticket.copy(alloc)?;
    message_by(alloc, changer, *suite, key, ticket, &authenticator, draw)
}

/// Returns the octets of the message.
fn written(alloc: Global, message: &KrbPrivMessage) -> Result<Octets, OutOfMemory>
    requires { FitsPriv message.now }
    ensures written { IfOk result (λ octets. octets ≡ written message.now) }
    ensures short { IfOk result (λ octets. length octets < 2 ^ 30) }
{
    message.write(alloc)
}

/// Returns the request to the service that changes passwords.
#[tactic(auto, unfolding(crate::specs::Requested::change_request))]
pub(crate) fn change_request(
    alloc: Global,
    changer: &Changer,
    grant: &Grant,
    service: &Kdc,
    draw: &Draw,
) -> Result<NetworkRequest, OutOfMemory>
    requires changer { IsReady changer.now }
    requires rep { IsSendable grant.now.rep }
    requires realm { length service.now.realm ≤ 2 ^ 24 }
    requires moment { draw.now.moment ≤ last_moment }
    ensures { IfOk result (λ request. request ≡ change_request changer.now grant.now service.now draw.now) }
{
    let message = change_message(alloc, changer, grant, draw)?;
    let message = boxed(alloc, message)?;
    let octets = written(alloc, &message)?;
    request_to(alloc, service, octets)
}
