//! The result of an admission.

ghost use Rattle.std.specs.Prelude.{◌≡◌, ◌+◌, ◌<◌, ◌≤◌, ◌^◌, ◌%◌, option_map, length, IfOk};
ghost use Rattle.krb_der.specs.Reading.{number_of};
ghost use Rattle.krb_messages.specs.Oid.{contents_of};
ghost use Rattle.krb_messages.specs.Frame.{framed};
ghost use Rattle.krb_admission.specs.Admission.{
  ap_rep_id,
  mechanism,
  reply_part,
  reply_message,
  token_with,
  state_behind,
  status_in,
  mutual_admission,
  subkey_suite,
  number_before,
  one_way_admission,
  admission_of,
  answer_for,
  with_client,
  settled,
  IsAnswerable,
};

use crate::ap_rep::{ap_rep_part, seal_ap_rep};
use crate::complete::is_mutual;
use crate::request::Request;
use krb_context::{Kerberos, KerberosState, ServerProperties, drawn_key};
use krb_crypto::CipherSuite;
use krb_der::{Asn1, IntegerAsn1, Octets, OutOfMemory, TryCopy};
use krb_messages::constants::AP_REP_TOKEN_ID;
use krb_messages::{EncApRepPart, EncryptionKey, Oid, write_framed};
use krb_replies::suite_of;
use sspi_core::{Draw, Secret, SecurityStatus, Username};
use std::alloc::Global;

/// The answer to a token that passes its checks.
#[derive(Drop)]
pub struct Answer {
    pub status: SecurityStatus,
    /// The token for the client; empty if the client asked for none.
    pub token: Octets,
    /// True for an AP-REQ: a client is admitted. False for the third leg, which admits nobody anew.
    pub admits: bool,
}

/// The changes that an admission makes to a context, prepared before the gate is asked.
#[derive(Drop)]
pub struct Admission {
    /// The user name of the client, if it has one here.
    pub client: Option<Username>,
    pub suite: CipherSuite,
    pub session_key: Octets,
    pub sub_session_key: Option<Octets>,
    /// True if `sub_session_key` is in the AP-REP.
    pub acceptor_subkey: bool,
    pub seq_number: u32,
    pub state: KerberosState,
    pub token: Octets,
}

/// The values of an acceptor that an admission uses.
#[derive(Drop)]
pub(crate) struct Acceptor<'a> {
    /// True in DCE style: tokens are bare, and the initiator sends a third leg.
    pub(crate) dce: bool,
    /// True if a TGT-REQ was accepted.
    pub(crate) user_to_user: bool,
    /// The context's own sequence number.
    pub(crate) number: u32,
    pub(crate) draw: &'a Draw,
}

/// The mechanism that a token names.
fn mechanism(user_to_user: bool) -> Oid<'static>
    ensures { contents_of result ≡ mechanism user_to_user }
{
    if user_to_user {
        Oid::UserToUser
    } else {
        Oid::Krb5
    }
}

fn reply_part(
    alloc: Global,
    number: u32,
    draw: &Draw,
    request: &Request,
) -> Result<EncApRepPart, OutOfMemory>
    ensures { IfOk result (λ part. part ≡ reply_part number draw.now request.now) }
{
    ap_rep_part(
        alloc,
        request.suite,
        request.authenticator.ctime,
        &request.authenticator.cusec,
        number.wrapping_add(1).to_be_bytes(),
        Some(drawn_key(request.suite, draw)),
    )
}

/// The AP-REP to a request.
#[tactic(auto, unfolding(crate::specs::Admission::reply_message))]
fn reply_message(
    alloc: Global,
    acceptor: &Acceptor,
    request: &Request,
) -> Result<Octets, OutOfMemory>
    requires { IsAnswerable request.now }
    ensures message { IfOk result (λ message. message ≡ reply_message acceptor.now.number acceptor.now.draw.now request.now) }
    ensures short { IfOk result (λ message. length message ≤ 2 ^ 28) }
{
    let part = reply_part(alloc, acceptor.number, acceptor.draw, request)?;
    let confounder = acceptor.draw.octets::<16>(request.suite.key_size());
    let key = request.part.key.key_value.as_slice();
    let reply = seal_ap_rep(alloc, request.suite, key, confounder, &part)?;
    Ok(reply.write(alloc)?)
}

/// Frames an AP-REP: returns the mechanism's name, the token id and the message.
#[tactic(auto, unfolding(krb_messages::specs::Frame::framed))]
fn framed_reply(alloc: Global, user_to_user: bool, message: &Octets) -> Result<Octets, OutOfMemory>
    requires { length message.now ≤ 2 ^ 28 }
    ensures { IfOk result (λ token. token ≡ framed (mechanism user_to_user) ap_rep_id message.now) }
{
    write_framed(
        alloc,
        mechanism(user_to_user),
        AP_REP_TOKEN_ID,
        message.as_slice(),
    )
}

/// The AP-REP to a request, as a token.
fn reply_token(alloc: Global, acceptor: &Acceptor, request: &Request) -> Result<Octets, OutOfMemory>
    requires { IsAnswerable request.now }
    ensures { IfOk result (λ token.
        token ≡ token_with acceptor.now.dce acceptor.now.user_to_user (reply_message acceptor.now.number acceptor.now.draw.now request.now)) }
{
    let message = reply_message(alloc, acceptor, request)?;
    if acceptor.dce {
        Ok(message)
    } else {
        framed_reply(alloc, acceptor.user_to_user, &message)
    }
}

/// Returns the state of a context after its AP-REP.
fn state_behind(dce: bool) -> KerberosState
    ensures { result ≡ state_behind dce }
{
    if dce {
        KerberosState::ApExchange
    } else {
        KerberosState::Final
    }
}

#[tactic(auto, unfolding(crate::specs::Admission::mutual_admission))]
fn mutual_admission(
    alloc: Global,
    acceptor: &Acceptor,
    request: &Request,
    client: Option<Username>,
) -> Result<Admission, OutOfMemory>
    requires { IsAnswerable request.now }
    ensures { IfOk result (λ admission.
        admission ≡ mutual_admission acceptor.now.dce acceptor.now.user_to_user acceptor.now.number acceptor.now.draw.now request.now client) }
{
    let token = reply_token(alloc, acceptor, request)?;
    let session_key = request.part.key.key_value.copy(alloc)?;
    let sub_session_key = Octets::from_slice(alloc, drawn_key(request.suite, acceptor.draw))?;
    Ok(Admission {
        client,
        suite: request.suite,
        session_key,
        sub_session_key: Some(sub_session_key),
        acceptor_subkey: true,
        seq_number: acceptor.number,
        state: state_behind(acceptor.dce),
        token,
    })
}

/// The suite of a subkey that is there.
fn subkey_suite(suite: CipherSuite, subkey: &Option<EncryptionKey>) -> CipherSuite
    ensures { result ≡ subkey_suite suite subkey.now }
{
    match subkey {
        Some(key) => suite_of(&key.key_type).unwrap_or(suite),
        None => suite,
    }
}

fn subkey_octets(
    alloc: Global,
    subkey: &Option<EncryptionKey>,
) -> Result<Option<Octets>, OutOfMemory>
    ensures { IfOk result (λ octets. octets ≡ option_map (λ key. key.key_value) subkey.now) }
{
    match subkey {
        Some(key) => Ok(Some(key.key_value.copy(alloc)?)),
        None => Ok(None),
    }
}

/// The low four octets, as a number.
pub(crate) fn number_low(octets: &[u8]) -> u32
    ensures { result ≡ number_of octets.now % 2 ^ 32 }
{
    let mut word: u32 = 0;
    for octet in octets {
        word = (word << 8) + u32::from(*octet);
    }
    word
}

/// Returns this end's sequence number from an authenticator's: one less, modulo 2^32; `number` if there is none.
fn number_before(number: u32, octets: &Option<IntegerAsn1>) -> u32
    ensures { result ≡ number_before number octets.now }
{
    match octets {
        Some(octets) => number_low(octets.as_slice()).wrapping_sub(1),
        None => number,
    }
}

#[tactic(auto, unfolding(crate::specs::Admission::one_way_admission))]
fn one_way_admission(
    alloc: Global,
    number: u32,
    request: &Request,
    client: Option<Username>,
) -> Result<Admission, OutOfMemory>
    ensures { IfOk result (λ admission. admission ≡ one_way_admission number request.now client) }
{
    let session_key = request.part.key.key_value.copy(alloc)?;
    let sub_session_key = subkey_octets(alloc, &request.authenticator.subkey)?;
    Ok(Admission {
        client,
        suite: subkey_suite(request.suite, &request.authenticator.subkey),
        session_key,
        sub_session_key,
        acceptor_subkey: false,
        seq_number: number_before(number, &request.authenticator.seq_number),
        state: KerberosState::Final,
        token: Octets::new(Vec::new(alloc)),
    })
}

/// Makes the admission of the client.
pub(crate) fn admission_of(
    alloc: Global,
    acceptor: &Acceptor,
    request: &Request,
    client: Option<Username>,
) -> Result<Admission, OutOfMemory>
    requires { IsAnswerable request.now }
    ensures { IfOk result (λ admission.
        admission ≡ admission_of acceptor.now.dce acceptor.now.user_to_user acceptor.now.number acceptor.now.draw.now request.now client) }
{
    if is_mutual(&request.message.ap_options) {
        mutual_admission(alloc, acceptor, request, client)
    } else {
        one_way_admission(alloc, acceptor.number, request, client)
    }
}

fn put_client(server: &mut Option<ServerProperties>, client: Option<Username>)
    ensures { server.new ≡ with_client server.old client }
{
    let Some(properties) = server else {
        return;
    };
    properties.client = client;
}

fn status_in(state: KerberosState) -> SecurityStatus
    ensures { result ≡ status_in state }
{
    match state {
        KerberosState::Final => SecurityStatus::Ok,
        _ => SecurityStatus::ContinueNeeded,
    }
}

/// The sub-session key that was made.
fn secret(key: Option<Octets>) -> Option<Secret<Octets>>
    ensures { result ≡ key }
{
    match key {
        Some(key) => Some(Secret::new(key)),
        None => None,
    }
}

/// Applies an admission to the context. This cannot fail.
#[tactic(auto, unfolding(crate::specs::Admission::settled))]
pub(crate) fn settle(server: &mut Kerberos, admission: Admission) -> Answer
    ensures server { server.new ≡ settled server.old admission }
    ensures answer { result ≡ answer_for admission }
{
    let Admission {
        client,
        suite,
        session_key,
        sub_session_key,
        acceptor_subkey,
        seq_number,
        state,
        token,
    } = admission;
    server.state = state;
    server.encryption_params.encryption_type = Some(suite);
    server.encryption_params.session_key = Some(Secret::new(session_key));
    server.encryption_params.sub_session_key = secret(sub_session_key).or(
        server.encryption_params.sub_session_key.take(),
    );
    server.encryption_params.acceptor_subkey = acceptor_subkey;
    server.seq_number = seq_number;
    put_client(&mut server.server, client);
    Answer {
        status: status_in(state),
        token,
        admits: true,
    }
}
