//! AP-REQs (RFC 4120, section 5.5.1).

ghost use Rattle.std.specs.Prelude.{◌≡◌, ◌↔◌, ◌⊎◌, ◌+◌, ◌≤◌, ◌^◌, length, IfOk, IfErr, Err};
ghost use Rattle.krb_der.specs.Layout.{spelling};
ghost use Rattle.sspi_core.specs.declared.cause.Cause.TheVariants as causes;
ghost use Rattle.sspi_core.specs.Kinds.{error_of};
ghost use Rattle.krb_crypto.specs.Suite.{key_size};
ghost use Rattle.krb_messages.specs.Layouts.{authenticator_layout, ticket_layout, ap_req_layout};
ghost use Rattle.krb_context.specs.Params.{suite_of};
ghost use Rattle.krb_requests.specs.Pieces.{sealed_under, Fits};
ghost use Rattle.krb_authenticators.specs.ApRequests.{ap_req_with, ap_req, tgs_usage, service_usage};

use bitflags::Flags;
use krb_context::{ApOptions, EncryptionParams};
use krb_crypto::CipherSuite;
use krb_der::{Asn1, Bits, Octets, OutOfMemory, boxed};
use krb_messages::constants::{
    AP_REQ_AUTHENTICATOR_USAGE, AP_REQ_MSG_TYPE, KERBEROS_VERSION, TGS_REQ_AUTHENTICATOR_USAGE,
};
use krb_messages::{ApReq, Authenticator, EncryptedData, Ticket};
use krb_requests::{Maker, sealed_under};
use sspi_core::{Cause, Error, Secret};
use std::alloc::Global;

/// Returns an AP-REQ of these parts.
fn ap_req_with(
    alloc: Global,
    options: u32,
    ticket: Ticket,
    authenticator: EncryptedData,
) -> Result<ApReq, OutOfMemory>
    ensures { IfOk result (λ made. made ≡ ap_req_with options ticket authenticator) }
{
    let mut maker = Maker::new(alloc);
    let made = ApReq {
        pvno: maker.integer(&[KERBEROS_VERSION]),
        msg_type: maker.integer(&[AP_REQ_MSG_TYPE]),
        ap_options: Bits {
            unused: 0,
            octets: maker.octets(&options.to_be_bytes()),
        },
        ticket,
        authenticator,
    };
    maker.finish(made)
}

/// Encrypts the authenticator under a session key of the suite's length.
fn sealed_authenticator(
    alloc: Global,
    suite: CipherSuite,
    key: &[u8],
    usage: u32,
    authenticator: &Authenticator,
    confounder: [u8; 16],
) -> Result<EncryptedData, OutOfMemory>
    requires key { length key.now ≡ key_size suite }
    requires authenticator { Fits authenticator_layout (2 ^ 27 + 128) authenticator.now }
    ensures made { IfOk result (λ made. made ≡ sealed_under suite key.now usage confounder (spelling authenticator_layout authenticator.now)) }
    ensures short { IfOk result (λ made. length made.cipher ≤ 2 ^ 27 + 256) }
{
    let plain = authenticator.write(alloc)?;
    sealed_under(alloc, suite, key, usage, confounder, plain.as_slice())
}

/// Returns an AP-REQ in which the authenticator is encrypted under a session key of the suite's length.
pub(crate) fn seal_ap_req(
    alloc: Global,
    suite: CipherSuite,
    key: &[u8],
    usage: u32,
    options: u32,
    ticket: Box<Ticket>,
    authenticator: &Authenticator,
    confounder: [u8; 16],
) -> Result<ApReq, OutOfMemory>
    requires key { length key.now ≡ key_size suite }
    requires ticket { Fits ticket_layout (2 ^ 24) ticket.value }
    requires authenticator { Fits authenticator_layout (2 ^ 27 + 128) authenticator.now }
    ensures made { IfOk result (λ made. made ≡ ap_req suite key.now usage confounder options ticket.value authenticator.now) }
    ensures within { IfOk result (λ made. Fits ap_req_layout (2 ^ 28) made) }
{
    let sealed = sealed_authenticator(alloc, suite, key, usage, authenticator, confounder)?;
    ap_req_with(alloc, options, Box::into_inner(ticket), sealed)
}

/// Returns an AP-REQ in which the authenticator is encrypted under the session key. Fails with `KeyLength` exactly if the key does
/// not have the length of the suite's keys.
fn ap_req_under(
    alloc: Global,
    usage: u32,
    options: u32,
    ticket: Ticket,
    session_key: &Secret<Octets>,
    authenticator: &Authenticator,
    enc_params: &EncryptionParams,
    confounder: [u8; 16],
) -> Result<ApReq, Error>
    requires ticket { Fits ticket_layout (2 ^ 24) ticket }
    requires authenticator { Fits authenticator_layout (2 ^ 27) authenticator.now }
    ensures made { IfOk result (λ made. made ≡ ap_req (suite_of enc_params.now) session_key.now usage confounder options ticket authenticator.now) }
    ensures key_length { (result ≡ Err (error_of causes.KeyLength)) ↔ ¬ (length session_key.now ≡ key_size (suite_of enc_params.now)) }
    ensures errors { IfErr result (λ e. (e ≡ error_of causes.KeyLength) ⊎ (e ≡ error_of causes.Memory)) }
    ensures within { IfOk result (λ made. Fits ap_req_layout (2 ^ 28) made) }
{
    let suite = enc_params.suite();
    let key = session_key.as_ref().as_slice();
    if key.len() != suite.key_size() {
        return Err(Error::from(Cause::KeyLength));
    }
    let ticket = boxed(alloc, ticket)?;
    Ok(seal_ap_req(
        alloc,
        suite,
        key,
        usage,
        options,
        ticket,
        authenticator,
        confounder,
    )?)
}

/// Returns an AP-REQ for a ticket-granting service: the authenticator is encrypted under the ticket's session key in the
/// parameters' suite (AES-256 if there is none), with usage 7, and no option is set. Fails with InvalidParameter KeyLength exactly
/// if the key does not have the length of the suite's keys; otherwise it fails only if memory runs out.
pub fn generate_tgs_ap_req(
    alloc: Global,
    ticket: Ticket,
    session_key: &Secret<Octets>,
    authenticator: &Authenticator,
    enc_params: &EncryptionParams,
    confounder: [u8; 16],
) -> Result<ApReq, Error>
    requires ticket { Fits ticket_layout (2 ^ 24) ticket }
    requires authenticator { Fits authenticator_layout (2 ^ 27) authenticator.now }
    ensures made { IfOk result (λ made. made ≡ ap_req (suite_of enc_params.now) session_key.now tgs_usage confounder 0 ticket authenticator.now) }
    ensures key_length { (result ≡ Err (error_of causes.KeyLength)) ↔ ¬ (length session_key.now ≡ key_size (suite_of enc_params.now)) }
    ensures errors { IfErr result (λ e. (e ≡ error_of causes.KeyLength) ⊎ (e ≡ error_of causes.Memory)) }
    ensures within { IfOk result (λ made. Fits ap_req_layout (2 ^ 28) made) }
{
    ap_req_under(
        alloc,
        TGS_REQ_AUTHENTICATOR_USAGE,
        0,
        ticket,
        session_key,
        authenticator,
        enc_params,
        confounder,
    )
}

/// Returns an AP-REQ for a service, with these options: the authenticator is encrypted under the ticket's session key in the
/// parameters' suite (AES-256 if there is none), with usage 11. Fails with InvalidParameter KeyLength exactly if the key does not
/// have the length of the suite's keys; otherwise it fails only if memory runs out.
pub fn generate_ap_req(
    alloc: Global,
    ticket: Ticket,
    session_key: &Secret<Octets>,
    authenticator: &Authenticator,
    enc_params: &EncryptionParams,
    options: ApOptions,
    confounder: [u8; 16],
) -> Result<ApReq, Error>
    requires ticket { Fits ticket_layout (2 ^ 24) ticket }
    requires authenticator { Fits authenticator_layout (2 ^ 27) authenticator.now }
    ensures made { IfOk result (λ made. made ≡ ap_req (suite_of enc_params.now) session_key.now service_usage confounder options.0 ticket authenticator.now) }
    ensures key_length { (result ≡ Err (error_of causes.KeyLength)) ↔ ¬ (length session_key.now ≡ key_size (suite_of enc_params.now)) }
    ensures errors { IfErr result (λ e. (e ≡ error_of causes.KeyLength) ⊎ (e ≡ error_of causes.Memory)) }
    ensures within { IfOk result (λ made. Fits ap_req_layout (2 ^ 28) made) }
{
    ap_req_under(
        alloc,
        AP_REQ_AUTHENTICATOR_USAGE,
        options.bits(),
        ticket,
        session_key,
        authenticator,
        enc_params,
        confounder,
    )
}
