//! The request for a new password (RFC 3244, section 2).

ghost use Rattle.std.specs.Prelude.{◌≡◌, ◌↔◌, ◌⊎◌, ◌+◌, ◌≤◌, ◌^◌, length, IfOk, IfErr, Err, false, get_or, []};
ghost use Rattle.krb_der.specs.Layout.{spelling};
ghost use Rattle.sspi_core.specs.declared.cause.Cause.TheVariants as causes;
ghost use Rattle.sspi_core.specs.Kinds.{error_of};
ghost use Rattle.krb_crypto.specs.Suite.{key_size};
ghost use Rattle.krb_messages.specs.Layouts.{authenticator_layout, ticket_layout, ap_req_layout};
ghost use Rattle.krb_exchange.specs.Layouts.{enc_krb_priv_part_layout, krb_priv_layout};
ghost use Rattle.krb_context.specs.Params.{suite_of};
ghost use Rattle.krb_requests.specs.Pieces.{sealed_under, Fits};
ghost use Rattle.krb_authenticators.specs.ApRequests.{ap_req, service_usage};
ghost use Rattle.krb_authenticators.specs.Passwords.{priv_part, krb_priv_with, krb_priv, chosen_key, are_sized, priv_request, FitsPriv};

use crate::ap_req::seal_ap_req;
use crate::authenticator::number;
use krb_context::EncryptionParams;
use krb_crypto::CipherSuite;
use krb_der::{Asn1, Octets, OutOfMemory, boxed};
use krb_exchange::{ApMessage, EncKrbPrivPart, KrbPriv, KrbPrivMessage};
use krb_messages::constants::{
    AP_REQ_AUTHENTICATOR_USAGE, KERBEROS_VERSION, KRB_PRIV_MSG_TYPE, KRB_PRIV_USAGE,
    NETBIOS_ADDRESS_TYPE,
};
use krb_messages::{Authenticator, EncryptedData, EncryptionKey, HostAddress, Ticket};
use krb_requests::{Maker, sealed_under};
use sspi_core::{Cause, Error, Secret};
use std::alloc::Global;

/// Returns the part that a KRB-PRIV encrypts.
fn priv_part(
    alloc: Global,
    password: &[u8],
    seq_num: u32,
    address: &str,
) -> Result<EncKrbPrivPart, OutOfMemory>
    ensures { IfOk result (λ made. made ≡ priv_part password.now seq_num address.now) }
{
    let seq_number = number(alloc, seq_num)?;
    let mut maker = Maker::new(alloc);
    let made = EncKrbPrivPart {
        user_data: maker.octets(password),
        timestamp: None,
        usec: None,
        seq_number: Some(seq_number),
        s_address: HostAddress {
            addr_type: maker.integer(&[NETBIOS_ADDRESS_TYPE]),
            address: maker.octets(address.as_bytes()),
        },
        r_address: None,
    };
    maker.finish(made)
}

/// Returns a KRB-PRIV with this encrypted part.
fn krb_priv_with(alloc: Global, enc_part: EncryptedData) -> Result<KrbPriv, OutOfMemory>
    ensures { IfOk result (λ made. made ≡ krb_priv_with enc_part) }
{
    let mut maker = Maker::new(alloc);
    let made = KrbPriv {
        pvno: maker.integer(&[KERBEROS_VERSION]),
        msg_type: maker.integer(&[KRB_PRIV_MSG_TYPE]),
        enc_part,
    };
    maker.finish(made)
}

/// Encrypts the part under a key of the suite's length.
fn sealed_part(
    alloc: Global,
    suite: CipherSuite,
    key: &[u8],
    part: &EncKrbPrivPart,
    confounder: [u8; 16],
) -> Result<EncryptedData, OutOfMemory>
    requires key { length key.now ≡ key_size suite }
    requires part { Fits enc_krb_priv_part_layout (2 ^ 26) part.now }
    ensures made { IfOk result (λ made. made ≡ sealed_under suite key.now 13 confounder (spelling enc_krb_priv_part_layout part.now)) }
    ensures short { IfOk result (λ made. length made.cipher ≤ 2 ^ 27) }
{
    let plain = part.write(alloc)?;
    sealed_under(
        alloc,
        suite,
        key,
        KRB_PRIV_USAGE,
        confounder,
        plain.as_slice(),
    )
}

/// Returns a KRB-PRIV in which the part is encrypted.
fn krb_priv(
    alloc: Global,
    suite: CipherSuite,
    key: &[u8],
    part: &EncKrbPrivPart,
    confounder: [u8; 16],
) -> Result<KrbPriv, OutOfMemory>
    requires key { length key.now ≡ key_size suite }
    requires part { Fits enc_krb_priv_part_layout (2 ^ 26) part.now }
    ensures made { IfOk result (λ made. made ≡ krb_priv suite key.now confounder part.now) }
    ensures within { IfOk result (λ made. Fits krb_priv_layout (2 ^ 28) made) }
{
    let sealed = sealed_part(alloc, suite, key, part, confounder)?;
    krb_priv_with(alloc, sealed)
}

/// Returns the octets of the client's subkey, or no octets if there is no subkey.
fn chosen_key(subkey: &Option<EncryptionKey>) -> &[u8]
    ensures { result.now ≡ chosen_key subkey.now }
{
    match subkey {
        None => &[],
        Some(key) => key.key_value.as_slice(),
    }
}

/// Returns whether both keys have the length of the suite's keys.
fn are_sized(suite: CipherSuite, key: &[u8], subkey: &[u8]) -> bool
    ensures { result ≡ are_sized suite key.now subkey.now }
{
    key.len() == suite.key_size() && subkey.len() == suite.key_size()
}

/// Returns the request to the service that changes passwords: an AP-REQ without options, and after it the new password in a
/// KRB-PRIV under the authenticator's subkey.
///
/// Both are encrypted in the parameters' suite (AES-256 if there is none), the authenticator under the ticket's session key with
/// usage 11 and the first confounder, the password with usage 13 and the second confounder. `seq_num` is the sequence number of
/// the KRB-PRIV, and `address` is the sender's NetBIOS name. Fails with InvalidParameter KeyLength exactly if one of the two keys
/// does not have the length of the suite's keys, or the authenticator has no subkey; otherwise it fails only if memory runs out.
pub fn generate_krb_priv_request(
    alloc: Global,
    ticket: Ticket,
    session_key: &Secret<Octets>,
    new_password: &[u8],
    authenticator: &Authenticator,
    enc_params: &EncryptionParams,
    seq_num: u32,
    address: &str,
    confounders: [[u8; 16]; 2],
) -> Result<KrbPrivMessage, Error>
    requires ticket { Fits ticket_layout (2 ^ 24) ticket }
    requires authenticator { Fits authenticator_layout (2 ^ 27) authenticator.now }
    requires password { length new_password.now ≤ 2 ^ 24 }
    requires address { length address.now ≤ 2 ^ 24 }
    ensures made { IfOk result (λ made. made ≡ priv_request (suite_of enc_params.now) session_key.now
        (get_or confounders 0 []) (get_or confounders 1 []) ticket authenticator.now (priv_part new_password.now seq_num address.now)) }
    ensures key_length { (result ≡ Err (error_of causes.KeyLength))
        ↔ (are_sized (suite_of enc_params.now) session_key.now (chosen_key authenticator.now.subkey) ≡ false) }
    ensures errors { IfErr result (λ e. (e ≡ error_of causes.KeyLength) ⊎ (e ≡ error_of causes.Memory)) }
    ensures within { IfOk result FitsPriv }
{
    let suite = enc_params.suite();
    let key = session_key.as_ref().as_slice();
    let subkey = chosen_key(&authenticator.subkey);
    if !are_sized(suite, key, subkey) {
        return Err(Error::from(Cause::KeyLength));
    }
    let [first, second] = confounders;
    let ticket = boxed(alloc, ticket)?;
    let plain = priv_part(alloc, new_password, seq_num, address)?;
    let part = boxed(alloc, plain)?;
    let sealed = krb_priv(alloc, suite, subkey, &part, second)?;
    let krb_priv = boxed(alloc, sealed)?;
    let request = seal_ap_req(
        alloc,
        suite,
        key,
        AP_REQ_AUTHENTICATOR_USAGE,
        0,
        ticket,
        authenticator,
        first,
    )?;
    Ok(KrbPrivMessage {
        ap_message: ApMessage::ApReq(request),
        krb_priv: Box::into_inner(krb_priv),
    })
}
