//! The AP-REP (RFC 4120, sections 3.2.4 and 5.5.2).

ghost use Rattle.std.specs.Prelude.{◌≡◌, ◌↔◌, ◌⊎◌, ◌+◌, ◌<◌, ◌≤◌, ◌^◌, length, IfOk, IfErr, IfSome};
ghost use Rattle.std.specs.Option.{option_copied};
ghost use Rattle.sspi_core.specs.declared.cause.Cause.TheVariants as causes;
ghost use Rattle.sspi_core.specs.Kinds.{error_of};
ghost use Rattle.krb_crypto.specs.Suite.{key_size};
ghost use Rattle.krb_crypto.specs.Sealed.{sealed};
ghost use Rattle.krb_messages.specs.Layouts.{enc_ap_rep_part_layout};
ghost use Rattle.krb_context.specs.Params.{suite_of};
ghost use Rattle.krb_admission.specs.Admission.{key_with, ap_rep_part, ap_rep_with, ap_rep, IsShortPart};

use krb_context::EncryptionParams;
use krb_crypto::{CipherSuite, CryptoError, encrypt};
use krb_der::{Asn1, IntegerAsn1, Octets, OutOfMemory, Time, TryCopy};
use krb_messages::constants::{AP_REP_MSG_TYPE, AP_REP_USAGE, KERBEROS_VERSION};
use krb_messages::{ApRep, EncApRepPart, EncryptedData, EncryptionKey};
use sspi_core::{Cause, Error, Secret};
use std::alloc::Global;

fn integer(alloc: Global, octets: &[u8]) -> Result<IntegerAsn1, OutOfMemory>
    ensures { IfOk result (λ integer. integer ≡ octets.now) }
{
    Ok(IntegerAsn1::from_bytes_be(Vec::from_slice(alloc, octets)?))
}

/// A key with the number of its suite.
fn key_with(alloc: Global, suite: CipherSuite, key: &[u8]) -> Result<EncryptionKey, OutOfMemory>
    ensures { IfOk result (λ made. made ≡ key_with suite key.now) }
{
    Ok(EncryptionKey {
        key_type: integer(alloc, &[suite.number()])?,
        key_value: Octets::from_slice(alloc, key)?,
    })
}

/// Makes the part of an AP-REP that is encrypted.
pub(crate) fn ap_rep_part(
    alloc: Global,
    suite: CipherSuite,
    ctime: Time,
    cusec: &IntegerAsn1,
    seq_number: [u8; 4],
    subkey: Option<&[u8]>,
) -> Result<EncApRepPart, OutOfMemory>
    ensures { IfOk result (λ part. part ≡ ap_rep_part suite ctime cusec.now seq_number (option_copied subkey.entry)) }
{
    let subkey = match subkey {
        None => None,
        Some(key) => Some(key_with(alloc, suite, key)?),
    };
    Ok(EncApRepPart {
        ctime,
        cusec: cusec.copy(alloc)?,
        subkey,
        seq_number: Some(integer(alloc, &seq_number)?),
    })
}

/// An AP-REP with this cipher.
fn ap_rep_with(alloc: Global, suite: CipherSuite, cipher: Octets) -> Result<ApRep, OutOfMemory>
    ensures { IfOk result (λ reply. reply ≡ ap_rep_with suite cipher) }
{
    Ok(ApRep {
        pvno: integer(alloc, &[KERBEROS_VERSION])?,
        msg_type: integer(alloc, &[AP_REP_MSG_TYPE])?,
        enc_part: EncryptedData {
            etype: integer(alloc, &[suite.number()])?,
            kvno: None,
            cipher,
        },
    })
}

/// Encrypts the octets under a session key of the suite's length.
fn seal(
    alloc: Global,
    suite: CipherSuite,
    key: &[u8],
    confounder: [u8; 16],
    plain: &Octets,
) -> Result<Octets, OutOfMemory>
    requires key { length key.now ≡ key_size suite }
    ensures sealed { IfOk result (λ cipher. cipher ≡ sealed suite key.now 12 confounder plain.now) }
    ensures longer { IfOk result (λ cipher. length cipher ≡ length plain.now + 28) }
{
    match encrypt(
        alloc,
        suite,
        key,
        AP_REP_USAGE,
        confounder,
        plain.as_slice(),
    ) {
        Ok(text) => Ok(text),
        Err(_) => Err(OutOfMemory),
    }
}

/// Makes an AP-REP with the part encrypted under the session key.
pub(crate) fn seal_ap_rep(
    alloc: Global,
    suite: CipherSuite,
    key: &[u8],
    confounder: [u8; 16],
    part: &EncApRepPart,
) -> Result<ApRep, OutOfMemory>
    requires key { length key.now ≡ key_size suite }
    requires part { IsShortPart part.now }
    ensures made { IfOk result (λ reply. reply ≡ ap_rep suite key.now confounder part.now) }
    ensures short { IfOk result (λ reply. length reply.enc_part.cipher ≤ 2 ^ 27) }
{
    let plain = part.write(alloc)?;
    let cipher = seal(alloc, suite, key, confounder, &plain)?;
    ap_rep_with(alloc, suite, cipher)
}

/// Makes an AP-REP with this time and sequence number, and with the parameters' subkey if there is one, encrypted under the
/// session key in the parameters' suite (AES-256 if there is none).
///
/// `ctime` and `cusec` are those of the authenticator that is answered, in seconds since 1970-01-01T00:00:00Z and in
/// microseconds; `seq_number` has its highest octet first. Fails with InvalidParameter KeyLength exactly if the session key
/// does not have the length of the suite's keys; otherwise fails only if memory runs out.
pub fn generate_ap_rep(
    alloc: Global,
    session_key: &Secret<Octets>,
    ctime: Time,
    cusec: &IntegerAsn1,
    seq_number: [u8; 4],
    enc_params: &EncryptionParams,
    confounder: [u8; 16],
) -> Result<ApRep, Error>
    requires some { 0 < length cusec.now }
    requires short { length cusec.now ≤ 2 ^ 24 }
    requires subkey { IfSome enc_params.now.sub_session_key (λ key. length key ≤ 2 ^ 24) }
    ensures made { let suite = suite_of enc_params.now in
        IfOk result (λ reply. reply ≡ ap_rep suite session_key.now confounder (ap_rep_part suite ctime cusec.now seq_number enc_params.now.sub_session_key)) }
    ensures key_length { (result ≡ Err (error_of causes.KeyLength)) ↔ ¬ (length session_key.now ≡ key_size (suite_of enc_params.now)) }
    ensures errors { IfErr result (λ e. (e ≡ error_of causes.KeyLength) ⊎ (e ≡ error_of causes.Memory)) }
{
    let suite = enc_params.suite();
    let key = session_key.as_ref().as_slice();
    if key.len() != suite.key_size() {
        return Err(Error::from(Cause::KeyLength));
    }
    let subkey = lent(&enc_params.sub_session_key);
    let part = ap_rep_part(alloc, suite, ctime, cusec, seq_number, subkey)?;
    Ok(seal_ap_rep(alloc, suite, key, confounder, &part)?)
}

fn lent(key: &Option<Secret<Octets>>) -> Option<&[u8]>
    ensures { option_copied result ≡ key.now }
{
    match key {
        None => None,
        Some(key) => Some(key.as_ref().as_slice()),
    }
}
