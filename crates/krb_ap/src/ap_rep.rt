//! The initiator's AP-REP, the third leg in DCE style (MS-KILE, section 3.4.5.1; RFC 4120, section 5.5.2).

ghost use Rattle.std.specs.Prelude.{◌≡◌, ◌↔◌, ◌⊎◌, ◌<◌, ◌≤◌, ◌^◌, length, IfOk, IfErr, Err};
ghost use Rattle.krb_der.specs.Layout.{spelling};
ghost use Rattle.sspi_core.specs.declared.cause.Cause.TheVariants as causes;
ghost use Rattle.sspi_core.specs.Moments.{last_moment};
ghost use Rattle.sspi_core.specs.Kinds.{error_of};
ghost use Rattle.krb_crypto.specs.Suite.{key_size};
ghost use Rattle.krb_messages.specs.Layouts.{enc_ap_rep_part_layout, ap_rep_layout};
ghost use Rattle.krb_context.specs.Params.{suite_of};
ghost use Rattle.krb_requests.specs.Pieces.{sealed_under, Fits};
ghost use Rattle.krb_ap.specs.ApReps.{ap_rep_part, ap_rep_with, ap_rep};

use krb_context::EncryptionParams;
use krb_crypto::CipherSuite;
use krb_der::{Asn1, IntegerAsn1, Octets, OutOfMemory};
use krb_messages::constants::{AP_REP_MSG_TYPE, AP_REP_USAGE, KERBEROS_VERSION};
use krb_messages::{ApRep, EncApRepPart, EncryptedData};
use krb_requests::{Maker, sealed_under, whole_second};
use sspi_core::{Cause, Error, Secret};
use std::alloc::Global;

/// Returns the EncAPRepPart with this sequence number, the time of `now` (microseconds since 1970) and no subkey.
fn ap_rep_part(alloc: Global, seq_number: Octets, now: u64) -> Result<EncApRepPart, OutOfMemory>
    requires { now ≤ last_moment }
    ensures { IfOk result (λ part. part ≡ ap_rep_part seq_number now) }
{
    let microseconds = (now % 1_000_000) as u32;
    let mut maker = Maker::new(alloc);
    let part = EncApRepPart {
        ctime: whole_second(now),
        cusec: maker.integer(&microseconds.to_be_bytes()),
        subkey: None,
        seq_number: Some(IntegerAsn1::from_bytes_be(seq_number.into_inner())),
    };
    maker.finish(part)
}

/// Returns an AP-REP with this encrypted part.
fn ap_rep_with(alloc: Global, enc_part: EncryptedData) -> Result<ApRep, OutOfMemory>
    ensures { IfOk result (λ made. made ≡ ap_rep_with enc_part) }
{
    let mut maker = Maker::new(alloc);
    let made = ApRep {
        pvno: maker.integer(&[KERBEROS_VERSION]),
        msg_type: maker.integer(&[AP_REP_MSG_TYPE]),
        enc_part,
    };
    maker.finish(made)
}

/// Encrypts the part under a session key of the suite's length.
fn sealed_part(
    alloc: Global,
    suite: CipherSuite,
    key: &[u8],
    confounder: [u8; 16],
    part: &EncApRepPart,
) -> Result<EncryptedData, OutOfMemory>
    requires key { length key.now ≡ key_size suite }
    requires part { Fits enc_ap_rep_part_layout (2 ^ 25) part.now }
    ensures made { IfOk result (λ made. made ≡ sealed_under suite key.now 12 confounder (spelling enc_ap_rep_part_layout part.now)) }
    ensures short { IfOk result (λ made. length made.cipher ≤ 2 ^ 26) }
{
    let plain = part.write(alloc)?;
    sealed_under(
        alloc,
        suite,
        key,
        AP_REP_USAGE,
        confounder,
        plain.as_slice(),
    )
}

/// Returns an AP-REP with this sequence number and no subkey, encrypted under a session key of the suite's length.
pub(crate) fn seal_ap_rep(
    alloc: Global,
    suite: CipherSuite,
    key: &[u8],
    seq_number: Octets,
    now: u64,
    confounder: [u8; 16],
) -> Result<ApRep, OutOfMemory>
    requires key { length key.now ≡ key_size suite }
    requires moment { now ≤ last_moment }
    requires some { 0 < length seq_number }
    requires short { length seq_number ≤ 2 ^ 24 }
    ensures made { IfOk result (λ made. made ≡ ap_rep suite key.now confounder (ap_rep_part seq_number now)) }
    ensures within { IfOk result (λ made. Fits ap_rep_layout (2 ^ 27) made) }
{
    let part = ap_rep_part(alloc, seq_number, now)?;
    let enc_part = sealed_part(alloc, suite, key, confounder, &part)?;
    ap_rep_with(alloc, enc_part)
}

/// Returns an AP-REP with this sequence number, by the octets of its INTEGER, with the time of `now` and without a subkey. It is
/// encrypted under the session key in the parameters' suite (AES-256 if they have none), with usage 12.
///
/// Fails with InvalidParameter KeyLength exactly if the session key has not the length of the suite's keys; otherwise it fails
/// only if memory runs out.
pub fn generate_ap_rep(
    alloc: Global,
    session_key: &Secret<Octets>,
    seq_number: Octets,
    enc_params: &EncryptionParams,
    now: u64,
    confounder: [u8; 16],
) -> Result<ApRep, Error>
    requires moment { now ≤ last_moment }
    requires some { 0 < length seq_number }
    requires short { length seq_number ≤ 2 ^ 24 }
    ensures made { IfOk result (λ made. made ≡ ap_rep (suite_of enc_params.now) session_key.now confounder (ap_rep_part seq_number now)) }
    ensures key_length { (result ≡ Err (error_of causes.KeyLength)) ↔ ¬ (length session_key.now ≡ key_size (suite_of enc_params.now)) }
    ensures errors { IfErr result (λ e. (e ≡ error_of causes.KeyLength) ⊎ (e ≡ error_of causes.Memory)) }
    ensures within { IfOk result (λ made. Fits ap_rep_layout (2 ^ 27) made) }
{
    let suite = enc_params.suite();
    let key = session_key.as_ref().as_slice();
    if key.len() != suite.key_size() {
        return Err(Error::from(Cause::KeyLength));
    }
    Ok(seal_ap_rep(alloc, suite, key, seq_number, now, confounder)?)
}
