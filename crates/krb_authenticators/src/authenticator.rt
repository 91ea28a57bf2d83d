//! Authenticators (RFC 4120, section 5.5.1).

ghost use Rattle.std.specs.Prelude.{◌≡◌, ◌↔◌, ◌⊎◌, ◌≤◌, ◌^◌, length, IfOk, IfErr, IfSome, option_map, Some, true, false, ◌∷◌, [], Err};
ghost use Rattle.std.specs.Option.{option_copied};
ghost use Rattle.sspi_core.specs.declared.cause.Cause.TheVariants as causes;
ghost use Rattle.sspi_core.specs.Moments.{last_moment};
ghost use Rattle.sspi_core.specs.Kinds.{error_of};
ghost use Rattle.krb_messages.specs.Layouts.{authenticator_layout};
ghost use Rattle.krb_requests.specs.Pieces.{whole_second, Fits};
ghost use Rattle.krb_authenticators.specs.Checksums.{with_hash};
ghost use Rattle.krb_authenticators.specs.Bindings.{bindings_hash, AreShortBindings};
ghost use Rattle.krb_authenticators.specs.Authenticators.{
  microseconds,
  number_octets,
  subkey,
  is_gss,
  bound,
  checksum,
  lacks_room,
  bindings_sign,
  sign_if,
  authenticator,
  AreShort,
};

use crate::bindings::bindings_hash;
use crate::options::{ChecksumOptions, EncKey, GenerateAuthenticatorOptions};
use krb_der::{IntegerAsn1, Octets, OutOfMemory};
use krb_exchange::KdcRep;
use krb_messages::constants::{
    AP_OPTIONS_AUTHORIZATION_TYPE, CHANNEL_BINDINGS_AP_OPTION, GSS_CHECKSUM_TYPE, KERBEROS_VERSION,
};
use krb_messages::{
    Authenticator, AuthorizationData, AuthorizationDataElement, Checksum, EncryptionKey,
};
use krb_requests::{Maker, encryption_key, whole_second};
use sspi_core::{Cause, ChannelBindings, Error};
use std::alloc::Global;

fn is_gss(checksum_type: &Octets) -> bool
    ensures { result ≡ is_gss checksum_type.now }
{
    checksum_type.as_slice() == GSS_CHECKSUM_TYPE.as_slice()
}

/// Returns whether bindings have to go into a checksum that has no room for their hash.
fn lacks_room(bindings: Option<&ChannelBindings>, checksum: &Option<ChecksumOptions>) -> bool
    ensures { result ≡ lacks_room (option_copied bindings.entry) checksum.now }
{
    match (bindings, checksum) {
        (Some(_), Some(checksum)) => {
            is_gss(&checksum.checksum_type) && checksum.checksum_value.as_slice().len() < 20
        }
        _ => false,
    }
}

fn with_hash(value: Octets, hash: [u8; 16]) -> Octets
    requires { 20 ≤ length value }
    ensures { result ≡ with_hash value hash }
{
    let mut octets = value.into_inner();
    octets[4..20].copy_from_slice(&hash);
    Octets::new(octets)
}

/// Returns the value of a checksum, with the hash of the bindings if the checksum is of type 8003 hex.
fn bound(checksum_type: &Octets, value: Octets, bindings: &ChannelBindings) -> Octets
    requires bindings { AreShortBindings bindings.now }
    requires room { is_gss checksum_type.now ≡ true → 20 ≤ length value }
    ensures { result ≡ bound checksum_type.now value (bindings_hash bindings.now) }
{
    if is_gss(checksum_type) {
        with_hash(value, bindings_hash(bindings))
    } else {
        value
    }
}

fn checksum_of(options: ChecksumOptions, bindings: Option<&ChannelBindings>) -> Checksum
    requires bindings { IfSome (option_copied bindings) AreShortBindings }
    requires room { lacks_room (option_copied bindings) (Some options) ≡ false }
    ensures { result ≡ checksum (option_copied bindings.entry) options }
{
    let ChecksumOptions {
        checksum_type,
        checksum_value,
    } = options;
    let checksum = match bindings {
        None => checksum_value,
        Some(bindings) => bound(&checksum_type, checksum_value, bindings),
    };
    Checksum {
        cksumtype: IntegerAsn1::from_bytes_be(checksum_type.into_inner()),
        checksum,
    }
}

fn checksum_if(
    options: Option<ChecksumOptions>,
    bindings: Option<&ChannelBindings>,
) -> Option<Checksum>
    requires bindings { IfSome (option_copied bindings) AreShortBindings }
    requires room { lacks_room (option_copied bindings) options ≡ false }
    ensures { result ≡ option_map (checksum (option_copied bindings.entry)) options }
{
    match options {
        None => None,
        Some(options) => Some(checksum_of(options, bindings)),
    }
}

/// Returns the sign that there are channel bindings.
fn bindings_sign(alloc: Global) -> Result<AuthorizationData, OutOfMemory>
    ensures { IfOk result (λ made. made ≡ bindings_sign) }
{
    let mut maker = Maker::new(alloc);
    let element = AuthorizationDataElement {
        ad_type: maker.integer(&AP_OPTIONS_AUTHORIZATION_TYPE),
        ad_data: maker.octets(&CHANNEL_BINDINGS_AP_OPTION),
    };
    let sign = maker.list_of_one(element);
    maker.finish(sign)
}

fn sign_if(
    alloc: Global,
    bindings: Option<&ChannelBindings>,
) -> Result<Option<AuthorizationData>, OutOfMemory>
    ensures { IfOk result (λ made. made ≡ sign_if (option_copied bindings.entry)) }
{
    match bindings {
        None => Ok(None),
        Some(_) => Ok(Some(bindings_sign(alloc)?)),
    }
}

fn subkey_of(alloc: Global, key: &EncKey) -> Result<EncryptionKey, OutOfMemory>
    ensures { IfOk result (λ made. made ≡ subkey key.now) }
{
    encryption_key(alloc, key.key_type, key.key_value.as_ref().as_slice())
}

fn subkey_if(alloc: Global, key: &Option<EncKey>) -> Result<Option<EncryptionKey>, OutOfMemory>
    ensures { IfOk result (λ made. made ≡ option_map subkey key.now) }
{
    match key {
        None => Ok(None),
        Some(key) => Ok(Some(subkey_of(alloc, key)?)),
    }
}

/// Returns a number of 32 bits as an INTEGER.
pub(crate) fn number(alloc: Global, number: u32) -> Result<IntegerAsn1, OutOfMemory>
    ensures { IfOk result (λ made. made ≡ number_octets number) }
{
    IntegerAsn1::from_bytes_be_unsigned(alloc, &number.to_be_bytes())
}

fn number_if(alloc: Global, seq_num: Option<u32>) -> Result<Option<IntegerAsn1>, OutOfMemory>
    ensures { IfOk result (λ made. made ≡ option_map number_octets seq_num) }
{
    match seq_num {
        None => Ok(None),
        Some(seq_num) => Ok(Some(number(alloc, seq_num)?)),
    }
}

/// The optional fields of an authenticator that need memory.
#[derive(Drop)]
struct Extras {
    subkey: Option<EncryptionKey>,
    seq_number: Option<IntegerAsn1>,
    authorization_data: Option<AuthorizationData>,
}

fn extras_of(
    alloc: Global,
    seq_num: Option<u32>,
    key: &Option<EncKey>,
    bindings: Option<&ChannelBindings>,
) -> Result<Extras, OutOfMemory>
    ensures subkey { IfOk result (λ made. made.subkey ≡ option_map subkey key.now) }
    ensures number { IfOk result (λ made. made.seq_number ≡ option_map number_octets seq_num) }
    ensures sign { IfOk result (λ made. made.authorization_data ≡ sign_if (option_copied bindings.entry)) }
{
    Ok(Extras {
        subkey: subkey_if(alloc, key)?,
        seq_number: number_if(alloc, seq_num)?,
        authorization_data: sign_if(alloc, bindings)?,
    })
}

/// Returns an authenticator of these parts.
fn put_together(
    alloc: Global,
    rep: &KdcRep,
    cksum: Option<Checksum>,
    extras: Extras,
    now: u64,
) -> Result<Authenticator, OutOfMemory>
    requires { now ≤ last_moment }
    ensures { IfOk result (λ made. made ≡ record {
      authenticator_vno = 5 ∷ [];
      crealm = rep.now.crealm;
      cname = rep.now.cname;
      cksum = cksum;
      cusec = microseconds now;
      ctime = whole_second now;
      subkey = extras.subkey;
      seq_number = extras.seq_number;
      authorization_data = extras.authorization_data;
    }) }
{
    let mut maker = Maker::new(alloc);
    let made = Authenticator {
        authenticator_vno: maker.integer(&[KERBEROS_VERSION]),
        crealm: maker.copy(&rep.crealm),
        cname: maker.copy(&rep.cname),
        cksum,
        cusec: maker.integer(&((now % 1_000_000) as u32).to_be_bytes()),
        ctime: whole_second(now),
        subkey: extras.subkey,
        seq_number: extras.seq_number,
        authorization_data: extras.authorization_data,
    };
    maker.finish(made)
}

/// Returns an authenticator: the client, and the time.
///
/// An authenticator has the realm and the name of the reply's client, the whole second of `now` and its microseconds, and the
/// sequence number, the subkey and the checksum of the options if they have one. With channel bindings it has their sign, and
/// their hash is in octets 4 to 19 of a checksum of type 8003 hex (RFC 4121, section 4.1.1). Fails with InvalidParameter Checksum
/// exactly if bindings have to go into a checksum of that type with less than 20 octets; otherwise it fails only if memory runs
/// out.
pub fn generate_authenticator(
    alloc: Global,
    options: GenerateAuthenticatorOptions<'_>,
    now: u64,
) -> Result<Authenticator, Error>
    requires moment { now ≤ last_moment }
    requires short { AreShort options.kdc_rep.now options.sub_key options.checksum (option_copied options.channel_bindings) }
    ensures made { IfOk result (λ made. made ≡ authenticator options.entry.kdc_rep.now options.entry.seq_num options.entry.sub_key
        options.entry.checksum (option_copied options.entry.channel_bindings) now) }
    ensures checksum { (result ≡ Err (error_of causes.Checksum)) ↔ (lacks_room (option_copied options.entry.channel_bindings) options.entry.checksum ≡ true) }
    ensures errors { IfErr result (λ e. (e ≡ error_of causes.Checksum) ⊎ (e ≡ error_of causes.Memory)) }
    ensures within { IfOk result (λ made. Fits authenticator_layout (2 ^ 27) made) }
{
    let bindings = options.channel_bindings;
    if lacks_room(bindings, &options.checksum) {
        return Err(Error::from(Cause::Checksum));
    }
    let extras = extras_of(alloc, options.seq_num, &options.sub_key, bindings)?;
    let cksum = checksum_if(options.checksum, bindings);
    Ok(put_together(alloc, options.kdc_rep, cksum, extras, now)?)
}
