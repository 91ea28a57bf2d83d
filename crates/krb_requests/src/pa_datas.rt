//! Pre-authentication (RFC 4120, section 5.2.7; MS-KILE, section 2.2.3).

ghost use Rattle.std.specs.Prelude.{◌≡◌, ◌≤◌, ◌^◌, ◌==◌, ◌||◌, ◌∷◌, [], not, length, IfOk, IsTrue};
ghost use Rattle.krb_der.specs.Layout.{items_layout};
ghost use Rattle.krb_crypto.specs.Suite.{key_size, suite_of_etype};
ghost use Rattle.krb_crypto.specs.Password.{password_key};
ghost use Rattle.krb_exchange.specs.Layouts.{pa_data_layout};
ghost use Rattle.sspi_core.specs.declared.cause.Cause.TheVariants as causes;
ghost use Rattle.sspi_core.specs.Moments.{last_moment};
ghost use Rattle.sspi_core.specs.Checks.{Answers, Gives, Holds};
ghost use Rattle.krb_context.specs.Params.{suite_of};
ghost use Rattle.krb_replies.specs.Told.{Tells};
ghost use Rattle.krb_requests.specs.Pieces.{Fits};
ghost use Rattle.krb_requests.specs.PaDatas.{pac_request, timestamp, enc_timestamp, plain_pa_datas, timed_pa_datas, pa_datas, MakesPaDatas};

use crate::maker::Maker;
use crate::options::{GenerateAsPaDataOptions, GenerateKeytabPaDataOptions};
use crate::pieces::{integer_of, sealed_under, whole_second};
use krb_crypto::{CipherSuite, generate_key_from_password};
use krb_der::{Asn1, Items, Octets, OutOfMemory};
use krb_exchange::{KerbPaPacRequest, PaData, PaEncTsEnc};
use krb_messages::constants::PA_ENC_TIMESTAMP_USAGE;
use krb_replies::tell;
use sspi_core::{Cause, Error, hold};
use std::alloc::Global;

/// The type of the client's encrypted time, by the octets of its INTEGER.
const ENC_TIMESTAMP: [u8; 1] = [0x02];

/// The type of a request for a PAC, by the octets of its INTEGER.
const PAC_REQUEST: [u8; 2] = [0x00, 0x80];

/// Returns the request for a PAC.
#[tactic(auto, unfolding(crate::specs::PaDatas::pac_request))]
fn pac_request(alloc: Global) -> Result<PaData, OutOfMemory>
    ensures { IfOk result (λ made. made ≡ pac_request) }
{
    let wish = KerbPaPacRequest { include_pac: true };
    Ok(PaData {
        padata_type: integer_of(alloc, &PAC_REQUEST)?,
        padata_value: wish.write(alloc)?,
    })
}

/// Returns the whole second of a moment, and its microseconds.
fn timestamp(alloc: Global, moment: u64) -> Result<PaEncTsEnc, OutOfMemory>
    requires { moment ≤ last_moment }
    ensures { IfOk result (λ made. made ≡ timestamp moment) }
{
    let microseconds = (moment % 1_000_000) as u32;
    Ok(PaEncTsEnc {
        patimestamp: whole_second(moment),
        pausec: Some(integer_of(alloc, &microseconds.to_be_bytes())?),
    })
}

/// Returns the time, encrypted under the client's key.
#[tactic(auto, unfolding(crate::specs::PaDatas::enc_timestamp))]
fn enc_timestamp(
    alloc: Global,
    suite: CipherSuite,
    key: &[u8],
    moment: u64,
    confounder: [u8; 16],
) -> Result<PaData, OutOfMemory>
    requires key { length key.now ≡ key_size suite }
    requires moment { moment ≤ last_moment }
    ensures made { IfOk result (λ made. made ≡ enc_timestamp suite key.now moment confounder) }
    ensures short { IfOk result (λ made. length made.padata_value ≤ 512) }
{
    let time = timestamp(alloc, moment)?;
    let plain = time.write(alloc)?;
    let sealed = sealed_under(
        alloc,
        suite,
        key,
        PA_ENC_TIMESTAMP_USAGE,
        confounder,
        plain.as_slice(),
    )?;
    Ok(PaData {
        padata_type: integer_of(alloc, &ENC_TIMESTAMP)?,
        padata_value: sealed.write(alloc)?,
    })
}

fn plain_list(alloc: Global) -> Result<Items<PaData>, OutOfMemory>
    ensures { IfOk result (λ made. made ≡ plain_pa_datas) }
{
    let wish = pac_request(alloc)?;
    let mut maker = Maker::new(alloc);
    let made = maker.list_of_one(wish);
    maker.finish(made)
}

/// Returns the PA-DATA of the first AS-REQ: a request for a PAC.
pub fn plain_pa_datas(alloc: Global) -> Result<Items<PaData>, OutOfMemory>
    ensures made { IfOk result (λ made. made ≡ plain_pa_datas) }
    ensures within { IfOk result (λ made. Fits (items_layout pa_data_layout) (2 ^ 12) made) }
{
    let made = plain_list(alloc)?;
    Ok(made)
}

fn timed_list(alloc: Global, time: PaData) -> Result<Items<PaData>, OutOfMemory>
    ensures { IfOk result (λ made. made ≡ time ∷ pac_request ∷ []) }
{
    let wish = pac_request(alloc)?;
    let mut maker = Maker::new(alloc);
    let made = maker.list_of_two(time, wish);
    maker.finish(made)
}

/// Returns the PA-DATA of an AS-REQ with pre-authentication: the time, encrypted under the client's key, and a request for a PAC.
pub fn timed_pa_datas(
    alloc: Global,
    suite: CipherSuite,
    key: &[u8],
    moment: u64,
    confounder: [u8; 16],
) -> Result<Items<PaData>, OutOfMemory>
    requires key { length key.now ≡ key_size suite }
    requires moment { moment ≤ last_moment }
    ensures made { IfOk result (λ made. made ≡ timed_pa_datas suite key.now moment confounder) }
    ensures within { IfOk result (λ made. Fits (items_layout pa_data_layout) (2 ^ 12) made) }
{
    let time = enc_timestamp(alloc, suite, key, moment, confounder)?;
    let made = timed_list(alloc, time)?;
    Ok(made)
}

/// Returns the PA-DATA with pre-authentication or without.
fn pa_datas(
    alloc: Global,
    with_pre_auth: bool,
    suite: CipherSuite,
    key: &[u8],
    moment: u64,
    confounder: [u8; 16],
) -> Result<Items<PaData>, OutOfMemory>
    requires key { IsTrue with_pre_auth → length key.now ≡ key_size suite }
    requires moment { moment ≤ last_moment }
    ensures made { IfOk result (λ made. made ≡ pa_datas with_pre_auth suite key.now moment confounder) }
    ensures within { IfOk result (λ made. Fits (items_layout pa_data_layout) (2 ^ 12) made) }
{
    if with_pre_auth {
        timed_pa_datas(alloc, suite, key, moment, confounder)
    } else {
        plain_pa_datas(alloc)
    }
}

fn check_key(with_pre_auth: bool, suite: CipherSuite, key: &[u8]) -> Result<(), Cause>
    ensures { Holds causes.KeyLength (not with_pre_auth || length key.now == key_size suite) result }
{
    hold(
        !with_pre_auth || key.len() == suite.key_size(),
        Cause::KeyLength,
    )
}

fn sized_pa_datas(
    alloc: Global,
    with_pre_auth: bool,
    suite: CipherSuite,
    key: &[u8],
    moment: u64,
    confounder: [u8; 16],
) -> Result<Items<PaData>, Cause>
    requires key { length key.now ≡ key_size suite }
    requires moment { moment ≤ last_moment }
    ensures made { Answers (Gives (pa_datas with_pre_auth suite key.now moment confounder)) result }
    ensures within { IfOk result (λ made. Fits (items_layout pa_data_layout) (2 ^ 12) made) }
{
    let made = pa_datas(alloc, with_pre_auth, suite, key, moment, confounder)?;
    Ok(made)
}

/// Returns the pre-authentication under a key of any length, as a chain of checks.
#[tactic(auto, unfolding(crate::specs::PaDatas::MakesPaDatas))]
fn keyed_pa_datas(
    alloc: Global,
    with_pre_auth: bool,
    suite: CipherSuite,
    key: &[u8],
    moment: u64,
    confounder: [u8; 16],
) -> Result<Items<PaData>, Cause>
    requires { moment ≤ last_moment }
    ensures made { Answers (MakesPaDatas with_pre_auth suite key.now moment confounder) result }
    ensures within { IfOk result (λ made. Fits (items_layout pa_data_layout) (2 ^ 12) made) }
{
    check_key(with_pre_auth, suite, key)?;
    let made = pa_datas(alloc, with_pre_auth, suite, key, moment, confounder)?;
    Ok(made)
}

/// Returns the pre-authentication of an AS-REQ under the key of a password and a salt. If `with_pre_auth` is true, the time is
/// first, the whole second and its microseconds, encrypted under that key with usage 1. A request for a PAC is always there.
#[tactic(auto, using(krb_replies::proofs::Telling::tells))]
pub fn generate_pa_datas_for_as_req(
    alloc: Global,
    options: &GenerateAsPaDataOptions<'_>,
    moment: u64,
    confounder: [u8; 16],
) -> Result<Items<PaData>, Error>
    requires { moment ≤ last_moment }
    ensures made { let suite = suite_of options.now.enc_params.now in
        let key = password_key suite options.now.password.now options.now.salt.now in
        Tells (Gives (pa_datas options.now.with_pre_auth suite key moment confounder)) result }
    ensures within { IfOk result (λ made. Fits (items_layout pa_data_layout) (2 ^ 12) made) }
{
    let suite = options.enc_params.suite();
    let key = generate_key_from_password(suite, options.password.as_bytes(), options.salt);
    tell(sized_pa_datas(
        alloc,
        options.with_pre_auth,
        suite,
        key.as_slice(),
        moment,
        confounder,
    ))
}

/// Returns the pre-authentication of an AS-REQ under a key of the caller's. Fails with InvalidParameter KeyLength exactly if
/// `with_pre_auth` is true and the key does not have the length of its suite's keys.
#[tactic(auto, using(krb_replies::proofs::Telling::tells))]
pub fn generate_pa_datas_for_as_req_with_key(
    alloc: Global,
    options: &GenerateKeytabPaDataOptions,
    moment: u64,
    confounder: [u8; 16],
) -> Result<Items<PaData>, Error>
    requires known { IsTrue (options.now.key_enctype == 17 || options.now.key_enctype == 18) }
    requires moment { moment ≤ last_moment }
    ensures made { let suite = suite_of_etype options.now.key_enctype in
        Tells (MakesPaDatas options.now.with_pre_auth suite options.now.key moment confounder) result }
    ensures within { IfOk result (λ made. Fits (items_layout pa_data_layout) (2 ^ 12) made) }
{
    tell(keyed_pa_datas(
        alloc,
        options.with_pre_auth,
        CipherSuite::of_etype(options.key_enctype),
        options.key.as_ref().as_slice(),
        moment,
        confounder,
    ))
}
