//! The token of a refusal.

ghost use Rattle.std.specs.Prelude.{◌≡◌, ◌≤◌, ◌<◌, ◌^◌, ◌%◌, ◌*◌, ◌+◌, length, IfOk};
ghost use Rattle.sspi_core.specs.Checks.{Answers, Gives};
ghost use Rattle.sspi_core.specs.Moments.{last_moment};
ghost use Rattle.krb_messages.specs.Frame.{framed};
ghost use Rattle.krb_messages.specs.Oid.{krb5_oid};
ghost use Rattle.krb_requests.specs.Bodies.{component_octets};
ghost use Rattle.krb_requests.specs.Pieces.{principal};
ghost use Rattle.krb_refusals.specs.ErrorTokens.{krb_error_id, error_code, krb_error, message, token, NamesService, TellsRefusal};

use crate::code::{error_code, written_code};
use crate::service::service_name;
use crate::shortest::shortest;
use krb_der::{Asn1, Name, Octets, OutOfMemory, boxed};
use krb_exchange::KrbError;
use krb_messages::constants::{KERBEROS_VERSION, KRB_ERROR_MSG_TYPE};
use krb_messages::{Oid, PrincipalName, write_framed};
use krb_requests::{Maker, name_of, whole_second};
use sspi_core::{Cause, MAX_MOMENT, hold};
use std::alloc::Global;

/// The token id before a KRB-ERROR (RFC 4121, section 4.1).
const KRB_ERROR_TOKEN_ID: [u8; 2] = [0x03, 0x00];

/// The greatest length of the realm, and of the service's name, in bytes.
const TEXT_LIMIT: usize = 65_536;

/// Microseconds in a second.
const SECOND: u64 = 1_000_000;

fn krb_error(
    alloc: Global,
    code: u8,
    sname: PrincipalName,
    realm: Name,
    moment: u64,
) -> Result<KrbError, OutOfMemory>
    requires code { code < 128 }
    requires moment { moment ≤ last_moment }
    ensures { IfOk result (λ made. made ≡ krb_error code sname realm moment) }
{
    let error_code = written_code(alloc, code)?;
    let susec = shortest(alloc, (moment % SECOND) as u32)?;
    let mut maker = Maker::new(alloc);
    let made = KrbError {
        pvno: maker.integer(&[KERBEROS_VERSION]),
        msg_type: maker.integer(&[KRB_ERROR_MSG_TYPE]),
        ctime: None,
        cusec: None,
        stime: whole_second(moment),
        susec,
        error_code,
        crealm: None,
        cname: None,
        realm,
        sname,
        e_text: None,
        e_data: None,
    };
    maker.finish(made)
}

fn message(
    alloc: Global,
    code: u8,
    sname: PrincipalName,
    realm: Name,
    moment: u64,
) -> Result<Octets, OutOfMemory>
    requires code { code < 128 }
    requires sname { sname ≡ principal 2 sname.name_string }
    requires components { length (component_octets sname.name_string) ≤ 7 * 65536 + 6 }
    requires realm { length realm ≤ 65536 }
    requires moment { moment ≤ last_moment }
    ensures message { IfOk result (λ octets. octets ≡ message code sname realm moment) }
    ensures short { IfOk result (λ octets. length octets ≤ 2 ^ 20) }
{
    let error = boxed(alloc, krb_error(alloc, code, sname, realm, moment)?)?;
    error.write(alloc)
}

/// Returns a message after the mechanism's object identifier and the token id.
#[tactic(auto, unfolding(krb_messages::specs::Frame::framed))]
fn framed_error(alloc: Global, message: &Octets) -> Result<Octets, OutOfMemory>
    requires { length message.now ≤ 2 ^ 20 }
    ensures { IfOk result (λ token. token ≡ framed krb5_oid krb_error_id message.now) }
{
    write_framed(alloc, Oid::Krb5, KRB_ERROR_TOKEN_ID, message.as_slice())
}

fn token(
    alloc: Global,
    code: u8,
    sname: PrincipalName,
    realm: Name,
    moment: u64,
) -> Result<Octets, OutOfMemory>
    requires code { code < 128 }
    requires sname { sname ≡ principal 2 sname.name_string }
    requires components { length (component_octets sname.name_string) ≤ 7 * 65536 + 6 }
    requires realm { length realm ≤ 65536 }
    requires moment { moment ≤ last_moment }
    ensures { IfOk result (λ made. made ≡ token code sname realm moment) }
{
    let message = message(alloc, code, sname, realm, moment)?;
    framed_error(alloc, &message)
}

fn given_token(
    alloc: Global,
    cause: Cause,
    sname: PrincipalName,
    realm: Name,
    moment: u64,
) -> Result<Octets, Cause>
    requires sname { sname ≡ principal 2 sname.name_string }
    requires components { length (component_octets sname.name_string) ≤ 7 * 65536 + 6 }
    requires realm { length realm ≤ 65536 }
    requires moment { moment ≤ last_moment }
    ensures { Answers (Gives (token (error_code cause) sname realm moment)) result }
{
    Ok(token(alloc, error_code(cause), sname, realm, moment)?)
}

/// Returns the token with these names.
#[tactic(auto, unfolding(crate::specs::ErrorTokens::NamesService))]
fn named_token(
    alloc: Global,
    cause: Cause,
    service: &str,
    realm: &str,
    moment: u64,
) -> Result<Octets, Cause>
    requires service { length service.now ≤ 65536 }
    requires realm { length realm.now ≤ 65536 }
    requires moment { moment ≤ last_moment }
    ensures { Answers (NamesService cause service.now realm.now moment) result }
{
    let name = name_of(alloc, realm)?;
    let sname = service_name(alloc, service)?;
    let token = given_token(alloc, cause, sname, name, moment)?;
    Ok(token)
}

/// Returns the token with the reason of a refusal, for the client: a KRB-ERROR with the code of this cause, the service's name, as
/// `host/server.example.com`, its realm and the moment, in microseconds since 1970 (RFC 4120, section 5.9.1).
///
/// The code of `Skew` is 37, of `NotYet` 33, of `Expired` 32 and of `Replayed` 34; of each other cause 60, which says nothing of the
/// checks. A client prints the code, as 'Clock skew too great'. The token is not encrypted, and anybody can make it: a client only
/// prints it for its user.
///
/// # Errors
/// `Moment` - the moment is past `MAX_MOMENT`.
/// `Room` - the realm or the name has more than 65,536 bytes.
/// `NotAscii` - the realm or the name is not ASCII.
#[tactic(auto, unfolding(crate::specs::ErrorTokens::TellsRefusal))]
pub fn error_token(
    alloc: Global,
    cause: Cause,
    service: &str,
    realm: &str,
    moment: u64,
) -> Result<Octets, Cause>
    ensures { Answers (TellsRefusal cause service.now realm.now moment) result }
{
    hold(moment <= MAX_MOMENT, Cause::Moment)?;
    hold(realm.len() <= TEXT_LIMIT, Cause::Room)?;
    hold(service.len() <= TEXT_LIMIT, Cause::Room)?;
    named_token(alloc, cause, service, realm, moment)
}
