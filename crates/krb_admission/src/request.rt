//! An AP-REQ, up to the question to the replay gate.

ghost use Rattle.std.specs.Prelude.{◌≡◌, IfOk, MatchResult};
ghost use Rattle.std.specs.Result.{result_map_both};
ghost use Rattle.sspi_core.specs.declared.cause.Cause.TheVariants as causes;
ghost use Rattle.sspi_core.specs.Checks.{Answers, Holds, Takes};
ghost use Rattle.krb_context.specs.ServiceKeys.{service_key};
ghost use Rattle.krb_messages.specs.Layouts.{authenticator_layout};
ghost use Rattle.krb_replies.specs.Unseals.{OpensData};
ghost use Rattle.krb_admission.specs.Requests.{is_same_client, OpensTicket, OpensAuthenticator, Requests, tag_of, record_tag, ask_of};

use crate::token::receive;
use krb_context::{KeptKey, Rules, ServerProperties};
use krb_crypto::CipherSuite;
use krb_der::{Blank, Copier, Octets, OutOfMemory, boxed};
use krb_messages::constants::{AP_REQ_AUTHENTICATOR_USAGE, TICKET_USAGE};
use krb_messages::{ApReq, Authenticator, EncTicketPart, EncryptedData, PrincipalName};
use krb_replay::{Ask, Record};
use krb_replies::{OWN_KEY, open, open_data, suite_of};
use sspi_core::{Cause, hold, take};
use std::alloc::Global;
use std::mem;

/// How many octets the checksum of a sealed text has, in either suite (RFC 3962, section 6).
const TAG_LENGTH: usize = 12;

/// An AP-REQ with what is sealed in it.
#[derive(Drop)]
pub struct Request {
    pub message: ApReq,
    /// The decrypted part of the ticket.
    pub part: EncTicketPart,
    /// The authenticator's suite.
    pub suite: CipherSuite,
    pub authenticator: Authenticator,
}

fn is_same_client(rules: Rules, part: &EncTicketPart, authenticator: &Authenticator) -> bool
    ensures { result ≡ is_same_client rules part.now authenticator.now }
{
    let (cname, shown) = (&part.cname, &authenticator.cname);
    part.crealm == authenticator.crealm
        && (rules.has(Rules::NAMES_BY_COMPONENTS) || cname.name_type == shown.name_type)
        && cname.name_string == shown.name_string
}

fn check_names(
    rules: Rules,
    part: &EncTicketPart,
    authenticator: &Authenticator,
) -> Result<(), Cause>
    ensures { Holds causes.Names (is_same_client rules part.now authenticator.now) result }
{
    hold(is_same_client(rules, part, authenticator), Cause::Names)
}

/// The key of the service that a ticket names in the clear.
fn service_key<'a>(server: &'a ServerProperties, name: &PrincipalName) -> Result<&'a Octets, Cause>
    ensures { Takes causes.NoServiceKey (service_key server.now name.now.name_string) (result_map_both (λ key. key.now) (λ e. e) result) }
{
    match server.ticket_decryption_key_for(name) {
        Some(key) => Ok(key.as_ref()),
        None => Err(Cause::NoServiceKey),
    }
}

/// Decrypts the encrypted part of the ticket. The keys that open it are kept.
fn open_ticket(
    alloc: Global,
    server: &ServerProperties,
    kept: &mut KeptKey,
    message: &ApReq,
) -> Result<EncTicketPart, Cause>
    ensures { Answers (OpensTicket server.now message.now) result }
{
    let key = service_key(server, &message.ticket.sname)?;
    let sealed = &message.ticket.enc_part;
    let (_, part) = open_data::<EncTicketPart>(alloc, kept, key, TICKET_USAGE, sealed)?;
    Ok(part)
}

/// Decrypts the authenticator, and returns its suite and the authenticator. The key comes with the ticket and opens this text
/// alone, so it is derived for this text, and nothing of it is kept.
fn open_once(
    alloc: Global,
    key: &Octets,
    sealed: &EncryptedData,
) -> Result<(CipherSuite, Authenticator), Cause>
    ensures { Answers (OpensData authenticator_layout key.now 11 sealed.now) result }
{
    let suite = take(suite_of(&sealed.etype), Cause::Etype)?;
    let value = open::<Authenticator>(
        alloc,
        OWN_KEY,
        suite,
        key.as_slice(),
        AP_REQ_AUTHENTICATOR_USAGE,
        sealed.cipher.as_slice(),
    )?;
    Ok((suite, value))
}

/// The authenticator, of the same client.
fn open_authenticator(
    alloc: Global,
    rules: Rules,
    message: &ApReq,
    part: &EncTicketPart,
) -> Result<(CipherSuite, Authenticator), Cause>
    ensures { Answers (OpensAuthenticator rules message.now part.now) result }
{
    let sealed = open_once(alloc, &part.key.key_value, &message.authenticator)?;
    check_names(rules, part, &sealed.1)?;
    Ok(sealed)
}

/// The AP-REQ in a token, with what is sealed in it.
pub(crate) fn read_request(
    alloc: Global,
    rules: Rules,
    server: &ServerProperties,
    kept: &mut KeptKey,
    dce: bool,
    token: &[u8],
) -> Result<Request, Cause>
    ensures { Answers (Requests rules server.now dce token.now) result }
{
    let message = boxed(alloc, receive(alloc, dce, token)?)?;
    let part = boxed(alloc, open_ticket(alloc, server, kept, &message)?)?;
    let (suite, authenticator) = open_authenticator(alloc, rules, &message, &part)?;
    Ok(Request {
        message: Box::into_inner(message),
        part: Box::into_inner(part),
        suite,
        authenticator,
    })
}

/// The last twelve octets of the sealed authenticator, its checksum.
pub(crate) fn tag(request: &Request) -> &[u8]
    ensures { result.now ≡ tag_of request.now }
{
    let cipher = request.message.authenticator.cipher.as_slice();
    &cipher[cipher.len().saturating_sub(TAG_LENGTH)..]
}

/// The tag that a record has.
fn record_tag(rules: Rules, request: &Request) -> &[u8]
    ensures { result.now ≡ record_tag rules request.now }
{
    if rules.has(Rules::RECORDS_BY_TAG) {
        tag(request)
    } else {
        &[]
    }
}

/// The question to the gate. Nothing but the tag is copied: the request is left with blanks.
pub(crate) fn ask_of(
    alloc: Global,
    rules: Rules,
    request: &mut Request,
    moment: u64,
) -> Result<Ask, OutOfMemory>
    ensures { IfOk result (λ ask. ask ≡ ask_of rules request.old moment) }
{
    let tag = Octets::from_slice(alloc, record_tag(rules, request))?;
    let start = request.part.starttime.unwrap_or(request.part.authtime);
    let end = request.part.endtime;
    let authenticator = &mut request.authenticator;
    let ctime = authenticator.ctime;
    let cusec = mem::replace(&mut authenticator.cusec, Blank::blank(alloc));
    let realm = mem::replace(&mut authenticator.crealm, Blank::blank(alloc));
    let name = mem::replace(&mut authenticator.cname, Blank::blank(alloc));
    let sname = mem::replace(&mut request.message.ticket.sname, Blank::blank(alloc));
    Ok(Ask {
        entry: Record {
            ctime,
            cusec: Octets::new(cusec.into_inner()),
            realm,
            name,
            tag,
        },
        sname,
        start,
        end,
        moment,
    })
}

/// Returns the question to the gate, made of copies: the request is unchanged.
pub(crate) fn copy_ask(
    alloc: Global,
    rules: Rules,
    request: &Request,
    moment: u64,
) -> Result<Ask, OutOfMemory>
    ensures { IfOk result (λ ask. ask ≡ ask_of rules request.now moment) }
{
    let tag = Octets::from_slice(alloc, record_tag(rules, request))?;
    let authenticator = &request.authenticator;
    let mut copier = Copier::new(alloc);
    let ask = Ask {
        entry: Record {
            ctime: authenticator.ctime,
            cusec: Octets::new(copier.copy(&authenticator.cusec).into_inner()),
            realm: copier.copy(&authenticator.crealm),
            name: copier.copy(&authenticator.cname),
            tag,
        },
        sname: copier.copy(&request.message.ticket.sname),
        start: request.part.starttime.unwrap_or(request.part.authtime),
        end: request.part.endtime,
        moment,
    };
    copier.finish(ask)
}
