//! The token that names to a client the cause of its refusal.

ghost use Rattle.std.specs.Prelude.{◌≡◌, ℕ, Ok, length, Result, IfOk, IfErr, OnErr};
ghost use Rattle.sspi_core.specs.declared.error.Place.TheVariants as places;
ghost use Rattle.krb_context.specs.Refusals.{Refuses};
ghost use Rattle.krb_refusals.specs.ErrorTokens.{TellsRefusal};
ghost use Rattle.krb_sessions.specs.Gives.{Delivers};
ghost use Rattle.krb_c.specs.declared.reply.Failure.{Failure};
ghost use Rattle.krb_c.specs.Replies.{reply_of};
ghost use Rattle.krb_c.specs.Refused.{IsErrorToken, TokenNot};

use crate::codes::cause_at;
use crate::reply::{Failure, Reply, reply_of};
use crate::texts::text_of;
use krb_entrance::{Cause, Error, Octets, put};
use krb_refusals::error_token;
use std::alloc::Global;

/// Returns the token of this cause.
fn token_of(
    alloc: Global,
    cause: Cause,
    service: &str,
    realm: &str,
    moment: u64,
) -> Result<Octets, Error>
    ensures told { IfOk result (λ token. TellsRefusal cause service.now realm.now moment (Ok token)) }
    ensures refused { IfErr result (Refuses places.Elsewhere (TellsRefusal cause service.now realm.now moment)) }
{
    match error_token(alloc, cause, service, realm, moment) {
        Ok(token) => Ok(token),
        Err(cause) => Err(Error::from(cause)),
    }
}

fn write_token(
    alloc: Global,
    cause: u32,
    service: &[u8],
    realm: &[u8],
    moment: u64,
    out: &mut [u8],
) -> Result<usize, Failure>
    ensures told { IfOk result (λ count. Delivers (IsErrorToken cause service.now realm.now moment) out.old count out.new) }
    ensures fails { IfErr result (TokenNot cause service.now realm.now moment (length out.old)) }
    ensures room { OnErr result (out.new ≡ out.old) }
{
    let Some(cause) = cause_at(cause) else {
        return Err(Failure::Argument);
    };
    let service = text_of(service)?;
    let realm = text_of(realm)?;
    match token_of(alloc, cause, service, realm, moment) {
        Ok(token) => Ok(put(out, token.as_slice())?),
        Err(error) => Err(Failure::Refused(error)),
    }
}

/// Writes the GSS token that names to a client the cause of its refusal, a KRB-ERROR (RFC 4120, section 5.9.1), for the cause of a
/// reply: its client prints it, as 'Clock skew too great'. The service is named as `host/server.example.com`, with its realm; the
/// moment is the acceptor's. Skew, NotYet, Expired and Replayed have their own codes, and every other cause the general one. It is not
/// protected: anybody can make it.
///
/// # Errors
/// ARGUMENT: no cause has the number, or a text is not UTF-8.
/// REFUSED as Moment: the moment is after the end of 9999-12-28. As Room: a text has over 65,536 bytes. As NotAscii: a text is not
/// ASCII.
#[unsafe(no_mangle)]
pub extern "C" fn mk_error_token(
    alloc: Global,
    cause: u32,
    service: &[u8],
    realm: &[u8],
    moment: u64,
    out: &mut [u8],
) -> Reply
    ensures { (answer : Result ℕ Failure) × (result ≡ reply_of answer)
        × IfOk answer (λ count. Delivers (IsErrorToken cause service.now realm.now moment) out.old count out.new)
        × IfErr answer (TokenNot cause service.now realm.now moment (length out.old))
        × OnErr answer (out.new ≡ out.old) }
{
    reply_of(write_token(alloc, cause, service, realm, moment, out))
}
