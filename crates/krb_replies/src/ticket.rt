//! The ticket of user-to-user.

ghost use Rattle.sspi_core.specs.declared.cause.Cause.TheVariants as causes;
ghost use Rattle.sspi_core.specs.Checks.{Answers, Finds};
ghost use Rattle.krb_replies.specs.Told.{Tells};
ghost use Rattle.krb_replies.specs.Tickets.{HasTicket, TakesTicket};

use crate::token::check_token_length;
use crate::told::tell;
use crate::unseal::read_or;
use krb_exchange::TgtRep;
use krb_messages::{Oid, Ticket, read_any_framed};
use sspi_core::{Cause, Error};
use std::alloc::Global;

fn ticket_in(alloc: Global, token: &[u8]) -> Result<Option<(Ticket, Oid<'_>)>, Cause>
    ensures { Answers (Finds causes.Shape (HasTicket token.now)) result }
{
    if token.is_empty() {
        return Ok(None);
    }
    match read_any_framed(token) {
        Err(_) => Err(Cause::Shape),
        Ok((oid, _, message)) => match read_or::<TgtRep>(alloc, message, Cause::Shape) {
            Ok(reply) => Ok(Some((reply.ticket, oid))),
            Err(cause) => Err(cause),
        },
    }
}

fn take_ticket(alloc: Global, token: &[u8]) -> Result<Option<(Ticket, Oid<'_>)>, Cause>
    ensures { Answers (TakesTicket token.now) result }
{
    check_token_length(token)?;
    ticket_in(alloc, token)
}

/// Returns the ticket in a framed TGT-REP and the object identifier of its mechanism, which borrows from the token; None if the
/// token is empty (draft-swift-win2k-krb-user2user, section 3). The token id is not compared. Fails with InvalidToken Shape if it
/// is another token, or has more than 16,777,216 octets.
#[tactic(auto, using(crate::proofs::Telling::tells))]
pub fn extract_tgt_ticket_with_oid(
    alloc: Global,
    token: &[u8],
) -> Result<Option<(Ticket, Oid<'_>)>, Error>
    ensures { Tells (TakesTicket token.now) result }
{
    tell(take_ticket(alloc, token))
}
