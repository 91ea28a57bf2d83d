//! The AP-REQ in a token of the handshake.

ghost use Rattle.std.specs.Prelude.{false};
ghost use Rattle.sspi_core.specs.declared.cause.Cause.TheVariants as causes;
ghost use Rattle.sspi_core.specs.Checks.{Answers, Finds};
ghost use Rattle.krb_admission.specs.Tokens.{IsApReq, ReceivesApReq};

use krb_messages::constants::AP_REQ_TOKEN_ID;
use krb_messages::{ApReq, read_framed};
use krb_replies::{check_token_length, read_or};
use sspi_core::Cause;
use std::alloc::Global;

/// The AP-REQ in a frame.
fn framed_ap_req(alloc: Global, token: &[u8]) -> Result<ApReq, Cause>
    ensures { Answers (Finds causes.Shape (IsApReq false token.now)) result }
{
    match read_framed(token, AP_REQ_TOKEN_ID) {
        Ok((_, message)) => Ok(read_or(alloc, message, Cause::Shape)?),
        Err(_) => Err(Cause::Shape),
    }
}

/// The AP-REQ that a token is, bare or in a frame.
fn ap_req_in(alloc: Global, dce: bool, token: &[u8]) -> Result<ApReq, Cause>
    ensures { Answers (Finds causes.Shape (IsApReq dce token.now)) result }
{
    if dce {
        read_or(alloc, token, Cause::Shape)
    } else {
        framed_ap_req(alloc, token)
    }
}

/// The AP-REQ in a token of the handshake, as [`judge`](crate::judge) reads it first, for a caller who looks for the service's key by the
/// name, the realm, the version and the type that the ticket names in the clear. **Nothing of it is opened**: whoever sent it says it.
/// A token that is none, or of more than 2^24 octets, is refused as Shape.
pub fn read_token(alloc: Global, token: &[u8]) -> Result<ApReq, Cause>
    ensures { Answers (ReceivesApReq false token.now) result }
{
    receive(alloc, false, token)
}

/// The AP-REQ in a token.
pub(crate) fn receive(alloc: Global, dce: bool, token: &[u8]) -> Result<ApReq, Cause>
    ensures { Answers (ReceivesApReq dce token.now) result }
{
    check_token_length(token)?;
    ap_req_in(alloc, dce, token)
}
