//! A token that begins user-to-user.

ghost use Rattle.std.specs.Prelude.{◌≡◌, true, false, IfOk};
ghost use Rattle.krb_server.specs.TgtReqs.{Found, IsTgtReq, is_first, may_begin, BeginsUserToUser};

use krb_context::KerberosState;
use krb_der::{Asn1, Fault, OutOfMemory};
use krb_exchange::TgtReq;
use krb_messages::constants::TGT_REQ_TOKEN_ID;
use krb_messages::read_framed;
use krb_replies::MAX_TOKEN_LEN;
use std::alloc::Global;

/// The TGT-REQ that the octets are.
fn bare_tgt_req(alloc: Global, token: &[u8]) -> Result<Option<TgtReq>, OutOfMemory>
    ensures { IfOk result (λ found. Found (IsTgtReq true token.now) found) }
{
    match TgtReq::read(alloc, token) {
        Ok(tgt_req) => Ok(Some(tgt_req)),
        Err(Fault::Shape) => Ok(None),
        Err(Fault::OutOfMemory) => Err(OutOfMemory),
    }
}

/// The TGT-REQ in a frame.
fn framed_tgt_req(alloc: Global, token: &[u8]) -> Result<Option<TgtReq>, OutOfMemory>
    ensures { IfOk result (λ found. Found (IsTgtReq false token.now) found) }
{
    match read_framed(token, TGT_REQ_TOKEN_ID) {
        Ok((_, message)) => bare_tgt_req(alloc, message),
        Err(_) => Ok(None),
    }
}

fn tgt_req_of(alloc: Global, dce: bool, token: &[u8]) -> Result<Option<TgtReq>, OutOfMemory>
    ensures { IfOk result (λ found. Found (IsTgtReq dce token.now) found) }
{
    if dce {
        bare_tgt_req(alloc, token)
    } else {
        framed_tgt_req(alloc, token)
    }
}

fn is_first(state: KerberosState) -> bool
    ensures { result ≡ is_first state }
{
    state == KerberosState::TgtExchange
}

fn may_begin(state: KerberosState, token: &[u8]) -> bool
    ensures { result ≡ may_begin state token.now }
{
    is_first(state) && token.len() <= MAX_TOKEN_LEN
}

/// The TGT-REQ that begins user-to-user in this state.
pub(crate) fn tgt_req_in(
    alloc: Global,
    dce: bool,
    state: KerberosState,
    token: &[u8],
) -> Result<Option<TgtReq>, OutOfMemory>
    ensures { IfOk result (λ found. Found (BeginsUserToUser dce state token.now) found) }
{
    if may_begin(state, token) {
        tgt_req_of(alloc, dce, token)
    } else {
        Ok(None)
    }
}
