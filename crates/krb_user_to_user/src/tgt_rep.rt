//! The TGT-REP of a service.

ghost use Rattle.std.specs.Prelude.{◌≡◌, ◌≤◌, ◌^◌, IfOk, length};
ghost use Rattle.krb_messages.specs.Layouts.{ticket_layout};
ghost use Rattle.krb_requests.specs.Pieces.{Fits};
ghost use Rattle.krb_user_to_user.specs.TgtReps.{tgt_rep, message, framed_tgt_rep, tgt_rep_token};

use krb_der::{Asn1, Octets, OutOfMemory};
use krb_exchange::TgtRep;
use krb_messages::constants::{KERBEROS_VERSION, TGT_REP_MSG_TYPE, TGT_REP_TOKEN_ID};
use krb_messages::{Oid, Ticket, write_framed};
use krb_requests::Maker;
use std::alloc::Global;

/// Returns the TGT-REP with this ticket (draft-swift-win2k-krb-user2user, section 3).
pub fn generate_tgt_rep(alloc: Global, ticket: Ticket) -> Result<TgtRep, OutOfMemory>
    ensures { IfOk result (λ made. made ≡ tgt_rep ticket) }
{
    let mut maker = Maker::new(alloc);
    let made = TgtRep {
        pvno: maker.integer(&[KERBEROS_VERSION]),
        msg_type: maker.integer(&[TGT_REP_MSG_TYPE]),
        ticket,
    };
    maker.finish(made)
}

/// Returns the octets of the TGT-REP with this ticket.
#[tactic(auto, unfolding(crate::specs::TgtReps::message))]
fn message(alloc: Global, ticket: Ticket) -> Result<Octets, OutOfMemory>
    requires { Fits ticket_layout (2 ^ 24) ticket }
    ensures message { IfOk result (λ octets. octets ≡ message ticket) }
    ensures short { IfOk result (λ octets. length octets ≤ 2 ^ 25) }
{
    let rep = generate_tgt_rep(alloc, ticket)?;
    rep.write(alloc)
}

/// Returns a TGT-REP in a frame.
#[tactic(auto, unfolding(crate::specs::TgtReps::framed_tgt_rep))]
fn framed(alloc: Global, octets: &Octets) -> Result<Octets, OutOfMemory>
    requires { length octets.now ≤ 2 ^ 25 }
    ensures { IfOk result (λ token. token ≡ framed_tgt_rep octets.now) }
{
    write_framed(alloc, Oid::UserToUser, TGT_REP_TOKEN_ID, octets.as_slice())
}

/// Returns the TGT-REP with this ticket as a token.
pub(crate) fn token_of(alloc: Global, dce: bool, ticket: Ticket) -> Result<Octets, OutOfMemory>
    requires { Fits ticket_layout (2 ^ 24) ticket }
    ensures { IfOk result (λ token. token ≡ tgt_rep_token dce ticket) }
{
    let message = message(alloc, ticket)?;
    if dce {
        Ok(message)
    } else {
        framed(alloc, &message)
    }
}
