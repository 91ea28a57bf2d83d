//! Several keys of a service, tried in turn.

ghost use Rattle.std.specs.Prelude.{◌≡◌, ◌∷◌, true, false, IfOk, IfErr};
ghost use Rattle.krb_entrance.specs.Candidates.{client_told};
ghost use Rattle.krb_entrance.specs.Turns.{leads_on, Opens, EndsBehind, EndsInTurn};

use crate::candidate::Candidate;
use crate::keys::Keys;
use krb_server::{Cause, Draw, Error};
use std::alloc::Global;

/// Returns whether another key may be the right one.
fn leads_on(cause: Cause) -> bool
    ensures { result ≡ leads_on cause }
{
    match cause {
        Cause::NoServiceKey | Cause::KeyLength | Cause::Altered => true,
        _ => false,
    }
}

/// Judges a token by the older keys in their order, after a refusal of the newest.
fn judge_older(
    alloc: Global,
    older: &[Keys],
    channel: Option<[u8; 16]>,
    token: &[u8],
    draw: &Draw,
    kept: Error,
) -> Result<Candidate, Error>
    ensures opens { IfOk result (Opens older.now channel token.now draw.now) }
    ensures client { IfOk result (λ candidate. candidate.client.value ≡ client_told candidate.judged.request) }
    ensures refused { IfErr result (EndsBehind older.now channel token.now draw.now kept) }
{
    for keys in older {
        match keys.judge(alloc, channel, token, draw) {
            Ok(candidate) => return Ok(candidate),
            Err(error) => {
                if !leads_on(error.cause) {
                    return Err(error);
                }
            }
        }
    }
    Err(kept)
}

/// Judges a token by the newest keys, and by the older ones in their order if the keys before do not decrypt the ticket: after a
/// change of keys, tickets under the older ones stay valid. Each attempt is a
/// [`Keys::judge`], which changes nothing.
///
/// Fails as the newest keys do if no keys decrypt the ticket, otherwise as the keys that decrypted it.
pub fn judge_in_turn(
    alloc: Global,
    newest: &Keys,
    older: &[Keys],
    channel: Option<[u8; 16]>,
    token: &[u8],
    draw: &Draw,
) -> Result<Candidate, Error>
    ensures opens { IfOk result (Opens (newest.now ∷ older.now) channel token.now draw.now) }
    ensures client { IfOk result (λ candidate. candidate.client.value ≡ client_told candidate.judged.request) }
    ensures refused { IfErr result (EndsInTurn newest.now older.now channel token.now draw.now) }
{
    match newest.judge(alloc, channel, token, draw) {
        Ok(candidate) => Ok(candidate),
        Err(error) => {
            if leads_on(error.cause) {
                judge_older(alloc, older, channel, token, draw, error)
            } else {
                Err(error)
            }
        }
    }
}
