//! A token, judged by the keys that its ticket chooses.

ghost use Rattle.std.specs.Prelude.{◌≡◌, ◌∷◌, map, IfOk, IfErr};
ghost use Rattle.krb_entrance.specs.Candidates.{client_told};
ghost use Rattle.krb_entrance.specs.Turns.{Opens, EndsInTurn};
ghost use Rattle.krb_keyring.specs.Judging.{single, EndsBy};

use krb_context::{AdditionalServiceKeys, ServerProperties};
use krb_der::{Copier, IntegerAsn1, OutOfMemory, TryCopy};
use krb_entrance::{Candidate, Cause, Draw, Error, Keys, judge_in_turn};
use krb_keytab::KeytabEntry;
use krb_messages::PrincipalName;
use krb_messages::constants::NT_SRV_INST;
use std::alloc::Global;

/// Returns keys with the name and the key of an entry alone.
fn single(alloc: Global, token_limit: usize, entry: &KeytabEntry) -> Result<Keys, OutOfMemory>
    ensures { IfOk result (λ keys. keys ≡ single token_limit entry.now) }
{
    let mut name_type = Vec::new(alloc);
    name_type.push(NT_SRV_INST)?;
    let key = entry.key.copy(alloc)?;
    let mut copier = Copier::new(alloc);
    let keys = Keys {
        properties: ServerProperties {
            service_name: PrincipalName {
                name_type: IntegerAsn1::from_bytes_be(name_type),
                name_string: copier.copy(&entry.components),
            },
            user: None,
            client: None,
            max_time_skew: 0,
            ticket_decryption_key: Some(key),
            additional_service_keys: AdditionalServiceKeys::empty(alloc),
        },
        token_limit,
    };
    copier.finish(keys)
}

fn singles(
    alloc: Global,
    token_limit: usize,
    entries: &[&KeytabEntry],
) -> Result<Vec<Keys>, OutOfMemory>
    ensures { IfOk result (λ keys. keys.items ≡ map (single token_limit) (map (λ entry. entry.now) entries.now)) }
{
    let mut keys = Vec::with_capacity(alloc, entries.len())?;
    for entry in entries {
        keys.push(single(alloc, token_limit, entry)?)?;
    }
    Ok(keys)
}

/// Judges a token by the newest key, and by the older ones in their order if the keys before do not decrypt the ticket.
fn judge_from(
    alloc: Global,
    token_limit: usize,
    newest: &KeytabEntry,
    older: &[&KeytabEntry],
    channel: Option<[u8; 16]>,
    token: &[u8],
    draw: &Draw,
) -> Result<Candidate, Error>
    ensures opens { IfOk result (Opens (single token_limit newest.now ∷ map (single token_limit) (map (λ entry. entry.now) older.now)) channel token.now draw.now) }
    ensures client { IfOk result (λ candidate. candidate.client.value ≡ client_told candidate.judged.request) }
    ensures refused { IfErr result (EndsInTurn (single token_limit newest.now) (map (single token_limit) (map (λ entry. entry.now) older.now)) channel token.now draw.now) }
{
    let newest = single(alloc, token_limit, newest)?;
    let older = singles(alloc, token_limit, older)?;
    judge_in_turn(alloc, &newest, older.as_slice(), channel, token, draw)
}

/// Judges a token by these keys in turn.
pub(crate) fn judge_by(
    alloc: Global,
    token_limit: usize,
    chosen: &[&KeytabEntry],
    channel: Option<[u8; 16]>,
    token: &[u8],
    draw: &Draw,
) -> Result<Candidate, Error>
    ensures opens { IfOk result (Opens (map (single token_limit) (map (λ entry. entry.now) chosen.now)) channel token.now draw.now) }
    ensures client { IfOk result (λ candidate. candidate.client.value ≡ client_told candidate.judged.request) }
    ensures refused { IfErr result (EndsBy token_limit (map (λ entry. entry.now) chosen.now) channel token.now draw.now) }
{
    match chosen {
        [] => Err(Error::from(Cause::NoServiceKey)),
        [newest, older @ ..] => {
            judge_from(alloc, token_limit, newest, older, channel, token, draw)
        }
    }
}
