//! Opening the body of a token.

ghost use Rattle.std.specs.Prelude.{◌≡◌, ◌↔◌, ◌+◌, ◌-◌, ◌≤◌, ◌<◌, ◌++◌, ℕ, List, length, take, drop, slice_index, vec_len, IsTrue, MatchOption, IfOk, IfSome};
ghost use Rattle.krb_crypto.specs.Keyed.{IsHmacOf};
ghost use Rattle.krb_crypto.specs.Hmac.{hmac12};
ghost use Rattle.krb_crypto.specs.Suite.{key_size, kc};
ghost use Rattle.krb_context.specs.Header.{ec_of, without_counts};
ghost use Rattle.krb_context.specs.Spelled.{covered, covered_of};
ghost use Rattle.krb_context.specs.Decrypted.{IsDecrypted, HasCode};
ghost use Rattle.krb_context.specs.Spelt.{IsSealedAs, IsClearAs, covered_code};

use crate::buffers::Buffers;
use crate::header::{ec_of, is_copy_of, without_counts};
use crate::opened::OpenedText;
use krb_crypto::{CipherSuite, HmacState, SealingKey, is_equal, start_checksum};
use sspi_core::{BufferType, Part, SecurityBufferRef};

/// One buffer's share of what the checksum covers.
fn covered_of<'a>(buffer: &'a SecurityBufferRef, plain: &'a [u8]) -> &'a [u8]
    ensures { result.now ≡ covered_of plain.now buffer.now }
{
    if buffer.is_part(Part::Plain) {
        plain
    } else if matches!(buffer.kind(), BufferType::Data) {
        buffer.data()
    } else {
        &[]
    }
}

/// All data go into the code, the plain text in the place of the plain data.
pub(crate) fn update_covered(state: &mut HmacState, buffers: &[SecurityBufferRef], plain: &[u8])
    ensures { (key message : List ℕ) → IsHmacOf key message state.old → IsHmacOf key (message ++ covered plain.now buffers.now) state.new }
{
    for buffer in buffers {
        state.update(covered_of(buffer, plain));
    }
}

/// Returns the checksum of a confounder, the data and the octets after the plain text; the plain text ends at `end`.
#[tactic(auto, unfolding(crate::specs::Spelt::covered_code))]
pub(crate) fn covered_code(
    sealing: &SealingKey,
    message: &Buffers<'_>,
    text: &[u8],
    end: usize,
) -> [u8; 12]
    requires start { 16 ≤ end }
    requires within { end ≤ length text.now }
    ensures { result ≡ covered_code sealing.now.integrity message.now text.now end }
{
    let mut state = sealing.start_code();
    state.update(&text[..16]);
    message.update_covered(&mut state, &text[16..end]);
    state.update(&text[end..]);
    state.finalize_short()
}

/// The last 12 octets.
fn last_twelve(text: &[u8]) -> [u8; 12]
    requires { 12 ≤ length text.now }
    ensures { result ≡ drop (length text.now - 12) text.now }
{
    let mut code = [0; 12];
    code.copy_from_slice(&text[text.len() - 12..]);
    code
}

/// Decrypts all but the last 12 octets, which go, and says whether they are the checksum.
fn decrypt(sealing: &SealingKey, message: &Buffers<'_>, ec: usize, text: &mut Vec<u8>) -> bool
    requires { 44 + ec ≤ vec_len text.old }
    ensures decrypted { IsDecrypted sealing.now ec text.old.items text.new.items }
    ensures agrees { IsTrue result ↔ HasCode sealing.now ec message.now text.old.items text.new.items }
{
    let code = last_twelve(text.as_slice());
    text.truncate(text.len() - 12);
    sealing.decrypt_text(text.as_mut_slice());
    let end = text.len() - 16 - ec;
    let found = covered_code(sealing, message, text.as_slice(), end);
    is_equal(&found, &code)
}

/// The text whose sealed form this is, if there is one.
pub(crate) fn open_sealed(
    sealing: &SealingKey,
    message: &Buffers<'_>,
    header: &[u8; 16],
    ec: usize,
    whole: Vec<u8>,
) -> Option<OpenedText>
    requires { 44 + ec ≤ vec_len whole }
    ensures { MatchOption result
        ((p : List ℕ) → ¬ (IsSealedAs sealing.now ec header.now message.now whole.items p))
        (λ p. IsSealedAs sealing.now ec header.now message.now whole.items p) }
{
    let mut text = whole;
    if !decrypt(sealing, message, ec, &mut text) {
        return None;
    }
    let copy_at = text.len() - 16;
    if !is_copy_of(header, &text.as_slice()[copy_at..]) {
        return None;
    }
    Some(OpenedText::new(text, 16, copy_at - ec))
}

/// The code of a text in the clear, and of its header.
fn clear_code(
    suite: CipherSuite,
    key: &[u8],
    usage: u32,
    text: &[u8],
    header: &[u8; 16],
) -> [u8; 12]
    requires { length key.now ≡ key_size suite }
    ensures { result ≡ hmac12 (kc suite key.now usage) (text.now ++ without_counts header.now) }
{
    let mut state = start_checksum(suite, key, usage);
    state.update(text);
    state.update(&without_counts(header));
    state.finalize_short()
}

/// The text whose form in the clear this is, if there is one.
pub(crate) fn open_clear(
    suite: CipherSuite,
    key: &[u8],
    usage: u32,
    header: &[u8; 16],
    whole: Vec<u8>,
) -> Option<OpenedText>
    requires size { length key.now ≡ key_size suite }
    requires long { ec_of header.now ≤ vec_len whole }
    ensures { MatchOption result
        ((p : List ℕ) → ¬ (IsClearAs (kc suite key.now usage) header.now whole.items p))
        (λ p. IsClearAs (kc suite key.now usage) header.now whole.items p) }
{
    if ec_of(header) != 12 {
        return None;
    }
    let code = last_twelve(whole.as_slice());
    let end = whole.len() - 12;
    let found = clear_code(suite, key, usage, &whole.as_slice()[..end], header);
    if is_equal(&found, &code) {
        Some(OpenedText::new(whole, 0, end))
    } else {
        None
    }
}
