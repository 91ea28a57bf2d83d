//! Tokens that are written into a room: the text is encrypted where it lies.

ghost use Rattle.std.specs.Prelude.{◌≡◌, ◌+◌, length, replicate};
ghost use Rattle.std.specs.List.{slice_rotate_right};
ghost use Rattle.krb_context.specs.Spelt.{inner_text, sealed_body};
ghost use Rattle.krb_context.specs.Whole.{text_message};
ghost use Rattle.krb_context.specs.WrapsInto.{text_token};

use crate::header::wrap_header;
use krb_crypto::SealingKey;

/// Writes the text to encrypt, with zeros for its EC octets.
fn write_inner(confounder: &[u8; 16], text: &[u8], ec: usize, copy: &[u8; 16], inner: &mut [u8])
    requires { length inner.old ≡ 32 + ec + length text.now }
    ensures { inner.new ≡ inner_text confounder.now text.now (replicate ec 0) copy.now }
{
    let end = 16 + text.len();
    let copy_at = end + ec;
    inner[..16].copy_from_slice(confounder);
    inner[16..end].copy_from_slice(text);
    inner[end..copy_at].fill(0);
    inner[copy_at..].copy_from_slice(copy);
}

/// Writes a body: the encrypted text and its checksum, turned to the right.
fn write_body(
    sealing: &SealingKey,
    confounder: &[u8; 16],
    text: &[u8],
    ec: usize,
    copy: &[u8; 16],
    body: &mut [u8],
)
    requires { length body.old ≡ 44 + ec + length text.now }
    ensures { body.new ≡ slice_rotate_right
        (sealed_body sealing.now (text_message ec text.now) confounder.now text.now (replicate ec 0) copy.now) (28 + ec) }
{
    let end = body.len() - 12;
    write_inner(confounder, text, ec, copy, &mut body[..end]);
    let code = sealing.checksum(&body[..end], &[]);
    sealing.encrypt_text(&mut body[..end]);
    body[end..].copy_from_slice(&code);
    body.rotate_right(28 + ec);
}

/// Writes the token of a text. The room is as long as the token.
pub(crate) fn write_token(
    sealing: &SealingKey,
    flags: u8,
    ec: u16,
    number: u32,
    confounder: &[u8; 16],
    text: &[u8],
    out: &mut [u8],
)
    requires { length out.old ≡ 60 + ec + length text.now }
    ensures { out.new ≡ text_token sealing.now flags ec number confounder.now text.now }
{
    let copy = wrap_header(flags, ec, 0, number);
    write_body(
        sealing,
        confounder,
        text,
        ec as usize,
        &copy,
        &mut out[16..],
    );
    out[..16].copy_from_slice(&wrap_header(flags, ec, 28, number));
}
