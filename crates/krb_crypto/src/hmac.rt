//! HMAC (RFC 2104) over SHA-1.

ghost use Rattle.std.specs.Prelude.{◌≡◌, ◌++◌, ℕ, List, [], take};
ghost use Rattle.krb_crypto.specs.Hmac.{block_key, xor_each, hmac, hmac12};
ghost use Rattle.krb_crypto.specs.Keyed.{IsHmacKeyOf, IsHmacOf};

use sha1::Sha1;

const BLOCK_LEN: usize = 64;

const INNER_PAD: u8 = 0x36;

const OUTER_PAD: u8 = 0x5c;

/// The key, or its digest where it is longer than a block, filled up with zeros.
fn block_key(key: &[u8]) -> [u8; 64]
    ensures { result ≡ block_key key.now }
{
    let mut block = [0; 64];
    if key.len() <= BLOCK_LEN {
        block[..key.len()].copy_from_slice(key);
    } else {
        block[..sha1::DIGEST_LEN].copy_from_slice(&Sha1::digest(key));
    }
    block
}

fn xor_each(block: &[u8; 64], octet: u8) -> [u8; 64]
    ensures { result ≡ xor_each octet block.now }
{
    let mut out = [0; 64];
    for i in 0..BLOCK_LEN {
        out[i] = block[i] ^ octet;
    }
    out
}

/// A key whose two pads are digested already.
#[derive(Drop)]
pub struct HmacKey {
    inner: Sha1,
    outer: Sha1,
}

/// The code of a message that comes in pieces.
#[derive(Drop)]
pub struct HmacState {
    inner: Sha1,
    outer: Sha1,
}

fn copied(digest: &Sha1) -> Sha1
    ensures { result ≡ digest.now }
{
    match digest.clone() {
        Ok(copy) => copy,
        Err(_) => unreachable!(),
    }
}

impl HmacKey {
    /// A key of any length.
    pub fn new(key: &[u8]) -> HmacKey
        ensures { IsHmacKeyOf key.now result }
    {
        let key = block_key(key);
        let mut inner = Sha1::new();
        inner.update(&xor_each(&key, INNER_PAD));
        let mut outer = Sha1::new();
        outer.update(&xor_each(&key, OUTER_PAD));
        HmacKey { inner, outer }
    }

    /// The code of nothing yet.
    pub fn start(&self) -> HmacState
        ensures { (key : List ℕ) → IsHmacKeyOf key self.now → IsHmacOf key [] result }
    {
        HmacState {
            inner: copied(&self.inner),
            outer: copied(&self.outer),
        }
    }

    /// The code of `message` and then `tail`.
    pub fn code(&self, message: &[u8], tail: &[u8]) -> [u8; 20]
        ensures { (key : List ℕ) → IsHmacKeyOf key self.now → result ≡ hmac key (message.now ++ tail.now) }
    {
        let mut state = self.start();
        state.update(message);
        state.update(tail);
        state.finalize()
    }

    /// The first 12 octets of the code of `message` and then `tail`.
    pub fn short_code(&self, message: &[u8], tail: &[u8]) -> [u8; 12]
        ensures { (key : List ℕ) → IsHmacKeyOf key self.now → result ≡ hmac12 key (message.now ++ tail.now) }
    {
        cut_to_12(&self.code(message, tail))
    }
}

impl HmacState {
    /// Adds a piece to the message.
    pub fn update(&mut self, piece: &[u8])
        ensures { (key message : List ℕ) → IsHmacOf key message self.old → IsHmacOf key (message ++ piece.now) self.new }
    {
        self.inner.update(piece);
    }

    /// The code of the message.
    pub fn finalize(self) -> [u8; 20]
        ensures { (key message : List ℕ) → IsHmacOf key message self → result ≡ hmac key message }
    {
        let HmacState { inner, mut outer } = self;
        outer.update(&inner.finalize());
        outer.finalize()
    }

    /// The first 12 octets of the code of the message.
    pub fn finalize_short(self) -> [u8; 12]
        ensures { (key message : List ℕ) → IsHmacOf key message self → result ≡ hmac12 key message }
    {
        cut_to_12(&self.finalize())
    }
}

fn cut_to_12(code: &[u8; 20]) -> [u8; 12]
    ensures { result ≡ take 12 code.now }
{
    let mut short = [0; 12];
    short.copy_from_slice(&code[..12]);
    short
}

/// The code of `message` and then `tail`, under a key of any length.
pub fn hmac_sha1(key: &[u8], message: &[u8], tail: &[u8]) -> [u8; 20]
    ensures { result ≡ hmac key.now (message.now ++ tail.now) }
{
    HmacKey::new(key).code(message, tail)
}
