//! Laws of the cipher, for all keys and blocks. A law makes no calls: its clause is the statement.

ghost use Rattle.std.specs.Prelude.{◌≡◌, ℕ, List};
ghost use Rattle.krb_aes.specs.Octets.{IsBlock};
ghost use Rattle.krb_aes.specs.Aes.{aes};

/// Under one key, different blocks become different blocks.
pub fn different_blocks_stay_different()
    ensures { (key x y : List ℕ) → IsBlock x → IsBlock y → aes key x ≡ aes key y → x ≡ y }
{}

/// A block becomes a block: 16 octets.
pub fn a_block_becomes_a_block()
    ensures { (key x : List ℕ) → IsBlock x → IsBlock (aes key x) }
{}
