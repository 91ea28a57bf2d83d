//! Properties of the suites for all keys and texts. A law makes no calls: its clause is the statement.

ghost use Rattle.std.specs.Prelude.{◌≡◌, ◌≤◌, ◌++◌, ℕ, List, length};
ghost use Rattle.krb_aes.specs.Octets.{IsOctets};
ghost use Rattle.krb_aes.specs.Aes.{aes};
ghost use Rattle.krb_crypto.specs.Cts.{cts};
ghost use Rattle.krb_crypto.specs.Sealed.{sealed, IsSealed};
ghost use Rattle.krb_crypto.specs.declared.suite.CipherSuite.{CipherSuite};

/// Under one suite, key and usage, a sealed text shows its confounder and its plain text.
pub fn sealing_is_injective()
    ensures { (suite : CipherSuite) (key : List ℕ) (usage : ℕ) (c p d q : List ℕ)
        → length c ≡ 16 → length d ≡ 16 → IsOctets (c ++ p) → IsOctets (d ++ q)
        → sealed suite key usage c p ≡ sealed suite key usage d q → (c ≡ d) × (p ≡ q) }
{}

/// An encrypted text decrypts to its plain text, of any length, and to no other.
pub fn what_was_sealed_is_opened()
    ensures { (suite : CipherSuite) (key : List ℕ) (usage : ℕ) (confounder plain : List ℕ)
        → length confounder ≡ 16 → IsOctets (confounder ++ plain)
        → let text = sealed suite key usage confounder plain in
        IsSealed suite key usage text plain × ((other : List ℕ) → IsSealed suite key usage text other → other ≡ plain) }
{}

/// One plain text at most is sealed to a text.
pub fn one_plain_text_is_sealed()
    ensures { (suite : CipherSuite) (key : List ℕ) (usage : ℕ) (text p q : List ℕ)
        → IsSealed suite key usage text p → IsSealed suite key usage text q → p ≡ q }
{}

/// Ciphertext stealing keeps the length of each text of at least 16 octets, and takes different texts to different ones.
pub fn ciphertext_stealing_is_invertible()
    ensures { (key x : List ℕ) → IsOctets x → 16 ≤ length x
        → (length (cts (aes key) x) ≡ length x)
        × ((y : List ℕ) → IsOctets y → 16 ≤ length y → cts (aes key) x ≡ cts (aes key) y → x ≡ y) }
{}
