//! Laws of the token.

ghost use Rattle.std.specs.Prelude.{◌≡◌, ◌<◌, ℕ, pos};
ghost use Rattle.krb_der.specs.Integer.{integer_value};
ghost use Rattle.krb_refusals.specs.Integers.{shortest, IsShortest};

/// The microseconds that a client reads are those of the moment, in as few octets as DER allows (X.690, section 8.3.2).
pub fn microseconds_are_written_shortest()
    ensures number { (n : ℕ) → n < 8388608 → integer_value (shortest n) ≡ pos n }
    ensures shortest { (n : ℕ) → n < 8388608 → IsShortest (shortest n) }
{}
