//! Sums of octets.

ghost use Rattle.std.specs.Prelude.{◌≡◌};
ghost use Rattle.krb_aes.specs.Round.{xor_octets};

/// The sum in the field, octet by octet.
pub fn xor_octets<const N: usize>(a: &[u8; N], b: &[u8; N]) -> [u8; N]
    ensures { result ≡ xor_octets a.now b.now }
{
    let mut out = [0; N];
    for i in 0..N {
        out[i] = a[i] ^ b[i];
    }
    out
}
