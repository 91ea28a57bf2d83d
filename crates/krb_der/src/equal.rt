//! Comparison with no early end.

ghost use Rattle.std.specs.Prelude.{◌≡◌, ◌↔◌, IsTrue};

/// Returns whether two runs of octets are equal. Reads all octets whatever they are: the lengths alone decide how much is done.
pub fn is_equal(octets: &[u8], others: &[u8]) -> bool
    ensures { IsTrue result ↔ (octets.now ≡ others.now) }
{
    if octets.len() != others.len() {
        return false;
    }
    let mut differences = 0u8;
    for i in 0..octets.len() {
        differences = differences | (octets[i] ^ others[i]);
    }
    differences == 0
}
