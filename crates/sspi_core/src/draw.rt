//! The inputs of one step from outside.

ghost use Rattle.std.specs.Prelude.{◌≡◌, ◌+◌, ◌≤◌, take, drop};

/// The moment and the random bytes that one step may use. The caller passes them, so that a step is a function of its arguments.
#[derive(Clone, Copy, PartialEq, Eq)]
pub struct Draw {
    /// Microseconds since 1970-01-01T00:00:00Z, at most `MAX_MOMENT`: a condition of each call that takes one.
    pub moment: u64,
    /// Random octets, taken from the front.
    pub random: [u8; 64],
}

/// The last moment, the end of 9999-12-28, in microseconds since 1970-01-01T00:00:00Z.
pub const MAX_MOMENT: u64 = 253_402_041_599_999_999;

impl Draw {
    /// `N` of the random octets, those from this place on.
    pub fn octets<const N: usize>(&self, from: usize) -> [u8; N]
        requires { from + N ≤ 64 }
        ensures { result ≡ take N (drop from self.now.random) }
    {
        let mut octets = [0; N];
        octets.copy_from_slice(&self.random[from..from + N]);
        octets
    }
}
