//! The value of an initiator's checksum (RFC 4121, section 4.1.1).

ghost use Rattle.std.specs.Prelude.{◌≡◌, IfOk};
ghost use Rattle.krb_authenticators.specs.Checksums.{default_value, with_flags};

use bitflags::Flags;
use krb_context::GssFlags;
use krb_der::{Octets, OutOfMemory};
use std::alloc::Global;
use std::marker::Model;

/// The 24 octets of a checksum that carries channel bindings and flags. Contracts see them as a list.
#[derive(Clone, Copy, Debug, PartialEq, Eq)]
pub struct ChecksumValues {
    octets: [u8; 24],
}

impl Model for ChecksumValues {
    ghost use Rattle.std.specs.Prelude.{List, ℕ};

    ghost Value = { List ℕ };

    ghost view = { λ a. a.octets };

    ghost inverse = { λ octets. record { octets = octets } };
}

impl Default for ChecksumValues {
    ghost is_default = { λ value. value ≡ default_value };

    /// No bindings and no flags.
    fn default() -> ChecksumValues {
        ChecksumValues {
            octets: [
                16, 0, 0, 0, 0, 0, 0, 0, 0, 0, 0, 0, 0, 0, 0, 0, 0, 0, 0, 0, 0, 0, 0, 0,
            ],
        }
    }
}

impl From<[u8; 24]> for ChecksumValues {
    ghost from_gives = { λ octets value. value ≡ octets };

    fn from(octets: [u8; 24]) -> ChecksumValues {
        ChecksumValues { octets }
    }
}

/// Returns the octets with these flags in them.
fn with_flags(octets: [u8; 24], flags: u32) -> [u8; 24]
    ensures { result ≡ with_flags octets flags }
{
    let mut octets = octets;
    octets[20..24].copy_from_slice(&flags.to_le_bytes());
    octets
}

impl ChecksumValues {
    /// Puts the flags into octets 20 to 23, the lowest first.
    pub fn set_flags(&mut self, flags: GssFlags)
        ensures { self.new ≡ with_flags self.old flags.0 }
    {
        self.octets = with_flags(self.octets, flags.bits());
    }

    pub fn into_inner(self, alloc: Global) -> Result<Octets, OutOfMemory>
        ensures { IfOk result (λ octets. octets ≡ self) }
    {
        Octets::from_slice(alloc, &self.octets)
    }
}
