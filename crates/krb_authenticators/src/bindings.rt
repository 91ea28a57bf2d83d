//! The hash of channel bindings (RFC 4121, section 4.1.1.2).

ghost use Rattle.std.specs.Prelude.{◌≡◌, ◌<◌, ◌^◌, ◌++◌, List, ℕ, length};
ghost use Rattle.md5.specs.Md5.{Holds};
ghost use Rattle.krb_authenticators.specs.Bindings.{counted, bindings_hash, AreShortBindings};

use md5::{Digest, Md5};
use sspi_core::ChannelBindings;

/// Adds the length of the octets in four octets, the lowest first, and then the octets.
fn add_counted(hasher: &mut Md5, octets: &[u8])
    requires { length octets.now < 2 ^ 32 }
    ensures { (m : List ℕ) → Holds hasher.old m → Holds hasher.new (m ++ counted octets.now) }
{
    hasher.update(&(octets.len() as u32).to_le_bytes());
    hasher.update(octets);
}

/// Returns the MD5 of channel bindings: type, length and octets of the initiator's address, then of the acceptor's address, and
/// length and octets of the application's data, each number in four octets, the lowest first.
#[tactic(auto, unfolding(crate::specs::Bindings::bindings_hash))]
pub fn bindings_hash(bindings: &ChannelBindings) -> [u8; 16]
    requires { AreShortBindings bindings.now }
    ensures { result ≡ bindings_hash bindings.now }
{
    let mut hasher = Md5::new();
    hasher.update(&bindings.initiator_addr_type.to_le_bytes());
    add_counted(&mut hasher, bindings.initiator.as_slice());
    hasher.update(&bindings.acceptor_addr_type.to_le_bytes());
    add_counted(&mut hasher, bindings.acceptor.as_slice());
    add_counted(&mut hasher, bindings.application_data.as_slice());
    hasher.finalize()
}
