//! The header of a wrap token (RFC 4121, section 4.2.6.2): 16 octets, its numbers in big-endian order.

ghost use Rattle.std.specs.Prelude.{◌≡◌, ◌↔◌, IsTrue, length};
ghost use Rattle.sspi_core.specs.Checks.{Holds};
ghost use Rattle.sspi_core.specs.declared.cause.Cause.TheVariants as causes;
ghost use Rattle.krb_context.specs.Header.{wrap_header, is_wrap_header, is_sealed, is_from_acceptor, is_from, ec_of, rrc_of, number_of, IsCopyOf, without_counts};

use krb_crypto::is_equal;
use sspi_core::{Cause, hold};

#[tactic(auto, unfolding(crate::specs::Header::wrap_header))]
pub(crate) fn wrap_header(flags: u8, ec: u16, rrc: u16, number: u32) -> [u8; 16]
    ensures { result ≡ wrap_header flags ec rrc number }
{
    let [e, f] = ec.to_be_bytes();
    let [r, s] = rrc.to_be_bytes();
    let [n0, n1, n2, n3, n4, n5, n6, n7] = (number as u64).to_be_bytes();
    [
        0x05, 0x04, flags, 0xff, e, f, r, s, n0, n1, n2, n3, n4, n5, n6, n7,
    ]
}

pub(crate) fn is_wrap_header(header: &[u8; 16]) -> bool
    ensures { result ≡ is_wrap_header header.now }
{
    header[0] == 0x05 && header[1] == 0x04 && header[3] == 0xff
}

pub(crate) fn is_sealed(header: &[u8; 16]) -> bool
    ensures { result ≡ is_sealed header.now }
{
    !(header[2] & 2 == 0)
}

fn is_from_acceptor(header: &[u8; 16]) -> bool
    ensures { result ≡ is_from_acceptor header.now }
{
    !(header[2] & 1 == 0)
}

fn is_from(acceptor: bool, header: &[u8; 16]) -> bool
    ensures { result ≡ is_from acceptor header.now }
{
    if acceptor {
        is_from_acceptor(header)
    } else {
        !is_from_acceptor(header)
    }
}

pub(crate) fn check_direction(peer: bool, header: &[u8; 16]) -> Result<(), Cause>
    ensures { Holds causes.Direction (is_from peer header.now) result }
{
    hold(is_from(peer, header), Cause::Direction)
}

pub(crate) fn ec_of(header: &[u8; 16]) -> u16
    ensures { result ≡ ec_of header.now }
{
    u16::from_be_bytes([header[4], header[5]])
}

pub(crate) fn rrc_of(header: &[u8; 16]) -> u16
    ensures { result ≡ rrc_of header.now }
{
    u16::from_be_bytes([header[6], header[7]])
}

pub(crate) fn number_of(header: &[u8; 16]) -> u32
    ensures { result ≡ number_of header.now }
{
    u32::from_be_bytes([header[12], header[13], header[14], header[15]])
}

/// Returns whether a header and a copy are equal in all octets but the right rotation count (RRC).
pub(crate) fn is_copy_of(header: &[u8; 16], copy: &[u8]) -> bool
    requires { length copy.now ≡ 16 }
    ensures { IsTrue result ↔ IsCopyOf header.now copy.now }
{
    let front = is_equal(&copy[..6], &header[..6]);
    let back = is_equal(&copy[8..], &header[8..]);
    front & back
}

/// The header with zeros for its counts.
pub(crate) fn without_counts(header: &[u8; 16]) -> [u8; 16]
    ensures { result ≡ without_counts header.now }
{
    let mut out = *header;
    out[4..8].copy_from_slice(&[0; 4]);
    out
}
