//! Channel bindings (RFC 2743 section 1.1.6), which tie a context to the channel below it.

ghost use Rattle.std.specs.Prelude.{◌≡◌, ◌↔◌, ◌+◌, ◌≤◌, length, IfOk, IsOkUnless, IsTrue, MatchOption, false};
ghost use Rattle.sspi_core.specs.BindingParts.{word, is_inside, part};
ghost use Rattle.sspi_core.specs.Kinds.{error_of};

use crate::cause::Cause;
use crate::error::Error;
use krb_der::{Octets, OutOfMemory, TryCopy};
use std::alloc::Global;

/// The addresses of both sides and the data of the application.
#[derive(Debug, PartialEq, Eq, Hash, Drop)]
pub struct ChannelBindings {
    /// The type of the initiator's address (RFC 2744 section 3.11); 0 without one.
    pub initiator_addr_type: u32,
    pub initiator: Octets,
    /// The type of the acceptor's address; 0 without one.
    pub acceptor_addr_type: u32,
    pub acceptor: Octets,
    pub application_data: Octets,
}

impl ChannelBindings {
    ghost use Rattle.sspi_core.specs.Bindings.{is_bindings, bindings};

    /// Reads eight numbers of four octets, the lowest octet first: type, length and place of the initiator's address, the
    /// same of the acceptor's, length and place of the application's data. Places count from the first octet of the
    /// numbers, lengths in octets. Refused as `Bindings` exactly where a number is missing or a part reaches past the end.
    pub fn from_bytes(alloc: Global, octets: &[u8]) -> Result<ChannelBindings, Error>
        ensures read { IfOk result (λ read. IsTrue (is_bindings octets.now) × (read ≡ bindings octets.now)) }
        ensures inside { IsTrue (is_bindings octets.now) → IsOkUnless result (error_of Cause.Memory) }
        ensures outside { (result ≡ Err (error_of Cause.Bindings)) ↔ (is_bindings octets.now ≡ false) }
    {
        if octets.len() < 32 {
            return Err(Error::from(Cause::Bindings));
        }
        let initiator = part(octets, word(octets, 8), word(octets, 4));
        let acceptor = part(octets, word(octets, 20), word(octets, 16));
        let application_data = part(octets, word(octets, 28), word(octets, 24));
        match (initiator, acceptor, application_data) {
            (Some(initiator), Some(acceptor), Some(application_data)) => Ok(ChannelBindings {
                initiator_addr_type: word(octets, 0),
                initiator: Octets::from_slice(alloc, initiator)?,
                acceptor_addr_type: word(octets, 12),
                acceptor: Octets::from_slice(alloc, acceptor)?,
                application_data: Octets::from_slice(alloc, application_data)?,
            }),
            _ => Err(Error::from(Cause::Bindings)),
        }
    }
}

impl TryCopy for ChannelBindings {
    fn copy(&self, alloc: Global) -> Result<ChannelBindings, OutOfMemory> {
        Ok(ChannelBindings {
            initiator_addr_type: self.initiator_addr_type,
            initiator: self.initiator.copy(alloc)?,
            acceptor_addr_type: self.acceptor_addr_type,
            acceptor: self.acceptor.copy(alloc)?,
            application_data: self.application_data.copy(alloc)?,
        })
    }
}

fn word(octets: &[u8], at: usize) -> u32
    requires { at + 4 ≤ length octets.now }
    ensures { result ≡ word octets.now at }
{
    u32::from_le_bytes([octets[at], octets[at + 1], octets[at + 2], octets[at + 3]])
}

/// So many octets from a place on, where they are there.
fn part(octets: &[u8], place: u32, size: u32) -> Option<&[u8]>
    ensures { MatchOption result (is_inside octets.now place size ≡ false)
        (λ found. IsTrue (is_inside octets.now place size) × (found.now ≡ part octets.now place size)) }
{
    let start = place as usize;
    let end = start + size as usize;
    if end <= octets.len() {
        Some(&octets[start..end])
    } else {
        None
    }
}
