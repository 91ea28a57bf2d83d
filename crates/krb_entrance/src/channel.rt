//! The hash of a channel's bindings.

ghost use Rattle.std.specs.Prelude.{◌≡◌, false, IfOk, IfErr, OnErr};
ghost use Rattle.sspi_core.specs.Kinds.{error_of};
ghost use Rattle.sspi_core.specs.declared.cause.Cause.TheVariants as causes;
ghost use Rattle.krb_authenticators.specs.Bindings.{bindings_hash};
ghost use Rattle.krb_entrance.specs.Channels.{is_short, are_short};

use krb_authenticators::bindings_hash;
use krb_server::{Cause, Error, Octets};
use sspi_core::ChannelBindings;

/// The number of bytes that a part of bindings may have.
const PART_LIMIT: usize = 1 << 24;

fn is_short(part: &Octets) -> bool
    ensures { result ≡ is_short part.now }
{
    part.as_slice().len() <= PART_LIMIT
}

fn are_short(bindings: &ChannelBindings) -> bool
    ensures { result ≡ are_short bindings.now }
{
    is_short(&bindings.initiator)
        && is_short(&bindings.acceptor)
        && is_short(&bindings.application_data)
}

/// Returns the hash of the bindings of a channel (RFC 4121, section 4.1.1.2), to which
/// [`Service::judge_bound`](crate::Service::judge_bound) binds a client. Fails with `Bindings` exactly if a part has over 2^24 bytes.
pub fn channel_hash(bindings: &ChannelBindings) -> Result<[u8; 16], Error>
    ensures hash { IfOk result (λ hash. hash ≡ bindings_hash bindings.now) }
    ensures refused { IfErr result (λ error. error ≡ error_of causes.Bindings) }
    ensures long { OnErr result (are_short bindings.now ≡ false) }
{
    if are_short(bindings) {
        Ok(bindings_hash(bindings))
    } else {
        Err(Error::from(Cause::Bindings))
    }
}
