//! Messages in the clear with a checksum.

ghost use Rattle.std.specs.Prelude.{◌≡◌, ◌+◌, length, IfOk, OnOk, OnErr};
ghost use Rattle.krb_context.specs.ClearWraps.{WrapsClear};
ghost use Rattle.krb_sasl.specs.Answers.{Answers};
ghost use Rattle.krb_sasl.specs.InContext.{InContext};
ghost use Rattle.krb_sasl.specs.Streams.{sent_from};

use crate::error::SaslError;
use krb_context::Kerberos;
use krb_der::Octets;
use std::alloc::Global;

/// Returns the token of a message in the clear, with a checksum (RFC 4121, section 4.2.4): 28 bytes longer than the text. The
/// context's sequence number rises by one, wraps at 2^32, and is in the header.
///
/// Fails, in this order, with the context's `Sequence` before the exchange is over and if there is no key; `KeyLength`. If it fails
/// the context is unchanged.
pub fn wrap_plain(alloc: Global, context: &mut Kerberos, plain: &[u8]) -> Result<Octets, SaslError>
    ensures wrapped { Answers (InContext (WrapsClear context.old plain.now)) result }
    ensures size { IfOk result (λ token. length token ≡ 28 + length plain.now) }
    ensures sent { OnOk result (context.new ≡ sent_from context.old) }
    ensures stays { OnErr result (context.new ≡ context.old) }
{
    Ok(context.wrap_in_clear(alloc, plain)?)
}
