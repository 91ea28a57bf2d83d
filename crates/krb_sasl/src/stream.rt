//! Bytes that the context decrypts, and data that it encrypts.

ghost use Rattle.std.specs.Prelude.{◌≡◌, ◌+◌, length, IfOk, OnOk, OnErr};
ghost use Rattle.krb_sasl.specs.Answers.{Answers};
ghost use Rattle.krb_sasl.specs.InContext.{InContext};
ghost use Rattle.krb_sasl.specs.Streams.{sent_from, received, WrapsSealed};
ghost use Rattle.krb_sessions.specs.Orders.{UnwrapsInOrder, order_after, token_number};

use crate::error::SaslError;
use krb_context::Kerberos;
use krb_der::Octets;
use krb_sessions::{Order, opened_in_order};
use std::alloc::Global;

/// Decrypts a token, if it is the next one, and returns its text. If that fails the context and the order are unchanged.
pub(crate) fn unwrap(
    alloc: Global,
    context: &mut Kerberos,
    order: &mut Order,
    octets: &[u8],
) -> Result<Octets, SaslError>
    ensures unwrapped { Answers (InContext (UnwrapsInOrder order.old context.old octets.now)) result }
    ensures received { OnOk result (context.new ≡ received context.old octets.now) }
    ensures order { OnOk result (order.new ≡ order_after (token_number octets.now) order.old) }
    ensures stays { OnErr result ((context.new ≡ context.old) × (order.new ≡ order.old)) }
{
    let text = opened_in_order(alloc, context, order, octets)?;
    Ok(text.into_octets())
}

/// Encrypts data, and returns the token and the encrypted data. If that fails the context is unchanged.
pub(crate) fn wrap_sealed(
    alloc: Global,
    context: &mut Kerberos,
    plain: &[u8],
    confounder: &[u8; 16],
) -> Result<Octets, SaslError>
    ensures wrapped { Answers (InContext (WrapsSealed context.old confounder.now plain.now)) result }
    ensures size { IfOk result (λ octets. length octets ≡ 60 + context.old.encryption_params.ec + length plain.now) }
    ensures sent { OnOk result (context.new ≡ sent_from context.old) }
    ensures stays { OnErr result (context.new ≡ context.old) }
{
    let len = context.wrapped_len(plain)?;
    let mut octets = vec![in alloc; 0; len]?;
    context.wrap_into(alloc, plain, confounder, octets.as_mut_slice())?;
    Ok(Octets::new(octets))
}
