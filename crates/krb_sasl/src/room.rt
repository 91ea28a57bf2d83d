//! Bytes at the front of a caller's buffer.

ghost use Rattle.std.specs.Prelude.{◌≡◌, ◌<◌, ◌++◌, length, drop, IfOk, IfErr, OnOk, OnErr};
ghost use Rattle.krb_sasl.specs.declared.fault.SaslFault.TheVariants as faults;

use crate::fault::SaslFault;

/// Puts the bytes at the front of the buffer, and returns their number.
pub(crate) fn put(out: &mut [u8], octets: &[u8]) -> Result<usize, SaslFault>
    ensures count { IfOk result (λ count. count ≡ length octets.now) }
    ensures put { OnOk result (out.new ≡ octets.now ++ drop (length octets.now) out.old) }
    ensures room { IfErr result (λ fault. fault ≡ faults.Room (length octets.now)) }
    ensures short { OnErr result (length out.old < length octets.now) }
    ensures stays { OnErr result (out.new ≡ out.old) }
{
    match krb_sessions::put(out, octets) {
        Ok(count) => Ok(count),
        Err(_) => Err(SaslFault::Room(octets.len())),
    }
}
