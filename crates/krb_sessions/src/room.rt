//! Bytes at the front of a caller's buffer.

ghost use Rattle.std.specs.Prelude.{◌≡◌, ◌<◌, ◌++◌, length, drop, IfOk, IfErr, OnOk, OnErr};
ghost use Rattle.krb_sessions.specs.declared.fault.Fault.TheVariants as faults;

use crate::fault::Fault;

/// Puts the bytes at the front of the buffer, and returns their number.
pub fn put(out: &mut [u8], octets: &[u8]) -> Result<usize, Fault>
    ensures count { IfOk result (λ count. count ≡ length octets.now) }
    ensures put { OnOk result (out.new ≡ octets.now ++ drop (length octets.now) out.old) }
    ensures room { IfErr result (λ fault. fault ≡ faults.Room (length octets.now)) }
    ensures short { OnErr result (length out.old < length octets.now) }
    ensures stays { OnErr result (out.new ≡ out.old) }
{
    let count = octets.len();
    if out.len() < count {
        return Err(Fault::Room(count));
    }
    out[..count].copy_from_slice(octets);
    Ok(count)
}
