//! Records under an application tag of their own.

ghost use Rattle.std.specs.Prelude.{◌≡◌, IfOk};
ghost use Rattle.krb_der.specs.Schema.{IsSound, IsWritable, application};
ghost use Rattle.krb_der.specs.Schema as schema;

use krb_der::{Asn1, Octets, OutOfMemory, Writer};
use std::alloc::Global;

/// The contents of an application tag over this value: its spelling. They do not depend on the tag's number.
pub fn inner_octets<T: Asn1>(alloc: Global, value: &T) -> Result<Octets, OutOfMemory>
    requires { IsWritable (application 0 T.layout.kind) (T.layout.view value.now) }
    ensures { IfOk result (λ octets. IsSound T.layout.kind (T.layout.view value.now)
        × (octets ≡ schema.contents (application 0 T.layout.kind) (T.layout.view value.now))) }
{
    let contents = value.to_contents(alloc)?;
    let mut writer = Writer::new(alloc);
    writer.tlv(T::tag(), contents.as_slice())?;
    Ok(writer.finish())
}
