//! The line of a reply.

ghost use Rattle.std.specs.Prelude.{◌≡◌, IfOk, string_bytes};
ghost use Rattle.krb_realm.specs.Text.{reply_line};

use krb_der::OutOfMemory;
use std::alloc::Global;

/// `reply <hex>`.
pub fn reply_line(alloc: Global, reply: &[u8]) -> Result<String, OutOfMemory>
    ensures { IfOk result (λ line. string_bytes line ≡ reply_line reply.now) }
{
    let digits = hex::encode(alloc, reply)?;
    Ok(format!(in alloc; "reply {digits}\n")?)
}
