//! The names of kinds and causes, and the library's version.

ghost use Rattle.std.specs.Prelude.{◌≡◌, ℕ, length, codes, Result, IfOk, IfErr, OnErr};
ghost use Rattle.sspi_core.specs.Printed.{kind_text, cause_name};
ghost use Rattle.krb_sessions.specs.Gives.{Delivers, IsShort};
ghost use Rattle.krb_c.specs.declared.reply.Failure.{Failure};
ghost use Rattle.krb_c.specs.Replies.{reply_of};
ghost use Rattle.krb_c.specs.Calls.{HasNoKind, HasNoCause, IsKindName, IsCauseName, NamesNot};

use crate::codes::{cause_at, kind_at};
use crate::reply::{Failure, Reply, reply_of};
use krb_entrance::put;

fn kind_name(kind: u32, out: &mut [u8]) -> Result<usize, Failure>
    ensures named { IfOk result (λ count. Delivers (IsKindName kind) out.old count out.new) }
    ensures fails { IfErr result (NamesNot (HasNoKind kind) (IsKindName kind) (length out.old)) }
    ensures room { OnErr result (out.new ≡ out.old) }
{
    let Some(kind) = kind_at(kind) else {
        return Err(Failure::Argument);
    };
    Ok(put(out, kind.name().as_bytes())?)
}

/// Writes the name of a kind, as `InvalidToken`, by its number in a reply. Fails with ARGUMENT if no kind has the number.
#[unsafe(no_mangle)]
pub extern "C" fn mk_kind_name(kind: u32, out: &mut [u8]) -> Reply
    ensures { (answer : Result ℕ Failure) × (result ≡ reply_of answer)
        × IfOk answer (λ count. Delivers (IsKindName kind) out.old count out.new)
        × IfErr answer (NamesNot (HasNoKind kind) (IsKindName kind) (length out.old))
        × OnErr answer (out.new ≡ out.old) }
{
    reply_of(kind_name(kind, out))
}

fn cause_name(cause: u32, out: &mut [u8]) -> Result<usize, Failure>
    ensures named { IfOk result (λ count. Delivers (IsCauseName cause) out.old count out.new) }
    ensures fails { IfErr result (NamesNot (HasNoCause cause) (IsCauseName cause) (length out.old)) }
    ensures room { OnErr result (out.new ≡ out.old) }
{
    let Some(cause) = cause_at(cause) else {
        return Err(Failure::Argument);
    };
    Ok(put(out, cause.name().as_bytes())?)
}

/// Writes the name of a cause, as `Replayed`, by its number in a reply. Fails with ARGUMENT if no cause has the number.
#[unsafe(no_mangle)]
pub extern "C" fn mk_cause_name(cause: u32, out: &mut [u8]) -> Reply
    ensures { (answer : Result ℕ Failure) × (result ≡ reply_of answer)
        × IfOk answer (λ count. Delivers (IsCauseName cause) out.old count out.new)
        × IfErr answer (NamesNot (HasNoCause cause) (IsCauseName cause) (length out.old))
        × OnErr answer (out.new ≡ out.old) }
{
    reply_of(cause_name(cause, out))
}

fn version(out: &mut [u8]) -> Result<usize, Failure>
    ensures version { IfOk result (λ count. Delivers (λ text. text ≡ codes "0.1.0") out.old count out.new) }
    ensures fails { IfErr result (NamesNot ⊥ (λ text. text ≡ codes "0.1.0") (length out.old)) }
    ensures room { OnErr result (out.new ≡ out.old) }
{
    Ok(put(out, "0.1.0".as_bytes())?)
}

/// Writes the version of this library, as `0.1.0`.
#[unsafe(no_mangle)]
pub extern "C" fn mk_version(out: &mut [u8]) -> Reply
    ensures { (answer : Result ℕ Failure) × (result ≡ reply_of answer)
        × IfOk answer (λ count. Delivers (λ text. text ≡ codes "0.1.0") out.old count out.new)
        × IfErr answer (NamesNot ⊥ (λ text. text ≡ codes "0.1.0") (length out.old))
        × OnErr answer (out.new ≡ out.old) }
{
    reply_of(version(out))
}
