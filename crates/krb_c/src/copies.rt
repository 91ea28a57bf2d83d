//! Copies of an acceptor, for threads that judge tokens.

ghost use Rattle.std.specs.Prelude.{◌≡◌, ℕ, Result, IfOk, IfErr, OnErr};
ghost use Rattle.krb_c.specs.declared.reply.Failure.{Failure};
ghost use Rattle.krb_c.specs.Replies.{reply_of};
ghost use Rattle.krb_c.specs.Copies.{IsTwin, Copies, CopiesNot};

use crate::handles::Acceptor;
use crate::reply::{Failure, Reply, reply_of};
use krb_der::{TryCopy, boxed};
use krb_entrance::{Error, OutOfMemory, Service};
use std::alloc::Global;

fn twin_of(alloc: Global, service: &Service) -> Result<Box<Service>, OutOfMemory>
    ensures { IfOk result (λ twin. IsTwin service.now twin.value) }
{
    let keys = service.keys.copy(alloc)?;
    let skew = keys.properties.max_time_skew;
    boxed(alloc, Service::from_keys(alloc, keys, skew)?)
}

fn copy(alloc: Global, acceptor: &mut Acceptor, to: &mut Acceptor) -> Result<usize, Failure>
    ensures copied { IfOk result (λ count. Copies acceptor.old.place.value to.old.place.value count to.new.place.value) }
    ensures fails { IfErr result (CopiesNot acceptor.old.place.value to.old.place.value) }
    ensures stays { acceptor.new.place.value ≡ acceptor.old.place.value }
    ensures empty { OnErr result (to.new.place.value ≡ to.old.place.value) }
{
    if !to.is_empty() {
        return Err(Failure::Handle);
    }
    let Some(service) = acceptor.take(alloc) else {
        return Err(Failure::Handle);
    };
    let twin = twin_of(alloc, &service);
    acceptor.put(service);
    match twin {
        Ok(twin) => {
            to.put(twin);
            Ok(0)
        }
        Err(error) => Err(Failure::Refused(Error::from(error))),
    }
}

/// Makes in an empty handle an acceptor with the same services, keys and limit, and an empty book: for another thread that
/// calls `mk_judge` and `mk_judge_bound`. **`mk_accept` and `mk_admit` are for the first alone**: a copy's book admits again what the
/// first's has admitted.
#[unsafe(no_mangle)]
pub extern "C" fn mk_acceptor_copy(
    alloc: Global,
    acceptor: &mut Acceptor,
    to: &mut Acceptor,
) -> Reply
    ensures told { (answer : Result ℕ Failure) × (result ≡ reply_of answer)
        × IfOk answer (λ count. Copies acceptor.old.place.value to.old.place.value count to.new.place.value)
        × IfErr answer (CopiesNot acceptor.old.place.value to.old.place.value)
        × OnErr answer (to.new.place.value ≡ to.old.place.value) }
    ensures stays { acceptor.new.place.value ≡ acceptor.old.place.value }
{
    reply_of(copy(alloc, acceptor, to))
}
