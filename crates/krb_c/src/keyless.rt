//! Acceptors that have a book and no key.

ghost use Rattle.std.specs.Prelude.{◌≡◌, ℕ, Result, IfOk, IfErr, OnErr};
ghost use Rattle.krb_c.specs.declared.reply.Failure.{Failure};
ghost use Rattle.krb_c.specs.Calls.{MakesBookAlone};
ghost use Rattle.krb_c.specs.Failures.{IsWant, MakesNot};
ghost use Rattle.krb_c.specs.Replies.{reply_of};

use crate::handles::Acceptor;
use crate::keytab::blank;
use crate::reply::{Failure, Reply, reply_of};
use std::alloc::Global;

fn make(alloc: Global, to: &mut Acceptor, skew: u32) -> Result<usize, Failure>
    ensures made { IfOk result (λ count. MakesBookAlone skew to.old.place.value count to.new.place.value) }
    ensures fails { IfErr result (MakesNot ⊥ IsWant to.old.place.value) }
    ensures stays { OnErr result (to.new.place.value ≡ to.old.place.value) }
{
    if !to.is_empty() {
        return Err(Failure::Handle);
    }
    match blank(alloc, skew) {
        Ok(service) => {
            to.put(service);
            Ok(0)
        }
        Err(error) => Err(Failure::Refused(error)),
    }
}

/// Makes an acceptor without a key in an empty handle: its replay book, for clocks that are wrong by up to this many seconds, admits
/// what a keyring judged (`mk_keyring_judge`, `mk_admit`).
///
/// Fails with HANDLE if the handle is not empty. It stays as it is then.
#[unsafe(no_mangle)]
pub extern "C" fn mk_acceptor_new_keyless(alloc: Global, to: &mut Acceptor, skew: u32) -> Reply
    ensures { (answer : Result ℕ Failure) × (result ≡ reply_of answer)
        × IfOk answer (λ count. MakesBookAlone skew to.old.place.value count to.new.place.value)
        × IfErr answer (MakesNot ⊥ IsWant to.old.place.value)
        × OnErr answer (to.new.place.value ≡ to.old.place.value) }
{
    reply_of(make(alloc, to, skew))
}
