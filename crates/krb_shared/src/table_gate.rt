//! A gate over a pass of a book on a table.

ghost use Rattle.std.specs.Prelude.{◌≡◌};
ghost use Rattle.krb_shared.specs.Passes.{Admits, IsLeft, IsLeft-same, left_goes_on};

use crate::pass::Pass;
use crate::table_book::TableBook;
use krb_der::OutOfMemory;
use krb_replay::{Ask, ReplayGate, Verdict};
use std::sync::Wait;

/// A replay gate over a pass of a book. What it does is known by the receipts that its pass has gained.
#[derive(Drop)]
pub struct TableGate<'a, R> {
    rt: &'a R,
    book: &'a TableBook,
    pass: &'a mut Pass,
    ghost of_book: { pass.now.table ≡ book.now.table },
}

impl<'a, R: Wait> TableGate<'a, R> {
    pub fn new(rt: &'a R, book: &'a TableBook, pass: &'a mut Pass) -> TableGate<'a, R>
        requires { pass.old.table ≡ book.now.table }
        ensures { result.pass ≡ pass.entry }
    {
        TableGate { rt, book, pass }
    }
}

impl<'a, R: Wait> ReplayGate for TableGate<'a, R> {
    ghost skew = { λ gate. gate.pass.now.skew };

    ghost moment = { λ gate. gate.pass.now.moment };

    ghost admits = { λ old ask verdict new. Admits old.pass.now ask verdict new.pass.now };

    ghost is_same = { λ old new. IsLeft old.pass.now new.pass.now };

    ghost same = { λ gate. IsLeft-same gate.pass.now };

    ghost same_moment = { λ _ _ same. same.moment };

    ghost same_skew = { λ _ _ same. same.skew };

    ghost judges = { λ _ _ _ _ step. step.judged };

    ghost keeps_skew = { λ _ _ _ _ step. step.skew };

    ghost goes_on = { λ a b c ask verdict same step. left_goes_on a.pass.now b.pass.now c.pass.now ask verdict same step };

    fn admit(&mut self, ask: Ask) -> Result<Verdict, OutOfMemory> {
        self.book.admit(self.rt, self.pass, &ask)
    }

    fn last_moment(&self) -> u64 {
        self.pass.moment()
    }
}
