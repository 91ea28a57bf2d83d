//! Tests of a book on a table beyond its clauses: calls return with ample memory, also from two threads at once.

ghost use Rattle.std.specs.Prelude.{◌≡◌};

use crate::krb_shared_tests::first_ask;
use krb_der::{Items, OutOfMemory};
use krb_replay::Verdict::{self, Admitted, Replayed};
use krb_replay::{Ask, ReplayGate};
use krb_shared::{Pass, TableBook, TableGate};
use std::alloc::Global;
use std::sync::Wait;
use std::test::Fail;
use std::thread::{Threads, join};

/// Asks once, and returns the pass.
fn ask_once<R: Wait>(
    rt: &R,
    book: &TableBook,
    pass: Pass,
    ask: &Ask,
) -> (Pass, Result<Verdict, OutOfMemory>)
    requires { pass.table ≡ book.now.table }
    ensures { (result.0.table ≡ book.now.table) × (result.0.number ≡ pass.number) }
{
    let mut pass = pass;
    let answer = book.admit(rt, &mut pass, ask);
    (pass, answer)
}

/// The verdicts of two passes, how far each has seen, the journal's length, and the number of records that are kept.
type Outcome = (Verdict, Verdict, u64, u64, usize, u64);

/// Two passes ask the same, each in a thread of its own.
fn ask_in_threads<R: Threads + Wait + Sync>(rt: &R, alloc: Global) -> Result<Outcome, Fail> {
    let (book, passes) = TableBook::with_passes(alloc, 300, 2)?;
    let mut passes = passes.into_inner();
    let second = passes.pop().unwrap();
    let first = passes.pop().unwrap();
    let one = first_ask(alloc)?;
    let two = first_ask(alloc)?;
    let shared = &book;
    let (a, b) = join(
        rt,
        move || -> (Pass, Result<Verdict, OutOfMemory>)
            requires { (first.table ≡ shared.now.table) × (first.number ≡ 0) }
            ensures { (result.0.table ≡ shared.entry.now.table) × (result.0.number ≡ 0) }
        { ask_once(rt, shared, first, &one) },
        move || -> (Pass, Result<Verdict, OutOfMemory>)
            requires { (second.table ≡ shared.now.table) × (second.number ≡ 1) }
            ensures { (result.0.table ≡ shared.entry.now.table) × (result.0.number ≡ 1) }
        { ask_once(rt, shared, second, &two) },
    );
    let seen = (a.0.seen(), b.0.seen());
    let mut all = Vec::new(alloc);
    all.push(a.0)?;
    all.push(b.0)?;
    let journal = book.close(Items::new(all));
    Ok((
        a.1?,
        b.1?,
        seen.0,
        seen.1,
        journal.entries.as_slice().len(),
        journal.kept,
    ))
}

#[test]
fn two_threads_share_a_table(rt: HostRuntime) -> Result<(), Fail> {
    let (one, two, first, second, calls, kept) = ask_in_threads(&rt, rt.alloc())?;
    if one == Admitted {
        assert!(rt; two == Replayed && first == 1 && second == 2);
    } else {
        assert!(rt; one == Replayed && two == Admitted && first == 2 && second == 1);
    }
    assert!(rt; calls == 2 && kept == 1);
    Ok(())
}

/// Returns the journal's place of a pass's call, counted from 0.
fn place_of(pass: &Pass, call: usize) -> Option<u64> {
    let receipt = pass.receipts().get(call)?;
    Some(receipt.place)
}

#[test]
fn a_pass_is_answered_in_order(rt: HostRuntime) -> Result<(), Fail> {
    let (book, passes) = TableBook::with_passes(rt.alloc(), 300, 1)?;
    let mut passes = passes.into_inner();
    let mut pass = passes.pop().unwrap();
    let one = book.admit(&rt, &mut pass, &first_ask(rt.alloc())?)?;
    let two = TableGate::new(&rt, &book, &mut pass).admit(first_ask(rt.alloc())?)?;
    assert!(rt; one == Admitted && two == Replayed && pass.seen() == 2);
    assert_eq!(rt; place_of(&pass, 1), Some(2));
    Ok(())
}
