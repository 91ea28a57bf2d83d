//! The answers of two workers.

ghost use Rattle.std.specs.Prelude.{◌≡◌, IfOk};
ghost use Rattle.krb_threads.specs.Answers.{AreAnswers};
ghost use Rattle.krb_threads.specs.Described.{all_connections};

use crate::described::{Described, ends_in_threads};
use crate::desk::run_at_desk;
use crate::pause::Pause;
use crate::seats::run_seats;
use crate::work::{Done, Work};
use krb_der::{Items, OutOfMemory};
use krb_machine::Event;
use krb_shared::{Calls, Journal, Receipt, SharedBook};
use std::alloc::Global;
use std::marker::Brand;
use std::sync::Wait;
use std::sync::ledger::Blank;
use std::thread::Threads;

/// The results of both workers, the journal of the book that they share, and the receipts of their seats.
#[derive(Drop)]
pub struct Answers {
    pub one: Box<Done>,
    pub two: Box<Done>,
    pub journal: Journal,
    pub receipts: Vec<Vec<Receipt>>,
}

/// Runs both workers, and returns their answers.
pub fn answers_of<R: Threads + Wait + Sync, P: Pause + Send, Q: Pause + Send>(
    rt: &R,
    alloc: Global,
    described: &Described,
    low: Vec<Event>,
    high: Vec<Event>,
    first: &mut P,
    second: &mut Q,
) -> Result<Answers, OutOfMemory>
    ensures { IfOk result (λ answers.
        AreAnswers described.now.skew described.now.env (all_connections described.now)
        low.items high.items answers.one.value.replies.items answers.two.value.replies.items answers.journal) }
{
    answers_as::<Brand, R, P, Q>(
        rt,
        alloc,
        Blank::new(2),
        described.skew,
        described,
        low,
        high,
        first,
        second,
    )
}

/// Runs both workers over a ledger of calls, and returns their answers. If the receipts of the two seats and the journal do not
/// agree, both run again, one after the other.
fn answers_as<L: Calls + Send + Sync, R: Threads + Wait + Sync, P: Pause + Send, Q: Pause + Send>(
    rt: &R,
    alloc: Global,
    blank: Blank,
    skew: u32,
    described: &Described,
    low: Vec<Event>,
    high: Vec<Event>,
    first: &mut P,
    second: &mut Q,
) -> Result<Answers, OutOfMemory>
    requires name { blank.name ≡ L.name }
    requires parts { blank.parts ≡ L.parts }
    requires two { blank.parts ≡ 2 }
    requires skew { skew ≡ L.skew }
    requires own_skew { described.now.skew ≡ skew }
    ensures { IfOk result (λ answers.
        AreAnswers described.now.skew described.now.env (all_connections described.now)
        low.items high.items answers.one.value.replies.items answers.two.value.replies.items answers.journal) }
{
    let mut receipts = Vec::with_capacity(alloc, 2)?;
    let (book, all) = blank.open::<L>();
    let (shared, seats) = SharedBook::with_seats(alloc, book, all, skew, 2)?;
    let mut seats = seats.into_inner();
    let (low_ends, high_ends) = ends_in_threads(rt, alloc, described)?;
    let one = Work {
        ends: low_ends,
        events: low,
    };
    let two = Work {
        ends: high_ends,
        events: high,
    };
    let (low_seat, high_seat) = seats.split_at_mut(1);
    let (one, two) = run_seats(
        rt,
        rt,
        alloc,
        &shared,
        &shared,
        &mut low_seat[0],
        &mut high_seat[0],
        first,
        second,
        one,
        two,
    )?;
    match shared.close_into(Items::new(seats), &mut receipts) {
        Ok(journal) => Ok(Answers {
            one,
            two,
            journal,
            receipts,
        }),
        Err(_) => {
            let (low, high) = (Box::into_inner(one).events, Box::into_inner(two).events);
            run_at_desk(alloc, described, low, high, first, second)
        }
    }
}
