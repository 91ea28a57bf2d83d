//! The book that threads share.

ghost use Rattle.std.specs.Prelude.{◌≡◌, ◌+◌, ◌<◌, ◌≤◌, ◌++◌, None, Some, map, length, vec_len, vec_capacity, All, IfOk, IfErr, OnOk, OnErr, IfSome, IfNone, MatchResult};
ghost use Rattle.std.specs.List.{sum_by};
ghost use Rattle.krb_replay.specs.Gate.{IsJudged};
ghost use Rattle.krb_shared.specs.Journal.{IsJournal};
ghost use Rattle.krb_shared.specs.Seats.{AddsReceipt, Agrees, AreAll, AreNumbered, FirstDiffers, IsNew, calls_of, receipts_of};

use crate::calls::Calls;
use crate::desk::Desk;
use crate::entry::{Entry, Receipt};
use crate::journal::{Differs, Journal};
use crate::seat::Seat;
use krb_der::{Items, OutOfMemory, TryCopy};
use krb_replay::{Ask, Verdict};
use std::alloc::Global;
use std::sync::ledger::{Book, Share};
use std::sync::{Mutex, Wait};

/// The data under the lock: the desk, and the ledger's book, whose total is the number of calls.
#[derive(Drop)]
struct Locked<L: Calls> {
    desk: Desk,
    calls: Book<L>,
    /// A share without parts, with which `close` begins to gather those of the seats.
    rest: Share<L>,
    ghost of_skew: { desk.skew ≡ L.skew },
    ghost counted: { length desk.journal ≡ calls.total },
    ghost no_rest: { (rest.parts ≡ 0) × (rest.amount ≡ 0) },
}

impl<L: Calls> Locked<L> {
    /// Asks the desk, and counts the call. Gives the verdict, the entry's place, and the book's moment.
    fn enter(
        &mut self,
        share: &mut Share<L>,
        seat: u32,
        call: u64,
        asked: Ask,
        entered: Ask,
    ) -> Result<(Verdict, u64, u64), OutOfMemory>
        requires parts { 0 < share.old.parts }
        requires same { asked ≡ entered }
        ensures judged { IfOk result (λ answer. IsJudged L.skew answer.2 entered answer.0) }
        ensures parts { share.new.parts ≡ share.old.parts }
        ensures amount { OnOk result (share.new.amount ≡ share.old.amount + 1) }
        ensures err { OnErr result (share.new.amount ≡ share.old.amount) }
    {
        let (verdict, place) = self.desk.enter(seat, call, asked, entered)?;
        self.calls.add(share, 1);
        Ok((verdict, place, self.desk.moment()))
    }
}

/// A replay book that threads share, under a lock, with the journal of its calls.
#[derive(Drop)]
pub struct SharedBook<L: Calls> {
    alloc: Global,
    locked: Mutex<Locked<L>>,
}

impl<L: Calls> SharedBook<L> {
    /// A book that was asked nothing, and its seats, with numbers from 0.
    pub fn with_seats(
        alloc: Global,
        book: Book<L>,
        all: Share<L>,
        skew: u32,
        seats: u32,
    ) -> Result<(SharedBook<L>, Items<Seat<L>>), OutOfMemory>
        requires skew { skew ≡ L.skew }
        requires total { book.total ≡ 0 }
        requires amount { all.amount ≡ 0 }
        requires whole { all.parts ≡ L.parts }
        requires enough { seats ≤ all.parts }
        requires some { 0 < seats }
        ensures count { IfOk result (λ made. length made.1 ≡ seats) }
        ensures all { IfOk result (λ made. AreAll L.parts made.1) }
        ensures new { IfOk result (λ made. All IsNew made.1) }
    {
        let mut all = all;
        let rest = all.empty();
        let seats = seats_from(alloc, all, seats)?;
        let locked = Mutex::new(Locked {
            desk: Desk::new(alloc, skew)?,
            calls: book,
            rest,
        });
        Ok((SharedBook { alloc, locked }, Items::new(seats)))
    }

    /// Asks the book, and leaves a receipt with the seat.
    pub fn admit<R: Wait>(
        &self,
        rt: &R,
        seat: &mut Seat<L>,
        ask: &Ask,
    ) -> Result<Verdict, OutOfMemory>
        ensures receipt { IfOk result (λ verdict. AddsReceipt L.skew seat.old ask.now verdict seat.new) }
        ensures err { OnErr result (seat.new ≡ seat.old) }
    {
        let given = ask.copy(seat.alloc)?;
        self.admit_given(rt, seat, given)
    }

    /// Works as `admit`, with an owned ask: the receipt keeps the ask.
    pub(crate) fn admit_given<R: Wait>(
        &self,
        rt: &R,
        seat: &mut Seat<L>,
        ask: Ask,
    ) -> Result<Verdict, OutOfMemory>
        ensures receipt { IfOk result (λ verdict. AddsReceipt L.skew seat.old ask verdict seat.new) }
        ensures err { OnErr result (seat.new ≡ seat.old) }
    {
        // Copies are made before the lock is taken.
        seat.receipts.reserve(1)?;
        let asked = ask.copy(seat.alloc)?;
        let entered = ask.copy(seat.alloc)?;
        let number = seat.number;
        let call = seat.receipts.len() as u64 + 1;
        let (verdict, place, moment) = self
            .locked
            .lock(rt)
            .enter(&mut seat.share, number, call, asked, entered)?;
        seat.moment = moment;
        seat.receipts.push_reserved(Receipt {
            entry: Entry {
                seat: number,
                call,
                ask,
                verdict,
            },
            place,
        });
        Ok(verdict)
    }

    /// Ends the book and all its seats, and returns the journal. Fails with `Differs`, which has the journal too, if a seat's receipts
    /// are not exactly its entries in the journal.
    pub fn close(self, seats: Items<Seat<L>>) -> Result<Journal, Differs>
        requires { AreAll L.parts seats }
        ensures journal { MatchResult result (IsJournal L.skew) (λ differs. IsJournal L.skew differs.journal) }
        ensures calls { MatchResult result (λ journal. length journal.entries ≡ calls_of seats) (λ differs. length differs.journal.entries ≡ calls_of seats) }
        ensures ok { IfOk result (λ journal. All (Agrees journal.entries) seats) }
        ensures differs { IfErr result (λ differs. FirstDiffers differs.journal.entries seats differs.seat differs.call) }
    {
        let Locked { desk, calls, rest } = self.locked.into_inner();
        let difference = first_difference(desk.entries(), seats.as_slice());
        let all = gathered(rest, seats.into_inner());
        ended(desk, calls, all, difference)
    }

    /// Works as `close`, and also appends the receipts of each seat to `receipts`, for a caller who drops them elsewhere. The caller
    /// has reserved room for those of all seats.
    pub fn close_into(
        self,
        seats: Items<Seat<L>>,
        receipts: &mut Vec<Vec<Receipt>>,
    ) -> Result<Journal, Differs>
        requires all { AreAll L.parts seats }
        requires room { vec_len receipts.old + length seats ≤ vec_capacity receipts.old }
        ensures receipts { map (λ own. own.items) receipts.new.items ≡ map (λ own. own.items) receipts.old.items ++ receipts_of seats }
        ensures journal { MatchResult result (IsJournal L.skew) (λ differs. IsJournal L.skew differs.journal) }
        ensures calls { MatchResult result (λ journal. length journal.entries ≡ calls_of seats) (λ differs. length differs.journal.entries ≡ calls_of seats) }
        ensures ok { IfOk result (λ journal. All (Agrees journal.entries) seats) }
        ensures differs { IfErr result (λ differs. FirstDiffers differs.journal.entries seats differs.seat differs.call) }
    {
        let Locked { desk, calls, rest } = self.locked.into_inner();
        let difference = first_difference(desk.entries(), seats.as_slice());
        let all = gathered_into(rest, seats.into_inner(), receipts);
        ended(desk, calls, all, difference)
    }
}

/// This many new seats, among which the parts are divided.
fn seats_from<L: Calls>(
    alloc: Global,
    all: Share<L>,
    seats: u32,
) -> Result<Vec<Seat<L>>, OutOfMemory>
    requires amount { all.amount ≡ 0 }
    requires enough { seats ≤ all.parts }
    requires some { 0 < seats }
    ensures count { IfOk result (λ made. length made.items ≡ seats) }
    ensures all { IfOk result (λ made. AreAll all.parts made.items) }
    ensures new { IfOk result (λ made. All IsNew made.items) }
{
    let mut all = all;
    let mut made = Vec::new(alloc);
    for number in 0..seats - 1 {
        made.push(Seat::new(alloc, number, all.split_off(1, 0)))?;
    }
    made.push(Seat::new(alloc, seats - 1, all))?;
    Ok(made)
}

/// Returns `rest` merged with the shares of all seats.
fn gathered<L: Calls>(rest: Share<L>, seats: Vec<Seat<L>>) -> Share<L>
    ensures parts { result.parts ≡ rest.parts + sum_by (λ seat. seat.parts) seats.items }
    ensures amount { result.amount ≡ rest.amount + calls_of seats.items }
{
    let mut all = rest;
    for seat in seats {
        let (share, _receipts) = seat.into_parts();
        all.merge(share);
    }
    all
}

/// Works as `gathered`, and appends the seats' receipts to `receipts`, which have room for them.
fn gathered_into<L: Calls>(
    rest: Share<L>,
    seats: Vec<Seat<L>>,
    receipts: &mut Vec<Vec<Receipt>>,
) -> Share<L>
    requires { vec_len receipts.old + vec_len seats ≤ vec_capacity receipts.old }
    ensures parts { result.parts ≡ rest.parts + sum_by (λ seat. seat.parts) seats.items }
    ensures amount { result.amount ≡ rest.amount + calls_of seats.items }
    ensures receipts { map (λ own. own.items) receipts.new.items ≡ map (λ own. own.items) receipts.old.items ++ receipts_of seats.items }
{
    let mut all = rest;
    for seat in seats {
        let (share, own) = seat.into_parts();
        all.merge(share);
        receipts.push_reserved(own);
    }
    all
}

/// Ends the ledger of the calls with all its shares, and returns the journal with the first difference, if there is one.
fn ended<L: Calls>(
    desk: Desk,
    calls: Book<L>,
    all: Share<L>,
    difference: Option<(u32, u64)>,
) -> Result<Journal, Differs>
    requires { all.parts ≡ L.parts }
    ensures total { all.amount ≡ calls.total }
    ensures journal { MatchResult result (IsJournal desk.skew) (λ differs. IsJournal desk.skew differs.journal) }
    ensures ok { IfOk result (λ journal. (difference ≡ None) × (journal.entries ≡ desk.journal)) }
    ensures differs { IfErr result (λ differs. (difference ≡ Some (differs.seat, differs.call)) × (differs.journal.entries ≡ desk.journal)) }
{
    let (mut calls, mut all) = (calls, all);
    calls.audit(&mut all);
    let journal = desk.into_journal();
    match difference {
        None => Ok(journal),
        Some((seat, call)) => Err(Differs {
            journal,
            seat,
            call,
        }),
    }
}

/// The least seat, and for it the first call, at which the receipts and the journal don't agree.
fn first_difference<L: Calls>(journal: &[Entry], seats: &[Seat<L>]) -> Option<(u32, u64)>
    requires { AreNumbered 0 seats.now }
    ensures agree { IfNone result (All (Agrees journal.now) seats.now) }
    ensures differ { IfSome result (λ first. FirstDiffers journal.now seats.now first.0 first.1) }
{
    for seat in seats {
        if let Some(call) = seat.first_difference(journal) {
            return Some((seat.number, call));
        }
    }
    None
}
