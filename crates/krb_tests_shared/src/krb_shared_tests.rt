//! Tests of a shared book and of a desk beyond their clauses: the journal that they return is the one that was kept.

ghost use Rattle.std.specs.Prelude.{◌≡◌};

use krb_der::{IntegerAsn1, Items, Name, Octets, OutOfMemory, Time};
use krb_messages::PrincipalName;
use krb_replay::Verdict::{self, Admitted, Replayed};
use krb_replay::{Ask, Record, ReplayGate};
use krb_shared::{Calls, Desk, DeskGate, Entry, Journal, Receipt, SharedBook};
use std::alloc::Global;
use std::marker::Brand;
use std::process::Abort;
use std::sync::Wait;
use std::sync::ledger::Blank;
use std::test::Fail;

/// 2023-11-14T22:13:20Z, in seconds.
const BEGIN: i64 = 1_700_000_000;

/// 2023-11-14T22:13:20Z, in microseconds.
const M0: u64 = 1_700_000_000_000_000;

/// Returns a name without components, of this type.
fn principal(alloc: Global, name_type: u8) -> Result<PrincipalName, OutOfMemory> {
    Ok(PrincipalName {
        name_type: IntegerAsn1::from_bytes_be(Vec::from_slice(alloc, &[name_type])?),
        name_string: Items::new(Vec::new(alloc)),
    })
}

/// Returns the first ask of a client whose ticket lives ten hours.
pub(crate) fn first_ask(alloc: Global) -> Result<Ask, Fail> {
    let realm = Name::new(Vec::from_slice(alloc, b"EXAMPLE.COM")?).ok_or("not ASCII")?;
    Ok(Ask {
        entry: Record {
            ctime: Time::new(BEGIN),
            cusec: Octets::new(Vec::from_slice(alloc, &[0])?),
            realm,
            name: principal(alloc, 1)?,
            tag: Octets::new(Vec::new(alloc)),
        },
        sname: principal(alloc, 2)?,
        start: Time::new(BEGIN),
        end: Time::new(BEGIN + 36_000),
        moment: M0,
    })
}

/// The tested part of an entry: its seat, its call and its verdict.
type Line = (u32, u64, Verdict);

fn line(entry: &Entry) -> Line {
    (entry.seat, entry.call, entry.verdict)
}

/// Compares the entries of a journal, of which one record is kept.
fn check(rt: &impl Abort, journal: &Journal, expected: &[Line]) {
    assert_eq!(rt; journal.kept, 1);
    assert_eq!(rt; journal.entries.as_slice().len(), expected.len());
    for (entry, expected) in journal.entries.as_slice().iter().zip(expected) {
        assert_eq!(rt; line(entry), *expected);
    }
}

/// Makes the same ask from two seats, one after the other, and closes the book.
fn ask_twice<L: Calls, R: Wait>(
    rt: &R,
    alloc: Global,
    blank: Blank,
    skew: u32,
    receipts: Option<&mut Vec<Vec<Receipt>>>,
) -> Result<(Verdict, Verdict, Journal), Fail>
    requires name { blank.name ≡ L.name }
    requires parts { blank.parts ≡ L.parts }
    requires two { blank.parts ≡ 2 }
    requires skew { skew ≡ L.skew }
{
    let (book, all) = blank.open::<L>();
    let (shared, seats) = SharedBook::with_seats(alloc, book, all, skew, 2)?;
    let mut seats = seats.into_inner();
    let one = shared.admit(rt, &mut seats[0], &first_ask(alloc)?)?;
    let two = shared.admit(rt, &mut seats[1], &first_ask(alloc)?)?;
    let closed = match receipts {
        None => shared.close(Items::new(seats)),
        Some(receipts) => {
            receipts.reserve(2)?;
            shared.close_into(Items::new(seats), receipts)
        }
    };
    match closed {
        Ok(journal) => Ok((one, two, journal)),
        Err(_) => Err(Fail::from("the receipts and the journal differ")),
    }
}

#[test]
fn a_shared_book_admits_an_authenticator_once(rt: HostRuntime) -> Result<(), Fail> {
    let (one, two, journal) = ask_twice::<Brand, _>(&rt, rt.alloc(), Blank::new(2), 300, None)?;
    assert_eq!(rt; (one, two), (Admitted, Replayed));
    check(&rt, &journal, &[(0, 1, Admitted), (1, 1, Replayed)]);
    Ok(())
}

/// The receipts of both seats are returned with the journal, each with its place there.
#[test]
fn a_closed_book_hands_out_receipts(rt: HostRuntime) -> Result<(), Fail> {
    let mut receipts = Vec::new(rt.alloc());
    let blank = Blank::new(2);
    let (_one, _two, journal) = ask_twice::<Brand, _>(
        &rt,
        rt.alloc(),
        blank,
        300,
        Some(&mut receipts),
    )?;
    check(&rt, &journal, &[(0, 1, Admitted), (1, 1, Replayed)]);
    let mut places = 0u64;
    for seat in &receipts {
        for receipt in seat {
            places = places.saturating_mul(10).saturating_add(receipt.place);
        }
    }
    assert_eq!(rt; places, 12);
    Ok(())
}

#[test]
fn a_desk_admits_an_authenticator_once(rt: HostRuntime) -> Result<(), Fail> {
    let mut desk = Desk::new(rt.alloc(), 300)?;
    let one = DeskGate::new(&mut desk, 0).admit(first_ask(rt.alloc())?)?;
    let two = DeskGate::new(&mut desk, 1).admit(first_ask(rt.alloc())?)?;
    assert_eq!(rt; (one, two), (Admitted, Replayed));
    assert_eq!(rt; desk.moment(), M0);
    let journal = desk.into_journal();
    check(&rt, &journal, &[(0, 1, Admitted), (1, 1, Replayed)]);
    Ok(())
}
