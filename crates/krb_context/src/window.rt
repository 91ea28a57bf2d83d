//! The window of numbers that were opened.

ghost use Rattle.std.specs.Prelude.{◌≡◌, ◌<◌, ◌^◌, List, ℤ};
ghost use Rattle.krb_context.specs.Places.{ahead, is_ahead, verdict_of, opened};
ghost use Rattle.krb_context.specs.Window.{Window, new_window, number_verdict, noted, moved_up, StandsFor};

use std::marker::Model;

/// The verdict on a message's number, given the numbers that were opened before.
#[derive(Clone, Copy, Debug, PartialEq, Eq)]
pub enum NumberVerdict {
    /// It may be opened.
    Fresh,
    /// It is 64 or more below the newest, so it is unknown whether it was opened.
    Old,
    /// It was opened.
    Repeated,
}

/// The numbers of the messages that were opened, as far as they are within 64 of the newest.
///
/// Numbers go round at 2^32: one that is less than half the way round ahead of the newest is newer, any other is older.
/// Contracts see a window as the record `Window`, and say what it does for every list of places that it represents.
#[derive(Clone, Copy, Debug, PartialEq, Eq)]
pub struct NumberWindow {
    /// The newest number, 0 where none was opened.
    pub newest: u32,
    /// Bit `i` is 1 if the number `i` below the newest was opened, otherwise 0; the mask is 0 if none was.
    pub mask: u64,
}

impl Model for NumberWindow {
    ghost use Rattle.std.specs.Prelude.{IsTrue};
    ghost use Rattle.krb_context.specs.Window.{Window, has_newest};

    ghost Value = { Window };

    ghost view = { λ w. record { newest = w.newest; mask = w.mask } };

    ghost invariant = { λ w. IsTrue (has_newest (record { newest = w.newest; mask = w.mask })) };

    ghost inverse = { λ w. record { newest = w.newest; mask = w.mask } };
}

/// How far one number is ahead of another, going round.
fn ahead(from: u32, to: u32) -> u32
    ensures { result ≡ ahead from to }
{
    to.wrapping_sub(from)
}

fn is_ahead(distance: u32) -> bool
    ensures { result ≡ is_ahead distance }
{
    1 <= distance && distance < 1 << 31
}

fn moved_up(mask: u64, distance: u32) -> u64
    ensures { result ≡ moved_up mask distance }
{
    if distance < 64 {
        (mask << distance) | 1
    } else {
        1
    }
}

impl NumberWindow {
    /// A window of no numbers.
    pub fn new() -> NumberWindow
        ensures { result ≡ new_window }
    {
        NumberWindow { newest: 0, mask: 0 }
    }

    /// Returns the verdict on a number, given the numbers that were opened.
    pub fn judge(&self, number: u32) -> NumberVerdict
        ensures exact { result ≡ number_verdict self.now number }
        ensures judges { (places : List ℤ) → StandsFor self.now places → result ≡ verdict_of places number }
    {
        if self.mask == 0 {
            return NumberVerdict::Fresh;
        }
        if is_ahead(ahead(self.newest, number)) {
            return NumberVerdict::Fresh;
        }
        let below = ahead(number, self.newest);
        if 64 <= below {
            NumberVerdict::Old
        } else if (self.mask >> below) % 2 == 1 {
            NumberVerdict::Repeated
        } else {
            NumberVerdict::Fresh
        }
    }

    /// A message with this number was opened.
    pub fn note(&mut self, number: u32)
        requires { number_verdict self.old number ≡ NumberVerdict.Fresh }
        ensures exact { self.new ≡ noted self.old number }
        ensures notes { (places : List ℤ) → StandsFor self.old places → StandsFor self.new (opened places number) }
    {
        if self.mask == 0 {
            self.newest = number;
            self.mask = 1;
            return;
        }
        let distance = ahead(self.newest, number);
        if is_ahead(distance) {
            self.newest = number;
            self.mask = moved_up(self.mask, distance);
        } else {
            self.mask |= 1 << ahead(number, self.newest);
        }
    }
}
