//! Moments of the calendar.

ghost use Rattle.std.specs.Prelude.{◌≡◌, ◌*◌, ◌/◌, ◌%◌, ◌<◌, ◌≤◌, ◌≤ℤ◌, ◌*ℤ◌, pos, negsuc, unsigned_abs, ℤ, IfOk, OnErr};
ghost use Rattle.krb_der.specs.Moment.{Day, IsTime, SpellsMoment, two_digits as two_digits_of, spelled, day_octets, day_after, time_octets};
ghost use Rattle.krb_der.specs.MomentReading.{two_in, four_in, day_in, date_in, clock_in, time_in};
ghost use Rattle.krb_der.specs.Reading.{Gives};

use crate::copies::TryCopy;
use crate::memory::OutOfMemory;
use crate::shape::Shape;
use jiff_core::civil::Date;
use std::alloc::Global;
use std::marker::Model;

/// The days from 0000-01-01 to 1970-01-01.
const DAYS_BEFORE_1970: i64 = 719_528;

/// The seconds from 0000-01-01T00:00:00Z to 1970-01-01T00:00:00Z.
const SECONDS_BEFORE_1970: i64 = 62_167_219_200;

const SECONDS_A_DAY: i64 = 86_400;

/// A KerberosTime (RFC 4120 5.2.3): whole seconds from 1970-01-01T00:00:00Z, and before it negative ones, in the years
/// 0000 to 9999 of the proleptic Gregorian calendar, so from -62,167,219,200 to 253,402,300,799. Contracts see it as that
/// number.
#[derive(Clone, Copy, Debug, PartialEq, Eq, PartialOrd, Ord, Hash)]
pub struct Time {
    seconds: i64,
}

impl Model for Time {
    ghost use Rattle.std.specs.Prelude.{ℤ};
    ghost use Rattle.krb_der.specs.Moment.{IsTime};

    ghost Value = { ℤ };

    ghost view = { λ t. t.seconds };

    ghost invariant = { λ t. IsTime t.seconds };

    ghost inverse = { λ seconds. record { seconds = seconds } };
}

/// The number of the two digits at the front, and the octets after them.
#[tactic(auto, unfolding(crate::specs::MomentReading::two_in))]
fn two_digits(octets: &[u8]) -> Result<(u8, &[u8]), Shape>
    ensures value { Gives (λ x. (x.0, x.1.now)) result (two_in octets.now) }
    ensures below { IfOk result (λ x. x.0 < 100) }
{
    match octets {
        [tens @ b'0'..=b'9', units @ b'0'..=b'9', rest @ ..] => {
            Ok((10 * (tens - b'0') + (units - b'0'), rest))
        }
        _ => Err(Shape),
    }
}

/// The number of four digits.
#[tactic(auto, unfolding(crate::specs::MomentReading::four_in))]
fn four_digits(octets: &[u8]) -> Result<(u16, &[u8]), Shape>
    ensures value { Gives (λ x. (x.0, x.1.now)) result (four_in octets.now) }
    ensures below { IfOk result (λ x. x.0 < 10000) }
{
    let (century, rest) = two_digits(octets)?;
    let (year, rest) = two_digits(rest)?;
    Ok((100 * u16::from(century) + u16::from(year), rest))
}

/// The days from 1970-01-01 to a date, if the calendar has it.
#[tactic(auto, unfolding(crate::specs::MomentReading::day_in))]
fn day_number(year: u16, month: u8, day: u8) -> Result<i32, Shape>
    requires year_in { year < 10000 }
    requires month_in { month < 100 }
    requires day_in { day < 100 }
    ensures value { Gives (λ n. n) result (day_in year month day) }
    ensures from { IfOk result (λ n. negsuc 719527 ≤ℤ n) }
    ensures to { IfOk result (λ n. n ≤ℤ pos 2932896) }
{
    match Date::new(year as i16, month as i8, day as i8) {
        Ok(date) => Ok(date.to_unix_epoch_day()),
        Err(_) => Err(Shape),
    }
}

/// The days of the date, and the octets after it.
#[tactic(auto, unfolding(crate::specs::MomentReading::date_in))]
fn date(octets: &[u8]) -> Result<(i32, &[u8]), Shape>
    ensures value { Gives (λ x. (x.0, x.1.now)) result (date_in octets.now) }
    ensures from { IfOk result (λ x. negsuc 719527 ≤ℤ x.0) }
    ensures to { IfOk result (λ x. x.0 ≤ℤ pos 2932896) }
{
    let (year, rest) = four_digits(octets)?;
    let (month, rest) = two_digits(rest)?;
    let (day, rest) = two_digits(rest)?;
    let days = day_number(year, month, day)?;
    Ok((days, rest))
}

/// The second of the day that the clock shows, and the octets after it.
#[tactic(auto, unfolding(crate::specs::MomentReading::clock_in))]
fn clock(octets: &[u8]) -> Result<(u32, &[u8]), Shape>
    ensures value { Gives (λ x. (x.0, x.1.now)) result (clock_in octets.now) }
    ensures below { IfOk result (λ x. x.0 < 86400) }
{
    let (hour, rest) = two_digits(octets)?;
    let (minute, rest) = two_digits(rest)?;
    let (second, rest) = two_digits(rest)?;
    if hour < 24 && minute < 60 && second < 60 {
        Ok((
            3600 * u32::from(hour) + 60 * u32::from(minute) + u32::from(second),
            rest,
        ))
    } else {
        Err(Shape)
    }
}

/// The moment, as a function of the octets.
#[tactic(auto, unfolding(crate::specs::MomentReading::time_in))]
fn moment(octets: &[u8]) -> Result<Time, Shape>
    ensures { Gives (λ t. t) result (time_in octets.now) }
{
    let (days, rest) = date(octets)?;
    let (seconds, rest) = clock(rest)?;
    match rest {
        [b'Z'] => Ok(Time {
            seconds: i64::from(days) * SECONDS_A_DAY + i64::from(seconds),
        }),
        _ => Err(Shape),
    }
}

/// A number below 100 as two digits.
fn digits(number: u8) -> [u8; 2]
    requires { number < 100 }
    ensures { result ≡ two_digits_of number }
{
    [b'0' + number / 10, b'0' + number % 10]
}

/// Returns the date `days` days after 0000-01-01.
fn date_after(days: u32) -> Date
    requires { days < 3652425 }
    ensures year { result.year ≡ pos (day_after days).year }
    ensures month { result.month ≡ (day_after days).month }
    ensures day { result.day ≡ (day_after days).day }
{
    Date::from_unix_epoch_day(i64::from(days) - DAYS_BEFORE_1970).unwrap()
}

/// The octets of a date and of a second of its day.
fn spell(date: Date, second: u32) -> [u8; 15]
    requires year_in { pos 0 ≤ℤ date.year }
    requires second_in { second < 86400 }
    ensures { result ≡ spelled (unsigned_abs date.year) date.month date.day (second / 3600) (second / 60 % 60) (second % 60) }
{
    let year = date.year as u16;
    let [thousands, hundreds] = digits((year / 100) as u8);
    let [tens, units] = digits((year % 100) as u8);
    let month = digits(date.month);
    let day = digits(date.day);
    let hour = digits((second / 3600) as u8);
    let minute = digits((second / 60 % 60) as u8);
    let second = digits((second % 60) as u8);
    [
        thousands, hundreds, tens, units, month[0], month[1], day[0], day[1], hour[0], hour[1],
        minute[0], minute[1], second[0], second[1], b'Z',
    ]
}

/// Returns the octets of the moment `seconds` seconds after 0000-01-01T00:00:00Z.
fn octets_since(seconds: u64) -> [u8; 15]
    requires { seconds < 315569520000 }
    ensures { result ≡ day_octets (day_after (seconds / 86400)) (seconds % 86400) }
{
    let date = date_after((seconds / 86_400) as u32);
    spell(date, (seconds % 86_400) as u32)
}

impl Time {
    /// Returns the moment `seconds` seconds from 1970-01-01T00:00:00Z.
    pub fn new(seconds: i64) -> Time
        requires from { negsuc 62_167_219_199 ≤ℤ seconds }
        requires to { seconds ≤ℤ pos 253_402_300_799 }
        ensures { result ≡ seconds }
    {
        Time { seconds }
    }

    /// The seconds from 1970-01-01T00:00:00Z.
    pub fn seconds(self) -> i64
        ensures value { result ≡ self }
        ensures from { negsuc 62_167_219_199 ≤ℤ result }
        ensures to { result ≤ℤ pos 253_402_300_799 }
    {
        self.seconds
    }

    /// Returns the microseconds from 1970-01-01T00:00:00Z, in the width that sums of moments and skews need.
    pub fn microseconds(self) -> i128
        ensures value { result ≡ self *ℤ pos 1_000_000 }
        ensures from { negsuc 62_167_219_199_999_999 ≤ℤ result }
        ensures to { result ≤ℤ pos 253_402_300_799_000_000 }
    {
        i128::from(self.seconds) * 1_000_000
    }

    /// The moment that the 15 octets `YYYYMMDDHHMMSSZ` spell (X.690 11.7 without a fraction, as RFC 4120 5.2.3 has it).
    /// Year 0000 is a leap year.
    pub fn from_octets(octets: &[u8]) -> Result<Time, Shape>
        // A moment that is returned is spelled by the octets.
        ensures found { IfOk result (λ time. SpellsMoment time octets.now) }
        // After an error the octets spell no moment.
        ensures none { OnErr result ((seconds : ℤ) → SpellsMoment seconds octets.now → ⊥) }
        // For proofs: the same as a function of the octets.
        ensures exact { Gives (λ time. time) result (time_in octets.now) }
    {
        moment(octets)
    }

    /// The 15 octets `YYYYMMDDHHMMSSZ` of the moment.
    pub fn to_octets(self) -> [u8; 15]
        ensures spelled { SpellsMoment self result }
        // For proofs: the same as a function of the seconds.
        ensures exact { result ≡ time_octets self }
    {
        octets_since((self.seconds + SECONDS_BEFORE_1970) as u64)
    }
}

impl TryCopy for Time {
    fn copy(&self, _alloc: Global) -> Result<Time, OutOfMemory> {
        Ok(*self)
    }
}
