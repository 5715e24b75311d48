// The text of a moment, read and printed, and the moment some days later.
ghost use Rattle.std.specs.Prelude.{◌≡◌, ℕ, ◌+◌, ◌*◌, ◌/◌, ◌%◌, ◌<◌, ◌≤◌, length, SomeIff, Some};
ghost use Rattle.std.specs.Prelude.{None, IfSome, if◌then◌else◌};
ghost use Rattle.reg_base.specs.Calendar.{day_micros};
ghost use Rattle.reg_base.specs.MomentText.{full_shape, fits_mark, fits, has_length, full_text};
ghost use Rattle.reg_base.specs.MomentText.{digit, two_at, year_at, fraction_at, is_time, time_at};
ghost use Rattle.reg_base.specs.MomentText.{is_day, day_at, moment_in_full, moment_of, stamp};
ghost use Rattle.reg_base.specs.MomentText.{text_of};

use crate::calendar::{Day, day_number, day_of};
use crate::moment::{GREATEST_MOMENT, Moment};

/// The microseconds of a day.
const DAY_MICROS: u64 = 86_400_000_000;

// the shape of a text with six digits of a fraction, where `0` stands for any digit
const FULL_SHAPE: [u8; 27] = *b"0000-00-00T00:00:00.000000Z";

fn fits_mark(mark: u8, byte: u8) -> bool
    ensures { result ≡ fits_mark mark byte }
{
    if mark == b'0' {
        byte.is_ascii_digit()
    } else {
        byte == mark
    }
}

fn fits(shape: &[u8], text: &[u8]) -> bool
    requires { length shape.now ≡ length text.now }
    ensures { result ≡ fits shape.now text.now }
{
    for (place, mark) in shape.iter().enumerate() {
        if !fits_mark(*mark, text[place]) {
            return false;
        }
    }
    true
}

fn has_length(length: usize) -> bool
    ensures { result ≡ has_length length }
{
    length == 20 || (22 <= length && length <= 27)
}

fn full_text(text: &[u8]) -> [u8; 27]
    requires low { 20 ≤ length text.now }
    requires high { length text.now ≤ 27 }
    ensures { result ≡ full_text text.now }
{
    let last = text.len() - 1;
    let mut full = FULL_SHAPE;
    full[..last].copy_from_slice(&text[..last]);
    full[26] = text[last];
    full
}

fn digit(byte: u8) -> u8
    ensures value { result ≡ digit byte }
    ensures bound { result ≤ 9 }
{
    match byte {
        b'0'..=b'9' => byte - b'0',
        _ => 0,
    }
}

fn two_at(text: &[u8], place: usize) -> u8
    requires { place + 1 < length text.now }
    ensures value { result ≡ two_at text.now place }
    ensures bound { result ≤ 99 }
{
    10 * digit(text[place]) + digit(text[place + 1])
}

fn year_at(text: &[u8]) -> u16
    requires { length text.now ≡ 27 }
    ensures value { result ≡ year_at text.now }
    ensures bound { result ≤ 9999 }
{
    100 * u16::from(two_at(text, 0)) + u16::from(two_at(text, 2))
}

fn fraction_at(text: &[u8]) -> u64
    requires { length text.now ≡ 27 }
    ensures value { result ≡ fraction_at text.now }
    ensures bound { result < 1_000_000 }
{
    let front = u64::from(two_at(text, 20));
    let middle = u64::from(two_at(text, 22));
    10_000 * front + 100 * middle + u64::from(two_at(text, 24))
}

fn time_at(text: &[u8]) -> Option<u64>
    requires { length text.now ≡ 27 }
    ensures value { result ≡ (if is_time text.now then Some (time_at text.now) else None) }
    ensures bound { IfSome result (λ micros. micros < 86_400_000_000) }
{
    let hour = u64::from(two_at(text, 11));
    let minute = u64::from(two_at(text, 14));
    let second = u64::from(two_at(text, 17));
    if hour <= 23 && minute <= 59 && second <= 59 {
        Some(((hour * 60 + minute) * 60 + second) * 1_000_000 + fraction_at(text))
    } else {
        None
    }
}

fn day_at(text: &[u8]) -> Option<u32>
    requires { length text.now ≡ 27 }
    ensures value { result ≡ (if is_day text.now then Some (day_at text.now) else None) }
    ensures bound { IfSome result (λ days. days ≤ 2_932_896) }
{
    day_number(year_at(text), two_at(text, 5), two_at(text, 8))
}

fn moment_at(days: u32, micros: u64) -> Option<Moment>
    requires days_in { days ≤ 2_932_896 }
    requires micros_in { micros < 86_400_000_000 }
    ensures { result ≡ Some (days * day_micros + micros) }
{
    Moment::new(u64::from(days) * DAY_MICROS + micros)
}

#[tactic(auto, unfolding(crate::specs::MomentText::moment_in_full))]
fn moment_in_full(text: &[u8]) -> Option<Moment>
    requires { length text.now ≡ 27 }
    ensures { result ≡ moment_in_full text.now }
{
    if !fits(&FULL_SHAPE, text) {
        return None;
    }
    let days = day_at(text)?;
    let micros = time_at(text)?;
    moment_at(days, micros)
}

fn tens(n: u64) -> u8
    ensures { result ≡ 48 + n / 10 % 10 }
{
    b'0' + (n / 10 % 10) as u8
}

fn ones(n: u64) -> u8
    ensures { result ≡ 48 + n % 10 }
{
    b'0' + (n % 10) as u8
}

#[tactic(auto, unfolding(crate::specs::MomentText::stamp))]
fn stamp(day: Day, micros: u64) -> [u8; 27]
    ensures { result ≡ stamp day micros }
{
    let year = u64::from(day.year);
    let month = u64::from(day.month);
    let date = u64::from(day.day);
    let hour = micros / 3_600_000_000;
    let minute = micros / 60_000_000 % 60;
    let second = micros / 1_000_000 % 60;
    let front = micros / 10_000 % 100;
    let middle = micros / 100 % 100;
    let back = micros % 100;
    [
        tens(year / 100),
        ones(year / 100),
        tens(year),
        ones(year),
        b'-',
        tens(month),
        ones(month),
        b'-',
        tens(date),
        ones(date),
        b'T',
        tens(hour),
        ones(hour),
        b':',
        tens(minute),
        ones(minute),
        b':',
        tens(second),
        ones(second),
        b'.',
        tens(front),
        ones(front),
        tens(middle),
        ones(middle),
        tens(back),
        ones(back),
        b'Z',
    ]
}

impl Moment {
    /// The moment that a text names: `YYYY-MM-DDThh:mm:ssZ`, with optionally a point and 1 to 6
    /// digits after the seconds. None exactly where the text has another shape, the day doesn't
    /// exist from 1970 to 9999, or the hour is past 23 or the minute or second past 59. What it
    /// takes is printed again with all six digits and else unchanged. It takes no memory. RFC 3339,
    /// narrowed: no offset but `Z`, no leap second, no small letters.
    #[tactic(auto, unfolding(crate::specs::MomentText::moment_of))]
    pub fn parse(text: &[u8]) -> Option<Moment>
        ensures value { result ≡ moment_of text.now }
        ensures printed { IfSome result (λ moment. text_of moment ≡ full_text text.now) }
    {
        if !has_length(text.len()) {
            return None;
        }
        moment_in_full(&full_text(text))
    }

    /// The text of the moment, `YYYY-MM-DDThh:mm:ss.ffffffZ` in UTC, always with six digits of a
    /// fraction. `parse` gives the moment back. It takes no memory.
    #[tactic(auto, unfolding(crate::specs::MomentText::text_of))]
    pub fn text(self) -> [u8; 27]
        ensures value { result ≡ text_of self }
        ensures read_back { moment_of result ≡ Some self }
    {
        let day = day_of((self.micros() / DAY_MICROS) as u32);
        stamp(day, self.micros() % DAY_MICROS)
    }

    /// The moment this many days of 86,400,000,000 microseconds later. None exactly past the
    /// greatest moment.
    pub fn plus_days(self, days: u32) -> Option<Moment>
        ensures { SomeIff result (self + days * day_micros
            ≤ GREATEST_MOMENT) (self + days * day_micros) }
    {
        let span = u64::from(days).checked_mul(DAY_MICROS)?;
        let micros = self.micros().checked_add(span)?;
        Moment::new(micros)
    }
}
