// Days of the calendar and their numbers, as `jiff` counts them.
ghost use Rattle.std.specs.Prelude.{◌≡◌, ◌≤◌, if◌then◌else◌, Some, None, IfSome};
ghost use Rattle.reg_base.specs.Calendar.{day_exists, day_number, day_of};

use jiff::civil::Date;

/// The days from the first day that `jiff` counts, -9999-01-01, to 1970-01-01.
const FIRST_DAY: u32 = 4_371_587;

/// A day of the calendar.
#[derive(Clone, Copy)]
pub(crate) struct Day {
    pub(crate) year: u16,
    pub(crate) month: u8,
    pub(crate) day: u8,
}

/// The days from 1970-01-01 to a day. None exactly where the calendar has no such day from 1970 on.
pub(crate) fn day_number(year: u16, month: u8, day: u8) -> Option<u32>
    requires year_in { year ≤ 9999 }
    requires month_in { month ≤ 99 }
    requires day_in { day ≤ 99 }
    ensures value { result ≡ (if day_exists year month day then Some (day_number year month day)
        else None) }
    ensures bound { IfSome result (λ n. n ≤ 2_932_896) }
{
    if year < 1970 {
        return None;
    }
    match Date::new(year as i16, month as i8, day as i8) {
        Ok(date) => Some(date.to_plain().days_since_min() - FIRST_DAY),
        Err(_) => None,
    }
}

/// The day that lies this many days after 1970-01-01.
pub(crate) fn day_of(days: u32) -> Day
    requires { days ≤ 2_932_896 }
    ensures value { result ≡ day_of days }
    ensures year_in { result.year ≤ 9999 }
{
    let date = jiff_core::civil::Date::from_days_since_min(days + FIRST_DAY);
    Day {
        year: date.year.unsigned_abs(),
        month: date.month,
        day: date.day,
    }
}
