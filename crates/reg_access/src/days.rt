// For how many days a certification lasts.
ghost use Rattle.std.specs.Prelude.{◌≡◌, ◌≤◌, map, IfOk};
ghost use Rattle.std.specs.Map.Iter.{deref};
ghost use Rattle.reg_access.specs.Attested.{days_in};
ghost use Rattle.reg_access.specs.Assigned.{days_among, days_given, days_of};

use reg_terms::{AssignRow, AttrValue};
use std::alloc::AllocError;
use std::marker::Model;

/// The most days for which a certification lasts: ten years.
const MOST_DAYS: i64 = 3_650;

/// How many days a certification lasts, from 1 to 3,650. A day is 86,400,000,000 microseconds.
#[derive(Clone, Copy)]
pub(crate) struct Days {
    number: u16,
}

impl Model for Days {
    ghost use Rattle.std.specs.Prelude.{ℕ, ◌≤◌};

    ghost Value = { ℕ };

    ghost view = { λ d. d.number };

    ghost invariant = { λ d. d.number ≤ 3650 };

    ghost inverse = { λ n. record { number = n } };
}

impl Days {
    /// The number of days.
    pub(crate) fn number(self) -> u16
        ensures value { result ≡ self }
        ensures bound { result ≤ 3650 }
    {
        self.number
    }
}

/// The days that a whole number gives. None exactly where it isn't from 1 to 3,650.
fn days_in(number: i64) -> Option<Days>
    ensures { result ≡ days_in number }
{
    if 1 <= number && number <= MOST_DAYS {
        Some(Days {
            number: number as u16,
        })
    } else {
        None
    }
}

/// The days that a value gives. None exactly where it isn't a whole number from 1 to 3,650.
fn days_given(value: &AttrValue) -> Option<Days>
    ensures { result ≡ days_given value.now }
{
    match value {
        AttrValue::Int(number) => days_in(*number),
        AttrValue::Text(_) | AttrValue::Moment(_) => None,
    }
}

/// The days that the first of some values gives.
fn days_among(values: &[&AttrValue]) -> Option<Days>
    ensures { result ≡ days_among (map deref values.now) }
{
    let value = values.first()?;
    days_given(*value)
}

/// The days that the first value of the first of some assignments gives. None exactly where there
/// is no such value, or it gives no days, whatever the others give.
pub(crate) fn days_of(rows: &[AssignRow]) -> Result<Option<Days>, AllocError>
    ensures { IfOk result (λ days. days ≡ days_of rows.now) }
{
    match rows.first() {
        Some(row) => {
            let values = row.values.list()?;
            Ok(days_among(&values))
        }
        None => Ok(None),
    }
}
