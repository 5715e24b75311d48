// The moment that a query asks of.
ghost use Rattle.std.specs.Prelude.{◌≡◌, Ok, Err, IfOk, nat_lt, if◌then◌else◌};
ghost use Rattle.reg_view.specs.Answers.{unfit};
ghost use Rattle.reg_view.specs.Show.{in_time};

use crate::Answer;
use crate::refusing::wrong_kind;
use reg_base::Moment;
use reg_terms::Refusal;
use std::alloc::{AllocError, Global};

/// A moment that is asked of isn't later than now.
pub fn in_time(now: Moment, at: Option<Moment>) -> Result<(), Refusal>
    ensures { result ≡ in_time now at }
{
    match at {
        Some(asked) => not_later(now, asked),
        None => Ok(()),
    }
}

/// A moment isn't later than now.
pub fn not_later(now: Moment, asked: Moment) -> Result<(), Refusal>
    ensures { result ≡ (if nat_lt now asked then Err (Refusal.Future asked now) else Ok tt) }
{
    if now.micros() < asked.micros() {
        return Err(Refusal::Future { asked, clock: now });
    }
    Ok(())
}

/// A field names a thing of a kind that it can't be: a moment that is later than now is refused
/// first.
pub fn unfit(
    alloc: Global,
    field: &str,
    now: Moment,
    at: Option<Moment>,
) -> Result<Result<Answer, Refusal>, AllocError>
    ensures { IfOk result (λ r. r ≡ unfit field.now now at) }
{
    match in_time(now, at) {
        Ok(()) => Ok(Err(wrong_kind(alloc, field)?)),
        Err(refusal) => Ok(Err(refusal)),
    }
}
