// Where a batch begins and ends in the log.
ghost use Rattle.std.specs.Prelude.{◌≡◌, ◌+◌, ◌==◌, ◌&&◌, ◌≤◌, length, min};
ghost use Rattle.reg_prov.specs.Boundaries.{moment_at, is_boundary, is_past, is_end, start_of};
ghost use Rattle.reg_prov.specs.Boundaries.{last_end, first_end, batch_end, is_last_of};

use reg_base::Moment;

/// The moment of an entry of the log, by its number. None exactly where there is no such entry.
pub fn moment_at(moments: &[Moment], number: u64) -> Option<Moment>
    ensures { result ≡ moment_at moments.now number }
{
    if number == 0 {
        return None;
    }
    moments.get((number - 1) as usize).copied()
}

/// Whether an entry is the last one of its moment, by its moment and that of the next.
fn is_last_of(moment: Option<Moment>, next: Option<Moment>) -> bool
    ensures { result ≡ is_last_of moment next }
{
    match moment {
        None => false,
        Some(moment) => match next {
            None => true,
            Some(next) => moment.micros() != next.micros(),
        },
    }
}

/// Whether a number is a boundary of the log whose entries have these moments: 0, or the number of
/// the last entry of a moment. Looks at two entries.
pub fn is_boundary(moments: &[Moment], number: u64) -> bool
    ensures { result ≡ is_boundary moments.now number }
{
    if number == 0 {
        return true;
    }
    let next = moments.get(number as usize).copied();
    is_last_of(moment_at(moments, number), next)
}

/// The greatest boundary up to a number. Looks at entries of one moment, and at one more.
pub fn start_of(moments: &[Moment], place: u64) -> u64
    ensures { result ≡ start_of moments.now place }
{
    let mut number = place;
    while !is_boundary(moments, number) {
        number -= 1;
    }
    number
}

/// Whether a moment is less than the clock.
fn is_past(clock: Moment, moment: Option<Moment>) -> bool
    ensures { result ≡ is_past clock moment }
{
    match moment {
        None => false,
        Some(moment) => moment.micros() < clock.micros(),
    }
}

/// Whether a batch may end at a number: at a boundary behind the place whose moment is less than
/// the clock.
fn is_end(moments: &[Moment], clock: Moment, place: u64, number: u64) -> bool
    ensures { result ≡ is_end moments.now clock place number }
{
    place < number && is_boundary(moments, number) && is_past(clock, moment_at(moments, number))
}

/// The greatest end up to a number.
fn last_end(moments: &[Moment], clock: Moment, place: u64, most: u64) -> Option<u64>
    ensures { result ≡ last_end moments.now clock place most }
{
    let mut number = most;
    while place < number {
        if is_end(moments, clock, place, number) {
            return Some(number);
        }
        number -= 1;
    }
    None
}

/// The least end.
fn first_end(moments: &[Moment], clock: Moment, place: u64) -> Option<u64>
    ensures { result ≡ first_end moments.now clock place (length moments.now) }
{
    let mut number = place;
    while number < moments.len() as u64 {
        number += 1;
        if is_end(moments, clock, place, number) {
            return Some(number);
        }
    }
    None
}

/// So many entries behind a place, as far as there are entries.
fn number_behind(moments: &[Moment], place: u64, most: u64) -> u64
    ensures { result ≡ min (place + most) (length moments.now) }
{
    place.saturating_add(most).min(moments.len() as u64)
}

/// Where a batch of at most so many entries behind a place ends, in the log whose entries have
/// these moments: at the greatest boundary up to there whose moment is less than the clock; else at
/// the least such boundary behind the place; else at the place. Looks at so many entries, and where
/// none of them is an end at the further ones until the least end.
pub fn batch_end(moments: &[Moment], clock: Moment, place: u64, most: u64) -> u64
    ensures { result ≡ batch_end moments.now clock place most }
{
    let greatest = number_behind(moments, place, most);
    if let Some(end) = last_end(moments, clock, place, greatest) {
        return end;
    }
    match first_end(moments, clock, place) {
        Some(end) => end,
        None => place,
    }
}
