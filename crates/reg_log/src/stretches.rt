// The moments of runs of lines.
ghost use Rattle.std.specs.Prelude.{◌≡◌, ◌≤◌, ◌<◌, ◌+◌, ◌^◌, ℕ, suc, length, OnOk, OnErr};
ghost use Rattle.reg_log.specs.Stretches.{moment_at, begun, moment_begun, Begin, AreInOrder};

use crate::stored::Stretch;
use reg_base::Moment;
use std::alloc::AllocError;

/// How many stretches have begun at a place, which begin there or before. Costs a search by halves.
pub(crate) fn count_begun(stretches: &[Stretch], place: usize) -> usize
    requires { AreInOrder stretches.now }
    ensures { result ≡ begun place stretches.now }
{
    stretches.partition_point(|stretch| stretch.first <= place)
}

/// How many stretches have begun at the place after one, where `count` have at that place. It looks
/// at one stretch.
pub(crate) fn count_next(stretches: &[Stretch], count: usize, place: usize) -> usize
    requires order { AreInOrder stretches.now }
    requires count { count ≡ begun place stretches.now }
    requires room { place + 1 < 2 ^ 64 }
    ensures { result ≡ begun (suc place) stretches.now }
{
    match stretches.get(count) {
        Some(next) if next.first <= place + 1 => count + 1,
        Some(_) | None => count,
    }
}

/// The moment once some stretches have begun. Before the first it is the start of all moments.
pub(crate) fn moment_begun(stretches: &[Stretch], count: usize) -> Moment
    requires { count ≤ length stretches.now }
    ensures { result ≡ moment_begun 0 count stretches.now }
{
    match count.checked_sub(1) {
        Some(last) => stretches[last].at,
        None => Moment::start(),
    }
}

/// Gives the place behind all lines a moment: a stretch begins there where the last one has another
/// moment. Out of memory the stretches stay as they were.
pub(crate) fn begin_at(
    stretches: &mut Vec<Stretch>,
    first: usize,
    at: Moment,
) -> Result<(), AllocError>
    requires { Begin 0 stretches.old.items first }
    ensures at { OnOk result (moment_at 0 first stretches.new.items ≡ at) }
    ensures earlier { OnOk result ((place : ℕ) → place < first
        → moment_at 0 place stretches.new.items ≡ moment_at 0 place stretches.old.items) }
    ensures order { OnOk result (Begin 0 stretches.new.items (suc first)) }
    ensures err { OnErr result (stretches.new.items ≡ stretches.old.items) }
{
    if moment_begun(stretches, stretches.len()).micros() != at.micros() {
        stretches.push(Stretch { first, at })?;
    }
    Ok(())
}
