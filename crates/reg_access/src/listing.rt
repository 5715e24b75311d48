// The states of a stretch, added to the list of those before it.
ghost use Rattle.std.specs.Prelude.{◌≡◌, ◌<◌, ◌≤◌, ◌&&◌, ℕ, true, false, Some, IfOk};
ghost use Rattle.std.specs.Prelude.{OnOk, min, filter, nat_lt};
ghost use Rattle.reg_access.specs.declared.state.StateKind.{StateKind};
ghost use Rattle.reg_access.specs.Attested.{ending, state_by, state_of};
ghost use Rattle.reg_access.specs.Between.{AllBetween};
ghost use Rattle.reg_access.specs.States.{AreBefore, last_kind};

use crate::state::{StateKind, cert, due_of, state_of};
use crate::stretch::Stretch;
use reg_base::Moment;
use std::alloc::{AllocError, Global};

fn is_same(a: StateKind, b: StateKind) -> bool
    ensures yes { result ≡ true → a ≡ b }
    ensures no { result ≡ false → a ≡ b → ⊥ }
{
    a == b
}

/// Whether the last state of a list is this one.
#[tactic(auto, using(crate::proofs::Noting::last_get))]
fn ends_with(states: &[(Moment, StateKind)], kind: StateKind) -> bool
    ensures yes { result ≡ true → last_kind states.now ≡ Some kind }
    ensures no { result ≡ false → last_kind states.now ≡ Some kind → ⊥ }
{
    match states.last() {
        Some(last) => is_same(last.1, kind),
        None => false,
    }
}

/// Adds to the states before a moment that it is this one from then until an end: nothing where it
/// was this one already, or where the end isn't later.
fn note(
    states: &mut Vec<(Moment, StateKind)>,
    from: Moment,
    end: u64,
    kind: StateKind,
) -> Result<(), AllocError>
    ensures { OnOk result ((kind_at : ℕ → StateKind)
        → AreBefore kind_at (min from end) states.old.items
        → ((t : ℕ) → from ≤ t → t < end → kind_at t ≡ kind)
        → AreBefore kind_at end states.new.items) }
{
    if end <= from.micros() {
        return Ok(());
    }
    if ends_with(states, kind) {
        return Ok(());
    }
    states.push((from, kind))?;
    Ok(())
}

/// Adds the states, from a moment until an end, of a certification that ends at a moment.
fn note_ending(
    states: &mut Vec<(Moment, StateKind)>,
    ends: Moment,
    from: Moment,
    end: u64,
) -> Result<(), AllocError>
    requires { from ≤ end }
    ensures { OnOk result ((kind_at : ℕ → StateKind) → AreBefore kind_at from states.old.items
        → ((t : ℕ) → from ≤ t → t < end → kind_at t ≡ (ending ends t).kind)
        → AreBefore kind_at end states.new.items) }
{
    let due = from.later_of(due_of(ends));
    let over = from.later_of(ends);
    note(states, from, due.micros().min(end), StateKind::Attested)?;
    note(states, due, over.micros().min(end), StateKind::Due)?;
    note(states, over, end, StateKind::Overdue)
}

/// Adds the states of a stretch, from a moment until an end, while this is the last certification.
fn note_last(
    states: &mut Vec<(Moment, StateKind)>,
    stretch: &Stretch,
    last: Option<Moment>,
    from: Moment,
    end: u64,
) -> Result<(), AllocError>
    requires { from ≤ end }
    ensures { OnOk result ((kind_at : ℕ → StateKind) → AreBefore kind_at from states.old.items
        → ((t : ℕ) → from ≤ t → t < end → kind_at t ≡ (state_of stretch.now.days last t).kind)
        → AreBefore kind_at end states.new.items) }
{
    let state = state_of(stretch.days, last, from);
    match state.until {
        Some(ends) => note_ending(states, ends, from, end),
        None => note(states, from, end, state.kind),
    }
}

/// The certified moments after a moment and before an end.
fn certified_within(
    alloc: Global,
    certified: &[Moment],
    from: Moment,
    end: u64,
) -> Result<Vec<Moment>, AllocError>
    ensures { IfOk result (λ found. found.items
        ≡ filter (λ c. nat_lt from c && nat_lt c end) certified.now) }
{
    certified
        .iter()
        .copied()
        .filter(|c| from.micros() < c.micros() && c.micros() < end)
        .collect(alloc)
}

/// The certified moments after a moment and before an end, in order.
fn certified_between(
    alloc: Global,
    certified: &[Moment],
    from: Moment,
    end: u64,
) -> Result<Vec<Moment>, AllocError>
    ensures { IfOk result (λ found. AllBetween certified.now from end found.items) }
{
    let mut found = certified_within(alloc, certified, from, end)?;
    found.sort_unstable();
    Ok(found)
}

/// Adds the states of a stretch until an end, by the certified moments in between.
fn note_certified(
    states: &mut Vec<(Moment, StateKind)>,
    stretch: &Stretch,
    found: &[Moment],
    end: u64,
) -> Result<(), AllocError>
    requires later { stretch.now.from < end }
    requires all { AllBetween stretch.now.certified stretch.now.from end found.now }
    ensures { OnOk result ((kind_at : ℕ → StateKind)
        → AreBefore kind_at stretch.now.from states.old.items
        → ((t : ℕ) → stretch.now.from ≤ t → t < end
        → kind_at t ≡ (state_by stretch.now.days stretch.now.certified t).kind)
        → AreBefore kind_at end states.new.items) }
{
    let mut from = stretch.from;
    let mut last = cert(&stretch.certified, from);
    for c in found {
        note_last(states, stretch, last, from, c.micros())?;
        from = *c;
        last = Some(*c);
    }
    note_last(states, stretch, last, from, end)
}

/// Adds the states of a stretch until an end: nothing where the end isn't later than its beginning.
pub(crate) fn note_stretch(
    alloc: Global,
    states: &mut Vec<(Moment, StateKind)>,
    stretch: &Stretch,
    end: u64,
) -> Result<(), AllocError>
    ensures { OnOk result ((kind_at : ℕ → StateKind)
        → AreBefore kind_at (min stretch.now.from end) states.old.items
        → ((t : ℕ) → stretch.now.from ≤ t → t < end
        → kind_at t ≡ (state_by stretch.now.days stretch.now.certified t).kind)
        → AreBefore kind_at end states.new.items) }
{
    if end <= stretch.from.micros() {
        return Ok(());
    }
    let found = certified_between(alloc, &stretch.certified, stretch.from, end)?;
    note_certified(states, stretch, &found, end)
}
