// The state of a group's attestation: at a moment, and at all moments up to now.
ghost use Rattle.std.specs.Prelude.{◌≡◌, ◌≤◌, IfOk};
ghost use Rattle.reg_access.specs.Groups.{attested_at};
ghost use Rattle.reg_access.specs.States.{AreStates, next_of};

use crate::asking::{held_from, held_in};
use crate::listing::note_stretch;
use crate::state::{State, StateKind, state_by};
use reg_base::{GroupId, Moment};
use reg_effect::Kept;
use reg_machine::Machine;
use reg_terms::Object;
use std::alloc::{AllocError, Global};

/// The state of a group's attestation at a moment up to the clock. It goes by the values that were
/// assigned to the group then, under the names that the attributes have now, or had when they went.
/// Costs what was ever assigned to the group. The only error is out of memory.
pub fn state_at<K: Kept>(
    alloc: Global,
    machine: &Machine<K>,
    group: GroupId,
    at: Moment,
) -> Result<State, AllocError>
    requires { at ≤ machine.now.clock }
    ensures { IfOk result (λ s. s
        ≡ attested_at machine.now.history machine.now.clock group at) }
{
    let held = held_from(alloc, machine, group, at)?;
    Ok(state_by(held.days, &held.certified, at))
}

/// The first of some moments, at most an end; the end where there is none.
fn next_of(moments: &[Moment], end: u64) -> u64
    ensures { result ≡ next_of end moments.now }
{
    match moments.first() {
        Some(moment) => moment.micros().min(end),
        None => end,
    }
}

/// The list of the states of a group's attestation at all moments up to the clock: each with the
/// moment from which on it is so, in order, the first from 0 on, no two in a row alike. Between two
/// changes of the group's assignments it tells when a certification grows due and overdue. Costs
/// what was ever assigned to the group, sorted; for each such change a look at each assignment and
/// at each value ever in those that stood, and what stood. The only error is out of memory.
pub fn states<K: Kept>(
    alloc: Global,
    machine: &Machine<K>,
    group: GroupId,
) -> Result<Vec<(Moment, StateKind)>, AllocError>
    ensures { IfOk result (λ list.
        AreStates (λ t. (attested_at machine.now.history machine.now.clock group t).kind)
        machine.now.clock list.items) }
{
    let marks = machine.assign_moments(Object::Group(group))?;
    let past = machine.assigned_past(Object::Group(group))?;
    let end = machine.clock().micros() + 1;
    let mut states = Vec::new(alloc);
    let mut rest = marks.as_slice();
    while let Some((from, later)) = rest.split_first() {
        let stretch = held_in(alloc, machine, &past, *from)?;
        note_stretch(alloc, &mut states, &stretch, next_of(later, end))?;
        rest = later;
    }
    Ok(states)
}
