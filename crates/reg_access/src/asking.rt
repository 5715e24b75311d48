// What the assignments to a group say, by the names that their attributes have or had last.
ghost use Rattle.std.specs.Prelude.{◌≡◌, ◌≤◌, IfOk};
ghost use Rattle.std.specs.Str.{bytes_eq};
ghost use Rattle.reg_pit.specs.Owned.{rows_at};
ghost use Rattle.reg_access.specs.Assigned.{certified_name, days_name, printed};
ghost use Rattle.reg_access.specs.Groups.{attribute_name, assigned};
ghost use Rattle.reg_access.specs.Stretches.{held_by};

use crate::days::days_of;
use crate::moments::moments_in;
use crate::stretch::Stretch;
use reg_base::{GroupId, Moment, Text};
use reg_effect::Kept;
use reg_machine::Machine;
use reg_pit::AssignedPast;
use reg_terms::{AssignRow, Object};
use std::alloc::{AllocError, Global};

/// The name of the attribute that has the days.
const DAYS: &str = "etc:attest:days";

/// The name of the attribute that has the certified moments.
const CERTIFIED: &str = "etc:attest:certified";

/// Whether a name is the one of the days.
fn names_days(name: &Text) -> bool
    ensures { result ≡ bytes_eq name.now days_name }
{
    name.as_str() == DAYS
}

/// Whether a name is the one of the certified moments.
fn names_certified(name: &Text) -> bool
    ensures { result ≡ bytes_eq name.now certified_name }
{
    name.as_str() == CERTIFIED
}

/// The assignments of the two attributes.
#[derive(Drop)]
struct PrintedRows {
    days: Vec<AssignRow>,
    certified: Vec<AssignRow>,
}

/// Of some assignments those of the two attributes.
fn printed<K: Kept>(
    alloc: Global,
    machine: &Machine<K>,
    rows: Vec<AssignRow>,
) -> Result<PrintedRows, AllocError>
    ensures days { IfOk result (λ p. p.days.items
        ≡ printed (attribute_name machine.now.history machine.now.clock) days_name rows.items) }
    ensures certified { IfOk result (λ p. p.certified.items
        ≡ printed (attribute_name machine.now.history machine.now.clock) certified_name
        rows.items) }
{
    let mut days = Vec::new(alloc);
    let mut certified = Vec::new(alloc);
    for row in rows {
        let name = machine.last_name(alloc, Object::Attr(row.attribute))?;
        if names_days(&name) {
            days.push(row)?;
        } else if names_certified(&name) {
            certified.push(row)?;
        }
    }
    Ok(PrintedRows { days, certified })
}

/// What holds of a group from a moment on by the assignments then. Costs the assignments and the
/// names of their attributes.
pub(crate) fn held_by<K: Kept>(
    alloc: Global,
    machine: &Machine<K>,
    rows: Vec<AssignRow>,
    from: Moment,
) -> Result<Stretch, AllocError>
    ensures { IfOk result (λ s. s
        ≡ held_by from (attribute_name machine.now.history machine.now.clock) rows.items) }
{
    let printed = printed(alloc, machine, rows)?;
    let days = days_of(&printed.days)?;
    let certified = moments_in(alloc, &printed.certified)?;
    Ok(Stretch::new(from, days, certified))
}

/// What held of a group from a moment on, until its assignments changed.
pub(crate) fn held_from<K: Kept>(
    alloc: Global,
    machine: &Machine<K>,
    group: GroupId,
    from: Moment,
) -> Result<Stretch, AllocError>
    requires { from ≤ machine.now.clock }
    ensures { IfOk result (λ s. s
        ≡ held_by from (attribute_name machine.now.history machine.now.clock)
        (assigned machine.now.history group from)) }
{
    let rows = machine.assigns_at(Object::Group(group), from)?;
    held_by(alloc, machine, rows, from)
}

/// What holds of a group from a moment on by all that was ever assigned to it. Costs a look at each
/// of its assignments, and what stood at the moment.
pub(crate) fn held_in<K: Kept>(
    alloc: Global,
    machine: &Machine<K>,
    past: &AssignedPast,
    from: Moment,
) -> Result<Stretch, AllocError>
    ensures { IfOk result (λ s. s
        ≡ held_by from (attribute_name machine.now.history machine.now.clock)
        (rows_at past.now from)) }
{
    let rows = past.at(alloc, from)?;
    held_by(alloc, machine, rows, from)
}
