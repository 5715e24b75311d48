// Reminders of attestation.
ghost use Rattle.std.specs.Prelude.{◌≡◌, ◌++◌, true, IfOk, OnOk};
ghost use Rattle.reg_access.specs.Groups.{attested_at};
ghost use Rattle.reg_access.specs.Reminders.{end_text, reminder, reminder_of, reminders_of};
ghost use Rattle.reg_access.specs.Words.{is_reminded};

use crate::asking::held_by;
use crate::state::{State, state_by};
use reg_base::{GroupId, Moment};
use reg_effect::Kept;
use reg_machine::Machine;
use reg_terms::Object;
use std::alloc::{AllocError, Global};

/// Adds a space and the text of an end, if there is one.
fn push_end(text: &mut Vec<u8>, end: Option<Moment>) -> Result<(), AllocError>
    ensures { OnOk result (text.new.items ≡ text.old.items ++ end_text end) }
{
    if let Some(end) = end {
        text.push(b' ')?;
        text.extend_from_slice(&end.text())?;
    }
    Ok(())
}

/// Adds the line of a group of this name in a state of which owners are reminded.
fn push_line(text: &mut Vec<u8>, name: &str, state: &State) -> Result<(), AllocError>
    requires { is_reminded state.now.kind ≡ true }
    ensures { OnOk result (text.new.items ≡ text.old.items ++ reminder name.now state.now) }
{
    text.extend_from_slice(name.as_bytes())?;
    text.push(b' ')?;
    text.extend_from_slice(state.kind.word().as_bytes())?;
    push_end(text, state.until)?;
    text.push(b'\n')?;
    Ok(())
}

/// The state of a group's attestation now. Costs what is assigned to the group.
fn state_now<K: Kept>(
    alloc: Global,
    machine: &Machine<K>,
    group: GroupId,
) -> Result<State, AllocError>
    ensures { IfOk result (λ s. s
        ≡ attested_at machine.now.history machine.now.clock group machine.now.clock) }
{
    let now = machine.clock();
    let rows = machine.facts().assigns_on(alloc, &Object::Group(group))?;
    let held = held_by(alloc, machine, rows, now)?;
    Ok(state_by(held.days, &held.certified, now))
}

/// Adds the line of a group, if owners are reminded of its state.
fn push_reminder<K: Kept>(
    alloc: Global,
    machine: &Machine<K>,
    text: &mut Vec<u8>,
    group: GroupId,
) -> Result<(), AllocError>
    ensures { OnOk result (text.new.items ≡ text.old.items
        ++ reminder_of machine.now.history machine.now.clock group) }
{
    let state = state_now(alloc, machine, group)?;
    if !state.kind.is_reminded() {
        return Ok(());
    }
    let name = machine.last_name(alloc, Object::Group(group))?;
    push_line(text, name.as_str(), &state)
}

/// The reminders: for each group that stands, by id, whose state at the clock is never, due or
/// overdue, a line `NAME never`, `NAME due END` or `NAME overdue END`, with the text of the moment
/// at which the certification ends. Each line ends with a line feed. Costs the groups and what is
/// assigned to them. The only error is out of memory.
pub fn reminders<K: Kept>(alloc: Global, machine: &Machine<K>) -> Result<Vec<u8>, AllocError>
    ensures { IfOk result (λ v. v.items
        ≡ reminders_of machine.now.history machine.now.clock) }
{
    let mut text = Vec::new(alloc);
    for row in machine.facts().groups() {
        push_reminder(alloc, machine, &mut text, row.id)?;
    }
    Ok(text)
}
