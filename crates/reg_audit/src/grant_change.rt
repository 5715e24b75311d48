// The privileges and holders whose grants events may change.
ghost use Rattle.std.specs.Prelude.{◌≡◌, IfOk};
ghost use Rattle.std.specs.List.{list_any};
ghost use Rattle.reg_audit.specs.Changed.{by_grant, by_inherit, changed_grant, changed_grants};
ghost use Rattle.reg_audit.specs.Changed.{changes_others};

use reg_base::Privilege;
use reg_terms::{Event, GrantRow, Holder, InheritRow, Object};
use std::alloc::{AllocError, Global};

/// One privilege of one holder that a step may change: on one object, or on each that it touches.
#[derive(Drop)]
pub(crate) struct GrantChange {
    pub(crate) object: Option<Object>,
    pub(crate) privilege: Privilege,
    pub(crate) holder: Holder,
}

/// What a grant that is added, begins or goes may change.
fn by_grant(row: &GrantRow) -> GrantChange
    ensures { result ≡ by_grant row.now }
{
    GrantChange {
        object: Some(row.object),
        privilege: row.privilege,
        holder: row.holder,
    }
}

/// What an inherit that is added or goes may change.
fn by_inherit(row: &InheritRow) -> GrantChange
    ensures { result ≡ by_inherit row.now }
{
    GrantChange {
        object: None,
        privilege: row.privilege,
        holder: row.holder,
    }
}

/// The one privilege and holder whose grants an event may change, direct or inherited: none where
/// it may change others, or none at all.
fn changed_grant(event: &Event) -> Option<GrantChange>
    ensures { result ≡ changed_grant event.now }
{
    match event {
        Event::GrantAdded { row } => Some(by_grant(row)),
        Event::GrantBegan { row } => Some(by_grant(row)),
        Event::GrantRemoved { row } => Some(by_grant(row)),
        Event::InheritAdded { row } => Some(by_inherit(row)),
        Event::InheritRemoved { row } => Some(by_inherit(row)),
        _ => None,
    }
}

/// The same of some events, one after another.
pub(crate) fn changed_grants(
    alloc: Global,
    events: &[Event],
) -> Result<Vec<GrantChange>, AllocError>
    ensures { IfOk result (λ changed. changed.items ≡ changed_grants events.now) }
{
    let mut changed = Vec::new(alloc);
    for event in events {
        if let Some(change) = changed_grant(event) {
            changed.push(change)?;
        }
    }
    Ok(changed)
}

/// Whether an event may change other grants: what grants are on, or what stands in a folder, is
/// made, renamed or moved, or goes.
fn changes_others(event: &Event) -> bool
    ensures { result ≡ changes_others event.now }
{
    match event {
        Event::FolderMade { .. }
        | Event::FolderRenamed { .. }
        | Event::FolderMoved { .. }
        | Event::FolderGone { .. }
        | Event::GroupMade { .. }
        | Event::GroupRenamed { .. }
        | Event::GroupMoved { .. }
        | Event::GroupGone { .. }
        | Event::DefinitionMade { .. }
        | Event::DefinitionGone { .. }
        | Event::AttributeMade { .. }
        | Event::AttributeGone { .. } => true,
        _ => false,
    }
}

/// Whether some of the events may.
pub(crate) fn any_changes_others(events: &[Event]) -> bool
    ensures { result ≡ list_any changes_others events.now }
{
    events.iter().any(changes_others)
}
