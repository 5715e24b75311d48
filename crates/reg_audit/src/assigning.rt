// What events do to assignments of attributes.
ghost use Rattle.std.specs.Prelude.{◌≡◌, IfOk, filter_map};
ghost use Rattle.reg_audit.specs.Assigning.{assign_change_of, assign_changes};

use reg_pit::AssignChange;
use reg_terms::{Event, Object};
use std::alloc::{AllocError, Global};

/// What an event does to assignments, if it does something.
fn assign_change_of(alloc: Global, event: &Event) -> Result<Option<AssignChange>, AllocError>
    ensures { IfOk result (λ change. change ≡ assign_change_of event.now) }
{
    let change = match event {
        Event::FolderGone { folder } => AssignChange::OwnerGone {
            owner: Object::Folder(*folder),
        },
        Event::GroupGone { group } => AssignChange::OwnerGone {
            owner: Object::Group(*group),
        },
        Event::DefinitionGone { definition } => AssignChange::OwnerGone {
            owner: Object::Def(*definition),
        },
        Event::AssignMade { row } => AssignChange::Made {
            assign: row.id,
            attribute: row.attribute,
            owner: row.owner,
        },
        Event::AssignGone { assign } => AssignChange::Gone { assign: *assign },
        Event::ValueAdded { assign, value } => AssignChange::ValueAdded {
            assign: *assign,
            value: value.copy(alloc)?,
        },
        Event::ValueRemoved { assign, value } => AssignChange::ValueRemoved {
            assign: *assign,
            value: value.copy(alloc)?,
        },
        _ => return Ok(None),
    };
    Ok(Some(change))
}

/// What events do to assignments, in order.
pub(crate) fn assign_changes(
    alloc: Global,
    events: &[Event],
) -> Result<Vec<AssignChange>, AllocError>
    ensures { IfOk result (λ changes. changes.items ≡ assign_changes events.now) }
{
    let mut changes = Vec::new(alloc);
    for event in events {
        if let Some(change) = assign_change_of(alloc, event)? {
            changes.push(change)?;
        }
    }
    Ok(changes)
}
