// What an accepted load makes happen.
ghost use Rattle.std.specs.Prelude.{◌≡◌, ◌++◌, ◌+◌, ◌≤◌, ◌<◌, ◌^◌, IfOk, OnOk, length, map};
ghost use Rattle.std.specs.List.{AllByRecursion};
ghost use Rattle.reg_facts.specs.Events.{grants_added, load_events, row_comes, row_goes};
ghost use Rattle.reg_terms.specs.Limits.{max_groups};
ghost use Rattle.reg_terms.specs.declared.rows.PersonRow.{PersonRow};
ghost use Rattle.reg_load.specs.Finding.{numbered_group, numbered_groups, on_group};
ghost use Rattle.reg_load.specs.Loading.{CanLoad};

use crate::checks::first_grants;
use crate::created::law_names;
use crate::finding::{added_rows, removed_rows};
use reg_base::{Entity, FolderId, GroupId, Moment, Name, Text};
use reg_facts::{Event, Facts, GrantRow, GroupRow, JobRow, Member, MemberRow, Object};
use reg_terms::{LoadRow, PersonRow};
use std::alloc::{AllocError, Global};

/// Grants are made on a group.
fn push_grants(
    events: &mut Vec<Event>,
    group: GroupId,
    grants: &[GrantRow],
) -> Result<(), AllocError>
    ensures { OnOk result (events.new.items
        ≡ events.old.items ++ grants_added (map (on_group group) grants.now)) }
{
    for grant in grants {
        let row = GrantRow {
            object: Object::Group(group),
            privilege: grant.privilege,
            holder: grant.holder,
            from: grant.from,
            until: grant.until,
        };
        events.push(Event::GrantAdded { row })?;
    }
    Ok(())
}

/// A group of a number and a name is made in the folder of its name, with these grants.
fn push_group(
    facts: &Facts,
    alloc: Global,
    events: &mut Vec<Event>,
    id: GroupId,
    name: &Name,
    grants: &[GrantRow],
) -> Result<(), AllocError>
    ensures { OnOk result (events.new.items
        ≡ events.old.items ++ numbered_group id name.now facts.now grants.now) }
{
    let (home, extension) = facts.home(name);
    let row = GroupRow {
        id,
        folder: home.unwrap_or(FolderId::new(0)),
        extension: Text::new(alloc, extension)?,
        display: Text::new(alloc, "")?,
    };
    events.push(Event::GroupMade { row })?;
    push_grants(events, id, grants)
}

/// Groups of created names are made, numbered one after another from the next number on.
fn push_groups(
    facts: &Facts,
    alloc: Global,
    events: &mut Vec<Event>,
    created: &[Name],
    grants: &[GrantRow],
) -> Result<(), AllocError>
    requires { facts.now.made.groups + length created.now ≤ max_groups }
    ensures { OnOk result (events.new.items
        ≡ events.old.items ++ numbered_groups (facts.now.made.groups
        + 1) created.now facts.now grants.now) }
{
    let mut last = facts.made().groups;
    for name in created {
        last += 1;
        push_group(facts, alloc, events, GroupId::new(last), name, grants)?;
    }
    Ok(())
}

/// The group of a row.
fn group_of(row: &PersonRow) -> GroupId
    requires { row.now.group < 2 ^ 32 }
    ensures { result ≡ row.now.group }
{
    GroupId::new(row.group as u32)
}

/// Rows go.
fn push_going(events: &mut Vec<Event>, rows: &[PersonRow]) -> Result<(), AllocError>
    requires { AllByRecursion (λ (row : PersonRow). row.group < 2 ^ 32) rows.now }
    ensures { OnOk result (events.new.items ≡ events.old.items ++ map row_goes rows.now) }
{
    events.reserve(rows.len())?;
    for row in rows {
        events.push(Event::RowRemoved {
            group: group_of(row),
            member: Member::Person(row.person),
        })?;
    }
    Ok(())
}

/// Rows come at a moment.
fn push_coming(events: &mut Vec<Event>, at: Moment, rows: &[PersonRow]) -> Result<(), AllocError>
    requires { AllByRecursion (λ (row : PersonRow). row.group < 2 ^ 32) rows.now }
    ensures { OnOk result (events.new.items ≡ events.old.items ++ map (row_comes at) rows.now) }
{
    events.reserve(rows.len())?;
    for row in rows {
        let row = MemberRow {
            group: group_of(row),
            member: Member::Person(row.person),
            from: at,
            until: None,
        };
        events.push(Event::RowAdded { row })?;
    }
    Ok(())
}

/// What a load of a job makes happen that acts at a moment, by a caller, where neither `check_load`
/// nor `check_room` finds a fault: the created groups are made with the grants on them, then the
/// removed rows go, then the added rows come, which begin at the moment and have no end. The only
/// error is out of memory.
pub fn load_events(
    facts: &Facts,
    alloc: Global,
    at: Moment,
    by: &Entity,
    job: &JobRow,
    created: &[Name],
    removed: &[LoadRow],
    added: &[LoadRow],
) -> Result<Vec<Event>, AllocError>
    requires { CanLoad by.now job.now created.now removed.now added.now facts.now }
    ensures { IfOk result (λ events. events.items
        ≡ load_events at by.now created.now removed.now added.now facts.now) }
{
    law_names(created);
    facts.law_sound();
    facts.law_held();
    facts.law_rules();
    let grants = first_grants(facts, alloc, by, created)?;
    let going = removed_rows(facts, alloc, job, removed)?;
    let coming = added_rows(facts, alloc, job, created, removed, added)?;
    let mut events = Vec::new(alloc);
    push_groups(facts, alloc, &mut events, created, &grants)?;
    push_going(&mut events, &going)?;
    push_coming(&mut events, at, &coming)?;
    Ok(events)
}
