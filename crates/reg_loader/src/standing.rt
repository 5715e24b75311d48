// The persons in the groups of a job.
ghost use Rattle.std.specs.Prelude.{◌≡◌, ◌++◌, [], ◌==◌, ◌&&◌, not, IfOk, OnOk};
ghost use Rattle.std.specs.List.{cons_option, filter_map};
ghost use Rattle.reg_terms.specs.Rows.{is_composite};
ghost use Rattle.reg_loader.specs.Plan.{person_key, persons_in, standing};
ghost use Rattle.reg_terms.specs.declared.kinds.Object.TheVariants.{Folder};

use crate::keys::Key;
use reg_base::{FolderId, GroupId};
use reg_facts::{Facts, GroupRow, Member, MemberRow, Object};
use std::alloc::{AllocError, Global};

/// The person of a row of a group, if it names one.
fn person_key(group: GroupId, row: &MemberRow) -> Option<Key>
    ensures { result ≡ person_key group row.now }
{
    match row.member {
        Member::Person(id) => Some((u64::from(group.number()), id.number())),
        Member::Group(_) => None,
    }
}

/// Adds the person of a row of a group, if it names one.
fn add_key(found: &mut Vec<Key>, group: GroupId, row: &MemberRow) -> Result<(), AllocError>
    ensures { OnOk result (found.new.items
        ≡ found.old.items ++ cons_option (person_key group row.now) []) }
{
    if let Some(key) = person_key(group, row) {
        found.push(key)?;
    }
    Ok(())
}

/// Adds the persons of rows of a group.
fn add_keys(found: &mut Vec<Key>, group: GroupId, rows: &[MemberRow]) -> Result<(), AllocError>
    ensures { OnOk result (found.new.items
        ≡ found.old.items ++ filter_map (person_key group) rows.now) }
{
    for row in rows {
        add_key(found, group, row)?;
    }
    Ok(())
}

/// Adds the persons with an immediate membership of a group, by id.
fn add_persons(
    alloc: Global,
    facts: &Facts,
    group: GroupId,
    found: &mut Vec<Key>,
) -> Result<(), AllocError>
    ensures { OnOk result (found.new.items ≡ found.old.items ++ persons_in facts.now group) }
{
    let rows = facts.rows_of(alloc, group)?;
    add_keys(found, group, &rows)
}

/// Whether a list job of a folder has a group.
fn is_listed(facts: &Facts, folder: FolderId, row: &GroupRow) -> bool
    ensures { result ≡ ((row.now.folder == folder)
        && not (is_composite row.now.id facts.now.composites)) }
{
    row.folder.number() == folder.number() && !facts.is_composite(row.id)
}

/// The persons in all groups directly in a folder that aren't composite.
fn in_folder(alloc: Global, facts: &Facts, folder: FolderId) -> Result<Vec<Key>, AllocError>
    ensures { IfOk result (λ found. found.items ≡ standing (Folder folder) facts.now) }
{
    let mut found = Vec::new(alloc);
    for row in facts.groups() {
        if is_listed(facts, folder, row) {
            add_persons(alloc, facts, row.id, &mut found)?;
        }
    }
    Ok(found)
}

/// The persons with an immediate membership of a group of a job with this target, by the group's id
/// and then the person's. One walk over the groups, and what those of the job have.
pub(crate) fn standing(
    alloc: Global,
    facts: &Facts,
    target: &Object,
) -> Result<Vec<Key>, AllocError>
    ensures { IfOk result (λ found. found.items ≡ standing target.now facts.now) }
{
    let mut found = Vec::new(alloc);
    match target {
        Object::Group(id) => {
            add_persons(alloc, facts, *id, &mut found)?;
            Ok(found)
        }
        Object::Folder(id) => in_folder(alloc, facts, *id),
        Object::Def(_) | Object::Attr(_) | Object::Subject(_) => Ok(found),
    }
}
