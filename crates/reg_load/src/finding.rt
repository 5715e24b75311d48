// What the rows of a load name.
ghost use Rattle.std.specs.Prelude.{◌≡◌, None, Some, Err, IfOk, MatchResult, map};
ghost use Rattle.reg_facts.specs.Rows.{group_row};
ghost use Rattle.reg_load.specs.Finding.{number_of};
ghost use Rattle.reg_load.specs.LoadChecks.{added_rows, first_fault, first_missing, is_of_target};
ghost use Rattle.reg_load.specs.LoadChecks.{load_checks, load_group, load_row, no_number};
ghost use Rattle.reg_load.specs.LoadChecks.{of_target, removed_rows, stands_in};

use crate::created::CreatedNames;
use reg_base::{FolderId, GroupId, Name, Text};
use reg_facts::{Facts, JobRow, Object};
use reg_terms::{LoadRow, PersonRow};
use std::alloc::{AllocError, Global};

/// Whether a group is there and stands directly in a folder.
fn stands_in(facts: &Facts, folder: FolderId, group: GroupId) -> bool
    ensures { result ≡ stands_in folder (group_row group facts.now.groups) }
{
    match facts.group(group) {
        Some(row) => row.folder.number() == folder.number(),
        None => false,
    }
}

/// Whether a group is one of a target's.
fn is_of_target(facts: &Facts, target: &Object, group: GroupId) -> bool
    ensures { result ≡ is_of_target target.now group facts.now }
{
    match target {
        Object::Folder(folder) => { stands_in(facts, *folder, group) && !facts.is_composite(group) }
        Object::Group(only) => group.number() == only.number(),
        Object::Def(_) | Object::Attr(_) | Object::Subject(_) => false,
    }
}

/// A group, if it is there and is one of a target's.
fn of_target(facts: &Facts, target: &Object, found: Option<GroupId>) -> Option<GroupId>
    ensures { result ≡ of_target target.now facts.now found }
{
    match found {
        Some(group) => {
            if is_of_target(facts, target, group) {
                Some(group)
            } else {
                None
            }
        }
        None => None,
    }
}

/// The number of the group of a name, if it is one of the job's or a created one.
fn load_group(facts: &Facts, job: &JobRow, created: &CreatedNames, name: &Name) -> Option<u64>
    ensures { result ≡ load_group job.now (number_of created.now) facts.now name.now }
{
    match of_target(facts, &job.target, facts.group_id(name.as_str())) {
        Some(group) => Some(u64::from(group.number())),
        None => created.number(name.as_str()),
    }
}

/// The number of the group of a name, where that of the row before is known. A table mostly comes
/// group by group, so it is mostly the same.
fn next_group(
    facts: &Facts,
    job: &JobRow,
    created: &CreatedNames,
    before: &Name,
    number: Option<u64>,
    name: &Name,
) -> Option<u64>
    requires { number ≡ load_group job.now (number_of created.now) facts.now before.now }
    ensures { result ≡ load_group job.now (number_of created.now) facts.now name.now }
{
    if before.as_str() == name.as_str() {
        number
    } else {
        load_group(facts, job, created, name)
    }
}

/// A text that isn't found.
fn missing(alloc: Global, text: &str) -> Result<Result<Vec<PersonRow>, Text>, AllocError>
    ensures { IfOk result (λ found. found ≡ Err text.now) }
{
    let object = Text::new(alloc, text)?;
    Ok(Err(object))
}

/// Rows of a load by numbers, or else the first text in them that isn't found. Each row costs a
/// search for its person, and a walk along its group's name where the row before has another one.
pub(crate) fn find_rows(
    facts: &Facts,
    alloc: Global,
    job: &JobRow,
    created: &CreatedNames,
    rows: &[LoadRow],
) -> Result<Result<Vec<PersonRow>, Text>, AllocError>
    ensures { IfOk result (λ found. MatchResult found
        (λ all. (first_missing job.now (number_of created.now) facts.now rows.now ≡ None)
        × (all.items ≡ map (load_row job.now (number_of created.now) facts.now) rows.now))
        (λ text. first_missing job.now (number_of created.now) facts.now rows.now ≡ Some text)) }
{
    let Some(first) = rows.first() else {
        return Ok(Ok(Vec::new(alloc)));
    };
    let mut found = Vec::with_capacity(alloc, rows.len())?;
    let mut name = &first.group;
    let mut number = load_group(facts, job, created, name);
    for row in rows {
        number = next_group(facts, job, created, name, number, &row.group);
        name = &row.group;
        let Some(group) = number else {
            return missing(alloc, row.group.as_str());
        };
        let Some(person) = facts.subject_id(row.person.as_str()) else {
            return missing(alloc, row.person.as_str());
        };
        found.push(PersonRow { group, person })?;
    }
    Ok(Ok(found))
}

/// Rows of a load by numbers, where all that they name is found.
fn the_rows(
    facts: &Facts,
    alloc: Global,
    job: &JobRow,
    created: &CreatedNames,
    rows: &[LoadRow],
) -> Result<Vec<PersonRow>, AllocError>
    requires { first_missing job.now (number_of created.now) facts.now rows.now ≡ None }
    ensures { IfOk result (λ found. found.items
        ≡ map (load_row job.now (number_of created.now) facts.now) rows.now) }
{
    match find_rows(facts, alloc, job, created, rows)? {
        Ok(found) => Ok(found),
        Err(_) => unreachable!(),
    }
}

/// The rows by numbers that a load adds in which `check_load` finds no fault; a group that it
/// creates has the number that it will get. The only error is out of memory.
pub fn added_rows(
    facts: &Facts,
    alloc: Global,
    job: &JobRow,
    created: &[Name],
    removed: &[LoadRow],
    added: &[LoadRow],
) -> Result<Vec<PersonRow>, AllocError>
    requires { first_fault (load_checks job.now created.now removed.now added.now facts.now)
        ≡ None }
    ensures { IfOk result (λ rows. rows.items
        ≡ added_rows job.now created.now facts.now added.now) }
{
    let _removed = removed;
    let numbers = CreatedNames::of(alloc, u64::from(facts.made().groups) + 1, created)?;
    the_rows(facts, alloc, job, &numbers, added)
}

/// The rows by numbers that such a load removes.
pub(crate) fn removed_rows(
    facts: &Facts,
    alloc: Global,
    job: &JobRow,
    removed: &[LoadRow],
) -> Result<Vec<PersonRow>, AllocError>
    requires { first_missing job.now no_number facts.now removed.now ≡ None }
    ensures { IfOk result (λ rows. rows.items ≡ removed_rows job.now facts.now removed.now) }
{
    let none = CreatedNames::new(alloc);
    the_rows(facts, alloc, job, &none, removed)
}
