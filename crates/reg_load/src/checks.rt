// Which loads suit the facts.
ghost use Rattle.std.specs.Prelude.{◌≡◌, ◌||◌, ◌+◌, ◌*◌, ◌≤◌, [], None, IfOk, is_some, length};
ghost use Rattle.std.specs.Prelude.{nat_lt};
ghost use Rattle.std.specs.List.{list_all};
ghost use Rattle.reg_facts.specs.Naming.{home_id};
ghost use Rattle.reg_terms.specs.Limits.{max_grants, max_groups};
ghost use Rattle.reg_load.specs.Finding.{first_grants};
ghost use Rattle.reg_load.specs.LoadChecks.{already, first_fault, first_missing, first_taken};
ghost use Rattle.reg_load.specs.LoadChecks.{is_composite_target, is_elsewhere, is_home};
ghost use Rattle.reg_load.specs.LoadChecks.{load_checks, no_number, no_such, removed_rows};
ghost use Rattle.reg_load.specs.LoadChecks.{room_checks};

use crate::LoadFault;
use crate::created::{CreatedNames, law_names};
use crate::finding::find_rows;
use crate::row_set::comes_twice;
use crate::standing::{all_stand, any_stands};
use reg_base::{Entity, Name, Text};
use reg_edit::new_groups_grants;
use reg_facts::{Facts, GrantRow, JobRow, Object};
use reg_terms::{LoadRow, MAX_GRANTS, MAX_GROUPS, MAX_RECORDS, MAX_ROWS, PersonRow};
use std::alloc::{AllocError, Global};

/// Whether a name is that of an object directly in the folder of a job. It takes no memory.
fn is_home(facts: &Facts, job: &JobRow, name: &Name) -> bool
    ensures { result ≡ is_home job.now.target (home_id name.now facts.now) }
{
    match facts.home(name).0 {
        Some(folder) => job.target.is(&Object::Folder(folder)),
        None => false,
    }
}

/// Whether a created name isn't that of a group directly in the folder of a job.
fn is_elsewhere(facts: &Facts, job: &JobRow, created: &[Name]) -> bool
    ensures { result ≡ is_elsewhere job.now facts.now created.now }
{
    for name in created {
        if !is_home(facts, job, name) {
            return true;
        }
    }
    false
}

/// The first of some names that stands, or that is one of those before.
fn first_taken(facts: &Facts, alloc: Global, created: &[Name]) -> Result<Option<Text>, AllocError>
    ensures { IfOk result (λ found. found ≡ first_taken [] facts.now created.now) }
{
    let mut seen = CreatedNames::new(alloc);
    for name in created {
        if facts.resolve(name.as_str()).is_some() || seen.number(name.as_str()).is_some() {
            let object = Text::new(alloc, name.as_str())?;
            return Ok(Some(object));
        }
        seen.insert(name.as_str(), 0)?;
    }
    Ok(None)
}

/// Whether one of these rows stands or comes twice.
fn already(facts: &Facts, alloc: Global, rows: &[PersonRow]) -> Result<bool, AllocError>
    ensures { IfOk result (λ found. found ≡ already facts.now.rows rows.now) }
{
    if any_stands(facts, rows) {
        return Ok(true);
    }
    comes_twice(alloc, rows)
}

/// Whether one of these rows doesn't stand, or comes twice.
fn no_such(facts: &Facts, alloc: Global, rows: &[PersonRow]) -> Result<bool, AllocError>
    ensures { IfOk result (λ found. found ≡ no_such facts.now.rows rows.now) }
{
    if !all_stand(facts, rows) {
        return Ok(true);
    }
    comes_twice(alloc, rows)
}

/// Whether a removed row is no row of a person in one of the job's groups, or comes twice.
fn is_no_removal(
    facts: &Facts,
    alloc: Global,
    job: &JobRow,
    removed: &[LoadRow],
) -> Result<bool, AllocError>
    ensures { IfOk result (λ found. found
        ≡ (is_some (first_missing job.now no_number facts.now removed.now)
        || no_such facts.now.rows (removed_rows job.now facts.now removed.now))) }
{
    let none = CreatedNames::new(alloc);
    match find_rows(facts, alloc, job, &none, removed)? {
        Ok(rows) => no_such(facts, alloc, &rows),
        Err(_) => Ok(true),
    }
}

/// Whether the one group of a job is a composite. It takes no memory.
fn is_composite_target(facts: &Facts, job: &JobRow) -> bool
    ensures { result ≡ is_composite_target job.now.target facts.now }
{
    match &job.target {
        Object::Group(group) => facts.is_composite(*group),
        Object::Folder(_) | Object::Def(_) | Object::Attr(_) | Object::Subject(_) => false,
    }
}

/// The first fault of a load of a job, judged on the facts before it: NotFound where a row that is
/// added names no group of the job's, none that is created, or no person that stands; WrongKind,
/// Taken, Already, NoSuch and IsComposite as `LoadFault` says. None exactly where there is no such
/// fault. Whether there is room for the load is `check_room`'s. The only error is out of memory.
/// Each row costs a few searches, and no walk over rows is made.
#[tactic(auto, unfolding(crate::specs::LoadChecks::load_checks))]
pub fn check_load(
    facts: &Facts,
    alloc: Global,
    job: &JobRow,
    created: &[Name],
    removed: &[LoadRow],
    added: &[LoadRow],
) -> Result<Option<LoadFault>, AllocError>
    ensures { IfOk result (λ fault. fault
        ≡ first_fault (load_checks job.now created.now removed.now added.now facts.now)) }
{
    let numbers = CreatedNames::of(alloc, u64::from(facts.made().groups) + 1, created)?;
    let rows = match find_rows(facts, alloc, job, &numbers, added)? {
        Ok(rows) => rows,
        Err(object) => return Ok(Some(LoadFault::NotFound { object })),
    };
    if is_elsewhere(facts, job, created) {
        return Ok(Some(LoadFault::WrongKind));
    }
    if let Some(object) = first_taken(facts, alloc, created)? {
        return Ok(Some(LoadFault::Taken { object }));
    }
    if already(facts, alloc, &rows)? {
        return Ok(Some(LoadFault::Already));
    }
    if is_no_removal(facts, alloc, job, removed)? {
        return Ok(Some(LoadFault::NoSuch));
    }
    if is_composite_target(facts, job) {
        return Ok(Some(LoadFault::IsComposite));
    }
    Ok(None)
}

/// The grants on the first of some groups that are made, as if it alone were made.
pub(crate) fn first_grants(
    facts: &Facts,
    alloc: Global,
    by: &Entity,
    created: &[Name],
) -> Result<Vec<GrantRow>, AllocError>
    requires { facts.now.made.groups + length created.now ≤ max_groups }
    ensures { IfOk result (λ rows. rows.items ≡ first_grants by.now created.now facts.now) }
{
    match created.first() {
        Some(name) => new_groups_grants(facts, alloc, by, name),
        None => Ok(Vec::new(alloc)),
    }
}

/// Whether more grants would stand than may, once groups of created names are made with the grants
/// on the first on each.
fn is_grant_full(
    facts: &Facts,
    alloc: Global,
    by: &Entity,
    created: &[Name],
) -> Result<bool, AllocError>
    requires { facts.now.made.groups + length created.now ≤ max_groups }
    ensures { IfOk result (λ full. full
        ≡ nat_lt max_grants (length facts.now.grants + length created.now
        * length (first_grants by.now created.now facts.now))) }
{
    let each = first_grants(facts, alloc, by, created)?;
    let more = created.len().saturating_mul(each.len());
    Ok(facts.grant_count().saturating_add(more) > MAX_GRANTS)
}

/// The first want of room for a load of a job in which `check_load` finds no fault: FullGroup,
/// FullRow, FullGrant and FullRecord as `LoadFault` says. None exactly where there is room. The
/// only error is out of memory.
#[tactic(auto, unfolding(crate::specs::LoadChecks::room_checks))]
pub fn check_room(
    facts: &Facts,
    alloc: Global,
    by: &Entity,
    job: &JobRow,
    created: &[Name],
    removed: &[LoadRow],
    added: &[LoadRow],
) -> Result<Option<LoadFault>, AllocError>
    requires { first_fault (load_checks job.now created.now removed.now added.now facts.now)
        ≡ None }
    ensures { IfOk result (λ fault. fault
        ≡ first_fault (room_checks by.now created.now removed.now added.now facts.now)) }
{
    let _job = job;
    facts.law_sound();
    law_names(created);
    let made = facts.made().groups as usize;
    if made.saturating_add(created.len()) > MAX_GROUPS as usize {
        return Ok(Some(LoadFault::FullGroup));
    }
    if facts.row_count().saturating_add(added.len()) > MAX_ROWS.saturating_add(removed.len()) {
        return Ok(Some(LoadFault::FullRow));
    }
    let full = is_grant_full(facts, alloc, by, created)?;
    if full {
        return Ok(Some(LoadFault::FullGrant));
    }
    if added.len() > MAX_RECORDS as usize {
        return Ok(Some(LoadFault::FullRecord));
    }
    Ok(None)
}
