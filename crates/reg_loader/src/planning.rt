// What a load of a table would do.
ghost use Rattle.std.specs.Prelude.{◌≡◌, map, true, IfOk, string_bytes};
ghost use Rattle.std.specs.List.{AllByRecursion};
ghost use Rattle.reg_base.specs.Names.{is_name};
ghost use Rattle.reg_loader.specs.Plan.{is_composite_target, planned, is_too_many, GroupStands};
ghost use Rattle.reg_loader.specs.Plan.{PlanAnswers};
ghost use Rattle.reg_loader.specs.Walks.{plan_told, AreTold};

use crate::fates::{Fates, fates_of};
use crate::keys::{Key, without};
use crate::naming::{all_shown, names_of};
use crate::standing::standing;
use crate::walking::{Walked, walk};
use crate::{Plan, PlanFault, Table};
use reg_effect::Kept;
use reg_facts::{Facts, JobRow, Object};
use std::alloc::{AllocError, Global};

/// Whether a job's own group is a composite.
fn is_composite_target(facts: &Facts, target: &Object) -> bool
    ensures { result ≡ is_composite_target target.now facts.now }
{
    match target {
        Object::Group(id) => facts.is_composite(*id),
        Object::Folder(_) | Object::Def(_) | Object::Attr(_) | Object::Subject(_) => false,
    }
}

/// Whether so many persons are in the job's groups, and more of them go than the job lets.
fn is_too_many(job: &JobRow, before: u64, removes: u64) -> bool
    ensures { result ≡ is_too_many job.now before removes }
{
    let most = u128::from(job.max_percent) * u128::from(before);
    job.min_size <= before && u128::from(removes) * 100 > most
}

/// Tells a plan by names and texts.
fn told(
    alloc: Global,
    facts: &Facts,
    walked: &Walked,
    gone: &[Key],
    fates: &Fates,
) -> Result<Plan, AllocError>
    requires names { AllByRecursion (λ text. is_name (string_bytes text)
        ≡ true) walked.now.names.keys }
    requires gone { AreTold (map (λ t. string_bytes t) walked.now.names.keys) facts.now gone.now }
    requires added { AreTold
        (map (λ t. string_bytes t) walked.now.names.keys) facts.now fates.now.added.items }
    ensures { IfOk result (λ plan. plan
        ≡ plan_told (map (λ t. string_bytes t) walked.now.names.keys) facts.now gone.now walked.now
        fates.now) }
{
    let created = names_of(alloc, &walked.names)?;
    let removed = all_shown(alloc, facts, &created, gone)?;
    let added = all_shown(alloc, facts, &created, &fates.added)?;
    Ok(Plan {
        created,
        removed,
        added,
        unchanged: fates.unchanged,
        unknown: walked.unknown,
        repeated: walked.repeated,
        vetoed: fates.vetoed,
        bad_group: walked.bad_group,
    })
}

/// The plan, or why there is none.
fn plan_in<K: Kept>(
    alloc: Global,
    facts: &Facts,
    kept: &K,
    job: &JobRow,
    table: &Table,
) -> Result<Result<Plan, PlanFault>, AllocError>
    requires { GroupStands job.now.target facts.now }
    ensures { IfOk result (λ answer. answer
        ≡ planned (K.held kept.now) job.now table.now facts.now) }
{
    facts.law_sound();
    facts.law_names();
    if is_composite_target(facts, &job.target) {
        return Ok(Err(PlanFault::IsComposite));
    }
    let walked = walk(alloc, facts, job, table.list())?;
    let there = standing(alloc, facts, &job.target)?;
    let gone = without(alloc, &there, &walked.wanted)?;
    let before = there.len() as u64;
    let removes = gone.len() as u64;
    if is_too_many(job, before, removes) {
        return Ok(Err(PlanFault::Failsafe { before, removes }));
    }
    let fates = fates_of(alloc, facts, kept, walked.wanted.as_slice(), &there)?;
    let plan = told(alloc, facts, &walked, &gone, &fates)?;
    Ok(Ok(plan))
}

/// What a load of this table by this job would do to the persons in the job's groups. `IsComposite`
/// exactly where the job is of one group and that is a composite; else `Failsafe` exactly where the
/// persons in the job's groups are `min_size` or more, and those that would be removed are more
/// than `max_percent` of them. Want of memory may come instead of any answer. It takes a look into
/// the names and the persons for each record, one walk over the groups, and what the job's groups
/// have.
pub fn plan<K: Kept>(
    alloc: Global,
    facts: &Facts,
    kept: &K,
    job: &JobRow,
    table: &Table,
) -> Result<Plan, PlanFault>
    requires { GroupStands job.now.target facts.now }
    ensures { PlanAnswers (planned (K.held kept.now) job.now table.now facts.now) result }
{
    match plan_in(alloc, facts, kept, job, table) {
        Ok(answer) => answer,
        Err(_) => Err(PlanFault::NoMemory),
    }
}
