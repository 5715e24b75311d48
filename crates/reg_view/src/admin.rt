// What root alone is told: consumers, groups that are gone, loader jobs and rules.
ghost use Rattle.std.specs.Prelude.{◌≡◌, IfOk, map};
ghost use Rattle.reg_facts.specs.Naming.{name_of};
ghost use Rattle.reg_terms.specs.declared.admin_shown.FormShown.TheVariants as form;
ghost use Rattle.reg_terms.specs.declared.kinds.Object.TheVariants as object;
ghost use Rattle.reg_view.specs.Answers.{admin_of, admin_told};
ghost use Rattle.reg_view.specs.Past.{past_at};
ghost use Rattle.reg_view.specs.Texts.{consumer_shown, form_shown, gone_shown, holder_text};
ghost use Rattle.reg_view.specs.Texts.{job_shown, rule_shown};

use crate::Answer;
use crate::administering::root_denied;
use crate::texts::{holder_text, object_name};
use reg_base::{FolderId, GroupId, Moment, Privilege, Text};
use reg_effect::Kept;
use reg_facts::{Facts, Holder, Object};
use reg_machine::Machine;
use reg_priv::{Who, is_root};
use reg_terms::{
    ConsumerRow, ConsumerShown, ConsumersShown, FormShown, GoneShown, GonesShown, JobRow, JobShown,
    JobsShown, Refusal, RuleForm, RuleRow, RuleShown, RulesShown, Scope,
};
use std::alloc::{AllocError, Global};

/// Consumers of the change log.
fn consumers_shown(alloc: Global, rows: &[ConsumerRow]) -> Result<ConsumersShown, AllocError>
    ensures { IfOk result (λ shown. shown ≡ map consumer_shown rows.now) }
{
    let mut shown = ConsumersShown::new(alloc);
    for row in rows {
        let consumer = row.name.copy(alloc)?;
        shown.push(ConsumerShown {
            consumer,
            place: row.place,
        })?;
    }
    Ok(shown)
}

/// Groups that are gone, by the names that they had last.
fn groups_shown<K: Kept>(
    alloc: Global,
    machine: &Machine<K>,
    rows: &[(GroupId, Moment)],
) -> Result<GonesShown, AllocError>
    ensures { IfOk result (λ shown. shown ≡ map (gone_shown (past_at machine.now)) rows.now) }
{
    let mut shown = GonesShown::new(alloc);
    for row in rows {
        let group = machine.last_name(alloc, Object::Group(row.0))?;
        shown.push(GoneShown {
            ended: row.1,
            group,
        })?;
    }
    Ok(shown)
}

/// The groups that are gone. They cost what they are.
fn gone_shown<K: Kept>(alloc: Global, machine: &Machine<K>) -> Result<GonesShown, AllocError>
    ensures { IfOk result (λ shown. shown
        ≡ map (gone_shown (past_at machine.now)) (past_at machine.now).gone_by_id) }
{
    let rows = machine.gone_by_id(alloc)?;
    groups_shown(alloc, machine, &rows)
}

/// A loader job, by the present name of its group or folder.
fn job_shown(alloc: Global, facts: &Facts, row: &JobRow) -> Result<JobShown, AllocError>
    ensures { IfOk result (λ shown. shown ≡ job_shown facts.now row.now) }
{
    let job = row.name.copy(alloc)?;
    let source = row.source.copy(alloc)?;
    let target = object_name(alloc, facts, &row.target)?;
    Ok(JobShown {
        job,
        max_percent: row.max_percent,
        min_size: row.min_size,
        source,
        target,
    })
}

/// Loader jobs.
fn jobs_shown(alloc: Global, facts: &Facts, rows: &[JobRow]) -> Result<JobsShown, AllocError>
    ensures { IfOk result (λ shown. shown ≡ map (job_shown facts.now) rows.now) }
{
    let mut shown = JobsShown::new(alloc);
    for row in rows {
        let job = job_shown(alloc, facts, row)?;
        shown.push(job)?;
    }
    Ok(shown)
}

/// The present name of a group.
fn group_name(alloc: Global, facts: &Facts, id: GroupId) -> Result<Text, AllocError>
    ensures { IfOk result (λ name. name ≡ name_of (object.Group id) facts.now) }
{
    object_name(alloc, facts, &Object::Group(id))
}

fn remove_lost_shown(
    alloc: Global,
    facts: &Facts,
    check: GroupId,
    owner: GroupId,
) -> Result<FormShown, AllocError>
    ensures { IfOk result (λ shown. shown
        ≡ form.RemoveLost (name_of (object.Group check) facts.now)
        (name_of (object.Group owner) facts.now)) }
{
    let check = group_name(alloc, facts, check)?;
    let owner = group_name(alloc, facts, owner)?;
    Ok(FormShown::RemoveLost { check, owner })
}

fn end_lost_shown(
    alloc: Global,
    facts: &Facts,
    check: GroupId,
    owner: GroupId,
    days: u32,
) -> Result<FormShown, AllocError>
    ensures { IfOk result (λ shown. shown
        ≡ form.EndLost (name_of (object.Group check) facts.now)
        (name_of (object.Group owner) facts.now) days) }
{
    let check = group_name(alloc, facts, check)?;
    let owner = group_name(alloc, facts, owner)?;
    Ok(FormShown::EndLost { check, owner, days })
}

fn veto_shown(
    alloc: Global,
    facts: &Facts,
    owner: GroupId,
    condition: GroupId,
) -> Result<FormShown, AllocError>
    ensures { IfOk result (λ shown. shown
        ≡ form.Veto (name_of (object.Group owner) facts.now)
        (name_of (object.Group condition) facts.now)) }
{
    let owner = group_name(alloc, facts, owner)?;
    let condition = group_name(alloc, facts, condition)?;
    Ok(FormShown::Veto { owner, condition })
}

fn on_create_shown<K: Kept>(
    alloc: Global,
    machine: &Machine<K>,
    facts: &Facts,
    folder: FolderId,
    scope: Scope,
    privilege: Privilege,
    holder: &Holder,
) -> Result<FormShown, AllocError>
    ensures { IfOk result (λ shown. shown
        ≡ form.OnCreate (name_of (object.Folder folder) facts.now) scope privilege
        (holder_text (past_at machine.now) facts.now holder.now)) }
{
    let folder = object_name(alloc, facts, &Object::Folder(folder))?;
    let holder = holder_text(alloc, machine, facts, holder)?;
    Ok(FormShown::OnCreate {
        folder,
        scope,
        privilege,
        holder,
    })
}

/// What a rule does, by present names.
fn form_shown<K: Kept>(
    alloc: Global,
    machine: &Machine<K>,
    facts: &Facts,
    form: &RuleForm,
) -> Result<FormShown, AllocError>
    ensures { IfOk result (λ shown. shown ≡ form_shown (past_at machine.now) facts.now form.now) }
{
    match form {
        RuleForm::RemoveLost { check, owner } => remove_lost_shown(alloc, facts, *check, *owner),
        RuleForm::EndLost { check, owner, days } => {
            end_lost_shown(alloc, facts, *check, *owner, *days)
        }
        RuleForm::Veto { owner, condition } => veto_shown(alloc, facts, *owner, *condition),
        RuleForm::OnCreate {
            folder,
            scope,
            privilege,
            holder,
        } => on_create_shown(alloc, machine, facts, *folder, *scope, *privilege, holder),
    }
}

/// Rules.
fn rules_shown<K: Kept>(
    alloc: Global,
    machine: &Machine<K>,
    facts: &Facts,
    rows: &[RuleRow],
) -> Result<RulesShown, AllocError>
    ensures { IfOk result (λ shown. shown
        ≡ map (rule_shown (past_at machine.now) facts.now) rows.now) }
{
    let mut shown = RulesShown::new(alloc);
    for row in rows {
        let form = form_shown(alloc, machine, facts, &row.form)?;
        shown.push(RuleShown { id: row.id, form })?;
    }
    Ok(shown)
}

/// The consumers, the groups that are gone, the loader jobs and the rules. They cost what they are.
fn admin_told<K: Kept>(
    alloc: Global,
    machine: &Machine<K>,
    facts: &Facts,
) -> Result<Answer, AllocError>
    ensures { IfOk result (λ answer. answer ≡ admin_told (past_at machine.now) facts.now) }
{
    let consumers = consumers_shown(alloc, facts.consumers())?;
    let gone = gone_shown(alloc, machine)?;
    let jobs = jobs_shown(alloc, facts, facts.jobs())?;
    let rules = rules_shown(alloc, machine, facts, facts.rules())?;
    Ok(Answer::Admin {
        consumers,
        gone,
        jobs,
        rules,
    })
}

/// The same, if the caller is root.
pub fn admin_of<K: Kept>(
    alloc: Global,
    machine: &Machine<K>,
    facts: &Facts,
    kept: &K,
    who: &Who,
) -> Result<Result<Answer, Refusal>, AllocError>
    ensures { IfOk result (λ r. r
        ≡ admin_of (past_at machine.now) (K.held kept.now) facts.now who.now) }
{
    if !is_root(facts, kept, who) {
        return Ok(Err(root_denied(alloc)?));
    }
    let answer = admin_told(alloc, machine, facts)?;
    Ok(Ok(answer))
}
