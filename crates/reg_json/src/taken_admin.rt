// Consumers, groups that are gone, loader jobs and rules, taken from JSON data.
ghost use Rattle.std.specs.Prelude.{◌≡◌};
ghost use Rattle.serde_json.specs.View.{view, items_view};
ghost use Rattle.reg_json.specs.Takes.{Takes};
ghost use Rattle.reg_json.specs.Taking.{all_of, consumer_from, consumers_in, gone_from, gone_in};
ghost use Rattle.reg_json.specs.Taking.{job_from, jobs_in, scope_in, remove_lost_from};
ghost use Rattle.reg_json.specs.Taking.{end_lost_from, veto_from, on_create_from, form_from};
ghost use Rattle.reg_json.specs.Taking.{rule_from, rules_in};

use crate::fields::scope;
use crate::taken_shown::privilege_in;
use crate::taking::{TakeFault, items_in, moment_in, number_in, small_number_in, str_in, text_in};
use reg_base::RuleId;
use reg_terms::{
    ConsumerShown, ConsumersShown, FormShown, GoneShown, GonesShown, JobShown, JobsShown,
    RuleShown, RulesShown, Scope,
};
use serde_json::Value;
use std::alloc::Global;

#[tactic(auto, unfolding(crate::specs::Taking::consumer_from))]
fn consumer_from(alloc: Global, value: &Value) -> Result<ConsumerShown, TakeFault>
    ensures { Takes (λ c. c) result (consumer_from (view value.now)) }
{
    let place = number_in(value, "place")?;
    let consumer = text_in(alloc, value, "consumer")?;
    Ok(ConsumerShown { consumer, place })
}

#[tactic(auto, using(crate::proofs::Takings::taken_lemmas))]
fn consumers_of(alloc: Global, items: &[Value]) -> Result<ConsumersShown, TakeFault>
    ensures { Takes (λ xs. xs) result (all_of consumer_from (items_view items.now)) }
{
    let mut consumers = ConsumersShown::new(alloc);
    for item in items {
        let consumer = consumer_from(alloc, item)?;
        consumers.push(consumer)?;
    }
    Ok(consumers)
}

/// The consumers. The only error besides unlike data is out of memory, here and in what follows.
#[tactic(auto, unfolding(crate::specs::Taking::consumers_in))]
pub fn consumers_in(alloc: Global, value: &Value) -> Result<ConsumersShown, TakeFault>
    ensures { Takes (λ xs. xs) result (consumers_in (view value.now)) }
{
    let items = items_in(value, "consumers")?;
    consumers_of(alloc, items)
}

#[tactic(auto, unfolding(crate::specs::Taking::gone_from))]
fn gone_from(alloc: Global, value: &Value) -> Result<GoneShown, TakeFault>
    ensures { Takes (λ g. g) result (gone_from (view value.now)) }
{
    let ended = moment_in(value, "ended")?;
    let group = text_in(alloc, value, "group")?;
    Ok(GoneShown { ended, group })
}

#[tactic(auto, using(crate::proofs::Takings::taken_lemmas))]
fn gones_of(alloc: Global, items: &[Value]) -> Result<GonesShown, TakeFault>
    ensures { Takes (λ xs. xs) result (all_of gone_from (items_view items.now)) }
{
    let mut groups = GonesShown::new(alloc);
    for item in items {
        let group = gone_from(alloc, item)?;
        groups.push(group)?;
    }
    Ok(groups)
}

/// The groups that are gone.
#[tactic(auto, unfolding(crate::specs::Taking::gone_in))]
pub fn gone_in(alloc: Global, value: &Value) -> Result<GonesShown, TakeFault>
    ensures { Takes (λ xs. xs) result (gone_in (view value.now)) }
{
    let items = items_in(value, "gone")?;
    gones_of(alloc, items)
}

#[tactic(auto, unfolding(crate::specs::Taking::job_from))]
fn job_from(alloc: Global, value: &Value) -> Result<JobShown, TakeFault>
    ensures { Takes (λ j. j) result (job_from (view value.now)) }
{
    let max_percent = number_in(value, "max_percent")?;
    let min_size = number_in(value, "min_size")?;
    let job = text_in(alloc, value, "job")?;
    let source = text_in(alloc, value, "source")?;
    let target = text_in(alloc, value, "target")?;
    Ok(JobShown {
        job,
        max_percent,
        min_size,
        source,
        target,
    })
}

#[tactic(auto, using(crate::proofs::Takings::taken_lemmas))]
fn jobs_of(alloc: Global, items: &[Value]) -> Result<JobsShown, TakeFault>
    ensures { Takes (λ xs. xs) result (all_of job_from (items_view items.now)) }
{
    let mut jobs = JobsShown::new(alloc);
    for item in items {
        let job = job_from(alloc, item)?;
        jobs.push(job)?;
    }
    Ok(jobs)
}

/// The loader jobs.
#[tactic(auto, unfolding(crate::specs::Taking::jobs_in))]
pub fn jobs_in(alloc: Global, value: &Value) -> Result<JobsShown, TakeFault>
    ensures { Takes (λ xs. xs) result (jobs_in (view value.now)) }
{
    let items = items_in(value, "jobs")?;
    jobs_of(alloc, items)
}

#[tactic(auto, unfolding(crate::specs::Taking::scope_in))]
fn scope_in(value: &Value, key: &str) -> Result<Scope, TakeFault>
    ensures { Takes (λ s. s) result (scope_in key.now (view value.now)) }
{
    let word = str_in(value, key)?;
    match scope(word) {
        Some(scope) => Ok(scope),
        None => Err(TakeFault::Unlike),
    }
}

#[tactic(auto, unfolding(crate::specs::Taking::remove_lost_from))]
fn remove_lost_from(alloc: Global, value: &Value) -> Result<FormShown, TakeFault>
    ensures { Takes (λ f. f) result (remove_lost_from (view value.now)) }
{
    let check = text_in(alloc, value, "check")?;
    let owner = text_in(alloc, value, "owner")?;
    Ok(FormShown::RemoveLost { check, owner })
}

#[tactic(auto, unfolding(crate::specs::Taking::end_lost_from))]
fn end_lost_from(alloc: Global, value: &Value) -> Result<FormShown, TakeFault>
    ensures { Takes (λ f. f) result (end_lost_from (view value.now)) }
{
    let days = small_number_in(value, "days")?;
    let check = text_in(alloc, value, "check")?;
    let owner = text_in(alloc, value, "owner")?;
    Ok(FormShown::EndLost { check, owner, days })
}

#[tactic(auto, unfolding(crate::specs::Taking::veto_from))]
fn veto_from(alloc: Global, value: &Value) -> Result<FormShown, TakeFault>
    ensures { Takes (λ f. f) result (veto_from (view value.now)) }
{
    let owner = text_in(alloc, value, "owner")?;
    let condition = text_in(alloc, value, "condition")?;
    Ok(FormShown::Veto { owner, condition })
}

#[tactic(auto, unfolding(crate::specs::Taking::on_create_from))]
fn on_create_from(alloc: Global, value: &Value) -> Result<FormShown, TakeFault>
    ensures { Takes (λ f. f) result (on_create_from (view value.now)) }
{
    let scope = scope_in(value, "scope")?;
    let privilege = privilege_in(value, "privilege")?;
    let folder = text_in(alloc, value, "folder")?;
    let holder = text_in(alloc, value, "holder")?;
    Ok(FormShown::OnCreate {
        folder,
        scope,
        privilege,
        holder,
    })
}

#[tactic(auto, unfolding(crate::specs::Taking::form_from))]
fn form_from(alloc: Global, word: &str, value: &Value) -> Result<FormShown, TakeFault>
    ensures { Takes (λ f. f) result (form_from word.now (view value.now)) }
{
    match word {
        "remove_lost" => remove_lost_from(alloc, value),
        "end_lost" => end_lost_from(alloc, value),
        "veto" => veto_from(alloc, value),
        "on_create" => on_create_from(alloc, value),
        _ => Err(TakeFault::Unlike),
    }
}

#[tactic(auto, unfolding(crate::specs::Taking::rule_from))]
fn rule_from(alloc: Global, value: &Value) -> Result<RuleShown, TakeFault>
    ensures { Takes (λ r. r) result (rule_from (view value.now)) }
{
    let id = small_number_in(value, "id")?;
    let word = str_in(value, "form")?;
    let form = form_from(alloc, word, value)?;
    Ok(RuleShown {
        id: RuleId::new(id),
        form,
    })
}

#[tactic(auto, using(crate::proofs::Takings::taken_lemmas))]
fn rules_of(alloc: Global, items: &[Value]) -> Result<RulesShown, TakeFault>
    ensures { Takes (λ xs. xs) result (all_of rule_from (items_view items.now)) }
{
    let mut rules = RulesShown::new(alloc);
    for item in items {
        let rule = rule_from(alloc, item)?;
        rules.push(rule)?;
    }
    Ok(rules)
}

/// The rules.
#[tactic(auto, unfolding(crate::specs::Taking::rules_in))]
pub fn rules_in(alloc: Global, value: &Value) -> Result<RulesShown, TakeFault>
    ensures { Takes (λ xs. xs) result (rules_in (view value.now)) }
{
    let items = items_in(value, "rules")?;
    rules_of(alloc, items)
}
