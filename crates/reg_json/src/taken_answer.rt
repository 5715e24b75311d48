// Answers, taken from JSON data.
ghost use Rattle.std.specs.Prelude.{◌≡◌};
ghost use Rattle.serde_json.specs.View.{view};
ghost use Rattle.reg_json.specs.Takes.{Takes};
ghost use Rattle.reg_json.specs.Taking.{group_from, listing_from, members_from, memberships_from};
ghost use Rattle.reg_json.specs.Taking.{groups_from, grants_from, may_from, attributes_from};
ghost use Rattle.reg_json.specs.Taking.{history_from, admin_from, log_from, list_from, answer_from};

use crate::taken_admin::{consumers_in, gone_in, jobs_in, rules_in};
use crate::taken_attributes::assigns_of;
use crate::taken_shown::{
    entries_of, factors_or_null, grants_of, privileges_of, rows_of, spans_of,
};
use crate::taking::{TakeFault, has, items_in, name_in, number_in, text_in, texts_in, value_in};
use reg_terms::Answer;
use serde_json::Value;
use std::alloc::Global;

#[tactic(auto, unfolding(crate::specs::Taking::group_from))]
fn group_from(alloc: Global, value: &Value) -> Result<Answer, TakeFault>
    ensures { Takes (λ a. a) result (group_from (view value.now)) }
{
    let display = text_in(alloc, value, "display")?;
    let name = name_in(alloc, value, "name")?;
    Ok(Answer::GroupGet { display, name })
}

#[tactic(auto, unfolding(crate::specs::Taking::listing_from))]
fn listing_from(alloc: Global, value: &Value) -> Result<Answer, TakeFault>
    ensures { Takes (λ a. a) result (listing_from (view value.now)) }
{
    let attributes = texts_in(alloc, value, "attributes")?;
    let definitions = texts_in(alloc, value, "definitions")?;
    let folders = texts_in(alloc, value, "folders")?;
    let groups = texts_in(alloc, value, "groups")?;
    Ok(Answer::FolderList {
        attributes,
        definitions,
        folders,
        groups,
    })
}

#[tactic(auto, unfolding(crate::specs::Taking::members_from))]
fn members_from(alloc: Global, value: &Value) -> Result<Answer, TakeFault>
    ensures { Takes (λ a. a) result (members_from (view value.now)) }
{
    let members = texts_in(alloc, value, "members")?;
    Ok(Answer::Members { members })
}

#[tactic(auto, unfolding(crate::specs::Taking::memberships_from))]
fn memberships_from(alloc: Global, value: &Value) -> Result<Answer, TakeFault>
    ensures { Takes (λ a. a) result (memberships_from (view value.now)) }
{
    let found = value_in(value, "composite")?;
    let composite = factors_or_null(alloc, found)?;
    let items = items_in(value, "rows")?;
    let rows = rows_of(alloc, items)?;
    Ok(Answer::Rows { composite, rows })
}

#[tactic(auto, unfolding(crate::specs::Taking::groups_from))]
fn groups_from(alloc: Global, value: &Value) -> Result<Answer, TakeFault>
    ensures { Takes (λ a. a) result (groups_from (view value.now)) }
{
    let groups = texts_in(alloc, value, "groups")?;
    Ok(Answer::Groups { groups })
}

#[tactic(auto, unfolding(crate::specs::Taking::grants_from))]
fn grants_from(alloc: Global, value: &Value) -> Result<Answer, TakeFault>
    ensures { Takes (λ a. a) result (grants_from (view value.now)) }
{
    let items = items_in(value, "grants")?;
    let grants = grants_of(alloc, items)?;
    Ok(Answer::Grants { grants })
}

#[tactic(auto, unfolding(crate::specs::Taking::may_from))]
fn may_from(alloc: Global, value: &Value) -> Result<Answer, TakeFault>
    ensures { Takes (λ a. a) result (may_from (view value.now)) }
{
    let items = items_in(value, "privileges")?;
    let privileges = privileges_of(alloc, items)?;
    Ok(Answer::May { privileges })
}

#[tactic(auto, unfolding(crate::specs::Taking::attributes_from))]
fn attributes_from(alloc: Global, value: &Value) -> Result<Answer, TakeFault>
    ensures { Takes (λ a. a) result (attributes_from (view value.now)) }
{
    let items = items_in(value, "assignments")?;
    let assignments = assigns_of(alloc, items)?;
    Ok(Answer::Attributes { assignments })
}

#[tactic(auto, unfolding(crate::specs::Taking::history_from))]
fn history_from(alloc: Global, value: &Value) -> Result<Answer, TakeFault>
    ensures { Takes (λ a. a) result (history_from (view value.now)) }
{
    let items = items_in(value, "history")?;
    let history = spans_of(alloc, items)?;
    Ok(Answer::History { history })
}

#[tactic(auto, unfolding(crate::specs::Taking::admin_from))]
fn admin_from(alloc: Global, value: &Value) -> Result<Answer, TakeFault>
    ensures { Takes (λ a. a) result (admin_from (view value.now)) }
{
    let consumers = consumers_in(alloc, value)?;
    let gone = gone_in(alloc, value)?;
    let jobs = jobs_in(alloc, value)?;
    let rules = rules_in(alloc, value)?;
    Ok(Answer::Admin {
        consumers,
        gone,
        jobs,
        rules,
    })
}

#[tactic(auto, unfolding(crate::specs::Taking::log_from))]
fn log_from(alloc: Global, value: &Value) -> Result<Answer, TakeFault>
    ensures { Takes (λ a. a) result (log_from (view value.now)) }
{
    let last = number_in(value, "last")?;
    let place = number_in(value, "place")?;
    let items = items_in(value, "entries")?;
    let entries = entries_of(alloc, items)?;
    Ok(Answer::Log {
        entries,
        last,
        place,
    })
}

#[tactic(auto, unfolding(crate::specs::Taking::list_from))]
fn list_from(alloc: Global, value: &Value) -> Result<Answer, TakeFault>
    ensures { Takes (λ a. a) result (list_from (view value.now)) }
{
    if has(value, "grants") {
        grants_from(alloc, value)
    } else if has(value, "privileges") {
        may_from(alloc, value)
    } else if has(value, "assignments") {
        attributes_from(alloc, value)
    } else if has(value, "history") {
        history_from(alloc, value)
    } else if has(value, "consumers") {
        admin_from(alloc, value)
    } else {
        log_from(alloc, value)
    }
}

/// The answer that data say.
#[tactic(auto, unfolding(crate::specs::Taking::answer_from))]
pub fn answer_from(alloc: Global, value: &Value) -> Result<Answer, TakeFault>
    ensures { Takes (λ a. a) result (answer_from (view value.now)) }
{
    if has(value, "display") {
        group_from(alloc, value)
    } else if has(value, "attributes") {
        listing_from(alloc, value)
    } else if has(value, "members") {
        members_from(alloc, value)
    } else if has(value, "composite") {
        memberships_from(alloc, value)
    } else if has(value, "groups") {
        groups_from(alloc, value)
    } else {
        list_from(alloc, value)
    }
}
