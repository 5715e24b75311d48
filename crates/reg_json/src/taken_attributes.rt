// Assignments of attributes, taken from JSON data.
ghost use Rattle.std.specs.Prelude.{◌≡◌};
ghost use Rattle.serde_json.specs.View.{view, items_view};
ghost use Rattle.reg_json.specs.Takes.{Takes};
ghost use Rattle.reg_json.specs.Taking.{all_of, value_from, assign_from};

use crate::taking::{TakeFault, items_in, small_number_in, text_in};
use reg_base::{AssignId, Text};
use reg_terms::{AssignShown, AssignsShown, AttrValue, AttrValues};
use serde_json::Value;
use std::alloc::Global;

#[tactic(auto, unfolding(crate::specs::Taking::value_from))]
fn value_from(alloc: Global, value: &Value) -> Result<AttrValue, TakeFault>
    ensures { Takes (λ v. v) result (value_from (view value.now)) }
{
    if let Some(text) = value.as_str() {
        let text = Text::new(alloc, text)?;
        return Ok(AttrValue::Text(text));
    }
    match value.as_i64() {
        Some(number) => Ok(AttrValue::Int(number)),
        None => Err(TakeFault::Unlike),
    }
}

#[tactic(auto, using(crate::proofs::Takings::taken_lemmas))]
fn values_of(alloc: Global, items: &[Value]) -> Result<AttrValues, TakeFault>
    ensures { Takes (λ vs. vs) result (all_of value_from (items_view items.now)) }
{
    let mut values = AttrValues::new(alloc);
    for item in items {
        let value = value_from(alloc, item)?;
        values.push(value)?;
    }
    Ok(values)
}

#[tactic(auto, unfolding(crate::specs::Taking::assign_from))]
fn assign_from(alloc: Global, value: &Value) -> Result<AssignShown, TakeFault>
    ensures { Takes (λ a. a) result (assign_from (view value.now)) }
{
    let id = small_number_in(value, "id")?;
    let attribute = text_in(alloc, value, "attribute")?;
    let items = items_in(value, "values")?;
    let values = values_of(alloc, items)?;
    Ok(AssignShown {
        attribute,
        id: AssignId::new(id),
        values,
    })
}

/// The assignments of an array. The only error besides unlike data is out of memory.
#[tactic(auto, using(crate::proofs::Takings::taken_lemmas))]
pub fn assigns_of(alloc: Global, items: &[Value]) -> Result<AssignsShown, TakeFault>
    ensures { Takes (λ xs. xs) result (all_of assign_from (items_view items.now)) }
{
    let mut assigns = AssignsShown::new(alloc);
    for item in items {
        let assign = assign_from(alloc, item)?;
        assigns.push(assign)?;
    }
    Ok(assigns)
}
