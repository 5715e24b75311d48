// Assignments of attributes as JSON.
ghost use Rattle.std.specs.Prelude.{◌≡◌, ◌++◌, ◌∷◌, [], OnOk, codes, decimal, map};
ghost use Rattle.std.specs.Map.Iter.{deref};
ghost use Rattle.json.specs.Token.{key, number, string};
ghost use Rattle.json.specs.Tree.{json_tokens};
ghost use Rattle.serde_json.specs.Data.{array};
ghost use Rattle.serde_json.specs.Written.{outline};
ghost use Rattle.reg_json.specs.Replies.{value_data, value_items, assign_data, assign_items};
ghost use Rattle.reg_json.specs.Values.{value_tokens};

use crate::flat::put_moment;
use json::Writer;
use reg_terms::{AssignShown, AttrValue, AttrValues};
use std::alloc::AllocError;

#[tactic(auto, using(crate::proofs::Integers::integer_text))]
fn put_value(out: &mut Writer, value: &AttrValue) -> Result<(), AllocError>
    ensures ok { OnOk result (out.new.tokens
        ≡ out.old.tokens ++ json_tokens (outline (value_data value.now))) }
    ensures before { out.new.before ≡ out.old.before }
{
    match value {
        AttrValue::Int(number) => out.i64(*number),
        AttrValue::Text(text) => out.string(text.as_str()),
        AttrValue::Moment(moment) => put_moment(out, *moment),
    }
}

/// Writes values one behind the other.
fn put_few(out: &mut Writer, values: &[AttrValue]) -> Result<(), AllocError>
    ensures ok { OnOk result (out.new.tokens ≡ out.old.tokens ++ value_tokens values.now) }
    ensures before { out.new.before ≡ out.old.before }
{
    for value in values {
        put_value(out, value)?;
    }
    Ok(())
}

/// Writes lent values one behind the other.
fn put_many(out: &mut Writer, values: &[&AttrValue]) -> Result<(), AllocError>
    ensures ok { OnOk result (out.new.tokens
        ≡ out.old.tokens ++ value_tokens (map deref values.now)) }
    ensures before { out.new.before ≡ out.old.before }
{
    for value in values {
        put_value(out, *value)?;
    }
    Ok(())
}

/// Writes values as an array. Few of them take no memory beside that of the text.
fn put_values(out: &mut Writer, values: &AttrValues) -> Result<(), AllocError>
    ensures ok { OnOk result (out.new.tokens
        ≡ out.old.tokens ++ json_tokens (outline (array (value_items values.now)))) }
    ensures before { out.new.before ≡ out.old.before }
{
    let (few, many) = values.parts()?;
    out.begin_array()?;
    put_few(out, few)?;
    put_many(out, &many)?;
    out.end_array()
}

/// The members that come before the values.
fn put_front(out: &mut Writer, assign: &AssignShown) -> Result<(), AllocError>
    ensures ok { OnOk result (out.new.tokens
        ≡ out.old.tokens ++ key (codes "attribute")
        ∷ (string assign.now.attribute
        ∷ (key (codes "id") ∷ (number (decimal assign.now.id) ∷ [])))) }
    ensures before { out.new.before ≡ out.old.before }
{
    out.key("attribute")?;
    out.string(assign.attribute.as_str())?;
    out.key("id")?;
    out.u64(u64::from(assign.id.number()))
}

fn put_assign(out: &mut Writer, assign: &AssignShown) -> Result<(), AllocError>
    ensures ok { OnOk result (out.new.tokens
        ≡ out.old.tokens ++ json_tokens (outline (assign_data assign.now))) }
    ensures before { out.new.before ≡ out.old.before }
{
    out.begin_object()?;
    put_front(out, assign)?;
    out.key("values")?;
    put_values(out, &assign.values)?;
    out.end_object()
}

/// Writes assignments as an array. The only error is out of memory.
pub fn put_assigns(out: &mut Writer, assigns: &[AssignShown]) -> Result<(), AllocError>
    ensures ok { OnOk result (out.new.tokens
        ≡ out.old.tokens ++ json_tokens (outline (array (assign_items assigns.now)))) }
    ensures before { out.new.before ≡ out.old.before }
{
    out.begin_array()?;
    for assign in assigns {
        put_assign(out, assign)?;
    }
    out.end_array()
}
