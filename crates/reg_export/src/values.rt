// Parts of commands, written as JSON.
ghost use Rattle.std.specs.Prelude.{◌≡◌, ◌++◌, ◌∷◌, [], OnOk};
ghost use Rattle.json.specs.Token.{key as json_key, string};
ghost use Rattle.json.specs.Tree.{json_tokens};
ghost use Rattle.serde_json.specs.Data.{array};
ghost use Rattle.serde_json.specs.Written.{outline};
ghost use Rattle.reg_base.specs.MomentText.{text_of};
ghost use Rattle.reg_json.specs.Replies.{strings};
ghost use Rattle.reg_export.specs.Fields.{entity_text, owner_words, row_data, row_items};
ghost use Rattle.reg_export.specs.Fields.{value_data};
ghost use Rattle.reg_base.specs.declared.entity.Entity.TheVariants as an_entity;
ghost use Rattle.reg_export.specs.Members.{part_data, word_tokens};

use crate::members::Part;
use json::Writer;
use reg_base::{Entity, Moment, Name};
use reg_terms::{LoadRow, Owners, Value as GivenValue};
use std::alloc::{AllocError, Global};

fn put_group(alloc: Global, out: &mut Writer, name: &Name) -> Result<(), AllocError>
    ensures ok { OnOk result (out.new.tokens
        ≡ out.old.tokens ++ string (entity_text (an_entity.Group name.now)) ∷ []) }
    ensures before { out.new.before ≡ out.old.before }
{
    let mut text = String::from_str(alloc, "g:gsa/")?;
    text.push_str(name.as_str())?;
    out.string(text.as_str())
}

fn system_text() -> &'static str
    ensures { result.now ≡ entity_text an_entity.System }
{
    "g:isa/GrouperSystem"
}

fn everyone_text() -> &'static str
    ensures { result.now ≡ entity_text an_entity.Everyone }
{
    "g:isa/GrouperAll"
}

/// Writes the text that names an entity. The only error is out of memory, here and in what follows.
fn put_entity(alloc: Global, out: &mut Writer, entity: &Entity) -> Result<(), AllocError>
    ensures ok { OnOk result (out.new.tokens
        ≡ out.old.tokens ++ string (entity_text entity.now) ∷ []) }
    ensures before { out.new.before ≡ out.old.before }
{
    match entity {
        Entity::Person(text) => out.string(text.as_str()),
        Entity::Group(name) => put_group(alloc, out, name),
        Entity::System => out.string(system_text()),
        Entity::Everyone => out.string(everyone_text()),
    }
}

/// Writes the text of a moment.
fn put_moment(out: &mut Writer, moment: Moment) -> Result<(), AllocError>
    ensures ok { OnOk result (out.new.tokens ≡ out.old.tokens ++ string (text_of moment) ∷ []) }
    ensures before { out.new.before ≡ out.old.before }
{
    let text = moment.text();
    match str::from_utf8(&text) {
        Ok(text) => out.string(text),
        // the text of a moment is ASCII
        Err(_) => unreachable!(),
    }
}

/// Writes a word, where it holds.
fn put_word(out: &mut Writer, word: &str, holds: bool) -> Result<(), AllocError>
    ensures ok { OnOk result (out.new.tokens ≡ out.old.tokens ++ word_tokens holds word.now) }
    ensures before { out.new.before ≡ out.old.before }
{
    if holds { out.string(word) } else { Ok(()) }
}

/// Writes the words of kinds of owner.
#[tactic(auto, using(crate::proofs::Whole::owners_written))]
fn put_owners(out: &mut Writer, owners: Owners) -> Result<(), AllocError>
    ensures ok { OnOk result (out.new.tokens
        ≡ out.old.tokens ++ json_tokens (outline (array (strings (owner_words owners))))) }
    ensures before { out.new.before ≡ out.old.before }
{
    out.begin_array()?;
    put_word(out, "folder", owners.folder)?;
    put_word(out, "group", owners.group)?;
    put_word(out, "subject", owners.subject)?;
    out.end_array()
}

/// Writes a value of an assignment.
#[tactic(auto, using(crate::proofs::Whole::integer_text))]
fn put_value(out: &mut Writer, value: &GivenValue) -> Result<(), AllocError>
    ensures ok { OnOk result (out.new.tokens
        ≡ out.old.tokens ++ json_tokens (outline (value_data value.now))) }
    ensures before { out.new.before ≡ out.old.before }
{
    match value {
        GivenValue::Int(number) => out.i64(*number),
        GivenValue::Text(text) => out.string(text.as_str()),
    }
}

/// Writes names, in order.
fn put_names(out: &mut Writer, names: &[Name]) -> Result<(), AllocError>
    ensures ok { OnOk result (out.new.tokens
        ≡ out.old.tokens ++ json_tokens (outline (array (strings names.now)))) }
    ensures before { out.new.before ≡ out.old.before }
{
    out.begin_array()?;
    for name in names {
        out.string(name.as_str())?;
    }
    out.end_array()
}

fn put_text(out: &mut Writer, key: &str, text: &str) -> Result<(), AllocError>
    ensures ok { OnOk result (out.new.tokens
        ≡ out.old.tokens ++ json_key key.now ∷ string text.now ∷ []) }
    ensures before { out.new.before ≡ out.old.before }
{
    out.key(key)?;
    out.string(text)
}

#[tactic(auto, using(crate::proofs::Whole::row_written))]
fn put_texts(out: &mut Writer, group: &str, person: &str) -> Result<(), AllocError>
    ensures ok { OnOk result (out.new.tokens ≡ out.old.tokens
        ++ json_tokens (outline (row_data (record { group = group.now; person = person.now })))) }
    ensures before { out.new.before ≡ out.old.before }
{
    out.begin_object()?;
    put_text(out, "group", group)?;
    put_text(out, "person", person)?;
    out.end_object()?;
    Ok(())
}

fn put_row(out: &mut Writer, row: &LoadRow) -> Result<(), AllocError>
    ensures ok { OnOk result (out.new.tokens
        ≡ out.old.tokens ++ json_tokens (outline (row_data row.now))) }
    ensures before { out.new.before ≡ out.old.before }
{
    put_texts(out, row.group.as_str(), row.person.as_str())
}

/// Writes rows of a load, in order.
fn put_rows(out: &mut Writer, rows: &[LoadRow]) -> Result<(), AllocError>
    ensures ok { OnOk result (out.new.tokens
        ≡ out.old.tokens ++ json_tokens (outline (array (row_items rows.now)))) }
    ensures before { out.new.before ≡ out.old.before }
{
    out.begin_array()?;
    for row in rows {
        put_row(out, row)?;
    }
    out.end_array()
}

/// Writes a part of a line.
pub fn put_part(alloc: Global, out: &mut Writer, part: &Part<'_>) -> Result<(), AllocError>
    ensures ok { OnOk result (out.new.tokens
        ≡ out.old.tokens ++ json_tokens (outline (part_data part.now))) }
    ensures before { out.new.before ≡ out.old.before }
{
    match part {
        Part::Text(text) => out.string(text),
        Part::Entity(entity) => put_entity(alloc, out, entity),
        Part::Moment(moment) => put_moment(out, **moment),
        Part::Owners(owners) => put_owners(out, *owners),
        Part::Flag(flag) => out.boolean(*flag),
        Part::Value(value) => put_value(out, value),
        Part::Number(number) => out.u64(*number),
        Part::Names(names) => put_names(out, names),
        Part::Rows(rows) => put_rows(out, rows),
    }
}
