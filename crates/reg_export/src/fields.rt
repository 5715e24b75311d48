// The fields of a command, each under its key.
ghost use Rattle.std.specs.Prelude.{◌≡◌, ◌<◌, ◌^◌, IfOk, IfSome, codes, map, option_map, true};
ghost use Rattle.reg_terms.specs.Privileges.{line_of};
ghost use Rattle.reg_ops.specs.Forms.{is_i64};
ghost use Rattle.reg_ops.specs.Parts.{seen, seen_all};
ghost use Rattle.reg_ops.specs.Table.{fields_of};
ghost use Rattle.reg_ops.specs.declared.field.Field.TheVariants as field;
ghost use Rattle.reg_json.specs.AdminReplies.{scope_word};
ghost use Rattle.reg_json.specs.Replies.{kind_word};
ghost use Rattle.reg_export.specs.Fields.{def_word, inherit_word};
ghost use Rattle.reg_export.specs.Lines.{id_data, is_nothing, key_data, with_data, with_fields};
ghost use Rattle.reg_export.specs.Members.{AreWhole, IsWhole, members_of, part_data};
ghost use Rattle.reg_export.specs.Members.{reference_data};

use crate::members::{Part, put_member};
use reg_base::{Privilege, Text};
use reg_ops::{FieldKind, FieldRef, fields_of};
use reg_terms::{Command, DefKind, InheritKind, Scope, SetOp, Value, privilege_name};
use std::alloc::AllocError;

/// The word of how a composite is made.
fn kind_word<'a>(kind: SetOp) -> &'a str
    ensures { result.now ≡ kind_word kind }
{
    match kind {
        SetOp::Intersection => "intersection",
        SetOp::Complement => "complement",
        SetOp::Union => "union",
    }
}

/// The word of the kind of objects that an inherit is for.
fn inherit_word<'a>(kind: InheritKind) -> &'a str
    ensures { result.now ≡ inherit_word kind }
{
    match kind {
        InheritKind::Folder => "folder",
        InheritKind::Group => "group",
        InheritKind::Definition => "definition",
    }
}

/// The word of how far an inherit or a rule reaches.
fn scope_word<'a>(scope: Scope) -> &'a str
    ensures { result.now ≡ scope_word scope }
{
    match scope {
        Scope::One => "ONE",
        Scope::Sub => "SUB",
    }
}

/// The word of the kind of values that attributes take.
fn def_word<'a>(kind: DefKind) -> &'a str
    ensures { result.now ≡ def_word kind }
{
    match kind {
        DefKind::Marker => "marker",
        DefKind::Integer => "integer",
        DefKind::Text => "text",
        DefKind::Timestamp => "timestamp",
    }
}

/// The name of a privilege.
fn privilege_word<'a>(held: Privilege) -> &'a str
    ensures { result.now ≡ (line_of held).name }
{
    privilege_name(held)
}

/// A field as a part of a line, unless it is left out.
fn part_of<'a>(field: &'a FieldRef<'a>) -> Option<Part<'a>>
    ensures { option_map part_data result ≡ reference_data field.now }
{
    match field {
        FieldRef::Nothing | FieldRef::OptionalMoment(None) => None,
        FieldRef::Name(name) => Some(Part::Text(name.as_str())),
        FieldRef::Folder(text)
        | FieldRef::Extension(text)
        | FieldRef::Source(text)
        | FieldRef::Display(text)
        | FieldRef::Object(text) => Some(Part::Text(text.as_str())),
        FieldRef::Entity(entity) => Some(Part::Entity(entity)),
        FieldRef::OptionalMoment(Some(moment)) => Some(Part::Moment(moment)),
        FieldRef::SetOp(kind) => Some(Part::Text(kind_word(*kind))),
        FieldRef::InheritKind(kind) => Some(Part::Text(inherit_word(*kind))),
        FieldRef::Scope(scope) => Some(Part::Text(scope_word(*scope))),
        FieldRef::Privilege(held) => Some(Part::Text(privilege_word(*held))),
        FieldRef::Owners(owners) => Some(Part::Owners(*owners)),
        FieldRef::Flag(flag) => Some(Part::Flag(*flag)),
        FieldRef::DefKind(kind) => Some(Part::Text(def_word(*kind))),
        FieldRef::Value(value) => Some(Part::Value(value)),
        FieldRef::Number { value, .. } => Some(Part::Number(*value)),
        FieldRef::Names(names) => Some(Part::Names(names.list())),
        FieldRef::LoadRows(rows) => Some(Part::Rows(rows.list())),
    }
}

fn law_integer_is_whole(number: i64)
    ensures { is_i64 number ≡ true }
{
    let _any = number;
}

fn law_number_is_whole(number: u64)
    ensures { number < 2 ^ 64 }
{
    let _any = number;
}

fn law_value_is_whole(value: &Value)
    ensures { IsWhole (field.Value value.now) }
{
    match value {
        Value::Int(number) => law_integer_is_whole(*number),
        Value::Text(_) => {}
    }
}

/// Numbers of a command have 64 bits.
fn law_is_whole(field: &FieldRef<'_>)
    ensures { AreWhole (seen field.now) }
{
    match field {
        FieldRef::Value(value) => law_value_is_whole(value),
        FieldRef::Number { value, .. } => law_number_is_whole(*value),
        _ => {}
    }
}

/// And so have those of all its fields.
#[tactic(auto, using(crate::proofs::Whole::whole_joined))]
fn law_are_whole(fields: &[FieldRef<'_>])
    ensures { AreWhole (seen_all fields.now) }
{
    if let [field, others @ ..] = fields {
        law_is_whole(field);
        law_are_whole(others);
    }
}

/// And those of a command.
pub fn law_command_is_whole(command: &Command)
    ensures { AreWhole (fields_of command.now) }
{
    law_are_whole(&fields_of(command));
}

/// An id has 64 bits.
pub fn law_id_is_whole(made: Option<u64>)
    ensures { IfSome made (λ id. id < 2 ^ 64) }
{
    if let Some(id) = made {
        let _ = id;
    }
}

/// Puts the id of what was made, where there is one.
pub fn put_id<'a>(
    members: Vec<(&'a str, Part<'a>)>,
    made: Option<u64>,
) -> Result<Vec<(&'a str, Part<'a>)>, AllocError>
    ensures { IfOk result (λ ms. members_of ms.items
        ≡ with_data (codes "id") (id_data made) (members_of members.entry.items)) }
{
    match made {
        Some(id) => put_member(members, "id", Part::Number(id)),
        None => Ok(members),
    }
}

/// Puts the key that a command was given under, where there is one.
pub fn put_key<'a>(
    members: Vec<(&'a str, Part<'a>)>,
    key: &'a Option<Text>,
) -> Result<Vec<(&'a str, Part<'a>)>, AllocError>
    ensures { IfOk result (λ ms. members_of ms.items
        ≡ with_data (codes "key") (key_data key.now) (members_of members.entry.items)) }
{
    match key {
        Some(key) => put_member(members, "key", Part::Text(key.as_str())),
        None => Ok(members),
    }
}

#[tactic(auto, using(crate::proofs::Placing::put_lemmas))]
fn put_field<'a>(
    members: Vec<(&'a str, Part<'a>)>,
    key: &'a str,
    field: &'a FieldRef<'a>,
) -> Result<Vec<(&'a str, Part<'a>)>, AllocError>
    ensures { IfOk result (λ ms. members_of ms.items
        ≡ with_data key.now (reference_data field.now) (members_of members.entry.items)) }
{
    match part_of(field) {
        Some(part) => put_member(members, key, part),
        None => Ok(members),
    }
}

fn is_nothing(field: &FieldRef<'_>) -> bool
    ensures { result ≡ is_nothing field.now }
{
    matches!(field, FieldRef::Nothing)
}

/// Puts the fields that are seen under their keys, which come in the same order. The only error is
/// out of memory.
#[tactic(auto, using(crate::proofs::Seen::seen_lemmas))]
pub fn put_fields<'a>(
    members: Vec<(&'a str, Part<'a>)>,
    keyed: &'a [(&'static str, FieldKind)],
    fields: &'a [FieldRef<'a>],
) -> Result<Vec<(&'a str, Part<'a>)>, AllocError>
    ensures { IfOk result (λ ms. members_of ms.items
        ≡ with_fields (seen_all fields.now) (map (λ f. (f.0.now, f.1)) keyed.now)
        (members_of members.entry.items)) }
{
    let [field, others @ ..] = fields else {
        return Ok(members);
    };
    if is_nothing(field) {
        return put_fields(members, keyed, others);
    }
    let [(key, _), rest @ ..] = keyed else {
        return Ok(members);
    };
    let members = put_field(members, key, field)?;
    put_fields(members, rest, others)
}
