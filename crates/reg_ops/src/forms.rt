// Whether fields have their forms.
ghost use Rattle.std.specs.Prelude.{◌≡◌, ◌≤◌, is_some, length};
ghost use Rattle.std.specs.List.{list_all};
ghost use Rattle.reg_base.specs.Names.{is_name};
ghost use Rattle.reg_base.specs.Entities.{entity_of, group_entity, person_entity};
ghost use Rattle.reg_ops.specs.Forms.{is_folder_text, is_display, is_entity, is_object_text};
ghost use Rattle.reg_ops.specs.Forms.{is_optional_moment, is_i64, is_value, suits_some};
ghost use Rattle.reg_ops.specs.Forms.{is_load_row, are_few, are_names, are_load_rows, is_field};
ghost use Rattle.reg_ops.specs.Forms.{has_form, takes_key, key_fits};
ghost use Rattle.reg_ops.specs.Parts.{seen, seen_all};

use crate::parts::{FieldRef, fields_of};
use reg_base::{Entity, Moment, Name, Text, is_extension, is_name, is_person, is_source};
use reg_terms::{Command, LoadRow, LoadRows, MAX_DISPLAY, Names, Owners, Value};

/// Whether the text is the name of a folder, or `:` for the root.
pub fn is_folder_text(text: &[u8]) -> bool
    ensures { result ≡ is_folder_text text.now }
{
    text == b":".as_slice() || is_name(text)
}

#[tactic(auto, using(crate::proofs::Displays::display_is))]
fn is_display(text: &Text) -> bool
    ensures { result ≡ is_display text.now }
{
    let text = text.as_str();
    text.len() <= MAX_DISPLAY
}

fn is_entity(entity: &Entity) -> bool
    ensures { result ≡ is_entity entity.now }
{
    match entity {
        Entity::Person(text) => is_person(text.bytes()),
        Entity::Group(name) => is_name(name.bytes()),
        Entity::System | Entity::Everyone => true,
    }
}

fn is_group_text(text: &[u8]) -> bool
    requires { 6 ≤ length text.now }
    ensures { result ≡ is_some (group_entity text.now) }
{
    let (_, name) = text.split_at(6);
    is_name(name)
}

fn is_person_text(text: &[u8]) -> bool
    ensures { result ≡ is_some (person_entity text.now) }
{
    is_person(text)
}

/// Whether the text names an entity: a person, a group, or one of the registry's own.
#[tactic(auto, unfolding(reg_base::specs::Entities::entity_of))]
fn is_entity_text(text: &[u8]) -> bool
    ensures { result ≡ is_some (entity_of text.now) }
{
    if text == b"g:isa/GrouperSystem".as_slice() || text == b"g:isa/GrouperAll".as_slice() {
        return true;
    }
    if text.starts_with(b"g:gsa/") {
        is_group_text(text)
    } else {
        is_person_text(text)
    }
}

/// Whether the text is that of an object: an entity's where it has a `/`, else a name or `:`.
pub fn is_object_text(text: &[u8]) -> bool
    ensures { result ≡ is_object_text text.now }
{
    if text.contains(&b'/') {
        is_entity_text(text)
    } else {
        is_folder_text(text)
    }
}

fn is_optional_moment(moment: Option<Moment>) -> bool
    ensures { result ≡ is_optional_moment moment }
{
    moment.is_none_or(|moment| Moment::new(moment.micros()).is_some())
}

fn suits_some(owners: Owners) -> bool
    ensures { result ≡ suits_some owners }
{
    owners.folder || owners.group || owners.subject
}

/// Any `i64` is a whole number of 64 bits.
fn is_i64(number: i64) -> bool
    ensures { result ≡ is_i64 number }
{
    let _any = number;
    true
}

fn is_value(value: &Value) -> bool
    ensures { result ≡ is_value value.now }
{
    match value {
        Value::Int(number) => is_i64(*number),
        Value::Text(text) => is_display(text),
    }
}

/// Whether so many items are fewer than 2^32.
fn are_few(count: usize) -> bool
    ensures { result ≡ are_few count }
{
    count < 4_294_967_296
}

fn all_names(names: &[Name]) -> bool
    ensures { result ≡ list_all is_name names.now }
{
    names.iter().all(|name| is_name(name.bytes()))
}

fn are_names(names: &Names) -> bool
    ensures { result ≡ are_names names.now }
{
    let names = names.list();
    all_names(names) && are_few(names.len())
}

fn is_load_row(row: &LoadRow) -> bool
    ensures { result ≡ is_load_row row.now }
{
    is_name(row.group.bytes()) && is_person(row.person.bytes())
}

fn all_load_rows(rows: &[LoadRow]) -> bool
    ensures { result ≡ list_all is_load_row rows.now }
{
    rows.iter().all(|row| is_load_row(row))
}

fn are_load_rows(rows: &LoadRows) -> bool
    ensures { result ≡ are_load_rows rows.now }
{
    let rows = rows.list();
    all_load_rows(rows) && are_few(rows.len())
}

fn is_field(field: &FieldRef<'_>) -> bool
    ensures { result ≡ list_all is_field (seen field.now) }
{
    match field {
        FieldRef::Nothing
        | FieldRef::SetOp(_)
        | FieldRef::InheritKind(_)
        | FieldRef::Scope(_)
        | FieldRef::Privilege(_)
        | FieldRef::Flag(_)
        | FieldRef::DefKind(_) => true,
        FieldRef::Name(name) => is_name(name.bytes()),
        FieldRef::Folder(text) => is_folder_text(text.bytes()),
        FieldRef::Extension(text) => is_extension(text.bytes()),
        FieldRef::Source(text) => is_source(text.bytes()),
        FieldRef::Display(text) => is_display(text),
        FieldRef::Entity(entity) => is_entity(entity),
        FieldRef::Object(text) => is_object_text(text.bytes()),
        FieldRef::OptionalMoment(moment) => is_optional_moment(*moment),
        FieldRef::Owners(owners) => suits_some(*owners),
        FieldRef::Value(value) => is_value(value),
        FieldRef::Number { value, least, most } => *least <= *value && *value <= *most,
        FieldRef::Names(names) => are_names(names),
        FieldRef::LoadRows(rows) => are_load_rows(rows),
    }
}

#[tactic(auto, using(crate::proofs::Seen::seen_test))]
fn are_fields(fields: &[FieldRef<'_>]) -> bool
    ensures { result ≡ list_all is_field (seen_all fields.now) }
{
    match fields {
        [] => true,
        [field, rest @ ..] => is_field(field) && are_fields(rest),
    }
}

/// Whether each field of a command has its form. It takes no memory.
#[tactic(auto, unfolding(crate::specs::Forms::has_form))]
pub fn has_form(command: &Command) -> bool
    ensures { result ≡ has_form command.now }
{
    let fields = fields_of(command);
    are_fields(&fields)
}

/// Whether a command may be given under a key: any may but a load.
pub fn takes_key(command: &Command) -> bool
    ensures { result ≡ takes_key command.now }
{
    !matches!(command, Command::Load { .. })
}

/// Whether there is no key, or one that has the form of an extension, of what may have one.
pub fn key_fits(takes: bool, key: &Option<Text>) -> bool
    ensures { result ≡ key_fits takes key.now }
{
    match key {
        Some(key) => takes && is_extension(key.bytes()),
        None => true,
    }
}
