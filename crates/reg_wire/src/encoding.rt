// The payloads of stamped commands.
ghost use Rattle.std.specs.Prelude.{◌≡◌, ◌++◌, ◌<◌, ◌≤◌, ◌^◌, true, codes, length, IfOk, OnOk};
ghost use Rattle.std.specs.List.{flat_map, list_all};
ghost use Rattle.std.specs.Int.{w32, to_le_bytes};
ghost use Rattle.reg_ops.specs.Forms.{are_load_rows, are_names, is_entity, is_field, is_load_row};
ghost use Rattle.reg_ops.specs.Forms.{is_value, has_form, key_fits};
ghost use Rattle.reg_ops.specs.Parts.{seen, seen_all};
ghost use Rattle.reg_ops.specs.Table.{code_of};
ghost use Rattle.reg_wire.specs.Fields.{entity_text, field_bytes, key_bytes, text_bytes};
ghost use Rattle.reg_wire.specs.Fields.{moment_bytes};
ghost use Rattle.reg_wire.specs.Fields.{number_bytes, optional_moment_bytes, set_op_bytes};
ghost use Rattle.reg_wire.specs.Fields.{inherit_kind_bytes, scope_bytes, privilege_bytes};
ghost use Rattle.reg_wire.specs.Fields.{owners_code, owners_bytes, flag_bytes, def_kind_bytes};
ghost use Rattle.reg_wire.specs.Fields.{int_bytes, value_bytes, list_bytes, load_row_bytes};
ghost use Rattle.reg_wire.specs.Payload.{fields_bytes, command_bytes};
ghost use Rattle.reg_wire.specs.Payload.{payload, IsWritable, AreFew};

use crate::fields::{
    COMPLEMENT, DEFINITION, FOLDER, GROUP, INT_VALUE, INTEGERS, INTERSECTION, KEY, MARKERS, NO_KEY,
    ONE, SUB, TEXT_VALUE, TEXTS, TIMESTAMPS, UNION,
};
use reg_base::{Entity, Moment, Name, Privilege, Text};
use reg_ops::{FieldRef, command_row, fields_of, kind_of, law_commands};
use reg_terms::{
    Command, DefKind, InheritKind, LoadRow, LoadRows, Names, Owners, Scope, SetOp, Stamped, Value,
    privilege_code,
};
use std::alloc::{AllocError, Global};

/// Puts a text, behind its length.
fn put_text(out: &mut Vec<u8>, text: &[u8]) -> Result<(), AllocError>
    requires { length text.now < 2 ^ 16 }
    ensures { OnOk result (out.new.items ≡ out.old.items ++ text_bytes text.now) }
{
    out.extend_from_slice(&(text.len() as u16).to_le_bytes())?;
    out.extend_from_slice(text)
}

/// Puts the text that names a group.
#[tactic(auto, using(crate::proofs::Texts::name_short))]
fn put_group(out: &mut Vec<u8>, name: &Name) -> Result<(), AllocError>
    ensures { OnOk result (out.new.items
        ≡ out.old.items ++ text_bytes (codes "g:gsa/" ++ name.now)) }
{
    let name = name.bytes();
    out.extend_from_slice(&((6 + name.len()) as u16).to_le_bytes())?;
    out.extend_from_slice(b"g:gsa/")?;
    out.extend_from_slice(name)
}

/// Puts the text that names an entity.
#[tactic(auto, using(crate::proofs::Texts::person_short))]
fn put_entity(out: &mut Vec<u8>, entity: &Entity) -> Result<(), AllocError>
    requires { is_entity entity.now ≡ true }
    ensures { OnOk result (out.new.items ≡ out.old.items ++ text_bytes (entity_text entity.now)) }
{
    match entity {
        Entity::Person(text) => put_text(out, text.bytes()),
        Entity::Group(name) => put_group(out, name),
        Entity::System => put_text(out, b"g:isa/GrouperSystem"),
        Entity::Everyone => put_text(out, b"g:isa/GrouperAll"),
    }
}

/// Puts a moment, the least byte first.
fn put_moment(out: &mut Vec<u8>, moment: Moment) -> Result<(), AllocError>
    ensures { OnOk result (out.new.items ≡ out.old.items ++ moment_bytes moment) }
{
    out.extend_from_slice(&moment.micros().to_le_bytes())
}

/// Puts a number, the least byte first.
fn put_number(out: &mut Vec<u8>, number: u64) -> Result<(), AllocError>
    ensures { OnOk result (out.new.items ≡ out.old.items ++ number_bytes number) }
{
    out.extend_from_slice(&number.to_le_bytes())
}

/// Puts a moment that may be left out.
fn put_optional_moment(out: &mut Vec<u8>, moment: Option<Moment>) -> Result<(), AllocError>
    ensures { OnOk result (out.new.items ≡ out.old.items ++ optional_moment_bytes moment) }
{
    match moment {
        None => {
            out.push(0)?;
            Ok(())
        }
        Some(moment) => {
            out.push(1)?;
            put_moment(out, moment)
        }
    }
}

/// Puts the key that a command was given under, if there was one.
#[tactic(auto, using(crate::proofs::Texts::extension_short))]
fn put_key(out: &mut Vec<u8>, key: &Option<Text>) -> Result<(), AllocError>
    requires { key_fits true key.now ≡ true }
    ensures { OnOk result (out.new.items ≡ out.old.items ++ key_bytes key.now) }
{
    match key {
        None => {
            out.push(NO_KEY)?;
            Ok(())
        }
        Some(key) => {
            out.push(KEY)?;
            put_text(out, key.bytes())
        }
    }
}

/// Puts the kind of a composite.
fn put_set_op(out: &mut Vec<u8>, kind: SetOp) -> Result<(), AllocError>
    ensures { OnOk result (out.new.items ≡ out.old.items ++ set_op_bytes kind) }
{
    out.push(match kind {
        SetOp::Intersection => INTERSECTION,
        SetOp::Complement => COMPLEMENT,
        SetOp::Union => UNION,
    })?;
    Ok(())
}

/// Puts the kind of objects that an inherit is for.
fn put_inherit_kind(out: &mut Vec<u8>, kind: InheritKind) -> Result<(), AllocError>
    ensures { OnOk result (out.new.items ≡ out.old.items ++ inherit_kind_bytes kind) }
{
    out.push(match kind {
        InheritKind::Folder => FOLDER,
        InheritKind::Group => GROUP,
        InheritKind::Definition => DEFINITION,
    })?;
    Ok(())
}

/// Puts how far an inherit reaches.
fn put_scope(out: &mut Vec<u8>, scope: Scope) -> Result<(), AllocError>
    ensures { OnOk result (out.new.items ≡ out.old.items ++ scope_bytes scope) }
{
    out.push(match scope {
        Scope::One => ONE,
        Scope::Sub => SUB,
    })?;
    Ok(())
}

/// Puts a privilege, as its code.
fn put_privilege(out: &mut Vec<u8>, privilege: Privilege) -> Result<(), AllocError>
    ensures { OnOk result (out.new.items ≡ out.old.items ++ privilege_bytes privilege) }
{
    out.push(privilege_code(privilege))?;
    Ok(())
}

/// The code of kinds of owner.
fn owners_code(owners: Owners) -> u8
    ensures { result ≡ owners_code owners }
{
    u8::from(owners.folder) + 2 * u8::from(owners.group) + 4 * u8::from(owners.subject)
}

/// Puts the kinds of owner that a definition suits.
fn put_owners(out: &mut Vec<u8>, owners: Owners) -> Result<(), AllocError>
    ensures { OnOk result (out.new.items ≡ out.old.items ++ owners_bytes owners) }
{
    out.push(owners_code(owners))?;
    Ok(())
}

/// Puts whether something holds.
fn put_flag(out: &mut Vec<u8>, flag: bool) -> Result<(), AllocError>
    ensures { OnOk result (out.new.items ≡ out.old.items ++ flag_bytes flag) }
{
    out.push(u8::from(flag))?;
    Ok(())
}

/// Puts the kind of a definition's values.
fn put_def_kind(out: &mut Vec<u8>, kind: DefKind) -> Result<(), AllocError>
    ensures { OnOk result (out.new.items ≡ out.old.items ++ def_kind_bytes kind) }
{
    out.push(match kind {
        DefKind::Marker => MARKERS,
        DefKind::Integer => INTEGERS,
        DefKind::Text => TEXTS,
        DefKind::Timestamp => TIMESTAMPS,
    })?;
    Ok(())
}

/// Puts a whole number and its sign, the least byte first.
fn put_int(out: &mut Vec<u8>, number: i64) -> Result<(), AllocError>
    ensures { OnOk result (out.new.items ≡ out.old.items ++ int_bytes number) }
{
    out.extend_from_slice(&number.to_le_bytes())
}

/// Puts a value of an assignment.
#[tactic(auto, using(crate::proofs::Texts::display_short))]
fn put_value(out: &mut Vec<u8>, value: &Value) -> Result<(), AllocError>
    requires { is_value value.now ≡ true }
    ensures { OnOk result (out.new.items ≡ out.old.items ++ value_bytes value.now) }
{
    match value {
        Value::Int(number) => {
            out.push(INT_VALUE)?;
            put_int(out, *number)
        }
        Value::Text(text) => {
            out.push(TEXT_VALUE)?;
            put_text(out, text.bytes())
        }
    }
}

/// Puts how many items a list has.
fn put_count(out: &mut Vec<u8>, count: usize) -> Result<(), AllocError>
    requires { count < 2 ^ 32 }
    ensures { OnOk result (out.new.items ≡ out.old.items ++ to_le_bytes w32 count) }
{
    out.extend_from_slice(&(count as u32).to_le_bytes())
}

/// Puts names, one behind the other.
#[tactic(auto, using(crate::proofs::Texts::name_short))]
fn put_each_name(out: &mut Vec<u8>, names: &[Name]) -> Result<(), AllocError>
    ensures { OnOk result (out.new.items ≡ out.old.items ++ flat_map text_bytes names.now) }
{
    for name in names {
        put_text(out, name.bytes())?;
    }
    Ok(())
}

/// Puts a list of names, behind their count.
fn put_names(out: &mut Vec<u8>, names: &Names) -> Result<(), AllocError>
    requires { are_names names.now ≡ true }
    ensures { OnOk result (out.new.items ≡ out.old.items ++ list_bytes text_bytes names.now) }
{
    let names = names.list();
    put_count(out, names.len())?;
    put_each_name(out, names)
}

/// Puts a row of a load.
#[tactic(auto, using(crate::proofs::Texts::name_short, crate::proofs::Texts::person_short))]
fn put_load_row(out: &mut Vec<u8>, row: &LoadRow) -> Result<(), AllocError>
    requires { is_load_row row.now ≡ true }
    ensures { OnOk result (out.new.items ≡ out.old.items ++ load_row_bytes row.now) }
{
    put_text(out, row.group.bytes())?;
    put_text(out, row.person.bytes())
}

/// Puts rows of a load, one behind the other.
fn put_each_row(out: &mut Vec<u8>, rows: &[LoadRow]) -> Result<(), AllocError>
    requires { list_all is_load_row rows.now ≡ true }
    ensures { OnOk result (out.new.items ≡ out.old.items ++ flat_map load_row_bytes rows.now) }
{
    for row in rows {
        put_load_row(out, row)?;
    }
    Ok(())
}

/// Puts a list of rows of a load, behind their count.
fn put_load_rows(out: &mut Vec<u8>, rows: &LoadRows) -> Result<(), AllocError>
    requires { are_load_rows rows.now ≡ true }
    ensures { OnOk result (out.new.items ≡ out.old.items ++ list_bytes load_row_bytes rows.now) }
{
    let rows = rows.list();
    put_count(out, rows.len())?;
    put_each_row(out, rows)
}

/// Puts a field of a command.
#[tactic(auto, using(crate::proofs::Texts::name_short, crate::proofs::Texts::folder_short, crate::proofs::Texts::extension_short, crate::proofs::Texts::source_short, crate::proofs::Texts::display_short, crate::proofs::Objects::object_short))]
fn put_field(out: &mut Vec<u8>, field: &FieldRef<'_>) -> Result<(), AllocError>
    requires { list_all is_field (seen field.now) ≡ true }
    ensures { OnOk result (out.new.items ≡ out.old.items ++ flat_map field_bytes (seen field.now)) }
{
    match field {
        FieldRef::Nothing => Ok(()),
        FieldRef::Name(name) => put_text(out, name.bytes()),
        FieldRef::Folder(text)
        | FieldRef::Extension(text)
        | FieldRef::Source(text)
        | FieldRef::Display(text) => put_text(out, text.bytes()),
        FieldRef::Entity(entity) => put_entity(out, entity),
        FieldRef::Object(text) => put_text(out, text.bytes()),
        FieldRef::OptionalMoment(moment) => put_optional_moment(out, *moment),
        FieldRef::SetOp(kind) => put_set_op(out, *kind),
        FieldRef::InheritKind(kind) => put_inherit_kind(out, *kind),
        FieldRef::Scope(scope) => put_scope(out, *scope),
        FieldRef::Privilege(privilege) => put_privilege(out, *privilege),
        FieldRef::Owners(owners) => put_owners(out, *owners),
        FieldRef::Flag(flag) => put_flag(out, *flag),
        FieldRef::DefKind(kind) => put_def_kind(out, *kind),
        FieldRef::Value(value) => put_value(out, value),
        FieldRef::Number { value, .. } => put_number(out, *value),
        FieldRef::Names(names) => put_names(out, names),
        FieldRef::LoadRows(rows) => put_load_rows(out, rows),
    }
}

/// Puts fields of a command, one behind the other.
#[tactic(auto, using(crate::proofs::Lists::seen_bytes, crate::proofs::Lists::seen_fit))]
fn put_fields(out: &mut Vec<u8>, fields: &[FieldRef<'_>]) -> Result<(), AllocError>
    requires { list_all is_field (seen_all fields.now) ≡ true }
    ensures { OnOk result (out.new.items
        ≡ out.old.items ++ flat_map field_bytes (seen_all fields.now)) }
{
    match fields {
        [] => Ok(()),
        [field, rest @ ..] => {
            put_field(out, field)?;
            put_fields(out, rest)
        }
    }
}

/// The code of a command's op.
pub(crate) fn code_of(command: &Command) -> u8
    ensures { result ≡ code_of command.now }
{
    command_row(kind_of(command)).code
}

/// Puts a command's fields.
#[tactic(auto, unfolding(reg_ops::specs::Forms::has_form, crate::specs::Payload::fields_bytes))]
fn put_fields_of(out: &mut Vec<u8>, command: &Command) -> Result<(), AllocError>
    requires { has_form command.now ≡ true }
    ensures { OnOk result (out.new.items ≡ out.old.items ++ fields_bytes command.now) }
{
    let fields = fields_of(command);
    put_fields(out, &fields)
}

/// Puts a command: its op's code and its fields.
#[tactic(auto, unfolding(crate::specs::Payload::command_bytes))]
fn put_command(out: &mut Vec<u8>, command: &Command) -> Result<(), AllocError>
    requires { has_form command.now ≡ true }
    ensures { OnOk result (out.new.items ≡ out.old.items ++ command_bytes command.now) }
{
    out.push(code_of(command))?;
    put_fields_of(out, command)
}

/// The payload of a stamped command, before its length is told.
#[tactic(auto, using(crate::proofs::Keys::writable_key), unfolding(crate::specs::Payload::payload))]
fn payload(alloc: Global, stamped: &Stamped) -> Result<Vec<u8>, AllocError>
    requires { IsWritable stamped.now }
    ensures { IfOk result (λ v. v.items ≡ payload stamped.now) }
{
    let mut out = Vec::new(alloc);
    put_moment(&mut out, stamped.at)?;
    put_entity(&mut out, &stamped.by)?;
    put_key(&mut out, &stamped.key)?;
    put_command(&mut out, &stamped.command)?;
    Ok(out)
}

/// The payload of a stamped command in format 2; `is_writable` says which have one. It is shorter
/// than 2^32 bytes where no load in it lists more than may stand. The only error is out of memory.
#[tactic(auto, using(crate::proofs::Payloads::payload_short))]
pub fn encode(alloc: Global, stamped: &Stamped) -> Result<Vec<u8>, AllocError>
    requires { IsWritable stamped.now }
    ensures value { IfOk result (λ v. v.items ≡ payload stamped.now) }
    ensures short { IfOk result (λ v. AreFew stamped.now.command → length v.items < 2 ^ 32) }
{
    law_commands();
    payload(alloc, stamped)
}

/// The bytes of a command: its op's code and its fields. Equal commands have equal bytes, and other
/// commands others. The only error is out of memory.
pub fn command_bytes(alloc: Global, command: &Command) -> Result<Vec<u8>, AllocError>
    requires { has_form command.now ≡ true }
    ensures { IfOk result (λ v. v.items ≡ command_bytes command.now) }
{
    let mut out = Vec::new(alloc);
    put_command(&mut out, command)?;
    Ok(out)
}
