// Reading commands, by the kinds of their fields.
ghost use Rattle.std.specs.Prelude.{◌≡◌, map};
ghost use Rattle.reg_wire.specs.Steps.{Gives};
ghost use Rattle.reg_wire.specs.Reading.{field_at, fields_at, command_at, command_of};

use crate::fault::ReadFault;
use crate::fields::{
    byte_at, def_kind_at, display_at, entity_at, extension_at, flag_at, folder_at, inherit_kind_at,
    name_at, object_at, optional_moment_at, owners_at, privilege_at, ranged_at, scope_at,
    set_op_at, source_at, value_at,
};
use crate::load_lists::{load_rows_at, names_at};
use reg_ops::{CommandKind, Field, FieldKind, command_coded, command_row, made_command};
use reg_terms::Command;
use std::alloc::Global;
use std::collections::VecDeque;

fn field_at(alloc: Global, kind: FieldKind, bytes: &[u8]) -> Result<(Field, &[u8]), ReadFault>
    ensures { Gives (λ x. (x.0, x.1.now)) result (field_at kind bytes.now) }
{
    match kind {
        FieldKind::Name => match name_at(alloc, bytes) {
            Ok((name, rest)) => Ok((Field::Name(name), rest)),
            Err(fault) => Err(fault),
        },
        FieldKind::Folder => match folder_at(alloc, bytes) {
            Ok((folder, rest)) => Ok((Field::Folder(folder), rest)),
            Err(fault) => Err(fault),
        },
        FieldKind::Extension => match extension_at(alloc, bytes) {
            Ok((extension, rest)) => Ok((Field::Extension(extension), rest)),
            Err(fault) => Err(fault),
        },
        FieldKind::Source => match source_at(alloc, bytes) {
            Ok((source, rest)) => Ok((Field::Source(source), rest)),
            Err(fault) => Err(fault),
        },
        FieldKind::Display => match display_at(alloc, bytes) {
            Ok((display, rest)) => Ok((Field::Display(display), rest)),
            Err(fault) => Err(fault),
        },
        FieldKind::Entity => match entity_at(alloc, bytes) {
            Ok((entity, rest)) => Ok((Field::Entity(entity), rest)),
            Err(fault) => Err(fault),
        },
        FieldKind::Object => match object_at(alloc, bytes) {
            Ok((object, rest)) => Ok((Field::Object(object), rest)),
            Err(fault) => Err(fault),
        },
        FieldKind::OptionalMoment => match optional_moment_at(bytes) {
            Ok((moment, rest)) => Ok((Field::OptionalMoment(moment), rest)),
            Err(fault) => Err(fault),
        },
        FieldKind::SetOp => match set_op_at(bytes) {
            Ok((kind, rest)) => Ok((Field::SetOp(kind), rest)),
            Err(fault) => Err(fault),
        },
        FieldKind::InheritKind => match inherit_kind_at(bytes) {
            Ok((kind, rest)) => Ok((Field::InheritKind(kind), rest)),
            Err(fault) => Err(fault),
        },
        FieldKind::Scope => match scope_at(bytes) {
            Ok((scope, rest)) => Ok((Field::Scope(scope), rest)),
            Err(fault) => Err(fault),
        },
        FieldKind::Privilege => match privilege_at(bytes) {
            Ok((privilege, rest)) => Ok((Field::Privilege(privilege), rest)),
            Err(fault) => Err(fault),
        },
        FieldKind::Owners => match owners_at(bytes) {
            Ok((owners, rest)) => Ok((Field::Owners(owners), rest)),
            Err(fault) => Err(fault),
        },
        FieldKind::Flag => match flag_at(bytes) {
            Ok((flag, rest)) => Ok((Field::Flag(flag), rest)),
            Err(fault) => Err(fault),
        },
        FieldKind::DefKind => match def_kind_at(bytes) {
            Ok((kind, rest)) => Ok((Field::DefKind(kind), rest)),
            Err(fault) => Err(fault),
        },
        FieldKind::Value => match value_at(alloc, bytes) {
            Ok((value, rest)) => Ok((Field::Value(value), rest)),
            Err(fault) => Err(fault),
        },
        FieldKind::Number { least, most } => match ranged_at(least, most, bytes) {
            Ok((value, rest)) => Ok((Field::Number { value, least, most }, rest)),
            Err(fault) => Err(fault),
        },
        FieldKind::Names => match names_at(alloc, bytes) {
            Ok((names, rest)) => Ok((Field::Names(names), rest)),
            Err(fault) => Err(fault),
        },
        FieldKind::LoadRows => match load_rows_at(alloc, bytes) {
            Ok((rows, rest)) => Ok((Field::LoadRows(rows), rest)),
            Err(fault) => Err(fault),
        },
        // no command has a table
        FieldKind::Table => Err(ReadFault::Malformed),
    }
}

fn fields_at<'a>(
    alloc: Global,
    fields: &[(&'static str, FieldKind)],
    bytes: &'a [u8],
) -> Result<(VecDeque<Field>, &'a [u8]), ReadFault>
    ensures { Gives (λ x. (
      x.0.items,
      x.1.now,
    )) result (fields_at (map (λ f. f.1) fields.now) bytes.now) }
{
    match fields {
        [] => Ok((VecDeque::new(alloc), bytes)),
        [(_, kind), rest @ ..] => {
            let (field, bytes) = field_at(alloc, *kind, bytes)?;
            let (mut others, bytes) = match fields_at(alloc, rest, bytes) {
                Ok(found) => found,
                Err(fault) => {
                    drop(field);
                    return Err(fault);
                }
            };
            match others.push_front(field) {
                Ok(()) => Ok((others, bytes)),
                Err(_) => Err(ReadFault::Memory),
            }
        }
    }
}

#[tactic(auto, unfolding(crate::specs::Reading::command_at))]
fn command_at(alloc: Global, kind: CommandKind, bytes: &[u8]) -> Result<(Command, &[u8]), ReadFault>
    ensures { Gives (λ x. (x.0, x.1.now)) result (command_at kind bytes.now) }
{
    let (fields, rest) = fields_at(alloc, command_row(kind).op.fields, bytes)?;
    match made_command(kind, fields) {
        Some(command) => Ok((command, rest)),
        None => Err(ReadFault::Malformed),
    }
}

/// A command, by its code and the fields behind it.
#[tactic(auto, unfolding(crate::specs::Reading::command_of))]
pub fn command_of(alloc: Global, bytes: &[u8]) -> Result<(Command, &[u8]), ReadFault>
    ensures { Gives (λ x. (x.0, x.1.now)) result (command_of bytes.now) }
{
    let (code, rest) = byte_at(bytes)?;
    match command_coded(code) {
        Some(kind) => command_at(alloc, kind, rest),
        None => Err(ReadFault::Malformed),
    }
}
