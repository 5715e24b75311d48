// What an object asks, by the kinds of its op's fields.
ghost use Rattle.std.specs.Prelude.{◌≡◌, map};
ghost use Rattle.serde_json.specs.View.{view};
ghost use Rattle.reg_json.specs.Steps.{Gives};
ghost use Rattle.reg_json.specs.Ops.{stands_at, form_at, all_stand, all_forms, stand_alone};
ghost use Rattle.reg_json.specs.Ops.{command_takes_key, kind_takes_key, op_in, asked_in};

use crate::attributes::{def_kind_at, flag_at, owners_at, value_at};
use crate::fault::{ReadFault, bad};
use crate::fields::{
    Carrier, display_at, inherit_kind_at, key_at, no_other, number_at, optional_text_at,
    privilege_at, scope_at, set_op_at, text_at,
};
use crate::forms::{
    entity_from, extension_from, folder_from, key_from, moment_from, name_from, object_from,
    source_from,
};
use reg_base::{Bytes, Text};
use reg_ops::{CommandKind, Field, FieldKind, OpKind, made, row_of};
use reg_terms::Op;
use serde_json::Value;
use std::alloc::Global;
use std::collections::VecDeque;

fn stands_at(alloc: Global, value: &Value, key: &str, kind: FieldKind) -> Result<bool, ReadFault>
    ensures { Gives (λ b. b) result (stands_at kind key.now (view value.now)) }
{
    match kind {
        FieldKind::Name
        | FieldKind::Folder
        | FieldKind::Extension
        | FieldKind::Source
        | FieldKind::Entity
        | FieldKind::Object
        | FieldKind::Table => match text_at(alloc, value, key) {
            Ok(_) => Ok(true),
            Err(fault) => Err(fault),
        },
        // no op that a request asks has such a field
        FieldKind::Names | FieldKind::LoadRows => Err(bad(alloc, key)),
        FieldKind::Display => match display_at(alloc, value, key) {
            Ok(_) => Ok(true),
            Err(fault) => Err(fault),
        },
        FieldKind::OptionalMoment => match optional_text_at(alloc, value, key) {
            Ok(_) => Ok(true),
            Err(fault) => Err(fault),
        },
        FieldKind::SetOp => match set_op_at(alloc, value, key) {
            Ok(_) => Ok(true),
            Err(fault) => Err(fault),
        },
        FieldKind::InheritKind => match inherit_kind_at(alloc, value, key) {
            Ok(_) => Ok(true),
            Err(fault) => Err(fault),
        },
        FieldKind::Scope => match scope_at(alloc, value, key) {
            Ok(_) => Ok(true),
            Err(fault) => Err(fault),
        },
        FieldKind::Privilege => match privilege_at(alloc, value, key) {
            Ok(_) => Ok(true),
            Err(fault) => Err(fault),
        },
        FieldKind::Owners => match owners_at(alloc, value, key) {
            Ok(_) => Ok(true),
            Err(fault) => Err(fault),
        },
        FieldKind::Flag => match flag_at(alloc, value, key) {
            Ok(_) => Ok(true),
            Err(fault) => Err(fault),
        },
        FieldKind::DefKind => match def_kind_at(alloc, value, key) {
            Ok(_) => Ok(true),
            Err(fault) => Err(fault),
        },
        FieldKind::Value => match value_at(alloc, value, key) {
            Ok(_) => Ok(true),
            Err(fault) => Err(fault),
        },
        FieldKind::Number { least, most } => match number_at(alloc, value, key, least, most) {
            Ok(_) => Ok(true),
            Err(fault) => Err(fault),
        },
    }
}

fn form_at(alloc: Global, value: &Value, key: &str, kind: FieldKind) -> Result<Field, ReadFault>
    ensures { Gives (λ f. f) result (form_at kind key.now (view value.now)) }
{
    match kind {
        FieldKind::Name => {
            let text = text_at(alloc, value, key)?;
            let name = name_from(alloc, key, text)?;
            Ok(Field::Name(name))
        }
        FieldKind::Folder => {
            let text = text_at(alloc, value, key)?;
            let folder = folder_from(alloc, key, text)?;
            Ok(Field::Folder(folder))
        }
        FieldKind::Extension => {
            let text = text_at(alloc, value, key)?;
            let extension = extension_from(alloc, key, text)?;
            Ok(Field::Extension(extension))
        }
        FieldKind::Source => {
            let text = text_at(alloc, value, key)?;
            let source = source_from(alloc, key, text)?;
            Ok(Field::Source(source))
        }
        FieldKind::Display => {
            let text = display_at(alloc, value, key)?;
            let text = Text::new(alloc, text)?;
            Ok(Field::Display(text))
        }
        FieldKind::Entity => {
            let text = text_at(alloc, value, key)?;
            let entity = entity_from(alloc, key, text)?;
            Ok(Field::Entity(entity))
        }
        FieldKind::Object => {
            let text = text_at(alloc, value, key)?;
            let object = object_from(alloc, key, text)?;
            Ok(Field::Object(object))
        }
        FieldKind::OptionalMoment => {
            let text = optional_text_at(alloc, value, key)?;
            let moment = moment_from(alloc, key, text)?;
            Ok(Field::OptionalMoment(moment))
        }
        FieldKind::SetOp => match set_op_at(alloc, value, key) {
            Ok(kind) => Ok(Field::SetOp(kind)),
            Err(fault) => Err(fault),
        },
        FieldKind::InheritKind => match inherit_kind_at(alloc, value, key) {
            Ok(kind) => Ok(Field::InheritKind(kind)),
            Err(fault) => Err(fault),
        },
        FieldKind::Scope => match scope_at(alloc, value, key) {
            Ok(scope) => Ok(Field::Scope(scope)),
            Err(fault) => Err(fault),
        },
        FieldKind::Privilege => match privilege_at(alloc, value, key) {
            Ok(privilege) => Ok(Field::Privilege(privilege)),
            Err(fault) => Err(fault),
        },
        FieldKind::Owners => match owners_at(alloc, value, key) {
            Ok(owners) => Ok(Field::Owners(owners)),
            Err(fault) => Err(fault),
        },
        FieldKind::Flag => match flag_at(alloc, value, key) {
            Ok(flag) => Ok(Field::Flag(flag)),
            Err(fault) => Err(fault),
        },
        FieldKind::DefKind => match def_kind_at(alloc, value, key) {
            Ok(kind) => Ok(Field::DefKind(kind)),
            Err(fault) => Err(fault),
        },
        FieldKind::Value => match value_at(alloc, value, key) {
            Ok(given) => Ok(Field::Value(given)),
            Err(fault) => Err(fault),
        },
        FieldKind::Names | FieldKind::LoadRows => Err(bad(alloc, key)),
        FieldKind::Table => {
            let text = text_at(alloc, value, key)?;
            let table = Bytes::of(alloc, text.as_bytes())?;
            Ok(Field::Table(table))
        }
        FieldKind::Number { least, most } => match number_at(alloc, value, key, least, most) {
            Ok(value) => Ok(Field::Number { value, least, most }),
            Err(fault) => Err(fault),
        },
    }
}

fn all_stand(
    alloc: Global,
    value: &Value,
    fields: &[(&'static str, FieldKind)],
) -> Result<bool, ReadFault>
    ensures { Gives (λ b. b) result
        (all_stand (map (λ f. (f.0.now, f.1)) fields.now) (view value.now)) }
{
    match fields {
        [] => Ok(true),
        [(key, kind), rest @ ..] => {
            stands_at(alloc, value, key, *kind)?;
            all_stand(alloc, value, rest)
        }
    }
}

fn all_forms(
    alloc: Global,
    value: &Value,
    fields: &[(&'static str, FieldKind)],
) -> Result<VecDeque<Field>, ReadFault>
    ensures { Gives (λ fs. fs.items) result
        (all_forms (map (λ f. (f.0.now, f.1)) fields.now) (view value.now)) }
{
    match fields {
        [] => Ok(VecDeque::new(alloc)),
        [(key, kind), rest @ ..] => {
            let field = form_at(alloc, value, key, *kind)?;
            let mut others = match all_forms(alloc, value, rest) {
                Ok(others) => others,
                Err(fault) => {
                    drop(field);
                    return Err(fault);
                }
            };
            match others.push_front(field) {
                Ok(()) => Ok(others),
                Err(_) => Err(ReadFault::Memory),
            }
        }
    }
}

/// What an object asks: its key, if it has one, and its op.
#[derive(Drop)]
pub struct Asked {
    pub key: Option<Text>,
    pub op: Op,
}

/// Whether a command of a kind may be given under a key: any may but a load.
fn command_takes_key(kind: CommandKind) -> bool
    ensures { result ≡ command_takes_key kind }
{
    !matches!(kind, CommandKind::Load)
}

/// Whether what a request asks may have a key.
fn kind_takes_key(kind: OpKind) -> bool
    ensures { result ≡ kind_takes_key kind }
{
    match kind {
        OpKind::Command(command) => command_takes_key(command),
        OpKind::Query(_) | OpKind::Load => false,
    }
}

/// These fields stand there, and no other key, but `key` where it may.
#[tactic(auto, unfolding(crate::specs::Ops::stand_alone))]
fn stand_alone(
    alloc: Global,
    carrier: Carrier,
    takes: bool,
    value: &Value,
    fields: &[(&'static str, FieldKind)],
) -> Result<bool, ReadFault>
    ensures { Gives (λ b. b) result
        (stand_alone carrier takes (map (λ f. (f.0.now, f.1)) fields.now) (view value.now)) }
{
    all_stand(alloc, value, fields)?;
    no_other(alloc, carrier, takes, value, fields)
}

/// The op of a kind, whose fields have their forms.
#[tactic(auto, unfolding(crate::specs::Ops::op_in))]
fn op_in(alloc: Global, value: &Value, kind: OpKind) -> Result<Op, ReadFault>
    ensures { Gives (λ o. o) result (op_in kind (view value.now)) }
{
    let fields = all_forms(alloc, value, row_of(kind).fields)?;
    match made(kind, fields) {
        Some(op) => Ok(op),
        // no fields come here that make nothing, since each is of its kind
        None => Err(bad(alloc, "")),
    }
}

/// What an object asks whose op is of a kind, and its key.
#[tactic(auto, unfolding(crate::specs::Ops::asked_in))]
pub fn asked_in(
    alloc: Global,
    carrier: Carrier,
    value: &Value,
    kind: OpKind,
) -> Result<Asked, ReadFault>
    ensures { Gives (λ a. a) result (asked_in carrier kind (view value.now)) }
{
    let takes = kind_takes_key(kind);
    let text = key_at(alloc, value, takes)?;
    stand_alone(alloc, carrier, takes, value, row_of(kind).fields)?;
    let key = key_from(alloc, text)?;
    let op = op_in(alloc, value, kind)?;
    Ok(Asked { key, op })
}
