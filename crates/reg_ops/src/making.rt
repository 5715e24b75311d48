// Commands, queries and loads made of fields.
ghost use Rattle.std.specs.Prelude.{◌≡◌};
ghost use Rattle.reg_ops.specs.Parts.{Took, name_in, folder_in, extension_in, source_in};
ghost use Rattle.reg_ops.specs.Parts.{display_in, entity_in, object_in, moment_in, set_op_in};
ghost use Rattle.reg_ops.specs.Parts.{inherit_kind_in, scope_in, privilege_in, owners_in};
ghost use Rattle.reg_ops.specs.Parts.{flag_in, def_kind_in, value_in, number_in, names_in};
ghost use Rattle.reg_ops.specs.Parts.{load_rows_in, table_in, whole};
ghost use Rattle.reg_ops.specs.Table.{made_command, made_query, made};
ghost use Rattle.reg_ops.specs.declared.table.CommandKind.TheVariants as command;
ghost use Rattle.reg_ops.specs.declared.table.QueryKind.TheVariants as query;
ghost use Rattle.reg_ops.specs.declared.table.OpKind.TheVariants as op;

use crate::field::Field;
use crate::table::{CommandKind, OpKind, QueryKind};
use reg_base::{Bytes, Entity, Moment, Name, Privilege, Text};
use reg_terms::{
    Command, DefKind, InheritKind, LoadRows, Names, Op, Owners, Query, Scope, SetOp, Value,
};
use std::collections::VecDeque;

#[tactic(auto, unfolding(crate::specs::Parts::next_as))]
fn name(fields: &mut VecDeque<Field>) -> Option<Name>
    ensures { Took result fields.new.items (name_in fields.old.items) }
{
    fields.pop_front()?.name()
}

#[tactic(auto, unfolding(crate::specs::Parts::next_as))]
fn folder(fields: &mut VecDeque<Field>) -> Option<Text>
    ensures { Took result fields.new.items (folder_in fields.old.items) }
{
    fields.pop_front()?.folder()
}

#[tactic(auto, unfolding(crate::specs::Parts::next_as))]
fn extension(fields: &mut VecDeque<Field>) -> Option<Text>
    ensures { Took result fields.new.items (extension_in fields.old.items) }
{
    fields.pop_front()?.extension()
}

#[tactic(auto, unfolding(crate::specs::Parts::next_as))]
fn source(fields: &mut VecDeque<Field>) -> Option<Text>
    ensures { Took result fields.new.items (source_in fields.old.items) }
{
    fields.pop_front()?.source()
}

#[tactic(auto, unfolding(crate::specs::Parts::next_as))]
fn display(fields: &mut VecDeque<Field>) -> Option<Text>
    ensures { Took result fields.new.items (display_in fields.old.items) }
{
    fields.pop_front()?.display()
}

#[tactic(auto, unfolding(crate::specs::Parts::next_as))]
fn entity(fields: &mut VecDeque<Field>) -> Option<Entity>
    ensures { Took result fields.new.items (entity_in fields.old.items) }
{
    fields.pop_front()?.entity()
}

#[tactic(auto, unfolding(crate::specs::Parts::next_as))]
fn moment(fields: &mut VecDeque<Field>) -> Option<Option<Moment>>
    ensures { Took result fields.new.items (moment_in fields.old.items) }
{
    let field = fields.pop_front()?;
    field.moment()
}

#[tactic(auto, unfolding(crate::specs::Parts::next_as))]
fn set_op(fields: &mut VecDeque<Field>) -> Option<SetOp>
    ensures { Took result fields.new.items (set_op_in fields.old.items) }
{
    let field = fields.pop_front()?;
    field.set_op()
}

#[tactic(auto, unfolding(crate::specs::Parts::next_as))]
fn object(fields: &mut VecDeque<Field>) -> Option<Text>
    ensures { Took result fields.new.items (object_in fields.old.items) }
{
    fields.pop_front()?.object()
}

#[tactic(auto, unfolding(crate::specs::Parts::next_as))]
fn inherit_kind(fields: &mut VecDeque<Field>) -> Option<InheritKind>
    ensures { Took result fields.new.items (inherit_kind_in fields.old.items) }
{
    let field = fields.pop_front()?;
    field.inherit_kind()
}

#[tactic(auto, unfolding(crate::specs::Parts::next_as))]
fn scope(fields: &mut VecDeque<Field>) -> Option<Scope>
    ensures { Took result fields.new.items (scope_in fields.old.items) }
{
    let field = fields.pop_front()?;
    field.scope()
}

#[tactic(auto, unfolding(crate::specs::Parts::next_as))]
fn privilege(fields: &mut VecDeque<Field>) -> Option<Privilege>
    ensures { Took result fields.new.items (privilege_in fields.old.items) }
{
    let field = fields.pop_front()?;
    field.privilege()
}

#[tactic(auto, unfolding(crate::specs::Parts::next_as))]
fn owners(fields: &mut VecDeque<Field>) -> Option<Owners>
    ensures { Took result fields.new.items (owners_in fields.old.items) }
{
    let field = fields.pop_front()?;
    field.owners()
}

#[tactic(auto, unfolding(crate::specs::Parts::next_as))]
fn flag(fields: &mut VecDeque<Field>) -> Option<bool>
    ensures { Took result fields.new.items (flag_in fields.old.items) }
{
    let field = fields.pop_front()?;
    field.flag()
}

#[tactic(auto, unfolding(crate::specs::Parts::next_as))]
fn def_kind(fields: &mut VecDeque<Field>) -> Option<DefKind>
    ensures { Took result fields.new.items (def_kind_in fields.old.items) }
{
    let field = fields.pop_front()?;
    field.def_kind()
}

#[tactic(auto, unfolding(crate::specs::Parts::next_as))]
fn value(fields: &mut VecDeque<Field>) -> Option<Value>
    ensures { Took result fields.new.items (value_in fields.old.items) }
{
    fields.pop_front()?.value()
}

#[tactic(auto, unfolding(crate::specs::Parts::next_as))]
fn number(fields: &mut VecDeque<Field>) -> Option<u64>
    ensures { Took result fields.new.items (number_in fields.old.items) }
{
    let field = fields.pop_front()?;
    field.number()
}

#[tactic(auto, unfolding(crate::specs::Parts::next_as))]
fn names(fields: &mut VecDeque<Field>) -> Option<Names>
    ensures { Took result fields.new.items (names_in fields.old.items) }
{
    fields.pop_front()?.names()
}

#[tactic(auto, unfolding(crate::specs::Parts::next_as))]
fn load_rows(fields: &mut VecDeque<Field>) -> Option<LoadRows>
    ensures { Took result fields.new.items (load_rows_in fields.old.items) }
{
    fields.pop_front()?.load_rows()
}

#[tactic(auto, unfolding(crate::specs::Parts::next_as))]
fn table(fields: &mut VecDeque<Field>) -> Option<Bytes>
    ensures { Took result fields.new.items (table_in fields.old.items) }
{
    fields.pop_front()?.table()
}

fn whole<T: Drop>(op: T, fields: VecDeque<Field>) -> Option<T>
    ensures { result ≡ whole op fields.items }
{
    if fields.is_empty() { Some(op) } else { None }
}

fn folder_add(mut fields: VecDeque<Field>) -> Option<Command>
    ensures { result ≡ made_command command.FolderAdd fields.items }
{
    let command = Command::FolderAdd {
        folder: name(&mut fields)?,
        display: display(&mut fields)?,
    };
    whole(command, fields)
}

fn folder_rename(mut fields: VecDeque<Field>) -> Option<Command>
    ensures { result ≡ made_command command.FolderRename fields.items }
{
    let command = Command::FolderRename {
        folder: folder(&mut fields)?,
        extension: extension(&mut fields)?,
    };
    whole(command, fields)
}

fn folder_move(mut fields: VecDeque<Field>) -> Option<Command>
    ensures { result ≡ made_command command.FolderMove fields.items }
{
    let command = Command::FolderMove {
        folder: folder(&mut fields)?,
        to: folder(&mut fields)?,
    };
    whole(command, fields)
}

fn folder_delete(mut fields: VecDeque<Field>) -> Option<Command>
    ensures { result ≡ made_command command.FolderDelete fields.items }
{
    let command = Command::FolderDelete {
        folder: folder(&mut fields)?,
    };
    whole(command, fields)
}

fn subject_add(mut fields: VecDeque<Field>) -> Option<Command>
    ensures { result ≡ made_command command.SubjectAdd fields.items }
{
    let command = Command::SubjectAdd {
        subject: entity(&mut fields)?,
        display: display(&mut fields)?,
    };
    whole(command, fields)
}

fn group_add(mut fields: VecDeque<Field>) -> Option<Command>
    ensures { result ≡ made_command command.GroupAdd fields.items }
{
    let command = Command::GroupAdd {
        group: name(&mut fields)?,
        display: display(&mut fields)?,
    };
    whole(command, fields)
}

fn group_rename(mut fields: VecDeque<Field>) -> Option<Command>
    ensures { result ≡ made_command command.GroupRename fields.items }
{
    let command = Command::GroupRename {
        group: name(&mut fields)?,
        extension: extension(&mut fields)?,
    };
    whole(command, fields)
}

fn group_move(mut fields: VecDeque<Field>) -> Option<Command>
    ensures { result ≡ made_command command.GroupMove fields.items }
{
    let command = Command::GroupMove {
        group: name(&mut fields)?,
        to: folder(&mut fields)?,
    };
    whole(command, fields)
}

fn group_delete(mut fields: VecDeque<Field>) -> Option<Command>
    ensures { result ≡ made_command command.GroupDelete fields.items }
{
    let command = Command::GroupDelete {
        group: name(&mut fields)?,
    };
    whole(command, fields)
}

fn member_add(mut fields: VecDeque<Field>) -> Option<Command>
    ensures { result ≡ made_command command.MemberAdd fields.items }
{
    let command = Command::MemberAdd {
        group: name(&mut fields)?,
        member: entity(&mut fields)?,
        from: moment(&mut fields)?,
        until: moment(&mut fields)?,
    };
    whole(command, fields)
}

fn member_remove(mut fields: VecDeque<Field>) -> Option<Command>
    ensures { result ≡ made_command command.MemberRemove fields.items }
{
    let command = Command::MemberRemove {
        group: name(&mut fields)?,
        member: entity(&mut fields)?,
    };
    whole(command, fields)
}

fn member_window(mut fields: VecDeque<Field>) -> Option<Command>
    ensures { result ≡ made_command command.MemberWindow fields.items }
{
    let command = Command::MemberWindow {
        group: name(&mut fields)?,
        member: entity(&mut fields)?,
        from: moment(&mut fields)?,
        until: moment(&mut fields)?,
    };
    whole(command, fields)
}

fn composite_set(mut fields: VecDeque<Field>) -> Option<Command>
    ensures { result ≡ made_command command.CompositeSet fields.items }
{
    let command = Command::CompositeSet {
        group: name(&mut fields)?,
        kind: set_op(&mut fields)?,
        left: name(&mut fields)?,
        right: name(&mut fields)?,
    };
    whole(command, fields)
}

fn composite_clear(mut fields: VecDeque<Field>) -> Option<Command>
    ensures { result ≡ made_command command.CompositeClear fields.items }
{
    let command = Command::CompositeClear {
        group: name(&mut fields)?,
    };
    whole(command, fields)
}

fn grant_add(mut fields: VecDeque<Field>) -> Option<Command>
    ensures { result ≡ made_command command.GrantAdd fields.items }
{
    let command = Command::GrantAdd {
        object: object(&mut fields)?,
        privilege: privilege(&mut fields)?,
        holder: entity(&mut fields)?,
        from: moment(&mut fields)?,
        until: moment(&mut fields)?,
    };
    whole(command, fields)
}

fn grant_remove(mut fields: VecDeque<Field>) -> Option<Command>
    ensures { result ≡ made_command command.GrantRemove fields.items }
{
    let command = Command::GrantRemove {
        object: object(&mut fields)?,
        privilege: privilege(&mut fields)?,
        holder: entity(&mut fields)?,
    };
    whole(command, fields)
}

fn inherit_add(mut fields: VecDeque<Field>) -> Option<Command>
    ensures { result ≡ made_command command.InheritAdd fields.items }
{
    let command = Command::InheritAdd {
        folder: folder(&mut fields)?,
        kind: inherit_kind(&mut fields)?,
        scope: scope(&mut fields)?,
        privilege: privilege(&mut fields)?,
        holder: entity(&mut fields)?,
    };
    whole(command, fields)
}

fn inherit_remove(mut fields: VecDeque<Field>) -> Option<Command>
    ensures { result ≡ made_command command.InheritRemove fields.items }
{
    let command = Command::InheritRemove {
        folder: folder(&mut fields)?,
        kind: inherit_kind(&mut fields)?,
        scope: scope(&mut fields)?,
        privilege: privilege(&mut fields)?,
        holder: entity(&mut fields)?,
    };
    whole(command, fields)
}

fn attrdef_add(mut fields: VecDeque<Field>) -> Option<Command>
    ensures { result ≡ made_command command.AttrdefAdd fields.items }
{
    let command = Command::AttrdefAdd {
        definition: name(&mut fields)?,
        owners: owners(&mut fields)?,
        several: flag(&mut fields)?,
        kind: def_kind(&mut fields)?,
        many: flag(&mut fields)?,
    };
    whole(command, fields)
}

fn attrdef_delete(mut fields: VecDeque<Field>) -> Option<Command>
    ensures { result ≡ made_command command.AttrdefDelete fields.items }
{
    let command = Command::AttrdefDelete {
        definition: name(&mut fields)?,
    };
    whole(command, fields)
}

fn attr_add(mut fields: VecDeque<Field>) -> Option<Command>
    ensures { result ≡ made_command command.AttrAdd fields.items }
{
    let command = Command::AttrAdd {
        attribute: name(&mut fields)?,
        definition: name(&mut fields)?,
    };
    whole(command, fields)
}

fn attr_delete(mut fields: VecDeque<Field>) -> Option<Command>
    ensures { result ≡ made_command command.AttrDelete fields.items }
{
    let command = Command::AttrDelete {
        attribute: name(&mut fields)?,
    };
    whole(command, fields)
}

fn assign_add(mut fields: VecDeque<Field>) -> Option<Command>
    ensures { result ≡ made_command command.AssignAdd fields.items }
{
    let command = Command::AssignAdd {
        attribute: name(&mut fields)?,
        object: object(&mut fields)?,
    };
    whole(command, fields)
}

fn assign_remove(mut fields: VecDeque<Field>) -> Option<Command>
    ensures { result ≡ made_command command.AssignRemove fields.items }
{
    let command = Command::AssignRemove {
        attribute: name(&mut fields)?,
        object: object(&mut fields)?,
        id: number(&mut fields)?,
    };
    whole(command, fields)
}

fn value_add(mut fields: VecDeque<Field>) -> Option<Command>
    ensures { result ≡ made_command command.ValueAdd fields.items }
{
    let command = Command::ValueAdd {
        attribute: name(&mut fields)?,
        object: object(&mut fields)?,
        id: number(&mut fields)?,
        value: value(&mut fields)?,
    };
    whole(command, fields)
}

fn value_remove(mut fields: VecDeque<Field>) -> Option<Command>
    ensures { result ≡ made_command command.ValueRemove fields.items }
{
    let command = Command::ValueRemove {
        attribute: name(&mut fields)?,
        object: object(&mut fields)?,
        id: number(&mut fields)?,
        value: value(&mut fields)?,
    };
    whole(command, fields)
}

fn rule_remove_lost(mut fields: VecDeque<Field>) -> Option<Command>
    ensures { result ≡ made_command command.RuleRemoveLost fields.items }
{
    let command = Command::RuleRemoveLost {
        check: name(&mut fields)?,
        owner: name(&mut fields)?,
    };
    whole(command, fields)
}

fn rule_end_lost(mut fields: VecDeque<Field>) -> Option<Command>
    ensures { result ≡ made_command command.RuleEndLost fields.items }
{
    let command = Command::RuleEndLost {
        check: name(&mut fields)?,
        owner: name(&mut fields)?,
        days: number(&mut fields)?,
    };
    whole(command, fields)
}

fn rule_veto(mut fields: VecDeque<Field>) -> Option<Command>
    ensures { result ≡ made_command command.RuleVeto fields.items }
{
    let command = Command::RuleVeto {
        owner: name(&mut fields)?,
        condition: name(&mut fields)?,
    };
    whole(command, fields)
}

fn rule_on_create(mut fields: VecDeque<Field>) -> Option<Command>
    ensures { result ≡ made_command command.RuleOnCreate fields.items }
{
    let command = Command::RuleOnCreate {
        folder: folder(&mut fields)?,
        scope: scope(&mut fields)?,
        privilege: privilege(&mut fields)?,
        holder: entity(&mut fields)?,
    };
    whole(command, fields)
}

fn rule_delete(mut fields: VecDeque<Field>) -> Option<Command>
    ensures { result ≡ made_command command.RuleDelete fields.items }
{
    let command = Command::RuleDelete {
        id: number(&mut fields)?,
    };
    whole(command, fields)
}

fn job_simple(mut fields: VecDeque<Field>) -> Option<Command>
    ensures { result ≡ made_command command.JobSimple fields.items }
{
    let command = Command::JobSimple {
        job: extension(&mut fields)?,
        group: name(&mut fields)?,
        source: source(&mut fields)?,
        min_size: number(&mut fields)?,
        max_percent: number(&mut fields)?,
    };
    whole(command, fields)
}

fn job_list(mut fields: VecDeque<Field>) -> Option<Command>
    ensures { result ≡ made_command command.JobList fields.items }
{
    let command = Command::JobList {
        job: extension(&mut fields)?,
        folder: folder(&mut fields)?,
        source: source(&mut fields)?,
        min_size: number(&mut fields)?,
        max_percent: number(&mut fields)?,
    };
    whole(command, fields)
}

fn job_delete(mut fields: VecDeque<Field>) -> Option<Command>
    ensures { result ≡ made_command command.JobDelete fields.items }
{
    let command = Command::JobDelete {
        job: extension(&mut fields)?,
    };
    whole(command, fields)
}

fn load_command(mut fields: VecDeque<Field>) -> Option<Command>
    ensures { result ≡ made_command command.Load fields.items }
{
    let command = Command::Load {
        job: extension(&mut fields)?,
        created: names(&mut fields)?,
        removed: load_rows(&mut fields)?,
        added: load_rows(&mut fields)?,
    };
    whole(command, fields)
}

fn consumer_add(mut fields: VecDeque<Field>) -> Option<Command>
    ensures { result ≡ made_command command.ConsumerAdd fields.items }
{
    let command = Command::ConsumerAdd {
        consumer: extension(&mut fields)?,
    };
    whole(command, fields)
}

fn consumer_ack(mut fields: VecDeque<Field>) -> Option<Command>
    ensures { result ≡ made_command command.ConsumerAck fields.items }
{
    let command = Command::ConsumerAck {
        consumer: extension(&mut fields)?,
        seq: number(&mut fields)?,
    };
    whole(command, fields)
}

fn group_get(mut fields: VecDeque<Field>) -> Option<Query>
    ensures { result ≡ made_query query.GroupGet fields.items }
{
    let query = Query::GroupGet {
        group: name(&mut fields)?,
    };
    whole(query, fields)
}

fn folder_list(mut fields: VecDeque<Field>) -> Option<Query>
    ensures { result ≡ made_query query.FolderList fields.items }
{
    let query = Query::FolderList {
        folder: folder(&mut fields)?,
    };
    whole(query, fields)
}

fn members(mut fields: VecDeque<Field>) -> Option<Query>
    ensures { result ≡ made_query query.Members fields.items }
{
    let query = Query::Members {
        group: name(&mut fields)?,
        at: moment(&mut fields)?,
    };
    whole(query, fields)
}

fn rows(mut fields: VecDeque<Field>) -> Option<Query>
    ensures { result ≡ made_query query.Rows fields.items }
{
    let query = Query::Rows {
        group: name(&mut fields)?,
    };
    whole(query, fields)
}

fn groups(mut fields: VecDeque<Field>) -> Option<Query>
    ensures { result ≡ made_query query.Groups fields.items }
{
    let query = Query::Groups {
        subject: entity(&mut fields)?,
        at: moment(&mut fields)?,
    };
    whole(query, fields)
}

fn grants(mut fields: VecDeque<Field>) -> Option<Query>
    ensures { result ≡ made_query query.Grants fields.items }
{
    let query = Query::Grants {
        object: object(&mut fields)?,
        at: moment(&mut fields)?,
    };
    whole(query, fields)
}

fn may(mut fields: VecDeque<Field>) -> Option<Query>
    ensures { result ≡ made_query query.May fields.items }
{
    let query = Query::May {
        object: object(&mut fields)?,
        entity: entity(&mut fields)?,
        at: moment(&mut fields)?,
    };
    whole(query, fields)
}

fn attributes(mut fields: VecDeque<Field>) -> Option<Query>
    ensures { result ≡ made_query query.Attributes fields.items }
{
    let query = Query::Attributes {
        object: object(&mut fields)?,
        at: moment(&mut fields)?,
    };
    whole(query, fields)
}

fn history(mut fields: VecDeque<Field>) -> Option<Query>
    ensures { result ≡ made_query query.History fields.items }
{
    let query = Query::History {
        group: name(&mut fields)?,
    };
    whole(query, fields)
}

fn log(mut fields: VecDeque<Field>) -> Option<Query>
    ensures { result ≡ made_query query.Log fields.items }
{
    let query = Query::Log {
        consumer: extension(&mut fields)?,
        max: number(&mut fields)?,
    };
    whole(query, fields)
}

fn admin(fields: VecDeque<Field>) -> Option<Query>
    ensures { result ≡ made_query query.Admin fields.items }
{
    whole(Query::Admin, fields)
}

/// The command that these fields make, if they do.
pub fn made_command(kind: CommandKind, fields: VecDeque<Field>) -> Option<Command>
    ensures { result ≡ made_command kind fields.items }
{
    match kind {
        CommandKind::FolderAdd => folder_add(fields),
        CommandKind::FolderRename => folder_rename(fields),
        CommandKind::FolderMove => folder_move(fields),
        CommandKind::FolderDelete => folder_delete(fields),
        CommandKind::SubjectAdd => subject_add(fields),
        CommandKind::GroupAdd => group_add(fields),
        CommandKind::GroupRename => group_rename(fields),
        CommandKind::GroupMove => group_move(fields),
        CommandKind::GroupDelete => group_delete(fields),
        CommandKind::MemberAdd => member_add(fields),
        CommandKind::MemberRemove => member_remove(fields),
        CommandKind::MemberWindow => member_window(fields),
        CommandKind::CompositeSet => composite_set(fields),
        CommandKind::CompositeClear => composite_clear(fields),
        CommandKind::GrantAdd => grant_add(fields),
        CommandKind::GrantRemove => grant_remove(fields),
        CommandKind::InheritAdd => inherit_add(fields),
        CommandKind::InheritRemove => inherit_remove(fields),
        CommandKind::AttrdefAdd => attrdef_add(fields),
        CommandKind::AttrdefDelete => attrdef_delete(fields),
        CommandKind::AttrAdd => attr_add(fields),
        CommandKind::AttrDelete => attr_delete(fields),
        CommandKind::AssignAdd => assign_add(fields),
        CommandKind::AssignRemove => assign_remove(fields),
        CommandKind::ValueAdd => value_add(fields),
        CommandKind::ValueRemove => value_remove(fields),
        CommandKind::RuleRemoveLost => rule_remove_lost(fields),
        CommandKind::RuleEndLost => rule_end_lost(fields),
        CommandKind::RuleVeto => rule_veto(fields),
        CommandKind::RuleOnCreate => rule_on_create(fields),
        CommandKind::RuleDelete => rule_delete(fields),
        CommandKind::JobSimple => job_simple(fields),
        CommandKind::JobList => job_list(fields),
        CommandKind::JobDelete => job_delete(fields),
        CommandKind::Load => load_command(fields),
        CommandKind::ConsumerAdd => consumer_add(fields),
        CommandKind::ConsumerAck => consumer_ack(fields),
    }
}

fn made_query(kind: QueryKind, fields: VecDeque<Field>) -> Option<Query>
    ensures { result ≡ made_query kind fields.items }
{
    match kind {
        QueryKind::GroupGet => group_get(fields),
        QueryKind::FolderList => folder_list(fields),
        QueryKind::Members => members(fields),
        QueryKind::Rows => rows(fields),
        QueryKind::Groups => groups(fields),
        QueryKind::Grants => grants(fields),
        QueryKind::May => may(fields),
        QueryKind::Attributes => attributes(fields),
        QueryKind::History => history(fields),
        QueryKind::Log => log(fields),
        QueryKind::Admin => admin(fields),
    }
}

/// The load with its table that these fields make, if they do.
fn load(mut fields: VecDeque<Field>) -> Option<Op>
    ensures { result ≡ made op.Load fields.items }
{
    let load = Op::Load {
        job: extension(&mut fields)?,
        table: table(&mut fields)?,
    };
    whole(load, fields)
}

/// The command, query or load that these fields make, if they do.
pub fn made(kind: OpKind, fields: VecDeque<Field>) -> Option<Op>
    ensures { result ≡ made kind fields.items }
{
    match kind {
        OpKind::Command(kind) => match made_command(kind, fields) {
            Some(command) => Some(Op::Command(command)),
            None => None,
        },
        OpKind::Query(kind) => match made_query(kind, fields) {
            Some(query) => Some(Op::Query(query)),
            None => None,
        },
        OpKind::Load => load(fields),
    }
}
