// The table of ops: each with its word, its code and its fields.
ghost use Rattle.std.specs.Prelude.{◌≡◌, map};
ghost use Rattle.reg_ops.specs.Table.{command_row, query_row, load_row, row_of, field_kinds};
ghost use Rattle.reg_ops.specs.Table.{commands, queries, coded, command_named, query_named};
ghost use Rattle.reg_ops.specs.Table.{kind_named};

use crate::field::FieldKind;

/// Which command.
#[derive(Clone, Copy)]
pub enum CommandKind {
    FolderAdd,
    FolderRename,
    FolderMove,
    FolderDelete,
    SubjectAdd,
    GroupAdd,
    GroupRename,
    GroupMove,
    GroupDelete,
    MemberAdd,
    MemberRemove,
    MemberWindow,
    CompositeSet,
    CompositeClear,
    GrantAdd,
    GrantRemove,
    InheritAdd,
    InheritRemove,
    AttrdefAdd,
    AttrdefDelete,
    AttrAdd,
    AttrDelete,
    AssignAdd,
    AssignRemove,
    ValueAdd,
    ValueRemove,
    RuleRemoveLost,
    RuleEndLost,
    RuleVeto,
    RuleOnCreate,
    RuleDelete,
    JobSimple,
    JobList,
    JobDelete,
    Load,
    ConsumerAdd,
    ConsumerAck,
}

/// Which query.
#[derive(Clone, Copy)]
pub enum QueryKind {
    GroupGet,
    FolderList,
    Members,
    Rows,
    Groups,
    Grants,
    May,
    Attributes,
    History,
    Log,
    Admin,
}

/// Which command, query or load.
#[derive(Clone, Copy)]
pub enum OpKind {
    Command(CommandKind),
    Query(QueryKind),
    /// A load as a request brings it, with its table.
    Load,
}

/// An op's word in a request, and its fields in order, each with its key.
#[derive(Clone, Copy)]
pub struct Row {
    pub word: &'static str,
    pub fields: &'static [(&'static str, FieldKind)],
}

/// A command's code in a payload, and its row.
#[derive(Clone, Copy)]
pub struct CommandRow {
    pub code: u8,
    pub op: Row,
}

/// Every command.
const COMMANDS: [CommandKind; 37] = [
    CommandKind::FolderAdd,
    CommandKind::FolderRename,
    CommandKind::FolderMove,
    CommandKind::FolderDelete,
    CommandKind::SubjectAdd,
    CommandKind::GroupAdd,
    CommandKind::GroupRename,
    CommandKind::GroupMove,
    CommandKind::GroupDelete,
    CommandKind::MemberAdd,
    CommandKind::MemberRemove,
    CommandKind::MemberWindow,
    CommandKind::CompositeSet,
    CommandKind::CompositeClear,
    CommandKind::GrantAdd,
    CommandKind::GrantRemove,
    CommandKind::InheritAdd,
    CommandKind::InheritRemove,
    CommandKind::AttrdefAdd,
    CommandKind::AttrdefDelete,
    CommandKind::AttrAdd,
    CommandKind::AttrDelete,
    CommandKind::AssignAdd,
    CommandKind::AssignRemove,
    CommandKind::ValueAdd,
    CommandKind::ValueRemove,
    CommandKind::RuleRemoveLost,
    CommandKind::RuleEndLost,
    CommandKind::RuleVeto,
    CommandKind::RuleOnCreate,
    CommandKind::RuleDelete,
    CommandKind::JobSimple,
    CommandKind::JobList,
    CommandKind::JobDelete,
    CommandKind::Load,
    CommandKind::ConsumerAdd,
    CommandKind::ConsumerAck,
];

/// Every query.
const QUERIES: [QueryKind; 11] = [
    QueryKind::GroupGet,
    QueryKind::FolderList,
    QueryKind::Members,
    QueryKind::Rows,
    QueryKind::Groups,
    QueryKind::Grants,
    QueryKind::May,
    QueryKind::Attributes,
    QueryKind::History,
    QueryKind::Log,
    QueryKind::Admin,
];

/// An op's row by its word and fields.
fn op(word: &'static str, fields: &'static [(&'static str, FieldKind)]) -> Row
    ensures word { result.word ≡ word.entry }
    ensures fields { result.fields ≡ fields.entry }
{
    Row { word, fields }
}

/// A command's row by its code, word and fields.
fn command(code: u8, word: &'static str, fields: &'static [(&'static str, FieldKind)]) -> CommandRow
    ensures code { result.code ≡ code }
    ensures word { result.op.word ≡ word.entry }
    ensures fields { result.op.fields ≡ fields.entry }
{
    CommandRow {
        code,
        op: op(word, fields),
    }
}

/// A command's row. Its code is in no other row.
pub fn command_row(kind: CommandKind) -> CommandRow
    ensures code { result.code ≡ (command_row kind).code }
    ensures word { result.op.word.now ≡ (command_row kind).op.word }
    ensures fields { map (λ f. (f.0.now, f.1)) result.op.fields.now ≡ (command_row kind).op.fields }
    ensures kinds { map (λ f. f.1) result.op.fields.now ≡ field_kinds (command_row kind).op }
{
    match kind {
        CommandKind::FolderAdd => command(
            1,
            "folder.add",
            &[("folder", FieldKind::Name), ("display", FieldKind::Display)],
        ),
        CommandKind::FolderRename => command(
            2,
            "folder.rename",
            &[
                ("folder", FieldKind::Folder),
                ("extension", FieldKind::Extension),
            ],
        ),
        CommandKind::FolderMove => command(
            3,
            "folder.move",
            &[("folder", FieldKind::Folder), ("to", FieldKind::Folder)],
        ),
        CommandKind::FolderDelete => command(4, "folder.delete", &[("folder", FieldKind::Folder)]),
        CommandKind::SubjectAdd => command(
            5,
            "subject.add",
            &[
                ("subject", FieldKind::Entity),
                ("display", FieldKind::Display),
            ],
        ),
        CommandKind::GroupAdd => command(
            6,
            "group.add",
            &[("group", FieldKind::Name), ("display", FieldKind::Display)],
        ),
        CommandKind::GroupRename => command(
            7,
            "group.rename",
            &[
                ("group", FieldKind::Name),
                ("extension", FieldKind::Extension),
            ],
        ),
        CommandKind::GroupMove => command(
            8,
            "group.move",
            &[("group", FieldKind::Name), ("to", FieldKind::Folder)],
        ),
        CommandKind::GroupDelete => command(9, "group.delete", &[("group", FieldKind::Name)]),
        CommandKind::MemberAdd => command(
            10,
            "member.add",
            &[
                ("group", FieldKind::Name),
                ("member", FieldKind::Entity),
                ("from", FieldKind::OptionalMoment),
                ("until", FieldKind::OptionalMoment),
            ],
        ),
        CommandKind::MemberRemove => command(
            11,
            "member.remove",
            &[("group", FieldKind::Name), ("member", FieldKind::Entity)],
        ),
        CommandKind::MemberWindow => command(
            12,
            "member.window",
            &[
                ("group", FieldKind::Name),
                ("member", FieldKind::Entity),
                ("from", FieldKind::OptionalMoment),
                ("until", FieldKind::OptionalMoment),
            ],
        ),
        CommandKind::CompositeSet => command(
            13,
            "composite.set",
            &[
                ("group", FieldKind::Name),
                ("kind", FieldKind::SetOp),
                ("left", FieldKind::Name),
                ("right", FieldKind::Name),
            ],
        ),
        CommandKind::CompositeClear => command(
            14,
            "composite.clear",
            &[("group", FieldKind::Name)],
        ),
        CommandKind::GrantAdd => command(
            15,
            "grant.add",
            &[
                ("object", FieldKind::Object),
                ("privilege", FieldKind::Privilege),
                ("holder", FieldKind::Entity),
                ("from", FieldKind::OptionalMoment),
                ("until", FieldKind::OptionalMoment),
            ],
        ),
        CommandKind::GrantRemove => command(
            16,
            "grant.remove",
            &[
                ("object", FieldKind::Object),
                ("privilege", FieldKind::Privilege),
                ("holder", FieldKind::Entity),
            ],
        ),
        CommandKind::InheritAdd => command(
            17,
            "inherit.add",
            &[
                ("folder", FieldKind::Folder),
                ("kind", FieldKind::InheritKind),
                ("scope", FieldKind::Scope),
                ("privilege", FieldKind::Privilege),
                ("holder", FieldKind::Entity),
            ],
        ),
        CommandKind::InheritRemove => command(
            18,
            "inherit.remove",
            &[
                ("folder", FieldKind::Folder),
                ("kind", FieldKind::InheritKind),
                ("scope", FieldKind::Scope),
                ("privilege", FieldKind::Privilege),
                ("holder", FieldKind::Entity),
            ],
        ),
        CommandKind::AttrdefAdd => command(
            19,
            "attrdef.add",
            &[
                ("definition", FieldKind::Name),
                ("owners", FieldKind::Owners),
                ("several", FieldKind::Flag),
                ("kind", FieldKind::DefKind),
                ("many", FieldKind::Flag),
            ],
        ),
        CommandKind::AttrdefDelete => command(
            20,
            "attrdef.delete",
            &[("definition", FieldKind::Name)],
        ),
        CommandKind::AttrAdd => command(
            21,
            "attr.add",
            &[
                ("attribute", FieldKind::Name),
                ("definition", FieldKind::Name),
            ],
        ),
        CommandKind::AttrDelete => command(22, "attr.delete", &[("attribute", FieldKind::Name)]),
        CommandKind::AssignAdd => command(
            23,
            "assign.add",
            &[
                ("attribute", FieldKind::Name),
                ("object", FieldKind::Object),
            ],
        ),
        CommandKind::AssignRemove => command(
            24,
            "assign.remove",
            &[
                ("attribute", FieldKind::Name),
                ("object", FieldKind::Object),
                (
                    "id",
                    FieldKind::Number {
                        least: 0,
                        most: u64::MAX,
                    },
                ),
            ],
        ),
        CommandKind::ValueAdd => command(
            25,
            "value.add",
            &[
                ("attribute", FieldKind::Name),
                ("object", FieldKind::Object),
                (
                    "id",
                    FieldKind::Number {
                        least: 0,
                        most: u64::MAX,
                    },
                ),
                ("value", FieldKind::Value),
            ],
        ),
        CommandKind::ValueRemove => command(
            26,
            "value.remove",
            &[
                ("attribute", FieldKind::Name),
                ("object", FieldKind::Object),
                (
                    "id",
                    FieldKind::Number {
                        least: 0,
                        most: u64::MAX,
                    },
                ),
                ("value", FieldKind::Value),
            ],
        ),
        CommandKind::RuleRemoveLost => command(
            27,
            "rule.remove_lost",
            &[("check", FieldKind::Name), ("owner", FieldKind::Name)],
        ),
        CommandKind::RuleEndLost => command(
            28,
            "rule.end_lost",
            &[
                ("check", FieldKind::Name),
                ("owner", FieldKind::Name),
                (
                    "days",
                    FieldKind::Number {
                        least: 1,
                        most: 3_650,
                    },
                ),
            ],
        ),
        CommandKind::RuleVeto => command(
            29,
            "rule.veto",
            &[("owner", FieldKind::Name), ("condition", FieldKind::Name)],
        ),
        CommandKind::RuleOnCreate => command(
            30,
            "rule.on_create",
            &[
                ("folder", FieldKind::Folder),
                ("scope", FieldKind::Scope),
                ("privilege", FieldKind::Privilege),
                ("holder", FieldKind::Entity),
            ],
        ),
        CommandKind::RuleDelete => command(
            31,
            "rule.delete",
            &[(
                "id",
                FieldKind::Number {
                    least: 0,
                    most: u64::MAX,
                },
            )],
        ),
        CommandKind::JobSimple => command(
            32,
            "job.simple",
            &[
                ("job", FieldKind::Extension),
                ("group", FieldKind::Name),
                ("source", FieldKind::Source),
                (
                    "min_size",
                    FieldKind::Number {
                        least: 0,
                        most: 4_294_967_295,
                    },
                ),
                (
                    "max_percent",
                    FieldKind::Number {
                        least: 0,
                        most: 100,
                    },
                ),
            ],
        ),
        CommandKind::JobList => command(
            33,
            "job.list",
            &[
                ("job", FieldKind::Extension),
                ("folder", FieldKind::Folder),
                ("source", FieldKind::Source),
                (
                    "min_size",
                    FieldKind::Number {
                        least: 0,
                        most: 4_294_967_295,
                    },
                ),
                (
                    "max_percent",
                    FieldKind::Number {
                        least: 0,
                        most: 100,
                    },
                ),
            ],
        ),
        CommandKind::JobDelete => command(34, "job.delete", &[("job", FieldKind::Extension)]),
        CommandKind::Load => command(
            35,
            "load",
            &[
                ("job", FieldKind::Extension),
                ("created", FieldKind::Names),
                ("removed", FieldKind::LoadRows),
                ("added", FieldKind::LoadRows),
            ],
        ),
        CommandKind::ConsumerAdd => command(
            36,
            "consumer.add",
            &[("consumer", FieldKind::Extension)],
        ),
        CommandKind::ConsumerAck => command(
            37,
            "consumer.ack",
            &[
                ("consumer", FieldKind::Extension),
                (
                    "seq",
                    FieldKind::Number {
                        least: 0,
                        most: u64::MAX,
                    },
                ),
            ],
        ),
    }
}

/// A query's row.
pub fn query_row(kind: QueryKind) -> Row
    ensures word { result.word.now ≡ (query_row kind).word }
    ensures fields { map (λ f. (f.0.now, f.1)) result.fields.now ≡ (query_row kind).fields }
    ensures kinds { map (λ f. f.1) result.fields.now ≡ field_kinds (query_row kind) }
{
    match kind {
        QueryKind::GroupGet => op("group.get", &[("group", FieldKind::Name)]),
        QueryKind::FolderList => op("folder.list", &[("folder", FieldKind::Folder)]),
        QueryKind::Members => op(
            "members",
            &[
                ("group", FieldKind::Name),
                ("at", FieldKind::OptionalMoment),
            ],
        ),
        QueryKind::Rows => op("rows", &[("group", FieldKind::Name)]),
        QueryKind::Groups => op(
            "groups",
            &[
                ("subject", FieldKind::Entity),
                ("at", FieldKind::OptionalMoment),
            ],
        ),
        QueryKind::Grants => op(
            "grants",
            &[
                ("object", FieldKind::Object),
                ("at", FieldKind::OptionalMoment),
            ],
        ),
        QueryKind::May => op(
            "may",
            &[
                ("object", FieldKind::Object),
                ("entity", FieldKind::Entity),
                ("at", FieldKind::OptionalMoment),
            ],
        ),
        QueryKind::Attributes => op(
            "attributes",
            &[
                ("object", FieldKind::Object),
                ("at", FieldKind::OptionalMoment),
            ],
        ),
        QueryKind::History => op("history", &[("group", FieldKind::Name)]),
        QueryKind::Log => op(
            "log",
            &[
                ("consumer", FieldKind::Extension),
                (
                    "max",
                    FieldKind::Number {
                        least: 1,
                        most: 1_000,
                    },
                ),
            ],
        ),
        QueryKind::Admin => op("admin", &[]),
    }
}

/// The row of a load as a request brings it.
fn load_row() -> Row
    ensures word { result.word.now ≡ load_row.word }
    ensures fields { map (λ f. (f.0.now, f.1)) result.fields.now ≡ load_row.fields }
    ensures kinds { map (λ f. f.1) result.fields.now ≡ field_kinds load_row }
{
    op(
        "load",
        &[("job", FieldKind::Extension), ("table", FieldKind::Table)],
    )
}

/// An op's row.
pub fn row_of(kind: OpKind) -> Row
    ensures word { result.word.now ≡ (row_of kind).word }
    ensures fields { map (λ f. (f.0.now, f.1)) result.fields.now ≡ (row_of kind).fields }
    ensures kinds { map (λ f. f.1) result.fields.now ≡ field_kinds (row_of kind) }
{
    match kind {
        OpKind::Command(kind) => command_row(kind).op,
        OpKind::Query(kind) => query_row(kind),
        OpKind::Load => load_row(),
    }
}

fn coded(kinds: &[CommandKind], code: u8) -> Option<CommandKind>
    ensures { result ≡ coded kinds.now code }
{
    match kinds {
        [] => None,
        [kind, rest @ ..] => {
            if code == command_row(*kind).code {
                Some(*kind)
            } else {
                coded(rest, code)
            }
        }
    }
}

/// The command with a code.
pub fn command_coded(code: u8) -> Option<CommandKind>
    ensures { result ≡ coded commands code }
{
    coded(&COMMANDS, code)
}

fn command_named(kinds: &[CommandKind], word: &str) -> Option<CommandKind>
    ensures { result ≡ command_named kinds.now word.now }
{
    match kinds {
        [] => None,
        [kind, rest @ ..] => {
            if command_row(*kind).op.word == word {
                Some(*kind)
            } else {
                command_named(rest, word)
            }
        }
    }
}

fn query_named(kinds: &[QueryKind], word: &str) -> Option<QueryKind>
    ensures { result ≡ query_named kinds.now word.now }
{
    match kinds {
        [] => None,
        [kind, rest @ ..] => {
            if query_row(*kind).word == word {
                Some(*kind)
            } else {
                query_named(rest, word)
            }
        }
    }
}

/// The op that a word names: a load brings a table, and no request a command of loads.
#[tactic(auto, unfolding(crate::specs::Table::kind_named))]
pub fn kind_named(word: &str) -> Option<OpKind>
    ensures { result ≡ kind_named word.now }
{
    if load_row().word == word {
        return Some(OpKind::Load);
    }
    match command_named(&COMMANDS, word) {
        Some(kind) => Some(OpKind::Command(kind)),
        None => match query_named(&QUERIES, word) {
            Some(kind) => Some(OpKind::Query(kind)),
            None => None,
        },
    }
}
