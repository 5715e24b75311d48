//! What all crates speak of: commands, the rows that they make, the events that these bring,
//! refusals, requests and replies.
#![tactic(auto)]

mod admin_shown;
mod attr_values;
mod changes_shown;
mod command;
mod entry_kinds;
mod event;
mod keys;
mod kinds;
mod limits;
mod lists;
mod many_values;
mod privileges;
mod query;
mod refusal;
mod reply;
mod request;
mod row_lists;
mod rows;
mod rules;
mod shown;
mod texts;
mod values;

pub use admin_shown::{
    ConsumerShown, ConsumersShown, FormShown, GoneShown, GonesShown, JobShown, JobsShown,
    RuleShown, RulesShown,
};
pub use attr_values::AttrValues;
pub use changes_shown::{EntriesShown, EntryShown, SpanShown, SpansShown};
pub use command::{Command, Stamped};
pub use entry_kinds::EntryKind;
pub use event::Event;
pub use kinds::{
    AttrValue, DefKind, Holder, InheritKind, Member, Object, Owners, RuleForm, Scope, SetOp, Value,
};
pub use limits::{
    MAX_ASSIGNS, MAX_ATTRIBUTES, MAX_CONSUMERS, MAX_DEFINITIONS, MAX_DISPLAY, MAX_FOLDERS,
    MAX_GRANTS, MAX_GROUPS, MAX_HISTORY, MAX_INHERITS, MAX_JOBS, MAX_LINE, MAX_NAME, MAX_RECORDS,
    MAX_ROWS, MAX_RULES, MAX_SUBJECTS, MAX_VALUES,
};
pub use lists::{LoadRow, LoadRows, Names};
pub use privileges::{
    all_privileges, gives, privilege_code, privilege_coded, privilege_kind, privilege_name,
    privilege_named,
};
pub use query::{Answer, Query};
pub use refusal::Refusal;
pub use reply::{LoadCounts, Reply};
pub use request::{Op, Request};
pub use row_lists::RowLists;
pub use rows::{
    AssignRow, AttributeRow, CompositeRow, ConsumerRow, DefinitionRow, FolderRow, GrantRow,
    GroupRow, InheritRow, JobRow, Made, MemberRow, PersonRow, RuleRow, SubjectRow,
};
pub use rules::RuleKey;
pub use shown::{
    AssignShown, AssignsShown, FactorsShown, GrantShown, GrantsShown, Privileges, RowShown,
    RowsShown,
};
pub use texts::{Pieces, Texts};
