//! What the registry knows: the facts as lists, the commands that change them, and the refusals.
#![tactic(auto)]

mod accessors;
mod assign_index;
mod assign_map;
mod assign_rows;
mod attribute_rows;
mod attribute_taking;
mod attributes;
mod by_extension;
mod by_id;
mod child_names;
mod children;
mod climbing;
mod consumers;
mod facts;
mod grant_rows;
mod grants;
mod inherit_rows;
mod job_taking;
mod jobs;
mod list_edits;
mod member_rows;
mod members;
mod memberships;
mod naming;
mod nest;
mod numbered;
mod rule_forms;
mod rule_rows;
mod rules;
mod slots;
mod tables;
mod taking;
mod text_index;

pub use by_id::Place;
pub use child_names::{ChildNames, law_by_bytes};
pub use children::Children;
pub use climbing::MOST_LEVELS;
pub use facts::Facts;
pub use grant_rows::GrantRows;
pub use naming::{extension_of, home_of, name_in, name_length};
pub use reg_terms::{
    AssignRow, AttrValue, AttrValues, AttributeRow, Command, CompositeRow, ConsumerRow, DefKind,
    DefinitionRow, Event, FolderRow, GrantRow, GroupRow, Holder, InheritKind, InheritRow, JobRow,
    Made, Member, MemberRow, Object, Owners, Refusal, RuleForm, RuleKey, RuleRow, Scope, SetOp,
    Stamped, SubjectRow, Texts, Value,
};
pub use slots::SlotRows;
