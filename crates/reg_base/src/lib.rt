//! Ids, texts, names, entities, moments and steps: the values that every other crate speaks of.
#![tactic(auto)]

mod bytes;
mod calendar;
mod entity;
mod ids;
mod moment;
mod moment_text;
mod name;
mod name_parts;
mod names;
mod privilege;
mod steps;
mod text;

pub use bytes::Bytes;
pub use entity::Entity;
pub use ids::{AssignId, AttrDefId, AttrId, FolderId, GroupId, JobId, RuleId, SubjectId};
pub use moment::Moment;
pub use name::Name;
pub use name_parts::{extension_of, folder_of};
pub use names::{is_extension, is_name, is_person, is_source};
pub use privilege::Privilege;
pub use steps::Steps;
pub use text::Text;
