//! What a command brings: its events, and the grants on a group that is made.
#![tactic(auto)]

mod attribute_editing;
mod creation;
mod editing;
mod job_editing;
mod rule_editing;

pub use creation::new_groups_grants;
pub use editing::events_of;
