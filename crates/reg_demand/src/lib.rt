//! What comes before all else that may refuse a command: who is no caller, what isn't found or
//! isn't seen, and what the caller lacks.
#![tactic(auto)]

mod attributes;
mod barring;
mod composites;
mod consumers;
mod finding;
mod folders;
mod grants;
mod groups;
mod inherits;
mod jobs;
mod lacking;
mod memberships;
mod refusals;
mod rules;
mod subjects;

pub use barring::{barred, refused};
pub use memberships::refused_member;
