//! What is due of access beside membership: what the values of attributes of groups allow and deny
//! their members (roles and permissions), and whether a group's members were confirmed lately
//! enough (attestation). Two attributes of a group say the latter: `etc:attest:days`, for how many days a
//! confirmation lasts, and `etc:attest:certified`, the moments at which the members were confirmed.
//! `state_at` tells the state at a moment, `states` the list of all states up to the clock, also
//! those that come by time alone, and `reminders` a line for each group of which owners are to be
//! reminded.
#![tactic(auto)]

mod asking;
mod attesting;
mod calls;
mod covering;
mod days;
mod deciding;
mod ground;
mod laws;
mod listing;
mod moments;
mod reminding;
mod saying;
mod spoken;
mod state;
mod statement;
mod stretch;
mod words;

pub use attesting::{state_at, states};
pub use calls::{allowed, grounds, permit};
pub use deciding::is_resource;
pub use ground::Ground;
pub use laws::{law_constant, law_one_list};
pub use reminding::reminders;
pub use saying::is_action;
pub use state::{State, StateKind};
