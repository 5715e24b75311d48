//! What the steps of a registry leave for later: the change log, the past of effective memberships,
//! of grants, of assignments and of the wheel group, when objects were made and went, the last
//! names of what is gone, the definitions of attributes, and the places of consumers. An accepted
//! command or a date that comes is a step.
#![tactic(auto)]

mod assigning;
mod audit;
mod consumers;
mod definitions;
mod departed;
mod gone;
mod grant_change;
mod grants;
mod held;
mod lines;
mod lives;
mod notes;
mod noting;
mod records;
mod wheel;

pub use audit::Audit;
pub use consumers::ConsumerNote;
pub use gone::Gone;
pub use notes::{Notes, notes_of};
