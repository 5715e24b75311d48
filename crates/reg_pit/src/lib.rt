//! Intervals of moments, and with them what was the case at each moment of the past.
#![tactic(auto)]

mod assign_change;
mod assign_lives;
mod assigned_past;
mod assigns;
mod ends;
mod grants;
mod intervals;
mod memberships;
mod moments;
mod past;
mod value_lives;
mod wheel;

pub use assign_change::AssignChange;
pub use assigned_past::AssignedPast;
pub use intervals::Intervals;
pub use past::Past;
