//! Loads of persons into groups: which suit the facts, and what they make happen.
#![tactic(auto)]

mod checks;
mod created;
mod events;
mod faults;
mod finding;
mod laws;
mod row_set;
mod standing;

pub use checks::{check_load, check_room};
pub use events::load_events;
pub use faults::LoadFault;
pub use finding::added_rows;
pub use laws::law_load;
