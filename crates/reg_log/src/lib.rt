//! The change log: a numbered list of what commands, dates and rules changed, and how far each
//! consumer of it has read.
#![tactic(auto)]

mod consumers;
mod entries;
mod log;
mod stored;
mod stretches;

pub use consumers::{Place, Places};
pub use entries::{Entry, Line};
pub use log::ChangeLog;
pub use reg_terms::EntryKind;
