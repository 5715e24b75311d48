//! The tables that loads bring: their rows, read from the bytes of a text of CSV; and what a load
//! of a table would do to the groups of a job.
#![tactic(auto)]

mod columns;
mod fates;
mod keys;
mod laws;
mod mentions;
mod naming;
mod planning;
mod plans;
mod reading;
mod standing;
mod tables;
mod walking;

pub use laws::{law_after, law_counts, law_nothing};
pub use planning::plan;
pub use plans::{Plan, PlanFault};
pub use reading::read_table;
pub use tables::{Table, TableFault, TableRow};
