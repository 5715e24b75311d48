//! Which group depends on which, and sets of subjects of which every use is counted.
#![tactic(auto)]

mod dag;
mod edges;
mod levels;
mod raise;
mod sets;

pub use dag::{Dag, EdgeFault};
pub use sets::Sets;
