//! What definitions of attributes refuse: an owner that one doesn't suit, and a value that it
//! doesn't take.
#![tactic(auto)]

mod checks;

pub use checks::{AttrFault, check_assign, check_value};
pub use reg_facts::{AttrValue, Value};
