//! The registry as it was at a moment: a journal's commands up to then, and answers to the lines
//! of an input. Nothing changes it: a line that asks for a change is refused.
#![tactic(auto)]

mod earlier;
mod input;
mod joined;
mod records;

pub use earlier::Earlier;
pub use input::answer_input;
