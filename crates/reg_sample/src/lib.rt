//! A registry from a number: the lines that a seed and a size give, which ask for one; and what
//! they lead to in numbers, put one after another to a registry that keeps nothing.
#![tactic(auto)]

mod lines;
mod loading;
mod making;
mod playing;
mod reading;
mod tally;
mod texts;

pub use playing::sample;
pub use tally::{Summary, summary_text};
