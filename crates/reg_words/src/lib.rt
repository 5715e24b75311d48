//! The words of the program: the first names a command, and that command reads the words behind it.
#![tactic(auto)]

mod commands;
mod numbers;
mod task;
mod words;

pub use task::{BatchSize, Places, Provision, Question, Report, Size, Task};
pub use words::task_of;
