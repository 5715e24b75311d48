//! The program over its outside: what the words ask for, done over a disk's journal, an input, an
//! output, a clock and a listener, and the exit status and the note that say how it ended.
#![tactic(auto)]

mod as_of;
mod earlier;
mod listing;
mod load;
mod migrate;
mod perform;
mod program;
mod provision;
mod question;
mod report;
mod sample;
mod serve;
mod status;

pub use program::run;
pub use status::{End, status_of, write_note};
