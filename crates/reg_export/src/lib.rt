//! The texts of accepted commands, for other programs: a line has all that its command says, and
//! reads back as that command. A listing has the lines of a history's commands, in order.
#![tactic(auto)]

mod counts;
mod fields;
mod laws;
mod line;
mod listing;
mod members;
mod values;

pub use laws::{law_line_reads_back, law_listed_is_told, law_request_reads_back};
pub use line::command_text;
pub use listing::Listing;
