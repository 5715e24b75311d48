//! Requests and replies, and what a query is answered.
#![tactic(auto)]

mod admin;
mod administering;
mod allowing;
mod answering;
mod asking;
mod attributes;
mod earlier;
mod finding;
mod grouping;
mod history;
mod listing;
mod logging;
mod memberships;
mod missing;
mod question;
mod refusing;
mod rows;
mod seeing;
mod texts;
mod timing;

pub use asking::{ask, law_told};
pub use earlier::law_powers;
pub use question::Question;
pub use reg_terms::{Answer, FactorsShown, Op, Query, Reply, Request, RowShown, RowsShown};
