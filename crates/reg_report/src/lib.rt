//! Reports: what a word of the program that asks once is told by a machine, as a line of JSON or,
//! of reminders, as a line for each; the moment that a report is made as of; and batches of
//! operations for outside lists of memberships: what is asked for one, the lines that are delivered
//! of it, and what its acknowledgement moves.
#![tactic(auto)]

mod asked;
mod attestation;
mod batch_asked;
mod batch_line;
mod delivery;
mod delivery_laws;
mod laws;
mod line;
mod permission;
mod reporting;
mod why;
mod why_line;

pub use asked::{Unreported, moment_asked};
pub use delivery::{Delivery, deliver};
pub use delivery_laws::{law_acknowledged, law_one_delivery};
pub use laws::law_one_report;
pub use reporting::report;
