//! Messages of HTTP: what stands in the bytes of a connection, and the bytes of a response.
#![tactic(auto)]

mod call;
mod fields;
mod head;
mod held;
mod laws;
mod parameters;
mod paths;
mod pieces;
mod query;
mod reader;
mod response;
mod route;

pub use call::{Call, HeadFault, Turn};
pub use laws::{cutting_changes_no_turn, turns_are_of_all_bytes, turns_exclude_each_other};
pub use parameters::{Parameters, read_parameters};
pub use paths::paths_are_of_routes;
pub use reader::HttpReader;
pub use response::write_response;
pub use route::{Route, Routes};
