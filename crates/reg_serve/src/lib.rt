//! HTTP over a service: the messages of a connection in, and their responses out.
#![tactic(auto)]

mod connection;
mod connections;
mod ended;
mod laws;
mod sending;
mod serving;

pub use connection::serve_connection;
pub use connections::serve_connections;
pub use ended::{Ceased, Ended};
pub use laws::{cutting_changes_no_response, replies_are_one, turns_are_one_session};
