//! What the messages of a connection ask, and the bytes of their responses.
#![tactic(auto)]

mod asked;
mod faults;
mod queries;
mod reading;
mod responses;
mod unread;

pub use asked::{Asked, asked_of, closes_by};
pub use faults::{no_caller_header, no_method, no_route, refusal_of};
pub use reading::read_call;
pub use responses::{fault_response, keep_fault, no_memory, response_to};
