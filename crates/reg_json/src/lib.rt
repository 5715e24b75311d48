//! Requests and replies as JSON.
#![tactic(auto)]

mod answer;
mod array;
mod attributes;
mod fault;
mod fields;
mod flat;
mod forms;
mod laws;
mod ops;
mod read_back;
mod refusal;
mod reply;
mod request;
mod said;
mod shown;
mod shown_admin;
mod shown_attributes;
mod taken_admin;
mod taken_answer;
mod taken_attributes;
mod taken_loaded;
mod taken_refusal;
mod taken_shown;
mod taking;
mod words;

pub use laws::{law_any_order_of_keys, law_long_is_refused, law_read_is_formed};
pub use read_back::read_reply;
pub use reply::{append_line, append_reply, keep_fault_line, no_memory_line, write_reply};
pub use request::{read_body, read_request};
