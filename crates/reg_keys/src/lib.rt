//! Keys of requests: for each caller and key the number of the command that was kept, the id of
//! what it made, and the command's bytes. It is what finds the keys of requests.
#![tactic(auto)]

mod digest;
mod keys;
mod others;
mod places;
mod records;

pub use keys::{Found, Keys};
