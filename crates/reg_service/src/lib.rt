//! The registry as a service: one request after another over a keeper, which has each accepted
//! command before its reply is given, and the service over a journal's records again. And a journal
//! of format 1 written as one of format 2, on another disk.
#![tactic(auto)]

mod again;
mod holding;
mod migrated;
mod migration;
mod opening;
mod service;
mod uncounted;
mod waiting;

pub use migration::{MigrateFault, migrate};
pub use opening::replay;
pub use service::{Cause, Next, Service};
pub use uncounted::advance;
pub use waiting::Waiting;
