//! Privileges: who a caller is, what a caller may do, and who holds what on an object.
#![tactic(auto)]

pub mod caller;
mod climbing;
mod gathered;
mod granting;
mod holding;
mod judging;
mod touched;
mod who;

pub use granting::has_begun;
pub use holding::holders;
pub use judging::{is_root, is_visible, judged, may, privileges_of, wheel};
pub use touched::{law_untouched, touched_objects};
pub use who::{Who, who_of};
