//! Effective membership: who is a member of which group, by rows, nested groups and composites, and
//! what a change of them begins and ends.
#![tactic(auto)]

mod changing;
mod combine;
mod composites;
mod incremental;
mod joined;
mod kept;
mod live;
mod marks;
mod named;
mod pairs;
mod plain;
mod relink;
mod rows;
mod turned;
mod uncounted;
mod walk;

pub use changing::{change_one, put_on};
pub use composites::Composites;
pub use incremental::Incremental;
pub use kept::Kept;
pub use live::{Change, Delta, Live};
pub use pairs::Pairs;
pub use plain::Plain;
pub use relink::link;
pub use rows::Rows;
pub use turned::{Turned, law_turns};
