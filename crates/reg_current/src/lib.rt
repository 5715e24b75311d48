//! What stands at a moment: the facts, and beside them the effective memberships, the graph of what
//! is nested, and the dates to come; and how events, dates and rules change all of that.
#![tactic(auto)]

mod changes;
mod current;
mod dated_grants;
mod dated_rows;
mod dates;
mod edges;
mod ending;
mod laws;
mod redating;
mod settling;
mod touching;

pub use current::Current;
pub use laws::law_dates;
pub use settling::settled;
