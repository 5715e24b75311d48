//! Why a person is or isn't an effective member of a group: the ways from the group down to the
//! person, row by row, and the factors of the composites on which that rests.
#![tactic(auto)]

mod counting;
mod counts;
mod explaining;
mod laws;
mod leading;
mod listing;
mod statement;
mod stating;
mod way;

pub use explaining::explain;
pub use laws::law_reasons;
pub use statement::{Grounds, Statement};
pub use way::Way;
