//! What rules do after a step: who stopped being a member of a group loses another membership, or
//! has it ended, round after round; and who may not be added to a group.
#![tactic(auto)]

mod actions;
mod carrier;
mod laws;
mod settling;
mod standing;
mod vetoing;

pub use actions::Action;
pub use carrier::Carrier;
pub use laws::{law_actions, law_lost, law_rounds};
pub use settling::{Settled, settle, settle_in};
pub use standing::Standing;
pub use vetoing::veto;
