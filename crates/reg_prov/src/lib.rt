//! Provisioning: what an outside list of memberships has to add and to remove, from a place in the
//! change log on, for one person, the provisioner. A group is eligible while the provisioner itself
//! holds READ on it. `batch` gives the operations, `apply_op` carries one out on a `Target`.
#![tactic(auto)]

mod boundary;
mod calls;
mod ends;
mod known;
mod laws;
mod moments;
mod noting;
mod ops;
mod past;
mod spans;
mod target;
mod turn;
mod turns;

pub use calls::{batch, batch_from};
pub use laws::{law_batch, law_one_batch, law_target};
pub use ops::Batch;
pub use target::{Target, TargetOp, apply_op};
pub use turn::Turn;
