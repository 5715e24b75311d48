// Why a person is or isn't allowed something.
use reg_base::AssignId;

/// A value of an assignment that speaks of an action on a resource, to a group that has the person.
#[derive(Clone, Copy)]
pub struct Ground {
    pub assign: AssignId,
    /// The value's place in the assignment, from 0.
    pub place: u64,
    /// Whether it allows the action, and doesn't deny it.
    pub allow: bool,
}
