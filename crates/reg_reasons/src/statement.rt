// What is stated to explain a membership.
use crate::Way;
use reg_base::GroupId;
use reg_terms::SetOp;

/// What a statement on a group rests on.
#[derive(Drop)]
pub enum Grounds {
    /// The group is no composite.
    Rows {
        /// How many ways lead from the group to the person; 2^64 - 1 where there are more.
        number: u64,
        /// The first of them, the shortest first.
        ways: Vec<Way>,
    },
    /// The group is a composite of two factors.
    Factors {
        op: SetOp,
        left: GroupId,
        right: GroupId,
    },
}

/// Whether a group has the person, and why.
#[derive(Drop)]
pub struct Statement {
    pub group: GroupId,
    /// Whether the person is an effective member.
    pub has: bool,
    pub grounds: Grounds,
}
