// How assignments change.
use reg_base::{AssignId, AttrId};
use reg_terms::{AttrValue, Object};

/// One change of the assignments.
#[derive(Drop)]
pub enum AssignChange {
    /// An attribute is assigned to an owner, and has no value yet.
    Made {
        assign: AssignId,
        attribute: AttrId,
        owner: Object,
    },
    Gone {
        assign: AssignId,
    },
    /// A value behind the others of an assignment.
    ValueAdded {
        assign: AssignId,
        value: AttrValue,
    },
    /// The first of the values of an assignment that are equal to this one goes.
    ValueRemoved {
        assign: AssignId,
        value: AttrValue,
    },
    /// An owner goes, and with it what is assigned to it.
    OwnerGone {
        owner: Object,
    },
}
