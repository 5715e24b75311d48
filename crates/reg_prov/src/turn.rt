// At which boundary a pair comes into what is wanted, or leaves it.
ghost use Rattle.std.specs.Prelude.{◌≡◌};
ghost use Rattle.reg_prov.specs.Turns.{op_of};

use crate::target::TargetOp;
use reg_base::{GroupId, SubjectId};

/// At a boundary of the log a pair of a group and a person comes into what is wanted, or leaves it.
#[derive(Clone, Copy)]
pub struct Turn {
    pub at: u64,
    pub group: GroupId,
    pub subject: SubjectId,
    /// Whether the pair is wanted from this boundary on.
    pub on: bool,
}

impl Turn {
    /// The operation that makes a target follow.
    pub fn op(&self) -> TargetOp
        ensures { result ≡ op_of self.now }
    {
        let group = self.group;
        let subject = self.subject;
        if self.on {
            TargetOp::Add { group, subject }
        } else {
            TargetOp::Remove { group, subject }
        }
    }
}
