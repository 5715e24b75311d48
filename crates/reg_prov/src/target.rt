// A target, and the operations on it.
ghost use Rattle.std.specs.Prelude.{◌≡◌, ◌==◌, ◌&&◌, ◌||◌, not, [], ℕ, OnOk, OnErr, IfOk};
ghost use Rattle.reg_prov.specs.Targets.{holds, after_op};

use reg_base::{GroupId, SubjectId};
use std::alloc::{AllocError, Global};
use std::collections::BTreeSet;
use std::marker::Model;

/// One operation on a target. Either may find done what it does.
#[derive(Clone, Copy, PartialEq, Eq)]
pub enum TargetOp {
    /// Puts a pair in.
    Add { group: GroupId, subject: SubjectId },
    /// Takes a pair out.
    Remove { group: GroupId, subject: SubjectId },
}

/// An outside list of memberships: a set of pairs of a group and a person. Contracts see the pairs.
#[derive(Drop)]
pub struct Target {
    pairs: BTreeSet<(GroupId, SubjectId)>,
}

impl Model for Target {
    ghost use Rattle.std.specs.Prelude.{List, ℕ};

    ghost Value = { List (ℕ × ℕ) };

    ghost view = { λ t. t.pairs.keys };
}

impl Target {
    /// A target without pairs. Takes no memory.
    pub fn new(alloc: Global) -> Target
        ensures { result ≡ [] }
    {
        Target {
            pairs: BTreeSet::new(alloc),
        }
    }

    /// Whether a target has a pair. Takes no memory.
    pub fn contains(&self, group: GroupId, subject: SubjectId) -> bool
        ensures { result ≡ holds self.now group subject }
    {
        self.pairs.contains(&(group, subject))
    }

    /// Puts a pair in. Out of memory the target stays as it was.
    fn add(&mut self, group: GroupId, subject: SubjectId) -> Result<(), AllocError>
        ensures ok { OnOk result ((g s : ℕ) → holds self.new g s
            ≡ (((group == g) && (subject == s)) || holds self.old g s)) }
        ensures err { OnErr result (self.new ≡ self.old) }
    {
        self.pairs.insert((group, subject))?;
        Ok(())
    }

    /// Takes a pair out. Takes no memory.
    fn remove(&mut self, group: GroupId, subject: SubjectId)
        ensures { (g s : ℕ) → holds self.new g s
            ≡ (not ((group == g) && (subject == s)) && holds self.old g s) }
    {
        self.pairs.remove(&(group, subject));
    }
}

/// Carries out an operation on a target. The only error is out of memory, which leaves the target
/// as it was; taking out needs none. Costs a look-up.
pub fn apply_op(target: &mut Target, op: &TargetOp) -> Result<(), AllocError>
    ensures ok { OnOk result ((g s : ℕ) → holds target.new g s
        ≡ after_op op.now (holds target.old) g s) }
    ensures err { OnErr result (target.new ≡ target.old) }
{
    match op {
        TargetOp::Add { group, subject } => target.add(*group, *subject),
        TargetOp::Remove { group, subject } => {
            target.remove(*group, *subject);
            Ok(())
        }
    }
}
