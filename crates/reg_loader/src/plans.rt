// What a load would do.
ghost use Rattle.std.specs.Prelude.{◌≡◌};
ghost use Rattle.reg_loader.specs.Plan.{counts_of};

use reg_terms::{LoadCounts, LoadRows, Names};
use std::alloc::AllocError;
use thiserror::Error;

/// What a load would do to the groups of a job, and what the records of its table say.
#[derive(Drop)]
pub struct Plan {
    /// The groups that are made, in the order of first mention.
    pub created: Names,
    /// The persons who are removed from groups, by the group's id and then the person's.
    pub removed: LoadRows,
    /// The persons who are added to groups, in the order of the table.
    pub added: LoadRows,
    /// How many pairs that the table names have an immediate membership already.
    pub unchanged: u64,
    /// How many records name a person that doesn't stand, or a text that is no person's.
    pub unknown: u64,
    /// How many records name a pair that a record before them names.
    pub repeated: u64,
    /// How many pairs that the table names aren't added since a veto forbids it.
    pub vetoed: u64,
    /// How many records name no group of the job.
    pub bad_group: u64,
}

impl Plan {
    /// What it does and what the records of its table say, in numbers. It takes no memory.
    pub fn counts(&self) -> LoadCounts
        ensures { result ≡ counts_of self.now }
    {
        LoadCounts {
            created: self.created.list().len() as u64,
            removed: self.removed.list().len() as u64,
            added: self.added.list().len() as u64,
            unchanged: self.unchanged,
            unknown: self.unknown,
            repeated: self.repeated,
            vetoed: self.vetoed,
            bad_group: self.bad_group,
        }
    }
}

/// Why a load does nothing.
#[derive(Clone, Copy, Debug, PartialEq, Eq, Error)]
pub enum PlanFault {
    /// The job's one group is a composite.
    #[error("the job's one group is a composite")]
    IsComposite,
    /// So many persons are in the job's groups, and more of them would be removed than the job
    /// lets.
    #[error("a load would remove {removes} of {before} memberships, more than the job lets")]
    Failsafe { before: u64, removes: u64 },
    #[error("out of memory")]
    NoMemory,
}

impl From<AllocError> for PlanFault {
    ghost use Rattle.reg_loader.specs.declared.plans.PlanFault.TheVariants.{NoMemory};

    ghost from_gives = { λ _ e. e ≡ NoMemory };

    fn from(_: AllocError) -> Self {
        PlanFault::NoMemory
    }
}
