// A number for each group.
ghost use Rattle.std.specs.Prelude.{◌≡◌, ◌==◌, ◌+◌, [], ℕ, true, OnOk, if◌then◌else◌};
ghost use Rattle.reg_reasons.specs.Counts.{count_of, capped};

use reg_base::GroupId;
use std::alloc::{AllocError, Global};
use std::collections::BTreeMap;
use std::marker::Model;

/// A number for each group; 0 for one that isn't written down. Contracts see what is.
#[derive(Drop)]
pub(crate) struct Counts {
    counts: BTreeMap<u32, u64>,
}

impl Model for Counts {
    ghost use Rattle.std.specs.Prelude.{List, ℕ};

    ghost Value = { List (ℕ × ℕ) };

    ghost view = { λ c. c.counts.entries };
}

impl Counts {
    pub(crate) fn new(alloc: Global) -> Counts
        ensures { result ≡ [] }
    {
        Counts {
            counts: BTreeMap::new(alloc),
        }
    }

    /// Whether no group has more than 0.
    pub(crate) fn are_none(&self) -> bool
        ensures { result ≡ true → (q : ℕ) → count_of self.now q ≡ 0 }
    {
        self.counts.is_empty()
    }

    pub(crate) fn of(&self, group: GroupId) -> u64
        ensures { result ≡ count_of self.now group }
    {
        self.counts.get(&group.number()).copied().unwrap_or(0)
    }

    /// Writes a group's number down.
    pub(crate) fn set(&mut self, group: GroupId, count: u64) -> Result<(), AllocError>
        ensures { OnOk result ((q : ℕ) → count_of self.new q
            ≡ (if q == group then count else count_of self.old q)) }
    {
        self.counts.insert(group.number(), count)?;
        Ok(())
    }

    /// Adds to a group's number, which goes no higher than the greatest of 64 bits.
    pub(crate) fn add(&mut self, group: GroupId, more: u64) -> Result<(), AllocError>
        ensures { OnOk result ((q : ℕ) → count_of self.new q
            ≡ (if q == group then capped (count_of self.old q + more)
            else count_of self.old q)) }
    {
        let count = self.of(group);
        if more == 0 {
            return Ok(());
        }
        self.set(group, count.saturating_add(more))
    }
}
