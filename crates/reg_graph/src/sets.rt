// A set of subjects for each group, and so a set of groups for each subject.
ghost use Rattle.std.specs.Prelude.{◌≡◌, ◌+◌, ◌≤◌, ◌==◌, ◌&&◌, ◌||◌, not, [], ℕ, IfOk, OnOk, OnErr};
ghost use Rattle.std.specs.Prelude.{length};
ghost use Rattle.std.specs.List.{list_any};
ghost use Rattle.std.specs.List.Sorted.{IsStrictlySortedBy};
ghost use Rattle.std.specs.Ordering.{nat_cmp};
ghost use Rattle.reg_graph.specs.Sets.{holds, subjects_of, groups_of, IsFirstFrom};

use reg_base::{GroupId, Steps, SubjectId};
use std::alloc::{AllocError, Global};
use std::collections::BTreeSet;
use std::marker::Model;
use std::sync::ledger::Ledger;

/// An ordered set of subjects for each group. Contracts see the pairs (group, subject) in order.
/// Every use ticks once for each pair that is tested, added, removed or listed.
#[derive(Drop)]
pub struct Sets {
    alloc: Global,
    pairs: BTreeSet<(GroupId, SubjectId)>,
    /// The same pairs by subject, so that a subject's groups are found without the others.
    turned: BTreeSet<(SubjectId, GroupId)>,
}

impl Model for Sets {
    ghost use Rattle.std.specs.Prelude.{List, ℕ};
    ghost use Rattle.reg_graph.specs.Sets.{AreTurned};

    ghost Value = { List (ℕ × ℕ) };

    ghost view = { λ s. s.pairs.keys };

    ghost invariant = { λ s. AreTurned s.pairs.keys s.turned.keys };
}

impl Sets {
    /// No group has a subject. Takes no memory.
    pub fn new(alloc: Global) -> Sets
        ensures { result ≡ [] }
    {
        Sets {
            alloc,
            pairs: BTreeSet::new(alloc),
            turned: BTreeSet::new(alloc),
        }
    }

    /// Whether the group has the subject: one step, no memory.
    pub fn has<L: Ledger>(&self, g: GroupId, s: SubjectId, steps: &mut Steps<L>) -> bool
        ensures value { result ≡ holds g s self.now }
        ensures cost { steps.new ≡ steps.old + 1 }
    {
        steps.tick(); // one subject tested
        self.pairs.contains(&(g, s))
    }

    /// Adds the subject to the group, and says whether the group lacked it before: one step. Out
    /// of memory the sets stay as they were.
    pub fn add<L: Ledger>(
        &mut self,
        g: GroupId,
        s: SubjectId,
        steps: &mut Steps<L>,
    ) -> Result<bool, AllocError>
        ensures lacked { IfOk result (λ b. b ≡ not (holds g s self.old)) }
        ensures added { OnOk result ((x y : ℕ) → holds x y self.new
            ≡ (((x == g) && (y == s)) || holds x y self.old)) }
        ensures err { OnErr result (self.new ≡ self.old) }
        ensures cost { steps.new ≡ steps.old + 1 }
    {
        steps.tick(); // one subject added
        if !self.turned.insert((s, g))? {
            return Ok(false); // a pair that one set has is in the other too
        }
        match self.pairs.insert((g, s)) {
            Ok(lacked) => Ok(lacked),
            Err(_) => {
                // Only a pair that was in neither set can be refused.
                self.turned.remove(&(s, g));
                Err(AllocError)
            }
        }
    }

    /// Takes the subject out of the group, and says whether the group had it: one step, no memory.
    pub fn remove<L: Ledger>(&mut self, g: GroupId, s: SubjectId, steps: &mut Steps<L>) -> bool
        ensures had { result ≡ holds g s self.old }
        ensures removed { (x y : ℕ) → holds x y self.new
            ≡ (not ((x == g) && (y == s)) && holds x y self.old) }
        ensures cost { steps.new ≡ steps.old + 1 }
    {
        steps.tick(); // one subject removed
        if !self.pairs.remove(&(g, s)) {
            return false; // a pair that one set lacks isn't in the other either
        }
        self.turned.remove(&(s, g));
        true
    }

    /// The subjects of the group, by id, each once: a step for each. Out of memory no more steps
    /// are taken than there are subjects.
    pub fn list<L: Ledger>(
        &self,
        g: GroupId,
        steps: &mut Steps<L>,
    ) -> Result<Vec<SubjectId>, AllocError>
        ensures value { IfOk result (λ v. v.items ≡ subjects_of g self.now) }
        ensures each { IfOk result (λ v. (s : ℕ) →
            list_any (λ x. x == s) v.items ≡ holds g s self.now) }
        ensures sorted { IfOk result (λ v. IsStrictlySortedBy nat_cmp v.items) }
        ensures cost { IfOk result (λ v. steps.new ≡ steps.old + length v.items) }
        ensures err { OnErr result (steps.new ≤ steps.old + length (subjects_of g self.now)) }
    {
        let mut subjects = Vec::new(self.alloc);
        let first = (g, SubjectId::new(0));
        let last = (g, SubjectId::new(u32::MAX));
        for pair in self.pairs.range(first..=last) {
            steps.tick(); // one subject listed
            subjects.push(pair.1)?;
        }
        Ok(subjects)
    }

    /// The groups that have the subject, by id, each once: a step for each, whatever other groups
    /// there are. Out of memory no more steps are taken than there are such groups.
    pub fn groups<L: Ledger>(
        &self,
        s: SubjectId,
        steps: &mut Steps<L>,
    ) -> Result<Vec<GroupId>, AllocError>
        ensures value { IfOk result (λ v. v.items ≡ groups_of s self.now) }
        ensures each { IfOk result (λ v. (g : ℕ) →
            list_any (λ x. x == g) v.items ≡ holds g s self.now) }
        ensures sorted { IfOk result (λ v. IsStrictlySortedBy nat_cmp v.items) }
        ensures cost { IfOk result (λ v. steps.new ≡ steps.old + length v.items) }
        ensures err { OnErr result (steps.new ≤ steps.old + length (groups_of s self.now)) }
    {
        let mut groups = Vec::new(self.alloc);
        let first = (s, GroupId::new(0));
        let last = (s, GroupId::new(u32::MAX));
        for pair in self.turned.range(first..=last) {
            steps.tick(); // one group listed
            groups.push(pair.1)?;
        }
        Ok(groups)
    }

    /// The first of the subject's groups, by id, from an id on, if there is one: one step, no
    /// memory.
    pub fn group_from<L: Ledger>(
        &self,
        s: SubjectId,
        from: GroupId,
        steps: &mut Steps<L>,
    ) -> Option<GroupId>
        ensures value { IsFirstFrom (λ g. holds g s self.now) from result }
        ensures cost { steps.new ≡ steps.old + 1 }
    {
        steps.tick(); // one group looked up
        let first = (s, from);
        let last = (s, GroupId::new(u32::MAX));
        let pair = self.turned.range(first..=last).next()?;
        Some(pair.1)
    }
}
