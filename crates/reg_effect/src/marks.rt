// Memberships as an ordered set.
ghost use Rattle.std.specs.Prelude.{◌≡◌, ◌==◌, ◌&&◌, ◌||◌, not, [], ℕ, IfOk, OnOk, OnErr, IsTrue};
ghost use Rattle.std.specs.Prelude.{filter};
ghost use Rattle.std.specs.List.Sorted.{IsStrictlySortedBy};
ghost use Rattle.std.specs.Ordering.{nat_cmp};
ghost use Rattle.reg_graph.specs.Sets.{holds, subjects_of, pair_cmp};
ghost use Rattle.reg_graph.specs.Edges.{among};

use crate::Pairs;
use reg_base::{GroupId, SubjectId};
use std::alloc::{AllocError, Global};
use std::collections::BTreeSet;
use std::marker::Model;

/// Pairs of a group and a person, each once. Contracts see the list in order. No use of it counts
/// as a step.
#[derive(Drop)]
pub(crate) struct Marks {
    alloc: Global,
    pairs: BTreeSet<(GroupId, SubjectId)>,
}

impl Model for Marks {
    ghost use Rattle.std.specs.Prelude.{List, ℕ};
    ghost use Rattle.reg_graph.specs.Sets.{IsKept};

    ghost Value = { List (ℕ × ℕ) };

    ghost view = { λ s. s.pairs.keys };

    ghost invariant = { λ s. IsKept s.pairs.keys };
}

impl Marks {
    pub(crate) fn new(alloc: Global) -> Marks
        ensures { result ≡ [] }
    {
        Marks {
            alloc,
            pairs: BTreeSet::new(alloc),
        }
    }

    pub(crate) fn has(&self, g: GroupId, s: SubjectId) -> bool
        ensures { result ≡ holds g s self.now }
    {
        self.pairs.contains(&(g, s))
    }

    pub(crate) fn add(&mut self, g: GroupId, s: SubjectId) -> Result<(), AllocError>
        ensures { OnOk result ((x y : ℕ) → holds x y self.new
            ≡ (((x == g) && (y == s)) || holds x y self.old)) }
    {
        self.pairs.insert((g, s))?;
        Ok(())
    }

    /// Takes a pair out, where it is there. Takes no memory.
    pub(crate) fn remove(&mut self, g: GroupId, s: SubjectId)
        ensures { (x y : ℕ) → holds x y self.new
            ≡ (not ((x == g) && (y == s)) && holds x y self.old) }
    {
        self.pairs.remove(&(g, s));
    }

    /// Whether both have the same pairs.
    pub(crate) fn same(&self, other: &Marks) -> bool
        ensures { IsTrue result → self.now ≡ other.now }
    {
        self.pairs == other.pairs
    }

    /// The persons of a group, by id.
    pub(crate) fn subjects(&self, g: GroupId) -> Result<Vec<SubjectId>, AllocError>
        ensures value { IfOk result (λ v. v.items ≡ subjects_of g self.now) }
        ensures each { IfOk result (λ v. (s : ℕ) → among s v.items ≡ holds g s self.now) }
        ensures sorted { IfOk result (λ v. IsStrictlySortedBy nat_cmp v.items) }
    {
        let mut subjects = Vec::new(self.alloc);
        let first = (g, SubjectId::new(0));
        let last = (g, SubjectId::new(u32::MAX));
        for pair in self.pairs.range(first..=last) {
            subjects.push(pair.1)?;
        }
        Ok(subjects)
    }

    /// The pairs in order.
    pub(crate) fn list(&self) -> Result<Pairs, AllocError>
        ensures value { IfOk result (λ p. p ≡ self.now) }
        ensures ordered { IfOk result (λ p. IsStrictlySortedBy pair_cmp p) }
    {
        let mut pairs = Pairs::new(self.alloc);
        for pair in &self.pairs {
            pairs.push(*pair)?;
        }
        Ok(pairs)
    }

    /// The pairs that either has, in order.
    pub(crate) fn union(&self, other: &Marks) -> Result<Pairs, AllocError>
        ensures each { IfOk result (λ p. (x y : ℕ) → holds x y p
            ≡ (holds x y self.now || holds x y other.now)) }
        ensures ordered { IfOk result (λ p. IsStrictlySortedBy pair_cmp p) }
    {
        let mut pairs = Pairs::new(self.alloc);
        for pair in self.pairs.union(&other.pairs) {
            pairs.push(*pair)?;
        }
        Ok(pairs)
    }

    /// The pairs that the other one hasn't, in order.
    pub(crate) fn beyond(&self, other: &Marks) -> Result<Pairs, AllocError>
        ensures value { IfOk result (λ p. p
            ≡ filter (λ q. not (holds q.0 q.1 other.now)) self.now) }
        ensures ordered { IfOk result (λ p. IsStrictlySortedBy pair_cmp p) }
    {
        let mut pairs = Pairs::new(self.alloc);
        for pair in &self.pairs {
            if !other.has(pair.0, pair.1) {
                pairs.push(*pair)?;
            }
        }
        Ok(pairs)
    }
}
