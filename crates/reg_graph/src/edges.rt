// Edges by the group to which they go.
ghost use Rattle.std.specs.Prelude.{◌≡◌, [], ◌∷◌, ℕ, IfOk, OnOk, OnErr, true};
ghost use Rattle.std.specs.List.Sorted.{IsPermutation};
ghost use Rattle.reg_graph.specs.Edges.{has_edge, is_needed, among};

use reg_base::GroupId;
use std::alloc::{AllocError, Global};
use std::collections::BTreeSet;
use std::marker::Model;

/// The number of an edge, of which no other one has it: so an edge may stand several times.
#[derive(Clone, Copy, PartialEq, Eq, PartialOrd, Ord)]
struct EdgeNumber {
    number: u64,
}

impl Model for EdgeNumber {
    ghost use Rattle.std.specs.Prelude.{ℕ};

    ghost Value = { ℕ };

    ghost view = { λ n. n.number };

    ghost inverse = { λ n. record { number = n } };
}

impl EdgeNumber {
    /// The number that is this one.
    fn of(number: u64) -> EdgeNumber
        ensures { result ≡ number }
    {
        EdgeNumber { number }
    }

    /// No edge has a lower one.
    fn least() -> EdgeNumber
        ensures { result ≡ 0 }
    {
        EdgeNumber { number: 0 }
    }

    /// No edge has a higher one.
    fn greatest() -> EdgeNumber
        ensures { result ≡ 18446744073709551615 }
    {
        EdgeNumber { number: u64::MAX }
    }
}

/// Edges by the group to which they go, then the group from which they come, then their number.
/// Contracts see the list of edges (from, to).
#[derive(Drop)]
pub(crate) struct Edges {
    alloc: Global,
    keys: BTreeSet<(GroupId, GroupId, EdgeNumber)>,
    /// The number of the next edge: higher than all.
    next: u64,
}

impl Model for Edges {
    ghost use Rattle.std.specs.Prelude.{List, ℕ, map};
    ghost use Rattle.reg_graph.specs.Levels.{edge_of, IsNumbered};

    ghost Value = { List (ℕ × ℕ) };

    ghost view = { λ s. map edge_of s.keys.keys };

    ghost invariant = { λ s. IsNumbered s.keys.keys s.next };
}

impl Edges {
    pub(crate) fn new(alloc: Global) -> Edges
        ensures { result ≡ [] }
    {
        Edges {
            alloc,
            keys: BTreeSet::new(alloc),
            next: 0,
        }
    }

    /// One more edge. After 2^64 - 1 of them no number is left, which counts as out of memory.
    pub(crate) fn push(&mut self, from: GroupId, to: GroupId) -> Result<(), AllocError>
        ensures ok { OnOk result (IsPermutation ((from, to) ∷ self.old) self.new) }
        ensures err { OnErr result (self.new ≡ self.old) }
    {
        let Some(next) = self.next.checked_add(1) else {
            return Err(AllocError);
        };
        self.keys.insert((to, from, EdgeNumber::of(self.next)))?;
        self.next = next;
        Ok(())
    }

    /// Takes one copy of an edge away, without memory.
    pub(crate) fn take(&mut self, from: GroupId, to: GroupId)
        requires { has_edge self.old from to ≡ true }
        ensures { IsPermutation self.old ((from, to) ∷ self.new) }
    {
        let first = (to, from, EdgeNumber::least());
        let last = (to, from, EdgeNumber::greatest());
        let found = self.keys.range(first..=last).next().copied();
        if let Some(key) = found {
            self.keys.remove(&key);
        }
    }

    /// Whether an edge goes to this group. Takes no memory.
    pub(crate) fn has_above(&self, group: GroupId) -> bool
        ensures { result ≡ is_needed self.now group }
    {
        let first = (group, GroupId::new(0), EdgeNumber::least());
        let last = (group, GroupId::new(u32::MAX), EdgeNumber::greatest());
        self.keys.range(first..=last).next().is_some()
    }

    /// The numbers of the groups from which an edge goes to the group of this number.
    pub(crate) fn above(&self, group: u32) -> Result<Vec<u32>, AllocError>
        ensures { IfOk result (λ v. (z : ℕ) → among z v.items ≡ has_edge self.now z group) }
    {
        let group = GroupId::new(group);
        let first = (group, GroupId::new(0), EdgeNumber::least());
        let last = (group, GroupId::new(u32::MAX), EdgeNumber::greatest());
        let mut above = Vec::new(self.alloc);
        for key in self.keys.range(first..=last) {
            above.push(key.1.number())?;
        }
        Ok(above)
    }
}
