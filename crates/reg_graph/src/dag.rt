// Which group depends on which, without circles.
ghost use Rattle.std.specs.Prelude.{◌≡◌, ◌↔◌, [], ◌∷◌, ℕ, ◌==◌, ◌&&◌, ◌||◌, IfOk, IfErr, OnOk};
ghost use Rattle.std.specs.Prelude.{OnErr, IsTrue, true, false};
ghost use Rattle.std.specs.List.Sorted.{IsPermutation};
ghost use Rattle.reg_graph.specs.Sets.{holds};
ghost use Rattle.reg_graph.specs.Edges.{has_edge, is_needed, reaches, HasPath, IsAcyclic, IsAbove};
ghost use Rattle.reg_graph.specs.Edges.{IsRefused};
ghost use Rattle.reg_graph.specs.Levels.{level_of, IsLevelled};

use crate::edges::Edges;
use crate::levels::Levels;
use crate::raise::make_room;
use reg_base::GroupId;
use std::alloc::{AllocError, AllocFailed, Global};
use std::collections::BTreeSet;
use std::convert::From;
use std::fmt;
use std::marker::Model;
use thiserror::Error;

/// Why an edge isn't added.
#[derive(Clone, Copy, PartialEq, Eq, Error)]
pub enum EdgeFault {
    /// The group to which the edge would go is the one from which it comes, or depends on it.
    #[error("an edge to group {} would close a circle", .0.number())]
    Circular(GroupId),
    #[error("out of memory")]
    NoMemory,
}

impl fmt::Debug for EdgeFault {
    fn fmt<W: fmt::Write>(&self, f: &mut fmt::Formatter<W>) -> fmt::Result {
        fmt::Display::fmt(self, f)
    }
}

impl From<AllocError> for EdgeFault {
    ghost use Rattle.reg_graph.specs.declared.dag.EdgeFault.TheVariants.{NoMemory};

    ghost from_gives = { λ _ e. e ≡ NoMemory };

    fn from(_: AllocError) -> Self {
        EdgeFault::NoMemory
    }
}

impl<T: Drop> From<AllocFailed<T>> for EdgeFault {
    ghost use Rattle.reg_graph.specs.declared.dag.EdgeFault.TheVariants.{NoMemory};

    ghost from_gives = { λ _ e. e ≡ NoMemory };

    fn from(_: AllocFailed<T>) -> Self {
        EdgeFault::NoMemory
    }
}

/// Which group depends on which: edges, each from a group to a group that it depends on, as a row
/// of a nested group or a factor of a composite makes them. An edge may stand several times. No
/// path leads back to where it began. Contracts see the list of edges (from, to), whose order means
/// nothing.
#[derive(Drop)]
pub struct Dag {
    alloc: Global,
    edges: Edges,
    levels: Levels,
}

impl Model for Dag {
    ghost use Rattle.std.specs.Prelude.{List, ℕ};
    ghost use Rattle.reg_graph.specs.Levels.{IsLevelled};

    ghost Value = { List (ℕ × ℕ) };

    ghost view = { λ d. d.edges };

    ghost invariant = { λ d. IsLevelled d.edges d.levels };
}

/// Those right above a group wait, each at its level.
fn await_above(
    edges: &Edges,
    levels: &Levels,
    group: u32,
    pending: &mut BTreeSet<(u64, u32)>,
) -> Result<(), AllocError>
    ensures { OnOk result ((l q : ℕ) → holds l q pending.new.keys
        ≡ (((l == level_of levels.now q) && has_edge edges.now q group)
        || holds l q pending.old.keys)) }
{
    let above = edges.above(group)?;
    for higher in &above {
        pending.insert((levels.of(*higher), *higher))?;
    }
    Ok(())
}

/// A group and all that depend on it, in the order of their levels.
fn climb(
    alloc: Global,
    edges: &Edges,
    levels: &Levels,
    node: u32,
) -> Result<Vec<GroupId>, AllocError>
    requires { IsLevelled edges.now levels.now }
    ensures { IfOk result (λ v. IsAbove edges.now node v.items) }
{
    let mut above = Vec::new(alloc);
    let mut pending = BTreeSet::new(alloc);
    pending.insert((levels.of(node), node))?;
    while let Some((_, group)) = pending.pop_first() {
        above.push(GroupId::new(group))?;
        await_above(edges, levels, group, &mut pending)?;
    }
    Ok(above)
}

/// A group and all that depend on it, in the order of their levels. Where none depends on it, that
/// is a look at the edges alone.
fn with_above(
    alloc: Global,
    edges: &Edges,
    levels: &Levels,
    node: GroupId,
) -> Result<Vec<GroupId>, AllocError>
    requires { IsLevelled edges.now levels.now }
    ensures { IfOk result (λ v. IsAbove edges.now node v.items) }
{
    if edges.has_above(node) {
        return climb(alloc, edges, levels, node.number());
    }
    let mut alone = Vec::new(alloc);
    alone.push(node)?;
    Ok(alone)
}

impl Dag {
    /// No edges. Takes no memory.
    pub fn new(alloc: Global) -> Dag
        ensures { result ≡ [] }
    {
        Dag {
            alloc,
            edges: Edges::new(alloc),
            levels: Levels::new(alloc),
        }
    }

    /// One more edge, also where it stands already. Circular exactly where `to` is `from` or
    /// depends on it; then, and out of memory, the edges stay as they were.
    pub fn add_edge(&mut self, from: GroupId, to: GroupId) -> Result<(), EdgeFault>
        ensures added { OnOk result (IsPermutation ((from, to) ∷ self.old) self.new) }
        ensures no_circle { OnOk result (reaches self.old to from ≡ false) }
        ensures refused { IfErr result (IsRefused self.old from to) }
        ensures err { OnErr result (self.new ≡ self.old) }
        ensures acyclic { IsAcyclic self.new }
    {
        make_room(
            self.alloc,
            &self.edges,
            &mut self.levels,
            from.number(),
            to.number(),
        )?;
        self.edges.push(from, to)?;
        Ok(())
    }

    /// Takes one copy of an edge away. Takes no memory.
    pub fn remove_edge(&mut self, from: GroupId, to: GroupId)
        requires { has_edge self.old from to ≡ true }
        ensures removed { IsPermutation self.old ((from, to) ∷ self.new) }
        ensures acyclic { IsAcyclic self.new }
    {
        self.edges.take(from, to);
    }

    /// Whether the one group is the other or depends on it: a path of edges leads there.
    pub fn reaches(&self, from: GroupId, to: GroupId) -> Result<bool, AllocError>
        ensures value { IfOk result (λ r. r ≡ reaches self.now from to) }
        ensures path { IfOk result (λ r. IsTrue r ↔ HasPath self.now from to) }
        ensures acyclic { IsAcyclic self.now }
    {
        if self.levels.of(from.number()) < self.levels.of(to.number()) {
            return Ok(false);
        }
        if !self.levels.has(from.number()) {
            return Ok(from == to);
        }
        let above = with_above(self.alloc, &self.edges, &self.levels, to)?;
        Ok(above.contains(&from))
    }

    /// The edges form no circle; it does nothing.
    pub fn acyclic(&self)
        ensures { IsAcyclic self.now }
    {
        let _ = &self.edges;
    }

    /// Whether a group depends on this one by an edge. Takes no memory.
    pub fn is_needed(&self, node: GroupId) -> bool
        ensures { result ≡ is_needed self.now node }
    {
        self.edges.has_above(node)
    }

    /// The group and all that depend on it, each once, and each before those that depend on it.
    pub fn above(&self, node: GroupId) -> Result<Vec<GroupId>, AllocError>
        ensures value { IfOk result (λ v. IsAbove self.now node v.items) }
        ensures acyclic { IsAcyclic self.now }
    {
        with_above(self.alloc, &self.edges, &self.levels, node)
    }
}
