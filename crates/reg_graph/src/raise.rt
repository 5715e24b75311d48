// Levels that make room for one more edge.
ghost use Rattle.std.specs.Prelude.{◌≡◌, ◌==◌, ◌&&◌, ◌||◌, ◌⊎◌, ◌≤◌, ◌<◌, ℕ, IfOk, IfErr, OnOk};
ghost use Rattle.std.specs.Prelude.{true, max, if◌then◌else◌};
ghost use Rattle.reg_graph.specs.Edges.{has_edge, IsRefused};
ghost use Rattle.reg_graph.specs.Levels.{level_of, has_level, IsLevelled, planned, target};
ghost use Rattle.reg_graph.specs.Levels.{IsRising, wanted, awaits};

use crate::EdgeFault;
use crate::edges::Edges;
use crate::levels::Levels;
use reg_base::GroupId;
use std::alloc::{AllocError, Global};
use std::collections::BTreeMap;

/// A group that waits at its level shall have at least this one.
fn ask(
    pending: &mut BTreeMap<(u64, u32), u64>,
    old: u64,
    group: u32,
    level: u64,
) -> Result<(), AllocError>
    ensures level { OnOk result ((l q : ℕ) → wanted pending.new.entries l q
        ≡ (if (l == old) && (q == group) then max (wanted pending.old.entries l q) level
        else wanted pending.old.entries l q)) }
    ensures written { OnOk result ((l q : ℕ) → awaits pending.new.entries l q
        ≡ (((l == old) && (q == group)) || awaits pending.old.entries l q)) }
{
    let wanted = pending.get(&(old, group)).copied().unwrap_or(0);
    pending.insert((old, group), wanted.max(level))?;
    Ok(())
}

/// A group comes to this level: those right above it that aren't higher shall be.
fn ask_above(
    edges: &Edges,
    levels: &Levels,
    group: u32,
    level: u64,
    pending: &mut BTreeMap<(u64, u32), u64>,
) -> Result<(), AllocError>
    ensures more { OnOk result ((l q : ℕ) →
        wanted pending.old.entries l q ≤ wanted pending.new.entries l q) }
    ensures raised { OnOk result ((q : ℕ) → has_edge edges.now q group ≡ true
        → level < max (level_of levels.now q)
        (wanted pending.new.entries (level_of levels.now q) q)) }
    ensures only { OnOk result ((l q : ℕ) → awaits pending.new.entries l q ≡ true
        → (awaits pending.old.entries l q ≡ true)
        ⊎ ((l ≡ level_of levels.now q) × (has_edge edges.now q group ≡ true))) }
{
    let Some(next) = level.checked_add(1) else {
        return Err(AllocError);
    };
    let above = edges.above(group)?;
    for higher in &above {
        let old = levels.of(*higher);
        if old <= level {
            ask(pending, old, *higher, next)?;
        }
    }
    Ok(())
}

/// Which groups have to come to which levels before an edge goes from one group to the other, the
/// lowest first.
fn plan(
    alloc: Global,
    edges: &Edges,
    levels: &Levels,
    from: u32,
    to: u32,
) -> Result<Vec<(u32, u64)>, EdgeFault>
    requires { IsLevelled edges.now levels.now }
    ensures falls { IfOk result (λ plan. (x y : ℕ) → has_edge edges.now x y ≡ true
        → target (level_of levels.now) plan.items y < target (level_of levels.now) plan.items x) }
    ensures rising { IfOk result (λ plan. IsRising (level_of levels.now) plan.items) }
    ensures raised { IfOk result (λ plan.
        level_of levels.now to < target (level_of levels.now) plan.items from) }
    ensures stays { IfOk result (λ plan. planned plan.items to ≡ 0) }
    ensures err { IfErr result (IsRefused edges.now from to) }
{
    let Some(next) = levels.of(to).checked_add(1) else {
        return Err(EdgeFault::NoMemory);
    };
    let mut plan = Vec::new(alloc);
    let mut pending = BTreeMap::new(alloc);
    ask(&mut pending, levels.of(from), from, next)?;
    while let Some(((_, group), level)) = pending.pop_first() {
        if group == to {
            return Err(EdgeFault::Circular(GroupId::new(to)));
        }
        plan.push((group, level))?;
        ask_above(edges, levels, group, level, &mut pending)?;
    }
    Ok(plan)
}

/// Raises a group above another, and what depends on it as far as it must, the highest first: so
/// the levels fall along each edge at every step.
fn raise(
    alloc: Global,
    edges: &Edges,
    levels: &mut Levels,
    from: u32,
    to: u32,
) -> Result<(), EdgeFault>
    requires { IsLevelled edges.now levels.old }
    ensures levelled { IsLevelled edges.now levels.new }
    ensures above { OnOk result (level_of levels.new to < level_of levels.new from) }
    ensures err { IfErr result (IsRefused edges.now from to) }
{
    let mut plan = plan(alloc, edges, levels, from, to)?;
    while let Some((group, level)) = plan.pop() {
        let level = levels.of(group).max(level);
        levels.set(group, level)?;
    }
    Ok(())
}

/// Makes the level of a group greater than another's. Where nothing is known to stand below the
/// other group, that one may sink instead.
fn order_levels(
    alloc: Global,
    edges: &Edges,
    levels: &mut Levels,
    from: u32,
    to: u32,
) -> Result<(), EdgeFault>
    requires { IsLevelled edges.now levels.old }
    ensures levelled { IsLevelled edges.now levels.new }
    ensures above { OnOk result (level_of levels.new to < level_of levels.new from) }
    ensures err { IfErr result (IsRefused edges.now from to) }
{
    let level = levels.of(from);
    if levels.of(to) < level {
        return Ok(());
    }
    if 0 < level && from != to && !levels.has(to) {
        levels.set(to, level - 1)?;
        return Ok(());
    }
    raise(alloc, edges, levels, from, to)
}

/// Makes the levels such that an edge may go from one group to the other, or finds that it would
/// close a circle.
pub(crate) fn make_room(
    alloc: Global,
    edges: &Edges,
    levels: &mut Levels,
    from: u32,
    to: u32,
) -> Result<(), EdgeFault>
    requires { IsLevelled edges.now levels.old }
    ensures levelled { IsLevelled edges.now levels.new }
    ensures above { OnOk result (level_of levels.new to < level_of levels.new from) }
    ensures written { OnOk result (has_level levels.new from ≡ true) }
    ensures err { IfErr result (IsRefused edges.now from to) }
{
    order_levels(alloc, edges, levels, from, to)?;
    let level = levels.of(from);
    levels.set(from, level)?;
    Ok(())
}
