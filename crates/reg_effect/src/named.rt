// The groups that rows and composites name.
ghost use Rattle.std.specs.Prelude.{◌≡◌, ◌==◌, ◌&&◌, ◌||◌, ℕ, IfOk, OnOk};
ghost use Rattle.std.specs.List.Sorted.{IsStrictlySortedBy};
ghost use Rattle.std.specs.Ordering.{nat_cmp};
ghost use Rattle.reg_terms.specs.Rows.{is_composite};
ghost use Rattle.reg_graph.specs.Sets.{holds};
ghost use Rattle.reg_graph.specs.Edges.{among};
ghost use Rattle.reg_effect.specs.Order.{has_live_rows};

use crate::Live;
use crate::marks::Marks;
use reg_base::{GroupId, SubjectId};
use reg_terms::{CompositeRow, Member};
use std::alloc::{AllocError, Global};
use std::collections::BTreeSet;

/// Adds a group.
#[tactic(auto, using(crate::proofs::NamedGroups::named_more))]
fn add(groups: &mut BTreeSet<GroupId>, group: GroupId) -> Result<(), AllocError>
    ensures { OnOk result ((g : ℕ) → among g groups.new.keys
        ≡ ((group == g) || among g groups.old.keys)) }
{
    groups.insert(group)?;
    Ok(())
}

/// Adds the groups that have rows.
fn add_rows(rows: &[(GroupId, Member)], groups: &mut BTreeSet<GroupId>) -> Result<(), AllocError>
    ensures { OnOk result ((g : ℕ) → among g groups.new.keys
        ≡ (has_live_rows g rows.now || among g groups.old.keys)) }
{
    for row in rows {
        add(groups, row.0)?;
    }
    Ok(())
}

/// Adds the groups that are composites.
fn add_composites(
    composites: &[CompositeRow],
    groups: &mut BTreeSet<GroupId>,
) -> Result<(), AllocError>
    ensures { OnOk result ((g : ℕ) → among g groups.new.keys
        ≡ (is_composite g composites.now || among g groups.old.keys)) }
{
    for composite in composites {
        add(groups, composite.group)?;
    }
    Ok(())
}

/// The groups that have rows or are composites: no other one has members.
pub(crate) fn named(alloc: Global, live: &Live) -> Result<BTreeSet<GroupId>, AllocError>
    ensures { IfOk result (λ groups. (g : ℕ) → among g groups.keys
        ≡ (is_composite g live.now.composites || has_live_rows g live.now.rows)) }
{
    let rows = live.rows.list()?;
    let composites = live.composites.list()?;
    let mut groups = BTreeSet::new(alloc);
    add_rows(rows.as_slice(), &mut groups)?;
    add_composites(composites.as_slice(), &mut groups)?;
    Ok(groups)
}

/// Those of the groups that have the person by the table, by id.
pub(crate) fn having(
    alloc: Global,
    table: &Marks,
    groups: &BTreeSet<GroupId>,
    s: SubjectId,
) -> Result<Vec<GroupId>, AllocError>
    ensures each { IfOk result (λ v. (g : ℕ) → among g v.items
        ≡ (holds g s table.now && among g groups.now.keys)) }
    ensures sorted { IfOk result (λ v. IsStrictlySortedBy nat_cmp v.items) }
{
    let mut found = Vec::new(alloc);
    for group in groups.iter() {
        if table.has(*group, s) {
            found.push(*group)?;
        }
    }
    Ok(found)
}
