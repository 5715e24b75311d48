// The sets of one group after another are brought up to date.
ghost use Rattle.std.specs.Prelude.{◌≡◌, ◌==◌, ◌&&◌, ◌||◌, ◌+◌, ◌*◌, ◌≤◌, ℕ, IfOk, OnOk, length};
ghost use Rattle.std.specs.Prelude.{false, filter, [], if◌then◌else◌};
ghost use Rattle.std.specs.List.{list_any};
ghost use Rattle.reg_graph.specs.Sets.{holds};
ghost use Rattle.reg_graph.specs.Edges.{has_edge, among, IsAcyclic};
ghost use Rattle.reg_effect.specs.Member.{level, member};
ghost use Rattle.reg_effect.specs.Edges.{edges};
ghost use Rattle.reg_effect.specs.Order.{nested};
ghost use Rattle.reg_effect.specs.Asked.{Once};
ghost use Rattle.reg_effect.specs.Bound.{leaving, most_climb};
ghost use Rattle.reg_effect.specs.Walk.{differ, begins, ends, Passed, Touches};
ghost use Rattle.reg_effect.specs.Invariant.{IsCounted};

use crate::combine::combine;
use crate::marks::Marks;
use crate::{Live, Rows};
use reg_base::{GroupId, Steps, SubjectId};
use reg_graph::{Dag, Sets};
use reg_terms::Member;
use std::alloc::{AllocError, Global};
use std::sync::ledger::Ledger;

/// Whether one of the groups that the group's rows name has the person. The next such group and
/// the person's next group are sought in turn, each from the other's id on: so of many nested
/// groups no more are looked at than the person's groups and one.
fn any_nested<L: Ledger>(
    rows: &Rows,
    sets: &Sets,
    g: GroupId,
    s: SubjectId,
    steps: &mut Steps<L>,
) -> bool
    ensures value { result ≡ list_any (λ h. holds h s sets.now) (nested g rows.now) }
    ensures cost { steps.new ≤ steps.old + length (nested g rows.now) }
{
    let mut from = GroupId::new(0);
    while let Some(named) = rows.nested_from(g, from) {
        let Some(having) = sets.group_from(s, named, steps) else {
            return false;
        };
        if having == named {
            return true;
        }
        from = having;
    }
    false
}

/// Whether the group has the person, by the sets of the groups below it.
#[tactic(auto, using(crate::proofs::Own::by_rows, crate::proofs::Own::by_factors, crate::proofs::Own::rows_cost, crate::proofs::Own::factors_cost))]
fn test<L: Ledger>(live: &Live, sets: &Sets, g: GroupId, s: SubjectId, steps: &mut Steps<L>) -> bool
    requires once { Once live.now.composites }
    ensures value { result ≡ level (λ h. holds h s sets.now) live.now g s }
    ensures cost { steps.new ≤ steps.old + leaving (edges live.now) g }
{
    if let Some(composite) = live.composites.of(g) {
        let left = sets.has(composite.left, s, steps);
        let right = sets.has(composite.right, s, steps);
        return combine(composite.op, left, right);
    }
    if live.rows.has(g, Member::Person(s)) {
        return true;
    }
    any_nested(&live.rows, sets, g, s, steps)
}

/// Brings one person's membership of one group up to date, and says whether it changed.
fn update<L: Ledger>(
    live: &Live,
    sets: &mut Sets,
    began: &mut Marks,
    ended: &mut Marks,
    g: GroupId,
    s: SubjectId,
    steps: &mut Steps<L>,
) -> Result<bool, AllocError>
    requires once { Once live.now.composites }
    ensures changed { IfOk result (λ b. b
        ≡ differ (holds g s sets.old) (level (λ h. holds h s sets.old) live.now g s)) }
    ensures sets { OnOk result ((y q : ℕ)
        → holds y q sets.new ≡ (if (y == g) && (q == s)
        then level (λ h. holds h s sets.old) live.now g s else holds y q sets.old)) }
    ensures began { OnOk result ((y q : ℕ)
        → holds y q began.new ≡ ((((y == g) && (q == s))
        && begins (holds g s sets.old) (level (λ h. holds h s sets.old) live.now g s))
        || holds y q began.old)) }
    ensures ended { OnOk result ((y q : ℕ)
        → holds y q ended.new ≡ ((((y == g) && (q == s))
        && ends (holds g s sets.old) (level (λ h. holds h s sets.old) live.now g s))
        || holds y q ended.old)) }
    ensures cost { steps.new ≤ steps.old + leaving (edges live.now) g + 2 }
{
    if test(live, sets, g, s, steps) {
        let lacked = sets.add(g, s, steps)?;
        if lacked {
            began.add(g, s)?;
        }
        return Ok(lacked);
    }
    let had = sets.remove(g, s, steps);
    if had {
        ended.add(g, s)?;
    }
    Ok(had)
}

/// Brings the persons' memberships of a group up to date, and gives those that changed.
fn pass<L: Ledger>(
    alloc: Global,
    live: &Live,
    sets: &mut Sets,
    began: &mut Marks,
    ended: &mut Marks,
    g: GroupId,
    persons: &[SubjectId],
    steps: &mut Steps<L>,
) -> Result<Vec<SubjectId>, AllocError>
    requires loop_free { has_edge (edges live.now) g g ≡ false }
    requires once { Once live.now.composites }
    ensures changed { IfOk result (λ v. (q : ℕ)
        → among q v.items ≡ (among q persons.now
        && differ (holds g q sets.old) (level (λ h. holds h q sets.old) live.now g q))) }
    ensures sets { OnOk result
        (Passed sets.old sets.new g
        (λ q. level (λ h. holds h q sets.old) live.now g q) persons.now) }
    ensures began { OnOk result ((y q : ℕ)
        → holds y q began.new ≡ ((((y == g) && among q persons.now)
        && begins (holds g q sets.old) (level (λ h. holds h q sets.old) live.now g q))
        || holds y q began.old)) }
    ensures ended { OnOk result ((y q : ℕ)
        → holds y q ended.new ≡ ((((y == g) && among q persons.now)
        && ends (holds g q sets.old) (level (λ h. holds h q sets.old) live.now g q))
        || holds y q ended.old)) }
    ensures few { IfOk result (λ v. length v.items
        ≤ length (filter (λ q. differ (holds g q sets.old)
        (level (λ h. holds h q sets.old) live.now g q)) persons.now)) }
    ensures cost { OnOk result (steps.new
        ≤ steps.old + length persons.now * (leaving (edges live.now) g + 2)) }
{
    let mut changed = Vec::new(alloc);
    for s in persons {
        if update(live, sets, began, ended, g, *s, steps)? {
            changed.push(*s)?;
        }
    }
    Ok(changed)
}

/// Brings the sets to the live data after a change of the group `g`: first that group for the
/// persons who are asked, and then the groups above it, each after those that it depends on, for
/// the persons whose membership of `g` changed.
pub(crate) fn walk<L: Ledger>(
    alloc: Global,
    live: &Live,
    graph: &Dag,
    g: GroupId,
    sets: &mut Sets,
    began: &mut Marks,
    ended: &mut Marks,
    asked: &[SubjectId],
    steps: &mut Steps<L>,
) -> Result<(), AllocError>
    requires no_circle { IsAcyclic (edges live.now) }
    requires once { Once live.now.composites }
    requires counted { IsCounted live.now graph.now }
    requires touches { Touches (λ y q. holds y q sets.old) live.now g }
    requires asked { (q : ℕ) → among q asked.now ≡ false
        → holds g q sets.old ≡ member live.now g q }
    requires none_began { began.old ≡ [] }
    requires none_ended { ended.old ≡ [] }
    ensures sets { OnOk result ((y q : ℕ) → holds y q sets.new ≡ member live.now y q) }
    ensures began { OnOk result ((y q : ℕ)
        → holds y q began.new ≡ begins (holds y q sets.old) (member live.now y q)) }
    ensures ended { OnOk result ((y q : ℕ)
        → holds y q ended.new ≡ ends (holds y q sets.old) (member live.now y q)) }
    ensures cost { OnOk result (steps.new
        ≤ steps.old + length asked.now * (leaving (edges live.now) g + 2)
        + length (filter (λ q. differ (holds g q sets.old) (member live.now g q)) asked.now)
        * most_climb (edges live.now) g) }
{
    let changed = pass(alloc, live, sets, began, ended, g, asked, steps)?;
    if changed.is_empty() {
        return Ok(());
    }
    let above = graph.above(g)?;
    for x in &above {
        if *x != g {
            let _changed = pass(
                alloc,
                live,
                sets,
                began,
                ended,
                *x,
                changed.as_slice(),
                steps,
            )?;
        }
    }
    Ok(())
}
