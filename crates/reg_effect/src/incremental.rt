// Effective memberships kept in a set for each group, which a change touches only from its group
// upwards.
ghost use Rattle.std.specs.Prelude.{◌≡◌, ◌+◌, ◌≤◌, ◌||◌, ℕ, IfOk, OnOk, length, [], nat_eq};
ghost use Rattle.std.specs.List.{IsDistinct};
ghost use Rattle.std.specs.List.Sorted.{IsStrictlySortedBy};
ghost use Rattle.std.specs.Ordering.{nat_cmp};
ghost use Rattle.reg_graph.specs.Sets.{holds};
ghost use Rattle.reg_graph.specs.Edges.{among, IsAcyclic};
ghost use Rattle.reg_effect.specs.declared.live.Live.{Live};
ghost use Rattle.reg_effect.specs.Member.{member, level};
ghost use Rattle.reg_effect.specs.Edges.{edges};
ghost use Rattle.reg_effect.specs.Changes.{changed, nothing, Fits, Suits};
ghost use Rattle.reg_effect.specs.Deltas.{members_of, began, ended};
ghost use Rattle.reg_effect.specs.Bound.{asked, asked_by_row, most_steps};
ghost use Rattle.reg_effect.specs.Asked.{asks, asks_of, asks_row};
ghost use Rattle.reg_effect.specs.Invariant.{IsTable};

use crate::joined::joined;
use crate::marks::Marks;
use crate::relink::relink;
use crate::uncounted::{groups, has, list};
use crate::walk::walk;
use crate::{Change, Delta, Kept, Live};
use reg_base::{GroupId, Steps, SubjectId};
use reg_graph::{Dag, Sets};
use reg_terms::{Member, SetOp};
use std::alloc::{AllocError, Global};
use std::marker::Model;
use std::sync::ledger::Ledger;

/// The live data, a set of persons for each group, and the graph of nested groups and factors.
#[derive(Drop)]
pub struct Incremental {
    alloc: Global,
    live: Live,
    sets: Sets,
    graph: Dag,
}

impl Model for Incremental {
    ghost use Rattle.reg_effect.specs.declared.live.Live.{Live};
    ghost use Rattle.reg_effect.specs.Invariant.{IsKept};

    ghost Value = { Live };

    ghost view = { λ k. k.live };

    ghost invariant = { λ k. IsKept k.live k.sets k.graph };
}

/// The members of a group.
#[tactic(auto, using(crate::proofs::Totals::distinct_sorted))]
fn ask_group<L: Ledger>(
    sets: &Sets,
    g: GroupId,
    steps: &mut Steps<L>,
) -> Result<Vec<SubjectId>, AllocError>
    ensures value { IfOk result (λ v. (q : ℕ) → among q v.items ≡ holds g q sets.now) }
    ensures distinct { IfOk result (λ v. IsDistinct nat_eq v.items) }
    ensures cost { OnOk result ((M : Live) → IsTable M sets.now
        → steps.new ≤ steps.old + length (members_of M g)) }
{
    let persons = sets.list(g, steps)?;
    Ok(persons)
}

/// For whom a row of this member asks.
#[tactic(auto, using(crate::proofs::Totals::distinct_one))]
fn ask_row<L: Ledger>(
    alloc: Global,
    sets: &Sets,
    named: Member,
    steps: &mut Steps<L>,
) -> Result<Vec<SubjectId>, AllocError>
    ensures value { IfOk result (λ v. (q : ℕ)
        → among q v.items ≡ asks_row (λ y s. holds y s sets.now) named q) }
    ensures distinct { IfOk result (λ v. IsDistinct nat_eq v.items) }
    ensures cost { OnOk result ((M : Live) → IsTable M sets.now
        → steps.new ≤ steps.old + asked_by_row M named) }
{
    match named {
        Member::Person(person) => {
            let mut persons = Vec::new(alloc);
            persons.push(person)?;
            Ok(persons)
        }
        Member::Group(nested) => ask_group(sets, nested, steps),
    }
}

/// The members of two groups, each person once.
#[tactic(auto, using(crate::proofs::Totals::distinct_sorted, crate::proofs::Totals::both_cost))]
fn ask_both<L: Ledger>(
    alloc: Global,
    sets: &Sets,
    left: GroupId,
    right: GroupId,
    steps: &mut Steps<L>,
) -> Result<Vec<SubjectId>, AllocError>
    ensures value { IfOk result (λ v. (q : ℕ)
        → among q v.items ≡ (holds left q sets.now || holds right q sets.now)) }
    ensures distinct { IfOk result (λ v. IsDistinct nat_eq v.items) }
    ensures cost { OnOk result ((M : Live) → IsTable M sets.now
        → steps.new ≤ steps.old + (length (members_of M left) + length (members_of M right))) }
{
    let of_left = ask_group(sets, left, steps)?;
    let of_right = ask_group(sets, right, steps)?;
    let persons = joined(alloc, of_left.as_slice(), of_right.as_slice())?;
    Ok(persons)
}

/// The persons whom a composite of two factors may have.
#[tactic(auto, using(crate::proofs::Totals::left_cost))]
fn ask_factors<L: Ledger>(
    alloc: Global,
    sets: &Sets,
    op: SetOp,
    left: GroupId,
    right: GroupId,
    steps: &mut Steps<L>,
) -> Result<Vec<SubjectId>, AllocError>
    ensures value { IfOk result (λ v. (q : ℕ)
        → among q v.items ≡ asks_of op (holds left q sets.now) (holds right q sets.now)) }
    ensures distinct { IfOk result (λ v. IsDistinct nat_eq v.items) }
    ensures cost { OnOk result ((M : Live) → IsTable M sets.now
        → steps.new ≤ steps.old + (length (members_of M left) + length (members_of M right))) }
{
    match op {
        SetOp::Intersection => ask_group(sets, left, steps),
        SetOp::Complement => ask_group(sets, left, steps),
        SetOp::Union => ask_both(alloc, sets, left, right, steps),
    }
}

/// The persons whose membership of the change's group may differ after it.
fn ask<L: Ledger>(
    alloc: Global,
    sets: &Sets,
    change: &Change,
    steps: &mut Steps<L>,
) -> Result<Vec<SubjectId>, AllocError>
    ensures value { IfOk result (λ v. (q : ℕ)
        → among q v.items ≡ asks change.now (λ y s. holds y s sets.now) q) }
    ensures distinct { IfOk result (λ v. IsDistinct nat_eq v.items) }
    ensures cost { OnOk result ((M : Live) → IsTable M sets.now → Fits change.now M
        → steps.new ≤ steps.old + asked change.now M) }
{
    match change {
        Change::RowOn { member, .. } => ask_row(alloc, sets, *member, steps),
        Change::RowOff { member, .. } => ask_row(alloc, sets, *member, steps),
        Change::FactorsOn {
            op,
            left,
            right,
            ..
        } => ask_factors(alloc, sets, *op, *left, *right, steps),
        Change::FactorsOff { group } => ask_group(sets, *group, steps),
    }
}

impl Incremental {
    /// Changes the live data and the sets.
    fn apply<L: Ledger>(
        self,
        change: &Change,
        steps: &mut Steps<L>,
    ) -> Result<(Incremental, Delta), AllocError>
        requires { Suits change.now self }
        ensures live { IfOk result (λ r. r.0 ≡ changed change.now self) }
        ensures began { IfOk result (λ r. r.1.began ≡ began self (changed change.now self)) }
        ensures ended { IfOk result (λ r. r.1.ended ≡ ended self (changed change.now self)) }
        ensures cost { OnOk result (steps.new ≤ steps.old + most_steps change.now self) }
    {
        let Incremental {
            alloc,
            live,
            sets,
            graph,
        } = self;
        let (mut live, mut sets, mut graph) = (live, sets, graph);
        let group = change.group();
        let asked = ask(alloc, &sets, change, steps)?;
        relink(&live, &mut graph, change)?;
        live.edit(change)?;
        let mut began = Marks::new(alloc);
        let mut ended = Marks::new(alloc);
        walk(
            alloc,
            &live,
            &graph,
            group,
            &mut sets,
            &mut began,
            &mut ended,
            asked.as_slice(),
            steps,
        )?;
        let began = began.list()?;
        let ended = ended.list()?;
        Ok((
            Incremental {
                alloc,
                live,
                sets,
                graph,
            },
            Delta { began, ended },
        ))
    }
}

impl Kept for Incremental {
    ghost held = { λ k. k };

    fn start(alloc: Global) -> Result<Self, AllocError> {
        Ok(Incremental {
            alloc,
            live: Live::new(alloc),
            sets: Sets::new(alloc),
            graph: Dag::new(alloc),
        })
    }

    fn live(&self) -> &Live {
        &self.live
    }

    fn is_member(&self, g: GroupId, s: SubjectId) -> bool {
        has(&self.sets, g, s)
    }

    fn members(&self, g: GroupId) -> Result<Vec<SubjectId>, AllocError> {
        let subjects = list(&self.sets, g)?;
        Ok(subjects)
    }

    fn groups_of(&self, s: SubjectId) -> Result<Vec<GroupId>, AllocError> {
        groups(&self.sets, s)
    }

    fn change<L: Ledger>(
        self,
        change: &Change,
        steps: &mut Steps<L>,
    ) -> Result<(Self, Delta), AllocError> {
        self.apply(change, steps)
    }
}
