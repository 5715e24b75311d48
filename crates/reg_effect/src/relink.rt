// The graph of nested groups and factors under a change.
ghost use Rattle.std.specs.Prelude.{◌≡◌, ◌∷◌, false, OnOk};
ghost use Rattle.std.specs.List.Sorted.{IsPermutation};
ghost use Rattle.reg_graph.specs.Edges.{reaches};
ghost use Rattle.reg_effect.specs.declared.live.Change.TheVariants.{RowOn, RowOff, FactorsOn};
ghost use Rattle.reg_effect.specs.declared.live.Change.TheVariants.{FactorsOff};
ghost use Rattle.reg_effect.specs.Changes.{changed, Fits, Suits};
ghost use Rattle.reg_effect.specs.Invariant.{IsCounted};

use crate::{Change, Live};
use reg_base::GroupId;
use reg_graph::{Dag, EdgeFault};
use reg_terms::{Member, SetOp};
use std::alloc::AllocError;

/// One more edge, which closes no circle, so that only memory can be wanting. Out of memory the
/// graph stays as it was.
pub fn link(graph: &mut Dag, from: GroupId, to: GroupId) -> Result<(), AllocError>
    requires { reaches graph.old to from ≡ false }
    ensures { OnOk result (IsPermutation ((from, to) ∷ graph.old) graph.new) }
{
    match graph.add_edge(from, to) {
        Ok(()) => Ok(()),
        Err(EdgeFault::NoMemory) => Err(AllocError),
        Err(EdgeFault::Circular(_)) => unreachable!(),
    }
}

#[tactic(auto, using(crate::proofs::Graphs::counted_person, crate::proofs::Graphs::counted_nested, crate::proofs::Graphs::nested_open))]
fn link_row(live: &Live, graph: &mut Dag, group: GroupId, member: Member) -> Result<(), AllocError>
    requires suits { Suits (RowOn group member) live.now }
    requires counted { IsCounted live.now graph.old }
    ensures { OnOk result (IsCounted (changed (RowOn group member) live.now) graph.new) }
{
    match member {
        Member::Person(_) => Ok(()),
        Member::Group(nested) => link(graph, group, nested),
    }
}

#[tactic(auto, using(crate::proofs::Graphs::counted_person_off, crate::proofs::Graphs::counted_nested_off, crate::proofs::Graphs::nested_stands))]
fn unlink_row(live: &Live, graph: &mut Dag, group: GroupId, member: Member)
    requires fits { Fits (RowOff group member) live.now }
    requires counted { IsCounted live.now graph.old }
    ensures { IsCounted (changed (RowOff group member) live.now) graph.new }
{
    match member {
        Member::Person(_) => (),
        Member::Group(nested) => graph.remove_edge(group, nested),
    }
}

#[tactic(auto, using(crate::proofs::Graphs::counted_factors))]
fn link_factors(
    live: &Live,
    graph: &mut Dag,
    group: GroupId,
    op: SetOp,
    left: GroupId,
    right: GroupId,
) -> Result<(), AllocError>
    requires suits { Suits (FactorsOn group op left right) live.now }
    requires counted { IsCounted live.now graph.old }
    ensures { OnOk result (IsCounted (changed (FactorsOn group op left right) live.now) graph.new) }
{
    let _op = op;
    link(graph, group, left)?;
    link(graph, group, right)
}

#[tactic(auto, using(crate::proofs::Graphs::counted_factors_off, crate::proofs::Graphs::left_stands, crate::proofs::Graphs::right_stands))]
fn unlink_factors(live: &Live, graph: &mut Dag, group: GroupId)
    requires fits { Fits (FactorsOff group) live.now }
    requires counted { IsCounted live.now graph.old }
    ensures { IsCounted (changed (FactorsOff group) live.now) graph.new }
{
    if let Some(composite) = live.composites.of(group) {
        graph.remove_edge(composite.group, composite.left);
        graph.remove_edge(composite.group, composite.right);
    }
}

/// Brings the graph from live data to those after a change.
pub(crate) fn relink(live: &Live, graph: &mut Dag, change: &Change) -> Result<(), AllocError>
    requires suits { Suits change.now live.now }
    requires counted { IsCounted live.now graph.old }
    ensures { OnOk result (IsCounted (changed change.now live.now) graph.new) }
{
    match change {
        Change::RowOn { group, member } => link_row(live, graph, *group, *member),
        Change::RowOff { group, member } => {
            unlink_row(live, graph, *group, *member);
            Ok(())
        }
        Change::FactorsOn {
            group,
            op,
            left,
            right,
        } => link_factors(live, graph, *group, *op, *left, *right),
        Change::FactorsOff { group } => {
            unlink_factors(live, graph, *group);
            Ok(())
        }
    }
}
