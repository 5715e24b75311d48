// The graph of nested groups and factors that stand, under an event.
ghost use Rattle.std.specs.Prelude.{◌≡◌, ℕ, true, false, OnOk};
ghost use Rattle.std.specs.List.Sorted.{IsPermutation};
ghost use Rattle.reg_terms.specs.declared.event.Event.TheVariants.{RowAdded, RowRemoved};
ghost use Rattle.reg_terms.specs.declared.event.Event.TheVariants.{RowRedated, Composed};
ghost use Rattle.reg_terms.specs.declared.event.Event.TheVariants.{Decomposed};
ghost use Rattle.reg_terms.specs.declared.kinds.Member.TheVariants.{Group};
ghost use Rattle.reg_terms.specs.Rows.{has_row};
ghost use Rattle.reg_facts.specs.Events.{happened};
ghost use Rattle.reg_facts.specs.Suiting.{Suits};
ghost use Rattle.reg_graph.specs.Edges.{has_edge};
ghost use Rattle.reg_effect.specs.Edges.{edge_of};
ghost use Rattle.reg_effect.specs.Standing.{standing};
ghost use Rattle.reg_current.specs.Circles.{ClosesNone};

use reg_base::GroupId;
use reg_effect::link;
use reg_facts::{CompositeRow, Event, Facts, Member, MemberRow};
use reg_graph::Dag;
use std::alloc::AllocError;

/// The edge of a row goes, if the row names a group. It takes no memory.
fn unlink(graph: &mut Dag, group: GroupId, member: Member)
    requires { (nested : ℕ) → member ≡ Group nested → has_edge graph.old group nested ≡ true }
    ensures { IsPermutation graph.old (edge_of group member graph.new) }
{
    match member {
        Member::Person(_) => (),
        Member::Group(nested) => graph.remove_edge(group, nested),
    }
}

/// The edge of a row comes, if the row names a group.
fn link_row(graph: &mut Dag, facts: &Facts, row: &MemberRow) -> Result<(), AllocError>
    requires stands { IsPermutation graph.old (standing facts.now.rows facts.now.composites) }
    requires no_circle { ClosesNone (RowAdded row.now) facts.now }
    ensures { OnOk result (IsPermutation graph.new
        (standing (happened (RowAdded row.now) facts.now).rows facts.now.composites)) }
{
    let _facts = facts;
    match row.member {
        Member::Person(_) => Ok(()),
        Member::Group(nested) => link(graph, row.group, nested),
    }
}

/// The edge of a membership that goes.
fn unlink_row(graph: &mut Dag, facts: &Facts, group: GroupId, member: &Member)
    requires stands { IsPermutation graph.old (standing facts.now.rows facts.now.composites) }
    requires there { has_row group member.now facts.now.rows ≡ true }
    ensures { IsPermutation graph.new
        (standing (happened (RowRemoved group member.now) facts.now).rows facts.now.composites) }
{
    facts.law_sound();
    unlink(graph, group, *member);
}

/// The two edges of a composite that comes.
fn link_factors(graph: &mut Dag, facts: &Facts, row: &CompositeRow) -> Result<(), AllocError>
    requires stands { IsPermutation graph.old (standing facts.now.rows facts.now.composites) }
    requires no_circle { ClosesNone (Composed row.now) facts.now }
    ensures { OnOk result (IsPermutation graph.new
        (standing facts.now.rows (happened (Composed row.now) facts.now).composites)) }
{
    let _facts = facts;
    link(graph, row.group, row.left)?;
    link(graph, row.group, row.right)
}

/// The two edges of a group's factors go, if it is a composite.
fn unlink_factors(graph: &mut Dag, facts: &Facts, group: GroupId)
    requires { IsPermutation graph.old (standing facts.now.rows facts.now.composites) }
    ensures { IsPermutation graph.new
        (standing facts.now.rows (happened (Decomposed group) facts.now).composites) }
{
    facts.law_sound();
    if let Some(composite) = facts.composite(group) {
        graph.remove_edge(composite.group, composite.left);
        graph.remove_edge(composite.group, composite.right);
    }
}

/// Brings the graph from the facts to those after an event that closes no circle. Each edge that
/// comes or goes costs what the graph asks for it, and no walk over all rows or edges is made. Out
/// of memory the graph is given up.
#[tactic(auto, using(crate::proofs::Linking::redated_same))]
pub fn relink(graph: &mut Dag, facts: &Facts, event: &Event) -> Result<(), AllocError>
    requires suits { Suits event.now facts.now }
    requires no_circle { ClosesNone event.now facts.now }
    requires stands { IsPermutation graph.old (standing facts.now.rows facts.now.composites) }
    ensures { OnOk result (IsPermutation graph.new
        (standing (happened event.now facts.now).rows (happened event.now facts.now).composites)) }
{
    match event {
        Event::RowAdded { row } => link_row(graph, facts, row),
        Event::RowRemoved { group, member } => {
            unlink_row(graph, facts, *group, member);
            Ok(())
        }
        Event::Composed { row } => link_factors(graph, facts, row),
        Event::Decomposed { group } => {
            unlink_factors(graph, facts, *group);
            Ok(())
        }
        _ => Ok(()),
    }
}
