// Effective memberships under changes of live data.
ghost use Rattle.std.specs.Prelude.{◌≡◌, ◌+◌, ◌≤◌, ℕ, IfOk, OnOk};
ghost use Rattle.std.specs.List.Sorted.{IsStrictlySortedBy};
ghost use Rattle.std.specs.Ordering.{nat_cmp};
ghost use Rattle.reg_graph.specs.Edges.{IsAcyclic, among};
ghost use Rattle.reg_effect.specs.declared.live.Live.{Live};
ghost use Rattle.reg_effect.specs.Member.{member, level};
ghost use Rattle.reg_effect.specs.Edges.{edges};
ghost use Rattle.reg_effect.specs.Asked.{IsWell};
ghost use Rattle.reg_effect.specs.Changes.{changed, nothing, Suits};
ghost use Rattle.reg_effect.specs.Deltas.{members_of, began, ended};
ghost use Rattle.reg_effect.specs.Bound.{most_steps};

use crate::{Change, Delta, Live};
use reg_base::{GroupId, Steps, SubjectId};
use std::alloc::{AllocError, Global};
use std::sync::ledger::Ledger;

/// The effective memberships of live data, however they are kept.
pub trait Kept: Drop {
    /// The live data.
    ghost held: { Self → Live };

    /// No rows and no composites.
    fn start(alloc: Global) -> Result<Self, AllocError>
        ensures { IfOk result (λ k. held k ≡ nothing) };

    /// The live data. No path of nested groups and factors leads back to where it began, each group
    /// is a composite once at most, and a composite has no rows.
    fn live(&self) -> &Live
        ensures live { result.now ≡ held self.now }
        ensures no_circle { IsAcyclic (edges (held self.now)) }
        ensures well { IsWell (held self.now) };

    /// Whether the person is an effective member of the group: one of a composite as its factors
    /// say, and of another group where a row names the person or a group that has the person. Takes
    /// no memory.
    fn is_member(&self, g: GroupId, s: SubjectId) -> bool
        ensures value { result ≡ member (held self.now) g s }
        ensures by_level { result ≡ level (λ h. member (held self.now) h s) (held self.now) g s };

    /// The effective members of the group, by id, each once.
    fn members(&self, g: GroupId) -> Result<Vec<SubjectId>, AllocError>
        ensures value { IfOk result (λ v. v.items ≡ members_of (held self.now) g) }
        ensures each { IfOk result (λ v. (q : ℕ) → among q v.items ≡ member (held self.now) g q) }
        ensures sorted { IfOk result (λ v. IsStrictlySortedBy nat_cmp v.items) };

    /// The groups of which the person is an effective member, by id, each once.
    fn groups_of(&self, s: SubjectId) -> Result<Vec<GroupId>, AllocError>
        ensures each { IfOk result (λ v. (g : ℕ) → among g v.items ≡ member (held self.now) g s) }
        ensures sorted { IfOk result (λ v. IsStrictlySortedBy nat_cmp v.items) };

    /// Changes the live data, and gives what that begins and ends. A step is one person tested,
    /// added, removed or listed in a group's set. Out of memory the value is given up.
    fn change<L: Ledger>(
        self,
        change: &Change,
        steps: &mut Steps<L>,
    ) -> Result<(Self, Delta), AllocError>
        requires { Suits change.now (held self) }
        ensures live { IfOk result (λ r. held r.0 ≡ changed change.now (held self)) }
        ensures began { IfOk result (λ r. r.1.began
            ≡ began (held self) (changed change.now (held self))) }
        ensures ended { IfOk result (λ r. r.1.ended
            ≡ ended (held self) (changed change.now (held self))) }
        ensures cost { OnOk result (steps.new ≤ steps.old + most_steps change.now (held self)) };
}
