// Questions to the sets by callers that count no steps.
ghost use Rattle.std.specs.Prelude.{◌≡◌, ◌<◌, ℕ, IfOk};
ghost use Rattle.std.specs.List.Sorted.{IsStrictlySortedBy};
ghost use Rattle.std.specs.Ordering.{nat_cmp};
ghost use Rattle.reg_graph.specs.Sets.{holds};
ghost use Rattle.reg_graph.specs.Edges.{among};

use reg_base::{GroupId, Steps, SubjectId};
use reg_graph::Sets;
use std::alloc::AllocError;
use std::marker::Brand;
use std::sync::ledger::{Blank, Ledger};

fn has_from<L: Ledger>(sets: &Sets, g: GroupId, s: SubjectId, blank: Blank) -> bool
    requires name { blank.name ≡ L.name }
    requires parts { blank.parts ≡ L.parts }
    requires some { 0 < blank.parts }
    ensures { result ≡ holds g s sets.now }
{
    let mut steps = Steps::<L>::open(blank);
    sets.has(g, s, &mut steps)
}

/// Whether the group has the person.
pub(crate) fn has(sets: &Sets, g: GroupId, s: SubjectId) -> bool
    ensures { result ≡ holds g s sets.now }
{
    has_from::<Brand>(sets, g, s, Blank::new(1))
}

fn list_from<L: Ledger>(sets: &Sets, g: GroupId, blank: Blank) -> Result<Vec<SubjectId>, AllocError>
    requires name { blank.name ≡ L.name }
    requires parts { blank.parts ≡ L.parts }
    requires some { 0 < blank.parts }
    ensures each { IfOk result (λ v. (q : ℕ) → among q v.items ≡ holds g q sets.now) }
    ensures sorted { IfOk result (λ v. IsStrictlySortedBy nat_cmp v.items) }
{
    let mut steps = Steps::<L>::open(blank);
    sets.list(g, &mut steps)
}

/// The persons of the group, by id.
pub(crate) fn list(sets: &Sets, g: GroupId) -> Result<Vec<SubjectId>, AllocError>
    ensures each { IfOk result (λ v. (q : ℕ) → among q v.items ≡ holds g q sets.now) }
    ensures sorted { IfOk result (λ v. IsStrictlySortedBy nat_cmp v.items) }
{
    list_from::<Brand>(sets, g, Blank::new(1))
}

fn groups_from<L: Ledger>(
    sets: &Sets,
    s: SubjectId,
    blank: Blank,
) -> Result<Vec<GroupId>, AllocError>
    requires name { blank.name ≡ L.name }
    requires parts { blank.parts ≡ L.parts }
    requires some { 0 < blank.parts }
    ensures each { IfOk result (λ v. (g : ℕ) → among g v.items ≡ holds g s sets.now) }
    ensures sorted { IfOk result (λ v. IsStrictlySortedBy nat_cmp v.items) }
{
    let mut steps = Steps::<L>::open(blank);
    sets.groups(s, &mut steps)
}

/// The groups of the person, by id, at the cost of what they are.
pub(crate) fn groups(sets: &Sets, s: SubjectId) -> Result<Vec<GroupId>, AllocError>
    ensures each { IfOk result (λ v. (g : ℕ) → among g v.items ≡ holds g s sets.now) }
    ensures sorted { IfOk result (λ v. IsStrictlySortedBy nat_cmp v.items) }
{
    groups_from::<Brand>(sets, s, Blank::new(1))
}
