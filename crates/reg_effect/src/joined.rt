// Persons of two lists put together.
ghost use Rattle.std.specs.Prelude.{◌≡◌, ◌==◌, ◌||◌, ℕ, IfOk, OnOk};
ghost use Rattle.std.specs.List.Sorted.{IsStrictlySortedBy};
ghost use Rattle.std.specs.Ordering.{nat_cmp};
ghost use Rattle.reg_graph.specs.Edges.{among};

use reg_base::SubjectId;
use std::alloc::{AllocError, Global};
use std::collections::BTreeSet;

/// Adds a person.
#[tactic(auto, using(crate::proofs::NamedGroups::named_more))]
fn add(set: &mut BTreeSet<SubjectId>, person: SubjectId) -> Result<(), AllocError>
    ensures { OnOk result ((q : ℕ) → among q set.new.keys
        ≡ ((person == q) || among q set.old.keys)) }
{
    set.insert(person)?;
    Ok(())
}

/// Adds persons.
fn add_all(set: &mut BTreeSet<SubjectId>, persons: &[SubjectId]) -> Result<(), AllocError>
    ensures { OnOk result ((q : ℕ) → among q set.new.keys
        ≡ (among q persons.now || among q set.old.keys)) }
{
    for person in persons {
        add(set, *person)?;
    }
    Ok(())
}

/// The persons of a set, by id.
fn listed(alloc: Global, set: &BTreeSet<SubjectId>) -> Result<Vec<SubjectId>, AllocError>
    ensures items { IfOk result (λ v. v.items ≡ set.now.keys) }
    ensures sorted { IfOk result (λ v. IsStrictlySortedBy nat_cmp v.items) }
{
    let mut persons = Vec::new(alloc);
    for person in set.iter() {
        persons.push(*person)?;
    }
    Ok(persons)
}

/// The persons of either list, by id, each once.
pub(crate) fn joined(
    alloc: Global,
    left: &[SubjectId],
    right: &[SubjectId],
) -> Result<Vec<SubjectId>, AllocError>
    ensures each { IfOk result (λ v. (q : ℕ)
        → among q v.items ≡ (among q left.now || among q right.now)) }
    ensures sorted { IfOk result (λ v. IsStrictlySortedBy nat_cmp v.items) }
{
    let mut set = BTreeSet::new(alloc);
    add_all(&mut set, right)?;
    add_all(&mut set, left)?;
    let persons = listed(alloc, &set)?;
    Ok(persons)
}
