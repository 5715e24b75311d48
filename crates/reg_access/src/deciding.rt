// Who may do what.
ghost use Rattle.std.specs.Prelude.{◌≡◌, ◌==◌, ◌&&◌, ◌||◌, not, ℕ, IfOk, OnOk};
ghost use Rattle.std.specs.List.Sorted.{IsStrictlySortedBy};
ghost use Rattle.std.specs.Ordering.{nat_cmp};
ghost use Rattle.reg_effect.specs.Member.{member};
ghost use Rattle.reg_graph.specs.Edges.{among};
ghost use Rattle.reg_access.specs.Grounds.{AreDecided, AreThose, allows, first_of, ground_of};
ghost use Rattle.reg_access.specs.Grounds.{grounds, grounds_among, is_allowed, is_resource};

use crate::Ground;
use crate::covering::is_permission;
use crate::spoken::statements;
use crate::statement::Statement;
use reg_base::{AttrId, GroupId, SubjectId};
use reg_effect::Kept;
use reg_facts::Facts;
use std::alloc::{AllocError, Global};
use std::collections::BTreeSet;

/// Whether an attribute is a resource: it stands, and by its definition its values are texts,
/// several of which may stand in one assignment, and it is assigned to groups. It takes no memory.
pub fn is_resource(facts: &Facts, attribute: AttrId) -> bool
    ensures { result ≡ is_resource attribute facts.now }
{
    match facts.definition_of(attribute) {
        Some(row) => is_permission(row),
        None => false,
    }
}

fn ground_of(statement: &Statement) -> Ground
    ensures { result ≡ ground_of statement.now }
{
    Ground {
        assign: statement.source.assign,
        place: statement.place as u64,
        allow: statement.saying.allow,
    }
}

/// Those of some statements that are of a group that has the person.
fn grounds_among<K: Kept>(
    alloc: Global,
    kept: &K,
    subject: SubjectId,
    statements: &[Statement],
) -> Result<Vec<Ground>, AllocError>
    ensures { IfOk result (λ found. found.items
        ≡ grounds_among (K.held kept.now) subject statements.now) }
{
    let mut found = Vec::new(alloc);
    for statement in statements {
        if kept.is_member(statement.source.group, subject) {
            found.push(ground_of(statement))?;
        }
    }
    Ok(found)
}

/// What counts for a person and an action on a resource, in the order in which it counts.
pub(crate) fn grounds<K: Kept>(
    alloc: Global,
    facts: &Facts,
    kept: &K,
    subject: SubjectId,
    resource: AttrId,
    action: &[u8],
) -> Result<Vec<Ground>, AllocError>
    ensures { IfOk result (λ found. found.items
        ≡ grounds (K.held kept.now) facts.now subject resource action.now) }
{
    let statements = statements(alloc, facts, resource, action)?;
    grounds_among(alloc, kept, subject, &statements)
}

/// What decides whether a person is allowed an action on a resource: the first of the grounds.
pub(crate) fn permit<K: Kept>(
    alloc: Global,
    facts: &Facts,
    kept: &K,
    subject: SubjectId,
    resource: AttrId,
    action: &[u8],
) -> Result<Option<Ground>, AllocError>
    ensures { IfOk result (λ found. found
        ≡ first_of (grounds (K.held kept.now) facts.now subject resource action.now)) }
{
    let grounds = grounds(alloc, facts, kept, subject, resource, action)?;
    match grounds.first() {
        Some(ground) => Ok(Some(*ground)),
        None => Ok(None),
    }
}

/// Adds a person, and says whether it is new.
#[tactic(auto, using(crate::proofs::Sets::one_more, crate::proofs::Sets::is_new))]
fn add(persons: &mut BTreeSet<SubjectId>, person: SubjectId) -> Result<bool, AllocError>
    ensures is_new { IfOk result (λ is_new. is_new ≡ not (among person persons.old.keys)) }
    ensures added { OnOk result ((q : ℕ) → among q persons.new.keys
        ≡ ((person == q) || among q persons.old.keys)) }
{
    let is_new = persons.insert(person)?;
    Ok(is_new)
}

/// Adds a person if this is so.
fn add_if(
    persons: &mut BTreeSet<SubjectId>,
    person: SubjectId,
    is_so: bool,
) -> Result<(), AllocError>
    ensures { OnOk result ((q : ℕ) → among q persons.new.keys
        ≡ ((is_so && (person == q)) || among q persons.old.keys)) }
{
    if is_so {
        add(persons, person)?;
    }
    Ok(())
}

/// Decides of a person, unless that is done.
fn decide_person(
    decided: &mut BTreeSet<SubjectId>,
    allowed: &mut BTreeSet<SubjectId>,
    person: SubjectId,
    allow: bool,
) -> Result<(), AllocError>
    ensures decided { OnOk result ((q : ℕ) → among q decided.new.keys
        ≡ ((person == q) || among q decided.old.keys)) }
    ensures allowed { OnOk result ((q : ℕ) → among q allowed.new.keys
        ≡ ((allow && ((person == q) && not (among q decided.old.keys)))
        || among q allowed.old.keys)) }
{
    let is_new = add(decided, person)?;
    add_if(allowed, person, is_new && allow)
}

/// Decides of those of some persons of whom it isn't done.
fn decide(
    decided: &mut BTreeSet<SubjectId>,
    allowed: &mut BTreeSet<SubjectId>,
    persons: &[SubjectId],
    allow: bool,
) -> Result<(), AllocError>
    ensures decided { OnOk result ((q : ℕ) → among q decided.new.keys
        ≡ (among q persons.now || among q decided.old.keys)) }
    ensures allowed { OnOk result ((q : ℕ) → among q allowed.new.keys
        ≡ ((allow && (among q persons.now && not (among q decided.old.keys)))
        || among q allowed.old.keys)) }
{
    for person in persons {
        decide_person(decided, allowed, *person, allow)?;
    }
    Ok(())
}

/// Decides of those members of a group of whom it isn't done.
fn decide_members<K: Kept>(
    kept: &K,
    decided: &mut BTreeSet<SubjectId>,
    allowed: &mut BTreeSet<SubjectId>,
    group: GroupId,
    allow: bool,
) -> Result<(), AllocError>
    ensures decided { OnOk result ((q : ℕ) → among q decided.new.keys
        ≡ (member (K.held kept.now) group q || among q decided.old.keys)) }
    ensures allowed { OnOk result ((q : ℕ) → among q allowed.new.keys
        ≡ ((allow && (member (K.held kept.now) group q && not (among q decided.old.keys)))
        || among q allowed.old.keys)) }
{
    let persons = kept.members(group)?;
    decide(decided, allowed, &persons, allow)
}

/// Adds a group, and says whether it is new.
#[tactic(auto, using(crate::proofs::Sets::one_more, crate::proofs::Sets::is_new))]
fn mark(groups: &mut BTreeSet<GroupId>, group: GroupId) -> Result<bool, AllocError>
    ensures is_new { IfOk result (λ is_new. is_new ≡ not (among group groups.old.keys)) }
    ensures added { OnOk result ((h : ℕ) → among h groups.new.keys
        ≡ ((group == h) || among h groups.old.keys)) }
{
    let is_new = groups.insert(group)?;
    Ok(is_new)
}

/// Decides of the members of a statement's group, of whom it isn't done. They are asked for once:
/// of the members of the groups of earlier statements all is decided.
fn decide_group<K: Kept>(
    kept: &K,
    groups: &mut BTreeSet<GroupId>,
    decided: &mut BTreeSet<SubjectId>,
    allowed: &mut BTreeSet<SubjectId>,
    statement: &Statement,
) -> Result<(), AllocError>
    requires { AreDecided (K.held kept.now) groups.old.keys decided.old.keys }
    ensures known { OnOk result (AreDecided (K.held kept.now) groups.new.keys decided.new.keys) }
    ensures decided { OnOk result ((q : ℕ) → among q decided.new.keys
        ≡ (member (K.held kept.now) statement.now.source.group q || among q decided.old.keys)) }
    ensures allowed { OnOk result ((q : ℕ) → among q allowed.new.keys
        ≡ ((statement.now.saying.allow && (member (K.held kept.now) statement.now.source.group q
        && not (among q decided.old.keys))) || among q allowed.old.keys)) }
{
    let group = statement.source.group;
    let is_new = mark(groups, group)?;
    if !is_new {
        return Ok(());
    }
    decide_members(kept, decided, allowed, group, statement.saying.allow)?;
    Ok(())
}

/// The persons whom some statements allow: of each the first statement decides that is of a group
/// that has the person. It costs a logarithm for each statement, and for each group the members
/// once.
fn allowed_among<K: Kept>(
    alloc: Global,
    kept: &K,
    statements: &[Statement],
) -> Result<BTreeSet<SubjectId>, AllocError>
    ensures { IfOk result (λ allowed. (q : ℕ) → among q allowed.keys
        ≡ allows (first_of (grounds_among (K.held kept.now) q statements.now))) }
{
    let mut groups = BTreeSet::new(alloc);
    let mut decided = BTreeSet::new(alloc);
    let mut allowed = BTreeSet::new(alloc);
    for statement in statements {
        decide_group(kept, &mut groups, &mut decided, &mut allowed, statement)?;
    }
    Ok(allowed)
}

/// Persons by id.
fn listed(alloc: Global, persons: &BTreeSet<SubjectId>) -> Result<Vec<SubjectId>, AllocError>
    ensures items { IfOk result (λ found. found.items ≡ persons.now.keys) }
    ensures ascending { IfOk result (λ found. IsStrictlySortedBy nat_cmp found.items) }
{
    let mut found = Vec::new(alloc);
    for person in persons.iter() {
        found.push(*person)?;
    }
    Ok(found)
}

/// The persons who are allowed an action on a resource, by id. It costs the members of each group
/// that is spoken of, once, and not all persons.
pub(crate) fn allowed<K: Kept>(
    alloc: Global,
    facts: &Facts,
    kept: &K,
    resource: AttrId,
    action: &[u8],
) -> Result<Vec<SubjectId>, AllocError>
    ensures { IfOk result (λ found. AreThose
        (is_allowed (K.held kept.now) facts.now resource action.now) found.items) }
{
    let statements = statements(alloc, facts, resource, action)?;
    let persons = allowed_among(alloc, kept, &statements)?;
    listed(alloc, &persons)
}
