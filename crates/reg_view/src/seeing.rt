// What the caller sees, and what it may read.
ghost use Rattle.std.specs.Prelude.{◌≡◌, IfOk};
ghost use Rattle.reg_view.specs.Answers.{gone_found, group_past, group_read, group_seen};
ghost use Rattle.reg_view.specs.Missing.{seen_group};
ghost use Rattle.reg_view.specs.Past.{past_at};

use crate::refusing::{denied, not_found};
use reg_base::{GroupId, Name, Privilege};
use reg_effect::Kept;
use reg_facts::{Facts, Object, Refusal};
use reg_machine::Machine;
use reg_priv::{Who, is_root, is_visible, may};
use std::alloc::{AllocError, Global};

/// The group of this name, where the caller sees it. A group that is hidden is None as one that
/// isn't there. It takes no memory.
pub fn seen_group<K: Kept>(facts: &Facts, kept: &K, who: &Who, group: &Name) -> Option<GroupId>
    ensures { result ≡ seen_group (K.held kept.now) facts.now who.now group.now }
{
    let Some(id) = facts.group_id(group.as_str()) else {
        return None;
    };
    if !is_visible(facts, kept, who, &Object::Group(id)) {
        return None;
    }
    Some(id)
}

/// The group of this name, if the caller sees it.
#[tactic(auto, using(crate::proofs::Yields::seen_some, crate::proofs::Yields::seen_none))]
pub fn group_seen<K: Kept>(
    alloc: Global,
    facts: &Facts,
    kept: &K,
    who: &Who,
    group: &Name,
) -> Result<Result<GroupId, Refusal>, AllocError>
    ensures { IfOk result (λ r. r ≡ group_seen (K.held kept.now) facts.now who.now group.now) }
{
    match seen_group(facts, kept, who, group) {
        Some(id) => Ok(Ok(id)),
        None => Ok(Err(not_found(alloc, group.as_str())?)),
    }
}

/// The group of this name, if the caller may read it.
pub fn group_read<K: Kept>(
    alloc: Global,
    facts: &Facts,
    kept: &K,
    who: &Who,
    group: &Name,
) -> Result<Result<GroupId, Refusal>, AllocError>
    ensures { IfOk result (λ r. r ≡ group_read (K.held kept.now) facts.now who.now group.now) }
{
    let id = match group_seen(alloc, facts, kept, who, group)? {
        Ok(id) => id,
        Err(refusal) => return Ok(Err(refusal)),
    };
    if !may(facts, kept, who, &Object::Group(id), Privilege::Read) {
        return Ok(Err(denied(alloc, group.as_str(), Privilege::Read)?));
    }
    Ok(Ok(id))
}

/// The group that is gone and had this name last, which root alone finds.
pub fn gone_found<K: Kept>(
    machine: &Machine<K>,
    facts: &Facts,
    kept: &K,
    who: &Who,
    group: &Name,
) -> Option<GroupId>
    ensures { result ≡ gone_found (past_at machine.now)
        (K.held kept.now) facts.now who.now group.now }
{
    if !is_root(facts, kept, who) {
        return None;
    }
    machine.gone_named(group.as_str())
}

/// The group of this name whose past the caller may read: one that stands, and else, for root, the
/// one that is gone.
pub fn group_past<K: Kept>(
    alloc: Global,
    machine: &Machine<K>,
    facts: &Facts,
    kept: &K,
    who: &Who,
    group: &Name,
) -> Result<Result<GroupId, Refusal>, AllocError>
    ensures { IfOk result (λ r. r
        ≡ group_past (past_at machine.now) (K.held kept.now) facts.now who.now group.now) }
{
    if facts.group_id(group.as_str()).is_some() {
        return group_read(alloc, facts, kept, who, group);
    }
    match gone_found(machine, facts, kept, who, group) {
        Some(id) => Ok(Ok(id)),
        None => Ok(Err(not_found(alloc, group.as_str())?)),
    }
}
