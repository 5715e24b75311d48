// What comes before all else that may refuse a command about composites.
ghost use Rattle.std.specs.Prelude.{◌≡◌, IfOk};
ghost use Rattle.reg_terms.specs.declared.command.Command.TheVariants.{CompositeSet};
ghost use Rattle.reg_terms.specs.declared.command.Command.TheVariants.{CompositeClear};
ghost use Rattle.reg_demand.specs.Refusing.{first_of, barred};

use crate::finding::is_unseen;
use crate::lacking::lacks_on_group;
use crate::refusals::{denied, not_found};
use reg_base::{Entity, Name, Privilege};
use reg_effect::Kept;
use reg_facts::{Facts, Refusal, SetOp};
use reg_priv::Who;
use std::alloc::{AllocError, Global};

/// The caller sees all three groups, may update the first and read the factors.
pub fn composite_set<K: Kept>(
    alloc: Global,
    facts: &Facts,
    kept: &K,
    _by: &Entity,
    who: &Who,
    group: &Name,
    _kind: SetOp,
    left: &Name,
    right: &Name,
) -> Result<Option<Refusal>, AllocError>
    ensures { IfOk result (λ found. found
        ≡ first_of (barred (K.held kept.now) facts.now _by.now who.now
        (CompositeSet group.now _kind left.now right.now))) }
{
    let id = facts.group_id(group.as_str());
    if is_unseen(facts, kept, who, &id) {
        return not_found(alloc, group.as_str());
    }
    let left_id = facts.group_id(left.as_str());
    if is_unseen(facts, kept, who, &left_id) {
        return not_found(alloc, left.as_str());
    }
    let right_id = facts.group_id(right.as_str());
    if is_unseen(facts, kept, who, &right_id) {
        return not_found(alloc, right.as_str());
    }
    if lacks_on_group(facts, kept, who, &id, Privilege::Update) {
        return denied(alloc, group.as_str(), Privilege::Update);
    }
    if lacks_on_group(facts, kept, who, &left_id, Privilege::Read) {
        return denied(alloc, left.as_str(), Privilege::Read);
    }
    if lacks_on_group(facts, kept, who, &right_id, Privilege::Read) {
        return denied(alloc, right.as_str(), Privilege::Read);
    }
    Ok(None)
}

/// The caller sees the group and may update it.
pub fn composite_clear<K: Kept>(
    alloc: Global,
    facts: &Facts,
    kept: &K,
    _by: &Entity,
    who: &Who,
    group: &Name,
) -> Result<Option<Refusal>, AllocError>
    ensures { IfOk result (λ found. found
        ≡ first_of (barred (K.held kept.now) facts.now _by.now who.now
        (CompositeClear group.now))) }
{
    let id = facts.group_id(group.as_str());
    if is_unseen(facts, kept, who, &id) {
        return not_found(alloc, group.as_str());
    }
    if lacks_on_group(facts, kept, who, &id, Privilege::Update) {
        return denied(alloc, group.as_str(), Privilege::Update);
    }
    Ok(None)
}
