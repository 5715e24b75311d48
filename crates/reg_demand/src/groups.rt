// What comes before all else that may refuse a command about groups.
ghost use Rattle.std.specs.Prelude.{◌≡◌, IfOk};
ghost use Rattle.reg_terms.specs.declared.command.Command.TheVariants.{GroupRename, GroupMove};
ghost use Rattle.reg_terms.specs.declared.command.Command.TheVariants.{GroupDelete};
ghost use Rattle.reg_demand.specs.Refusing.{first_of, barred};

use crate::finding::is_unseen;
use crate::lacking::{lacks_on_folder, lacks_on_group};
use crate::refusals::{denied, not_found};
use reg_base::{Entity, Name, Privilege, Text};
use reg_effect::Kept;
use reg_facts::{Facts, Refusal, home_of};
use reg_priv::Who;
use std::alloc::{AllocError, Global};

/// The caller sees the group, administers it, and may create in the folder where it stands.
pub fn group_rename<K: Kept>(
    alloc: Global,
    facts: &Facts,
    kept: &K,
    _by: &Entity,
    who: &Who,
    group: &Name,
    _extension: &Text,
) -> Result<Option<Refusal>, AllocError>
    ensures { IfOk result (λ found. found
        ≡ first_of (barred (K.held kept.now) facts.now _by.now who.now
        (GroupRename group.now _extension.now))) }
{
    let id = facts.group_id(group.as_str());
    if is_unseen(facts, kept, who, &id) {
        return not_found(alloc, group.as_str());
    }
    if lacks_on_group(facts, kept, who, &id, Privilege::Admin) {
        return denied(alloc, group.as_str(), Privilege::Admin);
    }
    let home = home_of(group.as_str());
    if lacks_on_folder(facts, kept, who, &facts.folder_id(home), Privilege::Create) {
        return denied(alloc, home, Privilege::Create);
    }
    Ok(None)
}

/// The caller sees the group and administers it; the folder stands, and the caller may create in
/// it.
pub fn group_move<K: Kept>(
    alloc: Global,
    facts: &Facts,
    kept: &K,
    _by: &Entity,
    who: &Who,
    group: &Name,
    to: &Text,
) -> Result<Option<Refusal>, AllocError>
    ensures { IfOk result (λ found. found
        ≡ first_of (barred (K.held kept.now) facts.now _by.now who.now
        (GroupMove group.now to.now))) }
{
    let id = facts.group_id(group.as_str());
    if is_unseen(facts, kept, who, &id) {
        return not_found(alloc, group.as_str());
    }
    let target = facts.folder_id(to.as_str());
    if target.is_none() {
        return not_found(alloc, to.as_str());
    }
    if lacks_on_group(facts, kept, who, &id, Privilege::Admin) {
        return denied(alloc, group.as_str(), Privilege::Admin);
    }
    if lacks_on_folder(facts, kept, who, &target, Privilege::Create) {
        return denied(alloc, to.as_str(), Privilege::Create);
    }
    Ok(None)
}

/// The caller sees the group and administers it.
pub fn group_delete<K: Kept>(
    alloc: Global,
    facts: &Facts,
    kept: &K,
    _by: &Entity,
    who: &Who,
    group: &Name,
) -> Result<Option<Refusal>, AllocError>
    ensures { IfOk result (λ found. found
        ≡ first_of (barred (K.held kept.now) facts.now _by.now who.now (GroupDelete group.now))) }
{
    let id = facts.group_id(group.as_str());
    if is_unseen(facts, kept, who, &id) {
        return not_found(alloc, group.as_str());
    }
    if lacks_on_group(facts, kept, who, &id, Privilege::Admin) {
        return denied(alloc, group.as_str(), Privilege::Admin);
    }
    Ok(None)
}
