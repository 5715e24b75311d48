// What comes before all else that may refuse a command about memberships.
ghost use Rattle.std.specs.Prelude.{◌≡◌, IfOk};
ghost use Rattle.reg_terms.specs.declared.command.Command.TheVariants.{MemberAdd, MemberRemove};
ghost use Rattle.reg_terms.specs.declared.command.Command.TheVariants.{MemberWindow};
ghost use Rattle.reg_facts.specs.Edits.{member_of};
ghost use Rattle.reg_facts.specs.Naming.{group_id};
ghost use Rattle.reg_demand.specs.Refusing.{first_of, barred, refused};

use crate::finding::{is_missing, is_missing_member, is_unseen, named_text, row_stands};
use crate::lacking::{is_self, lacks_on_group};
use crate::refusals::{denied, not_found};
use reg_base::{Entity, GroupId, Moment, Name, Privilege};
use reg_effect::Kept;
use reg_facts::{Facts, Member, Refusal};
use reg_priv::{Who, who_of};
use std::alloc::{AllocError, Global};

/// The caller sees the group and the member, may update the group, and read the member if it is a
/// group. For the caller's own membership OPTIN is enough. The names stand for this group and this
/// member, if for any.
fn row_add<K: Kept>(
    alloc: Global,
    facts: &Facts,
    kept: &K,
    by: &Entity,
    who: &Who,
    group: &Name,
    id: &Option<GroupId>,
    member: &Entity,
    found: &Option<Member>,
    _from: Option<Moment>,
    _until: Option<Moment>,
) -> Result<Option<Refusal>, AllocError>
    requires group { id.now ≡ group_id group.now facts.now }
    requires member { found.now ≡ member_of member.now facts.now }
    ensures { IfOk result (λ refusal. refusal
        ≡ first_of (barred (K.held kept.now) facts.now by.now who.now
        (MemberAdd group.now member.now _from _until))) }
{
    if is_unseen(facts, kept, who, id) {
        return not_found(alloc, group.as_str());
    }
    if is_missing_member(facts, kept, who, member, found) {
        return not_found(alloc, named_text(member));
    }
    let privilege = if is_self(by, member) {
        Privilege::Optin
    } else {
        Privilege::Update
    };
    if lacks_on_group(facts, kept, who, id, privilege) {
        return denied(alloc, group.as_str(), privilege);
    }
    if let Entity::Group(name) = member {
        let nested = facts.group_id(name.as_str());
        if lacks_on_group(facts, kept, who, &nested, Privilege::Read) {
            return denied(alloc, name.as_str(), Privilege::Read);
        }
    }
    Ok(None)
}

/// As `row_add`, with the names looked up.
pub fn member_add<K: Kept>(
    alloc: Global,
    facts: &Facts,
    kept: &K,
    by: &Entity,
    who: &Who,
    group: &Name,
    member: &Entity,
    from: Option<Moment>,
    until: Option<Moment>,
) -> Result<Option<Refusal>, AllocError>
    ensures { IfOk result (λ refusal. refusal
        ≡ first_of (barred (K.held kept.now) facts.now by.now who.now
        (MemberAdd group.now member.now from until))) }
{
    let id = facts.group_id(group.as_str());
    let found = facts.member_of(member);
    row_add(
        alloc, facts, kept, by, who, group, &id, member, &found, from, until,
    )
}

/// What refuses a membership to come before all else, as `refused` has it, where its names were
/// looked up: they stand for this group and this member, if for any. It changes nothing. The only
/// error is out of memory.
pub fn refused_member<K: Kept>(
    alloc: Global,
    facts: &Facts,
    kept: &K,
    by: &Entity,
    group: &Name,
    id: &Option<GroupId>,
    member: &Entity,
    found: &Option<Member>,
    from: Option<Moment>,
    until: Option<Moment>,
) -> Result<Option<Refusal>, AllocError>
    requires group { id.now ≡ group_id group.now facts.now }
    requires member { found.now ≡ member_of member.now facts.now }
    ensures { IfOk result (λ refusal. refusal
        ≡ refused (K.held kept.now) facts.now by.now (MemberAdd group.now member.now from until)) }
{
    match who_of(facts, by) {
        Some(who) => row_add(
            alloc, facts, kept, by, &who, group, id, member, found, from, until,
        ),
        None => Ok(Some(Refusal::NoCaller)),
    }
}

/// The caller sees the group and may update it; for the caller's own membership OPTOUT is enough.
/// What is a member of the group counts as found.
pub fn member_remove<K: Kept>(
    alloc: Global,
    facts: &Facts,
    kept: &K,
    by: &Entity,
    who: &Who,
    group: &Name,
    member: &Entity,
) -> Result<Option<Refusal>, AllocError>
    ensures { IfOk result (λ found. found
        ≡ first_of (barred (K.held kept.now) facts.now by.now who.now
        (MemberRemove group.now member.now))) }
{
    let id = facts.group_id(group.as_str());
    if is_unseen(facts, kept, who, &id) {
        return not_found(alloc, group.as_str());
    }
    if !row_stands(facts, &id, member) && is_missing(facts, kept, who, member) {
        return not_found(alloc, named_text(member));
    }
    let privilege = if is_self(by, member) {
        Privilege::Optout
    } else {
        Privilege::Update
    };
    if lacks_on_group(facts, kept, who, &id, privilege) {
        return denied(alloc, group.as_str(), privilege);
    }
    Ok(None)
}

/// The caller sees the group and may update it. What is a member of the group counts as found.
pub fn member_window<K: Kept>(
    alloc: Global,
    facts: &Facts,
    kept: &K,
    _by: &Entity,
    who: &Who,
    group: &Name,
    member: &Entity,
    _from: Option<Moment>,
    _until: Option<Moment>,
) -> Result<Option<Refusal>, AllocError>
    ensures { IfOk result (λ found. found
        ≡ first_of (barred (K.held kept.now) facts.now _by.now who.now
        (MemberWindow group.now member.now _from _until))) }
{
    let id = facts.group_id(group.as_str());
    if is_unseen(facts, kept, who, &id) {
        return not_found(alloc, group.as_str());
    }
    if !row_stands(facts, &id, member) && is_missing(facts, kept, who, member) {
        return not_found(alloc, named_text(member));
    }
    if lacks_on_group(facts, kept, who, &id, Privilege::Update) {
        return denied(alloc, group.as_str(), Privilege::Update);
    }
    Ok(None)
}
