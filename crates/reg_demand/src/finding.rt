// What a caller doesn't find, or doesn't see.
ghost use Rattle.std.specs.Prelude.{◌≡◌, ◌&&◌, not, IfOk};
ghost use Rattle.reg_base.specs.Entities.{entity_of};
ghost use Rattle.reg_facts.specs.Edits.{has_member, member_of, the_id};
ghost use Rattle.reg_demand.specs.Refusing.{as_object, is_hidden, is_internal, is_missing};
ghost use Rattle.reg_demand.specs.Refusing.{is_missing_object, is_unseen, named_text};
ghost use Rattle.reg_demand.specs.Refusing.{names_internal, row_stands};

use reg_base::{Entity, GroupId, Privilege, Text};
use reg_effect::Kept;
use reg_facts::{Facts, Member, Object};
use reg_priv::{Who, is_visible, may};
use std::alloc::{AllocError, Global};

/// Whether no group was found, or the caller doesn't see it.
pub fn is_unseen<K: Kept>(facts: &Facts, kept: &K, who: &Who, found: &Option<GroupId>) -> bool
    ensures { result ≡ is_unseen (K.held kept.now) facts.now who.now found.now }
{
    match found {
        Some(id) => !may(facts, kept, who, &Object::Group(*id), Privilege::View),
        None => true,
    }
}

/// Whether no object was found, or the caller doesn't see it.
pub fn is_hidden<K: Kept>(facts: &Facts, kept: &K, who: &Who, found: &Option<Object>) -> bool
    ensures { result ≡ is_hidden (K.held kept.now) facts.now who.now found.now }
{
    match found {
        Some(object) => !is_visible(facts, kept, who, object),
        None => true,
    }
}

/// Whether the entity is one of the registry itself, which always stands.
fn is_internal(entity: &Entity) -> bool
    ensures { result ≡ is_internal entity.now }
{
    match entity {
        Entity::Person(_) | Entity::Group(_) => false,
        Entity::System | Entity::Everyone => true,
    }
}

/// Whether a text names an entity of the registry itself.
fn names_internal(alloc: Global, text: &Text) -> Result<bool, AllocError>
    ensures { IfOk result (λ b. b ≡ names_internal (entity_of text.now)) }
{
    match Entity::parse(alloc, text.bytes())? {
        Some(entity) => Ok(is_internal(&entity)),
        None => Ok(false),
    }
}

/// Whether a text, of which this object was found, names no object that the caller sees.
pub fn is_missing_object<K: Kept>(
    alloc: Global,
    facts: &Facts,
    kept: &K,
    who: &Who,
    text: &Text,
    found: &Option<Object>,
) -> Result<bool, AllocError>
    ensures { IfOk result (λ b. b
        ≡ is_missing_object (K.held kept.now) facts.now who.now text.now found.now) }
{
    if !is_hidden(facts, kept, who, found) {
        return Ok(false);
    }
    Ok(!names_internal(alloc, text)?)
}

/// Whether an entity is no person that stands, and no group that the caller sees.
pub fn is_missing<K: Kept>(facts: &Facts, kept: &K, who: &Who, entity: &Entity) -> bool
    ensures { result ≡ is_missing (K.held kept.now) facts.now who.now entity.now }
{
    is_missing_member(facts, kept, who, entity, &facts.member_of(entity))
}

/// The object that a member is.
fn as_object(found: &Option<Member>) -> Option<Object>
    ensures { result ≡ as_object found.now }
{
    match found {
        Some(Member::Person(id)) => Some(Object::Subject(*id)),
        Some(Member::Group(id)) => Some(Object::Group(*id)),
        None => None,
    }
}

/// Whether an entity, which names this member if any, is no person that stands, and no group that
/// the caller sees.
#[tactic(auto, using(crate::proofs::Members::same))]
pub fn is_missing_member<K: Kept>(
    facts: &Facts,
    kept: &K,
    who: &Who,
    entity: &Entity,
    found: &Option<Member>,
) -> bool
    requires { found.now ≡ member_of entity.now facts.now }
    ensures { result ≡ is_missing (K.held kept.now) facts.now who.now entity.now }
{
    !is_internal(entity) && is_hidden(facts, kept, who, &as_object(found))
}

/// Whether a member that was found is an immediate member of a group.
fn has_member(facts: &Facts, group: GroupId, found: &Option<Member>) -> bool
    ensures { result ≡ has_member group found.now facts.now.rows }
{
    match found {
        Some(member) => facts.has_row(group, member),
        None => false,
    }
}

/// Whether the entity is an immediate member of the group.
pub fn row_stands(facts: &Facts, group: &Option<GroupId>, member: &Entity) -> bool
    ensures { result ≡ row_stands group.now member.now facts.now }
{
    match group {
        Some(group) => has_member(facts, *group, &facts.member_of(member)),
        None => has_member(facts, GroupId::new(0), &facts.member_of(member)),
    }
}

/// The text of a person, and the name of a group.
pub fn named_text(entity: &Entity) -> &str
    ensures { result.now ≡ named_text entity.now }
{
    match entity {
        Entity::Person(text) => text.as_str(),
        Entity::Group(name) => name.as_str(),
        Entity::System | Entity::Everyone => "",
    }
}
