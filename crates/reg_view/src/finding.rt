// What a query names, of what the caller sees.
ghost use Rattle.std.specs.Prelude.{◌≡◌, IfOk};
ghost use Rattle.reg_base.specs.Entities.{entity_of};
ghost use Rattle.reg_facts.specs.Naming.{resolve};
ghost use Rattle.reg_view.specs.Answers.{entity_found, entity_object, name_found, object_found};
ghost use Rattle.reg_view.specs.Missing.{seen_object};
ghost use Rattle.reg_view.specs.Show.{is_entity_text};

use crate::refusing::not_found;
use crate::seeing::group_seen;
use reg_base::{Entity, Text};
use reg_effect::Kept;
use reg_facts::{Facts, Object, Refusal};
use reg_priv::{Who, is_visible};
use std::alloc::{AllocError, Global};

/// The object that an entity is, if it stands and the caller sees it; an entity of the registry
/// itself is none.
pub fn entity_found<K: Kept>(
    alloc: Global,
    facts: &Facts,
    kept: &K,
    who: &Who,
    entity: &Entity,
) -> Result<Result<Option<Object>, Refusal>, AllocError>
    ensures { IfOk result (λ r. r ≡ entity_found (K.held kept.now) facts.now who.now entity.now) }
{
    match entity {
        Entity::Person(text) => match facts.subject_id(text.as_str()) {
            Some(id) => Ok(Ok(Some(Object::Subject(id)))),
            None => Ok(Err(not_found(alloc, text.as_str())?)),
        },
        Entity::Group(name) => match group_seen(alloc, facts, kept, who, name)? {
            Ok(id) => Ok(Ok(Some(Object::Group(id)))),
            Err(refusal) => Ok(Err(refusal)),
        },
        Entity::System | Entity::Everyone => Ok(Ok(None)),
    }
}

/// The object that an entity's text names, if it stands and the caller sees it.
fn entity_object<K: Kept>(
    alloc: Global,
    facts: &Facts,
    kept: &K,
    who: &Who,
    text: &Text,
) -> Result<Result<Option<Object>, Refusal>, AllocError>
    ensures { IfOk result (λ r. r
        ≡ entity_object (K.held kept.now) facts.now who.now text.now (entity_of text.now)) }
{
    match Entity::parse(alloc, text.bytes())? {
        Some(entity) => entity_found(alloc, facts, kept, who, &entity),
        None => Ok(Err(not_found(alloc, text.as_str())?)),
    }
}

/// The object of this name, where the caller sees it. One that is hidden is None as one that isn't
/// there. It takes no memory.
pub fn seen_object<K: Kept>(facts: &Facts, kept: &K, who: &Who, text: &Text) -> Option<Object>
    ensures { result ≡ seen_object (K.held kept.now) facts.now who.now text.now }
{
    let Some(object) = facts.resolve(text.as_str()) else {
        return None;
    };
    if !is_visible(facts, kept, who, &object) {
        return None;
    }
    Some(object)
}

/// The object of this name, if the caller sees it.
#[tactic(auto, using(crate::proofs::Yields::name_some, crate::proofs::Yields::name_none))]
fn name_found<K: Kept>(
    alloc: Global,
    facts: &Facts,
    kept: &K,
    who: &Who,
    text: &Text,
) -> Result<Result<Option<Object>, Refusal>, AllocError>
    ensures { IfOk result (λ r. r
        ≡ name_found (K.held kept.now) facts.now who.now text.now (resolve text.now facts.now)) }
{
    match seen_object(facts, kept, who, text) {
        Some(object) => Ok(Ok(Some(object))),
        None => Ok(Err(not_found(alloc, text.as_str())?)),
    }
}

/// Whether a text is an entity's: it has a `/`, which no name has.
pub fn is_entity_text(text: &Text) -> bool
    ensures { result ≡ is_entity_text text.now }
{
    text.bytes().contains(&b'/')
}

/// The object that a text names, if the caller sees it: an entity, or an object by its name. An
/// entity of the registry itself is none.
pub fn object_found<K: Kept>(
    alloc: Global,
    facts: &Facts,
    kept: &K,
    who: &Who,
    text: &Text,
) -> Result<Result<Option<Object>, Refusal>, AllocError>
    ensures { IfOk result (λ r. r ≡ object_found (K.held kept.now) facts.now who.now text.now) }
{
    if is_entity_text(text) {
        return entity_object(alloc, facts, kept, who, text);
    }
    name_found(alloc, facts, kept, who, text)
}
