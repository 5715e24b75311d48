// Entities: who may be a member, hold a privilege or ask.
ghost use Rattle.std.specs.Prelude.{◌≡◌, ◌≤◌, length, IfOk, if◌then◌else◌, Some, None, drop};
ghost use Rattle.reg_base.specs.Names.{is_person};
ghost use Rattle.reg_base.specs.Entities.{group_entity, person_entity, entity_of};

use crate::name::Name;
use crate::names::is_person;
use crate::text::Text;
use std::alloc::{AllocError, Global};

/// An entity.
#[derive(Drop)]
pub enum Entity {
    /// A person, by the text `source/id`.
    Person(Text),
    /// A group, by its name.
    Group(Name),
    /// GrouperSystem, which may do everything.
    System,
    /// EveryEntity, written GrouperAll.
    Everyone,
}

fn group_entity(alloc: Global, text: &[u8]) -> Result<Option<Entity>, AllocError>
    requires { 6 ≤ length text.now }
    ensures { IfOk result (λ found. found ≡ group_entity text.now) }
{
    let (_, name) = text.split_at(6);
    match Name::parse(alloc, name)? {
        Some(name) => Ok(Some(Entity::Group(name))),
        None => Ok(None),
    }
}

fn person_entity(alloc: Global, text: &[u8]) -> Result<Option<Entity>, AllocError>
    ensures { IfOk result (λ found. found ≡ person_entity text.now) }
{
    if !is_person(text) {
        return Ok(None);
    }
    match Text::of(alloc, text)? {
        Some(text) => Ok(Some(Entity::Person(text))),
        // no person comes here, since its bytes are ASCII
        None => Ok(None),
    }
}

impl Entity {
    /// The entity that a text names: `source/id` a person, `g:gsa/` and a name a group,
    /// `g:isa/GrouperSystem` and `g:isa/GrouperAll` the two internal ones. None exactly for every
    /// other text; the only error is out of memory.
    #[tactic(auto, unfolding(crate::specs::Entities::entity_of))]
    pub fn parse(alloc: Global, text: &[u8]) -> Result<Option<Entity>, AllocError>
        ensures { IfOk result (λ found. found ≡ entity_of text.now) }
    {
        if text == b"g:isa/GrouperSystem".as_slice() {
            return Ok(Some(Entity::System));
        }
        if text == b"g:isa/GrouperAll".as_slice() {
            return Ok(Some(Entity::Everyone));
        }
        if text.starts_with(b"g:gsa/") {
            group_entity(alloc, text)
        } else {
            person_entity(alloc, text)
        }
    }

    /// An equal entity. The only error is out of memory.
    pub fn copy(&self, alloc: Global) -> Result<Entity, AllocError>
        ensures { IfOk result (λ entity. entity ≡ self.now) }
    {
        match self {
            Entity::Person(text) => Ok(Entity::Person(text.copy(alloc)?)),
            Entity::Group(name) => Ok(Entity::Group(name.copy(alloc)?)),
            Entity::System => Ok(Entity::System),
            Entity::Everyone => Ok(Entity::Everyone),
        }
    }
}
