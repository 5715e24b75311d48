// What someone may do with an object, now or at a moment.
ghost use Rattle.std.specs.Prelude.{◌≡◌, IfOk};
ghost use Rattle.reg_view.specs.Answers.{may_of, other_told, own_told, powers_of, powers_told};
ghost use Rattle.reg_view.specs.Past.{past_at};
ghost use Rattle.reg_view.specs.Show.{is_caller};

use crate::Answer;
use crate::administering::{is_admin, not_admin};
use crate::earlier::powers_at;
use crate::finding::{entity_found, object_found};
use crate::timing::{not_later, unfit};
use reg_base::{Bytes, Entity, Moment, Text};
use reg_effect::Kept;
use reg_facts::{Facts, Object, Refusal};
use reg_machine::Machine;
use reg_priv::{Who, privileges_of, who_of};
use std::alloc::{AllocError, Global};

/// Whether an entity is the caller of this text.
fn is_caller(by: &Bytes, entity: &Entity) -> bool
    ensures { result ≡ is_caller by.now entity.now }
{
    match entity {
        Entity::Person(text) => text.bytes() == by.bytes(),
        Entity::System => by.bytes() == b"g:isa/GrouperSystem".as_slice(),
        Entity::Group(_) | Entity::Everyone => false,
    }
}

/// What someone may do with an object, now or at a moment.
fn powers_of<K: Kept>(
    alloc: Global,
    machine: &Machine<K>,
    facts: &Facts,
    kept: &K,
    who: &Who,
    object: &Object,
    at: Option<Moment>,
) -> Result<Result<Answer, Refusal>, AllocError>
    ensures { IfOk result (λ r. r
        ≡ powers_of (past_at machine.now)
        (K.held kept.now) facts.now machine.now.clock who.now object.now at) }
{
    let Some(asked) = at else {
        let privileges = privileges_of(alloc, facts, kept, who, object)?;
        return Ok(Ok(Answer::May { privileges }));
    };
    if let Err(refusal) = not_later(machine.clock(), asked) {
        return Ok(Err(refusal));
    }
    let privileges = powers_at(alloc, machine, facts, who, object, asked)?;
    Ok(Ok(Answer::May { privileges }))
}

/// What someone may do with an object, if it is one that may do something.
fn powers_told<K: Kept>(
    alloc: Global,
    machine: &Machine<K>,
    facts: &Facts,
    kept: &K,
    someone: &Option<Who>,
    object: &Object,
    at: Option<Moment>,
) -> Result<Result<Answer, Refusal>, AllocError>
    ensures { IfOk result (λ r. r
        ≡ powers_told (past_at machine.now)
        (K.held kept.now) facts.now machine.now.clock someone.now object.now at) }
{
    match someone {
        Some(who) => powers_of(alloc, machine, facts, kept, who, object, at),
        None => unfit(alloc, "entity", machine.clock(), at),
    }
}

/// What the caller itself may do with an object.
fn own_told<K: Kept>(
    alloc: Global,
    machine: &Machine<K>,
    facts: &Facts,
    kept: &K,
    who: &Who,
    found: &Option<Object>,
    at: Option<Moment>,
) -> Result<Result<Answer, Refusal>, AllocError>
    ensures { IfOk result (λ r. r
        ≡ own_told (past_at machine.now)
        (K.held kept.now) facts.now machine.now.clock who.now found.now at) }
{
    match found {
        Some(object) => powers_of(alloc, machine, facts, kept, who, object, at),
        None => unfit(alloc, "object", machine.clock(), at),
    }
}

/// What another may do with an object, if the caller is its admin now.
fn other_told<K: Kept>(
    alloc: Global,
    machine: &Machine<K>,
    facts: &Facts,
    kept: &K,
    who: &Who,
    found: &Option<Object>,
    entity: &Entity,
    at: Option<Moment>,
) -> Result<Result<Answer, Refusal>, AllocError>
    ensures { IfOk result (λ r. r
        ≡ other_told (past_at machine.now)
        (K.held kept.now) facts.now machine.now.clock who.now found.now entity.now at) }
{
    let Some(object) = found else {
        return unfit(alloc, "object", machine.clock(), at);
    };
    if !is_admin(facts, kept, who, object) {
        return Ok(Err(not_admin(alloc, facts, object)?));
    }
    let someone = who_of(facts, entity);
    powers_told(alloc, machine, facts, kept, &someone, object, at)
}

/// What an entity may do with what this text names, now or at a moment: the caller may ask it of
/// itself, and who is the object's admin now of anyone.
pub fn may_of<K: Kept>(
    alloc: Global,
    machine: &Machine<K>,
    facts: &Facts,
    kept: &K,
    by: &Bytes,
    who: &Who,
    object: &Text,
    entity: &Entity,
    at: Option<Moment>,
) -> Result<Result<Answer, Refusal>, AllocError>
    ensures { IfOk result (λ r. r
        ≡ may_of (past_at machine.now)
        (K.held kept.now) facts.now machine.now.clock by.now who.now object.now entity.now at) }
{
    let found = match object_found(alloc, facts, kept, who, object)? {
        Ok(found) => found,
        Err(refusal) => return Ok(Err(refusal)),
    };
    if let Err(refusal) = entity_found(alloc, facts, kept, who, entity)? {
        return Ok(Err(refusal));
    }
    if is_caller(by, entity) {
        return own_told(alloc, machine, facts, kept, who, &found, at);
    }
    other_told(alloc, machine, facts, kept, who, &found, entity, at)
}
