// Questions, with all that their texts alone need memory for. No machine is in sight here, so no
// want of memory tells anything of one.
ghost use Rattle.std.specs.Prelude.{◌≡◌, IfOk};
ghost use Rattle.reg_view.specs.Missing.{called_of, entity_asked, entity_called, entity_in};
ghost use Rattle.reg_view.specs.Missing.{first_called, object_called, parts_of, second_called};

use crate::Query;
use crate::finding::is_entity_text;
use reg_base::{Bytes, Entity, Text};
use std::alloc::{AllocError, Global};
use std::marker::Model;

/// What a refusal calls what a query names: the first thing, and of `Query::May` the second, which
/// are empty texts where there is none; and the entity that the object is, by its text.
#[derive(Drop)]
pub struct Called {
    pub entity: Option<Entity>,
    pub first: Text,
    pub second: Text,
}

/// Who asks, by its text and as the entity that this names, and what.
#[derive(Drop)]
pub struct Parts {
    pub by: Bytes,
    pub query: Query,
    pub caller: Option<Entity>,
    pub called: Called,
}

/// What someone asks. Contracts see the text of the caller, and the query.
#[derive(Drop)]
pub struct Question {
    parts: Parts,
}

impl Model for Question {
    ghost use Rattle.std.specs.Prelude.{◌≡◌};
    ghost use Rattle.reg_view.specs.Asked.{Asked};
    ghost use Rattle.reg_view.specs.Missing.{parts_of};

    ghost Value = { Asked };

    ghost view = { λ q. record { by = q.parts.by; query = q.parts.query } };

    ghost invariant = { λ q. q.parts ≡ parts_of q.parts.by q.parts.query };
}

impl Question {
    /// The question that a caller of this text asks. The only error is out of memory.
    pub fn of(alloc: Global, by: Bytes, query: Query) -> Result<Question, AllocError>
        ensures by { IfOk result (λ question. question.by ≡ by) }
        ensures query { IfOk result (λ question. question.query ≡ query) }
    {
        let parts = parts_of(alloc, by, query)?;
        Ok(Question { parts })
    }

    /// What it was made of. It takes no memory.
    pub(crate) fn into_parts(self) -> Parts
        ensures { result ≡ parts_of self.by self.query }
    {
        self.parts
    }
}

/// The entity that an object's text is of, if it is an entity's text.
fn entity_in(alloc: Global, text: &Text) -> Result<Option<Entity>, AllocError>
    ensures { IfOk result (λ entity. entity ≡ entity_in text.now) }
{
    if !is_entity_text(text) {
        return Ok(None);
    }
    Entity::parse(alloc, text.bytes())
}

/// The entity that the object of a query is by its text.
fn entity_asked(alloc: Global, query: &Query) -> Result<Option<Entity>, AllocError>
    ensures { IfOk result (λ entity. entity ≡ entity_asked query.now) }
{
    match query {
        Query::Grants { object, .. } => entity_in(alloc, object),
        Query::May { object, .. } => entity_in(alloc, object),
        Query::Attributes { object, .. } => entity_in(alloc, object),
        _ => Ok(None),
    }
}

/// The name or text of an entity; the empty text for one of the registry itself.
fn entity_called(alloc: Global, entity: &Entity) -> Result<Text, AllocError>
    ensures { IfOk result (λ text. text ≡ entity_called entity.now) }
{
    match entity {
        Entity::Person(text) => text.copy(alloc),
        Entity::Group(name) => Text::new(alloc, name.as_str()),
        Entity::System | Entity::Everyone => Text::new(alloc, ""),
    }
}

/// What an object is called, which may be an entity.
fn object_called(alloc: Global, text: &Text, entity: &Option<Entity>) -> Result<Text, AllocError>
    ensures { IfOk result (λ called. called ≡ object_called text.now entity.now) }
{
    match entity {
        Some(entity) => entity_called(alloc, entity),
        None => text.copy(alloc),
    }
}

/// What is called first in a query.
fn first_called(alloc: Global, query: &Query, entity: &Option<Entity>) -> Result<Text, AllocError>
    ensures { IfOk result (λ text. text ≡ first_called query.now entity.now) }
{
    match query {
        Query::GroupGet { group } => Text::new(alloc, group.as_str()),
        Query::FolderList { folder } => folder.copy(alloc),
        Query::Members { group, .. } => Text::new(alloc, group.as_str()),
        Query::Rows { group } => Text::new(alloc, group.as_str()),
        Query::Groups { subject, .. } => entity_called(alloc, subject),
        Query::Grants { object, .. } => object_called(alloc, object, entity),
        Query::May { object, .. } => object_called(alloc, object, entity),
        Query::Attributes { object, .. } => object_called(alloc, object, entity),
        Query::History { group } => Text::new(alloc, group.as_str()),
        Query::Log { consumer, .. } => consumer.copy(alloc),
        Query::Admin => Text::new(alloc, ""),
    }
}

/// What is called second in a query.
fn second_called(alloc: Global, query: &Query) -> Result<Text, AllocError>
    ensures { IfOk result (λ text. text ≡ second_called query.now) }
{
    match query {
        Query::May { entity, .. } => entity_called(alloc, entity),
        _ => Text::new(alloc, ""),
    }
}

/// What is called in a query.
fn called_of(alloc: Global, query: &Query) -> Result<Called, AllocError>
    ensures { IfOk result (λ called. called ≡ called_of query.now) }
{
    let entity = entity_asked(alloc, query)?;
    let first = first_called(alloc, query, &entity)?;
    let second = second_called(alloc, query)?;
    Ok(Called {
        entity,
        first,
        second,
    })
}

/// A question's parts.
fn parts_of(alloc: Global, by: Bytes, query: Query) -> Result<Parts, AllocError>
    ensures { IfOk result (λ parts. parts ≡ parts_of by query) }
{
    let caller = Entity::parse(alloc, by.bytes())?;
    let called = called_of(alloc, &query)?;
    Ok(Parts {
        by,
        query,
        caller,
        called,
    })
}
