// The events of the commands on definitions, attributes and assignments.
ghost use Rattle.std.specs.Prelude.{◌≡◌, ◌<◌, ◌∷◌, [], IfOk, IsSome};
ghost use Rattle.reg_base.specs.declared.privilege.Privilege.TheVariants.{AttrAdmin};
ghost use Rattle.reg_terms.specs.Limits.{max_definitions, max_attributes, max_assigns};
ghost use Rattle.reg_terms.specs.declared.event.Event.TheVariants.{DefinitionMade, AssignMade};
ghost use Rattle.reg_terms.specs.declared.event.Event.TheVariants.{AssignGone, ValueAdded};
ghost use Rattle.reg_terms.specs.declared.event.Event.TheVariants.{ValueRemoved};
ghost use Rattle.reg_terms.specs.declared.kinds.Object.TheVariants as object;
ghost use Rattle.reg_facts.specs.Attributes.{assign_row, attribute_id, definition_id, value_of};
ghost use Rattle.reg_facts.specs.Edits.{the_id};
ghost use Rattle.reg_facts.specs.Events.{new_definition, new_attribute, new_assign, grants_added};
ghost use Rattle.reg_facts.specs.Events.{on_owner, on_value};
ghost use Rattle.reg_facts.specs.Grants.{makers_grant, object_of};
ghost use Rattle.reg_facts.specs.Suiting.{AllSuit};

use crate::creation::makers_grant;
use crate::editing::one;
use reg_base::{AssignId, AttrDefId, AttrId, Entity, FolderId, Name, Privilege, Text};
use reg_facts::{
    AssignRow, AttrValues, AttributeRow, DefKind, DefinitionRow, Event, Facts, Object, Owners,
    Value,
};
use std::alloc::{AllocError, Global};

/// The definition of a name, and the number 0, which no definition has, where there is none.
pub(crate) fn the_definition(facts: &Facts, name: &Name) -> AttrDefId
    ensures { result ≡ the_id (definition_id name.now facts.now) }
{
    facts
        .definition_id(name.as_str())
        .unwrap_or(AttrDefId::new(0))
}

/// The attribute of a name, and the number 0, which no attribute has, where there is none.
pub(crate) fn the_attribute(facts: &Facts, name: &Name) -> AttrId
    ensures { result ≡ the_id (attribute_id name.now facts.now) }
{
    facts.attribute_id(name.as_str()).unwrap_or(AttrId::new(0))
}

/// The id of an assignment that stands.
fn the_assign(facts: &Facts, id: u64) -> AssignId
    requires { IsSome (assign_row id facts.now.assigns) }
    ensures { result ≡ id }
{
    match facts.assign(id) {
        Some(row) => row.id,
        None => unreachable!(),
    }
}

pub(crate) fn new_definition(
    facts: &Facts,
    alloc: Global,
    definition: &Name,
    owners: Owners,
    several: bool,
    kind: DefKind,
    many: bool,
) -> Result<DefinitionRow, AllocError>
    requires { facts.now.made.definitions < max_definitions }
    ensures { IfOk result (λ row. row
        ≡ new_definition definition.now owners several kind many facts.now) }
{
    let (folder, extension) = facts.home(definition);
    Ok(DefinitionRow {
        id: AttrDefId::new(facts.made().definitions + 1),
        folder: folder.unwrap_or(FolderId::new(0)),
        extension: Text::new(alloc, extension)?,
        owners,
        several,
        kind,
        many,
    })
}

/// A definition is made, and the person who makes it is granted its administration.
pub(crate) fn definition_add(
    facts: &Facts,
    alloc: Global,
    by: &Entity,
    row: DefinitionRow,
) -> Result<Vec<Event>, AllocError>
    ensures { IfOk result (λ events. events.items
        ≡ DefinitionMade row ∷ grants_added
        (makers_grant by.now (object.Def row.id) AttrAdmin facts.now)) }
{
    let object = Object::Def(row.id);
    let mut events = one(alloc, Event::DefinitionMade { row })?;
    if let Some(row) = makers_grant(facts, by, object, Privilege::AttrAdmin) {
        events.push(Event::GrantAdded { row })?;
    }
    Ok(events)
}

pub(crate) fn new_attribute(
    facts: &Facts,
    alloc: Global,
    attribute: &Name,
    definition: &Name,
) -> Result<AttributeRow, AllocError>
    requires { facts.now.made.attributes < max_attributes }
    ensures { IfOk result (λ row. row ≡ new_attribute attribute.now definition.now facts.now) }
{
    let (folder, extension) = facts.home(attribute);
    Ok(AttributeRow {
        id: AttrId::new(facts.made().attributes + 1),
        folder: folder.unwrap_or(FolderId::new(0)),
        extension: Text::new(alloc, extension)?,
        definition: the_definition(facts, definition),
    })
}

fn new_assign(facts: &Facts, alloc: Global, attribute: &Name, owner: Object) -> AssignRow
    requires { facts.now.made.assigns < max_assigns }
    ensures { result ≡ new_assign attribute.now owner facts.now }
{
    AssignRow {
        id: AssignId::new(facts.made().assigns + 1),
        attribute: the_attribute(facts, attribute),
        owner,
        values: AttrValues::new(alloc),
    }
}

/// An attribute is assigned, if its owner stands.
pub(crate) fn assign_add(
    facts: &Facts,
    alloc: Global,
    attribute: &Name,
    object: &Text,
) -> Result<Vec<Event>, AllocError>
    requires { AllSuit (on_owner (λ o. AssignMade (new_assign attribute.now o facts.now))
        (object_of object.now facts.now)) facts.now }
    ensures { IfOk result (λ events. events.items
        ≡ on_owner (λ o. AssignMade (new_assign attribute.now o facts.now))
        (object_of object.now facts.now)) }
{
    let Some(owner) = facts.object_of(alloc, object)? else {
        return Ok(Vec::new(alloc));
    };
    let row = new_assign(facts, alloc, attribute, owner);
    one(alloc, Event::AssignMade { row })
}

/// The assignment of this id goes.
pub(crate) fn assign_remove(facts: &Facts, alloc: Global, id: u64) -> Result<Vec<Event>, AllocError>
    requires { IsSome (assign_row id facts.now.assigns) }
    ensures { IfOk result (λ events. events.items ≡ AssignGone id ∷ []) }
{
    let assign = the_assign(facts, id);
    one(alloc, Event::AssignGone { assign })
}

/// A value comes into an assignment, if the definition of its attribute takes it.
pub(crate) fn value_add(
    facts: &Facts,
    alloc: Global,
    attribute: &Name,
    id: u64,
    value: &Value,
) -> Result<Vec<Event>, AllocError>
    requires { AllSuit (on_value (λ v. ValueAdded id v)
        (value_of (the_id (attribute_id attribute.now facts.now)) value.now facts.now)) facts.now }
    ensures { IfOk result (λ events. events.items
        ≡ on_value (λ v. ValueAdded id v)
        (value_of (the_id (attribute_id attribute.now facts.now)) value.now facts.now)) }
{
    let attribute = the_attribute(facts, attribute);
    let Some(value) = facts.value_of(alloc, attribute, value)? else {
        return Ok(Vec::new(alloc));
    };
    let assign = the_assign(facts, id);
    one(alloc, Event::ValueAdded { assign, value })
}

/// A value goes from an assignment, if the definition of its attribute takes it.
pub(crate) fn value_remove(
    facts: &Facts,
    alloc: Global,
    attribute: &Name,
    id: u64,
    value: &Value,
) -> Result<Vec<Event>, AllocError>
    requires { AllSuit (on_value (λ v. ValueRemoved id v)
        (value_of (the_id (attribute_id attribute.now facts.now)) value.now facts.now)) facts.now }
    ensures { IfOk result (λ events. events.items
        ≡ on_value (λ v. ValueRemoved id v)
        (value_of (the_id (attribute_id attribute.now facts.now)) value.now facts.now)) }
{
    let attribute = the_attribute(facts, attribute);
    let Some(value) = facts.value_of(alloc, attribute, value)? else {
        return Ok(Vec::new(alloc));
    };
    let assign = the_assign(facts, id);
    one(alloc, Event::ValueRemoved { assign, value })
}
