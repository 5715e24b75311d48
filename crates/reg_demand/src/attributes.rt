// What comes before all else that may refuse a command about attributes, or a query about them.
ghost use Rattle.std.specs.Prelude.{◌≡◌, ◌∷◌, ◌++◌, [], IfOk, Some, map};
ghost use Rattle.reg_base.specs.Entities.{entity_of};
ghost use Rattle.reg_base.specs.declared.privilege.Privilege.TheVariants.{AttrUpdate};
ghost use Rattle.reg_base.specs.declared.privilege.Privilege.TheVariants.{GroupAttrUpdate};
ghost use Rattle.reg_base.specs.declared.privilege.Privilege.TheVariants.{StemAttrUpdate};
ghost use Rattle.reg_terms.specs.declared.command.Command.TheVariants.{AttrdefDelete, AttrAdd};
ghost use Rattle.reg_terms.specs.declared.command.Command.TheVariants.{AttrDelete};
ghost use Rattle.reg_facts.specs.Naming.{name_of};
ghost use Rattle.reg_demand.specs.Demands.{On, on_assignment, on_attribute, on_named, on_owner};
ghost use Rattle.reg_demand.specs.Refusing.{barred, denial, first_of};
ghost use Rattle.reg_demand.specs.Refusing.{no_attribute, no_object};

use crate::finding::{is_hidden, is_missing_object};
use crate::lacking::{lacks_on_definition, lacks_on_folder, the_attribute};
use crate::refusals::{denied, not_found, object_not_found};
use reg_base::{AttrId, Entity, Name, Privilege, Text};
use reg_effect::Kept;
use reg_facts::{Facts, Object, Refusal, home_of};
use reg_priv::{Who, judged, may};
use std::alloc::{AllocError, Global};

/// The name of an object; `:` where it has none.
fn any_name(alloc: Global, facts: &Facts, object: &Object) -> Result<Text, AllocError>
    ensures { IfOk result (λ name. name ≡ name_of object.now facts.now) }
{
    match facts.place_of(object) {
        Some(_) => reg_names::name_of(alloc, facts, object),
        None => Text::new(alloc, ":"),
    }
}

/// The caller has a privilege on an attribute's definition, which a denial names.
pub fn demand_on_attribute<K: Kept>(
    alloc: Global,
    facts: &Facts,
    kept: &K,
    who: &Who,
    id: AttrId,
    privilege: Privilege,
) -> Result<Option<Refusal>, AllocError>
    ensures { IfOk result (λ found. found
        ≡ first_of (denial (K.held kept.now) facts.now who.now (on_attribute id privilege facts.now)
        ∷ [])) }
{
    let attribute = Object::Attr(id);
    if may(facts, kept, who, &attribute, privilege) {
        return Ok(None);
    }
    let name = any_name(alloc, facts, &judged(facts, &attribute))?;
    denied(alloc, name.as_str(), privilege)
}

/// The caller sees the definition and administers it.
pub fn attrdef_delete<K: Kept>(
    alloc: Global,
    facts: &Facts,
    kept: &K,
    _by: &Entity,
    who: &Who,
    definition: &Name,
) -> Result<Option<Refusal>, AllocError>
    ensures { IfOk result (λ found. found
        ≡ first_of (barred (K.held kept.now) facts.now _by.now who.now
        (AttrdefDelete definition.now))) }
{
    let id = facts.definition_id(definition.as_str());
    if is_hidden(facts, kept, who, &id.map(Object::Def)) {
        return not_found(alloc, definition.as_str());
    }
    if lacks_on_definition(facts, kept, who, &id, Privilege::AttrAdmin) {
        return denied(alloc, definition.as_str(), Privilege::AttrAdmin);
    }
    Ok(None)
}

/// The folder stands, and the caller may create there; the caller sees the definition and
/// administers it.
pub fn attr_add<K: Kept>(
    alloc: Global,
    facts: &Facts,
    kept: &K,
    _by: &Entity,
    who: &Who,
    attribute: &Name,
    definition: &Name,
) -> Result<Option<Refusal>, AllocError>
    ensures { IfOk result (λ found. found
        ≡ first_of (barred (K.held kept.now) facts.now _by.now who.now
        (AttrAdd attribute.now definition.now))) }
{
    let home = home_of(attribute.as_str());
    let home_id = facts.folder_id(home);
    if home_id.is_none() {
        return not_found(alloc, home);
    }
    let id = facts.definition_id(definition.as_str());
    if is_hidden(facts, kept, who, &id.map(Object::Def)) {
        return not_found(alloc, definition.as_str());
    }
    if lacks_on_folder(facts, kept, who, &home_id, Privilege::Create) {
        return denied(alloc, home, Privilege::Create);
    }
    if lacks_on_definition(facts, kept, who, &id, Privilege::AttrAdmin) {
        return denied(alloc, definition.as_str(), Privilege::AttrAdmin);
    }
    Ok(None)
}

/// The caller sees the attribute and administers its definition.
pub fn attr_delete<K: Kept>(
    alloc: Global,
    facts: &Facts,
    kept: &K,
    _by: &Entity,
    who: &Who,
    attribute: &Name,
) -> Result<Option<Refusal>, AllocError>
    ensures { IfOk result (λ found. found
        ≡ first_of (barred (K.held kept.now) facts.now _by.now who.now
        (AttrDelete attribute.now))) }
{
    let id = facts.attribute_id(attribute.as_str());
    if is_hidden(facts, kept, who, &id.map(Object::Attr)) {
        return not_found(alloc, attribute.as_str());
    }
    demand_on_attribute(
        alloc,
        facts,
        kept,
        who,
        the_attribute(&id),
        Privilege::AttrAdmin,
    )
}

/// The caller has a privilege on the object that has a text as its name.
fn demand_by_name<K: Kept>(
    alloc: Global,
    facts: &Facts,
    kept: &K,
    who: &Who,
    name: &Text,
    object: &Object,
    privilege: Privilege,
) -> Result<Option<Refusal>, AllocError>
    ensures { IfOk result (λ found. found
        ≡ first_of (denial (K.held kept.now) facts.now who.now (On name.now object.now privilege)
        ∷ [])) }
{
    if may(facts, kept, who, object, privilege) {
        return Ok(None);
    }
    denied(alloc, name.as_str(), privilege)
}

/// The caller has one privilege on a folder, or another on a group, that has a text as its name.
fn demand_on_named<K: Kept>(
    alloc: Global,
    facts: &Facts,
    kept: &K,
    who: &Who,
    name: &Text,
    object: &Object,
    on_folder: Privilege,
    on_group: Privilege,
) -> Result<Option<Refusal>, AllocError>
    ensures { IfOk result (λ found. found
        ≡ first_of (map (denial (K.held kept.now) facts.now who.now)
        (on_named name.now (Some object.now) on_folder on_group))) }
{
    match object {
        Object::Folder(_) => demand_by_name(alloc, facts, kept, who, name, object, on_folder),
        Object::Group(_) => demand_by_name(alloc, facts, kept, who, name, object, on_group),
        Object::Def(_) | Object::Attr(_) | Object::Subject(_) => Ok(None),
    }
}

/// The caller has one privilege on a folder, or another on a group, that a text names otherwise
/// than as an entity.
fn demand_on_owner<K: Kept>(
    alloc: Global,
    facts: &Facts,
    kept: &K,
    who: &Who,
    text: &Text,
    found: &Option<Object>,
    on_folder: Privilege,
    on_group: Privilege,
) -> Result<Option<Refusal>, AllocError>
    ensures { IfOk result (λ refusal. refusal
        ≡ first_of (map (denial (K.held kept.now) facts.now who.now)
        (on_owner (entity_of text.now) text.now found.now on_folder on_group))) }
{
    if Entity::parse(alloc, text.bytes())?.is_some() {
        return Ok(None);
    }
    match found {
        Some(object) => {
            demand_on_named(alloc, facts, kept, who, text, object, on_folder, on_group)
        }
        None => Ok(None),
    }
}

/// The caller may update attributes of the owner that a text names, and those of a definition.
#[tactic(auto, using(crate::proofs::Firsts::first_met, crate::proofs::Firsts::first_unmet))]
fn demand_to_assign<K: Kept>(
    alloc: Global,
    facts: &Facts,
    kept: &K,
    who: &Who,
    attribute: AttrId,
    owner: &Text,
    found: &Option<Object>,
) -> Result<Option<Refusal>, AllocError>
    ensures { IfOk result (λ refusal. refusal
        ≡ first_of (map (denial (K.held kept.now) facts.now who.now)
        (on_owner (entity_of owner.now) owner.now found.now StemAttrUpdate GroupAttrUpdate
        ++ on_attribute attribute AttrUpdate facts.now ∷ []))) }
{
    let of_folder = Privilege::StemAttrUpdate;
    let of_group = Privilege::GroupAttrUpdate;
    match demand_on_owner(alloc, facts, kept, who, owner, found, of_folder, of_group)? {
        Some(refusal) => Ok(Some(refusal)),
        None => demand_on_attribute(alloc, facts, kept, who, attribute, Privilege::AttrUpdate),
    }
}

/// An attribute is assigned, an assignment goes, or its values change: the caller sees the
/// attribute and the owner, may update attributes of the owner, and update those of the definition.
pub fn assignment<K: Kept>(
    alloc: Global,
    facts: &Facts,
    kept: &K,
    who: &Who,
    attribute: &Name,
    owner: &Text,
) -> Result<Option<Refusal>, AllocError>
    ensures { IfOk result (λ found. found
        ≡ first_of (no_attribute (K.held kept.now) facts.now who.now attribute.now
        ∷ no_object (K.held kept.now) facts.now who.now owner.now
        ∷ map (denial (K.held kept.now) facts.now who.now)
        (on_assignment attribute.now owner.now facts.now))) }
{
    let id = facts.attribute_id(attribute.as_str());
    if is_hidden(facts, kept, who, &id.map(Object::Attr)) {
        return not_found(alloc, attribute.as_str());
    }
    let found = facts.object_of(alloc, owner)?;
    if is_missing_object(alloc, facts, kept, who, owner, &found)? {
        return object_not_found(alloc, owner);
    }
    demand_to_assign(alloc, facts, kept, who, the_attribute(&id), owner, &found)
}
