// Definitions, attributes and assignments: looked up, and as a command names them.
ghost use Rattle.std.specs.Prelude.{◌≡◌, ◌<◌, ◌≤◌, ◌+◌, ℕ, Bool, List, Some, IsSome, IfOk, length};
ghost use Rattle.std.specs.Prelude.{true};
ghost use Rattle.std.specs.Option.{option_copied};
ghost use Rattle.reg_base.specs.NameParts.{extension_of};
ghost use Rattle.reg_base.specs.declared.entity.Entity.{Entity};
ghost use Rattle.reg_base.specs.declared.privilege.Privilege.TheVariants.{AttrAdmin};
ghost use Rattle.reg_terms.specs.Kinds.{as_definition, as_attribute};
ghost use Rattle.reg_terms.specs.Limits.{max_definitions, max_grants};
ghost use Rattle.reg_terms.specs.Values.{suits};
ghost use Rattle.reg_terms.specs.declared.command.Command.TheVariants.{AttrdefAdd};
ghost use Rattle.reg_terms.specs.declared.kinds.DefKind.{DefKind};
ghost use Rattle.reg_terms.specs.declared.kinds.Object.{Object};
ghost use Rattle.reg_terms.specs.declared.kinds.Object.TheVariants as object;
ghost use Rattle.reg_terms.specs.declared.kinds.Owners.{Owners};
ghost use Rattle.reg_facts.specs.Assigned.{AreAssigned, OwnerStands};
ghost use Rattle.reg_facts.specs.Attributes.{definition_row, attribute_row, definition_of};
ghost use Rattle.reg_facts.specs.Attributes.{has_attributes, assign_row, assigns_on, is_assigned};
ghost use Rattle.reg_facts.specs.Attributes.{is_assigned_to, has_assign, definition_id};
ghost use Rattle.reg_facts.specs.Attributes.{attribute_id, value_of};
ghost use Rattle.reg_facts.specs.Edits.{the_id};
ghost use Rattle.reg_facts.specs.Events.{events_of};
ghost use Rattle.reg_facts.specs.Grants.{makers_grant, object_of};
ghost use Rattle.reg_facts.specs.Naming.{home_id};
ghost use Rattle.reg_facts.specs.Suiting.{AllSuit, CanStand};

use crate::{AssignRow, AttrValue, DefinitionRow, Facts, Object, Value};
use reg_base::{AttrDefId, AttrId};
use std::alloc::{AllocError, Global};

/// A definition's id, if the object is one.
fn as_definition(object: Option<Object>) -> Option<AttrDefId>
    ensures { result ≡ as_definition object }
{
    match object {
        Some(object) => object.definition(),
        None => None,
    }
}

/// An attribute's id, if the object is one.
fn as_attribute(object: Option<Object>) -> Option<AttrId>
    ensures { result ≡ as_attribute object }
{
    match object {
        Some(object) => object.attribute(),
        None => None,
    }
}

impl Facts {
    /// The definition of attributes of this name. None exactly where there is none. It takes no
    /// memory.
    pub fn definition_id(&self, text: &str) -> Option<AttrDefId>
        ensures { result ≡ definition_id text.now self.now }
    {
        as_definition(self.resolve(text))
    }

    /// The attribute of this name. None exactly where there is none. It takes no memory.
    pub fn attribute_id(&self, text: &str) -> Option<AttrId>
        ensures { result ≡ attribute_id text.now self.now }
    {
        as_attribute(self.resolve(text))
    }

    /// The definition of an attribute. None exactly where the attribute doesn't stand. It takes no
    /// memory.
    pub fn definition_of(&self, attribute: AttrId) -> Option<&DefinitionRow>
        ensures { option_copied result ≡ definition_of attribute self.now }
    {
        let row = self.attribute(attribute)?;
        self.definition(row.definition)
    }

    /// Whether an attribute is of a definition. It takes no memory.
    pub fn has_attributes(&self, definition: AttrDefId) -> bool
        ensures { result ≡ has_attributes definition self.now.attributes }
    {
        self.tables.attribute_rows.has_of(definition)
    }

    /// The assignment of this id. None exactly where there is none. It takes no memory, and costs a
    /// logarithm.
    pub fn assign(&self, id: u64) -> Option<&AssignRow>
        ensures { option_copied result ≡ assign_row id self.now.assigns }
    {
        self.law_assigned();
        if id > self.made().assigns as u64 {
            return None;
        }
        self.tables.assign_rows.get(id as u32)
    }

    /// Whether the assignment of this id is of this attribute to this owner. It takes no memory.
    pub fn has_assign(&self, id: u64, owner: &Object, attribute: AttrId) -> bool
        ensures { result ≡ has_assign id owner.now attribute self.now.assigns }
    {
        self.law_assigned();
        if id > self.made().assigns as u64 {
            return false;
        }
        self.tables.assign_rows.has(id as u32, owner, attribute)
    }

    /// Whether an attribute is assigned to something. It takes no memory.
    pub fn is_assigned(&self, attribute: AttrId) -> bool
        ensures { result ≡ is_assigned attribute self.now.assigns }
    {
        self.tables.assign_rows.is_assigned(attribute)
    }

    /// Whether an attribute is assigned to this owner. It takes no memory.
    pub fn is_assigned_to(&self, owner: &Object, attribute: AttrId) -> bool
        ensures { result ≡ is_assigned_to owner.now attribute self.now.assigns }
    {
        self.tables.assign_rows.is_assigned_to(owner, attribute)
    }

    /// The assignments to an owner, by id. It looks at these alone.
    pub fn assigns_on(&self, alloc: Global, owner: &Object) -> Result<Vec<AssignRow>, AllocError>
        ensures { IfOk result (λ rows. rows.items ≡ assigns_on owner.now self.now.assigns) }
    {
        self.tables.assign_rows.on(alloc, owner)
    }

    /// A value as the definition of an attribute takes it (`Value::taken`). None exactly where the
    /// definition doesn't take it, or the attribute doesn't stand.
    pub fn value_of(
        &self,
        alloc: Global,
        attribute: AttrId,
        value: &Value,
    ) -> Result<Option<AttrValue>, AllocError>
        ensures { IfOk result (λ found. found ≡ value_of attribute value.now self.now) }
    {
        match self.definition_of(attribute) {
            Some(row) => value.taken(alloc, row.kind),
            None => Ok(None),
        }
    }

    /// A law, which does nothing: the ids of assignments ascend, what attributes and assignments
    /// speak of stands, and no more values stand than may.
    pub fn law_assigned(&self)
        ensures { AreAssigned self.now }
    {
        let _ = &self.tables;
    }

    /// A law, which does nothing: the definition or the attribute that a name names stands, and so
    /// does an object that a text names and some definition suits.
    pub fn law_owners(&self)
        ensures definitions { (name : List ℕ) (a : ℕ) → definition_id name self.now ≡ Some a
            → IsSome (definition_row a self.now.definitions) }
        ensures attributes { (name : List ℕ) (a : ℕ) → attribute_id name self.now ≡ Some a
            → IsSome (attribute_row a self.now.attributes) }
        ensures owners { (text : List ℕ) (o : Object) (owners : Owners)
            → object_of text self.now ≡ Some o → suits owners o ≡ true → OwnerStands self.now o }
    {
        self.law_sound();
    }
}
