// What refuses a command about assignments of attributes and their values.
ghost use Rattle.std.specs.Prelude.{◌≡◌, ◌∷◌, [], not, is_some, IfOk, IsSome, Some, true, codes};
ghost use Rattle.std.specs.Prelude.{option_map};
ghost use Rattle.std.specs.Option.{option_copied};
ghost use Rattle.reg_base.specs.Entities.{entity_of};
ghost use Rattle.reg_terms.specs.Limits.{max_assigns, max_values};
ghost use Rattle.reg_terms.specs.declared.refusal.Refusal.TheVariants.{Single, WrongValue};
ghost use Rattle.reg_attr.specs.Checks.{suits_owner};
ghost use Rattle.reg_facts.specs.Attributes.{assign_row, definition_of, has_assign, value_count};
ghost use Rattle.reg_facts.specs.Attributes.{value_of};
ghost use Rattle.reg_machine.specs.Checks.{assign_add_checks, assign_checks, assign_remove_checks};
ghost use Rattle.reg_machine.specs.Checks.{history_full, limited, missing_object, value_add_checks};
ghost use Rattle.reg_machine.specs.Checks.{value_checks, value_remove_checks};
ghost use Rattle.reg_machine.specs.Assigning.{fault_refusal, has_the_one, is_held_once, may_own};
ghost use Rattle.reg_machine.specs.Assigning.{names_group, owner_of, value_stands};
ghost use Rattle.reg_machine.specs.History.{now_facts};
ghost use Rattle.reg_machine.specs.Refusals.{first_of};

use crate::Machine;
use crate::decide_grants::{is_missing, missing_object};
use crate::refusing::{full, not_found, wrong_kind};
use reg_attr::{AttrFault, check_assign, check_value};
use reg_base::{AssignId, AttrId, Entity, Name, Text};
use reg_effect::Kept;
use reg_facts::{AssignRow, AttrValue, Object, Refusal, Value};
use reg_terms::{MAX_ASSIGNS, MAX_VALUES};
use std::alloc::{AllocError, Global};

/// The refusal for what a definition finds at fault.
fn refusal_of(fault: AttrFault) -> Refusal
    ensures { result ≡ fault_refusal fault }
{
    match fault {
        AttrFault::WrongOwner => Refusal::WrongOwner,
        AttrFault::WrongValue => Refusal::WrongValue,
        AttrFault::Single => Refusal::Single,
    }
}

/// Whether a text names a group as an entity.
fn names_group(alloc: Global, text: &Text) -> Result<bool, AllocError>
    ensures { IfOk result (λ b. b ≡ names_group (entity_of text.now)) }
{
    match Entity::parse(alloc, text.bytes())? {
        Some(Entity::Group(_)) => Ok(true),
        _ => Ok(false),
    }
}

/// Whether attributes can be assigned to an object, which a text names as an entity or by its name.
fn may_own(as_entity: bool, object: &Object) -> bool
    ensures { result ≡ may_own as_entity object.now }
{
    match object {
        Object::Folder(_) | Object::Subject(_) => true,
        Object::Group(_) => !as_entity,
        Object::Def(_) | Object::Attr(_) => false,
    }
}

/// The object that a text names, of which this was found, if attributes can be assigned to it.
fn owner_of(
    alloc: Global,
    text: &Text,
    found: &Option<Object>,
) -> Result<Option<Object>, AllocError>
    ensures { IfOk result (λ owner. owner ≡ owner_of (entity_of text.now) found.now) }
{
    let as_entity = names_group(alloc, text)?;
    match found {
        Some(object) if may_own(as_entity, object) => Ok(Some(*object)),
        _ => Ok(None),
    }
}

/// What refuses the object that a text names, of which this was found, as an owner of attributes.
fn no_owner(
    alloc: Global,
    text: &Text,
    found: &Option<Object>,
) -> Result<Option<Refusal>, AllocError>
    ensures { IfOk result (λ refusal. refusal
        ≡ first_of (missing_object text.now found.now ∷ (true, Refusal.WrongKind (codes "object"))
        ∷ [])) }
{
    if is_missing(alloc, text, found)? {
        return missing_object(alloc, text);
    }
    wrong_kind(alloc, "object")
}

/// Whether an assignment has a value that is this one.
fn value_stands(assign: Option<&AssignRow>, value: &Option<AttrValue>) -> bool
    ensures { result ≡ value_stands (option_copied assign.entry) value.now }
{
    match assign {
        Some(row) => match value {
            Some(value) => row.values.has(value),
            None => false,
        },
        None => false,
    }
}

impl<K: Kept> Machine<K> {
    /// Whether an owner has an attribute that it may have once.
    fn is_held_once(&self, attribute: AttrId, owner: &Object) -> bool
        ensures { result ≡ is_held_once attribute (Some owner.now) (now_facts self.now) }
    {
        match self.facts().definition_of(attribute) {
            Some(definition) if definition.several => false,
            _ => self.facts().is_assigned_to(owner, attribute),
        }
    }

    /// Whether the definition of an attribute doesn't suit an owner.
    #[tactic(auto, using(crate::proofs::Owned::definition_is))]
    fn is_unsuited(&self, attribute: AttrId, owner: &Object) -> bool
        ensures { result ≡ not (suits_owner
            (definition_of attribute (now_facts self.now)) owner.now) }
    {
        match self.facts().definition_of(attribute) {
            Some(definition) => check_assign(self.facts(), definition.id, *owner).is_err(),
            None => true,
        }
    }

    /// Full, where there is no room for an assignment more, or for a command more.
    fn decide_assign_room(&self, alloc: Global) -> Result<Option<Refusal>, AllocError>
        ensures { IfOk result (λ found. found
            ≡ first_of (limited max_assigns (now_facts self.now).made.assigns (codes "assignment")
            ∷ history_full self.now.history ∷ [])) }
    {
        if self.facts().made().assigns >= MAX_ASSIGNS {
            return full(alloc, "assignment", u64::from(MAX_ASSIGNS));
        }
        self.decide_room(alloc)
    }

    /// Full, where there is no room for a value more, or for a command more.
    fn decide_value_room(&self, alloc: Global) -> Result<Option<Refusal>, AllocError>
        ensures { IfOk result (λ found. found
            ≡ first_of (limited max_values (value_count (now_facts self.now).assigns)
            (codes "value") ∷ history_full self.now.history ∷ [])) }
    {
        if self.facts().value_count() >= MAX_VALUES {
            return full(alloc, "value", MAX_VALUES as u64);
        }
        self.decide_room(alloc)
    }

    /// What refuses to assign an attribute to an owner.
    fn decide_assign(
        &self,
        alloc: Global,
        attribute: AttrId,
        owner: &Object,
    ) -> Result<Option<Refusal>, AllocError>
        ensures { IfOk result (λ found. found
            ≡ first_of (assign_checks self.now.history (now_facts self.now) attribute
            (Some owner.now))) }
    {
        if self.is_held_once(attribute, owner) {
            return Ok(Some(Refusal::Already));
        }
        if self.is_unsuited(attribute, owner) {
            return Ok(Some(Refusal::WrongOwner));
        }
        self.decide_assign_room(alloc)
    }

    /// What refuses a value for an assignment of an attribute.
    #[tactic(auto, using(crate::proofs::Owned::value_checked, crate::proofs::Owned::assign_there))]
    fn decide_taken(
        &self,
        alloc: Global,
        attribute: AttrId,
        assign: AssignId,
        value: &Value,
    ) -> Result<Option<Refusal>, AllocError>
        requires { option_map (λ row. row.attribute)
            (assign_row assign (now_facts self.now).assigns) ≡ Some attribute }
        ensures { IfOk result (λ found. found
            ≡ first_of ((
              not (is_some (value_of attribute value.now (now_facts self.now))),
              WrongValue,
            ) ∷ (has_the_one attribute assign (now_facts self.now), Single)
            ∷ limited max_values (value_count (now_facts self.now).assigns) (codes "value")
            ∷ history_full self.now.history ∷ [])) }
    {
        let _attribute = attribute;
        match check_value(self.facts(), alloc, assign, value)? {
            Ok(_) => self.decide_value_room(alloc),
            Err(fault) => Ok(Some(refusal_of(fault))),
        }
    }

    /// What refuses to add a value to the assignment of an id.
    #[tactic(auto, using(crate::proofs::Owned::assign_found, crate::proofs::Owned::assign_is))]
    fn decide_value(
        &self,
        alloc: Global,
        attribute: AttrId,
        owner: &Object,
        id: u64,
        value: &Value,
    ) -> Result<Option<Refusal>, AllocError>
        ensures { IfOk result (λ found. found
            ≡ first_of (value_checks self.now.history (now_facts self.now) attribute
            (Some owner.now) id value.now)) }
    {
        let facts = self.facts();
        if !facts.has_assign(id, owner, attribute) {
            return Ok(Some(Refusal::NoSuch));
        }
        facts.law_assigned();
        match facts.assign(id) {
            Some(row) => self.decide_taken(alloc, attribute, row.id, value),
            None => unreachable!(),
        }
    }

    #[tactic(auto, using(crate::proofs::Owned::owner_passes, crate::proofs::Owned::owner_refused))]
    pub(crate) fn decide_assign_add(
        &self,
        alloc: Global,
        attribute: &Name,
        object: &Text,
    ) -> Result<Option<Refusal>, AllocError>
        ensures { IfOk result (λ found. found
            ≡ first_of (assign_add_checks self.now.history
            (now_facts self.now) attribute.now object.now)) }
    {
        let Some(id) = self.facts().attribute_id(attribute.as_str()) else {
            return not_found(alloc, attribute.as_str());
        };
        let found = self.facts().object_of(alloc, object)?;
        let Some(owner) = owner_of(alloc, object, &found)? else {
            return no_owner(alloc, object, &found);
        };
        self.decide_assign(alloc, id, &owner)
    }

    #[tactic(auto, using(crate::proofs::Owned::owner_passes, crate::proofs::Owned::owner_refused))]
    pub(crate) fn decide_assign_remove(
        &self,
        alloc: Global,
        attribute: &Name,
        object: &Text,
        id: u64,
    ) -> Result<Option<Refusal>, AllocError>
        ensures { IfOk result (λ found. found
            ≡ first_of (assign_remove_checks self.now.history
            (now_facts self.now) attribute.now object.now id)) }
    {
        let Some(attribute_id) = self.facts().attribute_id(attribute.as_str()) else {
            return not_found(alloc, attribute.as_str());
        };
        let found = self.facts().object_of(alloc, object)?;
        let Some(owner) = owner_of(alloc, object, &found)? else {
            return no_owner(alloc, object, &found);
        };
        if !self.facts().has_assign(id, &owner, attribute_id) {
            return Ok(Some(Refusal::NoSuch));
        }
        self.decide_room(alloc)
    }

    #[tactic(auto, using(crate::proofs::Owned::owner_passes, crate::proofs::Owned::owner_refused))]
    pub(crate) fn decide_value_add(
        &self,
        alloc: Global,
        attribute: &Name,
        object: &Text,
        id: u64,
        value: &Value,
    ) -> Result<Option<Refusal>, AllocError>
        ensures { IfOk result (λ found. found
            ≡ first_of (value_add_checks self.now.history
            (now_facts self.now) attribute.now object.now id value.now)) }
    {
        let Some(attribute_id) = self.facts().attribute_id(attribute.as_str()) else {
            return not_found(alloc, attribute.as_str());
        };
        let found = self.facts().object_of(alloc, object)?;
        let Some(owner) = owner_of(alloc, object, &found)? else {
            return no_owner(alloc, object, &found);
        };
        self.decide_value(alloc, attribute_id, &owner, id, value)
    }

    /// What refuses to take a value away from the assignment of an id, which is of this attribute
    /// to this owner, if it stands.
    fn decide_value_gone(
        &self,
        alloc: Global,
        attribute: AttrId,
        owner: &Object,
        id: u64,
        value: &Value,
    ) -> Result<Option<Refusal>, AllocError>
        ensures { IfOk result (λ found. found
            ≡ first_of ((
              not (has_assign id owner.now attribute (now_facts self.now).assigns),
              Refusal.NoSuch,
            ) ∷ (
              not (value_stands (assign_row id (now_facts self.now).assigns)
                  (value_of attribute value.now (now_facts self.now))),
              Refusal.NoSuch,
            )
            ∷ history_full self.now.history ∷ [])) }
    {
        let facts = self.facts();
        if !facts.has_assign(id, owner, attribute) {
            return Ok(Some(Refusal::NoSuch));
        }
        let value = facts.value_of(alloc, attribute, value)?;
        if !value_stands(facts.assign(id), &value) {
            return Ok(Some(Refusal::NoSuch));
        }
        self.decide_room(alloc)
    }

    #[tactic(auto, using(crate::proofs::Owned::owner_passes, crate::proofs::Owned::owner_refused))]
    pub(crate) fn decide_value_remove(
        &self,
        alloc: Global,
        attribute: &Name,
        object: &Text,
        id: u64,
        value: &Value,
    ) -> Result<Option<Refusal>, AllocError>
        ensures { IfOk result (λ found. found
            ≡ first_of (value_remove_checks self.now.history
            (now_facts self.now) attribute.now object.now id value.now)) }
    {
        let Some(attribute_id) = self.facts().attribute_id(attribute.as_str()) else {
            return not_found(alloc, attribute.as_str());
        };
        let found = self.facts().object_of(alloc, object)?;
        let Some(owner) = owner_of(alloc, object, &found)? else {
            return no_owner(alloc, object, &found);
        };
        self.decide_value_gone(alloc, attribute_id, &owner, id, value)
    }
}
