// What refuses a command about definitions of attributes and attributes.
ghost use Rattle.std.specs.Prelude.{◌≡◌, ◌∷◌, [], IfOk, codes};
ghost use Rattle.reg_terms.specs.Limits.{max_attributes, max_definitions};
ghost use Rattle.reg_machine.specs.Checks.{attr_add_checks, attr_delete_checks, attrdef_add_checks};
ghost use Rattle.reg_machine.specs.Checks.{attrdef_delete_checks, grant_full, history_full};
ghost use Rattle.reg_machine.specs.Checks.{limited};
ghost use Rattle.reg_machine.specs.History.{now_facts};
ghost use Rattle.reg_machine.specs.Refusals.{first_of};

use crate::Machine;
use crate::refusing::{full, in_use, not_found, taken};
use reg_base::{Entity, Name};
use reg_effect::Kept;
use reg_facts::{Refusal, extension_of, home_of};
use reg_terms::{MAX_ATTRIBUTES, MAX_DEFINITIONS};
use std::alloc::{AllocError, Global};

impl<K: Kept> Machine<K> {
    /// Full, where there is no room for a definition more, for the grant of its maker, or for a
    /// command more.
    fn decide_definition_room(
        &self,
        alloc: Global,
        by: &Entity,
    ) -> Result<Option<Refusal>, AllocError>
        ensures { IfOk result (λ found. found
            ≡ first_of (limited max_definitions (now_facts self.now).made.definitions
            (codes "definition") ∷ grant_full by.now (now_facts self.now)
            ∷ history_full self.now.history ∷ [])) }
    {
        if self.facts().made().definitions >= MAX_DEFINITIONS {
            return full(alloc, "definition", u64::from(MAX_DEFINITIONS));
        }
        self.decide_makers_room(alloc, by)
    }

    /// Full, where there is no room for an attribute more, or for a command more.
    fn decide_attribute_room(&self, alloc: Global) -> Result<Option<Refusal>, AllocError>
        ensures { IfOk result (λ found. found
            ≡ first_of (limited max_attributes (now_facts self.now).made.attributes
            (codes "attribute") ∷ history_full self.now.history ∷ [])) }
    {
        if self.facts().made().attributes >= MAX_ATTRIBUTES {
            return full(alloc, "attribute", u64::from(MAX_ATTRIBUTES));
        }
        self.decide_room(alloc)
    }

    pub(crate) fn decide_attrdef_add(
        &self,
        alloc: Global,
        by: &Entity,
        definition: &Name,
    ) -> Result<Option<Refusal>, AllocError>
        ensures { IfOk result (λ found. found
            ≡ first_of (attrdef_add_checks self.now.history
            (now_facts self.now) by.now definition.now)) }
    {
        let home_name = home_of(definition.as_str());
        let home = self.facts().folder_id(home_name);
        if home.is_none() {
            return not_found(alloc, home_name);
        }
        if self.is_taken(home, extension_of(definition.as_str())) {
            return taken(alloc, definition.as_str());
        }
        self.decide_definition_room(alloc, by)
    }

    pub(crate) fn decide_attrdef_delete(
        &self,
        alloc: Global,
        definition: &Name,
    ) -> Result<Option<Refusal>, AllocError>
        ensures { IfOk result (λ found. found
            ≡ first_of (attrdef_delete_checks self.now.history
            (now_facts self.now) definition.now)) }
    {
        let Some(id) = self.facts().definition_id(definition.as_str()) else {
            return not_found(alloc, definition.as_str());
        };
        if self.facts().has_attributes(id) {
            return in_use(alloc, "attribute");
        }
        self.decide_room(alloc)
    }

    pub(crate) fn decide_attr_add(
        &self,
        alloc: Global,
        attribute: &Name,
        definition: &Name,
    ) -> Result<Option<Refusal>, AllocError>
        ensures { IfOk result (λ found. found
            ≡ first_of (attr_add_checks self.now.history
            (now_facts self.now) attribute.now definition.now)) }
    {
        let home_name = home_of(attribute.as_str());
        let home = self.facts().folder_id(home_name);
        if home.is_none() {
            return not_found(alloc, home_name);
        }
        if self.facts().definition_id(definition.as_str()).is_none() {
            return not_found(alloc, definition.as_str());
        }
        if self.is_taken(home, extension_of(attribute.as_str())) {
            return taken(alloc, attribute.as_str());
        }
        self.decide_attribute_room(alloc)
    }

    pub(crate) fn decide_attr_delete(
        &self,
        alloc: Global,
        attribute: &Name,
    ) -> Result<Option<Refusal>, AllocError>
        ensures { IfOk result (λ found. found
            ≡ first_of (attr_delete_checks self.now.history (now_facts self.now) attribute.now)) }
    {
        let Some(id) = self.facts().attribute_id(attribute.as_str()) else {
            return not_found(alloc, attribute.as_str());
        };
        if self.facts().is_assigned(id) {
            return in_use(alloc, "assignment");
        }
        self.decide_room(alloc)
    }
}
