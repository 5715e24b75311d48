// What refuses a command about grants and inherits.
ghost use Rattle.std.specs.Prelude.{◌≡◌, ◌&&◌, not, is_some, IfOk, None, Some};
ghost use Rattle.reg_base.specs.Entities.{entity_of};
ghost use Rattle.reg_facts.specs.Grants.{grant_for};
ghost use Rattle.reg_machine.specs.Checks.{grant_add_checks, grant_remove_checks, new_grant_checks};
ghost use Rattle.reg_machine.specs.Checks.{inherit_add_checks, inherit_remove_checks, bare_text};
ghost use Rattle.reg_machine.specs.Checks.{names_internal, takes_no_grant, is_foreign, is_system};
ghost use Rattle.reg_machine.specs.Checks.{is_unknown, grant_stands, inherit_stands};
ghost use Rattle.reg_machine.specs.History.{now_facts};
ghost use Rattle.reg_machine.specs.Refusals.{first_of};

use crate::Machine;
use crate::decide_members::{is_internal, named_text};
use crate::refusing::{full, not_found, wrong_kind};
use reg_base::{Entity, Moment, Privilege, Text};
use reg_effect::Kept;
use reg_facts::{GrantRow, Holder, InheritKind, InheritRow, Object, Refusal, Scope};
use reg_terms::{MAX_GRANTS, MAX_INHERITS, privilege_kind};
use std::alloc::{AllocError, Global};

/// What a text names isn't found: a group by its name, and all else by the text.
pub fn missing_object(alloc: Global, text: &Text) -> Result<Option<Refusal>, AllocError>
    ensures { IfOk result (λ found. found
        ≡ Some (Refusal.NotFound (bare_text (entity_of text.now) text.now))) }
{
    match Entity::parse(alloc, text.bytes())? {
        Some(Entity::Group(name)) => not_found(alloc, name.as_str()),
        _ => not_found(alloc, text.as_str()),
    }
}

/// Whether a text names an entity of the registry itself.
fn names_internal(alloc: Global, text: &Text) -> Result<bool, AllocError>
    ensures { IfOk result (λ b. b ≡ names_internal (entity_of text.now)) }
{
    match Entity::parse(alloc, text.bytes())? {
        Some(entity) => Ok(is_internal(&entity)),
        None => Ok(false),
    }
}

/// Whether a text, of which this object was found, names neither an object that stands nor an
/// entity of the registry itself.
pub fn is_missing(alloc: Global, text: &Text, found: &Option<Object>) -> Result<bool, AllocError>
    ensures { IfOk result (λ b. b
        ≡ (not (is_some found.now) && not (names_internal (entity_of text.now)))) }
{
    if found.is_some() {
        return Ok(false);
    }
    Ok(!names_internal(alloc, text)?)
}

/// Whether no grant can be written on an object.
fn has_no_privileges(object: &Object) -> bool
    ensures { result ≡ takes_no_grant (Some object.now) }
{
    match object {
        Object::Folder(_) | Object::Group(_) | Object::Def(_) => false,
        Object::Attr(_) | Object::Subject(_) => true,
    }
}

/// Whether no grant can be written on what a text names.
fn takes_no_grant(found: &Option<Object>) -> bool
    ensures { result ≡ takes_no_grant found.now }
{
    match found {
        Some(object) => has_no_privileges(object),
        None => true,
    }
}

/// Whether a privilege isn't of the object's kind.
fn is_foreign(privilege: Privilege, found: &Option<Object>) -> bool
    ensures { result ≡ is_foreign privilege found.now }
{
    match found {
        Some(object) => !object.is_of(privilege_kind(privilege)),
        None => true,
    }
}

/// Whether the entity may hold nothing.
pub fn is_system(entity: &Entity) -> bool
    ensures { result ≡ is_system entity.now }
{
    match entity {
        Entity::System => true,
        Entity::Person(_) | Entity::Group(_) | Entity::Everyone => false,
    }
}

/// The grant of a privilege, without dates, where its object and its holder stand.
fn grant_for(
    object: Option<Object>,
    privilege: Privilege,
    holder: Option<Holder>,
) -> Option<GrantRow>
    ensures { result ≡ grant_for object privilege holder None None }
{
    let object = object?;
    let holder = holder?;
    Some(GrantRow {
        object,
        privilege,
        holder,
        from: None,
        until: None,
    })
}

impl<K: Kept> Machine<K> {
    /// Whether the person or the group that an entity names doesn't stand.
    pub(crate) fn is_unknown(&self, entity: &Entity) -> bool
        ensures { result ≡ is_unknown entity.now (now_facts self.now) }
    {
        !is_internal(entity) && self.facts().member_of(entity).is_none()
    }

    /// Whether the grant that a command speaks of stands, on or not.
    fn grant_stands(&self, row: &Option<GrantRow>) -> bool
        ensures { result ≡ grant_stands row.now (now_facts self.now) }
    {
        match row {
            Some(row) => self.facts().has_grant(row),
            None => false,
        }
    }

    /// Whether the inherit that a command speaks of stands.
    fn inherit_stands(&self, row: &Option<InheritRow>) -> bool
        ensures { result ≡ inherit_stands row.now (now_facts self.now) }
    {
        match row {
            Some(row) => self.facts().has_inherit(row),
            None => false,
        }
    }

    /// What refuses a grant on an object for a holder that were looked up. One that stands is the
    /// same whatever its dates.
    fn decide_new_grant(
        &self,
        alloc: Global,
        found: Option<Object>,
        privilege: Privilege,
        holder: &Entity,
    ) -> Result<Option<Refusal>, AllocError>
        ensures { IfOk result (λ refusal. refusal
            ≡ first_of (new_grant_checks self.now.history
            (now_facts self.now) found privilege holder.now)) }
    {
        if takes_no_grant(&found) {
            return wrong_kind(alloc, "object");
        }
        if is_foreign(privilege, &found) {
            return wrong_kind(alloc, "privilege");
        }
        if is_system(holder) {
            return wrong_kind(alloc, "holder");
        }
        let row = grant_for(found, privilege, self.facts().holder_of(holder));
        if self.grant_stands(&row) {
            return Ok(Some(Refusal::Already));
        }
        if self.facts().grant_count() >= MAX_GRANTS {
            return full(alloc, "grant", MAX_GRANTS as u64);
        }
        self.decide_room(alloc)
    }

    pub(crate) fn decide_grant_add(
        &self,
        alloc: Global,
        object: &Text,
        privilege: Privilege,
        holder: &Entity,
        from: Option<Moment>,
        until: Option<Moment>,
    ) -> Result<Option<Refusal>, AllocError>
        ensures { IfOk result (λ found. found
            ≡ first_of (grant_add_checks self.now.history self.now.clock
            (now_facts self.now) object.now privilege holder.now from until)) }
    {
        let found = self.facts().object_of(alloc, object)?;
        if is_missing(alloc, object, &found)? {
            return missing_object(alloc, object);
        }
        if self.is_unknown(holder) {
            return not_found(alloc, named_text(holder));
        }
        if self.ends_early(from, until) {
            return Ok(Some(Refusal::BadWindow));
        }
        self.decide_new_grant(alloc, found, privilege, holder)
    }

    pub(crate) fn decide_grant_remove(
        &self,
        alloc: Global,
        object: &Text,
        privilege: Privilege,
        holder: &Entity,
    ) -> Result<Option<Refusal>, AllocError>
        ensures { IfOk result (λ found. found
            ≡ first_of (grant_remove_checks self.now.history
            (now_facts self.now) object.now privilege holder.now)) }
    {
        let found = self.facts().object_of(alloc, object)?;
        if is_missing(alloc, object, &found)? {
            return missing_object(alloc, object);
        }
        if self.is_unknown(holder) {
            return not_found(alloc, named_text(holder));
        }
        if takes_no_grant(&found) {
            return wrong_kind(alloc, "object");
        }
        if is_foreign(privilege, &found) {
            return wrong_kind(alloc, "privilege");
        }
        if is_system(holder) {
            return wrong_kind(alloc, "holder");
        }
        let row = grant_for(found, privilege, self.facts().holder_of(holder));
        if !self.grant_stands(&row) {
            return Ok(Some(Refusal::NoSuch));
        }
        self.decide_room(alloc)
    }

    pub(crate) fn decide_inherit_add(
        &self,
        alloc: Global,
        folder: &Text,
        kind: InheritKind,
        scope: Scope,
        privilege: Privilege,
        holder: &Entity,
    ) -> Result<Option<Refusal>, AllocError>
        ensures { IfOk result (λ found. found
            ≡ first_of (inherit_add_checks self.now.history
            (now_facts self.now) folder.now kind scope privilege holder.now)) }
    {
        if self.facts().folder_id(folder.as_str()).is_none() {
            return not_found(alloc, folder.as_str());
        }
        if self.is_unknown(holder) {
            return not_found(alloc, named_text(holder));
        }
        if !privilege_kind(privilege).is(&kind) {
            return wrong_kind(alloc, "privilege");
        }
        if is_system(holder) {
            return wrong_kind(alloc, "holder");
        }
        let row = self
            .facts()
            .inherit_of(folder, kind, scope, privilege, holder);
        if self.inherit_stands(&row) {
            return Ok(Some(Refusal::Already));
        }
        if self.facts().inherit_count() >= MAX_INHERITS {
            return full(alloc, "inherit", MAX_INHERITS as u64);
        }
        self.decide_room(alloc)
    }

    pub(crate) fn decide_inherit_remove(
        &self,
        alloc: Global,
        folder: &Text,
        kind: InheritKind,
        scope: Scope,
        privilege: Privilege,
        holder: &Entity,
    ) -> Result<Option<Refusal>, AllocError>
        ensures { IfOk result (λ found. found
            ≡ first_of (inherit_remove_checks self.now.history
            (now_facts self.now) folder.now kind scope privilege holder.now)) }
    {
        if self.facts().folder_id(folder.as_str()).is_none() {
            return not_found(alloc, folder.as_str());
        }
        if self.is_unknown(holder) {
            return not_found(alloc, named_text(holder));
        }
        if !privilege_kind(privilege).is(&kind) {
            return wrong_kind(alloc, "privilege");
        }
        if is_system(holder) {
            return wrong_kind(alloc, "holder");
        }
        let row = self
            .facts()
            .inherit_of(folder, kind, scope, privilege, holder);
        if !self.inherit_stands(&row) {
            return Ok(Some(Refusal::NoSuch));
        }
        self.decide_room(alloc)
    }
}
