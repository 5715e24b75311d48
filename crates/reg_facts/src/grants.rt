// Grants and inherits: looked up one by one, and as the texts of a command name them.
ghost use Rattle.std.specs.Prelude.{◌≡◌, ◌<◌, ◌^◌, Bool, IfOk, length};
ghost use Rattle.std.specs.List.{list_any, find};
ghost use Rattle.reg_terms.specs.declared.rows.GrantRow.{GrantRow};
ghost use Rattle.reg_terms.specs.declared.rows.InheritRow.{InheritRow};
ghost use Rattle.reg_base.specs.Entities.{entity_of};
ghost use Rattle.reg_facts.specs.Grants.{same_grant, has_grant, has_inherit, grants_on};
ghost use Rattle.reg_facts.specs.Grants.{inherits_on, is_holder};
ghost use Rattle.reg_facts.specs.Grants.{entity_object, of_entity, object_of, holder_of, grant_of};
ghost use Rattle.reg_facts.specs.Grants.{inherit_of};

use crate::{Facts, GrantRow, Holder, InheritKind, InheritRow, Object, Scope};
use reg_base::{Entity, FolderId, GroupId, Moment, Privilege, Text};
use reg_table::GroupRows;
use std::alloc::{AllocError, Global};

impl Facts {
    /// Whether this grant stands. It takes no memory.
    pub fn has_grant(&self, row: &GrantRow) -> bool
        ensures { result ≡ has_grant row.now self.now.grants }
    {
        self.tables.grant_rows.contains(row)
    }

    /// The grant that is the same as this one, with its dates. None exactly where it doesn't stand.
    /// It takes no memory.
    pub fn grant(&self, row: &GrantRow) -> Option<GrantRow>
        ensures { result ≡ find (same_grant row.now) self.now.grants }
    {
        self.tables.grant_rows.get(row)
    }

    /// Whether this inherit stands. It takes no memory.
    pub fn has_inherit(&self, row: &InheritRow) -> bool
        ensures { result ≡ has_inherit row.now self.now.inherits }
    {
        self.tables.inherit_rows.contains(row)
    }

    /// The grants that are written on an object, each once. It takes no memory.
    pub fn grants_of(&self, object: &Object) -> GroupRows<'_, GrantRow>
        ensures same { (test : GrantRow → Bool)
            → list_any test result ≡ list_any test (grants_on object.now self.now.grants) }
        ensures fits { length result < 2 ^ 63 }
    {
        self.tables.grant_rows.on(object)
    }

    /// The inherits that are written on a folder, each once. It takes no memory.
    pub fn inherits_of(&self, folder: FolderId) -> GroupRows<'_, InheritRow>
        ensures same { (test : InheritRow → Bool)
            → list_any test result ≡ list_any test (inherits_on folder self.now.inherits) }
        ensures fits { length result < 2 ^ 63 }
    {
        self.tables.inherit_rows.on(folder)
    }

    /// Whether a group holds a grant or an inherit. It takes no memory.
    pub fn is_holder(&self, group: GroupId) -> bool
        ensures { result ≡ is_holder group self.now }
    {
        self.tables.grant_rows.is_holder(group) || self.tables.inherit_rows.is_holder(group)
    }

    /// The object that an entity names, if it names one that stands. It takes no memory.
    pub fn entity_object(&self, entity: &Entity) -> Option<Object>
        ensures { result ≡ entity_object entity.now self.now }
    {
        match entity {
            Entity::Person(text) => self.subject_id(text.as_str()).map(Object::Subject),
            Entity::Group(name) => self.group_id(name.as_str()).map(Object::Group),
            Entity::System | Entity::Everyone => None,
        }
    }

    /// The object that an entity's text names, if it names one that stands.
    fn of_entity(&self, alloc: Global, text: &Text) -> Result<Option<Object>, AllocError>
        ensures { IfOk result (λ found. found ≡ of_entity (entity_of text.now) self.now) }
    {
        match Entity::parse(alloc, text.bytes())? {
            Some(entity) => Ok(self.entity_object(&entity)),
            None => Ok(None),
        }
    }

    /// The object that a text names: an entity where it has a `/`, and else by its name. None
    /// exactly where it names no object that stands.
    #[tactic(auto, unfolding(crate::specs::Grants::object_of))]
    pub fn object_of(&self, alloc: Global, text: &Text) -> Result<Option<Object>, AllocError>
        ensures { IfOk result (λ found. found ≡ object_of text.now self.now) }
    {
        if text.bytes().contains(&b'/') {
            return self.of_entity(alloc, text);
        }
        Ok(self.resolve(text.as_str()))
    }

    /// The holder that an entity names, if it may hold a privilege and stands. It takes no memory.
    pub fn holder_of(&self, entity: &Entity) -> Option<Holder>
        ensures { result ≡ holder_of entity.now self.now }
    {
        match entity {
            Entity::Person(text) => self.subject_id(text.as_str()).map(Holder::Person),
            Entity::Group(name) => self.group_id(name.as_str()).map(Holder::Group),
            Entity::System => None,
            Entity::Everyone => Some(Holder::Everyone),
        }
    }

    /// The grant that these texts name, between two dates, if its object and its holder stand.
    pub fn grant_of(
        &self,
        alloc: Global,
        object: &Text,
        privilege: Privilege,
        holder: &Entity,
        from: Option<Moment>,
        until: Option<Moment>,
    ) -> Result<Option<GrantRow>, AllocError>
        ensures { IfOk result (λ found. found
            ≡ grant_of object.now privilege holder.now from until self.now) }
    {
        let Some(object) = self.object_of(alloc, object)? else {
            return Ok(None);
        };
        let Some(holder) = self.holder_of(holder) else {
            return Ok(None);
        };
        Ok(Some(GrantRow {
            object,
            privilege,
            holder,
            from,
            until,
        }))
    }

    /// The inherit that these texts name, if its folder and its holder stand. It takes no memory.
    pub fn inherit_of(
        &self,
        folder: &Text,
        kind: InheritKind,
        scope: Scope,
        privilege: Privilege,
        holder: &Entity,
    ) -> Option<InheritRow>
        ensures { result ≡ inherit_of folder.now kind scope privilege holder.now self.now }
    {
        let folder = self.folder_id(folder.as_str())?;
        let holder = self.holder_of(holder)?;
        Some(InheritRow {
            folder,
            kind,
            scope,
            privilege,
            holder,
        })
    }
}
