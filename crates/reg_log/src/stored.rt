// Lines as they are stored: each without its moment, which is kept once for a run of lines.
ghost use Rattle.std.specs.Prelude.{◌≡◌, ℕ, Some};
ghost use Rattle.reg_log.specs.Stretches.{object_of, entity_of, line_of};

use reg_base::{AttrDefId, AttrId, FolderId, GroupId, Moment, SubjectId};
use reg_terms::{EntryKind, Holder, Object};

/// Of which kind a line's object is.
#[derive(Clone, Copy)]
pub(crate) enum ObjectKind {
    Nothing,
    Folder,
    Group,
    Def,
    Attr,
    Subject,
}

/// Of which kind a line's entity is.
#[derive(Clone, Copy)]
pub(crate) enum EntityKind {
    Nobody,
    Everyone,
    Person,
    Group,
}

/// A line without its moment, in 16 bytes. Kinds and numbers of ids stand apart: an enum that
/// holds an id takes 4 bytes for its kind.
#[derive(Clone, Copy)]
pub(crate) struct StoredLine {
    kind: EntryKind,
    object_kind: ObjectKind,
    entity_kind: EntityKind,
    /// The number of the object's id; 0 where there is no object.
    object_id: u32,
    /// The number of the entity's id; 0 where there is none.
    entity_id: u32,
    number: u32,
}

/// A run of lines of one moment, which ends where the next one begins.
#[derive(Clone, Copy)]
pub(crate) struct Stretch {
    /// The place of its first line, from 0.
    pub first: usize,
    pub at: Moment,
}

// A long log stays in memory.
const _: () = prove!(size_of::<StoredLine>() <= 16);

const _: () = prove!(size_of::<Stretch>() <= 16);

/// The kind and the number of an object.
fn object_parts(object: &Object) -> (ObjectKind, u32)
    ensures { object_of result.0 result.1 ≡ Some object.now }
{
    match object {
        Object::Folder(id) => (ObjectKind::Folder, id.number()),
        Object::Group(id) => (ObjectKind::Group, id.number()),
        Object::Def(id) => (ObjectKind::Def, id.number()),
        Object::Attr(id) => (ObjectKind::Attr, id.number()),
        Object::Subject(id) => (ObjectKind::Subject, id.number()),
    }
}

/// The kind and the number of an entity.
fn entity_parts(entity: &Holder) -> (EntityKind, u32)
    ensures { entity_of result.0 result.1 ≡ Some entity.now }
{
    match entity {
        Holder::Everyone => (EntityKind::Everyone, 0),
        Holder::Person(id) => (EntityKind::Person, id.number()),
        Holder::Group(id) => (EntityKind::Group, id.number()),
    }
}

impl StoredLine {
    /// What is stored of a line.
    pub(crate) fn new(
        kind: EntryKind,
        object: Option<Object>,
        entity: Option<Holder>,
        number: u32,
    ) -> StoredLine
        ensures { (at : ℕ) → line_of at result ≡ (record {
          at = at;
          kind = kind;
          object = object;
          entity = entity;
          number = number;
        }) }
    {
        let (object_kind, object_id) = match &object {
            Some(object) => object_parts(object),
            None => (ObjectKind::Nothing, 0),
        };
        let (entity_kind, entity_id) = match &entity {
            Some(entity) => entity_parts(entity),
            None => (EntityKind::Nobody, 0),
        };
        StoredLine {
            kind,
            object_kind,
            entity_kind,
            object_id,
            entity_id,
            number,
        }
    }

    pub(crate) fn kind(&self) -> EntryKind
        ensures { (at : ℕ) → result ≡ (line_of at self.now).kind }
    {
        self.kind
    }

    pub(crate) fn object(&self) -> Option<Object>
        ensures { (at : ℕ) → result ≡ (line_of at self.now).object }
    {
        let id = self.object_id;
        match self.object_kind {
            ObjectKind::Nothing => None,
            ObjectKind::Folder => Some(Object::Folder(FolderId::new(id))),
            ObjectKind::Group => Some(Object::Group(GroupId::new(id))),
            ObjectKind::Def => Some(Object::Def(AttrDefId::new(id))),
            ObjectKind::Attr => Some(Object::Attr(AttrId::new(id))),
            ObjectKind::Subject => Some(Object::Subject(SubjectId::new(id))),
        }
    }

    pub(crate) fn entity(&self) -> Option<Holder>
        ensures { (at : ℕ) → result ≡ (line_of at self.now).entity }
    {
        let id = self.entity_id;
        match self.entity_kind {
            EntityKind::Nobody => None,
            EntityKind::Everyone => Some(Holder::Everyone),
            EntityKind::Person => Some(Holder::Person(SubjectId::new(id))),
            EntityKind::Group => Some(Holder::Group(GroupId::new(id))),
        }
    }

    pub(crate) fn number(&self) -> u32
        ensures { (at : ℕ) → result ≡ (line_of at self.now).number }
    {
        self.number
    }
}
