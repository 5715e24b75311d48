// What rows speak of.
ghost use Rattle.std.specs.Prelude.{◌≡◌};
ghost use Rattle.reg_terms.specs.Kinds.{same_object, same_scope};
ghost use Rattle.reg_terms.specs.Kinds.{same_kind, is_of_kind, member_group, holder_group};
ghost use Rattle.reg_terms.specs.Kinds.{as_folder, as_group, as_definition, as_attribute};

use reg_base::{AttrDefId, AttrId, FolderId, GroupId, Moment, SubjectId, Text};

/// What stands in the registry under an id.
#[derive(Clone, Copy, PartialEq, Eq, PartialOrd, Ord)]
pub enum Object {
    Folder(FolderId),
    Group(GroupId),
    Def(AttrDefId),
    Attr(AttrId),
    Subject(SubjectId),
}

impl Object {
    /// The folder's id, if it is one.
    pub fn folder(&self) -> Option<FolderId>
        ensures { result ≡ as_folder (Some self.now) }
    {
        match self {
            Object::Folder(id) => Some(*id),
            Object::Group(_) | Object::Def(_) | Object::Attr(_) | Object::Subject(_) => None,
        }
    }

    /// The group's id, if it is one.
    pub fn group(&self) -> Option<GroupId>
        ensures { result ≡ as_group (Some self.now) }
    {
        match self {
            Object::Group(id) => Some(*id),
            Object::Folder(_) | Object::Def(_) | Object::Attr(_) | Object::Subject(_) => None,
        }
    }

    /// The definition's id, if it is one.
    pub fn definition(&self) -> Option<AttrDefId>
        ensures { result ≡ as_definition (Some self.now) }
    {
        match self {
            Object::Def(id) => Some(*id),
            Object::Folder(_) | Object::Group(_) | Object::Attr(_) | Object::Subject(_) => None,
        }
    }

    /// The attribute's id, if it is one.
    pub fn attribute(&self) -> Option<AttrId>
        ensures { result ≡ as_attribute (Some self.now) }
    {
        match self {
            Object::Attr(id) => Some(*id),
            Object::Folder(_) | Object::Group(_) | Object::Def(_) | Object::Subject(_) => None,
        }
    }

    /// Whether the two are one.
    pub fn is(&self, other: &Object) -> bool
        ensures { result ≡ same_object self.now other.now }
    {
        match self {
            Object::Folder(a) => matches!(other, Object::Folder(b) if a.number() == b.number()),
            Object::Group(a) => matches!(other, Object::Group(b) if a.number() == b.number()),
            Object::Def(a) => matches!(other, Object::Def(b) if a.number() == b.number()),
            Object::Attr(a) => matches!(other, Object::Attr(b) if a.number() == b.number()),
            Object::Subject(a) => matches!(other, Object::Subject(b) if a.number() == b.number()),
        }
    }

    /// Whether it is of a kind that has privileges of its own.
    pub fn is_of(&self, kind: InheritKind) -> bool
        ensures { result ≡ is_of_kind kind self.now }
    {
        match kind {
            InheritKind::Folder => matches!(self, Object::Folder(_)),
            InheritKind::Group => matches!(self, Object::Group(_)),
            InheritKind::Definition => matches!(self, Object::Def(_)),
        }
    }
}

/// The member of an immediate membership.
#[derive(Clone, Copy, PartialEq, Eq, PartialOrd, Ord)]
pub enum Member {
    Person(SubjectId),
    Group(GroupId),
}

impl Member {
    /// The group, if it is one.
    pub fn group(&self) -> Option<GroupId>
        ensures { result ≡ member_group self.now }
    {
        match self {
            Member::Person(_) => None,
            Member::Group(id) => Some(*id),
        }
    }
}

/// Who holds a privilege.
#[derive(Clone, Copy, PartialEq, Eq, PartialOrd, Ord)]
pub enum Holder {
    Everyone,
    Person(SubjectId),
    Group(GroupId),
}

impl Holder {
    /// The group, if it is one.
    pub fn group(&self) -> Option<GroupId>
        ensures { result ≡ holder_group self.now }
    {
        match self {
            Holder::Everyone | Holder::Person(_) => None,
            Holder::Group(id) => Some(*id),
        }
    }
}

/// How a composite group is made of its two factors.
#[derive(Clone, Copy, PartialEq, Eq)]
pub enum SetOp {
    /// Who is in both.
    Intersection,
    /// Who is in the left and not in the right.
    Complement,
    /// Who is in one of them at least.
    Union,
}

/// How far an inherit reaches: objects directly in its folder, or at any depth below it.
#[derive(Clone, Copy, PartialEq, Eq, PartialOrd, Ord)]
pub enum Scope {
    One,
    Sub,
}

impl Scope {
    /// Whether the two are one.
    pub fn is(&self, other: &Scope) -> bool
        ensures { result ≡ same_scope self.now other.now }
    {
        match self {
            Scope::One => matches!(other, Scope::One),
            Scope::Sub => matches!(other, Scope::Sub),
        }
    }
}

/// The kind of objects for which an inherit gives its privilege.
#[derive(Clone, Copy, PartialEq, Eq, PartialOrd, Ord)]
pub enum InheritKind {
    Folder,
    Group,
    Definition,
}

impl InheritKind {
    /// Whether the two are one.
    pub fn is(&self, other: &InheritKind) -> bool
        ensures { result ≡ same_kind self.now other.now }
    {
        match self {
            InheritKind::Folder => matches!(other, InheritKind::Folder),
            InheritKind::Group => matches!(other, InheritKind::Group),
            InheritKind::Definition => matches!(other, InheritKind::Definition),
        }
    }
}

/// The kind of values that attributes of a definition take.
#[derive(Clone, Copy, PartialEq, Eq)]
pub enum DefKind {
    Marker,
    Integer,
    Text,
    Timestamp,
}

/// The kinds of owner that a definition suits.
#[derive(Clone, Copy, PartialEq, Eq)]
pub struct Owners {
    pub folder: bool,
    pub group: bool,
    pub subject: bool,
}

/// A value of an assignment.
#[derive(Drop)]
pub enum AttrValue {
    Int(i64),
    Text(Text),
    Moment(Moment),
}

/// A value as a request gives it.
#[derive(Drop)]
pub enum Value {
    Int(i64),
    Text(Text),
}

/// What a rule does (`docs/REGISTRY.md`).
#[derive(Clone, Copy)]
pub enum RuleForm {
    RemoveLost {
        check: GroupId,
        owner: GroupId,
    },
    EndLost {
        check: GroupId,
        owner: GroupId,
        days: u32,
    },
    Veto {
        owner: GroupId,
        condition: GroupId,
    },
    OnCreate {
        folder: FolderId,
        scope: Scope,
        privilege: reg_base::Privilege,
        holder: Holder,
    },
}
