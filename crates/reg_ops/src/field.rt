// A field of a command or a query, and the kinds of fields.
ghost use Rattle.std.specs.Prelude.{◌≡◌};
ghost use Rattle.reg_ops.specs.Parts.{as_name, as_folder, as_extension, as_source, as_display};
ghost use Rattle.reg_ops.specs.Parts.{as_entity, as_object, as_moment, as_set_op};
ghost use Rattle.reg_ops.specs.Parts.{as_inherit_kind, as_scope, as_privilege, as_owners};
ghost use Rattle.reg_ops.specs.Parts.{as_flag, as_def_kind, as_value, as_number, as_names};
ghost use Rattle.reg_ops.specs.Parts.{as_load_rows, as_table};

use reg_base::{Bytes, Entity, Moment, Name, Privilege, Text};
use reg_terms::{DefKind, InheritKind, LoadRows, Names, Owners, Scope, SetOp, Value};

/// A kind of field: which values may stand in it, and how they are written (`docs/REQUESTS.md`,
/// `docs/JOURNAL.md`).
#[derive(Clone, Copy)]
pub enum FieldKind {
    /// The name of an object.
    Name,
    /// The name of a folder, or `:` for the root.
    Folder,
    /// The last part of a name.
    Extension,
    /// Where persons come from: the part of a person's text before the slash.
    Source,
    /// What is shown beside a name; it may be left out, and is then empty.
    Display,
    /// A person, a group, or one of the registry's own entities.
    Entity,
    /// An object: an entity's text where it has a `/`, else a name or `:`.
    Object,
    /// A moment that may be left out.
    OptionalMoment,
    /// How a composite is made of its factors.
    SetOp,
    /// The kind of objects that an inherit is for.
    InheritKind,
    /// How far an inherit reaches.
    Scope,
    /// A privilege by its name.
    Privilege,
    /// The kinds of owner that a definition suits, one at least.
    Owners,
    /// Whether something holds.
    Flag,
    /// The kind of values that attributes of a definition take.
    DefKind,
    /// A value of an assignment.
    Value,
    /// A whole number from `least` to `most`.
    Number { least: u64, most: u64 },
    /// Names of objects, fewer than 2^32.
    Names,
    /// Rows of a load, fewer than 2^32.
    LoadRows,
    /// The bytes of a table.
    Table,
}

/// A field of a command or a query.
#[derive(Drop)]
pub enum Field {
    Name(Name),
    Folder(Text),
    Extension(Text),
    Source(Text),
    Display(Text),
    Entity(Entity),
    Object(Text),
    OptionalMoment(Option<Moment>),
    SetOp(SetOp),
    InheritKind(InheritKind),
    Scope(Scope),
    Privilege(Privilege),
    Owners(Owners),
    Flag(bool),
    DefKind(DefKind),
    Value(Value),
    /// A number, and the least and the greatest that may stand here.
    Number { value: u64, least: u64, most: u64 },
    Names(Names),
    LoadRows(LoadRows),
    Table(Bytes),
}

impl Field {
    /// The name, if it is one.
    pub fn name(self) -> Option<Name>
        ensures { result ≡ as_name self }
    {
        match self {
            Field::Name(name) => Some(name),
            _ => None,
        }
    }

    /// The name of a folder, or `:`, if it is one.
    pub fn folder(self) -> Option<Text>
        ensures { result ≡ as_folder self }
    {
        match self {
            Field::Folder(folder) => Some(folder),
            _ => None,
        }
    }

    /// The extension, if it is one.
    pub fn extension(self) -> Option<Text>
        ensures { result ≡ as_extension self }
    {
        match self {
            Field::Extension(extension) => Some(extension),
            _ => None,
        }
    }

    /// The source of persons, if it is one.
    pub fn source(self) -> Option<Text>
        ensures { result ≡ as_source self }
    {
        match self {
            Field::Source(source) => Some(source),
            _ => None,
        }
    }

    /// The display text, if it is one.
    pub fn display(self) -> Option<Text>
        ensures { result ≡ as_display self }
    {
        match self {
            Field::Display(display) => Some(display),
            _ => None,
        }
    }

    /// The entity, if it is one.
    pub fn entity(self) -> Option<Entity>
        ensures { result ≡ as_entity self }
    {
        match self {
            Field::Entity(entity) => Some(entity),
            _ => None,
        }
    }

    /// The moment that may be left out, if it is one.
    pub fn moment(&self) -> Option<Option<Moment>>
        ensures { result ≡ as_moment self.now }
    {
        match self {
            Field::OptionalMoment(moment) => Some(*moment),
            _ => None,
        }
    }

    /// How a composite is made, if it is that.
    pub fn set_op(&self) -> Option<SetOp>
        ensures { result ≡ as_set_op self.now }
    {
        match self {
            Field::SetOp(set_op) => Some(*set_op),
            _ => None,
        }
    }

    /// The text of an object, if it is one.
    pub fn object(self) -> Option<Text>
        ensures { result ≡ as_object self }
    {
        match self {
            Field::Object(object) => Some(object),
            _ => None,
        }
    }

    /// The kind of objects that an inherit is for, if it is that.
    pub fn inherit_kind(&self) -> Option<InheritKind>
        ensures { result ≡ as_inherit_kind self.now }
    {
        match self {
            Field::InheritKind(kind) => Some(*kind),
            _ => None,
        }
    }

    /// How far an inherit reaches, if it is that.
    pub fn scope(&self) -> Option<Scope>
        ensures { result ≡ as_scope self.now }
    {
        match self {
            Field::Scope(scope) => Some(*scope),
            _ => None,
        }
    }

    /// The privilege, if it is one.
    pub fn privilege(&self) -> Option<Privilege>
        ensures { result ≡ as_privilege self.now }
    {
        match self {
            Field::Privilege(privilege) => Some(*privilege),
            _ => None,
        }
    }

    /// The kinds of owner that a definition suits, if it is that.
    pub fn owners(&self) -> Option<Owners>
        ensures { result ≡ as_owners self.now }
    {
        match self {
            Field::Owners(owners) => Some(*owners),
            _ => None,
        }
    }

    /// Whether something holds, if it is that.
    pub fn flag(&self) -> Option<bool>
        ensures { result ≡ as_flag self.now }
    {
        match self {
            Field::Flag(flag) => Some(*flag),
            _ => None,
        }
    }

    /// The kind of values that attributes of a definition take, if it is that.
    pub fn def_kind(&self) -> Option<DefKind>
        ensures { result ≡ as_def_kind self.now }
    {
        match self {
            Field::DefKind(kind) => Some(*kind),
            _ => None,
        }
    }

    /// The value of an assignment, if it is one.
    pub fn value(self) -> Option<Value>
        ensures { result ≡ as_value self }
    {
        match self {
            Field::Value(value) => Some(value),
            _ => None,
        }
    }

    /// The number, if it is one.
    pub fn number(&self) -> Option<u64>
        ensures { result ≡ as_number self.now }
    {
        match self {
            Field::Number { value, .. } => Some(*value),
            _ => None,
        }
    }

    /// The names of objects, if it is that.
    pub fn names(self) -> Option<Names>
        ensures { result ≡ as_names self }
    {
        match self {
            Field::Names(names) => Some(names),
            _ => None,
        }
    }

    /// The rows of a load, if it is that.
    pub fn load_rows(self) -> Option<LoadRows>
        ensures { result ≡ as_load_rows self }
    {
        match self {
            Field::LoadRows(rows) => Some(rows),
            _ => None,
        }
    }

    /// The bytes of a table, if it is that.
    pub fn table(self) -> Option<Bytes>
        ensures { result ≡ as_table self }
    {
        match self {
            Field::Table(table) => Some(table),
            _ => None,
        }
    }
}
