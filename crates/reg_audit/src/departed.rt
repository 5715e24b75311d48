// What is gone, and the names that it had last.
ghost use Rattle.std.specs.Prelude.{◌≡◌, ◌++◌, ◌∷◌, ℕ, List, [], OnOk, Some, None, if◌then◌else◌};
ghost use Rattle.std.specs.Option.{option_copied};
ghost use Rattle.std.specs.Str.{bytes_eq};
ghost use Rattle.reg_terms.specs.Kinds.{same_object, as_group};
ghost use Rattle.reg_terms.specs.declared.kinds.Object.{Object};
ghost use Rattle.reg_audit.specs.Kept.{name_in, named_in};
ghost use Rattle.reg_audit.specs.Lives.{groups_of, last_name, last_named, named_or};

use crate::Gone;
use reg_base::{GroupId, Text};
use reg_terms::Object;
use std::alloc::{AllocError, Global};
use std::collections::BTreeMap;

/// What is gone: the last name of each object, the group that went last with each name, and the
/// groups in the order in which they went.
#[derive(Drop)]
pub(crate) struct Departed {
    names: BTreeMap<Object, Text>,
    by_name: BTreeMap<String, GroupId>,
    groups: Vec<GroupId>,
}

impl Departed {
    /// Nothing is gone. Takes no memory.
    pub(crate) fn new(alloc: Global) -> Departed
        ensures names { (o : Object) → name_in result o ≡ None }
        ensures named { (name : List ℕ) → named_in result name ≡ None }
        ensures groups { result.groups.items ≡ [] }
    {
        Departed {
            names: BTreeMap::new(alloc),
            by_name: BTreeMap::new(alloc),
            groups: Vec::new(alloc),
        }
    }

    /// The groups that are gone, in the order in which they went. Takes no memory.
    pub(crate) fn groups(&self) -> &[GroupId]
        ensures { result.now ≡ self.now.groups.items }
    {
        &self.groups
    }

    /// The last name of an object that is gone. Takes no memory.
    pub(crate) fn name(&self, object: Object) -> Option<&Text>
        ensures { option_copied result ≡ name_in self.now object }
    {
        self.names.get(&object)
    }

    /// The group that went last with a name. Takes no memory.
    pub(crate) fn named(&self, name: &str) -> Option<GroupId>
        ensures { result ≡ named_in self.now name.now }
    {
        self.by_name.get(name).copied()
    }

    /// A group goes with a name.
    fn add_group(&mut self, alloc: Global, group: GroupId, name: &Text) -> Result<(), AllocError>
        ensures named { OnOk result ((other : List ℕ)
            → named_in self.new other
            ≡ (if bytes_eq name.now other then Some group else named_in self.old other)) }
        ensures groups { OnOk result (self.new.groups.items ≡ self.old.groups.items ++ group ∷ []) }
        ensures names { self.new.names ≡ self.old.names }
    {
        let key = String::from_str(alloc, name.as_str())?;
        self.by_name.insert(key, group)?;
        self.groups.push(group)?;
        Ok(())
    }

    /// An object goes.
    fn add(&mut self, alloc: Global, gone: &Gone) -> Result<(), AllocError>
        ensures names { OnOk result ((o : Object)
            → name_in self.new o ≡ (if same_object gone.now.object o then Some gone.now.name
            else name_in self.old o)) }
        ensures named { OnOk result ((name : List ℕ)
            → named_in self.new name ≡ named_or name (named_in self.old name) gone.now) }
        ensures groups { OnOk result (self.new.groups.items
            ≡ self.old.groups.items ++ groups_of (gone.now ∷ [])) }
    {
        let name = gone.name.copy(alloc)?;
        if let Some(group) = gone.object.group() {
            self.add_group(alloc, group, &gone.name)?;
        }
        self.names.insert(gone.object, name)?;
        Ok(())
    }

    /// Objects go, one after another.
    pub(crate) fn add_all(&mut self, alloc: Global, gone: &[Gone]) -> Result<(), AllocError>
        ensures names { OnOk result ((o : Object)
            → name_in self.new o ≡ last_name o (name_in self.old o) gone.now) }
        ensures named { OnOk result ((name : List ℕ)
            → named_in self.new name ≡ last_named name (named_in self.old name) gone.now) }
        ensures groups { OnOk result (self.new.groups.items
            ≡ self.old.groups.items ++ groups_of gone.now) }
    {
        for one in gone {
            self.add(alloc, one)?;
        }
        Ok(())
    }
}
