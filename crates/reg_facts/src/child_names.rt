// The names of what stands directly in a folder.
ghost use Rattle.std.specs.Prelude.{◌≡◌, ℕ, List, IfOk, OnOk, string_bytes, string_cmp};
ghost use Rattle.std.specs.List.Sorted.{IsStrictlySortedBy};
ghost use Rattle.std.specs.Cmp.Lexicographic.{slice_cmp};
ghost use Rattle.std.specs.Ordering.{nat_cmp};
ghost use Rattle.std.specs.BTreeMap.{IsOrdered};
ghost use Rattle.reg_facts.specs.Children.{by_bytes, is_among, child_names, no_names, with_name};
ghost use Rattle.reg_facts.specs.Children.{with_names};

use crate::{Facts, Object, Texts, name_in};
use reg_base::{FolderId, Text};
use std::alloc::{AllocError, Global};
use std::collections::BTreeMap;

/// The names of what stands directly in a folder, those of each kind in the order of their bytes.
#[derive(Drop)]
pub struct ChildNames {
    pub attributes: Texts,
    pub definitions: Texts,
    pub folders: Texts,
    pub groups: Texts,
}

impl ChildNames {
    fn new(alloc: Global) -> ChildNames
        ensures { result ≡ no_names }
    {
        ChildNames {
            attributes: Texts::new(alloc),
            definitions: Texts::new(alloc),
            folders: Texts::new(alloc),
            groups: Texts::new(alloc),
        }
    }

    /// Puts the name of an object behind those of its kind.
    fn put(&mut self, object: &Object, name: &Text) -> Result<(), AllocError>
        ensures { OnOk result (self.new ≡ with_name object.now name.now self.old) }
    {
        match object {
            Object::Folder(_) => self.folders.push(name.as_str()),
            Object::Group(_) => self.groups.push(name.as_str()),
            Object::Def(_) => self.definitions.push(name.as_str()),
            Object::Attr(_) => self.attributes.push(name.as_str()),
            Object::Subject(_) => Ok(()),
        }
    }
}

/// The names of the objects of a folder's index, by the folder's name.
fn names_of(
    alloc: Global,
    index: &BTreeMap<String, Object>,
    home: &str,
) -> Result<ChildNames, AllocError>
    ensures names { IfOk result (λ names. names
        ≡ with_names string_bytes home.now index.now.entries no_names) }
    ensures ordered { IsOrdered string_cmp index.now }
{
    let mut names = ChildNames::new(alloc);
    for (extension, object) in index.iter() {
        let name = name_in(alloc, home, extension.as_str())?;
        names.put(object, &name)?;
    }
    Ok(names)
}

impl Facts {
    /// The names of what stands directly in a folder, whose own name is given. It costs what stands
    /// in the folder, and not what all objects are.
    pub fn child_names(
        &self,
        alloc: Global,
        folder: FolderId,
        home: &str,
    ) -> Result<ChildNames, AllocError>
        ensures { IfOk result (λ names. names ≡ child_names folder home.now self.now) }
    {
        self.law_sound();
        match self.children.objects(folder.number()) {
            Some(index) => names_of(alloc, index, home),
            None => Ok(ChildNames::new(alloc)),
        }
    }
}

/// What it means that the names of a folder are in order: they ascend by their bytes, each once,
/// and are the same texts.
pub fn law_by_bytes()
    ensures sorted { (texts : List (List ℕ))
        → IsStrictlySortedBy (slice_cmp nat_cmp) (by_bytes texts) }
    ensures same { (text : List ℕ) (texts : List (List ℕ))
        → is_among text (by_bytes texts) ≡ is_among text texts }
{}
