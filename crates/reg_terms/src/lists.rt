// Lists that a load is made of.
ghost use Rattle.std.specs.Prelude.{◌≡◌, [], ◌∷◌, ◌++◌, OnOk, OnErr};
ghost use Rattle.reg_terms.specs.declared.lists.LoadRow.{LoadRow};

use reg_base::{Name, Text};
use std::alloc::{AllocError, Global};
use std::marker::Model;

/// A list of names. Contracts see the list.
#[derive(Drop)]
pub struct Names {
    items: Vec<Name>,
}

impl Model for Names {
    ghost use Rattle.std.specs.Prelude.{List, ℕ};

    ghost Value = { List (List ℕ) };

    ghost view = { λ n. n.items.items };
}

impl Names {
    /// The empty list. It takes no memory.
    pub fn new(alloc: Global) -> Names
        ensures { result ≡ [] }
    {
        Names {
            items: Vec::new(alloc),
        }
    }

    /// Adds a name at the end. Where there is no memory the list stays as it was.
    pub fn push(&mut self, item: Name) -> Result<(), AllocError>
        ensures ok { OnOk result (self.new ≡ self.old ++ item ∷ []) }
        ensures err { OnErr result (self.new ≡ self.old) }
    {
        self.items.push(item)?;
        Ok(())
    }

    /// The names.
    pub fn list(&self) -> &[Name]
        ensures { result.now ≡ self.now }
    {
        &self.items
    }
}

/// A row of a load: a person in a group.
#[derive(Drop)]
pub struct LoadRow {
    /// The group's name.
    pub group: Name,
    /// The person's text, `source/id`.
    pub person: Text,
}

/// A list of rows of a load. Contracts see the list.
#[derive(Drop)]
pub struct LoadRows {
    items: Vec<LoadRow>,
}

impl Model for LoadRows {
    ghost use Rattle.std.specs.Prelude.{List};
    ghost use Rattle.reg_terms.specs.declared.lists.LoadRow.{LoadRow};

    ghost Value = { List LoadRow };

    ghost view = { λ r. r.items.items };
}

impl LoadRows {
    /// The empty list. It takes no memory.
    pub fn new(alloc: Global) -> LoadRows
        ensures { result ≡ [] }
    {
        LoadRows {
            items: Vec::new(alloc),
        }
    }

    /// Adds a row at the end. Where there is no memory the list stays as it was.
    pub fn push(&mut self, item: LoadRow) -> Result<(), AllocError>
        ensures ok { OnOk result (self.new ≡ self.old ++ item ∷ []) }
        ensures err { OnErr result (self.new ≡ self.old) }
    {
        self.items.push(item)?;
        Ok(())
    }

    /// The rows.
    pub fn list(&self) -> &[LoadRow]
        ensures { result.now ≡ self.now }
    {
        &self.items
    }
}
