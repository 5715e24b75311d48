// The inherits as contracts see them.
ghost use Rattle.std.specs.Prelude.{◌≡◌, ◌==◌, ◌++◌, ◌∷◌, ◌<◌, ◌^◌, [], not, Bool, false, filter};
ghost use Rattle.std.specs.Prelude.{length, IfOk, OnOk};
ghost use Rattle.std.specs.List.{list_any};
ghost use Rattle.reg_terms.specs.Kinds.{same_holder};
ghost use Rattle.reg_terms.specs.declared.kinds.Holder.TheVariants as holder;
ghost use Rattle.reg_terms.specs.declared.rows.InheritRow.{InheritRow};
ghost use Rattle.reg_facts.specs.Grants.{same_inherit, has_inherit, inherits_on};

use crate::InheritRow;
use reg_base::{FolderId, GroupId};
use reg_table::{GroupRows, LinkedTable, Row};
use std::alloc::{AllocError, Global};
use std::marker::Model;

/// The inherits. Contracts see the list of them, in the order in which they were made.
#[derive(Drop)]
pub struct InheritRows {
    rows: LinkedTable<InheritRow>,
}

impl Model for InheritRows {
    ghost use Rattle.std.specs.Prelude.{List};
    ghost use Rattle.reg_terms.specs.declared.rows.InheritRow.{InheritRow};

    ghost Value = { List InheritRow };

    ghost view = { λ t. t.rows };
}

impl InheritRows {
    /// No inherit. It takes no memory.
    pub fn new(alloc: Global) -> InheritRows
        ensures { result ≡ [] }
    {
        InheritRows {
            rows: LinkedTable::new(alloc),
        }
    }

    /// Whether the inherit stands. It takes no memory.
    pub fn contains(&self, row: &InheritRow) -> bool
        ensures { result ≡ has_inherit row.now self.now }
    {
        self.rows.contains(row.folder, row.place())
    }

    /// How many inherits there are.
    pub fn len(&self) -> usize
        ensures { result ≡ length self.now }
    {
        self.rows.len()
    }

    /// The inherits, in the order in which they were made.
    pub fn list(&self, alloc: Global) -> Result<Vec<InheritRow>, AllocError>
        ensures { IfOk result (λ rows. rows.items ≡ self.now) }
    {
        let mut listed = Vec::new(alloc);
        for row in self.rows.rows(alloc)? {
            listed.push(*row)?;
        }
        Ok(listed)
    }

    /// The inherits on a folder, each once. It takes no memory.
    pub fn on(&self, folder: FolderId) -> GroupRows<'_, InheritRow>
        ensures same { (test : InheritRow → Bool)
            → list_any test result ≡ list_any test (inherits_on folder self.now) }
        ensures fits { length result < 2 ^ 63 }
    {
        self.rows.rows_of(folder)
    }

    /// Whether a group holds an inherit. It takes no memory.
    pub fn is_holder(&self, group: GroupId) -> bool
        ensures { result ≡ list_any
            (λ (row : InheritRow). same_holder row.holder (holder.Group group)) self.now }
    {
        self.rows.is_linked(group)
    }

    /// Adds an inherit that doesn't stand, behind the others.
    pub fn push(&mut self, row: InheritRow) -> Result<(), AllocError>
        requires { has_inherit row self.old ≡ false }
        ensures { OnOk result (self.new ≡ self.old ++ row ∷ []) }
    {
        self.rows.push(row)
    }

    /// Takes an inherit away. It takes no memory.
    pub fn remove(&mut self, row: &InheritRow)
        ensures { self.new ≡ filter
            (λ (other : InheritRow). not (same_inherit row.now other)) self.old }
    {
        self.rows.remove(row.folder, row.place());
    }

    /// Takes the inherits on a folder away. It takes no memory.
    pub fn remove_on(&mut self, folder: FolderId)
        ensures { self.new ≡ filter (λ (row : InheritRow). not (row.folder == folder)) self.old }
    {
        self.rows.remove_group(folder);
    }
}
