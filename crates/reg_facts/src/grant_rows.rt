// The grants as contracts see them.
ghost use Rattle.std.specs.Prelude.{◌≡◌, ◌++◌, ◌∷◌, ◌<◌, ◌^◌, [], not, Bool, false, filter, length};
ghost use Rattle.std.specs.Prelude.{map, IfOk, OnOk};
ghost use Rattle.std.specs.List.{list_any, find};
ghost use Rattle.reg_terms.specs.Kinds.{same_object, same_holder};
ghost use Rattle.reg_terms.specs.declared.kinds.Holder.TheVariants as holder;
ghost use Rattle.reg_terms.specs.declared.rows.GrantRow.{GrantRow};
ghost use Rattle.reg_facts.specs.Grants.{same_grant, has_grant, replaced, grants_on};

use crate::{GrantRow, Object};
use reg_base::GroupId;
use reg_table::{GroupRows, LinkedTable, Row};
use std::alloc::{AllocError, Global};
use std::marker::Model;

/// The grants. Contracts see the list of them, in the order in which they were made.
#[derive(Drop)]
pub struct GrantRows {
    rows: LinkedTable<GrantRow>,
}

impl Model for GrantRows {
    ghost use Rattle.std.specs.Prelude.{List};
    ghost use Rattle.reg_terms.specs.declared.rows.GrantRow.{GrantRow};

    ghost Value = { List GrantRow };

    ghost view = { λ t. t.rows };
}

impl GrantRows {
    /// No grant. It takes no memory.
    pub fn new(alloc: Global) -> GrantRows
        ensures { result ≡ [] }
    {
        GrantRows {
            rows: LinkedTable::new(alloc),
        }
    }

    /// Whether the grant stands. It takes no memory.
    pub fn contains(&self, row: &GrantRow) -> bool
        ensures { result ≡ has_grant row.now self.now }
    {
        self.rows.contains(row.object, row.place())
    }

    /// The grant that is the same as this one, with its dates. It takes no memory.
    pub fn get(&self, row: &GrantRow) -> Option<GrantRow>
        ensures { result ≡ find (same_grant row.now) self.now }
    {
        self.rows.get(row.object, row.place()).copied()
    }

    /// How many grants there are.
    pub fn len(&self) -> usize
        ensures { result ≡ length self.now }
    {
        self.rows.len()
    }

    /// The grants, in the order in which they were made.
    pub fn list(&self, alloc: Global) -> Result<Vec<GrantRow>, AllocError>
        ensures { IfOk result (λ rows. rows.items ≡ self.now) }
    {
        let mut listed = Vec::new(alloc);
        for row in self.rows.rows(alloc)? {
            listed.push(*row)?;
        }
        Ok(listed)
    }

    /// The grants on an object, each once. It takes no memory.
    pub fn on(&self, object: &Object) -> GroupRows<'_, GrantRow>
        ensures same { (test : GrantRow → Bool)
            → list_any test result ≡ list_any test (grants_on object.now self.now) }
        ensures fits { length result < 2 ^ 63 }
    {
        self.rows.rows_of(*object)
    }

    /// Whether a group holds a grant. It takes no memory.
    pub fn is_holder(&self, group: GroupId) -> bool
        ensures { result ≡ list_any
            (λ (row : GrantRow). same_holder row.holder (holder.Group group)) self.now }
    {
        self.rows.is_linked(group)
    }

    /// Adds a grant that doesn't stand, behind the others.
    pub fn push(&mut self, row: GrantRow) -> Result<(), AllocError>
        requires { has_grant row self.old ≡ false }
        ensures { OnOk result (self.new ≡ self.old ++ row ∷ []) }
    {
        // so that the borrow checker's part is told of the modules of what a grant holds
        let _until = row.until;
        self.rows.push(row)
    }

    /// Puts a grant in the place of the one that is the same. It takes no memory.
    pub fn replace(&mut self, row: GrantRow)
        ensures { self.new ≡ map (replaced row) self.old }
    {
        // so that the borrow checker's part is told of the modules of what a grant holds
        let _until = row.until;
        self.rows.replace(row);
    }

    /// Takes a grant away. It takes no memory.
    pub fn remove(&mut self, row: &GrantRow)
        ensures { self.new ≡ filter
            (λ (other : GrantRow). not (same_grant row.now other)) self.old }
    {
        self.rows.remove(row.object, row.place());
    }

    /// Takes the grants on an object away. It takes no memory.
    pub fn remove_on(&mut self, object: &Object)
        ensures { self.new ≡ filter
            (λ (row : GrantRow). not (same_object row.object object.now)) self.old }
    {
        self.rows.remove_group(*object);
    }
}
