// What the query of memberships shows.
ghost use Rattle.std.specs.Prelude.{◌≡◌, [], ◌∷◌, ◌++◌, OnOk, OnErr};
ghost use Rattle.reg_terms.specs.declared.shown.RowShown.{RowShown};
ghost use Rattle.reg_terms.specs.declared.shown.GrantShown.{GrantShown};
ghost use Rattle.reg_terms.specs.declared.shown.AssignShown.{AssignShown};
ghost use Rattle.reg_base.specs.declared.privilege.Privilege.{Privilege};

use crate::{AttrValues, SetOp};
use reg_base::{AssignId, Moment, Privilege, Text};
use std::alloc::{AllocError, Global};
use std::marker::Model;

/// The factors of a composite group, by their names.
#[derive(Drop)]
pub struct FactorsShown {
    pub kind: SetOp,
    pub left: Text,
    pub right: Text,
}

/// An immediate membership, with the text of its member.
#[derive(Drop)]
pub struct RowShown {
    /// From this moment on it counts.
    pub from: Moment,
    pub member: Text,
    /// At this moment it ends, if it does.
    pub until: Option<Moment>,
}

/// A list of immediate memberships. Contracts see the list.
#[derive(Drop)]
pub struct RowsShown {
    items: Vec<RowShown>,
}

impl Model for RowsShown {
    ghost use Rattle.std.specs.Prelude.{List};
    ghost use Rattle.reg_terms.specs.declared.shown.RowShown.{RowShown};

    ghost Value = { List RowShown };

    ghost view = { λ r. r.items.items };
}

impl RowsShown {
    /// The empty list.
    pub fn new(alloc: Global) -> RowsShown
        ensures { result ≡ [] }
    {
        RowsShown {
            items: Vec::new(alloc),
        }
    }

    /// Adds a membership at the end. Where there is no memory the list stays as it was.
    pub fn push(&mut self, item: RowShown) -> Result<(), AllocError>
        ensures ok { OnOk result (self.new ≡ self.old ++ item ∷ []) }
        ensures err { OnErr result (self.new ≡ self.old) }
    {
        self.items.push(item)?;
        Ok(())
    }

    /// The memberships.
    pub fn list(&self) -> &[RowShown]
        ensures { result.now ≡ self.now }
    {
        &self.items
    }
}

/// A privilege that is granted, with the text of its holder.
#[derive(Drop)]
pub struct GrantShown {
    pub holder: Text,
    pub privilege: Privilege,
}

/// A list of grants. Contracts see the list.
#[derive(Drop)]
pub struct GrantsShown {
    items: Vec<GrantShown>,
}

impl Model for GrantsShown {
    ghost use Rattle.std.specs.Prelude.{List};
    ghost use Rattle.reg_terms.specs.declared.shown.GrantShown.{GrantShown};

    ghost Value = { List GrantShown };

    ghost view = { λ g. g.items.items };
}

impl GrantsShown {
    /// The empty list.
    pub fn new(alloc: Global) -> GrantsShown
        ensures { result ≡ [] }
    {
        GrantsShown {
            items: Vec::new(alloc),
        }
    }

    /// Adds a grant at the end. Where there is no memory the list stays as it was.
    pub fn push(&mut self, item: GrantShown) -> Result<(), AllocError>
        ensures ok { OnOk result (self.new ≡ self.old ++ item ∷ []) }
        ensures err { OnErr result (self.new ≡ self.old) }
    {
        self.items.push(item)?;
        Ok(())
    }

    /// The grants.
    pub fn list(&self) -> &[GrantShown]
        ensures { result.now ≡ self.now }
    {
        &self.items
    }
}

/// An attribute that is assigned to an owner, with its values in the order in which they were
/// added.
#[derive(Drop)]
pub struct AssignShown {
    /// The attribute's name.
    pub attribute: Text,
    pub id: AssignId,
    pub values: AttrValues,
}

/// A list of assignments. Contracts see the list.
#[derive(Drop)]
pub struct AssignsShown {
    items: Vec<AssignShown>,
}

impl Model for AssignsShown {
    ghost use Rattle.std.specs.Prelude.{List};
    ghost use Rattle.reg_terms.specs.declared.shown.AssignShown.{AssignShown};

    ghost Value = { List AssignShown };

    ghost view = { λ a. a.items.items };
}

impl AssignsShown {
    /// The empty list.
    pub fn new(alloc: Global) -> AssignsShown
        ensures { result ≡ [] }
    {
        AssignsShown {
            items: Vec::new(alloc),
        }
    }

    /// Adds an assignment at the end. Where there is no memory the list stays as it was.
    pub fn push(&mut self, item: AssignShown) -> Result<(), AllocError>
        ensures ok { OnOk result (self.new ≡ self.old ++ item ∷ []) }
        ensures err { OnErr result (self.new ≡ self.old) }
    {
        self.items.push(item)?;
        Ok(())
    }

    /// The assignments.
    pub fn list(&self) -> &[AssignShown]
        ensures { result.now ≡ self.now }
    {
        &self.items
    }
}

/// A list of privileges. Contracts see the list.
#[derive(Drop)]
pub struct Privileges {
    items: Vec<Privilege>,
}

impl Model for Privileges {
    ghost use Rattle.std.specs.Prelude.{List};
    ghost use Rattle.reg_base.specs.declared.privilege.Privilege.{Privilege};

    ghost Value = { List Privilege };

    ghost view = { λ p. p.items.items };
}

impl Privileges {
    /// The empty list.
    pub fn new(alloc: Global) -> Privileges
        ensures { result ≡ [] }
    {
        Privileges {
            items: Vec::new(alloc),
        }
    }

    /// Adds a privilege at the end. Where there is no memory the list stays as it was.
    pub fn push(&mut self, item: Privilege) -> Result<(), AllocError>
        ensures ok { OnOk result (self.new ≡ self.old ++ item ∷ []) }
        ensures err { OnErr result (self.new ≡ self.old) }
    {
        self.items.push(item)?;
        Ok(())
    }

    /// The privileges.
    pub fn list(&self) -> &[Privilege]
        ensures { result.now ≡ self.now }
    {
        &self.items
    }
}
