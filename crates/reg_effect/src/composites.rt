// Composites, in order.
ghost use Rattle.std.specs.Prelude.{◌≡◌, ◌==◌, [], IfOk, OnOk, OnErr, false};
ghost use Rattle.std.specs.BTreeSet.{insert_key};
ghost use Rattle.std.specs.List.{find};
ghost use Rattle.std.specs.Set.{remove_key};
ghost use Rattle.reg_terms.specs.Rows.{is_composite};
ghost use Rattle.reg_effect.specs.Order.{composite_cmp};
ghost use Rattle.reg_effect.specs.Factors.{composite_at};

use reg_base::GroupId;
use reg_terms::{CompositeRow, SetOp};
use std::alloc::{AllocError, Global};
use std::collections::BTreeMap;
use std::marker::Model;

/// What a composite is made of.
#[derive(Clone, Copy)]
pub(crate) struct Factors {
    op: SetOp,
    left: GroupId,
    right: GroupId,
}

/// Composites by group, each group once. Contracts see the list of rows.
#[derive(Drop)]
pub struct Composites {
    alloc: Global,
    factors: BTreeMap<u32, Factors>,
}

impl Model for Composites {
    ghost use Rattle.std.specs.Prelude.{List, map};
    ghost use Rattle.reg_terms.specs.declared.rows.CompositeRow.{CompositeRow};
    ghost use Rattle.reg_effect.specs.Factors.{composite_at};

    ghost Value = { List CompositeRow };

    ghost view = { λ c. map composite_at c.factors.entries };
}

fn composite_at(group: u32, factors: Factors) -> CompositeRow
    ensures { result ≡ composite_at (group, factors) }
{
    CompositeRow {
        group: GroupId::new(group),
        op: factors.op,
        left: factors.left,
        right: factors.right,
    }
}

impl Composites {
    /// No composites. Takes no memory.
    pub fn new(alloc: Global) -> Composites
        ensures { result ≡ [] }
    {
        Composites {
            alloc,
            factors: BTreeMap::new(alloc),
        }
    }

    /// The group's row, where it is a composite. Takes no memory.
    pub fn of(&self, group: GroupId) -> Option<CompositeRow>
        ensures { result ≡ find (λ c. c.group == group) self.now }
    {
        match self.factors.get(&group.number()) {
            Some(factors) => Some(composite_at(group.number(), *factors)),
            None => None,
        }
    }

    /// Whether the group is a composite. Takes no memory.
    pub fn has(&self, group: GroupId) -> bool
        ensures { result ≡ is_composite group self.now }
    {
        self.of(group).is_some()
    }

    /// Puts a composite at its place; its group must be none. Out of memory the composites stay as
    /// they were.
    pub fn insert(&mut self, row: CompositeRow) -> Result<(), AllocError>
        requires { is_composite row.group self.old ≡ false }
        ensures ok { OnOk result (self.new ≡ insert_key composite_cmp self.old row) }
        ensures err { OnErr result (self.new ≡ self.old) }
    {
        let factors = Factors {
            op: row.op,
            left: row.left,
            right: row.right,
        };
        self.factors.insert(row.group.number(), factors)?;
        Ok(())
    }

    /// Takes the group's row out, where it is a composite. Takes no memory.
    pub fn remove(&mut self, group: GroupId)
        ensures { self.new ≡ remove_key (λ c. c.group == group) self.old }
    {
        self.factors.remove(&group.number());
    }

    /// The rows in order.
    pub fn list(&self) -> Result<Vec<CompositeRow>, AllocError>
        ensures { IfOk result (λ v. v.items ≡ self.now) }
    {
        let mut rows = Vec::new(self.alloc);
        for (group, factors) in &self.factors {
            rows.push(composite_at(*group, *factors))?;
        }
        Ok(rows)
    }
}
