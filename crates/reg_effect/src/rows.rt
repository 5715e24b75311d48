// Rows of groups, in order.
ghost use Rattle.std.specs.Prelude.{◌≡◌, [], IfOk, OnOk, OnErr};
ghost use Rattle.std.specs.BTreeSet.{insert_key};
ghost use Rattle.std.specs.Set.{remove_key};
ghost use Rattle.reg_terms.specs.declared.kinds.Member.TheVariants.{Group};
ghost use Rattle.reg_graph.specs.Sets.{IsFirstFrom};
ghost use Rattle.reg_effect.specs.Order.{row_cmp, is_live_row, has_live_row, has_live_rows};

use reg_base::{GroupId, SubjectId};
use reg_terms::Member;
use std::alloc::{AllocError, Global};
use std::collections::BTreeSet;
use std::marker::Model;

/// Rows (group, member), each once, by group, persons before groups, and the member's id. Contracts
/// see the list.
#[derive(Drop)]
pub struct Rows {
    alloc: Global,
    rows: BTreeSet<(GroupId, Member)>,
}

impl Model for Rows {
    ghost use Rattle.std.specs.Prelude.{List, ℕ};
    ghost use Rattle.reg_terms.specs.declared.kinds.Member.{Member};
    ghost use Rattle.reg_effect.specs.Order.{HaveSmallIds};

    ghost Value = { List (ℕ × Member) };

    ghost view = { λ r. r.rows.keys };

    ghost invariant = { λ r. HaveSmallIds r.rows.keys };
}

impl Rows {
    /// No rows. Takes no memory.
    pub fn new(alloc: Global) -> Rows
        ensures { result ≡ [] }
    {
        Rows {
            alloc,
            rows: BTreeSet::new(alloc),
        }
    }

    /// Whether the group has a row of the member. Takes no memory.
    pub fn has(&self, group: GroupId, member: Member) -> bool
        ensures { result ≡ has_live_row group member self.now }
    {
        self.rows.contains(&(group, member))
    }

    /// Whether the group has rows. Takes no memory.
    pub fn has_any(&self, group: GroupId) -> bool
        ensures { result ≡ has_live_rows group self.now }
    {
        let first = (group, Member::Person(SubjectId::new(0)));
        let last = (group, Member::Group(GroupId::new(u32::MAX)));
        self.rows.range(first..=last).next().is_some()
    }

    /// Puts a row at its place, unless it is there. Out of memory the rows stay as they were.
    pub fn insert(&mut self, group: GroupId, member: Member) -> Result<(), AllocError>
        ensures ok { OnOk result (self.new ≡ insert_key row_cmp self.old (group, member)) }
        ensures err { OnErr result (self.new ≡ self.old) }
    {
        self.rows.insert((group, member))?;
        Ok(())
    }

    /// Takes a row out, where it is there. Takes no memory.
    pub fn remove(&mut self, group: GroupId, member: Member)
        ensures { self.new ≡ remove_key (is_live_row group member) self.old }
    {
        self.rows.remove(&(group, member));
    }

    /// The first of the groups that the group's rows name, by id, from an id on, if there is one.
    /// Takes no memory.
    pub fn nested_from(&self, group: GroupId, from: GroupId) -> Option<GroupId>
        ensures { IsFirstFrom (λ h. has_live_row group (Group h) self.now) from result }
    {
        let first = (group, Member::Group(from));
        let last = (group, Member::Group(GroupId::new(u32::MAX)));
        let row = self.rows.range(first..=last).next()?;
        row.1.group()
    }

    /// The rows in order.
    pub fn list(&self) -> Result<Vec<(GroupId, Member)>, AllocError>
        ensures { IfOk result (λ v. v.items ≡ self.now) }
    {
        let mut rows = Vec::new(self.alloc);
        for row in &self.rows {
            rows.push(*row)?;
        }
        Ok(rows)
    }
}
