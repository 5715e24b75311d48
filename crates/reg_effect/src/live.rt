// Live data and their changes.
ghost use Rattle.std.specs.Prelude.{◌≡◌, ◌==◌, [], IfOk, OnOk};
ghost use Rattle.std.specs.List.{find};
ghost use Rattle.reg_terms.specs.Rows.{is_composite};
ghost use Rattle.reg_effect.specs.Order.{has_live_rows};
ghost use Rattle.reg_effect.specs.Changes.{nothing, changed, group_of, Fits, rows_on};
ghost use Rattle.reg_effect.specs.Changes.{composites_in, live_of};

use crate::{Composites, Pairs, Rows};
use reg_base::{GroupId, Moment};
use reg_terms::{CompositeRow, Member, MemberRow, RowLists, SetOp};
use std::alloc::{AllocError, Global};

/// The rows that are on at a moment, and the composites, each in order: what effective membership
/// is computed from.
#[derive(Drop)]
pub struct Live {
    pub rows: Rows,
    pub composites: Composites,
}

/// The rows that are on at a moment.
fn rows_on(alloc: Global, rows: &[MemberRow], at: Moment) -> Result<Rows, AllocError>
    ensures { IfOk result (λ r. r ≡ rows_on at rows.now []) }
{
    let mut on = Rows::new(alloc);
    for row in rows {
        if row.from <= at {
            on.insert(row.group, row.member)?;
        }
    }
    Ok(on)
}

/// Composites in order. Of several of one group the first counts.
fn composites_in(alloc: Global, rows: &[CompositeRow]) -> Result<Composites, AllocError>
    ensures { IfOk result (λ c. c ≡ composites_in rows.now []) }
{
    let mut composites = Composites::new(alloc);
    for row in rows {
        if !composites.has(row.group) {
            composites.insert(*row)?;
        }
    }
    Ok(composites)
}

impl Live {
    /// No rows and no composites. Takes no memory.
    pub fn new(alloc: Global) -> Live
        ensures { result ≡ nothing }
    {
        Live {
            rows: Rows::new(alloc),
            composites: Composites::new(alloc),
        }
    }

    /// The live data of the facts at a moment: the rows that are on, and the composites.
    pub fn of<F: RowLists>(alloc: Global, facts: &F, at: Moment) -> Result<Live, AllocError>
        ensures { IfOk result (λ l. l
            ≡ live_of at (F.rows_of facts.now) (F.composites_of facts.now)) }
    {
        let rows = facts.member_rows(alloc)?;
        let rows = rows_on(alloc, &rows, at)?;
        let composites = facts.composite_rows(alloc)?;
        let composites = composites_in(alloc, &composites)?;
        Ok(Live { rows, composites })
    }

    /// Whether the group has rows. Takes no memory.
    pub fn has_rows(&self, group: GroupId) -> bool
        ensures { result ≡ has_live_rows group self.now.rows }
    {
        self.rows.has_any(group)
    }

    /// Whether the group is a composite. Takes no memory.
    pub fn is_composite(&self, group: GroupId) -> bool
        ensures { result ≡ is_composite group self.now.composites }
    {
        self.composites.has(group)
    }

    /// The group's factors, where it is a composite. Takes no memory.
    pub fn composite(&self, group: GroupId) -> Option<CompositeRow>
        ensures { result ≡ find (λ c. c.group == group) self.now.composites }
    {
        self.composites.of(group)
    }

    /// The live data after a change.
    pub(crate) fn edit(&mut self, change: &Change) -> Result<(), AllocError>
        requires { Fits change.now self.old }
        ensures { OnOk result (self.new ≡ changed change.now self.old) }
    {
        match change {
            Change::RowOn { group, member } => self.rows.insert(*group, *member),
            Change::RowOff { group, member } => {
                self.rows.remove(*group, *member);
                Ok(())
            }
            Change::FactorsOn {
                group,
                op,
                left,
                right,
            } => self.composites.insert(CompositeRow {
                group: *group,
                op: *op,
                left: *left,
                right: *right,
            }),
            Change::FactorsOff { group } => {
                self.composites.remove(*group);
                Ok(())
            }
        }
    }
}

/// One change of live data.
#[derive(Clone, Copy)]
pub enum Change {
    /// The group gets a row of the member.
    RowOn {
        group: GroupId,
        member: Member,
    },
    /// The group's row of the member goes.
    RowOff {
        group: GroupId,
        member: Member,
    },
    /// The group becomes a composite of two factors.
    FactorsOn {
        group: GroupId,
        op: SetOp,
        left: GroupId,
        right: GroupId,
    },
    /// The group is a composite no longer.
    FactorsOff {
        group: GroupId,
    },
}

impl Change {
    /// The group whose rows or factors change.
    pub fn group(&self) -> GroupId
        ensures { result ≡ group_of self.now }
    {
        match self {
            Change::RowOn { group, .. } => *group,
            Change::RowOff { group, .. } => *group,
            Change::FactorsOn { group, .. } => *group,
            Change::FactorsOff { group } => *group,
        }
    }
}

/// The effective memberships that a change begins and ends, each in order by group and person.
#[derive(Drop)]
pub struct Delta {
    pub began: Pairs,
    pub ended: Pairs,
}
