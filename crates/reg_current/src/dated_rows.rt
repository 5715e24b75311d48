// Rows at their dates, in order.
ghost use Rattle.std.specs.Prelude.{◌≡◌, ℕ, ◌<◌, ◌==◌, ◌^◌, ◌&&◌, ◌||◌, true, false, not};
ghost use Rattle.std.specs.Prelude.{MatchOption, IfOk, OnOk, OnErr};
ghost use Rattle.std.specs.List.{All};
ghost use Rattle.std.specs.BTreeSet.{contains};
ghost use Rattle.reg_terms.specs.declared.kinds.Member.{Member};
ghost use Rattle.reg_current.specs.Members.{member_id};

use reg_base::{GroupId, Moment, SubjectId};
use reg_facts::Member;
use std::alloc::{AllocError, Global};
use std::collections::BTreeSet;

/// Rows (group, member), each at a date: by the date, then by group, persons before groups, and the
/// member's id.
#[derive(Drop)]
pub struct DatedRows {
    alloc: Global,
    rows: BTreeSet<(Moment, GroupId, Member)>,
    ghost are_small: { All (λ (row : ℕ × ℕ × Member). (row.1 < 2 ^ 32)
        × (member_id row.2 < 2 ^ 32)) rows.keys },
}

/// What comes first at a date.
fn first_at(date: Moment) -> (Moment, GroupId, Member)
    ensures { result ≡ (date, 0, Member.Person 0) }
{
    (date, GroupId::new(0), Member::Person(SubjectId::new(0)))
}

/// What comes last at a date.
fn last_at(date: Moment) -> (Moment, GroupId, Member)
    ensures { result ≡ (date, 4294967295, Member.Group 4294967295) }
{
    let last = GroupId::new(u32::MAX);
    (date, last, Member::Group(last))
}

impl DatedRows {
    ghost use Rattle.reg_current.specs.Coming.{dated_cmp, has_dated, same_dated, IsFirst, AreDated};

    /// No rows. Takes no memory.
    pub fn new(alloc: Global) -> DatedRows
        ensures { (d g : ℕ) (m : Member) → has_dated result d g m ≡ false }
    {
        DatedRows {
            alloc,
            rows: BTreeSet::new(alloc),
        }
    }

    /// Puts a row at its date, unless it is there. Out of memory the rows stay as they were.
    pub fn insert(&mut self, date: Moment, group: GroupId, member: Member) -> Result<(), AllocError>
        ensures ok { OnOk result ((d g : ℕ) (m : Member)
            → has_dated self.new d g m
            ≡ (same_dated date group member d g m || has_dated self.old d g m)) }
        ensures err { OnErr result ((d g : ℕ) (m : Member)
            → has_dated self.new d g m ≡ has_dated self.old d g m) }
    {
        self.rows.insert((date, group, member))?;
        Ok(())
    }

    /// Takes a row away from its date, where it is there. Takes no memory.
    pub fn remove(&mut self, date: Moment, group: GroupId, member: Member)
        ensures { (d g : ℕ) (m : Member)
            → has_dated self.new d g m
            ≡ (not (same_dated date group member d g m) && has_dated self.old d g m) }
    {
        self.rows.remove(&(date, group, member));
    }

    /// The least date at which a row stands. None exactly where there is no row. Takes no memory,
    /// and is a look at the first row.
    pub fn first(&self) -> Option<Moment>
        ensures { IsFirst self.now result }
    {
        let row = self.rows.first()?;
        Some(row.0)
    }

    /// The rows at a date, in order. No others are looked at.
    pub fn at(&self, date: Moment) -> Result<Vec<(GroupId, Member)>, AllocError>
        ensures { IfOk result (λ rows. AreDated self.now date rows.items) }
    {
        let mut rows = Vec::new(self.alloc);
        for row in self.rows.range(first_at(date)..=last_at(date)) {
            rows.push((row.1, row.2))?;
        }
        Ok(rows)
    }

    /// The first row at a date. Takes no memory.
    fn row_at(&self, date: Moment) -> Option<(Moment, GroupId, Member)>
        ensures { MatchOption result ((g : ℕ) (m : Member)
            → has_dated self.now date g m ≡ false) (λ row. (row.0 ≡ date)
            × (contains dated_cmp self.now.rows row ≡ true)) }
    {
        self.rows
            .range(first_at(date)..=last_at(date))
            .next()
            .copied()
    }

    /// Takes the rows at a date away. No others are looked at. Takes no memory.
    pub fn forget(&mut self, date: Moment)
        ensures { (d g : ℕ) (m : Member)
            → has_dated self.new d g m ≡ (not (date == d) && has_dated self.old d g m) }
    {
        while let Some(row) = self.row_at(date) {
            self.rows.remove(&row);
        }
    }
}
