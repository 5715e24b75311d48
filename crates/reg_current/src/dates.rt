// The dates to come.
ghost use Rattle.std.specs.Prelude.{◌≡◌, ℕ, ◌<◌, ◌++◌, ◌∷◌, ◌==◌, [], List, Some, None, not};
ghost use Rattle.std.specs.Prelude.{filter, nat_lt, ◌&&◌, ◌||◌, IfOk, OnOk};
ghost use Rattle.std.specs.List.{find};
ghost use Rattle.reg_terms.specs.declared.kinds.Member.{Member};
ghost use Rattle.reg_terms.specs.declared.rows.GrantRow.{GrantRow};
ghost use Rattle.reg_terms.specs.declared.rows.MemberRow.{MemberRow};
ghost use Rattle.reg_terms.specs.Rows.{is_row};
ghost use Rattle.reg_facts.specs.Lists.{Lists};
ghost use Rattle.reg_facts.specs.Sound.{AreRowsOnce};
ghost use Rattle.reg_current.specs.Dates.{due, earliest, ending, beginning, IsNext, GrantKey};
ghost use Rattle.reg_current.specs.Dates.{grants_where, grant_begins_at, grant_ends_at};
ghost use Rattle.reg_current.specs.Coming.{has_dated, same_dated, has_dated_grant, same_key};
ghost use Rattle.reg_current.specs.Coming.{same_dated_grant, key_of, is_date, up_to, AreFound};
ghost use Rattle.reg_current.specs.Coming.{FindsDates, LosesDates, LosesGrantDates, IsFirst};
ghost use Rattle.reg_current.specs.Coming.{IsFirstGrant, IsFirstOf};

use crate::dated_grants::DatedGrants;
use crate::dated_rows::DatedRows;
use reg_base::{GroupId, Moment, Privilege};
use reg_facts::{GrantRow, Holder, Member, MemberRow, Object};
use std::alloc::{AllocError, Global};

/// The earlier of two dates, as far as they are there.
fn earliest(date: Option<Moment>, other: Option<Moment>) -> Option<Moment>
    ensures { result ≡ earliest date other }
{
    let Some(first) = date else {
        return other;
    };
    match other {
        Some(second) if second < first => Some(second),
        _ => Some(first),
    }
}

/// A date if it is there and comes up to a moment.
fn up_to(date: Option<Moment>, to: Moment) -> Option<Moment>
    ensures { result ≡ up_to to date }
{
    match date {
        Some(first) if first <= to => Some(first),
        _ => None,
    }
}

/// Puts a row at a date, if that is later than the clock.
fn insert_later(
    set: &mut DatedRows,
    clock: Moment,
    date: Moment,
    row: &MemberRow,
) -> Result<(), AllocError>
    ensures { OnOk result ((d g : ℕ) (m : Member)
        → has_dated set.new d g m
        ≡ ((nat_lt clock d && same_dated date row.now.group row.now.member d g m)
        || has_dated set.old d g m)) }
{
    if clock < date {
        set.insert(date, row.group, row.member)
    } else {
        Ok(())
    }
}

/// Puts a grant at a date, if that is later than the clock.
fn insert_grant_later(
    set: &mut DatedGrants,
    clock: Moment,
    date: Moment,
    row: &GrantRow,
) -> Result<(), AllocError>
    ensures { OnOk result ((d : ℕ) (k : GrantKey)
        → has_dated_grant set.new d k
        ≡ ((nat_lt clock d && same_dated_grant date (key_of row.now) d k)
        || has_dated_grant set.old d k)) }
{
    if clock < date {
        set.insert(date, row)
    } else {
        Ok(())
    }
}

/// Puts a grant at a date, if there is one and it is later than the clock.
fn insert_grant(
    set: &mut DatedGrants,
    clock: Moment,
    date: &Option<Moment>,
    row: &GrantRow,
) -> Result<(), AllocError>
    ensures { OnOk result ((d : ℕ) (k : GrantKey)
        → has_dated_grant set.new d k
        ≡ ((nat_lt clock d && (is_date d date.now && same_key (key_of row.now) k))
        || has_dated_grant set.old d k)) }
{
    match date {
        Some(date) => insert_grant_later(set, clock, *date, row),
        None => Ok(()),
    }
}

/// Takes a grant away from a date, if there is one. Takes no memory.
fn remove_grant(set: &mut DatedGrants, date: &Option<Moment>, row: &GrantRow)
    ensures { (d : ℕ) (k : GrantKey)
        → has_dated_grant set.new d k
        ≡ (not (is_date d date.now && same_key (key_of row.now) k)
        && has_dated_grant set.old d k) }
{
    if let Some(date) = date {
        set.remove(*date, row);
    }
}

/// The rows that begin later than the clock, and those that end later, each by its date; and so the
/// grants.
#[derive(Drop)]
pub struct Dates {
    begins: DatedRows,
    ends: DatedRows,
    grant_begins: DatedGrants,
    grant_ends: DatedGrants,
}

impl Dates {
    /// No dates. Takes no memory.
    #[tactic(auto, using(crate::proofs::NoDates::finds_none))]
    pub fn new(alloc: Global) -> Dates
        ensures { (clock : ℕ) (f : Lists) → f.rows ≡ [] → f.grants ≡ []
            → FindsDates result clock f }
    {
        Dates {
            begins: DatedRows::new(alloc),
            ends: DatedRows::new(alloc),
            grant_begins: DatedGrants::new(alloc),
            grant_ends: DatedGrants::new(alloc),
        }
    }

    /// The first date of a row. Takes no memory.
    fn first_row(&self) -> Option<Moment>
        ensures { IsFirstOf (IsFirst self.now.begins) (IsFirst self.now.ends) result }
    {
        earliest(self.begins.first(), self.ends.first())
    }

    /// The first date of a grant. Takes no memory.
    fn first_grant(&self) -> Option<Moment>
        ensures { IsFirstOf (IsFirstGrant self.now.grant_begins) (IsFirstGrant self.now.grant_ends)
            result }
    {
        earliest(self.grant_begins.first(), self.grant_ends.first())
    }

    /// The first date, if it comes up to a moment. Takes no memory, and is a look at the first
    /// of each set.
    pub fn next(&self, to: Moment) -> Option<Moment>
        ensures { (clock : ℕ) (f : Lists) → FindsDates self.now clock f
            → result ≡ due clock to f }
    {
        up_to(earliest(self.first_row(), self.first_grant()), to)
    }

    /// The rows that end at a date, in order. No others are looked at.
    pub fn ending(&self, date: Moment) -> Result<Vec<(GroupId, Member)>, AllocError>
        ensures { IfOk result (λ found. (clock : ℕ) (f : Lists) → FindsDates self.now clock f
            → clock < date → found.items ≡ ending date f.rows) }
    {
        self.ends.at(date)
    }

    /// The grants that end at a date, in order. No others are looked at.
    pub fn ending_grants(
        &self,
        date: Moment,
    ) -> Result<Vec<(Object, Privilege, Holder)>, AllocError>
        ensures { IfOk result (λ found. (clock : ℕ) (f : Lists) → FindsDates self.now clock f
            → clock < date
            → found.items ≡ grants_where (grant_ends_at date) f.grants []) }
    {
        self.grant_ends.at(date)
    }

    /// The rows that begin at a date, in order. No others are looked at.
    pub fn beginning(&self, date: Moment) -> Result<Vec<(GroupId, Member)>, AllocError>
        ensures { IfOk result (λ found. (clock : ℕ) (f : Lists) → FindsDates self.now clock f
            → clock < date → found.items ≡ beginning date f.rows) }
    {
        self.begins.at(date)
    }

    /// The grants that begin at a date, in order. No others are looked at.
    pub fn beginning_grants(
        &self,
        date: Moment,
    ) -> Result<Vec<(Object, Privilege, Holder)>, AllocError>
        ensures { IfOk result (λ found. (clock : ℕ) (f : Lists) → FindsDates self.now clock f
            → clock < date
            → found.items ≡ grants_where (grant_begins_at date) f.grants []) }
    {
        self.grant_begins.at(date)
    }

    /// Goes on to the first date that comes: what begins and what ends there is to come no longer.
    /// No grant has it any more. Takes no memory.
    pub fn pass(&mut self, date: Moment)
        ensures { (clock : ℕ) (f : Lists) → FindsDates self.old clock f
            → IsNext clock date f → FindsDates self.new date f }
    {
        self.begins.forget(date);
        self.ends.forget(date);
    }

    /// Adds the dates of a row that are later than the clock. Out of memory one of them may be
    /// there.
    pub fn add_row(&mut self, clock: Moment, row: &MemberRow) -> Result<(), AllocError>
        ensures { OnOk result ((rows : List MemberRow) (grants : List GrantRow)
            → AreFound self.old clock rows grants
            → AreFound self.new clock (rows ++ row.now ∷ []) grants) }
    {
        insert_later(&mut self.begins, clock, row.from, row)?;
        match row.until {
            Some(until) => insert_later(&mut self.ends, clock, until, row),
            None => Ok(()),
        }
    }

    /// Takes the dates of a row away, as far as they are there.
    fn take_away(&mut self, row: &MemberRow)
        ensures { LosesDates self.old self.new (row.now ∷ []) }
    {
        self.begins.remove(row.from, row.group, row.member);
        if let Some(until) = row.until {
            self.ends.remove(until, row.group, row.member);
        }
    }

    /// Takes the dates of a row away that stands no longer. Takes no memory.
    pub fn drop_row(&mut self, row: &MemberRow)
        ensures { (clock g : ℕ) (m : Member) (rows : List MemberRow) (grants : List GrantRow)
            → AreFound self.old clock rows grants → AreRowsOnce rows
            → find (is_row g m) rows ≡ Some row.now
            → AreFound self.new clock (filter (λ (row : MemberRow). not (is_row g m row)) rows)
            grants }
    {
        self.take_away(row);
    }

    /// Adds the dates of a grant that are later than the clock. Out of memory one of them may be
    /// there.
    pub fn add_grant(&mut self, clock: Moment, row: &GrantRow) -> Result<(), AllocError>
        ensures { OnOk result ((rows : List MemberRow) (grants : List GrantRow)
            → AreFound self.old clock rows grants
            → AreFound self.new clock rows (grants ++ row.now ∷ [])) }
    {
        insert_grant(&mut self.grant_begins, clock, &row.from, row)?;
        insert_grant(&mut self.grant_ends, clock, &row.until, row)
    }

    /// Takes the dates of a grant away, as far as they are there. Takes no memory.
    pub fn drop_grant(&mut self, row: &GrantRow)
        ensures { LosesGrantDates self.old self.new (row.now ∷ []) }
    {
        remove_grant(&mut self.grant_begins, &row.from, row);
        remove_grant(&mut self.grant_ends, &row.until, row);
    }
}
