// The dates to come, under an event.
ghost use Rattle.std.specs.Prelude.{◌≡◌, true, not, filter, OnOk};
ghost use Rattle.reg_terms.specs.declared.event.Event.TheVariants.{RowRemoved, RowRedated};
ghost use Rattle.reg_terms.specs.declared.event.Event.TheVariants.{GrantRemoved, GrantBegan};
ghost use Rattle.reg_terms.specs.declared.rows.GrantRow.{GrantRow};
ghost use Rattle.reg_terms.specs.Kinds.{same_object};
ghost use Rattle.reg_terms.specs.Rows.{has_row};
ghost use Rattle.reg_facts.specs.Events.{happened};
ghost use Rattle.reg_facts.specs.Grants.{has_grant, grants_on};
ghost use Rattle.reg_facts.specs.Suiting.{Suits};
ghost use Rattle.reg_current.specs.Coming.{AreFound, FindsDates, LosesGrantDates};

use crate::dates::Dates;
use reg_base::{GroupId, Moment};
use reg_facts::{Event, Facts, GrantRow, Member, MemberRow, Object};
use reg_table::GroupRows;
use std::alloc::AllocError;

/// The dates of a membership that goes. It takes no memory.
fn drop_member(dates: &mut Dates, facts: &Facts, clock: Moment, group: GroupId, member: &Member)
    requires found { FindsDates dates.old clock facts.now }
    requires there { has_row group member.now facts.now.rows ≡ true }
    ensures { FindsDates dates.new clock (happened (RowRemoved group member.now) facts.now) }
{
    let _clock = clock;
    facts.law_sound();
    if let Some(row) = facts.row(group, member) {
        dates.drop_row(&row);
    }
}

/// Other dates of a membership.
fn window_member(
    dates: &mut Dates,
    facts: &Facts,
    clock: Moment,
    row: &MemberRow,
) -> Result<(), AllocError>
    requires found { FindsDates dates.old clock facts.now }
    requires there { has_row row.now.group row.now.member facts.now.rows ≡ true }
    ensures { OnOk result (FindsDates dates.new clock
        (happened (RowRedated row.now.group row.now.member row.now.from row.now.until)
        facts.now)) }
{
    drop_member(dates, facts, clock, row.group, &row.member);
    dates.add_row(clock, row)
}

/// The dates of a grant that goes. It takes no memory.
fn drop_grant(dates: &mut Dates, facts: &Facts, clock: Moment, row: &GrantRow)
    requires found { FindsDates dates.old clock facts.now }
    requires there { has_grant row.now facts.now.grants ≡ true }
    ensures { FindsDates dates.new clock (happened (GrantRemoved row.now) facts.now) }
{
    let _clock = clock;
    facts.law_held();
    if let Some(stands) = facts.grant(row) {
        dates.drop_grant(&stands);
    }
}

/// Other dates of a grant.
fn begin_grant(
    dates: &mut Dates,
    facts: &Facts,
    clock: Moment,
    row: &GrantRow,
) -> Result<(), AllocError>
    requires found { FindsDates dates.old clock facts.now }
    requires there { has_grant row.now facts.now.grants ≡ true }
    ensures { OnOk result (FindsDates dates.new clock
        (happened (GrantBegan row.now) facts.now)) }
{
    drop_grant(dates, facts, clock, row);
    dates.add_grant(clock, row)
}

/// The dates of some grants are to come no longer. It takes no memory.
fn drop_rows(dates: &mut Dates, rows: GroupRows<'_, GrantRow>)
    ensures { LosesGrantDates dates.old dates.new rows.entry }
{
    for row in rows {
        dates.drop_grant(row);
    }
}

/// The dates of all grants on an object are to come no longer. It costs what is written on the
/// object, and takes no memory.
fn drop_written(dates: &mut Dates, facts: &Facts, object: &Object)
    ensures { LosesGrantDates dates.old dates.new (grants_on object.now facts.now.grants) }
{
    drop_rows(dates, facts.grants_of(object));
}

/// The dates of an object that goes, and all grants on it. It takes no memory.
fn drop_object(dates: &mut Dates, facts: &Facts, clock: Moment, object: &Object)
    requires found { FindsDates dates.old clock facts.now }
    ensures { AreFound dates.new clock facts.now.rows (filter
        (λ (row : GrantRow). not (same_object row.object object.now)) facts.now.grants) }
{
    let _clock = clock;
    drop_written(dates, facts, object);
}

/// Brings the dates to come from the facts to those after an event at the clock. It costs what the
/// event's membership or grant is, or what is written on its object, and no walk over all of them
/// is made. Out of memory the dates are given up.
pub fn redate(dates: &mut Dates, facts: &Facts, at: Moment, event: &Event) -> Result<(), AllocError>
    requires suits { Suits event.now facts.now }
    requires found { FindsDates dates.old at facts.now }
    ensures { OnOk result (FindsDates dates.new at (happened event.now facts.now)) }
{
    match event {
        Event::RowAdded { row } => dates.add_row(at, row),
        Event::RowRemoved { group, member } => {
            drop_member(dates, facts, at, *group, member);
            Ok(())
        }
        Event::RowRedated {
            group,
            member,
            from,
            until,
        } => {
            let row = MemberRow {
                group: *group,
                member: *member,
                from: *from,
                until: *until,
            };
            window_member(dates, facts, at, &row)
        }
        Event::GrantAdded { row } => dates.add_grant(at, row),
        Event::GrantBegan { row } => begin_grant(dates, facts, at, row),
        Event::GrantRemoved { row } => {
            drop_grant(dates, facts, at, row);
            Ok(())
        }
        Event::FolderGone { folder } => {
            drop_object(dates, facts, at, &Object::Folder(*folder));
            Ok(())
        }
        Event::GroupGone { group } => {
            drop_object(dates, facts, at, &Object::Group(*group));
            Ok(())
        }
        Event::DefinitionGone { definition } => {
            drop_object(dates, facts, at, &Object::Def(*definition));
            Ok(())
        }
        _ => Ok(()),
    }
}
