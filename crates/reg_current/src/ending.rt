// The events of a date: what ends there goes, and then the grants that begin there are on.
ghost use Rattle.std.specs.Prelude.{◌≡◌, ◌<◌, ◌++◌, ◌∷◌, [], None, IfOk, OnOk, map};
ghost use Rattle.reg_current.specs.Coming.{FindsDates};
ghost use Rattle.reg_current.specs.Dates.{date_events, end_of, grant_gone, grant_on, grant_until};
ghost use Rattle.reg_current.specs.Dates.{pair_gone};

use crate::dates::Dates;
use reg_base::{GroupId, Moment, Privilege};
use reg_facts::{Event, Facts, GrantRow, Member};
use reg_terms::{Holder, Object};
use std::alloc::{AllocError, Global};

/// Memberships go, one after another.
fn rows_gone(alloc: Global, rows: &[(GroupId, Member)]) -> Result<Vec<Event>, AllocError>
    ensures { IfOk result (λ events. events.items ≡ map pair_gone rows.now) }
{
    let mut events = Vec::new(alloc);
    for row in rows {
        events.push(Event::RowRemoved {
            group: row.0,
            member: row.1,
        })?;
    }
    Ok(events)
}

/// The grant of a key that is on, and stands until a date, if there is one.
fn grant_until(key: &(Object, Privilege, Holder), until: Option<Moment>) -> GrantRow
    ensures { result ≡ grant_until until key.now }
{
    GrantRow {
        object: key.0,
        privilege: key.1,
        holder: key.2,
        from: None,
        until,
    }
}

/// When the grant of a key ends, if it does.
fn end_of(facts: &Facts, key: &(Object, Privilege, Holder)) -> Option<Moment>
    ensures { result ≡ end_of key.now facts.now.grants }
{
    match facts.grant(&grant_until(key, None)) {
        Some(row) => row.until,
        None => None,
    }
}

/// Puts the event that a grant ends behind others.
fn put_gone(key: &(Object, Privilege, Holder), events: &mut Vec<Event>) -> Result<(), AllocError>
    ensures { OnOk result (events.new.items ≡ events.old.items ++ grant_gone key.now ∷ []) }
{
    let row = grant_until(key, None);
    events.push(Event::GrantRemoved { row })?;
    Ok(())
}

/// Puts the event that a grant begins behind others.
fn put_on(
    facts: &Facts,
    key: &(Object, Privilege, Holder),
    events: &mut Vec<Event>,
) -> Result<(), AllocError>
    ensures { OnOk result (events.new.items
        ≡ events.old.items ++ grant_on facts.now.grants key.now ∷ []) }
{
    let row = grant_until(key, end_of(facts, key));
    events.push(Event::GrantBegan { row })?;
    Ok(())
}

/// Grants go, one after another, behind other events.
fn put_all_gone(
    keys: &[(Object, Privilege, Holder)],
    events: &mut Vec<Event>,
) -> Result<(), AllocError>
    ensures { OnOk result (events.new.items ≡ events.old.items ++ map grant_gone keys.now) }
{
    for key in keys {
        put_gone(key, events)?;
    }
    Ok(())
}

/// Grants begin, one after another, behind other events.
fn put_all_on(
    facts: &Facts,
    keys: &[(Object, Privilege, Holder)],
    events: &mut Vec<Event>,
) -> Result<(), AllocError>
    ensures { OnOk result (events.new.items
        ≡ events.old.items ++ map (grant_on facts.now.grants) keys.now) }
{
    for key in keys {
        put_on(facts, key, events)?;
    }
    Ok(())
}

/// The events of a date after the clock: the memberships that end there go, and so do the grants;
/// then the grants that begin there are on. No others are looked at.
pub fn events_at(
    alloc: Global,
    dates: &Dates,
    facts: &Facts,
    clock: Moment,
    date: Moment,
) -> Result<Vec<Event>, AllocError>
    requires found { FindsDates dates.now clock facts.now }
    requires later { clock < date }
    ensures { IfOk result (λ events. events.items ≡ date_events date facts.now) }
{
    let _clock = clock;
    let rows = dates.ending(date)?;
    let gone = dates.ending_grants(date)?;
    let on = dates.beginning_grants(date)?;
    let mut events = rows_gone(alloc, &rows)?;
    put_all_gone(&gone, &mut events)?;
    put_all_on(facts, &on, &mut events)?;
    Ok(events)
}
