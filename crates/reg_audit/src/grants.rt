// Who holds what on the objects that a step touches.
ghost use Rattle.std.specs.Prelude.{◌≡◌, ◌&&◌, ℕ, nat_le, IfOk, if◌then◌else◌};
ghost use Rattle.reg_base.specs.declared.privilege.Privilege.{Privilege};
ghost use Rattle.reg_terms.specs.Kinds.{same_object};
ghost use Rattle.reg_terms.specs.declared.kinds.Object.{Object};
ghost use Rattle.reg_terms.specs.declared.kinds.Holder.{Holder};
ghost use Rattle.reg_pit.specs.Grants.{has_grant};
ghost use Rattle.reg_pit.specs.Past.{was_granted, NotedBy, KeepsMembers, KeepsWheel, KeepsAssigns};
ghost use Rattle.reg_priv.specs.Filling.{same_grant};
ghost use Rattle.reg_priv.specs.Grants.{grants};
ghost use Rattle.reg_priv.specs.Touched.{is_listed};
ghost use Rattle.std.specs.List.{list_any};
ghost use Rattle.reg_audit.specs.Changed.{is_changed, is_noted, may_change};

use crate::grant_change::GrantChange;
use crate::held::is_granted;
use reg_base::{Moment, Privilege};
use reg_facts::Facts;
use reg_pit::Past;
use reg_priv::holders;
use reg_terms::{Holder, Object};
use std::alloc::{AllocError, Global};

/// Notes who holds what on an object, direct and inherited; nothing was noted later. Out of memory
/// the past is given up.
fn note_holders(
    alloc: Global,
    past: Past,
    facts: &Facts,
    object: Object,
    at: Moment,
) -> Result<Past, AllocError>
    requires { NotedBy at past }
    ensures noted { IfOk result (λ new. (o : Object) (p : Privilege) (h : Holder) (t : ℕ)
        → was_granted new o p h t
        ≡ (if same_object o object && nat_le at t then has_grant (grants object facts.now) p h
        else was_granted past o p h t)) }
    ensures members { IfOk result (λ new. KeepsMembers past new) }
    ensures wheel { IfOk result (λ new. KeepsWheel past new) }
    ensures assigns { IfOk result (λ new. KeepsAssigns past new) }
    ensures last { IfOk result (λ new. NotedBy at new) }
{
    let held = holders(alloc, facts, &object)?;
    let past = past.note_grants(object, &held, at)?;
    Ok(past)
}

/// Notes whether one holder has one privilege on an object, direct or inherited; nothing was noted
/// later. Out of memory the past is given up.
fn note_grant(
    past: Past,
    facts: &Facts,
    object: Object,
    privilege: Privilege,
    holder: Holder,
    at: Moment,
) -> Result<Past, AllocError>
    requires { NotedBy at past }
    ensures noted { IfOk result (λ new. (o : Object) (p : Privilege) (h : Holder) (t : ℕ)
        → was_granted new o p h t
        ≡ (if (same_object o object && same_grant (p, h) (privilege, holder)) && nat_le at t
        then has_grant (grants object facts.now) p h else was_granted past o p h t)) }
    ensures members { IfOk result (λ new. KeepsMembers past new) }
    ensures wheel { IfOk result (λ new. KeepsWheel past new) }
    ensures assigns { IfOk result (λ new. KeepsAssigns past new) }
    ensures last { IfOk result (λ new. NotedBy at new) }
{
    let is_held = is_granted(facts, &object, privilege, &holder);
    let past = past.note_grant(object, privilege, holder, is_held, at)?;
    Ok(past)
}

/// Notes who holds what on an object, direct and inherited, where it may have changed; nothing was
/// noted later. Out of memory the past is given up.
fn note_object(
    alloc: Global,
    past: Past,
    facts: &Facts,
    object: Object,
    changed: &Option<(Privilege, Holder)>,
    at: Moment,
) -> Result<Past, AllocError>
    requires { NotedBy at past }
    ensures noted { IfOk result (λ new. (o : Object) (p : Privilege) (h : Holder) (t : ℕ)
        → was_granted new o p h t
        ≡ (if (same_object o object && may_change changed.now (p, h)) && nat_le at t
        then has_grant (grants object facts.now) p h else was_granted past o p h t)) }
    ensures members { IfOk result (λ new. KeepsMembers past new) }
    ensures wheel { IfOk result (λ new. KeepsWheel past new) }
    ensures assigns { IfOk result (λ new. KeepsAssigns past new) }
    ensures last { IfOk result (λ new. NotedBy at new) }
{
    match changed {
        Some((privilege, holder)) => note_grant(past, facts, object, *privilege, *holder, at),
        None => note_holders(alloc, past, facts, object, at),
    }
}

/// Notes who holds what on some objects, direct and inherited: one privilege of one holder, where
/// that alone may have changed, and else all; nothing was noted later. Out of memory the past is
/// given up.
fn note_touched(
    alloc: Global,
    past: Past,
    facts: &Facts,
    touched: &[Object],
    changed: &Option<(Privilege, Holder)>,
    at: Moment,
) -> Result<Past, AllocError>
    requires { NotedBy at past }
    ensures noted { IfOk result (λ new. (o : Object) (p : Privilege) (h : Holder) (t : ℕ)
        → was_granted new o p h t
        ≡ (if (is_listed o touched.now && may_change changed.now (p, h)) && nat_le at t
        then has_grant (grants o facts.now) p h else was_granted past o p h t)) }
    ensures members { IfOk result (λ new. KeepsMembers past new) }
    ensures wheel { IfOk result (λ new. KeepsWheel past new) }
    ensures assigns { IfOk result (λ new. KeepsAssigns past new) }
    ensures last { IfOk result (λ new. NotedBy at new) }
{
    let mut past = past;
    for object in touched {
        past = note_object(alloc, past, facts, *object, changed, at)?;
    }
    Ok(past)
}

/// Notes whether one holder has one privilege where it may have changed: on one object, or on each
/// that is touched; nothing was noted later. Out of memory the past is given up.
fn note_change(
    alloc: Global,
    past: Past,
    facts: &Facts,
    touched: &[Object],
    change: &GrantChange,
    at: Moment,
) -> Result<Past, AllocError>
    requires { NotedBy at past }
    ensures noted { IfOk result (λ new. (o : Object) (p : Privilege) (h : Holder) (t : ℕ)
        → was_granted new o p h t
        ≡ (if is_changed touched.now o (p, h) change.now && nat_le at t
        then has_grant (grants o facts.now) p h else was_granted past o p h t)) }
    ensures members { IfOk result (λ new. KeepsMembers past new) }
    ensures wheel { IfOk result (λ new. KeepsWheel past new) }
    ensures assigns { IfOk result (λ new. KeepsAssigns past new) }
    ensures last { IfOk result (λ new. NotedBy at new) }
{
    match &change.object {
        Some(object) => note_grant(past, facts, *object, change.privilege, change.holder, at),
        None => {
            let one = Some((change.privilege, change.holder));
            note_touched(alloc, past, facts, touched, &one, at)
        }
    }
}

/// Notes whether some holders have some privileges where they may have changed, one after another;
/// nothing was noted later. Out of memory the past is given up.
fn note_changes(
    alloc: Global,
    past: Past,
    facts: &Facts,
    touched: &[Object],
    changes: &[GrantChange],
    at: Moment,
) -> Result<Past, AllocError>
    requires { NotedBy at past }
    ensures noted { IfOk result (λ new. (o : Object) (p : Privilege) (h : Holder) (t : ℕ)
        → was_granted new o p h t
        ≡ (if list_any (is_changed touched.now o (p, h)) changes.now && nat_le at t
        then has_grant (grants o facts.now) p h else was_granted past o p h t)) }
    ensures members { IfOk result (λ new. KeepsMembers past new) }
    ensures wheel { IfOk result (λ new. KeepsWheel past new) }
    ensures assigns { IfOk result (λ new. KeepsAssigns past new) }
    ensures last { IfOk result (λ new. NotedBy at new) }
{
    let mut past = past;
    for change in changes {
        past = note_change(alloc, past, facts, touched, change, at)?;
    }
    Ok(past)
}

/// Notes who holds what where it may have changed: some privileges of some holders, and all on the
/// objects that are touched where others may have changed too; nothing was noted later. Out of
/// memory the past is given up.
pub(crate) fn note_changed(
    alloc: Global,
    past: Past,
    facts: &Facts,
    touched: &[Object],
    changes: &[GrantChange],
    others: bool,
    at: Moment,
) -> Result<Past, AllocError>
    requires { NotedBy at past }
    ensures noted { IfOk result (λ new. (o : Object) (p : Privilege) (h : Holder) (t : ℕ)
        → was_granted new o p h t
        ≡ (if is_noted touched.now others changes.now o (p, h) && nat_le at t
        then has_grant (grants o facts.now) p h else was_granted past o p h t)) }
    ensures members { IfOk result (λ new. KeepsMembers past new) }
    ensures wheel { IfOk result (λ new. KeepsWheel past new) }
    ensures assigns { IfOk result (λ new. KeepsAssigns past new) }
    ensures last { IfOk result (λ new. NotedBy at new) }
{
    if others {
        note_touched(alloc, past, facts, touched, &None, at)
    } else {
        note_changes(alloc, past, facts, touched, changes, at)
    }
}
