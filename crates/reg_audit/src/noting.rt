// What a step adds to the log and to the past: lines, assignments, turned memberships, grants, the
// wheel group.
ghost use Rattle.std.specs.Prelude.{◌≡◌, ◌&&◌, ◌++◌, ◌∷◌, [], ℕ, map, nat_le, IfOk, OnOk};
ghost use Rattle.std.specs.Prelude.{if◌then◌else◌};
ghost use Rattle.reg_base.specs.declared.privilege.Privilege.{Privilege};
ghost use Rattle.reg_terms.specs.declared.kinds.Object.{Object};
ghost use Rattle.reg_terms.specs.declared.kinds.Holder.{Holder};
ghost use Rattle.reg_effect.specs.Turned.{after_turns};
ghost use Rattle.reg_pit.specs.Grants.{has_grant};
ghost use Rattle.reg_pit.specs.Past.{assigns_at, last_assign, was_member, was_granted, wheel_at};
ghost use Rattle.reg_pit.specs.Past.{NotedBy, KeepsMembers, KeepsGrants, KeepsWheel, KeepsAssigns};
ghost use Rattle.reg_priv.specs.Grants.{grants};
ghost use Rattle.reg_priv.specs.May.{wheel};
ghost use Rattle.reg_audit.specs.Assigning.{all_changed, last_after_all, MayNote};
ghost use Rattle.reg_audit.specs.Changed.{is_noted};
ghost use Rattle.reg_audit.specs.Lines.{turn_line};

use crate::grant_change::GrantChange;
use crate::grants::note_changed;
use crate::lines::turn_line;
use crate::wheel::note_wheel;
use reg_base::{GroupId, Moment, SubjectId};
use reg_facts::Facts;
use reg_log::{ChangeLog, Line};
use reg_pit::{AssignChange, Past};
use reg_priv::wheel;
use reg_terms::Object;
use std::alloc::{AllocError, Global};

/// Adds a line at the end of the log.
fn log_line(log: &mut ChangeLog, line: &Line) -> Result<(), AllocError>
    ensures { OnOk result (log.new ≡ log.old ++ line.now ∷ []) }
{
    log.append(line.at, line.kind, line.object, line.entity, line.number)?;
    Ok(())
}

/// Adds lines at the end of the log.
pub(crate) fn log_lines(log: &mut ChangeLog, lines: &[Line]) -> Result<(), AllocError>
    ensures { OnOk result (log.new ≡ log.old ++ lines.now) }
{
    for line in lines {
        log_line(log, line)?;
    }
    Ok(())
}

/// Adds the entries of the memberships that a step begins and ends.
pub(crate) fn log_turns(
    log: &mut ChangeLog,
    at: Moment,
    turned: &[(GroupId, SubjectId, bool)],
) -> Result<(), AllocError>
    ensures { OnOk result (log.new ≡ log.old ++ map (turn_line at) turned.now) }
{
    for turn in turned {
        log_line(log, &turn_line(at, turn.0, turn.1, turn.2))?;
    }
    Ok(())
}

/// Notes what a step does to assignments; nothing was noted later. Out of memory the past is given
/// up.
fn note_assigns(past: Past, changes: Vec<AssignChange>, at: Moment) -> Result<Past, AllocError>
    requires { MayNote at changes.items past }
    ensures noted { IfOk result (λ new. (t : ℕ)
        → assigns_at new t ≡ (if nat_le at t then all_changed changes.items (assigns_at past t)
        else assigns_at past t)) }
    ensures greatest { IfOk result (λ new. last_assign new
        ≡ last_after_all changes.items (last_assign past)) }
    ensures members { IfOk result (λ new. KeepsMembers past new) }
    ensures grants { IfOk result (λ new. KeepsGrants past new) }
    ensures wheel { IfOk result (λ new. KeepsWheel past new) }
    ensures last { IfOk result (λ new. NotedBy at new) }
{
    let mut past = past;
    for change in changes {
        past = past.note_assign(change, at)?;
    }
    Ok(past)
}

/// Notes the memberships that a step begins and ends; nothing was noted later. Out of memory the
/// past is given up.
fn note_turns(
    past: Past,
    turned: &[(GroupId, SubjectId, bool)],
    at: Moment,
) -> Result<Past, AllocError>
    requires { NotedBy at past }
    ensures noted { IfOk result (λ new. (g s t : ℕ)
        → was_member new g s t ≡ (if nat_le at t
        then after_turns turned.now g s (was_member past g s t) else was_member past g s t)) }
    ensures grants { IfOk result (λ new. KeepsGrants past new) }
    ensures wheel { IfOk result (λ new. KeepsWheel past new) }
    ensures assigns { IfOk result (λ new. KeepsAssigns past new) }
    ensures last { IfOk result (λ new. NotedBy at new) }
{
    let mut past = past;
    for turn in turned {
        past = past.note_member(turn.0, turn.1, turn.2, at)?;
    }
    Ok(past)
}

/// Notes what a step leaves at its moment, by the facts after it: what it does to assignments, the
/// memberships that it begins and ends, who holds what where it may have changed, and the wheel
/// group; nothing was noted later. Out of memory the past is given up.
pub(crate) fn note_past(
    alloc: Global,
    past: Past,
    turned: &[(GroupId, SubjectId, bool)],
    facts: &Facts,
    touched: &[Object],
    changed: &[GrantChange],
    others: bool,
    changes: Vec<AssignChange>,
    at: Moment,
) -> Result<Past, AllocError>
    requires { MayNote at changes.items past }
    ensures members { IfOk result (λ new. (g s t : ℕ)
        → was_member new g s t ≡ (if nat_le at t
        then after_turns turned.now g s (was_member past g s t) else was_member past g s t)) }
    ensures grants { IfOk result (λ new. (o : Object) (p : Privilege) (h : Holder) (t : ℕ)
        → was_granted new o p h t
        ≡ (if is_noted touched.now others changed.now o (p, h) && nat_le at t
        then has_grant (grants o facts.now) p h else was_granted past o p h t)) }
    ensures wheel { IfOk result (λ new. (t : ℕ)
        → wheel_at new t ≡ (if nat_le at t then wheel facts.now else wheel_at past t)) }
    ensures assigns { IfOk result (λ new. (t : ℕ)
        → assigns_at new t ≡ (if nat_le at t then all_changed changes.items (assigns_at past t)
        else assigns_at past t)) }
    ensures greatest { IfOk result (λ new. last_assign new
        ≡ last_after_all changes.items (last_assign past)) }
    ensures last { IfOk result (λ new. NotedBy at new) }
{
    let with_assigns = note_assigns(past, changes, at)?;
    let with_turns = note_turns(with_assigns, turned, at)?;
    let with_grants = note_changed(alloc, with_turns, facts, touched, changed, others, at)?;
    let with_wheel = note_wheel(with_grants, wheel(facts), at)?;
    Ok(with_wheel)
}
