// What someone could do with an object at a moment.
ghost use Rattle.std.specs.Prelude.{◌≡◌, ◌≤◌, ◌<◌, ◌&&◌, ℕ, true, IfOk, filter};
ghost use Rattle.std.specs.List.{list_any};
ghost use Rattle.reg_terms.specs.Privileges.{all_privileges, gives};
ghost use Rattle.reg_facts.specs.Lists.{Lists};
ghost use Rattle.reg_priv.specs.May.{holds, is_root, judged, privileges_of};
ghost use Rattle.reg_current.specs.Live.{live};
ghost use Rattle.reg_machine.specs.Past.{was_member};
ghost use Rattle.reg_machine.specs.Standing.{stands};
ghost use Rattle.reg_view.specs.Held.{fits, held_of};
ghost use Rattle.reg_view.specs.Past.{live_at, past_at};
ghost use Rattle.reg_view.specs.Powers.{may_on, powers_then, who_stands};
ghost use Rattle.reg_view.specs.View.{powers_at};

use reg_base::{GroupId, Moment, Privilege, Steps, SubjectId};
use reg_effect::Kept;
use reg_facts::{Facts, Holder, Object};
use reg_machine::Machine;
use reg_priv::{Who, judged};
use reg_terms::{Privileges, all_privileges, gives, privilege_kind};
use std::alloc::{AllocError, Global};
use std::marker::Brand;
use std::sync::ledger::{Blank, Ledger};

/// What someone could do with an object at a moment at which both stood is what it may do by the
/// facts and the memberships of then, where the same grants count. It does nothing.
pub fn law_powers()
    ensures { (f F : Lists) (at : ℕ) (c : Who) (o : Object) → stands o F ≡ true
        → who_stands c F ≡ true → judged o f ≡ judged o F
        → powers_then f at F c o ≡ privileges_of (live at F) F c o }
{}

fn was_member_from<K: Kept, L: Ledger>(
    machine: &Machine<K>,
    group: GroupId,
    person: SubjectId,
    t: Moment,
    blank: Blank,
) -> bool
    requires past { t ≤ machine.now.clock }
    requires name { blank.name ≡ L.name }
    requires parts { blank.parts ≡ L.parts }
    requires some { 0 < blank.parts }
    ensures { result ≡ was_member machine.now.history t group person }
{
    let mut steps = Steps::<L>::open(blank);
    machine.was_member(group, person, t, &mut steps)
}

/// Whether a person was a member of a group at a moment.
fn was_member<K: Kept>(machine: &Machine<K>, group: GroupId, person: SubjectId, t: Moment) -> bool
    requires { t ≤ machine.now.clock }
    ensures { result ≡ was_member machine.now.history t group person }
{
    was_member_from::<K, Brand>(machine, group, person, t, Blank::new(1))
}

/// Whether someone stood at a moment.
fn who_stood<K: Kept>(machine: &Machine<K>, who: &Who, t: Moment) -> bool
    requires { t ≤ machine.now.clock }
    ensures { result ≡ who_stands who.now ((past_at machine.now).facts t) }
{
    match who {
        Who::System => true,
        Who::Person(person) => machine.stood_at(Object::Subject(*person), t),
    }
}

/// Whether an object and someone stood at a moment.
fn both_stood<K: Kept>(machine: &Machine<K>, who: &Who, object: &Object, t: Moment) -> bool
    requires { t ≤ machine.now.clock }
    ensures { result ≡ (stands object.now ((past_at machine.now).facts t)
        && who_stands who.now ((past_at machine.now).facts t)) }
{
    machine.stood_at(*object, t) && who_stood(machine, who, t)
}

/// Whether someone could do everything at a moment.
fn was_root<K: Kept>(machine: &Machine<K>, who: &Who, t: Moment) -> bool
    requires { t ≤ machine.now.clock }
    ensures { result ≡ is_root (live_at machine.now t) ((past_at machine.now).facts t) who.now }
{
    match who {
        Who::System => true,
        Who::Person(person) => match machine.wheel_at(t) {
            Some(group) => was_member(machine, group, *person, t),
            None => false,
        },
    }
}

/// Whether a person was the holder, or in the group that is it, at a moment.
fn person_held<K: Kept>(machine: &Machine<K>, person: SubjectId, holder: &Holder, t: Moment) -> bool
    requires { t ≤ machine.now.clock }
    ensures { result ≡ holds (live_at machine.now t) (Who.Person person) holder.now }
{
    match holder {
        Holder::Everyone => true,
        Holder::Person(other) => other.number() == person.number(),
        Holder::Group(group) => was_member(machine, *group, person, t),
    }
}

/// Whether a holder was someone, everyone, or a group that had someone, at a moment.
fn held<K: Kept>(machine: &Machine<K>, who: &Who, holder: &Holder, t: Moment) -> bool
    requires { t ≤ machine.now.clock }
    ensures { result ≡ holds (live_at machine.now t) who.now holder.now }
{
    match who {
        Who::System => matches!(holder, Holder::Everyone),
        Who::Person(person) => person_held(machine, *person, holder, t),
    }
}

/// The privileges of those of these grants that were someone's at a moment.
fn held_of<K: Kept>(
    alloc: Global,
    machine: &Machine<K>,
    who: &Who,
    grants: &[(Privilege, Holder)],
    t: Moment,
) -> Result<Privileges, AllocError>
    requires { t ≤ machine.now.clock }
    ensures { IfOk result (λ list. list ≡ held_of (live_at machine.now t) who.now grants.now) }
{
    let mut list = Privileges::new(alloc);
    for grant in grants {
        if held(machine, who, &grant.1, t) {
            list.push(grant.0)?;
        }
    }
    Ok(list)
}

/// Whether one of these privileges is another, or gives it.
fn any_gives(held: &[Privilege], wanted: Privilege) -> bool
    ensures { result ≡ list_any (λ p. gives p wanted) held.now }
{
    for privilege in held {
        if gives(*privilege, wanted) {
            return true;
        }
    }
    false
}

/// Whether a privilege is of an object's kind, and these give it, or it is root.
fn fits(object: &Object, root: bool, held: &[Privilege], privilege: Privilege) -> bool
    ensures { result ≡ fits object.now root held.now privilege }
{
    object.is_of(privilege_kind(privilege)) && (root || any_gives(held, privilege))
}

/// The privileges of an object's kind that these give, or all where it is root.
fn fitting(
    alloc: Global,
    object: &Object,
    root: bool,
    held: &[Privilege],
) -> Result<Privileges, AllocError>
    ensures { IfOk result (λ list. list ≡ filter (fits object.now root held.now) all_privileges) }
{
    let mut list = Privileges::new(alloc);
    for privilege in all_privileges() {
        if fits(object, root, held, *privilege) {
            list.push(*privilege)?;
        }
    }
    Ok(list)
}

/// What someone could do by the grants on an object at a moment, at which both stood.
fn powers_on<K: Kept>(
    alloc: Global,
    machine: &Machine<K>,
    who: &Who,
    object: &Object,
    t: Moment,
) -> Result<Privileges, AllocError>
    requires { t ≤ machine.now.clock }
    ensures { IfOk result (λ list. list
        ≡ filter (may_on (live_at machine.now t) ((past_at machine.now).facts t) who.now object.now)
        all_privileges) }
{
    let grants = machine.grants_at(*object, t)?;
    let held = held_of(alloc, machine, who, &grants, t)?;
    let root = was_root(machine, who, t);
    fitting(alloc, object, root, held.list())
}

/// What someone could do with an object at a moment; nothing where either didn't stand then. It
/// costs what the past has of the object.
pub fn powers_at<K: Kept>(
    alloc: Global,
    machine: &Machine<K>,
    facts: &Facts,
    who: &Who,
    object: &Object,
    t: Moment,
) -> Result<Privileges, AllocError>
    requires { t ≤ machine.now.clock }
    ensures { IfOk result (λ list. list
        ≡ powers_at (past_at machine.now) facts.now t who.now object.now) }
{
    if both_stood(machine, who, object, t) {
        let judged = judged(facts, object);
        return powers_on(alloc, machine, who, &judged, t);
    }
    Ok(Privileges::new(alloc))
}
