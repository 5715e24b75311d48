// The grants on an object, as its admin is told them.
ghost use Rattle.std.specs.Prelude.{◌≡◌, ◌≤◌, IfOk, map};
ghost use Rattle.reg_terms.specs.declared.query.Answer.TheVariants as answer;
ghost use Rattle.reg_priv.specs.Holders.{holders};
ghost use Rattle.reg_view.specs.Answers.{all_grants, grants_of, grants_on, grants_told, not_admin};
ghost use Rattle.reg_view.specs.Past.{past_at};
ghost use Rattle.reg_view.specs.Show.{root_denied};
ghost use Rattle.reg_view.specs.Texts.{grant_shown};
ghost use Rattle.reg_view.specs.View.{is_admin};

use crate::Answer;
use crate::finding::object_found;
use crate::refusing::denied;
use crate::texts::{definition_of, holder_text, object_name};
use crate::timing::{not_later, unfit};
use reg_base::{Moment, Privilege, Text};
use reg_effect::Kept;
use reg_facts::{Facts, Holder, Object, Refusal};
use reg_machine::Machine;
use reg_priv::{Who, holders, is_root, may};
use reg_terms::{GrantShown, GrantsShown};
use std::alloc::{AllocError, Global};

/// Whether the caller is the admin of an object: of a subject root is.
pub fn is_admin<K: Kept>(facts: &Facts, kept: &K, who: &Who, object: &Object) -> bool
    ensures { result ≡ is_admin (K.held kept.now) facts.now who.now object.now }
{
    match object {
        Object::Folder(_) => may(facts, kept, who, object, Privilege::StemAdmin),
        Object::Group(_) => may(facts, kept, who, object, Privilege::Admin),
        Object::Def(_) | Object::Attr(_) => may(facts, kept, who, object, Privilege::AttrAdmin),
        Object::Subject(_) => is_root(facts, kept, who),
    }
}

/// Root is wanted.
pub fn root_denied(alloc: Global) -> Result<Refusal, AllocError>
    ensures { IfOk result (λ r. r ≡ root_denied) }
{
    let object = Text::new(alloc, ":")?;
    let privilege = Text::new(alloc, "ROOT")?;
    Ok(Refusal::Denied { object, privilege })
}

/// What is answered to who isn't an object's admin.
pub fn not_admin(alloc: Global, facts: &Facts, object: &Object) -> Result<Refusal, AllocError>
    ensures { IfOk result (λ r. r ≡ not_admin facts.now object.now) }
{
    match object {
        Object::Folder(_) => {
            let name = object_name(alloc, facts, object)?;
            denied(alloc, name.as_str(), Privilege::StemAdmin)
        }
        Object::Group(_) => {
            let name = object_name(alloc, facts, object)?;
            denied(alloc, name.as_str(), Privilege::Admin)
        }
        Object::Def(_) => {
            let name = object_name(alloc, facts, object)?;
            denied(alloc, name.as_str(), Privilege::AttrAdmin)
        }
        Object::Attr(id) => {
            let name = definition_of(alloc, facts, *id)?;
            denied(alloc, name.as_str(), Privilege::AttrAdmin)
        }
        Object::Subject(_) => root_denied(alloc),
    }
}

/// Grants, with the texts of their holders.
fn grants_shown<K: Kept>(
    alloc: Global,
    machine: &Machine<K>,
    facts: &Facts,
    grants: &[(Privilege, Holder)],
) -> Result<GrantsShown, AllocError>
    ensures { IfOk result (λ shown. shown
        ≡ map (grant_shown (past_at machine.now) facts.now) grants.now) }
{
    let mut shown = GrantsShown::new(alloc);
    for grant in grants {
        let holder = holder_text(alloc, machine, facts, &grant.1)?;
        shown.push(GrantShown {
            holder,
            privilege: grant.0,
        })?;
    }
    Ok(shown)
}

/// The grants on an object now, direct and inherited.
fn grants_now<K: Kept>(
    alloc: Global,
    machine: &Machine<K>,
    facts: &Facts,
    object: &Object,
) -> Result<Answer, AllocError>
    ensures { IfOk result (λ r. r
        ≡ answer.Grants (map (grant_shown (past_at machine.now) facts.now)
        (holders object.now facts.now))) }
{
    let found = holders(alloc, facts, object)?;
    let grants = grants_shown(alloc, machine, facts, &found)?;
    Ok(Answer::Grants { grants })
}

/// The grants on an object at a moment, with the present texts of their holders. They cost what the
/// past has of the object.
fn grants_then<K: Kept>(
    alloc: Global,
    machine: &Machine<K>,
    facts: &Facts,
    object: &Object,
    at: Moment,
) -> Result<Answer, AllocError>
    requires { at ≤ machine.now.clock }
    ensures { IfOk result (λ r. r
        ≡ answer.Grants (map (grant_shown (past_at machine.now) facts.now)
        (holders object.now ((past_at machine.now).facts at)))) }
{
    let found = machine.grants_at(*object, at)?;
    let grants = grants_shown(alloc, machine, facts, &found)?;
    Ok(Answer::Grants { grants })
}

/// The grants on an object, now or at a moment.
fn all_grants<K: Kept>(
    alloc: Global,
    machine: &Machine<K>,
    facts: &Facts,
    object: &Object,
    at: Option<Moment>,
) -> Result<Result<Answer, Refusal>, AllocError>
    ensures { IfOk result (λ r. r
        ≡ all_grants (past_at machine.now) facts.now machine.now.clock object.now at) }
{
    let Some(asked) = at else {
        let answer = grants_now(alloc, machine, facts, object)?;
        return Ok(Ok(answer));
    };
    if let Err(refusal) = not_later(machine.clock(), asked) {
        return Ok(Err(refusal));
    }
    let answer = grants_then(alloc, machine, facts, object, asked)?;
    Ok(Ok(answer))
}

/// What the admin of an object is told of its grants; none is written on an attribute or a subject.
fn grants_told<K: Kept>(
    alloc: Global,
    machine: &Machine<K>,
    facts: &Facts,
    object: &Object,
    at: Option<Moment>,
) -> Result<Result<Answer, Refusal>, AllocError>
    ensures { IfOk result (λ r. r
        ≡ grants_told (past_at machine.now) facts.now machine.now.clock object.now at) }
{
    match object {
        Object::Folder(_) | Object::Group(_) | Object::Def(_) => {
            all_grants(alloc, machine, facts, object, at)
        }
        Object::Attr(_) | Object::Subject(_) => unfit(alloc, "object", machine.clock(), at),
    }
}

/// The grants on an object, now or at a moment, if the caller is its admin now.
fn grants_on<K: Kept>(
    alloc: Global,
    machine: &Machine<K>,
    facts: &Facts,
    kept: &K,
    who: &Who,
    found: &Option<Object>,
    at: Option<Moment>,
) -> Result<Result<Answer, Refusal>, AllocError>
    ensures { IfOk result (λ r. r
        ≡ grants_on (past_at machine.now)
        (K.held kept.now) facts.now machine.now.clock who.now found.now at) }
{
    let Some(object) = found else {
        return unfit(alloc, "object", machine.clock(), at);
    };
    if !is_admin(facts, kept, who, object) {
        return Ok(Err(not_admin(alloc, facts, object)?));
    }
    grants_told(alloc, machine, facts, object, at)
}

/// The grants on what this text names, now or at a moment, if the caller is its admin now.
pub fn grants_of<K: Kept>(
    alloc: Global,
    machine: &Machine<K>,
    facts: &Facts,
    kept: &K,
    who: &Who,
    object: &Text,
    at: Option<Moment>,
) -> Result<Result<Answer, Refusal>, AllocError>
    ensures { IfOk result (λ r. r
        ≡ grants_of (past_at machine.now)
        (K.held kept.now) facts.now machine.now.clock who.now object.now at) }
{
    let found = match object_found(alloc, facts, kept, who, object)? {
        Ok(found) => found,
        Err(refusal) => return Ok(Err(refusal)),
    };
    grants_on(alloc, machine, facts, kept, who, &found, at)
}
