// The attributes that are assigned to an owner, as the caller is told them.
ghost use Rattle.std.specs.Prelude.{◌≡◌, ◌≤◌, IfOk};
ghost use Rattle.reg_facts.specs.Attributes.{assigns_on};
ghost use Rattle.reg_terms.specs.declared.kinds.Object.TheVariants as object;
ghost use Rattle.reg_view.specs.Answers.{attributes_of, attributes_of_object, attributes_told};
ghost use Rattle.reg_view.specs.Answers.{owner_told};
ghost use Rattle.reg_view.specs.Past.{past_at};
ghost use Rattle.reg_view.specs.Texts.{assign_shown};
ghost use Rattle.reg_view.specs.View.{assigns_shown, owned, reads_attribute};

use crate::Answer;
use crate::finding::{is_entity_text, object_found};
use crate::refusing::denied;
use crate::texts::object_name;
use crate::timing::{not_later, unfit};
use reg_base::{AttrId, GroupId, Moment, Privilege, Text};
use reg_effect::Kept;
use reg_facts::{AssignRow, Facts, Object, Refusal};
use reg_machine::Machine;
use reg_priv::{Who, may};
use reg_terms::{AssignShown, AssignsShown};
use std::alloc::{AllocError, Global};

/// Whether the caller may read the assignments of an attribute: by attrRead now on the definition
/// of which it was made.
fn reads_attribute<K: Kept>(
    machine: &Machine<K>,
    facts: &Facts,
    kept: &K,
    who: &Who,
    attribute: AttrId,
) -> bool
    ensures { result ≡ reads_attribute (past_at machine.now)
        (K.held kept.now) facts.now who.now attribute }
{
    match machine.def_of(attribute) {
        Some(id) => may(facts, kept, who, &Object::Def(id), Privilege::AttrRead),
        None => false,
    }
}

/// An assignment, by the name that its attribute has or had last.
fn assign_shown<K: Kept>(
    alloc: Global,
    machine: &Machine<K>,
    row: AssignRow,
) -> Result<AssignShown, AllocError>
    ensures { IfOk result (λ shown. shown ≡ assign_shown (past_at machine.now) row) }
{
    let AssignRow {
        id,
        attribute,
        owner: _,
        values,
    } = row;
    let attribute = machine.last_name(alloc, Object::Attr(attribute))?;
    Ok(AssignShown {
        attribute,
        id,
        values,
    })
}

/// Of some assignments those that the caller may read.
fn assigns_shown<K: Kept>(
    alloc: Global,
    machine: &Machine<K>,
    facts: &Facts,
    kept: &K,
    who: &Who,
    rows: Vec<AssignRow>,
) -> Result<AssignsShown, AllocError>
    ensures { IfOk result (λ shown. shown
        ≡ assigns_shown (past_at machine.now) (K.held kept.now) facts.now who.now rows.items) }
{
    let mut shown = AssignsShown::new(alloc);
    for row in rows {
        if reads_attribute(machine, facts, kept, who, row.attribute) {
            let row = assign_shown(alloc, machine, row)?;
            shown.push(row)?;
        }
    }
    Ok(shown)
}

/// Of the assignments to an owner those that the caller may read. They cost what is assigned to the
/// owner, and not what all assignments are.
fn assigns_now<K: Kept>(
    alloc: Global,
    machine: &Machine<K>,
    facts: &Facts,
    kept: &K,
    who: &Who,
    owner: &Object,
) -> Result<AssignsShown, AllocError>
    ensures { IfOk result (λ shown. shown
        ≡ assigns_shown (past_at machine.now) (K.held kept.now) facts.now who.now
        (assigns_on owner.now facts.now.assigns)) }
{
    let rows = facts.assigns_on(alloc, owner)?;
    assigns_shown(alloc, machine, facts, kept, who, rows)
}

/// Of the assignments to an owner at a moment those that the caller may read now. They cost what
/// was ever assigned to the owner.
fn assigns_then<K: Kept>(
    alloc: Global,
    machine: &Machine<K>,
    facts: &Facts,
    kept: &K,
    who: &Who,
    owner: &Object,
    at: Moment,
) -> Result<AssignsShown, AllocError>
    requires { at ≤ machine.now.clock }
    ensures { IfOk result (λ shown. shown
        ≡ owned (past_at machine.now) (K.held kept.now) facts.now who.now at owner.now) }
{
    let rows = machine.assigns_at(*owner, at)?;
    assigns_shown(alloc, machine, facts, kept, who, rows)
}

/// The attributes of an owner, now or at a moment, of those that the caller may read now.
fn attributes_told<K: Kept>(
    alloc: Global,
    machine: &Machine<K>,
    facts: &Facts,
    kept: &K,
    who: &Who,
    owner: &Object,
    at: Option<Moment>,
) -> Result<Result<Answer, Refusal>, AllocError>
    ensures { IfOk result (λ r. r
        ≡ attributes_told (past_at machine.now)
        (K.held kept.now) facts.now machine.now.clock who.now owner.now at) }
{
    let Some(asked) = at else {
        let assignments = assigns_now(alloc, machine, facts, kept, who, owner)?;
        return Ok(Ok(Answer::Attributes { assignments }));
    };
    if let Err(refusal) = not_later(machine.clock(), asked) {
        return Ok(Err(refusal));
    }
    let assignments = assigns_then(alloc, machine, facts, kept, who, owner, asked)?;
    Ok(Ok(Answer::Attributes { assignments }))
}

/// The attributes of a folder or a group, if the caller has a privilege on it.
fn owner_told<K: Kept>(
    alloc: Global,
    machine: &Machine<K>,
    facts: &Facts,
    kept: &K,
    who: &Who,
    owner: &Object,
    wanted: Privilege,
    at: Option<Moment>,
) -> Result<Result<Answer, Refusal>, AllocError>
    ensures { IfOk result (λ r. r
        ≡ owner_told (past_at machine.now)
        (K.held kept.now) facts.now machine.now.clock who.now owner.now wanted at) }
{
    if !may(facts, kept, who, owner, wanted) {
        let name = object_name(alloc, facts, owner)?;
        return Ok(Err(denied(alloc, name.as_str(), wanted)?));
    }
    attributes_told(alloc, machine, facts, kept, who, owner, at)
}

/// The attributes of a group, which is an owner by its name and not as an entity.
fn group_told<K: Kept>(
    alloc: Global,
    machine: &Machine<K>,
    facts: &Facts,
    kept: &K,
    who: &Who,
    text: &Text,
    group: GroupId,
    at: Option<Moment>,
) -> Result<Result<Answer, Refusal>, AllocError>
    ensures { IfOk result (λ r. r
        ≡ attributes_of_object (past_at machine.now)
        (K.held kept.now) facts.now machine.now.clock who.now text.now (object.Group group) at) }
{
    if is_entity_text(text) {
        return unfit(alloc, "object", machine.clock(), at);
    }
    let owner = Object::Group(group);
    let wanted = Privilege::GroupAttrRead;
    owner_told(alloc, machine, facts, kept, who, &owner, wanted, at)
}

/// The attributes of an object that this text names; a definition and an attribute own none.
fn attributes_of_object<K: Kept>(
    alloc: Global,
    machine: &Machine<K>,
    facts: &Facts,
    kept: &K,
    who: &Who,
    text: &Text,
    object: &Object,
    at: Option<Moment>,
) -> Result<Result<Answer, Refusal>, AllocError>
    ensures { IfOk result (λ r. r
        ≡ attributes_of_object (past_at machine.now)
        (K.held kept.now) facts.now machine.now.clock who.now text.now object.now at) }
{
    match object {
        Object::Folder(_) => {
            let wanted = Privilege::StemAttrRead;
            owner_told(alloc, machine, facts, kept, who, object, wanted, at)
        }
        Object::Group(id) => group_told(alloc, machine, facts, kept, who, text, *id, at),
        Object::Def(_) | Object::Attr(_) => unfit(alloc, "object", machine.clock(), at),
        Object::Subject(_) => attributes_told(alloc, machine, facts, kept, who, object, at),
    }
}

/// The attributes of what this text names, now or at a moment: of a folder or a group by its name,
/// if the caller may read them now, or of a person.
pub fn attributes_of<K: Kept>(
    alloc: Global,
    machine: &Machine<K>,
    facts: &Facts,
    kept: &K,
    who: &Who,
    text: &Text,
    at: Option<Moment>,
) -> Result<Result<Answer, Refusal>, AllocError>
    ensures { IfOk result (λ r. r
        ≡ attributes_of (past_at machine.now)
        (K.held kept.now) facts.now machine.now.clock who.now text.now at) }
{
    match object_found(alloc, facts, kept, who, text)? {
        Ok(Some(object)) => {
            attributes_of_object(alloc, machine, facts, kept, who, text, &object, at)
        }
        Ok(None) => unfit(alloc, "object", machine.clock(), at),
        Err(refusal) => Ok(Err(refusal)),
    }
}
