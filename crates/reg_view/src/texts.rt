// Objects and holders by their texts.
ghost use Rattle.std.specs.Prelude.{◌≡◌, IfOk};
ghost use Rattle.reg_facts.specs.Naming.{name_of};
ghost use Rattle.reg_facts.specs.Sound.{has_group};
ghost use Rattle.reg_view.specs.Answers.{definition_of};
ghost use Rattle.reg_view.specs.Past.{past_at};
ghost use Rattle.reg_view.specs.Texts.{group_called, holder_text, person_called};

use reg_base::{AttrId, GroupId, SubjectId, Text};
use reg_effect::Kept;
use reg_facts::{Facts, Holder, Object};
use reg_machine::Machine;
use reg_names::name_of;
use std::alloc::{AllocError, Global};

/// The name of an object; `:` for the root, and for what has no name.
#[tactic(auto, using(crate::proofs::Unnamed::named_where, crate::proofs::Unnamed::colon_else))]
pub fn object_name(alloc: Global, facts: &Facts, object: &Object) -> Result<Text, AllocError>
    ensures { IfOk result (λ text. text ≡ name_of object.now facts.now) }
{
    match facts.place_of(object) {
        Some(_) => name_of(alloc, facts, object),
        None => Text::new(alloc, ":"),
    }
}

/// The name of the definition of an attribute.
pub fn definition_of(alloc: Global, facts: &Facts, id: AttrId) -> Result<Text, AllocError>
    ensures { IfOk result (λ text. text ≡ definition_of id facts.now) }
{
    match facts.attribute(id) {
        Some(row) => object_name(alloc, facts, &Object::Def(row.definition)),
        None => Text::new(alloc, ":"),
    }
}

/// Whether a group stands.
#[tactic(auto, using(crate::proofs::Grouped::found_stands))]
pub fn has_group(facts: &Facts, id: GroupId) -> bool
    ensures { result ≡ has_group id facts.now.groups }
{
    facts.group(id).is_some()
}

/// The name of a group that stands, and of one that is gone the one that it had last.
fn group_called<K: Kept>(
    alloc: Global,
    machine: &Machine<K>,
    facts: &Facts,
    id: GroupId,
) -> Result<Text, AllocError>
    ensures { IfOk result (λ name. name ≡ group_called (past_at machine.now) facts.now id) }
{
    if has_group(facts, id) {
        return object_name(alloc, facts, &Object::Group(id));
    }
    machine.last_name(alloc, Object::Group(id))
}

/// The text of a person, also of one that is gone.
fn person_called<K: Kept>(
    alloc: Global,
    machine: &Machine<K>,
    facts: &Facts,
    id: SubjectId,
) -> Result<Text, AllocError>
    ensures { IfOk result (λ text. text ≡ person_called (past_at machine.now) facts.now id) }
{
    match facts.subject(id) {
        Some(row) => row.text.copy(alloc),
        None => machine.last_name(alloc, Object::Subject(id)),
    }
}

/// The text of a group as a holder.
fn group_holder<K: Kept>(
    alloc: Global,
    machine: &Machine<K>,
    facts: &Facts,
    id: GroupId,
) -> Result<Text, AllocError>
    ensures { IfOk result (λ text. text
        ≡ holder_text (past_at machine.now) facts.now (Holder.Group id)) }
{
    let name = group_called(alloc, machine, facts, id)?;
    let mut text = String::from_str(alloc, "g:gsa/")?;
    text.push_str(name.as_str())?;
    Text::new(alloc, text.as_str())
}

/// The text of a holder, also of one that is gone.
pub fn holder_text<K: Kept>(
    alloc: Global,
    machine: &Machine<K>,
    facts: &Facts,
    holder: &Holder,
) -> Result<Text, AllocError>
    ensures { IfOk result (λ text. text ≡ holder_text (past_at machine.now) facts.now holder.now) }
{
    match holder {
        Holder::Everyone => Text::new(alloc, "g:isa/GrouperAll"),
        Holder::Person(id) => person_called(alloc, machine, facts, *id),
        Holder::Group(id) => group_holder(alloc, machine, facts, *id),
    }
}
