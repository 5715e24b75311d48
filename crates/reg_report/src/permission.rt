// What is printed of permissions.
ghost use Rattle.std.specs.Prelude.{◌≡◌, true, IfOk};
ghost use Rattle.reg_facts.specs.Rows.{subject_row};
ghost use Rattle.reg_machine.specs.History.{now_facts};
ghost use Rattle.reg_access.specs.Grounds.{is_resource};
ghost use Rattle.reg_access.specs.Sayings.{is_action};
ghost use Rattle.reg_report.specs.Permissions.{PermitTold, PermittedTold, ground_line, texts_of};
ghost use Rattle.reg_report.specs.Permissions.{IsPermittedLine, text_of_row};
ghost use Rattle.reg_report.specs.Printed.{Tells};

use crate::asked::{Unreported, permit_asked, permitted_asked};
use crate::line::{permit_line, permitted_line};
use reg_access::{Ground, allowed, permit};
use reg_base::{AttrId, SubjectId, Text};
use reg_effect::Kept;
use reg_facts::Facts;
use reg_machine::Machine;
use reg_terms::Texts;
use std::alloc::{AllocError, Global};

/// The line of what decides.
fn ground_line(alloc: Global, found: Option<Ground>) -> Result<Vec<u8>, AllocError>
    ensures { IfOk result (λ bytes. bytes.items ≡ ground_line found) }
{
    match found {
        Some(ground) => permit_line(alloc, ground.allow, Some(u64::from(ground.assign.number()))),
        None => permit_line(alloc, false, None),
    }
}

/// Prints whether a person may act so on a resource, and which assignment decides it.
pub fn permit_report<K: Kept>(
    alloc: Global,
    machine: &Machine<K>,
    subject: &Text,
    resource: &Text,
    action: &Text,
) -> Result<Vec<u8>, Unreported>
    ensures { Tells result (PermitTold machine.now subject.now resource.now action.now) }
{
    let (person, attribute) = permit_asked(alloc, machine.facts(), subject, resource, action)?;
    let found = permit(alloc, machine, person, attribute, action.bytes())?;
    let line = ground_line(alloc, found)?;
    Ok(line)
}

/// The text of a person; empty where there is no such person.
pub fn text_of(facts: &Facts, person: SubjectId) -> &str
    ensures { result.now ≡ text_of_row (subject_row person facts.now.subjects) }
{
    match facts.subject(person) {
        Some(row) => row.text.as_str(),
        None => "",
    }
}

/// The texts of persons.
fn texts_of(alloc: Global, facts: &Facts, persons: &[SubjectId]) -> Result<Texts, AllocError>
    ensures { IfOk result (λ texts. texts ≡ texts_of persons.now facts.now.subjects) }
{
    let mut texts = Texts::new(alloc);
    for person in persons {
        texts.push(text_of(facts, *person))?;
    }
    Ok(texts)
}

/// The line of the persons who may act so on a resource.
fn persons_line<K: Kept>(
    alloc: Global,
    machine: &Machine<K>,
    resource: AttrId,
    action: &[u8],
) -> Result<Vec<u8>, AllocError>
    requires resource { is_resource resource (now_facts machine.now) ≡ true }
    requires action { is_action action.now ≡ true }
    ensures { IfOk result (λ bytes. IsPermittedLine machine.now resource action.now bytes.items) }
{
    let persons = allowed(alloc, machine, resource, action)?;
    let texts = texts_of(alloc, machine.facts(), &persons)?;
    permitted_line(alloc, &texts)
}

/// Prints who may act so on a resource.
pub fn permitted_report<K: Kept>(
    alloc: Global,
    machine: &Machine<K>,
    resource: &Text,
    action: &Text,
) -> Result<Vec<u8>, Unreported>
    ensures { Tells result (PermittedTold machine.now resource.now action.now) }
{
    let attribute = permitted_asked(alloc, machine.facts(), resource, action)?;
    let line = persons_line(alloc, machine, attribute, action.bytes())?;
    Ok(line)
}
