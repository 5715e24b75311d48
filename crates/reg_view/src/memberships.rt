// The groups of a person.
ghost use Rattle.std.specs.Prelude.{◌≡◌, ◌≤◌, IfOk};
ghost use Rattle.reg_effect.specs.Member.{member};
ghost use Rattle.reg_view.specs.Answers.{groups_at, groups_of, groups_of_person, groups_where};
ghost use Rattle.reg_view.specs.Answers.{readable_names};
ghost use Rattle.reg_view.specs.Past.{past_at};

use crate::Answer;
use crate::refusing::not_found;
use crate::seeing::group_seen;
use crate::texts::{has_group, object_name};
use crate::timing::{not_later, unfit};
use reg_base::{Entity, GroupId, Moment, Privilege, SubjectId, Text};
use reg_effect::Kept;
use reg_facts::{Facts, Object, Refusal, Texts};
use reg_machine::Machine;
use reg_priv::{Who, may};
use std::alloc::{AllocError, Global};

/// The names of those of these groups that stand and that the caller may read.
fn readable_names<K: Kept>(
    alloc: Global,
    facts: &Facts,
    kept: &K,
    who: &Who,
    ids: &[GroupId],
) -> Result<Texts, AllocError>
    ensures { IfOk result (λ names. names
        ≡ readable_names (K.held kept.now) facts.now who.now ids.now) }
{
    let mut names = Texts::new(alloc);
    for id in ids {
        let object = Object::Group(*id);
        if has_group(facts, *id) && may(facts, kept, who, &object, Privilege::Read) {
            let name = object_name(alloc, facts, &object)?;
            names.push(name.as_str())?;
        }
    }
    Ok(names)
}

/// Of the groups of which a person is a member those that the caller may read. They cost what the
/// person's groups are, and not what all groups are.
#[tactic(auto, using(crate::proofs::Grouped::names_of_ids))]
fn groups_now<K: Kept>(
    alloc: Global,
    facts: &Facts,
    kept: &K,
    who: &Who,
    subject: SubjectId,
) -> Result<Answer, AllocError>
    ensures { IfOk result (λ answer. answer
        ≡ groups_where (λ g. member (K.held kept.now) g subject)
        (K.held kept.now) facts.now who.now) }
{
    facts.law_sound();
    let ids = kept.groups_of(subject)?;
    let groups = readable_names(alloc, facts, kept, who, &ids)?;
    Ok(Answer::Groups { groups })
}

/// Of the groups of which a person was a member at a moment those that stand and that the caller
/// may read now. They cost what the past has of the person.
fn groups_then<K: Kept>(
    alloc: Global,
    machine: &Machine<K>,
    facts: &Facts,
    kept: &K,
    who: &Who,
    subject: SubjectId,
    at: Moment,
) -> Result<Answer, AllocError>
    requires { at ≤ machine.now.clock }
    ensures { IfOk result (λ answer. answer
        ≡ groups_where (λ g. (past_at machine.now).was at g subject)
        (K.held kept.now) facts.now who.now) }
{
    facts.law_sound();
    let earlier = machine.groups_at(subject, at)?;
    let groups = readable_names(alloc, facts, kept, who, &earlier)?;
    Ok(Answer::Groups { groups })
}

/// The groups of a person, now or at a moment.
fn groups_at<K: Kept>(
    alloc: Global,
    machine: &Machine<K>,
    facts: &Facts,
    kept: &K,
    who: &Who,
    subject: SubjectId,
    at: Option<Moment>,
) -> Result<Result<Answer, Refusal>, AllocError>
    ensures { IfOk result (λ r. r
        ≡ groups_at (past_at machine.now)
        (K.held kept.now) facts.now machine.now.clock who.now subject at) }
{
    let Some(asked) = at else {
        let answer = groups_now(alloc, facts, kept, who, subject)?;
        return Ok(Ok(answer));
    };
    if let Err(refusal) = not_later(machine.clock(), asked) {
        return Ok(Err(refusal));
    }
    let answer = groups_then(alloc, machine, facts, kept, who, subject, asked)?;
    Ok(Ok(answer))
}

fn groups_of_person<K: Kept>(
    alloc: Global,
    machine: &Machine<K>,
    facts: &Facts,
    kept: &K,
    who: &Who,
    text: &Text,
    at: Option<Moment>,
) -> Result<Result<Answer, Refusal>, AllocError>
    ensures { IfOk result (λ r. r
        ≡ groups_of_person (past_at machine.now)
        (K.held kept.now) facts.now machine.now.clock who.now text.now at) }
{
    let Some(id) = facts.subject_id(text.as_str()) else {
        return Ok(Err(not_found(alloc, text.as_str())?));
    };
    groups_at(alloc, machine, facts, kept, who, id, at)
}

/// The groups of which this entity is a member, now or at a moment, of those that the caller may
/// read now.
pub fn groups_of<K: Kept>(
    alloc: Global,
    machine: &Machine<K>,
    facts: &Facts,
    kept: &K,
    who: &Who,
    subject: &Entity,
    at: Option<Moment>,
) -> Result<Result<Answer, Refusal>, AllocError>
    ensures { IfOk result (λ r. r
        ≡ groups_of (past_at machine.now)
        (K.held kept.now) facts.now machine.now.clock who.now subject.now at) }
{
    match subject {
        Entity::Person(text) => groups_of_person(alloc, machine, facts, kept, who, text, at),
        Entity::Group(name) => match group_seen(alloc, facts, kept, who, name)? {
            Ok(_) => unfit(alloc, "subject", machine.clock(), at),
            Err(refusal) => Ok(Err(refusal)),
        },
        Entity::System | Entity::Everyone => unfit(alloc, "subject", machine.clock(), at),
    }
}
