// What is answered of a group.
ghost use Rattle.std.specs.Prelude.{◌≡◌, ◌≤◌, IfOk};
ghost use Rattle.reg_facts.specs.Members.{texts_where};
ghost use Rattle.reg_effect.specs.Member.{member};
ghost use Rattle.reg_terms.specs.declared.query.Answer.TheVariants as answer;
ghost use Rattle.reg_view.specs.Answers.{display_of, group_of, members_at, members_of};
ghost use Rattle.reg_view.specs.Answers.{rows_of_group};
ghost use Rattle.reg_view.specs.Past.{past_at};

use crate::Answer;
use crate::rows::rows_answer;
use crate::seeing::{group_past, group_read, group_seen};
use crate::timing::not_later;
use reg_base::{GroupId, Moment, Name, Text};
use reg_effect::Kept;
use reg_facts::{Facts, Refusal};
use reg_machine::Machine;
use reg_priv::Who;
use std::alloc::{AllocError, Global};

fn display_of(alloc: Global, facts: &Facts, id: GroupId) -> Result<Text, AllocError>
    ensures { IfOk result (λ display. display ≡ display_of id facts.now.groups) }
{
    match facts.group(id) {
        Some(row) => row.display.copy(alloc),
        None => Text::new(alloc, ""),
    }
}

/// The display text of the group of this name, if the caller sees it.
pub fn group_of<K: Kept>(
    alloc: Global,
    facts: &Facts,
    kept: &K,
    who: &Who,
    group: &Name,
) -> Result<Result<Answer, Refusal>, AllocError>
    ensures { IfOk result (λ r. r ≡ group_of (K.held kept.now) facts.now who.now group.now) }
{
    let id = match group_seen(alloc, facts, kept, who, group)? {
        Ok(id) => id,
        Err(refusal) => return Ok(Err(refusal)),
    };
    let display = display_of(alloc, facts, id)?;
    let name = group.copy(alloc)?;
    Ok(Ok(Answer::GroupGet { display, name }))
}

/// The members of a group, whose ids come from the effective memberships. They cost what they are,
/// and not what all subjects are.
#[tactic(auto, using(crate::proofs::Members::texts_same))]
fn members_answer<K: Kept>(
    alloc: Global,
    facts: &Facts,
    kept: &K,
    id: GroupId,
) -> Result<Answer, AllocError>
    ensures { IfOk result (λ r. r
        ≡ answer.Members (texts_where (member (K.held kept.now) id) facts.now.subjects)) }
{
    let ids = kept.members(id)?;
    let members = facts.texts_of(alloc, &ids)?;
    Ok(Answer::Members { members })
}

/// Those who were members of a group at a moment. They cost what the past has of the group.
fn members_then<K: Kept>(
    alloc: Global,
    machine: &Machine<K>,
    facts: &Facts,
    id: GroupId,
    at: Moment,
) -> Result<Answer, AllocError>
    requires { at ≤ machine.now.clock }
    ensures { IfOk result (λ r. r
        ≡ answer.Members (texts_where ((past_at machine.now).was at id) facts.now.subjects)) }
{
    let earlier = machine.members_at(id, at)?;
    let members = facts.texts_of(alloc, &earlier)?;
    Ok(Answer::Members { members })
}

/// The members of a group, now or at a moment.
fn members_at<K: Kept>(
    alloc: Global,
    machine: &Machine<K>,
    facts: &Facts,
    kept: &K,
    id: GroupId,
    at: Option<Moment>,
) -> Result<Result<Answer, Refusal>, AllocError>
    ensures { IfOk result (λ r. r
        ≡ members_at (past_at machine.now) (K.held kept.now) facts.now machine.now.clock id at) }
{
    let Some(asked) = at else {
        let answer = members_answer(alloc, facts, kept, id)?;
        return Ok(Ok(answer));
    };
    if let Err(refusal) = not_later(machine.clock(), asked) {
        return Ok(Err(refusal));
    }
    let answer = members_then(alloc, machine, facts, id, asked)?;
    Ok(Ok(answer))
}

/// The members of the group of this name, now or at a moment, if the caller may read it now.
pub fn members_of<K: Kept>(
    alloc: Global,
    machine: &Machine<K>,
    facts: &Facts,
    kept: &K,
    who: &Who,
    group: &Name,
    at: Option<Moment>,
) -> Result<Result<Answer, Refusal>, AllocError>
    ensures { IfOk result (λ r. r
        ≡ members_of (past_at machine.now)
        (K.held kept.now) facts.now machine.now.clock who.now group.now at) }
{
    let id = match group_past(alloc, machine, facts, kept, who, group)? {
        Ok(id) => id,
        Err(refusal) => return Ok(Err(refusal)),
    };
    members_at(alloc, machine, facts, kept, id, at)
}

/// The immediate memberships and the factors of the group of this name, if the caller may read it.
pub fn rows_of_group<K: Kept>(
    alloc: Global,
    facts: &Facts,
    kept: &K,
    who: &Who,
    group: &Name,
) -> Result<Result<Answer, Refusal>, AllocError>
    ensures { IfOk result (λ r. r ≡ rows_of_group (K.held kept.now) facts.now who.now group.now) }
{
    let id = match group_read(alloc, facts, kept, who, group)? {
        Ok(id) => id,
        Err(refusal) => return Ok(Err(refusal)),
    };
    let answer = rows_answer(alloc, facts, id)?;
    Ok(Ok(answer))
}
