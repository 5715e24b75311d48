// When persons were members of a group.
ghost use Rattle.std.specs.Prelude.{◌≡◌, IfOk, map};
ghost use Rattle.reg_terms.specs.declared.kinds.Member.TheVariants.{Person};
ghost use Rattle.reg_terms.specs.declared.query.Answer.TheVariants as answer;
ghost use Rattle.reg_machine.specs.History as given;
ghost use Rattle.reg_view.specs.Answers.{history_told, row_span};
ghost use Rattle.reg_view.specs.Past.{history_of, past_at};
ghost use Rattle.reg_view.specs.Texts.{member_text};

use crate::Answer;
use crate::seeing::group_past;
use reg_base::{GroupId, Moment, Name, SubjectId, Text};
use reg_effect::Kept;
use reg_facts::Facts;
use reg_machine::Machine;
use reg_priv::Who;
use reg_terms::{Refusal, SpanShown, SpansShown};
use std::alloc::{AllocError, Global};

/// The text of a person.
fn person_text(alloc: Global, facts: &Facts, id: SubjectId) -> Result<Text, AllocError>
    ensures { IfOk result (λ text. text ≡ member_text (Person id) facts.now) }
{
    match facts.subject(id) {
        Some(row) => row.text.copy(alloc),
        None => Text::new(alloc, ""),
    }
}

/// Intervals of persons, with their texts.
fn spans_shown(
    alloc: Global,
    facts: &Facts,
    rows: &[(SubjectId, Moment, Option<Moment>)],
) -> Result<SpansShown, AllocError>
    ensures { IfOk result (λ shown. shown ≡ map (row_span facts.now) rows.now) }
{
    let mut shown = SpansShown::new(alloc);
    for row in rows {
        let subject = person_text(alloc, facts, row.0)?;
        shown.push(SpanShown {
            from: row.1,
            subject,
            to: row.2,
        })?;
    }
    Ok(shown)
}

/// When each person was a member of a group. It costs what the past has of the group.
fn history_answer<K: Kept>(
    alloc: Global,
    machine: &Machine<K>,
    facts: &Facts,
    id: GroupId,
) -> Result<Answer, AllocError>
    requires { facts.now ≡ given.facts machine.now.history machine.now.clock }
    ensures { IfOk result (λ r. r
        ≡ answer.History (history_of (past_at machine.now) id facts.now.subjects)) }
{
    facts.law_sound();
    machine.law_past();
    let rows = machine.history_of(id)?;
    let history = spans_shown(alloc, facts, &rows)?;
    Ok(Answer::History { history })
}

/// When each person was a member of the group of this name, if the caller may read it now.
pub fn history_told<K: Kept>(
    alloc: Global,
    machine: &Machine<K>,
    facts: &Facts,
    kept: &K,
    who: &Who,
    group: &Name,
) -> Result<Result<Answer, Refusal>, AllocError>
    requires { facts.now ≡ given.facts machine.now.history machine.now.clock }
    ensures { IfOk result (λ r. r
        ≡ history_told (past_at machine.now) (K.held kept.now) facts.now who.now group.now) }
{
    let id = match group_past(alloc, machine, facts, kept, who, group)? {
        Ok(id) => id,
        Err(refusal) => return Ok(Err(refusal)),
    };
    let answer = history_answer(alloc, machine, facts, id)?;
    Ok(Ok(answer))
}
