// What a rule does.
ghost use Rattle.std.specs.Prelude.{◌≡◌};
ghost use Rattle.reg_rules.specs.Actions.{action_of, days_later, ending, removal};
ghost use Rattle.reg_rules.specs.Live.{row_on};

use reg_base::{GroupId, Moment, RuleId, SubjectId};
use reg_facts::{Facts, Member, MemberRow, RuleForm};

/// What a rule did to a person's immediate membership of a group: took it away, or gave it an end.
#[derive(Clone, Copy)]
pub enum Action {
    Removed {
        rule: RuleId,
        group: GroupId,
        subject: SubjectId,
    },
    Ended {
        rule: RuleId,
        group: GroupId,
        subject: SubjectId,
        until: Moment,
    },
}

/// The person's immediate membership of a group, where it is on at a moment. Takes no memory.
fn row_on(facts: &Facts, at: Moment, group: GroupId, person: SubjectId) -> Option<MemberRow>
    ensures { result ≡ row_on at group person facts.now }
{
    match facts.row(group, &Member::Person(person)) {
        Some(row) if row.from.micros() <= at.micros() => Some(row),
        _ => None,
    }
}

/// The moment so many days later. None exactly past the greatest moment, and for no days.
fn days_later(at: Moment, days: u32) -> Option<Moment>
    ensures { result ≡ days_later at days }
{
    match at.plus_days(days) {
        Some(until) if at.micros() < until.micros() => Some(until),
        _ => None,
    }
}

/// The person's membership of the owner goes, where it is on.
fn removal(
    facts: &Facts,
    at: Moment,
    rule: RuleId,
    owner: GroupId,
    person: SubjectId,
) -> Option<Action>
    ensures { result ≡ removal rule owner person (row_on at owner person facts.now) }
{
    match row_on(facts, at, owner, person) {
        Some(_) => Some(Action::Removed {
            rule,
            group: owner,
            subject: person,
        }),
        None => None,
    }
}

/// The person's membership of the owner gets an end, where it is on and has none.
fn ending(
    facts: &Facts,
    at: Moment,
    rule: RuleId,
    owner: GroupId,
    days: u32,
    person: SubjectId,
) -> Option<Action>
    ensures { result ≡ ending rule owner person (days_later at days)
        (row_on at owner person facts.now) }
{
    let row = row_on(facts, at, owner, person)?;
    if row.until.is_some() {
        return None;
    }
    let until = days_later(at, days)?;
    Some(Action::Ended {
        rule,
        group: owner,
        subject: person,
        until,
    })
}

/// What a rule does at a moment for a person who stopped being a member of a group. Takes no
/// memory.
pub(crate) fn action_of(
    facts: &Facts,
    at: Moment,
    rule: RuleId,
    form: &RuleForm,
    group: GroupId,
    person: SubjectId,
) -> Option<Action>
    ensures { result ≡ action_of at rule form.now group person facts.now }
{
    match form {
        RuleForm::RemoveLost { check, owner } => {
            if check.number() == group.number() {
                removal(facts, at, rule, *owner, person)
            } else {
                None
            }
        }
        RuleForm::EndLost { check, owner, days } => {
            if check.number() == group.number() {
                ending(facts, at, rule, *owner, *days, person)
            } else {
                None
            }
        }
        RuleForm::Veto { .. } | RuleForm::OnCreate { .. } => None,
    }
}
