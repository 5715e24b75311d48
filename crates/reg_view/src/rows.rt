// The immediate memberships of a group, as they are shown.
ghost use Rattle.std.specs.Prelude.{◌≡◌, ◌++◌, true, IfOk, codes, map};
ghost use Rattle.std.specs.List.{AllByRecursion};
ghost use Rattle.reg_facts.specs.Naming.{name_of};
ghost use Rattle.reg_facts.specs.RowOrder.{rows_of};
ghost use Rattle.reg_facts.specs.Sound.{has_group, MemberStands, RowStands};
ghost use Rattle.reg_terms.specs.declared.kinds.Object.TheVariants as object;
ghost use Rattle.reg_terms.specs.declared.rows.MemberRow.{MemberRow};
ghost use Rattle.reg_terms.specs.declared.query.Answer.TheVariants as answer;
ghost use Rattle.reg_view.specs.Texts.{composite_shown, member_text, row_shown};

use crate::{Answer, FactorsShown, RowShown, RowsShown};
use reg_base::{GroupId, Text};
use reg_facts::{Facts, Member, MemberRow, Object};
use reg_names::name_of;
use std::alloc::{AllocError, Global};

/// The name of a group that stands.
#[tactic(auto, using(crate::proofs::Named::group_named))]
fn group_name(alloc: Global, facts: &Facts, id: GroupId) -> Result<Text, AllocError>
    requires { has_group id facts.now.groups ≡ true }
    ensures { IfOk result (λ text. text ≡ name_of (object.Group id) facts.now) }
{
    name_of(alloc, facts, &Object::Group(id))
}

/// The text of a group as a member.
fn group_text(alloc: Global, facts: &Facts, id: GroupId) -> Result<Text, AllocError>
    requires { has_group id facts.now.groups ≡ true }
    ensures { IfOk result (λ text. text ≡ codes "g:gsa/" ++ name_of (object.Group id) facts.now) }
{
    let name = group_name(alloc, facts, id)?;
    let mut text = String::from_str(alloc, "g:gsa/")?;
    text.push_str(name.as_str())?;
    Text::new(alloc, text.as_str())
}

fn member_text(alloc: Global, facts: &Facts, member: &Member) -> Result<Text, AllocError>
    requires { MemberStands facts.now.groups member.now }
    ensures { IfOk result (λ text. text ≡ member_text member.now facts.now) }
{
    match member {
        Member::Person(id) => match facts.subject(*id) {
            Some(row) => row.text.copy(alloc),
            None => Text::new(alloc, ""),
        },
        Member::Group(id) => group_text(alloc, facts, *id),
    }
}

fn rows_shown(alloc: Global, facts: &Facts, rows: &[MemberRow]) -> Result<RowsShown, AllocError>
    requires { AllByRecursion (λ (row : MemberRow). RowStands facts.now.groups row) rows.now }
    ensures { IfOk result (λ shown. shown ≡ map (row_shown facts.now) rows.now) }
{
    let mut shown = RowsShown::new(alloc);
    for row in rows {
        let member = member_text(alloc, facts, &row.member)?;
        shown.push(RowShown {
            from: row.from,
            member,
            until: row.until,
        })?;
    }
    Ok(shown)
}

fn shown_of(alloc: Global, facts: &Facts, group: GroupId) -> Result<RowsShown, AllocError>
    ensures { IfOk result (λ shown. shown
        ≡ map (row_shown facts.now) (rows_of group facts.now.rows)) }
{
    facts.law_sound();
    let rows = facts.rows_of(alloc, group)?;
    rows_shown(alloc, facts, &rows)
}

fn composite_shown(
    alloc: Global,
    facts: &Facts,
    group: GroupId,
) -> Result<Option<FactorsShown>, AllocError>
    ensures { IfOk result (λ shown. shown ≡ composite_shown group facts.now) }
{
    facts.law_sound();
    let Some(row) = facts.composite(group) else {
        return Ok(None);
    };
    let left = group_name(alloc, facts, row.left)?;
    let right = group_name(alloc, facts, row.right)?;
    Ok(Some(FactorsShown {
        kind: row.op,
        left,
        right,
    }))
}

/// The immediate memberships and the factors of a group. They cost what they are, and not what all
/// rows are.
pub fn rows_answer(alloc: Global, facts: &Facts, id: GroupId) -> Result<Answer, AllocError>
    ensures { IfOk result (λ r. r
        ≡ answer.Rows (composite_shown id facts.now)
        (map (row_shown facts.now) (rows_of id facts.now.rows))) }
{
    let composite = composite_shown(alloc, facts, id)?;
    let rows = shown_of(alloc, facts, id)?;
    Ok(Answer::Rows { composite, rows })
}
