// The line of why a person is, or isn't, a member of a group.
ghost use Rattle.std.specs.Prelude.{◌≡◌, ◌++◌, IfOk, OnOk};
ghost use Rattle.json.specs.Tree.{json_tokens};
ghost use Rattle.serde_json.specs.Data.{array, string};
ghost use Rattle.serde_json.specs.Written.{outline};
ghost use Rattle.reg_terms.specs.declared.kinds.Member.TheVariants.{Group};
ghost use Rattle.reg_report.specs.Lines.{line};
ghost use Rattle.reg_report.specs.WhyLines.{composite_data, factors_data, group_text, kind_word};
ghost use Rattle.reg_report.specs.WhyLines.{member_text, number_of, row_data, row_items};
ghost use Rattle.reg_report.specs.WhyLines.{statement_data, statement_items, way_items, ways_of};
ghost use Rattle.reg_report.specs.WhyLines.{why_data};

use crate::line::{ended, put_moment, put_ok};
use crate::permission::text_of;
use json::Writer;
use reg_base::{GroupId, Text};
use reg_facts::{Facts, Member, MemberRow, Object, SetOp};
use reg_names::name_of;
use reg_reasons::{Grounds, Statement, Way};
use std::alloc::{AllocError, Global};

/// The name of a group; one that stood nowhere would be named as the root is.
fn group_name(alloc: Global, facts: &Facts, group: GroupId) -> Result<Text, AllocError>
    ensures { IfOk result (λ text. text ≡ group_text facts.now group) }
{
    let object = Object::Group(group);
    match facts.place_of(&object) {
        Some(_) => name_of(alloc, facts, &object),
        None => Text::new(alloc, ":"),
    }
}

fn put_group(
    alloc: Global,
    out: &mut Writer,
    facts: &Facts,
    group: GroupId,
) -> Result<(), AllocError>
    ensures ok { OnOk result (out.new.tokens
        ≡ out.old.tokens ++ json_tokens (outline (string (group_text facts.now group)))) }
    ensures before { out.new.before ≡ out.old.before }
{
    let name = group_name(alloc, facts, group)?;
    out.string(name.as_str())
}

/// The text of a group as a member.
fn nested_text(alloc: Global, facts: &Facts, group: GroupId) -> Result<Text, AllocError>
    ensures { IfOk result (λ text. text ≡ member_text facts.now (Group group)) }
{
    let name = group_name(alloc, facts, group)?;
    let mut text = String::from_str(alloc, "g:gsa/")?;
    text.push_str(name.as_str())?;
    Text::new(alloc, text.as_str())
}

fn put_nested(
    alloc: Global,
    out: &mut Writer,
    facts: &Facts,
    group: GroupId,
) -> Result<(), AllocError>
    ensures ok { OnOk result (out.new.tokens ≡ out.old.tokens
        ++ json_tokens (outline (string (member_text facts.now (Group group))))) }
    ensures before { out.new.before ≡ out.old.before }
{
    let text = nested_text(alloc, facts, group)?;
    out.string(text.as_str())
}

fn put_member(
    alloc: Global,
    out: &mut Writer,
    facts: &Facts,
    member: &Member,
) -> Result<(), AllocError>
    ensures ok { OnOk result (out.new.tokens
        ≡ out.old.tokens ++ json_tokens (outline (string (member_text facts.now member.now)))) }
    ensures before { out.new.before ≡ out.old.before }
{
    match member {
        Member::Person(id) => out.string(text_of(facts, *id)),
        Member::Group(id) => put_nested(alloc, out, facts, *id),
    }
}

#[tactic(auto, unfolding(crate::specs::WhyLines::row_data))]
fn put_row(
    alloc: Global,
    out: &mut Writer,
    facts: &Facts,
    row: &MemberRow,
) -> Result<(), AllocError>
    ensures ok { OnOk result (out.new.tokens
        ≡ out.old.tokens ++ json_tokens (outline (row_data facts.now row.now))) }
    ensures before { out.new.before ≡ out.old.before }
{
    out.begin_object()?;
    out.key("from")?;
    put_moment(out, Some(row.from))?;
    out.key("group")?;
    put_group(alloc, out, facts, row.group)?;
    out.key("member")?;
    put_member(alloc, out, facts, &row.member)?;
    out.key("until")?;
    put_moment(out, row.until)?;
    out.end_object()
}

fn put_rows(
    alloc: Global,
    out: &mut Writer,
    facts: &Facts,
    rows: &[MemberRow],
) -> Result<(), AllocError>
    ensures ok { OnOk result (out.new.tokens
        ≡ out.old.tokens ++ json_tokens (outline (array (row_items facts.now rows.now)))) }
    ensures before { out.new.before ≡ out.old.before }
{
    out.begin_array()?;
    for row in rows {
        put_row(alloc, out, facts, row)?;
    }
    out.end_array()
}

fn put_ways(alloc: Global, out: &mut Writer, facts: &Facts, ways: &[Way]) -> Result<(), AllocError>
    ensures ok { OnOk result (out.new.tokens
        ≡ out.old.tokens ++ json_tokens (outline (array (way_items facts.now ways.now)))) }
    ensures before { out.new.before ≡ out.old.before }
{
    out.begin_array()?;
    for way in ways {
        put_rows(alloc, out, facts, way.rows())?;
    }
    out.end_array()
}

fn kind_word(op: SetOp) -> &'static str
    ensures { result.now ≡ kind_word op }
{
    match op {
        SetOp::Intersection => "intersection",
        SetOp::Complement => "complement",
        SetOp::Union => "union",
    }
}

#[tactic(auto, unfolding(crate::specs::WhyLines::factors_data))]
fn put_factors(
    alloc: Global,
    out: &mut Writer,
    facts: &Facts,
    op: SetOp,
    left: GroupId,
    right: GroupId,
) -> Result<(), AllocError>
    ensures ok { OnOk result (out.new.tokens
        ≡ out.old.tokens ++ json_tokens (outline (factors_data facts.now op left right))) }
    ensures before { out.new.before ≡ out.old.before }
{
    out.begin_object()?;
    out.key("kind")?;
    out.string(kind_word(op))?;
    out.key("left")?;
    put_group(alloc, out, facts, left)?;
    out.key("right")?;
    put_group(alloc, out, facts, right)?;
    out.end_object()
}

fn put_composite(
    alloc: Global,
    out: &mut Writer,
    facts: &Facts,
    grounds: &Grounds,
) -> Result<(), AllocError>
    ensures ok { OnOk result (out.new.tokens
        ≡ out.old.tokens ++ json_tokens (outline (composite_data facts.now grounds.now))) }
    ensures before { out.new.before ≡ out.old.before }
{
    match grounds {
        Grounds::Rows { .. } => out.null(),
        Grounds::Factors { op, left, right } => {
            put_factors(alloc, out, facts, *op, *left, *right)
        }
    }
}

/// How many ways there are by rows.
fn number_of(grounds: &Grounds) -> u64
    ensures { result ≡ number_of grounds.now }
{
    match grounds {
        Grounds::Rows { number, .. } => *number,
        Grounds::Factors { .. } => 0,
    }
}

/// The ways that are listed.
fn ways_of(grounds: &Grounds) -> &[Way]
    ensures { result.now ≡ ways_of grounds.now }
{
    match grounds {
        Grounds::Rows { ways, .. } => ways,
        Grounds::Factors { .. } => &[],
    }
}

#[tactic(auto, unfolding(crate::specs::WhyLines::statement_data))]
fn put_statement(
    alloc: Global,
    out: &mut Writer,
    facts: &Facts,
    statement: &Statement,
) -> Result<(), AllocError>
    ensures ok { OnOk result (out.new.tokens
        ≡ out.old.tokens ++ json_tokens (outline (statement_data facts.now statement.now))) }
    ensures before { out.new.before ≡ out.old.before }
{
    out.begin_object()?;
    out.key("composite")?;
    put_composite(alloc, out, facts, &statement.grounds)?;
    out.key("group")?;
    put_group(alloc, out, facts, statement.group)?;
    out.key("member")?;
    out.boolean(statement.has)?;
    out.key("number")?;
    out.u64(number_of(&statement.grounds))?;
    out.key("ways")?;
    put_ways(alloc, out, facts, ways_of(&statement.grounds))?;
    out.end_object()
}

fn put_statements(
    alloc: Global,
    out: &mut Writer,
    facts: &Facts,
    statements: &[Statement],
) -> Result<(), AllocError>
    ensures ok { OnOk result (out.new.tokens ≡ out.old.tokens
        ++ json_tokens (outline (array (statement_items facts.now statements.now)))) }
    ensures before { out.new.before ≡ out.old.before }
{
    out.begin_array()?;
    for statement in statements {
        put_statement(alloc, out, facts, statement)?;
    }
    out.end_array()
}

#[tactic(auto, unfolding(crate::specs::WhyLines::why_data))]
fn put_why(
    alloc: Global,
    out: &mut Writer,
    facts: &Facts,
    has: bool,
    statements: &[Statement],
) -> Result<(), AllocError>
    ensures ok { OnOk result (out.new.tokens
        ≡ out.old.tokens ++ json_tokens (outline (why_data facts.now has statements.now))) }
    ensures before { out.new.before ≡ out.old.before }
{
    out.begin_object()?;
    out.key("explained")?;
    put_statements(alloc, out, facts, statements)?;
    out.key("member")?;
    out.boolean(has)?;
    put_ok(out)?;
    out.end_object()
}

/// The line of whether a person is a member of a group, and of the statements that say why. The
/// only error is out of memory. A name or a text is looked up for each group and each member.
#[tactic(auto, using(crate::proofs::Printing::printed))]
pub fn why_line(
    alloc: Global,
    facts: &Facts,
    has: bool,
    statements: &[Statement],
) -> Result<Vec<u8>, AllocError>
    ensures { IfOk result (λ bytes. bytes.items
        ≡ line (why_data facts.now has statements.now)) }
{
    let mut out = Writer::new(Vec::new(alloc));
    put_why(alloc, &mut out, facts, has, statements)?;
    ended(out)
}
