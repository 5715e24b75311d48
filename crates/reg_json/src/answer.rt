// Answers to queries as JSON.
ghost use Rattle.std.specs.Prelude.{◌≡◌, ◌++◌, ◌∷◌, [], OnOk, codes, decimal, true};
ghost use Rattle.json.specs.Token.{key, boolean, number};
ghost use Rattle.json.specs.Tree.{json_tokens};
ghost use Rattle.serde_json.specs.Data.{array};
ghost use Rattle.serde_json.specs.Written.{outline};
ghost use Rattle.reg_json.specs.Replies.{strings, answer_data};
ghost use Rattle.reg_terms.specs.declared.query.Answer.TheVariants as answer;

use crate::flat::{Scalar, put_object};
use crate::shown::{put_entries, put_factors, put_grants, put_privileges, put_rows, put_spans};
use crate::shown_admin::{put_consumers, put_gones, put_jobs, put_rules};
use crate::shown_attributes::put_assigns;
use json::Writer;
use reg_base::{Name, Text};
use reg_terms::{
    Answer, AssignsShown, ConsumersShown, EntriesShown, FactorsShown, GonesShown, GrantsShown,
    JobsShown, Privileges, RowsShown, RulesShown, SpansShown, Texts,
};
use std::alloc::AllocError;

fn put_strings(out: &mut Writer, texts: &Texts) -> Result<(), AllocError>
    ensures ok { OnOk result (out.new.tokens
        ≡ out.old.tokens ++ json_tokens (outline (array (strings texts.now)))) }
    ensures before { out.new.before ≡ out.old.before }
{
    out.begin_array()?;
    let mut pieces = texts.pieces();
    while let Some(text) = pieces.next() {
        out.string(text)?;
    }
    out.end_array()
}

/// A member that is an array of texts.
fn put_named_strings(out: &mut Writer, name: &str, texts: &Texts) -> Result<(), AllocError>
    ensures ok { OnOk result (out.new.tokens
        ≡ out.old.tokens ++ key name.now ∷ json_tokens (outline (array (strings texts.now)))) }
    ensures before { out.new.before ≡ out.old.before }
{
    out.key(name)?;
    put_strings(out, texts)
}

#[tactic(auto, unfolding(crate::specs::Replies::answer_data))]
fn put_group<'a>(out: &mut Writer, display: &'a Text, name: &'a Name) -> Result<(), AllocError>
    ensures ok { OnOk result (out.new.tokens
        ≡ out.old.tokens ++ json_tokens
        (outline (answer_data (answer.GroupGet display.now name.now)))) }
    ensures before { out.new.before ≡ out.old.before }
{
    let display = ("display", Scalar::Text(display.as_str()));
    let name = ("name", Scalar::Text(name.as_str()));
    put_object(out, &[display, name, ("ok", Scalar::Flag(true))])
}

/// The member that each answer has.
fn put_ok(out: &mut Writer) -> Result<(), AllocError>
    ensures ok { OnOk result (out.new.tokens
        ≡ out.old.tokens ++ key (codes "ok") ∷ (boolean true ∷ [])) }
    ensures before { out.new.before ≡ out.old.before }
{
    out.key("ok")?;
    out.boolean(true)
}

#[tactic(auto, unfolding(crate::specs::Replies::answer_data))]
fn put_listing(
    out: &mut Writer,
    attributes: &Texts,
    definitions: &Texts,
    folders: &Texts,
    groups: &Texts,
) -> Result<(), AllocError>
    ensures ok { OnOk result (out.new.tokens
        ≡ out.old.tokens ++ json_tokens
        (outline (answer_data (answer.FolderList attributes.now definitions.now folders.now
        groups.now)))) }
    ensures before { out.new.before ≡ out.old.before }
{
    out.begin_object()?;
    put_named_strings(out, "attributes", attributes)?;
    put_named_strings(out, "definitions", definitions)?;
    put_named_strings(out, "folders", folders)?;
    put_named_strings(out, "groups", groups)?;
    put_ok(out)?;
    out.end_object()
}

/// Writes the members of a group. The only error is out of memory.
#[tactic(auto, unfolding(crate::specs::Replies::answer_data))]
pub fn put_members(out: &mut Writer, members: &Texts) -> Result<(), AllocError>
    ensures ok { OnOk result (out.new.tokens
        ≡ out.old.tokens ++ json_tokens (outline (answer_data (answer.Members members.now)))) }
    ensures before { out.new.before ≡ out.old.before }
{
    out.begin_object()?;
    put_named_strings(out, "members", members)?;
    put_ok(out)?;
    out.end_object()
}

#[tactic(auto, unfolding(crate::specs::Replies::answer_data))]
fn put_memberships(
    out: &mut Writer,
    composite: &Option<FactorsShown>,
    rows: &RowsShown,
) -> Result<(), AllocError>
    ensures ok { OnOk result (out.new.tokens
        ≡ out.old.tokens ++ json_tokens
        (outline (answer_data (answer.Rows composite.now rows.now)))) }
    ensures before { out.new.before ≡ out.old.before }
{
    out.begin_object()?;
    out.key("composite")?;
    put_factors(out, composite)?;
    put_ok(out)?;
    out.key("rows")?;
    put_rows(out, rows.list())?;
    out.end_object()
}

#[tactic(auto, unfolding(crate::specs::Replies::answer_data))]
fn put_groups(out: &mut Writer, groups: &Texts) -> Result<(), AllocError>
    ensures ok { OnOk result (out.new.tokens
        ≡ out.old.tokens ++ json_tokens (outline (answer_data (answer.Groups groups.now)))) }
    ensures before { out.new.before ≡ out.old.before }
{
    out.begin_object()?;
    put_named_strings(out, "groups", groups)?;
    put_ok(out)?;
    out.end_object()
}

#[tactic(auto, unfolding(crate::specs::Replies::answer_data))]
fn put_granted(out: &mut Writer, grants: &GrantsShown) -> Result<(), AllocError>
    ensures ok { OnOk result (out.new.tokens
        ≡ out.old.tokens ++ json_tokens (outline (answer_data (answer.Grants grants.now)))) }
    ensures before { out.new.before ≡ out.old.before }
{
    out.begin_object()?;
    out.key("grants")?;
    put_grants(out, grants.list())?;
    put_ok(out)?;
    out.end_object()
}

#[tactic(auto, unfolding(crate::specs::Replies::answer_data))]
fn put_may(out: &mut Writer, privileges: &Privileges) -> Result<(), AllocError>
    ensures ok { OnOk result (out.new.tokens
        ≡ out.old.tokens ++ json_tokens (outline (answer_data (answer.May privileges.now)))) }
    ensures before { out.new.before ≡ out.old.before }
{
    out.begin_object()?;
    put_ok(out)?;
    out.key("privileges")?;
    put_privileges(out, privileges.list())?;
    out.end_object()
}

#[tactic(auto, unfolding(crate::specs::Replies::answer_data))]
fn put_assigned(out: &mut Writer, assignments: &AssignsShown) -> Result<(), AllocError>
    ensures ok { OnOk result (out.new.tokens
        ≡ out.old.tokens ++ json_tokens
        (outline (answer_data (answer.Attributes assignments.now)))) }
    ensures before { out.new.before ≡ out.old.before }
{
    out.begin_object()?;
    out.key("assignments")?;
    put_assigns(out, assignments.list())?;
    put_ok(out)?;
    out.end_object()
}

#[tactic(auto, unfolding(crate::specs::Replies::answer_data))]
fn put_history(out: &mut Writer, history: &SpansShown) -> Result<(), AllocError>
    ensures ok { OnOk result (out.new.tokens
        ≡ out.old.tokens ++ json_tokens (outline (answer_data (answer.History history.now)))) }
    ensures before { out.new.before ≡ out.old.before }
{
    out.begin_object()?;
    out.key("history")?;
    put_spans(out, history.list())?;
    put_ok(out)?;
    out.end_object()
}

/// A member that is a number.
fn put_named_number(out: &mut Writer, name: &str, value: u64) -> Result<(), AllocError>
    ensures ok { OnOk result (out.new.tokens
        ≡ out.old.tokens ++ key name.now ∷ (number (decimal value) ∷ [])) }
    ensures before { out.new.before ≡ out.old.before }
{
    out.key(name)?;
    out.u64(value)
}

#[tactic(auto, unfolding(crate::specs::Replies::answer_data))]
fn put_log(
    out: &mut Writer,
    entries: &EntriesShown,
    last: u64,
    place: u64,
) -> Result<(), AllocError>
    ensures ok { OnOk result (out.new.tokens
        ≡ out.old.tokens ++ json_tokens
        (outline (answer_data (answer.Log entries.now last place)))) }
    ensures before { out.new.before ≡ out.old.before }
{
    out.begin_object()?;
    out.key("entries")?;
    put_entries(out, entries.list())?;
    put_named_number(out, "last", last)?;
    put_ok(out)?;
    put_named_number(out, "place", place)?;
    out.end_object()
}

#[tactic(auto, unfolding(crate::specs::Replies::answer_data))]
fn put_admin(
    out: &mut Writer,
    consumers: &ConsumersShown,
    gone: &GonesShown,
    jobs: &JobsShown,
    rules: &RulesShown,
) -> Result<(), AllocError>
    ensures ok { OnOk result (out.new.tokens
        ≡ out.old.tokens ++ json_tokens
        (outline (answer_data (answer.Admin consumers.now gone.now jobs.now rules.now)))) }
    ensures before { out.new.before ≡ out.old.before }
{
    out.begin_object()?;
    put_consumers(out, consumers.list())?;
    put_gones(out, gone.list())?;
    put_jobs(out, jobs.list())?;
    put_ok(out)?;
    put_rules(out, rules.list())?;
    out.end_object()
}

/// Writes what a query is answered. The only error is out of memory.
pub fn put_answer(out: &mut Writer, answer: &Answer) -> Result<(), AllocError>
    ensures ok { OnOk result (out.new.tokens
        ≡ out.old.tokens ++ json_tokens (outline (answer_data answer.now))) }
    ensures before { out.new.before ≡ out.old.before }
{
    match answer {
        Answer::GroupGet { display, name } => put_group(out, display, name),
        Answer::FolderList {
            attributes,
            definitions,
            folders,
            groups,
        } => put_listing(out, attributes, definitions, folders, groups),
        Answer::Members { members } => put_members(out, members),
        Answer::Rows { composite, rows } => put_memberships(out, composite, rows),
        Answer::Groups { groups } => put_groups(out, groups),
        Answer::Grants { grants } => put_granted(out, grants),
        Answer::May { privileges } => put_may(out, privileges),
        Answer::Attributes { assignments } => put_assigned(out, assignments),
        Answer::History { history } => put_history(out, history),
        Answer::Log {
            entries,
            last,
            place,
        } => put_log(out, entries, *last, *place),
        Answer::Admin {
            consumers,
            gone,
            jobs,
            rules,
        } => put_admin(out, consumers, gone, jobs, rules),
    }
}
