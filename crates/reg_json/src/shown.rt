// What queries show, as JSON.
ghost use Rattle.std.specs.Prelude.{◌≡◌, ◌++◌, OnOk};
ghost use Rattle.json.specs.Tree.{json_tokens};
ghost use Rattle.serde_json.specs.Data.{array};
ghost use Rattle.serde_json.specs.Written.{outline};
ghost use Rattle.reg_json.specs.Replies.{kind_word, row_data, row_items, factors_data, grant_data};
ghost use Rattle.reg_json.specs.Replies.{grant_items, names_of, strings, span_data, span_items};
ghost use Rattle.reg_json.specs.Replies.{entry_data, entry_items};

use crate::flat::{Scalar, put_object};
use json::Writer;
use reg_base::Privilege;
use reg_terms::{EntryShown, FactorsShown, GrantShown, RowShown, SetOp, SpanShown, privilege_name};
use std::alloc::AllocError;

fn put_row(out: &mut Writer, row: &RowShown) -> Result<(), AllocError>
    ensures ok { OnOk result (out.new.tokens
        ≡ out.old.tokens ++ json_tokens (outline (row_data row.now))) }
    ensures before { out.new.before ≡ out.old.before }
{
    let from = ("from", Scalar::Moment(Some(row.from)));
    let member = ("member", Scalar::Text(row.member.as_str()));
    let until = ("until", Scalar::Moment(row.until));
    put_object(out, &[from, member, until])
}

/// Writes immediate memberships as an array. The only error is out of memory.
pub fn put_rows(out: &mut Writer, rows: &[RowShown]) -> Result<(), AllocError>
    ensures ok { OnOk result (out.new.tokens
        ≡ out.old.tokens ++ json_tokens (outline (array (row_items rows.now)))) }
    ensures before { out.new.before ≡ out.old.before }
{
    out.begin_array()?;
    for row in rows {
        put_row(out, row)?;
    }
    out.end_array()
}

fn kind_word(kind: SetOp) -> &'static str
    ensures { result.now ≡ kind_word kind }
{
    match kind {
        SetOp::Intersection => "intersection",
        SetOp::Complement => "complement",
        SetOp::Union => "union",
    }
}

/// Writes the factors of a composite group, or null for another group. The only error is out of
/// memory.
pub fn put_factors(out: &mut Writer, factors: &Option<FactorsShown>) -> Result<(), AllocError>
    ensures ok { OnOk result (out.new.tokens
        ≡ out.old.tokens ++ json_tokens (outline (factors_data factors.now))) }
    ensures before { out.new.before ≡ out.old.before }
{
    let Some(factors) = factors else {
        return out.null();
    };
    let kind = ("kind", Scalar::Text(kind_word(factors.kind)));
    let left = ("left", Scalar::Text(factors.left.as_str()));
    let right = ("right", Scalar::Text(factors.right.as_str()));
    put_object(out, &[kind, left, right])
}

fn put_grant(out: &mut Writer, grant: &GrantShown) -> Result<(), AllocError>
    ensures ok { OnOk result (out.new.tokens
        ≡ out.old.tokens ++ json_tokens (outline (grant_data grant.now))) }
    ensures before { out.new.before ≡ out.old.before }
{
    let holder = ("holder", Scalar::Text(grant.holder.as_str()));
    let privilege = ("privilege", Scalar::Text(privilege_name(grant.privilege)));
    put_object(out, &[holder, privilege])
}

/// Writes grants as an array. The only error is out of memory.
pub fn put_grants(out: &mut Writer, grants: &[GrantShown]) -> Result<(), AllocError>
    ensures ok { OnOk result (out.new.tokens
        ≡ out.old.tokens ++ json_tokens (outline (array (grant_items grants.now)))) }
    ensures before { out.new.before ≡ out.old.before }
{
    out.begin_array()?;
    for grant in grants {
        put_grant(out, grant)?;
    }
    out.end_array()
}

/// Writes the names of privileges as an array. The only error is out of memory.
pub fn put_privileges(out: &mut Writer, privileges: &[Privilege]) -> Result<(), AllocError>
    ensures ok { OnOk result (out.new.tokens
        ≡ out.old.tokens ++ json_tokens (outline (array (strings (names_of privileges.now))))) }
    ensures before { out.new.before ≡ out.old.before }
{
    out.begin_array()?;
    for privilege in privileges {
        out.string(privilege_name(*privilege))?;
    }
    out.end_array()
}

fn put_span(out: &mut Writer, span: &SpanShown) -> Result<(), AllocError>
    ensures ok { OnOk result (out.new.tokens
        ≡ out.old.tokens ++ json_tokens (outline (span_data span.now))) }
    ensures before { out.new.before ≡ out.old.before }
{
    let from = ("from", Scalar::Moment(Some(span.from)));
    let subject = ("subject", Scalar::Text(span.subject.as_str()));
    let to = ("to", Scalar::Moment(span.to));
    put_object(out, &[from, subject, to])
}

/// Writes times in which persons were members as an array. The only error is out of memory.
pub fn put_spans(out: &mut Writer, spans: &[SpanShown]) -> Result<(), AllocError>
    ensures ok { OnOk result (out.new.tokens
        ≡ out.old.tokens ++ json_tokens (outline (array (span_items spans.now)))) }
    ensures before { out.new.before ≡ out.old.before }
{
    out.begin_array()?;
    for span in spans {
        put_span(out, span)?;
    }
    out.end_array()
}

fn put_entry(out: &mut Writer, entry: &EntryShown) -> Result<(), AllocError>
    ensures ok { OnOk result (out.new.tokens
        ≡ out.old.tokens ++ json_tokens (outline (entry_data entry.now))) }
    ensures before { out.new.before ≡ out.old.before }
{
    let at = ("at", Scalar::Moment(Some(entry.at)));
    let entity = ("entity", Scalar::Text(entry.entity.as_str()));
    let kind = ("kind", Scalar::Text(entry.kind.word()));
    let number = ("number", Scalar::Number(entry.number));
    let object = ("object", Scalar::Text(entry.object.as_str()));
    let seq = ("seq", Scalar::Number(entry.seq));
    put_object(out, &[at, entity, kind, number, object, seq])
}

/// Writes entries of the change log as an array. The only error is out of memory.
pub fn put_entries(out: &mut Writer, entries: &[EntryShown]) -> Result<(), AllocError>
    ensures ok { OnOk result (out.new.tokens
        ≡ out.old.tokens ++ json_tokens (outline (array (entry_items entries.now)))) }
    ensures before { out.new.before ≡ out.old.before }
{
    out.begin_array()?;
    for entry in entries {
        put_entry(out, entry)?;
    }
    out.end_array()
}
