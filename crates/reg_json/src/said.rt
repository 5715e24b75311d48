// What refusals say.
ghost use Rattle.std.specs.Prelude.{◌≡◌, ◌++◌, OnOk};
ghost use Rattle.json.specs.Tree.{json_tokens};
ghost use Rattle.serde_json.specs.Written.{outline};
ghost use Rattle.reg_base.specs.MomentText.{text_of};
ghost use Rattle.reg_json.specs.Refusals.{refused};
ghost use Rattle.reg_json.specs.Refusals as say;
ghost use Rattle.reg_json.specs.Said.{carries, said_data};

use crate::flat::{Scalar, put_object};
use json::Writer;
use reg_base::{Moment, Text};
use std::alloc::AllocError;

/// What a refusal says: its number, its word and what it carries.
#[derive(Drop)]
pub struct Said<'a> {
    pub code: u64,
    pub word: &'static str,
    pub carried: Carried<'a>,
}

/// What a refusal carries.
#[derive(Drop)]
pub enum Carried<'a> {
    Nothing,
    Limit(u64),
    Field(&'a Text),
    Object(&'a Text),
    /// An object, and the privilege that is demanded on it.
    Demand(&'a Text, &'a Text),
    Use(&'a Text),
    /// A kind of which there would be more than its limit.
    Count(&'a Text, u64),
    /// The moment that is asked of, and the clock's.
    Moments(&'a Moment, &'a Moment),
    /// The number that a consumer has, and the log's last.
    Places(u64, u64),
    /// The rule that forbids.
    Rule(u64),
    /// A record of a table.
    Row(u64),
    /// How many rows there were before a load, and how many it would remove.
    Removal(u64, u64),
    /// The number of the command that is kept.
    Command(u64),
}

impl<'a> Said<'a> {
    pub fn new(code: u64, word: &'static str, carried: Carried<'a>) -> Said<'a>
        ensures { said_data result ≡ refused code word.now (carries carried.entry) }
    {
        Said {
            code,
            word,
            carried,
        }
    }
}

#[tactic(auto, unfolding(crate::specs::Refusals::refused))]
fn put_nothing(out: &mut Writer, code: u64, word: &str) -> Result<(), AllocError>
    ensures ok { OnOk result (out.new.tokens
        ≡ out.old.tokens ++ json_tokens (outline (refused code word.now say.nothing))) }
    ensures before { out.new.before ≡ out.old.before }
{
    let code = ("code", Scalar::Number(code));
    let word = ("refused", Scalar::Text(word));
    put_object(out, &[code, word])
}

#[tactic(auto, unfolding(crate::specs::Refusals::refused))]
fn put_limit(out: &mut Writer, code: u64, word: &str, limit: u64) -> Result<(), AllocError>
    ensures ok { OnOk result (out.new.tokens
        ≡ out.old.tokens ++ json_tokens (outline (refused code word.now (say.limit limit)))) }
    ensures before { out.new.before ≡ out.old.before }
{
    let code = ("code", Scalar::Number(code));
    let limit = ("limit", Scalar::Number(limit));
    let word = ("refused", Scalar::Text(word));
    put_object(out, &[code, limit, word])
}

#[tactic(auto, unfolding(crate::specs::Refusals::refused))]
fn put_field<'a>(
    out: &mut Writer,
    code: u64,
    word: &'a str,
    field: &'a str,
) -> Result<(), AllocError>
    ensures ok { OnOk result (out.new.tokens
        ≡ out.old.tokens ++ json_tokens (outline (refused code word.now (say.field field.now)))) }
    ensures before { out.new.before ≡ out.old.before }
{
    let code = ("code", Scalar::Number(code));
    let field = ("field", Scalar::Text(field));
    let word = ("refused", Scalar::Text(word));
    put_object(out, &[code, field, word])
}

#[tactic(auto, unfolding(crate::specs::Refusals::refused))]
fn put_object_named<'a>(
    out: &mut Writer,
    code: u64,
    word: &'a str,
    name: &'a str,
) -> Result<(), AllocError>
    ensures ok { OnOk result (out.new.tokens
        ≡ out.old.tokens ++ json_tokens (outline (refused code word.now (say.object name.now)))) }
    ensures before { out.new.before ≡ out.old.before }
{
    let code = ("code", Scalar::Number(code));
    let name = ("object", Scalar::Text(name));
    let word = ("refused", Scalar::Text(word));
    put_object(out, &[code, name, word])
}

#[tactic(auto, unfolding(crate::specs::Refusals::refused))]
fn put_demand<'a>(
    out: &mut Writer,
    code: u64,
    word: &'a str,
    name: &'a str,
    privilege: &'a str,
) -> Result<(), AllocError>
    ensures ok { OnOk result (out.new.tokens
        ≡ out.old.tokens ++ json_tokens
        (outline (refused code word.now (say.demand name.now privilege.now)))) }
    ensures before { out.new.before ≡ out.old.before }
{
    let code = ("code", Scalar::Number(code));
    let name = ("object", Scalar::Text(name));
    let privilege = ("privilege", Scalar::Text(privilege));
    let word = ("refused", Scalar::Text(word));
    put_object(out, &[code, name, privilege, word])
}

#[tactic(auto, unfolding(crate::specs::Refusals::refused))]
fn put_use<'a>(out: &mut Writer, code: u64, word: &'a str, used: &'a str) -> Result<(), AllocError>
    ensures ok { OnOk result (out.new.tokens
        ≡ out.old.tokens ++ json_tokens (outline (refused code word.now (say.used used.now)))) }
    ensures before { out.new.before ≡ out.old.before }
{
    let code = ("code", Scalar::Number(code));
    let word = ("refused", Scalar::Text(word));
    let used = ("use", Scalar::Text(used));
    put_object(out, &[code, word, used])
}

#[tactic(auto, unfolding(crate::specs::Refusals::refused))]
fn put_count<'a>(
    out: &mut Writer,
    code: u64,
    word: &'a str,
    kind: &'a str,
    limit: u64,
) -> Result<(), AllocError>
    ensures ok { OnOk result (out.new.tokens
        ≡ out.old.tokens ++ json_tokens
        (outline (refused code word.now (say.count kind.now limit)))) }
    ensures before { out.new.before ≡ out.old.before }
{
    let code = ("code", Scalar::Number(code));
    let kind = ("kind", Scalar::Text(kind));
    let limit = ("limit", Scalar::Number(limit));
    let word = ("refused", Scalar::Text(word));
    put_object(out, &[code, kind, limit, word])
}

#[tactic(auto, unfolding(crate::specs::Refusals::refused))]
fn put_moments(
    out: &mut Writer,
    code: u64,
    word: &str,
    asked: Moment,
    clock: Moment,
) -> Result<(), AllocError>
    ensures ok { OnOk result (out.new.tokens
        ≡ out.old.tokens ++ json_tokens
        (outline (refused code word.now (say.moments (text_of asked) (text_of clock))))) }
    ensures before { out.new.before ≡ out.old.before }
{
    let asked = ("asked", Scalar::Moment(Some(asked)));
    let clock = ("clock", Scalar::Moment(Some(clock)));
    let code = ("code", Scalar::Number(code));
    let word = ("refused", Scalar::Text(word));
    put_object(out, &[asked, clock, code, word])
}

#[tactic(auto, unfolding(crate::specs::Refusals::refused))]
fn put_places(
    out: &mut Writer,
    code: u64,
    word: &str,
    kept: u64,
    last: u64,
) -> Result<(), AllocError>
    ensures ok { OnOk result (out.new.tokens
        ≡ out.old.tokens ++ json_tokens (outline (refused code word.now (say.places kept last)))) }
    ensures before { out.new.before ≡ out.old.before }
{
    let code = ("code", Scalar::Number(code));
    let kept = ("kept", Scalar::Number(kept));
    let last = ("last", Scalar::Number(last));
    let word = ("refused", Scalar::Text(word));
    put_object(out, &[code, kept, last, word])
}

#[tactic(auto, unfolding(crate::specs::Refusals::refused))]
fn put_rule(out: &mut Writer, code: u64, word: &str, rule: u64) -> Result<(), AllocError>
    ensures ok { OnOk result (out.new.tokens
        ≡ out.old.tokens ++ json_tokens (outline (refused code word.now (say.rule rule)))) }
    ensures before { out.new.before ≡ out.old.before }
{
    let code = ("code", Scalar::Number(code));
    let word = ("refused", Scalar::Text(word));
    let rule = ("rule", Scalar::Number(rule));
    put_object(out, &[code, word, rule])
}

#[tactic(auto, unfolding(crate::specs::Refusals::refused))]
fn put_row(out: &mut Writer, code: u64, word: &str, row: u64) -> Result<(), AllocError>
    ensures ok { OnOk result (out.new.tokens
        ≡ out.old.tokens ++ json_tokens (outline (refused code word.now (say.row row)))) }
    ensures before { out.new.before ≡ out.old.before }
{
    let code = ("code", Scalar::Number(code));
    let row = ("record", Scalar::Number(row));
    let word = ("refused", Scalar::Text(word));
    put_object(out, &[code, row, word])
}

#[tactic(auto, unfolding(crate::specs::Refusals::refused))]
fn put_removal(
    out: &mut Writer,
    code: u64,
    word: &str,
    before: u64,
    removes: u64,
) -> Result<(), AllocError>
    ensures ok { OnOk result (out.new.tokens
        ≡ out.old.tokens ++ json_tokens
        (outline (refused code word.now (say.removal before removes)))) }
    ensures before { out.new.before ≡ out.old.before }
{
    let before = ("before", Scalar::Number(before));
    let code = ("code", Scalar::Number(code));
    let word = ("refused", Scalar::Text(word));
    let removes = ("removes", Scalar::Number(removes));
    put_object(out, &[before, code, word, removes])
}

#[tactic(auto, unfolding(crate::specs::Refusals::refused))]
fn put_command(out: &mut Writer, code: u64, word: &str, number: u64) -> Result<(), AllocError>
    ensures ok { OnOk result (out.new.tokens
        ≡ out.old.tokens ++ json_tokens (outline (refused code word.now (say.command number)))) }
    ensures before { out.new.before ≡ out.old.before }
{
    let code = ("code", Scalar::Number(code));
    let number = ("number", Scalar::Number(number));
    let word = ("refused", Scalar::Text(word));
    put_object(out, &[code, number, word])
}

/// Writes what a refusal says. The only error is out of memory.
pub fn put_said(out: &mut Writer, said: &Said<'_>) -> Result<(), AllocError>
    ensures ok { OnOk result (out.new.tokens
        ≡ out.old.tokens ++ json_tokens (outline (said_data said.now))) }
    ensures before { out.new.before ≡ out.old.before }
{
    let (code, word) = (said.code, said.word);
    match &said.carried {
        Carried::Nothing => put_nothing(out, code, word),
        Carried::Limit(limit) => put_limit(out, code, word, *limit),
        Carried::Field(field) => put_field(out, code, word, field.as_str()),
        Carried::Object(object) => put_object_named(out, code, word, object.as_str()),
        Carried::Demand(name, privilege) => put_demand(
            out,
            code,
            word,
            name.as_str(),
            privilege.as_str(),
        ),
        Carried::Use(used) => put_use(out, code, word, used.as_str()),
        Carried::Count(kind, limit) => put_count(out, code, word, kind.as_str(), *limit),
        Carried::Moments(asked, clock) => put_moments(out, code, word, **asked, **clock),
        Carried::Places(kept, last) => put_places(out, code, word, *kept, *last),
        Carried::Rule(rule) => put_rule(out, code, word, *rule),
        Carried::Row(row) => put_row(out, code, word, *row),
        Carried::Removal(before, removes) => put_removal(out, code, word, *before, *removes),
        Carried::Command(number) => put_command(out, code, word, *number),
    }
}
