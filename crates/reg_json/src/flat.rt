// Flat JSON objects.
ghost use Rattle.std.specs.Prelude.{◌≡◌, ◌++◌, ◌∷◌, [], OnOk};
ghost use Rattle.json.specs.Token.{string};
ghost use Rattle.json.specs.Tree.{json_tokens};
ghost use Rattle.reg_base.specs.MomentText.{text_of};
ghost use Rattle.serde_json.specs.Data.{object};
ghost use Rattle.serde_json.specs.Written.{outline};
ghost use Rattle.reg_json.specs.Flat.{scalar_data, flat};

use json::Writer;
use reg_base::Moment;
use std::alloc::AllocError;

/// A JSON value that holds no other.
#[derive(Drop)]
pub enum Scalar<'a> {
    Text(&'a str),
    Number(u64),
    /// A moment, or null where there is none.
    Moment(Option<Moment>),
    Flag(bool),
}

/// Writes a moment by its text. The only error is out of memory.
pub fn put_moment(out: &mut Writer, moment: Moment) -> Result<(), AllocError>
    ensures ok { OnOk result (out.new.tokens ≡ out.old.tokens ++ string (text_of moment) ∷ []) }
    ensures before { out.new.before ≡ out.old.before }
{
    let text = moment.text();
    match str::from_utf8(&text) {
        Ok(text) => out.string(text),
        // the text of a moment is ASCII
        Err(_) => unreachable!(),
    }
}

fn put_scalar(out: &mut Writer, value: &Scalar<'_>) -> Result<(), AllocError>
    ensures ok { OnOk result (out.new.tokens
        ≡ out.old.tokens ++ json_tokens (outline (scalar_data value.now))) }
    ensures before { out.new.before ≡ out.old.before }
{
    match value {
        Scalar::Text(text) => out.string(text),
        Scalar::Number(number) => out.u64(*number),
        Scalar::Moment(Some(moment)) => put_moment(out, *moment),
        Scalar::Moment(None) => out.null(),
        Scalar::Flag(flag) => out.boolean(*flag),
    }
}

/// Writes an object of these members, in their order. The only error is out of memory.
pub fn put_object(out: &mut Writer, members: &[(&str, Scalar<'_>)]) -> Result<(), AllocError>
    ensures ok { OnOk result (out.new.tokens
        ≡ out.old.tokens ++ json_tokens (outline (object (flat members.now)))) }
    ensures before { out.new.before ≡ out.old.before }
{
    out.begin_object()?;
    for (key, value) in members {
        out.key(key)?;
        put_scalar(out, value)?;
    }
    out.end_object()
}
