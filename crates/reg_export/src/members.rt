// The members of a line, lent by its command, in the order of their keys.
ghost use Rattle.std.specs.Prelude.{◌≡◌, ◌≤◌, ◌++◌, IfOk, OnOk, length};
ghost use Rattle.json.specs.Tree.{json_tokens};
ghost use Rattle.serde_json.specs.Data.{object, put};
ghost use Rattle.serde_json.specs.Written.{outline};
ghost use Rattle.reg_export.specs.Members.{is_there, keys_before, members_of, part_data};

use crate::values::put_part;
use json::Writer;
use reg_base::{Entity, Moment, Name};
use reg_terms::{LoadRow, Owners, Value};
use std::alloc::{AllocError, Global};
use std::cmp::Ordering;

/// What stands under a key of a line.
#[derive(Clone, Copy)]
pub enum Part<'a> {
    Text(&'a str),
    Entity(&'a Entity),
    Moment(&'a Moment),
    Owners(Owners),
    Flag(bool),
    Value(&'a Value),
    Number(u64),
    Names(&'a [Name]),
    Rows(&'a [LoadRow]),
}

/// How many keys stand before the place of a key, and whether it is there.
fn place_of(members: &[(&str, Part<'_>)], key: &str) -> (usize, bool)
    ensures place { result.0 ≡ keys_before key.now members.now }
    ensures there { result.1 ≡ is_there key.now members.now }
    ensures most { result.0 ≤ length members.now }
{
    let [(first, _), rest @ ..] = members else {
        return (0, false);
    };
    match key.cmp(first) {
        Ordering::Less => (0, false),
        Ordering::Equal => (0, true),
        Ordering::Greater => {
            let (before, there) = place_of(rest, key);
            (before + 1, there)
        }
    }
}

/// Puts a part under a key, in place of what stood there. The only error is out of memory.
pub fn put_member<'a>(
    members: Vec<(&'a str, Part<'a>)>,
    key: &'a str,
    part: Part<'a>,
) -> Result<Vec<(&'a str, Part<'a>)>, AllocError>
    ensures { IfOk result (λ ms. members_of ms.items
        ≡ put key.now (part_data part.entry) (members_of members.entry.items)) }
{
    let (before, there) = place_of(&members, key);
    let mut members = members;
    if there {
        members.remove(before);
    }
    match members.insert(before, (key, part)) {
        Ok(()) => Ok(members),
        Err(_) => Err(AllocError),
    }
}

/// Writes members as an object. The only error is out of memory.
pub fn write_members(
    alloc: Global,
    out: &mut Writer,
    members: &[(&str, Part<'_>)],
) -> Result<(), AllocError>
    ensures ok { OnOk result (out.new.tokens
        ≡ out.old.tokens ++ json_tokens (outline (object (members_of members.now)))) }
    ensures before { out.new.before ≡ out.old.before }
{
    out.begin_object()?;
    for (key, part) in members {
        out.key(key)?;
        put_part(alloc, out, part)?;
    }
    out.end_object()
}
