// The line of a command.
ghost use Rattle.std.specs.Prelude.{◌≡◌, ◌++◌, IfOk, Ok, OnOk};
ghost use Rattle.std.specs.Str.{IsUtf8};
ghost use Rattle.json.specs.Tree.{json_tokens};
ghost use Rattle.serde_json.specs.Data.{object};
ghost use Rattle.serde_json.specs.Written.{outline};
ghost use Rattle.reg_ops.specs.Parts.{seen_all};
ghost use Rattle.reg_ops.specs.Table.{fields_of};
ghost use Rattle.reg_json.specs.Reading.{json_of};
ghost use Rattle.reg_export.specs.Lines.{command_text, line_members};
ghost use Rattle.reg_export.specs.Members.{members_of};

use crate::fields::{law_command_is_whole, law_id_is_whole, put_fields, put_id, put_key};
use crate::members::{Part, put_member, write_members};
use json::Writer;
use reg_ops::{FieldRef, command_row, fields_of, kind_of};
use reg_terms::Stamped;
use std::alloc::{AllocError, Global};

/// So many members a line has at the most.
const MOST: usize = 13;

/// Most lines have no more bytes.
const USUAL: usize = 256;

/// The members of a line.
#[tactic(auto, unfolding(crate::specs::Lines::line_members, crate::specs::Lines::request_members))]
fn line_members<'a>(
    alloc: Global,
    number: u64,
    place: u64,
    made: Option<u64>,
    stamped: &'a Stamped,
    fields: &'a [FieldRef<'a>],
) -> Result<Vec<(&'a str, Part<'a>)>, AllocError>
    requires { seen_all fields.now ≡ fields_of stamped.now.command }
    ensures { IfOk result (λ ms. members_of ms.items
        ≡ line_members number place made stamped.now) }
{
    let row = command_row(kind_of(&stamped.command)).op;
    let members = Vec::with_capacity(alloc, MOST)?;
    let members = put_member(members, "op", Part::Text(row.word))?;
    let members = put_member(members, "by", Part::Entity(&stamped.by))?;
    let members = put_key(members, &stamped.key)?;
    let members = put_fields(members, row.fields, fields)?;
    let members = put_id(members, made)?;
    let members = put_member(members, "number", Part::Number(number))?;
    let members = put_member(members, "place", Part::Number(place))?;
    put_member(members, "at", Part::Moment(&stamped.at))
}

/// Writes a line.
fn write_line(
    alloc: Global,
    number: u64,
    place: u64,
    made: Option<u64>,
    stamped: &Stamped,
    out: &mut Writer,
) -> Result<(), AllocError>
    ensures ok { OnOk result (out.new.tokens ≡ out.old.tokens
        ++ json_tokens (outline (object (line_members number place made stamped.now)))) }
    ensures before { out.new.before ≡ out.old.before }
{
    let fields = fields_of(&stamped.command);
    let members = line_members(alloc, number, place, made, stamped, &fields)?;
    write_members(alloc, out, &members)
}

/// The bytes of a line.
fn line_bytes(
    alloc: Global,
    number: u64,
    place: u64,
    made: Option<u64>,
    stamped: &Stamped,
) -> Result<Vec<u8>, AllocError>
    ensures text { IfOk result (λ bytes. bytes.items
        ≡ command_text number place made stamped.now) }
    ensures utf8 { IfOk result (λ bytes. IsUtf8 bytes.items) }
{
    let mut out = Writer::new(Vec::with_capacity(alloc, USUAL)?);
    write_line(alloc, number, place, made, stamped, &mut out)?;
    Ok(out.into_inner())
}

/// The text of an accepted command, by its number in the history, its place in the journal and the
/// id of what it made, where that has one and no name: compact JSON whose keys ascend, without an
/// ending LF. The only error is out of memory.
pub fn command_text(
    alloc: Global,
    number: u64,
    place: u64,
    made: Option<u64>,
    stamped: &Stamped,
) -> Result<Vec<u8>, AllocError>
    ensures text { IfOk result (λ bytes. bytes.items
        ≡ command_text number place made stamped.now) }
    // A reader of JSON finds the members of the line.
    ensures object { IfOk result (λ bytes. json_of bytes.items
        ≡ Ok (object (line_members number place made stamped.now))) }
{
    law_id_is_whole(made);
    law_command_is_whole(&stamped.command);
    let bytes = line_bytes(alloc, number, place, made, stamped)?;
    Ok(bytes)
}
