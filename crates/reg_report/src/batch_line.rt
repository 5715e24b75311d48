// The lines that are delivered of a batch.
ghost use Rattle.std.specs.Prelude.{◌≡◌, ◌++◌, IfOk, OnOk};
ghost use Rattle.json.specs.Tree.{json_tokens};
ghost use Rattle.serde_json.specs.Written.{outline};
ghost use Rattle.reg_report.specs.Lines.{line};
ghost use Rattle.reg_report.specs.BatchLines.{op_data, op_lines, pair_data, place_data, place_line};

use crate::line::ended;
use crate::permission::text_of;
use json::Writer;
use reg_base::GroupId;
use reg_facts::Facts;
use reg_prov::TargetOp;
use std::alloc::{AllocError, Global};

/// What is done with a group and a person of this text.
#[tactic(auto, unfolding(crate::specs::BatchLines::pair_data))]
fn put_pair(out: &mut Writer, word: &str, group: GroupId, text: &str) -> Result<(), AllocError>
    ensures ok { OnOk result (out.new.tokens
        ≡ out.old.tokens ++ json_tokens (outline (pair_data word.now group text.now))) }
    ensures before { out.new.before ≡ out.old.before }
{
    out.begin_object()?;
    out.key("do")?;
    out.string(word)?;
    out.key("group")?;
    out.u64(u64::from(group.number()))?;
    out.key("subject")?;
    out.string(text)?;
    out.end_object()
}

fn put_op(out: &mut Writer, facts: &Facts, op: &TargetOp) -> Result<(), AllocError>
    ensures ok { OnOk result (out.new.tokens
        ≡ out.old.tokens ++ json_tokens (outline (op_data facts.now.subjects op.now))) }
    ensures before { out.new.before ≡ out.old.before }
{
    match op {
        TargetOp::Add { group, subject } => put_pair(out, "add", *group, text_of(facts, *subject)),
        TargetOp::Remove { group, subject } => {
            put_pair(out, "remove", *group, text_of(facts, *subject))
        }
    }
}

#[tactic(auto, unfolding(crate::specs::BatchLines::place_data))]
fn put_place(out: &mut Writer, place: u64) -> Result<(), AllocError>
    ensures ok { OnOk result (out.new.tokens
        ≡ out.old.tokens ++ json_tokens (outline (place_data place))) }
    ensures before { out.new.before ≡ out.old.before }
{
    out.begin_object()?;
    out.key("ok")?;
    out.boolean(true)?;
    out.key("place")?;
    out.u64(place)?;
    out.end_object()
}

/// Adds the line of an operation to some bytes.
fn with_op(bytes: Vec<u8>, facts: &Facts, op: &TargetOp) -> Result<Vec<u8>, AllocError>
    ensures { IfOk result (λ more. more.items
        ≡ bytes.items ++ line (op_data facts.now.subjects op.now)) }
{
    let mut out = Writer::new(bytes);
    put_op(&mut out, facts, op)?;
    ended(out)
}

/// The lines of operations, in order. The only error is out of memory.
pub fn op_lines(alloc: Global, facts: &Facts, ops: &[TargetOp]) -> Result<Vec<u8>, AllocError>
    ensures { IfOk result (λ bytes. bytes.items ≡ op_lines facts.now.subjects ops.now) }
{
    let mut bytes = Vec::new(alloc);
    for op in ops {
        bytes = with_op(bytes, facts, op)?;
    }
    Ok(bytes)
}

/// The line of the place to which a batch leads. The only error is out of memory.
#[tactic(auto, using(crate::proofs::Printing::printed))]
pub fn place_line(alloc: Global, place: u64) -> Result<Vec<u8>, AllocError>
    ensures { IfOk result (λ bytes. bytes.items ≡ place_line place) }
{
    let mut out = Writer::new(Vec::new(alloc));
    put_place(&mut out, place)?;
    ended(out)
}
