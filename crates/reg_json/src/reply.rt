// Replies.
ghost use Rattle.std.specs.Prelude.{◌≡◌, ◌++◌, ◌∷◌, [], true, IfOk, OnOk, string_bytes};
ghost use Rattle.std.specs.List.{concat, list_all};
ghost use Rattle.json.specs.Tree.{json_tokens};
ghost use Rattle.serde_json.specs.Written.{compact_text, outline};
ghost use Rattle.reg_terms.specs.declared.query.Answer.TheVariants as answer;
ghost use Rattle.reg_json.specs.Arrays.{is_plain};
ghost use Rattle.reg_json.specs.Replies.{accepted_data, answer_data, loaded_data, reply_data, text};

use crate::answer::{put_answer, put_members};
use crate::array::{append_array, is_plain};
use crate::flat::{Scalar, put_object};
use crate::refusal::put_refusal;
use json::Writer;
use reg_terms::{Answer, LoadCounts, Reply, Texts};
use std::alloc::{AllocError, Global};

fn put_accepted(out: &mut Writer, number: u64, id: Option<u64>) -> Result<(), AllocError>
    ensures ok { OnOk result (out.new.tokens
        ≡ out.old.tokens ++ json_tokens (outline (accepted_data number id))) }
    ensures before { out.new.before ≡ out.old.before }
{
    let number = ("number", Scalar::Number(number));
    let accepted = ("ok", Scalar::Flag(true));
    match id {
        Some(id) => put_object(out, &[("id", Scalar::Number(id)), number, accepted]),
        None => put_object(out, &[number, accepted]),
    }
}

#[tactic(auto, unfolding(crate::specs::Replies::loaded_data))]
fn put_loaded(out: &mut Writer, number: u64, counts: &LoadCounts) -> Result<(), AllocError>
    ensures ok { OnOk result (out.new.tokens
        ≡ out.old.tokens ++ json_tokens (outline (loaded_data number counts.now))) }
    ensures before { out.new.before ≡ out.old.before }
{
    put_object(
        out,
        &[
            ("added", Scalar::Number(counts.added)),
            ("bad_group", Scalar::Number(counts.bad_group)),
            ("created", Scalar::Number(counts.created)),
            ("number", Scalar::Number(number)),
            ("ok", Scalar::Flag(true)),
            ("removed", Scalar::Number(counts.removed)),
            ("repeated", Scalar::Number(counts.repeated)),
            ("unchanged", Scalar::Number(counts.unchanged)),
            ("unknown", Scalar::Number(counts.unknown)),
            ("vetoed", Scalar::Number(counts.vetoed)),
        ],
    )
}

#[tactic(auto, unfolding(crate::specs::Replies::reply_data))]
fn put_reply(out: &mut Writer, reply: &Reply) -> Result<(), AllocError>
    ensures ok { OnOk result (out.new.tokens
        ≡ out.old.tokens ++ json_tokens (outline (reply_data reply.now))) }
    ensures before { out.new.before ≡ out.old.before }
{
    match reply {
        Reply::Number { number, id } => put_accepted(out, *number, *id),
        Reply::Loaded { number, counts } => put_loaded(out, *number, counts),
        Reply::Answer(answer) => put_answer(out, answer),
        Reply::Refused(refusal) => put_refusal(out, refusal),
        Reply::NoMemory => put_object(out, &[("fault", Scalar::Text("memory"))]),
        Reply::KeepFault => put_object(out, &[("fault", Scalar::Text("disk"))]),
    }
}

#[tactic(auto, using(crate::proofs::Printing::printed))]
fn append_written(buffer: Vec<u8>, reply: &Reply) -> Result<Vec<u8>, AllocError>
    ensures { IfOk result (λ bytes. bytes.items
        ≡ buffer.items ++ compact_text (reply_data reply.now)) }
{
    let mut out = Writer::new(buffer);
    put_reply(&mut out, reply)?;
    Ok(out.into_inner())
}

#[tactic(auto, using(crate::proofs::Printing::printed))]
fn append_escaped(buffer: Vec<u8>, members: &Texts) -> Result<Vec<u8>, AllocError>
    ensures { IfOk result (λ bytes. bytes.items
        ≡ buffer.items ++ compact_text (answer_data (answer.Members members.now))) }
{
    let mut out = Writer::new(buffer);
    put_members(&mut out, members)?;
    Ok(out.into_inner())
}

fn append_plain(buffer: Vec<u8>, members: &Texts) -> Result<Vec<u8>, AllocError>
    requires { list_all is_plain (concat members.now) ≡ true }
    ensures { IfOk result (λ bytes. bytes.items
        ≡ buffer.items ++ compact_text (answer_data (answer.Members members.now))) }
{
    let mut bytes = buffer;
    bytes.extend_from_slice(b"{\"members\":")?;
    bytes = append_array(bytes, members)?;
    bytes.extend_from_slice(b",\"ok\":true}")?;
    Ok(bytes)
}

/// The members of a group may be many: where no byte of them needs an escape, they are written at
/// once.
fn append_members(buffer: Vec<u8>, members: &Texts) -> Result<Vec<u8>, AllocError>
    ensures { IfOk result (λ bytes. bytes.items
        ≡ buffer.items ++ compact_text (answer_data (answer.Members members.now))) }
{
    if is_plain(members.joined().as_bytes()) {
        append_plain(buffer, members)
    } else {
        append_escaped(buffer, members)
    }
}

/// The buffer, and behind what it held the text of a reply: compact JSON whose keys ascend, without
/// an ending LF (`docs/REQUESTS.md`, "Replies"). The only error is out of memory.
#[tactic(auto, unfolding(crate::specs::Replies::text, crate::specs::Replies::reply_data))]
pub fn append_reply(buffer: Vec<u8>, reply: &Reply) -> Result<Vec<u8>, AllocError>
    ensures { IfOk result (λ bytes. bytes.items ≡ buffer.items ++ text reply.now) }
{
    match reply {
        Reply::Answer(Answer::Members { members }) => append_members(buffer, members),
        _ => append_written(buffer, reply),
    }
}

/// The buffer, and behind what it held the text of a reply and LF. It serves the next reply again,
/// once it is cleared. The only error is out of memory.
pub fn append_line(buffer: Vec<u8>, reply: &Reply) -> Result<Vec<u8>, AllocError>
    ensures { IfOk result (λ bytes. bytes.items ≡ buffer.items ++ (text reply.now ++ 10 ∷ [])) }
{
    let mut bytes = append_reply(buffer, reply)?;
    bytes.push(b'\n')?;
    Ok(bytes)
}

/// The text of a reply: compact JSON whose keys ascend, without an ending LF
/// (`docs/REQUESTS.md`, "Replies"). The only error is out of memory.
#[tactic(auto, using(crate::proofs::Printing::printed), unfolding(crate::specs::Replies::text))]
pub fn write_reply(alloc: Global, reply: &Reply) -> Result<String, AllocError>
    ensures { IfOk result (λ s. string_bytes s ≡ text reply.now) }
{
    let mut out = Writer::new(Vec::new(alloc));
    put_reply(&mut out, reply)?;
    match String::from_utf8(out.into_inner()) {
        Ok(text) => Ok(text),
        // what a writer has written is UTF-8
        Err(_) => unreachable!(),
    }
}

/// The text of the reply that there was no memory, with its LF. It takes none.
pub fn no_memory_line() -> &'static [u8]
    ensures { result.now ≡ text Reply.NoMemory ++ 10 ∷ [] }
{
    b"{\"fault\":\"memory\"}\n"
}

/// The text of the reply that the disk failed, with its LF. It takes no memory.
pub fn keep_fault_line() -> &'static [u8]
    ensures { result.now ≡ text Reply.KeepFault ++ 10 ∷ [] }
{
    b"{\"fault\":\"disk\"}\n"
}
