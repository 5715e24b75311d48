// Replies, read back from their texts.
ghost use Rattle.std.specs.Prelude.{◌≡◌, Some, None, IfOk, IfSome, if◌then◌else◌};
ghost use Rattle.std.specs.Str.{bytes_eq};
ghost use Rattle.serde_json.specs.View.{view};
ghost use Rattle.reg_terms.specs.declared.reply.Reply.{Reply};
ghost use Rattle.reg_json.specs.Replies.{text};
ghost use Rattle.reg_json.specs.Takes.{Takes};
ghost use Rattle.reg_json.specs.Taking.{accepted_from, fault_from, loaded_from, reply_from};
ghost use Rattle.reg_json.specs.Taking.{reply_of};
ghost use Rattle.reg_json.specs.Told.{told};
ghost use Rattle.reg_json.specs.Writable.{IsWritable};

use crate::reply::append_reply;
use crate::taken_answer::answer_from;
use crate::taken_loaded::counts_from;
use crate::taken_refusal::refusal_from;
use crate::taking::{TakeFault, has, number_in, optional_number_in, str_in};
use reg_terms::Reply;
use serde_json::Value;
use std::alloc::{AllocError, Global};

#[tactic(auto, unfolding(crate::specs::Taking::fault_from))]
fn fault_from(value: &Value) -> Result<Reply, TakeFault>
    ensures { Takes (λ r. r) result (fault_from (view value.now)) }
{
    let word = str_in(value, "fault")?;
    match word {
        "memory" => Ok(Reply::NoMemory),
        "disk" => Ok(Reply::KeepFault),
        _ => Err(TakeFault::Unlike),
    }
}

#[tactic(auto, unfolding(crate::specs::Taking::accepted_from))]
fn accepted_from(value: &Value) -> Result<Reply, TakeFault>
    ensures { Takes (λ r. r) result (accepted_from (view value.now)) }
{
    let number = number_in(value, "number")?;
    let id = optional_number_in(value, "id")?;
    Ok(Reply::Number { number, id })
}

#[tactic(auto, unfolding(crate::specs::Taking::loaded_from))]
fn loaded_from(value: &Value) -> Result<Reply, TakeFault>
    ensures { Takes (λ r. r) result (loaded_from (view value.now)) }
{
    let number = number_in(value, "number")?;
    let counts = counts_from(value)?;
    Ok(Reply::Loaded { number, counts })
}

#[tactic(auto, unfolding(crate::specs::Taking::reply_from))]
fn reply_from(alloc: Global, value: &Value) -> Result<Reply, TakeFault>
    ensures { Takes (λ r. r) result (reply_from (view value.now)) }
{
    if has(value, "fault") {
        fault_from(value)
    } else if has(value, "refused") {
        let refusal = refusal_from(alloc, value)?;
        Ok(Reply::Refused(refusal))
    } else if has(value, "added") {
        loaded_from(value)
    } else if has(value, "number") {
        accepted_from(value)
    } else {
        let answer = answer_from(alloc, value)?;
        Ok(Reply::Answer(answer))
    }
}

#[tactic(auto, using(crate::proofs::Takings::text_lemmas), unfolding(crate::specs::Taking::reply_of))]
fn reply_of(alloc: Global, bytes: &[u8]) -> Result<Reply, TakeFault>
    ensures { Takes (λ r. r) result (reply_of bytes.now) }
{
    match Value::from_slice(alloc, bytes) {
        Ok(value) => reply_from(alloc, &value),
        Err(error) => {
            if error.is_memory() {
                Err(TakeFault::Memory)
            } else {
                Err(TakeFault::Unlike)
            }
        }
    }
}

/// Whether these bytes are the reply's text.
fn has_text(alloc: Global, reply: &Reply, bytes: &[u8]) -> Result<bool, AllocError>
    ensures { IfOk result (λ same. same ≡ bytes_eq (text reply.now) bytes.now) }
{
    let written = append_reply(Vec::new(alloc), reply)?;
    Ok(written.as_slice() == bytes)
}

/// The reply, if it is to be kept.
fn kept_if(reply: Reply, same: bool) -> Option<Reply>
    ensures { result ≡ (if same then Some reply else None) }
{
    if same { Some(reply) } else { None }
}

/// The reply, if its text is this.
fn with_text(alloc: Global, reply: Reply, bytes: &[u8]) -> Result<Option<Reply>, AllocError>
    ensures same { IfOk result (λ found. IfSome found (λ r. text r ≡ bytes.now)) }
    ensures exact { IfOk result (λ found. text reply ≡ bytes.now → found ≡ Some reply) }
{
    match has_text(alloc, &reply, bytes) {
        Ok(same) => Ok(kept_if(reply, same)),
        Err(error) => Err(error),
    }
}

/// The reply whose text these bytes are, as `write_reply` writes it. A moment among the values of
/// assignments prints as its text does, and is read as that text. None exactly where no reply has
/// that text; the only error is out of memory.
pub fn read_reply(alloc: Global, bytes: &[u8]) -> Result<Option<Reply>, AllocError>
    ensures found { IfOk result (λ found. IfSome found (λ reply. text reply ≡ bytes.now)) }

    // What the text of a reply tells is found, so two of one text differ at most in moments among
    // values.
    ensures exact { IfOk result (λ found. (reply : Reply) → IsWritable reply
        → text reply ≡ bytes.now → found ≡ Some (told reply)) }
{
    match reply_of(alloc, bytes) {
        Ok(reply) => with_text(alloc, reply, bytes),
        Err(TakeFault::Unlike) => Ok(None),
        Err(TakeFault::Memory) => Err(AllocError),
    }
}
