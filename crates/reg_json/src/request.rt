// Requests.
ghost use Rattle.std.specs.Prelude.{◌≡◌, IfOk};
ghost use Rattle.serde_json.specs.View.{view};
ghost use Rattle.reg_json.specs.Steps.{Gives};
ghost use Rattle.reg_json.specs.Forms.{IsFormed};
ghost use Rattle.reg_json.specs.Reading.{data_of, known_kind, request_in, reading_of, body_in};
ghost use Rattle.reg_json.specs.Reading.{body_reading_of};

use crate::fault::{ReadFault, bad};
use crate::fields::{Carrier, text_at};
use crate::ops::{Asked, asked_in};
use crate::words::op_named;
use reg_base::Bytes;
use reg_ops::{OpKind, law_ops};
use reg_terms::{MAX_LINE, Refusal, Request};
use serde_json::Value;
use std::alloc::{AllocError, Global};

#[tactic(auto, using(crate::proofs::Lines::line_lemmas), unfolding(crate::specs::Reading::data_of))]
fn data_of(alloc: Global, line: &[u8]) -> Result<Value, ReadFault>
    ensures { Gives view result (data_of line.now) }
{
    if line.len() > MAX_LINE {
        return Err(ReadFault::Refused(Refusal::TooLong {
            limit: MAX_LINE as u64,
        }));
    }
    match Value::from_slice(alloc, line) {
        Ok(value) => {
            if value.is_object() {
                Ok(value)
            } else {
                Err(bad(alloc, ""))
            }
        }
        Err(error) => {
            if error.is_memory() {
                Err(ReadFault::Memory)
            } else {
                Err(bad(alloc, ""))
            }
        }
    }
}

fn known_kind(alloc: Global, word: &str) -> Result<OpKind, ReadFault>
    ensures { Gives (λ k. k) result (known_kind word.now) }
{
    match op_named(word) {
        Some(kind) => Ok(kind),
        None => Err(bad(alloc, "op")),
    }
}

#[tactic(auto, unfolding(crate::specs::Reading::request_in))]
fn request_in(alloc: Global, value: &Value) -> Result<Request, ReadFault>
    ensures { Gives (λ r. r) result (request_in (view value.now)) }
{
    let word = text_at(alloc, value, "op")?;
    let kind = known_kind(alloc, word)?;
    let by = text_at(alloc, value, "by")?;
    let by = Bytes::of(alloc, by.as_bytes())?;
    let Asked { key, op } = asked_in(alloc, Carrier::Line, value, kind)?;
    Ok(Request { by, key, op })
}

#[tactic(auto, unfolding(crate::specs::Reading::reading_of))]
fn reading_of(alloc: Global, line: &[u8]) -> Result<Request, ReadFault>
    ensures { Gives (λ r. r) result (reading_of line.now) }
{
    match data_of(alloc, line) {
        Ok(value) => request_in(alloc, &value),
        Err(fault) => Err(fault),
    }
}

/// What a line asks, or why it is refused (`docs/REQUESTS.md`, "Reading"): TooLong, BadRequest,
/// BadName or BadMoment. The key and the fields of a request that is read have their forms. The
/// only error is out of memory.
pub fn read_request(alloc: Global, line: &[u8]) -> Result<Result<Request, Refusal>, AllocError>
    ensures value { IfOk result (λ r. r ≡ reading_of line.now) }
    ensures form { IfOk result (λ r. IfOk r IsFormed) }
{
    law_ops();
    match reading_of(alloc, line) {
        Ok(request) => Ok(Ok(request)),
        Err(ReadFault::Refused(refusal)) => Ok(Err(refusal)),
        Err(ReadFault::Memory) => Err(AllocError),
    }
}

#[tactic(auto, unfolding(crate::specs::Reading::body_in))]
fn body_in(alloc: Global, by: &[u8], value: &Value) -> Result<Request, ReadFault>
    ensures { Gives (λ r. r) result (body_in by.now (view value.now)) }
{
    let word = text_at(alloc, value, "op")?;
    let kind = known_kind(alloc, word)?;
    let by = Bytes::of(alloc, by)?;
    let Asked { key, op } = asked_in(alloc, Carrier::Body, value, kind)?;
    Ok(Request { by, key, op })
}

#[tactic(auto, unfolding(crate::specs::Reading::body_reading_of))]
fn body_reading_of(alloc: Global, by: &[u8], body: &[u8]) -> Result<Request, ReadFault>
    ensures { Gives (λ r. r) result (body_reading_of by.now body.now) }
{
    match data_of(alloc, body) {
        Ok(value) => body_in(alloc, by, &value),
        Err(fault) => Err(fault),
    }
}

/// What a body asks for a caller of any bytes, or why it is refused. It is read as a line is, but
/// the key `by` is one that no op knows. The only error is out of memory.
pub fn read_body(
    alloc: Global,
    by: &[u8],
    body: &[u8],
) -> Result<Result<Request, Refusal>, AllocError>
    ensures value { IfOk result (λ r. r ≡ body_reading_of by.now body.now) }
    ensures form { IfOk result (λ r. IfOk r IsFormed) }
{
    law_ops();
    match body_reading_of(alloc, by, body) {
        Ok(request) => Ok(Ok(request)),
        Err(ReadFault::Refused(refusal)) => Ok(Err(refusal)),
        Err(ReadFault::Memory) => Err(AllocError),
    }
}
