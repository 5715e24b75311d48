//! The head at the front of the bytes of a connection.

ghost use Rattle.std.specs.Prelude.{◌≡◌, ℕ, ◌≤◌, List, All, length, map, take, IfOk, option_map};
ghost use Rattle.std.specs.Prelude.{IfSome, IsSome};
ghost use Rattle.httparse.specs.Grammar.{RequestHead};
ghost use Rattle.httparse.specs.Spans.{IsHeaderWithin, IsWithin, span_bytes, header_bytes};
ghost use Rattle.httparse.specs.Spans.{IsRequestWithin, IsRequestAt};
ghost use Rattle.reg_http.specs.Heads.{stated_length, body_length, caller_in, closes_after};
ghost use Rattle.reg_http.specs.Messages.{window};
ghost use Rattle.reg_http.specs.Fronts.{IsJudged, IsFront};

use crate::call::HeadFault;
use crate::fields::{Standing, closes, how_often, length_in, stands, stands_once};
use httparse::spans::{EMPTY_HEADER_SPAN, HeaderSpan, RequestSpans, parse_request};
use httparse::{Error, Status};
use reg_base::Bytes;
use std::alloc::{AllocError, Global};

/// The most bytes of a head.
const HEAD_LIMIT: usize = 16_384;

/// How many fields most heads have at most.
const USUAL_ROOM: usize = 16;

/// The most fields of a head that is taken.
const FIELD_LIMIT: usize = 64;

/// The most fields that the bytes of a head can have: each takes three bytes or more.
const FIELD_ROOM: usize = 5_462;

/// The most bytes of a body.
const BODY_LIMIT: usize = 8_388_608;

/// What the head of a message says.
#[derive(Drop)]
pub(crate) struct Head {
    pub(crate) method: Bytes,
    pub(crate) target: Bytes,
    pub(crate) caller: Option<Bytes>,
    pub(crate) close: bool,
    /// The length of the head, where the body begins.
    pub(crate) length: usize,
    /// The length of the body.
    pub(crate) body: usize,
}

/// What stands at the front of bytes.
#[derive(Drop)]
pub(crate) enum Front {
    Head(Head),
    NeedMore,
    Bad(HeadFault),
}

/// The bytes in which a head must end.
fn window_of(bytes: &[u8]) -> &[u8]
    ensures { result.now ≡ window bytes.now }
{
    if bytes.len() < HEAD_LIMIT {
        bytes
    } else {
        &bytes[..HEAD_LIMIT]
    }
}

/// The length that the value of a `Content-Length` states.
fn stated_length(text: &[u8]) -> Result<usize, HeadFault>
    ensures { result ≡ stated_length text.now }
{
    match length_in(text) {
        Some(length) if length > BODY_LIMIT => Err(HeadFault::TooLong),
        Some(length) => Ok(length),
        None => Err(HeadFault::BadHead),
    }
}

/// The length of the body after a head with these fields, or why the head isn't taken.
fn body_length(
    bytes: &[u8],
    version: u8,
    method: &[u8],
    fields: &[HeaderSpan],
) -> Result<usize, HeadFault>
    requires { All (IsHeaderWithin (length bytes.now)) fields.now }
    ensures { result ≡ body_length version method.now (map (header_bytes bytes.now) fields.now) }
{
    if fields.len() > FIELD_LIMIT {
        return Err(HeadFault::HeadTooLong);
    }
    if version == 1 && !stands_once(bytes, fields, b"host") {
        return Err(HeadFault::BadHead);
    }
    if stands(bytes, fields, b"transfer-encoding") {
        return Err(HeadFault::Coding);
    }
    match how_often(bytes, fields, b"content-length") {
        Standing::Never => if method == b"POST".as_slice() {
            Err(HeadFault::NoLength)
        } else {
            Ok(0)
        },
        Standing::Once(span) => stated_length(span.of(bytes)),
        Standing::Often => Err(HeadFault::BadHead),
    }
}

/// The value of `X-Registry-Caller`, where it stands exactly once.
fn caller(alloc: Global, bytes: &[u8], fields: &[HeaderSpan]) -> Result<Option<Bytes>, AllocError>
    requires { All (IsHeaderWithin (length bytes.now)) fields.now }
    ensures { IfOk result (λ caller. caller ≡ caller_in (map (header_bytes bytes.now) fields.now)) }
{
    match how_often(bytes, fields, b"x-registry-caller") {
        Standing::Once(span) => Ok(Some(Bytes::of(alloc, span.of(bytes))?)),
        Standing::Never | Standing::Often => Ok(None),
    }
}

/// What a head says, whose body has this length.
fn taken(
    alloc: Global,
    bytes: &[u8],
    spans: &RequestSpans,
    fields: &[HeaderSpan],
    body: usize,
) -> Result<Head, AllocError>
    requires fields_fit { All (IsHeaderWithin (length bytes.now)) fields.now }
    requires method_fits { IsWithin (length bytes.now) spans.now.method }
    requires target_fits { IsWithin (length bytes.now) spans.now.path }
    ensures method { IfOk result (λ head. head.method ≡ span_bytes bytes.now spans.now.method) }
    ensures target { IfOk result (λ head. head.target ≡ span_bytes bytes.now spans.now.path) }
    ensures caller { IfOk result (λ head. head.caller
        ≡ caller_in (map (header_bytes bytes.now) fields.now)) }
    ensures close { IfOk result (λ head. head.close
        ≡ closes_after spans.now.version (map (header_bytes bytes.now) fields.now)) }
    ensures length { IfOk result (λ head. head.length ≡ spans.now.len) }
    ensures body { IfOk result (λ head. head.body ≡ body) }
{
    Ok(Head {
        method: Bytes::of(alloc, spans.method.of(bytes))?,
        target: Bytes::of(alloc, spans.path.of(bytes))?,
        caller: caller(alloc, bytes, fields)?,
        close: spans.version == 0 || closes(bytes, fields),
        length: spans.len,
        body,
    })
}

/// What a whole head says, or its fault.
fn judge(
    alloc: Global,
    bytes: &[u8],
    spans: &RequestSpans,
    headers: &[HeaderSpan],
) -> Result<Front, AllocError>
    requires { IsRequestWithin bytes.now headers.now spans.now }
    ensures { IfOk result (λ front. (head : RequestHead)
        → IsRequestAt bytes.now headers.now spans.now head → IsJudged head front) }
{
    let fields = &headers[..spans.headers];
    match body_length(bytes, spans.version, spans.method.of(bytes), fields) {
        Ok(body) => Ok(Front::Head(taken(alloc, bytes, spans, fields, body)?)),
        Err(fault) => Ok(Front::Bad(fault)),
    }
}

/// What stands at the front of the bytes, where there are places for all fields that come.
fn read_into(
    alloc: Global,
    bytes: &[u8],
    places: &mut [HeaderSpan],
) -> Result<Option<Front>, AllocError>
    ensures front { IfOk result (λ front. IfSome front (IsFront bytes.now)) }
    ensures room { 5462 ≤ length places.old → IfOk result (λ front. IsSome front) }
{
    let window = window_of(bytes);
    match parse_request(window, places) {
        Ok(Status::Complete(spans)) => Ok(Some(judge(alloc, window, &spans, places)?)),
        Ok(Status::Partial) => if bytes.len() < HEAD_LIMIT {
            Ok(Some(Front::NeedMore))
        } else {
            Ok(Some(Front::Bad(HeadFault::HeadTooLong)))
        },
        Err(Error::TooManyHeaders) => Ok(None),
        Err(_) => Ok(Some(Front::Bad(HeadFault::BadHead))),
    }
}

/// The same with so many places at least. Those that are there are used again.
fn read_with(
    alloc: Global,
    bytes: &[u8],
    places: &mut Vec<HeaderSpan>,
    room: usize,
) -> Result<Option<Front>, AllocError>
    ensures front { IfOk result (λ front. IfSome front (IsFront bytes.now)) }
    ensures room { 5462 ≤ room → IfOk result (λ front. IsSome front) }
{
    if places.len() < room {
        *places = vec![in alloc; EMPTY_HEADER_SPAN; room]?;
    }
    read_into(alloc, bytes, places.as_mut_slice())
}

/// What stands at the front of the bytes. Places for the fields are made as a head needs them: for
/// a usual one, for the largest that is taken, or for all that its bytes can have.
pub(crate) fn read_front(
    alloc: Global,
    bytes: &[u8],
    places: &mut Vec<HeaderSpan>,
) -> Result<Front, AllocError>
    ensures { IfOk result (IsFront bytes.now) }
{
    if let Some(front) = read_with(alloc, bytes, places, USUAL_ROOM)? {
        return Ok(front);
    }
    if let Some(front) = read_with(alloc, bytes, places, FIELD_LIMIT)? {
        return Ok(front);
    }
    match read_with(alloc, bytes, places, FIELD_ROOM)? {
        Some(front) => Ok(front),
        None => unreachable!(),
    }
}
