// What a message of a route asks of the service.
ghost use Rattle.std.specs.Prelude.{◌≡◌, ◌≢◌, IfOk};
ghost use Rattle.reg_json.specs.Forms.{IsFormed};
ghost use Rattle.reg_http.specs.declared.route.Route.TheVariants as route;
ghost use Rattle.reg_calls.specs.Unread.{Gives};
ghost use Rattle.reg_json.specs.Reading.{body_reading_of};
ghost use Rattle.reg_calls.specs.Reading.{told_by, parameters_of, query_request, load_request};
ghost use Rattle.reg_calls.specs.Reading.{asked_with, reading_of};

use crate::queries::{extension_from, query_by};
use crate::unread::Unread;
use reg_base::{Bytes, Text};
use reg_http::{Call, Parameters, Route, read_parameters};
use reg_json::read_body;
use reg_terms::{Op, Refusal, Request};
use std::alloc::{AllocError, Global};

/// What a target tells beside its route, or the field that is refused.
fn told_by(
    alloc: Global,
    route: Route,
    target: &[u8],
) -> Result<Result<Parameters, Text>, AllocError>
    ensures { IfOk result (λ told. told ≡ told_by route target.now) }
{
    let told = read_parameters(alloc, route, target)?;
    Ok(told)
}

/// The same, or the refusal.
fn parameters_of(alloc: Global, route: Route, target: &[u8]) -> Result<Parameters, Unread>
    ensures { Gives result (parameters_of route target.now) }
{
    match told_by(alloc, route, target)? {
        Ok(parameters) => Ok(parameters),
        Err(field) => Err(Unread::Refused(Refusal::BadRequest { field })),
    }
}

/// What a body asks.
fn body_request(alloc: Global, by: &[u8], body: &[u8]) -> Result<Request, Unread>
    ensures read { Gives result (body_reading_of by.now body.now) }
    ensures form { IfOk result IsFormed }
{
    match read_body(alloc, by, body) {
        Ok(Ok(request)) => Ok(request),
        Ok(Err(refusal)) => Err(Unread::Refused(refusal)),
        Err(_) => Err(Unread::Memory),
    }
}

/// What is asked by what a target tells.
fn query_request(
    alloc: Global,
    by: &[u8],
    route: Route,
    parameters: &Parameters,
) -> Result<Request, Unread>
    ensures read { Gives result (query_request by.now route parameters.now) }
    ensures form { IfOk result IsFormed }
{
    let query = query_by(alloc, route, parameters)?;
    let by = Bytes::of(alloc, by)?;
    Ok(Request {
        by,
        key: None,
        op: Op::Query(query),
    })
}

/// The run of a job over the table that a body is.
fn load_request(
    alloc: Global,
    by: &[u8],
    body: &[u8],
    parameters: &Parameters,
) -> Result<Request, Unread>
    ensures read { Gives result (load_request by.now body.now parameters.now) }
    ensures form { IfOk result IsFormed }
{
    let job = extension_from(alloc, "job", &parameters.path)?;
    let by = Bytes::of(alloc, by)?;
    let table = Bytes::of(alloc, body)?;
    Ok(Request {
        by,
        key: None,
        op: Op::Load { job, table },
    })
}

/// What is asked by a body, or by what a target tells.
fn asked_with(
    alloc: Global,
    route: Route,
    by: &[u8],
    body: &[u8],
    parameters: &Parameters,
) -> Result<Request, Unread>
    ensures read { Gives result (asked_with route by.now body.now parameters.now) }
    ensures form { IfOk result IsFormed }
{
    match route {
        Route::Requests => body_request(alloc, by, body),
        Route::Load => load_request(alloc, by, body, parameters),
        _ => query_request(alloc, by, route, parameters),
    }
}

/// What a message of a route and a caller asks.
#[tactic(auto, unfolding(crate::specs::Reading::reading_of))]
fn request_of(alloc: Global, route: Route, by: &[u8], call: &Call) -> Result<Request, Unread>
    ensures read { Gives result (reading_of route by.now call.now) }
    ensures form { IfOk result IsFormed }
{
    let parameters = parameters_of(alloc, route, call.target.bytes())?;
    asked_with(alloc, route, by, call.body.bytes(), &parameters)
}

/// What a message of a route and a caller asks, or why it is refused in reading. The key and the
/// fields of what is asked have their forms. The only error is out of memory.
pub fn read_call(
    alloc: Global,
    route: Route,
    by: &[u8],
    call: &Call,
) -> Result<Result<Request, Refusal>, AllocError>
    ensures value { IfOk result (λ r. r ≡ reading_of route by.now call.now) }
    ensures form { IfOk result (λ r. IfOk r IsFormed) }
{
    match request_of(alloc, route, by, call) {
        Ok(request) => Ok(Ok(request)),
        Err(Unread::Refused(refusal)) => Ok(Err(refusal)),
        Err(Unread::Memory) => Err(AllocError),
    }
}
