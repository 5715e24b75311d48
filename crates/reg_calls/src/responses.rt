// Responses.
ghost use Rattle.std.specs.Prelude.{◌≡◌, ◌++◌, ◌∷◌, [], None, true, false, IfOk, option_map};
ghost use Rattle.reg_terms.specs.declared.reply.Reply.TheVariants as reply;
ghost use Rattle.reg_http.specs.Responses.{IsStatus, response};
ghost use Rattle.reg_calls.specs.Responses.{refusal_status, status_of, allow_of, line_of};
ghost use Rattle.reg_calls.specs.Responses.{response_to, fault_response};

use crate::asked::Asked;
use reg_http::write_response;
use reg_json::append_line;
use reg_terms::{Refusal, Reply};
use std::alloc::{AllocError, Global};

/// How many bytes most replies take at most.
const USUAL_ROOM: usize = 512;

/// The status of a refusal.
fn refusal_status(refusal: &Refusal) -> u16
    ensures value { result ≡ refusal_status refusal.now }
    ensures status { IsStatus result }
{
    match refusal {
        Refusal::BadRequest { .. }
        | Refusal::BadName { .. }
        | Refusal::BadMoment { .. }
        | Refusal::BadWindow
        | Refusal::WrongKind { .. }
        | Refusal::BadTable { .. }
        | Refusal::WrongValue
        | Refusal::NoCallerHeader
        | Refusal::BadHead => 400,
        Refusal::NoCaller | Refusal::Denied { .. } => 403,
        Refusal::NotFound { .. } | Refusal::NoSuch | Refusal::NoRoute => 404,
        Refusal::NoMethod => 405,
        Refusal::NoLength => 411,
        Refusal::TooLong { .. } => 413,
        Refusal::HeadTooLong => 431,
        Refusal::Coding => 501,
        _ => 409,
    }
}

/// The status of a reply.
fn status_of(reply: &Reply) -> u16
    ensures value { result ≡ status_of reply.now }
    ensures status { IsStatus result }
{
    match reply {
        Reply::Number { .. } | Reply::Loaded { .. } | Reply::Answer(_) => 200,
        Reply::Refused(refusal) => refusal_status(refusal),
        Reply::NoMemory => 503,
        Reply::KeepFault => 500,
    }
}

/// The method that is told as allowed, where another was asked for.
fn allow_of(asked: &Asked, reply: &Reply) -> Option<&'static [u8]>
    ensures { option_map (λ method. method.now) result ≡ allow_of reply.now asked.now }
{
    match reply {
        Reply::Refused(Refusal::NoMethod) => match asked {
            Asked::NoMethod(route) => Some(route.method()),
            _ => None,
        },
        _ => None,
    }
}

/// The response to a message that asked this.
pub fn response_to(
    alloc: Global,
    asked: &Asked,
    close: bool,
    reply: &Reply,
) -> Result<Vec<u8>, AllocError>
    ensures { IfOk result (λ text. text.items ≡ response_to asked.now close reply.now) }
{
    let line = append_line(Vec::with_capacity(alloc, USUAL_ROOM)?, reply)?;
    write_response(
        alloc,
        status_of(reply),
        allow_of(asked, reply),
        close,
        &line,
    )
}

/// The response that there was no memory. It takes none.
fn no_memory_open() -> &'static [u8]
    ensures { result.now ≡ response 503 None false (line_of reply.NoMemory) }
{
    b"HTTP/1.1 503 Service Unavailable\r\nContent-Type: application/json\r\nContent-Length: 19\r\n\r\n{\"fault\":\"memory\"}\n"
}

/// The same, where the connection closes.
fn no_memory_closed() -> &'static [u8]
    ensures { result.now ≡ response 503 None true (line_of reply.NoMemory) }
{
    b"HTTP/1.1 503 Service Unavailable\r\nContent-Type: application/json\r\nContent-Length: 19\r\nConnection: close\r\n\r\n{\"fault\":\"memory\"}\n"
}

/// The response that there was no memory, whatever was asked.
pub fn no_memory(close: bool) -> &'static [u8]
    ensures { result.now ≡ response 503 None close (line_of reply.NoMemory) }
{
    if close {
        no_memory_closed()
    } else {
        no_memory_open()
    }
}

/// The response that the disk failed. It takes no memory.
fn keep_fault_open() -> &'static [u8]
    ensures { result.now ≡ response 500 None false (line_of reply.KeepFault) }
{
    b"HTTP/1.1 500 Internal Server Error\r\nContent-Type: application/json\r\nContent-Length: 17\r\n\r\n{\"fault\":\"disk\"}\n"
}

/// The same, where the connection closes.
fn keep_fault_closed() -> &'static [u8]
    ensures { result.now ≡ response 500 None true (line_of reply.KeepFault) }
{
    b"HTTP/1.1 500 Internal Server Error\r\nContent-Type: application/json\r\nContent-Length: 17\r\nConnection: close\r\n\r\n{\"fault\":\"disk\"}\n"
}

/// The response that the disk failed, whatever was asked.
pub fn keep_fault(close: bool) -> &'static [u8]
    ensures { result.now ≡ response 500 None close (line_of reply.KeepFault) }
{
    if close {
        keep_fault_closed()
    } else {
        keep_fault_open()
    }
}

/// The response to a head that isn't taken.
pub fn fault_response(alloc: Global, reply: &Reply) -> Result<Vec<u8>, AllocError>
    ensures { IfOk result (λ text. text.items ≡ fault_response reply.now) }
{
    let line = append_line(Vec::with_capacity(alloc, USUAL_ROOM)?, reply)?;
    write_response(alloc, status_of(reply), None, true, &line)
}
