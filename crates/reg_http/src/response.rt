//! The bytes of a response.

ghost use Rattle.std.specs.Prelude.{◌≡◌, ◌++◌, length, IfOk, OnOk, decimal, option_map};
ghost use Rattle.http.specs.StatusCode.{IsStatusCode};
ghost use Rattle.reg_http.specs.Responses.{IsStatus, phrase, allow_line, close_line, first_lines};
ghost use Rattle.reg_http.specs.Responses.{response};

use http::StatusCode;
use std::alloc::{AllocError, Global};

/// The phrase of a status.
#[tactic(auto, unfolding(crate::specs::Responses::phrase))]
fn phrase(status: u16) -> &'static str
    requires { IsStatusCode status }
    ensures { result.now ≡ phrase status }
{
    match StatusCode::from_u16(status) {
        Ok(code) => code.canonical_reason().unwrap_or(""),
        Err(_) => "",
    }
}

/// How many bytes the lines before a body take at most, or nearly so.
const HEAD_ROOM: usize = 128;

/// Adds a number.
fn push_number(alloc: Global, text: &mut Vec<u8>, number: usize) -> Result<(), AllocError>
    ensures { OnOk result (text.new.items ≡ text.old.items ++ decimal number) }
{
    let digits = format!(in alloc; "{number}")?;
    text.extend_from_slice(digits.as_bytes())
}

/// The status line of most responses, and the lines on a body of so many bytes, for which there is
/// room behind them.
fn usual_lines(alloc: Global, size: usize) -> Result<Vec<u8>, AllocError>
    ensures { IfOk result (λ text. text.items ≡ first_lines 200 size) }
{
    let mut lines = Vec::with_capacity(alloc, size.saturating_add(HEAD_ROOM))?;
    lines.extend_from_slice(
        b"HTTP/1.1 200 OK\r\nContent-Type: application/json\r\nContent-Length: ",
    )?;
    push_number(alloc, &mut lines, size)?;
    lines.extend_from_slice(b"\r\n")?;
    Ok(lines)
}

/// The status line, and the lines on a body of so many bytes.
#[tactic(auto, unfolding(crate::specs::Responses::first_lines))]
fn told_lines(alloc: Global, status: u16, size: usize) -> Result<Vec<u8>, AllocError>
    requires { IsStatus status }
    ensures { IfOk result (λ text. text.items ≡ first_lines status size) }
{
    let phrase = phrase(status);
    let lines = format!(in alloc;
        "HTTP/1.1 {status} {phrase}\r\nContent-Type: application/json\r\nContent-Length: {size}\r\n"
    )?;
    Ok(lines.into_bytes())
}

/// The same, where most responses are made at once.
fn first_lines(alloc: Global, status: u16, size: usize) -> Result<Vec<u8>, AllocError>
    requires { IsStatus status }
    ensures { IfOk result (λ text. text.items ≡ first_lines status size) }
{
    match status {
        200 => usual_lines(alloc, size),
        _ => told_lines(alloc, status, size),
    }
}

/// Adds the line that tells the allowed method, if there is one.
fn push_allow(text: &mut Vec<u8>, allow: Option<&[u8]>) -> Result<(), AllocError>
    ensures { OnOk result (text.new.items
        ≡ text.old.items ++ allow_line (option_map (λ method. method.now) allow.entry)) }
{
    if let Some(method) = allow {
        text.extend_from_slice(b"Allow: ")?;
        text.extend_from_slice(method)?;
        text.extend_from_slice(b"\r\n")?;
    }
    Ok(())
}

/// Adds the line that tells that the connection closes, if it does.
fn push_close(text: &mut Vec<u8>, close: bool) -> Result<(), AllocError>
    ensures { OnOk result (text.new.items ≡ text.old.items ++ close_line close) }
{
    if close {
        text.extend_from_slice(b"Connection: close\r\n")?;
    }
    Ok(())
}

/// A response with this body, which is JSON. `allow` names the method that the route has, where it
/// is told, and `close` says whether the connection closes. The only error is out of memory.
pub fn write_response(
    alloc: Global,
    status: u16,
    allow: Option<&[u8]>,
    close: bool,
    body: &[u8],
) -> Result<Vec<u8>, AllocError>
    requires { IsStatus status }
    ensures { IfOk result (λ text. text.items
        ≡ response status (option_map (λ method. method.now) allow.entry) close body.now) }
{
    let mut text = first_lines(alloc, status, body.len())?;
    push_allow(&mut text, allow)?;
    push_close(&mut text, close)?;
    text.extend_from_slice(b"\r\n")?;
    text.extend_from_slice(body)?;
    Ok(text)
}
