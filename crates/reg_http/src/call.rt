//! What a reader gives of the bytes of a connection.

use reg_base::Bytes;
use thiserror::Error;

/// A whole message.
#[derive(Drop)]
pub struct Call {
    pub method: Bytes,
    pub target: Bytes,
    /// The value of `X-Registry-Caller`, or None where that field doesn't stand exactly once.
    pub caller: Option<Bytes>,
    pub body: Bytes,
    /// Whether the connection is to be closed after the response.
    pub close: bool,
}

/// Why a head isn't taken. Each closes the connection.
#[derive(Clone, Copy, Debug, Drop, Error)]
pub enum HeadFault {
    /// More than 64 fields, or no end in 16,384 bytes.
    #[error("the head of the request is longer than it may be")]
    HeadTooLong,
    /// No head of HTTP/1.0 or 1.1, or its `Host` or `Content-Length` is wrong.
    #[error("the head of the request has no form that HTTP knows")]
    BadHead,
    /// A `Transfer-Encoding` stands.
    #[error("the body is sent in a coding")]
    Coding,
    /// The body has more than 8,388,608 bytes.
    #[error("the body is longer than it may be")]
    TooLong,
    /// A POST without `Content-Length`.
    #[error("the body's length isn't told")]
    NoLength,
}

/// What comes next in the bytes of a connection.
#[derive(Drop)]
pub enum Turn {
    Call(Call),
    /// The bytes hold no whole message and no fault.
    NeedMore,
    Bad(HeadFault),
}
