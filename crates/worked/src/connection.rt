// What comes of connections in a run.
use crate::bytes::{add_hex, add_number, fill};
use std::alloc::{AllocError, Global};

/// The bytes that come of a connection, and the numbers of its calls that fail.
#[derive(Drop)]
pub struct Connection {
    /// Which one sends the bytes, from 0 on, where it came before. None for a new one.
    pub sender: Option<usize>,
    pub bytes: Vec<u8>,
    pub fail: Vec<u64>,
}

impl Connection {
    /// No byte comes yet: of a new one, or of the sender.
    pub fn new(alloc: Global, sender: Option<usize>) -> Connection {
        Connection {
            sender,
            bytes: Vec::new(alloc),
            fail: Vec::new(alloc),
        }
    }

    /// The same bytes. No call of it fails.
    pub fn again(&self, alloc: Global) -> Result<Connection, AllocError> {
        Ok(Connection {
            sender: self.sender,
            bytes: self.bytes.to_vec(alloc)?,
            fail: Vec::new(alloc),
        })
    }

    fn add(&mut self, text: &str) -> Result<bool, AllocError> {
        self.bytes.extend_from_slice(text.as_bytes())?;
        Ok(true)
    }

    fn add_line(&mut self, line: &str) -> Result<bool, AllocError> {
        self.add(line)?;
        self.add("\r\n")
    }

    /// Adds the field that says a body's length, the end of the head, and the body.
    fn add_body(&mut self, alloc: Global, body: &str) -> Result<bool, AllocError> {
        let field = format!(in alloc; "Content-Length: {}\r\n\r\n", body.len())?;
        self.add(field.as_str())?;
        self.add(body)
    }

    /// Takes a line of what it is given. False where the line is none of these.
    pub fn take(&mut self, alloc: Global, key: &str, rest: &str) -> Result<bool, AllocError> {
        match key {
            ">" => self.add_line(rest),
            ">-" => self.add(rest),
            "body" => self.add_body(alloc, rest),
            "bytes" => add_hex(alloc, &mut self.bytes, rest),
            "fill" => fill(&mut self.bytes, rest),
            "fail" => match rest.strip_prefix("call ") {
                Some(number) => add_number(&mut self.fail, number),
                None => Ok(false),
            },
            _ => Ok(false),
        }
    }
}
