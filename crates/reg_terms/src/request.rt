// Requests.
use crate::{Command, Query};
use reg_base::{Bytes, Text};

/// What is asked of the registry.
#[derive(Drop)]
pub enum Op {
    Command(Command),
    Query(Query),
    /// A table for the loader job of this name.
    Load { job: Text, table: Bytes },
}

/// What is asked of the registry, and by whom.
#[derive(Drop)]
pub struct Request {
    /// The caller's text: a person's or the registry's own; any other is nobody's.
    pub by: Bytes,
    /// What tells the request apart from all others of its caller: sent again with the same key, a
    /// command acts once.
    pub key: Option<Text>,
    pub op: Op,
}
