// Replies.
use crate::{Answer, Refusal};

/// What a load did, and what the records of its table say.
#[derive(Clone, Copy)]
pub struct LoadCounts {
    /// How many groups it made.
    pub created: u64,
    /// How many memberships it removed.
    pub removed: u64,
    /// How many memberships it added.
    pub added: u64,
    /// How many pairs that the table names had an immediate membership already.
    pub unchanged: u64,
    /// How many records name a person that doesn't stand, or a text that is no person's.
    pub unknown: u64,
    /// How many records name a pair that a record before them names.
    pub repeated: u64,
    /// How many pairs that the table names weren't added since a veto forbids it.
    pub vetoed: u64,
    /// How many records name no group of the job.
    pub bad_group: u64,
}

/// What a request is answered.
#[derive(Drop)]
pub enum Reply {
    /// The command was accepted: its place in the history, from 1, and the id of what it made,
    /// where that has one and no name.
    Number { number: u64, id: Option<u64> },
    /// The load was accepted: its place in the history, from 1, and what it did.
    Loaded { number: u64, counts: LoadCounts },
    /// The query's answer.
    Answer(Answer),
    /// The request was refused.
    Refused(Refusal),
    /// There was no memory to answer the request, and it changed no fact.
    NoMemory,
    /// The journal couldn't keep the command.
    KeepFault,
}
