// The line that is being read.
ghost use Rattle.std.specs.Prelude.{◌≡◌, ◌<◌, ◌++◌, [], List, ℕ, length};
ghost use Rattle.reg_session.specs.Lines.{is_skipped};
ghost use Rattle.reg_session.specs.Pending.{Holds, ReadsLine, AsksFormed};

use reg_json::{law_long_is_refused, read_request};
use reg_terms::{MAX_LINE, Refusal, Request};
use std::alloc::Global;

const CARRIAGE_RETURN: u8 = 13;

/// The bytes since the last LF, as far as they are kept.
#[derive(Drop)]
pub enum PendingLine {
    /// All of them.
    Kept(Vec<u8>),
    /// There are too many: the line is refused, whatever they are.
    TooLong,
    /// There was no memory for one of them. `is_return` says whether the line is one CR.
    Lost { is_return: bool },
}

/// What a line that isn't skipped asks.
#[derive(Drop)]
pub enum LineReading {
    Asked(Request),
    Refused(Refusal),
    /// There was no memory to read it.
    NoMemory,
}

fn is_skipped(line: &[u8]) -> bool
    ensures { result ≡ is_skipped line.now }
{
    match line {
        [] => true,
        [b] => *b == CARRIAGE_RETURN,
        _ => false,
    }
}

/// What kept bytes ask.
#[tactic(auto, using(crate::proofs::Formed::has_form))]
fn reading_of_bytes(alloc: Global, line: &[u8]) -> LineReading
    ensures says { ReadsLine result line.now }
    ensures form { AsksFormed result }
{
    match read_request(alloc, line) {
        Ok(Ok(request)) => LineReading::Asked(request),
        Ok(Err(refusal)) => LineReading::Refused(refusal),
        Err(_) => LineReading::NoMemory,
    }
}

/// The refusal of a line of too many bytes.
fn reading_of_long() -> LineReading
    ensures says { (line : List ℕ) → Holds PendingLine.TooLong line → ReadsLine result line }
    ensures form { AsksFormed result }
{
    law_long_is_refused();
    LineReading::Refused(Refusal::TooLong {
        limit: MAX_LINE as u64,
    })
}

impl PendingLine {
    /// The line of no bytes.
    pub fn start(alloc: Global) -> PendingLine
        ensures { Holds result [] }
    {
        PendingLine::Kept(Vec::new(alloc))
    }

    /// Takes further bytes. Where there is no memory for them, or the line gets too long, its bytes
    /// are given up.
    #[tactic(auto, using(crate::proofs::Long::longer_asks, crate::proofs::Long::nothing_more))]
    pub fn extend(self, more: &[u8]) -> PendingLine
        ensures { (line : List ℕ) → Holds self line → Holds result (line ++ more.now) }
    {
        if more.is_empty() {
            return self;
        }
        match self {
            PendingLine::Kept(bytes) => kept_with(bytes, more),
            PendingLine::TooLong => PendingLine::TooLong,
            PendingLine::Lost { .. } => PendingLine::Lost { is_return: false },
        }
    }

    /// Whether the line asks nothing: it has no bytes, or is one CR.
    #[tactic(auto, using(crate::proofs::Long::long_asks))]
    pub fn is_skipped(&self) -> bool
        ensures { (line : List ℕ) → Holds self.now line → result ≡ is_skipped line }
    {
        match self {
            PendingLine::Kept(bytes) => is_skipped(bytes),
            PendingLine::TooLong => false,
            PendingLine::Lost { is_return } => *is_return,
        }
    }

    /// What the line asks, if it isn't skipped.
    pub fn reading(&self, alloc: Global) -> LineReading
        ensures says { (line : List ℕ) → Holds self.now line → ReadsLine result line }
        ensures form { AsksFormed result }
    {
        match self {
            PendingLine::Kept(bytes) => reading_of_bytes(alloc, bytes),
            PendingLine::TooLong => reading_of_long(),
            PendingLine::Lost { .. } => LineReading::NoMemory,
        }
    }

    /// The line of no bytes again, over the memory that this one has.
    pub fn clear(self, alloc: Global) -> PendingLine
        ensures { Holds result [] }
    {
        match self {
            PendingLine::Kept(mut bytes) => {
                bytes.clear();
                PendingLine::Kept(bytes)
            }
            _ => PendingLine::start(alloc),
        }
    }
}

/// Kept bytes and more.
#[tactic(auto, using(crate::proofs::Long::longer_asks))]
fn kept_with(bytes: Vec<u8>, more: &[u8]) -> PendingLine
    requires { 0 < length more.now }
    ensures { Holds result (bytes.items ++ more.now) }
{
    if more.len() > MAX_LINE || bytes.len() > MAX_LINE - more.len() {
        return PendingLine::TooLong;
    }
    let mut bytes = bytes;
    let is_return = bytes.is_empty() && is_skipped(more);
    match bytes.extend_from_slice(more) {
        Ok(()) => PendingLine::Kept(bytes),
        Err(_) => PendingLine::Lost { is_return },
    }
}
