// What is counted of the replies, and told at the end.
ghost use Rattle.std.specs.Prelude.{◌≡◌, ◌≢◌, ◌≤◌, ◌<◌, ◌+◌, ◌++◌, IfOk, IfSome};
ghost use Rattle.reg_terms.specs.declared.reply.Reply.{Reply};
ghost use Rattle.reg_sample.specs.Played.{answered, counted, number_line, summary_text};

use reg_terms::{Answer, Reply};
use std::alloc::{AllocError, Global};

/// How many requests were refused, and how many members the last two answers of members have.
#[derive(Clone, Copy)]
pub struct Tally {
    pub refused: u64,
    pub earlier: u64,
    pub latest: u64,
}

/// What came of a sample.
#[derive(Clone, Copy)]
pub struct Summary {
    /// How many requests there were.
    pub requests: u64,
    /// How many of them were refused.
    pub refused: u64,
    /// How many commands the history has.
    pub commands: u64,
    /// How many entries the change log has.
    pub entries: u64,
    /// How many members the last answer of members but one has.
    pub earlier: u64,
    /// How many the last one has.
    pub latest: u64,
}

fn answered(tally: &Tally, answer: &Answer) -> Tally
    ensures value { result ≡ answered tally.now answer.now }
    ensures few { result.refused ≡ tally.now.refused }
{
    match answer {
        Answer::Members { members } => Tally {
            refused: tally.refused,
            earlier: tally.latest,
            latest: members.len() as u64,
        },
        _ => Tally {
            refused: tally.refused,
            earlier: tally.earlier,
            latest: tally.latest,
        },
    }
}

/// What was counted, after one reply more. None where that says that there was no memory.
pub fn counted(tally: &Tally, reply: &Reply) -> Option<Tally>
    requires { tally.now.refused < 1000000 }
    ensures value { IfSome result (λ more. more ≡ counted tally.now reply.now) }
    ensures memory { IfSome result (λ more. reply.now ≢ Reply.NoMemory) }
    ensures few { IfSome result (λ more. more.refused ≤ tally.now.refused + 1) }
{
    match reply {
        Reply::NoMemory => None,
        Reply::Answer(answer) => Some(answered(tally, answer)),
        Reply::Refused(_) => Some(Tally {
            refused: tally.refused + 1,
            earlier: tally.earlier,
            latest: tally.latest,
        }),
        Reply::Number { .. } | Reply::Loaded { .. } | Reply::KeepFault => Some(Tally {
            refused: tally.refused,
            earlier: tally.earlier,
            latest: tally.latest,
        }),
    }
}

/// Adds a line of a word and a number.
fn add_number(alloc: Global, text: Vec<u8>, word: &[u8], number: u64) -> Result<Vec<u8>, AllocError>
    ensures { IfOk result (λ more. more.items ≡ text.items ++ number_line word.now number) }
{
    let mut text = text;
    let mut line = word.to_vec(alloc)?;
    let digits = format!(in alloc; "{number}")?;
    line.extend_from_slice(digits.as_bytes())?;
    line.push(b'\n')?;
    text.extend_from_slice(&line)?;
    Ok(text)
}

/// The text of a summary: a line for each number.
pub fn summary_text(alloc: Global, summary: &Summary) -> Result<Vec<u8>, AllocError>
    ensures { IfOk result (λ text. text.items ≡ summary_text summary.now) }
{
    let text = Vec::new(alloc);
    let text = add_number(alloc, text, b"requests ", summary.requests)?;
    let text = add_number(alloc, text, b"refused ", summary.refused)?;
    let text = add_number(alloc, text, b"commands ", summary.commands)?;
    let text = add_number(alloc, text, b"entries ", summary.entries)?;
    let text = add_number(alloc, text, b"before ", summary.earlier)?;
    add_number(alloc, text, b"now ", summary.latest)
}
