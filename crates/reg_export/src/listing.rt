// The lines of a history's commands.
ghost use Rattle.std.specs.Prelude.{◌≡◌, ◌<◌, ◌∷◌, ◌++◌, [], OnOk, nat_le};
ghost use Rattle.reg_export.specs.Lines.{command_text};
ghost use Rattle.reg_export.specs.Listing.{beginning, cleared, is_asked, with_command};

use crate::counts::{Counts, made_after, made_by, nothing_made};
use crate::line::command_text;
use reg_terms::Stamped;
use std::alloc::{AllocError, Global};
use std::marker::Model;

fn is_asked(from: u64, to: u64, number: u64) -> bool
    ensures { result ≡ is_asked from to number }
{
    from <= number && number <= to
}

/// Adds the line of a command.
fn push_line(
    alloc: Global,
    lines: &mut Vec<u8>,
    number: u64,
    place: u64,
    made: Option<u64>,
    stamped: &Stamped,
) -> Result<(), AllocError>
    ensures { OnOk result (lines.new.items
        ≡ lines.old.items ++ command_text number place made stamped.now ++ 10 ∷ []) }
{
    let line = command_text(alloc, number, place, made, stamped)?;
    lines.extend_from_slice(&line)?;
    lines.push(b'\n')?;
    Ok(())
}

/// The lines of a history's commands from one number to another, of which the first is 1. They are
/// gathered until they are taken.
#[derive(Drop)]
pub struct Listing {
    from: u64,
    to: u64,
    number: u64,
    counts: Counts,
    lines: Vec<u8>,
}

impl Model for Listing {
    ghost use Rattle.reg_export.specs.Listing.{IsCounted, Progress};

    ghost Value = { Progress };

    ghost view = { λ l. record {
      from = l.from;
      to = l.to;
      number = l.number;
      counts = l.counts;
      lines = l.lines.items;
    } };

    ghost invariant = { λ l. IsCounted l.number l.counts };
}

impl Listing {
    /// A listing that went over nothing.
    pub fn new(alloc: Global, from: u64, to: u64) -> Listing
        ensures { result ≡ beginning from to }
    {
        Listing {
            from,
            to,
            number: 0,
            counts: nothing_made(),
            lines: Vec::new(alloc),
        }
    }

    /// Whether it went over all numbers that are asked for.
    pub fn is_over(&self) -> bool
        ensures { result ≡ nat_le self.now.to self.now.number }
    {
        self.to <= self.number
    }

    /// Goes over the next command, whose frame begins at a place of the journal: adds its line,
    /// where its number is asked for. The only error is out of memory.
    pub fn add(&mut self, alloc: Global, place: u64, stamped: &Stamped) -> Result<(), AllocError>
        requires { self.old.number < self.old.to }
        ensures { OnOk result (self.new ≡ with_command self.old place stamped.now) }
    {
        let counts = self.counts;
        let made = made_by(counts, &stamped.command);
        self.counts = made_after(counts, &stamped.command);
        self.number += 1;
        if !is_asked(self.from, self.to, self.number) {
            return Ok(());
        }
        push_line(alloc, &mut self.lines, self.number, place, made, stamped)
    }

    /// The lines that weren't taken.
    pub fn lines(&self) -> &[u8]
        ensures { result.now ≡ self.now.lines }
    {
        &self.lines
    }

    /// Takes the lines away.
    pub fn clear(&mut self)
        ensures { self.new ≡ cleared self.old }
    {
        self.lines.clear();
    }
}
