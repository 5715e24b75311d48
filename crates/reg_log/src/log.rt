// The list of what was changed.
ghost use Rattle.std.specs.Prelude.{◌≡◌, ◌++◌, ◌∷◌, [], length, IfOk, OnOk, OnErr};
ghost use Rattle.reg_log.specs.Numbering.{entries_after, entry_of, moment_of};
ghost use Rattle.reg_log.specs.Stretches.{line_of};

use crate::Entry;
use crate::stored::{StoredLine, Stretch};
use crate::stretches::{begin_at, count_begun, count_next, moment_begun};
use reg_base::Moment;
use reg_terms::{EntryKind, Holder, Object};
use std::alloc::{AllocError, Global};
use std::marker::Model;

/// What was changed, in order: lines are added at the end alone. Contracts see the list of lines.
#[derive(Drop)]
pub struct ChangeLog {
    alloc: Global,
    lines: Vec<StoredLine>,
    /// The moments of the lines: one for each run of lines that have the same.
    stretches: Vec<Stretch>,
}

impl Model for ChangeLog {
    ghost use Rattle.std.specs.Prelude.{List, length};
    ghost use Rattle.reg_log.specs.declared.entries.Line.{Line};
    ghost use Rattle.reg_log.specs.Stretches.{lines_from, Begin};

    ghost Value = { List Line };

    ghost view = { λ log. lines_from 0 log.stretches.items log.lines.items };

    ghost invariant = { λ log. Begin 0 log.stretches.items (length log.lines.items) };
}

/// Adds a stored line with its number and its moment at the end of some entries.
fn put(entries: &mut Vec<Entry>, seq: u64, at: Moment, line: &StoredLine) -> Result<(), AllocError>
    ensures { OnOk result
        (entries.new.items ≡ entries.old.items ++ entry_of seq (line_of at line.now) ∷ []) }
{
    entries.push(Entry {
        seq,
        at,
        kind: line.kind(),
        object: line.object(),
        entity: line.entity(),
        number: u64::from(line.number()),
    })?;
    Ok(())
}

impl ChangeLog {
    /// Nothing was changed. Takes no memory.
    pub fn new(alloc: Global) -> ChangeLog
        ensures { result ≡ [] }
    {
        ChangeLog {
            alloc,
            lines: Vec::new(alloc),
            stretches: Vec::new(alloc),
        }
    }

    /// Adds an entry at the end, and gives its number. Out of memory the log stays as it was.
    pub fn append(
        &mut self,
        at: Moment,
        kind: EntryKind,
        object: Option<Object>,
        entity: Option<Holder>,
        number: u32,
    ) -> Result<u64, AllocError>
        ensures number { IfOk result (λ seq. seq ≡ length self.new) }
        ensures added { OnOk result (self.new
            ≡ self.old ++ (record {
              at = at;
              kind = kind;
              object = object;
              entity = entity;
              number = number;
            }) ∷ []) }
        ensures err { OnErr result (self.new ≡ self.old) }
    {
        self.lines.reserve(1)?;
        begin_at(&mut self.stretches, self.lines.len(), at)?;
        self.lines
            .push_reserved(StoredLine::new(kind, object, entity, number));
        Ok(self.lines.len() as u64)
    }

    /// The number of the last entry, or 0. Takes no memory.
    pub fn last(&self) -> u64
        ensures { result ≡ length self.now }
    {
        self.lines.len() as u64
    }

    /// The moment of the entry of a number; None where there is no such entry. Costs a search by
    /// halves, and takes no memory.
    pub fn moment_of(&self, seq: u64) -> Option<Moment>
        ensures { result ≡ moment_of seq self.now }
    {
        let before = seq.checked_sub(1)? as usize;
        if self.lines.len() <= before {
            return None;
        }
        let count = count_begun(&self.stretches, before);
        Some(moment_begun(&self.stretches, count))
    }

    /// The entries whose numbers are greater than a place, at most `max` of them. Costs a search
    /// by halves, and what it gives.
    pub fn after(&self, place: u64, max: u64) -> Result<Vec<Entry>, AllocError>
        ensures { IfOk result (λ entries. entries.items ≡ entries_after place max self.now) }
    {
        let mut entries = Vec::new(self.alloc);
        let count = self.lines.len() as u64;
        let mut seq = place.min(count);
        let end = seq + max.min(count - seq);
        let lines = &self.lines[seq as usize..end as usize];
        let stretches = self.stretches.as_slice();
        let mut begun = count_begun(stretches, seq as usize);
        for line in lines {
            put(&mut entries, seq + 1, moment_begun(stretches, begun), line)?;
            begun = count_next(stretches, begun, seq as usize);
            seq += 1;
        }
        Ok(entries)
    }
}
