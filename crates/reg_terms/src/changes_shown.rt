// What the queries of a group's history and of the change log show.
ghost use Rattle.std.specs.Prelude.{◌≡◌, [], ◌∷◌, ◌++◌, OnOk, OnErr};
ghost use Rattle.reg_terms.specs.declared.changes_shown.SpanShown.{SpanShown};
ghost use Rattle.reg_terms.specs.declared.changes_shown.EntryShown.{EntryShown};

use crate::EntryKind;
use reg_base::{Moment, Text};
use std::alloc::{AllocError, Global};
use std::marker::Model;

/// A time in which a person was an effective member, with the person's text.
#[derive(Drop)]
pub struct SpanShown {
    /// The moment at which it began.
    pub from: Moment,
    pub subject: Text,
    /// The moment at which it ended, if it has.
    pub to: Option<Moment>,
}

/// A list of times in which persons were effective members. Contracts see the list.
#[derive(Drop)]
pub struct SpansShown {
    items: Vec<SpanShown>,
}

impl Model for SpansShown {
    ghost use Rattle.std.specs.Prelude.{List};
    ghost use Rattle.reg_terms.specs.declared.changes_shown.SpanShown.{SpanShown};

    ghost Value = { List SpanShown };

    ghost view = { λ s. s.items.items };
}

impl SpansShown {
    /// The empty list.
    pub fn new(alloc: Global) -> SpansShown
        ensures { result ≡ [] }
    {
        SpansShown {
            items: Vec::new(alloc),
        }
    }

    /// Adds a time at the end. Where there is no memory the list stays as it was.
    pub fn push(&mut self, item: SpanShown) -> Result<(), AllocError>
        ensures ok { OnOk result (self.new ≡ self.old ++ item ∷ []) }
        ensures err { OnErr result (self.new ≡ self.old) }
    {
        self.items.push(item)?;
        Ok(())
    }

    /// The times.
    pub fn list(&self) -> &[SpanShown]
        ensures { result.now ≡ self.now }
    {
        &self.items
    }
}

/// An entry of the change log, with names in place of ids.
#[derive(Drop)]
pub struct EntryShown {
    pub at: Moment,
    /// The text of the member or of the holder of a privilege; empty where the entry has none.
    pub entity: Text,
    pub kind: EntryKind,
    /// A privilege's code, or the number of an assignment, of a rule or of a job; else 0.
    pub number: u64,
    /// The name or the text of what was changed; empty where the entry has none.
    pub object: Text,
    /// The entry's number, from 1.
    pub seq: u64,
}

/// A list of entries of the change log. Contracts see the list.
#[derive(Drop)]
pub struct EntriesShown {
    items: Vec<EntryShown>,
}

impl Model for EntriesShown {
    ghost use Rattle.std.specs.Prelude.{List};
    ghost use Rattle.reg_terms.specs.declared.changes_shown.EntryShown.{EntryShown};

    ghost Value = { List EntryShown };

    ghost view = { λ e. e.items.items };
}

impl EntriesShown {
    /// The empty list.
    pub fn new(alloc: Global) -> EntriesShown
        ensures { result ≡ [] }
    {
        EntriesShown {
            items: Vec::new(alloc),
        }
    }

    /// Adds an entry at the end. Where there is no memory the list stays as it was.
    pub fn push(&mut self, item: EntryShown) -> Result<(), AllocError>
        ensures ok { OnOk result (self.new ≡ self.old ++ item ∷ []) }
        ensures err { OnErr result (self.new ≡ self.old) }
    {
        self.items.push(item)?;
        Ok(())
    }

    /// The entries.
    pub fn list(&self) -> &[EntryShown]
        ensures { result.now ≡ self.now }
    {
        &self.items
    }
}
