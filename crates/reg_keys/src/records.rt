// The commands that are kept, with the texts that they stand under.
ghost use Rattle.std.specs.Prelude.{◌≡◌, ◌++◌, ◌∷◌, ◌-◌, [], ℕ, List, length, take};
ghost use Rattle.std.specs.Prelude.{Some, IfOk, OnOk, OnErr, MatchOption, slice_get};
ghost use Rattle.reg_keys.specs.Kept.{LieIn, LieIn-prop};

use std::alloc::{AllocError, Global};

/// Where a command is kept: from `start` on there are the caller's text, the key and the command,
/// one behind another.
#[derive(Clone, Copy)]
pub(crate) struct Entry {
    start: usize,
    by_len: usize,
    key_len: usize,
    len: usize,
    number: u64,
    id: Option<u64>,
}

/// A command that is kept: the caller and the key that it stands under, its number, the id of what
/// it made, and its bytes.
#[derive(Clone, Copy)]
pub(crate) struct Record<'a> {
    pub(crate) by: &'a [u8],
    pub(crate) key: &'a [u8],
    pub(crate) number: u64,
    pub(crate) id: Option<u64>,
    pub(crate) bytes: &'a [u8],
}

/// The commands that are kept, in the order in which they came. All their texts are in one vector,
/// so that a new one takes no block of memory of its own.
#[derive(Drop)]
pub(crate) struct Records {
    entries: Vec<Entry>,
    bytes: Vec<u8>,
    ghost lie: { LieIn bytes.items entries.items } by { LieIn-prop bytes.items entries.items },
}

/// Puts texts behind those that are there, once there is room for all of them.
fn append(bytes: &mut Vec<u8>, by: &[u8], key: &[u8], command: &[u8]) -> Result<(), AllocError>
    ensures ok { OnOk result (bytes.new.items
        ≡ bytes.old.items ++ (by.now ++ (key.now ++ command.now))) }
    ensures err { OnErr result ((rest : List ℕ) × (bytes.new.items ≡ bytes.old.items ++ rest)) }
{
    let room = by.len().saturating_add(key.len());
    bytes.reserve(room.saturating_add(command.len()))?;
    bytes.extend_from_slice(by)?;
    bytes.extend_from_slice(key)?;
    bytes.extend_from_slice(command)
}

impl Records {
    ghost use Rattle.reg_keys.specs.Kept.{as_kept};
    ghost use Rattle.reg_keys.specs.Records.{kept};

    /// No command. Takes no memory.
    pub(crate) fn new(alloc: Global) -> Records
        ensures { kept result ≡ [] }
    {
        Records {
            entries: Vec::new(alloc),
            bytes: Vec::new(alloc),
        }
    }

    /// The command at a place.
    pub(crate) fn get(&self, place: usize) -> Option<Record<'_>>
        ensures { MatchOption result (slice_get (kept self.now) place ≡ None)
            (λ r. slice_get (kept self.now) place
            ≡ Some (as_kept r.by.now r.key.now r.number r.id r.bytes.now)) }
    {
        let entry = self.entries.as_slice().get(place)?;
        let (_, behind) = self.bytes.as_slice().split_at(entry.start);
        let (by, behind) = behind.split_at(entry.by_len);
        let (key, behind) = behind.split_at(entry.key_len);
        let (bytes, _) = behind.split_at(entry.len);
        Some(Record {
            by,
            key,
            number: entry.number,
            id: entry.id,
            bytes,
        })
    }

    /// Puts a command behind the others, and gives its place. Out of memory they stay as they were.
    pub(crate) fn push(&mut self, command: Record<'_>) -> Result<usize, AllocError>
        ensures place { IfOk result (λ place. place ≡ length (kept self.old)) }
        ensures pushed { OnOk result (kept self.new ≡ kept self.old ++ as_kept command.entry.by.now
            command.entry.key.now command.entry.number command.entry.id
            command.entry.bytes.now ∷ []) }
        ensures err { OnErr result (kept self.new ≡ kept self.old) }
    {
        let place = self.entries.len();
        let start = self.bytes.len();
        self.entries.reserve(1)?;
        append(&mut self.bytes, command.by, command.key, command.bytes)?;
        self.entries.push(Entry {
            start,
            by_len: command.by.len(),
            key_len: command.key.len(),
            len: command.bytes.len(),
            number: command.number,
            id: command.id,
        })?;
        Ok(place)
    }

    /// Takes the last command off.
    pub(crate) fn pop(&mut self)
        ensures { kept self.new ≡ take (length (kept self.old) - 1) (kept self.old) }
    {
        if let Some(last) = self.entries.pop() {
            self.bytes.truncate(last.start);
        }
    }
}
