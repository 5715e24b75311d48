// The keys of all callers.
ghost use Rattle.std.specs.Prelude.{◌≡◌, ◌&&◌, ℕ, List, length, None, Some};
ghost use Rattle.std.specs.Prelude.{OnOk, OnErr, MatchOption, if◌then◌else◌};
ghost use Rattle.std.specs.Str.{bytes_eq};
ghost use Rattle.reg_keys.specs.Places.{AreBelow};
ghost use Rattle.reg_keys.specs.Records.{kept};

use crate::places::Places;
use crate::records::{Record, Records};
use std::alloc::{AllocError, Global};

/// What a key stands for: the number of the command that was kept, the id of what it made, and the
/// command's bytes.
#[derive(Clone, Copy)]
pub struct Found<'a> {
    pub number: u64,
    pub id: Option<u64>,
    pub bytes: &'a [u8],
}

/// The keys of callers, each with the number, the id and the bytes of a command.
#[derive(Drop)]
pub struct Keys {
    alloc: Global,
    places: Places,
    records: Records,
    ghost below: { AreBelow (length (kept records)) places },
}

impl Keys {
    ghost use Rattle.reg_keys.specs.Found.{found_in};

    /// No key. Takes no memory.
    pub fn new(alloc: Global) -> Keys
        ensures { (b k : List ℕ) → found_in result b k ≡ None }
    {
        Keys {
            alloc,
            places: Places::new(alloc),
            records: Records::new(alloc),
        }
    }

    /// What a caller's key stands for, or none where the caller has no such key. Takes no memory.
    pub fn get(&self, by: &[u8], key: &[u8]) -> Option<Found<'_>>
        ensures { MatchOption result (found_in self.now by.now key.now ≡ None)
            (λ r. found_in self.now by.now key.now ≡ Some (r.number, r.id, r.bytes.now)) }
    {
        let place = self.places.get(&self.records, by, key)?;
        let record = self.records.get(place)?;
        Some(Found {
            number: record.number,
            id: record.id,
            bytes: record.bytes,
        })
    }

    /// Puts under a caller's key the number, the id and the bytes of a command, in place of what
    /// stood there. Out of memory the keys stay as they were.
    pub fn put(
        &mut self,
        by: &[u8],
        key: &[u8],
        number: u64,
        id: Option<u64>,
        bytes: &[u8],
    ) -> Result<(), AllocError>
        ensures put { OnOk result ((b k : List ℕ) → found_in self.new b k
            ≡ (if bytes_eq by.now b && bytes_eq key.now k then Some (number, id, bytes.now)
            else found_in self.old b k)) }
        ensures err { OnErr result ((b k : List ℕ) → found_in self.new b k
            ≡ found_in self.old b k) }
    {
        let place = self.records.push(Record {
            by,
            key,
            number,
            id,
            bytes,
        })?;
        match self.places.put(self.alloc, &self.records, by, key, place) {
            Ok(()) => Ok(()),
            Err(AllocError) => {
                self.records.pop();
                Err(AllocError)
            }
        }
    }
}
