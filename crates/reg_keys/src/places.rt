// Where the commands of callers' keys are among those that are kept.
ghost use Rattle.std.specs.Prelude.{◌≡◌, ◌<◌, ◌&&◌, ℕ, List, [], None, Some, OnOk, OnErr};
ghost use Rattle.std.specs.Prelude.{if◌then◌else◌};
ghost use Rattle.std.specs.Str.{bytes_eq};
ghost use Rattle.reg_keys.specs.Places.{place_in, stands_at, AreBelow};
ghost use Rattle.reg_keys.specs.Records.{kept};

use crate::digest::{Digest, digest_of};
use crate::others::add_place;
use crate::records::Records;
use std::alloc::{AllocError, Global};
use std::collections::BTreeMap;

/// The places of callers' keys. Each is found by its digest, since numbers are compared faster than
/// texts. Whoever picks the keys can give many the same digest: all of those but the first are
/// found by their text.
#[derive(Drop)]
pub(crate) struct Places {
    firsts: BTreeMap<Digest, usize>,
    // The keys whose digest another one had first.
    others: BTreeMap<Vec<u8>, BTreeMap<Vec<u8>, usize>>,
}

/// Whether the command at a place is of this caller's key.
fn is_of(records: &Records, place: usize, by: &[u8], key: &[u8]) -> bool
    ensures { result ≡ stands_at (kept records.now) place by.now key.now }
{
    match records.get(place) {
        Some(record) => record.by == by && record.key == key,
        None => false,
    }
}

impl Places {
    /// No key. Takes no memory.
    pub(crate) fn new(alloc: Global) -> Places
        ensures none { (b k : List ℕ) → place_in result [] b k ≡ None }
        ensures below { (n : ℕ) → AreBelow n result }
    {
        Places {
            firsts: BTreeMap::new(alloc),
            others: BTreeMap::new(alloc),
        }
    }

    /// The place of a caller's key.
    pub(crate) fn get(&self, records: &Records, by: &[u8], key: &[u8]) -> Option<usize>
        ensures { result ≡ place_in self.now (kept records.now) by.now key.now }
    {
        if let Some(place) = self.firsts.get(&digest_of(by, key)) {
            if is_of(records, *place, by, key) {
                return Some(*place);
            }
        }
        self.others.get(by)?.get(key).copied()
    }

    /// Puts the place of a command under its caller's key. Out of memory the places stay as they
    /// were.
    pub(crate) fn put(
        &mut self,
        alloc: Global,
        records: &Records,
        by: &[u8],
        key: &[u8],
        place: usize,
    ) -> Result<(), AllocError>
        requires { (b k : List ℕ) → stands_at (kept records.now) place b k
            ≡ (bytes_eq by.now b && bytes_eq key.now k) }
        ensures added { OnOk result ((b k : List ℕ) → place_in self.new (kept records.now) b k
            ≡ (if bytes_eq by.now b && bytes_eq key.now k then Some place
            else place_in self.old (kept records.now) b k)) }
        ensures err { OnErr result ((b k : List ℕ) → place_in self.new (kept records.now) b k
            ≡ place_in self.old (kept records.now) b k) }
        ensures below { (n : ℕ) → place < n → AreBelow n self.old → AreBelow n self.new }
        ensures err_below { OnErr result ((n : ℕ) → AreBelow n self.old → AreBelow n self.new) }
    {
        let digest = digest_of(by, key);
        if let Some(first) = self.firsts.get(&digest) {
            if !is_of(records, *first, by, key) {
                return add_place(alloc, &mut self.others, by, key, place);
            }
        }
        self.firsts.insert(digest, place)?;
        Ok(())
    }
}
