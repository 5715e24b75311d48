// How far each consumer has read.
ghost use Rattle.std.specs.Prelude.{◌≡◌, ℕ, List, None, Some, Ok, Err, IsSome, OnOk, OnErr};
ghost use Rattle.std.specs.Prelude.{option_map, nat_lt, ◌||◌, if◌then◌else◌};
ghost use Rattle.std.specs.Str.{bytes_eq};
ghost use Rattle.reg_log.specs.Places.{place_of};

use std::alloc::{AllocError, Global};
use std::collections::BTreeMap;

/// A number that can't be acknowledged: it is less than the place that is kept, or greater than the
/// last number.
#[derive(Clone, Copy)]
pub struct Place {
    pub kept: u64,
    pub last: u64,
}

/// The place of each consumer, by its name: the number of the last entry that it has acknowledged.
#[derive(Drop)]
pub struct Places {
    alloc: Global,
    places: BTreeMap<Vec<u8>, u64>,
}

impl Places {
    /// No consumer. Takes no memory.
    pub fn new(alloc: Global) -> Places
        ensures { (n : List ℕ) → place_of result n ≡ None }
    {
        Places {
            alloc,
            places: BTreeMap::new(alloc),
        }
    }

    /// Adds a consumer that has acknowledged nothing. Out of memory the places stay as they were.
    pub fn add(&mut self, name: &[u8]) -> Result<(), AllocError>
        requires { place_of self.old name.now ≡ None }
        ensures added { OnOk result ((n : List ℕ)
            → place_of self.new n ≡ (if bytes_eq name.now n then Some 0 else place_of self.old n)) }
        ensures err { OnErr result ((n : List ℕ) → place_of self.new n ≡ place_of self.old n) }
    {
        let key = Vec::from_slice(self.alloc, name)?;
        self.places.insert(key, 0)?;
        Ok(())
    }

    /// The place of a consumer, or none where no consumer has this name. Takes no memory.
    pub fn place(&self, name: &[u8]) -> Option<u64>
        ensures { result ≡ place_of self.now name.now }
    {
        self.places.get(name).copied()
    }

    /// Moves a consumer's place to a number, whichever it was at. Where no consumer has the name
    /// nothing changes. Takes no memory.
    pub fn set(&mut self, name: &[u8], seq: u64)
        ensures { (n : List ℕ) → place_of self.new n
            ≡ (if bytes_eq name.now n then option_map (λ place. seq) (place_of self.old n)
            else place_of self.old n) }
    {
        if let Some(place) = self.places.get_mut(name) {
            *place = seq;
        }
    }

    /// A consumer has read up to a number, where `last` is the number of the last entry. A number
    /// that is less than the consumer's place, or greater than `last`, is refused. Takes no memory.
    pub fn ack(&mut self, name: &[u8], seq: u64, last: u64) -> Result<(), Place>
        requires { IsSome (place_of self.old name.now) }
        ensures answer { (kept : ℕ) → place_of self.old name.now ≡ Some kept
            → result ≡ (if nat_lt seq kept || nat_lt last seq
            then Err (record { kept = kept; last = last }) else Ok tt) }
        ensures moved { OnOk result ((n : List ℕ)
            → place_of self.new n ≡ (if bytes_eq name.now n then Some seq
            else place_of self.old n)) }
        ensures err { OnErr result ((n : List ℕ) → place_of self.new n ≡ place_of self.old n) }
    {
        let Some(kept) = self.place(name) else {
            return Ok(());
        };
        if seq < kept || last < seq {
            return Err(Place { kept, last });
        }
        if let Some(place) = self.places.get_mut(name) {
            *place = seq;
        }
        Ok(())
    }
}
