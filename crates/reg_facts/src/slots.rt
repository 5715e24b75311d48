// Rows at the places that their numbers tell.
ghost use Rattle.std.specs.Prelude.{◌≡◌, ◌==◌, ◌++◌, ◌∷◌, [], map, filter, not, take, length, OnOk};
ghost use Rattle.std.specs.List.{find};
ghost use Rattle.std.specs.List.Sorted.{IsStrictlySortedBy};
ghost use Rattle.std.specs.Option.{option_copied};
ghost use Rattle.std.specs.Ordering.{nat_cmp};
ghost use Rattle.reg_facts.specs.Slots.{present, AtPlaces};

use crate::numbered::Numbered;
use std::alloc::{AllocError, Global};
use std::marker::Model;

/// Rows whose numbers ascend. Contracts see the list of them. A row stands at the place of its
/// number; one that is taken away leaves its slot empty, so that no other is moved. Numbers aren't
/// used again, so what is kept grows with what was ever made.
#[derive(Drop)]
pub struct Slots<R: Numbered> {
    pub(crate) slots: Vec<Option<R>>,
}

impl<R: Numbered> Model for Slots<R> {
    ghost use Rattle.std.specs.Prelude.{List};
    ghost use Rattle.reg_facts.specs.Slots.{present, AtPlaces};

    ghost Value = { List R };

    ghost view = { λ t. present t.slots.items };

    ghost invariant = { λ t. AtPlaces R.number_of 0 t.slots.items };
}

/// Makes room for one behind the others at a place: there are as many slots as stand before it,
/// and those that are behind it are gone.
fn make_room<R: Numbered + Drop>(slots: &mut Vec<Option<R>>, place: usize) -> Result<(), AllocError>
    requires { AtPlaces R.number_of 0 slots.old.items }
    ensures stand { AtPlaces R.number_of 0 slots.new.items }
    ensures same { present slots.new.items ≡ present (take place slots.old.items) }
    ensures room { OnOk result (length slots.new.items ≡ place) }
{
    slots.truncate(place);
    while slots.len() < place {
        slots.push(None)?;
    }
    Ok(())
}

impl<R: Numbered> Slots<R> {
    /// No row. It takes no memory.
    pub fn new(alloc: Global) -> Slots<R>
        ensures { result ≡ [] }
    {
        Slots {
            slots: Vec::new(alloc),
        }
    }

    /// The row of this number. It takes no memory, and is one look.
    pub fn get(&self, number: u32) -> Option<&R>
        ensures { option_copied result ≡ find (λ row. R.number_of row == number) self.now }
    {
        match self.slots.get(number as usize) {
            Some(slot) => slot.as_ref(),
            None => None,
        }
    }

    /// The rows one by one.
    pub fn rows(&self) -> SlotRows<'_, R>
        ensures { result ≡ self.now }
    {
        SlotRows {
            slots: self.slots.as_slice(),
        }
    }

    /// Adds a row of a later number.
    pub fn push(&mut self, row: R) -> Result<(), AllocError>
    where
        R: Drop,
        requires { IsStrictlySortedBy nat_cmp (map R.number_of (self.old ++ row ∷ [])) }
        ensures { OnOk result (self.new ≡ self.old ++ row ∷ []) }
    {
        let place = row.number() as usize;
        make_room(&mut self.slots, place)?;
        self.slots.push(Some(row))?;
        Ok(())
    }

    /// Takes the row of this number away, if there is one. It takes no memory, and is one look.
    pub fn remove(&mut self, number: u32)
    where
        R: Drop,
        ensures { self.new ≡ filter (λ row. not (R.number_of row == number)) self.old }
    {
        let place = number as usize;
        if place < self.slots.len() {
            self.slots[place] = None;
        }
    }
}

/// The rows that are left, by number. Empty slots are passed over.
#[derive(Drop)]
pub struct SlotRows<'a, R> {
    slots: &'a [Option<R>],
}

impl<'a, R> Model for SlotRows<'a, R> {
    ghost use Rattle.std.specs.Prelude.{List};
    ghost use Rattle.reg_facts.specs.Slots.{present};

    ghost Value = { List R };

    ghost view = { λ a. present a.slots.now };
}

impl<'a, R> Iterator for SlotRows<'a, R> {
    ghost use Rattle.std.specs.Iterator.{YieldsFirstRef, item_count};

    type Item = &'a R;

    ghost next_gives = { YieldsFirstRef (λ s. s) };

    ghost remaining = { item_count (λ s. s) };

    fn next(&mut self) -> Option<&'a R> {
        while let Some((slot, rest)) = self.slots.split_first() {
            self.slots = rest;
            if let Some(row) = slot {
                return Some(row);
            }
        }
        None
    }
}
