// The values of an assignment that has many: each is found by its digest.
ghost use Rattle.std.specs.Prelude.{◌≡◌, ◌≤◌, ◌^◌, [], ◌∷◌, ◌++◌, length, map, OnOk, OnErr};
ghost use Rattle.std.specs.List.{find};
ghost use Rattle.std.specs.Map.Iter.{deref};
ghost use Rattle.std.specs.Option.{option_copied};
ghost use Rattle.reg_terms.specs.Placed.{values_of};
ghost use Rattle.reg_terms.specs.Values.{has_value, same_value, without_first};

use crate::AttrValue;
use reg_table::{Row, Table};
use std::alloc::{AllocError, Global};
use std::marker::Model;

/// How many numbers there are for the values of one assignment.
const MOST_NUMBERS: u64 = 1 << 62;

/// A value and its digest.
#[derive(Drop)]
pub(crate) struct PlacedValue {
    digest: u64,
    /// Of two values the one that was added later has the greater number.
    number: u64,
    value: AttrValue,
}

impl Row for PlacedValue {
    type Group = u64;

    type Place = u64;

    ghost group_of = { λ placed. placed.digest };

    ghost place_of = { λ placed. placed.number };

    fn group(&self) -> u64 {
        self.digest
    }

    fn place(&self) -> u64 {
        self.number
    }
}

/// A list of values, of which each is found without going over the others. Contracts see the
/// values with their digests and numbers.
#[derive(Drop)]
pub(crate) struct ManyValues {
    rows: Table<PlacedValue>,
    /// The number of the next value.
    next: u64,
}

impl Model for ManyValues {
    ghost use Rattle.std.specs.Prelude.{List};
    ghost use Rattle.reg_terms.specs.Placed.{ArePlaced};
    ghost use Rattle.reg_terms.specs.declared.many_values.PlacedValue.{PlacedValue};

    ghost Value = { List PlacedValue };

    ghost view = { λ v. v.rows };

    ghost invariant = { λ v. ArePlaced v.next v.rows };
}

impl ManyValues {
    /// The empty list. It takes no memory.
    pub(crate) fn new(alloc: Global) -> ManyValues
        ensures { result ≡ [] }
    {
        ManyValues {
            rows: Table::new(alloc),
            next: 0,
        }
    }

    /// How many values there are.
    pub(crate) fn len(&self) -> usize
        ensures is { result ≡ length self.now }
        ensures bound { result ≤ 2 ^ 62 }
    {
        self.rows.len()
    }

    /// Adds a value at the end. Where there is no memory the list stays as it was.
    pub(crate) fn push(&mut self, value: AttrValue) -> Result<(), AllocError>
        ensures ok { OnOk result (values_of self.new ≡ values_of self.old ++ value ∷ []) }
        ensures err { OnErr result (self.new ≡ self.old) }
    {
        let number = self.next;
        if number >= MOST_NUMBERS {
            return Err(AllocError);
        }
        let digest = value.digest();
        self.rows.push(PlacedValue {
            digest,
            number,
            value,
        })?;
        self.next = number + 1;
        Ok(())
    }

    /// Adds the values to a list, in order.
    pub(crate) fn add_to<'a>(&'a self, list: &mut Vec<&'a AttrValue>) -> Result<(), AllocError>
        ensures { OnOk result (map deref list.new.items
            ≡ map deref list.old.items ++ values_of self.now) }
    {
        if self.rows.len() == 0 {
            return Ok(());
        }
        for placed in self.rows.rows(*list.allocator())? {
            list.push(&placed.value)?;
        }
        Ok(())
    }

    /// The first value that is this one. Looks at those of its digest alone.
    fn first(&self, value: &AttrValue) -> Option<&PlacedValue>
        ensures { option_copied result ≡ find (λ p. same_value p.value value.now) self.now }
    {
        for placed in self.rows.rows_of(value.digest()) {
            if placed.value.is(value) {
                return Some(placed);
            }
        }
        None
    }

    /// Whether a value is among them.
    pub(crate) fn has(&self, value: &AttrValue) -> bool
        ensures { result ≡ has_value value.now (values_of self.now) }
    {
        match self.first(value) {
            Some(_) => true,
            None => false,
        }
    }

    /// Takes the first of the values that are this one away. It takes no memory.
    pub(crate) fn remove_first(&mut self, value: &AttrValue)
        ensures { values_of self.new ≡ without_first value.now (values_of self.old) }
    {
        let Some(placed) = self.first(value) else {
            return;
        };
        let (digest, number) = (placed.digest, placed.number);
        self.rows.remove(digest, number);
    }
}
