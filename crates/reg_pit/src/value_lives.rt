// When each value stood in its assignment.
ghost use Rattle.std.specs.Prelude.{◌≡◌, ◌==◌, ◌&&◌, ◌++◌, ◌∷◌, [], ℕ, map, filter, not, nat_le};
ghost use Rattle.std.specs.Prelude.{◌||◌, IfOk, OnOk, if◌then◌else◌};
ghost use Rattle.std.specs.Option.{option_copied};
ghost use Rattle.reg_terms.specs.Values.{without_first};
ghost use Rattle.reg_terms.specs.declared.kinds.AttrValue.{AttrValue};
ghost use Rattle.reg_pit.specs.Changes.{among, value_changes};
ghost use Rattle.reg_pit.specs.Lives.{stood, values_at, AreValuesBy, first_open, closed_in};
ghost use Rattle.reg_pit.specs.Owned.{values_stood};
ghost use Rattle.reg_pit.specs.declared.value_lives.ValueLife.{ValueLife};

use crate::moments::add_ends;
use reg_base::{AssignId, Moment};
use reg_table::{Row, Table};
use reg_terms::{AttrValue, AttrValues};
use std::alloc::{AllocError, Global};
use std::collections::BTreeSet;
use std::marker::Model;

/// From when until when a value stood in an assignment.
#[derive(Drop)]
pub(crate) struct ValueLife {
    assign: AssignId,
    /// Of two values the one that was added later has the greater number.
    number: u64,
    value: AttrValue,
    from: Moment,
    until: Option<Moment>,
}

impl Row for ValueLife {
    type Group = AssignId;

    type Place = u64;

    ghost group_of = { λ life. life.assign };

    ghost place_of = { λ life. life.number };

    fn group(&self) -> AssignId {
        self.assign
    }

    fn place(&self) -> u64 {
        self.number
    }
}

impl ValueLife {
    /// Whether the value stood at a moment.
    fn stood(&self, t: Moment) -> bool
        ensures { result ≡ stood t self.now }
    {
        match self.until {
            None => self.from.micros() <= t.micros(),
            Some(until) => { self.from.micros() <= t.micros() && t.micros() < until.micros() }
        }
    }

    /// An equal life.
    fn copy(&self, alloc: Global) -> Result<ValueLife, AllocError>
        ensures { IfOk result (λ life. life ≡ self.now) }
    {
        let value = self.value.copy(alloc)?;
        Ok(ValueLife {
            assign: self.assign,
            number: self.number,
            value,
            from: self.from,
            until: self.until,
        })
    }
}

/// Of some lives the values that stood at a moment, in order.
pub(crate) fn values_stood(
    alloc: Global,
    lives: &[ValueLife],
    t: Moment,
) -> Result<AttrValues, AllocError>
    ensures { IfOk result (λ values. values ≡ values_stood t lives.now) }
{
    let mut values = AttrValues::new(alloc);
    for life in lives {
        if life.stood(t) {
            values.push(life.value.copy(alloc)?)?;
        }
    }
    Ok(values)
}

/// A value that stands: its assignment, its digest and its number.
#[derive(Clone, Copy)]
pub(crate) struct Standing {
    assign: AssignId,
    digest: u64,
    number: u64,
}

impl Row for Standing {
    type Group = (AssignId, u64);

    type Place = u64;

    ghost group_of = { λ standing. (standing.assign, standing.digest) };

    ghost place_of = { λ standing. standing.number };

    fn group(&self) -> (AssignId, u64) {
        (self.assign, self.digest)
    }

    fn place(&self) -> u64 {
        self.number
    }
}

/// Puts a life that ends at a moment in the place of the one of its number. An empty one isn't
/// kept.
fn close(values: &mut Table<ValueLife>, closed: ValueLife, at: Moment)
    ensures { values.new ≡ closed_in closed at values.old }
{
    if closed.from.micros() < at.micros() {
        values.replace(closed);
    } else {
        values.remove(closed.assign, closed.number);
    }
}

/// When each value stood in its assignment. Contracts see a life for each value, in the order in
/// which they were added.
#[derive(Drop)]
pub(crate) struct ValueLives {
    alloc: Global,
    values: Table<ValueLife>,
    /// Those that have no end, so that a value that goes is found among them alone.
    standing: Table<Standing>,
    /// The number of the next value.
    next: u64,
}

impl Model for ValueLives {
    ghost use Rattle.std.specs.Prelude.{List};
    ghost use Rattle.reg_pit.specs.Lives.{AreValues};
    ghost use Rattle.reg_pit.specs.declared.value_lives.ValueLife.{ValueLife};

    ghost Value = { List ValueLife };

    ghost view = { λ v. v.values };

    ghost invariant = { λ v. AreValues v.values v.standing v.next };
}

impl ValueLives {
    /// No value was ever added. Takes no memory.
    pub(crate) fn new(alloc: Global) -> ValueLives
        ensures { result ≡ [] }
    {
        ValueLives {
            alloc,
            values: Table::new(alloc),
            standing: Table::new(alloc),
            next: 0,
        }
    }

    /// From a moment on a value stands in an assignment, behind the others.
    pub(crate) fn with(
        self,
        assign: AssignId,
        value: AttrValue,
        at: Moment,
    ) -> Result<ValueLives, AllocError>
        ensures added { IfOk result (λ after. (a t : ℕ)
            → values_at after a t ≡ (if (a == assign) && nat_le at t
            then values_at self a t ++ value ∷ [] else values_at self a t)) }
        ensures last { IfOk result (λ after. AreValuesBy at self → AreValuesBy at after) }
    {
        let ValueLives {
            alloc,
            mut values,
            mut standing,
            next,
        } = self;
        let Some(later) = next.checked_add(1) else {
            return Err(AllocError);
        };
        let digest = value.digest();
        standing.push(Standing {
            assign,
            digest,
            number: next,
        })?;
        values.push(ValueLife {
            assign,
            number: next,
            value,
            from: at,
            until: None,
        })?;
        Ok(ValueLives {
            alloc,
            values,
            standing,
            next: later,
        })
    }

    /// The first value that is this one, of those that stand in an assignment. Looks at those of
    /// its digest alone.
    fn first(&self, assign: AssignId, value: &AttrValue) -> Option<&ValueLife>
        ensures { option_copied result ≡ first_open assign value.now self.now }
    {
        for standing in self.standing.rows_of((assign, value.digest())) {
            if let Some(life) = self.values.get(assign, standing.number) {
                if life.value.is(value) {
                    return Some(life);
                }
            }
        }
        None
    }

    /// From a moment on the first value that is this one doesn't stand in an assignment, if there
    /// is one; nothing was noted later.
    pub(crate) fn remove_first(&mut self, assign: AssignId, value: AttrValue, at: Moment)
        requires { AreValuesBy at self.old }
        ensures removed { (a t : ℕ)
            → values_at self.new a t
            ≡ (if (a == assign) && nat_le at t then without_first value (values_at self.old a t)
            else values_at self.old a t) }
        ensures last { AreValuesBy at self.new }
    {
        let Some(life) = self.first(assign, &value) else {
            return;
        };
        let (number, from) = (life.number, life.from);
        let digest = value.digest();
        let closed = ValueLife {
            assign,
            number,
            value,
            from,
            until: Some(at),
        };
        close(&mut self.values, closed, at);
        self.standing.remove((assign, digest), number);
    }

    /// The values that stood in an assignment at a moment, in the order in which they were added.
    /// Costs what was ever added to it.
    pub(crate) fn at(&self, assign: AssignId, t: Moment) -> Result<AttrValues, AllocError>
        ensures { IfOk result (λ values. values ≡ values_at self.now assign t) }
    {
        let mut values = AttrValues::new(self.alloc);
        for life in self.values.rows_of(assign) {
            if life.stood(t) {
                values.push(life.value.copy(self.alloc)?)?;
            }
        }
        Ok(values)
    }

    /// The lives of the values of an assignment, in the order in which they were added. Costs what
    /// was ever added to it.
    pub(crate) fn lives_in(&self, assign: AssignId) -> Result<Vec<ValueLife>, AllocError>
        ensures { IfOk result (λ lives. lives.items
            ≡ filter (λ (life : ValueLife). life.assign == assign) self.now) }
    {
        let mut lives = Vec::new(self.alloc);
        for life in self.values.rows_of(assign) {
            lives.push(life.copy(self.alloc)?)?;
        }
        Ok(lives)
    }

    /// Adds the moments at which a value came into an assignment, or went. Costs what was ever
    /// added to it.
    pub(crate) fn add_changes(
        &self,
        assign: AssignId,
        moments: &mut BTreeSet<Moment>,
    ) -> Result<(), AllocError>
        ensures { OnOk result ((m : ℕ) → among m moments.new.keys
            ≡ (among m moments.old.keys || value_changes self.now assign m)) }
    {
        for life in self.values.rows_of(assign) {
            add_ends(moments, life.from, life.until)?;
        }
        Ok(())
    }
}
