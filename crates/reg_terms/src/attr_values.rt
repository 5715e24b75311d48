// The values of an assignment.
ghost use Rattle.std.specs.Prelude.{◌≡◌, [], ◌∷◌, ◌++◌, length, map, IfOk, OnOk, OnErr};
ghost use Rattle.std.specs.List.{position};
ghost use Rattle.std.specs.Map.Iter.{deref};
ghost use Rattle.reg_terms.specs.Values.{has_value, same_value, without_first};

use crate::AttrValue;
use crate::many_values::ManyValues;
use std::alloc::{AllocError, Global};
use std::marker::Model;

/// How many values stand in a plain list, which is small and is gone over to find one.
const FEW: usize = 32;

/// A list of values. Contracts see the list.
#[derive(Drop)]
pub struct AttrValues {
    /// The first of them, up to `FEW`.
    few: Vec<AttrValue>,
    /// Those behind.
    many: ManyValues,
}

impl Model for AttrValues {
    ghost use Rattle.std.specs.Prelude.{List, ◌++◌};
    ghost use Rattle.reg_terms.specs.Placed.{values_of};
    ghost use Rattle.reg_terms.specs.declared.kinds.AttrValue.{AttrValue};

    ghost Value = { List AttrValue };

    ghost view = { λ v. v.few.items ++ values_of v.many };
}

/// The place of the first of some values that is this one.
fn first_equal(values: &[AttrValue], value: &AttrValue) -> Option<usize>
    ensures { result ≡ position (λ x. same_value x value.now) values.now }
{
    values.iter().position(|item| item.is(value))
}

/// Whether a value is among some.
fn is_among(values: &[AttrValue], value: &AttrValue) -> bool
    ensures { result ≡ has_value value.now values.now }
{
    values.iter().any(|item| item.is(value))
}

/// Adds copies of these values at the end.
fn push_copies(
    alloc: Global,
    values: &mut AttrValues,
    items: &[AttrValue],
) -> Result<(), AllocError>
    ensures { OnOk result (values.new ≡ values.old ++ items.now) }
{
    for item in items {
        values.push(item.copy(alloc)?)?;
    }
    Ok(())
}

/// Adds copies of these lent values at the end.
fn push_lent(alloc: Global, values: &mut AttrValues, items: &[&AttrValue]) -> Result<(), AllocError>
    ensures { OnOk result (values.new ≡ values.old ++ map deref items.now) }
{
    for item in items {
        values.push(item.copy(alloc)?)?;
    }
    Ok(())
}

/// Takes the first of some values that is this one away.
fn remove_first_of(values: &mut Vec<AttrValue>, value: &AttrValue)
    ensures { values.new.items ≡ without_first value.now values.old.items }
{
    if let Some(at) = first_equal(values, value) {
        values.remove(at);
    }
}

impl AttrValues {
    /// The empty list.
    pub fn new(alloc: Global) -> AttrValues
        ensures { result ≡ [] }
    {
        AttrValues {
            few: Vec::new(alloc),
            many: ManyValues::new(alloc),
        }
    }

    /// Adds a value at the end. Where there is no memory the list stays as it was.
    pub fn push(&mut self, item: AttrValue) -> Result<(), AllocError>
        ensures ok { OnOk result (self.new ≡ self.old ++ item ∷ []) }
        ensures err { OnErr result (self.new ≡ self.old) }
    {
        if self.few.len() < FEW && self.many.len() == 0 {
            self.few.push(item)?;
            return Ok(());
        }
        self.many.push(item)
    }

    /// The values in order, in two parts. Where there are few, the second is empty and takes no
    /// memory.
    pub fn parts(&self) -> Result<(&[AttrValue], Vec<&AttrValue>), AllocError>
        ensures { IfOk result (λ parts. parts.0.now ++ map deref parts.1.items ≡ self.now) }
    {
        let mut list = Vec::new(*self.few.allocator());
        self.many.add_to(&mut list)?;
        Ok((&self.few, list))
    }

    /// The values, in order.
    pub fn list(&self) -> Result<Vec<&AttrValue>, AllocError>
        ensures { IfOk result (λ list. map deref list.items ≡ self.now) }
    {
        let mut list = Vec::with_capacity(*self.few.allocator(), self.len())?;
        for value in self.few.iter() {
            list.push(value)?;
        }
        self.many.add_to(&mut list)?;
        Ok(list)
    }

    /// How many values there are.
    pub fn len(&self) -> usize
        ensures { result ≡ length self.now }
    {
        self.few.len() + self.many.len()
    }

    /// Whether a value is among them.
    pub fn has(&self, value: &AttrValue) -> bool
        ensures { result ≡ has_value value.now self.now }
    {
        is_among(&self.few, value) || self.many.has(value)
    }

    /// Takes the first of the values that are this one away. It takes no memory.
    pub fn remove_first(&mut self, value: &AttrValue)
        ensures { self.new ≡ without_first value.now self.old }
    {
        if is_among(&self.few, value) {
            remove_first_of(&mut self.few, value);
        } else {
            self.many.remove_first(value);
        }
    }

    /// An equal list.
    pub fn copy(&self, alloc: Global) -> Result<AttrValues, AllocError>
        ensures { IfOk result (λ values. values ≡ self.now) }
    {
        let (few, many) = self.parts()?;
        let mut copied = AttrValues::new(alloc);
        push_copies(alloc, &mut copied, few)?;
        push_lent(alloc, &mut copied, &many)?;
        Ok(copied)
    }
}
