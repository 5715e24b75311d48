// The assignments by their ids.
ghost use Rattle.std.specs.Prelude.{◌≡◌, ◌==◌, ◌+◌, ◌<◌, ◌≤◌, ◌++◌, ◌∷◌, [], not, filter, map};
ghost use Rattle.std.specs.Prelude.{length, IfOk, OnOk};
ghost use Rattle.std.specs.Map.{values_of};
ghost use Rattle.std.specs.Option.{option_copied};
ghost use Rattle.reg_terms.specs.Limits.{max_values};
ghost use Rattle.reg_terms.specs.Values.{with_value, without_first, without_value};
ghost use Rattle.reg_terms.specs.declared.rows.AssignRow.{AssignRow};
ghost use Rattle.reg_facts.specs.Ascending.{AssignsAscend};
ghost use Rattle.reg_facts.specs.Assigning.{AreById, changed};
ghost use Rattle.reg_facts.specs.Attributes.{assign_row, value_count};

use crate::{AssignRow, AttrValue};
use reg_base::AssignId;
use std::alloc::{AllocError, Global};
use std::collections::BTreeMap;
use std::marker::Model;

/// The assignments. Contracts see the list of them, by id.
#[derive(Drop)]
pub struct AssignMap {
    rows: BTreeMap<AssignId, AssignRow>,
    /// How many values they have.
    total: usize,
}

impl Model for AssignMap {
    ghost use Rattle.std.specs.Prelude.{◌≡◌, List};
    ghost use Rattle.std.specs.BTreeMap.{values};
    ghost use Rattle.reg_terms.specs.declared.rows.AssignRow.{AssignRow};
    ghost use Rattle.reg_facts.specs.Assigning.{AreById};
    ghost use Rattle.reg_facts.specs.Attributes.{value_count};

    ghost Value = { List AssignRow };

    ghost view = { λ t. values t.rows };

    ghost invariant = { λ t. record {
      by_id : AreById t.rows.entries;
      counted : t.total ≡ value_count (values t.rows);
    } };
}

/// An equal assignment.
pub fn copy_assign(alloc: Global, row: &AssignRow) -> Result<AssignRow, AllocError>
    ensures { IfOk result (λ copied. copied ≡ row.now) }
{
    Ok(AssignRow {
        id: row.id,
        attribute: row.attribute,
        owner: row.owner,
        values: row.values.copy(alloc)?,
    })
}

/// Adds a value to the assignment of this id, and gives how many were added: one, or none where
/// there is no such assignment.
fn add_to(
    rows: &mut BTreeMap<AssignId, AssignRow>,
    id: AssignId,
    value: AttrValue,
) -> Result<usize, AllocError>
    requires { AreById rows.old.entries }
    ensures added { OnOk result (rows.new.entries
        ≡ map (changed (with_value id value)) rows.old.entries) }
    ensures count { IfOk result (λ n. value_count (values_of rows.new.entries)
        ≡ value_count (values_of rows.old.entries) + n) }
    ensures one { IfOk result (λ n. n ≤ 1) }
{
    match rows.get_mut(&id) {
        Some(row) => {
            row.values.push(value)?;
            Ok(1)
        }
        None => Ok(0),
    }
}

/// Takes the first of the values of an assignment that are this one away, and gives how many there
/// are less.
fn shorten(row: &mut AssignRow, value: &AttrValue) -> usize
    ensures row { row.new ≡ record row.old { values = without_first value.now row.old.values } }
    ensures count { length row.new.values + result ≡ length row.old.values }
{
    let before = row.values.len();
    row.values.remove_first(value);
    before - row.values.len()
}

/// Takes the first of the values of the assignment of this id that are this one away, and gives how
/// many there are less.
fn take_from(rows: &mut BTreeMap<AssignId, AssignRow>, id: AssignId, value: &AttrValue) -> usize
    requires { AreById rows.old.entries }
    ensures taken { rows.new.entries ≡ map (changed (without_value id value.now)) rows.old.entries }
    ensures count { value_count (values_of rows.new.entries) + result
        ≡ value_count (values_of rows.old.entries) }
{
    match rows.get_mut(&id) {
        Some(row) => shorten(row, value),
        None => 0,
    }
}

impl AssignMap {
    /// No assignment. It takes no memory.
    pub fn new(alloc: Global) -> AssignMap
        ensures { result ≡ [] }
    {
        AssignMap {
            rows: BTreeMap::new(alloc),
            total: 0,
        }
    }

    /// The assignment of this id. It takes no memory, and costs a logarithm.
    pub fn get(&self, id: AssignId) -> Option<&AssignRow>
        ensures { option_copied result ≡ assign_row id self.now }
    {
        self.rows.get(&id)
    }

    /// How many values the assignments have. The number is kept.
    pub fn value_count(&self) -> usize
        ensures { result ≡ value_count self.now }
    {
        self.total
    }

    /// The assignments, by id, with their values.
    pub fn list(&self, alloc: Global) -> Result<Vec<AssignRow>, AllocError>
        ensures { IfOk result (λ rows. rows.items ≡ self.now) }
    {
        let mut listed = Vec::new(alloc);
        for row in self.rows.values() {
            listed.push(copy_assign(alloc, row)?)?;
        }
        Ok(listed)
    }

    /// The assignments and one more, of a later id and with no value. Where there is no memory they
    /// are gone.
    pub fn with(self, row: AssignRow) -> Result<AssignMap, AllocError>
        requires ascend { AssignsAscend (self ++ row ∷ []) }
        requires empty { row.values ≡ [] }
        ensures { IfOk result (λ t. t ≡ self ++ row ∷ []) }
    {
        let AssignMap { mut rows, total } = self;
        rows.insert(row.id, row)?;
        Ok(AssignMap { rows, total })
    }

    /// Takes the assignment of this id away, and gives it. It takes no memory, and costs a
    /// logarithm.
    pub fn take(&mut self, id: AssignId) -> Option<AssignRow>
        ensures left { self.new ≡ filter (λ (row : AssignRow). not (row.id == id)) self.old }
        ensures taken { result ≡ assign_row id self.old }
    {
        let row = self.rows.remove(&id)?;
        self.total -= row.values.len();
        Some(row)
    }

    /// The assignments, of which the one of this id has a value more, behind its others. It changes
    /// that one in place, at the cost of a logarithm. Where there is no memory they are gone.
    pub fn add_value(self, id: AssignId, value: AttrValue) -> Result<AssignMap, AllocError>
        requires { value_count self < max_values }
        ensures { IfOk result (λ t. t ≡ map (with_value id value) self) }
    {
        let AssignMap { mut rows, total } = self;
        let added = add_to(&mut rows, id, value)?;
        Ok(AssignMap {
            rows,
            total: total + added,
        })
    }

    /// Takes the first of the values of the assignment of this id that are this one away. It takes
    /// no memory, and costs a logarithm and the values of this assignment.
    pub fn remove_value(&mut self, id: AssignId, value: &AttrValue)
        ensures { self.new ≡ map (without_value id value.now) self.old }
    {
        self.total -= take_from(&mut self.rows, id, value);
    }
}
