// The assignments as contracts see them.
ghost use Rattle.std.specs.Prelude.{◌≡◌, ◌==◌, ◌&&◌, ◌<◌, ◌++◌, ◌∷◌, [], not, false, true, filter};
ghost use Rattle.std.specs.Prelude.{map, IfOk, MatchOption};
ghost use Rattle.std.specs.List.{list_any};
ghost use Rattle.std.specs.Option.{option_copied};
ghost use Rattle.reg_terms.specs.Kinds.{same_object};
ghost use Rattle.reg_terms.specs.Limits.{max_values};
ghost use Rattle.reg_terms.specs.Values.{with_value, without_value};
ghost use Rattle.reg_terms.specs.declared.rows.AssignRow.{AssignRow};
ghost use Rattle.reg_facts.specs.Ascending.{AssignsAscend};
ghost use Rattle.reg_facts.specs.Assigning.{key_of};
ghost use Rattle.reg_facts.specs.Attributes.{assign_row, assigns_on, has_assign, is_assigned};
ghost use Rattle.reg_facts.specs.Attributes.{is_assigned_to, value_count};

use crate::assign_index::{AssignIndex, AssignKey};
use crate::assign_map::{AssignMap, copy_assign};
use crate::{AssignRow, AttrValue, Object};
use reg_base::{AssignId, AttrId};
use std::alloc::{AllocError, Global};
use std::marker::Model;

/// The assignments. Contracts see the list of them, by id.
#[derive(Drop)]
pub struct AssignRows {
    rows: AssignMap,
    /// The same assignments by owner, by owner and attribute, and by attribute.
    index: AssignIndex,
}

impl Model for AssignRows {
    ghost use Rattle.std.specs.Prelude.{List};
    ghost use Rattle.reg_terms.specs.declared.rows.AssignRow.{AssignRow};
    ghost use Rattle.reg_facts.specs.Assigning.{AreKeyed};

    ghost Value = { List AssignRow };

    ghost view = { λ t. t.rows };

    ghost invariant = { λ t. AreKeyed t.index t.rows };
}

/// What an assignment is found by.
fn key_of(row: &AssignRow) -> AssignKey
    ensures { result ≡ key_of row.now }
{
    AssignKey {
        owner: row.owner,
        attribute: row.attribute,
        id: row.id,
    }
}

impl AssignRows {
    /// No assignment. It takes no memory.
    pub fn new(alloc: Global) -> AssignRows
        ensures { result ≡ [] }
    {
        AssignRows {
            rows: AssignMap::new(alloc),
            index: AssignIndex::new(alloc),
        }
    }

    /// The assignment of this id. It takes no memory, and costs a logarithm.
    pub fn get(&self, id: u32) -> Option<&AssignRow>
        ensures { option_copied result ≡ assign_row id self.now }
    {
        self.rows.get(AssignId::new(id))
    }

    /// Whether the assignment of this id is of this attribute to this owner. It takes no memory,
    /// and costs a logarithm.
    pub fn has(&self, id: u32, owner: &Object, attribute: AttrId) -> bool
        ensures { result ≡ has_assign id owner.now attribute self.now }
    {
        self.index.contains(&AssignKey {
            owner: *owner,
            attribute,
            id: AssignId::new(id),
        })
    }

    /// Whether an attribute is assigned to something. It takes no memory, and costs a logarithm.
    pub fn is_assigned(&self, attribute: AttrId) -> bool
        ensures { result ≡ is_assigned attribute self.now }
    {
        self.index.is_assigned(attribute)
    }

    /// Whether an attribute is assigned to an owner. It takes no memory, and costs a logarithm.
    pub fn is_assigned_to(&self, owner: &Object, attribute: AttrId) -> bool
        ensures { result ≡ is_assigned_to owner.now attribute self.now }
    {
        self.index.is_assigned_to(owner, attribute)
    }

    /// The assignments to an owner, by id, with their values. It costs a logarithm for each of
    /// them.
    pub fn on(&self, alloc: Global, owner: &Object) -> Result<Vec<AssignRow>, AllocError>
        ensures { IfOk result (λ found. found.items ≡ assigns_on owner.now self.now) }
    {
        let mut found = Vec::new(alloc);
        for key in self.index.on(owner) {
            if let Some(row) = self.rows.get(key.id) {
                found.push(copy_assign(alloc, row)?)?;
            }
        }
        Ok(found)
    }

    /// How many values the assignments have. The number is kept.
    pub fn value_count(&self) -> usize
        ensures { result ≡ value_count self.now }
    {
        self.rows.value_count()
    }

    /// The assignments, by id, with their values.
    pub fn list(&self, alloc: Global) -> Result<Vec<AssignRow>, AllocError>
        ensures { IfOk result (λ rows. rows.items ≡ self.now) }
    {
        self.rows.list(alloc)
    }

    /// The assignments and one more, of a later id and with no value. Where there is no memory they
    /// are gone.
    pub fn with(self, row: AssignRow) -> Result<AssignRows, AllocError>
        requires ascend { AssignsAscend (self ++ row ∷ []) }
        requires empty { row.values ≡ [] }
        ensures { IfOk result (λ t. t ≡ self ++ row ∷ []) }
    {
        let AssignRows { rows, index } = self;
        let index = index.with(key_of(&row))?;
        let rows = rows.with(row)?;
        Ok(AssignRows { rows, index })
    }

    /// Takes the assignment of this id away. It takes no memory, and costs a logarithm.
    pub fn remove(&mut self, id: AssignId)
        ensures { self.new ≡ filter (λ (row : AssignRow). not (row.id == id)) self.old }
    {
        if let Some(row) = self.rows.take(id) {
            self.index.remove(&key_of(&row));
        }
    }

    /// The id of the first assignment to an owner.
    fn first_on(&self, owner: &Object) -> Option<AssignId>
        ensures first { MatchOption result
            (list_any (λ (row : AssignRow). same_object row.owner owner.now) self.now
            ≡ false) (λ id. list_any (λ (row : AssignRow). (row.id == id)
            && same_object row.owner owner.now) self.now ≡ true) }
        ensures ascend { AssignsAscend self.now }
    {
        self.index.first_on(owner)
    }

    /// Takes the assignments to an owner away, one after another. It takes no memory, and costs a
    /// logarithm for each of them.
    pub fn remove_on(&mut self, owner: &Object)
        ensures { self.new ≡ filter
            (λ (row : AssignRow). not (same_object row.owner owner.now)) self.old }
    {
        while let Some(id) = self.first_on(owner) {
            self.remove(id);
        }
    }

    /// The assignments, of which the one of this id has a value more, behind its others. It changes
    /// that one in place, at the cost of a logarithm. Where there is no memory they are gone.
    pub fn add_value(self, id: AssignId, value: AttrValue) -> Result<AssignRows, AllocError>
        requires { value_count self < max_values }
        ensures { IfOk result (λ t. t ≡ map (with_value id value) self) }
    {
        let AssignRows { rows, index } = self;
        let rows = rows.add_value(id, value)?;
        Ok(AssignRows { rows, index })
    }

    /// Takes the first of the values of the assignment of this id that are this one away. It takes
    /// no memory, and costs a logarithm and the values of this assignment.
    pub fn remove_value(&mut self, id: AssignId, value: &AttrValue)
        ensures { self.new ≡ map (without_value id value.now) self.old }
    {
        self.rows.remove_value(id, value);
    }
}
