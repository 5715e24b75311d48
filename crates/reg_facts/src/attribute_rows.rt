// The attributes as contracts see them.
ghost use Rattle.std.specs.Prelude.{◌≡◌, ◌==◌, ◌++◌, ◌∷◌, [], not, filter, map, IfOk, OnOk};
ghost use Rattle.std.specs.Option.{option_copied};
ghost use Rattle.reg_terms.specs.declared.rows.AttributeRow.{AttributeRow};
ghost use Rattle.reg_facts.specs.Ascending.{AttributesAscend};
ghost use Rattle.reg_facts.specs.Attributes.{attribute_row, has_attributes};
ghost use Rattle.reg_facts.specs.Defining.{defined_by, AreDefined};

use crate::AttributeRow;
use crate::numbered::{remove_by_id, row_by_id};
use reg_base::{AttrDefId, AttrId};
use reg_table::{Row, Table};
use std::alloc::{AllocError, Global};
use std::marker::Model;

/// An attribute, found by its definition.
#[derive(Clone, Copy)]
pub struct Defined {
    pub definition: AttrDefId,
    pub attribute: AttrId,
}

impl Row for Defined {
    type Group = AttrDefId;

    type Place = AttrId;

    ghost group_of = { λ defined. defined.definition };

    ghost place_of = { λ defined. defined.attribute };

    fn group(&self) -> AttrDefId {
        self.definition
    }

    fn place(&self) -> AttrId {
        self.attribute
    }
}

/// The attributes. Contracts see the list of them, by id.
#[derive(Drop)]
pub struct AttributeRows {
    list: Vec<AttributeRow>,
    /// The same attributes by their definitions.
    index: Table<Defined>,
}

impl Model for AttributeRows {
    ghost use Rattle.std.specs.Prelude.{List};
    ghost use Rattle.reg_terms.specs.declared.rows.AttributeRow.{AttributeRow};
    ghost use Rattle.reg_facts.specs.Defining.{AreDefined};

    ghost Value = { List AttributeRow };

    ghost view = { λ t. t.list.items };

    ghost invariant = { λ t. AreDefined t.index t.list.items };
}

/// Takes the attribute of this id out of the index of a list, if it is there.
fn unlist(index: &mut Table<Defined>, list: &[AttributeRow], id: u32)
    requires { AreDefined index.old list.now }
    ensures { index.new ≡ map defined_by
        (filter (λ (row : AttributeRow). not (row.id == id)) list.now) }
{
    if let Some(row) = row_by_id(list, id) {
        index.remove(row.definition, row.id);
    }
}

impl AttributeRows {
    /// No attribute. It takes no memory.
    pub fn new(alloc: Global) -> AttributeRows
        ensures { result ≡ [] }
    {
        AttributeRows {
            list: Vec::new(alloc),
            index: Table::new(alloc),
        }
    }

    /// The attributes, by id.
    pub fn as_slice(&self) -> &[AttributeRow]
        ensures { result.now ≡ self.now }
    {
        &self.list
    }

    /// The attribute of this id. It takes no memory, and is one look where no attribute before it
    /// was deleted, else a binary search.
    pub fn get(&self, id: u32) -> Option<&AttributeRow>
        ensures { option_copied result ≡ attribute_row id self.now }
    {
        row_by_id(self.list.as_slice(), id)
    }

    /// Whether a definition has an attribute. It takes no memory, and costs a logarithm.
    pub fn has_of(&self, definition: AttrDefId) -> bool
        ensures { result ≡ has_attributes definition self.now }
    {
        self.index.has_rows(definition)
    }

    /// The attributes and one more, of a later id. Where there is no memory they are gone.
    pub fn with(self, row: AttributeRow) -> Result<AttributeRows, AllocError>
        requires { AttributesAscend (self ++ row ∷ []) }
        ensures { IfOk result (λ t. t ≡ self ++ row ∷ []) }
    {
        let defined = Defined {
            definition: row.definition,
            attribute: row.id,
        };
        let AttributeRows {
            mut list,
            mut index,
        } = self;
        index.push(defined)?;
        list.push(row)?;
        Ok(AttributeRows { list, index })
    }

    /// Takes the attribute of this id away. It takes no memory, and moves those of later ids.
    pub fn remove(&mut self, id: AttrId)
        ensures { self.new ≡ filter (λ (row : AttributeRow). not (row.id == id)) self.old }
    {
        unlist(&mut self.index, self.list.as_slice(), id.number());
        remove_by_id(&mut self.list, id.number());
    }
}
