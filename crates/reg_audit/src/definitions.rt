// Of which definition each attribute was made.
ghost use Rattle.std.specs.Prelude.{◌≡◌, ◌==◌, ℕ, IfOk, OnOk, None, Some, filter_map};
ghost use Rattle.std.specs.Prelude.{if◌then◌else◌};
ghost use Rattle.reg_audit.specs.Definitions.{attribute_made, attributes_made, last_definition};
ghost use Rattle.reg_audit.specs.Kept.{defined_in};

use reg_base::{AttrDefId, AttrId};
use reg_terms::Event;
use std::alloc::{AllocError, Global};
use std::collections::BTreeMap;

/// The attribute that an event makes, and its definition.
fn attribute_made(event: &Event) -> Option<(AttrId, AttrDefId)>
    ensures { result ≡ attribute_made event.now }
{
    match event {
        Event::AttributeMade { row } => Some((row.id, row.definition)),
        _ => None,
    }
}

/// The attributes that events make, and their definitions.
pub(crate) fn attributes_made(
    alloc: Global,
    events: &[Event],
) -> Result<Vec<(AttrId, AttrDefId)>, AllocError>
    ensures { IfOk result (λ made. made.items ≡ attributes_made events.now) }
{
    let mut made = Vec::new(alloc);
    for event in events {
        if let Some(pair) = attribute_made(event) {
            made.push(pair)?;
        }
    }
    Ok(made)
}

/// Of which definition each attribute was made, also of those that are gone.
#[derive(Drop)]
pub(crate) struct Definitions {
    made: BTreeMap<AttrId, AttrDefId>,
}

impl Definitions {
    /// No attribute was made. Takes no memory.
    pub(crate) fn new(alloc: Global) -> Definitions
        ensures { (a : ℕ) → defined_in result a ≡ None }
    {
        Definitions {
            made: BTreeMap::new(alloc),
        }
    }

    /// The definition of which an attribute was made, if it was. Takes no memory.
    pub(crate) fn of(&self, attribute: AttrId) -> Option<AttrDefId>
        ensures { result ≡ defined_in self.now attribute }
    {
        self.made.get(&attribute).copied()
    }

    /// An attribute is made.
    fn add(&mut self, attribute: AttrId, definition: AttrDefId) -> Result<(), AllocError>
        ensures { OnOk result ((a : ℕ)
            → defined_in self.new a ≡ (if attribute == a then Some definition
            else defined_in self.old a)) }
    {
        self.made.insert(attribute, definition)?;
        Ok(())
    }

    /// Attributes are made, one after another.
    pub(crate) fn add_all(&mut self, made: &[(AttrId, AttrDefId)]) -> Result<(), AllocError>
        ensures { OnOk result ((a : ℕ)
            → defined_in self.new a ≡ last_definition a (defined_in self.old a) made.now) }
    {
        for pair in made {
            self.add(pair.0, pair.1)?;
        }
        Ok(())
    }
}
