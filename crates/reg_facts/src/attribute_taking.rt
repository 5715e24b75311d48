// Events of definitions, attributes and assignments, taken into the facts.
ghost use Rattle.std.specs.Prelude.{◌≡◌, IfOk};
ghost use Rattle.reg_facts.specs.Events.{happened};
ghost use Rattle.reg_facts.specs.Suiting.{Suits};
ghost use Rattle.reg_terms.specs.declared.event.Event.TheVariants.{DefinitionMade, DefinitionGone};
ghost use Rattle.reg_terms.specs.declared.event.Event.TheVariants.{AttributeMade, AttributeGone};
ghost use Rattle.reg_terms.specs.declared.event.Event.TheVariants.{AssignMade, AssignGone};
ghost use Rattle.reg_terms.specs.declared.event.Event.TheVariants.{ValueAdded, ValueRemoved};

use crate::facts::{both, finished};
use crate::{AssignRow, AttrValue, AttributeRow, DefinitionRow, Facts, Object};
use reg_base::{AssignId, AttrDefId, AttrId};
use std::alloc::{AllocError, Global};

impl Facts {
    pub(crate) fn definition_made(
        self,
        alloc: Global,
        row: DefinitionRow,
    ) -> Result<Facts, AllocError>
        requires { Suits (DefinitionMade row) self }
        ensures { IfOk result (λ f. f ≡ happened (DefinitionMade row) self) }
    {
        let object = Object::Def(row.id);
        let Facts {
            mut tables,
            subject_index,
            mut children,
        } = self;
        let put = children.put(alloc, row.folder.number(), row.extension.as_str(), object);
        let done = both(put, tables.push_definition(row));
        finished(done, tables, subject_index, children)
    }

    pub(crate) fn definition_gone(self, id: AttrDefId) -> Facts
        requires { Suits (DefinitionGone id) self }
        ensures { result ≡ happened (DefinitionGone id) self }
    {
        let object = Object::Def(id);
        let mut facts = self;
        let place = facts.tables.the_place(&object);
        facts.children.take(place.folder.number(), place.extension);
        facts.tables.delete_definition(id);
        facts
    }

    pub(crate) fn attribute_made(
        self,
        alloc: Global,
        row: AttributeRow,
    ) -> Result<Facts, AllocError>
        requires { Suits (AttributeMade row) self }
        ensures { IfOk result (λ f. f ≡ happened (AttributeMade row) self) }
    {
        let object = Object::Attr(row.id);
        let Facts {
            mut tables,
            subject_index,
            mut children,
        } = self;
        let put = children.put(alloc, row.folder.number(), row.extension.as_str(), object);
        let done = both(put, tables.push_attribute(alloc, row));
        finished(done, tables, subject_index, children)
    }

    pub(crate) fn attribute_gone(self, id: AttrId) -> Facts
        requires { Suits (AttributeGone id) self }
        ensures { result ≡ happened (AttributeGone id) self }
    {
        let object = Object::Attr(id);
        let mut facts = self;
        let place = facts.tables.the_place(&object);
        facts.children.take(place.folder.number(), place.extension);
        facts.tables.remove_attribute(id);
        facts
    }

    pub(crate) fn assign_made(self, alloc: Global, row: AssignRow) -> Result<Facts, AllocError>
        requires { Suits (AssignMade row) self }
        ensures { IfOk result (λ f. f ≡ happened (AssignMade row) self) }
    {
        let Facts {
            mut tables,
            subject_index,
            children,
        } = self;
        let done = tables.push_assign(alloc, row);
        finished(done, tables, subject_index, children)
    }

    pub(crate) fn assign_gone(self, id: AssignId) -> Facts
        requires { Suits (AssignGone id) self }
        ensures { result ≡ happened (AssignGone id) self }
    {
        let mut facts = self;
        facts.tables.remove_assign(id);
        facts
    }

    pub(crate) fn value_added(
        self,
        alloc: Global,
        id: AssignId,
        value: AttrValue,
    ) -> Result<Facts, AllocError>
        requires { Suits (ValueAdded id value) self }
        ensures { IfOk result (λ f. f ≡ happened (ValueAdded id value) self) }
    {
        let Facts {
            mut tables,
            subject_index,
            children,
        } = self;
        let done = tables.push_value(alloc, id, value);
        finished(done, tables, subject_index, children)
    }

    pub(crate) fn value_removed(self, id: AssignId, value: &AttrValue) -> Facts
        requires { Suits (ValueRemoved id value.now) self }
        ensures { result ≡ happened (ValueRemoved id value.now) self }
    {
        let mut facts = self;
        facts.tables.remove_value(id, value);
        facts
    }
}
