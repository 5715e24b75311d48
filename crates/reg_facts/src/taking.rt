// Events, taken into the facts.
ghost use Rattle.std.specs.Prelude.{◌≡◌, IfOk, Some, Ok, true, false};
ghost use Rattle.reg_facts.specs.Events.{happened};
ghost use Rattle.reg_facts.specs.Grants.{undated};
ghost use Rattle.reg_facts.specs.Suiting.{Suits};
ghost use Rattle.reg_terms.specs.declared.event.Event.TheVariants.{FolderMade, FolderRenamed};
ghost use Rattle.reg_terms.specs.declared.event.Event.TheVariants.{FolderMoved, FolderGone};
ghost use Rattle.reg_terms.specs.declared.event.Event.TheVariants.{SubjectMade, GroupMade};
ghost use Rattle.reg_terms.specs.declared.event.Event.TheVariants.{GroupRenamed, GroupMoved};
ghost use Rattle.reg_terms.specs.declared.event.Event.TheVariants.{GroupGone, RowAdded, RowRemoved};
ghost use Rattle.reg_terms.specs.declared.event.Event.TheVariants.{RowRedated, Composed};
ghost use Rattle.reg_terms.specs.declared.event.Event.TheVariants.{Decomposed, GrantAdded};
ghost use Rattle.reg_terms.specs.declared.event.Event.TheVariants.{GrantBegan, GrantRemoved};
ghost use Rattle.reg_terms.specs.declared.event.Event.TheVariants.{InheritAdded};
ghost use Rattle.reg_terms.specs.declared.event.Event.TheVariants.{InheritRemoved, RuleMade};
ghost use Rattle.reg_terms.specs.declared.event.Event.TheVariants.{RuleGone, ConsumerAdded};
ghost use Rattle.reg_terms.specs.declared.event.Event.TheVariants.{ConsumerAcked};

use crate::facts::{both, finished};
use crate::{
    CompositeRow, ConsumerRow, Event, Facts, FolderRow, GrantRow, GroupRow, Holder, InheritRow,
    Member, MemberRow, Object, RuleRow, SubjectRow,
};
use reg_base::{FolderId, GroupId, Moment, Privilege, RuleId, Text};
use std::alloc::{AllocError, Global};

impl Facts {
    /// The facts after an event. Where there is no memory they are gone.
    pub fn take(self, alloc: Global, event: Event) -> Result<Facts, AllocError>
        requires { Suits event self }
        ensures { IfOk result (λ f. f ≡ happened event self) }
    {
        match event {
            Event::FolderMade { row } => self.folder_made(alloc, row),
            Event::FolderRenamed { folder, extension } => {
                self.folder_renamed(alloc, folder, extension)
            }
            Event::FolderMoved { folder, to } => self.folder_moved(alloc, folder, to),
            Event::FolderGone { folder } => Ok(self.folder_gone(folder)),
            Event::SubjectMade { row } => self.subject_made(alloc, row),
            Event::GroupMade { row } => self.group_made(alloc, row),
            Event::GroupRenamed { group, extension } => self.group_renamed(alloc, group, extension),
            Event::GroupMoved { group, to } => self.group_moved(alloc, group, to),
            Event::GroupGone { group } => Ok(self.group_gone(group)),
            Event::RowAdded { row } => self.row_added(alloc, row),
            Event::RowRemoved { group, member } => Ok(self.row_removed(group, &member)),
            Event::RowRedated {
                group,
                member,
                from,
                until,
            } => Ok(self.row_redated(group, &member, from, until)),
            Event::Composed { row } => self.composed(row),
            Event::Decomposed { group } => Ok(self.decomposed(group)),
            Event::GrantAdded { row } => self.grant_added(row),
            Event::GrantBegan { row } => Ok(self.grant_began(row)),
            Event::GrantRemoved { row } => Ok(self.grant_removed(&row)),
            Event::InheritAdded { row } => self.inherit_added(row),
            Event::InheritRemoved { row } => Ok(self.inherit_removed(&row)),
            Event::DefinitionMade { row } => self.definition_made(alloc, row),
            Event::DefinitionGone { definition } => Ok(self.definition_gone(definition)),
            Event::AttributeMade { row } => self.attribute_made(alloc, row),
            Event::AttributeGone { attribute } => Ok(self.attribute_gone(attribute)),
            Event::AssignMade { row } => self.assign_made(alloc, row),
            Event::AssignGone { assign } => Ok(self.assign_gone(assign)),
            Event::ValueAdded { assign, value } => self.value_added(alloc, assign, value),
            Event::ValueRemoved { assign, value } => Ok(self.value_removed(assign, &value)),
            Event::RuleMade { row } => self.rule_made(alloc, row),
            Event::RuleGone { rule } => Ok(self.rule_gone(rule)),
            Event::JobMade { row } => self.job_made(row),
            Event::JobGone { job } => Ok(self.job_gone(job)),
            Event::ConsumerAdded { row } => self.consumer_added(row),
            Event::ConsumerAcked { consumer, seq } => Ok(self.consumer_acked(&consumer, seq)),
        }
    }

    /// The facts without an immediate membership that stands.
    pub fn take_row(
        self,
        alloc: Global,
        group: GroupId,
        member: Member,
    ) -> Result<Facts, AllocError>
        requires { Suits (RowRemoved group member) self }
        ensures { IfOk result (λ f. f ≡ happened (RowRemoved group member) self) }
    {
        self.take(alloc, Event::RowRemoved { group, member })
    }

    /// The facts with another window on an immediate membership that stands.
    pub fn set_until(
        self,
        alloc: Global,
        group: GroupId,
        member: Member,
        from: Moment,
        until: Option<Moment>,
    ) -> Result<Facts, AllocError>
        requires { Suits (RowRedated group member from until) self }
        ensures { IfOk result (λ f. f ≡ happened (RowRedated group member from until) self) }
    {
        self.take(
            alloc,
            Event::RowRedated {
                group,
                member,
                from,
                until,
            },
        )
    }

    /// The facts without a grant that stands, whether it is on or to come. It takes no memory, and
    /// is never an error.
    pub fn drop_grant(
        self,
        object: Object,
        privilege: Privilege,
        holder: Holder,
    ) -> Result<Facts, AllocError>
        requires { Suits (GrantRemoved (undated object privilege holder)) self }
        ensures { result ≡ Ok (happened (GrantRemoved (undated object privilege holder)) self) }
    {
        Ok(self.grant_removed(&GrantRow {
            object,
            privilege,
            holder,
            from: None,
            until: None,
        }))
    }

    fn folder_made(self, alloc: Global, row: FolderRow) -> Result<Facts, AllocError>
        requires { Suits (FolderMade row) self }
        ensures { IfOk result (λ f. f ≡ happened (FolderMade row) self) }
    {
        let parent = row.parent.unwrap();
        let object = Object::Folder(row.id);
        let Facts {
            mut tables,
            subject_index,
            mut children,
        } = self;
        let put = children.put(alloc, parent.number(), row.extension.as_str(), object);
        let done = both(put, tables.push_folder(row));
        finished(done, tables, subject_index, children)
    }

    fn folder_renamed(
        self,
        alloc: Global,
        id: FolderId,
        extension: Text,
    ) -> Result<Facts, AllocError>
        requires { Suits (FolderRenamed id extension) self }
        ensures { IfOk result (λ f. f ≡ happened (FolderRenamed id extension) self) }
    {
        let object = Object::Folder(id);
        let Facts {
            mut tables,
            subject_index,
            mut children,
        } = self;
        let place = tables.the_place(&object);
        children.take(place.folder.number(), place.extension);
        let done = children.put(alloc, place.folder.number(), extension.as_str(), object);
        tables.rename_folder(id, extension);
        finished(done, tables, subject_index, children)
    }

    fn folder_moved(self, alloc: Global, id: FolderId, to: FolderId) -> Result<Facts, AllocError>
        requires { Suits (FolderMoved id to) self }
        ensures { IfOk result (λ f. f ≡ happened (FolderMoved id to) self) }
    {
        let object = Object::Folder(id);
        let Facts {
            mut tables,
            subject_index,
            mut children,
        } = self;
        let place = tables.the_place(&object);
        children.take(place.folder.number(), place.extension);
        let done = children.put(alloc, to.number(), place.extension, object);
        tables.move_folder(id, to);
        finished(done, tables, subject_index, children)
    }

    fn folder_gone(self, id: FolderId) -> Facts
        requires { Suits (FolderGone id) self }
        ensures { result ≡ happened (FolderGone id) self }
    {
        let object = Object::Folder(id);
        let mut facts = self;
        let place = facts.tables.the_place(&object);
        facts.children.take(place.folder.number(), place.extension);
        facts.tables.delete_folder(id);
        facts
    }

    fn subject_made(self, alloc: Global, row: SubjectRow) -> Result<Facts, AllocError>
        requires { Suits (SubjectMade row) self }
        ensures { IfOk result (λ f. f ≡ happened (SubjectMade row) self) }
    {
        let Facts {
            mut tables,
            mut subject_index,
            children,
        } = self;
        let put = subject_index.insert(alloc, row.text.as_str(), row.id.number());
        let done = both(put, tables.push_subject(row));
        finished(done, tables, subject_index, children)
    }

    fn group_made(self, alloc: Global, row: GroupRow) -> Result<Facts, AllocError>
        requires { Suits (GroupMade row) self }
        ensures { IfOk result (λ f. f ≡ happened (GroupMade row) self) }
    {
        let object = Object::Group(row.id);
        let Facts {
            mut tables,
            subject_index,
            mut children,
        } = self;
        let put = children.put(alloc, row.folder.number(), row.extension.as_str(), object);
        let done = both(put, tables.push_group(row));
        finished(done, tables, subject_index, children)
    }

    fn group_renamed(self, alloc: Global, id: GroupId, extension: Text) -> Result<Facts, AllocError>
        requires { Suits (GroupRenamed id extension) self }
        ensures { IfOk result (λ f. f ≡ happened (GroupRenamed id extension) self) }
    {
        let object = Object::Group(id);
        let Facts {
            mut tables,
            subject_index,
            mut children,
        } = self;
        let place = tables.the_place(&object);
        children.take(place.folder.number(), place.extension);
        let done = children.put(alloc, place.folder.number(), extension.as_str(), object);
        tables.rename_group(id, extension);
        finished(done, tables, subject_index, children)
    }

    fn group_moved(self, alloc: Global, id: GroupId, to: FolderId) -> Result<Facts, AllocError>
        requires { Suits (GroupMoved id to) self }
        ensures { IfOk result (λ f. f ≡ happened (GroupMoved id to) self) }
    {
        let object = Object::Group(id);
        let Facts {
            mut tables,
            subject_index,
            mut children,
        } = self;
        let place = tables.the_place(&object);
        children.take(place.folder.number(), place.extension);
        let done = children.put(alloc, to.number(), place.extension, object);
        tables.move_group(id, to);
        finished(done, tables, subject_index, children)
    }

    fn group_gone(self, id: GroupId) -> Facts
        requires { Suits (GroupGone id) self }
        ensures { result ≡ happened (GroupGone id) self }
    {
        let object = Object::Group(id);
        let mut facts = self;
        let place = facts.tables.the_place(&object);
        facts.children.take(place.folder.number(), place.extension);
        facts.tables.delete_group(id);
        facts
    }

    fn row_added(self, alloc: Global, row: MemberRow) -> Result<Facts, AllocError>
        requires { Suits (RowAdded row) self }
        ensures { IfOk result (λ f. f ≡ happened (RowAdded row) self) }
    {
        let Facts {
            mut tables,
            subject_index,
            children,
        } = self;
        let done = tables.push_row(alloc, row);
        finished(done, tables, subject_index, children)
    }

    fn row_removed(self, group: GroupId, member: &Member) -> Facts
        requires { Suits (RowRemoved group member.now) self }
        ensures { result ≡ happened (RowRemoved group member.now) self }
    {
        let mut facts = self;
        facts.tables.remove_row(group, member);
        facts
    }

    fn row_redated(
        self,
        group: GroupId,
        member: &Member,
        from: Moment,
        until: Option<Moment>,
    ) -> Facts
        requires { Suits (RowRedated group member.now from until) self }
        ensures { result ≡ happened (RowRedated group member.now from until) self }
    {
        let mut facts = self;
        facts.tables.redate_row(group, member, from, until);
        facts
    }

    fn composed(self, row: CompositeRow) -> Result<Facts, AllocError>
        requires { Suits (Composed row) self }
        ensures { IfOk result (λ f. f ≡ happened (Composed row) self) }
    {
        let Facts {
            mut tables,
            subject_index,
            children,
        } = self;
        let done = tables.push_composite(row);
        finished(done, tables, subject_index, children)
    }

    fn decomposed(self, group: GroupId) -> Facts
        requires { Suits (Decomposed group) self }
        ensures { result ≡ happened (Decomposed group) self }
    {
        let mut facts = self;
        facts.tables.remove_composite(group);
        facts
    }

    fn grant_added(self, row: GrantRow) -> Result<Facts, AllocError>
        requires { Suits (GrantAdded row) self }
        ensures { IfOk result (λ f. f ≡ happened (GrantAdded row) self) }
    {
        let Facts {
            mut tables,
            subject_index,
            children,
        } = self;
        let done = tables.push_grant(row);
        finished(done, tables, subject_index, children)
    }

    fn grant_began(self, row: GrantRow) -> Facts
        requires { Suits (GrantBegan row) self }
        ensures { result ≡ happened (GrantBegan row) self }
    {
        let mut facts = self;
        facts.tables.begin_grant(row);
        facts
    }

    fn grant_removed(self, row: &GrantRow) -> Facts
        requires { Suits (GrantRemoved row.now) self }
        ensures { result ≡ happened (GrantRemoved row.now) self }
    {
        let mut facts = self;
        facts.tables.remove_grant(row);
        facts
    }

    fn inherit_added(self, row: InheritRow) -> Result<Facts, AllocError>
        requires { Suits (InheritAdded row) self }
        ensures { IfOk result (λ f. f ≡ happened (InheritAdded row) self) }
    {
        let Facts {
            mut tables,
            subject_index,
            children,
        } = self;
        let done = tables.push_inherit(row);
        finished(done, tables, subject_index, children)
    }

    fn inherit_removed(self, row: &InheritRow) -> Facts
        requires { Suits (InheritRemoved row.now) self }
        ensures { result ≡ happened (InheritRemoved row.now) self }
    {
        let mut facts = self;
        facts.tables.remove_inherit(row);
        facts
    }

    fn rule_made(self, alloc: Global, row: RuleRow) -> Result<Facts, AllocError>
        requires { Suits (RuleMade row) self }
        ensures { IfOk result (λ f. f ≡ happened (RuleMade row) self) }
    {
        let Facts {
            mut tables,
            subject_index,
            children,
        } = self;
        let done = tables.push_rule(alloc, row);
        finished(done, tables, subject_index, children)
    }

    fn rule_gone(self, rule: RuleId) -> Facts
        requires { Suits (RuleGone rule) self }
        ensures { result ≡ happened (RuleGone rule) self }
    {
        let mut facts = self;
        facts.tables.remove_rule(rule);
        facts
    }

    fn consumer_added(self, row: ConsumerRow) -> Result<Facts, AllocError>
        requires { Suits (ConsumerAdded row) self }
        ensures { IfOk result (λ f. f ≡ happened (ConsumerAdded row) self) }
    {
        let Facts {
            mut tables,
            subject_index,
            children,
        } = self;
        let done = tables.push_consumer(row);
        finished(done, tables, subject_index, children)
    }

    fn consumer_acked(self, consumer: &Text, seq: u64) -> Facts
        requires { Suits (ConsumerAcked consumer.now seq) self }
        ensures { result ≡ happened (ConsumerAcked consumer.now seq) self }
    {
        let mut facts = self;
        facts.tables.acknowledge(consumer, seq);
        facts
    }
}
