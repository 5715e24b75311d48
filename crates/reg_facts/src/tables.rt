// The lists of the facts.
ghost use Rattle.std.specs.Prelude.{◌≡◌, ◌++◌, ◌∷◌, ◌<◌, [], IfOk, OnOk, List, ℕ, Some, false};
ghost use Rattle.reg_facts.specs.Lists.{Lists, start};
ghost use Rattle.reg_facts.specs.Attributes.{value_count};
ghost use Rattle.reg_terms.specs.Rows.{has_row, is_composite};
ghost use Rattle.reg_facts.specs.Grants.{has_grant, has_inherit};
ghost use Rattle.reg_facts.specs.Events.{happened};
ghost use Rattle.reg_terms.specs.declared.event.Event.TheVariants.{FolderMade, FolderRenamed};
ghost use Rattle.reg_terms.specs.declared.event.Event.TheVariants.{FolderMoved, FolderGone};
ghost use Rattle.reg_terms.specs.declared.event.Event.TheVariants.{SubjectMade, GroupMade};
ghost use Rattle.reg_terms.specs.declared.event.Event.TheVariants.{GroupRenamed, GroupMoved};
ghost use Rattle.reg_terms.specs.declared.event.Event.TheVariants.{GroupGone, RowAdded, RowRemoved};
ghost use Rattle.reg_terms.specs.declared.event.Event.TheVariants.{RowRedated, Composed};
ghost use Rattle.reg_terms.specs.declared.event.Event.TheVariants.{Decomposed, GrantAdded};
ghost use Rattle.reg_terms.specs.declared.event.Event.TheVariants.{GrantBegan, GrantRemoved};
ghost use Rattle.reg_terms.specs.declared.event.Event.TheVariants.{InheritAdded};
ghost use Rattle.reg_terms.specs.declared.event.Event.TheVariants.{InheritRemoved, DefinitionMade};
ghost use Rattle.reg_terms.specs.declared.event.Event.TheVariants.{DefinitionGone, AttributeMade};
ghost use Rattle.reg_terms.specs.declared.event.Event.TheVariants.{AttributeGone, AssignMade};
ghost use Rattle.reg_terms.specs.declared.event.Event.TheVariants.{AssignGone, ValueAdded};
ghost use Rattle.reg_terms.specs.declared.event.Event.TheVariants.{ValueRemoved, RuleMade};
ghost use Rattle.reg_terms.specs.declared.event.Event.TheVariants.{RuleGone, ConsumerAdded};
ghost use Rattle.reg_terms.specs.declared.event.Event.TheVariants.{ConsumerAcked};
ghost use Rattle.reg_facts.specs.Ascending.{FoldersAscend, GroupsAscend, DefinitionsAscend};
ghost use Rattle.reg_facts.specs.Ascending.{AttributesAscend, AssignsAscend, RulesAscend};
ghost use Rattle.reg_terms.specs.Limits.{max_values};

use crate::assign_rows::AssignRows;
use crate::attribute_rows::AttributeRows;
use crate::consumers::acknowledge;
use crate::grant_rows::GrantRows;
use crate::inherit_rows::InheritRows;
use crate::member_rows::MemberRows;
use crate::numbered::remove_by_id;
use crate::rule_rows::RuleRows;
use crate::slots::Slots;
use crate::{
    AssignRow, AttrValue, AttributeRow, CompositeRow, ConsumerRow, DefinitionRow, FolderRow,
    GrantRow, GroupRow, InheritRow, JobRow, Made, Member, MemberRow, Object, RuleRow, SubjectRow,
    list_edits,
};
use reg_base::{AssignId, AttrDefId, AttrId, FolderId, GroupId, Moment, RuleId, SubjectId, Text};
use reg_table::Table;
use std::alloc::{AllocError, Global};
use std::marker::Model;
use std::mem;

/// The lists. Contracts see the record of them.
#[derive(Drop)]
pub struct Tables {
    pub folder_rows: Slots<FolderRow>,
    pub group_rows: Slots<GroupRow>,
    pub subject_rows: Vec<SubjectRow>,
    pub member_rows: MemberRows,
    pub composite_rows: Table<CompositeRow>,
    pub grant_rows: GrantRows,
    pub inherit_rows: InheritRows,
    pub definition_rows: Vec<DefinitionRow>,
    pub attribute_rows: AttributeRows,
    pub assign_rows: AssignRows,
    pub rule_rows: RuleRows,
    pub job_rows: Vec<JobRow>,
    pub consumer_rows: Vec<ConsumerRow>,
    pub counts: Made,
}

impl Model for Tables {
    ghost use Rattle.reg_facts.specs.Lists.{Lists};

    ghost Value = { Lists };

    ghost view = { λ t. record {
      folders = t.folder_rows;
      groups = t.group_rows;
      subjects = t.subject_rows.items;
      rows = t.member_rows;
      composites = t.composite_rows;
      grants = t.grant_rows;
      inherits = t.inherit_rows;
      definitions = t.definition_rows.items;
      attributes = t.attribute_rows;
      assigns = t.assign_rows;
      rules = t.rule_rows;
      jobs = t.job_rows.items;
      consumers = t.consumer_rows.items;
      made = t.counts;
    } };
}

fn none_made() -> Made
    ensures { result ≡ record {
      folders = 0;
      groups = 0;
      subjects = 0;
      definitions = 0;
      attributes = 0;
      assigns = 0;
      rules = 0;
      jobs = 0;
    } }
{
    Made {
        folders: 0,
        groups: 0,
        subjects: 0,
        definitions: 0,
        attributes: 0,
        assigns: 0,
        rules: 0,
        jobs: 0,
    }
}

impl Tables {
    /// The root folder alone.
    pub fn start(alloc: Global) -> Result<Tables, AllocError>
        ensures { IfOk result (λ t. t ≡ start) }
    {
        let mut folder_rows = Slots::new(alloc);
        folder_rows.push(FolderRow {
            id: FolderId::new(0),
            parent: None,
            extension: Text::new(alloc, "")?,
            display: Text::new(alloc, "")?,
        })?;
        Ok(Tables {
            folder_rows,
            group_rows: Slots::new(alloc),
            subject_rows: Vec::new(alloc),
            member_rows: MemberRows::new(alloc),
            composite_rows: Table::new(alloc),
            grant_rows: GrantRows::new(alloc),
            inherit_rows: InheritRows::new(alloc),
            definition_rows: Vec::new(alloc),
            attribute_rows: AttributeRows::new(alloc),
            assign_rows: AssignRows::new(alloc),
            rule_rows: RuleRows::new(alloc),
            job_rows: Vec::new(alloc),
            consumer_rows: Vec::new(alloc),
            counts: none_made(),
        })
    }

    /// Adds a folder of the next id.
    pub fn push_folder(&mut self, row: FolderRow) -> Result<(), AllocError>
        requires { FoldersAscend (self.old.folders ++ row ∷ []) }
        ensures { OnOk result (self.new ≡ happened (FolderMade row) self.old) }
    {
        let number = row.id.number();
        self.folder_rows.push(row)?;
        self.counts.folders = number;
        Ok(())
    }

    /// Adds a group of the next id.
    pub fn push_group(&mut self, row: GroupRow) -> Result<(), AllocError>
        requires { GroupsAscend (self.old.groups ++ row ∷ []) }
        ensures { OnOk result (self.new ≡ happened (GroupMade row) self.old) }
    {
        let number = row.id.number();
        self.group_rows.push(row)?;
        self.counts.groups = number;
        Ok(())
    }

    /// Adds a subject of the next id.
    pub fn push_subject(&mut self, row: SubjectRow) -> Result<(), AllocError>
        ensures { OnOk result (self.new ≡ happened (SubjectMade row) self.old) }
    {
        let number = row.id.number();
        self.subject_rows.push(row)?;
        self.counts.subjects = number;
        Ok(())
    }

    /// Adds an immediate membership that doesn't stand. Where there is no memory all are gone.
    pub fn push_row(&mut self, alloc: Global, row: MemberRow) -> Result<(), AllocError>
        requires { has_row row.group row.member self.old.rows ≡ false }
        ensures { OnOk result (self.new ≡ happened (RowAdded row) self.old) }
    {
        let rows = mem::replace(&mut self.member_rows, MemberRows::new(alloc));
        self.member_rows = rows.with(row)?;
        Ok(())
    }

    /// Adds a composite that isn't one yet.
    pub fn push_composite(&mut self, row: CompositeRow) -> Result<(), AllocError>
        requires { is_composite row.group self.old.composites ≡ false }
        ensures { OnOk result (self.new ≡ happened (Composed row) self.old) }
    {
        self.composite_rows.push(row)
    }

    /// Takes a composite's factors away.
    pub fn remove_composite(&mut self, group: GroupId)
        ensures { self.new ≡ happened (Decomposed group) self.old }
    {
        self.composite_rows.remove(group, ());
    }

    /// Gives a folder another extension.
    pub fn rename_folder(&mut self, id: FolderId, extension: Text)
        ensures { self.new ≡ happened (FolderRenamed id extension) self.old }
    {
        list_edits::rename_folder(&mut self.folder_rows, id, extension);
    }

    /// Puts a folder into another.
    pub fn move_folder(&mut self, id: FolderId, to: FolderId)
        ensures { self.new ≡ happened (FolderMoved id to) self.old }
    {
        list_edits::move_folder(&mut self.folder_rows, id, to);
    }

    /// Gives a group another extension.
    pub fn rename_group(&mut self, id: GroupId, extension: Text)
        ensures { self.new ≡ happened (GroupRenamed id extension) self.old }
    {
        list_edits::rename_group(&mut self.group_rows, id, extension);
    }

    /// Puts a group into another folder.
    pub fn move_group(&mut self, id: GroupId, to: FolderId)
        ensures { self.new ≡ happened (GroupMoved id to) self.old }
    {
        list_edits::move_group(&mut self.group_rows, id, to);
    }

    /// Takes away a folder, and the grants, inherits and assignments on it.
    pub fn delete_folder(&mut self, id: FolderId)
        ensures { self.new ≡ happened (FolderGone id) self.old }
    {
        let object = Object::Folder(id);
        self.folder_rows.remove(id.number());
        self.inherit_rows.remove_on(id);
        self.grant_rows.remove_on(&object);
        self.assign_rows.remove_on(&object);
    }

    /// Takes away a group, and the grants and assignments on it.
    pub fn delete_group(&mut self, id: GroupId)
        ensures { self.new ≡ happened (GroupGone id) self.old }
    {
        let object = Object::Group(id);
        self.group_rows.remove(id.number());
        self.grant_rows.remove_on(&object);
        self.assign_rows.remove_on(&object);
    }

    /// Takes an immediate membership away.
    pub fn remove_row(&mut self, group: GroupId, member: &Member)
        ensures { self.new ≡ happened (RowRemoved group member.now) self.old }
    {
        self.member_rows.remove(group, member);
    }

    /// Gives an immediate membership other dates.
    pub fn redate_row(
        &mut self,
        group: GroupId,
        member: &Member,
        from: Moment,
        until: Option<Moment>,
    )
        ensures { self.new ≡ happened (RowRedated group member.now from until) self.old }
    {
        self.member_rows.redate(group, member, from, until);
    }

    /// Adds a grant that doesn't stand.
    pub fn push_grant(&mut self, row: GrantRow) -> Result<(), AllocError>
        requires { has_grant row self.old.grants ≡ false }
        ensures { OnOk result (self.new ≡ happened (GrantAdded row) self.old) }
    {
        self.grant_rows.push(row)
    }

    /// Puts a grant in the place of the one that is the same.
    pub fn begin_grant(&mut self, row: GrantRow)
        ensures { self.new ≡ happened (GrantBegan row) self.old }
    {
        self.grant_rows.replace(row);
    }

    /// Takes a grant away.
    pub fn remove_grant(&mut self, row: &GrantRow)
        ensures { self.new ≡ happened (GrantRemoved row.now) self.old }
    {
        self.grant_rows.remove(row);
    }

    /// Adds an inherit that doesn't stand.
    pub fn push_inherit(&mut self, row: InheritRow) -> Result<(), AllocError>
        requires { has_inherit row self.old.inherits ≡ false }
        ensures { OnOk result (self.new ≡ happened (InheritAdded row) self.old) }
    {
        self.inherit_rows.push(row)
    }

    /// Takes an inherit away.
    pub fn remove_inherit(&mut self, row: &InheritRow)
        ensures { self.new ≡ happened (InheritRemoved row.now) self.old }
    {
        self.inherit_rows.remove(row);
    }

    /// Adds a definition of the next id.
    pub fn push_definition(&mut self, row: DefinitionRow) -> Result<(), AllocError>
        ensures { OnOk result (self.new ≡ happened (DefinitionMade row) self.old) }
    {
        let number = row.id.number();
        self.definition_rows.push(row)?;
        self.counts.definitions = number;
        Ok(())
    }

    /// Takes away a definition, and the grants and assignments on it.
    pub fn delete_definition(&mut self, id: AttrDefId)
        requires { DefinitionsAscend self.old.definitions }
        ensures { self.new ≡ happened (DefinitionGone id) self.old }
    {
        let object = Object::Def(id);
        remove_by_id(&mut self.definition_rows, id.number());
        self.grant_rows.remove_on(&object);
        self.assign_rows.remove_on(&object);
    }

    /// Adds an attribute of the next id. Where there is no memory all are gone.
    pub fn push_attribute(&mut self, alloc: Global, row: AttributeRow) -> Result<(), AllocError>
        requires { AttributesAscend (self.old.attributes ++ row ∷ []) }
        ensures { OnOk result (self.new ≡ happened (AttributeMade row) self.old) }
    {
        let number = row.id.number();
        let rows = mem::replace(&mut self.attribute_rows, AttributeRows::new(alloc));
        self.attribute_rows = rows.with(row)?;
        self.counts.attributes = number;
        Ok(())
    }

    /// Takes an attribute away.
    pub fn remove_attribute(&mut self, id: AttrId)
        ensures { self.new ≡ happened (AttributeGone id) self.old }
    {
        self.attribute_rows.remove(id);
    }

    /// Adds an assignment of the next id that has no value. Where there is no memory all are gone.
    pub fn push_assign(&mut self, alloc: Global, row: AssignRow) -> Result<(), AllocError>
        requires ascend { AssignsAscend (self.old.assigns ++ row ∷ []) }
        requires empty { row.values ≡ [] }
        ensures { OnOk result (self.new ≡ happened (AssignMade row) self.old) }
    {
        let number = row.id.number();
        let rows = mem::replace(&mut self.assign_rows, AssignRows::new(alloc));
        self.assign_rows = rows.with(row)?;
        self.counts.assigns = number;
        Ok(())
    }

    /// Takes an assignment away, with its values.
    pub fn remove_assign(&mut self, id: AssignId)
        ensures { self.new ≡ happened (AssignGone id) self.old }
    {
        self.assign_rows.remove(id);
    }

    /// Adds a value behind the others of an assignment. Where there is no memory all assignments
    /// are gone.
    pub fn push_value(
        &mut self,
        alloc: Global,
        id: AssignId,
        value: AttrValue,
    ) -> Result<(), AllocError>
        requires { value_count self.old.assigns < max_values }
        ensures { OnOk result (self.new ≡ happened (ValueAdded id value) self.old) }
    {
        let rows = mem::replace(&mut self.assign_rows, AssignRows::new(alloc));
        self.assign_rows = rows.add_value(id, value)?;
        Ok(())
    }

    /// Takes the first of the values of an assignment that are this one away.
    pub fn remove_value(&mut self, id: AssignId, value: &AttrValue)
        ensures { self.new ≡ happened (ValueRemoved id value.now) self.old }
    {
        self.assign_rows.remove_value(id, value);
    }

    /// Adds a rule of the next id. Where there is no memory all are gone.
    pub fn push_rule(&mut self, alloc: Global, row: RuleRow) -> Result<(), AllocError>
        requires { RulesAscend (self.old.rules ++ row ∷ []) }
        ensures { OnOk result (self.new ≡ happened (RuleMade row) self.old) }
    {
        let number = row.id.number();
        let rows = mem::replace(&mut self.rule_rows, RuleRows::new(alloc));
        self.rule_rows = rows.with(row)?;
        self.counts.rules = number;
        Ok(())
    }

    /// Takes a rule away.
    pub fn remove_rule(&mut self, id: RuleId)
        ensures { self.new ≡ happened (RuleGone id) self.old }
    {
        self.rule_rows.remove(id);
    }

    /// Adds a consumer of the change log.
    pub fn push_consumer(&mut self, row: ConsumerRow) -> Result<(), AllocError>
        ensures { OnOk result (self.new ≡ happened (ConsumerAdded row) self.old) }
    {
        self.consumer_rows.push(row)?;
        Ok(())
    }

    /// The consumer of a name has read up to a number.
    pub fn acknowledge(&mut self, name: &Text, seq: u64)
        ensures { self.new ≡ happened (ConsumerAcked name.now seq) self.old }
    {
        acknowledge(self.consumer_rows.as_mut_slice(), name.as_str(), seq);
    }
}
