// The entries of events, of what rules did, and of memberships that begin or end.
ghost use Rattle.std.specs.Prelude.{◌≡◌};
ghost use Rattle.reg_audit.specs.Lines.{acted_line, action_line, assign_line, assign_owner};
ghost use Rattle.reg_audit.specs.Lines.{line_of, object_line, row_line, number_line, grant_line};
ghost use Rattle.reg_audit.specs.Lines.{entity_of, turn_line};
ghost use Rattle.reg_terms.specs.declared.kinds.Object.TheVariants as object;

use reg_base::{
    AssignId, AttrDefId, AttrId, FolderId, GroupId, JobId, Moment, Privilege, RuleId, SubjectId,
};
use reg_facts::Facts;
use reg_log::{EntryKind, Line};
use reg_rules::Action;
use reg_terms::{Event, GrantRow, Holder, InheritRow, Member, Object, privilege_code};

/// An entry of an object alone.
fn object_line(at: Moment, kind: EntryKind, object: Object) -> Line
    ensures { result ≡ object_line at kind object }
{
    Line {
        at,
        kind,
        object: Some(object),
        entity: None,
        number: 0,
    }
}

/// An entry of a folder alone.
fn folder_line(at: Moment, kind: EntryKind, folder: FolderId) -> Line
    ensures { result ≡ object_line at kind (object.Folder folder) }
{
    object_line(at, kind, Object::Folder(folder))
}

/// An entry of a group alone.
fn group_line(at: Moment, kind: EntryKind, group: GroupId) -> Line
    ensures { result ≡ object_line at kind (object.Group group) }
{
    object_line(at, kind, Object::Group(group))
}

/// An entry of a definition alone.
fn definition_line(at: Moment, kind: EntryKind, definition: AttrDefId) -> Line
    ensures { result ≡ object_line at kind (object.Def definition) }
{
    object_line(at, kind, Object::Def(definition))
}

/// An entry of an attribute alone.
fn attribute_line(at: Moment, kind: EntryKind, attribute: AttrId) -> Line
    ensures { result ≡ object_line at kind (object.Attr attribute) }
{
    object_line(at, kind, Object::Attr(attribute))
}

/// A member as an entity.
fn entity_of(member: &Member) -> Holder
    ensures { result ≡ entity_of member.now }
{
    match member {
        Member::Person(id) => Holder::Person(*id),
        Member::Group(id) => Holder::Group(*id),
    }
}

/// An entry of a row of a group.
fn row_line(at: Moment, kind: EntryKind, group: GroupId, member: &Member) -> Line
    ensures { result ≡ row_line at kind group member.now }
{
    Line {
        at,
        kind,
        object: Some(Object::Group(group)),
        entity: Some(entity_of(member)),
        number: 0,
    }
}

/// An entry of a privilege of a holder on an object.
fn privilege_line(
    at: Moment,
    kind: EntryKind,
    object: Object,
    holder: Holder,
    privilege: Privilege,
) -> Line
    ensures { result ≡ grant_line at kind object holder privilege }
{
    Line {
        at,
        kind,
        object: Some(object),
        entity: Some(holder),
        number: privilege_code(privilege) as u32,
    }
}

/// An entry of a grant.
fn grant_line(at: Moment, kind: EntryKind, row: &GrantRow) -> Line
    ensures { result ≡ grant_line at kind row.now.object row.now.holder row.now.privilege }
{
    privilege_line(at, kind, row.object, row.holder, row.privilege)
}

/// An entry of an inherit.
fn inherit_line(at: Moment, kind: EntryKind, row: &InheritRow) -> Line
    ensures { result ≡ grant_line at kind
        (object.Folder row.now.folder) row.now.holder row.now.privilege }
{
    privilege_line(
        at,
        kind,
        Object::Folder(row.folder),
        row.holder,
        row.privilege,
    )
}

/// An entry with a number alone.
fn number_line(at: Moment, kind: EntryKind, number: u32) -> Line
    ensures { result ≡ number_line at kind number }
{
    Line {
        at,
        kind,
        object: None,
        entity: None,
        number,
    }
}

/// An entry of a rule.
fn rule_line(at: Moment, kind: EntryKind, id: RuleId) -> Line
    ensures { result ≡ number_line at kind id }
{
    number_line(at, kind, id.number())
}

/// An entry of a loader job.
fn job_line(at: Moment, kind: EntryKind, id: JobId) -> Line
    ensures { result ≡ number_line at kind id }
{
    number_line(at, kind, id.number())
}

/// The owner of an assignment, if that stands.
fn assign_owner(facts: &Facts, assign: AssignId) -> Option<Object>
    ensures { result ≡ assign_owner assign facts.now }
{
    let row = facts.assign(assign.number() as u64)?;
    Some(row.owner)
}

/// An entry of an assignment to an owner.
fn owner_line(at: Moment, kind: EntryKind, owner: Option<Object>, assign: AssignId) -> Line
    ensures { result ≡ assign_line at kind owner assign }
{
    Line {
        at,
        kind,
        object: owner,
        entity: None,
        number: assign.number(),
    }
}

/// An entry of an assignment to the owner that it has in the facts.
fn assign_line(at: Moment, kind: EntryKind, facts: &Facts, assign: AssignId) -> Line
    ensures { result ≡ assign_line at kind (assign_owner assign facts.now) assign }
{
    owner_line(at, kind, assign_owner(facts, assign), assign)
}

/// The entry of an event, if it makes one, by the facts before all events of its step.
pub fn line_of(at: Moment, facts: &Facts, event: &Event) -> Option<Line>
    ensures { result ≡ line_of at facts.now event.now }
{
    let line = match event {
        Event::FolderMade { row } => folder_line(at, EntryKind::FolderAdd, row.id),
        Event::FolderRenamed { folder, .. } => folder_line(at, EntryKind::FolderRename, *folder),
        Event::FolderMoved { folder, .. } => folder_line(at, EntryKind::FolderMove, *folder),
        Event::FolderGone { folder } => folder_line(at, EntryKind::FolderDelete, *folder),
        Event::SubjectMade { row } => {
            object_line(at, EntryKind::SubjectAdd, Object::Subject(row.id))
        }
        Event::GroupMade { row } => group_line(at, EntryKind::GroupAdd, row.id),
        Event::GroupRenamed { group, .. } => group_line(at, EntryKind::GroupRename, *group),
        Event::GroupMoved { group, .. } => group_line(at, EntryKind::GroupMove, *group),
        Event::GroupGone { group } => group_line(at, EntryKind::GroupDelete, *group),
        Event::RowAdded { row } => row_line(at, EntryKind::RowAdd, row.group, &row.member),
        Event::RowRemoved { group, member } => row_line(at, EntryKind::RowRemove, *group, member),
        Event::RowRedated { group, member, .. } => {
            row_line(at, EntryKind::RowWindow, *group, member)
        }
        Event::Composed { row } => group_line(at, EntryKind::CompositeSet, row.group),
        Event::Decomposed { group } => group_line(at, EntryKind::CompositeClear, *group),
        Event::GrantAdded { row } => grant_line(at, EntryKind::GrantAdd, row),
        Event::GrantRemoved { row } => grant_line(at, EntryKind::GrantRemove, row),
        Event::InheritAdded { row } => inherit_line(at, EntryKind::InheritAdd, row),
        Event::InheritRemoved { row } => inherit_line(at, EntryKind::InheritRemove, row),
        Event::DefinitionMade { row } => definition_line(at, EntryKind::DefinitionAdd, row.id),
        Event::DefinitionGone { definition } => {
            definition_line(at, EntryKind::DefinitionDelete, *definition)
        }
        Event::AttributeMade { row } => attribute_line(at, EntryKind::AttributeAdd, row.id),
        Event::AttributeGone { attribute } => {
            attribute_line(at, EntryKind::AttributeDelete, *attribute)
        }
        Event::AssignMade { row } => {
            owner_line(at, EntryKind::AssignAdd, Some(row.owner), row.id)
        }
        Event::AssignGone { assign } => assign_line(at, EntryKind::AssignRemove, facts, *assign),
        Event::ValueAdded { assign, .. } => assign_line(at, EntryKind::ValueAdd, facts, *assign),
        Event::ValueRemoved { assign, .. } => {
            assign_line(at, EntryKind::ValueRemove, facts, *assign)
        }
        Event::RuleMade { row } => rule_line(at, EntryKind::RuleAdd, row.id),
        Event::RuleGone { rule } => rule_line(at, EntryKind::RuleDelete, *rule),
        Event::JobMade { row } => job_line(at, EntryKind::JobAdd, row.id),
        Event::JobGone { job } => job_line(at, EntryKind::JobDelete, *job),
        Event::GrantBegan { .. } => return None,
        Event::ConsumerAdded { .. } | Event::ConsumerAcked { .. } => return None,
    };
    Some(line)
}

/// An entry of what a rule did to a person's row of a group, with the rule's number.
fn acted_line(at: Moment, kind: EntryKind, rule: RuleId, group: GroupId, person: SubjectId) -> Line
    ensures { result ≡ acted_line at kind rule group person }
{
    Line {
        at,
        kind,
        object: Some(Object::Group(group)),
        entity: Some(Holder::Person(person)),
        number: rule.number(),
    }
}

/// The entry of what a rule did.
pub fn action_line(at: Moment, action: &Action) -> Line
    ensures { result ≡ action_line at action.now }
{
    match action {
        Action::Removed {
            rule,
            group,
            subject,
        } => acted_line(at, EntryKind::RowRemove, *rule, *group, *subject),
        Action::Ended {
            rule,
            group,
            subject,
            ..
        } => acted_line(at, EntryKind::RowWindow, *rule, *group, *subject),
    }
}

/// The entry of a membership that begins or ends.
pub fn turn_line(at: Moment, group: GroupId, person: SubjectId, begins: bool) -> Line
    ensures { result ≡ turn_line at (group, person, begins) }
{
    let kind = if begins {
        EntryKind::MemberBegin
    } else {
        EntryKind::MemberEnd
    };
    row_line(at, kind, group, &Member::Person(person))
}
