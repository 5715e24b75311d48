// The events of each command, and the facts after it.
ghost use Rattle.std.specs.Prelude.{◌≡◌, ◌+◌, ◌∷◌, ◌++◌, ◌<◌, [], IfOk, OnOk, false, map};
ghost use Rattle.reg_terms.specs.Limits.{max_folders, max_groups, max_subjects};
ghost use Rattle.reg_facts.specs.Edits.{the_id, member_of, person_text};
ghost use Rattle.reg_facts.specs.Naming.{folder_id, group_id};
ghost use Rattle.reg_facts.specs.Events.{events_of, is_load, new_folder, new_subject, new_group};
ghost use Rattle.reg_facts.specs.Events.{new_groups_grants, grants_added, on_member, on_grant};
ghost use Rattle.reg_facts.specs.Events.{on_inherit, row_gone, factors_gone, group_gone};
ghost use Rattle.reg_facts.specs.Grants.{grant_of, inherit_of, makers_grant, to_come};
ghost use Rattle.reg_terms.specs.declared.kinds.Object.TheVariants as object;
ghost use Rattle.reg_base.specs.declared.privilege.Privilege.TheVariants as privilege;
ghost use Rattle.reg_facts.specs.Suiting.{CanEdit};
ghost use Rattle.reg_terms.specs.declared.event.Event.TheVariants.{FolderMade, GroupMade, RowAdded};
ghost use Rattle.reg_terms.specs.declared.event.Event.TheVariants.{RowRemoved, RowRedated};
ghost use Rattle.reg_terms.specs.declared.event.Event.TheVariants.{GrantAdded, GrantRemoved};
ghost use Rattle.reg_terms.specs.declared.event.Event.TheVariants.{InheritAdded, InheritRemoved};

use crate::attribute_editing::{
    assign_add, assign_remove, definition_add, new_attribute, new_definition, the_attribute,
    the_definition, value_add, value_remove,
};
use crate::creation::{makers_grant, new_groups_grants, push_grants};
use crate::job_editing::{job_add, job_delete};
use crate::rule_editing::{rule_add, rule_delete};
use reg_base::{Entity, FolderId, GroupId, Moment, Name, Privilege, SubjectId, Text};
use reg_facts::{
    Command, CompositeRow, ConsumerRow, Event, Facts, FolderRow, GrantRow, GroupRow, InheritRow,
    MemberRow, Object, SubjectRow,
};
use std::alloc::{AllocError, Global};

/// A list of one event.
pub(crate) fn one(alloc: Global, event: Event) -> Result<Vec<Event>, AllocError>
    ensures { IfOk result (λ events. events.items ≡ event ∷ []) }
{
    let mut events = Vec::new(alloc);
    events.push(event)?;
    Ok(events)
}

/// Rows go.
fn rows_gone(alloc: Global, rows: &[MemberRow]) -> Result<Vec<Event>, AllocError>
    ensures { IfOk result (λ events. events.items ≡ map row_gone rows.now) }
{
    let mut events = Vec::new(alloc);
    for row in rows {
        events.push(Event::RowRemoved {
            group: row.group,
            member: row.member,
        })?;
    }
    Ok(events)
}

/// Of a beginning what is to come at a moment. None where nothing of it is.
fn to_come(at: Moment, from: Option<Moment>) -> Option<Moment>
    ensures { result ≡ to_come at from }
{
    match from {
        Some(begins) if at < begins => Some(begins),
        _ => None,
    }
}

/// A grant is made, where its object and its holder stand.
fn grant_added(alloc: Global, row: Option<GrantRow>) -> Result<Vec<Event>, AllocError>
    ensures { IfOk result (λ events. events.items ≡ on_grant (λ r. GrantAdded r) row) }
{
    match row {
        Some(row) => one(alloc, Event::GrantAdded { row }),
        None => Ok(Vec::new(alloc)),
    }
}

/// A grant goes.
fn grant_removed(alloc: Global, row: Option<GrantRow>) -> Result<Vec<Event>, AllocError>
    ensures { IfOk result (λ events. events.items ≡ on_grant (λ r. GrantRemoved r) row) }
{
    match row {
        Some(row) => one(alloc, Event::GrantRemoved { row }),
        None => Ok(Vec::new(alloc)),
    }
}

/// An inherit is made, where its folder and its holder stand.
fn inherit_added(alloc: Global, row: Option<InheritRow>) -> Result<Vec<Event>, AllocError>
    ensures { IfOk result (λ events. events.items ≡ on_inherit (λ r. InheritAdded r) row) }
{
    match row {
        Some(row) => one(alloc, Event::InheritAdded { row }),
        None => Ok(Vec::new(alloc)),
    }
}

/// An inherit goes.
fn inherit_removed(alloc: Global, row: Option<InheritRow>) -> Result<Vec<Event>, AllocError>
    ensures { IfOk result (λ events. events.items ≡ on_inherit (λ r. InheritRemoved r) row) }
{
    match row {
        Some(row) => one(alloc, Event::InheritRemoved { row }),
        None => Ok(Vec::new(alloc)),
    }
}

/// The text of a person, and the empty text of others.
fn person_text(entity: &Entity) -> &str
    ensures { result.now ≡ person_text entity.now }
{
    match entity {
        Entity::Person(text) => text.as_str(),
        _ => "",
    }
}

/// What a command that is no load makes happen: its names are looked up here, and nowhere else.
/// What a load makes happen is `reg_load`'s.
#[tactic(auto, unfolding(reg_facts::specs::Events::events_of))]
pub fn events_of(
    facts: &Facts,
    alloc: Global,
    at: Moment,
    by: &Entity,
    command: &Command,
) -> Result<Vec<Event>, AllocError>
    requires no_load { is_load command.now ≡ false }
    requires suits { CanEdit at by.now command.now facts.now }
    ensures { IfOk result (λ events. events.items ≡ events_of at by.now command.now facts.now) }
{
    match command {
        Command::FolderAdd { folder, display } => { folder_add(facts, alloc, by, folder, display) }
        Command::FolderRename { folder, extension } => {
            let folder = the_folder(facts, folder);
            let extension = extension.copy(alloc)?;
            one(alloc, Event::FolderRenamed { folder, extension })
        }
        Command::FolderMove { folder, to } => {
            let folder = the_folder(facts, folder);
            let to = the_folder(facts, to);
            one(alloc, Event::FolderMoved { folder, to })
        }
        Command::FolderDelete { folder } => {
            let folder = the_folder(facts, folder);
            one(alloc, Event::FolderGone { folder })
        }
        Command::SubjectAdd { subject, display } => {
            let row = new_subject(facts, alloc, subject, display)?;
            one(alloc, Event::SubjectMade { row })
        }
        Command::GroupAdd { group, display } => { group_add(facts, alloc, by, group, display) }
        Command::GroupRename { group, extension } => {
            let group = the_group(facts, group);
            let extension = extension.copy(alloc)?;
            one(alloc, Event::GroupRenamed { group, extension })
        }
        Command::GroupMove { group, to } => {
            let group = the_group(facts, group);
            let to = the_folder(facts, to);
            one(alloc, Event::GroupMoved { group, to })
        }
        Command::GroupDelete { group } => group_delete(facts, alloc, the_group(facts, group)),
        Command::MemberAdd {
            group,
            member,
            from,
            until,
        } => {
            let from = from.unwrap_or(at);
            member_add(facts, alloc, the_group(facts, group), member, from, *until)
        }
        Command::MemberRemove { group, member } => {
            member_remove(facts, alloc, the_group(facts, group), member)
        }
        Command::MemberWindow {
            group,
            member,
            from,
            until,
        } => {
            let from = from.unwrap_or(at);
            member_window(facts, alloc, the_group(facts, group), member, from, *until)
        }
        Command::CompositeSet {
            group,
            kind,
            left,
            right,
        } => {
            let row = CompositeRow {
                group: the_group(facts, group),
                op: *kind,
                left: the_group(facts, left),
                right: the_group(facts, right),
            };
            one(alloc, Event::Composed { row })
        }
        Command::CompositeClear { group } => {
            let group = the_group(facts, group);
            one(alloc, Event::Decomposed { group })
        }
        Command::GrantAdd {
            object,
            privilege,
            holder,
            from,
            until,
        } => {
            let from = to_come(at, *from);
            let row = facts.grant_of(alloc, object, *privilege, holder, from, *until)?;
            grant_added(alloc, row)
        }
        Command::GrantRemove {
            object,
            privilege,
            holder,
        } => {
            let row = facts.grant_of(alloc, object, *privilege, holder, None, None)?;
            grant_removed(alloc, row)
        }
        Command::InheritAdd {
            folder,
            kind,
            scope,
            privilege,
            holder,
        } => inherit_added(
            alloc,
            facts.inherit_of(folder, *kind, *scope, *privilege, holder),
        ),
        Command::InheritRemove {
            folder,
            kind,
            scope,
            privilege,
            holder,
        } => inherit_removed(
            alloc,
            facts.inherit_of(folder, *kind, *scope, *privilege, holder),
        ),
        Command::AttrdefAdd {
            definition,
            owners,
            several,
            kind,
            many,
        } => {
            let row = new_definition(facts, alloc, definition, *owners, *several, *kind, *many)?;
            definition_add(facts, alloc, by, row)
        }
        Command::AttrdefDelete { definition } => {
            let definition = the_definition(facts, definition);
            one(alloc, Event::DefinitionGone { definition })
        }
        Command::AttrAdd {
            attribute,
            definition,
        } => {
            let row = new_attribute(facts, alloc, attribute, definition)?;
            one(alloc, Event::AttributeMade { row })
        }
        Command::AttrDelete { attribute } => {
            let attribute = the_attribute(facts, attribute);
            one(alloc, Event::AttributeGone { attribute })
        }
        Command::AssignAdd { attribute, object } => assign_add(facts, alloc, attribute, object),
        Command::AssignRemove { id, .. } => assign_remove(facts, alloc, *id),
        Command::ValueAdd {
            attribute,
            id,
            value,
            ..
        } => value_add(facts, alloc, attribute, *id, value),
        Command::ValueRemove {
            attribute,
            id,
            value,
            ..
        } => value_remove(facts, alloc, attribute, *id, value),
        Command::RuleRemoveLost { .. } => rule_add(facts, alloc, command),
        Command::RuleEndLost { .. } => rule_add(facts, alloc, command),
        Command::RuleVeto { .. } => rule_add(facts, alloc, command),
        Command::RuleOnCreate { .. } => rule_add(facts, alloc, command),
        Command::RuleDelete { id } => rule_delete(facts, alloc, *id),
        Command::JobSimple {
            job,
            group,
            source,
            min_size,
            max_percent,
        } => {
            let target = Object::Group(the_group(facts, group));
            job_add(facts, alloc, job, target, source, *min_size, *max_percent)
        }
        Command::JobList {
            job,
            folder,
            source,
            min_size,
            max_percent,
        } => {
            let target = Object::Folder(the_folder(facts, folder));
            job_add(facts, alloc, job, target, source, *min_size, *max_percent)
        }
        Command::JobDelete { job } => job_delete(facts, alloc, job),
        Command::Load { .. } => unreachable!(),
        Command::ConsumerAdd { consumer } => {
            let row = ConsumerRow {
                name: consumer.copy(alloc)?,
                place: 0,
            };
            one(alloc, Event::ConsumerAdded { row })
        }
        Command::ConsumerAck { consumer, seq } => {
            let consumer = consumer.copy(alloc)?;
            one(
                alloc,
                Event::ConsumerAcked {
                    consumer,
                    seq: *seq,
                },
            )
        }
    }
}

/// The folder of a name, and the root where there is none.
pub(crate) fn the_folder(facts: &Facts, name: &Text) -> FolderId
    ensures { result ≡ the_id (folder_id name.now facts.now) }
{
    facts.folder_id(name.as_str()).unwrap_or(FolderId::new(0))
}

/// The group of a name, and the number 0, which no group has, where there is none.
pub(crate) fn the_group(facts: &Facts, name: &Name) -> GroupId
    ensures { result ≡ the_id (group_id name.now facts.now) }
{
    facts.group_id(name.as_str()).unwrap_or(GroupId::new(0))
}

fn new_folder(
    facts: &Facts,
    alloc: Global,
    folder: &Name,
    display: &Text,
) -> Result<FolderRow, AllocError>
    requires { facts.now.made.folders < max_folders }
    ensures { IfOk result (λ row. row ≡ new_folder folder.now display.now facts.now) }
{
    let (parent, extension) = facts.home(folder);
    Ok(FolderRow {
        id: FolderId::new(facts.made().folders + 1),
        parent,
        extension: Text::new(alloc, extension)?,
        display: display.copy(alloc)?,
    })
}

/// A folder is made, and the person who makes it is granted its administration.
fn folder_add(
    facts: &Facts,
    alloc: Global,
    by: &Entity,
    folder: &Name,
    display: &Text,
) -> Result<Vec<Event>, AllocError>
    requires { facts.now.made.folders < max_folders }
    ensures { IfOk result (λ events. events.items
        ≡ FolderMade (new_folder folder.now display.now facts.now)
        ∷ grants_added (makers_grant by.now (object.Folder (facts.now.made.folders
        + 1)) privilege.StemAdmin facts.now)) }
{
    let row = new_folder(facts, alloc, folder, display)?;
    let object = Object::Folder(row.id);
    let mut events = one(alloc, Event::FolderMade { row })?;
    if let Some(row) = makers_grant(facts, by, object, Privilege::StemAdmin) {
        events.push(Event::GrantAdded { row })?;
    }
    Ok(events)
}

/// A group is made, and the grants on it: that of its maker, and those of rules.
fn group_add(
    facts: &Facts,
    alloc: Global,
    by: &Entity,
    group: &Name,
    display: &Text,
) -> Result<Vec<Event>, AllocError>
    requires { facts.now.made.groups < max_groups }
    ensures { IfOk result (λ events. events.items
        ≡ GroupMade (new_group group.now display.now facts.now)
        ∷ grants_added (new_groups_grants by.now group.now facts.now)) }
{
    let row = new_group(facts, alloc, group, display)?;
    let mut events = one(alloc, Event::GroupMade { row })?;
    let rows = new_groups_grants(facts, alloc, by, group)?;
    push_grants(&mut events, &rows)?;
    Ok(events)
}

fn new_subject(
    facts: &Facts,
    alloc: Global,
    subject: &Entity,
    display: &Text,
) -> Result<SubjectRow, AllocError>
    requires { facts.now.made.subjects < max_subjects }
    ensures { IfOk result (λ row. row ≡ new_subject subject.now display.now facts.now) }
{
    Ok(SubjectRow {
        id: SubjectId::new(facts.made().subjects + 1),
        text: Text::new(alloc, person_text(subject))?,
        display: display.copy(alloc)?,
    })
}

fn new_group(
    facts: &Facts,
    alloc: Global,
    group: &Name,
    display: &Text,
) -> Result<GroupRow, AllocError>
    requires { facts.now.made.groups < max_groups }
    ensures { IfOk result (λ row. row ≡ new_group group.now display.now facts.now) }
{
    let (folder, extension) = facts.home(group);
    Ok(GroupRow {
        id: GroupId::new(facts.made().groups + 1),
        folder: folder.unwrap_or(FolderId::new(0)),
        extension: Text::new(alloc, extension)?,
        display: display.copy(alloc)?,
    })
}

/// A group goes after its rows and its factors.
fn group_delete(facts: &Facts, alloc: Global, group: GroupId) -> Result<Vec<Event>, AllocError>
    ensures { IfOk result (λ events. events.items ≡ group_gone group facts.now) }
{
    let rows = facts.rows_of(alloc, group)?;
    let mut events = rows_gone(alloc, &rows)?;
    push_factors(facts, &mut events, group)?;
    events.push(Event::GroupGone { group })?;
    Ok(events)
}

/// A group's factors go, if it is a composite.
fn push_factors(facts: &Facts, events: &mut Vec<Event>, group: GroupId) -> Result<(), AllocError>
    ensures { OnOk result (events.new.items
        ≡ events.old.items ++ factors_gone group facts.now.composites) }
{
    if facts.is_composite(group) {
        events.push(Event::Decomposed { group })?;
    }
    Ok(())
}

/// A person or group becomes a member of a group.
fn member_add(
    facts: &Facts,
    alloc: Global,
    group: GroupId,
    member: &Entity,
    from: Moment,
    until: Option<Moment>,
) -> Result<Vec<Event>, AllocError>
    ensures { IfOk result (λ events. events.items
        ≡ on_member (λ m. RowAdded (record {
          group = group;
          member = m;
          from = from;
          until = until;
        })) (member_of member.now facts.now)) }
{
    let Some(member) = facts.member_of(member) else {
        return Ok(Vec::new(alloc));
    };
    let row = MemberRow {
        group,
        member,
        from,
        until,
    };
    one(alloc, Event::RowAdded { row })
}

/// A membership goes.
fn member_remove(
    facts: &Facts,
    alloc: Global,
    group: GroupId,
    member: &Entity,
) -> Result<Vec<Event>, AllocError>
    ensures { IfOk result (λ events. events.items
        ≡ on_member (λ m. RowRemoved group m) (member_of member.now facts.now)) }
{
    let Some(member) = facts.member_of(member) else {
        return Ok(Vec::new(alloc));
    };
    one(alloc, Event::RowRemoved { group, member })
}

/// A membership gets another window.
fn member_window(
    facts: &Facts,
    alloc: Global,
    group: GroupId,
    member: &Entity,
    from: Moment,
    until: Option<Moment>,
) -> Result<Vec<Event>, AllocError>
    ensures { IfOk result (λ events. events.items
        ≡ on_member (λ m. RowRedated group m from until) (member_of member.now facts.now)) }
{
    let Some(member) = facts.member_of(member) else {
        return Ok(Vec::new(alloc));
    };
    one(
        alloc,
        Event::RowRedated {
            group,
            member,
            from,
            until,
        },
    )
}
