// What a step changes itself.
ghost use Rattle.std.specs.Prelude.{◌≡◌, ◌++◌, ◌∷◌, [], IfOk, OnOk, map, filter_map, Some};
ghost use Rattle.reg_terms.specs.Kinds.{as_group};
ghost use Rattle.reg_facts.specs.Naming.{name_of};
ghost use Rattle.std.specs.List.{list_any};
ghost use Rattle.reg_audit.specs.Lines.{action_lines, direct_lines, is_told};
ghost use Rattle.reg_audit.specs.Lives.{gone_from, leaving};
ghost use Rattle.reg_audit.specs.Notes.{notes_of};
ghost use Rattle.reg_audit.specs.Objects.{object_made, object_gone, is_deletion, made_by, gone_by};

use crate::assigning::assign_changes;
use crate::consumers::consumer_notes;
use crate::definitions::attributes_made;
use crate::grant_change::{GrantChange, any_changes_others, changed_grants};
use crate::lines::{action_line, line_of};
use crate::{ConsumerNote, Gone};
use reg_base::{AttrDefId, AttrId, Moment, Text};
use reg_facts::Facts;
use reg_log::{EntryKind, Line};
use reg_names::name_of;
use reg_pit::AssignChange;
use reg_rules::Action;
use reg_terms::{Event, Holder, Object};
use std::alloc::{AllocError, Global};
use std::marker::Model;

/// What a step changes itself, taken before it is carried out: its moment, the entries of what it
/// changes directly, what it makes, what goes with its names, the attributes that it makes with
/// their definitions, what it does to assignments and to consumers, the privileges and holders
/// whose grants it may change, and whether it may change others. What rules do after it is put to
/// the entries once they acted.
#[derive(Drop)]
pub struct Notes {
    pub(crate) at: Moment,
    pub(crate) lines: Vec<Line>,
    pub(crate) made: Vec<Object>,
    pub(crate) gone: Vec<Gone>,
    pub(crate) attributes: Vec<(AttrId, AttrDefId)>,
    pub(crate) assigns: Vec<AssignChange>,
    pub(crate) consumers: Vec<ConsumerNote>,
    pub(crate) changed: Vec<GrantChange>,
    pub(crate) changes_others: bool,
}

impl Model for Notes {
    ghost use Rattle.reg_audit.specs.Notes.{StepNotes};

    ghost Value = { StepNotes };

    ghost view = { λ n. record {
      at = n.at;
      lines = n.lines.items;
      made = n.made.items;
      gone = n.gone.items;
      attributes = n.attributes.items;
      assigns = n.assigns.items;
      consumers = n.consumers.items;
      changed = n.changed.items;
      changes_others = n.changes_others;
    } };
}

impl Notes {
    ghost use Rattle.reg_audit.specs.Notes.{acted_notes};

    /// These, and the entries of what rules did after the step's events. Where they did nothing it
    /// takes no memory. The only error is out of memory, and all is given up then.
    pub fn with_actions(self, actions: &[Action]) -> Result<Notes, AllocError>
        ensures { IfOk result (λ notes. notes ≡ acted_notes self actions.now) }
    {
        let mut notes = self;
        add_actions(&mut notes.lines, notes.at, actions)?;
        Ok(notes)
    }

    /// What the step does to assignments, and the privileges and holders whose grants it may
    /// change.
    pub(crate) fn into_changes(self) -> (Vec<AssignChange>, Vec<GrantChange>)
        ensures assigns { result.0.items ≡ self.assigns }
        ensures grants { result.1.items ≡ self.changed }
    {
        (self.assigns, self.changed)
    }
}

/// Puts an entry at the end. Its parts are passed one by one: only then do the signature's types
/// have all that an entry consists of, which the proof of `push` needs.
fn add_line(
    lines: &mut Vec<Line>,
    at: Moment,
    kind: EntryKind,
    object: Option<Object>,
    entity: Option<Holder>,
    number: u32,
) -> Result<(), AllocError>
    ensures { OnOk result (lines.new.items
        ≡ lines.old.items ++ record {
          at = at;
          kind = kind;
          object = object;
          entity = entity;
          number = number;
        } ∷ []) }
{
    lines.push(Line {
        at,
        kind,
        object,
        entity,
        number,
    })?;
    Ok(())
}

/// Puts the entries of what rules did at the end.
fn add_actions(lines: &mut Vec<Line>, at: Moment, actions: &[Action]) -> Result<(), AllocError>
    ensures { OnOk result (lines.new.items ≡ lines.old.items ++ action_lines at actions.now) }
{
    for action in actions {
        let line = action_line(at, action);
        add_line(
            lines,
            line.at,
            line.kind,
            line.object,
            line.entity,
            line.number,
        )?;
    }
    Ok(())
}

/// The object that an event makes.
fn object_made(event: &Event) -> Option<Object>
    ensures { result ≡ object_made event.now }
{
    match event {
        Event::FolderMade { row } => Some(Object::Folder(row.id)),
        Event::SubjectMade { row } => Some(Object::Subject(row.id)),
        Event::GroupMade { row } => Some(Object::Group(row.id)),
        Event::DefinitionMade { row } => Some(Object::Def(row.id)),
        Event::AttributeMade { row } => Some(Object::Attr(row.id)),
        _ => None,
    }
}

/// The object that goes by an event.
fn object_gone(event: &Event) -> Option<Object>
    ensures { result ≡ object_gone event.now }
{
    match event {
        Event::FolderGone { folder } => Some(Object::Folder(*folder)),
        Event::GroupGone { group } => Some(Object::Group(*group)),
        Event::DefinitionGone { definition } => Some(Object::Def(*definition)),
        Event::AttributeGone { attribute } => Some(Object::Attr(*attribute)),
        _ => None,
    }
}

/// Whether an object goes by an event.
fn is_deletion(event: &Event) -> bool
    ensures { result ≡ is_deletion event.now }
{
    object_gone(event).is_some()
}

/// Whether an object goes by some of the events.
fn has_deletion(events: &[Event]) -> bool
    ensures { result ≡ list_any is_deletion events.now }
{
    events.iter().any(is_deletion)
}

/// Whether an event makes an entry beside others, of which some delete an object or none does.
fn is_told(deletion: bool, event: &Event) -> bool
    ensures { result ≡ is_told deletion event.now }
{
    is_deletion(event) || !deletion
}

/// The entries of what is changed directly, by the facts before: what goes together with a deleted
/// object makes none.
fn direct_lines(
    alloc: Global,
    at: Moment,
    facts: &Facts,
    events: &[Event],
) -> Result<Vec<Line>, AllocError>
    ensures { IfOk result (λ lines. lines.items ≡ direct_lines at facts.now events.now) }
{
    let deletion = has_deletion(events);
    let mut lines = Vec::new(alloc);
    for event in events {
        if is_told(deletion, event) {
            if let Some(line) = line_of(at, facts, event) {
                lines.push(line)?;
            }
        }
    }
    Ok(lines)
}

/// The objects that events make.
fn made_by(alloc: Global, events: &[Event]) -> Result<Vec<Object>, AllocError>
    ensures { IfOk result (λ made. made.items ≡ made_by events.now) }
{
    let mut made = Vec::new(alloc);
    for event in events {
        if let Some(object) = object_made(event) {
            made.push(object)?;
        }
    }
    Ok(made)
}

/// The name of an object; `:` for what has no name.
#[tactic(auto, using(crate::proofs::Unnamed::named_where, crate::proofs::Unnamed::colon_else))]
fn name_before(alloc: Global, facts: &Facts, object: &Object) -> Result<Text, AllocError>
    ensures { IfOk result (λ text. text ≡ name_of object.now facts.now) }
{
    match facts.place_of(object) {
        Some(_) => name_of(alloc, facts, object),
        None => Text::new(alloc, ":"),
    }
}

/// An object that goes, with the name that it has.
fn gone_from(alloc: Global, facts: &Facts, object: Object) -> Result<Gone, AllocError>
    ensures { IfOk result (λ gone. gone ≡ gone_from facts.now object) }
{
    let name = name_before(alloc, facts, &object)?;
    Ok(Gone { object, name })
}

/// The objects that go by events, each with its name before them.
fn leaving(alloc: Global, facts: &Facts, events: &[Event]) -> Result<Vec<Gone>, AllocError>
    ensures { IfOk result (λ gone. gone.items ≡ leaving facts.now events.now) }
{
    let mut gone = Vec::new(alloc);
    for event in events {
        if let Some(object) = object_gone(event) {
            gone.push(gone_from(alloc, facts, object)?)?;
        }
    }
    Ok(gone)
}

/// What events at a moment change themselves, by the facts before them. The only error is out of
/// memory.
pub fn notes_of(
    alloc: Global,
    at: Moment,
    facts: &Facts,
    events: &[Event],
) -> Result<Notes, AllocError>
    ensures { IfOk result (λ notes. notes ≡ notes_of at facts.now events.now) }
{
    Ok(Notes {
        at,
        lines: direct_lines(alloc, at, facts, events)?,
        made: made_by(alloc, events)?,
        gone: leaving(alloc, facts, events)?,
        attributes: attributes_made(alloc, events)?,
        assigns: assign_changes(alloc, events)?,
        consumers: consumer_notes(alloc, events)?,
        changed: changed_grants(alloc, events)?,
        changes_others: any_changes_others(events),
    })
}
