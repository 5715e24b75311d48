// The entries of the change log, as a consumer reads them.
ghost use Rattle.std.specs.Prelude.{◌≡◌, ◌++◌, Some, IfOk, codes, map};
ghost use Rattle.reg_terms.specs.declared.kinds.Object.TheVariants as object;
ghost use Rattle.reg_machine.specs.History as given;
ghost use Rattle.reg_view.specs.Answers.{entries_told, log_of, place_seen};
ghost use Rattle.reg_view.specs.Past.{entity_text, entry_shown, object_text, past_at};

use crate::Answer;
use crate::refusing::not_found;
use reg_base::{GroupId, Text};
use reg_effect::Kept;
use reg_facts::{Facts, Holder, Object};
use reg_log::Entry;
use reg_machine::Machine;
use reg_priv::{Who, is_root};
use reg_terms::{EntriesShown, EntryShown, Refusal};
use std::alloc::{AllocError, Global};

/// The name of what was changed, or the text of a person; the empty text where there is nothing.
fn object_text<K: Kept>(
    alloc: Global,
    machine: &Machine<K>,
    object: &Option<Object>,
) -> Result<Text, AllocError>
    ensures { IfOk result (λ text. text ≡ object_text (past_at machine.now) object.now) }
{
    match object {
        Some(object) => machine.last_name(alloc, *object),
        None => Text::new(alloc, ""),
    }
}

/// The text of a group's entity, by the name that it has or had last.
fn group_text<K: Kept>(alloc: Global, machine: &Machine<K>, id: GroupId) -> Result<Text, AllocError>
    ensures { IfOk result (λ text. text
        ≡ codes "g:gsa/" ++ (past_at machine.now).last_name (object.Group id)) }
{
    let name = machine.last_name(alloc, Object::Group(id))?;
    let mut text = String::from_str(alloc, "g:gsa/")?;
    text.push_str(name.as_str())?;
    Text::new(alloc, text.as_str())
}

/// The text of a holder.
fn holder_text<K: Kept>(
    alloc: Global,
    machine: &Machine<K>,
    holder: &Holder,
) -> Result<Text, AllocError>
    ensures { IfOk result (λ text. text ≡ entity_text (past_at machine.now) (Some holder.now)) }
{
    match holder {
        Holder::Everyone => Text::new(alloc, "g:isa/GrouperAll"),
        Holder::Person(id) => machine.last_name(alloc, Object::Subject(*id)),
        Holder::Group(id) => group_text(alloc, machine, *id),
    }
}

/// The text of a member, a holder or a person; the empty text where there is none.
fn entity_text<K: Kept>(
    alloc: Global,
    machine: &Machine<K>,
    entity: &Option<Holder>,
) -> Result<Text, AllocError>
    ensures { IfOk result (λ text. text ≡ entity_text (past_at machine.now) entity.now) }
{
    match entity {
        Some(holder) => holder_text(alloc, machine, holder),
        None => Text::new(alloc, ""),
    }
}

/// An entry, with texts.
fn entry_shown<K: Kept>(
    alloc: Global,
    machine: &Machine<K>,
    entry: &Entry,
) -> Result<EntryShown, AllocError>
    ensures { IfOk result (λ shown. shown ≡ entry_shown (past_at machine.now) entry.now) }
{
    let entity = entity_text(alloc, machine, &entry.entity)?;
    let object = object_text(alloc, machine, &entry.object)?;
    Ok(EntryShown {
        at: entry.at,
        entity,
        kind: entry.kind,
        number: entry.number,
        object,
        seq: entry.seq,
    })
}

/// Entries, with texts.
fn entries_shown<K: Kept>(
    alloc: Global,
    machine: &Machine<K>,
    entries: &[Entry],
) -> Result<EntriesShown, AllocError>
    ensures { IfOk result (λ shown. shown ≡ map (entry_shown (past_at machine.now)) entries.now) }
{
    let mut shown = EntriesShown::new(alloc);
    for entry in entries {
        let row = entry_shown(alloc, machine, entry)?;
        shown.push(row)?;
    }
    Ok(shown)
}

/// The entries after a place, at most some. They cost what they are.
fn entries_told<K: Kept>(
    alloc: Global,
    machine: &Machine<K>,
    place: u64,
    max: u64,
) -> Result<Answer, AllocError>
    ensures { IfOk result (λ answer. answer ≡ entries_told (past_at machine.now) place max) }
{
    let log = machine.log();
    let found = log.after(place, max)?;
    let entries = entries_shown(alloc, machine, &found)?;
    Ok(Answer::Log {
        entries,
        last: log.last(),
        place,
    })
}

/// The place of the consumer of this name, which root alone sees.
pub fn place_seen<K: Kept>(
    machine: &Machine<K>,
    facts: &Facts,
    kept: &K,
    who: &Who,
    consumer: &Text,
) -> Option<u64>
    requires { facts.now ≡ given.facts machine.now.history machine.now.clock }
    ensures { result ≡ place_seen (K.held kept.now) facts.now who.now consumer.now }
{
    if !is_root(facts, kept, who) {
        return None;
    }
    machine.places().place(consumer.bytes())
}

/// The entries after the place of the consumer of this name, at most some, if the caller is root.
pub fn log_of<K: Kept>(
    alloc: Global,
    machine: &Machine<K>,
    facts: &Facts,
    kept: &K,
    who: &Who,
    consumer: &Text,
    max: u64,
) -> Result<Result<Answer, Refusal>, AllocError>
    requires { facts.now ≡ given.facts machine.now.history machine.now.clock }
    ensures { IfOk result (λ r. r
        ≡ log_of (past_at machine.now) (K.held kept.now) facts.now who.now consumer.now max) }
{
    let Some(place) = place_seen(machine, facts, kept, who, consumer) else {
        return Ok(Err(not_found(alloc, consumer.as_str())?));
    };
    let answer = entries_told(alloc, machine, place, max)?;
    Ok(Ok(answer))
}
